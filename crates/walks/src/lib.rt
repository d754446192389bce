//! Walks over lists of successors, where each node has a list of the nodes to which it leads: the greatest number of
//! marked nodes on a walk from each node, the least node that is on a cycle, and numbers of the strongly connected
//! components.
#![tactic(auto)]

mod back;
mod components;
mod counts;
mod levels;

pub use back::first_back;
pub use components::component_numbers;
pub use counts::{Successors, longest_chains};
