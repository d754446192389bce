//! Which program graphs are valid, and which of those are ordered.
#![tactic(auto)]

mod ancestors;
mod blocks;
mod broken;
mod cycle;
mod effects;
mod links;
mod names;
mod nodes;
mod op_tests;
pub mod ordered;
mod places;
mod port_links;
mod regions;
mod rows;
mod rule;
mod signatures;
mod successors;
mod tables;
mod tags;
pub mod valid;

pub use ordered::is_ordered;
pub use valid::{Invalid, Valid, validate};
