//! Program graphs after the HUGR specification, in the profile of this repository: a list of nodes, each
//! with its op and its parent, and a list of links. `specs/` says what a graph is, which rules a valid
//! one keeps and what its run is.
#![tactic(auto)]

mod filling;
pub mod graph;
mod indexes;
pub mod laws;
pub mod link;
mod node_index;
mod ports;
mod sources;

pub use graph::{Graph, Node, Nodes};
pub use laws::{thin_graphs_are_linked, thin_graphs_run};
pub use link::{Link, NodeId, Port};
