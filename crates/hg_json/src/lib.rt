//! The text of a program graph, in compact JSON: written, and read back.
#![tactic(auto)]

mod fault;
mod keyless;
mod laws;
mod links;
mod nodes;
mod parts;
mod profile;
mod reading;
mod rows;
mod type_reading;
mod type_writing;
mod values;
mod writing;

pub use fault::JsonFault;
pub use laws::written_graphs_read_back;
pub use reading::{MAX_TEXT_BYTES, read};
pub use writing::write;
