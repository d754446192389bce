//! From sources to graphs: so far of the thin texts, whose one function takes a qubit through lines of three kinds.
#![tactic(auto)]

pub mod laws;
pub mod thin;
pub mod thin_text;

pub use thin::lower_thin;
pub use thin_text::{ThinLine, ThinLines};
