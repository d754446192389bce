//! The front end: a source text's program with its scope and its types, or the first fault of its lines, its nesting,
//! its names or its types.
#![tactic(auto)]

pub mod checked;
pub mod fault;
pub mod laws;

pub use checked::{CheckedText, check_text};
pub use fault::TextFault;
