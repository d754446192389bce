//! What the words of a command line ask for.
#![tactic(auto)]

mod error;
mod given;
mod number;
mod request;

pub use error::WordsError;
pub use request::{Request, RunOptions, request_of};
