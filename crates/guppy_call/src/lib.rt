//! The top call: what the program `guppy` does for the words of its command line, over files and sinks of any kind. The program
//! hands it those of the system; tables of calls hand it files and sinks in memory.
#![tactic(auto)]

mod answer;
mod call;
mod compile;
pub mod input;
pub mod laws;
mod migrate;
mod mode_error;
mod output;
mod refusal;
mod run;
pub mod status;
mod validity;

pub use call::guppy;
pub use input::{InputError, read_input};
pub use status::Status;
