//! Lines and tokens: the lexical rules of Python's language reference, in the profile of Guppy that
//! Pirtwald compiles.
#![tactic(auto)]

mod character;
mod context;
pub mod fault;
pub mod laws;
pub mod line;
mod piece;
mod quoted;
mod reader;
mod symbol;
pub mod token;
mod value;

pub use fault::LexFault;
pub use line::{Lines, LogicalLine};
pub use reader::lines;
pub use token::{Keyword, Symbol, Token, Tokens};
