//! From logical lines to programs, by the forms of the lines and the rules of nesting: which lines are the lines of
//! which program, and else the first fault.
#![tactic(auto)]

mod block_end;
mod block_line;
pub mod form_line;
pub mod laws;
pub mod nested_lines;
mod open_blocks;
pub mod parse_fault;
mod position;
pub mod program_lines;
mod simple_line;

pub use form_line::FormLine;
pub use gp_form::{FormFault, line_form};
pub use nested_lines::nest;
pub use parse_fault::ParseFault;
pub use program_lines::program;
