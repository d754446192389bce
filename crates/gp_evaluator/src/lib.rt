//! The evaluator of source programs: the run of a program from one of its functions, and what it is made of: values, the
//! world that a run changes, the values of a function's names, operators, built-in functions, and what calls take and give.
#![tactic(auto)]

mod built_ins;
mod calls;
mod completion;
mod counter;
mod entry;
mod evaluator;
mod frame;
mod functions;
mod halt;
mod names;
mod operators;
pub mod value;
mod variables;
mod world;

pub use entry::{EvalFault, SourceEnd, evaluate};
