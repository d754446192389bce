//! Runs of program graphs over a stack of open regions.
#![tactic(auto)]

mod arithmetic;
mod counted_set;
mod due;
mod entry;
mod fault;
mod firings;
mod followers;
mod functions;
mod leaf;
mod line_buffer;
mod named;
mod picking;
mod qubits;
mod reads;
mod running;
mod shapes;
mod state;
mod steps;
mod tables;
mod tell_fault;
mod telling;
mod value;
mod waiting;

pub use fault::RunFault;
pub use named::run;
