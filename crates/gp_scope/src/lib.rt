//! The names of a program: what it imports, its struct types, the signatures of its functions and the types that its
//! annotated assignments write; or the first fault that its names have.
#![tactic(auto)]

mod annotations;
mod big;
mod components;
mod cycles;
mod definitions;
pub mod fault;
mod imports;
pub mod laws;
pub mod modules;
mod names;
mod parts;
mod phase;
pub mod scope;
mod sizes;
mod tables;
mod types;

pub use fault::ScopeFault;
pub use phase::collect;
pub use scope::Scope;
