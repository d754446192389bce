//! A builder of program graphs, region by region.
#![tactic(auto)]

mod growing;
pub mod laws;
pub mod region;
pub mod sample;
pub mod wire;

pub use region::{Outer, Region};
pub use wire::{AnyWire, BuildFault, LinearWire, Wire, Wires};
