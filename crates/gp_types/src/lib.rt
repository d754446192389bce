//! Types of the source language, how functions take and answer them, and the built-in functions.
#![tactic(auto)]

pub mod builtins;
pub mod limit;
pub mod mode;
pub mod names;
pub mod same;
pub mod signature;
pub mod ty;

pub use builtins::{Builtin, BuiltinParameter, BuiltinType};
pub use limit::TYPE_SIZE_LIMIT;
pub use mode::Mode;
pub use names::builtin;
pub use same::{same_type, same_types};
pub use signature::{SigParam, SigParams, Signature};
pub use ty::{Field, Fields, FunParam, FunParams, Ty, Tys, is_linear, leaf_count, size};
