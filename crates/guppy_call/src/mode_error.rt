//! Why a mode made nothing of its input.

use crate::refusal::{GraphFault, Refusal};
use hg_json::JsonFault;
use std::alloc::{AllocError, AllocFailed};

/// Why a mode made nothing of its input.
#[derive(Debug, Drop)]
pub enum ModeError {
    /// It is refused.
    Refused(Refusal),
    /// There was no memory.
    Memory,
}

impl From<AllocError> for ModeError {
    ghost use Rattle.std.specs.Prelude.{◌≡◌};
    ghost use Rattle.guppy_call.specs.declared.mode_error.ModeError.TheVariants.{Memory};

    ghost from_gives = { λ _ e. e ≡ Memory };

    fn from(_e: AllocError) -> ModeError {
        ModeError::Memory
    }
}

impl<T: Drop> From<AllocFailed<T>> for ModeError {
    ghost use Rattle.std.specs.Prelude.{◌≡◌};
    ghost use Rattle.guppy_call.specs.declared.mode_error.ModeError.TheVariants.{Memory};

    ghost from_gives = { λ _ e. e ≡ Memory };

    fn from(_e: AllocFailed<T>) -> ModeError {
        ModeError::Memory
    }
}

impl From<JsonFault> for ModeError {
    ghost use Rattle.std.specs.Prelude.{◌≡◌};
    ghost use Rattle.guppy_call.specs.code.GraphFault.{error_of};

    ghost from_gives = { λ fault e. e ≡ error_of fault };

    fn from(fault: JsonFault) -> ModeError {
        let fault = match fault {
            JsonFault::NotJson => GraphFault::NotJson,
            JsonFault::Top => GraphFault::Top,
            JsonFault::Version => GraphFault::Version,
            JsonFault::Node(number) => GraphFault::Node(number),
            JsonFault::Link(number) => GraphFault::Link(number),
            JsonFault::Memory => return ModeError::Memory,
        };
        ModeError::Refused(Refusal::Graph(fault))
    }
}
