//! Why a run goes no further.

use std::alloc::{AllocError, AllocFailed};

/// Why a run goes no further.
#[derive(Clone, Copy)]
pub enum Halt {
    /// A loop or a call needs a turn, and no turn is left.
    TurnsUsed,
    /// A measurement needs an outcome, and no outcome is left.
    OutcomesUsed,
    /// A number is divided by zero.
    DivisionByZero,
    /// The run is stuck: it meets a value of a wrong kind, or none where it needs one.
    Stuck,
    /// Memory ran out.
    Memory,
}

impl From<AllocError> for Halt {
    ghost use Rattle.std.specs.Prelude.{◌≡◌};
    ghost use Rattle.gp_evaluator.specs.declared.halt.Halt.TheVariants.{Memory};

    ghost from_gives = { λ _ e. e ≡ Memory };

    fn from(_: AllocError) -> Halt {
        Halt::Memory
    }
}

impl<T: Drop> From<AllocFailed<T>> for Halt {
    ghost use Rattle.std.specs.Prelude.{◌≡◌};
    ghost use Rattle.gp_evaluator.specs.declared.halt.Halt.TheVariants.{Memory};

    ghost from_gives = { λ _ e. e ≡ Memory };

    fn from(_: AllocFailed<T>) -> Halt {
        Halt::Memory
    }
}
