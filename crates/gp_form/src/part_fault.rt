//! Why no part of a line could be read.

use std::alloc::{AllocError, AllocFailed};

/// Why nothing could be read at the front of some tokens.
#[derive(Clone, Copy)]
pub enum PartFault {
    /// No rule of the grammar spells what stands there.
    NotSpelled,
    /// No memory.
    Memory,
}

impl From<AllocError> for PartFault {
    ghost use Rattle.std.specs.Prelude.{◌≡◌};
    ghost use Rattle.gp_form.specs.declared.part_fault.PartFault.TheVariants.{Memory};

    ghost from_gives = { λ _ e. e ≡ Memory };

    fn from(_: AllocError) -> PartFault {
        PartFault::Memory
    }
}

impl<T: Drop> From<AllocFailed<T>> for PartFault {
    ghost use Rattle.std.specs.Prelude.{◌≡◌};
    ghost use Rattle.gp_form.specs.declared.part_fault.PartFault.TheVariants.{Memory};

    ghost from_gives = { λ _ e. e ≡ Memory };

    fn from(_: AllocFailed<T>) -> PartFault {
        PartFault::Memory
    }
}
