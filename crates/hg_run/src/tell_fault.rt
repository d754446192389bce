//! Why a run could not be told to its end.

ghost use Rattle.std.specs.Prelude.{◌≡◌};
ghost use Rattle.hg_run.specs.declared.tell_fault.TellFault.TheVariants as fault;

use gp_base::Failed;
use std::alloc::AllocError;

/// Why a run could not be told to its end.
#[derive(Clone, Copy, Debug, PartialEq, Eq)]
pub(crate) enum TellFault {
    /// The sink failed.
    WriteFault,
    /// Memory ran out.
    Memory,
}

impl From<Failed> for TellFault {
    ghost from_gives = { λ _ e. e ≡ fault.WriteFault };

    fn from(_failed: Failed) -> TellFault {
        TellFault::WriteFault
    }
}

impl From<AllocError> for TellFault {
    ghost from_gives = { λ _ e. e ≡ fault.Memory };

    fn from(_error: AllocError) -> TellFault {
        TellFault::Memory
    }
}
