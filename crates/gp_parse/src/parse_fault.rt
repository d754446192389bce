//! Why lines are no program.

use gp_base::LineNo;
use std::alloc::{AllocError, AllocFailed};

/// Why lines are no program.
#[derive(Clone, Copy, Debug, PartialEq, Eq)]
pub enum ParseFault {
    /// A line with more than 600 tokens, or with more than 50 brackets open at once.
    TooBig(LineNo),
    /// A line that no line form spells.
    NotALine(LineNo),
    /// A line that no program's lines go on with, after those before it; or the last line, where the lines end
    /// too early.
    Nesting(LineNo),
    /// A header whose block would have a level above 50, where some program's lines would else go on with it.
    TooDeep(LineNo),
    /// No memory.
    Memory,
}

impl From<AllocError> for ParseFault {
    ghost use Rattle.std.specs.Prelude.{◌≡◌};
    ghost use Rattle.gp_parse.specs.declared.parse_fault.ParseFault.TheVariants.{Memory};

    ghost from_gives = { λ _ e. e ≡ Memory };

    fn from(_: AllocError) -> ParseFault {
        ParseFault::Memory
    }
}

impl<T: Drop> From<AllocFailed<T>> for ParseFault {
    ghost use Rattle.std.specs.Prelude.{◌≡◌};
    ghost use Rattle.gp_parse.specs.declared.parse_fault.ParseFault.TheVariants.{Memory};

    ghost from_gives = { λ _ e. e ≡ Memory };

    fn from(_: AllocFailed<T>) -> ParseFault {
        ParseFault::Memory
    }
}
