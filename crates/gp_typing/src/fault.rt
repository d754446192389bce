//! Faults of the typing phase.

use gp_base::LineNo;
use std::alloc::{AllocError, AllocFailed};

/// What is wrong with a program's types, with the line where it is.
#[derive(Clone, Copy, Debug)]
pub enum TypeFault {
    /// A name that is none of the function's own, a field that its type doesn't have, or a call of something that
    /// can't be called.
    UnknownName(LineNo),
    /// A name of the function that has no type on some path to this place.
    NotOnEveryPath(LineNo),
    /// A type that doesn't fit.
    Mismatch(LineNo),
    /// A call with too few or too many arguments, or a pattern with another number of targets than its tuple has parts.
    WrongCount(LineNo),
    /// A tuple whose type has a size above `TYPE_SIZE_LIMIT`.
    TooBigType(LineNo),
    /// The types of the usable names have a total size above `TOTAL_SIZE_LIMIT`.
    TooManyPlaces(LineNo),
    /// A function with a result whose end can be reached without a `return`.
    MissingReturn(LineNo),
    /// A statement that no path reaches.
    Unreachable(LineNo),
    /// A loop at whose end a name that was usable at its head isn't any more, or has another type.
    LoopChangesType(LineNo),
    /// A name that is a borrowed parameter is assigned.
    BorrowedAssigned(LineNo),
    /// Memory ran out.
    Memory,
}

impl From<AllocError> for TypeFault {
    ghost use Rattle.std.specs.Prelude.{◌≡◌};
    ghost use Rattle.gp_typing.specs.declared.fault.TypeFault.TheVariants.{Memory};

    ghost from_gives = { λ _ e. e ≡ Memory };

    fn from(_: AllocError) -> TypeFault {
        TypeFault::Memory
    }
}

impl<T: Drop> From<AllocFailed<T>> for TypeFault {
    ghost use Rattle.std.specs.Prelude.{◌≡◌};
    ghost use Rattle.gp_typing.specs.declared.fault.TypeFault.TheVariants.{Memory};

    ghost from_gives = { λ _ e. e ≡ Memory };

    fn from(_: AllocFailed<T>) -> TypeFault {
        TypeFault::Memory
    }
}
