//! Why a text is no table.

use std::alloc::{AllocError, AllocFailed};
use std::fmt;

/// Why a line of a table can't be read.
#[derive(Clone, Copy)]
pub enum Malformed {
    /// A line that begins with no word or sign of the format.
    UnknownLine,
    /// `under` with a name that no head above has.
    UnknownHead,
    /// A row without a colon, or with nothing in front of it or behind it.
    RowWithoutColon,
    /// A row above which nothing says what is told of it.
    NothingTold,
    /// Text above the first head and the first row.
    TextOfNothing,
    /// A repetition without a number, or without a blank behind it.
    NoCount,
    /// An escape that isn't one of those that there are.
    UnknownEscape,
    /// A text above the limit.
    TooLong,
    /// Memory ran out.
    Memory,
}

impl fmt::Display for Malformed {
    fn fmt<W: fmt::Write>(&self, f: &mut fmt::Formatter<W>) -> fmt::Result {
        f.write_str(match self {
            Malformed::UnknownLine => "no line of a table begins so",
            Malformed::UnknownHead => "no head above has this name",
            Malformed::RowWithoutColon => "a row is `row NAME: what it shows`",
            Malformed::NothingTold => "no line `tell ...` stands above",
            Malformed::TextOfNothing => "no head and no row stands above",
            Malformed::NoCount => "a repetition is `*COUNT TEXT`",
            Malformed::UnknownEscape => "no such escape",
            Malformed::TooLong => "a text has at most 64 MiB",
            Malformed::Memory => "no memory",
        })
    }
}

impl From<AllocError> for Malformed {
    fn from(_: AllocError) -> Malformed {
        Malformed::Memory
    }
}

impl<T: Drop> From<AllocFailed<T>> for Malformed {
    fn from(_: AllocFailed<T>) -> Malformed {
        Malformed::Memory
    }
}
