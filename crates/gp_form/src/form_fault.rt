//! Why a line has no form.

use gp_base::LineNo;

/// Why a line has no form. A line's number is that of its first physical line, counted from 1.
#[derive(Clone, Copy)]
pub enum FormFault {
    /// The line has more than 600 tokens, or more than 50 brackets are open at once somewhere in it.
    TooBig(LineNo),
    /// The line isn't too big, and no form spells it.
    NotALine(LineNo),
    /// No memory.
    Memory,
}
