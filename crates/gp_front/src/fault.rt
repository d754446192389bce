//! Why a text isn't a program of well-typed functions.

use gp_lex::LexFault;
use gp_parse::ParseFault;
use gp_scope::ScopeFault;
use gp_typing::TypeFault;

/// The first fault of a text, by the phase that has it. The phases come in this order, and each speaks only of texts
/// that all phases before it let pass. `Memory` of a phase may come in place of any answer of that phase and of those
/// behind it.
#[derive(Clone, Copy, Debug)]
pub enum TextFault {
    /// The text has no lines.
    Lex(LexFault),
    /// Its lines are no program.
    Parse(ParseFault),
    /// The names of its program have a fault.
    Scope(ScopeFault),
    /// The types of its program have one.
    Type(TypeFault),
}
