//! Source texts that all phases let pass.

ghost use Rattle.std.specs.Prelude.{◌≤◌, length};
ghost use Rattle.gp_front.specs.Checked.{IsChecked};

use crate::fault::TextFault;
use gp_base::SOURCE_LIMIT;
use gp_lex::lines;
use gp_parse::program;
use gp_scope::{Scope, collect};
use gp_tree::Program;
use gp_typing::{Typed, check};
use std::alloc::Global;

/// A text's program, with what its names stand for and what types it has.
#[derive(Drop)]
pub struct CheckedText {
    /// The items of the text.
    pub program: Program,
    /// What the names of the program stand for.
    pub scope: Scope,
    /// The functions of the program with their types.
    pub typed: Typed,
}

/// The program of a source text of at most 131,072 bytes, with its scope and its types; or the text's first fault.
///
/// Four phases follow one another: lines and tokens (`Lex`), forms of lines and nesting (`Parse`), names (`Scope`) and
/// types (`Type`). Each goes over the whole text before the next begins, so a fault of an earlier phase comes first also
/// where it stands further down. Within `Parse` a line without a form comes before a fault of nesting.
pub fn check_text(alloc: Global, text: &[u8]) -> Result<CheckedText, TextFault>
    requires { length text.now ≤ SOURCE_LIMIT }
    ensures { IsChecked text.now result }
{
    let lines = match lines(alloc, text) {
        Ok(lines) => lines,
        Err(fault) => return Err(TextFault::Lex(fault)),
    };
    let program = match program(alloc, &lines) {
        Ok(program) => program,
        Err(fault) => return Err(TextFault::Parse(fault)),
    };
    let scope = match collect(alloc, &program) {
        Ok(scope) => scope,
        Err(fault) => return Err(TextFault::Scope(fault)),
    };
    match check(alloc, &program, &scope) {
        Ok(typed) => Ok(CheckedText {
            program,
            scope,
            typed,
        }),
        Err(fault) => Err(TextFault::Type(fault)),
    }
}
