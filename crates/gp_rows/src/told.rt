//! What is told of a row.

ghost use Rattle.std.specs.Prelude.{◌≤◌, length};

use crate::fault_text::{lex_code, parse_code, scope_code, told_code, told_fault};
use crate::kind::{Kind, Start};
use crate::program_text::{told_form_names, told_forms, told_items, told_lines_of_items};
use crate::run_text::told_run;
use crate::scope_text::told_scope;
use crate::token_text::told_lines;
use crate::type_text::told_types;
use gp_base::SOURCE_LIMIT;
use gp_front::check_text;
use gp_lex::{Lines, lines};
use gp_parse::program;
use gp_scope::collect;
use gp_tree::Program;
use std::alloc::{AllocError, Global};

/// What is told of a text, in one line or more.
pub fn answer(alloc: Global, kind: Kind<'_>, text: &[u8]) -> Result<String, AllocError> {
    if text.len() > SOURCE_LIMIT {
        return format!(in alloc; "longer than a text may be");
    }
    let told = match kind {
        Kind::Faults => told_first_fault(alloc, text)?,
        Kind::Types => told_typed(alloc, text)?,
        Kind::Run(start) => told_of_run(alloc, start, text)?,
        Kind::Tokens
        | Kind::Forms
        | Kind::FormNames
        | Kind::Items
        | Kind::ItemLines
        | Kind::Scope => told_of_lines(alloc, kind, text)?,
    };
    if told.is_empty() {
        return format!(in alloc; "nothing");
    }
    Ok(told)
}

// The first fault of the text, or that it has none.
fn told_first_fault(alloc: Global, text: &[u8]) -> Result<String, AllocError>
    requires { length text.now ≤ SOURCE_LIMIT }
{
    match check_text(alloc, text) {
        Ok(_) => format!(in alloc; "Ok"),
        Err(fault) => told_fault(alloc, fault),
    }
}

fn told_typed(alloc: Global, text: &[u8]) -> Result<String, AllocError>
    requires { length text.now ≤ SOURCE_LIMIT }
{
    match check_text(alloc, text) {
        Ok(checked) => told_types(alloc, &checked),
        Err(fault) => told_fault(alloc, fault),
    }
}

// The run of a text without a fault.
fn told_of_run(alloc: Global, start: Start<'_>, text: &[u8]) -> Result<String, AllocError>
    requires { length text.now ≤ SOURCE_LIMIT }
{
    match check_text(alloc, text) {
        Ok(checked) => told_run(alloc, &checked.program, &checked.scope, start),
        Err(fault) => told_fault(alloc, fault),
    }
}

// What the kind tells of the text's lines.
fn told_of_lines(alloc: Global, kind: Kind<'_>, text: &[u8]) -> Result<String, AllocError>
    requires { length text.now ≤ SOURCE_LIMIT }
{
    let found = match lines(alloc, text) {
        Ok(found) => found,
        Err(fault) => return told_code(alloc, lex_code(fault)),
    };
    match kind {
        Kind::Tokens => told_lines(alloc, &found),
        Kind::Forms => told_forms(alloc, &found),
        Kind::FormNames => told_form_names(alloc, &found),
        _ => told_of_program(alloc, kind, &found),
    }
}

// What the kind tells of the program that the lines nest to.
fn told_of_program(alloc: Global, kind: Kind<'_>, found: &Lines) -> Result<String, AllocError> {
    let items = match program(alloc, found) {
        Ok(items) => items,
        Err(fault) => return told_code(alloc, parse_code(fault)),
    };
    match kind {
        Kind::Items => told_items(alloc, &items),
        Kind::ItemLines => told_lines_of_items(alloc, &items),
        _ => told_of_names(alloc, &items, last_line(found)),
    }
}

// The number of the last logical line.
fn last_line(found: &Lines) -> u32 {
    match found.as_slice() {
        [.., last] => last.number.0,
        [] => 0,
    }
}

fn told_of_names(alloc: Global, items: &Program, lines: u32) -> Result<String, AllocError> {
    match collect(alloc, items) {
        Ok(scope) => told_scope(alloc, items, &scope, lines),
        Err(fault) => told_code(alloc, scope_code(fault)),
    }
}
