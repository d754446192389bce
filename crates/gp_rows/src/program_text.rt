//! Forms of lines and items of programs, as answers write them.

use crate::fault_text::{form_code, told_code};
use gp_form::line_form;
use gp_lex::{Lines, LogicalLine};
use gp_tree::{Item, Program};
use std::alloc::{AllocError, Global};

// A line's form, or why it has none.
fn told_form(alloc: Global, line: &LogicalLine) -> Result<String, AllocError> {
    match line_form(alloc, line) {
        Ok(form) => {
            let told = format!(in alloc; "{form:?}");
            drop(form);
            told
        }
        Err(fault) => told_code(alloc, form_code(fault)),
    }
}

/// The form of each line.
pub fn told_forms(alloc: Global, lines: &Lines) -> Result<String, AllocError> {
    let mut told = String::new(alloc);
    for line in lines.as_slice() {
        told.push_str(told_form(alloc, line)?.as_str())?;
        told.push_str("\n")?;
    }
    Ok(told)
}

/// The name of each line's form.
pub fn told_form_names(alloc: Global, lines: &Lines) -> Result<String, AllocError> {
    let mut told = String::new(alloc);
    for line in lines.as_slice() {
        let form = told_form(alloc, line)?;
        let (name, _) = form.as_str().split_once('(').unwrap_or((form.as_str(), ""));
        told.push_str(name)?;
        told.push_str("\n")?;
    }
    Ok(told)
}

// An item with all that it has; a function by the lines of its decorator and its `def` and by its body.
fn told_item(alloc: Global, item: &Item) -> Result<String, AllocError> {
    match item {
        Item::Import(import) => format!(in alloc; "{import:?}"),
        Item::Struct(decl) => format!(in alloc; "{decl:?}"),
        Item::Function(function) => format!(in alloc;
            "function {} {} {:?}",
            function.mark.0, function.line.0, function.body
        ),
    }
}

/// Each item of a program.
pub fn told_items(alloc: Global, program: &Program) -> Result<String, AllocError> {
    let mut told = String::new(alloc);
    for item in program.as_slice() {
        told.push_str(told_item(alloc, item)?.as_str())?;
        told.push_str("\n")?;
    }
    Ok(told)
}

// An item by its lines: that of its decorator, if it has one, and its own.
fn told_item_lines(alloc: Global, item: &Item) -> Result<String, AllocError> {
    match item {
        Item::Import(import) => format!(in alloc; "import {}", import.line.0),
        Item::Struct(decl) => format!(in alloc; "struct {} {}", decl.mark.0, decl.line.0),
        Item::Function(function) => {
            format!(in alloc; "function {} {}", function.mark.0, function.line.0)
        }
    }
}

/// The lines of each item of a program.
pub fn told_lines_of_items(alloc: Global, program: &Program) -> Result<String, AllocError> {
    let mut told = String::new(alloc);
    for item in program.as_slice() {
        told.push_str(told_item_lines(alloc, item)?.as_str())?;
        told.push_str("\n")?;
    }
    Ok(told)
}
