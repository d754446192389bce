//! What names stand for, as answers write it.

use crate::type_text::{told_signature, told_struct, told_type};
use gp_base::LineNo;
use gp_scope::Scope;
use gp_tree::{Import, Item, Program};
use std::alloc::{AllocError, Global};

// The names of an import, each with whether the program has it from there.
fn told_import(alloc: Global, scope: &Scope, import: &Import) -> Result<String, AllocError> {
    let mut told = String::from_str(alloc, "import")?;
    for name in import.names.as_slice() {
        let name = name.as_str();
        let mark = if scope.imports(name) { "" } else { "no " };
        told.push_str(format!(in alloc; " {mark}{name}")?.as_str())?;
    }
    Ok(told)
}

// What the name of an item stands for.
fn told_item(alloc: Global, scope: &Scope, item: &Item) -> Result<String, AllocError> {
    match item {
        Item::Import(import) => told_import(alloc, scope, import),
        Item::Struct(decl) => {
            let name = decl.name.as_str();
            told_struct(alloc, name, scope.struct_type(name))
        }
        Item::Function(function) => {
            let name = function.name.as_str();
            told_signature(alloc, name, scope.signature(name))
        }
    }
}

// The types that annotated assignments on the lines up to this one write.
fn told_annotated(alloc: Global, scope: &Scope, last: u32) -> Result<String, AllocError> {
    let mut told = String::new(alloc);
    for line in 0..last {
        let line = line.saturating_add(1);
        if let Some(ty) = scope.annotated(LineNo(line)) {
            let ty = told_type(alloc, ty)?;
            told.push_str(format!(in alloc; "line {line} writes {ty}\n")?.as_str())?;
        }
    }
    Ok(told)
}

/// What each item of a program of this many lines stands for, the types that its annotated assignments write, and the
/// number of its functions.
pub fn told_scope(
    alloc: Global,
    program: &Program,
    scope: &Scope,
    lines: u32,
) -> Result<String, AllocError> {
    let mut told = String::new(alloc);
    for item in program.as_slice() {
        told.push_str(told_item(alloc, scope, item)?.as_str())?;
        told.push_str("\n")?;
    }
    told.push_str(told_annotated(alloc, scope, lines)?.as_str())?;
    told.push_str(format!(in alloc; "functions: {}", scope.function_count())?.as_str())?;
    Ok(told)
}
