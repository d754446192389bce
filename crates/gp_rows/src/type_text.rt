//! Types, signatures and typed functions, as answers write them.

use gp_front::CheckedText;
use gp_tree::Item;
use gp_types::{FunParam, Mode, SigParam, Signature, Ty, leaf_count, size};
use gp_typing::{TypedFunction, TypedStmt};
use std::alloc::{AllocError, Global};

/// A type as a source text writes it; a struct by its name.
#[cycle(told)]
pub fn told_type(alloc: Global, ty: &Ty) -> Result<String, AllocError> {
    match ty {
        Ty::Int => format!(in alloc; "int"),
        Ty::Bool => format!(in alloc; "bool"),
        Ty::Qubit => format!(in alloc; "qubit"),
        Ty::Struct(name, _) => format!(in alloc; "{}", name.as_str()),
        Ty::Tuple(parts) => {
            let mut told = String::new(alloc);
            for part in parts.iter() {
                if !told.is_empty() {
                    told.push_str(", ")?;
                }
                told.push_str(told_type(alloc, part)?.as_str())?;
            }
            format!(in alloc; "tuple[{told}]")
        }
        Ty::Function(params, answer) => {
            let params = told_params(alloc, params)?;
            let answer = match answer {
                Some(ty) => told_type(alloc, ty)?,
                None => format!(in alloc; "None")?,
            };
            format!(in alloc; "Callable[[{params}], {answer}]")
        }
    }
}

// Parameters of a function type, as a source text writes them.
#[cycle(told)]
fn told_params(alloc: Global, params: &[FunParam]) -> Result<String, AllocError> {
    let mut told = String::new(alloc);
    for param in params {
        if !told.is_empty() {
            told.push_str(", ")?;
        }
        told.push_str(told_type(alloc, &param.ty)?.as_str())?;
        if param.mode == Mode::Owned {
            told.push_str(" @owned")?;
        }
    }
    Ok(told)
}

/// The fields of a struct type, and its size and the number of its leaves.
pub fn told_struct(alloc: Global, name: &str, ty: Option<&Ty>) -> Result<String, AllocError> {
    let Some(ty) = ty else {
        return format!(in alloc; "{name} is no struct");
    };
    let fields = told_fields(alloc, ty)?;
    format!(in alloc;
        "struct {name}: {fields}size {}, leaves {}",
        size(ty),
        leaf_count(ty)
    )
}

fn told_fields(alloc: Global, ty: &Ty) -> Result<String, AllocError> {
    let mut told = String::new(alloc);
    if let Ty::Struct(_, fields) = ty {
        for field in fields.iter() {
            let ty = told_type(alloc, &field.ty)?;
            told.push_str(format!(in alloc; "{}: {ty}, ", field.name.as_str())?.as_str())?;
        }
    }
    Ok(told)
}

fn told_parameter(alloc: Global, param: &SigParam) -> Result<String, AllocError> {
    let mode = match param.mode {
        Mode::Borrowed => "borrowed",
        Mode::Owned => "owned",
        Mode::Copied => "copied",
    };
    let ty = told_type(alloc, &param.ty)?;
    format!(in alloc; "{}: {ty} {mode}, ", param.name.as_str())
}

/// What the function of this name takes, and what it answers.
pub fn told_signature(
    alloc: Global,
    name: &str,
    signature: Option<&Signature>,
) -> Result<String, AllocError> {
    let Some(signature) = signature else {
        return format!(in alloc; "{name} is no function");
    };
    let mut told = format!(in alloc; "function {name}: ")?;
    for param in signature.params.as_slice() {
        told.push_str(told_parameter(alloc, param)?.as_str())?;
    }
    match &signature.result {
        None => told.push_str("answers nothing")?,
        Some(ty) => {
            told.push_str("answers ")?;
            told.push_str(told_type(alloc, ty)?.as_str())?;
        }
    }
    Ok(told)
}

// The usable names before a statement, with their types.
fn told_names(alloc: Global, statement: &TypedStmt) -> Result<String, AllocError> {
    let mut told = String::new(alloc);
    let before = statement.before.listed(alloc)?;
    for usable in before.as_slice() {
        let ty = told_type(alloc, &usable.ty)?;
        told.push_str(format!(in alloc; " {}: {ty}", usable.name.as_str())?.as_str())?;
    }
    Ok(told)
}

// A function with its types: its signature, a line for each statement of its outer block, and whether its end is reached.
fn told_function(alloc: Global, function: &TypedFunction) -> Result<String, AllocError> {
    let mut told = told_signature(alloc, function.name.as_str(), Some(&function.signature))?;
    for statement in &function.body.stmts {
        told.push_str("\nbefore a statement:")?;
        told.push_str(told_names(alloc, statement)?.as_str())?;
    }
    told.push_str(if function.body.end_reached {
        "\nthe end is reached\n"
    } else {
        "\nthe end isn't reached\n"
    })?;
    Ok(told)
}

fn told_structs(alloc: Global, checked: &CheckedText) -> Result<String, AllocError> {
    let mut told = String::new(alloc);
    for item in checked.program.as_slice() {
        if let Item::Struct(decl) = item {
            let name = decl.name.as_str();
            let ty = checked.typed.struct_type(name);
            told.push_str(told_struct(alloc, name, ty)?.as_str())?;
            told.push_str("\n")?;
        }
    }
    Ok(told)
}

/// The structs and the functions of a text with their types.
pub fn told_types(alloc: Global, checked: &CheckedText) -> Result<String, AllocError> {
    let mut told = told_structs(alloc, checked)?;
    for k in 0..checked.typed.len() {
        if let Some(function) = checked.typed.get(k) {
            told.push_str(told_function(alloc, function)?.as_str())?;
        }
    }
    Ok(told)
}
