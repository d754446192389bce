//! The parts of definitions: fields, parameters, results and annotated assignments.

ghost use Rattle.std.specs.Prelude.{◌≡◌, [], map};
ghost use Rattle.gp_tree.specs.Form.{parameter};
ghost use Rattle.gp_tree.specs.Program.{program_items, field_definition, function_definition};
ghost use Rattle.gp_tree.specs.TypeExpression.{type_expression, type_expressions, parameter_types, result_type, maybe_type, named_type};
ghost use Rattle.gp_scope.specs.Checks.{Answers};
ghost use Rattle.gp_scope.specs.Parts as spec;
ghost use Rattle.gp_scope.specs.code.NamesOf.{AreNames};
ghost use Rattle.gp_scope.specs.code.AnnotationView.{annotation};

use crate::annotations::{Annotation, annotations};
use crate::fault::ScopeFault;
use crate::names::{Names, take_name};
use gp_base::LineNo;
use gp_tree::{FieldDecl, FunParamExpr, Function, Item, Param, TypeExpr};
use indexmap::IndexSet;
use std::alloc::Global;
use std::rc::Rc;

/// Each struct and function in turn has parts with names of their own and types that are known.
pub fn check_parts(alloc: Global, names: &Names) -> Result<(), ScopeFault>
    requires { AreNames names.now }
    ensures { Answers result (spec.parts_fault (program_items names.now.items.now) (program_items names.now.items.now)) }
{
    for item in names.items {
        match item {
            Item::Import(_) => {}
            Item::Struct(decl) => check_fields(alloc, names, decl.fields.as_slice())?,
            Item::Function(function) => check_function(alloc, names, function)?,
        }
    }
    Ok(())
}

fn check_fields(alloc: Global, names: &Names, fields: &[FieldDecl]) -> Result<(), ScopeFault>
    requires { AreNames names.now }
    ensures { Answers result (spec.fields_fault (program_items names.now.items.now) [] (map field_definition fields.now)) }
{
    let mut taken = IndexSet::new(alloc);
    for field in fields {
        if !take_name(&mut taken, field.name.as_str())? {
            return Err(ScopeFault::NameTwice(field.line));
        }
        check_type(names, field.line, &field.ty)?;
    }
    Ok(())
}

fn check_function(alloc: Global, names: &Names, function: &Function) -> Result<(), ScopeFault>
    requires { AreNames names.now }
    ensures { Answers result (spec.function_fault (program_items names.now.items.now) (function_definition function.now)) }
{
    check_parameters(alloc, names, function.line, function.params.as_slice())?;
    check_result(names, function.line, &function.result)?;
    let annotations = annotations(alloc, &function.body)?;
    check_annotations(names, &annotations)
}

fn check_parameters(
    alloc: Global,
    names: &Names,
    line: LineNo,
    params: &[Param],
) -> Result<(), ScopeFault>
    requires { AreNames names.now }
    ensures { Answers result (spec.parameters_fault (program_items names.now.items.now) line [] (map parameter params.now)) }
{
    let mut taken = IndexSet::new(alloc);
    for param in params {
        if !take_name(&mut taken, param.name.as_str())? {
            return Err(ScopeFault::NameTwice(line));
        }
        check_type(names, line, &param.ty)?;
        check_mark(names, line, param.owned)?;
    }
    Ok(())
}

fn check_result(names: &Names, line: LineNo, answer: &Option<TypeExpr>) -> Result<(), ScopeFault>
    requires { AreNames names.now }
    ensures { Answers result (spec.result_fault (program_items names.now.items.now) line (maybe_type answer.now)) }
{
    match answer {
        None => Ok(()),
        Some(ty) => check_type(names, line, ty),
    }
}

fn check_annotations(names: &Names, annotations: &[Annotation]) -> Result<(), ScopeFault>
    requires { AreNames names.now }
    ensures { Answers result (spec.annotations_fault (program_items names.now.items.now) (map annotation annotations.now)) }
{
    for annotation in annotations {
        check_type(names, annotation.line, annotation.ty)?;
    }
    Ok(())
}

// `@owned` needs an import.
fn check_mark(names: &Names, line: LineNo, owned: bool) -> Result<(), ScopeFault>
    requires { AreNames names.now }
    ensures { Answers result (spec.mark_fault (program_items names.now.items.now) line owned) }
{
    if owned && !names.imported.contains("owned") {
        return Err(ScopeFault::NotImported(line));
    }
    Ok(())
}

#[cycle(written)]
fn check_type(names: &Names, line: LineNo, ty: &TypeExpr) -> Result<(), ScopeFault>
    requires { AreNames names.now }
    ensures { Answers result (spec.type_fault (program_items names.now.items.now) line (type_expression ty.now)) }
{
    match ty {
        TypeExpr::Named(name) => check_type_name(names, line, name.as_str()),
        TypeExpr::Tuple(items) => check_types(names, line, items),
        TypeExpr::Callable(params, answer) => {
            if !names.imported.contains("Callable") {
                return Err(ScopeFault::NotImported(line));
            }
            check_parameter_types(names, line, params)?;
            check_result_type(names, line, answer)
        }
    }
}

#[cycle(written)]
fn check_types(names: &Names, line: LineNo, items: &[TypeExpr]) -> Result<(), ScopeFault>
    requires { AreNames names.now }
    ensures { Answers result (spec.types_fault (program_items names.now.items.now) line (type_expressions items.now)) }
{
    for item in items {
        check_type(names, line, item)?;
    }
    Ok(())
}

#[cycle(written)]
fn check_parameter_types(
    names: &Names,
    line: LineNo,
    params: &[FunParamExpr],
) -> Result<(), ScopeFault>
    requires { AreNames names.now }
    ensures { Answers result (spec.parameter_types_fault (program_items names.now.items.now) line (parameter_types params.now)) }
{
    for taken in params {
        check_type(names, line, &taken.ty)?;
        check_mark(names, line, taken.owned)?;
    }
    Ok(())
}

#[cycle(written)]
fn check_result_type(
    names: &Names,
    line: LineNo,
    answer: &Option<Rc<TypeExpr>>,
) -> Result<(), ScopeFault>
    requires { AreNames names.now }
    ensures { Answers result (spec.result_type_fault (program_items names.now.items.now) line (result_type answer.now)) }
{
    match answer {
        None => Ok(()),
        Some(ty) => check_type(names, line, ty),
    }
}

fn check_type_name(names: &Names, line: LineNo, name: &str) -> Result<(), ScopeFault>
    requires { AreNames names.now }
    ensures { Answers result (spec.type_fault (program_items names.now.items.now) line (named_type name.now)) }
{
    if is_type(names, name) {
        Ok(())
    } else {
        Err(ScopeFault::UnknownType(line))
    }
}

fn is_type(names: &Names, name: &str) -> bool
    requires { AreNames names.now }
    ensures { result ≡ spec.is_type (program_items names.now.items.now) name.now }
{
    match name {
        "int" | "bool" => true,
        _ => (name == "qubit" && names.imported.contains("qubit"))
            || names.structs.contains_key(name),
    }
}
