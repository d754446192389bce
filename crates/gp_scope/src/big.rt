//! The types that a program writes are within the limit on sizes.

ghost use Rattle.std.specs.Prelude.{◌≡◌, ℕ, List, map};
ghost use Rattle.gp_tree.specs.Form.{parameter};
ghost use Rattle.gp_tree.specs.Program.{program_items, function_definition};
ghost use Rattle.gp_tree.specs.TypeExpression.{type_expression, maybe_type, named_type};
ghost use Rattle.gp_scope.specs.Checks.{Answers};
ghost use Rattle.gp_scope.specs.Sizes as spec;
ghost use Rattle.gp_scope.specs.code.SizesOf.{AreSizes};
ghost use Rattle.gp_scope.specs.code.NamesOf.{AreNames};
ghost use Rattle.gp_scope.specs.code.AnnotationView.{annotation};

use crate::annotations::{Annotation, annotations};
use crate::fault::ScopeFault;
use crate::names::{Names, value_of};
use crate::sizes::written_size;
use gp_base::LineNo;
use gp_tree::{Function, Item, Param, TypeExpr};
use gp_types::TYPE_SIZE_LIMIT;
use std::alloc::Global;

/// Each struct, parameter, result and annotated assignment in turn has a type within the limit.
pub fn check_sizes(alloc: Global, names: &Names, sizes: &[u64]) -> Result<(), ScopeFault>
    requires { AreSizes names.now sizes.now }
    ensures { Answers result (spec.sizes_fault (program_items names.now.items.now) (program_items names.now.items.now)) }
{
    for item in names.items {
        match item {
            Item::Import(_) => {}
            Item::Struct(decl) => check_struct(names, sizes, decl.line, decl.name.as_str())?,
            Item::Function(function) => check_function(alloc, names, sizes, function)?,
        }
    }
    Ok(())
}

fn check_struct(names: &Names, sizes: &[u64], line: LineNo, name: &str) -> Result<(), ScopeFault>
    requires { AreSizes names.now sizes.now }
    ensures { Answers result (spec.big_type_fault (program_items names.now.items.now) line (named_type name.now)) }
{
    if value_of(names, sizes, name) > TYPE_SIZE_LIMIT {
        return Err(ScopeFault::TooBigType(line));
    }
    Ok(())
}

fn check_function(
    alloc: Global,
    names: &Names,
    sizes: &[u64],
    function: &Function,
) -> Result<(), ScopeFault>
    requires { AreSizes names.now sizes.now }
    ensures { Answers result (spec.big_function_fault (program_items names.now.items.now) (function_definition function.now)) }
{
    check_parameters(names, sizes, function.line, function.params.as_slice())?;
    check_result(names, sizes, function.line, &function.result)?;
    let annotations = annotations(alloc, &function.body)?;
    check_annotations(names, sizes, &annotations)
}

fn check_parameters(
    names: &Names,
    sizes: &[u64],
    line: LineNo,
    params: &[Param],
) -> Result<(), ScopeFault>
    requires { AreSizes names.now sizes.now }
    ensures { Answers result (spec.big_parameters_fault (program_items names.now.items.now) line (map parameter params.now)) }
{
    for param in params {
        check_type(names, sizes, line, &param.ty)?;
    }
    Ok(())
}

fn check_result(
    names: &Names,
    sizes: &[u64],
    line: LineNo,
    answer: &Option<TypeExpr>,
) -> Result<(), ScopeFault>
    requires { AreSizes names.now sizes.now }
    ensures { Answers result (spec.big_result_fault (program_items names.now.items.now) line (maybe_type answer.now)) }
{
    match answer {
        None => Ok(()),
        Some(ty) => check_type(names, sizes, line, ty),
    }
}

fn check_annotations(
    names: &Names,
    sizes: &[u64],
    annotations: &[Annotation],
) -> Result<(), ScopeFault>
    requires { AreSizes names.now sizes.now }
    ensures { Answers result (spec.big_annotations_fault (program_items names.now.items.now) (map annotation annotations.now)) }
{
    for annotation in annotations {
        check_type(names, sizes, annotation.line, annotation.ty)?;
    }
    Ok(())
}

fn check_type(names: &Names, sizes: &[u64], line: LineNo, ty: &TypeExpr) -> Result<(), ScopeFault>
    requires { AreSizes names.now sizes.now }
    ensures { Answers result (spec.big_type_fault (program_items names.now.items.now) line (type_expression ty.now)) }
{
    if written_size(names, sizes, ty) > TYPE_SIZE_LIMIT {
        return Err(ScopeFault::TooBigType(line));
    }
    Ok(())
}
