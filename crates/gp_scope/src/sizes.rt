//! The sizes of types, found by name before any type is spelled out.

ghost use Rattle.std.specs.Prelude.{◌≡◌, ℕ, ◌≤◌, ◌<◌, suc, List, length, map, min, nat_lt, IfOk};
ghost use Rattle.indexmap.specs.IndexMap.{values, index_map_len};
ghost use Rattle.gp_tree.specs.Form.{parameter};
ghost use Rattle.gp_tree.specs.Program.{program_items, field_definition, struct_definition, function_definition};
ghost use Rattle.gp_tree.specs.TypeExpression.{type_expression, type_expressions, parameter_types, result_type, maybe_type};
ghost use Rattle.gp_scope.specs.code.Levels.{size_by, total_by, params_total, answer_size_by, fields_total, level_size};
ghost use Rattle.gp_scope.specs.Tables.{value_in};
ghost use Rattle.gp_scope.specs.code.NamesOf.{AreNames};

use crate::names::{Names, value_of};
use gp_tree::{FieldDecl, FunParamExpr, TypeExpr};
use gp_types::TYPE_SIZE_LIMIT;
use std::alloc::{AllocError, Global};
use std::rc::Rc;

// What stands for every size above the limit.
const ABOVE: u64 = 65;

/// The sizes of the structs, by their places in the table of structs; 65 stands for every size above the limit, and for a
/// struct on a cycle or before one.
///
/// A struct has a size greater than those that it holds, so after as many rounds as the limit a size within it is the
/// whole size.
pub fn struct_sizes(alloc: Global, names: &Names) -> Result<Vec<u64>, AllocError>
    requires { AreNames names.now }
    ensures { IfOk result (λ sizes. (name : List ℕ) → value_in names.now.structs sizes.items name ≡ level_size TYPE_SIZE_LIMIT (program_items names.now.items.now) name) }
{
    let mut sizes = Vec::new(alloc);
    for _round in 0..TYPE_SIZE_LIMIT {
        sizes = next_sizes(alloc, names, &sizes)?;
    }
    Ok(sizes)
}

// The sizes of the structs, where those that they hold have the sizes of the round before.
fn next_sizes(alloc: Global, names: &Names, sizes: &[u64]) -> Result<Vec<u64>, AllocError>
    ensures { IfOk result (λ next. next.items ≡ map (λ s. min (suc (fields_total (value_in names.now.structs sizes.now) (struct_definition s.now).fields)) 65) (values names.now.structs)) }
{
    let mut next = Vec::new(alloc);
    for decl in names.structs.values() {
        next.push((1 + fields_size(names, sizes, decl.fields.as_slice())).min(ABOVE))?;
    }
    Ok(next)
}

fn fields_size(names: &Names, sizes: &[u64], fields: &[FieldDecl]) -> u64
    ensures { result ≡ min (fields_total (value_in names.now.structs sizes.now) (map field_definition fields.now)) 65 }
{
    let mut total: u64 = 0;
    for field in fields {
        total = (total + written_size(names, sizes, &field.ty)).min(ABOVE);
    }
    total
}

/// The size of a written type, where structs have these sizes; 65 where it is above the limit.
#[cycle(written)]
pub fn written_size(names: &Names, sizes: &[u64], ty: &TypeExpr) -> u64
    ensures { result ≡ min (size_by (value_in names.now.structs sizes.now) (type_expression ty.now)) 65 }
{
    match ty {
        TypeExpr::Named(name) => value_of(names, sizes, name.as_str()).min(ABOVE),
        TypeExpr::Tuple(items) => (1 + items_size(names, sizes, items)).min(ABOVE),
        TypeExpr::Callable(params, answer) => {
            let taken = params_size(names, sizes, params);
            (1 + taken + answer_size(names, sizes, answer)).min(ABOVE)
        }
    }
}

#[cycle(written)]
fn items_size(names: &Names, sizes: &[u64], items: &[TypeExpr]) -> u64
    ensures { result ≡ min (total_by (value_in names.now.structs sizes.now) (type_expressions items.now)) 65 }
{
    let mut total: u64 = 0;
    for item in items {
        total = (total + written_size(names, sizes, item)).min(ABOVE);
    }
    total
}

#[cycle(written)]
fn params_size(names: &Names, sizes: &[u64], params: &[FunParamExpr]) -> u64
    ensures { result ≡ min (params_total (value_in names.now.structs sizes.now) (parameter_types params.now)) 65 }
{
    let mut total: u64 = 0;
    for param in params {
        total = (total + written_size(names, sizes, &param.ty)).min(ABOVE);
    }
    total
}

#[cycle(written)]
fn answer_size(names: &Names, sizes: &[u64], answer: &Option<Rc<TypeExpr>>) -> u64
    ensures { result ≡ min (answer_size_by (value_in names.now.structs sizes.now) (result_type answer.now)) 65 }
{
    match answer {
        None => 0,
        Some(ty) => written_size(names, sizes, ty),
    }
}
