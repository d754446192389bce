//! Types that are spelled out, and the signatures of functions.

ghost use Rattle.std.specs.Prelude.{◌≡◌, IfOk, Some, None, map, option_map};
ghost use Rattle.gp_tree.specs.Form.{parameter};
ghost use Rattle.gp_tree.specs.Program.{program_items, field_definition, function_definition};
ghost use Rattle.gp_tree.specs.TypeExpression.{type_expression, parameter_type, result_type, maybe_type, named_type};
ghost use Rattle.gp_types.specs.Types.{answer_of};
ghost use Rattle.gp_types.specs.View.{ty_view, field_view, param_view};
ghost use Rattle.gp_types.specs.Signature.{parameter_view, signature_view};
ghost use Rattle.gp_scope.specs.Spelled.{spelled, spelled_by, spelled_field, spelled_param, answer_spelled_by, parameter_of, signature_of};
ghost use Rattle.gp_scope.specs.Spelled as spec;
ghost use Rattle.gp_scope.specs.code.NamesOf.{AreWhole, whole};

use crate::names::Names;
use gp_base::{Name, Sequence};
use gp_tree::{FieldDecl, FunParamExpr, Function, Param, TypeExpr};
use gp_types::{Field, Fields, FunParam, FunParams, Mode, SigParam, SigParams, Signature, Ty, Tys};
use std::alloc::{AllocError, Global};
use std::rc::Rc;

/// The type that a written type spells.
#[cycle(spell)]
pub fn spell(alloc: Global, names: &Names, ty: &TypeExpr) -> Result<Ty, AllocError>
    requires { AreWhole names.now }
    ensures { IfOk result (λ made. ty_view made ≡ spelled (program_items names.now.items.now) (type_expression ty.now)) }
{
    match ty {
        TypeExpr::Named(name) => spell_name(alloc, names, name),
        TypeExpr::Tuple(items) => Ty::tuple(spell_items(alloc, names, items)?),
        TypeExpr::Callable(params, answer) => {
            let params = spell_params(alloc, names, params)?;
            let answer = spell_answer(alloc, names, answer)?;
            Ty::function(alloc, params, answer)
        }
    }
}

/// The type of a name: that of a struct, else `int`, `bool` or `qubit`.
#[cycle(spell)]
pub fn spell_name(alloc: Global, names: &Names, name: &Name) -> Result<Ty, AllocError>
    requires { AreWhole names.now }
    ensures { IfOk result (λ made. ty_view made ≡ spelled (program_items names.now.items.now) (named_type name.now)) }
{
    let text = name.as_str();
    match names.structs.get(text) {
        Some(decl) => {
            let fields = spell_fields(alloc, names, decl.fields.as_slice())?;
            Ty::structure(name.copy()?, fields)
        }
        None => Ok(basic_type(text)),
    }
}

fn basic_type(name: &str) -> Ty
    ensures { ty_view result ≡ spec.basic_type name.now }
{
    match name {
        "int" => Ty::Int,
        "bool" => Ty::Bool,
        _ => Ty::Qubit,
    }
}

#[cycle(spell)]
fn spell_items(alloc: Global, names: &Names, items: &[TypeExpr]) -> Result<Tys, AllocError>
    requires { AreWhole names.now }
    ensures { IfOk result (λ made. map ty_view made.items ≡ map (λ t. spelled_by (whole names.now) (type_expression t)) items.now) }
{
    let mut made = Vec::new(alloc);
    for item in items {
        made.push(spell(alloc, names, item)?)?;
    }
    Ok(made)
}

#[cycle(spell)]
fn spell_fields(alloc: Global, names: &Names, fields: &[FieldDecl]) -> Result<Fields, AllocError>
    requires { AreWhole names.now }
    ensures { IfOk result (λ made. map field_view made.items ≡ map (λ f. spelled_field (whole names.now) (field_definition f)) fields.now) }
{
    let mut made = Vec::new(alloc);
    for field in fields {
        made.push(Field {
            name: field.name.copy()?,
            ty: spell(alloc, names, &field.ty)?,
        })?;
    }
    Ok(made)
}

#[cycle(spell)]
fn spell_params(
    alloc: Global,
    names: &Names,
    params: &[FunParamExpr],
) -> Result<FunParams, AllocError>
    requires { AreWhole names.now }
    ensures { IfOk result (λ made. map param_view made.items ≡ map (λ p. spelled_param (whole names.now) (parameter_type p)) params.now) }
{
    let mut made = Vec::new(alloc);
    for param in params {
        let ty = spell(alloc, names, &param.ty)?;
        let taken = Mode::of(&ty, param.owned);
        made.push(FunParam { ty, mode: taken })?;
    }
    Ok(made)
}

#[cycle(spell)]
fn spell_answer(
    alloc: Global,
    names: &Names,
    answer: &Option<Rc<TypeExpr>>,
) -> Result<Option<Ty>, AllocError>
    requires { AreWhole names.now }
    ensures { IfOk result (λ made. answer_of (option_map ty_view made) ≡ answer_spelled_by (whole names.now) (result_type answer.now)) }
{
    match answer {
        None => Ok(None),
        Some(ty) => Ok(Some(spell(alloc, names, ty)?)),
    }
}

/// What a function takes and answers.
pub fn signature(alloc: Global, names: &Names, function: &Function) -> Result<Signature, AllocError>
    requires { AreWhole names.now }
    ensures { IfOk result (λ made. signature_view made ≡ signature_of (program_items names.now.items.now) (function_definition function.now)) }
{
    let params = parameters(alloc, names, function.params.as_slice())?;
    let result_type = answer(alloc, names, &function.result)?;
    Ok(Signature {
        params,
        result: result_type,
    })
}

fn answer(
    alloc: Global,
    names: &Names,
    written: &Option<TypeExpr>,
) -> Result<Option<Ty>, AllocError>
    requires { AreWhole names.now }
    ensures { IfOk result (λ made. option_map ty_view made ≡ option_map (spelled (program_items names.now.items.now)) (maybe_type written.now)) }
{
    match written {
        None => Ok(None),
        Some(ty) => Ok(Some(spell(alloc, names, ty)?)),
    }
}

fn parameters(alloc: Global, names: &Names, params: &[Param]) -> Result<SigParams, AllocError>
    requires { AreWhole names.now }
    ensures { IfOk result (λ made. map parameter_view made ≡ map (parameter_of (program_items names.now.items.now)) (map parameter params.now)) }
{
    let mut made = Sequence::new(alloc);
    for param in params {
        let ty = spell(alloc, names, &param.ty)?;
        let mode = Mode::of(&ty, param.owned);
        made.push(SigParam {
            name: param.name.copy()?,
            ty,
            mode,
        })?;
    }
    Ok(made)
}
