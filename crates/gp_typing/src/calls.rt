//! The types of calls.

ghost use Rattle.std.specs.Prelude.{◌≡◌, IfOk, eqb, map, option_map};
ghost use Rattle.gp_tree.specs.Expression.{expressions};
ghost use Rattle.gp_types.specs.Signature.{function_params, parameter_view};
ghost use Rattle.gp_types.specs.Types.{tys_of, fields_of, answer_of, answered};
ghost use Rattle.gp_types.specs.View.{ty_view, field_view, params_view, answer_view};
ghost use Rattle.gp_typing.specs.declared.fault.TypeFault.TheVariants.{Mismatch, WrongCount};
ghost use Rattle.gp_locals.specs.CalleeView.{callee_view};
ghost use Rattle.gp_typing.specs.code.CallView.{arguments_view, count_with, do_fit, trees_with, tag_of};
ghost use Rattle.gp_typing.specs.Checks.{Answers, check};
ghost use Rattle.gp_typing.specs.Expressions as spec;
ghost use Rattle.gp_typing.specs.View.{expression_view, expressions_view};

use crate::fault::TypeFault;
use crate::operators::{is_bool, is_int};
use crate::typed::{TypedExpr, TypedExprs, TypedKind};
use crate::value::Values;
use gp_base::{LineNo, Name, TextBytes};
use gp_locals::{Callee, is_tag, takes_tag};
use gp_tree::{Expr, copy_text};
use gp_types::{BuiltinParameter, BuiltinType, Field, FunParam, SigParam, Ty, Tys, same_types};
use std::alloc::{AllocError, Global};
use std::rc::Rc;

/// The tag of a call that takes one: its first argument where that is a string. A string that is no tag is a `Mismatch`.
pub fn find_tag(
    alloc: Global,
    line: LineNo,
    tagged: bool,
    exprs: &[Expr],
) -> Result<Option<TextBytes>, TypeFault>
    ensures { Answers (λ tag. tag) result (tag_of line tagged (expressions exprs.now)) }
{
    let Some(Expr::Text(text)) = exprs.first() else {
        return Ok(None);
    };
    if !tagged {
        return Ok(None);
    }
    if !is_tag(text.as_slice()) {
        return Err(TypeFault::Mismatch(line));
    }
    Ok(Some(copy_text(alloc, text)?))
}

/// How many of the arguments are tags: 1 or 0.
pub fn count_tags(tag: &Option<TextBytes>) -> usize
    ensures { result ≡ spec.tags tag.now }
{
    match tag {
        Some(_) => 1,
        None => 0,
    }
}

fn built_in_type(ty: BuiltinType) -> Ty
    ensures { ty_view result ≡ spec.built_in_ty ty }
{
    match ty {
        BuiltinType::Int => Ty::Int,
        BuiltinType::Bool => Ty::Bool,
        BuiltinType::Qubit => Ty::Qubit,
    }
}

fn built_in_types(alloc: Global, params: &[BuiltinParameter]) -> Result<Tys, AllocError>
    ensures { IfOk result (λ made. tys_of (map ty_view made.items) ≡ spec.built_in_tys params.now) }
{
    let mut made = Vec::new(alloc);
    for param in params {
        made.push(built_in_type(param.ty))?;
    }
    Ok(made)
}

fn written_types(alloc: Global, params: &[SigParam]) -> Result<Tys, AllocError>
    ensures { IfOk result (λ made.
        tys_of (map ty_view made.items) ≡ spec.taken_tys (function_params (map parameter_view params.now))) }
{
    let mut made = Vec::new(alloc);
    for param in params {
        made.push(param.ty.copy()?)?;
    }
    Ok(made)
}

fn value_types(alloc: Global, params: &[FunParam]) -> Result<Tys, AllocError>
    ensures { IfOk result (λ made. tys_of (map ty_view made.items) ≡ spec.taken_tys (params_view params.now)) }
{
    let mut made = Vec::new(alloc);
    for param in params {
        made.push(param.ty.copy()?)?;
    }
    Ok(made)
}

fn field_types(alloc: Global, fields: &[Field]) -> Result<Tys, AllocError>
    ensures { IfOk result (λ made. tys_of (map ty_view made.items) ≡ spec.field_tys (fields_of (map field_view fields.now))) }
{
    let mut made = Vec::new(alloc);
    for field in fields {
        made.push(field.ty.copy()?)?;
    }
    Ok(made)
}

fn part_types(alloc: Global, ty: &Ty) -> Result<Tys, AllocError>
    ensures { IfOk result (λ made. tys_of (map ty_view made.items) ≡ spec.part_tys (ty_view ty.now)) }
{
    match ty {
        Ty::Struct(_, fields) => field_types(alloc, fields),
        _ => Ok(Vec::new(alloc)),
    }
}

// The types of a callee's parameters, none for the tag of `result` and what follows it.
fn parameter_types(alloc: Global, callee: &Callee<'_>) -> Result<Tys, AllocError>
    ensures { IfOk result (λ made. tys_of (map ty_view made.items) ≡ spec.parameter_tys (callee_view callee.now)) }
{
    match callee {
        Callee::Written(signature) => written_types(alloc, signature.params.as_slice()),
        Callee::Value(params, _) => value_types(alloc, params),
        Callee::Made(ty) => part_types(alloc, ty),
        Callee::BuiltIn(function) => built_in_types(alloc, function.parameters()),
    }
}

#[tactic(auto, using(crate::proofs::Rows::answered_again))]
fn copy_result(ty: &Option<Ty>) -> Result<Option<Ty>, AllocError>
    ensures { IfOk result (λ made. option_map ty_view made ≡ answered (answer_of (option_map ty_view ty.now))) }
{
    match ty {
        Some(ty) => Ok(Some(ty.copy()?)),
        None => Ok(None),
    }
}

fn copy_answer(ty: &Option<Rc<Ty>>) -> Result<Option<Ty>, AllocError>
    ensures { IfOk result (λ made. option_map ty_view made ≡ answered (answer_view ty.now)) }
{
    match ty {
        Some(ty) => Ok(Some(ty.copy()?)),
        None => Ok(None),
    }
}

// The type of a callee's answer, where it has one.
fn answer_type(callee: &Callee<'_>) -> Result<Option<Ty>, AllocError>
    ensures { IfOk result (λ made. option_map ty_view made ≡ spec.callee_answer (callee_view callee.now)) }
{
    match callee {
        Callee::Written(signature) => copy_result(&signature.result),
        Callee::Value(_, answer) => copy_answer(answer),
        Callee::Made(ty) => Ok(Some(ty.copy()?)),
        Callee::BuiltIn(function) => match function.answer() {
            Some(ty) => Ok(Some(built_in_type(ty))),
            None => Ok(None),
        },
    }
}

// `result` reports one whole number or one truth value, under a tag.
fn is_reported(tag: &Option<TextBytes>, types: &[Ty]) -> bool
    ensures { result ≡ spec.is_reported tag.now (tys_of (map ty_view types.now)) }
{
    match (tag, types) {
        (Some(_), [ty]) => is_int(ty) || is_bool(ty),
        _ => false,
    }
}

// The number of arguments that a call of the callee takes, where its parameters have these types.
#[tactic(auto, using(crate::proofs::Rows::count_row))]
fn wanted_count(callee: &Callee<'_>, parameters: &[Ty]) -> usize
    requires { tys_of (map ty_view parameters.now) ≡ spec.parameter_tys (callee_view callee.now) }
    ensures { result ≡ spec.parameter_count (callee_view callee.now) }
{
    if takes_tag(callee) {
        2
    } else {
        parameters.len()
    }
}

#[tactic(auto, using(crate::proofs::Rows::count_row))]
fn count(tag: &Option<TextBytes>, types: &[Ty]) -> usize
    ensures { result ≡ count_with tag.now types.now }
{
    count_tags(tag) + types.len()
}

fn check_count(
    line: LineNo,
    callee: &Callee<'_>,
    tag: &Option<TextBytes>,
    types: &[Ty],
    parameters: &[Ty],
) -> Result<(), TypeFault>
    requires { tys_of (map ty_view parameters.now) ≡ spec.parameter_tys (callee_view callee.now) }
    ensures { Answers (λ u. u) result (check (eqb (count_with tag.now types.now) (spec.parameter_count (callee_view callee.now))) (WrongCount line)) }
{
    if count(tag, types) == wanted_count(callee, parameters) {
        Ok(())
    } else {
        Err(TypeFault::WrongCount(line))
    }
}

// Whether arguments with this tag and these types fit the callee, whose parameters have these types.
fn fit(callee: &Callee<'_>, tag: &Option<TextBytes>, types: Tys, parameters: Tys) -> bool
    requires { tys_of (map ty_view parameters.items) ≡ spec.parameter_tys (callee_view callee.now) }
    ensures { result ≡ do_fit (callee_view callee.now) tag.now types.items }
{
    if takes_tag(callee) {
        is_reported(tag, &types)
    } else {
        same_types(&types, &parameters)
    }
}

fn check_types(
    line: LineNo,
    callee: &Callee<'_>,
    tag: &Option<TextBytes>,
    types: Tys,
    parameters: Tys,
) -> Result<(), TypeFault>
    requires { tys_of (map ty_view parameters.items) ≡ spec.parameter_tys (callee_view callee.now) }
    ensures { Answers (λ u. u) result (check (do_fit (callee_view callee.now) tag.now types.items) (Mismatch line)) }
{
    if fit(callee, tag, types, parameters) {
        Ok(())
    } else {
        Err(TypeFault::Mismatch(line))
    }
}

// The tag, where there is one, before the other arguments.
fn with_tag(tag: Option<TextBytes>, exprs: TypedExprs) -> Result<TypedExprs, AllocError>
    ensures { IfOk result (λ made. expressions_view made.items ≡ trees_with tag exprs.items) }
{
    let mut made = exprs;
    if let Some(text) = tag {
        made.insert(
            0,
            TypedExpr {
                ty: None,
                kind: TypedKind::Text(text),
            },
        )?;
    }
    Ok(made)
}

/// A call with its arguments, the tag and the values behind it: first their number is checked, then their types.
pub fn call(
    alloc: Global,
    line: LineNo,
    name: &Name,
    callee: &Callee<'_>,
    tag: Option<TextBytes>,
    values: Values,
) -> Result<TypedExpr, TypeFault>
    ensures { Answers expression_view result (spec.called line name.now (callee_view callee.now) (arguments_view tag values)) }
{
    let Values { exprs, types } = values;
    let parameters = parameter_types(alloc, callee)?;
    check_count(line, callee, &tag, &types, &parameters)?;
    check_types(line, callee, &tag, types, parameters)?;
    let ty = answer_type(callee)?;
    let name = name.copy()?;
    let exprs = with_tag(tag, exprs)?;
    Ok(TypedExpr {
        ty,
        kind: TypedKind::Call(name, exprs),
    })
}
