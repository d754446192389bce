//! Equal types.

ghost use Rattle.std.specs.Prelude.{◌≡◌, ◌&&◌, map};
ghost use Rattle.gp_types.specs.Same as spec;
ghost use Rattle.gp_types.specs.Types.{tys_of};
ghost use Rattle.gp_types.specs.View.{ty_view, params_view, answer_view};

use crate::ty::{FunParam, Ty};
use std::rc::Rc;

/// Whether two types are equal: struct types where their names are, tuple types part by part, and function types where
/// the types and modes of their parameters and what they answer are. Takes no memory.
#[cycle(same)]
pub fn same_type(ty: &Ty, other: &Ty) -> bool
    ensures { result ≡ spec.same_type (ty_view ty.now) (ty_view other.now) }
{
    match (ty, other) {
        (Ty::Int, Ty::Int) | (Ty::Bool, Ty::Bool) | (Ty::Qubit, Ty::Qubit) => true,
        (Ty::Tuple(items), Ty::Tuple(others)) => same_types(items, others),
        (Ty::Struct(name, _), Ty::Struct(other, _)) => name.as_str() == other.as_str(),
        (Ty::Function(params, answer), Ty::Function(its_params, its_answer)) => {
            same_params(params, its_params) && same_answers(answer, its_answer)
        }
        _ => false,
    }
}

/// Whether two lists of types are equal, item by item. Takes no memory.
#[cycle(same)]
#[tactic(auto, using(crate::proofs::Lengths::lengths_apart))]
pub fn same_types(items: &[Ty], others: &[Ty]) -> bool
    ensures { result ≡ spec.same_types (tys_of (map ty_view items.now)) (tys_of (map ty_view others.now)) }
{
    if items.len() != others.len() {
        return false;
    }
    for i in 0..items.len() {
        if !same_type(&items[i], &others[i]) {
            return false;
        }
    }
    true
}

/// Whether two lists of parameters have equal types and modes, parameter by parameter.
#[cycle(same)]
#[tactic(auto, using(crate::proofs::Lengths::params_apart))]
fn same_params(params: &[FunParam], others: &[FunParam]) -> bool
    ensures { result ≡ spec.same_params (params_view params.now) (params_view others.now) }
{
    if params.len() != others.len() {
        return false;
    }
    for i in 0..params.len() {
        if !same_param(&params[i], &others[i]) {
            return false;
        }
    }
    true
}

/// Whether two parameters have equal types and modes.
#[cycle(same)]
fn same_param(param: &FunParam, other: &FunParam) -> bool
    ensures { result ≡ (spec.same_mode param.now.mode other.now.mode
        && spec.same_type (ty_view param.now.ty) (ty_view other.now.ty)) }
{
    param.mode == other.mode && same_type(&param.ty, &other.ty)
}

/// Whether both answer nothing, or values of equal types.
#[cycle(same)]
fn same_answers(answer: &Option<Rc<Ty>>, other: &Option<Rc<Ty>>) -> bool
    ensures { result ≡ spec.same_answers (answer_view answer.now) (answer_view other.now) }
{
    match (answer, other) {
        (None, None) => true,
        (Some(ty), Some(other)) => same_type(ty, other),
        _ => false,
    }
}
