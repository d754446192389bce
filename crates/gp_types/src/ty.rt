//! Types, and what follows from them alone: whether they are linear, their size and how many leaves they have.

ghost use Rattle.std.specs.Prelude.{◌≡◌, ◌+◌, ◌-◌, ◌^◌, IfOk, length, map, min, option_map};
ghost use Rattle.gp_types.specs.Types as types;
ghost use Rattle.gp_types.specs.Types.{tys_of, fields_of, answer_of};
ghost use Rattle.gp_types.specs.View.{ty_view, field_view, params_view};
ghost use Rattle.gp_types.specs.Linear as spec;
ghost use Rattle.gp_types.specs.Size as sizes;
ghost use Rattle.gp_types.specs.Leaves.{leaves, field_leaves};

use crate::mode::Mode;
use gp_base::Name;
use std::alloc::{AllocError, Global};
use std::rc::{Rc, RcSlice};

/// A type of the source language. Its copies share its parts.
#[derive(Debug, Drop)]
#[cycle(ty)]
pub enum Ty {
    /// `int`: a whole number of 64 bits with a sign.
    Int,
    /// `bool`: a truth value.
    Bool,
    /// `qubit`: a qubit, which is used exactly once.
    Qubit,
    /// `tuple[..]`: the values of these types, in order.
    Tuple(RcSlice<Ty>),
    /// A struct, by its name, with its fields in order.
    Struct(Name, RcSlice<Field>),
    /// `Callable[[..], ..]`: functions that take these parameters, in order, and answer values of this type; none
    /// where they answer nothing.
    Function(RcSlice<FunParam>, Option<Rc<Ty>>),
}

/// A list of types.
pub type Tys = Vec<Ty>;

/// A field of a struct.
#[derive(Debug, Drop)]
#[cycle(ty)]
pub struct Field {
    /// The field's name.
    pub name: Name,
    /// The field's type.
    pub ty: Ty,
}

/// A list of fields, in the order in which the struct declares them.
pub type Fields = Vec<Field>;

/// A parameter of a function type.
#[derive(Debug, Drop)]
#[cycle(ty)]
pub struct FunParam {
    /// The type of its values.
    pub ty: Ty,
    /// How it is taken.
    pub mode: Mode,
}

/// A list of parameters of a function type, in the order in which a call gives them.
pub type FunParams = Vec<FunParam>;

impl Ty {
    /// `tuple[..]` of parts with these types.
    pub fn tuple(parts: Tys) -> Result<Ty, AllocError>
        ensures { IfOk result (λ made. ty_view made ≡ types.Tuple (tys_of (map ty_view parts.items))) }
    {
        Ok(Ty::Tuple(RcSlice::from_vec(parts)?))
    }

    /// The struct of this name with these fields.
    pub fn structure(name: Name, fields: Fields) -> Result<Ty, AllocError>
        ensures { IfOk result (λ made. ty_view made ≡ types.Struct name (fields_of (map field_view fields.items))) }
    {
        Ok(Ty::Struct(name, RcSlice::from_vec(fields)?))
    }

    /// `Callable[[..], ..]` of these parameters and this type of the answer.
    #[tactic(auto, using(crate::proofs::FunctionTypes::answers))]
    pub fn function(alloc: Global, params: FunParams, answer: Option<Ty>) -> Result<Ty, AllocError>
        ensures { IfOk result (λ made. ty_view made
            ≡ types.Function (params_view params.items) (answer_of (option_map ty_view answer))) }
    {
        let params = RcSlice::from_vec(params)?;
        let Some(answer) = answer else {
            return Ok(Ty::Function(params, None));
        };
        Ok(Ty::Function(params, Some(Rc::new(alloc, answer)?)))
    }

    /// The same type once more. It shares its parts, so this takes no memory; it fails only past 2^64 - 1 copies.
    pub fn copy(&self) -> Result<Ty, AllocError>
        ensures { IfOk result (λ copy. ty_view copy ≡ ty_view self.now) }
    {
        match self {
            Ty::Int => Ok(Ty::Int),
            Ty::Bool => Ok(Ty::Bool),
            Ty::Qubit => Ok(Ty::Qubit),
            Ty::Tuple(parts) => Ok(Ty::Tuple(parts.clone()?)),
            Ty::Struct(name, fields) => Ok(Ty::Struct(name.copy()?, fields.clone()?)),
            Ty::Function(params, answer) => Ok(Ty::Function(params.clone()?, answer.clone()?)),
        }
    }
}

/// Whether values of the type hold a qubit, so that each is used exactly once: `qubit`, and a tuple or a struct with
/// a linear part; a function holds none. Takes no memory.
#[cycle(linear)]
pub fn is_linear(ty: &Ty) -> bool
    ensures { result ≡ spec.is_linear (ty_view ty.now) }
{
    match ty {
        Ty::Int | Ty::Bool | Ty::Function(_, _) => false,
        Ty::Qubit => true,
        Ty::Tuple(items) => has_linear(items),
        Ty::Struct(_, fields) => has_linear_field(fields),
    }
}

#[cycle(linear)]
fn has_linear(items: &[Ty]) -> bool
    ensures { result ≡ spec.has_linear (tys_of (map ty_view items.now)) }
{
    for item in items {
        if is_linear(item) {
            return true;
        }
    }
    false
}

#[cycle(linear)]
fn has_linear_field(fields: &[Field]) -> bool
    ensures { result ≡ spec.has_linear_field (fields_of (map field_view fields.now)) }
{
    for field in fields {
        if is_linear(&field.ty) {
            return true;
        }
    }
    false
}

/// The size of a type: 1 for `int`, `bool` and `qubit`, and 1 more than the sizes of its parts for a tuple, a struct or
/// a function type, whose parts are its parameters and its answer; 2^64 - 1 where that is less. Takes no memory.
#[cycle(size)]
pub fn size(ty: &Ty) -> u64
    ensures { result ≡ min (sizes.size (ty_view ty.now)) (2 ^ 64 - 1) }
{
    match ty {
        Ty::Int | Ty::Bool | Ty::Qubit => 1,
        Ty::Tuple(items) => total_size(items).saturating_add(1),
        Ty::Struct(_, fields) => total_field_size(fields).saturating_add(1),
        Ty::Function(params, answer) => {
            let answer = match answer {
                Some(ty) => size(ty),
                None => 0,
            };
            total_param_size(params)
                .saturating_add(answer)
                .saturating_add(1)
        }
    }
}

#[cycle(size)]
fn total_size(items: &[Ty]) -> u64
    ensures { result ≡ min (sizes.total_size (tys_of (map ty_view items.now))) (2 ^ 64 - 1) }
{
    let mut total: u64 = 0;
    for item in items {
        total = total.saturating_add(size(item));
    }
    total
}

#[cycle(size)]
fn total_field_size(fields: &[Field]) -> u64
    ensures { result ≡ min (sizes.total_field_size (fields_of (map field_view fields.now))) (2 ^ 64 - 1) }
{
    let mut total: u64 = 0;
    for field in fields {
        total = total.saturating_add(size(&field.ty));
    }
    total
}

#[cycle(size)]
fn total_param_size(params: &[FunParam]) -> u64
    ensures { result ≡ min (sizes.total_param_size (params_view params.now)) (2 ^ 64 - 1) }
{
    let mut total: u64 = 0;
    for param in params {
        total = total.saturating_add(size(&param.ty));
    }
    total
}

/// How many leaves a place of the type has: those of its fields together for a struct, else 1; 2^64 - 1 where that is
/// less. Takes no memory.
#[cycle(leaf_count)]
pub fn leaf_count(ty: &Ty) -> u64
    ensures { result ≡ min (length (leaves (ty_view ty.now))) (2 ^ 64 - 1) }
{
    match ty {
        Ty::Struct(_, fields) => field_leaf_count(fields),
        _ => 1,
    }
}

#[cycle(leaf_count)]
fn field_leaf_count(fields: &[Field]) -> u64
    ensures { result ≡ min (length (field_leaves (fields_of (map field_view fields.now)))) (2 ^ 64 - 1) }
{
    let mut total: u64 = 0;
    for field in fields {
        total = total.saturating_add(leaf_count(&field.ty));
    }
    total
}
