//! What calls take and give.

ghost use Rattle.std.specs.Prelude.{◌≡◌, Some, [], IfOk, map, option_map};
ghost use Rattle.gp_locals.specs.Tag.{is_tag};
ghost use Rattle.gp_locals.specs.CalleeView.{callee_view};
ghost use Rattle.gp_tree.specs.Expression.{expression, expressions};
ghost use Rattle.gp_types.specs.Types.{fields_of};
ghost use Rattle.gp_types.specs.View.{ty_view};
ghost use Rattle.gp_types.specs.View as types_view;
ghost use Rattle.gp_meaning.specs.Calls as spec;
ghost use Rattle.gp_meaning.specs.Value as value_spec;
ghost use Rattle.gp_evaluator.specs.View.{value_view, field_view, variables_view, called_view, Found, RanAlone};

use crate::built_ins::Called;
use crate::halt::Halt;
use crate::value::{FieldValue, FieldValues, Value, Values};
use crate::variables::Variables;
use gp_base::{Tag, TextBytes};
use gp_locals::{Callee, Locals, is_tag, takes_tag};
use gp_tree::Expr;
use gp_types::{Builtin, Field, Ty};
use std::alloc::{AllocError, Global};

// How many values a call takes, a tag aside.
#[tactic(auto, using(crate::proofs::CallRows::param_counts))]
fn value_count(callee: &Callee<'_>) -> usize
    ensures { result ≡ spec.value_count (callee_view callee.now) }
{
    match callee {
        Callee::Written(signature) => signature.params.as_slice().len(),
        Callee::Value(params, _) => params.len(),
        Callee::Made(ty) => part_count(ty),
        Callee::BuiltIn(Builtin::Result) => 1,
        Callee::BuiltIn(function) => function.parameters().len(),
    }
}

#[tactic(auto, using(crate::proofs::CallRows::call_rows))]
fn part_count(ty: &Ty) -> usize
    ensures { result ≡ spec.part_count (ty_view ty.now) }
{
    match ty {
        Ty::Struct(_, fields) => fields.len(),
        _ => 0,
    }
}

/// The tag of a call with these arguments, where it takes one. It is stuck where the number of arguments is wrong, or no
/// tag stands where one is taken.
#[tactic(auto, using(crate::proofs::CallRows::call_tags))]
pub fn tag_of(alloc: Global, callee: &Callee<'_>, arguments: &[Expr]) -> Result<Option<Tag>, Halt>
    ensures { Found (λ tag. tag) result (spec.tag_of (callee_view callee.now) (expressions arguments.now)) }
{
    if takes_tag(callee) {
        return tag_before(alloc, arguments);
    }
    if arguments.len() == value_count(callee) {
        Ok(None)
    } else {
        Err(Halt::Stuck)
    }
}

// The tag that stands before one value.
#[tactic(auto, using(crate::proofs::CallRows::tags))]
fn tag_before(alloc: Global, arguments: &[Expr]) -> Result<Option<Tag>, Halt>
    ensures { Found (λ tag. tag) result (spec.tag_before (expressions arguments.now)) }
{
    if arguments.len() != 2 {
        return Err(Halt::Stuck);
    }
    match text_of(&arguments[0]) {
        Some(text) => tag_where(alloc, text),
        None => Err(Halt::Stuck),
    }
}

fn text_of(expr: &Expr) -> Option<&TextBytes>
    ensures { option_map (λ text. text.now) result ≡ spec.text_of (expression expr.now) }
{
    match expr {
        Expr::Text(text) => Some(text),
        _ => None,
    }
}

// The text as a tag, where it is one.
#[tactic(auto, using(crate::proofs::CallRows::tag_is))]
fn tag_where(alloc: Global, text: &TextBytes) -> Result<Option<Tag>, Halt>
    ensures { Found (λ tag. tag) result (spec.tag_where text.now (is_tag text.now)) }
{
    if !is_tag(text.as_slice()) {
        return Err(Halt::Stuck);
    }
    match Tag::new(alloc, text.as_slice())? {
        Some(tag) => Ok(Some(tag)),
        None => Err(Halt::Stuck),
    }
}

/// The value of a struct with these values of its fields.
pub fn make_struct(alloc: Global, ty: &Ty, values: Values) -> Result<Called, AllocError>
    ensures { IfOk result (λ made. called_view made ≡ record { answer = Some (value_spec.structure (spec.struct_fields (ty_view ty.now) (map value_view values.items))); finals = [] }) }
{
    let fields = match ty {
        Ty::Struct(_, fields) => field_values(alloc, fields, &values)?,
        _ => Vec::new(alloc),
    };
    Ok(Called {
        answer: Some(Value::Struct(fields)),
        finals: Vec::new(alloc),
    })
}

// As many fields as there are values, each with its value.
fn field_values(
    alloc: Global,
    fields: &[Field],
    values: &[Value],
) -> Result<FieldValues, AllocError>
    ensures { IfOk result (λ made. value_spec.fields_of (map field_view made.items) ≡ spec.field_values (fields_of (map types_view.field_view fields.now)) (map value_view values.now)) }
{
    let mut made = Vec::new(alloc);
    for i in 0..fields.len() {
        if i < values.len() {
            made.push(FieldValue {
                name: fields[i].name.copy()?,
                value: values[i].copy(alloc)?,
            })?;
        }
    }
    Ok(made)
}

/// Gives the arguments of a call that are places the final values of the borrowed parameters.
pub fn put_back_each(
    alloc: Global,
    names: &Locals,
    variables: &mut Variables,
    arguments: &[Expr],
    finals: &[Option<Value>],
) -> Result<(), Halt>
    ensures { RanAlone (λ u. u) result (variables_view variables.old) (variables_view variables.new) (spec.put_back_each names.now (expressions arguments.now) (map (option_map value_view) finals.now)) }
{
    for i in 0..finals.len() {
        if i < arguments.len() {
            if let Some(value) = &finals[i] {
                put_back(alloc, names, variables, &arguments[i], value)?;
            }
        }
    }
    Ok(())
}

fn put_back(
    alloc: Global,
    names: &Locals,
    variables: &mut Variables,
    argument: &Expr,
    value: &Value,
) -> Result<(), Halt>
    ensures { RanAlone (λ u. u) result (variables_view variables.old) (variables_view variables.new) (spec.put_back names.now (expression argument.now) (value_view value.now)) }
{
    match argument {
        Expr::Place(place) => {
            let value = value.copy(alloc)?;
            variables.assign_place(alloc, names, place, value)
        }
        _ => Ok(()),
    }
}
