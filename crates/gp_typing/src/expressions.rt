//! The types of expressions.

ghost use Rattle.std.specs.Prelude.{drop};
ghost use Rattle.gp_tree.specs.Expression.{expression, expressions};
ghost use Rattle.gp_locals.specs.CalleeView.{callee_view};
ghost use Rattle.gp_typing.specs.code.CallView.{call_in, callee_in};
ghost use Rattle.gp_typing.specs.Checks.{Answers};
ghost use Rattle.gp_typing.specs.code.ExpressionView.{value_view, values_view, typed_in, valued_in, values_in};
ghost use Rattle.gp_typing.specs.code.Operations.{place_in};
ghost use Rattle.gp_typing.specs.View.{expression_view};

use crate::calls::{call, count_tags, find_tag};
use crate::context::Context;
use crate::fault::TypeFault;
use crate::operators::{
    binary, boolean_expr, both, choice, either, minus, negation, number_expr, tuple,
};
use crate::places::place_type;
use crate::typed::{TypedExpr, TypedKind};
use crate::value::{Value, Values, value_of};
use gp_base::Name;
use gp_locals::{Callee, Found, callee_of_type, find_callee, takes_tag};
use gp_tree::{Expr, Place};
use std::alloc::Global;

/// An expression with its type. Parts are checked from left to right, inner ones first, and a rule of an expression's
/// own comes after all its parts.
#[cycle(typing)]
pub fn type_expr(alloc: Global, context: &Context<'_>, expr: &Expr) -> Result<TypedExpr, TypeFault>
    ensures { Answers expression_view result (typed_in context.now (expression expr.now)) }
{
    let line = context.line;
    match expr {
        Expr::Int(number) => Ok(number_expr(number)),
        Expr::Bool(value) => Ok(boolean_expr(*value)),
        Expr::Text(_) => Err(TypeFault::Mismatch(line)),
        Expr::Place(place) => type_place(alloc, context, place),
        Expr::Neg(operand) => minus(alloc, line, type_value(alloc, context, operand)?),
        Expr::Not(operand) => negation(alloc, line, type_value(alloc, context, operand)?),
        Expr::Binary(op, left, right) => {
            let left = type_value(alloc, context, left)?;
            let right = type_value(alloc, context, right)?;
            binary(alloc, line, *op, left, right)
        }
        Expr::And(left, right) => {
            let left = type_value(alloc, context, left)?;
            let right = type_value(alloc, context, right)?;
            both(alloc, line, left, right)
        }
        Expr::Or(left, right) => {
            let left = type_value(alloc, context, left)?;
            let right = type_value(alloc, context, right)?;
            either(alloc, line, left, right)
        }
        Expr::Choice(test, value, other) => {
            let test = type_value(alloc, context, test)?;
            let value = type_value(alloc, context, value)?;
            let other = type_value(alloc, context, other)?;
            choice(alloc, line, test, value, other)
        }
        Expr::Tuple(parts) => tuple(line, type_values(alloc, context, parts, 0)?),
        Expr::Call(name, arguments) => type_call(alloc, context, name, arguments),
    }
}

// A call: what it calls, then its tag and its values, then whether they fit.
#[cycle(typing)]
fn type_call(
    alloc: Global,
    context: &Context<'_>,
    name: &Name,
    arguments: &[Expr],
) -> Result<TypedExpr, TypeFault>
    ensures { Answers expression_view result (call_in context.now name.now (expressions arguments.now)) }
{
    let line = context.line;
    let callee = callee(context, name.as_str())?;
    let tag = find_tag(alloc, line, takes_tag(&callee), arguments)?;
    let values = type_values(alloc, context, arguments, count_tags(&tag))?;
    call(alloc, line, name, &callee, tag, values)
}

// What a call of this name calls here.
fn callee<'a>(context: &Context<'a>, name: &str) -> Result<Callee<'a>, TypeFault>
    ensures { Answers callee_view result (callee_in context.now name.now) }
{
    match context.environment.find(context.names, name) {
        Found::Usable(ty) => match callee_of_type(ty) {
            Some(callee) => Ok(callee),
            None => Err(TypeFault::Mismatch(context.line)),
        },
        Found::Unusable => Err(TypeFault::NotOnEveryPath(context.line)),
        Found::Foreign => match find_callee(context.scope, name) {
            Some(callee) => Ok(callee),
            None => Err(TypeFault::UnknownName(context.line)),
        },
    }
}

/// An expression that stands where a value is needed; one without a type is a `Mismatch`.
#[cycle(typing)]
pub fn type_value(alloc: Global, context: &Context<'_>, expr: &Expr) -> Result<Value, TypeFault>
    ensures { Answers value_view result (valued_in context.now (expression expr.now)) }
{
    let typed = type_expr(alloc, context, expr)?;
    value_of(context.line, typed)
}

// The expressions from place `first` on, counted from 0, each where a value is needed.
#[cycle(typing)]
fn type_values(
    alloc: Global,
    context: &Context<'_>,
    exprs: &[Expr],
    first: usize,
) -> Result<Values, TypeFault>
    ensures { Answers values_view result (values_in context.now (expressions (drop first exprs.now))) }
{
    let mut values = Values::new(alloc);
    for i in first..exprs.len() {
        let value = type_value(alloc, context, &exprs[i])?;
        values.push(value)?;
    }
    Ok(values)
}

fn type_place(alloc: Global, context: &Context<'_>, place: &Place) -> Result<TypedExpr, TypeFault>
    ensures { Answers expression_view result (place_in context.now place.now) }
{
    let ty = place_type(alloc, context, place)?;
    let place = place.copy(alloc)?;
    Ok(TypedExpr {
        ty: Some(ty),
        kind: TypedKind::Place(place),
    })
}
