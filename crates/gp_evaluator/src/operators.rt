//! What operators answer, once their operands are values.

ghost use Rattle.gp_base.specs.Number as numbers;
ghost use Rattle.gp_meaning.specs.Operators as spec;
ghost use Rattle.gp_meaning.specs.Value as values;
ghost use Rattle.gp_evaluator.specs.View.{value_view, Found, Given};

use crate::halt::Halt;
use crate::value::Value;
use gp_tree::BinOp;
use integers::{difference, negated, product, quotient, remainder, sum};

fn divide(left: i64, right: i64) -> Result<Value, Halt>
    ensures { Given value_view result (spec.divided (numbers.quotient left right) right) }
{
    if right == 0 {
        return Err(Halt::DivisionByZero);
    }
    Ok(Value::Int(quotient(left, right)))
}

fn divide_for_the_rest(left: i64, right: i64) -> Result<Value, Halt>
    ensures { Given value_view result (spec.divided (numbers.remainder left right) right) }
{
    if right == 0 {
        return Err(Halt::DivisionByZero);
    }
    Ok(Value::Int(remainder(left, right)))
}

/// What an operator answers: of two whole numbers, or of two truth values, which are compared and nothing else. Other
/// operands are of a wrong kind, which is looked at before a zero divisor.
pub fn operate(op: BinOp, left: &Value, right: &Value) -> Result<Value, Halt>
    ensures { Given value_view result (spec.operated op (value_view left.now) (value_view right.now)) }
{
    match (left, right) {
        (Value::Int(left), Value::Int(right)) => operate_on_numbers(op, *left, *right),
        (Value::Bool(left), Value::Bool(right)) => operate_on_booleans(op, *left, *right),
        _ => Err(Halt::Stuck),
    }
}

fn operate_on_numbers(op: BinOp, left: i64, right: i64) -> Result<Value, Halt>
    ensures { Given value_view result (spec.of_numbers op left right) }
{
    match op {
        BinOp::Add => Ok(Value::Int(sum(left, right))),
        BinOp::Sub => Ok(Value::Int(difference(left, right))),
        BinOp::Mul => Ok(Value::Int(product(left, right))),
        BinOp::FloorDiv => divide(left, right),
        BinOp::Mod => divide_for_the_rest(left, right),
        BinOp::Eq => Ok(Value::Bool(left == right)),
        BinOp::Ne => Ok(Value::Bool(left != right)),
        BinOp::Lt => Ok(Value::Bool(left < right)),
        BinOp::Le => Ok(Value::Bool(left <= right)),
        BinOp::Gt => Ok(Value::Bool(left > right)),
        BinOp::Ge => Ok(Value::Bool(left >= right)),
    }
}

fn operate_on_booleans(op: BinOp, left: bool, right: bool) -> Result<Value, Halt>
    ensures { Given value_view result (spec.of_booleans op left right) }
{
    match op {
        BinOp::Eq => Ok(Value::Bool(left == right)),
        BinOp::Ne => Ok(Value::Bool(left != right)),
        _ => Err(Halt::Stuck),
    }
}

/// The whole number that a value is; a value of another kind is stuck.
pub fn number_of(value: &Value) -> Result<i64, Halt>
    ensures { Found (λ n. n) result (values.number_of (value_view value.now)) }
{
    match value {
        Value::Int(number) => Ok(*number),
        _ => Err(Halt::Stuck),
    }
}

/// The truth value that a value is; a value of another kind is stuck.
pub fn boolean_of(value: &Value) -> Result<bool, Halt>
    ensures { Found (λ b. b) result (values.boolean_of (value_view value.now)) }
{
    match value {
        Value::Bool(truth) => Ok(*truth),
        _ => Err(Halt::Stuck),
    }
}

/// Minus a whole number; a value of another kind is stuck.
pub fn minus(value: &Value) -> Result<Value, Halt>
    ensures { Found value_view result (spec.minus_of (value_view value.now)) }
{
    Ok(Value::Int(negated(number_of(value)?)))
}
