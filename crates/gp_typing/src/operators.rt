//! The types of what operators answer, and of tuples.

ghost use Rattle.std.specs.Prelude.{◌≡◌, ◌&&◌, IfOk, Some, option_map};
ghost use Rattle.gp_types.specs.Same.{same_type};
ghost use Rattle.gp_types.specs.Types as types;
ghost use Rattle.gp_types.specs.View.{ty_view};
ghost use Rattle.gp_typing.specs.Checks.{Answers};
ghost use Rattle.gp_typing.specs.Expressions as spec;
ghost use Rattle.gp_typing.specs.code.ExpressionView.{value_view, values_view};
ghost use Rattle.gp_typing.specs.code.Operations.{minus_of, negation_of, binary_of, both_of, either_of, choice_of};
ghost use Rattle.gp_typing.specs.Typed as typed;
ghost use Rattle.gp_typing.specs.View.{expression_view, kind_view};

use crate::fault::TypeFault;
use crate::typed::{TypedExpr, TypedKind};
use crate::value::{Value, Values, into_expr};
use gp_base::LineNo;
use gp_tree::BinOp;
use gp_types::{TYPE_SIZE_LIMIT, Ty, same_type, size};
use std::alloc::{AllocError, Global};

/// Whether the type is `int`. Takes no memory.
pub fn is_int(ty: &Ty) -> bool
    ensures { result ≡ spec.is_int (ty_view ty.now) }
{
    matches!(ty, Ty::Int)
}

/// Whether the type is `bool`. Takes no memory.
pub fn is_bool(ty: &Ty) -> bool
    ensures { result ≡ spec.is_bool (ty_view ty.now) }
{
    matches!(ty, Ty::Bool)
}

// From two whole numbers to this type.
fn from_ints(ty: Ty, left: &Ty, right: &Ty) -> Option<Ty>
    ensures { option_map ty_view result ≡ spec.from_ints (ty_view ty) (ty_view left.now) (ty_view right.now) }
{
    if is_int(left) && is_int(right) {
        Some(ty)
    } else {
        None
    }
}

// From two whole numbers or two truth values to a truth value.
fn from_equals(left: &Ty, right: &Ty) -> Option<Ty>
    ensures { option_map ty_view result ≡ spec.from_equals (ty_view left.now) (ty_view right.now) }
{
    if (is_int(left) && is_int(right)) || (is_bool(left) && is_bool(right)) {
        Some(Ty::Bool)
    } else {
        None
    }
}

fn answer_type(op: BinOp, left: &Ty, right: &Ty) -> Option<Ty>
    ensures { option_map ty_view result ≡ spec.answer_type op (ty_view left.now) (ty_view right.now) }
{
    match op {
        BinOp::Eq | BinOp::Ne => from_equals(left, right),
        BinOp::Lt | BinOp::Le | BinOp::Gt | BinOp::Ge => from_ints(Ty::Bool, left, right),
        BinOp::Add | BinOp::Sub | BinOp::Mul | BinOp::FloorDiv | BinOp::Mod => {
            from_ints(Ty::Int, left, right)
        }
    }
}

// An expression of this type.
fn of_type(ty: Ty, kind: TypedKind) -> TypedExpr
    ensures { expression_view result ≡ typed.of_type (Some (ty_view ty)) (kind_view kind) }
{
    TypedExpr { ty: Some(ty), kind }
}

/// A number.
pub fn number_expr(number: &i64) -> TypedExpr
    ensures { expression_view result ≡ typed.of_type (Some types.Int) (typed.number number.now) }
{
    of_type(Ty::Int, TypedKind::Int(*number))
}

/// `True` or `False`.
pub fn boolean_expr(value: bool) -> TypedExpr
    ensures { expression_view result ≡ typed.of_type (Some types.Bool) (typed.boolean value) }
{
    of_type(Ty::Bool, TypedKind::Bool(value))
}

/// Whether the value is a whole number. Takes no memory.
pub fn is_int_value(value: &Value) -> bool
    ensures { result ≡ spec.is_int (ty_view value.now.ty) }
{
    is_int(&value.ty)
}

/// Whether the value is a truth value. Takes no memory.
pub fn is_bool_value(value: &Value) -> bool
    ensures { result ≡ spec.is_bool (ty_view value.now.ty) }
{
    is_bool(&value.ty)
}

// Whether both are truth values.
fn are_bools(left: &Value, right: &Value) -> bool
    ensures { result ≡ (spec.is_bool (ty_view left.now.ty) && spec.is_bool (ty_view right.now.ty)) }
{
    is_bool(&left.ty) && is_bool(&right.ty)
}

// The type of what an operator between two operands answers.
fn answer_of(op: BinOp, left: &Value, right: &Value) -> Option<Ty>
    ensures { option_map ty_view result ≡ spec.answer_type op (ty_view left.now.ty) (ty_view right.now.ty) }
{
    answer_type(op, &left.ty, &right.ty)
}

// The value as an expression on the heap.
fn boxed(alloc: Global, value: Value) -> Result<Box<TypedExpr>, AllocError>
    ensures { IfOk result (λ made. expression_view made.value ≡ (value_view value).tree) }
{
    Ok(Box::new(alloc, into_expr(value))?)
}

// Two values as expressions on the heap.
fn boxed_pair(
    alloc: Global,
    left: Value,
    right: Value,
) -> Result<(Box<TypedExpr>, Box<TypedExpr>), AllocError>
    ensures left { IfOk result (λ made. expression_view made.0.value ≡ (value_view left).tree) }
    ensures right { IfOk result (λ made. expression_view made.1.value ≡ (value_view right).tree) }
{
    let left = boxed(alloc, left)?;
    let right = boxed(alloc, right)?;
    Ok((left, right))
}

/// A minus sign before an operand.
pub fn minus(alloc: Global, line: LineNo, operand: Value) -> Result<TypedExpr, TypeFault>
    ensures { Answers expression_view result (minus_of line (value_view operand)) }
{
    if !is_int_value(&operand) {
        return Err(TypeFault::Mismatch(line));
    }
    let operand = boxed(alloc, operand)?;
    Ok(of_type(Ty::Int, TypedKind::Neg(operand)))
}

/// `not` before an operand.
pub fn negation(alloc: Global, line: LineNo, operand: Value) -> Result<TypedExpr, TypeFault>
    ensures { Answers expression_view result (negation_of line (value_view operand)) }
{
    if !is_bool_value(&operand) {
        return Err(TypeFault::Mismatch(line));
    }
    let operand = boxed(alloc, operand)?;
    Ok(of_type(Ty::Bool, TypedKind::Not(operand)))
}

/// An operator between two operands.
pub fn binary(
    alloc: Global,
    line: LineNo,
    op: BinOp,
    left: Value,
    right: Value,
) -> Result<TypedExpr, TypeFault>
    ensures { Answers expression_view result (binary_of line op (value_view left) (value_view right)) }
{
    let Some(ty) = answer_of(op, &left, &right) else {
        return Err(TypeFault::Mismatch(line));
    };
    let (left, right) = boxed_pair(alloc, left, right)?;
    Ok(of_type(ty, TypedKind::Binary(op, left, right)))
}

/// `left and right`
pub fn both(alloc: Global, line: LineNo, left: Value, right: Value) -> Result<TypedExpr, TypeFault>
    ensures { Answers expression_view result (both_of line (value_view left) (value_view right)) }
{
    if !are_bools(&left, &right) {
        return Err(TypeFault::Mismatch(line));
    }
    let (left, right) = boxed_pair(alloc, left, right)?;
    Ok(of_type(Ty::Bool, TypedKind::And(left, right)))
}

/// `left or right`
pub fn either(
    alloc: Global,
    line: LineNo,
    left: Value,
    right: Value,
) -> Result<TypedExpr, TypeFault>
    ensures { Answers expression_view result (either_of line (value_view left) (value_view right)) }
{
    if !are_bools(&left, &right) {
        return Err(TypeFault::Mismatch(line));
    }
    let (left, right) = boxed_pair(alloc, left, right)?;
    Ok(of_type(Ty::Bool, TypedKind::Or(left, right)))
}

// Whether the first is a truth value, and the others have one type.
fn is_choice(test: &Value, value: &Value, other: &Value) -> bool
    ensures { result
        ≡ (spec.is_bool (ty_view test.now.ty) && same_type (ty_view value.now.ty) (ty_view other.now.ty)) }
{
    is_bool(&test.ty) && same_type(&value.ty, &other.ty)
}

// The type of the value once more.
fn copy_type(value: &Value) -> Result<Ty, AllocError>
    ensures { IfOk result (λ made. ty_view made ≡ ty_view value.now.ty) }
{
    value.ty.copy()
}

// The choice between two values of one type.
fn chosen(alloc: Global, test: Value, value: Value, other: Value) -> Result<TypedExpr, AllocError>
    ensures { IfOk result (λ made. expression_view made
        ≡ typed.of_type (Some (ty_view value.ty))
        (typed.choice (value_view test).tree (value_view value).tree (value_view other).tree)) }
{
    let ty = copy_type(&value)?;
    let (value, other) = boxed_pair(alloc, value, other)?;
    let test = boxed(alloc, test)?;
    Ok(of_type(ty, TypedKind::Choice(test, value, other)))
}

/// `value if test else other`
pub fn choice(
    alloc: Global,
    line: LineNo,
    test: Value,
    value: Value,
    other: Value,
) -> Result<TypedExpr, TypeFault>
    ensures { Answers expression_view result (choice_of line (value_view test) (value_view value) (value_view other)) }
{
    if !is_choice(&test, &value, &other) {
        return Err(TypeFault::Mismatch(line));
    }
    Ok(chosen(alloc, test, value, other)?)
}

/// The parts of a tuple.
pub fn tuple(line: LineNo, values: Values) -> Result<TypedExpr, TypeFault>
    ensures { Answers expression_view result (spec.tupled line (values_view values)) }
{
    let ty = Ty::tuple(values.types)?;
    if size(&ty) > TYPE_SIZE_LIMIT {
        return Err(TypeFault::TooBigType(line));
    }
    Ok(of_type(ty, TypedKind::Tuple(values.exprs)))
}
