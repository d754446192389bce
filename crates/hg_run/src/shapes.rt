//! Values taken apart, by the kinds that an op takes.

ghost use Rattle.std.specs.Prelude.{◌≡◌, [], ◌∷◌, MatchOption, IfOk};
ghost use Rattle.hg_graph.specs.Run.{with_qubit, with_two_qubits, with_three_qubits, with_angle};
ghost use Rattle.hg_graph.specs.Run.{with_int, with_two_ints, with_bool, with_two_bools};
ghost use Rattle.hg_graph.specs.Value as spec;
ghost use Rattle.hg_graph.specs.Value.{truth_of};
ghost use Rattle.hg_run.specs.code.Shapes.{IsRefused, Takes, TakesTwo};
ghost use Rattle.hg_run.specs.code.ValueView.{value_view};

use crate::value::{Value, Values};
use std::alloc::{AllocError, Global};

/// The qubit, where the values are one qubit.
pub fn one_qubit(ins: &Values) -> Option<u64>
    ensures { MatchOption result (IsRefused (with_qubit ins.now))
        (λ q. ins.now ≡ spec.Qubit q ∷ []) }
{
    match ins.as_slice() {
        [Value::Qubit(q)] => Some(*q),
        _ => None,
    }
}

/// Two qubits, where the values are two qubits.
pub fn two_qubits(ins: &Values) -> Option<(u64, u64)>
    ensures { MatchOption result (IsRefused (with_two_qubits ins.now))
        (λ p. ins.now ≡ spec.Qubit p.0 ∷ spec.Qubit p.1 ∷ []) }
{
    match ins.as_slice() {
        [Value::Qubit(p), Value::Qubit(q)] => Some((*p, *q)),
        _ => None,
    }
}

/// Three qubits, where the values are three qubits.
pub fn three_qubits(ins: &Values) -> Option<(u64, u64, u64)>
    ensures { MatchOption result (IsRefused (with_three_qubits ins.now))
        (λ p. ins.now ≡ spec.Qubit p.0 ∷ spec.Qubit p.1 ∷ spec.Qubit p.2 ∷ []) }
{
    match ins.as_slice() {
        [Value::Qubit(p), Value::Qubit(q), Value::Qubit(r)] => Some((*p, *q, *r)),
        _ => None,
    }
}

/// A qubit and an angle.
pub fn qubit_and_angle(ins: &Values) -> Option<(u64, i64)>
    ensures { MatchOption result (IsRefused (with_angle ins.now))
        (λ p. ins.now ≡ spec.Qubit p.0 ∷ spec.Int p.1 ∷ []) }
{
    match ins.as_slice() {
        [Value::Qubit(q), Value::Int(a)] => Some((*q, *a)),
        _ => None,
    }
}

/// A number.
pub fn one_int(ins: &Values) -> Option<i64>
    ensures { MatchOption result (IsRefused (with_int ins.now)) (λ n. ins.now ≡ spec.Int n ∷ []) }
{
    match ins.as_slice() {
        [Value::Int(n)] => Some(*n),
        _ => None,
    }
}

/// Two numbers.
pub fn two_ints(ins: &Values) -> Option<(i64, i64)>
    ensures { MatchOption result (IsRefused (with_two_ints ins.now))
        (λ p. ins.now ≡ spec.Int p.0 ∷ spec.Int p.1 ∷ []) }
{
    match ins.as_slice() {
        [Value::Int(a), Value::Int(b)] => Some((*a, *b)),
        _ => None,
    }
}

// The truth value of a variant without values.
fn truth_by(number: u64) -> Option<bool>
    ensures { result ≡ truth_of (spec.Variant number spec.no_values) }
{
    if number == 0 {
        Some(false)
    } else if number == 1 {
        Some(true)
    } else {
        None
    }
}

// The truth value of a variant.
fn truth_in(number: u64, row: &Values) -> Option<bool>
    ensures { result ≡ truth_of (spec.Variant number (spec.packed row.now)) }
{
    match row.as_slice() {
        [] => truth_by(number),
        _ => None,
    }
}

// The truth value that a value is.
fn truth_of(value: &Value) -> Option<bool>
    ensures { result ≡ truth_of (value_view value.now) }
{
    match value {
        Value::Variant(number, row) => truth_in(*number, row),
        _ => None,
    }
}

/// A truth value.
pub fn one_bool(ins: &Values) -> Option<bool>
    ensures { MatchOption result (IsRefused (with_bool ins.now)) (Takes (with_bool ins.now)) }
{
    match ins.as_slice() {
        [value] => truth_of(value),
        _ => None,
    }
}

/// Two truth values.
pub fn two_bools(ins: &Values) -> Option<(bool, bool)>
    ensures { MatchOption result (IsRefused (with_two_bools ins.now))
        (λ p. TakesTwo (with_two_bools ins.now) p.0 p.1) }
{
    match ins.as_slice() {
        [first, second] => match (truth_of(first), truth_of(second)) {
            (Some(a), Some(b)) => Some((a, b)),
            _ => None,
        },
        _ => None,
    }
}

/// A truth value as the one value.
pub fn of_truth(alloc: Global, answer: bool) -> Result<Values, AllocError>
    ensures { IfOk result (λ outs. outs ≡ spec.truth answer ∷ []) }
{
    let mut outs = Values::new(alloc);
    outs.push(Value::Variant(u64::from(answer), Values::new(alloc)))?;
    Ok(outs)
}

/// A number as the one value.
pub fn of_int(alloc: Global, number: i64) -> Result<Values, AllocError>
    ensures { IfOk result (λ outs. outs ≡ spec.Int number ∷ []) }
{
    let mut outs = Values::new(alloc);
    outs.push(Value::Int(number))?;
    Ok(outs)
}
