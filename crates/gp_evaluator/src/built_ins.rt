//! What the built-in functions do.

ghost use Rattle.std.specs.Prelude.{◌≡◌, ◌≤◌, [], IfOk, Some, None, map, option_map};
ghost use Rattle.gp_types.specs.declared.builtins.Builtin.TheVariants as built_in;
ghost use Rattle.gp_meaning.specs.Calls as spec;
ghost use Rattle.gp_meaning.specs.Value as values;
ghost use Rattle.gp_evaluator.specs.View.{value_view, world_view, called_view, Found, Ran};

use crate::halt::Halt;
use crate::operators::number_of;
use crate::value::Value;
use crate::world::World;
use gp_base::{GateName, Tag};
use gp_types::Builtin;
use std::alloc::{AllocError, Global};

/// What a call gives.
#[derive(Drop)]
pub struct Called {
    /// Its answer, where it has one.
    pub answer: Option<Value>,
    /// For each parameter its final value, where it is borrowed. Behind the last borrowed parameter there need be nothing.
    pub finals: Vec<Option<Value>>,
}

impl Called {
    // The answer, and these qubits as final values.
    fn with_qubits(
        alloc: Global,
        answer: Option<Value>,
        qubits: &[u64],
    ) -> Result<Called, AllocError>
        ensures { IfOk result (λ made. called_view made ≡ record { answer = option_map value_view answer; finals = map (λ q. Some (values.qubit q)) qubits.now }) }
    {
        Ok(Called {
            answer,
            finals: qubits_of(alloc, qubits)?,
        })
    }
}

// The qubits of these numbers, as final values.
fn qubits_of(alloc: Global, numbers: &[u64]) -> Result<Vec<Option<Value>>, AllocError>
    ensures { IfOk result (λ made. map (option_map value_view) made.items ≡ map (λ q. Some (values.qubit q)) numbers.now) }
{
    let mut finals = Vec::new(alloc);
    for number in numbers {
        finals.push(Some(Value::Qubit(*number)))?;
    }
    Ok(finals)
}

// The qubit that is the value at a place.
fn qubit_at(values: &[Value], place: usize) -> Result<u64, Halt>
    ensures { Found (λ q. q) result (spec.qubit_at (map value_view values.now) place) }
{
    match values.get(place) {
        Some(value) => qubit_of(value),
        None => Err(Halt::Stuck),
    }
}

fn qubit_of(value: &Value) -> Result<u64, Halt>
    ensures { Found (λ q. q) result (values.qubit_of (value_view value.now)) }
{
    match value {
        Value::Qubit(number) => Ok(*number),
        _ => Err(Halt::Stuck),
    }
}

// The whole number that is the value at a place.
fn number_at(values: &[Value], place: usize) -> Result<i64, Halt>
    ensures { Found (λ n. n) result (spec.number_at (map value_view values.now) place) }
{
    match values.get(place) {
        Some(value) => number_of(value),
        None => Err(Halt::Stuck),
    }
}

/// A built-in function with these values, and with a tag where it takes one. Where a value is missing or of another kind
/// than the function takes, it is stuck.
pub fn perform(
    alloc: Global,
    world: &mut World<'_>,
    function: Builtin,
    tag: Option<Tag>,
    values: &[Value],
) -> Result<Called, Halt>
    ensures run { Ran called_view result (world_view world.new) (spec.performed function tag (map value_view values.now) (world_view world.old)) }
    ensures fewer { world.new.turns ≤ world.old.turns }
{
    match function {
        Builtin::Qubit => allocate(alloc, world),
        Builtin::Discard => discard(alloc, world, values),
        Builtin::Measure => measure(alloc, world, values),
        Builtin::ProjectZ => project(alloc, world, values),
        Builtin::Reset => reset(alloc, world, values),
        Builtin::OneQubitGate(gate) => apply_to_one(alloc, world, gate, values),
        Builtin::TwoQubitGate(gate) => apply_to_two(alloc, world, gate, values),
        Builtin::Toffoli => apply_to_three(alloc, world, values),
        Builtin::Rotation(gate) => rotate(alloc, world, gate, values),
        Builtin::Result => report(alloc, world, tag, values),
    }
}

fn allocate(alloc: Global, world: &mut World<'_>) -> Result<Called, Halt>
    ensures run { Ran called_view result (world_view world.new) (spec.performed built_in.Qubit None [] (world_view world.old)) }
    ensures fewer { world.new.turns ≤ world.old.turns }
{
    let qubit = world.allocate()?;
    Ok(Called::with_qubits(alloc, Some(Value::Qubit(qubit)), &[])?)
}

fn discard(alloc: Global, world: &mut World<'_>, values: &[Value]) -> Result<Called, Halt>
    ensures run { Ran called_view result (world_view world.new) (spec.performed built_in.Discard None (map value_view values.now) (world_view world.old)) }
    ensures fewer { world.new.turns ≤ world.old.turns }
{
    world.free(qubit_at(values, 0)?)?;
    Ok(Called::with_qubits(alloc, None, &[])?)
}

fn measure(alloc: Global, world: &mut World<'_>, values: &[Value]) -> Result<Called, Halt>
    ensures run { Ran called_view result (world_view world.new) (spec.performed built_in.Measure None (map value_view values.now) (world_view world.old)) }
    ensures fewer { world.new.turns ≤ world.old.turns }
{
    let outcome = world.measure_free(qubit_at(values, 0)?)?;
    Ok(Called::with_qubits(alloc, Some(Value::Bool(outcome)), &[])?)
}

// A measurement after which the qubit is still there.
fn project(alloc: Global, world: &mut World<'_>, values: &[Value]) -> Result<Called, Halt>
    ensures run { Ran called_view result (world_view world.new) (spec.performed built_in.ProjectZ None (map value_view values.now) (world_view world.old)) }
    ensures fewer { world.new.turns ≤ world.old.turns }
{
    let qubit = qubit_at(values, 0)?;
    let outcome = world.measure(qubit)?;
    Ok(Called::with_qubits(alloc, Some(Value::Bool(outcome)), &[qubit])?)
}

fn reset(alloc: Global, world: &mut World<'_>, values: &[Value]) -> Result<Called, Halt>
    ensures run { Ran called_view result (world_view world.new) (spec.performed built_in.Reset None (map value_view values.now) (world_view world.old)) }
    ensures fewer { world.new.turns ≤ world.old.turns }
{
    let qubit = qubit_at(values, 0)?;
    world.reset(qubit)?;
    Ok(Called::with_qubits(alloc, None, &[qubit])?)
}

fn apply_to_one(
    alloc: Global,
    world: &mut World<'_>,
    gate: GateName,
    values: &[Value],
) -> Result<Called, Halt>
    ensures run { Ran called_view result (world_view world.new) (spec.performed (built_in.OneQubitGate gate) None (map value_view values.now) (world_view world.old)) }
    ensures fewer { world.new.turns ≤ world.old.turns }
{
    let qubit = qubit_at(values, 0)?;
    world.apply_gate(gate, qubit)?;
    Ok(Called::with_qubits(alloc, None, &[qubit])?)
}

fn apply_to_two(
    alloc: Global,
    world: &mut World<'_>,
    gate: GateName,
    values: &[Value],
) -> Result<Called, Halt>
    ensures run { Ran called_view result (world_view world.new) (spec.performed (built_in.TwoQubitGate gate) None (map value_view values.now) (world_view world.old)) }
    ensures fewer { world.new.turns ≤ world.old.turns }
{
    let first = qubit_at(values, 0)?;
    let second = qubit_at(values, 1)?;
    world.apply_gate_on_two(gate, first, second)?;
    Ok(Called::with_qubits(alloc, None, &[first, second])?)
}

// The gate on three qubits.
fn apply_to_three(alloc: Global, world: &mut World<'_>, values: &[Value]) -> Result<Called, Halt>
    ensures run { Ran called_view result (world_view world.new) (spec.performed built_in.Toffoli None (map value_view values.now) (world_view world.old)) }
    ensures fewer { world.new.turns ≤ world.old.turns }
{
    let first = qubit_at(values, 0)?;
    let second = qubit_at(values, 1)?;
    let third = qubit_at(values, 2)?;
    world.apply_gate_on_three(GateName::Toffoli, first, second, third)?;
    Ok(Called::with_qubits(alloc, None, &[first, second, third])?)
}

fn rotate(
    alloc: Global,
    world: &mut World<'_>,
    gate: GateName,
    values: &[Value],
) -> Result<Called, Halt>
    ensures run { Ran called_view result (world_view world.new) (spec.performed (built_in.Rotation gate) None (map value_view values.now) (world_view world.old)) }
    ensures fewer { world.new.turns ≤ world.old.turns }
{
    let qubit = qubit_at(values, 0)?;
    let angle = number_at(values, 1)?;
    world.rotate(gate, qubit, angle)?;
    Ok(Called::with_qubits(alloc, None, &[qubit])?)
}

// A whole number or a truth value is reported under a tag.
fn report(
    alloc: Global,
    world: &mut World<'_>,
    tag: Option<Tag>,
    values: &[Value],
) -> Result<Called, Halt>
    ensures run { Ran called_view result (world_view world.new) (spec.performed built_in.Result tag (map value_view values.now) (world_view world.old)) }
    ensures fewer { world.new.turns ≤ world.old.turns }
{
    let Some(tag) = tag else {
        return Err(Halt::Stuck);
    };
    match values.get(0) {
        Some(Value::Int(number)) => world.report_int(tag, *number)?,
        Some(Value::Bool(truth)) => world.report_bool(tag, *truth)?,
        _ => return Err(Halt::Stuck),
    }
    Ok(Called::with_qubits(alloc, None, &[])?)
}
