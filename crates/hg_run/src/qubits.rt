//! Ops on qubits.

ghost use Rattle.std.specs.Prelude.{◌≡◌, true, slice_get, IfOk};
ghost use Rattle.gp_base.specs.World.{is_live, are_two_live, are_three_live, ended};
ghost use Rattle.hg_graph.specs.Run.{perform_extension};
ghost use Rattle.hg_ops.specs.Op.{Alloc};
ghost use Rattle.hg_run.specs.code.Leaves.{gate_run, two_run, three_run, rotation_run};
ghost use Rattle.hg_run.specs.code.Leaves.{reset_run, free_run, measure_run, measure_free_run};
ghost use Rattle.hg_run.specs.code.Leaves.{outcome_run, last_outcome_run, DoesStill};
ghost use Rattle.hg_run.specs.code.Stepped.{Does};

use crate::shapes::{of_truth, one_qubit, qubit_and_angle, three_qubits, two_qubits};
use crate::state::{Done, Halt, Machine};
use crate::value::{Value, Values};
use gp_base::{Event, GateName};
use std::alloc::{AllocError, Global};

// The flag of a qubit, where it was allocated.
fn flag_of(machine: &Machine, q: u64) -> Option<bool>
    ensures { result ≡ slice_get machine.now.flags.items q }
{
    machine.flags.get(q as usize).copied()
}

// Whether a qubit is live.
fn is_live(machine: &Machine, q: u64) -> bool
    ensures { result ≡ is_live machine.now.flags.items q }
{
    match flag_of(machine, q) {
        Some(flag) => flag,
        None => false,
    }
}

// Whether two qubits are live and not the same one.
fn are_two_live(machine: &Machine, p: u64, q: u64) -> bool
    ensures { result ≡ are_two_live machine.now.flags.items p q }
{
    is_live(machine, p) && is_live(machine, q) && p != q
}

// Whether three qubits are live and no two of them the same one.
fn are_three_live(machine: &Machine, p: u64, q: u64, r: u64) -> bool
    ensures { result ≡ are_three_live machine.now.flags.items p q r }
{
    is_live(machine, p) && is_live(machine, q) && is_live(machine, r) && p != q && p != r && q != r
}

// A live qubit ends.
#[tactic(auto, using(crate::proofs::Flags::flags))]
fn end_qubit(machine: &mut Machine, q: u64)
    requires { is_live machine.old.flags.items q ≡ true }
    ensures flags { machine.new.flags.items ≡ ended machine.old.flags.items q }
    ensures turns { machine.new.turns ≡ machine.old.turns }
    ensures outcomes { machine.new.outcomes ≡ machine.old.outcomes }
    ensures picks { machine.new.picks ≡ machine.old.picks }
{
    machine.flags[q as usize] = false;
}

/// Applies a gate to one qubit.
pub fn apply_gate(name: GateName, ins: Values, machine: &Machine) -> Done
    ensures { Does (gate_run name ins) machine.now result machine.now }
{
    match one_qubit(&ins) {
        None => Done::Halts(Halt::Stuck),
        Some(q) => {
            if is_live(machine, q) {
                Done::Gives(ins, Some(Event::Gate1(name, q)))
            } else {
                Done::Halts(Halt::Stuck)
            }
        }
    }
}

/// Sets a qubit to its first state.
pub fn reset(ins: Values, machine: &Machine) -> Done
    ensures { Does (reset_run ins) machine.now result machine.now }
{
    match one_qubit(&ins) {
        None => Done::Halts(Halt::Stuck),
        Some(q) => {
            if is_live(machine, q) {
                Done::Gives(ins, Some(Event::Reset(q)))
            } else {
                Done::Halts(Halt::Stuck)
            }
        }
    }
}

/// Applies a gate to two qubits.
pub fn apply_gate_on_two(name: GateName, ins: Values, machine: &Machine) -> Done
    ensures { Does (two_run name ins) machine.now result machine.now }
{
    match two_qubits(&ins) {
        None => Done::Halts(Halt::Stuck),
        Some((p, q)) => {
            if are_two_live(machine, p, q) {
                Done::Gives(ins, Some(Event::Gate2(name, p, q)))
            } else {
                Done::Halts(Halt::Stuck)
            }
        }
    }
}

/// Applies a gate to three qubits.
pub fn apply_gate_on_three(name: GateName, ins: Values, machine: &Machine) -> Done
    ensures { Does (three_run name ins) machine.now result machine.now }
{
    match three_qubits(&ins) {
        None => Done::Halts(Halt::Stuck),
        Some((p, q, r)) => {
            if are_three_live(machine, p, q, r) {
                Done::Gives(ins, Some(Event::Gate3(name, p, q, r)))
            } else {
                Done::Halts(Halt::Stuck)
            }
        }
    }
}

/// Rotates a qubit by an angle.
pub fn rotate(
    alloc: Global,
    name: GateName,
    ins: Values,
    machine: &Machine,
) -> Result<Done, AllocError>
    ensures { DoesStill (rotation_run name ins) machine.now result }
{
    match qubit_and_angle(&ins) {
        None => Ok(Done::Halts(Halt::Stuck)),
        Some((q, angle)) => {
            let mut outs = Values::new(alloc);
            outs.push(Value::Qubit(q))?;
            if is_live(machine, q) {
                Ok(Done::Gives(outs, Some(Event::Rotation(name, q, angle))))
            } else {
                Ok(Done::Halts(Halt::Stuck))
            }
        }
    }
}

/// Allocates a qubit.
#[tactic(auto, unfolding(hg_graph::specs::Run::perform_extension))]
pub fn allocate(alloc: Global, ins: Values, machine: &mut Machine) -> Result<Done, AllocError>
    ensures { IfOk result (λ how. Does (perform_extension Alloc ins) machine.old how machine.new) }
{
    if !ins.as_slice().is_empty() {
        return Ok(Done::Halts(Halt::Stuck));
    }
    let number = machine.flags.len() as u64;
    let mut outs = Values::new(alloc);
    outs.push(Value::Qubit(number))?;
    machine.flags.push(true)?;
    Ok(Done::Gives(outs, Some(Event::Alloc(number))))
}

/// Frees a qubit.
pub fn free(alloc: Global, ins: Values, machine: &mut Machine) -> Done
    ensures { Does (free_run ins) machine.old result machine.new }
{
    match one_qubit(&ins) {
        None => Done::Halts(Halt::Stuck),
        Some(q) => {
            if is_live(machine, q) {
                end_qubit(machine, q);
                Done::Gives(Values::new(alloc), Some(Event::Free(q)))
            } else {
                Done::Halts(Halt::Stuck)
            }
        }
    }
}

// Measures a live qubit, where an outcome is left.
fn take_outcome(alloc: Global, q: u64, machine: &mut Machine) -> Result<Done, AllocError>
    ensures { IfOk result (λ how. Does (outcome_run q) machine.old how machine.new) }
{
    match machine.outcomes.pop_front() {
        None => Ok(Done::Halts(Halt::OutcomesUsed)),
        Some(outcome) => {
            let mut outs = Values::new(alloc);
            outs.push(Value::Qubit(q))?;
            outs.push(Value::Variant(u64::from(outcome), Values::new(alloc)))?;
            Ok(Done::Gives(outs, Some(Event::Measure(q, outcome))))
        }
    }
}

/// Measures a qubit.
pub fn measure(alloc: Global, ins: Values, machine: &mut Machine) -> Result<Done, AllocError>
    ensures { IfOk result (λ how. Does (measure_run ins) machine.old how machine.new) }
{
    match one_qubit(&ins) {
        None => Ok(Done::Halts(Halt::Stuck)),
        Some(q) => {
            if is_live(machine, q) {
                take_outcome(alloc, q, machine)
            } else {
                Ok(Done::Halts(Halt::Stuck))
            }
        }
    }
}

// Measures a live qubit, where an outcome is left, and ends it.
fn take_last_outcome(alloc: Global, q: u64, machine: &mut Machine) -> Result<Done, AllocError>
    requires { is_live machine.old.flags.items q ≡ true }
    ensures { IfOk result (λ how. Does (last_outcome_run q) machine.old how machine.new) }
{
    match machine.outcomes.pop_front() {
        None => Ok(Done::Halts(Halt::OutcomesUsed)),
        Some(outcome) => {
            let outs = of_truth(alloc, outcome)?;
            end_qubit(machine, q);
            Ok(Done::Gives(outs, Some(Event::MeasureFree(q, outcome))))
        }
    }
}

/// Measures a qubit and frees it.
pub fn measure_free(alloc: Global, ins: Values, machine: &mut Machine) -> Result<Done, AllocError>
    ensures { IfOk result (λ how. Does (measure_free_run ins) machine.old how machine.new) }
{
    match one_qubit(&ins) {
        None => Ok(Done::Halts(Halt::Stuck)),
        Some(q) => {
            if is_live(machine, q) {
                take_last_outcome(alloc, q, machine)
            } else {
                Ok(Done::Halts(Halt::Stuck))
            }
        }
    }
}
