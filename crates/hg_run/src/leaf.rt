//! Ops without a region.

ghost use Rattle.std.specs.Prelude.{IfOk, not};
ghost use Rattle.gp_base.specs.Number as numbers;
ghost use Rattle.gp_base.specs.Tag.{IsTag};
ghost use Rattle.gp_base.specs.Truth.{same_truth};
ghost use Rattle.hg_graph.specs.Run.{perform};
ghost use Rattle.hg_graph.specs.Run as run;
ghost use Rattle.hg_graph.specs.Valid.{KeepsTags};
ghost use Rattle.hg_ops.specs.OpView.{op_view};
ghost use Rattle.hg_run.specs.code.Kinds.{calculation_view, division_view, comparison_view};
ghost use Rattle.hg_run.specs.code.Leaves.{int_result_run, bool_result_run, tag_run, unpack_run};
ghost use Rattle.hg_run.specs.code.Leaves.{calculation_run, division_run, negation_run};
ghost use Rattle.hg_run.specs.code.Leaves.{comparison_run, not_run, bool_run, DoesStill};
ghost use Rattle.hg_run.specs.code.Stepped.{Does};

use crate::arithmetic::{Calculation, Comparison, Division, calculated, compared, divided};
use crate::qubits::{
    allocate, apply_gate, apply_gate_on_three, apply_gate_on_two, free, measure, measure_free,
    reset, rotate,
};
use crate::shapes::{of_int, of_truth, one_bool, one_int, two_bools, two_ints};
use crate::state::{Done, Halt, Machine};
use crate::value::{Value, Values};
use gp_base::{Event, GateName, Name, Tag};
use hg_ops::OpKind;
use integers::negated;
use std::alloc::{AllocError, Global};

// Makes a variant of a Sum.
fn tag(alloc: Global, number: u64, ins: Values, machine: &Machine) -> Result<Done, AllocError>
    ensures { DoesStill (tag_run number ins) machine.now result }
{
    let mut outs = Values::new(alloc);
    outs.push(Value::Variant(number, ins))?;
    Ok(Done::Gives(outs, None))
}

// Gives the values of a Sum of one row.
fn unpack(ins: Values, machine: &Machine) -> Result<Done, AllocError>
    ensures { DoesStill (unpack_run ins) machine.now result }
{
    if ins.as_slice().len() != 1 {
        return Ok(Done::Halts(Halt::Stuck));
    }
    match ins.choose()? {
        None => Ok(Done::Halts(Halt::Stuck)),
        Some(chosen) => {
            if chosen.tag == 0 {
                Ok(Done::Gives(chosen.values, None))
            } else {
                Ok(Done::Halts(Halt::Stuck))
            }
        }
    }
}

// Reports a number.
fn report_int(
    alloc: Global,
    name: &Name,
    ins: &Values,
    machine: &Machine,
) -> Result<Done, AllocError>
    requires { IsTag name.now }
    ensures { DoesStill (int_result_run name.now ins.now) machine.now result }
{
    match (one_int(ins), Tag::new(alloc, name.as_str().as_bytes())?) {
        (Some(number), Some(tag)) => Ok(Done::Gives(
            Values::new(alloc),
            Some(Event::ResultInt(tag, number)),
        )),
        _ => Ok(Done::Halts(Halt::Stuck)),
    }
}

// Reports a truth value.
fn report_bool(
    alloc: Global,
    name: &Name,
    ins: &Values,
    machine: &Machine,
) -> Result<Done, AllocError>
    requires { IsTag name.now }
    ensures { DoesStill (bool_result_run name.now ins.now) machine.now result }
{
    match (one_bool(ins), Tag::new(alloc, name.as_str().as_bytes())?) {
        (Some(truth), Some(tag)) => Ok(Done::Gives(
            Values::new(alloc),
            Some(Event::ResultBool(tag, truth)),
        )),
        _ => Ok(Done::Halts(Halt::Stuck)),
    }
}

// Makes a number of two.
fn calculate(
    alloc: Global,
    which: Calculation,
    ins: &Values,
    machine: &Machine,
) -> Result<Done, AllocError>
    ensures { DoesStill (calculation_run (run.calculated (calculation_view which)) ins.now)
        machine.now result }
{
    match two_ints(ins) {
        None => Ok(Done::Halts(Halt::Stuck)),
        Some((a, b)) => Ok(Done::Gives(of_int(alloc, calculated(which, a, b))?, None)),
    }
}

// Divides a number by another.
fn divide(
    alloc: Global,
    which: Division,
    ins: &Values,
    machine: &Machine,
) -> Result<Done, AllocError>
    ensures { DoesStill (division_run (division_view which) ins.now) machine.now result }
{
    match two_ints(ins) {
        None => Ok(Done::Halts(Halt::Stuck)),
        Some((a, b)) => {
            if b == 0 {
                Ok(Done::Halts(Halt::DivisionByZero))
            } else {
                Ok(Done::Gives(of_int(alloc, divided(which, a, b))?, None))
            }
        }
    }
}

// Turns the sign of a number round.
fn negate(alloc: Global, ins: &Values, machine: &Machine) -> Result<Done, AllocError>
    ensures { DoesStill (negation_run numbers.negated ins.now) machine.now result }
{
    match one_int(ins) {
        None => Ok(Done::Halts(Halt::Stuck)),
        Some(a) => Ok(Done::Gives(of_int(alloc, negated(a))?, None)),
    }
}

// Compares two numbers.
fn compare(
    alloc: Global,
    which: Comparison,
    ins: &Values,
    machine: &Machine,
) -> Result<Done, AllocError>
    ensures { DoesStill (comparison_run (run.compared (comparison_view which)) ins.now)
        machine.now result }
{
    match two_ints(ins) {
        None => Ok(Done::Halts(Halt::Stuck)),
        Some((a, b)) => Ok(Done::Gives(of_truth(alloc, compared(which, a, b))?, None)),
    }
}

// Turns a truth value round.
fn turn_round(alloc: Global, ins: &Values, machine: &Machine) -> Result<Done, AllocError>
    ensures { DoesStill (not_run not ins.now) machine.now result }
{
    match one_bool(ins) {
        None => Ok(Done::Halts(Halt::Stuck)),
        Some(a) => Ok(Done::Gives(of_truth(alloc, !a)?, None)),
    }
}

// Whether two truth values are equal.
fn are_same(alloc: Global, ins: &Values, machine: &Machine) -> Result<Done, AllocError>
    ensures { DoesStill (bool_run same_truth ins.now) machine.now result }
{
    match two_bools(ins) {
        None => Ok(Done::Halts(Halt::Stuck)),
        Some((a, b)) => Ok(Done::Gives(of_truth(alloc, a == b)?, None)),
    }
}

// Whether two truth values differ.
fn differ(alloc: Global, ins: &Values, machine: &Machine) -> Result<Done, AllocError>
    ensures { DoesStill (bool_run (λ a b. not (same_truth a b)) ins.now) machine.now result }
{
    match two_bools(ins) {
        None => Ok(Done::Halts(Halt::Stuck)),
        Some((a, b)) => Ok(Done::Gives(of_truth(alloc, a != b)?, None)),
    }
}

/// Does what an op without a region does.
#[tactic(auto, unfolding(hg_graph::specs::Run::perform, hg_graph::specs::Run::perform_extension))]
pub fn perform(
    alloc: Global,
    op: &OpKind,
    ins: Values,
    machine: &mut Machine,
) -> Result<Done, AllocError>
    requires { KeepsTags (op_view op.now) }
    ensures { IfOk result (λ how. Does (perform (op_view op.now) ins) machine.old how machine.new) }
{
    match op {
        OpKind::Tag { tag: number, .. } => tag(alloc, *number, ins, machine),
        OpKind::Alloc => allocate(alloc, ins, machine),
        OpKind::Free => Ok(free(alloc, ins, machine)),
        OpKind::MeasureFree => measure_free(alloc, ins, machine),
        OpKind::Measure => measure(alloc, ins, machine),
        OpKind::Reset => Ok(reset(ins, machine)),
        OpKind::H => Ok(apply_gate(GateName::H, ins, machine)),
        OpKind::X => Ok(apply_gate(GateName::X, ins, machine)),
        OpKind::Y => Ok(apply_gate(GateName::Y, ins, machine)),
        OpKind::Z => Ok(apply_gate(GateName::Z, ins, machine)),
        OpKind::S => Ok(apply_gate(GateName::S, ins, machine)),
        OpKind::Sdg => Ok(apply_gate(GateName::Sdg, ins, machine)),
        OpKind::T => Ok(apply_gate(GateName::T, ins, machine)),
        OpKind::Tdg => Ok(apply_gate(GateName::Tdg, ins, machine)),
        OpKind::Cx => Ok(apply_gate_on_two(GateName::Cx, ins, machine)),
        OpKind::Cy => Ok(apply_gate_on_two(GateName::Cy, ins, machine)),
        OpKind::Cz => Ok(apply_gate_on_two(GateName::Cz, ins, machine)),
        OpKind::Toffoli => Ok(apply_gate_on_three(GateName::Toffoli, ins, machine)),
        OpKind::Rx => rotate(alloc, GateName::Rx, ins, machine),
        OpKind::Ry => rotate(alloc, GateName::Ry, ins, machine),
        OpKind::Rz => rotate(alloc, GateName::Rz, ins, machine),
        OpKind::ResultInt { tag } => report_int(alloc, tag, &ins, machine),
        OpKind::ResultBool { tag } => report_bool(alloc, tag, &ins, machine),
        OpKind::Add => calculate(alloc, Calculation::Add, &ins, machine),
        OpKind::Sub => calculate(alloc, Calculation::Sub, &ins, machine),
        OpKind::Mul => calculate(alloc, Calculation::Mul, &ins, machine),
        OpKind::FloorDiv => divide(alloc, Division::FloorDiv, &ins, machine),
        OpKind::Mod => divide(alloc, Division::Mod, &ins, machine),
        OpKind::Neg => negate(alloc, &ins, machine),
        OpKind::IntEq => compare(alloc, Comparison::Eq, &ins, machine),
        OpKind::IntNe => compare(alloc, Comparison::Ne, &ins, machine),
        OpKind::Lt => compare(alloc, Comparison::Lt, &ins, machine),
        OpKind::Le => compare(alloc, Comparison::Le, &ins, machine),
        OpKind::Gt => compare(alloc, Comparison::Gt, &ins, machine),
        OpKind::Ge => compare(alloc, Comparison::Ge, &ins, machine),
        OpKind::Not => turn_round(alloc, &ins, machine),
        OpKind::BoolEq => are_same(alloc, &ins, machine),
        OpKind::BoolNe => differ(alloc, &ins, machine),
        OpKind::Unpack { .. } => unpack(ins, machine),
        _ => Ok(Done::Halts(Halt::Stuck)),
    }
}
