//! The steps of a run.

ghost use Rattle.std.specs.Prelude.{◌≡◌, ◌<◌, ℕ, List, [], ◌∷◌, false, true, IfOk, OnOk, IfSome, MatchOption};
ghost use Rattle.hg_ops.specs.Op as op;
ghost use Rattle.hg_ops.specs.Op.{Types, Const};
ghost use Rattle.hg_ops.specs.OpView.{op_view};
ghost use Rattle.hg_graph.specs.Graph.{Graph, op_at};
ghost use Rattle.gp_base.specs.Run.{Returned, Stopped, Stuck, or_stuck};
ghost use Rattle.gp_base.specs.declared.event.Event.{Event};
ghost use Rattle.hg_graph.specs.Run.{choose, ready, outs_at, constant, name_of_function};
ghost use Rattle.hg_graph.specs.Value as spec;
ghost use Rattle.hg_steps.specs.Machine.{Plain, variant_of, enters_after_turn, opens, enter_step, fire_step, leaf_step, jump_step, close_step, give_step, kept, step_on};
ghost use Rattle.hg_steps.specs.Measure.{is_done_with};
ghost use Rattle.hg_run.specs.code.StateView.{EndsChoice, frame_view, frame_list, task_view, plain};
ghost use Rattle.hg_graph.specs.Valid.{KeepsTags};
ghost use Rattle.hg_run.specs.code.Stepped.{Makes, MakesStill, Keeps, KeepsStill, TagsAreKept, FrameKeeps, FramesKeep};
ghost use Rattle.hg_run.specs.code.Due.{KnowsDues, KnowsOtherDues};
ghost use Rattle.hg_run.specs.code.TablesView.{HasTables};

use crate::due::{first_due, refresh_all, take_due};
use crate::firings::Firings;
use crate::followers::followers_at;
use crate::functions::callee;
use crate::leaf::perform;
use crate::picking::inputs_of;
use crate::reads::{child_of, firing_count, first_taker, op_of, static_input};
use crate::state::{Done, Dues, Frame, Halt, Machine, Ready, Stepped, Task};
use crate::tables::Tables;
use crate::value::{Value, Values};
use gp_base::Name;
use hg_graph::{Graph, NodeId, Port};
use hg_ops::{OpKind, Row};
use std::alloc::{AllocError, Global};

// Takes a turn and goes on with a node.
fn enter_after_turn(machine: &mut Machine, node: NodeId, ins: Values) -> Stepped
    ensures { Keeps (enters_after_turn node.0 ins) machine.old result machine.new }
{
    if machine.turns == 0 {
        return Stepped::Halts(Halt::TurnsUsed);
    }
    machine.turns -= 1;
    Stepped::Goes(Task::Enter(node, ins), None)
}

// Opens the region of a container.
fn open(
    alloc: Global,
    graph: &Graph,
    node: NodeId,
    ins: Values,
    frames: &mut Vec<Frame>,
) -> Result<Stepped, AllocError>
    requires { FramesKeep graph.now frames.old.items }
    ensures kept { OnOk result (FramesKeep graph.now frames.new.items) }
    ensures step { IfOk result (λ how.
        MakesStill (opens graph.now node.0 ins (frame_list frames.old.items))
        how frames.new.items) }
{
    let Some(input) = child_of(graph, node, 0) else {
        return Ok(Stepped::Halts(Halt::Stuck));
    };
    let Some(output) = child_of(graph, node, 1) else {
        return Ok(Stepped::Halts(Halt::Stuck));
    };
    frames.push(Frame {
        container: node,
        output,
        running: input,
        fired: Firings::new(alloc),
        dues: first_due(alloc, graph, node, input)?,
        left: firing_count(graph, node),
    })?;
    Ok(Stepped::Goes(Task::Give(ins), None))
}

// Goes into the case of a `Conditional`.
fn enter_case(graph: &Graph, node: NodeId, ins: Values) -> Result<Stepped, AllocError>
    ensures { IfOk result (λ how. (rows : List Types) (types outs : Types) →
        KeepsStill (enter_step graph.now (op.Conditional rows types outs) node.0 ins) how) }
{
    match ins.choose()? {
        None => Ok(Stepped::Halts(Halt::Stuck)),
        Some(chosen) => match child_of(graph, node, chosen.tag) {
            None => Ok(Stepped::Halts(Halt::Stuck)),
            Some(case) => Ok(Stepped::Goes(Task::Enter(case, chosen.values), None)),
        },
    }
}

// Goes into the first block of a `Cfg`.
fn enter_first(graph: &Graph, node: NodeId, ins: Values) -> Stepped
    ensures { (types outs : Types) →
        KeepsStill (enter_step graph.now (op.Cfg types outs) node.0 ins) result }
{
    match child_of(graph, node, 0) {
        None => Stepped::Halts(Halt::Stuck),
        Some(block) => Stepped::Goes(Task::Enter(block, ins), None),
    }
}

// A node with this op is run.
#[tactic(auto, unfolding(hg_steps::specs::Machine::enter_step))]
fn enter(
    alloc: Global,
    graph: &Graph,
    op: &OpKind,
    node: NodeId,
    ins: Values,
    frames: &mut Vec<Frame>,
) -> Result<Stepped, AllocError>
    requires { FramesKeep graph.now frames.old.items }
    ensures kept { OnOk result (FramesKeep graph.now frames.new.items) }
    ensures step { IfOk result (λ how.
        MakesStill (enter_step graph.now (op_view op.now) node.0 ins (frame_list frames.old.items))
        how frames.new.items) }
{
    match op {
        OpKind::FuncDefn { .. }
        | OpKind::Dfg { .. }
        | OpKind::Case { .. }
        | OpKind::TailLoop { .. }
        | OpKind::DataflowBlock { .. } => open(alloc, graph, node, ins, frames),
        OpKind::Conditional { .. } => enter_case(graph, node, ins),
        OpKind::Cfg { .. } => Ok(enter_first(graph, node, ins)),
        _ => Ok(Stepped::Halts(Halt::Stuck)),
    }
}

// Calls the function that a `Call` names.
fn call(graph: &Graph, node: NodeId, ins: Values, machine: &mut Machine) -> Stepped
    ensures { (types outs : Types) →
        Keeps (fire_step graph.now (op.Call types outs) node.0 ins) machine.old result machine.new }
{
    match graph.feeder(static_input(graph, node)) {
        None => Stepped::Halts(Halt::Stuck),
        Some(function) => enter_after_turn(machine, function.node, ins),
    }
}

// Calls the function that the first value is.
fn call_value(
    graph: &Graph,
    tables: &Tables<'_>,
    types: &Row,
    outs: &Row,
    ins: Values,
    machine: &mut Machine,
) -> Stepped
    requires { HasTables graph.now tables.now }
    ensures { (node : ℕ) →
        Keeps (fire_step graph.now (op.CallIndirect types.now outs.now) node ins)
        machine.old result machine.new }
{
    match ins.called() {
        None => Stepped::Halts(Halt::Stuck),
        Some(called) => {
            match callee(graph, &tables.functions, &called.name, types, outs) {
                None => Stepped::Halts(Halt::Stuck),
                Some(function) => enter_after_turn(machine, function, called.values),
            }
        }
    }
}

// The number of a `Const`.
fn constant_of(op: &OpKind) -> Option<i64>
    ensures { MatchOption result ((s : Plain) → constant (op_view op.now) s ≡ Stopped Stuck s)
        (λ n. op_view op.now ≡ Const n) }
{
    match op {
        OpKind::Const { value } => Some(*value),
        _ => None,
    }
}

// The values that a `LoadConstant` gives, by the node that it names.
fn loaded(alloc: Global, graph: &Graph, node: NodeId) -> Result<Option<Values>, AllocError>
    ensures { IfOk result (λ found. (s : Plain) → constant (op_at graph.now node.0) s
        ≡ or_stuck found s) }
{
    match op_of(graph, node) {
        None => Ok(None),
        Some(op) => match constant_of(op) {
            None => Ok(None),
            Some(value) => {
                let mut outs = Values::new(alloc);
                outs.push(Value::Int(value))?;
                Ok(Some(outs))
            }
        },
    }
}

// Gives the number of the `Const` that a `LoadConstant` names.
fn load(alloc: Global, graph: &Graph, node: NodeId) -> Result<Stepped, AllocError>
    ensures { IfOk result (λ how. (ins : List spec.Value) →
        KeepsStill (fire_step graph.now op.LoadConstant node.0 ins) how) }
{
    match graph.feeder(static_input(graph, node)) {
        None => Ok(Stepped::Halts(Halt::Stuck)),
        Some(constant) => match loaded(alloc, graph, constant.node)? {
            None => Ok(Stepped::Halts(Halt::Stuck)),
            Some(outs) => Ok(Stepped::Goes(Task::Give(outs), None)),
        },
    }
}

// The name of a `FuncDefn`.
fn function_name(op: &OpKind) -> Option<&Name>
    ensures { MatchOption result
        ((s : Plain) → name_of_function (op_view op.now) s ≡ Stopped Stuck s)
        (λ name. (s : Plain)
        → name_of_function (op_view op.now) s ≡ Returned (spec.Function name.now ∷ []) s) }
{
    match op {
        OpKind::FuncDefn { name, .. } => Some(name),
        _ => None,
    }
}

// The values that a `LoadFunction` gives, by the node that it names.
fn loaded_function(alloc: Global, graph: &Graph, node: NodeId) -> Result<Option<Values>, AllocError>
    ensures { IfOk result (λ found. (s : Plain) → name_of_function (op_at graph.now node.0) s
        ≡ or_stuck found s) }
{
    match op_of(graph, node) {
        None => Ok(None),
        Some(op) => match function_name(op) {
            None => Ok(None),
            Some(name) => {
                let mut outs = Values::new(alloc);
                outs.push(Value::Function(name.copy()?))?;
                Ok(Some(outs))
            }
        },
    }
}

// Gives the function that a `LoadFunction` names.
fn load_function(alloc: Global, graph: &Graph, node: NodeId) -> Result<Stepped, AllocError>
    ensures { IfOk result (λ how. (types outs : Types) (ins : List spec.Value) →
        KeepsStill (fire_step graph.now (op.LoadFunction types outs) node.0 ins) how) }
{
    match graph.feeder(static_input(graph, node)) {
        None => Ok(Stepped::Halts(Halt::Stuck)),
        Some(function) => match loaded_function(alloc, graph, function.node)? {
            None => Ok(Stepped::Halts(Halt::Stuck)),
            Some(outs) => Ok(Stepped::Goes(Task::Give(outs), None)),
        },
    }
}

// Does what an op without a region does.
fn finish_leaf(
    alloc: Global,
    op: &OpKind,
    ins: Values,
    machine: &mut Machine,
) -> Result<Stepped, AllocError>
    requires { KeepsTags (op_view op.now) }
    ensures { IfOk result (λ how.
        Keeps (leaf_step (op_view op.now) ins) machine.old how machine.new) }
{
    match perform(alloc, op, ins, machine)? {
        Done::Halts(halt) => Ok(Stepped::Halts(halt)),
        Done::Gives(outs, event) => Ok(Stepped::Goes(Task::Give(outs), event)),
    }
}

// A child with this op fires.
#[tactic(auto, unfolding(hg_steps::specs::Machine::fire_step))]
fn fire(
    alloc: Global,
    graph: &Graph,
    tables: &Tables<'_>,
    op: &OpKind,
    node: NodeId,
    ins: Values,
    machine: &mut Machine,
) -> Result<Stepped, AllocError>
    requires tags { KeepsTags (op_view op.now) }
    requires tables { HasTables graph.now tables.now }
    ensures { IfOk result (λ how.
        Keeps (fire_step graph.now (op_view op.now) node.0 ins) machine.old how machine.new) }
{
    match op {
        OpKind::Dfg { .. }
        | OpKind::Conditional { .. }
        | OpKind::TailLoop { .. }
        | OpKind::Cfg { .. } => Ok(Stepped::Goes(Task::Enter(node, ins), None)),
        OpKind::Call { .. } => Ok(call(graph, node, ins, machine)),
        OpKind::CallIndirect { ins: types, outs } => Ok(call_value(
            graph, tables, types, outs, ins, machine,
        )),
        OpKind::LoadConstant => load(alloc, graph, node),
        OpKind::LoadFunction { .. } => load_function(alloc, graph, node),
        _ => finish_leaf(alloc, op, ins, machine),
    }
}

// After a round of a loop.
fn after_round(node: NodeId, outs: Values, machine: &mut Machine) -> Result<Stepped, AllocError>
    ensures { IfOk result (λ how. (again leave rest : Types) (g : Graph) →
        Keeps (close_step g (op.TailLoop again leave rest) node.0 outs)
        machine.old how machine.new) }
{
    match outs.choose()? {
        None => Ok(Stepped::Halts(Halt::Stuck)),
        Some(chosen) => {
            if chosen.tag == 0 {
                Ok(enter_after_turn(machine, node, chosen.values))
            } else if chosen.tag == 1 {
                Ok(Stepped::Goes(Task::Give(chosen.values), None))
            } else {
                Ok(Stepped::Halts(Halt::Stuck))
            }
        }
    }
}

// From a block to where a control link leads.
fn jump(graph: &Graph, node: NodeId, to: NodeId, ins: Values, machine: &mut Machine) -> Stepped
    ensures { Keeps (jump_step graph.now (op_at graph.now to.0) node.0 to.0 ins)
        machine.old result machine.new }
{
    match op_of(graph, to) {
        Some(OpKind::ExitBlock { .. }) => Stepped::Goes(Task::Give(ins), None),
        _ => {
            if node.0 < to.0 {
                Stepped::Goes(Task::Enter(to, ins), None)
            } else {
                enter_after_turn(machine, to, ins)
            }
        }
    }
}

// After a block.
fn after_block(
    graph: &Graph,
    node: NodeId,
    outs: Values,
    machine: &mut Machine,
) -> Result<Stepped, AllocError>
    ensures { IfOk result (λ how. (types others : Types) (rows : List Types) →
        Keeps (close_step graph.now (op.DataflowBlock types rows others) node.0 outs)
        machine.old how machine.new) }
{
    match outs.choose()? {
        None => Ok(Stepped::Halts(Halt::Stuck)),
        Some(chosen) => {
            let from = Port {
                node,
                index: chosen.tag,
            };
            match first_taker(graph, from) {
                None => Ok(Stepped::Halts(Halt::Stuck)),
                Some(to) => Ok(jump(graph, node, to.node, chosen.values, machine)),
            }
        }
    }
}

// The region of a container has ended.
#[tactic(auto, unfolding(hg_steps::specs::Machine::close_step))]
fn close(
    graph: &Graph,
    node: NodeId,
    outs: Values,
    machine: &mut Machine,
) -> Result<Stepped, AllocError>
    ensures { IfOk result (λ how.
        Keeps (close_step graph.now (op_at graph.now node.0) node.0 outs)
        machine.old how machine.new) }
{
    match op_of(graph, node) {
        Some(OpKind::TailLoop { .. }) => after_round(node, outs, machine),
        Some(OpKind::DataflowBlock { .. }) => after_block(graph, node, outs, machine),
        _ => Ok(Stepped::Goes(Task::Give(outs), None)),
    }
}

// The region of a frame ends.
fn end(
    alloc: Global,
    graph: &Graph,
    frame: Frame,
    machine: &mut Machine,
) -> Result<Stepped, AllocError>
    ensures { IfOk result (λ how.
        Keeps (give_step graph.now 0 (frame_view frame) frame.fired) machine.old how machine.new) }
{
    match inputs_of(alloc, graph, &frame.fired, frame.output)? {
        None => Ok(Stepped::Halts(Halt::Stuck)),
        Some(outs) => close(graph, frame.container, outs, machine),
    }
}

// Takes the next pick, and the child of a region that fires by it; none where none is ready.
fn choose_child(
    alloc: Global,
    graph: &Graph,
    container: NodeId,
    fired: &Firings,
    dues: &mut Dues,
    machine: &mut Machine,
) -> Result<Option<Ready>, AllocError>
    requires { KnowsDues graph.now container.0 (outs_at fired.now) dues.old }
    ensures choice { IfOk result (λ found. (events : List Event)
        → EndsChoice
        (choose (ready graph.now container.0 (outs_at fired.now)) (plain machine.old events))
        found (plain machine.new events)) }
    ensures rest { IfOk result (λ found. IfSome found (λ r.
        KnowsOtherDues graph.now container.0 (outs_at fired.now) r.node.0 dues.new)) }
{
    take_due(alloc, graph, container, fired, dues, &mut machine.picks)
}

// The next child of a frame fires.
fn go_on(
    alloc: Global,
    graph: &Graph,
    tables: &Tables<'_>,
    frame: Frame,
    frames: &mut Vec<Frame>,
    machine: &mut Machine,
) -> Result<Stepped, AllocError>
    requires tags { TagsAreKept graph.now }
    requires tables { HasTables graph.now tables.now }
    requires more { 0 < frame.left }
    requires due { KnowsDues graph.now frame.container.0 (outs_at frame.fired) frame.dues }
    requires keep { FramesKeep graph.now frames.old.items }
    ensures kept { OnOk result (FramesKeep graph.now frames.new.items) }
    ensures step { IfOk result (λ how.
        Makes (give_step graph.now frame.left (frame_view frame) frame.fired
        (frame_list frames.old.items)) machine.old how frames.new.items machine.new) }
{
    let mut dues = frame.dues;
    match choose_child(
        alloc,
        graph,
        frame.container,
        &frame.fired,
        &mut dues,
        machine,
    )? {
        None => Ok(Stepped::Halts(Halt::Stuck)),
        Some(chosen) => {
            frames.push(Frame {
                container: frame.container,
                output: frame.output,
                running: chosen.node,
                fired: frame.fired,
                dues,
                left: frame.left - 1,
            })?;
            match op_of(graph, chosen.node) {
                None => Ok(Stepped::Halts(Halt::Stuck)),
                Some(op) => fire(alloc, graph, tables, op, chosen.node, chosen.ins, machine),
            }
        }
    }
}

// Gives values to the child that runs in a frame.
fn give(
    alloc: Global,
    graph: &Graph,
    tables: &Tables<'_>,
    outs: Values,
    frame: Frame,
    frames: &mut Vec<Frame>,
    machine: &mut Machine,
) -> Result<Stepped, AllocError>
    requires tags { TagsAreKept graph.now }
    requires tables { HasTables graph.now tables.now }
    requires frame { FrameKeeps graph.now frame }
    requires keep { FramesKeep graph.now frames.old.items }
    ensures kept { OnOk result (FramesKeep graph.now frames.new.items) }
    ensures step { IfOk result (λ how.
        Makes (give_step graph.now frame.left (frame_view frame)
        (kept graph.now (frame_view frame) outs) (frame_list frames.old.items))
        machine.old how frames.new.items machine.new) }
{
    let fired = frame.fired.push(frame.running, outs)?;
    let mut dues = frame.dues;
    refresh_all(
        graph,
        frame.container,
        &fired,
        followers_at(&tables.followers, frame.running),
        &mut dues,
    );
    let frame = Frame {
        container: frame.container,
        output: frame.output,
        running: frame.running,
        fired,
        dues,
        left: frame.left,
    };
    if frame.left == 0 {
        end(alloc, graph, frame, machine)
    } else {
        go_on(alloc, graph, tables, frame, frames, machine)
    }
}

/// One step of a run; none where values are given and no region is open.
pub fn step(
    alloc: Global,
    graph: &Graph,
    tables: &Tables<'_>,
    task: Task,
    frames: &mut Vec<Frame>,
    machine: &mut Machine,
) -> Result<Option<Stepped>, AllocError>
    requires tags { TagsAreKept graph.now }
    requires tables { HasTables graph.now tables.now }
    requires keep { FramesKeep graph.now frames.old.items }
    ensures kept { OnOk result (FramesKeep graph.now frames.new.items) }
    ensures step { IfOk result (λ found. MatchOption found
        ((is_done_with (task_view task) (frame_list frames.old.items) ≡ true)
        × (machine.new ≡ machine.old))
        (λ how. (is_done_with (task_view task) (frame_list frames.old.items) ≡ false)
        × Makes (step_on graph.now (task_view task) (frame_list frames.old.items))
        machine.old how frames.new.items machine.new)) }
{
    match task {
        Task::Enter(node, ins) => match op_of(graph, node) {
            None => Ok(Some(Stepped::Halts(Halt::Stuck))),
            Some(op) => Ok(Some(enter(alloc, graph, op, node, ins, frames)?)),
        },
        Task::Give(outs) => match frames.pop() {
            None => Ok(None),
            Some(frame) => Ok(Some(give(alloc, graph, tables, outs, frame, frames, machine)?)),
        },
    }
}
