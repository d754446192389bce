//! Whole runs.

ghost use Rattle.std.specs.Prelude.{◌≡◌, ◌≢◌, ◌≤◌, ◌⊎◌, [], Ok, OnOk, OnErr, IfOk, IsErrOf};
ghost use Rattle.std.specs.List.{flat_map};
ghost use Rattle.gp_base.specs.EventText.{event_line};
ghost use Rattle.gp_base.specs.Outside.{Rose, Wrote, WrotePart};
ghost use Rattle.gp_base.specs.Run.{Stuck};
ghost use Rattle.hg_run.specs.code.Stepped.{FramesKeep};
ghost use Rattle.hg_run.specs.code.TablesView.{HasTables};
ghost use Rattle.hg_run.specs.code.StateView.{halt_view, listed};
ghost use Rattle.hg_run.specs.Told.{entry_run, trace_of, EndsAs, IsEndOfStop};
ghost use Rattle.hg_run.specs.code.Buffering.{Grown, NoneLost, Passed, PassedPart};
ghost use Rattle.hg_run.specs.code.Left.{IsNotStuck, IsEntry, left_trace, out_of};
ghost use Rattle.hg_run.specs.declared.tell_fault.TellFault.TheVariants as fault;

use crate::line_buffer::LineBuffer;
use crate::state::{Frame, Halt, Machine, Stepped, Task};
use crate::steps::step;
use crate::tables::{Tables, tables_of};
use crate::tell_fault::TellFault;
use crate::telling::{write_end, write_event};
use crate::value::Values;
use gp_base::{End, Event, Sink};
use hg_graph::NodeId;
use hg_valid::Valid;
use std::alloc::{AllocError, Global};
use std::collections::VecDeque;

// The end of a run that stops.
fn end_of(halt: Halt) -> End
    requires { halt_view halt ≢ Stuck }
    ensures { IsEndOfStop (halt_view halt) result }
{
    match halt {
        Halt::TurnsUsed => End::TurnsUsed,
        Halt::OutcomesUsed => End::OutcomesUsed,
        Halt::DivisionByZero => End::DivisionByZero,
        Halt::Stuck => unreachable!(),
    }
}

// Writes the line of an event, where there is one.
#[tactic(auto, using(crate::proofs::Buffered::grown_none))]
fn write_one<S: Sink>(
    buffer: &mut LineBuffer,
    sink: &mut S,
    event: Option<Event>,
) -> Result<(), TellFault>
    ensures ok { OnOk result
        (Passed (S.bytes sink.old) buffer.old (S.bytes sink.new) buffer.new
        (flat_map event_line (listed event))) }
    ensures err { OnErr result
        (PassedPart (S.bytes sink.old) buffer.old (S.bytes sink.new) buffer.new
        (flat_map event_line (listed event))) }
    ensures grown { Grown (S.bytes sink.old) (S.bytes sink.new) }
    ensures cause { IsErrOf result fault.WriteFault → Rose (S.faults sink.old) (S.faults sink.new) }
    ensures count { S.faults sink.old ≤ S.faults sink.new }
{
    match event {
        None => Ok(()),
        Some(event) => write_event(buffer, sink, &event),
    }
}

// Runs what is left, and tells it.
fn tell<S: Sink>(
    alloc: Global,
    graph: &Valid,
    tables: &Tables<'_>,
    mut task: Task,
    mut frames: Vec<Frame>,
    mut machine: Machine,
    buffer: &mut LineBuffer,
    sink: &mut S,
) -> Result<End, TellFault>
    requires tables { HasTables graph.now tables.now }
    requires keep { FramesKeep graph.now frames.items }
    requires run { IsNotStuck (out_of graph.now task frames.items machine []) }
    ensures ok { OnOk result
        (Passed (S.bytes sink.old) buffer.old (S.bytes sink.new) buffer.new
        (left_trace graph.now task frames.items machine)) }
    ensures end { IfOk result (λ how. EndsAs (out_of graph.now task frames.items machine []) how) }
    ensures err { OnErr result
        (PassedPart (S.bytes sink.old) buffer.old (S.bytes sink.new) buffer.new
        (left_trace graph.now task frames.items machine)) }
    ensures grown { Grown (S.bytes sink.old) (S.bytes sink.new) }
    ensures cause { IsErrOf result fault.WriteFault → Rose (S.faults sink.old) (S.faults sink.new) }
    ensures count { S.faults sink.old ≤ S.faults sink.new }
{
    loop {
        match step(
            alloc,
            graph.graph(),
            tables,
            task,
            &mut frames,
            &mut machine,
        )? {
            None => {
                write_end(buffer, sink, End::Returned)?;
                return Ok(End::Returned);
            }
            Some(Stepped::Halts(halt)) => {
                let end = end_of(halt);
                write_end(buffer, sink, end)?;
                return Ok(end);
            }
            Some(Stepped::Goes(next, event)) => {
                write_one(buffer, sink, event)?;
                task = next;
            }
        }
    }
}

// Writes what is still kept after a run that was told so far.
#[tactic(auto, using(crate::proofs::Buffered::grown_none))]
fn finish<S: Sink>(
    told: Result<End, TellFault>,
    buffer: &mut LineBuffer,
    sink: &mut S,
) -> Result<End, TellFault>
    ensures whole { NoneLost (S.bytes sink.old) buffer.old (S.bytes sink.new) buffer.new }
    ensures none { OnOk result (buffer.new ≡ []) }
    ensures end { IfOk result (λ how. told ≡ Ok how) }
    ensures grown { Grown (S.bytes sink.old) (S.bytes sink.new) }
    ensures cause { IsErrOf result fault.WriteFault
        → IsErrOf told fault.WriteFault ⊎ Rose (S.faults sink.old) (S.faults sink.new) }
    ensures count { S.faults sink.old ≤ S.faults sink.new }
{
    match told {
        Ok(end) => {
            buffer.flush(sink)?;
            Ok(end)
        }
        Err(TellFault::WriteFault) => Err(TellFault::WriteFault),
        Err(TellFault::Memory) => {
            let _ = buffer.flush(sink);
            Err(TellFault::Memory)
        }
    }
}

// Runs what is left, and tells it whole.
fn tell_whole<S: Sink>(
    alloc: Global,
    graph: &Valid,
    tables: &Tables<'_>,
    task: Task,
    frames: Vec<Frame>,
    machine: Machine,
    sink: &mut S,
) -> Result<End, TellFault>
    requires tables { HasTables graph.now tables.now }
    requires keep { FramesKeep graph.now frames.items }
    requires run { IsNotStuck (out_of graph.now task frames.items machine []) }
    ensures ok { OnOk result (Wrote (S.bytes sink.old) (S.bytes sink.new)
        (left_trace graph.now task frames.items machine)) }
    ensures end { IfOk result (λ how. EndsAs (out_of graph.now task frames.items machine []) how) }
    ensures err { OnErr result (WrotePart (S.bytes sink.old) (S.bytes sink.new)
        (left_trace graph.now task frames.items machine)) }
    ensures cause { IsErrOf result fault.WriteFault → Rose (S.faults sink.old) (S.faults sink.new) }
{
    let mut buffer = LineBuffer::new(alloc);
    let told = tell(
        alloc,
        graph,
        tables,
        task,
        frames,
        machine,
        &mut buffer,
        sink,
    );
    finish(told, &mut buffer, sink)
}

// Outcomes in a queue.
fn outcome_queue(alloc: Global, outcomes: &[bool]) -> Result<VecDeque<bool>, AllocError>
    ensures { IfOk result (λ queue. queue.items ≡ outcomes.now) }
{
    let mut queue = VecDeque::new(alloc);
    for k in 0..outcomes.len() {
        queue.push_back(outcomes[k])?;
    }
    Ok(queue)
}

// Picks in a queue.
fn pick_queue(alloc: Global, picks: &[u32]) -> Result<VecDeque<u32>, AllocError>
    ensures { IfOk result (λ queue. queue.items ≡ picks.now) }
{
    let mut queue = VecDeque::new(alloc);
    for k in 0..picks.len() {
        queue.push_back(picks[k])?;
    }
    Ok(queue)
}

/// Runs a function without inputs under a list of picks, and writes the line of each event and then
/// the line of the run's end.
pub(crate) fn run_entry<S: Sink>(
    alloc: Global,
    graph: &Valid,
    entry: NodeId,
    turns: u64,
    outcomes: &[bool],
    picks: &[u32],
    sink: &mut S,
) -> Result<End, TellFault>
    requires { IsEntry graph.now entry.0 }
    ensures ok { OnOk result (Wrote (S.bytes sink.old) (S.bytes sink.new)
        (trace_of (entry_run graph.now entry.0 turns outcomes.now picks.now))) }
    ensures end { IfOk result
        (λ how. EndsAs (entry_run graph.now entry.0 turns outcomes.now picks.now) how) }
    ensures err { OnErr result (WrotePart (S.bytes sink.old) (S.bytes sink.new)
        (trace_of (entry_run graph.now entry.0 turns outcomes.now picks.now))) }
    ensures cause { IsErrOf result fault.WriteFault → Rose (S.faults sink.old) (S.faults sink.new) }
{
    let _graph = graph.graph();
    let machine = Machine {
        flags: Vec::new(alloc),
        turns,
        outcomes: outcome_queue(alloc, outcomes)?,
        picks: pick_queue(alloc, picks)?,
    };
    let task = Task::Enter(entry, Values::new(alloc));
    let tables = tables_of(alloc, graph.graph())?;
    tell_whole(alloc, graph, &tables, task, Vec::new(alloc), machine, sink)
}
