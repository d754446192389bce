//! The mode `run`: from a graph text to the trace of a run.

ghost use Rattle.std.specs.Prelude.{◌≡◌, ◌≢◌, ◌⊎◌, []};
ghost use Rattle.gp_base.specs.Outside.{Rose, Wrote};
ghost use Rattle.guppy_call.specs.Call.{Answer, seen, Delivers};
ghost use Rattle.guppy_call.specs.Made.{FailsAs, run_answer};
ghost use Rattle.guppy_call.specs.RunDue.{IsDueRun};
ghost use Rattle.guppy_call.specs.code.Ends.{status_of_end};
ghost use Rattle.guppy_words.specs.Meaning.{running_view};

use crate::mode_error::ModeError;
use crate::output::refuse;
use crate::refusal::Refusal;
use crate::status::Status;
use crate::validity::valid_graph;
use gp_base::{End, Sink};
use guppy_words::RunOptions;
use hg_run::{RunFault, run};
use hg_valid::Valid;
use std::alloc::Global;

// The status of a call whose run ends so.
fn status_of_end(end: End) -> Status
    ensures { result ≡ status_of_end end }
{
    match end {
        End::Returned => Status::Done,
        End::TurnsUsed | End::OutcomesUsed | End::DivisionByZero => Status::Stopped,
    }
}

// Refuses what isn't run, and answers the status of a run that failed.
fn fail<E: Sink>(alloc: Global, fault: RunFault, err: &mut E) -> Status
    ensures fails { FailsAs fault result (E.bytes err.old) (E.bytes err.new) }
    ensures write_fault { result ≡ Status.WriteFault
        → (fault ≡ RunFault.WriteFault) ⊎ Rose (E.faults err.old) (E.faults err.new) }
    ensures memory { result ≡ Status.Memory → Wrote (E.bytes err.old) (E.bytes err.new) [] }
    ensures words { result ≢ Status.Words }
    ensures read_fault { result ≢ Status.ReadFault }
{
    match fault {
        RunFault::NoEntry => refuse(alloc, err, Refusal::NoEntry),
        RunFault::EntryNotClosed => refuse(alloc, err, Refusal::EntryNotClosed),
        RunFault::WriteFault => Status::WriteFault,
        RunFault::Memory => Status::Memory,
    }
}

// Runs a function of a valid graph, and tells its run.
fn run_graph<O: Sink, E: Sink>(
    alloc: Global,
    graph: &Valid,
    options: &RunOptions<'_>,
    out: &mut O,
    err: &mut E,
) -> Status
    ensures answer { Delivers
        (seen result (O.bytes out.old) (O.bytes out.new) (E.bytes err.old) (E.bytes err.new))
        (run_answer (running_view options.now) graph.now) }
    ensures write_fault { result ≡ Status.WriteFault
        → Rose (O.faults out.old) (O.faults out.new) ⊎ Rose (E.faults err.old) (E.faults err.new) }
    ensures memory { result ≡ Status.Memory → Wrote (E.bytes err.old) (E.bytes err.new) [] }
    ensures words { result ≢ Status.Words }
    ensures read_fault { result ≢ Status.ReadFault }
{
    let turns = options.turns as u64;
    let (outcomes, picks) = (&options.outcomes, &options.picks);
    match run(alloc, graph, options.entry, turns, outcomes, picks, out) {
        Ok(end) => status_of_end(end),
        Err(fault) => fail(alloc, fault, err),
    }
}

/// Runs a function of the graph of a text, and tells its run.
pub fn run_text<O: Sink, E: Sink>(
    alloc: Global,
    text: &[u8],
    options: &RunOptions<'_>,
    out: &mut O,
    err: &mut E,
) -> Status
    ensures due { (answer : Answer) → IsDueRun (running_view options.now) text.now answer → Delivers
        (seen result (O.bytes out.old) (O.bytes out.new) (E.bytes err.old) (E.bytes err.new)) answer }
    ensures write_fault { result ≡ Status.WriteFault
        → Rose (O.faults out.old) (O.faults out.new) ⊎ Rose (E.faults err.old) (E.faults err.new) }
    ensures memory { result ≡ Status.Memory → Wrote (E.bytes err.old) (E.bytes err.new) [] }
    ensures words { result ≢ Status.Words }
    ensures read_fault { result ≢ Status.ReadFault }
{
    match valid_graph(alloc, text) {
        Ok(graph) => run_graph(alloc, &graph, options, out, err),
        Err(ModeError::Refused(refusal)) => refuse(alloc, err, refusal),
        Err(ModeError::Memory) => Status::Memory,
    }
}
