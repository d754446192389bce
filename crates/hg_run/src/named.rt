//! Runs by the name of a function.

ghost use Rattle.std.specs.Prelude.{◌≡◌, ◌↔◌, OnOk, OnErr, IfOk, IsErrOf, Err};
ghost use Rattle.gp_base.specs.Outside.{Rose, Wrote, WrotePart};
ghost use Rattle.hg_run.specs.Entries as entries;
ghost use Rattle.hg_run.specs.Entries.{entry_of};
ghost use Rattle.hg_run.specs.Told.{IfRuns, trace_of, EndsAs};
ghost use Rattle.hg_run.specs.declared.fault.RunFault.TheVariants as fault;

use crate::entry::{Entry, entry_of};
use crate::fault::RunFault;
use crate::running::run_entry;
use crate::tell_fault::TellFault;
use gp_base::{End, Sink};
use hg_valid::Valid;
use std::alloc::Global;

/// Runs the function with a name under a list of picks, and writes the line of each event and then
/// the line of the run's end. A function with inputs or a linear output isn't run.
///
/// Lines go through a buffer of 8 KiB, which is written out before the call returns. After an error
/// the sink has a part from their front.
pub fn run<S: Sink>(
    alloc: Global,
    graph: &Valid,
    entry: &str,
    turns: u64,
    outcomes: &[bool],
    picks: &[u32],
    sink: &mut S,
) -> Result<End, RunFault>
    ensures no_entry { (result ≡ Err fault.NoEntry)
        ↔ (entry_of graph.now entry.now ≡ entries.Missing) }
    ensures not_closed { (result ≡ Err fault.EntryNotClosed)
        ↔ (entry_of graph.now entry.now ≡ entries.NotClosed) }
    ensures refused { IsErrOf result fault.NoEntry → S.bytes sink.new ≡ S.bytes sink.old }
    ensures refused_open { IsErrOf result fault.EntryNotClosed
        → S.bytes sink.new ≡ S.bytes sink.old }
    ensures ok { IfRuns graph.now entry.now turns outcomes.now picks.now
        (λ out. OnOk result (Wrote (S.bytes sink.old) (S.bytes sink.new) (trace_of out))) }
    ensures end { IfRuns graph.now entry.now turns outcomes.now picks.now
        (λ out. IfOk result (λ how. EndsAs out how)) }
    ensures err { IfRuns graph.now entry.now turns outcomes.now picks.now
        (λ out. OnErr result (WrotePart (S.bytes sink.old) (S.bytes sink.new) (trace_of out))) }
    ensures cause { IsErrOf result fault.WriteFault → Rose (S.faults sink.old) (S.faults sink.new) }
{
    match entry_of(graph.graph(), entry) {
        Entry::Missing => Err(RunFault::NoEntry),
        Entry::NotClosed => Err(RunFault::EntryNotClosed),
        Entry::Closed(node) => {
            match run_entry(alloc, graph, node, turns, outcomes, picks, sink) {
                Ok(end) => Ok(end),
                Err(TellFault::WriteFault) => Err(RunFault::WriteFault),
                Err(TellFault::Memory) => Err(RunFault::Memory),
            }
        }
    }
}
