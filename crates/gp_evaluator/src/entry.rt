//! The run of a program from one of its functions.

ghost use Rattle.std.specs.Prelude.{◌≡◌, IfOk};
ghost use Rattle.gp_tree.specs.Program.{program_items};
ghost use Rattle.gp_types.specs.Signature.{signature_view};
ghost use Rattle.gp_scope.specs.ScopeView.{IsScopeOf};
ghost use Rattle.gp_evaluator.specs.Answers as spec;

use crate::evaluator::run_function;
use crate::halt::Halt;
use crate::world::World;
use gp_base::Events;
use gp_scope::Scope;
use gp_tree::{Item, Program};
use gp_types::{Signature, is_linear};
use std::alloc::{AllocError, Global};

/// How a source run ends.
#[derive(Clone, Copy, Debug, PartialEq, Eq)]
pub enum SourceEnd {
    /// The run returns.
    Returned,
    /// A loop or a call needs a turn, and no turn is left.
    TurnsUsed,
    /// A measurement needs an outcome, and no outcome is left.
    OutcomesUsed,
    /// A number is divided by zero.
    DivisionByZero,
    /// The run is stuck.
    Stuck,
}

/// Why nothing was run to its end.
#[derive(Clone, Copy, Debug, PartialEq, Eq)]
pub enum EvalFault {
    /// No function has the name.
    NoEntry,
    /// The function has parameters or a linear result.
    EntryNotClosed,
    /// Memory ran out.
    Memory,
}

// Whether a function takes nothing and answers no qubits.
fn is_closed(signature: &Signature) -> bool
    ensures { result ≡ spec.is_closed (signature_view signature.now) }
{
    if signature.params.as_slice().len() != 0 {
        return false;
    }
    match &signature.result {
        Some(ty) => !is_linear(ty),
        None => true,
    }
}

// How the run of a function from the start ends, with its world.
fn run_entry<'a>(
    alloc: Global,
    items: &[Item],
    scope: &Scope,
    entry: &str,
    world: &mut World<'a>,
) -> Result<SourceEnd, AllocError>
    ensures { spec.RanToEnd items.now scope.now entry.now world.old world.new result }
{
    match run_function(alloc, items, scope, world, entry, &[]) {
        Ok(_called) => Ok(SourceEnd::Returned),
        Err(Halt::TurnsUsed) => Ok(SourceEnd::TurnsUsed),
        Err(Halt::OutcomesUsed) => Ok(SourceEnd::OutcomesUsed),
        Err(Halt::DivisionByZero) => Ok(SourceEnd::DivisionByZero),
        Err(Halt::Stuck) => Ok(SourceEnd::Stuck),
        Err(Halt::Memory) => Err(AllocError),
    }
}

// Appends events one after another, up to the first that is refused.
fn append(events: &mut Events, more: Events) -> Result<(), AllocError>
    ensures { spec.Appended events.old events.new more result }
{
    for event in more.into_vec() {
        events.push(event)?;
    }
    Ok(())
}

/// Runs a function of a program from the start, with these turns and outcomes: appends the events of the run and answers
/// its end.
pub fn evaluate(
    alloc: Global,
    program: &Program,
    scope: &Scope,
    entry: &str,
    turns: u64,
    outcomes: &[bool],
    events: &mut Events,
) -> Result<SourceEnd, EvalFault>
    requires { IsScopeOf (program_items program.now) scope.now }
    ensures { spec.EvaluateAnswer (program_items program.now) entry.now turns outcomes.now events.old events.new result }
{
    let Some(signature) = scope.signature(entry) else {
        return Err(EvalFault::NoEntry);
    };
    if !is_closed(signature) {
        return Err(EvalFault::EntryNotClosed);
    }
    let mut world = World::new(alloc, turns, outcomes);
    let Ok(end) = run_entry(alloc, program.as_slice(), scope, entry, &mut world) else {
        return Err(EvalFault::Memory);
    };
    match append(events, world.into_events()) {
        Ok(()) => Ok(end),
        Err(_) => Err(EvalFault::Memory),
    }
}
