//! Runs of programs, as answers write them.

ghost use Rattle.gp_tree.specs.Program.{program_items};
ghost use Rattle.gp_scope.specs.ScopeView.{IsScopeOf};

use crate::kind::Start;
use gp_base::event_text::{LINE_ROOM, end_text, event_text};
use gp_base::{End, Event, Events};
use gp_evaluator::{EvalFault, SourceEnd, evaluate};
use gp_scope::Scope;
use gp_tree::Program;
use std::alloc::{AllocError, Global};
use std::str;

// The outcomes that these digits write.
fn outcomes_of(alloc: Global, digits: &str) -> Result<Vec<bool>, AllocError> {
    let mut outcomes = Vec::new(alloc);
    for digit in digits.bytes() {
        outcomes.push(digit == b'1')?;
    }
    Ok(outcomes)
}

// An event as a trace writes it, with its line feed.
fn told_event(alloc: Global, event: &Event) -> Result<String, AllocError> {
    let mut room = [0; LINE_ROOM];
    let len = event_text(event, &mut room);
    match str::from_utf8(&room[..len]) {
        Ok(line) => String::from_str(alloc, line),
        Err(_) => format!(in alloc; "no text\n"),
    }
}

fn word_of(end: SourceEnd) -> &'static str {
    match end {
        SourceEnd::Returned => end_text(End::Returned),
        SourceEnd::TurnsUsed => end_text(End::TurnsUsed),
        SourceEnd::OutcomesUsed => end_text(End::OutcomesUsed),
        SourceEnd::DivisionByZero => end_text(End::DivisionByZero),
        SourceEnd::Stuck => "stuck",
    }
}

/// The events of a run, a line for each, and how it ends; or why nothing was run.
pub fn told_run(
    alloc: Global,
    program: &Program,
    scope: &Scope,
    start: Start<'_>,
) -> Result<String, AllocError>
    requires { IsScopeOf (program_items program.now) scope.now }
{
    let outcomes = outcomes_of(alloc, start.outcomes)?;
    let mut events = Events::new(alloc);
    let end = evaluate(
        alloc,
        program,
        scope,
        start.entry,
        start.turns,
        &outcomes,
        &mut events,
    );
    let word = match end {
        Ok(end) => word_of(end),
        Err(EvalFault::NoEntry) => "NoEntry",
        Err(EvalFault::EntryNotClosed) => "EntryNotClosed",
        Err(EvalFault::Memory) => return Err(AllocError),
    };
    let mut told = String::new(alloc);
    for event in events.as_slice() {
        told.push_str(told_event(alloc, event)?.as_str())?;
    }
    told.push_str(word)?;
    Ok(told)
}
