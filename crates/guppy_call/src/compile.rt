//! The mode `compile`: from a source text to the text of its graph.

ghost use Rattle.std.specs.Prelude.{◌≡◌, ◌+◌, ◌≤◌, List, length, position, None, Some, IfNone, IfSome};
ghost use Rattle.gp_lower.specs.declared.thin_text.ThinLine.{ThinLine};
ghost use Rattle.hg_graph.specs.Thin.{ThinGate, thin_graph};
ghost use Rattle.gp_lower.specs.Thin.{AreComplete, gate_lines, complete_lines};
ghost use Rattle.guppy_call.specs.Call.{Answer, refused, done};
ghost use Rattle.guppy_call.specs.Compile.{is_discard, spent_lines, given_up_at, held_at_return_at, IsDue};
ghost use Rattle.hg_json.specs.GraphText.{json};
ghost use Rattle.guppy_call.specs.Refusal.{status_of};
ghost use Rattle.guppy_call.specs.Made.{Makes, RefusesInput};

use crate::mode_error::ModeError;
use crate::refusal::{Refusal, SourceFault};
use crate::status::Status;
use gp_base::{LineNo, SOURCE_LIMIT};
use gp_lower::thin_text::thin;
use gp_lower::{ThinLine, ThinLines, lower_thin};
use hg_json::write;
use std::alloc::Global;

// The line of the function in a thin text, and the first line after `q = qubit()`.
const FUNCTION_LINE: u32 = 5;

const FIRST_LINE: u32 = 7;

// The place of the first line that gives the qubit up.
fn first_discard(lines: &[ThinLine]) -> Option<usize>
    ensures { result ≡ position is_discard lines.now }
{
    lines
        .iter()
        .position(|line| matches!(line, ThinLine::Discard))
}

// The fault of a thin text with these lines: the line after the first `discard`, or where no line is one,
// the function's.
fn fault_of(lines: &ThinLines) -> Option<Refusal>
    requires { length lines.now ≤ SOURCE_LIMIT }
    ensures given_up { (gates : List ThinGate) (next : ThinLine) (more : List ThinLine)
        → lines.now ≡ spent_lines gates next more → result ≡ Some (given_up_at (8 + length gates)) }
    ensures held_at_return { (gates : List ThinGate)
        → lines.now ≡ gate_lines gates → result ≡ Some (held_at_return_at 5) }
    ensures complete { (gates : List ThinGate) → lines.now ≡ complete_lines gates → result ≡ None }
    ensures faultless { IfNone result (AreComplete lines.now) }
    ensures status { IfSome result (λ refusal. status_of refusal ≡ Status.Refused) }
{
    let Some(place) = first_discard(lines.as_slice()) else {
        return Some(Refusal::Source(LineNo(FUNCTION_LINE), SourceFault::HeldAtReturn));
    };
    let after = place + 1;
    if after as u64 == lines.len() {
        return None;
    }
    let line = LineNo(FIRST_LINE + after as u32);
    Some(Refusal::Source(line, SourceFault::GivenUp))
}

// The line that is written for a thin text with these lines.
fn graph_line(alloc: Global, lines: &ThinLines) -> Result<Vec<u8>, ModeError>
    requires { length lines.now ≤ SOURCE_LIMIT }
    ensures given_up { (gates : List ThinGate) (next : ThinLine) (more : List ThinLine)
        → lines.now ≡ spent_lines gates next more
        → Makes result (refused (given_up_at (8 + length gates))) }
    ensures held_at_return { (gates : List ThinGate)
        → lines.now ≡ gate_lines gates → Makes result (refused (held_at_return_at 5)) }
    ensures compiled { (gates : List ThinGate)
        → lines.now ≡ complete_lines gates → Makes result (done (json (thin_graph gates))) }
    ensures status { RefusesInput result }
{
    if let Some(refusal) = fault_of(lines) {
        return Err(ModeError::Refused(refusal));
    }
    let graph = lower_thin(alloc, lines)?;
    let mut line = write(alloc, &graph)?;
    line.push(b'\n')?;
    Ok(line)
}

/// Compiles a source text to the line that holds the text of its graph.
pub fn compile_text(alloc: Global, text: &[u8]) -> Result<Vec<u8>, ModeError>
    ensures due { (answer : Answer) → IsDue text.now answer → Makes result answer }
    ensures status { RefusesInput result }
{
    if text.len() > SOURCE_LIMIT {
        return Err(ModeError::Refused(Refusal::TooLong));
    }
    let Some(lines) = thin(alloc, text)? else {
        return Err(ModeError::Refused(Refusal::NotBuilt));
    };
    graph_line(alloc, &lines)
}
