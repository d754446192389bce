//! The mode `validate`: whether a graph text is one of a valid graph.

ghost use Rattle.std.specs.Prelude.{IfOk, IfErr};
ghost use Rattle.guppy_call.specs.Call.{Answer};
ghost use Rattle.guppy_call.specs.GraphTexts.{IsValidText};
ghost use Rattle.guppy_call.specs.Made.{Makes, RefusesInput, RefusesText};
ghost use Rattle.guppy_call.specs.code.GraphFault.{IsErrorOf};
ghost use Rattle.hg_graph.specs.Graph.{Graph};
ghost use Rattle.hg_valid.specs.Refused.{IsRefused};
ghost use Rattle.guppy_call.specs.Validity.{IsDueValidity};

use crate::mode_error::ModeError;
use crate::refusal::Refusal;
use hg_json::{MAX_TEXT_BYTES, read};
use hg_valid::{Invalid, Valid, validate};
use std::alloc::Global;

// What a graph that isn't valid is refused for.
fn error_of(invalid: Invalid) -> ModeError
    ensures { (g : Graph) → IsRefused g invalid → IsErrorOf g result }
{
    match invalid {
        Invalid::Rule { rule, node, .. } => ModeError::Refused(Refusal::Rule(rule, node.0)),
        Invalid::Memory { .. } => ModeError::Memory,
    }
}

/// The valid graph of a text.
pub fn valid_graph(alloc: Global, text: &[u8]) -> Result<Valid, ModeError>
    ensures valid { IfOk result (λ graph. IsValidText text.now graph) }
    ensures refused { IfErr result (λ error. RefusesText text.now error) }
{
    if text.len() > MAX_TEXT_BYTES {
        return Err(ModeError::Refused(Refusal::TooLong));
    }
    let graph = match read(alloc, text) {
        Ok(graph) => graph,
        Err(fault) => return Err(ModeError::from(fault)),
    };
    match validate(alloc, graph) {
        Ok(valid) => Ok(valid),
        Err(invalid) => Err(error_of(invalid)),
    }
}

/// Makes the line that tells that a graph text is one of a valid graph.
pub fn validate_text(alloc: Global, text: &[u8]) -> Result<Vec<u8>, ModeError>
    ensures due { (answer : Answer) → IsDueValidity text.now answer → Makes result answer }
    ensures status { RefusesInput result }
{
    if let Err(error) = valid_graph(alloc, text) {
        return Err(error);
    }
    Ok(Vec::from_slice(alloc, b"valid\n")?)
}
