//! What names mean where a function runs.

ghost use Rattle.std.specs.Prelude.{◌≡◌};
ghost use Rattle.gp_scope.specs.ScopeView.{known_in};
ghost use Rattle.gp_evaluator.specs.Evaluation.{read_in, resolved_in, resolved_view};
ghost use Rattle.gp_evaluator.specs.View.{value_view, Found};
ghost use Rattle.gp_meaning.specs.Calls.{resolved_value};
ghost use Rattle.gp_meaning.specs.State.{function_value};
ghost use Rattle.gp_meaning.specs.Value.{at_path};

use crate::frame::Frame;
use crate::halt::Halt;
use crate::value::Value;
use crate::variables::Variables;
use gp_base::Name;
use gp_locals::{Callee, find_callee};
use gp_scope::Scope;
use gp_tree::Place;
use std::alloc::Global;

/// What a call calls.
#[derive(Drop)]
pub struct Resolved<'a> {
    /// The name that the program has for it.
    pub name: Name,
    /// What it is.
    pub callee: Callee<'a>,
}

/// The value that is read at a place. It is stuck where the name has none, or not the fields.
#[tactic(auto, using(crate::proofs::NameCases::reads))]
pub fn read_place(
    alloc: Global,
    frame: &Frame<'_>,
    variables: &Variables,
    place: &Place,
) -> Result<Value, Halt>
    ensures { Found value_view result (read_in frame.now variables.now place.now) }
{
    if frame.names.position(place.name.as_str()).is_none() {
        return read_outside(frame.scope, place);
    }
    match variables.value_at(frame.names, place) {
        Some(value) => Ok(value.copy(alloc)?),
        None => Err(Halt::Stuck),
    }
}

// A function of the program is the value of its name.
fn read_outside(scope: &Scope, place: &Place) -> Result<Value, Halt>
    ensures { Found value_view result
        (at_path (function_value (known_in scope.now) place.now.name) place.now.fields) }
{
    if !place.fields.as_slice().is_empty() {
        return Err(Halt::Stuck);
    }
    match scope.signature(place.name.as_str()) {
        Some(_) => Ok(Value::Function(place.name.copy()?)),
        None => Err(Halt::Stuck),
    }
}

/// What a call of a name calls. A name of the function that runs is called by its value, and hides what it means outside.
/// It is stuck where nothing can be called.
#[tactic(auto, using(crate::proofs::NameCases::resolves))]
pub fn resolve<'a>(
    frame: &Frame<'a>,
    variables: &Variables,
    name: &Name,
) -> Result<Resolved<'a>, Halt>
    ensures { Found resolved_view result (resolved_in frame.now variables.now name.now) }
{
    if frame.names.position(name.as_str()).is_some() {
        return match variables.get(frame.names, name.as_str()) {
            Some(value) => resolve_value(frame.scope, value),
            None => Err(Halt::Stuck),
        };
    }
    match find_callee(frame.scope, name.as_str()) {
        Some(callee) => Ok(Resolved {
            name: name.copy()?,
            callee,
        }),
        None => Err(Halt::Stuck),
    }
}

// The function of the program that a value is the name of.
fn resolve_value<'a>(scope: &'a Scope, value: &Value) -> Result<Resolved<'a>, Halt>
    ensures { Found resolved_view result (resolved_value (known_in scope.now) (value_view value.now)) }
{
    let Value::Function(name) = value else {
        return Err(Halt::Stuck);
    };
    match scope.signature(name.as_str()) {
        Some(signature) => Ok(Resolved {
            name: name.copy()?,
            callee: Callee::Written(signature),
        }),
        None => Err(Halt::Stuck),
    }
}
