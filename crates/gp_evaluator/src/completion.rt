//! How statements end.

ghost use Rattle.std.specs.Prelude.{◌≡◌};
ghost use Rattle.gp_evaluator.specs.Evaluation as spec;

use crate::value::Value;

/// How a statement ends that doesn't stop the run.
#[derive(Drop)]
pub enum Completion {
    /// The next statement follows.
    Normal,
    /// By `break`.
    Break,
    /// By `continue`.
    Continue,
    /// By `return`, with its value where it has one.
    Return(Option<Value>),
}

/// Whether a loop goes back to its head where its body ends so.
pub fn goes_back(completion: &Completion) -> bool
    ensures { result ≡ spec.goes_back (spec.completion_view completion.now) }
{
    matches!(completion, Completion::Normal | Completion::Continue)
}

/// How a loop ends that doesn't go back to its head, where its body ends so.
pub fn after_loop(completion: Completion) -> Completion
    ensures { spec.completion_view result ≡ spec.after_loop (spec.completion_view completion) }
{
    match completion {
        Completion::Return(value) => Completion::Return(value),
        Completion::Normal | Completion::Break | Completion::Continue => Completion::Normal,
    }
}
