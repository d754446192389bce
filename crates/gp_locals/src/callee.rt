//! What a call calls.

ghost use Rattle.std.specs.Prelude.{◌≡◌, option_map};
ghost use Rattle.gp_locals.specs.Callee.{by_type, outside};
ghost use Rattle.gp_locals.specs.Callee as spec;
ghost use Rattle.gp_locals.specs.CalleeView.{callee_view};
ghost use Rattle.gp_scope.specs.ScopeView.{known_in};
ghost use Rattle.gp_types.specs.View.{ty_view};

use gp_scope::Scope;
use gp_types::{Builtin, FunParam, Signature, Ty, builtin};
use std::rc::Rc;

/// What a call calls. A contract sees a written function and one that is a value alike, by what it takes and answers.
#[derive(Clone, Copy)]
pub enum Callee<'a> {
    /// A written function.
    Written(&'a Signature),
    /// A function that is the value of a name, by its type: its parameters, and the type of its answer.
    Value(&'a [FunParam], &'a Option<Rc<Ty>>),
    /// A struct that the call makes.
    Made(&'a Ty),
    /// A built-in function.
    BuiltIn(Builtin),
}

/// What a call of this name calls outside of functions; `None` where the program neither defines nor imports what could
/// be called. Takes no memory.
pub fn find_callee<'a>(scope: &'a Scope, name: &str) -> Option<Callee<'a>>
    ensures { option_map callee_view result ≡ outside (known_in scope.now) name.now }
{
    if let Some(signature) = scope.signature(name) {
        return Some(Callee::Written(signature));
    }
    if let Some(ty) = scope.struct_type(name) {
        return Some(Callee::Made(ty));
    }
    if !scope.imports(name) {
        return None;
    }
    match builtin(name) {
        Some(function) => Some(Callee::BuiltIn(function)),
        None => None,
    }
}

/// What a call of a name of this type calls; `None` where values of the type are no functions. Takes no memory.
pub fn callee_of_type(ty: &Ty) -> Option<Callee<'_>>
    ensures { option_map callee_view result ≡ by_type (ty_view ty.now) }
{
    match ty {
        Ty::Function(params, answer) => Some(Callee::Value(params, answer)),
        _ => None,
    }
}

/// Whether a call takes a tag before its values: that of the built-in function `result` does. Takes no memory.
pub fn takes_tag(callee: &Callee<'_>) -> bool
    ensures { result ≡ spec.takes_tag (callee_view callee.now) }
{
    matches!(callee, Callee::BuiltIn(Builtin::Result))
}
