//! What an expression is typed against.

use gp_base::LineNo;
use gp_locals::{Environment, Locals};
use gp_scope::Scope;

/// What an expression is typed against.
#[derive(Drop)]
pub struct Context<'a> {
    /// What the names of the program mean outside of its functions.
    pub scope: &'a Scope,
    /// The names of the function.
    pub names: &'a Locals,
    /// The types that these names have here, in their order.
    pub environment: &'a Environment,
    /// The line of the statement.
    pub line: LineNo,
}
