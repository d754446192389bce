//! What a whole function fixes for its statements.

ghost use Rattle.std.specs.Prelude.{◌≡◌, ◌&&◌, bytes_eq, map};
ghost use Rattle.gp_tree.specs.Expression.{expression};
ghost use Rattle.gp_types.specs.Signature.{is_borrowed_mode, parameter_view};
ghost use Rattle.gp_typing.specs.Checks.{Answers};
ghost use Rattle.gp_typing.specs.code.ExpressionView.{value_view};
ghost use Rattle.gp_typing.specs.Functions.{is_borrowed_among};
ghost use Rattle.gp_typing.specs.code.StatementView.{expression_in, known_for, value_in};
ghost use Rattle.gp_typing.specs.Expressions.{place_type};
ghost use Rattle.gp_types.specs.View.{ty_view};
ghost use Rattle.gp_typing.specs.View.{expression_view};

use crate::context::Context;
use crate::expressions::{type_expr, type_value};
use crate::fault::TypeFault;
use crate::places::place_type;
use crate::typed::TypedExpr;
use crate::value::Value;
use gp_base::LineNo;
use gp_locals::{Environment, Locals};
use gp_scope::Scope;
use gp_tree::{Expr, Place};
use gp_types::{Mode, SigParam, Signature, Ty};
use std::alloc::Global;

/// What a whole function fixes for its statements.
#[derive(Drop)]
pub struct Frame<'a> {
    /// What the names of the program mean outside of its functions.
    pub scope: &'a Scope,
    /// The names of the function.
    pub names: &'a Locals,
    /// What the function takes and answers.
    pub signature: &'a Signature,
}

/// Whether a name is a parameter that is borrowed. Takes no memory.
pub fn is_borrowed(params: &[SigParam], name: &str) -> bool
    ensures { result ≡ is_borrowed_among (map parameter_view params.now) name.now }
{
    for param in params {
        if takes_borrowed(param, name) {
            return true;
        }
    }
    false
}

fn takes_borrowed(param: &SigParam, name: &str) -> bool
    ensures { result ≡ (is_borrowed_mode param.now.mode && bytes_eq param.now.name name.now) }
{
    matches!(param.mode, Mode::Borrowed) && param.name.as_str() == name
}

/// The type of an expression of a statement of this line.
pub fn expr_in(
    alloc: Global,
    frame: &Frame<'_>,
    environment: &Environment,
    line: LineNo,
    expr: &Expr,
) -> Result<TypedExpr, TypeFault>
    ensures { Answers expression_view result (expression_in frame.now environment.now line (expression expr.now)) }
{
    let context = Context {
        scope: frame.scope,
        names: frame.names,
        environment,
        line,
    };
    type_expr(alloc, &context, expr)
}

/// The same where a value is needed.
pub fn value_in(
    alloc: Global,
    frame: &Frame<'_>,
    environment: &Environment,
    line: LineNo,
    expr: &Expr,
) -> Result<Value, TypeFault>
    ensures { Answers value_view result (value_in frame.now environment.now line (expression expr.now)) }
{
    let context = Context {
        scope: frame.scope,
        names: frame.names,
        environment,
        line,
    };
    type_value(alloc, &context, expr)
}

/// The type of a place in a statement of this line.
pub fn place_in(
    alloc: Global,
    frame: &Frame<'_>,
    environment: &Environment,
    line: LineNo,
    place: &Place,
) -> Result<Ty, TypeFault>
    ensures { Answers ty_view result (place_type (known_for frame.now) frame.now.names.now environment.now line place.now) }
{
    let context = Context {
        scope: frame.scope,
        names: frame.names,
        environment,
        line,
    };
    place_type(alloc, &context, place)
}
