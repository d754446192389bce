//! Statements and blocks. Each statement has the line that it begins on.

use crate::expr::Expr;
use crate::place::Targets;
use crate::type_expr::TypeExpr;
use gp_base::{LineNo, Name};

/// Statements in text order.
pub type Block = Vec<Stmt>;

/// A statement of a function's body.
#[derive(Debug, Drop)]
pub enum Stmt {
    /// `targets = value`. `p += e` and its like are the assignment of `p + e` to `p`.
    Assign(LineNo, Targets, Expr),
    /// `name: type = value`
    Annotated(LineNo, Name, TypeExpr, Expr),
    /// An expression alone, which is evaluated for what it does.
    Evaluate(LineNo, Expr),
    /// `return`, with its value unless that is missing or written `None`.
    Return(LineNo, Option<Expr>),
    /// `if`: the test, the block where it is true, and the other block, which is empty where there is no
    /// `else`. An `elif` is an `if` alone in the other block.
    If(LineNo, Expr, Block, Block),
    /// `while`: the test and the body.
    While(LineNo, Expr, Block),
    /// `for name in range(count):` with the name, the count and the body.
    For(LineNo, Name, Expr, Block),
    /// `break`
    Break(LineNo),
    /// `continue`
    Continue(LineNo),
    /// `pass`, or a docstring.
    Pass(LineNo),
}
