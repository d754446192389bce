//! Functions.

use crate::stmt::Block;
use crate::type_expr::TypeExpr;
use gp_base::{LineNo, Name, Sequence};

/// A parameter of a function.
#[derive(Debug, Drop)]
pub struct Param {
    /// The parameter's name.
    pub name: Name,
    /// Its type, as written.
    pub ty: TypeExpr,
    /// Whether the type is marked `@owned`.
    pub owned: bool,
}

/// A list of parameters.
pub type Params = Sequence<Param>;

/// A function that is marked `@guppy`.
#[derive(Drop)]
pub struct Function {
    /// The line of its `def`.
    pub line: LineNo,
    /// The line of its decorator.
    pub mark: LineNo,
    /// The function's name.
    pub name: Name,
    /// Its parameters, in order.
    pub params: Params,
    /// The type of its result; none where that is missing or written `None`.
    pub result: Option<TypeExpr>,
    /// Its statements.
    pub body: Block,
}
