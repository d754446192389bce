//! Typed programs: of the shape of programs, each expression with its type, and each statement with the usable names
//! before it.

use gp_base::{LineNo, Name, TextBytes};
use gp_locals::UsableNames;
use gp_tree::{BinOp, Place, Targets, TypeExpr};
use gp_types::{Signature, Ty};

/// An expression with its type.
#[derive(Drop)]
#[cycle(typed_expression)]
pub struct TypedExpr {
    /// The type of the value; `None` for a string and for a call that answers nothing.
    pub ty: Option<Ty>,
    /// The expression itself.
    pub kind: TypedKind,
}

/// What an expression with a type is; the variants are those of [`gp_tree::Expr`].
#[derive(Drop)]
#[cycle(typed_expression)]
pub enum TypedKind {
    /// A number.
    Int(i64),
    /// `True` or `False`.
    Bool(bool),
    /// A string: the bytes between its quotes. It stands only as the tag of the built-in function `result`.
    Text(TextBytes),
    /// A name or a path of fields that is read.
    Place(Place),
    /// A minus sign and its operand.
    Neg(Box<TypedExpr>),
    /// `not` and its operand.
    Not(Box<TypedExpr>),
    /// An operator with its left and its right operand.
    Binary(BinOp, Box<TypedExpr>, Box<TypedExpr>),
    /// `and` with its left and its right side.
    And(Box<TypedExpr>, Box<TypedExpr>),
    /// `or` with its left and its right side.
    Or(Box<TypedExpr>, Box<TypedExpr>),
    /// The test, the value where it is true, and the other value.
    Choice(Box<TypedExpr>, Box<TypedExpr>, Box<TypedExpr>),
    /// The parts of a tuple, in order.
    Tuple(TypedExprs),
    /// The name that is called, and its arguments in order.
    Call(Name, TypedExprs),
}

/// A list of expressions with their types.
pub type TypedExprs = Vec<TypedExpr>;

/// A statement with the usable names before it.
#[derive(Drop)]
#[cycle(typed_statement)]
pub struct TypedStmt {
    /// The usable names before the statement with their types, in the order of their first appearance in the function.
    /// Statements between which nothing changes share them.
    pub before: UsableNames,
    /// The statement itself.
    pub kind: TypedStmtKind,
}

/// What a statement with its types is; the variants are those of [`gp_tree::Stmt`].
#[derive(Drop)]
#[cycle(typed_statement)]
pub enum TypedStmtKind {
    /// `targets = value`.
    Assign(LineNo, Targets, TypedExpr),
    /// `name: type = value`.
    Annotated(LineNo, Name, TypeExpr, TypedExpr),
    /// An expression alone.
    Evaluate(LineNo, TypedExpr),
    /// `return`, with its value where there is one.
    Return(LineNo, Option<TypedExpr>),
    /// `if`: the test, the block where it is true, and the other block.
    If(LineNo, TypedExpr, TypedBlock, TypedBlock),
    /// `while`: the test and the body.
    While(LineNo, TypedExpr, TypedBlock),
    /// `for name in range(count):` with the name, the count and the body.
    For(LineNo, Name, TypedExpr, TypedBlock),
    /// `break`.
    Break(LineNo),
    /// `continue`.
    Continue(LineNo),
    /// `pass`, or a docstring.
    Pass(LineNo),
}

/// A block of statements with their types.
#[derive(Drop)]
#[cycle(typed_statement)]
pub struct TypedBlock {
    /// The statements in text order.
    pub stmts: TypedStmts,
    /// Whether a path leads to the block's end.
    pub end_reached: bool,
}

/// A list of statements with their types.
pub type TypedStmts = Vec<TypedStmt>;

/// A function with the types in its body.
#[derive(Drop)]
pub struct TypedFunction {
    /// The line of its `def`.
    pub line: LineNo,
    /// Its name.
    pub name: Name,
    /// What it takes and answers.
    pub signature: Signature,
    /// Its body.
    pub body: TypedBlock,
}
