//! Expressions.

ghost use Rattle.std.specs.Prelude.{◌≡◌, IfOk};
ghost use Rattle.gp_tree.specs.Expression as spec;
ghost use Rattle.gp_tree.specs.Expression.{expression};

use crate::place::Place;
use gp_base::{Name, TextBytes};
use std::alloc::{AllocError, Global};

/// An operator between two operands, as `+`, `//` or `<=`. `and` and `or` are none: they are [`Expr::And`] and
/// [`Expr::Or`], since they need not evaluate their right side.
#[derive(Clone, Copy, Debug, PartialEq, Eq)]
pub enum BinOp {
    /// `+`
    Add,
    /// `-`
    Sub,
    /// `*`
    Mul,
    /// `//`
    FloorDiv,
    /// `%`
    Mod,
    /// `==`
    Eq,
    /// `!=`
    Ne,
    /// `<`
    Lt,
    /// `<=`
    Le,
    /// `>`
    Gt,
    /// `>=`
    Ge,
}

/// A list of expressions.
pub type Exprs = Vec<Expr>;

/// An expression, without the parentheses that grouped its parts.
#[derive(Debug, Drop)]
pub enum Expr {
    /// A number as it was written, so 0 to 2^63 - 1.
    Int(i64),
    /// `True` or `False`.
    Bool(bool),
    /// A string of either kind: the bytes between its quotes, as they were written.
    Text(TextBytes),
    /// A name or a path of fields that is read.
    Place(Place),
    /// A minus sign and its operand.
    Neg(Box<Expr>),
    /// `not` and its operand.
    Not(Box<Expr>),
    /// An operator with its left and its right operand.
    Binary(BinOp, Box<Expr>, Box<Expr>),
    /// `and` with its left and its right side.
    And(Box<Expr>, Box<Expr>),
    /// `or` with its left and its right side.
    Or(Box<Expr>, Box<Expr>),
    /// `a if c else b`: the test `c`, then the value `a` where it is true, then the other value `b`.
    Choice(Box<Expr>, Box<Expr>, Box<Expr>),
    /// The parts of a tuple, in order; one part or more.
    Tuple(Exprs),
    /// The name that is called, and its arguments in order.
    Call(Name, Exprs),
}

impl Expr {
    /// A minus sign before an operand.
    pub fn minus(alloc: Global, operand: Expr) -> Result<Expr, AllocError>
        ensures { IfOk result (λ made. expression made ≡ spec.minus (expression operand)) }
    {
        Ok(Expr::Neg(Box::new(alloc, operand)?))
    }

    /// `not` before an operand.
    pub fn negation(alloc: Global, operand: Expr) -> Result<Expr, AllocError>
        ensures { IfOk result (λ made. expression made ≡ spec.negation (expression operand)) }
    {
        Ok(Expr::Not(Box::new(alloc, operand)?))
    }

    /// An operator between two operands.
    pub fn binary(alloc: Global, op: BinOp, left: Expr, right: Expr) -> Result<Expr, AllocError>
        ensures { IfOk result (λ made. expression made ≡ spec.binary op (expression left) (expression right)) }
    {
        Ok(Expr::Binary(op, Box::new(alloc, left)?, Box::new(alloc, right)?))
    }

    /// `left and right`
    pub fn both(alloc: Global, left: Expr, right: Expr) -> Result<Expr, AllocError>
        ensures { IfOk result (λ made. expression made ≡ spec.both (expression left) (expression right)) }
    {
        Ok(Expr::And(Box::new(alloc, left)?, Box::new(alloc, right)?))
    }

    /// `left or right`
    pub fn either(alloc: Global, left: Expr, right: Expr) -> Result<Expr, AllocError>
        ensures { IfOk result (λ made. expression made ≡ spec.either (expression left) (expression right)) }
    {
        Ok(Expr::Or(Box::new(alloc, left)?, Box::new(alloc, right)?))
    }

    /// `value if test else other`
    pub fn choice(alloc: Global, test: Expr, value: Expr, other: Expr) -> Result<Expr, AllocError>
        ensures { IfOk result (λ made. expression made ≡ spec.choice (expression test) (expression value) (expression other)) }
    {
        Ok(Expr::Choice(
            Box::new(alloc, test)?,
            Box::new(alloc, value)?,
            Box::new(alloc, other)?,
        ))
    }

    /// Parts with commas between them.
    pub fn tuple(parts: Exprs) -> Expr
        ensures { expression result ≡ spec.tuple (spec.expressions parts.items) }
    {
        Expr::Tuple(parts)
    }

    /// A call of a name with arguments.
    pub fn call(name: Name, arguments: Exprs) -> Expr
        ensures { expression result ≡ spec.call name (spec.expressions arguments.items) }
    {
        Expr::Call(name, arguments)
    }
}
