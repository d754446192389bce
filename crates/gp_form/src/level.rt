//! The levels of the grammar of expressions, and the tokens that join two operands.

ghost use Rattle.std.specs.Prelude.{◌≡◌, IfOk};
ghost use Rattle.gp_form.specs.Grammar as grammar;
ghost use Rattle.gp_form.specs.code.Reading as spec;
ghost use Rattle.gp_form.specs.code.Steps.{Finds};
ghost use Rattle.gp_tree.specs.Expression.{expression};

use gp_lex::{Keyword, Symbol, Token};
use gp_tree::{BinOp, Expr};
use std::alloc::{AllocError, Global};

/// A level of the grammar of expressions, by the names of Python's grammar, the loosest first.
#[derive(Clone, Copy)]
pub enum Level {
    /// Any expression, `a if c else b` among them.
    Whole,
    /// Operands of `or`, joined.
    Disjunction,
    /// Operands of `and`, joined.
    Conjunction,
    /// A comparison, or `not` before an inversion.
    Inversion,
    /// A sum, or one comparison of two.
    Comparison,
    /// Operands of `+` and `-`, joined.
    Sum,
    /// Operands of `*`, `//` and `%`, joined.
    Term,
    /// An atom, or a minus sign before a factor.
    Factor,
    /// What no operator is in, but inside brackets.
    Atom,
}

/// What joins two operands.
#[derive(Clone, Copy)]
pub enum Join {
    /// `and`
    And,
    /// `or`
    Or,
    /// Any other operator.
    By(BinOp),
}

/// What the token joins at this level.
pub fn join_at(level: Level, token: &Token) -> Option<Join>
    ensures { result ≡ grammar.join_at level token.now }
{
    match (level, token) {
        (Level::Term, Token::Symbol(Symbol::Star)) => Some(Join::By(BinOp::Mul)),
        (Level::Term, Token::Symbol(Symbol::FloorDiv)) => Some(Join::By(BinOp::FloorDiv)),
        (Level::Term, Token::Symbol(Symbol::Percent)) => Some(Join::By(BinOp::Mod)),
        (Level::Sum, Token::Symbol(Symbol::Plus)) => Some(Join::By(BinOp::Add)),
        (Level::Sum, Token::Symbol(Symbol::Minus)) => Some(Join::By(BinOp::Sub)),
        (Level::Comparison, Token::Symbol(Symbol::Equal)) => Some(Join::By(BinOp::Eq)),
        (Level::Comparison, Token::Symbol(Symbol::NotEqual)) => Some(Join::By(BinOp::Ne)),
        (Level::Comparison, Token::Symbol(Symbol::Less)) => Some(Join::By(BinOp::Lt)),
        (Level::Comparison, Token::Symbol(Symbol::LessEqual)) => Some(Join::By(BinOp::Le)),
        (Level::Comparison, Token::Symbol(Symbol::Greater)) => Some(Join::By(BinOp::Gt)),
        (Level::Comparison, Token::Symbol(Symbol::GreaterEqual)) => Some(Join::By(BinOp::Ge)),
        (Level::Conjunction, Token::Keyword(Keyword::AndWord)) => Some(Join::And),
        (Level::Disjunction, Token::Keyword(Keyword::OrWord)) => Some(Join::Or),
        _ => None,
    }
}

/// What joins two operands at this level, and the tokens behind it.
#[tactic(auto, unfolding(crate::specs::code::Reading::past_join))]
pub fn past_join(tokens: &[Token], level: Level) -> Option<(Join, &[Token])>
    ensures { Finds (λ x. (x.0, x.1.now)) result (spec.past_join level tokens.now) }
{
    match tokens {
        [token, rest @ ..] => match join_at(level, token) {
            Some(join) => Some((join, rest)),
            None => None,
        },
        [] => None,
    }
}

/// The level of the operands.
pub fn tighter(level: Level) -> Level
    ensures { result ≡ spec.tighter level }
{
    match level {
        Level::Whole => Level::Disjunction,
        Level::Disjunction => Level::Conjunction,
        Level::Conjunction => Level::Inversion,
        Level::Inversion => Level::Comparison,
        Level::Comparison => Level::Sum,
        Level::Sum => Level::Term,
        Level::Term => Level::Factor,
        Level::Factor | Level::Atom => Level::Atom,
    }
}

/// Two operands that are joined.
pub fn joined(alloc: Global, join: Join, left: Expr, right: Expr) -> Result<Expr, AllocError>
    ensures { IfOk result (λ made. expression made ≡ grammar.joined join (expression left) (expression right)) }
{
    match join {
        Join::And => Expr::both(alloc, left, right),
        Join::Or => Expr::either(alloc, left, right),
        Join::By(op) => Expr::binary(alloc, op, left, right),
    }
}
