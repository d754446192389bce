//! Reads expressions.
//!
//! Each level of the grammar has a function that reads the longest expression of that level at the front of the
//! tokens. The depth is how often a reading may go into brackets, behind a prefix or behind `else`; the number of
//! tokens is always enough.

ghost use Rattle.std.specs.Prelude.{◌≡◌, map};
ghost use Rattle.gp_form.specs.code.Reading as spec;
ghost use Rattle.gp_form.specs.code.Steps.{Gives, with_front};
ghost use Rattle.gp_tree.specs.Expression.{expression};

use crate::level::{Level, joined, past_join, tighter};
use crate::list_end::{ListEnd, past_end};
use crate::part_fault::PartFault;
use crate::place::path_from;
use crate::step::{past_symbol, past_word};
use gp_base::Name;
use gp_lex::{Keyword, Symbol, Token};
use gp_tree::{Expr, Exprs, copy_text};
use std::alloc::Global;

/// The expression at the front, and the tokens behind it.
#[tactic(auto, unfolding(crate::specs::code::Reading::expression_front))]
pub fn expression_front(alloc: Global, tokens: &[Token]) -> Result<(Expr, &[Token]), PartFault>
    ensures { Gives (λ x. (expression x.0, x.1.now)) result (spec.expression_front tokens.now) }
{
    level(alloc, tokens.len(), Level::Whole, tokens)
}

/// The expression, or tuple without its parentheses, that all of the tokens are.
#[tactic(auto, unfolding(crate::specs::code::Reading::all_expressions))]
pub fn all_expressions(alloc: Global, tokens: &[Token]) -> Result<Expr, PartFault>
    ensures { Gives expression result (spec.all_expressions tokens.now) }
{
    let (found, _) = expressions(alloc, tokens.len() + 1, ListEnd::Line, tokens)?;
    Ok(found)
}

/// An expression of a level at the front, and the tokens behind it.
#[cycle(parser)]
fn level(
    alloc: Global,
    depth: usize,
    level: Level,
    tokens: &[Token],
) -> Result<(Expr, &[Token]), PartFault>
    ensures { Gives (λ x. (expression x.0, x.1.now)) result (spec.level (spec.read depth) level tokens.now) }
{
    match level {
        Level::Whole => whole(alloc, depth, tokens),
        Level::Inversion => inversion(alloc, depth, tokens),
        Level::Comparison => comparison(alloc, depth, tokens),
        Level::Factor => factor(alloc, depth, tokens),
        Level::Atom => atom(alloc, depth, tokens),
        Level::Disjunction | Level::Conjunction | Level::Sum | Level::Term => {
            chain(alloc, depth, level, tokens)
        }
    }
}

/// The same, one step deeper.
#[cycle(parser)]
fn deeper(
    alloc: Global,
    depth: usize,
    at: Level,
    tokens: &[Token],
) -> Result<(Expr, &[Token]), PartFault>
    ensures { Gives (λ x. (expression x.0, x.1.now)) result (spec.read depth at tokens.now) }
{
    if depth == 0 {
        return Err(PartFault::NotSpelled);
    }
    level(alloc, depth - 1, at, tokens)
}

/// A value, which a test and another value may follow.
#[cycle(parser)]
#[tactic(auto, unfolding(crate::specs::code::Reading::whole))]
fn whole(alloc: Global, depth: usize, tokens: &[Token]) -> Result<(Expr, &[Token]), PartFault>
    ensures { Gives (λ x. (expression x.0, x.1.now)) result (spec.whole (spec.read depth) tokens.now) }
{
    let (value, rest) = level(alloc, depth, Level::Disjunction, tokens)?;
    let Some(after) = past_word(rest, Keyword::IfWord) else {
        return Ok((value, rest));
    };
    let (test, rest) = level(alloc, depth, Level::Disjunction, after)?;
    let Some(after) = past_word(rest, Keyword::ElseWord) else {
        return Err(PartFault::NotSpelled);
    };
    let (other, rest) = deeper(alloc, depth, Level::Whole, after)?;
    Ok((Expr::choice(alloc, test, value, other)?, rest))
}

/// Operands with operators between them that group to the left.
#[cycle(parser)]
fn chain(
    alloc: Global,
    depth: usize,
    at: Level,
    tokens: &[Token],
) -> Result<(Expr, &[Token]), PartFault>
    ensures { Gives (λ x. (expression x.0, x.1.now)) result (spec.chain at (spec.level (spec.read depth) (spec.tighter at)) tokens.now) }
{
    let (mut left, mut rest) = level(alloc, depth, tighter(at), tokens)?;
    for _turn in 0..tokens.len() {
        let Some((join, after)) = past_join(rest, at) else {
            return Ok((left, rest));
        };
        let (right, next) = level(alloc, depth, tighter(at), after)?;
        left = joined(alloc, join, left, right)?;
        rest = next;
    }
    Ok((left, rest))
}

/// `not` before an inversion, or a comparison.
#[cycle(parser)]
#[tactic(auto, unfolding(crate::specs::code::Reading::inversion))]
fn inversion(alloc: Global, depth: usize, tokens: &[Token]) -> Result<(Expr, &[Token]), PartFault>
    ensures { Gives (λ x. (expression x.0, x.1.now)) result (spec.inversion (spec.read depth) tokens.now) }
{
    let Some(after) = past_word(tokens, Keyword::NotWord) else {
        return comparison(alloc, depth, tokens);
    };
    let (operand, rest) = deeper(alloc, depth, Level::Inversion, after)?;
    Ok((Expr::negation(alloc, operand)?, rest))
}

/// A sum, or two that are compared.
#[cycle(parser)]
#[tactic(auto, unfolding(crate::specs::code::Reading::comparison))]
fn comparison(alloc: Global, depth: usize, tokens: &[Token]) -> Result<(Expr, &[Token]), PartFault>
    ensures { Gives (λ x. (expression x.0, x.1.now)) result (spec.comparison (spec.read depth) tokens.now) }
{
    let (left, rest) = level(alloc, depth, Level::Sum, tokens)?;
    let Some((join, after)) = past_join(rest, Level::Comparison) else {
        return Ok((left, rest));
    };
    let (right, rest) = level(alloc, depth, Level::Sum, after)?;
    Ok((joined(alloc, join, left, right)?, rest))
}

/// A minus sign before a factor, or an atom.
#[cycle(parser)]
#[tactic(auto, unfolding(crate::specs::code::Reading::factor))]
fn factor(alloc: Global, depth: usize, tokens: &[Token]) -> Result<(Expr, &[Token]), PartFault>
    ensures { Gives (λ x. (expression x.0, x.1.now)) result (spec.factor (spec.read depth) tokens.now) }
{
    let Some(after) = past_symbol(tokens, Symbol::Minus) else {
        return atom(alloc, depth, tokens);
    };
    let (operand, rest) = deeper(alloc, depth, Level::Factor, after)?;
    Ok((Expr::minus(alloc, operand)?, rest))
}

/// What no operator is in, but inside brackets.
#[cycle(parser)]
#[tactic(auto, unfolding(crate::specs::code::Reading::atom))]
fn atom(alloc: Global, depth: usize, tokens: &[Token]) -> Result<(Expr, &[Token]), PartFault>
    ensures { Gives (λ x. (expression x.0, x.1.now)) result (spec.atom (spec.read depth) tokens.now) }
{
    match tokens {
        [Token::Number(number), rest @ ..] => Ok((Expr::Int(*number), rest)),
        [Token::Keyword(word), rest @ ..] => match truth_of(*word) {
            Some(truth) => Ok((Expr::Bool(truth), rest)),
            None => Err(PartFault::NotSpelled),
        },
        [Token::Text(text), rest @ ..] => Ok((Expr::Text(copy_text(alloc, text)?), rest)),
        [Token::Name(name), rest @ ..] => named(alloc, depth, name, rest),
        [Token::Symbol(_), ..] => match past_symbol(tokens, Symbol::LeftParen) {
            Some(rest) => expressions(alloc, depth, ListEnd::Paren, rest),
            None => Err(PartFault::NotSpelled),
        },
        [] => Err(PartFault::NotSpelled),
    }
}

/// A call or a place, whose first name stands before the tokens.
#[cycle(parser)]
#[tactic(auto, unfolding(crate::specs::code::Reading::named))]
fn named<'t>(
    alloc: Global,
    depth: usize,
    name: &Name,
    tokens: &'t [Token],
) -> Result<(Expr, &'t [Token]), PartFault>
    ensures { Gives (λ x. (expression x.0, x.1.now)) result (spec.named (spec.read depth) name.now tokens.now) }
{
    let Some(after) = past_symbol(tokens, Symbol::LeftParen) else {
        let (place, rest) = path_from(alloc, name, tokens)?;
        return Ok((Expr::Place(place), rest));
    };
    let called = name.copy()?;
    let (arguments, rest) = items(alloc, depth, ListEnd::Paren, Exprs::new(alloc), after)?;
    Ok((Expr::Call(called, arguments), rest))
}

/// An expression, or a tuple without its parentheses, up to the end.
#[cycle(parser)]
#[tactic(auto, unfolding(crate::specs::code::Reading::expressions))]
fn expressions(
    alloc: Global,
    depth: usize,
    end: ListEnd,
    tokens: &[Token],
) -> Result<(Expr, &[Token]), PartFault>
    ensures { Gives (λ x. (expression x.0, x.1.now)) result (spec.expressions (spec.read depth) end tokens.now) }
{
    let (first, rest) = deeper(alloc, depth, Level::Whole, tokens)?;
    if let Some(after) = past_end(rest, end) {
        return Ok((first, after));
    }
    let Some(after) = past_symbol(rest, Symbol::Comma) else {
        return Err(PartFault::NotSpelled);
    };
    let mut parts = Exprs::new(alloc);
    parts.push(first)?;
    let (parts, rest) = items(alloc, depth, end, parts, after)?;
    Ok((Expr::Tuple(parts), rest))
}

/// Expressions with commas between them up to the end, behind those that were found before.
#[cycle(parser)]
fn items(
    alloc: Global,
    depth: usize,
    end: ListEnd,
    mut found: Exprs,
    tokens: &[Token],
) -> Result<(Exprs, &[Token]), PartFault>
    ensures { Gives (λ x. (map expression x.0.items, x.1.now)) result (with_front (map expression found.items) (spec.items (spec.read depth) end tokens.now)) }
{
    let mut rest = tokens;
    for _turn in 0..tokens.len() {
        if let Some(after) = past_end(rest, end) {
            return Ok((found, after));
        }
        let (item, next) = deeper(alloc, depth, Level::Whole, rest)?;
        found.push(item)?;
        if let Some(after) = past_end(next, end) {
            return Ok((found, after));
        }
        let Some(after) = past_symbol(next, Symbol::Comma) else {
            return Err(PartFault::NotSpelled);
        };
        rest = after;
    }
    match past_end(rest, end) {
        Some(after) => Ok((found, after)),
        None => Err(PartFault::NotSpelled),
    }
}

/// What `True` and `False` mean; `None` for any other keyword.
fn truth_of(word: Keyword) -> Option<bool>
    ensures { result ≡ spec.truth_of word }
{
    match word {
        Keyword::TrueWord => Some(true),
        Keyword::FalseWord => Some(false),
        _ => None,
    }
}
