//! Reads types as they are written.
//!
//! The depth is how often a reading may go into brackets; the number of tokens is always enough.

ghost use Rattle.std.specs.Prelude.{◌≡◌, map};
ghost use Rattle.gp_lex.specs.declared.token.Symbol.TheVariants as symbol;
ghost use Rattle.gp_form.specs.code.FormReading as spec;
ghost use Rattle.gp_form.specs.code.Steps as step;
ghost use Rattle.gp_form.specs.code.Steps.{Finds, Gives};
ghost use Rattle.gp_tree.specs.TypeExpression.{type_expression, parameter_type, maybe_type};

use crate::part_fault::PartFault;
use crate::soft_keyword::past_soft_word;
use crate::step::{past_name, past_symbol, past_word};
use gp_lex::{Keyword, Symbol, Token};
use gp_tree::{FunParamExpr, FunParamExprs, TypeExpr, TypeExprs};
use std::alloc::Global;

/// The type at the front, and the tokens behind it.
pub fn type_front(alloc: Global, tokens: &[Token]) -> Result<(TypeExpr, &[Token]), PartFault>
    ensures { Gives (λ x. (type_expression x.0, x.1.now)) result (spec.a_type tokens.now) }
{
    type_at(alloc, tokens.len() + 1, tokens)
}

/// The type at the front and whether it is marked `@owned`, and the tokens behind both.
pub fn marked_type_front(
    alloc: Global,
    tokens: &[Token],
) -> Result<(FunParamExpr, &[Token]), PartFault>
    ensures { Gives (λ x. (parameter_type x.0, x.1.now)) result (spec.a_marked_type tokens.now) }
{
    marked_type(alloc, tokens.len() + 1, tokens)
}

/// What a function answers, as it is written at the front: a type, or none for `None`; and the tokens behind it.
pub fn answer_front(
    alloc: Global,
    tokens: &[Token],
) -> Result<(Option<TypeExpr>, &[Token]), PartFault>
    ensures { Gives (λ x. (maybe_type x.0, x.1.now)) result (spec.an_answer tokens.now) }
{
    answer(alloc, tokens.len() + 1, tokens)
}

/// The tokens behind the word `tuple` and its bracket.
#[tactic(auto, unfolding(crate::specs::code::FormReading::past_tuple))]
fn past_tuple(tokens: &[Token]) -> Option<&[Token]>
    ensures { Finds (λ rest. rest.now) result (spec.past_tuple tokens.now) }
{
    let rest = past_soft_word(tokens, "tuple")?;
    past_symbol(rest, Symbol::LeftBracket)
}

/// The tokens behind the word `Callable` and both its brackets.
#[tactic(auto, unfolding(crate::specs::code::FormReading::past_callable))]
fn past_callable(tokens: &[Token]) -> Option<&[Token]>
    ensures { Finds (λ rest. rest.now) result (spec.past_callable tokens.now) }
{
    let rest = past_soft_word(tokens, "Callable")?;
    let rest = past_symbol(rest, Symbol::LeftBracket)?;
    past_symbol(rest, Symbol::LeftBracket)
}

/// Whether the mark `@owned` stands at the front, and the tokens behind it.
#[tactic(auto, unfolding(crate::specs::code::FormReading::owned_mark))]
fn owned_mark(tokens: &[Token]) -> Option<(bool, &[Token])>
    ensures { Finds (λ x. (x.0, x.1.now)) result (spec.owned_mark tokens.now) }
{
    let Some(rest) = past_symbol(tokens, Symbol::At) else {
        return Some((false, tokens));
    };
    let rest = past_soft_word(rest, "owned")?;
    Some((true, rest))
}

/// A type at the front that is at most so deep, and the tokens behind it.
#[cycle(types)]
fn type_at(alloc: Global, depth: usize, tokens: &[Token]) -> Result<(TypeExpr, &[Token]), PartFault>
    ensures { Gives (λ x. (type_expression x.0, x.1.now)) result (spec.type_at depth tokens.now) }
{
    if depth == 0 {
        return Err(PartFault::NotSpelled);
    }
    type_with(alloc, depth - 1, tokens)
}

/// The same, where the depth is that of the types in its brackets.
#[cycle(types)]
#[tactic(auto, unfolding(crate::specs::code::FormReading::type_with))]
fn type_with(
    alloc: Global,
    depth: usize,
    tokens: &[Token],
) -> Result<(TypeExpr, &[Token]), PartFault>
    ensures { Gives (λ x. (type_expression x.0, x.1.now)) result (spec.type_with (spec.type_at depth) tokens.now) }
{
    if let Some(inside) = past_tuple(tokens) {
        return tuple_behind(alloc, depth, inside);
    }
    if let Some(inside) = past_callable(tokens) {
        return function_behind(alloc, depth, inside);
    }
    named(tokens)
}

/// A type that is a name.
fn named(tokens: &[Token]) -> Result<(TypeExpr, &[Token]), PartFault>
    ensures { Gives (λ x. (type_expression x.0, x.1.now)) result (spec.a_named_type tokens.now) }
{
    let Some((name, rest)) = past_name(tokens) else {
        return Err(PartFault::NotSpelled);
    };
    let name = name.copy()?;
    Ok((TypeExpr::Named(name), rest))
}

/// A type of tuples whose word and bracket stand before the tokens.
#[cycle(types)]
#[tactic(auto, unfolding(crate::specs::code::FormReading::tuple_behind))]
fn tuple_behind(
    alloc: Global,
    depth: usize,
    tokens: &[Token],
) -> Result<(TypeExpr, &[Token]), PartFault>
    ensures { Gives (λ x. (type_expression x.0, x.1.now)) result (spec.tuple_behind (spec.type_at depth) tokens.now) }
{
    let (parts, rest) = types(alloc, depth, tokens)?;
    Ok((tuple(parts)?, rest))
}

/// The type of tuples with these parts, of which there is one or more.
fn tuple(parts: TypeExprs) -> Result<TypeExpr, PartFault>
    ensures { Gives type_expression result (spec.some_tuple (map type_expression parts.items)) }
{
    if parts.is_empty() {
        return Err(PartFault::NotSpelled);
    }
    Ok(TypeExpr::tuple(parts)?)
}

/// A function type whose word and both brackets stand before the tokens.
#[cycle(types)]
#[tactic(auto, unfolding(crate::specs::code::FormReading::function_behind))]
fn function_behind(
    alloc: Global,
    depth: usize,
    tokens: &[Token],
) -> Result<(TypeExpr, &[Token]), PartFault>
    ensures { Gives (λ x. (type_expression x.0, x.1.now)) result (spec.function_behind (spec.type_at depth) tokens.now) }
{
    let (params, rest) = marked_types(alloc, depth, tokens)?;
    let Some(rest) = past_symbol(rest, Symbol::Comma) else {
        return Err(PartFault::NotSpelled);
    };
    let (answer, rest) = answer(alloc, depth, rest)?;
    let Some(rest) = past_symbol(rest, Symbol::RightBracket) else {
        return Err(PartFault::NotSpelled);
    };
    Ok((TypeExpr::function(alloc, params, answer)?, rest))
}

/// A type or `None`, and the tokens behind it.
#[cycle(types)]
#[tactic(auto, unfolding(crate::specs::code::FormReading::answer))]
fn answer(
    alloc: Global,
    depth: usize,
    tokens: &[Token],
) -> Result<(Option<TypeExpr>, &[Token]), PartFault>
    ensures { Gives (λ x. (maybe_type x.0, x.1.now)) result (spec.answer (spec.type_at depth) tokens.now) }
{
    if let Some(rest) = past_word(tokens, Keyword::NoneWord) {
        return Ok((None, rest));
    }
    let (ty, rest) = type_at(alloc, depth, tokens)?;
    Ok((Some(ty), rest))
}

/// A type and whether it is marked `@owned`, and the tokens behind both.
#[cycle(types)]
#[tactic(auto, unfolding(crate::specs::code::FormReading::marked_type))]
fn marked_type(
    alloc: Global,
    depth: usize,
    tokens: &[Token],
) -> Result<(FunParamExpr, &[Token]), PartFault>
    ensures { Gives (λ x. (parameter_type x.0, x.1.now)) result (spec.marked_type (spec.type_at depth) tokens.now) }
{
    let (ty, rest) = type_at(alloc, depth, tokens)?;
    let Some((owned, rest)) = owned_mark(rest) else {
        return Err(PartFault::NotSpelled);
    };
    Ok((FunParamExpr { ty, owned }, rest))
}

/// Types with commas between them, and behind them a closing bracket.
#[cycle(types)]
fn types(alloc: Global, depth: usize, tokens: &[Token]) -> Result<(TypeExprs, &[Token]), PartFault>
    ensures { Gives (λ x. (map type_expression x.0.items, x.1.now)) result (spec.listed (spec.type_at depth) (step.past_symbol symbol.RightBracket) tokens.now) }
{
    let mut found = TypeExprs::new(alloc);
    let mut rest = tokens;
    for _turn in 0..tokens.len() + 1 {
        if let Some(after) = past_symbol(rest, Symbol::RightBracket) {
            return Ok((found, after));
        }
        let (item, next) = type_at(alloc, depth, rest)?;
        found.push(item)?;
        if let Some(after) = past_symbol(next, Symbol::RightBracket) {
            return Ok((found, after));
        }
        let Some(after) = past_symbol(next, Symbol::Comma) else {
            return Err(PartFault::NotSpelled);
        };
        rest = after;
    }
    Err(PartFault::NotSpelled)
}

/// Types, each with its mark if it has one, with commas between them, and behind them a closing bracket.
#[cycle(types)]
fn marked_types(
    alloc: Global,
    depth: usize,
    tokens: &[Token],
) -> Result<(FunParamExprs, &[Token]), PartFault>
    ensures { Gives (λ x. (map parameter_type x.0.items, x.1.now)) result (spec.listed (spec.marked_type (spec.type_at depth)) (step.past_symbol symbol.RightBracket) tokens.now) }
{
    let mut found = FunParamExprs::new(alloc);
    let mut rest = tokens;
    for _turn in 0..tokens.len() + 1 {
        if let Some(after) = past_symbol(rest, Symbol::RightBracket) {
            return Ok((found, after));
        }
        let (item, next) = marked_type(alloc, depth, rest)?;
        found.push(item)?;
        if let Some(after) = past_symbol(next, Symbol::RightBracket) {
            return Ok((found, after));
        }
        let Some(after) = past_symbol(next, Symbol::Comma) else {
            return Err(PartFault::NotSpelled);
        };
        rest = after;
    }
    Err(PartFault::NotSpelled)
}
