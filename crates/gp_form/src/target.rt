//! Reads the targets of assignments.

ghost use Rattle.std.specs.Prelude.{◌≡◌, [], ◌∷◌};
ghost use Rattle.gp_form.specs.code.FormReading as spec;
ghost use Rattle.gp_form.specs.code.Reading.{place_front, past_end};
ghost use Rattle.gp_form.specs.code.Steps.{Gives, with_front};

use crate::list_end::{ListEnd, past_end};
use crate::part_fault::PartFault;
use crate::place::place_front;
use crate::step::past_symbol;
use gp_lex::{Symbol, Token};
use gp_tree::{Place, Places, Targets};
use std::alloc::Global;

/// What stands to the left of `=`, which is all of the tokens.
#[tactic(auto, unfolding(crate::specs::code::FormReading::targets))]
pub fn targets(alloc: Global, tokens: &[Token]) -> Result<Targets, PartFault>
    ensures { Gives (λ x. x) result (spec.targets tokens.now) }
{
    match past_symbol(tokens, Symbol::LeftParen) {
        Some(inside) => pattern_inside(alloc, inside),
        None => pattern_outside(alloc, tokens),
    }
}

/// The pattern whose opening parenthesis stands before the tokens.
#[tactic(auto, unfolding(crate::specs::code::FormReading::pattern_inside))]
fn pattern_inside(alloc: Global, tokens: &[Token]) -> Result<Targets, PartFault>
    ensures { Gives (λ x. x) result (spec.pattern_inside tokens.now) }
{
    let (first, rest) = place_front(alloc, tokens)?;
    let Some(rest) = past_symbol(rest, Symbol::Comma) else {
        return Err(PartFault::NotSpelled);
    };
    let (others, rest) = places(alloc, ListEnd::Paren, first, rest)?;
    match past_end(rest, ListEnd::Line) {
        Some(_) => Ok(Targets::Pattern(others)),
        None => Err(PartFault::NotSpelled),
    }
}

/// One place, or a pattern without parentheses.
#[tactic(auto, unfolding(crate::specs::code::FormReading::pattern_outside))]
fn pattern_outside(alloc: Global, tokens: &[Token]) -> Result<Targets, PartFault>
    ensures { Gives (λ x. x) result (spec.pattern_outside tokens.now) }
{
    let (first, rest) = place_front(alloc, tokens)?;
    if past_end(rest, ListEnd::Line).is_some() {
        return Ok(Targets::One(first));
    }
    let Some(rest) = past_symbol(rest, Symbol::Comma) else {
        return Err(PartFault::NotSpelled);
    };
    let (all, _) = places(alloc, ListEnd::Line, first, rest)?;
    Ok(Targets::Pattern(all))
}

/// Places with commas between them up to the end, behind the first one.
fn places(
    alloc: Global,
    end: ListEnd,
    first: Place,
    tokens: &[Token],
) -> Result<(Places, &[Token]), PartFault>
    ensures { Gives (λ x. (x.0, x.1.now)) result (with_front (first ∷ []) (spec.listed place_front (past_end end) tokens.now)) }
{
    let mut found = Places::new(alloc);
    found.push(first)?;
    let mut rest = tokens;
    for _turn in 0..tokens.len() + 1 {
        if let Some(after) = past_end(rest, end) {
            return Ok((found, after));
        }
        let (item, next) = place_front(alloc, rest)?;
        found.push(item)?;
        if let Some(after) = past_end(next, end) {
            return Ok((found, after));
        }
        let Some(after) = past_symbol(next, Symbol::Comma) else {
            return Err(PartFault::NotSpelled);
        };
        rest = after;
    }
    Err(PartFault::NotSpelled)
}

/// The place that all of the tokens are.
pub fn all_place(alloc: Global, tokens: &[Token]) -> Result<Place, PartFault>
    ensures { Gives (λ x. x) result (spec.all_place tokens.now) }
{
    let (place, rest) = place_front(alloc, tokens)?;
    match past_end(rest, ListEnd::Line) {
        Some(_) => Ok(place),
        None => Err(PartFault::NotSpelled),
    }
}
