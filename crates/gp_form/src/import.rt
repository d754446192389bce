//! Reads imports and decorators.

ghost use Rattle.std.specs.Prelude.{◌≡◌, IfOk};
ghost use Rattle.gp_form.specs.declared.list_end.ListEnd.TheVariants as until;
ghost use Rattle.gp_form.specs.code.FormReading as spec;
ghost use Rattle.gp_form.specs.Forms.{dotted};
ghost use Rattle.gp_form.specs.code.Reading.{past_end};
ghost use Rattle.gp_form.specs.code.Steps as step;
ghost use Rattle.gp_form.specs.code.Steps.{Gives};
ghost use Rattle.gp_tree.specs.Form.{form};

use crate::list_end::{ListEnd, past_end};
use crate::part_fault::PartFault;
use crate::place::place_front;
use crate::soft_keyword::past_soft_word;
use crate::statement::alone;
use crate::step::{past_name, past_symbol, past_word};
use gp_base::{Name, Names};
use gp_lex::{Keyword, Symbol, Token};
use gp_tree::{LineForm, Place};
use std::alloc::{AllocError, Global};

/// What stands behind `@`.
#[tactic(auto, unfolding(crate::specs::code::FormReading::decorator))]
pub fn decorator(tokens: &[Token]) -> Result<LineForm, PartFault>
    ensures { Gives form result (spec.decorator tokens.now) }
{
    let Some(rest) = past_soft_word(tokens, "guppy") else {
        return Err(PartFault::NotSpelled);
    };
    if past_end(rest, ListEnd::Line).is_some() {
        return Ok(LineForm::FunctionDecorator);
    }
    let Some(rest) = past_symbol(rest, Symbol::Dot) else {
        return Err(PartFault::NotSpelled);
    };
    let Some(rest) = past_soft_word(rest, "struct") else {
        return Err(PartFault::NotSpelled);
    };
    alone(LineForm::StructDecorator, rest)
}

/// What stands behind `from`.
#[tactic(auto, unfolding(crate::specs::code::FormReading::import_names))]
pub fn import_names(alloc: Global, tokens: &[Token]) -> Result<LineForm, PartFault>
    ensures { Gives form result (spec.import_names tokens.now) }
{
    let (path, rest) = place_front(alloc, tokens)?;
    let Some(rest) = past_word(rest, Keyword::ImportWord) else {
        return Err(PartFault::NotSpelled);
    };
    let names = imported(alloc, rest)?;
    Ok(LineForm::Import(dotted(alloc, &path)?, names))
}

/// The names of a path with dots between them, as one text.
fn dotted(alloc: Global, path: &Place) -> Result<Name, AllocError>
    ensures { IfOk result (λ name. name ≡ dotted path.now) }
{
    let mut text = String::from_str(alloc, path.name.as_str())?;
    for field in path.fields.as_slice() {
        text.push('.')?;
        text.push_str(field.as_str())?;
    }
    Name::new(alloc, text.as_str())
}

/// What stands behind `import`.
#[tactic(auto, unfolding(crate::specs::code::FormReading::imported))]
fn imported(alloc: Global, tokens: &[Token]) -> Result<Names, PartFault>
    ensures { Gives (λ x. x) result (spec.imported tokens.now) }
{
    let Some(inside) = past_symbol(tokens, Symbol::LeftParen) else {
        return bare_names(alloc, tokens);
    };
    let (names, rest) = names_inside(alloc, inside)?;
    some_names(names, rest)
}

/// The names, where there is one or more and no token stands behind them.
fn some_names(names: Names, rest: &[Token]) -> Result<Names, PartFault>
    ensures { Gives (λ x. x) result (spec.some_names names rest.now) }
{
    if names.as_slice().is_empty() || past_end(rest, ListEnd::Line).is_none() {
        return Err(PartFault::NotSpelled);
    }
    Ok(names)
}

/// The name at the front, and the tokens behind it.
fn name_front(tokens: &[Token]) -> Result<(Name, &[Token]), PartFault>
    ensures { Gives (λ x. (x.0, x.1.now)) result (step.past_name tokens.now) }
{
    let Some((name, rest)) = past_name(tokens) else {
        return Err(PartFault::NotSpelled);
    };
    Ok((name.copy()?, rest))
}

/// Names with commas between them, up to the end of the tokens.
fn bare_names(alloc: Global, tokens: &[Token]) -> Result<Names, PartFault>
    ensures { Gives (λ x. x) result (spec.bare_names tokens.now) }
{
    let mut found = Names::new(alloc);
    let mut rest = tokens;
    for _turn in 0..tokens.len() {
        let (item, next) = name_front(rest)?;
        found.push(item)?;
        if past_end(next, ListEnd::Line).is_some() {
            return Ok(found);
        }
        let Some(after) = past_symbol(next, Symbol::Comma) else {
            return Err(PartFault::NotSpelled);
        };
        rest = after;
    }
    Err(PartFault::NotSpelled)
}

/// Names with commas between them, and behind them a closing parenthesis.
fn names_inside(alloc: Global, tokens: &[Token]) -> Result<(Names, &[Token]), PartFault>
    ensures { Gives (λ x. (x.0, x.1.now)) result (spec.listed step.past_name (past_end until.Paren) tokens.now) }
{
    let mut found = Names::new(alloc);
    let mut rest = tokens;
    for _turn in 0..tokens.len() + 1 {
        if let Some(after) = past_end(rest, ListEnd::Paren) {
            return Ok((found, after));
        }
        let (item, next) = name_front(rest)?;
        found.push(item)?;
        if let Some(after) = past_end(next, ListEnd::Paren) {
            return Ok((found, after));
        }
        let Some(after) = past_symbol(next, Symbol::Comma) else {
            return Err(PartFault::NotSpelled);
        };
        rest = after;
    }
    Err(PartFault::NotSpelled)
}
