//! Reads the headers of blocks, behind their first word.

ghost use Rattle.std.specs.Prelude.{◌≡◌};
ghost use Rattle.gp_form.specs.code.FormReading as spec;
ghost use Rattle.gp_form.specs.code.Steps.{Finds, Gives};
ghost use Rattle.gp_tree.specs.Form as spec_form;
ghost use Rattle.gp_tree.specs.Form.{form, maybe_form};
ghost use Rattle.gp_tree.specs.Expression.{expression};
ghost use Rattle.gp_tree.specs.TypeExpression.{maybe_type};

use crate::expression::expression_front;
use crate::list_end::{ListEnd, past_end};
use crate::param::params;
use crate::part_fault::PartFault;
use crate::soft_keyword::past_soft_word;
use crate::statement::{alone, simple};
use crate::step::{past_name, past_symbol, past_word};
use crate::written_type::answer_front;
use gp_lex::{Keyword, Symbol, Token};
use gp_tree::{Expr, LineForm, TypeExpr};
use std::alloc::Global;

/// The colon at the end of a header, and the simple statement behind it, if there is one.
#[tactic(auto, unfolding(crate::specs::code::FormReading::body))]
fn body(alloc: Global, tokens: &[Token]) -> Result<Option<LineForm>, PartFault>
    ensures { Gives maybe_form result (spec.body tokens.now) }
{
    let Some(rest) = past_symbol(tokens, Symbol::Colon) else {
        return Err(PartFault::NotSpelled);
    };
    if past_end(rest, ListEnd::Line).is_some() {
        return Ok(None);
    }
    Ok(Some(simple(alloc, rest)?))
}

/// The type of a function's result at the front, none where it is missing or `None`, and the tokens behind it.
#[tactic(auto, unfolding(crate::specs::code::FormReading::result_type))]
fn result_type(alloc: Global, tokens: &[Token]) -> Result<(Option<TypeExpr>, &[Token]), PartFault>
    ensures { Gives (λ x. (maybe_type x.0, x.1.now)) result (spec.result_type tokens.now) }
{
    let Some(rest) = past_symbol(tokens, Symbol::Arrow) else {
        return Ok((None, tokens));
    };
    answer_front(alloc, rest)
}

/// What stands behind `def`.
#[tactic(auto, unfolding(crate::specs::code::FormReading::def_header))]
pub fn def_header(alloc: Global, tokens: &[Token]) -> Result<LineForm, PartFault>
    ensures { Gives form result (spec.def_header tokens.now) }
{
    let Some((name, rest)) = past_name(tokens) else {
        return Err(PartFault::NotSpelled);
    };
    let Some(rest) = past_symbol(rest, Symbol::LeftParen) else {
        return Err(PartFault::NotSpelled);
    };
    let name = name.copy()?;
    let (found, rest) = params(alloc, rest)?;
    let (ty, rest) = result_type(alloc, rest)?;
    let body = body(alloc, rest)?;
    Ok(LineForm::def_header(alloc, name, found, ty, body)?)
}

/// What stands behind `class`.
#[tactic(auto, unfolding(crate::specs::code::FormReading::class_header))]
pub fn class_header(tokens: &[Token]) -> Result<LineForm, PartFault>
    ensures { Gives form result (spec.class_header tokens.now) }
{
    let Some((name, rest)) = past_name(tokens) else {
        return Err(PartFault::NotSpelled);
    };
    let Some(rest) = past_symbol(rest, Symbol::Colon) else {
        return Err(PartFault::NotSpelled);
    };
    let name = name.copy()?;
    alone(LineForm::Class(name), rest)
}

/// A test, and the end of its header.
fn test_and_body(alloc: Global, tokens: &[Token]) -> Result<(Expr, Option<LineForm>), PartFault>
    ensures { Gives (λ x. (expression x.0, maybe_form x.1)) result (spec.test_and_body tokens.now) }
{
    let (test, rest) = expression_front(alloc, tokens)?;
    let body = body(alloc, rest)?;
    Ok((test, body))
}

/// What stands behind `if`.
pub fn if_header(alloc: Global, tokens: &[Token]) -> Result<LineForm, PartFault>
    ensures { Gives form result (spec.tested spec_form.if_header tokens.now) }
{
    let (test, body) = test_and_body(alloc, tokens)?;
    Ok(LineForm::if_header(alloc, test, body)?)
}

/// What stands behind `elif`.
pub fn elif_header(alloc: Global, tokens: &[Token]) -> Result<LineForm, PartFault>
    ensures { Gives form result (spec.tested spec_form.elif_header tokens.now) }
{
    let (test, body) = test_and_body(alloc, tokens)?;
    Ok(LineForm::elif_header(alloc, test, body)?)
}

/// What stands behind `while`.
pub fn while_header(alloc: Global, tokens: &[Token]) -> Result<LineForm, PartFault>
    ensures { Gives form result (spec.tested spec_form.while_header tokens.now) }
{
    let (test, body) = test_and_body(alloc, tokens)?;
    Ok(LineForm::while_header(alloc, test, body)?)
}

/// What stands behind `else`.
#[tactic(auto, unfolding(crate::specs::code::FormReading::else_header))]
pub fn else_header(alloc: Global, tokens: &[Token]) -> Result<LineForm, PartFault>
    ensures { Gives form result (spec.else_header tokens.now) }
{
    let body = body(alloc, tokens)?;
    Ok(LineForm::else_header(alloc, body)?)
}

/// The tokens behind `in range(`.
#[tactic(auto, unfolding(crate::specs::code::FormReading::past_range))]
fn past_range(tokens: &[Token]) -> Option<&[Token]>
    ensures { Finds (λ rest. rest.now) result (spec.past_range tokens.now) }
{
    let rest = past_word(tokens, Keyword::InWord)?;
    let rest = past_soft_word(rest, "range")?;
    past_symbol(rest, Symbol::LeftParen)
}

/// The tokens behind a comma, if they begin with one.
#[tactic(auto, unfolding(crate::specs::code::FormReading::maybe_comma))]
fn maybe_comma(tokens: &[Token]) -> &[Token]
    ensures { result.now ≡ spec.maybe_comma tokens.now }
{
    match past_symbol(tokens, Symbol::Comma) {
        Some(rest) => rest,
        None => tokens,
    }
}

/// What stands behind `for`.
#[tactic(auto, unfolding(crate::specs::code::FormReading::for_header))]
pub fn for_header(alloc: Global, tokens: &[Token]) -> Result<LineForm, PartFault>
    ensures { Gives form result (spec.for_header tokens.now) }
{
    let Some((name, rest)) = past_name(tokens) else {
        return Err(PartFault::NotSpelled);
    };
    let Some(rest) = past_range(rest) else {
        return Err(PartFault::NotSpelled);
    };
    let name = name.copy()?;
    let (count, rest) = expression_front(alloc, rest)?;
    let Some(rest) = past_symbol(maybe_comma(rest), Symbol::RightParen) else {
        return Err(PartFault::NotSpelled);
    };
    let body = body(alloc, rest)?;
    Ok(LineForm::for_header(alloc, name, count, body)?)
}
