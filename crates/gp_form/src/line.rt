//! Reads the form of a logical line.

ghost use Rattle.gp_form.specs.code.FormReading as spec;
ghost use Rattle.gp_form.specs.LineForms.{IsFormOf};
ghost use Rattle.gp_form.specs.code.Steps.{Finds, Gives};
ghost use Rattle.std.specs.Prelude.{◌≡◌};
ghost use Rattle.gp_tree.specs.Form.{form};

use crate::form_fault::FormFault;
use crate::header::{
    class_header, def_header, elif_header, else_header, for_header, if_header, while_header,
};
use crate::import::{decorator, import_names};
use crate::line_size::is_too_big;
use crate::part_fault::PartFault;
use crate::statement::statement;
use crate::step::past_symbol;
use gp_lex::{Keyword, LogicalLine, Symbol, Token};
use gp_tree::LineForm;
use std::alloc::Global;

/// The form of a logical line: the one form of this profile of Python's grammar that the line's tokens spell.
///
/// Fails with [`FormFault::TooBig`] exactly where the line has more than 600 tokens or more than 50 brackets
/// open at once, and else with [`FormFault::NotALine`] exactly where no form spells it, both with the line's
/// number. Takes time in proportion to the line's tokens.
pub fn line_form(alloc: Global, line: &LogicalLine) -> Result<LineForm, FormFault>
    ensures { IsFormOf line.now result }
{
    let tokens = line.tokens.as_slice();
    if is_too_big(tokens) {
        return Err(FormFault::TooBig(line.number));
    }
    match form_of(alloc, tokens) {
        Ok(found) => Ok(found),
        Err(PartFault::NotSpelled) => Err(FormFault::NotALine(line.number)),
        Err(PartFault::Memory) => Err(FormFault::Memory),
    }
}

/// The form that all of the tokens spell.
#[tactic(auto, unfolding(crate::specs::code::FormReading::line))]
fn form_of(alloc: Global, tokens: &[Token]) -> Result<LineForm, PartFault>
    ensures { Gives form result (spec.line tokens.now) }
{
    if let Some((word, rest)) = first_word(tokens) {
        return led(alloc, word, rest, tokens);
    }
    match past_symbol(tokens, Symbol::At) {
        Some(rest) => decorator(rest),
        None => statement(alloc, tokens),
    }
}

/// The keyword that is the first token, and the tokens behind it.
#[tactic(auto, unfolding(crate::specs::code::FormReading::first_word))]
fn first_word(tokens: &[Token]) -> Option<(Keyword, &[Token])>
    ensures { Finds (λ x. (x.0, x.1.now)) result (spec.first_word tokens.now) }
{
    match tokens {
        [Token::Keyword(word), rest @ ..] => Some((*word, rest)),
        _ => None,
    }
}

/// What a keyword leads, where the rest stands behind it in the tokens.
fn led(
    alloc: Global,
    word: Keyword,
    rest: &[Token],
    tokens: &[Token],
) -> Result<LineForm, PartFault>
    ensures { Gives form result (spec.led word rest.now (spec.statement tokens.now)) }
{
    match word {
        Keyword::DefWord => def_header(alloc, rest),
        Keyword::ClassWord => class_header(rest),
        Keyword::IfWord => if_header(alloc, rest),
        Keyword::ElifWord => elif_header(alloc, rest),
        Keyword::WhileWord => while_header(alloc, rest),
        Keyword::ElseWord => else_header(alloc, rest),
        Keyword::ForWord => for_header(alloc, rest),
        Keyword::FromWord => import_names(alloc, rest),
        _ => statement(alloc, tokens),
    }
}
