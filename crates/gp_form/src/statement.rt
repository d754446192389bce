//! Reads simple statements, and the two other forms that no keyword leads: fields and module calls.

ghost use Rattle.std.specs.Prelude.{◌≡◌, IsTrue, ◌↔◌};
ghost use Rattle.gp_form.specs.declared.part_fault.PartFault.TheVariants.{NotSpelled};
ghost use Rattle.gp_form.specs.code.FormReading as spec;
ghost use Rattle.gp_form.specs.code.Steps.{Finds, Gives};
ghost use Rattle.gp_tree.specs.Expression.{expression};
ghost use Rattle.gp_tree.specs.Form.{form};

use crate::assigning::{Assigning, split};
use crate::expression::{all_expressions, expression_front};
use crate::list_end::{ListEnd, past_end};
use crate::part_fault::PartFault;
use crate::soft_keyword::past_soft_word;
use crate::step::{past_name, past_symbol, past_word};
use crate::target::{all_place, targets};
use crate::written_type::type_front;
use gp_base::Name;
use gp_lex::{Keyword, Symbol, Token};
use gp_tree::{Expr, LineForm};
use std::alloc::Global;

/// The simple statement that all of the tokens are.
#[tactic(auto, unfolding(crate::specs::code::FormReading::simple))]
pub fn simple(alloc: Global, tokens: &[Token]) -> Result<LineForm, PartFault>
    ensures { Gives form result (spec.simple tokens.now) }
{
    let read = statement(alloc, tokens)?;
    match read {
        LineForm::Field(..) | LineForm::ModuleCall(_) => Err(PartFault::NotSpelled),
        _ => Ok(read),
    }
}

/// The simple statement, field or module call that all of the tokens are.
#[tactic(auto, unfolding(crate::specs::code::FormReading::statement))]
pub fn statement(alloc: Global, tokens: &[Token]) -> Result<LineForm, PartFault>
    ensures { Gives form result (spec.statement tokens.now) }
{
    if let Some(rest) = past_word(tokens, Keyword::ReturnWord) {
        return returned(alloc, rest);
    }
    if let Some(rest) = past_word(tokens, Keyword::BreakWord) {
        return alone(LineForm::Break, rest);
    }
    if let Some(rest) = past_word(tokens, Keyword::ContinueWord) {
        return alone(LineForm::Continue, rest);
    }
    if let Some(rest) = past_word(tokens, Keyword::PassWord) {
        return alone(LineForm::Pass, rest);
    }
    unled(alloc, tokens)
}

/// This form, where no tokens stand behind it.
pub fn alone(read: LineForm, rest: &[Token]) -> Result<LineForm, PartFault>
    ensures { Gives form result (spec.alone (form read) rest.now) }
{
    match past_end(rest, ListEnd::Line) {
        Some(_) => Ok(read),
        None => Err(refused(read)),
    }
}

/// The fault of tokens that read as a form and are none.
fn refused(read: LineForm) -> PartFault
    ensures { result ≡ NotSpelled }
{
    drop(read);
    PartFault::NotSpelled
}

/// What stands behind `return`.
#[tactic(auto, unfolding(crate::specs::code::FormReading::returned))]
fn returned(alloc: Global, tokens: &[Token]) -> Result<LineForm, PartFault>
    ensures { Gives form result (spec.returned tokens.now) }
{
    if past_end(tokens, ListEnd::Line).is_some() {
        return Ok(LineForm::Return(None));
    }
    if let Some(rest) = past_word(tokens, Keyword::NoneWord) {
        return alone(LineForm::Return(None), rest);
    }
    Ok(LineForm::Return(Some(all_expressions(alloc, tokens)?)))
}

/// A statement that no word leads.
#[tactic(auto, unfolding(crate::specs::code::FormReading::unled))]
fn unled(alloc: Global, tokens: &[Token]) -> Result<LineForm, PartFault>
    ensures { Gives form result (spec.unled tokens.now) }
{
    if let Some((name, rest)) = past_declared(tokens) {
        return declaration(alloc, name, rest);
    }
    match split(tokens) {
        Some((left, kind, right)) => assigned(alloc, left, kind, right),
        None => evaluated(alloc, tokens),
    }
}

/// The name before a colon, and the tokens behind the colon.
#[tactic(auto, unfolding(crate::specs::code::FormReading::past_declared))]
fn past_declared(tokens: &[Token]) -> Option<(&Name, &[Token])>
    ensures { Finds (λ x. (x.0.now, x.1.now)) result (spec.past_declared tokens.now) }
{
    let (name, rest) = past_name(tokens)?;
    let rest = past_symbol(rest, Symbol::Colon)?;
    Some((name, rest))
}

/// A field or an annotated assignment, whose name and colon stand before the tokens.
#[tactic(auto, unfolding(crate::specs::code::FormReading::declaration))]
fn declaration(alloc: Global, name: &Name, tokens: &[Token]) -> Result<LineForm, PartFault>
    ensures { Gives form result (spec.declaration name.now tokens.now) }
{
    let name = name.copy()?;
    let (ty, rest) = type_front(alloc, tokens)?;
    if past_end(rest, ListEnd::Line).is_some() {
        return Ok(LineForm::Field(name, ty));
    }
    let Some(rest) = past_symbol(rest, Symbol::Assign) else {
        return Err(PartFault::NotSpelled);
    };
    let value = all_expressions(alloc, rest)?;
    Ok(LineForm::Annotated(name, ty, value))
}

/// An assignment, from what stands before and behind the token that assigns.
#[tactic(auto, unfolding(crate::specs::code::FormReading::assigned))]
fn assigned(
    alloc: Global,
    left: &[Token],
    kind: Assigning,
    right: &[Token],
) -> Result<LineForm, PartFault>
    ensures { Gives form result (spec.assigned (left.now, kind, right.now)) }
{
    match kind {
        Assigning::Plain => {
            let to = targets(alloc, left)?;
            let value = all_expressions(alloc, right)?;
            Ok(LineForm::Assign(to, value))
        }
        Assigning::By(op) => {
            let to = all_place(alloc, left)?;
            let value = all_expression(alloc, right)?;
            Ok(LineForm::Augmented(to, op, value))
        }
    }
}

/// The expression that all of the tokens are.
fn all_expression(alloc: Global, tokens: &[Token]) -> Result<Expr, PartFault>
    ensures { Gives expression result (spec.all_expression tokens.now) }
{
    let (found, rest) = expression_front(alloc, tokens)?;
    match past_end(rest, ListEnd::Line) {
        Some(_) => Ok(found),
        None => Err(PartFault::NotSpelled),
    }
}

/// A statement that neither assigns nor declares.
#[tactic(auto, unfolding(crate::specs::code::FormReading::evaluated))]
fn evaluated(alloc: Global, tokens: &[Token]) -> Result<LineForm, PartFault>
    ensures { Gives form result (spec.evaluated tokens.now) }
{
    if let Some(name) = module_call(tokens) {
        return Ok(LineForm::ModuleCall(name.copy()?));
    }
    if docstring(tokens).is_some() {
        return Ok(LineForm::Docstring);
    }
    Ok(LineForm::Evaluate(all_expressions(alloc, tokens)?))
}

/// The name before the dot of a module call.
#[tactic(auto, unfolding(crate::specs::code::FormReading::module_call))]
fn module_call(tokens: &[Token]) -> Option<&Name>
    ensures { Finds (λ name. name.now) result (spec.module_call tokens.now) }
{
    let (name, rest) = past_name(tokens)?;
    let rest = past_symbol(rest, Symbol::Dot)?;
    let rest = past_request(rest)?;
    let rest = past_symbol(rest, Symbol::LeftParen)?;
    let rest = past_symbol(rest, Symbol::RightParen)?;
    past_end(rest, ListEnd::Line)?;
    Some(name)
}

/// The tokens behind a word that a module is called with.
#[tactic(auto, unfolding(crate::specs::code::FormReading::past_request))]
fn past_request(tokens: &[Token]) -> Option<&[Token]>
    ensures { Finds (λ rest. rest.now) result (spec.past_request tokens.now) }
{
    match past_soft_word(tokens, "compile") {
        Some(rest) => Some(rest),
        None => past_soft_word(tokens, "check"),
    }
}

/// The tokens behind a string.
#[tactic(auto, unfolding(crate::specs::code::FormReading::past_string))]
fn past_string(tokens: &[Token]) -> Option<&[Token]>
    ensures { Finds (λ rest. rest.now) result (spec.past_string tokens.now) }
{
    match tokens {
        [Token::Text(_), rest @ ..] => Some(rest),
        _ => None,
    }
}

/// No tokens, where all of the tokens are one string.
#[tactic(auto, unfolding(crate::specs::code::FormReading::docstring))]
fn docstring(tokens: &[Token]) -> Option<&[Token]>
    ensures { Finds (λ rest. rest.now) result (spec.docstring tokens.now) }
{
    let rest = past_string(tokens)?;
    past_end(rest, ListEnd::Line)
}
