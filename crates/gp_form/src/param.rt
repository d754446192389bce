//! Reads parameters.

ghost use Rattle.std.specs.Prelude.{◌≡◌, map};
ghost use Rattle.gp_form.specs.declared.list_end.ListEnd.TheVariants as until;
ghost use Rattle.gp_form.specs.code.FormReading as spec;
ghost use Rattle.gp_form.specs.code.Reading.{past_end};
ghost use Rattle.gp_form.specs.code.Steps.{Gives};
ghost use Rattle.gp_tree.specs.Form.{parameter};

use crate::list_end::{ListEnd, past_end};
use crate::part_fault::PartFault;
use crate::step::{past_name, past_symbol};
use crate::written_type::marked_type_front;
use gp_lex::{Symbol, Token};
use gp_tree::{FunParamExpr, Param, Params};
use std::alloc::Global;

/// The parameter at the front, and the tokens behind it.
#[tactic(auto, unfolding(crate::specs::code::FormReading::param))]
fn param(alloc: Global, tokens: &[Token]) -> Result<(Param, &[Token]), PartFault>
    ensures { Gives (λ x. (parameter x.0, x.1.now)) result (spec.param tokens.now) }
{
    let Some((name, rest)) = past_name(tokens) else {
        return Err(PartFault::NotSpelled);
    };
    let Some(rest) = past_symbol(rest, Symbol::Colon) else {
        return Err(PartFault::NotSpelled);
    };
    let (FunParamExpr { ty, owned }, rest) = marked_type_front(alloc, rest)?;
    let name = name.copy()?;
    Ok((Param { name, ty, owned }, rest))
}

/// Parameters with commas between them, and behind them a closing parenthesis.
pub fn params(alloc: Global, tokens: &[Token]) -> Result<(Params, &[Token]), PartFault>
    ensures { Gives (λ x. (map parameter x.0, x.1.now)) result (spec.listed spec.param (past_end until.Paren) tokens.now) }
{
    let mut found = Params::new(alloc);
    let mut rest = tokens;
    for _turn in 0..tokens.len() + 1 {
        if let Some(after) = past_end(rest, ListEnd::Paren) {
            return Ok((found, after));
        }
        let (item, next) = param(alloc, rest)?;
        found.push(item)?;
        if let Some(after) = past_end(next, ListEnd::Paren) {
            return Ok((found, after));
        }
        let Some(after) = past_symbol(next, Symbol::Comma) else {
            return Err(PartFault::NotSpelled);
        };
        rest = after;
    }
    Err(PartFault::NotSpelled)
}
