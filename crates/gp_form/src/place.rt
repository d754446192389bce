//! Reads places.

ghost use Rattle.std.specs.Prelude.{◌≡◌, [], length};
ghost use Rattle.gp_form.specs.code.Reading as spec;
ghost use Rattle.gp_form.specs.code.Steps.{Gives};

use crate::part_fault::PartFault;
use crate::step::{past_name, past_symbol};
use gp_base::{Name, Names};
use gp_lex::{Symbol, Token};
use gp_tree::Place;
use std::alloc::Global;

/// The place at the front, and the tokens behind it.
#[tactic(auto, unfolding(crate::specs::code::Reading::place_front))]
pub fn place_front(alloc: Global, tokens: &[Token]) -> Result<(Place, &[Token]), PartFault>
    ensures { Gives (λ x. (x.0, x.1.now)) result (spec.place_front tokens.now) }
{
    let Some((name, rest)) = past_name(tokens) else {
        return Err(PartFault::NotSpelled);
    };
    path_from(alloc, name, rest)
}

/// The place that a name begins, which stands before the tokens.
#[tactic(auto, unfolding(crate::specs::code::Reading::path_from))]
pub fn path_from<'t>(
    alloc: Global,
    name: &Name,
    tokens: &'t [Token],
) -> Result<(Place, &'t [Token]), PartFault>
    ensures { Gives (λ x. (x.0, x.1.now)) result (spec.path_from name.now tokens.now) }
{
    let name = name.copy()?;
    let (fields, rest) = fields_from(alloc, tokens)?;
    Ok((Place { name, fields }, rest))
}

/// Fields behind dots, as long as they come.
fn fields_from(alloc: Global, tokens: &[Token]) -> Result<(Names, &[Token]), PartFault>
    ensures { Gives (λ x. (x.0, x.1.now)) result (spec.fields_from (length tokens.now) [] tokens.now) }
{
    let mut fields = Names::new(alloc);
    let mut rest = tokens;
    for _turn in 0..tokens.len() {
        let Some(after) = past_symbol(rest, Symbol::Dot) else {
            return Ok((fields, rest));
        };
        let Some((field, after)) = past_name(after) else {
            return Err(PartFault::NotSpelled);
        };
        fields.push(field.copy()?)?;
        rest = after;
    }
    Ok((fields, rest))
}
