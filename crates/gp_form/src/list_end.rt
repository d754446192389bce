//! Where a list of expressions ends.

ghost use Rattle.std.specs.Prelude.{◌≡◌};
ghost use Rattle.gp_form.specs.code.Reading as spec;
ghost use Rattle.gp_form.specs.code.Steps.{Finds};

use crate::step::past_symbol;
use gp_lex::{Symbol, Token};

/// What stands behind the last of some expressions with commas between them.
#[derive(Clone, Copy)]
pub enum ListEnd {
    /// A closing parenthesis.
    Paren,
    /// No token: the line is at its end.
    Line,
}

/// The tokens behind the end, where it stands at the front.
#[tactic(auto, unfolding(crate::specs::code::Reading::past_end))]
pub fn past_end(tokens: &[Token], end: ListEnd) -> Option<&[Token]>
    ensures { Finds (λ rest. rest.now) result (spec.past_end end tokens.now) }
{
    match end {
        ListEnd::Paren => past_symbol(tokens, Symbol::RightParen),
        ListEnd::Line => match tokens {
            [] => Some(tokens),
            [_, ..] => None,
        },
    }
}
