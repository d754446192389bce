//! Soft keywords: names that a form asks for by their text.

ghost use Rattle.std.specs.Prelude.{◌≡◌};
ghost use Rattle.gp_form.specs.code.FormReading as spec;
ghost use Rattle.gp_form.specs.code.Steps.{Finds};

use gp_lex::Token;

/// The tokens behind a name with this text, where it is the first.
#[tactic(auto, unfolding(crate::specs::code::FormReading::past_soft_word))]
pub fn past_soft_word<'t>(tokens: &'t [Token], text: &str) -> Option<&'t [Token]>
    ensures { Finds (λ rest. rest.now) result (spec.past_soft_word text.now tokens.now) }
{
    match tokens {
        [Token::Name(name), rest @ ..] if name.as_str() == text => Some(rest),
        _ => None,
    }
}
