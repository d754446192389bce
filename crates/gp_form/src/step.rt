//! Steps of reading tokens from left to right: what stands at the front, and the tokens behind it.

ghost use Rattle.std.specs.Prelude.{◌≡◌};
ghost use Rattle.gp_form.specs.code.Steps as spec;
ghost use Rattle.gp_form.specs.code.Steps.{Finds};

use gp_base::Name;
use gp_lex::{Keyword, Symbol, Token};

/// The tokens behind this symbol, where it is the first.
#[tactic(auto, unfolding(crate::specs::code::Steps::past_symbol))]
pub fn past_symbol(tokens: &[Token], symbol: Symbol) -> Option<&[Token]>
    ensures { Finds (λ rest. rest.now) result (spec.past_symbol symbol tokens.now) }
{
    match tokens {
        [Token::Symbol(first), rest @ ..] if *first == symbol => Some(rest),
        _ => None,
    }
}

/// The tokens behind this keyword, where it is the first.
#[tactic(auto, unfolding(crate::specs::code::Steps::past_word))]
pub fn past_word(tokens: &[Token], word: Keyword) -> Option<&[Token]>
    ensures { Finds (λ rest. rest.now) result (spec.past_word word tokens.now) }
{
    match tokens {
        [Token::Keyword(first), rest @ ..] if *first == word => Some(rest),
        _ => None,
    }
}

/// The name that is the first token, and the tokens behind it.
#[tactic(auto, unfolding(crate::specs::code::Steps::past_name))]
pub fn past_name(tokens: &[Token]) -> Option<(&Name, &[Token])>
    ensures { Finds (λ x. (x.0.now, x.1.now)) result (spec.past_name tokens.now) }
{
    match tokens {
        [Token::Name(name), rest @ ..] => Some((name, rest)),
        _ => None,
    }
}
