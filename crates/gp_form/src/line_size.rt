//! The bounds on a line's size.

ghost use Rattle.std.specs.Prelude.{◌≡◌, ◌↔◌, IsTrue};
ghost use Rattle.gp_form.specs.LineSize as spec;

use gp_lex::{Symbol, Token};

/// The most tokens of a line.
pub const TOKEN_LIMIT: usize = 600;

/// The most brackets that are open at once in a line.
pub const BRACKET_LIMIT: u64 = 50;

/// Whether a line of these tokens is above a bound.
pub fn is_too_big(tokens: &[Token]) -> bool
    ensures { IsTrue result ↔ spec.IsTooBig tokens.now }
{
    tokens.len() > TOKEN_LIMIT || opens_too_many(tokens)
}

/// Whether more brackets are open at once than a line may have.
fn opens_too_many(tokens: &[Token]) -> bool
    ensures { IsTrue result ↔ spec.OpensTooMany tokens.now }
{
    let mut opened = 0;
    let mut closed = 0;
    for token in tokens {
        opened += u64::from(is_opening(token));
        closed += u64::from(is_closing(token));
        if opened > closed + BRACKET_LIMIT {
            return true;
        }
    }
    false
}

/// Whether a token is an opening bracket.
fn is_opening(token: &Token) -> bool
    ensures { result ≡ spec.is_opening token.now }
{
    matches!(
        token,
        Token::Symbol(Symbol::LeftParen | Symbol::LeftBracket)
    )
}

/// Whether a token is a closing bracket.
fn is_closing(token: &Token) -> bool
    ensures { result ≡ spec.is_closing token.now }
{
    matches!(
        token,
        Token::Symbol(Symbol::RightParen | Symbol::RightBracket)
    )
}
