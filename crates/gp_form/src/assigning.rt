//! The tokens that assign.

ghost use Rattle.std.specs.Prelude.{◌≡◌};
ghost use Rattle.gp_form.specs.code.FormReading as spec;
ghost use Rattle.gp_form.specs.code.Steps.{Finds};

use gp_lex::{Symbol, Token};
use gp_tree::BinOp;

/// How a token assigns.
#[derive(Clone, Copy)]
pub enum Assigning {
    /// `=`: the value alone.
    Plain,
    /// `+=` or the like: the operator, between the old value and another.
    By(BinOp),
}

/// How a token assigns; `None` where it doesn't.
fn kind_of(token: &Token) -> Option<Assigning>
    ensures { result ≡ spec.assigning token.now }
{
    let Token::Symbol(symbol) = token else {
        return None;
    };
    match symbol {
        Symbol::Assign => Some(Assigning::Plain),
        Symbol::PlusAssign => Some(Assigning::By(BinOp::Add)),
        Symbol::MinusAssign => Some(Assigning::By(BinOp::Sub)),
        Symbol::StarAssign => Some(Assigning::By(BinOp::Mul)),
        Symbol::FloorDivAssign => Some(Assigning::By(BinOp::FloorDiv)),
        Symbol::PercentAssign => Some(Assigning::By(BinOp::Mod)),
        _ => None,
    }
}

/// The first token that assigns, with the tokens before it and those behind it.
pub fn split(tokens: &[Token]) -> Option<(&[Token], Assigning, &[Token])>
    ensures { Finds (λ x. (x.0.now, x.1, x.2.now)) result (spec.split tokens.now) }
{
    for place in 0..tokens.len() {
        if let Some(kind) = kind_of(&tokens[place]) {
            return Some((&tokens[..place], kind, &tokens[place + 1..]));
        }
    }
    None
}
