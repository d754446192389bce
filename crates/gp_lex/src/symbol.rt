//! The symbol at the front of a text.

ghost use Rattle.std.specs.Prelude.{◌≡◌};
ghost use Rattle.gp_lex.specs.Tokens as spec;
ghost use Rattle.gp_lex.specs.code.Reading as reading;
ghost use Rattle.gp_lex.specs.code.Reading.{Finds};

use crate::token::Symbol;

// The symbol of one character.
fn symbol_of_one(b: char) -> Option<Symbol>
    ensures { result ≡ spec.symbol_of_one b }
{
    match b {
        '(' => Some(Symbol::LeftParen),
        ')' => Some(Symbol::RightParen),
        '[' => Some(Symbol::LeftBracket),
        ']' => Some(Symbol::RightBracket),
        ',' => Some(Symbol::Comma),
        ':' => Some(Symbol::Colon),
        '.' => Some(Symbol::Dot),
        '@' => Some(Symbol::At),
        '=' => Some(Symbol::Assign),
        '<' => Some(Symbol::Less),
        '>' => Some(Symbol::Greater),
        '+' => Some(Symbol::Plus),
        '-' => Some(Symbol::Minus),
        '*' => Some(Symbol::Star),
        '%' => Some(Symbol::Percent),
        _ => None,
    }
}

// The symbol of two characters.
fn symbol_of_two(b: char, c: char) -> Option<Symbol>
    ensures { result ≡ spec.symbol_of_two b c }
{
    match (b, c) {
        ('-', '>') => Some(Symbol::Arrow),
        ('=', '=') => Some(Symbol::Equal),
        ('!', '=') => Some(Symbol::NotEqual),
        ('<', '=') => Some(Symbol::LessEqual),
        ('>', '=') => Some(Symbol::GreaterEqual),
        ('/', '/') => Some(Symbol::FloorDiv),
        ('+', '=') => Some(Symbol::PlusAssign),
        ('-', '=') => Some(Symbol::MinusAssign),
        ('*', '=') => Some(Symbol::StarAssign),
        ('%', '=') => Some(Symbol::PercentAssign),
        _ => None,
    }
}

// The symbol of three characters.
fn symbol_of_three(b: char, c: char, d: char) -> Option<Symbol>
    ensures { result ≡ spec.symbol_of_three b c d }
{
    match (b, c, d) {
        ('/', '/', '=') => Some(Symbol::FloorDivAssign),
        _ => None,
    }
}

/// The longest symbol at the front, and the text behind it.
#[tactic(auto, unfolding(crate::specs::code::Reading::symbol_at))]
pub fn symbol_at(text: &[char]) -> Option<(Symbol, &[char])>
    ensures { Finds (λ x. (x.0, x.1.now)) result (reading.symbol_at text.now) }
{
    match text {
        [] => None,
        [b] => match symbol_of_one(*b) {
            Some(x) => Some((x, &text[1..])),
            None => None,
        },
        [b, c] => match symbol_of_two(*b, *c) {
            Some(x) => Some((x, &text[2..])),
            None => match symbol_of_one(*b) {
                Some(x) => Some((x, &text[1..])),
                None => None,
            },
        },
        [b, c, d, ..] => match symbol_of_three(*b, *c, *d) {
            Some(x) => Some((x, &text[3..])),
            None => match symbol_of_two(*b, *c) {
                Some(x) => Some((x, &text[2..])),
                None => match symbol_of_one(*b) {
                    Some(x) => Some((x, &text[1..])),
                    None => None,
                },
            },
        },
    }
}
