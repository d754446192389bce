//! The piece at the front of a text.

ghost use Rattle.std.specs.Prelude.{◌≡◌, IsTrue, ◌≤◌, length, true};
ghost use Rattle.gp_base.specs.Stacks.{top_of};
ghost use Rattle.gp_lex.specs.Chars.{is_quote};
ghost use Rattle.gp_lex.specs.Pieces as pieces;
ghost use Rattle.gp_lex.specs.Pieces.{line_no};
ghost use Rattle.gp_lex.specs.code.Reading as spec;
ghost use Rattle.gp_lex.specs.code.Reading.{Finds, Gives};
ghost use Rattle.gp_lex.specs.Tokens.{string_at};

use crate::character::{digit_run, ends_line, is_digit, is_quote, name_run, starts_name};
use crate::context::{Bracket, Context, PieceKind};
use crate::fault::LexFault;
use crate::quoted::{has_backslash, string_at};
use crate::symbol::symbol_at;
use crate::token::{Symbol, Token};
use crate::value::{number_token, text_bytes, word_token};
use gp_base::{LineNo, Stack};
use std::alloc::Global;

// The string that begins with this quote, with the text behind the quote, and the text behind it.
fn string_token(
    alloc: Global,
    line: LineNo,
    quote: char,
    text: &[char],
) -> Result<(Token, &[char]), LexFault>
    ensures { Gives (λ x. (x.0, x.1.now)) result (spec.read_string line quote text.now (string_at quote text.now)) }
{
    match string_at(quote, text) {
        Some((body, rest)) => Ok((Token::Text(text_bytes(alloc, body)?), rest)),
        None => {
            if has_backslash(quote, text) {
                Err(LexFault::BadChar(line))
            } else {
                Err(LexFault::Unclosed(line))
            }
        }
    }
}

// The word at the front, and the text behind it.
fn word_at(alloc: Global, line: LineNo, text: &[char]) -> Result<(Token, &[char]), LexFault>
    ensures { Gives (λ x. (x.0, x.1.now)) result (spec.word_read line text.now) }
{
    let (word, rest) = name_run(text);
    Ok((word_token(alloc, line, word)?, rest))
}

// The number at the front, and the text behind it.
fn number_at(line: LineNo, text: &[char]) -> Result<(Token, &[char]), LexFault>
    ensures { Gives (λ x. (x.0, x.1.now)) result (spec.number_read line text.now) }
{
    let (digits, rest) = digit_run(text);
    Ok((number_token(line, digits, rest)?, rest))
}

// The operator or delimiter at the front, and the text behind it.
fn sign_at(line: LineNo, text: &[char]) -> Result<(Token, &[char]), LexFault>
    ensures { Gives (λ x. (x.0, x.1.now)) result (spec.read_sign line (spec.symbol_at text.now)) }
{
    match symbol_at(text) {
        Some((symbol, rest)) => Ok((Token::Symbol(symbol), rest)),
        None => Err(LexFault::BadChar(line)),
    }
}

// The token at the front, and the text behind it.
#[tactic(auto, unfolding(crate::specs::code::Reading::read_token))]
fn read_token(alloc: Global, line: LineNo, text: &[char]) -> Result<(Token, &[char]), LexFault>
    ensures { Gives (λ x. (x.0, x.1.now)) result (spec.read_token line text.now) }
{
    match text {
        [] => Err(LexFault::BadChar(line)),
        [c, rest @ ..] => {
            if starts_name(*c) {
                word_at(alloc, line, text)
            } else if is_digit(*c) {
                number_at(line, text)
            } else if is_quote(*c) {
                string_token(alloc, line, *c, rest)
            } else {
                sign_at(line, text)
            }
        }
    }
}

// How many characters stand before the line end, or before the end of the text.
fn comment_len(text: &[char]) -> usize
    ensures value { result ≡ pieces.comment_len text.now }
    ensures bound { result ≤ length text.now }
{
    let mut len = 0;
    while len < text.len() && !ends_line(text.split_at(len).1) {
        len += 1;
    }
    len
}

// The line end at the front, and the text behind it.
#[tactic(auto, unfolding(crate::specs::code::Reading::line_end_at))]
fn line_end_at(text: &[char]) -> Option<(PieceKind, &[char])>
    ensures { Finds (λ x. (x.0, x.1.now)) result (spec.line_end_at text.now) }
{
    match text {
        [] => None,
        [c] => {
            if *c == '\n' {
                Some((PieceKind::LineEnd, &text[1..]))
            } else {
                None
            }
        }
        [c, d, ..] => {
            if *c == '\n' {
                Some((PieceKind::LineEnd, &text[1..]))
            } else if *c == '\r' && *d == '\n' {
                Some((PieceKind::LineEnd, &text[2..]))
            } else {
                None
            }
        }
    }
}

// The blank, comment or line end at the front, and the text behind it.
#[tactic(auto, unfolding(crate::specs::code::Reading::gap_at))]
fn gap_at(text: &[char]) -> Option<(PieceKind, &[char])>
    ensures { Finds (λ x. (x.0, x.1.now)) result (spec.gap_at text.now) }
{
    match text {
        [] => None,
        [c, rest @ ..] => {
            if *c == ' ' {
                Some((PieceKind::Space, rest))
            } else if *c == '\t' {
                Some((PieceKind::Tab, rest))
            } else if *c == '#' {
                Some((PieceKind::Comment, rest.split_at(comment_len(rest)).1))
            } else {
                line_end_at(text)
            }
        }
    }
}

// Whether the innermost bracket that is open is a parenthesis.
fn in_paren(brackets: &Stack<Bracket>) -> bool
    ensures { result ≡ pieces.innermost_passes pieces.is_left_paren (top_of brackets.now) }
{
    match brackets.top() {
        Some(bracket) => matches!(bracket.symbol, Symbol::LeftParen),
        None => false,
    }
}

// Whether it is a square bracket.
fn in_bracket(brackets: &Stack<Bracket>) -> bool
    ensures { result ≡ pieces.innermost_passes pieces.is_left_bracket (top_of brackets.now) }
{
    match brackets.top() {
        Some(bracket) => matches!(bracket.symbol, Symbol::LeftBracket),
        None => false,
    }
}

// Whether a token may stand behind these open brackets.
fn fits(token: &Token, brackets: &Stack<Bracket>) -> bool
    ensures { result ≡ pieces.fits token.now brackets.now }
{
    match token {
        Token::Symbol(Symbol::RightParen) => in_paren(brackets),
        Token::Symbol(Symbol::RightBracket) => in_bracket(brackets),
        _ => true,
    }
}

// Whether a tab stands in the indentation of a logical line whose first token comes here.
fn is_tabbed(at: &Context) -> bool
    ensures { result ≡ pieces.is_tabbed at.now.margin }
{
    match at.margin {
        Some(margin) => margin.tabbed,
        None => false,
    }
}

// The token at the front as a piece, and the text behind it.
#[tactic(auto, unfolding(crate::specs::code::Reading::token_piece))]
fn token_piece<'t>(
    alloc: Global,
    at: &Context,
    text: &'t [char],
) -> Result<(PieceKind, &'t [char]), LexFault>
    ensures { Gives (λ x. (x.0, x.1.now)) result (spec.token_piece at.now text.now) }
{
    let line = LineNo(at.line);
    if is_tabbed(at) {
        return Err(LexFault::TabIndent(line));
    }
    let (token, rest) = read_token(alloc, line, text)?;
    if !fits(&token, &at.brackets) {
        return Err(LexFault::BadChar(line));
    }
    Ok((PieceKind::Token(token), rest))
}

/// The piece at the front of a text behind this position, and the text behind the piece; or why nothing can be
/// read there.
#[tactic(auto, unfolding(crate::specs::code::Reading::piece_at))]
pub fn piece_at<'t>(
    alloc: Global,
    at: &Context,
    text: &'t [char],
) -> Result<(PieceKind, &'t [char]), LexFault>
    ensures { Gives (λ x. (x.0, x.1.now)) result (spec.piece_at at.now text.now) }
{
    match gap_at(text) {
        Some((kind, rest)) => Ok((kind, rest)),
        None => token_piece(alloc, at, text),
    }
}
