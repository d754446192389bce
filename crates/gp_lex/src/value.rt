//! The token that a lexeme is.

ghost use Rattle.std.specs.Prelude.{◌≡◌, ◌-◌, string_bytes, ◌<◌, ◌^◌, ◌==◌, IfOk, MatchOption, pos, encode_utf8_all};
ghost use Rattle.std.specs.List.{list_all};
ghost use Rattle.unicode_normalization.specs.Forms.{Nfkc, is_in_form};
ghost use Rattle.gp_lex.specs.Tokens as spec;
ghost use Rattle.gp_lex.specs.code.Reading.{Gives};

use crate::character::continues_name;
use crate::fault::LexFault;
use crate::token::{Keyword, Token};
use gp_base::{LineNo, Name, TextBytes};
use std::alloc::{AllocError, Global};
use unicode_normalization::{IsNormalized, slice};

// The keyword of this spelling.
fn keyword_of(word: &str) -> Option<Keyword>
    ensures { result ≡ spec.keyword_of word.now }
{
    match word {
        "False" => Some(Keyword::FalseWord),
        "None" => Some(Keyword::NoneWord),
        "True" => Some(Keyword::TrueWord),
        "and" => Some(Keyword::AndWord),
        "as" => Some(Keyword::AsWord),
        "assert" => Some(Keyword::AssertWord),
        "async" => Some(Keyword::AsyncWord),
        "await" => Some(Keyword::AwaitWord),
        "break" => Some(Keyword::BreakWord),
        "class" => Some(Keyword::ClassWord),
        "continue" => Some(Keyword::ContinueWord),
        "def" => Some(Keyword::DefWord),
        "del" => Some(Keyword::DelWord),
        "elif" => Some(Keyword::ElifWord),
        "else" => Some(Keyword::ElseWord),
        "except" => Some(Keyword::ExceptWord),
        "finally" => Some(Keyword::FinallyWord),
        "for" => Some(Keyword::ForWord),
        "from" => Some(Keyword::FromWord),
        "global" => Some(Keyword::GlobalWord),
        "if" => Some(Keyword::IfWord),
        "import" => Some(Keyword::ImportWord),
        "in" => Some(Keyword::InWord),
        "is" => Some(Keyword::IsWord),
        "lambda" => Some(Keyword::LambdaWord),
        "nonlocal" => Some(Keyword::NonlocalWord),
        "not" => Some(Keyword::NotWord),
        "or" => Some(Keyword::OrWord),
        "pass" => Some(Keyword::PassWord),
        "raise" => Some(Keyword::RaiseWord),
        "return" => Some(Keyword::ReturnWord),
        "try" => Some(Keyword::TryWord),
        "while" => Some(Keyword::WhileWord),
        "with" => Some(Keyword::WithWord),
        "yield" => Some(Keyword::YieldWord),
        _ => None,
    }
}

// The UTF-8 text of characters.
fn utf8(alloc: Global, characters: &[char]) -> Result<String, AllocError>
    ensures { IfOk result (λ s. string_bytes s ≡ encode_utf8_all characters.now) }
{
    characters.iter().copied().collect(alloc)
}

// Whether the characters are their own NFKC form.
fn is_nfkc(alloc: Global, characters: &[char]) -> Result<bool, AllocError>
    ensures { IfOk result (λ b. b ≡ is_in_form Nfkc characters.now) }
{
    match slice::is_nfkc_quick(characters) {
        IsNormalized::Yes => Ok(true),
        IsNormalized::No => Ok(false),
        IsNormalized::Maybe => {
            let mut form = Vec::new(alloc);
            slice::extend_nfkc(&mut form, characters)?;
            Ok(form.as_slice() == characters)
        }
    }
}

/// The token of a word: a keyword, or a name that is its own NFKC form.
pub fn word_token(alloc: Global, line: LineNo, characters: &[char]) -> Result<Token, LexFault>
    ensures { Gives (λ x. x) result (spec.word_token line characters.now (spec.keyword_of (encode_utf8_all characters.now))) }
{
    let text = utf8(alloc, characters)?;
    if let Some(keyword) = keyword_of(&text) {
        return Ok(Token::Keyword(keyword));
    }
    if !is_nfkc(alloc, characters)? {
        return Err(LexFault::NotNfkc(line));
    }
    Ok(Token::Name(Name::new(alloc, &text)?))
}

/// The greatest number of the language.
const GREATEST: u64 = 9_223_372_036_854_775_807;

// Whether there are zeros alone.
fn are_zeros(digits: &[char]) -> bool
    ensures { result ≡ list_all (λ d. d == 48) digits.now }
{
    digits.iter().all(|d| *d == '0')
}

// Whether there are two or more digits with a zero before others.
fn has_leading_zero(digits: &[char]) -> bool
    ensures { result ≡ spec.has_leading_zero digits.now }
{
    match digits {
        [first, rest @ ..] => *first == '0' && !are_zeros(rest),
        [] => false,
    }
}

// The number that the digits spell, where it isn't too great.
fn number_of(digits: &[char]) -> Option<i64>
    ensures { MatchOption result (2 ^ 63 - 1 < spec.number_from 0 digits.now) (λ n. n ≡ pos (spec.number_from 0 digits.now)) }
{
    let mut number = 0;
    for c in digits {
        let digit = (*c as u64).saturating_sub(48);
        if number > (GREATEST - digit) / 10 {
            return None;
        }
        number = number * 10 + digit;
    }
    Some(number as i64)
}

/// The number of digits, before the text behind them.
pub fn number_token(line: LineNo, digits: &[char], rest: &[char]) -> Result<Token, LexFault>
    ensures { Gives (λ x. x) result (spec.token_of line (spec.digits digits.now) rest.now) }
{
    let goes_on = match rest {
        [c, ..] => continues_name(*c),
        [] => false,
    };
    if has_leading_zero(digits) || goes_on {
        return Err(LexFault::BadNumber(line));
    }
    match number_of(digits) {
        Some(number) => Ok(Token::Number(number)),
        None => Err(LexFault::BadNumber(line)),
    }
}

/// The bytes of a string's text.
pub fn text_bytes(alloc: Global, characters: &[char]) -> Result<TextBytes, AllocError>
    ensures { IfOk result (λ t. t ≡ encode_utf8_all characters.now) }
{
    let text = utf8(alloc, characters)?;
    let mut bytes = TextBytes::new(alloc);
    for byte in text.as_bytes() {
        bytes.push(*byte)?;
    }
    Ok(bytes)
}
