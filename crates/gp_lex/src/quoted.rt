//! The string at the front of a text.

ghost use Rattle.std.specs.Prelude.{◌≡◌, IfSome, ◌+◌, ◌≤◌, length};
ghost use Rattle.gp_lex.specs.Chars.{run, is_plain};
ghost use Rattle.gp_lex.specs.Pieces as pieces;
ghost use Rattle.gp_lex.specs.code.Reading.{Finds};
ghost use Rattle.gp_lex.specs.Tokens as spec;

use crate::character::plain_run;

/// Whether the text begins with this character twice.
pub fn begins_twice(quote: char, text: &[char]) -> bool
    ensures { result ≡ spec.begins_twice quote text.now }
{
    match text {
        [c, d, ..] => *c == quote && *d == quote,
        [_] => false,
        [] => false,
    }
}

// Whether it begins with it three times.
fn begins_thrice(quote: char, text: &[char]) -> bool
    ensures { result ≡ spec.begins_thrice quote text.now }
{
    match text {
        [c, rest @ ..] => *c == quote && begins_twice(quote, rest),
        [] => false,
    }
}

// How many characters stand before the next three quotes, a backslash being passed over together with the
// character behind it.
fn closing(quote: char, text: &[char]) -> Option<usize>
    ensures value { result ≡ spec.closing quote text.now }
    ensures bound { IfSome result (λ n. n + 3 ≤ length text.now) }
{
    let mut len = 0;
    while len + 1 < text.len() {
        let (_, rest) = text.split_at(len);
        if text[len] == '\\' {
            len += 2;
        } else if begins_thrice(quote, rest) {
            return Some(len);
        } else {
            len += 1;
        }
    }
    None
}

// The characters before the three closing quotes, and the text behind these.
fn triple_quoted(quote: char, text: &[char]) -> Option<(&[char], &[char])>
    ensures { Finds (λ x. (x.0.now, x.1.now)) result (spec.triple_quoted text.now (spec.closing quote text.now)) }
{
    match closing(quote, text) {
        Some(len) => Some((text.split_at(len).0, text.split_at(len + 3).1)),
        None => None,
    }
}

// The characters before the closing quote, and the text behind it.
fn single_quoted(quote: char, text: &[char]) -> Option<(&[char], &[char])>
    ensures { let r = run (is_plain quote) text.now in Finds (λ x. (x.0.now, x.1.now)) result (spec.single_quoted quote r.0 r.1) }
{
    let (body, rest) = plain_run(quote, text);
    match rest {
        [c, rest @ ..] => {
            if *c == quote {
                Some((body, rest))
            } else {
                None
            }
        }
        [] => None,
    }
}

/// The string that begins with this quote, with the text behind the quote: the characters between its quotes, and
/// the text behind it. Three equal quotes begin a triple-quoted string.
#[tactic(auto, unfolding(crate::specs::Tokens::string_at))]
pub fn string_at(quote: char, text: &[char]) -> Option<(&[char], &[char])>
    ensures { Finds (λ x. (x.0.now, x.1.now)) result (spec.string_at quote text.now) }
{
    if begins_twice(quote, text) {
        triple_quoted(quote, text.split_at(2).1)
    } else {
        single_quoted(quote, text)
    }
}

/// Whether a string of one line has a backslash before its closing quote.
pub fn has_backslash(quote: char, text: &[char]) -> bool
    ensures { result ≡ pieces.has_backslash quote text.now }
{
    if begins_twice(quote, text) {
        return false;
    }
    match plain_run(quote, text).1 {
        [c, ..] => *c == '\\',
        [] => false,
    }
}
