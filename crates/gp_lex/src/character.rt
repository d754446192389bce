//! Classes of characters, and the characters of one class at the front of a text.

ghost use Rattle.std.specs.Prelude.{◌≡◌};
ghost use Rattle.gp_lex.specs.Chars as spec;

/// Whether a name may begin with the character.
pub fn starts_name(c: char) -> bool
    ensures { result ≡ spec.starts_name c }
{
    unicode_ident::is_xid_start(c) || c == '_'
}

/// Whether a name may go on with the character.
pub fn continues_name(c: char) -> bool
    ensures { result ≡ spec.continues_name c }
{
    unicode_ident::is_xid_continue(c)
}

/// Whether the character is an ASCII digit.
pub fn is_digit(c: char) -> bool
    ensures { result ≡ spec.is_digit c }
{
    c.is_ascii_digit()
}

/// Whether a string may begin with the character.
pub fn is_quote(c: char) -> bool
    ensures { result ≡ spec.is_quote c }
{
    c == '"' || c == '\''
}

/// Whether the character may stand in a string of one line that begins with this quote.
pub fn is_plain(quote: char, c: char) -> bool
    ensures { result ≡ spec.is_plain quote c }
{
    c != quote && c != '\\' && c != '\n'
}

/// Whether a line ends at the front of the text.
pub fn ends_line(text: &[char]) -> bool
    ensures { result ≡ spec.ends_line text.now }
{
    match text {
        ['\n', ..] | ['\r', '\n', ..] => true,
        _ => false,
    }
}

/// The characters at the front that may continue a name, and those behind them.
#[tactic(auto, unfolding(crate::specs::Chars::run))]
pub fn name_run(text: &[char]) -> (&[char], &[char])
    ensures { (result.0.now, result.1.now) ≡ spec.run spec.continues_name text.now }
{
    let mut len = 0;
    while len < text.len() && continues_name(text[len]) {
        len += 1;
    }
    text.split_at(len)
}

/// The digits at the front, and the text behind them.
#[tactic(auto, unfolding(crate::specs::Chars::run))]
pub fn digit_run(text: &[char]) -> (&[char], &[char])
    ensures { (result.0.now, result.1.now) ≡ spec.run spec.is_digit text.now }
{
    let mut len = 0;
    while len < text.len() && is_digit(text[len]) {
        len += 1;
    }
    text.split_at(len)
}

/// The characters before the closing quote, a backslash or the line end, and the text behind them.
#[tactic(auto, unfolding(crate::specs::Chars::run))]
pub fn plain_run(quote: char, text: &[char]) -> (&[char], &[char])
    ensures { (result.0.now, result.1.now) ≡ spec.run (spec.is_plain quote) text.now }
{
    let mut len = 0;
    while len < text.len() && is_plain(quote, text[len]) {
        len += 1;
    }
    text.split_at(len)
}
