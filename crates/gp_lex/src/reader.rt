//! The logical lines of a source text.

ghost use Rattle.std.specs.Prelude.{◌≡◌, ◌+◌, ◌<◌, ◌≤◌, ◌^◌, [], ◌++◌, length, chars, string_bytes, IfOk, OnOk};
ghost use Rattle.gp_lex.specs.Chars.{line_feeds};
ghost use Rattle.gp_lex.specs.Pieces.{behind, indent_of, line_no};
ghost use Rattle.gp_lex.specs.Lines as spec;
ghost use Rattle.gp_lex.specs.Lines.{IsLexed, begun_behind, ended_by, finished};
ghost use Rattle.gp_lex.specs.code.Reading as reading;
ghost use Rattle.gp_lex.specs.code.Reading.{Gives};

use crate::context::{Context, PieceKind};
use crate::fault::LexFault;
use crate::line::{Lines, LogicalLine};
use crate::piece::piece_at;
use crate::token::{Token, Tokens};
use gp_base::{LineNo, SOURCE_LIMIT};
use std::alloc::{AllocError, Global};

// The line that has begun, with one token more; a first token gives it its number and its indentation.
fn with_token(
    alloc: Global,
    number: LineNo,
    indent: u32,
    begun: Option<LogicalLine>,
    token: Token,
) -> Result<LogicalLine, AllocError>
    ensures { IfOk result (λ line. line ≡ spec.with_token number indent begun token) }
{
    let mut line = match begun {
        Some(line) => line,
        None => LogicalLine {
            number,
            indent,
            tokens: Tokens::new(alloc),
        },
    };
    line.tokens.push(token)?;
    Ok(line)
}

// Adds the line that has begun.
fn finish(found: &mut Lines, begun: Option<LogicalLine>) -> Result<(), AllocError>
    ensures { OnOk result (found.new ≡ found.old ++ finished begun) }
{
    match begun {
        Some(line) => found.push(line),
        None => Ok(()),
    }
}

// Goes behind a line end, and answers the line that goes on behind it.
fn pass_line_end(
    at: &mut Context,
    begun: Option<LogicalLine>,
    found: &mut Lines,
) -> Result<Option<LogicalLine>, AllocError>
    requires { at.old.line + 1 < 2 ^ 32 }
    ensures at { at.new ≡ behind at.old [] PieceKind.LineEnd }
    ensures begun { IfOk result (λ b. b ≡ begun_behind at.old begun PieceKind.LineEnd) }
    ensures found { OnOk result (found.new ≡ found.old ++ ended_by at.old begun PieceKind.LineEnd) }
{
    at.pass_line_end();
    if at.brackets.top().is_some() {
        return Ok(begun);
    }
    finish(found, begun)?;
    Ok(None)
}

// Goes behind a token, and answers the line that goes on behind it.
fn pass_token(
    alloc: Global,
    at: &mut Context,
    begun: Option<LogicalLine>,
    text: &[char],
    token: Token,
) -> Result<Option<LogicalLine>, AllocError>
    requires { at.old.line + length text.now < 2 ^ 32 }
    ensures at { OnOk result (at.new ≡ behind at.old text.now (PieceKind.Token token)) }
    ensures begun { IfOk result (λ b. b ≡ begun_behind at.old begun (PieceKind.Token token)) }
{
    let number = LineNo(at.line);
    let indent = at.indent();
    at.pass_token(text, &token)?;
    Ok(Some(with_token(alloc, number, indent, begun, token)?))
}

// Goes behind a piece, and answers the line that goes on behind it. Lines that end with it are added.
fn pass(
    alloc: Global,
    at: &mut Context,
    begun: Option<LogicalLine>,
    found: &mut Lines,
    text: &[char],
    kind: PieceKind,
) -> Result<Option<LogicalLine>, AllocError>
    requires line { at.old.line + length text.now + 1 < 2 ^ 32 }
    requires indent { indent_of at.old.margin + 1 < 2 ^ 32 }
    ensures at { OnOk result (at.new ≡ behind at.old text.now kind) }
    ensures begun { IfOk result (λ b. b ≡ begun_behind at.old begun kind) }
    ensures found { OnOk result (found.new ≡ found.old ++ ended_by at.old begun kind) }
{
    match kind {
        PieceKind::Space => {
            at.pass_space();
            Ok(begun)
        }
        PieceKind::Tab => {
            at.pass_tab();
            Ok(begun)
        }
        PieceKind::Comment => Ok(begun),
        PieceKind::LineEnd => pass_line_end(at, begun, found),
        PieceKind::Token(token) => pass_token(alloc, at, begun, text, token),
    }
}

// The lines at the end of the text.
fn at_end(at: &Context, mut found: Lines, begun: Option<LogicalLine>) -> Result<Lines, LexFault>
    ensures { Gives (λ ls. ls) result (reading.with_lines found at.now begun (reading.at_end at.now.brackets)) }
{
    match at.brackets.top() {
        Some(bracket) => Err(LexFault::Unclosed(bracket.line)),
        None => {
            finish(&mut found, begun)?;
            Ok(found)
        }
    }
}

// The lines of characters.
fn lines_of(alloc: Global, text: &[char]) -> Result<Lines, LexFault>
    requires { length text.now ≤ SOURCE_LIMIT }
    ensures { Gives (λ ls. ls) result (reading.lines_of text.now) }
{
    let mut at = Context::new(alloc);
    let mut begun = None;
    let mut found = Lines::new(alloc);
    let mut rest = text;
    for _turn in 0..text.len() {
        if rest.is_empty() {
            return at_end(&at, found, begun);
        }
        let (kind, next) = piece_at(alloc, &at, rest)?;
        let (used, _) = rest.split_at(rest.len() - next.len());
        begun = pass(alloc, &mut at, begun, &mut found, used, kind)?;
        rest = next;
    }
    at_end(&at, found, begun)
}

// The characters of a text.
fn characters(alloc: Global, text: &str) -> Result<Vec<char>, AllocError>
    ensures { IfOk result (λ v. v.items ≡ chars text.now) }
{
    text.chars().collect(alloc)
}

// The characters behind a byte order mark at the start.
fn without_mark(text: &[char]) -> &[char]
    ensures { result.now ≡ spec.without_mark text.now }
{
    match text {
        [c, rest @ ..] => { if *c == '\u{feff}' { rest } else { text } }
        [] => text,
    }
}

// The physical line behind these bytes.
fn line_behind(bytes: &[u8]) -> LineNo
    requires { length bytes.now ≤ SOURCE_LIMIT }
    ensures { result ≡ line_no (line_feeds bytes.now + 1) }
{
    LineNo(bytes.iter().filter(|b| **b == b'\n').count() as u32 + 1)
}

/// The logical lines of a source text of at most 131,072 bytes, by the lexical rules of Python's language
/// reference in the profile of docs/LANGUAGE.md; or its first fault by position, where bytes that aren't UTF-8
/// come first. Takes time in proportion to the text.
pub fn lines(alloc: Global, text: &[u8]) -> Result<Lines, LexFault>
    requires { length text.now ≤ SOURCE_LIMIT }
    ensures { IsLexed text.now result }
{
    let decoded = match str::from_utf8(text) {
        Ok(decoded) => decoded,
        Err(e) => {
            return Err(LexFault::NotUtf8(line_behind(&text[..e.valid_up_to()])));
        }
    };
    let characters = characters(alloc, decoded)?;
    lines_of(alloc, without_mark(characters.as_slice()))
}
