//! Lines and tokens, as answers write them.

use gp_lex::{Lines, LogicalLine, Token};
use std::alloc::{AllocError, Global};

// A token: a string in quotes, a keyword and a symbol by the name of its variant.
fn told_token(alloc: Global, token: &Token) -> Result<String, AllocError> {
    match token {
        Token::Name(name) => format!(in alloc; "{}", name.as_str()),
        Token::Keyword(keyword) => format!(in alloc; "{keyword:?}"),
        Token::Number(number) => format!(in alloc; "{number}"),
        Token::Symbol(symbol) => format!(in alloc; "{symbol:?}"),
        Token::Text(text) => match str::from_utf8(text.as_slice()) {
            Ok(text) => format!(in alloc; "{text:?}"),
            Err(_) => format!(in alloc; "{:?}", text.as_slice()),
        },
    }
}

fn told_line(alloc: Global, line: &LogicalLine) -> Result<String, AllocError> {
    let mut told = format!(in alloc; "{}@{}", line.number.0, line.indent)?;
    for token in line.tokens.as_slice() {
        told.push_str(" ")?;
        told.push_str(told_token(alloc, token)?.as_str())?;
    }
    Ok(told)
}

/// Each line with its number, its indentation and its tokens.
pub fn told_lines(alloc: Global, lines: &Lines) -> Result<String, AllocError> {
    let mut told = String::new(alloc);
    for line in lines.as_slice() {
        told.push_str(told_line(alloc, line)?.as_str())?;
        told.push_str("\n")?;
    }
    Ok(told)
}
