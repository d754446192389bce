//! What stands before a position of a text.

ghost use Rattle.std.specs.Prelude.{◌≡◌, ◌+◌, ◌<◌, ◌≤◌, ◌^◌, [], ◌∷◌, length, Some, OnOk};
ghost use Rattle.gp_lex.specs.Chars as chars;
ghost use Rattle.gp_lex.specs.Pieces as spec;
ghost use Rattle.gp_lex.specs.Pieces.{line_no, indent_of, with_space, with_tab, new_margin, brackets_behind};

use crate::token::{Symbol, Token};
use gp_base::{LineNo, Stack};
use std::alloc::{AllocError, Global};

/// What a piece of a text is.
#[derive(Drop)]
pub enum PieceKind {
    /// A space between tokens.
    Space,
    /// A tab between tokens.
    Tab,
    /// A comment, from its `#` to before the line end.
    Comment,
    /// A line feed, or a carriage return and a line feed.
    LineEnd,
    /// A token.
    Token(Token),
}

/// A bracket that is open.
#[derive(Clone, Copy)]
pub struct Bracket {
    /// The opening bracket.
    pub symbol: Symbol,
    /// Its physical line.
    pub line: LineNo,
}

/// The blanks that stand before the first token of a logical line.
#[derive(Clone, Copy)]
pub struct Margin {
    /// How many spaces.
    pub spaces: u32,
    /// Whether there is a tab.
    pub tabbed: bool,
}

/// What stands before a position.
#[derive(Drop)]
pub struct Context {
    /// The physical line, counted from 1.
    pub line: u32,
    /// The brackets that are open, the innermost on top.
    pub brackets: Stack<Bracket>,
    /// Where the logical line has no token yet, the blanks on the physical line before the position.
    pub margin: Option<Margin>,
}

// How many line feeds the characters have.
fn line_feeds(text: &[char]) -> usize
    ensures value { result ≡ chars.line_feeds text.now }
    ensures bound { result ≤ length text.now }
{
    text.iter().filter(|c| **c == '\n').count()
}

impl Context {
    /// The start of a text.
    pub fn new(alloc: Global) -> Context
        ensures { result ≡ spec.at_start }
    {
        Context {
            line: 1,
            brackets: Stack::new(alloc),
            margin: Some(Margin {
                spaces: 0,
                tabbed: false,
            }),
        }
    }

    /// The number of spaces before the first token of a logical line.
    pub fn indent(&self) -> u32
        ensures { result ≡ indent_of self.now.margin }
    {
        match self.margin {
            Some(margin) => margin.spaces,
            None => 0,
        }
    }

    /// Goes behind a space.
    pub fn pass_space(&mut self)
        requires { indent_of self.old.margin + 1 < 2 ^ 32 }
        ensures { self.new ≡ record self.old { margin = with_space self.old.margin } }
    {
        if let Some(margin) = self.margin {
            self.margin = Some(Margin {
                spaces: margin.spaces + 1,
                tabbed: margin.tabbed,
            });
        }
    }

    /// Goes behind a tab.
    pub fn pass_tab(&mut self)
        ensures { self.new ≡ record self.old { margin = with_tab self.old.margin } }
    {
        if let Some(margin) = self.margin {
            self.margin = Some(Margin {
                spaces: margin.spaces,
                tabbed: true,
            });
        }
    }

    /// Goes behind a line end.
    pub fn pass_line_end(&mut self)
        requires { self.old.line + 1 < 2 ^ 32 }
        ensures { self.new ≡ record self.old { line = self.old.line + 1; margin = new_margin self.old.brackets self.old.margin } }
    {
        self.line += 1;
        if self.brackets.is_empty() {
            self.margin = Some(Margin {
                spaces: 0,
                tabbed: false,
            });
        }
    }

    // Opens or closes a bracket, where the token is one.
    fn pass_bracket(&mut self, token: &Token) -> Result<(), AllocError>
        ensures { OnOk result (self.new ≡ record self.old { brackets = brackets_behind self.old.line token.now self.old.brackets }) }
    {
        let line = LineNo(self.line);
        match token {
            Token::Symbol(Symbol::LeftParen) => self.brackets.push(Bracket {
                symbol: Symbol::LeftParen,
                line,
            }),
            Token::Symbol(Symbol::LeftBracket) => self.brackets.push(Bracket {
                symbol: Symbol::LeftBracket,
                line,
            }),
            Token::Symbol(Symbol::RightParen | Symbol::RightBracket) => {
                self.brackets.take_back();
                Ok(())
            }
            _ => Ok(()),
        }
    }

    /// Goes behind a token, which these characters spell.
    pub fn pass_token(&mut self, text: &[char], token: &Token) -> Result<(), AllocError>
        requires { self.old.line + length text.now < 2 ^ 32 }
        ensures { OnOk result (self.new ≡ spec.behind self.old text.now (PieceKind.Token token.now)) }
    {
        self.pass_bracket(token)?;
        self.line += line_feeds(text) as u32;
        self.margin = None;
        Ok(())
    }
}
