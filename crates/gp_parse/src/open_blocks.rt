//! The blocks of a function that are open between two lines.

use gp_base::{LineNo, Name, Stack};
use gp_tree::{Block, Expr};

/// The header whose block is open, with what its statement needs beside the block.
#[derive(Drop)]
pub enum Header {
    /// A `def`, whose block is the function's body.
    Function,
    /// An `if` or `elif`, with its line and its test.
    Branch(LineNo, Expr),
    /// An `else`.
    Other,
    /// A `while`, with its line and its test.
    While(LineNo, Expr),
    /// A `for`, with its line, the name that counts, and the count.
    For(LineNo, Name, Expr),
}

/// A block that was begun.
#[derive(Drop)]
pub struct Opening {
    /// Its header.
    pub header: Header,
    /// The header's indentation.
    pub indent: u32,
    /// The block's level: 1 for the body of a function.
    pub level: u32,
    /// Whether it stands inside a loop of its function.
    pub in_loop: bool,
}

/// An `if` or `elif` whose other branch may still come.
#[derive(Drop)]
pub struct Branch {
    /// Its line.
    pub line: LineNo,
    /// Its test.
    pub test: Expr,
    /// Its block.
    pub block: Block,
}

/// A block with its lines so far.
#[derive(Drop)]
pub struct Frame {
    /// How it was begun.
    pub opening: Opening,
    /// The indentation of its lines.
    pub indent: u32,
    /// Its statements so far, but for the `if` of the chain.
    pub done: Block,
    /// The branches of an `if` whose other branch may still come, the last one on top; empty where there is none.
    pub chain: Stack<Branch>,
    /// The level of the last branch's block.
    pub reached: u32,
}
