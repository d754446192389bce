//! Where the lines so far end.

use crate::open_blocks::{Frame, Opening};
use gp_base::{LineNo, Name, Stack};
use gp_tree::{Function, StructDecl};

/// A function with its open blocks.
#[derive(Drop)]
pub struct OpenFunction {
    /// The function, still without statements.
    pub function: Function,
    /// A block that was begun and has no line yet.
    pub wants: Option<Opening>,
    /// The blocks with lines, the innermost on top.
    pub frames: Stack<Frame>,
}

/// Where the lines so far end, at the top of a program.
#[derive(Drop)]
pub enum Position {
    /// Between items.
    Between,
    /// Behind the decorator of a function, with its line.
    FunctionMarked(LineNo),
    /// Behind the decorator of a class, with its line.
    ClassMarked(LineNo),
    /// Behind a `class` line: its decorator's line, its line and its name.
    ClassBegun(LineNo, LineNo, Name),
    /// In a class's block, with its indentation and the struct with its fields so far.
    InClass(u32, StructDecl),
    /// In a function's body.
    InFunction(Box<OpenFunction>),
}
