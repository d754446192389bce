//! Programs and their items.

use crate::function::Function;
use crate::struct_decl::StructDecl;
use gp_base::{LineNo, Name, Names, Sequence};

/// An import line, `from module import names`.
#[derive(Debug, Drop)]
pub struct Import {
    /// The line it stands on.
    pub line: LineNo,
    /// The module's name: names with dots between them, as one text.
    pub module: Name,
    /// The names that it brings in, in order.
    pub names: Names,
}

/// An item of a program. Docstrings, `pass` lines and module calls at the top are none.
#[derive(Drop)]
pub enum Item {
    /// An import line.
    Import(Import),
    /// A struct with its decorator.
    Struct(StructDecl),
    /// A function with its decorator.
    Function(Function),
}

/// A source text's items, in text order.
pub type Program = Sequence<Item>;
