//! Structs and their fields.

use crate::type_expr::TypeExpr;
use gp_base::{LineNo, Name, Sequence};

/// A field of a struct.
#[derive(Debug, Drop)]
pub struct FieldDecl {
    /// The field's line.
    pub line: LineNo,
    /// The field's name.
    pub name: Name,
    /// Its type, as written.
    pub ty: TypeExpr,
}

/// A list of fields.
pub type FieldDecls = Sequence<FieldDecl>;

/// A class that is marked `@guppy.struct`.
#[derive(Debug, Drop)]
pub struct StructDecl {
    /// The line of its `class`.
    pub line: LineNo,
    /// The line of its decorator.
    pub mark: LineNo,
    /// The struct's name.
    pub name: Name,
    /// Its fields in text order, without its docstrings and `pass` lines.
    pub fields: FieldDecls,
}
