//! Syntax trees: expressions, types, statements, functions, structs and programs, and the form of one line.
//!
//! The names and shapes are those of Python's grammar, cut to the profile. The types have public fields and
//! variants, so a tree is made by naming its parts and is read by its fields and by `match`: it is the tree
//! that it was made as. Contracts see it as plain data, without where its parts lie in memory: each family has
//! a definition of that data and a function that shows a tree in memory as it.
#![tactic(auto)]

pub mod copies;
pub mod expr;
pub mod function;
pub mod line_form;
pub mod place;
pub mod program;
pub mod stmt;
pub mod struct_decl;
pub mod type_expr;

pub use copies::copy_text;
pub use expr::{BinOp, Expr, Exprs};
pub use function::{Function, Param, Params};
pub use line_form::LineForm;
pub use place::{Place, Places, Targets};
pub use program::{Import, Item, Program};
pub use stmt::{Block, Stmt};
pub use struct_decl::{FieldDecl, FieldDecls, StructDecl};
pub use type_expr::{FunParamExpr, FunParamExprs, TypeExpr, TypeExprs};
