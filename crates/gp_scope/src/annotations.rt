//! The annotated assignments of a function's body.

ghost use Rattle.std.specs.Prelude.{◌≡◌, ◌++◌, IfOk, OnOk, map};
ghost use Rattle.gp_tree.specs.Statement.{statement, statements};
ghost use Rattle.gp_scope.specs.Annotations as spec;
ghost use Rattle.gp_scope.specs.code.AnnotationView.{annotation};

use gp_base::LineNo;
use gp_tree::{Stmt, TypeExpr};
use std::alloc::{AllocError, Global};

/// An annotated assignment: its line and the type that it writes.
#[derive(Clone, Copy)]
pub struct Annotation<'a> {
    pub line: LineNo,
    pub ty: &'a TypeExpr,
}

/// The annotated assignments of a block and of the blocks in it, in text order.
pub fn annotations<'a>(alloc: Global, block: &'a [Stmt]) -> Result<Vec<Annotation<'a>>, AllocError>
    ensures { IfOk result (λ found. map annotation found.items ≡ spec.annotations (statements block.now)) }
{
    let mut found = Vec::new(alloc);
    add_block(block, &mut found)?;
    Ok(found)
}

#[cycle(add)]
fn add_block<'a>(block: &'a [Stmt], found: &mut Vec<Annotation<'a>>) -> Result<(), AllocError>
    ensures { OnOk result (map annotation found.new.items ≡ map annotation found.old.items ++ spec.annotations (statements block.now)) }
{
    for stmt in block {
        add_statement(stmt, found)?;
    }
    Ok(())
}

#[cycle(add)]
fn add_statement<'a>(stmt: &'a Stmt, found: &mut Vec<Annotation<'a>>) -> Result<(), AllocError>
    ensures { OnOk result (map annotation found.new.items ≡ map annotation found.old.items ++ spec.annotations_in (statement stmt.now)) }
{
    match stmt {
        Stmt::Annotated(line, _, ty, _) => found.push(Annotation { line: *line, ty })?,
        Stmt::If(_, _, body, other) => {
            add_block(body, found)?;
            add_block(other, found)?;
        }
        Stmt::While(_, _, body) | Stmt::For(_, _, _, body) => add_block(body, found)?,
        _ => {}
    }
    Ok(())
}
