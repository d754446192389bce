//! Statements of one line.

ghost use Rattle.std.specs.Prelude.{◌≡◌, IfOk, map};
ghost use Rattle.gp_tree.specs.Expression as tree;
ghost use Rattle.gp_tree.specs.Form as forms;
ghost use Rattle.gp_tree.specs.Statement as stmts;
ghost use Rattle.gp_tree.specs.Statement.{statement};
ghost use Rattle.gp_tree.specs.declared.place.Targets.TheVariants.{One};
ghost use Rattle.gp_parse.specs.declared.parse_fault.ParseFault.TheVariants.{Nesting};
ghost use Rattle.gp_parse.specs.code.NestingCode as spec;
ghost use Rattle.gp_parse.specs.code.NestingViews.{Follows};

use crate::parse_fault::ParseFault;
use gp_base::LineNo;
use gp_tree::{BinOp, Expr, LineForm, Place, Stmt, Targets};
use std::alloc::{AllocError, Global};

/// The fault of a form that may not stand on this line.
pub fn misplaced(line: LineNo, form: LineForm) -> ParseFault
    ensures { result ≡ Nesting line }
{
    drop(form);
    ParseFault::Nesting(line)
}

/// The statement that a simple form is, on its line.
pub fn simple_statement(
    alloc: Global,
    in_loop: bool,
    line: LineNo,
    form: LineForm,
) -> Result<Stmt, ParseFault>
    ensures { Follows statement result (spec.simple_or_fault in_loop line (forms.form form)) }
{
    match form {
        LineForm::Docstring => Ok(Stmt::Pass(line)),
        LineForm::Assign(targets, value) => Ok(Stmt::Assign(line, targets, value)),
        LineForm::Annotated(name, ty, value) => Ok(Stmt::Annotated(line, name, ty, value)),
        LineForm::Augmented(place, op, value) => Ok(augmented(alloc, line, place, op, value)?),
        LineForm::Evaluate(value) => Ok(Stmt::Evaluate(line, value)),
        LineForm::Return(value) => Ok(Stmt::Return(line, value)),
        LineForm::Break => {
            if in_loop {
                Ok(Stmt::Break(line))
            } else {
                Err(ParseFault::Nesting(line))
            }
        }
        LineForm::Continue => {
            if in_loop {
                Ok(Stmt::Continue(line))
            } else {
                Err(ParseFault::Nesting(line))
            }
        }
        LineForm::Pass => Ok(Stmt::Pass(line)),
        other => Err(misplaced(line, other)),
    }
}

/// The assignment that `place op= value` is.
fn augmented(
    alloc: Global,
    line: LineNo,
    place: Place,
    op: BinOp,
    value: Expr,
) -> Result<Stmt, AllocError>
    ensures { IfOk result (λ made. statement made ≡ stmts.assign line (One place) (tree.binary op (tree.place place) (tree.expression value))) }
{
    let target = place.copy(alloc)?;
    let value = Expr::binary(alloc, op, Expr::Place(place), value)?;
    Ok(Stmt::Assign(line, Targets::One(target), value))
}

/// The statement behind the colon of a header, if there is one.
pub fn statement_behind(
    alloc: Global,
    in_loop: bool,
    line: LineNo,
    behind: Option<Box<LineForm>>,
) -> Result<Option<Stmt>, ParseFault>
    ensures { Follows (spec.maybe_statement statement) result (spec.statement_behind in_loop line (forms.form_behind behind)) }
{
    match behind {
        None => Ok(None),
        Some(form) => Ok(Some(simple_statement(alloc, in_loop, line, Box::into_inner(form))?)),
    }
}
