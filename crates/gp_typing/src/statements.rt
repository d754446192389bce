//! The types of statements and blocks.

ghost use Rattle.std.specs.Prelude.{◌≡◌, IfOk, OnOk, Ok, Some, None, option_map};
ghost use Rattle.gp_tree.specs.Expression.{expression, maybe_expression};
ghost use Rattle.gp_tree.specs.Statement.{statement, statements};
ghost use Rattle.gp_tree.specs.Statement as stmt;
ghost use Rattle.gp_tree.specs.TypeExpression.{type_expression};
ghost use Rattle.gp_types.specs.Types as types;
ghost use Rattle.gp_types.specs.View.{ty_view};
ghost use Rattle.gp_typing.specs.Checks.{Answers};
ghost use Rattle.gp_typing.specs.Statements as spec;
ghost use Rattle.gp_typing.specs.code.StatementView.{block_view, statement_view, frame_view, known_for, value_in, statement_in, block_in};
ghost use Rattle.gp_typing.specs.code.Compound.{if_in, while_in, for_in, next_in};
ghost use Rattle.gp_typing.specs.code.ExpressionView.{value_view};
ghost use Rattle.gp_locals.specs.Environment as env;
ghost use Rattle.gp_typing.specs.code.Pieces.{tested, counted, named, written, put_written, ended_annotated, ended_if, ended_while, ended_for, ended_next, append_statements};
ghost use Rattle.gp_typing.specs.Typed as typed;
ghost use Rattle.gp_typing.specs.Typed.{behind, no_statements, with_statement};
ghost use Rattle.gp_typing.specs.View.{expression_view, statement_kind_view, statements_view};

use crate::assignments::{assign_name, assign_targets};
use crate::ends::{
    BlockTyping, Ends, StatementTyping, after_while, after_within, comes_back, goes_on, into_loop,
    into_parts, join_reached, one_of,
};
use crate::fault::TypeFault;
use crate::frame::{Frame, expr_in, value_in};
use crate::operators::{is_bool_value, is_int_value};
use crate::typed::{TypedExpr, TypedStmt, TypedStmtKind, TypedStmts};
use crate::value::{Value, into_expr};
use gp_base::{LineNo, Name};
use gp_locals::{Environment, UsableNames};
use gp_tree::{Expr, Stmt, Targets, TypeExpr};
use gp_types::{Ty, same_type};
use std::alloc::{AllocError, Global};

/// A block, from what is usable before it, where a path leads there. A statement that no path reaches is `Unreachable`.
#[cycle(statements)]
pub fn check_block(
    alloc: Global,
    block: &[Stmt],
    frame: &Frame<'_>,
    start: Option<Environment>,
) -> Result<BlockTyping, TypeFault>
    ensures { Answers block_view result (block_in frame.now start (statements block.now)) }
{
    let mut typed = BlockTyping {
        stmts: Vec::new(alloc),
        ends: goes_on(start),
    };
    for stmt in block {
        typed = check_next(alloc, stmt, frame, typed)?;
    }
    Ok(typed)
}

// The block with one more statement behind it.
#[cycle(statements)]
fn check_next(
    alloc: Global,
    stmt: &Stmt,
    frame: &Frame<'_>,
    block: BlockTyping,
) -> Result<BlockTyping, TypeFault>
    ensures { Answers block_view result (next_in frame.now (block_view block) (statement stmt.now)) }
{
    let line = line_of(stmt);
    let BlockTyping { stmts, ends } = block;
    let Ends {
        next,
        breaks,
        continues,
    } = ends;
    let Some(mut environment) = next else {
        return Err(TypeFault::Unreachable(line));
    };
    let before = environment.usable(alloc, frame.names)?;
    let statement = check_statement(alloc, stmt, frame, environment)?;
    let ends = Ends {
        next: None,
        breaks,
        continues,
    };
    add_statement(alloc, line, BlockTyping { stmts, ends }, before, statement)
}

// The block with this statement behind it, where the types of the usable names there are within the limit.
fn add_statement(
    alloc: Global,
    line: LineNo,
    block: BlockTyping,
    before: UsableNames,
    typed: StatementTyping,
) -> Result<BlockTyping, TypeFault>
    ensures { Answers block_view result (ended_next line (block_view block) before (statement_view typed)) }
{
    let StatementTyping { kind, ends } = typed;
    let BlockTyping {
        mut stmts,
        ends: so_far,
    } = block;
    append_statement(&mut stmts, before, kind)?;
    let ends = after_within(alloc, line, so_far, ends)?;
    Ok(BlockTyping { stmts, ends })
}

#[tactic(auto, using(crate::proofs::BlockViews::statements_view_last))]
fn append_statement(
    stmts: &mut TypedStmts,
    before: UsableNames,
    kind: TypedStmtKind,
) -> Result<(), AllocError>
    ensures { OnOk result (statements_view stmts.new.items
        ≡ append_statements (statements_view stmts.old.items) (with_statement (behind before (statement_kind_view kind)) no_statements)) }
{
    stmts.push(TypedStmt { before, kind })?;
    Ok(())
}

// The line of a statement.
fn line_of(stmt: &Stmt) -> LineNo
    ensures { result ≡ spec.line_of (statement stmt.now) }
{
    match stmt {
        Stmt::Assign(line, _, _)
        | Stmt::Annotated(line, _, _, _)
        | Stmt::Evaluate(line, _)
        | Stmt::Return(line, _)
        | Stmt::If(line, _, _, _)
        | Stmt::While(line, _, _)
        | Stmt::For(line, _, _, _)
        | Stmt::Break(line)
        | Stmt::Continue(line)
        | Stmt::Pass(line) => *line,
    }
}

// A statement, in the environment before it.
#[cycle(statements)]
fn check_statement(
    alloc: Global,
    stmt: &Stmt,
    frame: &Frame<'_>,
    environment: Environment,
) -> Result<StatementTyping, TypeFault>
    ensures { Answers statement_view result (statement_in frame.now environment (statement stmt.now)) }
{
    match stmt {
        Stmt::Assign(line, targets, value) => {
            check_assign(alloc, frame, environment, *line, targets, value)
        }
        Stmt::Annotated(line, name, written, value) => {
            check_annotated(alloc, frame, environment, *line, name, written, value)
        }
        Stmt::Evaluate(line, value) => check_evaluate(alloc, frame, environment, *line, value),
        Stmt::Return(line, value) => check_return(alloc, frame, &environment, *line, value),
        Stmt::If(line, test, body, other) => {
            check_if(alloc, frame, environment, *line, test, body, other)
        }
        Stmt::While(line, test, body) => check_while(alloc, frame, environment, *line, test, body),
        Stmt::For(line, name, count, body) => {
            check_for(alloc, frame, environment, *line, name, count, body)
        }
        Stmt::Break(line) => Ok(check_break(*line, environment)),
        Stmt::Continue(line) => Ok(check_continue(*line, environment)),
        Stmt::Pass(line) => Ok(check_pass(*line, environment)),
    }
}

// `if` with its two blocks: the test, then the blocks.
#[cycle(statements)]
fn check_if(
    alloc: Global,
    frame: &Frame<'_>,
    environment: Environment,
    line: LineNo,
    test: &Expr,
    body: &[Stmt],
    other: &[Stmt],
) -> Result<StatementTyping, TypeFault>
    ensures { Answers statement_view result
        (if_in frame.now environment line (expression test.now) (statements body.now) (statements other.now)) }
{
    let test = check_test(alloc, frame, &environment, line, test)?;
    let inside = environment.copy(alloc)?;
    let body = check_block(alloc, body, frame, Some(inside))?;
    let other = check_block(alloc, other, frame, Some(environment))?;
    end_if(alloc, line, test, body, other)
}

// `while`: the test, then the body.
#[cycle(statements)]
fn check_while(
    alloc: Global,
    frame: &Frame<'_>,
    environment: Environment,
    line: LineNo,
    test: &Expr,
    body: &[Stmt],
) -> Result<StatementTyping, TypeFault>
    ensures { Answers statement_view result
        (while_in frame.now environment line (expression test.now) (statements body.now)) }
{
    let typed = check_test(alloc, frame, &environment, line, test)?;
    let inside = environment.copy(alloc)?;
    let body = check_block(alloc, body, frame, Some(inside))?;
    end_while(alloc, line, test, typed, environment, body)
}

// `for`: the count, then the name, then the body.
#[cycle(statements)]
fn check_for(
    alloc: Global,
    frame: &Frame<'_>,
    environment: Environment,
    line: LineNo,
    name: &Name,
    count: &Expr,
    body: &[Stmt],
) -> Result<StatementTyping, TypeFault>
    ensures { Answers statement_view result
        (for_in frame.now environment line name.now (expression count.now) (statements body.now)) }
{
    let count = check_count(alloc, frame, &environment, line, count)?;
    let inside = check_counting(alloc, frame, &environment, line, name)?;
    let body = check_block(alloc, body, frame, Some(inside))?;
    end_for(alloc, line, name, count, environment, body)
}

// `targets = value`: the value, then the targets.
fn check_assign(
    alloc: Global,
    frame: &Frame<'_>,
    mut environment: Environment,
    line: LineNo,
    targets: &Targets,
    value: &Expr,
) -> Result<StatementTyping, TypeFault>
    ensures { Answers statement_view result
        (statement_in frame.now environment (stmt.assign line targets.now (expression value.now))) }
{
    let value = value_in(alloc, frame, &environment, line, value)?;
    put_targets(alloc, frame, &mut environment, line, targets, &value)?;
    let targets = targets.copy(alloc)?;
    Ok(StatementTyping {
        kind: TypedStmtKind::Assign(line, targets, into_expr(value)),
        ends: goes_on(Some(environment)),
    })
}

// The targets take the type of the value.
fn put_targets(
    alloc: Global,
    frame: &Frame<'_>,
    environment: &mut Environment,
    line: LineNo,
    targets: &Targets,
    value: &Value,
) -> Result<(), TypeFault>
    ensures { Answers (λ _. environment.new) result
        (spec.assigned (known_for frame.now) (frame_view frame.now) environment.old line targets.now (ty_view value.now.ty)) }
{
    assign_targets(alloc, frame, environment, line, targets, &value.ty)
}

// `name: type = value`: the value, the written type, then the name.
fn check_annotated(
    alloc: Global,
    frame: &Frame<'_>,
    mut environment: Environment,
    line: LineNo,
    name: &Name,
    written: &TypeExpr,
    value: &Expr,
) -> Result<StatementTyping, TypeFault>
    ensures { Answers statement_view result
        (ended_annotated (known_for frame.now) (frame_view frame.now) environment line name.now (type_expression written.now)
        (value_in frame.now environment line (expression value.now))) }
{
    let value = value_in(alloc, frame, &environment, line, value)?;
    put_annotated(frame, &mut environment, line, name, &value)?;
    let kind = annotated(alloc, line, name, written, value)?;
    Ok(StatementTyping {
        kind,
        ends: goes_on(Some(environment)),
    })
}

// The name takes the type of the value, which is the type that is written on this line.
fn put_annotated(
    frame: &Frame<'_>,
    environment: &mut Environment,
    line: LineNo,
    name: &Name,
    value: &Value,
) -> Result<(), TypeFault>
    ensures { Answers (λ _. environment.new) result
        (put_written (known_for frame.now) (frame_view frame.now) environment.old line name.now (ty_view value.now.ty)) }
{
    check_written(frame, line, &value.ty)?;
    assign_name(frame, environment, line, name.as_str(), value.ty.copy()?)
}

fn annotated(
    alloc: Global,
    line: LineNo,
    name: &Name,
    written: &TypeExpr,
    value: Value,
) -> Result<TypedStmtKind, AllocError>
    ensures { IfOk result (λ made. statement_kind_view made
        ≡ typed.annotated line name.now (type_expression written.now) (value_view value).tree) }
{
    let name = name.copy()?;
    let written = written.copy()?;
    Ok(TypedStmtKind::Annotated(line, name, written, into_expr(value)))
}

// The type that is written on this line is this one.
fn check_written(frame: &Frame<'_>, line: LineNo, ty: &Ty) -> Result<(), TypeFault>
    ensures { Answers (λ _. tt) result (written (known_for frame.now) line (ty_view ty.now)) }
{
    match frame.scope.annotated(line) {
        Some(written) if same_type(written, ty) => Ok(()),
        _ => Err(TypeFault::Mismatch(line)),
    }
}

// An expression alone, which may answer nothing.
fn check_evaluate(
    alloc: Global,
    frame: &Frame<'_>,
    environment: Environment,
    line: LineNo,
    value: &Expr,
) -> Result<StatementTyping, TypeFault>
    ensures { Answers statement_view result
        (statement_in frame.now environment (stmt.evaluate line (expression value.now))) }
{
    let value = expr_in(alloc, frame, &environment, line, value)?;
    Ok(StatementTyping {
        kind: TypedStmtKind::Evaluate(line, value),
        ends: goes_on(Some(environment)),
    })
}

// `return`, with its value where there is one.
fn check_return(
    alloc: Global,
    frame: &Frame<'_>,
    environment: &Environment,
    line: LineNo,
    value: &Option<Expr>,
) -> Result<StatementTyping, TypeFault>
    ensures { Answers statement_view result
        (statement_in frame.now environment.now (stmt.return_value line (maybe_expression value.now))) }
{
    let kind = match value {
        None => {
            if frame.signature.result.is_some() {
                return Err(TypeFault::Mismatch(line));
            }
            TypedStmtKind::Return(line, None)
        }
        Some(value) => {
            let value = value_in(alloc, frame, environment, line, value)?;
            if !is_result(&frame.signature.result, &value) {
                return Err(TypeFault::Mismatch(line));
            }
            TypedStmtKind::Return(line, Some(into_expr(value)))
        }
    };
    Ok(StatementTyping {
        kind,
        ends: goes_on(None),
    })
}

// Whether a function with this result may return this value.
fn is_result(result_ty: &Option<Ty>, value: &Value) -> bool
    ensures { result ≡ spec.is_result (option_map ty_view result_ty.now) (ty_view value.now.ty) }
{
    match result_ty {
        None => false,
        Some(result_ty) => same_type(result_ty, &value.ty),
    }
}

// A test: a truth value.
fn check_test(
    alloc: Global,
    frame: &Frame<'_>,
    environment: &Environment,
    line: LineNo,
    test: &Expr,
) -> Result<TypedExpr, TypeFault>
    ensures { Answers expression_view result (tested line (value_in frame.now environment.now line (expression test.now))) }
{
    let test = value_in(alloc, frame, environment, line, test)?;
    if !is_bool_value(&test) {
        return Err(TypeFault::Mismatch(line));
    }
    Ok(into_expr(test))
}

// A count: a whole number.
fn check_count(
    alloc: Global,
    frame: &Frame<'_>,
    environment: &Environment,
    line: LineNo,
    count: &Expr,
) -> Result<TypedExpr, TypeFault>
    ensures { Answers expression_view result (counted line (value_in frame.now environment.now line (expression count.now))) }
{
    let count = value_in(alloc, frame, environment, line, count)?;
    if !is_int_value(&count) {
        return Err(TypeFault::Mismatch(line));
    }
    Ok(into_expr(count))
}

// The environment in the body of a `for` loop.
fn check_counting(
    alloc: Global,
    frame: &Frame<'_>,
    environment: &Environment,
    line: LineNo,
    name: &Name,
) -> Result<Environment, TypeFault>
    ensures { Answers (λ inside. inside) result (named (frame_view frame.now) environment.now line name.now types.Int) }
{
    let mut inside = environment.copy(alloc)?;
    assign_name(frame, &mut inside, line, name.as_str(), Ty::Int)?;
    Ok(inside)
}

// `break`.
fn check_break(line: LineNo, environment: Environment) -> StatementTyping
    ensures { Ok (statement_view result) ≡ spec.typed_as (typed.break_loop line) (record { next = None; breaks = Some environment; continues = None }) }
{
    StatementTyping {
        kind: TypedStmtKind::Break(line),
        ends: Ends {
            next: None,
            breaks: Some(environment),
            continues: None,
        },
    }
}

// `continue`.
fn check_continue(line: LineNo, environment: Environment) -> StatementTyping
    ensures { Ok (statement_view result) ≡ spec.typed_as (typed.continue_loop line) (record { next = None; breaks = None; continues = Some environment }) }
{
    StatementTyping {
        kind: TypedStmtKind::Continue(line),
        ends: Ends {
            next: None,
            breaks: None,
            continues: Some(environment),
        },
    }
}

// `pass`.
fn check_pass(line: LineNo, environment: Environment) -> StatementTyping
    ensures { Ok (statement_view result) ≡ spec.typed_as (typed.pass line) (spec.goes_on (Some environment)) }
{
    StatementTyping {
        kind: TypedStmtKind::Pass(line),
        ends: goes_on(Some(environment)),
    }
}

// `if` with its test and its blocks.
fn end_if(
    alloc: Global,
    line: LineNo,
    test: TypedExpr,
    body: BlockTyping,
    other: BlockTyping,
) -> Result<StatementTyping, TypeFault>
    ensures { Answers statement_view result (ended_if line (expression_view test) (block_view body) (block_view other)) }
{
    let (body, ends) = into_parts(body);
    let (other, other_ends) = into_parts(other);
    let ends = one_of(alloc, ends, other_ends)?;
    Ok(StatementTyping {
        kind: TypedStmtKind::If(line, test, body, other),
        ends,
    })
}

// `while` with its test, the environment at its head and its body.
fn end_while(
    alloc: Global,
    line: LineNo,
    written: &Expr,
    test: TypedExpr,
    head: Environment,
    body: BlockTyping,
) -> Result<StatementTyping, TypeFault>
    ensures { Answers statement_view result
        (ended_while line (expression written.now) (expression_view test) head (block_view body)) }
{
    if !comes_back(&head, &body) {
        return Err(TypeFault::LoopChangesType(line));
    }
    Ok(while_ended(alloc, line, written, test, head, body)?)
}

fn while_ended(
    alloc: Global,
    line: LineNo,
    written: &Expr,
    test: TypedExpr,
    head: Environment,
    body: BlockTyping,
) -> Result<StatementTyping, AllocError>
    ensures { IfOk result (λ made. Ok (statement_view made)
        ≡ spec.typed_as (typed.while_loop line (expression_view test) (spec.block_of (block_view body)))
        (spec.goes_on (spec.after_while (expression written.now) head (block_view body).ends.breaks))) }
{
    let (block, breaks) = into_loop(body);
    let next = after_while(alloc, written, head, breaks)?;
    Ok(StatementTyping {
        kind: TypedStmtKind::While(line, test, block),
        ends: goes_on(next),
    })
}

// `for` with its name, its count, the environment at its head and its body.
fn end_for(
    alloc: Global,
    line: LineNo,
    name: &Name,
    count: TypedExpr,
    head: Environment,
    body: BlockTyping,
) -> Result<StatementTyping, TypeFault>
    ensures { Answers statement_view result
        (ended_for line name.now (expression_view count) head (block_view body)) }
{
    if !comes_back(&head, &body) {
        return Err(TypeFault::LoopChangesType(line));
    }
    Ok(for_ended(alloc, line, name, count, head, body)?)
}

fn for_ended(
    alloc: Global,
    line: LineNo,
    name: &Name,
    count: TypedExpr,
    head: Environment,
    body: BlockTyping,
) -> Result<StatementTyping, AllocError>
    ensures { IfOk result (λ made. Ok (statement_view made)
        ≡ spec.typed_as (typed.for_loop line name.now (expression_view count) (spec.block_of (block_view body)))
        (spec.goes_on (env.join_reached (Some head) (block_view body).ends.breaks))) }
{
    let name = name.copy()?;
    let (block, breaks) = into_loop(body);
    let next = join_reached(alloc, Some(head), breaks)?;
    Ok(StatementTyping {
        kind: TypedStmtKind::For(line, name, count, block),
        ends: goes_on(next),
    })
}
