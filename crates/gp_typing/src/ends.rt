//! What is usable at the ends of statements and blocks.

ghost use Rattle.std.specs.Prelude.{◌≡◌, IfOk, None, is_some};
ghost use Rattle.gp_tree.specs.Expression.{expression};
ghost use Rattle.gp_locals.specs.Environment as env;
ghost use Rattle.gp_typing.specs.Statements as spec;
ghost use Rattle.gp_typing.specs.code.StatementView.{ends_view, block_view};
ghost use Rattle.gp_typing.specs.Checks.{Answers};
ghost use Rattle.gp_typing.specs.code.Pieces.{kept_within};
ghost use Rattle.gp_typing.specs.View as view;

use crate::fault::TypeFault;
use crate::typed::{TypedBlock, TypedStmtKind, TypedStmts};
use gp_base::LineNo;
use gp_locals::Environment;
use gp_tree::Expr;
use std::alloc::{AllocError, Global};

/// The environments at a statement's or a block's end, at its `break`s and at its `continue`s, each where a path leads
/// there.
#[derive(Drop)]
pub struct Ends {
    /// At its end.
    pub next: Option<Environment>,
    /// What is usable at each of its `break`s.
    pub breaks: Option<Environment>,
    /// What is usable at each of its `continue`s.
    pub continues: Option<Environment>,
}

/// A statement with its types, and its ends.
#[derive(Drop)]
pub struct StatementTyping {
    /// The statement.
    pub kind: TypedStmtKind,
    /// Its ends.
    pub ends: Ends,
}

/// The statements of a block with their types, and the block's ends.
#[derive(Drop)]
pub struct BlockTyping {
    /// The statements in text order.
    pub stmts: TypedStmts,
    /// The block's ends.
    pub ends: Ends,
}

/// Only the end is reached, in this environment where there is one.
pub fn goes_on(next: Option<Environment>) -> Ends
    ensures { ends_view result ≡ spec.goes_on next }
{
    Ends {
        next,
        breaks: None,
        continues: None,
    }
}

/// What is usable where paths join that may not be reached.
pub fn join_reached(
    alloc: Global,
    first: Option<Environment>,
    second: Option<Environment>,
) -> Result<Option<Environment>, AllocError>
    ensures { IfOk result (λ joined. joined ≡ env.join_reached first second) }
{
    let Some(first) = first else {
        return Ok(second);
    };
    let Some(second) = second else {
        return Ok(Some(first));
    };
    Ok(Some(first.join(alloc, &second)?))
}

/// The ends of one block after another.
fn after(alloc: Global, first: Ends, second: Ends) -> Result<Ends, AllocError>
    ensures { IfOk result (λ ends. ends_view ends ≡ spec.after (ends_view first) (ends_view second)) }
{
    let breaks = join_reached(alloc, first.breaks, second.breaks)?;
    let continues = join_reached(alloc, first.continues, second.continues)?;
    Ok(Ends {
        next: second.next,
        breaks,
        continues,
    })
}

/// The ends of one block or another.
pub fn one_of(alloc: Global, first: Ends, second: Ends) -> Result<Ends, AllocError>
    ensures { IfOk result (λ ends. ends_view ends ≡ spec.one_of (ends_view first) (ends_view second)) }
{
    let next = join_reached(alloc, first.next, second.next)?;
    let breaks = join_reached(alloc, first.breaks, second.breaks)?;
    let continues = join_reached(alloc, first.continues, second.continues)?;
    Ok(Ends {
        next,
        breaks,
        continues,
    })
}

// Whether each usable name has the same type there, where that is reached.
fn keeps_reached(environment: &Environment, there: &Option<Environment>) -> bool
    ensures { result ≡ env.keeps_reached environment.now there.now }
{
    match there {
        None => true,
        Some(there) => environment.keeps(there),
    }
}

/// Whether each name that is usable at a loop's head has the same type where its body comes back to it.
pub fn comes_back(environment: &Environment, body: &BlockTyping) -> bool
    ensures { result ≡ spec.comes_back environment.now (block_view body.now).ends }
{
    keeps_reached(environment, &body.ends.next) && keeps_reached(environment, &body.ends.continues)
}

// Whether the types of the usable names have a total size within the limit, where the place is reached.
fn is_within_reached(there: &Option<Environment>) -> bool
    ensures { result ≡ env.is_within there.now }
{
    match there {
        None => true,
        Some(there) => there.is_within(),
    }
}

/// The ends of one block after another, where the types of the usable names at the second's end are within the limit.
pub fn after_within(
    alloc: Global,
    line: LineNo,
    first: Ends,
    second: Ends,
) -> Result<Ends, TypeFault>
    ensures { Answers ends_view result (kept_within line (ends_view first) (ends_view second)) }
{
    if !is_within_reached(&second.next) {
        return Err(TypeFault::TooManyPlaces(line));
    }
    Ok(after(alloc, first, second)?)
}

// The test `True`, which never ends a loop.
fn is_true(test: &Expr) -> bool
    ensures { result ≡ spec.is_true (expression test.now) }
{
    matches!(test, Expr::Bool(true))
}

/// What is usable after a `while` loop: with the test `True` only a `break` leads there.
pub fn after_while(
    alloc: Global,
    test: &Expr,
    head: Environment,
    breaks: Option<Environment>,
) -> Result<Option<Environment>, AllocError>
    ensures { IfOk result (λ next. next
        ≡ spec.after_while (expression test.now) head breaks) }
{
    if is_true(test) {
        return Ok(breaks);
    }
    join_reached(alloc, Some(head), breaks)
}

/// Whether a path leads to the block's end.
pub fn reaches_end(body: &BlockTyping) -> bool
    ensures { result ≡ is_some (block_view body.now).ends.next }
{
    body.ends.next.is_some()
}

/// The block without its ends.
pub fn into_block(body: BlockTyping) -> TypedBlock
    ensures { view.block_view result ≡ spec.block_of (block_view body) }
{
    let end_reached = reaches_end(&body);
    TypedBlock {
        stmts: body.stmts,
        end_reached,
    }
}

/// The block, and its ends.
pub fn into_parts(body: BlockTyping) -> (TypedBlock, Ends)
    ensures block { view.block_view result.0 ≡ spec.block_of (block_view body) }
    ensures ends { ends_view result.1 ≡ (block_view body).ends }
{
    let end_reached = reaches_end(&body);
    let BlockTyping { stmts, ends } = body;
    (TypedBlock { stmts, end_reached }, ends)
}

/// The body of a loop, and what is usable at its `break`s.
pub fn into_loop(body: BlockTyping) -> (TypedBlock, Option<Environment>)
    ensures block { view.block_view result.0 ≡ spec.block_of (block_view body) }
    ensures breaks { result.1 ≡ (block_view body).ends.breaks }
{
    let (block, ends) = into_parts(body);
    (block, ends.breaks)
}
