//! Blocks that end.

ghost use Rattle.std.specs.Prelude.{◌≡◌, ◌++◌, [], ◌∷◌, map, OnOk, IfOk};
ghost use Rattle.gp_tree.specs.Statement as tree;
ghost use Rattle.gp_tree.specs.Statement.{statement};
ghost use Rattle.gp_parse.specs.code.NestingMachine as spec;
ghost use Rattle.gp_parse.specs.code.NestingViews.{opening_of, branch_of, frame_of};

use crate::open_blocks::{Branch, Frame, Header, Opening};
use gp_base::Stack;
use gp_tree::{Block, Stmt};
use std::alloc::{AllocError, Global};

/// Takes the branches of an `if` off, and gives them with their last other branch, as statements of the block
/// around them. Without a branch these are the statements of the other branch.
fn settled(alloc: Global, chain: &mut Stack<Branch>, other: Block) -> Result<Block, AllocError>
    ensures made { IfOk result (λ made. map statement made.items ≡ spec.settled (map branch_of chain.old) (map statement other.items)) }
    ensures empty { OnOk result (chain.new ≡ []) }
{
    let mut block = other;
    'branches: while let Some(branch) = chain.pop() {
        let statement = Stmt::If(branch.line, branch.test, branch.block, block);
        block = Vec::new(alloc);
        block.push(statement)?;
    }
    Ok(block)
}

/// Puts statements behind a block.
fn append(block: &mut Block, more: Block) -> Result<(), AllocError>
    ensures { OnOk result (map statement block.new.items ≡ map statement block.old.items ++ map statement more.items) }
{
    for statement in more {
        block.push(statement)?;
    }
    Ok(())
}

/// Ends the last `if` of a block with this last other branch.
pub fn settle(alloc: Global, frame: &mut Frame, other: Block) -> Result<(), AllocError>
    ensures { OnOk result (frame_of frame.new ≡ spec.with_done (frame_of frame.old) ((frame_of frame.old).done ++ spec.settled (frame_of frame.old).chain (map statement other.items))) }
{
    let block = settled(alloc, &mut frame.chain, other)?;
    append(&mut frame.done, block)
}

/// Adds a statement to a block.
pub fn add(frame: &mut Frame, statement: Stmt) -> Result<(), AllocError>
    ensures { OnOk result (frame_of frame.new ≡ record { opening = opening_of frame.old.opening; indent = frame.old.indent; done = map tree.statement frame.old.done.items ++ tree.statement statement ∷ []; chain = map branch_of frame.old.chain; reached = frame.old.reached }) }
{
    frame.done.push(statement)?;
    Ok(())
}

/// Adds a branch, whose block has this level, to the last `if` of a block.
fn add_branch(frame: &mut Frame, level: u32, branch: Branch) -> Result<(), AllocError>
    ensures { OnOk result (frame_of frame.new ≡ record { opening = opening_of frame.old.opening; indent = frame.old.indent; done = map statement frame.old.done.items; chain = branch_of branch ∷ map branch_of frame.old.chain; reached = level }) }
{
    frame.reached = level;
    frame.chain.push(branch)
}

/// Gives the statements of a block that ends to its header, in the block around it.
pub fn put(
    alloc: Global,
    opening: Opening,
    block: Block,
    around: &mut Frame,
) -> Result<(), AllocError>
    ensures { OnOk result (frame_of around.new ≡ spec.put (opening_of opening) (map statement block.items) (frame_of around.old)) }
{
    let level = opening.level;
    match opening.header {
        // The body of a function stands in no other block.
        Header::Function => Ok(()),
        Header::Branch(line, test) => add_branch(around, level, Branch { line, test, block }),
        Header::Other => settle(alloc, around, block),
        Header::While(line, test) => add(around, Stmt::While(line, test, block)),
        Header::For(line, name, count) => add(around, Stmt::For(line, name, count, block)),
    }
}

/// What a block that ends gives: how it was begun, and its statements.
pub fn ended(alloc: Global, frame: Frame) -> Result<(Opening, Block), AllocError>
    ensures { IfOk result (λ made. (opening_of made.0 ≡ opening_of frame.opening)
        × (map statement made.1.items ≡ spec.block_of (frame_of frame))) }
{
    let Frame {
        opening,
        mut done,
        mut chain,
        ..
    } = frame;
    let rest = settled(alloc, &mut chain, Vec::new(alloc))?;
    append(&mut done, rest)?;
    Ok((opening, done))
}

/// Gives a block that ends to its header, in the block around it.
pub fn close(alloc: Global, frame: Frame, around: &mut Frame) -> Result<(), AllocError>
    ensures { OnOk result (frame_of around.new ≡ spec.put (opening_of frame.opening) (spec.block_of (frame_of frame)) (frame_of around.old)) }
{
    let (opening, block) = ended(alloc, frame)?;
    put(alloc, opening, block, around)
}
