//! The nodes that walks from a node lead to, and the least node to which one leads back.

ghost use Rattle.std.specs.Prelude.{◌≡◌, ◌⊎◌, ℕ, ◌<◌, true, length, IfOk, OnOk, MatchOption, MatchBool};
ghost use Rattle.walks.specs.Walks.{IsClosed, Walk};
ghost use Rattle.walks.specs.Counts.{is_marked};
ghost use Rattle.walks.specs.Cycles.{IsFirstBack, NoneBack};
ghost use Rattle.walks.specs.code.Reach.{IsReach, HasFollowed};

use crate::components::component_numbers;
use crate::counts::longest_chains;
use crate::levels::first_level;
use gp_base::Sequence;
use std::alloc::{AllocError, Global};

/// The least node from which a walk leads back to it; `None` exactly where there is none. An error is want of memory.
pub fn first_back(alloc: Global, successors: &[Sequence<u64>]) -> Result<Option<u64>, AllocError>
    requires { IsClosed successors.now }
    ensures { IfOk result (λ first. MatchOption first (NoneBack successors.now) (IsFirstBack successors.now)) }
{
    let marks = vec![in alloc; false; successors.len()]?;
    match longest_chains(alloc, successors, &marks)? {
        Some(_counts) => Ok(None),
        None => least_back(alloc, successors),
    }
}

// The same, where there may well be one: levels tell the node, and one search from it confirms it.
fn least_back(alloc: Global, successors: &[Sequence<u64>]) -> Result<Option<u64>, AllocError>
    requires { IsClosed successors.now }
    ensures { IfOk result (λ first. MatchOption first (NoneBack successors.now) (IsFirstBack successors.now)) }
{
    let levels = component_numbers(alloc, successors)?;
    if let Some(node) = first_level(successors, &levels) {
        if leads_back(alloc, successors, node)? {
            return Ok(Some(node));
        }
    }
    least_tried(alloc, successors)
}

// The same by a search from each node: the way out where the levels didn't tell the node.
fn least_tried(alloc: Global, successors: &[Sequence<u64>]) -> Result<Option<u64>, AllocError>
    requires { IsClosed successors.now }
    ensures { IfOk result (λ first. MatchOption first (NoneBack successors.now) (IsFirstBack successors.now)) }
{
    for node in 0..successors.len() as u64 {
        if leads_back(alloc, successors, node)? {
            return Ok(Some(node));
        }
    }
    Ok(None)
}

// Whether a walk leads from a node back to it.
fn leads_back(alloc: Global, successors: &[Sequence<u64>], start: u64) -> Result<bool, AllocError>
    requires closed { IsClosed successors.now }
    requires start_in { start < length successors.now }
    ensures { IfOk result (λ back. MatchBool back (Walk successors.now start start) (Walk successors.now start start → ⊥)) }
{
    let mut reach = Reach::new(alloc, successors, start)?;
    reach.follow(successors, start)?;
    let mut k = 0;
    while k < reach.nodes.len() {
        let node = reach.nodes[k];
        reach.follow(successors, node)?;
        k += 1;
    }
    Ok(reach.reached[start as usize])
}

// The nodes that have been reached from a start: a mark for each node, and a list of those that are marked.
#[derive(Drop)]
struct Reach {
    start: u64,
    reached: Vec<bool>,
    nodes: Vec<u64>,
}

impl Reach {
    // No node has been reached.
    fn new(alloc: Global, successors: &[Sequence<u64>], start: u64) -> Result<Reach, AllocError>
        ensures reach { IfOk result (λ reach. IsReach successors.now start reach.reached.items reach.nodes.items) }
        ensures start { IfOk result (λ reach. reach.start ≡ start) }
    {
        Ok(Reach {
            start,
            reached: vec![in alloc; false; successors.len()]?,
            nodes: Vec::new(alloc),
        })
    }

    // Reaches all nodes to which a node leads that is the start or has been reached.
    fn follow(&mut self, successors: &[Sequence<u64>], node: u64) -> Result<(), AllocError>
        requires closed { IsClosed successors.now }
        requires reach { IsReach successors.now self.old.start self.old.reached.items self.old.nodes.items }
        requires node_in { node < length successors.now }
        requires node_is { (node ≡ self.old.start) ⊎ (is_marked self.old.reached.items node ≡ true) }
        ensures followed { OnOk result (HasFollowed successors.now self.old.start node self.old.reached.items self.new.reached.items self.old.nodes.items self.new.nodes.items) }
        ensures start { self.new.start ≡ self.old.start }
    {
        for next in successors[node as usize].as_slice() {
            if !self.reached[*next as usize] {
                self.reached[*next as usize] = true;
                self.nodes.push(*next)?;
            }
        }
        Ok(())
    }
}
