//! Strongly connected components: two nodes are of one component exactly where each leads to the other. One search over
//! all nodes numbers them.
//!
//! The numbers decide nothing for callers, which test them before they rely on them. So no contract says which numbers
//! these are.

ghost use Rattle.std.specs.Prelude.{◌≡◌, length, IfOk};

use gp_base::Sequence;
use std::alloc::{AllocError, Global};

/// The numbers of the components of the nodes, which are the places in the list: from 1 on, in an order in which a
/// component comes after those that it leads to. A successor that is no node is passed over.
///
/// Takes steps in proportion to the nodes and the successors.
pub fn component_numbers(
    alloc: Global,
    successors: &[Sequence<u64>],
) -> Result<Vec<u64>, AllocError>
    ensures { IfOk result (λ numbers. length numbers.items ≡ length successors.now) }
{
    let mut numbering = Numbering::new(alloc, successors.len())?;
    // It ends by itself, long before so many steps.
    for _ in 0..u64::MAX {
        if !numbering.step(successors)? {
            break;
        }
    }
    Ok(numbering.numbers)
}

// A component that isn't complete yet.
#[derive(Clone, Copy)]
struct Component {
    // the place on the path of its first node
    start: usize,
    // how many nodes waited when that one was reached
    waiting: usize,
}

// A search from node to successor. The path goes through the components that aren't complete, from the first to the last,
// and a component leads to the next.
#[derive(Drop)]
struct Numbering {
    path: Vec<u64>,
    components: Vec<Component>,
    // nodes to go to, those that a later component leads to behind those of an earlier one
    waiting: Vec<u64>,
    // of each node 0 until it is reached, and then 1 more than its place on the path
    reached: Vec<usize>,
    // of each node 0 until its component is complete, and then the component's number
    numbers: Vec<u64>,
    // the node to begin with where the path is empty
    next: u64,
    last_number: u64,
}

impl Numbering {
    fn new(alloc: Global, count: usize) -> Result<Numbering, AllocError>
        ensures { IfOk result (λ numbering. length numbering.numbers.items ≡ count) }
    {
        Ok(Numbering {
            path: Vec::new(alloc),
            components: Vec::new(alloc),
            waiting: Vec::new(alloc),
            reached: vec![in alloc; 0; count]?,
            numbers: vec![in alloc; 0; count]?,
            next: 0,
            last_number: 0,
        })
    }

    // Goes to a node that waits, completes the last component, or begins anew; false where all nodes are done.
    fn step(&mut self, successors: &[Sequence<u64>]) -> Result<bool, AllocError>
        ensures { length self.new.numbers.items ≡ length self.old.numbers.items }
    {
        match self.components.last().copied() {
            Some(component) if component.waiting < self.waiting.len() => {
                self.go_on(successors)?;
                Ok(true)
            }
            Some(component) => {
                self.complete(component);
                Ok(true)
            }
            None => self.begin(successors),
        }
    }

    fn begin(&mut self, successors: &[Sequence<u64>]) -> Result<bool, AllocError>
        ensures { length self.new.numbers.items ≡ length self.old.numbers.items }
    {
        let node = self.next;
        if node >= successors.len() as u64 {
            return Ok(false);
        }
        self.next = node + 1;
        if self.reached.get(node as usize).copied() == Some(0) {
            self.enter(successors, node)?;
        }
        Ok(true)
    }

    fn go_on(&mut self, successors: &[Sequence<u64>]) -> Result<(), AllocError>
        ensures { length self.new.numbers.items ≡ length self.old.numbers.items }
    {
        if let Some(node) = self.waiting.pop() {
            let reached = self.reached.get(node as usize).copied().unwrap_or(0);
            if reached == 0 {
                self.enter(successors, node)?;
            } else if self.numbers.get(node as usize).copied() == Some(0) {
                self.close(reached);
            }
        }
        Ok(())
    }

    // Puts a node at the end of the path, as a component of its own, with its successors waiting.
    fn enter(&mut self, successors: &[Sequence<u64>], node: u64) -> Result<(), AllocError>
        ensures { length self.new.numbers.items ≡ length self.old.numbers.items }
    {
        self.components.push(Component {
            start: self.path.len(),
            waiting: self.waiting.len(),
        })?;
        self.path.push(node)?;
        if let Some(reached) = self.reached.get_mut(node as usize) {
            *reached = self.path.len();
        }
        if let Some(nodes) = successors.get(node as usize) {
            for next in nodes.as_slice() {
                if *next < successors.len() as u64 {
                    self.waiting.push(*next)?;
                }
            }
        }
        Ok(())
    }

    // Joins the components from the place on the path on, which is counted from 1: the last of them leads back to it.
    fn close(&mut self, place: usize)
        ensures { length self.new.numbers.items ≡ length self.old.numbers.items }
    {
        for _ in 0..self.components.len() {
            match self.components.last().copied() {
                Some(component) if component.start >= place => {
                    let _ = self.components.pop();
                }
                _ => return,
            }
        }
    }

    // Takes the last component off the path and numbers it.
    fn complete(&mut self, component: Component)
        ensures { length self.new.numbers.items ≡ length self.old.numbers.items }
    {
        let _ = self.components.pop();
        self.last_number = self.last_number.saturating_add(1);
        for _ in component.start..self.path.len() {
            if let Some(node) = self.path.pop() {
                if let Some(number) = self.numbers.get_mut(node as usize) {
                    *number = self.last_number;
                }
            }
        }
    }
}
