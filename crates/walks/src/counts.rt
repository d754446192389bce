//! The greatest number of marked nodes on a walk from each node.

ghost use Rattle.std.specs.Prelude.{◌≡◌, ◌⊎◌, ℕ, ◌+◌, ◌-◌, ◌<◌, ◌≤◌, [], ◌∷◌, ◌++◌, length, map, slice_index, slice_set, IfOk, OnOk, MatchBool, MatchOption, IfSome};
ghost use Rattle.walks.specs.Walks.{row, IsClosed};
ghost use Rattle.walks.specs.Counts.{AreCounted};
ghost use Rattle.walks.specs.Cycles.{HasCycle, NoneBack};
ghost use Rattle.walks.specs.code.Search.{IsSearch, IsLast, HasGoneOn, HasRun};

use gp_base::Sequence;
use std::alloc::{AllocError, Global};

/// A list for each node, with the nodes to which it leads. A node is named by its place in the list of lists.
pub type Successors = Vec<Sequence<u64>>;

/// For each node the greatest number of marked nodes on a walk from it, the node itself among them; `None` exactly where a
/// walk leads from a node back to it. There is a mark for each node. An error is want of memory.
pub fn longest_chains(
    alloc: Global,
    successors: &[Sequence<u64>],
    marks: &[bool],
) -> Result<Option<Vec<u64>>, AllocError>
    requires closed { IsClosed successors.now }
    requires marks { length marks.now ≡ length successors.now }
    ensures counts { IfOk result (λ found. IfSome found (λ counts. AreCounted successors.now marks.now counts.items)) }
    ensures exact { IfOk result (λ found. MatchOption found (HasCycle successors.now) (λ _. NoneBack successors.now)) }
{
    let mut search = Search::new(alloc, successors)?;
    for root in 0..successors.len() as u64 {
        if !search.run(successors, marks, root)? {
            return Ok(None);
        }
    }
    Ok(Some(search.counts))
}

// A search through all nodes, along links. Of each node the steps are counted that are left: one to enter it, one for
// each node to which it leads, and one to leave it. The path has the nodes that have been entered and not been left.
#[derive(Drop)]
struct Search {
    steps: Vec<u64>,
    path: Vec<u64>,
    counts: Vec<u64>,
}

impl Search {
    // No step has been taken.
    fn new(alloc: Global, successors: &[Sequence<u64>]) -> Result<Search, AllocError>
        ensures steps { IfOk result (λ search. search.steps.items ≡ map (λ nodes. length nodes + 2) successors.now) }
        ensures path { IfOk result (λ search. search.path.items ≡ []) }
        ensures counts { IfOk result (λ search. search.counts.items ≡ map (λ nodes. 0) successors.now) }
    {
        let mut steps = Vec::new(alloc);
        let mut counts = Vec::new(alloc);
        for nodes in successors {
            steps.push(nodes.len().checked_add(2).ok_or(AllocError)?)?;
            counts.push(0)?;
        }
        Ok(Search {
            steps,
            path: Vec::new(alloc),
            counts,
        })
    }

    // Takes all steps of a node and of those that are reached from it, where the path is empty; says whether no walk was
    // seen that leads from a node back to it.
    fn run(
        &mut self,
        successors: &[Sequence<u64>],
        marks: &[bool],
        root: u64,
    ) -> Result<bool, AllocError>
        requires closed { IsClosed successors.now }
        requires marks { length marks.now ≡ length successors.now }
        requires search { IsSearch successors.now marks.now self.old.steps.items self.old.path.items self.old.counts.items }
        requires begins { self.old.path.items ≡ [] }
        requires root_in { root < length successors.now }
        ensures { IfOk result (λ on. MatchBool on (HasRun successors.now marks.now self.old.steps.items self.new.steps.items self.new.path.items self.new.counts.items root) (HasCycle successors.now)) }
    {
        if self.steps[root as usize] > 0 {
            self.enter(root)?;
        }
        while let Some(node) = self.path.last().copied() {
            if !self.step(successors, marks, node)? {
                return Ok(false);
            }
        }
        Ok(true)
    }

    // Takes a step of the last node of the path; says whether no walk was seen that leads from a node back to it.
    fn step(
        &mut self,
        successors: &[Sequence<u64>],
        marks: &[bool],
        node: u64,
    ) -> Result<bool, AllocError>
        requires closed { IsClosed successors.now }
        requires marks { length marks.now ≡ length successors.now }
        requires search { IsSearch successors.now marks.now self.old.steps.items self.old.path.items self.old.counts.items }
        requires last { IsLast self.old.path.items node }
        ensures { IfOk result (λ on. MatchBool on (HasGoneOn successors.now marks.now self.old.steps.items self.new.steps.items self.new.path.items self.new.counts.items) (HasCycle successors.now)) }
    {
        let left = self.steps[node as usize];
        if left == 1 {
            self.leave(successors, marks, node);
            return Ok(true);
        }
        let next = successors[node as usize].as_slice()[left as usize - 2];
        let next_left = self.steps[next as usize];
        if next_left == 0 {
            self.steps[node as usize] = left - 1;
            return Ok(true);
        }
        if next_left - 1 <= successors[next as usize].len() {
            return Ok(false);
        }
        self.enter(next)?;
        Ok(true)
    }

    // Puts a node at the end of the path. After an error nothing has changed.
    fn enter(&mut self, node: u64) -> Result<(), AllocError>
        requires node_in { node < length self.old.steps.items }
        requires is_new { 0 < slice_index self.old.steps.items node }
        ensures steps { OnOk result (self.new.steps.items ≡ slice_set self.old.steps.items node (slice_index self.old.steps.items node - 1)) }
        ensures path { OnOk result (self.new.path.items ≡ self.old.path.items ++ node ∷ []) }
        ensures counts { self.new.counts.items ≡ self.old.counts.items }
    {
        self.path.push(node)?;
        self.steps[node as usize] -= 1;
        Ok(())
    }

    // Takes the last step of the last node of the path: writes its count, and takes it off the path.
    fn leave(&mut self, successors: &[Sequence<u64>], marks: &[bool], node: u64)
        requires closed { IsClosed successors.now }
        requires marks { length marks.now ≡ length successors.now }
        requires search { IsSearch successors.now marks.now self.old.steps.items self.old.path.items self.old.counts.items }
        requires last { IsLast self.old.path.items node }
        requires last_step { slice_index self.old.steps.items node ≡ 1 }
        ensures { HasGoneOn successors.now marks.now self.old.steps.items self.new.steps.items self.new.path.items self.new.counts.items }
    {
        let best = greatest(&self.counts, successors[node as usize].as_slice());
        let count = if marks[node as usize] { best + 1 } else { best };
        self.counts[node as usize] = count;
        self.steps[node as usize] = 0;
        let _ = self.path.pop();
    }
}

/// The greatest count of the nodes in a list; 0 where the list is empty.
pub(crate) fn greatest(counts: &[u64], nodes: &[u64]) -> u64
    requires { (k : ℕ) → k < length nodes.now → slice_index nodes.now k < length counts.now }
    ensures each { (k : ℕ) → k < length nodes.now → slice_index counts.now (slice_index nodes.now k) ≤ result }
    ensures one { (result ≡ 0) ⊎ ((k : ℕ) × (k < length nodes.now) × (slice_index counts.now (slice_index nodes.now k) ≡ result)) }
{
    let mut greatest = 0;
    for node in nodes {
        let count = counts[*node as usize];
        if greatest < count {
            greatest = count;
        }
    }
    greatest
}
