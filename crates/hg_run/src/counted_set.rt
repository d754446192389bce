//! Sets of places, in which the member of a given rank is found in few steps.

ghost use Rattle.std.specs.Prelude.{◌≡◌, ◌<◌, ◌≤◌, ◌^◌, ℕ, length, false, true, Some, IfOk, take, slice_get, slice_index_or, slice_set, replicate};
ghost use Rattle.hg_run.specs.code.CountedSetView.{count_at, ones};

use std::alloc::{AllocError, Global};
use std::marker::Model;

/// A set of places below a fixed length. A contract sees it as a list of flags, one for each place.
///
/// A change, and the search for the member of a given rank, take steps in proportion to the logarithm
/// of the length.
#[derive(Drop)]
pub struct CountedSet {
    flags: Vec<bool>,
    // How many members each inner node of a complete binary tree has below it. The root is at 1, the
    // children of the node at `k` are at `2 * k` and at `2 * k + 1`, and past these nodes come the flags.
    counts: Vec<usize>,
    // how many steps lead from the root to the flags
    depth: usize,
}

impl Model for CountedSet {
    ghost use Rattle.std.specs.Prelude.{List, Bool};

    ghost Value = { List Bool };

    ghost use Rattle.hg_run.specs.code.CountedSetView.{flags_view, IsCounted};

    ghost view = { flags_view };

    ghost invariant = { IsCounted };
}

// How many members a node of the tree has below it: an inner one, or a flag.
fn count_at(flags: &[bool], counts: &[usize], at: usize) -> usize
    ensures { result ≡ count_at flags.now counts.now at }
{
    if at < counts.len() {
        counts[at]
    } else if at - counts.len() < flags.len() && flags[at - counts.len()] {
        1
    } else {
        0
    }
}

// How many flags the least tree has room for that has room for these, and its depth.
fn room_for(flags: &[bool]) -> (usize, usize)
    ensures power { result.0 ≡ 2 ^ result.1 }
    ensures wide { length flags.now ≤ result.0 }
{
    let mut depth = 0;
    let mut width = 1;
    while width < flags.len() {
        width *= 2;
        depth += 1;
    }
    (width, depth)
}

impl CountedSet {
    /// No members, of so many places.
    pub fn new(alloc: Global, length: usize) -> Result<CountedSet, AllocError>
        ensures { IfOk result (λ set. set ≡ replicate length false) }
    {
        let flags = vec![in alloc; false; length]?;
        let (width, depth) = room_for(&flags);
        Ok(CountedSet {
            flags,
            counts: vec![in alloc; 0; width]?,
            depth,
        })
    }

    /// The number of members.
    pub fn len(&self) -> usize
        ensures { result ≡ ones self.now }
    {
        count_at(&self.flags, &self.counts, 1)
    }

    /// Puts a place in or takes it out.
    pub fn put(&mut self, place: usize, is_member: bool)
        requires { place < length self.old }
        ensures { self.new ≡ slice_set self.old place is_member }
    {
        self.flags[place] = is_member;
        let mut at = (self.counts.len() + place) / 2;
        while at > 0 {
            let left = count_at(&self.flags, &self.counts, 2 * at);
            let right = count_at(&self.flags, &self.counts, 2 * at + 1);
            self.counts[at] = left + right;
            at /= 2;
        }
    }

    /// The member before which there are so many.
    pub fn nth(&self, rank: usize) -> usize
        requires { rank < ones self.now }
        ensures found { slice_get self.now result ≡ Some true }
        ensures before { ones (take result self.now) ≡ rank }
    {
        let mut width = 1;
        let mut place = 0;
        let mut rest = rank;
        for _ in 0..self.depth {
            let left = count_at(&self.flags, &self.counts, 2 * (width + place));
            width *= 2;
            place *= 2;
            if left <= rest {
                rest -= left;
                place += 1;
            }
        }
        place
    }
}
