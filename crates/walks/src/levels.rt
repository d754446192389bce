//! Levels of nodes: no link leads to a higher one, and the nodes of a cycle have one level.
//!
//! The levels are the numbers of the strongly connected components, as `component_numbers` gives them. They make the search
//! for the least node on a cycle fast, and decide nothing: `first_level` tests them before it relies on them.

ghost use Rattle.std.specs.Prelude.{◌≡◌, length, IfSome};
ghost use Rattle.std.specs.Bool.{OnTrue};
ghost use Rattle.walks.specs.Walks.{IsClosed};
ghost use Rattle.walks.specs.code.Levels.{NeverRises, NoneBefore};

use crate::counts::greatest;
use gp_base::Sequence;

/// The least node that leads to a node of its level, where no link leads to a higher level. No node before it is on a
/// cycle; `None` says nothing.
pub(crate) fn first_level(successors: &[Sequence<u64>], levels: &[u64]) -> Option<u64>
    requires closed { IsClosed successors.now }
    requires levels { length levels.now ≡ length successors.now }
    ensures { IfSome result (NoneBefore successors.now) }
{
    if !never_rises(successors, levels) {
        return None;
    }
    for node in 0..successors.len() {
        if greatest(levels, successors[node].as_slice()) >= levels[node] {
            return Some(node as u64);
        }
    }
    None
}

// Whether no link leads to a higher level; `false` says nothing.
fn never_rises(successors: &[Sequence<u64>], levels: &[u64]) -> bool
    requires closed { IsClosed successors.now }
    requires levels { length levels.now ≡ length successors.now }
    ensures { OnTrue result (NeverRises successors.now levels.now (length successors.now)) }
{
    for node in 0..successors.len() {
        if greatest(levels, successors[node].as_slice()) > levels[node] {
            return false;
        }
    }
    true
}
