//! Whether a valid graph is ordered.

ghost use Rattle.std.specs.Prelude.{◌≡◌, ℕ, ◌+◌, ◌<◌, ◌≤◌, ◌↔◌, length, slice_index, IsTrue, IfOk, MatchBool};
ghost use Rattle.std.specs.Bool.{OnTrue};
ghost use Rattle.hg_ops.specs.Op as op;
ghost use Rattle.hg_graph.specs.Graph.{op_at, children};
ghost use Rattle.hg_graph.specs.Ordered.{IsOrdered};
ghost use Rattle.hg_valid.specs.code.Regions.{AreApart, HaveSame, HasSame, ApartBelow, child_at};
ghost use Rattle.hg_valid.specs.SameRuns.{RunsAreSame};

use crate::effects::effects_of;
use crate::op_tests::is_dataflow_container;
use crate::successors::successors_of;
use crate::valid::Valid;
use hg_graph::{Graph, NodeId};
use std::alloc::{AllocError, Global};
use walks::longest_chains;

/// Whether in each region any two effect nodes are joined by a path of value and order links. An effect node has an effect
/// op, or an effect op somewhere inside. The runs of an ordered graph are the same under any picks.
pub fn is_ordered(alloc: Global, graph: &Valid) -> Result<bool, AllocError>
    ensures ordered { IfOk result (λ ordered. IsTrue ordered ↔ IsOrdered graph.now) }
    ensures runs { IfOk result (λ ordered. OnTrue ordered (RunsAreSame graph.now)) }
{
    let graph = graph.graph();
    let marks = effects_of(alloc, graph)?;
    let successors = successors_of(alloc, graph)?;
    match longest_chains(alloc, &successors, &marks)? {
        Some(counts) => counts_differ(alloc, graph, &marks, &counts),
        None => unreachable!(),
    }
}

// Whether in each region the marked nodes have different counts.
fn counts_differ(
    alloc: Global,
    graph: &Graph,
    marks: &[bool],
    counts: &[u64],
) -> Result<bool, AllocError>
    requires marks { length marks.now ≡ length graph.now.nodes }
    requires counts { length counts.now ≡ length graph.now.nodes }
    requires few { (n : ℕ) → slice_index counts.now n ≤ length graph.now.nodes }
    ensures { IfOk result (λ differ. MatchBool differ (ApartBelow graph.now (length graph.now.nodes) marks.now counts.now) (HasSame graph.now marks.now counts.now)) }
{
    let mut seen = vec![in alloc; 0; counts.len() + 1]?;
    for number in 0..graph.node_count() {
        let node = NodeId(number);
        if is_dataflow_container(graph.op(node))
            && !counts_differ_in(graph, node, marks, counts, &mut seen)
        {
            return Ok(false);
        }
    }
    Ok(true)
}

// Whether the marked children of a node have different counts. For each count the last region, plus 1, is written down in
// which a marked child of that count was seen.
fn counts_differ_in(
    graph: &Graph,
    region: NodeId,
    marks: &[bool],
    counts: &[u64],
    seen: &mut Vec<u64>,
) -> bool
    requires region_in { region.0 < length graph.now.nodes }
    requires marks { length marks.now ≡ length graph.now.nodes }
    requires counts { length counts.now ≡ length graph.now.nodes }
    requires few { (n : ℕ) → slice_index counts.now n < length seen.old.items }
    requires earlier { (i : ℕ) → slice_index seen.old.items i ≤ region.0 }
    ensures differ { MatchBool result (AreApart graph.now region.0 marks.now counts.now) (HaveSame graph.now region.0 marks.now counts.now) }
    ensures later { (i : ℕ) → slice_index seen.new.items i ≤ region.0 + 1 }
    ensures count { length seen.new.items ≡ length seen.old.items }
{
    for k in 0..graph.child_count(region) {
        let child = child_of(graph, region, k) as usize;
        if marks[child] {
            let count = counts[child] as usize;
            if seen[count] == region.0 + 1 {
                return false;
            }
            seen[count] = region.0 + 1;
        }
    }
    true
}

// A node's child at place `k`.
fn child_of(graph: &Graph, node: NodeId, k: u64) -> u64
    requires node_in { node.0 < length graph.now.nodes }
    requires child_in { k < length (children graph.now node.0) }
    ensures is { result ≡ child_at graph.now node.0 k }
    ensures within { result < length graph.now.nodes }
{
    match graph.child(node, k) {
        Some(child) => child.0,
        None => unreachable!(),
    }
}
