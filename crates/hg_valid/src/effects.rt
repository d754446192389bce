//! Effect nodes: those with an effect op, or with an effect op somewhere inside.

ghost use Rattle.std.specs.Prelude.{◌≡◌, ℕ, ◌+◌, ◌-◌, ◌<◌, ◌≤◌, length, IfOk};
ghost use Rattle.hg_graph.specs.Graph.{IsGraph, parent_at};
ghost use Rattle.hg_valid.specs.code.Effects.{AreEffects, AreCarried};

use hg_graph::{Graph, NodeId};
use hg_ops::is_effect;
use std::alloc::{AllocError, Global};

/// A mark for each node: whether it is an effect node.
pub(crate) fn effects_of(alloc: Global, graph: &Graph) -> Result<Vec<bool>, AllocError>
    requires root { parent_at graph.now 0 ≡ 0 }
    requires others { (n : ℕ) → 0 < n → n < length graph.now.nodes → parent_at graph.now n < n }
    ensures { IfOk result (λ marks. AreEffects graph.now marks.items) }
{
    let mut marks = own_effects(alloc, graph)?;
    let count = graph.node_count();
    for passed in 0..count {
        let node = NodeId(count - 1 - passed);
        if marks[node.0 as usize] {
            marks[graph.parent(node).0 as usize] = true;
        }
    }
    Ok(marks)
}

// A mark for each node: whether its op is an effect.
fn own_effects(alloc: Global, graph: &Graph) -> Result<Vec<bool>, AllocError>
    ensures { IfOk result (λ marks. AreCarried graph.now (length graph.now.nodes) marks.items) }
{
    let mut marks = Vec::new(alloc);
    for n in 0..graph.node_count() {
        marks.push(is_effect(graph.op(NodeId(n))))?;
    }
    Ok(marks)
}
