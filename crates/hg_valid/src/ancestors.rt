//! Which nodes contain a node.

ghost use Rattle.std.specs.Prelude.{◌≡◌, ◌<◌, ◌↔◌, IsTrue, IfOk, length, slice_get};
ghost use Rattle.hg_graph.specs.Valid.{IsAncestor, Places};
ghost use Rattle.hg_valid.specs.code.Ancestors.{LeadUp, AreJumps, IsAtOrAbove};
ghost use Rattle.hg_valid.specs.code.Broken.{AllKeep};

use hg_graph::{Graph, NodeId};
use std::alloc::{AllocError, Global};

// A step up from a node to one of its ancestors.
#[derive(Clone, Copy)]
pub(crate) struct Jump {
    // The ancestor.
    pub(crate) to: NodeId,
    // How many parents the step passes.
    pub(crate) length: u64,
}

// The step up from a node, where it has been made.
fn jump_at(jumps: &[Jump], node: NodeId) -> Option<Jump>
    ensures { result ≡ slice_get jumps.now node.0 }
{
    jumps.get(node.0 as usize).copied()
}

// A step up from a node: as far as two steps from its parent where these are of one length, else to its parent. By such
// steps the way up to any ancestor is short, however deep the node stands.
fn jump_of(graph: &Graph, jumps: &[Jump], node: NodeId) -> Jump
    requires node_in { node.0 < length graph.now.nodes }
    requires jumps { LeadUp graph.now jumps.now }
    ensures { IsAncestor graph.now result.to.0 node.0 }
{
    let parent = graph.parent(node);
    if let Some(near) = jump_at(jumps, parent)
        && let Some(far) = jump_at(jumps, near.to)
        && near.length == far.length
    {
        return Jump {
            to: far.to,
            length: near.length.saturating_add(far.length).saturating_add(1),
        };
    }
    Jump {
        to: parent,
        length: 1,
    }
}

/// A step up from each node, in the order of the nodes.
pub(crate) fn jumps_of(alloc: Global, graph: &Graph) -> Result<Vec<Jump>, AllocError>
    ensures { IfOk result (λ jumps. AreJumps graph.now (length graph.now.nodes) jumps.items) }
{
    let mut jumps = Vec::new(alloc);
    for n in 0..graph.node_count() {
        let jump = jump_of(graph, &jumps, NodeId(n));
        jumps.push(jump)?;
    }
    Ok(jumps)
}

// A step up from a node to an ancestor that isn't past the one that is looked for.
fn step_up(graph: &Graph, jumps: &[Jump], ancestor: NodeId, node: NodeId) -> NodeId
    requires node_in { node.0 < length graph.now.nodes }
    requires jumps { AreJumps graph.now (length graph.now.nodes) jumps.now }
    requires places { AllKeep graph.now Places }
    requires below { ancestor.0 < node.0 }
    ensures up { IsAncestor graph.now result.0 node.0 }
    ensures less { result.0 < node.0 }
    ensures further { IsAncestor graph.now ancestor.0 node.0 → IsAtOrAbove graph.now ancestor.0 result.0 }
{
    let _count = graph.node_count();
    match jump_at(jumps, node) {
        Some(jump) if jump.to.0 >= ancestor.0 => jump.to,
        _ => graph.parent(node),
    }
}

/// Whether a node stands, at whatever depth, in another one; the root stands in itself. The number of steps grows as the
/// logarithm of the depth.
pub(crate) fn is_ancestor(graph: &Graph, jumps: &[Jump], ancestor: NodeId, node: NodeId) -> bool
    requires node_in { node.0 < length graph.now.nodes }
    requires jumps { AreJumps graph.now (length graph.now.nodes) jumps.now }
    requires places { AllKeep graph.now Places }
    ensures { IsTrue result ↔ IsAncestor graph.now ancestor.0 node.0 }
{
    let _count = graph.node_count();
    let mut at = graph.parent(node);
    while at.0 > ancestor.0 {
        at = step_up(graph, jumps, ancestor, at);
    }
    at.0 == ancestor.0
}
