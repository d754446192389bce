//! What a graph of nodes without links keeps beside its lists.

ghost use Rattle.std.specs.Prelude.{◌≡◌, ◌<◌, [], length, map, All, IfOk, OnOk};
ghost use Rattle.hg_ops.specs.OpView.{op_view};
ghost use Rattle.hg_graph.specs.code.GraphIndex.{IsIndexed, IsFilled};
ghost use Rattle.hg_graph.specs.NodeIndex.{fresh_index};
ghost use Rattle.hg_graph.specs.NodeView.{node_view};

use crate::graph::Node;
use crate::indexes::push_child;
use crate::link::NodeId;
use crate::node_index::NodeIndex;
use hg_ops::{OpKind, input_count, output_count};
use std::alloc::{AllocError, Global};

/// What is kept of these nodes, where there are no links.
pub(crate) fn indexes_of(alloc: Global, nodes: &[Node]) -> Result<Vec<NodeIndex>, AllocError>
    requires some { 0 < length nodes.now }
    requires parents_in { All (λ node. node.parent.0 < length nodes.now) nodes.now }
    ensures { IfOk result (λ indexes. IsIndexed (record { nodes = map node_view nodes.now; links = [] }) indexes.items) }
{
    let mut indexes = fresh_indexes(alloc, nodes)?;
    fill_children(&mut indexes, nodes)?;
    Ok(indexes)
}

/// What is kept of a node with this op, without children and links.
pub(crate) fn fresh_index(alloc: Global, op: &OpKind) -> Result<NodeIndex, AllocError>
    ensures { IfOk result (λ index. index ≡ fresh_index (op_view op.now)) }
{
    NodeIndex::new(alloc, input_count(op), output_count(op))
}

// The same of several nodes.
fn fresh_indexes(alloc: Global, nodes: &[Node]) -> Result<Vec<NodeIndex>, AllocError>
    ensures { IfOk result (λ indexes. indexes.items ≡ map (λ node. fresh_index (op_view node.op)) nodes.now) }
{
    let mut indexes = Vec::new(alloc);
    for node in nodes {
        indexes.push(fresh_index(alloc, &node.op)?)?;
    }
    Ok(indexes)
}

// Writes the children of all nodes down.
fn fill_children(indexes: &mut Vec<NodeIndex>, nodes: &[Node]) -> Result<(), AllocError>
    requires parents_in { All (λ node. node.parent.0 < length nodes.now) nodes.now }
    requires fresh { IsFilled (record { nodes = map node_view nodes.now; links = [] }) 0 indexes.old.items }
    ensures { OnOk result (IsFilled (record { nodes = map node_view nodes.now; links = [] }) (length nodes.now) indexes.new.items) }
{
    for n in 0..nodes.len() {
        let node = NodeId(n as u64);
        let parent = nodes[n].parent;
        if parent != node {
            push_child(indexes, parent, node)?;
        }
    }
    Ok(())
}
