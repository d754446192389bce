//! Where nodes stand: the rules of parents and of children.

ghost use Rattle.std.specs.Prelude.{◌≡◌, ◌<◌, ◌↔◌, length, IsTrue, IfSome};
ghost use Rattle.std.specs.Prelude.{slice_get};
ghost use Rattle.std.specs.Option.{option_map};
ghost use Rattle.hg_graph.specs.Graph.{children};
ghost use Rattle.hg_graph.specs.Valid.{HasPlace, SuitsParent};
ghost use Rattle.hg_graph.specs.View.{number_of};

use crate::op_tests::{is_module, may_stand_in};
use hg_graph::{Graph, NodeId};

/// Whether node 0 is a `Module` and its own parent, and another node is none and has a parent with a smaller number.
pub(crate) fn has_place(graph: &Graph, node: NodeId) -> bool
    requires { node.0 < length graph.now.nodes }
    ensures { IsTrue result ↔ HasPlace graph.now node.0 }
{
    let is_module = is_module(graph.op(node));
    let parent = graph.parent(node);
    if node.0 == 0 {
        is_module && parent.0 == 0
    } else {
        !is_module && parent.0 < node.0
    }
}

/// Whether the node may be a child of its parent.
pub(crate) fn suits_parent(graph: &Graph, node: NodeId) -> bool
    requires { node.0 < length graph.now.nodes }
    ensures { IsTrue result ↔ SuitsParent graph.now node.0 }
{
    let _count = graph.node_count();
    let parent = graph.parent(node);
    parent.0 == node.0 || may_stand_in(graph.op(parent), graph.op(node))
}

/// A node's child at a place, counted from 0; `None` exactly where it has no such child.
pub(crate) fn child(graph: &Graph, node: NodeId, place: u64) -> Option<NodeId>
    requires { node.0 < length graph.now.nodes }
    ensures is { option_map number_of result ≡ slice_get (children graph.now node.0) place }
    ensures within { IfSome result (λ child. child.0 < length graph.now.nodes) }
{
    graph.child(node, place)
}
