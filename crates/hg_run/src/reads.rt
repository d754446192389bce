//! Look-ups in a graph.

ghost use Rattle.std.specs.Prelude.{◌≡◌, ◌<◌, [], ◌∷◌, map, length, slice_get, MatchOption};
ghost use Rattle.std.specs.Option.{option_map};
ghost use Rattle.hg_ops.specs.Op.{Module, ins_of, fires, output_ports};
ghost use Rattle.hg_ops.specs.OpView.{op_view};
ghost use Rattle.hg_graph.specs.Graph.{op_at, children, firing_children, static_input, taker};
ghost use Rattle.hg_run.specs.code.Orders.{target_at};
ghost use Rattle.hg_graph.specs.View.{number_of, port_view, link_view};

use hg_graph::{Graph, Link, NodeId, Port};
use hg_ops::{OpKind, input_count, output_count};

/// The op of a node, where there is such a node.
#[tactic(auto, unfolding(hg_graph::specs::Graph::op_at))]
pub fn op_of(graph: &Graph, node: NodeId) -> Option<&OpKind>
    ensures { MatchOption result (op_at graph.now node.0 ≡ Module)
        (λ op. op_view op.now ≡ op_at graph.now node.0) }
{
    if node.0 < graph.node_count() {
        Some(graph.op(node))
    } else {
        None
    }
}

/// The children of a node; none where there is no such node.
pub fn children_of(graph: &Graph, node: NodeId) -> &[NodeId]
    ensures { map number_of result.now ≡ children graph.now node.0 }
{
    if node.0 < graph.node_count() {
        graph.children(node)
    } else {
        &[]
    }
}

/// The child at a place.
pub fn child_of(graph: &Graph, node: NodeId, k: u64) -> Option<NodeId>
    ensures { option_map number_of result ≡ slice_get (children graph.now node.0) k }
{
    children_of(graph, node).get(k as usize).copied()
}

/// The number of an op's value inputs.
pub fn value_count(op: &OpKind) -> u64
    ensures { result ≡ length (ins_of (op_view op.now)) }
{
    match op {
        OpKind::DataflowBlock { .. }
        | OpKind::ExitBlock { .. }
        | OpKind::Call { .. }
        | OpKind::LoadConstant
        | OpKind::LoadFunction { .. } => input_count(op) - 1,
        _ => input_count(op),
    }
}

/// Whether a child with this op fires.
pub fn fires(op: &OpKind) -> bool
    ensures { result ≡ fires (op_view op.now) }
{
    match op {
        OpKind::Const { .. } | OpKind::Input { .. } | OpKind::Output { .. } => false,
        _ => true,
    }
}

/// Whether a child of a node fires.
pub fn child_fires(graph: &Graph, node: NodeId) -> bool
    ensures { result ≡ fires (op_at graph.now node.0) }
{
    match op_of(graph, node) {
        Some(op) => fires(op),
        None => true,
    }
}

/// How many children of a node fire.
pub fn firing_count(graph: &Graph, node: NodeId) -> u64
    ensures { result ≡ length (firing_children graph.now node.0) }
{
    let nodes = children_of(graph, node);
    let mut count = 0;
    for k in 0..nodes.len() {
        if child_fires(graph, nodes[k]) {
            count += 1;
        }
    }
    count
}

/// The static input of a node.
pub fn static_input(graph: &Graph, node: NodeId) -> Port
    ensures { port_view result ≡ static_input graph.now node.0 }
{
    let index = op_of(graph, node).map_or(0, value_count);
    Port { node, index }
}

// The target of a link, where it comes out of a port.
fn target_from(link: Link, from: Port) -> Option<Port>
    ensures { option_map port_view result ≡ taker (link_view link ∷ []) (port_view from) }
{
    match link {
        Link::Ports(source, to) if source == from => Some(to),
        _ => None,
    }
}

// The target of the first link out of a port, by a look at all links.
fn scanned_taker(graph: &Graph, from: Port) -> Option<Port>
    ensures { option_map port_view result ≡ taker graph.now.links (port_view from) }
{
    for k in 0..graph.link_count() {
        match graph.link_at(k) {
            None => return None,
            Some(link) => {
                if let Some(to) = target_from(link, from) {
                    return Some(to);
                }
            }
        }
    }
    None
}

// The target of a link of ports, where there is one.
fn target_at(link: Option<Link>) -> Option<Port>
    ensures { option_map port_view result ≡ target_at (option_map link_view link) }
{
    match link {
        Some(Link::Ports(_, to)) => Some(to),
        _ => None,
    }
}

// The target of the first link out of a port that its node has.
fn numbered_taker(graph: &Graph, from: Port) -> Option<Port>
    requires node_in { from.node.0 < length graph.now.nodes }
    requires port_in { from.index < length (output_ports (op_at graph.now from.node.0)) }
    ensures { option_map port_view result ≡ taker graph.now.links (port_view from) }
{
    match graph.links_from(from).first() {
        None => None,
        Some(number) => target_at(graph.link_at(*number)),
    }
}

/// The target of the first link out of a port.
pub fn first_taker(graph: &Graph, from: Port) -> Option<Port>
    ensures { option_map port_view result ≡ taker graph.now.links (port_view from) }
{
    if from.node.0 < graph.node_count() && from.index < output_count(graph.op(from.node)) {
        numbered_taker(graph, from)
    } else {
        scanned_taker(graph, from)
    }
}
