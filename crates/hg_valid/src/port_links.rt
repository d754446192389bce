//! The rules of how many links a port has.

ghost use Rattle.std.specs.Prelude.{◌≡◌, ◌≢◌, ◌<◌, ◌↔◌, ◌∷◌, [], IsTrue, true, IfSome, IfNone, length};
ghost use Rattle.std.specs.Option.{option_map};
ghost use Rattle.hg_graph.specs.Graph.{op_at, links_into, links_from};
ghost use Rattle.hg_graph.specs.code.Sources.{source_of};
ghost use Rattle.hg_graph.specs.Valid.{InputsAreFed, LinearOutputsAreTaken};
ghost use Rattle.hg_graph.specs.View.{port_view, link_view};
ghost use Rattle.hg_ops.specs.GraphType.{is_linear as linear};
ghost use Rattle.hg_ops.specs.TypeView.{type_view};
ghost use Rattle.hg_ops.specs.Op.{input_ports, output_ports};
ghost use Rattle.hg_valid.specs.code.Parts.{target_of, IsOnlySource, IsOnlyTarget};
ghost use Rattle.hg_valid.specs.code.Tables.{AreTables};

use crate::tables::{Tables, ins_at, outs_at};
use hg_graph::{Graph, Link, NodeId, Port};
use hg_ops::{GraphType, is_linear};

// Whether exactly one link leads into an input port.
fn is_fed_once(graph: &Graph, to: Port) -> bool
    requires node_in { to.node.0 < length graph.now.nodes }
    requires port_in { to.index < length (input_ports (op_at graph.now to.node.0)) }
    ensures { IsTrue result ↔ (links_into graph.now.links (port_view to) ≡ 1) }
{
    graph.links_into(to).len() == 1
}

// Whether exactly one link leads out of an output port.
fn is_taken_once(graph: &Graph, from: Port) -> bool
    requires node_in { from.node.0 < length graph.now.nodes }
    requires port_in { from.index < length (output_ports (op_at graph.now from.node.0)) }
    ensures { IsTrue result ↔ (links_from graph.now.links (port_view from) ≡ 1) }
{
    graph.links_from(from).len() == 1
}

/// Whether each value input of a node has exactly one link.
pub(crate) fn inputs_are_fed(graph: &Graph, tables: &Tables, node: NodeId) -> bool
    requires node_in { node.0 < length graph.now.nodes }
    requires tables { AreTables graph.now tables.now }
    ensures { IsTrue result ↔ InputsAreFed graph.now node.0 }
{
    for index in 0..ins_at(graph, tables, node).len() {
        if !is_fed_once(graph, Port { node, index }) {
            return false;
        }
    }
    true
}

// Whether exactly one link leads out of an output port, where values of its type have to be used.
fn is_taken(graph: &Graph, from: Port, ty: &GraphType) -> bool
    requires node_in { from.node.0 < length graph.now.nodes }
    requires port_in { from.index < length (output_ports (op_at graph.now from.node.0)) }
    ensures { IsTrue result ↔ (linear (type_view ty.now) ≡ true → links_from graph.now.links (port_view from) ≡ 1) }
{
    !is_linear(ty) || is_taken_once(graph, from)
}

/// Whether each linear value output of a node has exactly one link.
pub(crate) fn linear_outputs_are_taken(graph: &Graph, tables: &Tables, node: NodeId) -> bool
    requires node_in { node.0 < length graph.now.nodes }
    requires tables { AreTables graph.now tables.now }
    ensures { IsTrue result ↔ LinearOutputsAreTaken graph.now node.0 }
{
    let types = outs_at(graph, tables, node).as_slice();
    for index in 0..types.len() {
        let from = Port {
            node,
            index: index as u64,
        };
        if !is_taken(graph, from, &types[index]) {
            return false;
        }
    }
    true
}

// The number, where there is exactly one.
fn only(numbers: &[u64]) -> Option<u64>
    ensures some { IfSome result (λ number. numbers.now ≡ number ∷ []) }
    ensures none { IfNone result (length numbers.now ≢ 1) }
{
    if numbers.len() == 1 {
        Some(numbers[0])
    } else {
        None
    }
}

// The source of a link of ports.
fn source(link: Option<Link>) -> Option<Port>
    ensures { option_map port_view result ≡ source_of (option_map link_view link) }
{
    match link {
        Some(Link::Ports(from, _)) => Some(from),
        _ => None,
    }
}

// The target of a link of ports.
fn target(link: Option<Link>) -> Option<Port>
    ensures { option_map port_view result ≡ target_of (option_map link_view link) }
{
    match link {
        Some(Link::Ports(_, to)) => Some(to),
        _ => None,
    }
}

/// The source of the only link into an input port; `None` exactly where there isn't exactly one.
pub(crate) fn only_source(graph: &Graph, to: Port) -> Option<Port>
    requires node_in { to.node.0 < length graph.now.nodes }
    requires port_in { to.index < length (input_ports (op_at graph.now to.node.0)) }
    ensures some { IfSome result (λ from. IsOnlySource graph.now (port_view to) (port_view from)) }
    ensures none { IfNone result (links_into graph.now.links (port_view to) ≢ 1) }
{
    let _count = graph.node_count();
    match only(graph.links_into(to)) {
        Some(number) => source(graph.link_at(number)),
        None => None,
    }
}

/// The target of the only link out of an output port; `None` exactly where there isn't exactly one.
pub(crate) fn only_target(graph: &Graph, from: Port) -> Option<Port>
    requires node_in { from.node.0 < length graph.now.nodes }
    requires port_in { from.index < length (output_ports (op_at graph.now from.node.0)) }
    ensures some { IfSome result (λ to. IsOnlyTarget graph.now (port_view from) (port_view to)) }
    ensures none { IfNone result (links_from graph.now.links (port_view from) ≢ 1) }
{
    let _count = graph.node_count();
    match only(graph.links_from(from)) {
        Some(number) => target(graph.link_at(number)),
        None => None,
    }
}
