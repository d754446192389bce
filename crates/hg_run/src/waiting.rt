//! What a child of a region waits for: values at its inputs, and the sources of its order links.
//!
//! What has come stays, so that a look begins where the last one ended.

ghost use Rattle.std.specs.Prelude.{◌≡◌, ◌<◌, length};
ghost use Rattle.hg_graph.specs.Run.{outs_at};
ghost use Rattle.hg_run.specs.code.Waits.{HaveCome, value_came, order_came, IsFirstMissingValue, IsFirstMissingOrder, awaits_none, is_due};

use crate::firings::Firings;
use crate::picking::{order_is_kept, value_from};
use crate::reads::{child_fires, static_input};
use hg_graph::{Graph, NodeId, Port};

/// The first input of a node at which no value has come, or the number of its inputs.
pub fn first_missing_value(graph: &Graph, fired: &Firings, node: NodeId, from: u64) -> u64
    requires { HaveCome (value_came graph.now (outs_at fired.now) node.0) from }
    ensures { IsFirstMissingValue graph.now (outs_at fired.now) node.0 result }
{
    let count = static_input(graph, node).index;
    let mut index = from;
    while index < count && value_from(fired, graph.feeder(Port { node, index })).is_some() {
        index += 1;
    }
    index
}

/// The first order link into a node of which the source hasn't fired, or the number of these links.
pub fn first_missing_order(graph: &Graph, fired: &Firings, node: NodeId, from: usize) -> usize
    requires node_in { node.0 < length graph.now.nodes }
    requires so_far { HaveCome (order_came graph.now (outs_at fired.now) node.0) from }
    ensures { IsFirstMissingOrder graph.now (outs_at fired.now) node.0 result }
{
    let numbers = graph.orders_into(node);
    let mut k = from;
    while k < numbers.len() && order_is_kept(graph.link_at(numbers[k]), fired, node) {
        k += 1;
    }
    k
}

// Whether a child fires, hasn't fired, and waits for nothing.
fn awaits_none(graph: &Graph, fired: &Firings, node: NodeId, value: u64, order: usize) -> bool
    requires { node.0 < length graph.now.nodes }
    ensures { result ≡ awaits_none graph.now (outs_at fired.now) node.0 value order }
{
    child_fires(graph, node)
        && fired.get(node).is_none()
        && value >= static_input(graph, node).index
        && order >= graph.orders_into(node).len()
}

/// Whether a child fires and is ready, by the first of its inputs and the first of its order links that
/// are missing.
pub fn is_due(graph: &Graph, fired: &Firings, node: NodeId, value: u64, order: usize) -> bool
    requires node_in { node.0 < length graph.now.nodes }
    requires value { IsFirstMissingValue graph.now (outs_at fired.now) node.0 value }
    requires order { IsFirstMissingOrder graph.now (outs_at fired.now) node.0 order }
    ensures { result ≡ is_due graph.now (outs_at fired.now) node.0 }
{
    awaits_none(graph, fired, node, value, order)
}
