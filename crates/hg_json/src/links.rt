//! The entries of `edges`.

ghost use Rattle.std.specs.Prelude.{◌≡◌, ◌<◌, IfSome};
ghost use Rattle.serde_json.specs.View.{view, items_view};
ghost use Rattle.hg_graph.specs.View.{link_view};
ghost use Rattle.hg_json.specs.Reading as spec;
ghost use Rattle.hg_json.specs.code.Found.{Finds};
ghost use Rattle.hg_json.specs.code.Ends.{end_view, node_of_end};
ghost use Rattle.hg_json.specs.InHand.{IsWithin};

use hg_graph::{Link, NodeId, Port};
use serde_json::Value;

// An end of a link.
#[derive(Clone, Copy)]
enum End {
    // A port.
    Port(Port),
    // A node of an order link.
    Node(NodeId),
}

// The two items of a list that has two.
#[tactic(auto, using(crate::proofs::Pieces::two_none, crate::proofs::Pieces::two_some))]
fn two(items: &[Value]) -> Option<(&Value, &Value)>
    ensures { Finds (λ pair. (view pair.0.now, view pair.1.now)) result
        (spec.two (items_view items.now)) }
{
    if items.len() != 2 {
        return None;
    }
    Some((&items[0], &items[1]))
}

// The two items of an array that has two.
fn pair_in(value: &Value) -> Option<(&Value, &Value)>
    ensures { Finds (λ pair. (view pair.0.now, view pair.1.now)) result
        (spec.pair_in (view value.now)) }
{
    two(value.as_array()?)
}

// The end at a node: a whole number is a port, and null is none.
fn end_at(node: NodeId, value: &Value) -> Option<End>
    ensures finds { Finds end_view result (spec.end_at node.0 (view value.now)) }
    ensures node { IfSome result (λ found. node_of_end (end_view found) ≡ node.0) }
{
    match value {
        Value::Null => Some(End::Node(node)),
        Value::Number(_) => {
            let index = value.as_u64()?;
            Some(End::Port(Port { node, index }))
        }
        Value::Bool(_) | Value::String(_) | Value::Array(_) | Value::Object(_) => None,
    }
}

// An end in a graph of `total` nodes.
#[tactic(auto, unfolding(crate::specs::Reading::end_of))]
fn end_of(total: u64, value: &Value) -> Option<End>
    ensures finds { Finds end_view result (spec.end_of total (view value.now)) }
    ensures node_in { IfSome result (λ found. node_of_end (end_view found) < total) }
{
    let (node, port) = pair_in(value)?;
    let node = node.as_u64()?;
    if node >= total {
        return None;
    }
    end_at(NodeId(node), port)
}

/// A link in a graph of `total` nodes.
#[tactic(auto, unfolding(crate::specs::Reading::link_of))]
pub fn link_of(total: u64, value: &Value) -> Option<Link>
    ensures finds { Finds link_view result (spec.link_of total (view value.now)) }
    ensures nodes_in { IfSome result (λ link. IsWithin total (link_view link)) }
{
    let (from, to) = pair_in(value)?;
    match (end_of(total, from)?, end_of(total, to)?) {
        (End::Port(from), End::Port(to)) => Some(Link::Ports(from, to)),
        (End::Node(before), End::Node(after)) => Some(Link::Order(before, after)),
        (End::Port(_), End::Node(_)) | (End::Node(_), End::Port(_)) => None,
    }
}
