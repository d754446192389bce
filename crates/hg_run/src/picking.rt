//! What is ready to fire.

ghost use Rattle.std.specs.Prelude.{not, ◌&&◌, ◌≡◌, ◌<◌, List, [], ◌∷◌, ◌++◌, if◌then◌else◌, drop, map, IfOk, OnOk, MatchOption};
ghost use Rattle.std.specs.Option.{option_copied, option_map};
ghost use Rattle.gp_base.specs.Run.{Returned, Stopped, Stuck};
ghost use Rattle.hg_ops.specs.Op.{fires};
ghost use Rattle.hg_graph.specs.Graph.{op_at};
ghost use Rattle.hg_graph.specs.Run as spec;
ghost use Rattle.hg_graph.specs.Run.{has_fired, outs_at, value_of, inputs, orders_kept, candidate, ready, choose};
ghost use Rattle.hg_graph.specs.View.{port_view, link_view};
ghost use Rattle.hg_steps.specs.Machine.{Plain};
ghost use Rattle.hg_run.specs.code.Orders.{order_at};
ghost use Rattle.hg_run.specs.code.StateView.{ready_view, place_of, listed};
ghost use Rattle.hg_run.specs.code.ValueView.{value_view};

use crate::firings::Firings;
use crate::reads::static_input;
use crate::value::{Value, Values};
use hg_graph::{Graph, Link, NodeId, Port};
use std::alloc::{AllocError, Global};
use std::collections::VecDeque;

/// The value at a port.
pub fn value_from(fired: &Firings, from: Option<Port>) -> Option<&Value>
    ensures { option_map value_view (option_copied result)
        ≡ value_of (outs_at fired.now) (option_map port_view from) }
{
    match from {
        None => None,
        Some(port) => match fired.get(port.node) {
            None => None,
            Some(outs) => outs.get(port.index),
        },
    }
}

/// The values at a node's inputs, where they are there.
pub fn inputs_of(
    alloc: Global,
    graph: &Graph,
    fired: &Firings,
    node: NodeId,
) -> Result<Option<Values>, AllocError>
    ensures { IfOk result (λ ins. ins ≡ inputs graph.now (outs_at fired.now) node.0) }
{
    let count = static_input(graph, node).index;
    let mut ins = Values::new(alloc);
    for index in 0..count {
        match value_from(fired, graph.feeder(Port { node, index })) {
            None => return Ok(None),
            Some(value) => ins.push(value.copy(alloc)?)?,
        }
    }
    Ok(Some(ins))
}

/// Whether the source of a link has fired, where it is an order link into a node.
pub fn order_is_kept(link: Option<Link>, fired: &Firings, node: NodeId) -> bool
    ensures { result ≡ order_at (outs_at fired.now) node.0 (option_map link_view link) }
{
    match link {
        Some(Link::Order(before, after)) if after == node => fired.get(before).is_some(),
        _ => true,
    }
}

/// Takes the next pick, counted round: a place below the count.
pub fn next_place(picks: &mut VecDeque<u32>, count: usize) -> usize
    requires { 0 < count }
    ensures place { result ≡ place_of picks.old.items count }
    ensures within { result < count }
    ensures rest { picks.new.items ≡ drop 1 picks.old.items }
{
    match picks.pop_front() {
        None => 0,
        Some(pick) => pick as usize % count,
    }
}
