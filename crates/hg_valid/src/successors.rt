//! The nodes to which each node of a graph leads, along value and order links.

ghost use Rattle.std.specs.Prelude.{◌≡◌, ℕ, ◌+◌, ◌<◌, [], ◌∷◌, ◌++◌, length, replicate, slice_set, IfOk, OnOk};
ghost use Rattle.hg_ops.specs.Op.{ins_of};
ghost use Rattle.hg_ops.specs.OpView.{op_view};
ghost use Rattle.hg_graph.specs.Graph.{IsGraph};
ghost use Rattle.walks.specs.Walks.{row};
ghost use Rattle.hg_valid.specs.code.Successors.{AreSuccessors, HasEdges};

use gp_base::Sequence;
use hg_graph::{Graph, Link, NodeId};
use hg_ops::{OpKind, input_count};
use std::alloc::{AllocError, Global};
use walks::Successors;

/// A list for each node, with the nodes to which a value link or an order link leads from it.
pub(crate) fn successors_of(alloc: Global, graph: &Graph) -> Result<Successors, AllocError>
    ensures { IfOk result (λ lists. AreSuccessors graph.now lists.items) }
{
    let mut lists = no_successors(alloc, graph.node_count())?;
    for k in 0..graph.link_count() {
        add_link(graph, k, &mut lists)?;
    }
    Ok(lists)
}

// As many empty lists.
#[tactic(auto, using(hg_ops::proofs::Copies::replicate_next))]
fn no_successors(alloc: Global, count: u64) -> Result<Successors, AllocError>
    ensures { IfOk result (λ lists. lists.items ≡ replicate count []) }
{
    let mut lists = Vec::new(alloc);
    for _ in 0..count {
        lists.push(Sequence::new(alloc))?;
    }
    Ok(lists)
}

// Adds link number `k` where it is a value link or an order link.
fn add_link(graph: &Graph, k: u64, lists: &mut Successors) -> Result<(), AllocError>
    requires graph { IsGraph graph.now }
    requires link_in { k < length graph.now.links }
    requires before { HasEdges graph.now k lists.old.items }
    ensures { OnOk result (HasEdges graph.now (k + 1) lists.new.items) }
{
    match graph.link_at(k) {
        Some(Link::Ports(from, to)) => {
            if to.index < value_input_count(graph.op(to.node)) {
                push_to(lists, from.node, to.node)?;
            }
        }
        Some(Link::Order(before, after)) => push_to(lists, before, after)?,
        None => unreachable!(),
    }
    Ok(())
}

// Adds a node to those to which another leads.
fn push_to(lists: &mut Successors, from: NodeId, to: NodeId) -> Result<(), AllocError>
    requires { from.0 < length lists.old.items }
    ensures { OnOk result (lists.new.items ≡ slice_set lists.old.items from.0 (row lists.old.items from.0 ++ to.0 ∷ [])) }
{
    lists[from.0 as usize].push(to.0)?;
    Ok(())
}

// The number of an op's value inputs.
fn value_input_count(op: &OpKind) -> u64
    ensures { result ≡ length (ins_of (op_view op.now)) }
{
    match op {
        OpKind::DataflowBlock { .. }
        | OpKind::ExitBlock { .. }
        | OpKind::LoadConstant
        | OpKind::LoadFunction { .. } => 0,
        OpKind::Call { ins, .. } => ins.len(),
        _ => input_count(op),
    }
}
