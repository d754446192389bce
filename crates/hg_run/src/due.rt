//! Which children of a region are ready to fire: a set of their places that is kept as they fire.

ghost use Rattle.std.specs.Prelude.{◌≡◌, [], ℕ, IfOk, IfSome, length, drop};
ghost use Rattle.std.specs.Option.{IfNone};
ghost use Rattle.hg_graph.specs.Graph.{children};
ghost use Rattle.hg_graph.specs.Run.{outs_at, choose, ready};
ghost use Rattle.hg_steps.specs.Machine.{Plain};
ghost use Rattle.hg_run.specs.code.CountedSetView.{ones};
ghost use Rattle.hg_run.specs.code.Due.{AreNone, HasDues, HasOtherDues, IsPlace, IsSeen, KnowsDues, KnowsDuesBeside, KnowsOtherDues, Refreshes, Takes};
ghost use Rattle.hg_run.specs.code.StateView.{EndsChoice};

use crate::counted_set::CountedSet;
use crate::firings::Firings;
use crate::picking::{inputs_of, next_place};
use crate::reads::{child_of, children_of};
use crate::state::{Dues, Ready};
use crate::waiting::{first_missing_order, first_missing_value, is_due};
use hg_graph::{Graph, NodeId};
use std::alloc::{AllocError, Global};
use std::collections::VecDeque;

// The place of a node among the children of a container, where it is one.
fn place_among(graph: &Graph, container: NodeId, node: NodeId) -> Option<usize>
    ensures { IsPlace graph.now container.0 node.0 result }
{
    let nodes = children_of(graph, container);
    let mut low = 0;
    let mut high = nodes.len();
    while low < high {
        let middle = low + (high - low) / 2;
        if nodes[middle].0 < node.0 {
            low = middle + 1;
        } else {
            high = middle;
        }
    }
    if low < nodes.len() && nodes[low].0 == node.0 {
        Some(low)
    } else {
        None
    }
}

// Looks at one node again, from where the last look ended, and brings what is known up to date.
fn refresh(graph: &Graph, container: NodeId, fired: &Firings, node: NodeId, dues: &mut Dues)
    requires ready { length dues.old.ready ≡ length (children graph.now container.0) }
    requires seen { IsSeen graph.now container.0 (outs_at fired.now) dues.old }
    ensures ready { Refreshes graph.now container.0 (outs_at fired.now) node.0
        dues.old.ready dues.new.ready }
    ensures seen { IsSeen graph.now container.0 (outs_at fired.now) dues.new }
{
    match place_among(graph, container, node) {
        None => {}
        Some(place) => {
            let value = first_missing_value(graph, fired, node, dues.values[place]);
            let order = first_missing_order(graph, fired, node, dues.orders[place]);
            dues.values[place] = value;
            dues.orders[place] = order;
            dues.ready
                .put(place, is_due(graph, fired, node, value, order));
        }
    }
}

/// Looks at some nodes, where all is right at the others.
pub fn refresh_all(
    graph: &Graph,
    container: NodeId,
    fired: &Firings,
    nodes: &[NodeId],
    dues: &mut Dues,
)
    requires { KnowsDuesBeside graph.now container.0 (outs_at fired.now) nodes.now dues.old }
    ensures { KnowsDues graph.now container.0 (outs_at fired.now) dues.new }
{
    for k in 0..nodes.len() {
        refresh(graph, container, fired, nodes[k], dues);
    }
}

// Takes the child that runs out of the set.
fn leave_out(
    graph: &Graph,
    container: NodeId,
    running: NodeId,
    fired: &Firings,
    ready: &mut CountedSet,
)
    requires { HasDues graph.now container.0 (outs_at fired.now) ready.old }
    ensures { HasOtherDues graph.now container.0 (outs_at fired.now) running.0 ready.new }
{
    let _fired = fired;
    if let Some(place) = place_among(graph, container, running) {
        ready.put(place, false);
    }
}

// Nothing is ready, and nothing has come, for so many children.
fn no_dues(alloc: Global, count: usize) -> Result<Dues, AllocError>
    ensures { IfOk result (λ dues. AreNone count dues) }
{
    Ok(Dues {
        ready: CountedSet::new(alloc, count)?,
        values: vec![in alloc; 0; count]?,
        orders: vec![in alloc; 0; count]?,
    })
}

/// The children that are ready as a region opens, but for the one that runs.
pub fn first_due(
    alloc: Global,
    graph: &Graph,
    container: NodeId,
    running: NodeId,
) -> Result<Dues, AllocError>
    ensures { IfOk result (λ dues.
        KnowsOtherDues graph.now container.0 (outs_at []) running.0 dues) }
{
    let nodes = children_of(graph, container);
    let fired = Firings::new(alloc);
    let mut dues = no_dues(alloc, nodes.len())?;
    refresh_all(graph, container, &fired, nodes, &mut dues);
    leave_out(graph, container, running, &fired, &mut dues.ready);
    Ok(dues)
}

// Takes the next pick, and the place that it names among those in the set, which is taken out; none
// where the set is empty.
fn take_place(ready: &mut CountedSet, picks: &mut VecDeque<u32>) -> Option<usize>
    ensures none { IfNone result ((ones ready.old ≡ 0) × (picks.new.items ≡ picks.old.items)) }
    ensures place { IfSome result (λ place. Takes picks.old.items ready.old place ready.new) }
    ensures picks { IfSome result (λ place. picks.new.items ≡ drop 1 picks.old.items) }
{
    let count = ready.len();
    if count == 0 {
        return None;
    }
    let place = ready.nth(next_place(picks, count));
    ready.put(place, false);
    Some(place)
}

/// Takes the next pick, and the node at its place among those that are ready; none where none is.
pub fn take_due(
    alloc: Global,
    graph: &Graph,
    container: NodeId,
    fired: &Firings,
    dues: &mut Dues,
    picks: &mut VecDeque<u32>,
) -> Result<Option<Ready>, AllocError>
    requires { KnowsDues graph.now container.0 (outs_at fired.now) dues.old }
    ensures choice { IfOk result (λ found. (s : Plain) → s.picks ≡ picks.old.items
        → EndsChoice (choose (ready graph.now container.0 (outs_at fired.now)) s) found
        (record s { picks = picks.new.items })) }
    ensures rest { IfOk result (λ found. IfSome found (λ r.
        KnowsOtherDues graph.now container.0 (outs_at fired.now) r.node.0 dues.new)) }
{
    match take_place(&mut dues.ready, picks) {
        None => Ok(None),
        Some(place) => match child_of(graph, container, place as u64) {
            None => Ok(None),
            Some(node) => match inputs_of(alloc, graph, fired, node)? {
                None => Ok(None),
                Some(ins) => Ok(Some(Ready { node, ins })),
            },
        },
    }
}
