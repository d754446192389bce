//! Where links lead from each node.

ghost use Rattle.std.specs.Prelude.{◌≡◌, ◌<◌, length, IfOk, OnOk};
ghost use Rattle.hg_graph.specs.View.{link_view};
ghost use Rattle.hg_steps.specs.Counters.{source_of};
ghost use Rattle.hg_run.specs.code.Due.{target_of, followers_at, with_more, HasFollowers};
ghost use Rattle.hg_run.specs.code.FollowersView.{lists_of};

use hg_graph::{Graph, Link, NodeId};
use std::alloc::{AllocError, Global};

/// For each node the nodes to which links lead from it.
#[derive(Drop)]
pub struct Followers {
    pub lists: Vec<Vec<NodeId>>,
}

// The node from which a link leads.
fn source_of(link: Link) -> NodeId
    ensures { result.0 ≡ source_of (link_view link) }
{
    match link {
        Link::Ports(from, _) => from.node,
        Link::Order(before, _) => before,
    }
}

// The node to which a link leads.
fn target_of(link: Link) -> NodeId
    ensures { result.0 ≡ target_of (link_view link) }
{
    match link {
        Link::Ports(_, to) => to.node,
        Link::Order(_, after) => after,
    }
}

// Empty lists, so many.
fn empty_lists(alloc: Global, count: u64) -> Result<Followers, AllocError>
    ensures { IfOk result (λ followers. length followers.lists.items ≡ count) }
{
    let mut lists = Vec::new(alloc);
    for _ in 0..count {
        lists.push(Vec::new(alloc))?;
    }
    Ok(Followers { lists })
}

// Appends a node to the list of another.
fn add(followers: &mut Followers, from: NodeId, to: NodeId) -> Result<(), AllocError>
    requires { from.0 < length followers.old.lists.items }
    ensures { OnOk result (lists_of followers.new ≡ with_more (lists_of followers.old) from.0 to) }
{
    followers.lists[from.0 as usize].push(to)?;
    Ok(())
}

/// For each node the nodes to which links lead from it.
pub fn followers_of(alloc: Global, graph: &Graph) -> Result<Followers, AllocError>
    ensures { IfOk result (λ followers. HasFollowers graph.now (lists_of followers)) }
{
    let mut followers = empty_lists(alloc, graph.node_count())?;
    for k in 0..graph.link_count() {
        match graph.link_at(k) {
            None => return Ok(followers),
            Some(link) => add(&mut followers, source_of(link), target_of(link))?,
        }
    }
    Ok(followers)
}

/// The nodes to which links lead from a node.
pub fn followers_at(followers: &Followers, node: NodeId) -> &[NodeId]
    ensures { result.now ≡ followers_at (lists_of followers.now) node.0 }
{
    match followers.lists.get(node.0 as usize) {
        Some(list) => list.as_slice(),
        None => &[],
    }
}
