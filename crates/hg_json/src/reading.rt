//! From a text to a graph.

ghost use Rattle.std.specs.Prelude.{◌≡◌, ◌<◌, ◌≤◌, [], ◌∷◌, ◌++◌, length, map, All, IfOk, OnOk};
ghost use Rattle.serde_json.specs.View.{view as seen, items_view};
ghost use Rattle.hg_graph.specs.NodeView.{node_view};
ghost use Rattle.hg_graph.specs.View.{link_view};
ghost use Rattle.hg_json.specs.Reading as spec;
ghost use Rattle.hg_json.specs.Reading.{BadNode, BadLink, or_refuse};
ghost use Rattle.hg_json.specs.Answers.{Answers};
ghost use Rattle.hg_json.specs.InHand.{IsWithin};

use crate::fault::{JsonFault, Miss};
use crate::links::link_of;
use crate::nodes::node_of;
use crate::parts::{items_at, text_at};
use crate::profile::{Profile, profile_named};
use hg_graph::{Graph, Link, Node, Nodes};
use serde_json::Value;
use std::alloc::{AllocError, Global};

/// The most bytes that a text to be read may have: 32 MiB.
pub const MAX_TEXT_BYTES: usize = 33_554_432;

// The node of entry k, in a graph of `total` nodes.
fn node_at(
    alloc: Global,
    profile: Profile,
    total: u64,
    k: u64,
    value: &Value,
) -> Result<Node, JsonFault>
    ensures answers { Answers node_view result
        (or_refuse (BadNode k) (spec.node_of profile total (seen value.now))) }
    ensures parent_in { IfOk result (λ node. node.parent.0 < total) }
{
    match node_of(alloc, profile, total, value) {
        Ok(node) => Ok(node),
        Err(Miss::Shape) => Err(JsonFault::Node(k)),
        Err(Miss::Memory) => Err(JsonFault::Memory),
    }
}

// The link of entry k, in a graph of `total` nodes.
fn link_at(total: u64, k: u64, value: &Value) -> Result<Link, JsonFault>
    ensures answers { Answers link_view result
        (or_refuse (BadLink k) (spec.link_of total (seen value.now))) }
    ensures nodes_in { IfOk result (λ link. IsWithin total (link_view link)) }
{
    match link_of(total, value) {
        Some(link) => Ok(link),
        None => Err(JsonFault::Link(k)),
    }
}

// The number of entries.
#[tactic(auto, using(crate::proofs::Pieces::count_items))]
fn count(entries: &[Value]) -> u64
    ensures { result ≡ spec.count (items_view entries.now) }
{
    entries.len() as u64
}

// The nodes of the entries.
fn nodes_of(alloc: Global, profile: Profile, entries: &[Value]) -> Result<Nodes, JsonFault>
    ensures answers { Answers (λ nodes. map node_view nodes) result
        (spec.each (spec.node_of profile (spec.count (items_view entries.now))) BadNode 0
        (items_view entries.now)) }
    ensures many { IfOk result (λ nodes. length nodes ≡ spec.count (items_view entries.now)) }
    ensures parents_in { IfOk result (λ nodes. All (λ node. node.parent.0 < length nodes) nodes) }
{
    let total = count(entries);
    let mut nodes = Nodes::new(alloc);
    for k in 0..entries.len() {
        let node = node_at(alloc, profile, total, k as u64, &entries[k])?;
        nodes.push(node)?;
    }
    Ok(nodes)
}

// Adds a link of either kind. After an error the graph is as it was.
fn add_link(graph: &mut Graph, link: Link) -> Result<(), AllocError>
    requires { IsWithin (length graph.old.nodes) (link_view link) }
    ensures { OnOk result (graph.new
        ≡ record graph.old { links = graph.old.links ++ link_view link ∷ [] }) }
{
    match link {
        Link::Ports(from, to) => graph.link(from, to),
        Link::Order(before, after) => graph.order(before, after),
    }
}

// The graph with the links of the entries.
fn linked(mut graph: Graph, edges: &[Value]) -> Result<Graph, JsonFault>
    requires { graph.links ≡ [] }
    ensures { Answers (λ made. made) result (spec.linked graph.nodes (items_view edges.now)) }
{
    for k in 0..edges.len() {
        let link = link_at(graph.node_count(), k as u64, &edges[k])?;
        add_link(&mut graph, link)?;
    }
    Ok(graph)
}

// The graph of the entries, of which some are nodes.
#[tactic(auto, unfolding(crate::specs::Reading::entries_of))]
fn entries_of(
    alloc: Global,
    profile: Profile,
    nodes: &[Value],
    edges: &[Value],
) -> Result<Graph, JsonFault>
    requires { 0 < spec.count (items_view nodes.now) }
    ensures { Answers (λ made. made) result
        (spec.entries_of profile (items_view nodes.now) (items_view edges.now)) }
{
    let nodes = nodes_of(alloc, profile, nodes)?;
    let graph = Graph::of_nodes(alloc, nodes)?;
    linked(graph, edges)
}

// The graph of a text whose version has this name.
#[tactic(auto, unfolding(crate::specs::Reading::versioned))]
fn versioned(
    alloc: Global,
    name: &str,
    nodes: &[Value],
    edges: &[Value],
) -> Result<Graph, JsonFault>
    ensures { Answers (λ made. made) result
        (spec.versioned name.now (items_view nodes.now) (items_view edges.now)) }
{
    if count(nodes) == 0 {
        return Err(JsonFault::Top);
    }
    match profile_named(name) {
        Some(profile) => entries_of(alloc, profile, nodes, edges),
        None => Err(JsonFault::Version),
    }
}

// The graph of an object.
#[tactic(auto, unfolding(crate::specs::Reading::graph_in))]
fn graph_in(alloc: Global, value: &Value) -> Result<Graph, JsonFault>
    ensures { Answers (λ made. made) result (spec.graph_in (seen value.now)) }
{
    let version = text_at(value, "version").ok_or(JsonFault::Top)?;
    let nodes = items_at(value, "nodes").ok_or(JsonFault::Top)?;
    let edges = items_at(value, "edges").ok_or(JsonFault::Top)?;
    versioned(alloc, version, nodes, edges)
}

// The value of a text.
#[tactic(auto, using(crate::proofs::Pieces::value_found, crate::proofs::Pieces::value_refused))]
fn value_of(alloc: Global, text: &[u8]) -> Result<Value, JsonFault>
    ensures { Answers seen result (spec.value_of text.now) }
{
    match Value::from_slice(alloc, text) {
        Ok(value) => Ok(value),
        Err(e) => {
            if e.is_memory() {
                Err(JsonFault::Memory)
            } else {
                Err(JsonFault::NotJson)
            }
        }
    }
}

/// The graph of a text. Each fault but the last says the first thing that is wrong with the text; after
/// `Memory` nothing is known of it.
#[tactic(auto, unfolding(crate::specs::Reading::graph_of))]
pub fn read(alloc: Global, text: &[u8]) -> Result<Graph, JsonFault>
    requires { length text.now ≤ MAX_TEXT_BYTES }
    ensures { Answers (λ made. made) result (spec.graph_of text.now) }
{
    let value = value_of(alloc, text)?;
    graph_in(alloc, &value)
}
