//! The text of a graph: compact JSON.

ghost use Rattle.std.specs.Prelude.{◌≡◌, ◌<◌, ◌++◌, false, length, nat_lt, IfOk, OnOk};
ghost use Rattle.serde_json.specs.Data.{object};
ghost use Rattle.serde_json.specs.View.{view as seen};
ghost use Rattle.serde_json.specs.Written.{has_float, compact_text, comma_if, items_text};
ghost use Rattle.hg_graph.specs.Graph.{op_at, parent_at};
ghost use Rattle.hg_graph.specs.View.{link_view};
ghost use Rattle.hg_json.specs.GraphText.{array_of, node_data, node_members, link_data, json};

use crate::values::{link_value, node_value};
use hg_graph::{Graph, Link, NodeId};
use serde_json::Value;
use std::alloc::{AllocError, Global};

// Writes a value at the end, after a comma where something stands before.
fn push_value(
    alloc: Global,
    out: &mut Vec<u8>,
    later: bool,
    value: &Value,
) -> Result<(), AllocError>
    requires { has_float (seen value.now) ≡ false }
    ensures { OnOk result (out.new.items
        ≡ out.old.items ++ (comma_if later ++ compact_text (seen value.now))) }
{
    if later {
        out.push(b',')?;
    }
    let text = value.to_vec(alloc)?;
    out.extend_from_slice(&text)
}

// Writes a node.
fn push_node(alloc: Global, out: &mut Vec<u8>, graph: &Graph, number: u64) -> Result<(), AllocError>
    requires { number < length graph.now.nodes }
    ensures { OnOk result (out.new.items ≡ out.old.items
        ++ (comma_if (nat_lt 0 number) ++ compact_text (object
        (node_members (op_at graph.now number) (parent_at graph.now number))))) }
{
    let node = NodeId(number);
    let value = node_value(alloc, graph.op(node), graph.parent(node).0)?;
    push_value(alloc, out, number > 0, &value)
}

// Writes a link.
fn push_link(alloc: Global, out: &mut Vec<u8>, later: bool, link: Link) -> Result<(), AllocError>
    ensures { OnOk result (out.new.items
        ≡ out.old.items ++ (comma_if later ++ compact_text (link_data (link_view link)))) }
{
    let value = link_value(alloc, link)?;
    push_value(alloc, out, later, &value)
}

// Writes the nodes and the closing bracket.
fn push_nodes(alloc: Global, out: &mut Vec<u8>, graph: &Graph) -> Result<(), AllocError>
    ensures { OnOk result (out.new.items
        ≡ out.old.items ++ items_text false (array_of node_data graph.now.nodes)) }
{
    for number in 0..graph.node_count() {
        push_node(alloc, out, graph, number)?;
    }
    Ok(out.push(b']')?)
}

// Writes the links and the closing bracket.
fn push_links(alloc: Global, out: &mut Vec<u8>, graph: &Graph) -> Result<(), AllocError>
    ensures { OnOk result (out.new.items
        ≡ out.old.items ++ items_text false (array_of link_data graph.now.links)) }
{
    for k in 0..graph.link_count() {
        let link = graph.link_at(k).unwrap();
        push_link(alloc, out, k > 0, link)?;
    }
    Ok(out.push(b']')?)
}

/// The text of a graph, without a line end.
pub fn write(alloc: Global, graph: &Graph) -> Result<Vec<u8>, AllocError>
    ensures { IfOk result (λ text. text.items ≡ json graph.now) }
{
    let mut out = Vec::new(alloc);
    out.extend_from_slice(b"{\"edges\":[")?;
    push_links(alloc, &mut out, graph)?;
    out.extend_from_slice(b",\"nodes\":[")?;
    push_nodes(alloc, &mut out, graph)?;
    out.extend_from_slice(b",\"version\":\"profile-2\"}")?;
    Ok(out)
}
