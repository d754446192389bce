//! What a graph keeps of its nodes beside its lists.

ghost use Rattle.std.specs.Prelude.{◌≡◌, ◌<◌, ◌≤◌, vec_len, vec_capacity, ℕ, List, ◌∷◌, ◌++◌, [], length, OnOk, OnErr};
ghost use Rattle.hg_graph.specs.code.GraphIndex.{updated, with_ports, with_order};
ghost use Rattle.hg_ops.specs.OpView.{op_view};
ghost use Rattle.hg_graph.specs.NodeIndex.{NodeIndex as SpecIndex, fresh_index, with_child, with_input, with_output, with_before, with_after};
ghost use Rattle.hg_graph.specs.View.{port_view, link_view};

use crate::filling::fresh_index;
use crate::graph::Node;
use crate::link::{Link, NodeId, Port};
use crate::node_index::NodeIndex;
use hg_ops::OpKind;
use std::alloc::AllocError;

/// Makes room for a node with this op, appends what is kept of it, and makes it a child. After an error nothing has
/// changed but the room.
pub(crate) fn push_index(
    nodes: &mut Vec<Node>,
    indexes: &mut Vec<NodeIndex>,
    parent: NodeId,
    op: &OpKind,
) -> Result<(), AllocError>
    requires { parent.0 < length indexes.old.items }
    ensures kept { nodes.new.items ≡ nodes.old.items }
    ensures room { OnOk result (vec_len nodes.new < vec_capacity nodes.new) }
    ensures ok { OnOk result (indexes.new.items ≡ updated parent.0 (with_child (length indexes.old.items)) indexes.old.items ++ fresh_index (op_view op.now) ∷ []) }
    ensures err { OnErr result (indexes.new.items ≡ indexes.old.items) }
{
    nodes.reserve(1)?;
    let alloc = *nodes.allocator();
    let index = fresh_index(alloc, op)?;
    push_node(indexes, parent, index)
}

/// Appends a node. Where there is room for it this doesn't fail.
pub(crate) fn append(nodes: &mut Vec<Node>, node: Node) -> Result<(), AllocError>
    ensures ok { OnOk result (nodes.new.items ≡ nodes.old.items ++ node ∷ []) }
    ensures full { OnErr result (vec_capacity nodes.old ≤ vec_len nodes.old) }
{
    nodes.push(node)?;
    Ok(())
}

// Appends what is kept of a new node, and makes the node a child. After an error nothing has changed.
fn push_node(
    indexes: &mut Vec<NodeIndex>,
    parent: NodeId,
    node: NodeIndex,
) -> Result<(), AllocError>
    requires { parent.0 < length indexes.old.items }
    ensures ok { OnOk result (indexes.new.items ≡ updated parent.0 (with_child (length indexes.old.items)) indexes.old.items ++ node ∷ []) }
    ensures err { OnErr result (indexes.new.items ≡ indexes.old.items) }
{
    indexes.reserve(1)?;
    let number = NodeId(indexes.len() as u64);
    push_child(indexes, parent, number)?;
    indexes.push(node)?;
    Ok(())
}

/// Appends a child of a node. After an error nothing has changed.
pub(crate) fn push_child(
    indexes: &mut Vec<NodeIndex>,
    parent: NodeId,
    child: NodeId,
) -> Result<(), AllocError>
    requires { parent.0 < length indexes.old.items }
    ensures ok { OnOk result (indexes.new.items ≡ updated parent.0 (with_child child.0) indexes.old.items) }
    ensures err { OnErr result (indexes.new.items ≡ indexes.old.items) }
    ensures room { vec_capacity indexes.old ≤ vec_capacity indexes.new }
    ensures count { length indexes.new.items ≡ length indexes.old.items }
{
    indexes[parent.0 as usize].push_child(child)?;
    Ok(())
}

/// Writes a link of ports down at both of its nodes. After an error nothing has changed.
pub(crate) fn push_ports(
    indexes: &mut Vec<NodeIndex>,
    from: Port,
    to: Port,
    number: u64,
) -> Result<(), AllocError>
    requires from_in { from.node.0 < length indexes.old.items }
    requires to_in { to.node.0 < length indexes.old.items }
    ensures ok { OnOk result (indexes.new.items ≡ with_ports (port_view from) (port_view to) number indexes.old.items) }
    ensures err { OnErr result (indexes.new.items ≡ indexes.old.items) }
{
    push_output(indexes, from, number)?;
    let pushed = push_input(indexes, Link::Ports(from, to), to, number);
    if pushed.is_err() {
        take_back_output(indexes, from);
    }
    pushed
}

// Appends a link at an output. After an error nothing has changed.
fn push_output(indexes: &mut Vec<NodeIndex>, from: Port, number: u64) -> Result<(), AllocError>
    requires { from.node.0 < length indexes.old.items }
    ensures ok { OnOk result (indexes.new.items ≡ updated from.node.0 (with_output from.index number) indexes.old.items) }
    ensures err { OnErr result (indexes.new.items ≡ indexes.old.items) }
    ensures count { length indexes.new.items ≡ length indexes.old.items }
{
    indexes[from.node.0 as usize].push_output(from.index, number)?;
    Ok(())
}

// Appends a link at an input. After an error nothing has changed.
fn push_input(
    indexes: &mut Vec<NodeIndex>,
    link: Link,
    to: Port,
    number: u64,
) -> Result<(), AllocError>
    requires { to.node.0 < length indexes.old.items }
    ensures ok { OnOk result (indexes.new.items ≡ updated to.node.0 (with_input to.index (link_view link) number) indexes.old.items) }
    ensures err { OnErr result (indexes.new.items ≡ indexes.old.items) }
    ensures count { length indexes.new.items ≡ length indexes.old.items }
{
    indexes[to.node.0 as usize].push_input(to.index, link, number)?;
    Ok(())
}

// Takes the last link at an output back.
fn take_back_output(indexes: &mut Vec<NodeIndex>, from: Port)
    requires { from.node.0 < length indexes.old.items }
    ensures { (before : List SpecIndex) (number : ℕ) → indexes.old.items ≡ updated from.node.0 (with_output from.index number) before → indexes.new.items ≡ before }
{
    indexes[from.node.0 as usize].take_back_output(from.index);
}

/// Writes an order link down at both of its nodes. After an error nothing has changed.
pub(crate) fn push_order(
    indexes: &mut Vec<NodeIndex>,
    from: NodeId,
    to: NodeId,
    number: u64,
) -> Result<(), AllocError>
    requires from_in { from.0 < length indexes.old.items }
    requires to_in { to.0 < length indexes.old.items }
    ensures ok { OnOk result (indexes.new.items ≡ with_order from.0 to.0 number indexes.old.items) }
    ensures err { OnErr result (indexes.new.items ≡ indexes.old.items) }
{
    push_after(indexes, from, number)?;
    let pushed = push_before(indexes, to, number);
    if pushed.is_err() {
        take_back_after(indexes, from);
    }
    pushed
}

// Appends an order link out of a node. After an error nothing has changed.
fn push_after(indexes: &mut Vec<NodeIndex>, from: NodeId, number: u64) -> Result<(), AllocError>
    requires { from.0 < length indexes.old.items }
    ensures ok { OnOk result (indexes.new.items ≡ updated from.0 (with_after number) indexes.old.items) }
    ensures err { OnErr result (indexes.new.items ≡ indexes.old.items) }
    ensures count { length indexes.new.items ≡ length indexes.old.items }
{
    indexes[from.0 as usize].push_after(number)?;
    Ok(())
}

// Appends an order link into a node. After an error nothing has changed.
fn push_before(indexes: &mut Vec<NodeIndex>, to: NodeId, number: u64) -> Result<(), AllocError>
    requires { to.0 < length indexes.old.items }
    ensures ok { OnOk result (indexes.new.items ≡ updated to.0 (with_before number) indexes.old.items) }
    ensures err { OnErr result (indexes.new.items ≡ indexes.old.items) }
    ensures count { length indexes.new.items ≡ length indexes.old.items }
{
    indexes[to.0 as usize].push_before(number)?;
    Ok(())
}

// Takes the last order link out of a node back.
fn take_back_after(indexes: &mut Vec<NodeIndex>, from: NodeId)
    requires { from.0 < length indexes.old.items }
    ensures { (before : List SpecIndex) (number : ℕ) → indexes.old.items ≡ updated from.0 (with_after number) before → indexes.new.items ≡ before }
{
    indexes[from.0 as usize].take_back_after();
}
