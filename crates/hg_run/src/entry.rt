//! The function with which a run begins.

ghost use Rattle.std.specs.Prelude.{◌≡◌};
ghost use Rattle.hg_ops.specs.OpView.{op_view};
ghost use Rattle.hg_run.specs.Entries.{has_linear, entry_by, entry_of};
ghost use Rattle.hg_run.specs.code.EntryView.{entry_view};

use hg_graph::{Graph, NodeId};
use hg_ops::{OpKind, Row};

/// What is found under a name.
#[derive(Clone, Copy)]
pub enum Entry {
    /// No function has the name.
    Missing,
    /// The function has inputs, or a linear output.
    NotClosed,
    /// The function.
    Closed(NodeId),
}

// Whether one of the types is linear.
fn has_linear(types: &Row) -> bool
    ensures { result ≡ has_linear types.now }
{
    let list = types.as_slice();
    for k in 0..list.len() {
        if list[k].is_linear() {
            return true;
        }
    }
    false
}

// The node, as an entry, where it is a function with the name.
fn entry_by(op: &OpKind, name: &str, node: NodeId) -> Entry
    ensures { entry_view result ≡ entry_by name.now node.0 (op_view op.now) }
{
    match op {
        OpKind::FuncDefn {
            name: other,
            ins,
            outs,
        } => {
            if other.as_str() != name {
                Entry::Missing
            } else if !ins.as_slice().is_empty() || has_linear(outs) {
                Entry::NotClosed
            } else {
                Entry::Closed(node)
            }
        }
        _ => Entry::Missing,
    }
}

/// The function with a name, where it may be run.
pub fn entry_of(graph: &Graph, name: &str) -> Entry
    ensures { entry_view result ≡ entry_of graph.now name.now }
{
    for number in 0..graph.node_count() {
        let node = NodeId(number);
        match entry_by(graph.op(node), name, node) {
            Entry::Missing => {}
            Entry::NotClosed => return Entry::NotClosed,
            Entry::Closed(found) => return Entry::Closed(found),
        }
    }
    Entry::Missing
}
