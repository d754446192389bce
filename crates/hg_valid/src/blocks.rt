//! The rules of blocks, of static links, and of functions that are called or loaded.

ghost use Rattle.std.specs.Prelude.{◌≡◌, ◌<◌, ◌↔◌, IsTrue, IfSome, IfNone, length};
ghost use Rattle.hg_graph.specs.Graph.{op_at, static_input};
ghost use Rattle.hg_graph.specs.Valid as spec;
ghost use Rattle.hg_graph.specs.View.{port_view};
ghost use Rattle.hg_ops.specs.Op as kind;
ghost use Rattle.hg_ops.specs.OpView.{op_view};
ghost use Rattle.hg_valid.specs.code.Broken.{AllKeep};
ghost use Rattle.hg_valid.specs.code.Parts.{BlockFits, HasStaticInput, IsOnlySource, IsFunctionOf};
ghost use Rattle.hg_valid.specs.code.Tables.{AreTables};

use crate::ancestors::is_ancestor;
use crate::port_links::{only_source, only_target};
use crate::rows::is_joined;
use crate::tables::{Tables, ins_at};
use hg_graph::{Graph, NodeId, Port};
use hg_ops::{OpKind, Row, Rows};

// Whether the op is a block, or an exit, that takes the types of a row and then those of another.
fn block_fits(op: &OpKind, row: &Row, others: &Row) -> bool
    ensures { IsTrue result ↔ BlockFits (op_view op.now) row.now others.now }
{
    match op {
        OpKind::DataflowBlock { ins, .. } => is_joined(ins, row, others),
        OpKind::ExitBlock { types } => is_joined(types, row, others),
        _ => false,
    }
}

// Whether the control output of a row has one link, and to a block that fits.
fn has_successor(graph: &Graph, from: Port, row: &Row, others: &Row) -> bool
    requires node_in { from.node.0 < length graph.now.nodes }
    requires port_in { from.index < length (kind.output_ports (op_at graph.now from.node.0)) }
    ensures { IsTrue result ↔ spec.HasSuccessor graph.now from.node.0 from.index row.now others.now }
{
    match only_target(graph, from) {
        Some(to) => block_fits(graph.op(to.node), row, others),
        None => false,
    }
}

// Whether each control output of a block has its successor.
fn has_successors(graph: &Graph, node: NodeId, rows: &Rows, others: &Row) -> bool
    requires node_in { node.0 < length graph.now.nodes }
    requires ports_in { length rows.now ≡ length (kind.output_ports (op_at graph.now node.0)) }
    ensures { IsTrue result ↔ spec.HasSuccessors graph.now node.0 rows.now others.now }
{
    let rows = rows.as_slice();
    for place in 0..rows.len() {
        let from = Port {
            node,
            index: place as u64,
        };
        if !has_successor(graph, from, &rows[place], others) {
            return false;
        }
    }
    true
}

/// Whether the node has its successors where it is a block.
pub(crate) fn keeps_successors(graph: &Graph, node: NodeId) -> bool
    requires { node.0 < length graph.now.nodes }
    ensures { IsTrue result ↔ spec.KeepsSuccessors graph.now node.0 (op_at graph.now node.0) }
{
    match graph.op(node) {
        OpKind::DataflowBlock { rows, others, .. } => has_successors(graph, node, rows, others),
        _ => true,
    }
}

// The source of the only link into a node's static input.
fn static_source(graph: &Graph, tables: &Tables, node: NodeId) -> Option<Port>
    requires node_in { node.0 < length graph.now.nodes }
    requires port_in { HasStaticInput (op_at graph.now node.0) }
    requires tables { AreTables graph.now tables.now }
    ensures some { IfSome result (λ from. IsOnlySource graph.now (static_input graph.now node.0) (port_view from)) }
    ensures none { IfNone result (spec.HasStatic graph.now node.0 → ⊥) }
{
    let to = Port {
        node,
        index: ins_at(graph, tables, node).len(),
    };
    only_source(graph, to)
}

// Whether the node has one static link, and the parent of its source contains the node.
fn has_constant(graph: &Graph, tables: &Tables, node: NodeId) -> bool
    requires node_in { node.0 < length graph.now.nodes }
    requires port_in { HasStaticInput (op_at graph.now node.0) }
    requires tables { AreTables graph.now tables.now }
    requires places { AllKeep graph.now spec.Places }
    ensures { IsTrue result ↔ spec.HasConstant graph.now node.0 }
{
    match static_source(graph, tables, node) {
        Some(source) => is_ancestor(graph, &tables.jumps, graph.parent(source.node), node),
        None => false,
    }
}

/// Whether the node has its one static link where it is a `Call`, a `LoadConstant` or a `LoadFunction`, and stands where
/// it sees a constant.
pub(crate) fn keeps_static(graph: &Graph, tables: &Tables, node: NodeId) -> bool
    requires node_in { node.0 < length graph.now.nodes }
    requires tables { AreTables graph.now tables.now }
    requires places { AllKeep graph.now spec.Places }
    ensures { IsTrue result ↔ spec.KeepsStatic graph.now node.0 (op_at graph.now node.0) }
{
    match graph.op(node) {
        OpKind::Call { .. } | OpKind::LoadFunction { .. } => {
            static_source(graph, tables, node).is_some()
        }
        OpKind::LoadConstant => has_constant(graph, tables, node),
        _ => true,
    }
}

// Whether the op is a function with these arguments and results.
fn is_function_of(op: &OpKind, ins: &Row, outs: &Row) -> bool
    ensures { IsTrue result ↔ IsFunctionOf (op_view op.now) ins.now outs.now }
{
    match op {
        OpKind::FuncDefn {
            ins: own,
            outs: given,
            ..
        } => own.is_same(ins) && given.is_same(outs),
        _ => false,
    }
}

// Whether the first link into the node's static input comes from a function with these arguments and results.
fn has_callee(graph: &Graph, tables: &Tables, node: NodeId, ins: &Row, outs: &Row) -> bool
    requires node_in { node.0 < length graph.now.nodes }
    requires tables { AreTables graph.now tables.now }
    ensures { IsTrue result ↔ spec.HasCallee graph.now node.0 ins.now outs.now }
{
    let _count = graph.node_count();
    let to = Port {
        node,
        index: ins_at(graph, tables, node).len(),
    };
    match graph.feeder(to) {
        Some(source) => is_function_of(graph.op(source.node), ins, outs),
        None => false,
    }
}

/// Whether the node calls or loads a function with its own arguments and results where it is a `Call` or a
/// `LoadFunction`.
pub(crate) fn keeps_callee(graph: &Graph, tables: &Tables, node: NodeId) -> bool
    requires node_in { node.0 < length graph.now.nodes }
    requires tables { AreTables graph.now tables.now }
    ensures { IsTrue result ↔ spec.KeepsCallee graph.now node.0 (op_at graph.now node.0) }
{
    match graph.op(node) {
        OpKind::Call { ins, outs } | OpKind::LoadFunction { ins, outs } => {
            has_callee(graph, tables, node, ins, outs)
        }
        _ => true,
    }
}
