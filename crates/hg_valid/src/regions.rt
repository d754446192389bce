//! The rules of the first children of a node.

ghost use Rattle.std.specs.Prelude.{◌≡◌, ◌↔◌, ◌<◌, ◌++◌, length, IsTrue, ℕ, Some, slice_get, false};
ghost use Rattle.std.specs.Option.{option_map_or};
ghost use Rattle.hg_graph.specs.Graph.{op_at, children};
ghost use Rattle.hg_graph.specs.Valid as spec;
ghost use Rattle.hg_ops.specs.Op as kind;
ghost use Rattle.hg_ops.specs.OpView.{op_view};
ghost use Rattle.hg_valid.specs.code.Parts.{NoOtherBoundary, NoOtherExit, IsPairOf, IsEntryOf, AreFirstBlocks};

use crate::op_tests::{is_boundary, is_dataflow_container, is_exit};
use crate::places::child;
use crate::rows::{has_inner_ins, has_inner_outs, is_joined};
use hg_graph::{Graph, NodeId};
use hg_ops::{OpKind, Row, Rows};

// Whether the op is the `Input` of a region under the other op.
fn is_input_of(op: &OpKind, container: &OpKind) -> bool
    ensures { IsTrue result ↔ (op_view op.now ≡ kind.Input (kind.inner_ins (op_view container.now))) }
{
    match op {
        OpKind::Input { types } => has_inner_ins(types, container),
        _ => false,
    }
}

// Whether the op is the `Output` of a region under the other op.
fn is_output_of(op: &OpKind, container: &OpKind) -> bool
    ensures { IsTrue result ↔ (op_view op.now ≡ kind.Output (kind.inner_outs (op_view container.now))) }
{
    match op {
        OpKind::Output { types } => has_inner_outs(types, container),
        _ => false,
    }
}

// Whether the ops are the `Input` and the `Output` of a region under the third op.
fn is_pair_of(first: &OpKind, second: &OpKind, container: &OpKind) -> bool
    ensures { IsTrue result ↔ IsPairOf (op_view container.now) (op_view first.now) (op_view second.now) }
{
    is_input_of(first, container) && is_output_of(second, container)
}

// Whether there is a child at a place, and it is an `Input` or an `Output`.
fn child_is_boundary(graph: &Graph, node: NodeId, place: u64) -> bool
    requires { node.0 < length graph.now.nodes }
    ensures { result ≡ option_map_or (λ child. spec.is_boundary (op_at graph.now child)) (slice_get (children graph.now node.0) place) false }
{
    match child(graph, node, place) {
        Some(child) => is_boundary(graph.op(child)),
        None => false,
    }
}

// Whether no child from place 2 on is an `Input` or an `Output`.
fn no_other_boundary(graph: &Graph, node: NodeId) -> bool
    requires { node.0 < length graph.now.nodes }
    ensures { IsTrue result ↔ NoOtherBoundary graph.now node.0 }
{
    for place in 2..graph.child_count(node) {
        if child_is_boundary(graph, node, place) {
            return false;
        }
    }
    true
}

// Whether there is a child at a place, and it is an `ExitBlock`.
fn child_is_exit(graph: &Graph, node: NodeId, place: u64) -> bool
    requires { node.0 < length graph.now.nodes }
    ensures { result ≡ option_map_or (λ child. spec.is_exit (op_at graph.now child)) (slice_get (children graph.now node.0) place) false }
{
    match child(graph, node, place) {
        Some(child) => is_exit(graph.op(child)),
        None => false,
    }
}

// Whether no child from place 2 on is an `ExitBlock`.
fn no_other_exit(graph: &Graph, node: NodeId) -> bool
    requires { node.0 < length graph.now.nodes }
    ensures { IsTrue result ↔ NoOtherExit graph.now node.0 }
{
    for place in 2..graph.child_count(node) {
        if child_is_exit(graph, node, place) {
            return false;
        }
    }
    true
}

/// Whether a dataflow container has its `Input` and its `Output` as its first children, and nowhere else.
pub(crate) fn has_boundary(graph: &Graph, node: NodeId) -> bool
    requires { node.0 < length graph.now.nodes }
    ensures { IsTrue result ↔ spec.HasBoundary graph.now node.0 }
{
    let container = graph.op(node);
    match (child(graph, node, 0), child(graph, node, 1)) {
        (Some(input), Some(output)) => {
            is_pair_of(graph.op(input), graph.op(output), container)
                && no_other_boundary(graph, node)
        }
        _ => false,
    }
}

/// Whether the node has its `Input` and its `Output` where it is a dataflow container.
pub(crate) fn keeps_boundary(graph: &Graph, node: NodeId) -> bool
    requires { node.0 < length graph.now.nodes }
    ensures { IsTrue result ↔ spec.Keeps graph.now spec.Boundaries node.0 }
{
    !is_dataflow_container(graph.op(node)) || has_boundary(graph, node)
}

// Whether the op is a `DataflowBlock` with these arguments.
fn is_entry_of(op: &OpKind, ins: &Row) -> bool
    ensures { IsTrue result ↔ IsEntryOf (op_view op.now) ins.now }
{
    match op {
        OpKind::DataflowBlock { ins: own, .. } => own.is_same(ins),
        _ => false,
    }
}

// Whether the op is an `ExitBlock` with these types.
fn is_exit_of(op: &OpKind, outs: &Row) -> bool
    ensures { IsTrue result ↔ (op_view op.now ≡ kind.ExitBlock outs.now) }
{
    match op {
        OpKind::ExitBlock { types } => types.is_same(outs),
        _ => false,
    }
}

// Whether the ops are a block with these arguments and an exit with these types.
fn are_first_blocks(first: &OpKind, second: &OpKind, ins: &Row, outs: &Row) -> bool
    ensures { IsTrue result ↔ AreFirstBlocks (op_view first.now) (op_view second.now) ins.now outs.now }
{
    is_entry_of(first, ins) && is_exit_of(second, outs)
}

// Whether the first child is a block with these arguments, the second the exit with these types, and no other one an exit.
fn has_blocks(graph: &Graph, node: NodeId, ins: &Row, outs: &Row) -> bool
    requires { node.0 < length graph.now.nodes }
    ensures { IsTrue result ↔ spec.HasBlocks graph.now node.0 ins.now outs.now }
{
    match (child(graph, node, 0), child(graph, node, 1)) {
        (Some(entry), Some(exit)) => {
            are_first_blocks(graph.op(entry), graph.op(exit), ins, outs)
                && no_other_exit(graph, node)
        }
        _ => false,
    }
}

/// Whether the node has its entry and its exit where it is a `Cfg`.
pub(crate) fn keeps_blocks(graph: &Graph, node: NodeId) -> bool
    requires { node.0 < length graph.now.nodes }
    ensures { IsTrue result ↔ spec.KeepsBlocks graph.now node.0 (op_at graph.now node.0) }
{
    match graph.op(node) {
        OpKind::Cfg { ins, outs } => has_blocks(graph, node, ins, outs),
        _ => true,
    }
}

// Whether the op is a `Case` that takes the types of a row and then those of another, and gives these.
fn is_case_of(op: &OpKind, row: &Row, ins: &Row, outs: &Row) -> bool
    ensures { IsTrue result ↔ (op_view op.now ≡ kind.Case (row.now ++ ins.now) outs.now) }
{
    match op {
        OpKind::Case {
            ins: own,
            outs: given,
        } => is_joined(own, row, ins) && given.is_same(outs),
        _ => false,
    }
}

// Whether the child at a place is the case of a row.
fn has_case(graph: &Graph, node: NodeId, place: u64, row: &Row, ins: &Row, outs: &Row) -> bool
    requires { node.0 < length graph.now.nodes }
    ensures { IsTrue result ↔ spec.HasCase graph.now node.0 place row.now ins.now outs.now }
{
    match child(graph, node, place) {
        Some(case) => is_case_of(graph.op(case), row, ins, outs),
        None => false,
    }
}

// Whether the children are the cases of these rows, in order.
fn has_cases(graph: &Graph, node: NodeId, rows: &Rows, ins: &Row, outs: &Row) -> bool
    requires { node.0 < length graph.now.nodes }
    ensures { IsTrue result ↔ spec.HasCases graph.now node.0 rows.now ins.now outs.now }
{
    let rows = rows.as_slice();
    if graph.child_count(node) != rows.len() as u64 {
        return false;
    }
    for place in 0..rows.len() {
        if !has_case(graph, node, place as u64, &rows[place], ins, outs) {
            return false;
        }
    }
    true
}

/// Whether the node has its cases where it is a `Conditional`.
pub(crate) fn keeps_cases(graph: &Graph, node: NodeId) -> bool
    requires { node.0 < length graph.now.nodes }
    ensures { IsTrue result ↔ spec.KeepsCases graph.now node.0 (op_at graph.now node.0) }
{
    match graph.op(node) {
        OpKind::Conditional { rows, ins, outs } => has_cases(graph, node, rows, ins, outs),
        _ => true,
    }
}
