//! The rules that are tested link by link.

ghost use Rattle.std.specs.Prelude.{◌≡◌, ◌<◌, ◌+◌, ◌↔◌, IsTrue, take, [], ◌∷◌, map, length, slice_get};
ghost use Rattle.std.specs.Option.{option_map};
ghost use Rattle.hg_graph.specs.Graph.{op_at, LinkIsWithin};
ghost use Rattle.hg_graph.specs.Valid as spec;
ghost use Rattle.hg_graph.specs.View.{port_view, link_view, number_of};
ghost use Rattle.hg_ops.specs.Op as kind;
ghost use Rattle.hg_ops.specs.OpView.{op_view};
ghost use Rattle.hg_valid.specs.code.Broken.{FirstToBreak};
ghost use Rattle.hg_valid.specs.code.LinkRules.{LinkKeeps, LeastTarget, lesser};
ghost use Rattle.hg_valid.specs.code.OtherKinds.{other_view, SameKind};
ghost use Rattle.hg_valid.specs.code.Parts.{target, LinkJoins, LinkStays};
ghost use Rattle.hg_valid.specs.code.RuleView.{link_rule_view};
ghost use Rattle.hg_valid.specs.code.Tables.{AreTables};

use crate::op_tests::{is_input, is_operation, is_output};
use crate::rule::LinkRule;
use crate::tables::{Tables, ins_at, outs_at};
use hg_graph::{Graph, Link, NodeId, Port};
use hg_ops::{OpKind, Rows};

// What a port carries that isn't a value.
#[derive(Clone, Copy, PartialEq, Eq)]
enum OtherKind {
    Control,
    Function,
    Constant,
}

// What an op's input carries at a place behind its value inputs, counted from 0 there.
fn other_input(op: &OpKind, place: u64) -> Option<OtherKind>
    ensures { option_map other_view result ≡ slice_get (kind.other_inputs (op_view op.now)) place }
{
    if place > 0 {
        return None;
    }
    match op {
        OpKind::DataflowBlock { .. } | OpKind::ExitBlock { .. } => Some(OtherKind::Control),
        OpKind::Call { .. } | OpKind::LoadFunction { .. } => Some(OtherKind::Function),
        OpKind::LoadConstant => Some(OtherKind::Constant),
        _ => None,
    }
}

// What the outputs of a block carry at a place: there is one for each row.
fn block_output(rows: &Rows, place: u64) -> Option<OtherKind>
    ensures { option_map other_view result ≡ slice_get (map (λ row. kind.ControlPort) rows.now) place }
{
    if place < rows.len() {
        Some(OtherKind::Control)
    } else {
        None
    }
}

// The kind at place 0 alone.
fn only_output(place: u64, carried: OtherKind) -> Option<OtherKind>
    ensures { option_map other_view result ≡ slice_get (other_view carried ∷ []) place }
{
    if place == 0 { Some(carried) } else { None }
}

// What an op's output carries at a place behind its value outputs, counted from 0 there.
fn other_output(op: &OpKind, place: u64) -> Option<OtherKind>
    ensures { option_map other_view result ≡ slice_get (kind.other_outputs (op_view op.now)) place }
{
    match op {
        OpKind::FuncDefn { .. } => only_output(place, OtherKind::Function),
        OpKind::Const { .. } => only_output(place, OtherKind::Constant),
        OpKind::DataflowBlock { rows, .. } => block_output(rows, place),
        _ => None,
    }
}

// Whether the two ops carry the same at these places behind their value ports.
fn same_other_kind(from: &OpKind, output: u64, to: &OpKind, input: u64) -> bool
    ensures { IsTrue result ↔ SameKind (slice_get (kind.other_outputs (op_view from.now)) output) (slice_get (kind.other_inputs (op_view to.now)) input) }
{
    match other_output(from, output) {
        Some(kind) => other_input(to, input) == Some(kind),
        None => false,
    }
}

// Whether an output port and an input port are of one kind.
fn joins_ports(graph: &Graph, tables: &Tables, from: Port, to: Port) -> bool
    requires from_in { from.node.0 < length graph.now.nodes }
    requires to_in { to.node.0 < length graph.now.nodes }
    requires tables { AreTables graph.now tables.now }
    ensures { IsTrue result ↔ spec.JoinsPorts graph.now (port_view from) (port_view to) }
{
    let outs = outs_at(graph, tables, from.node);
    let ins = ins_at(graph, tables, to.node);
    match (outs.get(from.index), ins.get(to.index)) {
        (Some(given), Some(taken)) => given.is_same(taken),
        (None, None) => same_other_kind(
            graph.op(from.node),
            from.index - outs.len(),
            graph.op(to.node),
            to.index - ins.len(),
        ),
        _ => false,
    }
}

// Whether two nodes may be ordered.
fn joins_nodes(graph: &Graph, before: NodeId, after: NodeId) -> bool
    requires before_in { before.0 < length graph.now.nodes }
    requires after_in { after.0 < length graph.now.nodes }
    ensures { IsTrue result ↔ spec.JoinsNodes graph.now before.0 after.0 }
{
    let first = graph.op(before);
    let second = graph.op(after);
    is_operation(first) && is_operation(second) && !is_output(first) && !is_input(second)
}

// Whether the link joins ports of one kind, or nodes that may be ordered.
fn joins(graph: &Graph, tables: &Tables, link: Link) -> bool
    requires link_in { LinkIsWithin (length graph.now.nodes) (link_view link) }
    requires tables { AreTables graph.now tables.now }
    ensures { IsTrue result ↔ LinkJoins graph.now (link_view link) }
{
    match link {
        Link::Ports(from, to) => joins_ports(graph, tables, from, to),
        Link::Order(before, after) => joins_nodes(graph, before, after),
    }
}

// Whether it is the way on from a block.
fn is_control(carried: Option<OtherKind>) -> bool
    ensures { result ≡ spec.is_local (option_map other_view carried) }
{
    matches!(carried, Some(OtherKind::Control))
}

// Whether an input port carries a value or the way on from a block.
fn is_local(graph: &Graph, tables: &Tables, to: Port) -> bool
    requires to_in { to.node.0 < length graph.now.nodes }
    requires tables { AreTables graph.now tables.now }
    ensures { result ≡ spec.is_local (slice_get (kind.input_ports (op_at graph.now to.node.0)) to.index) }
{
    let ins = ins_at(graph, tables, to.node);
    to.index < ins.len() || is_control(other_input(graph.op(to.node), to.index - ins.len()))
}

// Whether the link stays under one parent, where it is of a kind that has to.
fn stays(graph: &Graph, tables: &Tables, link: Link) -> bool
    requires link_in { LinkIsWithin (length graph.now.nodes) (link_view link) }
    requires tables { AreTables graph.now tables.now }
    ensures { IsTrue result ↔ LinkStays graph.now (link_view link) }
{
    match link {
        Link::Ports(from, to) => {
            !is_local(graph, tables, to) || graph.parent(from.node).0 == graph.parent(to.node).0
        }
        Link::Order(before, after) => graph.parent(before).0 == graph.parent(after).0,
    }
}

// Whether the link keeps the rule.
fn link_keeps(graph: &Graph, tables: &Tables, rule: LinkRule, link: Link) -> bool
    requires link_in { LinkIsWithin (length graph.now.nodes) (link_view link) }
    requires tables { AreTables graph.now tables.now }
    ensures { IsTrue result ↔ LinkKeeps graph.now rule (link_view link) }
{
    match rule {
        LinkRule::Joins => joins(graph, tables, link),
        LinkRule::SameParent => stays(graph, tables, link),
    }
}

// The node to which a link leads, or a smaller one that was found before.
fn lesser(found: Option<NodeId>, link: Link) -> NodeId
    ensures { result.0 ≡ lesser (option_map number_of found) (target (link_view link)) }
{
    let target = match link {
        Link::Ports(_, to) => to.node,
        Link::Order(_, after) => after,
    };
    match found {
        Some(node) if node.0 < target.0 => node,
        _ => target,
    }
}

// The least node to which one of the first links leads that breaks the rule, with one link more.
fn with_link(
    graph: &Graph,
    tables: &Tables,
    rule: LinkRule,
    number: u64,
    found: Option<NodeId>,
) -> Option<NodeId>
    requires tables { AreTables graph.now tables.now }
    requires link_in { number < length graph.now.links }
    requires found { LeastTarget graph.now rule (take number graph.now.links) (option_map number_of found) }
    ensures { LeastTarget graph.now rule (take (number + 1) graph.now.links) (option_map number_of result) }
{
    let _count = graph.node_count();
    let Some(link) = graph.link_at(number) else {
        return found;
    };
    if link_keeps(graph, tables, rule, link) {
        found
    } else {
        Some(lesser(found, link))
    }
}

/// The least node to which a link leads that breaks the rule; `None` exactly where every link keeps it.
pub(crate) fn first_target(graph: &Graph, tables: &Tables, rule: LinkRule) -> Option<NodeId>
    requires { AreTables graph.now tables.now }
    ensures { FirstToBreak graph.now (link_rule_view rule) (option_map number_of result) }
{
    let _count = graph.node_count();
    let mut found = None;
    for number in 0..graph.link_count() {
        found = with_link(graph, tables, rule, number, found);
    }
    found
}
