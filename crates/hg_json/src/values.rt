//! The values of the entries of a graph's text.

ghost use Rattle.std.specs.Prelude.{◌≡◌, IfOk};
ghost use Rattle.serde_json.specs.Data.{object};
ghost use Rattle.serde_json.specs.View.{view as seen};
ghost use Rattle.hg_graph.specs.Graph.{Ports, Order};
ghost use Rattle.hg_graph.specs.View.{port_view, link_view};
ghost use Rattle.hg_ops.specs.OpView.{op_view};
ghost use Rattle.hg_json.specs.GraphText as spec;
ghost use Rattle.hg_json.specs.GraphText.{row_data, rows_data, node_members, link_data};

use crate::keyless::keyless_ops;
use crate::type_writing::type_value;
use hg_graph::{Link, NodeId, Port};
use hg_ops::{ExtOp, OpKind, Row, Rows, name_of};
use serde_json::{Value, json};
use std::alloc::{AllocError, Global};

// A list of types.
fn row_value(alloc: Global, row: &Row) -> Result<Value, AllocError>
    ensures { IfOk result (λ made. seen made ≡ row_data row.now) }
{
    let types = row.as_slice();
    let mut items = Vec::new(alloc);
    for k in 0..types.len() {
        items.push(type_value(alloc, &types[k])?)?;
    }
    Ok(Value::Array(items))
}

// A list of such lists.
fn rows_value(alloc: Global, rows: &Rows) -> Result<Value, AllocError>
    ensures { IfOk result (λ made. seen made ≡ rows_data rows.now) }
{
    let rows = rows.as_slice();
    let mut items = Vec::new(alloc);
    for k in 0..rows.len() {
        items.push(row_value(alloc, &rows[k])?)?;
    }
    Ok(Value::Array(items))
}

// A node whose op has no further keys.
fn bare(alloc: Global, op: &str, parent: u64) -> Result<Value, AllocError>
    ensures { IfOk result (λ made. seen made ≡ object (spec.bare op.now parent)) }
{
    json!(in alloc; {"op": op, "parent": parent})
}

// A node whose op has a list of types.
fn typed(alloc: Global, op: &str, types: &Row, parent: u64) -> Result<Value, AllocError>
    ensures { IfOk result (λ made. seen made ≡ object (spec.typed op.now types.now parent)) }
{
    let types = row_value(alloc, types)?;
    json!(in alloc; {"op": op, "parent": parent, "types": types})
}

// A node whose op has inputs and outputs.
fn two_rows(
    alloc: Global,
    op: &str,
    ins: &Row,
    outs: &Row,
    parent: u64,
) -> Result<Value, AllocError>
    ensures { IfOk result (λ made. seen made
        ≡ object (spec.two_rows op.now ins.now outs.now parent)) }
{
    let ins = row_value(alloc, ins)?;
    let outs = row_value(alloc, outs)?;
    json!(in alloc; {"ins": ins, "op": op, "outs": outs, "parent": parent})
}

// A result with its tag.
fn tagged(alloc: Global, op: &str, tag: &str, parent: u64) -> Result<Value, AllocError>
    ensures { IfOk result (λ made. seen made ≡ object (spec.tagged op.now tag.now parent)) }
{
    json!(in alloc; {"op": op, "parent": parent, "tag": tag})
}

// A function.
fn function(
    alloc: Global,
    name: &str,
    ins: &Row,
    outs: &Row,
    parent: u64,
) -> Result<Value, AllocError>
    ensures { IfOk result (λ made. seen made
        ≡ object (spec.function name.now ins.now outs.now parent)) }
{
    let ins = row_value(alloc, ins)?;
    let outs = row_value(alloc, outs)?;
    json!(in alloc; {"ins": ins, "name": name, "op": "FuncDefn", "outs": outs, "parent": parent})
}

// A whole number.
fn constant(alloc: Global, value: i64, parent: u64) -> Result<Value, AllocError>
    ensures { IfOk result (λ made. seen made ≡ object (spec.constant value parent)) }
{
    json!(in alloc; {"op": "Const", "parent": parent, "value": value})
}

// A block.
fn block(
    alloc: Global,
    ins: &Row,
    rows: &Rows,
    others: &Row,
    parent: u64,
) -> Result<Value, AllocError>
    ensures { IfOk result (λ made. seen made
        ≡ object (spec.block ins.now rows.now others.now parent)) }
{
    let ins = row_value(alloc, ins)?;
    let rows = rows_value(alloc, rows)?;
    let others = row_value(alloc, others)?;
    json!(in alloc; {
        "ins": ins,
        "op": "DataflowBlock",
        "others": others,
        "parent": parent,
        "rows": rows
    })
}

// A `Conditional`.
fn conditional(
    alloc: Global,
    rows: &Rows,
    ins: &Row,
    outs: &Row,
    parent: u64,
) -> Result<Value, AllocError>
    ensures { IfOk result (λ made. seen made
        ≡ object (spec.conditional rows.now ins.now outs.now parent)) }
{
    let rows = rows_value(alloc, rows)?;
    let ins = row_value(alloc, ins)?;
    let outs = row_value(alloc, outs)?;
    json!(in alloc; {"ins": ins, "op": "Conditional", "outs": outs, "parent": parent, "rows": rows})
}

// A `TailLoop`.
fn tail_loop(
    alloc: Global,
    again: &Row,
    leave: &Row,
    rest: &Row,
    parent: u64,
) -> Result<Value, AllocError>
    ensures { IfOk result (λ made. seen made
        ≡ object (spec.tail_loop again.now leave.now rest.now parent)) }
{
    let again = row_value(alloc, again)?;
    let leave = row_value(alloc, leave)?;
    let rest = row_value(alloc, rest)?;
    json!(in alloc; {
        "again": again,
        "leave": leave,
        "op": "TailLoop",
        "parent": parent,
        "rest": rest
    })
}

// A `Tag`.
fn variant(alloc: Global, rows: &Rows, tag: u64, parent: u64) -> Result<Value, AllocError>
    ensures { IfOk result (λ made. seen made ≡ object (spec.variant rows.now tag parent)) }
{
    let rows = rows_value(alloc, rows)?;
    json!(in alloc; {"op": "Tag", "parent": parent, "rows": rows, "tag": tag})
}

macro_rules! value_of {
    ([$alloc:ident $op:ident $parent:ident] [$($keyless:ident)*]) => {
        match $op {
            OpKind::Module => bare($alloc, "Module", $parent),
            OpKind::FuncDefn { name, ins, outs } => {
                function($alloc, name.as_str(), ins, outs, $parent)
            }
            OpKind::Const { value } => constant($alloc, *value, $parent),
            OpKind::Input { types } => typed($alloc, "Input", types, $parent),
            OpKind::Output { types } => typed($alloc, "Output", types, $parent),
            OpKind::Dfg { ins, outs } => two_rows($alloc, "DFG", ins, outs, $parent),
            OpKind::Cfg { ins, outs } => two_rows($alloc, "CFG", ins, outs, $parent),
            OpKind::DataflowBlock { ins, rows, others } => {
                block($alloc, ins, rows, others, $parent)
            }
            OpKind::ExitBlock { types } => typed($alloc, "ExitBlock", types, $parent),
            OpKind::Conditional { rows, ins, outs } => {
                conditional($alloc, rows, ins, outs, $parent)
            }
            OpKind::Case { ins, outs } => two_rows($alloc, "Case", ins, outs, $parent),
            OpKind::TailLoop { again, leave, rest } => {
                tail_loop($alloc, again, leave, rest, $parent)
            }
            OpKind::Tag { rows, tag } => variant($alloc, rows, *tag, $parent),
            OpKind::Call { ins, outs } => two_rows($alloc, "Call", ins, outs, $parent),
            OpKind::CallIndirect { ins, outs } => {
                two_rows($alloc, "CallIndirect", ins, outs, $parent)
            }
            OpKind::LoadConstant => bare($alloc, "LoadConstant", $parent),
            OpKind::LoadFunction { ins, outs } => {
                two_rows($alloc, "LoadFunction", ins, outs, $parent)
            }
            OpKind::ResultInt { tag } => {
                tagged($alloc, name_of(ExtOp::ResultInt), tag.as_str(), $parent)
            }
            OpKind::ResultBool { tag } => {
                tagged($alloc, name_of(ExtOp::ResultBool), tag.as_str(), $parent)
            }
            OpKind::Unpack { types } => typed($alloc, name_of(ExtOp::Unpack), types, $parent),
            $(OpKind::$keyless => bare($alloc, name_of(ExtOp::$keyless), $parent),)*
        }
    };
}

/// The value of a node.
#[tactic(auto, unfolding(crate::specs::GraphText::node_members))]
pub fn node_value(alloc: Global, op: &OpKind, parent: u64) -> Result<Value, AllocError>
    ensures { IfOk result (λ made. seen made ≡ object (node_members (op_view op.now) parent)) }
{
    keyless_ops!(value_of, alloc op parent)
}

/// The value of a link.
pub fn link_value(alloc: Global, link: Link) -> Result<Value, AllocError>
    ensures { IfOk result (λ made. seen made ≡ link_data (link_view link)) }
{
    match link {
        Link::Ports(from, to) => ports_value(alloc, from, to),
        Link::Order(before, after) => order_value(alloc, before, after),
    }
}

fn ports_value(alloc: Global, from: Port, to: Port) -> Result<Value, AllocError>
    ensures { IfOk result (λ made. seen made ≡ link_data (Ports (port_view from) (port_view to))) }
{
    let Port {
        node: NodeId(n),
        index: p,
    } = from;
    let Port {
        node: NodeId(m),
        index: q,
    } = to;
    json!(in alloc; [[n, p], [m, q]])
}

fn order_value(alloc: Global, before: NodeId, after: NodeId) -> Result<Value, AllocError>
    ensures { IfOk result (λ made. seen made ≡ link_data (Order before.0 after.0)) }
{
    let NodeId(n) = before;
    let NodeId(m) = after;
    json!(in alloc; [[n, null], [m, null]])
}
