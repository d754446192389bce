//! The functions of a graph, found by their names.

ghost use Rattle.std.specs.Prelude.{◌≡◌, IfOk};
ghost use Rattle.std.specs.Option.{option_copied, option_map};
ghost use Rattle.hg_graph.specs.Valid.{name_of};
ghost use Rattle.hg_graph.specs.Value.{callee, is_signature, signature_of};
ghost use Rattle.hg_graph.specs.View.{number_of};
ghost use Rattle.hg_ops.specs.OpView.{op_view};
ghost use Rattle.hg_run.specs.code.FunctionsView.{HasFunctions, number_in};

use crate::reads::op_of;
use gp_base::Name;
use hg_graph::{Graph, NodeId};
use hg_ops::{OpKind, Row};
use std::alloc::{AllocError, Global};
use std::collections::BTreeMap;

/// The number of the first function of each name.
#[derive(Drop)]
pub struct Functions<'a> {
    pub numbers: BTreeMap<&'a str, u64>,
}

// The name of a function.
fn function_name(op: &OpKind) -> Option<&str>
    ensures { option_copied result ≡ name_of (op_view op.now) }
{
    match op {
        OpKind::FuncDefn { name, .. } => Some(name.as_str()),
        _ => None,
    }
}

/// The functions of a graph.
pub fn functions_of<'a>(alloc: Global, graph: &'a Graph) -> Result<Functions<'a>, AllocError>
    ensures { IfOk result (λ functions. HasFunctions graph.now functions) }
{
    let mut numbers: BTreeMap<&str, u64> = BTreeMap::new(alloc);
    let mut n = graph.node_count();
    while n > 0 {
        n -= 1;
        if let Some(name) = function_name(graph.op(NodeId(n))) {
            let _ = numbers.insert(name, n)?;
        }
    }
    Ok(Functions { numbers })
}

// The number of the function of a name.
fn number_named(functions: &Functions<'_>, name: &str) -> Option<u64>
    ensures { result ≡ number_in functions.now.numbers name.now }
{
    functions.numbers.get(name).copied()
}

// Whether a function has these types.
fn has_types(op: &OpKind, ins: &Row, outs: &Row) -> bool
    ensures { result ≡ is_signature ins.now outs.now (signature_of (op_view op.now)) }
{
    match op {
        OpKind::FuncDefn {
            ins: own_ins,
            outs: own_outs,
            ..
        } => own_ins.is_same(ins) && own_outs.is_same(outs),
        _ => false,
    }
}

/// The function of a name, where it has these types.
pub fn callee(
    graph: &Graph,
    functions: &Functions<'_>,
    name: &Name,
    ins: &Row,
    outs: &Row,
) -> Option<NodeId>
    requires { HasFunctions graph.now functions.now }
    ensures { option_map number_of result ≡ callee graph.now ins.now outs.now name.now }
{
    match number_named(functions, name.as_str()) {
        None => None,
        Some(number) => {
            let node = NodeId(number);
            match op_of(graph, node) {
                None => None,
                Some(op) => {
                    if has_types(op, ins, outs) {
                        Some(node)
                    } else {
                        None
                    }
                }
            }
        }
    }
}
