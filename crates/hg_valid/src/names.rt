//! The rule of function names.

ghost use Rattle.std.specs.Prelude.{◌≡◌, IfOk};
ghost use Rattle.std.specs.Option.{option_map, option_copied};
ghost use Rattle.hg_graph.specs.Valid.{Names, name_of};
ghost use Rattle.hg_graph.specs.View.{number_of};
ghost use Rattle.hg_ops.specs.OpView.{op_view};
ghost use Rattle.hg_valid.specs.code.Broken.{FirstToBreak};

use hg_graph::{Graph, NodeId};
use hg_ops::OpKind;
use std::alloc::{AllocError, Global};
use std::collections::BTreeMap;

// The name of a function.
fn function_name(op: &OpKind) -> Option<&str>
    ensures { option_copied result ≡ name_of (op_view op.now) }
{
    match op {
        OpKind::FuncDefn { name, .. } => Some(name.as_str()),
        _ => None,
    }
}

/// The least function with the name of one before it; `None` exactly where all names differ.
pub(crate) fn first_named_again(alloc: Global, graph: &Graph) -> Result<Option<NodeId>, AllocError>
    ensures { IfOk result (λ first. FirstToBreak graph.now Names (option_map number_of first)) }
{
    let mut names: BTreeMap<&str, u64> = BTreeMap::new(alloc);
    for n in 0..graph.node_count() {
        if let Some(name) = function_name(graph.op(NodeId(n))) {
            if names.insert(name, n)?.is_some() {
                return Ok(Some(NodeId(n)));
            }
        }
    }
    Ok(None)
}
