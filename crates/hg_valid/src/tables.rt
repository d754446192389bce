//! What is kept of the nodes of a graph while its rules are tested.

ghost use Rattle.std.specs.Prelude.{◌≡◌, ◌<◌, IfOk, length};
ghost use Rattle.hg_graph.specs.Graph.{op_at};
ghost use Rattle.hg_ops.specs.Op.{ins_of, outs_of};
ghost use Rattle.hg_valid.specs.code.Tables.{AreTables};

use crate::ancestors::{Jump, jumps_of};
use crate::signatures::{Signature, signatures_of};
use hg_graph::{Graph, NodeId};
use hg_ops::Row;
use std::alloc::{AllocError, Global};

// The types at the value ports of each node, and a step up from each node.
#[derive(Drop)]
pub(crate) struct Tables {
    pub(crate) signatures: Vec<Signature>,
    pub(crate) jumps: Vec<Jump>,
}

/// The tables of a graph.
pub(crate) fn tables_of(alloc: Global, graph: &Graph) -> Result<Tables, AllocError>
    ensures { IfOk result (λ tables. AreTables graph.now tables) }
{
    Ok(Tables {
        signatures: signatures_of(alloc, graph)?,
        jumps: jumps_of(alloc, graph)?,
    })
}

/// The types at a node's value inputs.
pub(crate) fn ins_at<'t>(graph: &Graph, tables: &'t Tables, node: NodeId) -> &'t Row
    requires node_in { node.0 < length graph.now.nodes }
    requires tables { AreTables graph.now tables.now }
    ensures { result.now ≡ ins_of (op_at graph.now node.0) }
{
    &tables.signatures[node.0 as usize].ins
}

/// The types at a node's value outputs.
pub(crate) fn outs_at<'t>(graph: &Graph, tables: &'t Tables, node: NodeId) -> &'t Row
    requires node_in { node.0 < length graph.now.nodes }
    requires tables { AreTables graph.now tables.now }
    ensures { result.now ≡ outs_of (op_at graph.now node.0) }
{
    &tables.signatures[node.0 as usize].outs
}
