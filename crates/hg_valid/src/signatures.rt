//! The types at the value ports of all nodes.

ghost use Rattle.std.specs.Prelude.{IfOk, length};
ghost use Rattle.hg_valid.specs.code.Signatures.{AreSignatures};

use hg_graph::{Graph, NodeId};
use hg_ops::{Row, signature};
use std::alloc::{AllocError, Global};

// The types at the value ports of a node.
#[derive(Drop)]
pub(crate) struct Signature {
    pub(crate) ins: Row,
    pub(crate) outs: Row,
}

/// The types at the value ports of each node, in the order of the nodes.
pub(crate) fn signatures_of(alloc: Global, graph: &Graph) -> Result<Vec<Signature>, AllocError>
    ensures { IfOk result (λ signatures. AreSignatures graph.now (length graph.now.nodes) signatures.items) }
{
    let mut signatures = Vec::new(alloc);
    for n in 0..graph.node_count() {
        let (ins, outs) = signature(alloc, graph.op(NodeId(n)))?;
        signatures.push(Signature { ins, outs })?;
    }
    Ok(signatures)
}
