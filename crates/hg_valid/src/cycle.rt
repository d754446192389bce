//! Cycles of value and order links.

ghost use Rattle.std.specs.Prelude.{IfOk};
ghost use Rattle.std.specs.Option.{option_map};
ghost use Rattle.hg_graph.specs.Valid.{NoCycle};
ghost use Rattle.hg_graph.specs.View.{number_of};
ghost use Rattle.hg_valid.specs.code.Broken.{EarlierHold, FirstToBreak};

use crate::successors::successors_of;
use hg_graph::{Graph, NodeId};
use std::alloc::{AllocError, Global};
use walks::first_back;

/// The least node on a cycle of value and order links; `None` exactly where no node is on one.
pub(crate) fn first_on_cycle(alloc: Global, graph: &Graph) -> Result<Option<NodeId>, AllocError>
    requires { EarlierHold graph.now NoCycle }
    ensures { IfOk result (λ first. FirstToBreak graph.now NoCycle (option_map number_of first)) }
{
    let _count = graph.node_count();
    let successors = successors_of(alloc, graph)?;
    match first_back(alloc, &successors)? {
        Some(node) => Ok(Some(NodeId(node))),
        None => Ok(None),
    }
}
