//! What a run looks up again and again in its graph.

ghost use Rattle.std.specs.Prelude.{IfOk};
ghost use Rattle.hg_run.specs.code.TablesView.{HasTables};

use crate::followers::{Followers, followers_of};
use crate::functions::{Functions, functions_of};
use hg_graph::Graph;
use std::alloc::{AllocError, Global};

/// What a run looks up again and again in its graph.
#[derive(Drop)]
pub struct Tables<'a> {
    pub followers: Followers,
    pub functions: Functions<'a>,
}

/// The tables of a graph.
pub fn tables_of<'a>(alloc: Global, graph: &'a Graph) -> Result<Tables<'a>, AllocError>
    ensures { IfOk result (λ tables. HasTables graph.now tables) }
{
    Ok(Tables {
        followers: followers_of(alloc, graph)?,
        functions: functions_of(alloc, graph)?,
    })
}
