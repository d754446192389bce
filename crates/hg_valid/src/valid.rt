//! Valid graphs.

ghost use Rattle.std.specs.Prelude.{◌≡◌, IfOk, IfErr};
ghost use Rattle.hg_graph.specs.Valid.{IsValid};
ghost use Rattle.hg_valid.specs.Refused.{IsRefused};
ghost use Rattle.hg_valid.specs.Runs.{KeepsPlaces, RunsEndWell, ClosedRunsHoldNone, HasCleanRuns};

use crate::broken::first_broken;
use hg_graph::{Graph, NodeId};
use hg_laws::{
    closed_runs_hold_none, runs_are_clean, valid_graphs_end_well, valid_graphs_keep_places,
};
use std::alloc::{AllocError, Global};
use std::marker::Model;

/// A valid graph. A contract sees it as the graph.
#[derive(Drop)]
pub struct Valid {
    graph: Graph,
}

impl Model for Valid {
    ghost use Rattle.hg_graph.specs.Graph as spec;

    ghost Value = { spec.Graph };

    ghost use Rattle.std.specs.Coded.{codes};
    ghost use Rattle.hg_ops.specs.code.TypeCode.{coded_type};

    ghost coded = { Prim.hlevel (codes, coded_type) };

    ghost use Rattle.hg_graph.specs.Valid.{IsValid};

    ghost view = { λ valid. valid.graph };

    ghost invariant = { λ valid. IsValid valid.graph };
}

/// Why a graph isn't valid. Both hand the graph back as it was.
#[derive(Drop)]
pub enum Invalid {
    /// A rule is broken.
    Rule {
        /// The number of the least broken rule, from 1 to 15.
        rule: u8,
        /// The least node that breaks it.
        node: NodeId,
        /// The graph.
        graph: Graph,
    },
    /// There is no memory left for the tests.
    Memory {
        /// The graph.
        graph: Graph,
    },
}

impl Valid {
    ghost use Rattle.std.specs.Prelude.{◌≡◌};
    ghost use Rattle.hg_graph.specs.Valid.{IsValid};

    /// The graph.
    pub fn graph(&self) -> &Graph
        ensures same { result.now ≡ self.now }
        ensures valid { IsValid self.now }
    {
        &self.graph
    }

    /// The graph, given back.
    pub fn into_graph(self) -> Graph
        ensures same { result ≡ self }
        ensures valid { IsValid self }
    {
        self.graph
    }
}

/// Whether each node of the graph keeps each of the fifteen rules of valid graphs, and if not, the least rule that is
/// broken with the least node that breaks it. Its work grows with the numbers of nodes and links; the use of a constant
/// takes as many steps as the logarithm of its depth, and the name of a function as that of the number of functions.
pub fn validate(alloc: Global, graph: Graph) -> Result<Valid, Invalid>
    ensures same { IfOk result (λ valid. valid ≡ graph) }
    ensures valid { IfOk result (λ valid. IsValid valid) }
    ensures places { IfOk result (λ valid. KeepsPlaces valid) }
    ensures ends { IfOk result (λ valid. RunsEndWell valid) }
    ensures closed { IfOk result (λ valid. ClosedRunsHoldNone valid) }
    ensures clean { IfOk result (λ valid. HasCleanRuns valid) }
    ensures err { IfErr result (λ invalid. IsRefused graph invalid) }
{
    valid_graphs_keep_places();
    valid_graphs_end_well();
    closed_runs_hold_none();
    runs_are_clean();
    match first_broken(alloc, &graph) {
        Ok(None) => Ok(Valid { graph }),
        Ok(Some(broken)) => Err(Invalid::Rule {
            rule: broken.rule,
            node: broken.node,
            graph,
        }),
        Err(AllocError) => Err(Invalid::Memory { graph }),
    }
}
