//! Lowering of thin texts: one straight function on one qubit.

ghost use Rattle.std.specs.Prelude.{◌≡◌, ◌<◌, ℕ, List, [], ◌∷◌, ◌++◌, length, IfOk, OnOk};
ghost use Rattle.gp_lower.specs.code.Growing.{grown};
ghost use Rattle.gp_lower.specs.Thin.{AreComplete, RunsGates, complete_lines, line_op};
ghost use Rattle.hg_graph.specs.Graph.{Ports, Order};
ghost use Rattle.hg_graph.specs.Rules.{InputsLinkedOnce, LinearOutputsLinkedOnce};
ghost use Rattle.hg_ops.specs.OpView.{op_view};
ghost use Rattle.hg_graph.specs.Thin.{ThinGate, in_main, thin_graph};

use crate::thin_text::{ThinLine, ThinLines};
use gp_base::Name;
use hg_graph::{Graph, NodeId, Port};
use hg_ops::{OpKind, Row};
use std::alloc::{AllocError, Global};

// The number of the function `main`, and of the module around it.
const MODULE: NodeId = NodeId(0);

const MAIN: NodeId = NodeId(1);

// The op of a line.
fn op_of(line: ThinLine) -> OpKind
    ensures { op_view result ≡ line_op line }
{
    match line {
        ThinLine::H => OpKind::H,
        ThinLine::X => OpKind::X,
        ThinLine::Discard => OpKind::Free,
    }
}

// Adds a node to `main` that takes the qubit of the node `last` and fires after it.
fn append(graph: &mut Graph, op: OpKind, last: NodeId) -> Result<NodeId, AllocError>
    requires main { 1 < length graph.old.nodes }
    requires last { last.0 < length graph.old.nodes }
    ensures number { IfOk result (λ node. node.0 ≡ length graph.old.nodes) }
    ensures nodes { OnOk result (graph.new.nodes ≡ graph.old.nodes ++ in_main (op_view op) ∷ []) }
    ensures links { OnOk result (graph.new.links ≡ graph.old.links
        ++ Ports (record { node = last.0; index = 0 }) (record { node = length graph.old.nodes; index = 0 })
        ∷ Order last.0 (length graph.old.nodes) ∷ []) }
{
    let node = graph.add_node(op, MAIN)?;
    graph.link(
        Port {
            node: last,
            index: 0,
        },
        Port { node, index: 0 },
    )?;
    graph.order(last, node)?;
    Ok(node)
}

// A graph with a function `main` that allocates a qubit, in its last node.
fn allocating(alloc: Global) -> Result<Graph, AllocError>
    ensures { IfOk result (λ g. g ≡ grown []) }
{
    let mut graph = Graph::new(alloc)?;
    let name = Name::new(alloc, "main")?;
    graph.add_node(
        OpKind::FuncDefn {
            name,
            ins: Row::new(alloc),
            outs: Row::new(alloc),
        },
        MODULE,
    )?;
    let types = Row::new(alloc);
    graph.add_node(OpKind::Input { types }, MAIN)?;
    let types = Row::new(alloc);
    graph.add_node(OpKind::Output { types }, MAIN)?;
    graph.add_node(OpKind::Alloc, MAIN)?;
    Ok(graph)
}

/// The graph of a thin text, by its lines after `q = qubit()`: `main` allocates the qubit, and each line
/// becomes a node that takes the qubit from the node before it.
pub fn lower_thin(alloc: Global, lines: &ThinLines) -> Result<Graph, AllocError>
    requires { AreComplete lines.now }
    ensures graph { IfOk result
        (λ g. (gates : List ThinGate) → lines.now ≡ complete_lines gates → g ≡ thin_graph gates) }
    ensures inputs { IfOk result InputsLinkedOnce }
    ensures linear_outputs { IfOk result LinearOutputsLinkedOnce }
    ensures runs { IfOk result
        (λ g. (gates : List ThinGate) → lines.now ≡ complete_lines gates → RunsGates gates g) }
{
    let mut graph = allocating(alloc)?;
    let mut last = NodeId(4);
    for line in lines.as_slice() {
        last = append(&mut graph, op_of(*line), last)?;
    }
    Ok(graph)
}
