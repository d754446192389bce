//! Small graphs, written as lists.

ghost use Rattle.std.specs.Prelude.{◌≡◌};

use gp_base::Name;
use hg_graph::{Graph, NodeId, Port};
use hg_ops::{GraphType, OpKind, Row, Rows};
use std::alloc::{AllocError, Global};

// An op. A number in its name says how many qubits it takes or gives.
#[derive(Clone, Copy)]
pub(crate) enum Kind {
    Module,
    // a function with this name, from no values to none
    Main(&'static str),
    // a function from a qubit to a qubit
    Turn(&'static str),
    Input0,
    Input1,
    Output0,
    Output1,
    Alloc,
    H,
    Free,
    Const,
    Load,
    Call0,
    // loads a function from a qubit to a qubit, and calls one that it takes
    LoadTurn,
    CallTurn,
    // from no values to none
    Cfg0,
    // a block with one row, and all without types
    Block,
    // takes the sum of one row without types
    OutputOne,
    Exit,
    // makes that sum, or has this number of a row
    One(u64),
    // makes a truth value
    False,
    // chooses by a truth value, and gives a qubit
    Choice,
    // a case of it
    Case,
    // reports a number under this tag
    Report(&'static str),
}

// A row without types, and one with a qubit.
fn row0(alloc: Global) -> Row {
    Row::new(alloc)
}

fn row1(alloc: Global) -> Result<Row, AllocError> {
    let mut row = Row::new(alloc);
    row.push(GraphType::Qubit)?;
    Ok(row)
}

// Rows without types.
fn rows(alloc: Global, count: u64) -> Result<Rows, AllocError> {
    let mut rows = Rows::new(alloc);
    for _ in 0..count {
        rows.push(Row::new(alloc))?;
    }
    Ok(rows)
}

// A row with the sum of one row without types.
fn sum_row(alloc: Global) -> Result<Row, AllocError> {
    let mut row = Row::new(alloc);
    row.push(GraphType::Sum(rows(alloc, 1)?))?;
    Ok(row)
}

fn function(alloc: Global, name: &str, ins: Row, outs: Row) -> Result<OpKind, AllocError> {
    Ok(OpKind::FuncDefn {
        name: Name::new(alloc, name)?,
        ins,
        outs,
    })
}

fn container(alloc: Global, kind: Kind) -> Result<OpKind, AllocError> {
    match kind {
        Kind::Main(name) => function(alloc, name, row0(alloc), row0(alloc)),
        Kind::Turn(name) => function(alloc, name, row1(alloc)?, row1(alloc)?),
        Kind::Cfg0 => Ok(OpKind::Cfg {
            ins: row0(alloc),
            outs: row0(alloc),
        }),
        Kind::Block => Ok(OpKind::DataflowBlock {
            ins: row0(alloc),
            rows: rows(alloc, 1)?,
            others: row0(alloc),
        }),
        Kind::Choice => Ok(OpKind::Conditional {
            rows: rows(alloc, 2)?,
            ins: row0(alloc),
            outs: row1(alloc)?,
        }),
        Kind::Case => Ok(OpKind::Case {
            ins: row0(alloc),
            outs: row1(alloc)?,
        }),
        _ => Ok(OpKind::Module),
    }
}

fn op(alloc: Global, kind: Kind) -> Result<OpKind, AllocError> {
    match kind {
        Kind::Input0 => Ok(OpKind::Input { types: row0(alloc) }),
        Kind::Input1 => Ok(OpKind::Input {
            types: row1(alloc)?,
        }),
        Kind::Output0 => Ok(OpKind::Output { types: row0(alloc) }),
        Kind::Output1 => Ok(OpKind::Output {
            types: row1(alloc)?,
        }),
        Kind::OutputOne => Ok(OpKind::Output {
            types: sum_row(alloc)?,
        }),
        Kind::Exit => Ok(OpKind::ExitBlock { types: row0(alloc) }),
        Kind::Alloc => Ok(OpKind::Alloc),
        Kind::H => Ok(OpKind::H),
        Kind::Free => Ok(OpKind::Free),
        Kind::Const => Ok(OpKind::Const { value: 1 }),
        Kind::Load => Ok(OpKind::LoadConstant),
        Kind::Call0 => Ok(OpKind::Call {
            ins: row0(alloc),
            outs: row0(alloc),
        }),
        Kind::LoadTurn => Ok(OpKind::LoadFunction {
            ins: row1(alloc)?,
            outs: row1(alloc)?,
        }),
        Kind::CallTurn => Ok(OpKind::CallIndirect {
            ins: row1(alloc)?,
            outs: row1(alloc)?,
        }),
        Kind::One(tag) => Ok(OpKind::Tag {
            rows: rows(alloc, 1)?,
            tag,
        }),
        Kind::False => Ok(OpKind::Tag {
            rows: rows(alloc, 2)?,
            tag: 0,
        }),
        Kind::Report(tag) => Ok(OpKind::ResultInt {
            tag: Name::new(alloc, tag)?,
        }),
        _ => container(alloc, kind),
    }
}

fn port(node: u64, index: u64) -> Port
    ensures { result.node.0 ≡ node }
{
    Port {
        node: NodeId(node),
        index,
    }
}

// The graph of these nodes, each an op and a parent, of these links, each the node and the number of its output and those
// of its input, and of these order links. A node or a link that names what isn't there is left out.
pub(crate) fn graph_of(
    alloc: Global,
    nodes: &[(Kind, u64)],
    links: &[(u64, u64, u64, u64)],
    orders: &[(u64, u64)],
) -> Result<Graph, AllocError> {
    let mut graph = Graph::new(alloc)?;
    for (kind, parent) in nodes {
        if *parent < graph.node_count() {
            graph.add_node(op(alloc, *kind)?, NodeId(*parent))?;
        }
    }
    for (from, output, to, input) in links {
        if *from < graph.node_count() && *to < graph.node_count() {
            graph.link(port(*from, *output), port(*to, *input))?;
        }
    }
    add_orders(&mut graph, orders)?;
    Ok(graph)
}

fn add_orders(graph: &mut Graph, orders: &[(u64, u64)]) -> Result<(), AllocError> {
    for (before, after) in orders {
        if *before < graph.node_count() && *after < graph.node_count() {
            graph.order(NodeId(*before), NodeId(*after))?;
        }
    }
    Ok(())
}
