//! Tests of the graphs of thin texts, read node by node and link by link.

use gp_base::Sequence;
use gp_lower::{ThinLine, lower_thin};
use hg_graph::{Graph, Link, NodeId, Port};
use hg_ops::OpKind;
use std::process::Abort;
use std::test::Fail;

// The word for an op in the tables, which for a function is its name.
fn word_of(op: &OpKind) -> &str {
    match op {
        OpKind::Module => "module",
        OpKind::FuncDefn { name, .. } => name.as_str(),
        OpKind::Input { .. } => "input",
        OpKind::Output { .. } => "output",
        OpKind::Alloc => "alloc",
        OpKind::H => "h",
        OpKind::X => "x",
        OpKind::Free => "free",
        _ => "another",
    }
}

// The link from port 0 of a node to port 0 of another.
fn qubit_link(from: u64, to: u64) -> Link {
    Link::Ports(
        Port {
            node: NodeId(from),
            index: 0,
        },
        Port {
            node: NodeId(to),
            index: 0,
        },
    )
}

fn order_link(from: u64, to: u64) -> Link {
    Link::Order(NodeId(from), NodeId(to))
}

// Compares a graph's nodes with their ops and their parents.
fn assert_nodes(rt: &impl Abort, graph: &Graph, expected: &[(&str, u64)]) {
    assert_eq!(rt; graph.node_count(), expected.len() as u64);
    for (k, (op, parent)) in expected.iter().enumerate() {
        let node = NodeId(k as u64);
        assert_eq!(rt; word_of(graph.op(node)), *op, "the op of {k}");
        assert_eq!(rt; graph.parent(node), NodeId(*parent), "the parent of {k}");
    }
}

fn assert_links(rt: &impl Abort, graph: &Graph, expected: &[Link]) {
    assert_eq!(rt; graph.link_count(), expected.len() as u64);
    for (k, link) in expected.iter().enumerate() {
        assert_eq!(rt; graph.link_at(k as u64), Some(*link), "link {k}");
    }
}

#[test]
fn frees_the_qubit(rt: HostRuntime) -> Result<(), Fail> {
    let mut lines = Sequence::new(rt.alloc());
    lines.push(ThinLine::Discard)?;
    let graph = lower_thin(rt.alloc(), &lines)?;
    let nodes = [
        ("module", 0),
        ("main", 0),
        ("input", 1),
        ("output", 1),
        ("alloc", 1),
        ("free", 1),
    ];
    assert_nodes(&rt, &graph, &nodes);
    assert_links(&rt, &graph, &[qubit_link(4, 5), order_link(4, 5)]);
    Ok(())
}

#[test]
fn passes_the_qubit_through_gates(rt: HostRuntime) -> Result<(), Fail> {
    let mut lines = Sequence::new(rt.alloc());
    lines.push(ThinLine::H)?;
    lines.push(ThinLine::X)?;
    lines.push(ThinLine::Discard)?;
    let graph = lower_thin(rt.alloc(), &lines)?;
    let nodes = [
        ("module", 0),
        ("main", 0),
        ("input", 1),
        ("output", 1),
        ("alloc", 1),
        ("h", 1),
        ("x", 1),
        ("free", 1),
    ];
    assert_nodes(&rt, &graph, &nodes);
    let links = [
        qubit_link(4, 5),
        order_link(4, 5),
        qubit_link(5, 6),
        order_link(5, 6),
        qubit_link(6, 7),
        order_link(6, 7),
    ];
    assert_links(&rt, &graph, &links);
    Ok(())
}
