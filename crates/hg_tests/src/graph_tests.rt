//! Tests of the readers, on the graph of a small program.

ghost use Rattle.std.specs.Prelude.{◌≡◌, length, IfOk};

use gp_base::Name;
use hg_graph::{Graph, Link, NodeId, Port};
use hg_ops::{OpKind, Row};
use std::alloc::{AllocError, Global};
use std::test::Fail;

const ALLOC: NodeId = NodeId(4);

const FREE: NodeId = NodeId(5);

const ALLOCATED: Port = Port {
    node: ALLOC,
    index: 0,
};

const FREED: Port = Port {
    node: FREE,
    index: 0,
};

// Port 0 of a node.
fn first_port(node: NodeId) -> Port
    ensures { result.node ≡ node }
{
    Port { node, index: 0 }
}

// A module with a function that allocates a qubit and frees it.
fn qubit_graph(alloc: Global) -> Result<Graph, AllocError>
    ensures { IfOk result (λ g. length g.nodes ≡ 6) }
{
    let mut graph = Graph::new(alloc)?;
    let name = Name::new(alloc, "main")?;
    let main = graph.add_node(
        OpKind::FuncDefn {
            name,
            ins: Row::new(alloc),
            outs: Row::new(alloc),
        },
        NodeId(0),
    )?;
    graph.add_node(
        OpKind::Input {
            types: Row::new(alloc),
        },
        main,
    )?;
    graph.add_node(
        OpKind::Output {
            types: Row::new(alloc),
        },
        main,
    )?;
    let source = graph.add_node(OpKind::Alloc, main)?;
    let target = graph.add_node(OpKind::Free, main)?;
    graph.link(first_port(source), first_port(target))?;
    graph.order(source, target)?;
    Ok(graph)
}

#[test]
fn reads_nodes(rt: HostRuntime) -> Result<(), Fail> {
    let graph = qubit_graph(rt.alloc())?;
    assert_eq!(rt; graph.node_count(), 6);
    assert!(rt; matches!(graph.op(NodeId(0)), OpKind::Module));
    assert!(rt;
        matches!(graph.op(NodeId(1)), OpKind::FuncDefn { name, .. } if name.as_str() == "main")
    );
    assert!(rt; matches!(graph.op(NodeId(2)), OpKind::Input { .. }));
    assert!(rt; matches!(graph.op(NodeId(3)), OpKind::Output { .. }));
    assert!(rt; matches!(graph.op(ALLOC), OpKind::Alloc));
    assert!(rt; matches!(graph.op(FREE), OpKind::Free));
    for (node, parent) in [(0, 0), (1, 0), (2, 1), (3, 1), (4, 1), (5, 1)] {
        assert_eq!(rt; graph.parent(NodeId(node)), NodeId(parent), "of {node}");
    }
    Ok(())
}

#[test]
fn reads_children(rt: HostRuntime) -> Result<(), Fail> {
    let graph = qubit_graph(rt.alloc())?;
    for (node, count) in [(0, 1), (1, 4), (4, 0)] {
        assert_eq!(rt; graph.child_count(NodeId(node)), count, "of {node}");
    }
    for (node, k, child) in [
        (0, 0, Some(1)),
        (0, 1, None),
        (1, 0, Some(2)),
        (1, 3, Some(5)),
        (1, 4, None),
        (4, 0, None),
    ] {
        assert_eq!(rt;
            graph.child(NodeId(node), k),
            child.map(NodeId),
            "child {k} of {node}"
        );
    }
    Ok(())
}

#[test]
fn reads_links(rt: HostRuntime) -> Result<(), Fail> {
    let graph = qubit_graph(rt.alloc())?;
    assert_eq!(rt; graph.link_count(), 2);
    assert_eq!(rt; graph.link_at(0), Some(Link::Ports(ALLOCATED, FREED)));
    assert_eq!(rt; graph.link_at(1), Some(Link::Order(ALLOC, FREE)));
    assert_eq!(rt; graph.link_at(2), None);
    Ok(())
}

#[test]
fn feeds_from_the_first_link(rt: HostRuntime) -> Result<(), Fail> {
    let mut graph = qubit_graph(rt.alloc())?;
    let input = Port {
        node: NodeId(2),
        index: 0,
    };
    graph.link(input, FREED)?;
    assert_eq!(rt; graph.feeder(FREED), Some(ALLOCATED));
    assert_eq!(rt; graph.feeder(ALLOCATED), None);
    let second = Port {
        node: FREE,
        index: 1,
    };
    assert_eq!(rt; graph.feeder(second), None);
    Ok(())
}

#[test]
fn feeds_inputs_that_an_op_lacks(rt: HostRuntime) -> Result<(), Fail> {
    let mut graph = qubit_graph(rt.alloc())?;
    let far = Port {
        node: FREE,
        index: u64::MAX,
    };
    assert_eq!(rt; graph.feeder(far), None);
    graph.link(ALLOCATED, far)?;
    assert_eq!(rt; graph.feeder(far), Some(ALLOCATED));
    let nowhere = Port {
        node: NodeId(u64::MAX),
        index: 0,
    };
    assert_eq!(rt; graph.feeder(nowhere), None);
    Ok(())
}

#[test]
fn lists_children(rt: HostRuntime) -> Result<(), Fail> {
    let graph = qubit_graph(rt.alloc())?;
    let children = [NodeId(2), NodeId(3), ALLOC, FREE];
    assert_eq!(rt; graph.children(NodeId(1)), children.as_slice());
    assert_eq!(rt; graph.children(ALLOC).len(), 0);
    Ok(())
}

#[test]
fn lists_order_links(rt: HostRuntime) -> Result<(), Fail> {
    let graph = qubit_graph(rt.alloc())?;
    assert_eq!(rt; graph.orders_from(ALLOC), [1].as_slice());
    assert_eq!(rt; graph.orders_into(FREE), [1].as_slice());
    assert_eq!(rt; graph.orders_into(ALLOC).len(), 0);
    Ok(())
}

#[test]
#[tactic(auto, unfolding(hg_graph::specs::Graph::op_at))]
fn lists_links_by_port(rt: HostRuntime) -> Result<(), Fail> {
    let mut graph = Graph::new(rt.alloc())?;
    let source = graph.add_node(OpKind::Alloc, NodeId(0))?;
    let from = Port {
        node: source,
        index: 0,
    };
    graph.link(from, from)?;
    graph.order(source, source)?;
    graph.link(from, from)?;
    assert_eq!(rt; graph.links_from(from), [0, 2].as_slice());
    Ok(())
}

#[test]
#[tactic(auto, unfolding(hg_graph::specs::Graph::op_at))]
fn lists_links_into_a_port(rt: HostRuntime) -> Result<(), Fail> {
    let mut graph = Graph::new(rt.alloc())?;
    let target = graph.add_node(OpKind::Free, NodeId(0))?;
    let to = Port {
        node: target,
        index: 0,
    };
    assert_eq!(rt; graph.links_into(to).len(), 0);
    graph.link(to, to)?;
    assert_eq!(rt; graph.links_into(to), [0].as_slice());
    Ok(())
}
