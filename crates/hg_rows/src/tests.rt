//! Tests of the rules and of order, on a table of small graphs.

use crate::graphs::{Kind, graph_of};
use crate::rows::{Answer, ROWS};
use hg_graph::{Graph, NodeId};
use hg_valid::{Invalid, is_ordered, validate};
use std::alloc::{AllocError, Global};
use std::test::Fail;

// What is said of a graph.
fn answer(alloc: Global, graph: Graph) -> Result<Answer, AllocError> {
    match validate(alloc, graph) {
        Ok(valid) => Ok(if is_ordered(alloc, &valid)? {
            Answer::Ordered
        } else {
            Answer::Unordered
        }),
        Err(Invalid::Rule { rule, node, .. }) => Ok(Answer::Broken(rule, node.0)),
        Err(Invalid::Memory { .. }) => Err(AllocError),
    }
}

#[test]
fn graphs_have_their_answers(rt: HostRuntime) -> Result<(), Fail> {
    let alloc = rt.alloc();
    for row in &ROWS {
        let graph = graph_of(alloc, row.nodes, row.links, row.orders)?;
        assert_eq!(rt; answer(alloc, graph)?, row.answer, "{}", row.shows);
    }
    Ok(())
}

// A function without values.
const NODES: [(Kind, u64); 3] = [
    (Kind::Main("main"), 0),
    (Kind::Input0, 1),
    (Kind::Output0, 1),
];

#[test]
fn a_valid_graph_is_given_back(rt: HostRuntime) -> Result<(), Fail> {
    let alloc = rt.alloc();
    match validate(alloc, graph_of(alloc, &NODES, &[], &[(2, 3)])?) {
        Ok(valid) => {
            assert_eq!(rt; valid.graph().node_count(), 4);
            assert_eq!(rt; valid.into_graph().link_count(), 1);
        }
        Err(_) => assert!(rt; false),
    }
    Ok(())
}

#[test]
fn a_graph_that_is_refused_is_given_back(rt: HostRuntime) -> Result<(), Fail> {
    let alloc = rt.alloc();
    match validate(alloc, graph_of(alloc, &NODES[..2], &[], &[])?) {
        Err(Invalid::Rule { rule, node, graph }) => {
            assert_eq!(rt; (rule, node.0), (3, 1));
            assert_eq!(rt; graph.node_count(), 3);
        }
        Err(Invalid::Memory { graph: _graph }) => assert!(rt; false),
        Ok(_valid) => assert!(rt; false),
    }
    Ok(())
}

// A way of 2,000 links to two nodes that lead to one another.
#[test]
fn a_long_way_to_a_cycle(rt: HostRuntime) -> Result<(), Fail> {
    let alloc = rt.alloc();
    let mut nodes = vec![in alloc;
        (Kind::Main("main"), 0),
        (Kind::Input0, 1),
        (Kind::Output0, 1),
    ]?;
    let mut orders = Vec::new(alloc);
    for node in 4..2005 {
        nodes.push((Kind::One(0), 1))?;
        orders.push((node, node + 1))?;
    }
    nodes.push((Kind::One(0), 1))?;
    orders.push((2005, 2004))?;
    let graph = graph_of(alloc, &nodes, &[], &orders)?;
    assert_eq!(rt; answer(alloc, graph)?, Answer::Broken(10, 2004));
    Ok(())
}
