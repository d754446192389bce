//! Graphs that were built are valid and ordered, and run as they were meant.

use crate::graphs::{choice, function_value, one_qubit, two_blocks};
use gp_base::MemorySink;
use hg_graph::Graph;
use hg_run::run;
use hg_valid::{is_ordered, validate};
use std::alloc::{AllocError, Global};
use std::test::Fail;

// Whether the graph is valid and ordered.
fn is_sound(alloc: Global, graph: Graph) -> Result<bool, AllocError> {
    match validate(alloc, graph) {
        Ok(valid) => is_ordered(alloc, &valid),
        Err(_) => Ok(false),
    }
}

// Runs `main` of the graph to its end, and answers whether that succeeded.
fn is_told(
    alloc: Global,
    graph: Graph,
    turns: u64,
    outcomes: &[bool],
    sink: &mut MemorySink,
) -> bool {
    match validate(alloc, graph) {
        Ok(valid) => run(alloc, &valid, "main", turns, outcomes, &[], sink).is_ok(),
        Err(_) => false,
    }
}

#[test]
fn built_graphs_run(rt: HostRuntime) -> Result<(), Fail> {
    let alloc = rt.alloc();
    let mut sink = MemorySink::new(alloc, 200)?;
    assert!(rt; is_told(alloc, one_qubit(alloc)?, 0, &[], &mut sink));
    assert!(rt; is_told(alloc, choice(alloc)?, 0, &[true], &mut sink));
    assert!(rt; is_told(alloc, choice(alloc)?, 0, &[], &mut sink));
    assert!(rt; is_told(alloc, two_blocks(alloc)?, 0, &[], &mut sink));
    assert!(rt; is_told(alloc, function_value(alloc)?, 1, &[], &mut sink));
    assert!(rt; is_told(alloc, function_value(alloc)?, 0, &[], &mut sink));
    assert_eq!(rt;
        sink.bytes(),
        b"alloc 0\nh 0\nfree 0\nend return\n\
alloc 0\nmeasure 0 1\nfree 0\nend return\n\
alloc 0\nend outcomes\n\
alloc 0\nh 0\nfree 0\nalloc 1\nh 1\nfree 1\nend return\n\
alloc 0\nh 0\nfree 0\nend return\n\
alloc 0\nend turns\n"
            .as_slice()
    );
    Ok(())
}

#[test]
fn one_qubit_is_spent(rt: HostRuntime) -> Result<(), Fail> {
    let graph = one_qubit(rt.alloc())?;
    assert_eq!(rt; (graph.node_count(), graph.link_count()), (7, 4));
    assert!(rt; is_sound(rt.alloc(), graph)?);
    Ok(())
}

#[test]
fn each_case_spends_the_qubit(rt: HostRuntime) -> Result<(), Fail> {
    let graph = choice(rt.alloc())?;
    assert_eq!(rt; (graph.node_count(), graph.link_count()), (15, 7));
    assert!(rt; is_sound(rt.alloc(), graph)?);
    Ok(())
}

#[test]
fn blocks_follow_one_another(rt: HostRuntime) -> Result<(), Fail> {
    let graph = two_blocks(rt.alloc())?;
    assert_eq!(rt; (graph.node_count(), graph.link_count()), (20, 12));
    assert!(rt; is_sound(rt.alloc(), graph)?);
    Ok(())
}

#[test]
fn a_function_is_called_by_its_value(rt: HostRuntime) -> Result<(), Fail> {
    let graph = function_value(rt.alloc())?;
    assert_eq!(rt; (graph.node_count(), graph.link_count()), (12, 8));
    assert!(rt; is_sound(rt.alloc(), graph)?);
    Ok(())
}
