ghost use Rattle.std.specs.Prelude.{◌≡◌, ◌<◌, length, All, IfOk};
ghost use Rattle.walks.specs.Walks.{IsClosed};

use gp_base::Sequence;
use std::alloc::{AllocError, Global};
use std::test::Fail;
use walks::{Successors, component_numbers, first_back, longest_chains};

// The list of these nodes. What is no node is left out.
fn row_of(alloc: Global, nodes: &[u64], count: u64) -> Result<Sequence<u64>, AllocError>
    ensures { IfOk result (λ row. All (λ node. node < count) row) }
{
    let mut row = Sequence::new(alloc);
    for node in nodes {
        if *node < count {
            row.push(*node)?;
        }
    }
    Ok(row)
}

// Lists of successors.
fn lists(alloc: Global, rows: &[&[u64]]) -> Result<Successors, AllocError>
    ensures closed { IfOk result (λ lists. IsClosed lists.items) }
    ensures count { IfOk result (λ lists. length lists.items ≡ length rows.now) }
{
    let count = rows.len() as u64;
    let mut lists = Vec::new(alloc);
    for row in rows {
        lists.push(row_of(alloc, row, count)?)?;
    }
    Ok(lists)
}

#[test]
fn marked_nodes_are_counted_along_the_longest_way(rt: HostRuntime) -> Result<(), Fail> {
    // two ways from the first node to the fifth, and a node apart
    let rows: [&[u64]; 6] = [&[1, 2], &[3], &[3], &[4], &[], &[]];
    let successors = lists(rt.alloc(), &rows)?;
    let marks = [true, false, true, false, true, false];
    match longest_chains(rt.alloc(), &successors, &marks)? {
        Some(counts) => assert_eq!(rt; counts.as_slice(), [3, 1, 2, 1, 1, 0].as_slice()),
        None => assert!(rt; false),
    }
    Ok(())
}

#[test]
fn the_least_node_on_a_cycle_is_named(rt: HostRuntime) -> Result<(), Fail> {
    // the first node leads to both cycles, and is on neither
    let rows: [&[u64]; 5] = [&[2, 4], &[3], &[4], &[1], &[2]];
    let successors = lists(rt.alloc(), &rows)?;
    assert_eq!(rt; first_back(rt.alloc(), &successors)?, Some(1));
    Ok(())
}

#[test]
fn a_component_comes_after_those_that_it_leads_to(rt: HostRuntime) -> Result<(), Fail> {
    // two nodes that lead to one another, and a third that leads to them; a fourth that leads to a fifth
    let rows: [&[u64]; 5] = [&[1], &[0], &[0], &[4], &[]];
    let numbers = component_numbers(rt.alloc(), &lists(rt.alloc(), &rows)?)?;
    assert_eq!(rt; numbers.as_slice(), [1, 1, 2, 4, 3].as_slice());
    // two cycles, of which one leads to the other
    let rows: [&[u64]; 5] = [&[1], &[2], &[0, 3], &[4], &[3]];
    let numbers = component_numbers(rt.alloc(), &lists(rt.alloc(), &rows)?)?;
    assert_eq!(rt; numbers.as_slice(), [2, 2, 2, 1, 1].as_slice());
    Ok(())
}
