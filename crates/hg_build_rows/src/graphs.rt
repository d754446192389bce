//! Small graphs, built by hand.

use gp_base::Name;
use hg_build::{AnyWire, BuildFault, Region, Wire, Wires};
use hg_graph::{Graph, NodeId, Port};
use hg_ops::{GraphType, OpKind, Row, Rows};
use std::alloc::{AllocError, Global};

fn qubit_row(alloc: Global) -> Result<Row, AllocError> {
    let mut row = Row::new(alloc);
    row.push(GraphType::Qubit)?;
    Ok(row)
}

// This many rows without types.
fn empty_rows(alloc: Global, count: u64) -> Result<Rows, AllocError> {
    let mut rows = Rows::new(alloc);
    for _ in 0..count {
        rows.push(Row::new(alloc))?;
    }
    Ok(rows)
}

fn add_function(
    alloc: Global,
    graph: &mut Graph,
    name: &str,
    ins: Row,
    outs: Row,
) -> Result<NodeId, BuildFault> {
    if graph.node_count() == 0 {
        return Err(BuildFault::Memory);
    }
    let name = Name::new(alloc, name)?;
    let node = graph.add_node(OpKind::FuncDefn { name, ins, outs }, NodeId(0))?;
    Ok(node)
}

// A module with `main`, which takes and gives nothing, and the region of `main`.
fn open_main(alloc: Global) -> Result<(Region, Wires), BuildFault> {
    let mut graph = Graph::new(alloc)?;
    let main = add_function(alloc, &mut graph, "main", Row::new(alloc), Row::new(alloc))?;
    Region::open(alloc, graph, main, Row::new(alloc), Row::new(alloc))
}

// Makes a qubit, turns and frees it.
fn turn_qubit(region: &mut Region, wires: Wires) -> Result<Wires, BuildFault> {
    let wires = region.op(OpKind::Alloc, wires)?;
    let wires = region.op(OpKind::H, wires)?;
    region.op(OpKind::Free, wires)
}

// Goes on with the region of `main`, which has no outputs, and these wires.
fn finished(region: Result<Region, BuildFault>, wires: Wires) -> Result<Graph, BuildFault> {
    match region {
        Ok(region) => region.finish(wires),
        Err(fault) => {
            wires.give_up();
            Err(fault)
        }
    }
}

// Whether the wire is there, and was appended.
fn append(wires: &mut Wires, wire: Option<AnyWire>) -> bool {
    match wire {
        Some(wire) => wires.push(wire).is_ok(),
        None => false,
    }
}

// These two wires.
fn pair(
    alloc: Global,
    first: Option<AnyWire>,
    second: Option<AnyWire>,
) -> Result<Wires, BuildFault> {
    let mut wires = Wires::new(alloc);
    let has_first = append(&mut wires, first);
    let has_second = append(&mut wires, second);
    if has_first && has_second {
        return Ok(wires);
    }
    wires.give_up();
    Err(BuildFault::Memory)
}

/// One qubit is made, turned and freed.
pub(crate) fn one_qubit(alloc: Global) -> Result<Graph, BuildFault> {
    let (mut region, wires) = open_main(alloc)?;
    let wires = turn_qubit(&mut region, wires)?;
    region.finish(wires)
}

// Frees the qubit of a case.
fn fill_case(region: Region, conditional: NodeId, k: u64) -> Result<Region, BuildFault> {
    if conditional.0 >= region.node_count() {
        return Err(BuildFault::Memory);
    }
    let Some(case) = region.case(conditional, k) else {
        return Err(BuildFault::Memory);
    };
    let (outer, mut inner, wires) = region.enter(case)?;
    let wires = inner.op(OpKind::Free, wires)?;
    inner.leave(outer, wires)
}

fn fill_cases(region: Region, conditional: NodeId) -> Result<Region, BuildFault> {
    let region = fill_case(region, conditional, 0)?;
    fill_case(region, conditional, 1)
}

/// A qubit is measured, and each case of a choice by the outcome frees it.
pub(crate) fn choice(alloc: Global) -> Result<Graph, BuildFault> {
    let rows = empty_rows(alloc, 2)?;
    let ins = qubit_row(alloc)?;
    let (mut region, wires) = open_main(alloc)?;
    let wires = region.op(OpKind::Alloc, wires)?;
    let mut wires = region.op(OpKind::Measure, wires)?;
    let outcome = wires.take(1);
    let qubit = wires.take(0);
    wires.give_up();
    let wires = pair(alloc, outcome, qubit)?;
    let (conditional, wires) = region.conditional(rows, ins, Row::new(alloc), wires)?;
    finished(fill_cases(region, conditional), wires)
}

// A block without values that leads on by one way.
fn add_block(alloc: Global, region: &mut Region, cfg: NodeId) -> Result<NodeId, BuildFault> {
    let rows = empty_rows(alloc, 1)?;
    let (ins, others) = (Row::new(alloc), Row::new(alloc));
    region.block(cfg, OpKind::DataflowBlock { ins, rows, others })
}

// Turns a qubit in a block, which goes its only way.
fn fill_block(alloc: Global, region: Region, block: NodeId) -> Result<Region, BuildFault> {
    let rows = empty_rows(alloc, 1)?;
    let (outer, mut inner, wires) = region.enter(block)?;
    let wires = turn_qubit(&mut inner, wires)?;
    let wires = inner.op(OpKind::Tag { rows, tag: 0 }, wires)?;
    inner.leave(outer, wires)
}

fn with_blocks(alloc: Global, mut region: Region, cfg: NodeId) -> Result<Region, BuildFault> {
    let first = add_block(alloc, &mut region, cfg)?;
    let types = Row::new(alloc);
    let exit = region.block(cfg, OpKind::ExitBlock { types })?;
    let second = add_block(alloc, &mut region, cfg)?;
    let from_first = Port {
        node: first,
        index: 0,
    };
    region.control(from_first, second)?;
    let from_second = Port {
        node: second,
        index: 0,
    };
    region.control(from_second, exit)?;
    let region = fill_block(alloc, region, first)?;
    fill_block(alloc, region, second)
}

/// A `CFG` of two blocks, each of which turns a qubit.
pub(crate) fn two_blocks(alloc: Global) -> Result<Graph, BuildFault> {
    let (mut region, wires) = open_main(alloc)?;
    let (cfg, wires) = region.cfg(Row::new(alloc), Row::new(alloc), wires)?;
    finished(with_blocks(alloc, region, cfg), wires)
}

// Fills a function so that it turns a qubit.
fn turning(alloc: Global, graph: Graph, function: NodeId) -> Result<Graph, BuildFault> {
    let (ins, outs) = (qubit_row(alloc)?, qubit_row(alloc)?);
    let (mut region, wires) = Region::open(alloc, graph, function, ins, outs)?;
    let wires = region.op(OpKind::H, wires)?;
    region.finish(wires)
}

// A function that was loaded, and a qubit.
fn with_function(
    alloc: Global,
    loaded: Result<Wire, BuildFault>,
    mut qubits: Wires,
) -> Result<Wires, BuildFault> {
    let qubit = qubits.take(0);
    qubits.give_up();
    let function = match loaded {
        Ok(wire) => Some(AnyWire::Plain(wire)),
        Err(_) => None,
    };
    pair(alloc, function, qubit)
}

/// A function is loaded as a value, and called with a qubit.
pub(crate) fn function_value(alloc: Global) -> Result<Graph, BuildFault> {
    let mut graph = Graph::new(alloc)?;
    let (ins, outs) = (qubit_row(alloc)?, qubit_row(alloc)?);
    let function = add_function(alloc, &mut graph, "f", ins, outs)?;
    let main = add_function(alloc, &mut graph, "main", Row::new(alloc), Row::new(alloc))?;
    let graph = turning(alloc, graph, function)?;
    let (ins, outs) = (qubit_row(alloc)?, qubit_row(alloc)?);
    let (mut region, wires) = Region::open(alloc, graph, main, Row::new(alloc), Row::new(alloc))?;
    let qubits = region.op(OpKind::Alloc, wires)?;
    let loaded = region.load_function(function);
    let wires = with_function(alloc, loaded, qubits)?;
    let wires = region.op(OpKind::CallIndirect { ins, outs }, wires)?;
    let wires = region.op(OpKind::Free, wires)?;
    region.finish(wires)
}
