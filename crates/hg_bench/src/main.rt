//! The program that the benchmarks of graphs time. Its words are a task and a number: `grow` builds the graph of a function
//! whose one qubit passes through as many gates, `build` does so by the calls of the builder, `chain` also tells whether that
//! graph is valid and ordered, and `nest` does so of a function with as many regions, each in the one before it.
#![tactic(auto)]

ghost use Rattle.std.specs.Prelude.{◌<◌, length, IfOk, OnOk};

use gp_base::Name;
use hg_build::{BuildFault, Region};
use hg_graph::{Graph, NodeId, Port};
use hg_ops::{OpKind, Row};
use hg_valid::{Invalid, Valid, is_ordered, validate};
use std::alloc::{AllocError, Global};
use std::env;
use std::fmt::{self, Display, Formatter, Write};
use std::rt::Env;

// How many gates or regions there are where no word says it.
const FEW: u64 = 1000;

// What is done with a graph.
#[derive(Clone, Copy, Debug)]
enum Task {
    Grow,
    Build,
    Chain,
    Nest,
}

// The task of a word.
fn task_of(word: &str) -> Option<Task> {
    match word {
        "grow" => Some(Task::Grow),
        "build" => Some(Task::Build),
        "chain" => Some(Task::Chain),
        "nest" => Some(Task::Nest),
        _ => None,
    }
}

// What was found of a graph.
#[derive(Clone, Copy, Debug)]
enum Verdict {
    Grown { nodes: u64, links: u64 },
    Ordered,
    Unordered,
    Broken { rule: u8 },
}

impl Display for Verdict {
    fn fmt<W: Write>(&self, f: &mut Formatter<W>) -> Result<(), fmt::Error> {
        match self {
            Verdict::Grown { nodes, links } => write!(f, "{nodes} nodes, {links} links"),
            Verdict::Ordered => write!(f, "ordered"),
            Verdict::Unordered => write!(f, "not ordered"),
            Verdict::Broken { rule } => write!(f, "rule {rule} is broken"),
        }
    }
}

// The task and the number that the words ask for.
fn job<R: Env + AllocGlobal>(rt: &R) -> Option<(Task, u64)> {
    let Ok(mut words) = env::args(rt) else {
        return None;
    };
    let task = task_of(words.nth(1)?.as_str())?;
    let number = words.next()?.as_str().parse::<u64>().ok()?;
    Some((task, number))
}

// Adds a node behind another, with the qubit from it.
fn add_behind(
    graph: &mut Graph,
    op: OpKind,
    parent: NodeId,
    last: NodeId,
) -> Result<NodeId, AllocError>
    requires parent_in { parent.0 < length graph.old.nodes }
    requires last_in { last.0 < length graph.old.nodes }
    ensures node_in { IfOk result (λ node. node.0 < length graph.new.nodes) }
    ensures parent_in { OnOk result (parent.0 < length graph.new.nodes) }
{
    let node = graph.add_node(op, parent)?;
    let (from, to) = (
        Port {
            node: last,
            index: 0,
        },
        Port { node, index: 0 },
    );
    graph.link(from, to)?;
    graph.order(last, node)?;
    Ok(node)
}

// The function's node, in a graph with its `Input` and `Output`.
fn add_function(graph: &mut Graph, alloc: Global) -> Result<NodeId, AllocError>
    requires { 0 < length graph.old.nodes }
    ensures node_in { IfOk result (λ node. node.0 < length graph.new.nodes) }
{
    let name = Name::new(alloc, "main")?;
    let (ins, outs) = (Row::new(alloc), Row::new(alloc));
    let main = graph.add_node(OpKind::FuncDefn { name, ins, outs }, NodeId(0))?;
    graph.add_node(
        OpKind::Input {
            types: Row::new(alloc),
        },
        main,
    )?;
    graph.add_node(
        OpKind::Output {
            types: Row::new(alloc),
        },
        main,
    )?;
    Ok(main)
}

// The graph in which a qubit passes through this many gates.
fn chain(alloc: Global, gates: u64) -> Result<Graph, AllocError> {
    let mut graph = Graph::new(alloc)?;
    let main = add_function(&mut graph, alloc)?;
    let mut last = graph.add_node(OpKind::Alloc, main)?;
    for _ in 0..gates {
        last = add_behind(&mut graph, OpKind::H, main, last)?;
    }
    add_behind(&mut graph, OpKind::Free, main, last)?;
    Ok(graph)
}

// The same graph, built by the calls of the builder.
fn built_chain(alloc: Global, gates: u64) -> Result<Graph, BuildFault> {
    let mut graph = Graph::new(alloc)?;
    let name = Name::new(alloc, "main")?;
    let (ins, outs) = (Row::new(alloc), Row::new(alloc));
    let main = graph.add_node(OpKind::FuncDefn { name, ins, outs }, NodeId(0))?;
    let (ins, outs) = (Row::new(alloc), Row::new(alloc));
    let (mut region, wires) = Region::open(alloc, graph, main, ins, outs)?;
    let mut wires = region.op(OpKind::Alloc, wires)?;
    for _ in 0..gates {
        wires = region.op(OpKind::H, wires)?;
    }
    let wires = region.op(OpKind::Free, wires)?;
    region.finish(wires)
}

// Adds a region under a node, with its `Input` and its `Output`.
fn add_region(graph: &mut Graph, alloc: Global, parent: NodeId) -> Result<NodeId, AllocError>
    requires { parent.0 < length graph.old.nodes }
    ensures node_in { IfOk result (λ node. node.0 < length graph.new.nodes) }
{
    let (ins, outs) = (Row::new(alloc), Row::new(alloc));
    let region = graph.add_node(OpKind::Dfg { ins, outs }, parent)?;
    let types = Row::new(alloc);
    graph.add_node(OpKind::Input { types }, region)?;
    let types = Row::new(alloc);
    graph.add_node(OpKind::Output { types }, region)?;
    Ok(region)
}

// The graph in which a function has this many regions, each in the one before it.
fn nest(alloc: Global, regions: u64) -> Result<Graph, AllocError> {
    let mut graph = Graph::new(alloc)?;
    let mut last = add_function(&mut graph, alloc)?;
    for _ in 0..regions {
        last = add_region(&mut graph, alloc, last)?;
    }
    Ok(graph)
}

// Whether a valid graph is ordered.
fn order_of(alloc: Global, graph: &Valid) -> Result<Verdict, AllocError> {
    if is_ordered(alloc, graph)? {
        Ok(Verdict::Ordered)
    } else {
        Ok(Verdict::Unordered)
    }
}

// Whether a graph is valid and ordered.
fn verdict_of(alloc: Global, graph: Graph) -> Result<Verdict, AllocError> {
    match validate(alloc, graph) {
        Ok(valid) => order_of(alloc, &valid),
        Err(Invalid::Rule { rule, .. }) => Ok(Verdict::Broken { rule }),
        Err(Invalid::Memory { .. }) => Err(AllocError),
    }
}

// How large a graph is.
fn size_of(graph: &Graph) -> Verdict {
    Verdict::Grown {
        nodes: graph.node_count(),
        links: graph.link_count(),
    }
}

// Does a task with this number of gates or regions.
fn done(alloc: Global, task: Task, number: u64) -> Result<Verdict, AllocError> {
    match task {
        Task::Grow => Ok(size_of(&chain(alloc, number)?)),
        Task::Build => match built_chain(alloc, number) {
            Ok(graph) => Ok(size_of(&graph)),
            Err(BuildFault::Memory) => Err(AllocError),
        },
        Task::Chain => verdict_of(alloc, chain(alloc, number)?),
        Task::Nest => verdict_of(alloc, nest(alloc, number)?),
    }
}

fn main(rt: HostRuntime) -> anyhow::Result<()> {
    match job(&rt) {
        Some((task, number)) => println!(rt; "{}", done(rt.alloc(), task, number)?)?,
        None => {
            for task in [Task::Grow, Task::Build, Task::Chain, Task::Nest] {
                println!(rt; "{}", done(rt.alloc(), task, FEW)?)?;
            }
        }
    }
    Ok(())
}
