//! The least broken rule of a graph, and the least node that breaks it.

ghost use Rattle.std.specs.Prelude.{◌≡◌, ◌≤◌, IfOk};
ghost use Rattle.std.specs.Option.{option_map};
ghost use Rattle.hg_graph.specs.View.{number_of};
ghost use Rattle.hg_valid.specs.Answers.{FirstBroken};
ghost use Rattle.hg_valid.specs.code.Broken.{EarlierHold, FirstToBreak};
ghost use Rattle.hg_valid.specs.code.RuleView.{rule_view};
ghost use Rattle.hg_valid.specs.code.Tables.{AreTables};

use crate::cycle::first_on_cycle;
use crate::links::first_target;
use crate::names::first_named_again;
use crate::nodes::first_node;
use crate::rule::{Rule, rule_of};
use crate::tables::{Tables, tables_of};
use hg_graph::{Graph, NodeId};
use std::alloc::{AllocError, Global};

// A broken rule, by its number, and a node that breaks it.
#[derive(Clone, Copy)]
pub(crate) struct Broken {
    pub(crate) rule: u8,
    pub(crate) node: NodeId,
}

// The least node that breaks the rule; `None` exactly where every node keeps it.
fn first_to_break(
    alloc: Global,
    graph: &Graph,
    tables: &Tables,
    rule: Rule,
) -> Result<Option<NodeId>, AllocError>
    requires tables { AreTables graph.now tables.now }
    requires earlier { EarlierHold graph.now (rule_view rule) }
    ensures { IfOk result (λ first. FirstToBreak graph.now (rule_view rule) (option_map number_of first)) }
{
    match rule {
        Rule::Node(rule) => Ok(first_node(graph, tables, rule)),
        Rule::Link(rule) => Ok(first_target(graph, tables, rule)),
        Rule::NoCycle => first_on_cycle(alloc, graph),
        Rule::Names => first_named_again(alloc, graph),
    }
}

/// The least broken rule, and the least node that breaks it; `None` exactly where no rule is broken.
pub(crate) fn first_broken(alloc: Global, graph: &Graph) -> Result<Option<Broken>, AllocError>
    ensures { IfOk result (λ first. FirstBroken graph.now first) }
{
    let _count = graph.node_count();
    let tables = tables_of(alloc, graph)?;
    for number in 1..16u8 {
        let rule = rule_of(number);
        if let Some(node) = first_to_break(alloc, graph, &tables, rule)? {
            return Ok(Some(Broken { rule: number, node }));
        }
    }
    Ok(None)
}
