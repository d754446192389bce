//! The rules that are tested node by node.

ghost use Rattle.std.specs.Prelude.{◌≡◌, ◌<◌, ◌↔◌, IsTrue, length};
ghost use Rattle.std.specs.Option.{option_map};
ghost use Rattle.hg_graph.specs.Valid.{Keeps};
ghost use Rattle.hg_graph.specs.View.{number_of};
ghost use Rattle.hg_valid.specs.code.Broken.{EarlierHold, FirstToBreak};
ghost use Rattle.hg_valid.specs.code.RuleView.{node_rule_view};
ghost use Rattle.hg_valid.specs.code.Tables.{AreTables};

use crate::blocks::{keeps_callee, keeps_static, keeps_successors};
use crate::places::{has_place, suits_parent};
use crate::port_links::{inputs_are_fed, linear_outputs_are_taken};
use crate::regions::{keeps_blocks, keeps_boundary, keeps_cases};
use crate::rule::NodeRule;
use crate::tables::Tables;
use crate::tags::keeps_tags;
use hg_graph::{Graph, NodeId};

// Whether the node keeps the rule.
fn node_keeps(graph: &Graph, tables: &Tables, rule: NodeRule, node: NodeId) -> bool
    requires node_in { node.0 < length graph.now.nodes }
    requires tables { AreTables graph.now tables.now }
    requires earlier { EarlierHold graph.now (node_rule_view rule) }
    ensures { IsTrue result ↔ Keeps graph.now (node_rule_view rule) node.0 }
{
    match rule {
        NodeRule::Places => has_place(graph, node),
        NodeRule::Children => suits_parent(graph, node),
        NodeRule::Boundaries => keeps_boundary(graph, node),
        NodeRule::Blocks => keeps_blocks(graph, node),
        NodeRule::Cases => keeps_cases(graph, node),
        NodeRule::Inputs => inputs_are_fed(graph, tables, node),
        NodeRule::LinearOutputs => linear_outputs_are_taken(graph, tables, node),
        NodeRule::Successors => keeps_successors(graph, node),
        NodeRule::StaticLinks => keeps_static(graph, tables, node),
        NodeRule::Callees => keeps_callee(graph, tables, node),
        NodeRule::VariantsAndTags => keeps_tags(graph.op(node)),
    }
}

/// The least node that breaks the rule; `None` exactly where every node keeps it.
pub(crate) fn first_node(graph: &Graph, tables: &Tables, rule: NodeRule) -> Option<NodeId>
    requires tables { AreTables graph.now tables.now }
    requires earlier { EarlierHold graph.now (node_rule_view rule) }
    ensures { FirstToBreak graph.now (node_rule_view rule) (option_map number_of result) }
{
    for n in 0..graph.node_count() {
        if !node_keeps(graph, tables, rule, NodeId(n)) {
            return Some(NodeId(n));
        }
    }
    None
}
