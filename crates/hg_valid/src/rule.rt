//! The rules of valid graphs, by number.

ghost use Rattle.std.specs.Prelude.{◌≡◌, ◌≤◌};
ghost use Rattle.hg_graph.specs.Valid.{number_of};
ghost use Rattle.hg_valid.specs.code.RuleView.{rule_view};

// A rule, by what is looked at to test it.
#[derive(Clone, Copy)]
pub(crate) enum Rule {
    // Each node by itself.
    Node(NodeRule),
    // Each link by itself; the link's target keeps the rule or breaks it.
    Link(LinkRule),
    // No path of value and order links leads from a node to itself.
    NoCycle,
    // No two functions have the same name.
    Names,
}

// A rule that is tested node by node.
#[derive(Clone, Copy)]
pub(crate) enum NodeRule {
    Places,
    Children,
    Boundaries,
    Blocks,
    Cases,
    Inputs,
    LinearOutputs,
    Successors,
    StaticLinks,
    Callees,
    VariantsAndTags,
}

// A rule that is tested link by link.
#[derive(Clone, Copy)]
pub(crate) enum LinkRule {
    Joins,
    SameParent,
}

/// The rule with a number from 1 to 15.
pub(crate) fn rule_of(number: u8) -> Rule
    requires low { 1 ≤ number }
    requires high { number ≤ 15 }
    ensures { number_of (rule_view result) ≡ number }
{
    match number {
        1 => Rule::Node(NodeRule::Places),
        2 => Rule::Node(NodeRule::Children),
        3 => Rule::Node(NodeRule::Boundaries),
        4 => Rule::Node(NodeRule::Blocks),
        5 => Rule::Node(NodeRule::Cases),
        6 => Rule::Link(LinkRule::Joins),
        7 => Rule::Node(NodeRule::Inputs),
        8 => Rule::Node(NodeRule::LinearOutputs),
        9 => Rule::Link(LinkRule::SameParent),
        10 => Rule::NoCycle,
        11 => Rule::Node(NodeRule::Successors),
        12 => Rule::Node(NodeRule::StaticLinks),
        13 => Rule::Node(NodeRule::Callees),
        14 => Rule::Names,
        _ => Rule::Node(NodeRule::VariantsAndTags),
    }
}
