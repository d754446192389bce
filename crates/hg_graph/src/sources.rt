//! The sources of links.

ghost use Rattle.std.specs.Prelude.{◌≡◌, map, slice_get, option_and_then};
ghost use Rattle.std.specs.Option.{option_map};
ghost use Rattle.hg_graph.specs.Graph.{feeder};
ghost use Rattle.hg_graph.specs.code.Sources.{source_of};
ghost use Rattle.hg_graph.specs.View.{port_view, link_view};

use crate::link::{Link, Port};

/// The source of the link with a number, where there is a number, and the link is one of ports.
pub(crate) fn source_at(links: &[Link], number: Option<u64>) -> Option<Port>
    ensures { option_map port_view result ≡ option_and_then (λ k. source_of (slice_get (map link_view links.now) k)) number }
{
    match links.get(number? as usize) {
        Some(Link::Ports(from, _)) => Some(*from),
        _ => None,
    }
}

/// The source of the first link into an input port.
pub(crate) fn first_source(links: &[Link], to: Port) -> Option<Port>
    ensures { option_map port_view result ≡ feeder (map link_view links.now) (port_view to) }
{
    for link in links {
        if let Link::Ports(from, into) = *link
            && into == to
        {
            return Some(from);
        }
    }
    None
}
