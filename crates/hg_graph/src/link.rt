//! Node numbers, ports and links.

/// A node, by its number: its place in the list of nodes, counted from 0.
#[derive(Clone, Copy, Debug, PartialEq, Eq)]
pub struct NodeId(pub u64);

/// A port of a node. A node's inputs and outputs are numbered apart, each from 0.
#[derive(Clone, Copy, Debug, PartialEq, Eq)]
pub struct Port {
    /// The node.
    pub node: NodeId,
    /// The port's number.
    pub index: u64,
}

/// A link between two nodes.
#[derive(Clone, Copy, Debug, PartialEq, Eq)]
pub enum Link {
    /// From an output port to an input port.
    Ports(Port, Port),
    /// The first node fires before the second.
    Order(NodeId, NodeId),
}
