//! Graphs, as a list of nodes and a list of links.

use crate::filling::indexes_of;
use crate::indexes::{append, push_index, push_order, push_ports};
use crate::link::{Link, NodeId, Port};
use crate::node_index::NodeIndex;
use crate::sources::{first_source, source_at};
use gp_base::Sequence;
use hg_ops::OpKind;
use std::alloc::{AllocError, Global};
use std::marker::Model;

/// A node of a graph.
#[derive(Drop)]
pub struct Node {
    /// What the node does.
    pub op: OpKind,
    /// The node under which it stands; the root is its own parent.
    pub parent: NodeId,
}

/// A list of nodes.
pub type Nodes = Sequence<Node>;

/// A program graph that grows: nodes are numbered in the order in which they are added. A contract sees
/// it as the list of its nodes and the list of its links. Beside them it keeps the children of each node and the links
/// at each of its ports, so that a look-up takes the same time in a large graph as in a small one.
#[derive(Drop)]
pub struct Graph {
    nodes: Vec<Node>,
    links: Vec<Link>,
    indexes: Vec<NodeIndex>,
}

impl Model for Graph {
    ghost use Rattle.hg_graph.specs.Graph as spec;

    ghost Value = { spec.Graph };

    ghost use Rattle.std.specs.Coded.{codes};
    ghost use Rattle.hg_ops.specs.code.TypeCode.{coded_type};

    ghost coded = { Prim.hlevel (codes, coded_type) };

    ghost use Rattle.hg_graph.specs.NodeView.{graph_view};
    ghost use Rattle.hg_graph.specs.code.InStep.{IsInStep};

    ghost view = { graph_view };

    ghost invariant = { IsInStep };
}

impl Graph {
    ghost use Rattle.std.specs.Prelude.{◌≡◌, ◌<◌, ◌==◌, ◌&&◌, not, [], ◌∷◌, ◌++◌, length, slice_get, map, All, IfOk, OnOk, OnErr};
    ghost use Rattle.std.specs.Option.{option_map};
    ghost use Rattle.hg_ops.specs.Op as op;
    ghost use Rattle.hg_ops.specs.Op.{input_ports, output_ports};
    ghost use Rattle.hg_ops.specs.OpView.{op_view};
    ghost use Rattle.hg_graph.specs.Graph.{Ports, Order, IsGraph, op_at, parent_at, children, feeder};
    ghost use Rattle.hg_graph.specs.NodeIndex.{node_index, numbers_into, numbers_from, orders_into, orders_from};
    ghost use Rattle.hg_graph.specs.NodeView.{node_view};
    ghost use Rattle.hg_graph.specs.View.{number_of, port_view, link_view};

    /// The `Module` alone, as its own parent.
    pub fn new(alloc: Global) -> Result<Graph, AllocError>
        ensures { IfOk result (λ g. g ≡ record { nodes = record { op = op.Module; parent = 0 } ∷ []; links = [] }) }
    {
        let mut nodes = Vec::new(alloc);
        nodes.push(Node {
            op: OpKind::Module,
            parent: NodeId(0),
        })?;
        let indexes = indexes_of(alloc, &nodes)?;
        Ok(Graph {
            nodes,
            links: Vec::new(alloc),
            indexes,
        })
    }

    /// The graph with these nodes, numbered by their places, and no links. The first node may have any op,
    /// and a parent may have a greater number than its child. When refused, the nodes are dropped.
    pub fn of_nodes(alloc: Global, nodes: Nodes) -> Result<Graph, AllocError>
        requires some { 0 < length nodes }
        requires parents_in { All (λ node. node.parent.0 < length nodes) nodes }
        ensures { IfOk result (λ g. g ≡ record { nodes = map node_view nodes; links = [] }) }
    {
        let nodes = nodes.into_vec();
        let indexes = indexes_of(alloc, &nodes)?;
        Ok(Graph {
            nodes,
            links: Vec::new(alloc),
            indexes,
        })
    }

    /// Adds a node under a parent, and answers its number, which is the next one. After an error the graph
    /// is as it was, and the op is dropped.
    pub fn add_node(&mut self, op: OpKind, parent: NodeId) -> Result<NodeId, AllocError>
        requires { parent.0 < length self.old.nodes }
        ensures number { IfOk result (λ node. node.0 ≡ length self.old.nodes) }
        ensures ok { OnOk result (self.new ≡ record self.old { nodes = self.old.nodes ++ record { op = op_view op; parent = parent.0 } ∷ [] }) }
        ensures err { OnErr result (self.new ≡ self.old) }
    {
        let number = NodeId(self.nodes.len() as u64);
        push_index(&mut self.nodes, &mut self.indexes, parent, &op)?;
        append(&mut self.nodes, Node { op, parent })?;
        Ok(number)
    }

    /// Adds a link from an output port to an input port. After an error the graph is as it was.
    pub fn link(&mut self, from: Port, to: Port) -> Result<(), AllocError>
        requires from_in { from.node.0 < length self.old.nodes }
        requires to_in { to.node.0 < length self.old.nodes }
        ensures ok { OnOk result (self.new ≡ record self.old { links = self.old.links ++ Ports (port_view from) (port_view to) ∷ [] }) }
        ensures err { OnErr result (self.new ≡ self.old) }
    {
        let number = self.links.len() as u64;
        self.links.reserve(1)?;
        push_ports(&mut self.indexes, from, to, number)?;
        self.links.push(Link::Ports(from, to))?;
        Ok(())
    }

    /// Adds an order link: the first node fires before the second. After an error the graph is as it was.
    pub fn order(&mut self, from: NodeId, to: NodeId) -> Result<(), AllocError>
        requires from_in { from.0 < length self.old.nodes }
        requires to_in { to.0 < length self.old.nodes }
        ensures ok { OnOk result (self.new ≡ record self.old { links = self.old.links ++ Order from.0 to.0 ∷ [] }) }
        ensures err { OnErr result (self.new ≡ self.old) }
    {
        let number = self.links.len() as u64;
        self.links.reserve(1)?;
        push_order(&mut self.indexes, from, to, number)?;
        self.links.push(Link::Order(from, to))?;
        Ok(())
    }

    /// The number of nodes, at least 1. All parents and all nodes of links are below it.
    pub fn node_count(&self) -> u64
        ensures count { result ≡ length self.now.nodes }
        ensures graph { IsGraph self.now }
    {
        self.nodes.len() as u64
    }

    /// The op of a node.
    #[tactic(auto, unfolding(crate::specs::Graph::op_at))]
    pub fn op(&self, node: NodeId) -> &OpKind
        requires { node.0 < length self.now.nodes }
        ensures { op_view result.now ≡ op_at self.now node.0 }
    {
        &self.node(node).op
    }

    /// The parent of a node.
    #[tactic(auto, unfolding(crate::specs::Graph::parent_at))]
    pub fn parent(&self, node: NodeId) -> NodeId
        requires { node.0 < length self.now.nodes }
        ensures { result.0 ≡ parent_at self.now node.0 }
    {
        self.node(node).parent
    }

    /// The number of links.
    pub fn link_count(&self) -> u64
        ensures { result ≡ length self.now.links }
    {
        self.links.len() as u64
    }

    /// The link at place `k`, counted from 0; `None` exactly where `k` isn't less than their number.
    pub fn link_at(&self, k: u64) -> Option<Link>
        ensures { option_map link_view result ≡ slice_get self.now.links k }
    {
        self.links.get(k as usize).copied()
    }

    /// The source of the first link into an input port; `None` exactly where no link goes into it.
    pub fn feeder(&self, to: Port) -> Option<Port>
        ensures { option_map port_view result ≡ feeder self.now.links (port_view to) }
    {
        if to.node.0 >= self.nodes.len() as u64 {
            return None;
        }
        let index = self.index(to.node);
        if to.index >= index.input_count() {
            return first_source(index.strays(), to);
        }
        source_at(&self.links, index.first_input(to.index))
    }

    /// The number of a node's children: the other nodes whose parent it is.
    #[tactic(auto, unfolding(crate::specs::NodeIndex::node_index))]
    pub fn child_count(&self, node: NodeId) -> u64
        requires { node.0 < length self.now.nodes }
        ensures { result ≡ length (children self.now node.0) }
    {
        self.index(node).children().len() as u64
    }

    /// A node's child at place `k`, counted from 0 in rising number; `None` exactly where it has no such child.
    #[tactic(auto, unfolding(crate::specs::NodeIndex::node_index))]
    pub fn child(&self, node: NodeId, k: u64) -> Option<NodeId>
        requires { node.0 < length self.now.nodes }
        ensures { option_map number_of result ≡ slice_get (children self.now node.0) k }
    {
        self.index(node).children().get(k as usize).copied()
    }

    /// A node's children in rising number.
    #[tactic(auto, unfolding(crate::specs::NodeIndex::node_index))]
    pub fn children(&self, node: NodeId) -> &[NodeId]
        requires { node.0 < length self.now.nodes }
        ensures { map number_of result.now ≡ children self.now node.0 }
    {
        self.index(node).children()
    }

    /// The numbers of the links into an input port that its node has: their places in the list of links, in order.
    pub fn links_into(&self, to: Port) -> &[u64]
        requires node_in { to.node.0 < length self.now.nodes }
        requires port_in { to.index < length (input_ports (op_at self.now to.node.0)) }
        ensures { result.now ≡ numbers_into self.now.links (port_view to) }
    {
        self.index(to.node).input(to.index)
    }

    /// The numbers of the links out of an output port that its node has, in order.
    pub fn links_from(&self, from: Port) -> &[u64]
        requires node_in { from.node.0 < length self.now.nodes }
        requires port_in { from.index < length (output_ports (op_at self.now from.node.0)) }
        ensures { result.now ≡ numbers_from self.now.links (port_view from) }
    {
        self.index(from.node).output(from.index)
    }

    /// The numbers of the order links into a node, in order.
    #[tactic(auto, unfolding(crate::specs::NodeIndex::node_index))]
    pub fn orders_into(&self, node: NodeId) -> &[u64]
        requires { node.0 < length self.now.nodes }
        ensures { result.now ≡ orders_into self.now.links node.0 }
    {
        self.index(node).before()
    }

    /// The numbers of the order links out of a node, in order.
    #[tactic(auto, unfolding(crate::specs::NodeIndex::node_index))]
    pub fn orders_from(&self, node: NodeId) -> &[u64]
        requires { node.0 < length self.now.nodes }
        ensures { result.now ≡ orders_from self.now.links node.0 }
    {
        self.index(node).after()
    }

    // What is kept of a node.
    fn index(&self, node: NodeId) -> &NodeIndex
        requires { node.0 < length self.now.nodes }
        ensures { result.now ≡ node_index self.now node.0 }
    {
        &self.indexes[node.0 as usize]
    }

    // The node with this number.
    fn node(&self, node: NodeId) -> &Node
        requires { node.0 < length self.now.nodes }
        ensures { slice_get self.now.nodes node.0 ≡ Some (node_view result.now) }
    {
        &self.nodes[node.0 as usize]
    }
}
