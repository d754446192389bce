//! What a graph keeps of each node beside its lists: its children and the links at its ports.

use crate::link::{Link, NodeId};
use crate::ports::{Numbers, no_numbers, push_at, take_back_at};
use gp_base::Sequence;
use std::alloc::{AllocError, Global};
use std::marker::Model;

/// The children of a node and the numbers of the links at it, by port. A link into an input that the node's op doesn't
/// have is kept in a side list, so that the number of such an input takes no room.
#[derive(Drop)]
pub(crate) struct NodeIndex {
    children: Vec<NodeId>,
    inputs: Vec<Numbers>,
    outputs: Vec<Numbers>,
    before: Numbers,
    after: Numbers,
    strays: Vec<Link>,
}

impl Model for NodeIndex {
    ghost use Rattle.hg_graph.specs.NodeIndex as spec;

    ghost Value = { spec.NodeIndex };

    ghost use Rattle.hg_graph.specs.code.NodeIndexView.{node_index_view};

    ghost view = { node_index_view };
}

impl NodeIndex {
    ghost use Rattle.std.specs.Prelude.{◌≡◌, ◌<◌, ℕ, [], length, map, slice_get, slice_index_or, replicate, IfOk, OnOk, OnErr};
    ghost use Rattle.hg_graph.specs.NodeIndex as spec;
    ghost use Rattle.hg_graph.specs.View.{number_of, link_view};

    /// That of a node with these numbers of inputs and outputs, without children or links.
    pub(crate) fn new(alloc: Global, inputs: u64, outputs: u64) -> Result<NodeIndex, AllocError>
        ensures { IfOk result (λ index. index ≡ record { children = []; inputs = replicate inputs []; outputs = replicate outputs []; before = []; after = []; strays = [] }) }
    {
        Ok(NodeIndex {
            children: Vec::new(alloc),
            inputs: no_numbers(alloc, inputs)?,
            outputs: no_numbers(alloc, outputs)?,
            before: Sequence::new(alloc),
            after: Sequence::new(alloc),
            strays: Vec::new(alloc),
        })
    }

    /// Appends a child. After an error nothing has changed.
    pub(crate) fn push_child(&mut self, child: NodeId) -> Result<(), AllocError>
        ensures ok { OnOk result (self.new ≡ spec.with_child child.0 self.old) }
        ensures err { OnErr result (self.new ≡ self.old) }
    {
        self.children.push(child)?;
        Ok(())
    }

    /// Appends the link with this number at an input. After an error nothing has changed.
    pub(crate) fn push_input(
        &mut self,
        index: u64,
        link: Link,
        number: u64,
    ) -> Result<(), AllocError>
        ensures ok { OnOk result (self.new ≡ spec.with_input index (link_view link) number self.old) }
        ensures err { OnErr result (self.new ≡ self.old) }
    {
        if index < self.inputs.len() as u64 {
            push_at(&mut self.inputs, index, number)?;
        } else {
            self.strays.push(link)?;
        }
        Ok(())
    }

    /// Appends the link with this number at an output. After an error nothing has changed.
    pub(crate) fn push_output(&mut self, index: u64, number: u64) -> Result<(), AllocError>
        ensures ok { OnOk result (self.new ≡ spec.with_output index number self.old) }
        ensures err { OnErr result (self.new ≡ self.old) }
    {
        push_at(&mut self.outputs, index, number)
    }

    /// Takes the last link at an output back.
    pub(crate) fn take_back_output(&mut self, index: u64)
        ensures { (before : spec.NodeIndex) (number : ℕ) → self.old ≡ spec.with_output index number before → self.new ≡ before }
    {
        take_back_at(&mut self.outputs, index);
    }

    /// Appends an order link into the node. After an error nothing has changed.
    pub(crate) fn push_before(&mut self, number: u64) -> Result<(), AllocError>
        ensures ok { OnOk result (self.new ≡ spec.with_before number self.old) }
        ensures err { OnErr result (self.new ≡ self.old) }
    {
        self.before.push(number)
    }

    /// Appends an order link out of the node. After an error nothing has changed.
    pub(crate) fn push_after(&mut self, number: u64) -> Result<(), AllocError>
        ensures ok { OnOk result (self.new ≡ spec.with_after number self.old) }
        ensures err { OnErr result (self.new ≡ self.old) }
    {
        self.after.push(number)
    }

    /// Takes the last order link out of the node back.
    pub(crate) fn take_back_after(&mut self)
        ensures { (before : spec.NodeIndex) (number : ℕ) → self.old ≡ spec.with_after number before → self.new ≡ before }
    {
        self.after.take_back();
    }

    /// The children in order.
    pub(crate) fn children(&self) -> &[NodeId]
        ensures { map number_of result.now ≡ self.now.children }
    {
        self.children.as_slice()
    }

    /// The number of inputs.
    pub(crate) fn input_count(&self) -> u64
        ensures { result ≡ length self.now.inputs }
    {
        self.inputs.len() as u64
    }

    /// The numbers of the links at an input.
    pub(crate) fn input(&self, index: u64) -> &[u64]
        requires { index < length self.now.inputs }
        ensures { result.now ≡ slice_index_or self.now.inputs index [] }
    {
        self.inputs[index as usize].as_slice()
    }

    /// The number of the first link at an input.
    pub(crate) fn first_input(&self, index: u64) -> Option<u64>
        requires { index < length self.now.inputs }
        ensures { result ≡ slice_get (slice_index_or self.now.inputs index []) 0 }
    {
        self.input(index).get(0).copied()
    }

    /// The numbers of the links at an output.
    pub(crate) fn output(&self, index: u64) -> &[u64]
        requires { index < length self.now.outputs }
        ensures { result.now ≡ slice_index_or self.now.outputs index [] }
    {
        self.outputs[index as usize].as_slice()
    }

    /// The numbers of the order links into the node.
    pub(crate) fn before(&self) -> &[u64]
        ensures { result.now ≡ self.now.before }
    {
        self.before.as_slice()
    }

    /// The numbers of the order links out of the node.
    pub(crate) fn after(&self) -> &[u64]
        ensures { result.now ≡ self.now.after }
    {
        self.after.as_slice()
    }

    /// The links into inputs that the node's op doesn't have.
    pub(crate) fn strays(&self) -> &[Link]
        ensures { map link_view result.now ≡ self.now.strays }
    {
        self.strays.as_slice()
    }
}
