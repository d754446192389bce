//! Regions that grow node by node.

ghost use Rattle.std.specs.Prelude.{◌≡◌, ◌+◌, ◌<◌, ℕ, IfOk, OnOk, length, slice_get, map, Some, None, [], ◌∷◌};
ghost use Rattle.std.specs.Option.{option_map};
ghost use Rattle.hg_ops.specs.OpView.{op_view};
ghost use Rattle.hg_graph.specs.Graph.{children};
ghost use Rattle.hg_graph.specs.View.{number_of, port_view};
ghost use Rattle.hg_build.specs.Wired.{ports_of, plain_held, IsNode, IsOpened, IsConstant, call_of, load_of, IsChoice, IsBlock, IsControl, IsEntered, IsLeft, IsFinished};
ghost use Rattle.hg_ops.specs.Op.{Cfg, ins_of, outs_of};
ghost use Rattle.hg_build.specs.Pending.{PendsAfter};
ghost use Rattle.hg_build.specs.Kept.{OpenKept, OpKept, ConstantKept, CallKept, LoadKept, ChoiceKept, FlowKept, LeaveKept, FinishKept, EnterKept, BlockKept, ControlKept};
ghost use Rattle.hg_build.specs.Ordering.{OpenOrdered, NodeOrdered, QuietOrdered, BlockOrdered, ControlOrdered, EnterOrdered, LeaveOrdered, FinishOrdered};
ghost use Rattle.hg_build.specs.Containing.{OpenContains, OpContains, ConstantContains, CallContains, LoadContains, ChoiceContains, FlowContains, BlockContains, ControlContains, EnterContains, LeaveContains, FinishContains, FlowCharted, BlockCharted, ControlCharted};
ghost use Rattle.hg_build.specs.Clauses.{OpenBuilt, OpBuilt, ConstantBuilt, CallBuilt, LoadBuilt, ChoiceBuilt, FlowBuilt, BlockBuilt, ControlBuilt, EnterBuilt, LeaveBuilt, FinishBuilt};
ghost use Rattle.hg_graph.specs.Graph.{op_at};

use crate::growing::{add, add_cases, follow, inner_rows, join, link};
use crate::wire::{BuildFault, Held, Wire, Wires, held_of};
use hg_graph::{Graph, NodeId, Port};
use hg_ops::{OpKind, Row, Rows, is_effect, signature};
use std::alloc::Global;

/// The container of an open region, and what stands in it.
#[derive(Clone, Copy)]
pub(crate) struct Place {
    container: u64,
    input: u64,
    output: u64,
    last: Option<u64>,
}

/// An open dataflow region, which owns its graph.
#[derive(Drop)]
pub struct Region {
    alloc: Global,
    graph: Graph,
    place: Place,
}

/// A region that waits while one of its containers is open.
#[derive(Drop)]
pub struct Outer {
    place: Place,
    node: u64,
    chained: bool,
}

impl Region {
    // Adds a node with its value links, its static link from `source` and its order link.
    fn node(
        &mut self,
        op: OpKind,
        items: &[Held],
        source: Option<u64>,
    ) -> Result<(u64, Vec<Held>), BuildFault>
        ensures { IfOk result (λ r. IsNode self.old self.new (op_view op) (ports_of items.now)
            source r.0 r.1.items) }
    {
        let effect = is_effect(&op);
        let (_, types) = signature(self.alloc, &op)?;
        let node = add(&mut self.graph, op, self.place.container)?;
        let held = held_of(self.alloc, node, &types)?;
        join(&mut self.graph, items, node)?;
        if let Some(source) = source {
            let from = Port {
                node: NodeId(source),
                index: 0,
            };
            let to = Port {
                node: NodeId(node),
                index: items.len() as u64,
            };
            link(&mut self.graph, from, to)?;
        }
        if effect {
            follow(&mut self.graph, self.place.last, node)?;
            self.place.last = Some(node);
        }
        Ok((node, held))
    }

    // Adds the Input and the Output of a container.
    fn add_ends(
        alloc: Global,
        mut graph: Graph,
        container: u64,
        ins: Row,
        outs: Row,
    ) -> Result<(Region, Wires), BuildFault>
        ensures { IfOk result (λ r. IsOpened graph container ins outs r.0 r.1.items.items) }
    {
        let input = graph.node_count();
        let held = held_of(alloc, input, &ins)?;
        add(&mut graph, OpKind::Input { types: ins }, container)?;
        let output = add(&mut graph, OpKind::Output { types: outs }, container)?;
        let place = Place {
            container,
            input,
            output,
            last: None,
        };
        let region = Region {
            alloc,
            graph,
            place,
        };
        Ok((region, Wires { items: held }))
    }
}

impl Region {
    // Adds a number.
    fn add_constant(&mut self, value: i64) -> Result<Wire, BuildFault>
        ensures { IfOk result (λ w. IsConstant self.old self.new value
            (record { node = w.node; index = w.index })) }
    {
        let constant = add(
            &mut self.graph,
            OpKind::Const { value },
            self.place.container,
        )?;
        let (node, _) = self.node(OpKind::LoadConstant, &[], Some(constant))?;
        Ok(Wire { node, index: 0 })
    }

    // Adds a Conditional with its empty cases.
    fn add_conditional(
        &mut self,
        rows: Rows,
        ins: Row,
        outs: Row,
        items: &[Held],
    ) -> Result<(u64, Vec<Held>), BuildFault>
        ensures { IfOk result (λ r. IsChoice self.old self.new rows ins outs (ports_of items.now)
            r.0 r.1.items) }
    {
        let alloc = self.alloc;
        let (own_rows, own_ins, own_outs) = (
            rows.copy(alloc)?,
            ins.copy(alloc)?,
            outs.copy(alloc)?,
        );
        let op = OpKind::Conditional { rows, ins, outs };
        let (node, held) = self.node(op, items, None)?;
        add_cases(alloc, &mut self.graph, node, &own_rows, &own_ins, &own_outs)?;
        Ok((node, held))
    }

    // Opens a container.
    fn open_inner(self, container: u64) -> Result<(Outer, Region, Wires), BuildFault>
        ensures { IfOk result (λ r. IsEntered self container r.0 r.1 r.2.items.items) }
    {
        let Region {
            alloc,
            graph,
            place,
        } = self;
        if container >= graph.node_count() {
            return Err(BuildFault::Memory);
        }
        let (ins, outs) = inner_rows(alloc, graph.op(NodeId(container)))?;
        let node = graph.parent(NodeId(container));
        if node.0 >= graph.node_count() {
            return Err(BuildFault::Memory);
        }
        let chained = is_effect(graph.op(node));
        let (inner, wires) = Region::add_ends(alloc, graph, container, ins, outs)?;
        let outer = Outer {
            place,
            node: node.0,
            chained,
        };
        Ok((outer, inner, wires))
    }

    // Closes a container.
    fn close_inner(self, outer: Outer, items: &[Held]) -> Result<Region, BuildFault>
        ensures { IfOk result (λ r. IsLeft self outer (ports_of items.now) r) }
    {
        let Region {
            alloc,
            mut graph,
            place,
        } = self;
        let Outer {
            place: mut back,
            node,
            chained,
        } = outer;
        join(&mut graph, items, place.output)?;
        if place.last.is_some() && !chained && back.last != Some(node) {
            follow(&mut graph, back.last, node)?;
            back.last = Some(node);
        }
        Ok(Region {
            alloc,
            graph,
            place: back,
        })
    }
}

impl Region {
    /// Opens a dataflow container of the graph that has no children, with its types inside.
    pub fn open(
        alloc: Global,
        graph: Graph,
        container: NodeId,
        ins: Row,
        outs: Row,
    ) -> Result<(Region, Wires), BuildFault>
        ensures exact { IfOk result (λ r. IsOpened graph container.0 ins outs r.0 r.1.items.items) }
        ensures built { IfOk result (λ r. OpenBuilt graph container.0 (length outs) r.0) }
        ensures pending { IfOk result (λ r. container.0 < length graph.nodes
            → PendsAfter graph r.0.graph [] r.1.items.items) }
        ensures kept { IfOk result (λ r. OpenKept graph container.0 r.0) }
        ensures contained { IfOk result (λ r. OpenContains graph container.0 ins outs r.0) }
        ensures ordered { IfOk result (λ r. OpenOrdered graph container.0 r.0) }
    {
        let opened = Region::add_ends(alloc, graph, container.0, ins, outs)?;
        Ok(opened)
    }

    /// Adds a node without children, its value links and, after an effect node, its order link.
    pub fn op(&mut self, op: OpKind, ins: Wires) -> Result<Wires, BuildFault>
        ensures exact { IfOk result (λ ws. IsNode self.old self.new (op_view op)
            (ports_of ins.items.items) None (length self.old.graph.nodes) ws.items.items) }
        ensures built { OnOk result (OpBuilt self.old self.new (op_view op)
            (ports_of ins.items.items)) }
        ensures pending { IfOk result (λ ws. PendsAfter self.old.graph self.new.graph
            ins.items.items ws.items.items) }
        ensures kept { OnOk result (OpKept self.old self.new (op_view op)
            (ports_of ins.items.items)) }
        ensures contained { OnOk result (OpContains self.old self.new (op_view op)
            (ports_of ins.items.items)) }
        ensures ordered { OnOk result (NodeOrdered self.old self.new (op_view op)) }
    {
        let Wires { items } = ins;
        let (_, outs) = self.node(op, items.as_slice(), None)?;
        Ok(Wires { items: outs })
    }

    /// Adds a number: a `Const`, its `LoadConstant` and the static link between them.
    pub fn constant(&mut self, value: i64) -> Result<Wire, BuildFault>
        ensures exact { IfOk result (λ w. IsConstant self.old self.new value
            (record { node = w.node; index = w.index })) }
        ensures built { OnOk result (ConstantBuilt self.old self.new value) }
        ensures pending { IfOk result (λ w. self.old.place.container < length self.old.graph.nodes
            → PendsAfter self.old.graph self.new.graph [] (plain_held w ∷ [])) }
        ensures kept { OnOk result (ConstantKept self.old self.new) }
        ensures contained { OnOk result (ConstantContains self.old self.new) }
        ensures ordered { OnOk result (QuietOrdered self.old self.new) }
    {
        let wire = self.add_constant(value)?;
        Ok(wire)
    }

    /// Adds a call of a function of the graph, its value links, its static link and its order link.
    pub fn call(&mut self, function: NodeId, ins: Wires) -> Result<Wires, BuildFault>
        ensures exact { IfOk result (λ ws. IsNode self.old self.new
            (call_of (op_at self.old.graph function.0)) (ports_of ins.items.items) (Some function.0)
            (length self.old.graph.nodes) ws.items.items) }
        ensures built { OnOk result (CallBuilt self.old self.new function.0
            (ins_of (call_of (op_at self.old.graph function.0))) (ports_of ins.items.items)) }
        ensures pending { IfOk result (λ ws. function.0 < length self.old.graph.nodes
            → outs_of (op_at self.old.graph function.0) ≡ []
            → PendsAfter self.old.graph self.new.graph ins.items.items ws.items.items) }
        ensures kept { OnOk result (CallKept self.old self.new function.0
            (ports_of ins.items.items)) }
        ensures contained { OnOk result (CallContains self.old self.new function.0
            (ports_of ins.items.items)) }
        ensures ordered { OnOk result (NodeOrdered self.old self.new
            (call_of (op_at self.old.graph function.0))) }
    {
        let Wires { items } = ins;
        let outs = self.add_call(function.0, items.as_slice())?;
        Ok(Wires { items: outs })
    }

    /// Adds the load of a function of the graph as a value, with its static link.
    pub fn load_function(&mut self, function: NodeId) -> Result<Wire, BuildFault>
        ensures exact { IfOk result (λ w. IsNode self.old self.new
            (load_of (op_at self.old.graph function.0)) [] (Some function.0) w.node
            (plain_held w ∷ [])) }
        ensures built { OnOk result (LoadBuilt self.old self.new function.0) }
        ensures pending { IfOk result (λ w. function.0 < length self.old.graph.nodes
            → outs_of (op_at self.old.graph function.0) ≡ []
            → PendsAfter self.old.graph self.new.graph [] (plain_held w ∷ [])) }
        ensures kept { OnOk result (LoadKept self.old self.new function.0) }
        ensures contained { OnOk result (LoadContains self.old self.new function.0) }
        ensures ordered { OnOk result (NodeOrdered self.old self.new
            (load_of (op_at self.old.graph function.0))) }
    {
        let (node, _) = self.add_load(function.0)?;
        Ok(Wire { node, index: 0 })
    }

    /// Adds a `Conditional`, its value links and its empty cases.
    pub fn conditional(
        &mut self,
        rows: Rows,
        ins: Row,
        outs: Row,
        wires: Wires,
    ) -> Result<(NodeId, Wires), BuildFault>
        ensures exact { IfOk result (λ r. IsChoice self.old self.new rows ins outs
            (ports_of wires.items.items) r.0.0 r.1.items.items) }
        ensures built { IfOk result (λ r. ChoiceBuilt self.old self.new rows ins
            (ports_of wires.items.items) r.0.0) }
        ensures pending { IfOk result (λ r. self.old.place.container < length self.old.graph.nodes
            → PendsAfter self.old.graph self.new.graph wires.items.items r.1.items.items) }
        ensures kept { OnOk result (ChoiceKept self.old self.new rows ins
            (ports_of wires.items.items)) }
        ensures contained { OnOk result (ChoiceContains self.old self.new rows ins
            (ports_of wires.items.items)) }
        ensures ordered { OnOk result (QuietOrdered self.old self.new) }
    {
        let Wires { items } = wires;
        let (node, outs) = self.add_conditional(rows, ins, outs, items.as_slice())?;
        Ok((NodeId(node), Wires { items: outs }))
    }

    /// The number of the graph's nodes.
    pub fn node_count(&self) -> u64
        ensures { result ≡ length self.now.graph.nodes }
    {
        self.graph.node_count()
    }

    /// The `k`-th case of a `Conditional`; `None` exactly where it has no such case.
    pub fn case(&self, conditional: NodeId, k: u64) -> Option<NodeId>
        requires { conditional.0 < length self.now.graph.nodes }
        ensures { option_map number_of result ≡ slice_get (children self.now.graph conditional.0)
            k }
    {
        self.graph.child(conditional, k)
    }

    /// Adds a `CFG` without children, its value links and its order link.
    pub fn cfg(&mut self, ins: Row, outs: Row, wires: Wires) -> Result<(NodeId, Wires), BuildFault>
        ensures exact { IfOk result (λ r. IsNode self.old self.new (Cfg ins outs)
            (ports_of wires.items.items) None r.0.0 r.1.items.items) }
        ensures built { IfOk result (λ r. FlowBuilt self.old self.new ins
            (ports_of wires.items.items) r.0.0) }
        ensures pending { IfOk result (λ r. PendsAfter self.old.graph self.new.graph
            wires.items.items r.1.items.items) }
        ensures kept { OnOk result (FlowKept self.old self.new ins (ports_of wires.items.items)) }
        ensures contained { OnOk result (FlowContains self.old self.new ins
            (ports_of wires.items.items)) }
        ensures ordered { OnOk result (NodeOrdered self.old self.new (Cfg ins outs)) }
        ensures charted { IfOk result (λ r. FlowCharted self.old self.new ins
            (ports_of wires.items.items) r.0.0) }
    {
        let Wires { items } = wires;
        let (node, outs) = self.node(OpKind::Cfg { ins, outs }, items.as_slice(), None)?;
        Ok((NodeId(node), Wires { items: outs }))
    }

    /// Adds a child to a `CFG`.
    pub fn block(&mut self, cfg: NodeId, op: OpKind) -> Result<NodeId, BuildFault>
        ensures exact { IfOk result (λ n. IsBlock self.old self.new cfg.0 (op_view op) n.0) }
        ensures built { IfOk result (λ n. BlockBuilt self.old self.new cfg.0 (op_view op) n.0) }
        ensures pending { OnOk result (outs_of (op_view op) ≡ []
            → PendsAfter self.old.graph self.new.graph [] []) }
        ensures kept { OnOk result (BlockKept self.old self.new cfg.0 (op_view op)) }
        ensures contained { OnOk result (BlockContains self.old self.new cfg.0 (op_view op)) }
        ensures ordered { OnOk result (BlockOrdered self.old self.new cfg.0 (op_view op)) }
        ensures charted { IfOk result (λ n. BlockCharted self.old self.new cfg.0 n.0) }
    {
        let node = self.add_block(cfg.0, op)?;
        Ok(NodeId(node))
    }

    /// Adds a control link from a block's port to a block or to the exit.
    pub fn control(&mut self, from: Port, to: NodeId) -> Result<(), BuildFault>
        ensures exact { OnOk result (IsControl self.old self.new (port_view from) to.0) }
        ensures built { OnOk result (ControlBuilt self.old self.new (port_view from) to.0) }
        ensures pending { OnOk result (outs_of (op_at self.old.graph from.node.0) ≡ []
            → PendsAfter self.old.graph self.new.graph [] []) }
        ensures kept { OnOk result (ControlKept self.old self.new (port_view from) to.0) }
        ensures contained { OnOk result (ControlContains self.old self.new (port_view from)) }
        ensures ordered { OnOk result (ControlOrdered self.old self.new) }
        ensures charted { OnOk result (ControlCharted self.old self.new (port_view from) to.0) }
    {
        self.add_control(from, to)?;
        Ok(())
    }

    /// Pauses this region, and opens a case of a `Conditional` or a block of a `CFG`.
    pub fn enter(self, container: NodeId) -> Result<(Outer, Region, Wires), BuildFault>
        ensures exact { IfOk result (λ r. IsEntered self container.0 r.0 r.1 r.2.items.items) }
        ensures built { IfOk result (λ r. EnterBuilt self container.0 r.0 r.1) }
        ensures pending { IfOk result (λ r. container.0 < length self.graph.nodes
            → PendsAfter self.graph r.1.graph [] r.2.items.items) }
        ensures kept { IfOk result (λ r. EnterKept self container.0 r.0 r.1) }
        ensures contained { IfOk result (λ r. EnterContains self container.0 r.0 r.1) }
        ensures ordered { IfOk result (λ r. EnterOrdered self container.0 r.0 r.1) }
    {
        let entered = self.open_inner(container.0)?;
        Ok(entered)
    }

    /// Closes the container with its outputs, and gives the outer region back.
    pub fn leave(self, outer: Outer, outs: Wires) -> Result<Region, BuildFault>
        ensures exact { IfOk result (λ r. IsLeft self outer (ports_of outs.items.items) r) }
        ensures built { IfOk result (λ r. LeaveBuilt self outer (ports_of outs.items.items) r) }
        ensures pending { IfOk result (λ r. PendsAfter self.graph r.graph outs.items.items []) }
        ensures kept { IfOk result (λ r. LeaveKept self outer (ports_of outs.items.items) r) }
        ensures contained { IfOk result (λ r. LeaveContains self (ports_of outs.items.items) r) }
        ensures ordered { IfOk result (λ r. LeaveOrdered self outer r) }
    {
        let Wires { items } = outs;
        let region = self.close_inner(outer, items.as_slice())?;
        Ok(region)
    }

    /// Closes the region of a function.
    pub fn finish(self, outs: Wires) -> Result<Graph, BuildFault>
        ensures exact { IfOk result (λ g. IsFinished self (ports_of outs.items.items) g) }
        ensures built { IfOk result (λ g. FinishBuilt self (ports_of outs.items.items) g) }
        ensures pending { IfOk result (λ g. PendsAfter self.graph g outs.items.items []) }
        ensures kept { IfOk result (λ g. FinishKept self (ports_of outs.items.items) g) }
        ensures contained { IfOk result (λ g. FinishContains self (ports_of outs.items.items) g) }
        ensures ordered { IfOk result (λ g. FinishOrdered self g) }
    {
        let Wires { items } = outs;
        let graph = self.close(items.as_slice())?;
        Ok(graph)
    }
}

impl Region {
    // Adds a call with the function's types.
    fn add_call(&mut self, function: u64, items: &[Held]) -> Result<Vec<Held>, BuildFault>
        ensures { IfOk result (λ v. IsNode self.old self.new
            (call_of (op_at self.old.graph function)) (ports_of items.now) (Some function)
            (length self.old.graph.nodes) v.items) }
    {
        if function >= self.graph.node_count() {
            return Err(BuildFault::Memory);
        }
        let alloc = self.alloc;
        let op = match self.graph.op(NodeId(function)) {
            OpKind::FuncDefn { ins, outs, .. } => OpKind::Call {
                ins: ins.copy(alloc)?,
                outs: outs.copy(alloc)?,
            },
            _ => OpKind::Call {
                ins: Row::new(alloc),
                outs: Row::new(alloc),
            },
        };
        let (_, outs) = self.node(op, items, Some(function))?;
        Ok(outs)
    }

    // Adds the load of a function, with the function's types.
    fn add_load(&mut self, function: u64) -> Result<(u64, Vec<Held>), BuildFault>
        ensures { IfOk result (λ r. IsNode self.old self.new
            (load_of (op_at self.old.graph function)) [] (Some function) r.0 r.1.items) }
    {
        if function >= self.graph.node_count() {
            return Err(BuildFault::Memory);
        }
        let alloc = self.alloc;
        let op = match self.graph.op(NodeId(function)) {
            OpKind::FuncDefn { ins, outs, .. } => OpKind::LoadFunction {
                ins: ins.copy(alloc)?,
                outs: outs.copy(alloc)?,
            },
            _ => OpKind::LoadFunction {
                ins: Row::new(alloc),
                outs: Row::new(alloc),
            },
        };
        let loaded = self.node(op, &[], Some(function))?;
        Ok(loaded)
    }

    // Adds a child to a CFG.
    fn add_block(&mut self, cfg: u64, op: OpKind) -> Result<u64, BuildFault>
        ensures { IfOk result (λ n. IsBlock self.old self.new cfg (op_view op) n) }
    {
        let node = add(&mut self.graph, op, cfg)?;
        Ok(node)
    }

    // Adds a control link.
    fn add_control(&mut self, from: Port, to: NodeId) -> Result<(), BuildFault>
        ensures { OnOk result (IsControl self.old self.new (port_view from) to.0) }
    {
        link(&mut self.graph, from, Port { node: to, index: 0 })?;
        Ok(())
    }

    // Adds the links into Output.
    fn close(self, items: &[Held]) -> Result<Graph, BuildFault>
        ensures { IfOk result (λ g. IsFinished self (ports_of items.now) g) }
    {
        let Region {
            alloc: _,
            mut graph,
            place,
        } = self;
        join(&mut graph, items, place.output)?;
        Ok(graph)
    }
}
