//! Gates, with their numbers of qubits and angles as parameters.

ghost use Rattle.std.specs.Prelude.{◌≡◌};
ghost use Rattle.hg_ops.specs.Gates as spec;
ghost use Rattle.hg_ops.specs.Gates.{qubit_count, angle_count};
ghost use Rattle.hg_ops.specs.OpView.{op_view};

use crate::graph_type::{GraphType, Row};
use crate::op_kind::OpKind;
use crate::tables::gates;
use gp_base::GateName;
use std::alloc::{AllocError, Global};
use std::marker::Model;

/// A gate on `QUBITS` qubits with `ANGLES` angles. A contract sees it as its name.
#[derive(Drop)]
pub struct Gate<const QUBITS: usize, const ANGLES: usize> {
    name: GateName,
}

impl<const QUBITS: usize, const ANGLES: usize> Model for Gate<QUBITS, ANGLES> {
    ghost use Rattle.gp_base.specs.declared.event.GateName.{GateName};

    ghost Value = { GateName };

    ghost use Rattle.std.specs.Prelude.{◌≡◌};
    ghost use Rattle.hg_ops.specs.Gates.{qubit_count, angle_count};

    ghost view = { λ gate. gate.name };

    ghost invariant = { λ gate. (qubit_count gate.name ≡ QUBITS) × (angle_count gate.name ≡ ANGLES) };
}

macro_rules! counts {
    ([$gate:ident] [$($name:ident $text:literal $qubits:literal $angles:literal,)*]) => {
        match $gate {
            $(GateName::$name => ($qubits, $angles),)*
        }
    };
}

macro_rules! op_of {
    ([$gate:ident] [$($name:ident $text:literal $qubits:literal $angles:literal,)*]) => {
        match $gate {
            $(GateName::$name => OpKind::$name,)*
        }
    };
}

// The numbers of a gate's qubits and angles.
fn counts_of(gate: GateName) -> (usize, usize)
    ensures { result ≡ (qubit_count gate, angle_count gate) }
{
    gates!(counts, [gate])
}

/// The op that applies a gate. Takes no memory.
pub fn gate_op(gate: GateName) -> OpKind
    ensures { op_view result ≡ spec.gate_op gate }
{
    gates!(op_of, [gate])
}

impl<const QUBITS: usize, const ANGLES: usize> Gate<QUBITS, ANGLES> {
    ghost use Rattle.std.specs.Prelude.{◌≡◌, ◌↔◌, IsSome, IfSome, IfOk};
    ghost use Rattle.hg_ops.specs.Gates.{qubit_count, angle_count, gate_ins, gate_outs};

    /// The gate of this name; `None` exactly where the name's gate has other numbers of qubits and angles. Takes no
    /// memory.
    pub fn new(name: GateName) -> Option<Gate<QUBITS, ANGLES>>
        ensures made { IfSome result (λ gate. gate ≡ name) }
        ensures exact { IsSome result ↔ ((qubit_count name ≡ QUBITS) × (angle_count name ≡ ANGLES)) }
    {
        let (qubits, angles) = counts_of(name);
        if qubits == QUBITS && angles == ANGLES {
            Some(Gate { name })
        } else {
            None
        }
    }

    /// The rows of inputs and outputs of a gate with these numbers: its qubits and then its angles, and its qubits.
    #[tactic(auto, using(crate::proofs::Copies::replicate_next))]
    pub fn signature(alloc: Global) -> Result<(Row, Row), AllocError>
        ensures ins { IfOk result (λ rows. rows.0 ≡ gate_ins QUBITS ANGLES) }
        ensures outs { IfOk result (λ rows. rows.1 ≡ gate_outs QUBITS) }
    {
        let mut ins = Row::new(alloc);
        let mut outs = Row::new(alloc);
        for _ in 0..QUBITS {
            ins.push(GraphType::Qubit)?;
            outs.push(GraphType::Qubit)?;
        }
        for _ in 0..ANGLES {
            ins.push(GraphType::Int)?;
        }
        Ok((ins, outs))
    }

    /// The gate's name. Takes no memory.
    pub fn name(&self) -> GateName
        ensures name { result ≡ self.now }
        ensures counts { (qubit_count result ≡ QUBITS) × (angle_count result ≡ ANGLES) }
    {
        self.name
    }
}
