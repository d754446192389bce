//! The ports of ops.

ghost use Rattle.std.specs.Prelude.{◌≡◌, ◌<◌, ◌^◌, [], length, slice_index_or};
ghost use Rattle.hg_ops.specs.Op as spec;
ghost use Rattle.hg_ops.specs.OpView.{op_view};

use crate::graph_type::Rows;
use crate::op_kind::OpKind;
use crate::tables::{ext_ops, gates};

macro_rules! count {
    ($($word:ident)*) => {
        0 $(+ one!($word))*
    };
}

macro_rules! one {
    ($word:ident) => {
        1
    };
}

macro_rules! inputs {
    (
        [$op:ident]
        [$($ext:ident $name:literal $effect:literal [$($in:ident)*] [$($out:ident)*];)*]
        [$($own:ident $own_name:literal $own_effect:literal;)*]
        [$($gate:ident $text:literal $qubits:literal $angles:literal,)*]
    ) => {
        match $op {
            OpKind::Module
            | OpKind::FuncDefn { .. }
            | OpKind::Const { .. }
            | OpKind::Input { .. }
            | OpKind::Case { .. } => 0,
            OpKind::DataflowBlock { .. }
            | OpKind::ExitBlock { .. }
            | OpKind::LoadConstant
            | OpKind::LoadFunction { .. } => 1,
            OpKind::Output { types } => types.len(),
            OpKind::Dfg { ins, .. } => ins.len(),
            OpKind::Cfg { ins, .. } => ins.len(),
            OpKind::Conditional { ins, .. } => 1 + ins.len(),
            OpKind::TailLoop { again, rest, .. } => again.len() + rest.len(),
            OpKind::Tag { rows, tag } => row_len(rows, *tag),
            OpKind::Call { ins, .. } => ins.len() + 1,
            OpKind::CallIndirect { ins, .. } => 1 + ins.len(),
            $(OpKind::$ext { .. } => count!($($in)*),)*
            $(OpKind::$own { .. } => 1,)*
            $(OpKind::$gate => $qubits + $angles,)*
        }
    };
}

/// The number of an op's inputs: its value inputs, and behind them a static or a control input. Takes no memory.
pub fn input_count(op: &OpKind) -> u64
    ensures { result ≡ length (spec.input_ports (op_view op.now)) }
{
    ext_ops!(inputs, op)
}

macro_rules! outputs {
    (
        [$op:ident]
        [$($ext:ident $name:literal $effect:literal [$($in:ident)*] [$($out:ident)*];)*]
        [$($own:ident $own_name:literal $own_effect:literal;)*]
        [$($gate:ident $text:literal $qubits:literal $angles:literal,)*]
    ) => {
        match $op {
            OpKind::Module | OpKind::Output { .. } | OpKind::ExitBlock { .. } | OpKind::Case { .. } => 0,
            OpKind::FuncDefn { .. }
            | OpKind::Const { .. }
            | OpKind::Tag { .. }
            | OpKind::LoadConstant
            | OpKind::LoadFunction { .. } => 1,
            OpKind::Input { types } => types.len(),
            OpKind::Dfg { outs, .. } => outs.len(),
            OpKind::Cfg { outs, .. } => outs.len(),
            OpKind::DataflowBlock { rows, .. } => rows.len(),
            OpKind::Conditional { outs, .. } => outs.len(),
            OpKind::TailLoop { leave, rest, .. } => leave.len() + rest.len(),
            OpKind::Call { outs, .. } => outs.len(),
            OpKind::CallIndirect { outs, .. } => outs.len(),
            OpKind::Unpack { types } => types.len(),
            $(OpKind::$ext { .. } => count!($($out)*),)*
            $(OpKind::$gate => $qubits,)*
        }
    };
}

/// The number of an op's outputs: its value outputs, a static output or the control outputs. Takes no memory.
pub fn output_count(op: &OpKind) -> u64
    ensures { result ≡ length (spec.output_ports (op_view op.now)) }
{
    ext_ops!(outputs, op)
}

// The length of the row at place `k`, or 0 where there is none.
fn row_len(rows: &Rows, k: u64) -> u64
    ensures len { result ≡ length (slice_index_or rows.now k []) }
    ensures few { result < 2 ^ 63 }
{
    match rows.get(k) {
        Some(row) => row.len(),
        None => 0,
    }
}
