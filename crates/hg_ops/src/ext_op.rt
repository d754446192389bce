//! The ops of extensions and their names.

ghost use Rattle.std.specs.Prelude.{◌≡◌, ◌↔◌};
ghost use Rattle.hg_ops.specs.Names.{ext_op_name};
ghost use Rattle.hg_ops.specs.declared.ext_op.ExtOp as declared;

use crate::tables::{ext_ops, gates};

/// An op of an extension, without what a node keeps for it.
#[derive(Clone, Copy, Debug, PartialEq, Eq)]
pub enum ExtOp {
    Alloc,
    Free,
    MeasureFree,
    Measure,
    Reset,
    H,
    X,
    Y,
    Z,
    S,
    Sdg,
    T,
    Tdg,
    Cx,
    Cy,
    Cz,
    Toffoli,
    Rx,
    Ry,
    Rz,
    ResultInt,
    ResultBool,
    Add,
    Sub,
    Mul,
    FloorDiv,
    Mod,
    Neg,
    IntEq,
    IntNe,
    Lt,
    Le,
    Gt,
    Ge,
    Not,
    BoolEq,
    BoolNe,
    Unpack,
}

macro_rules! name_of {
    (
        [$op:ident]
        [$($ext:ident $name:literal $effect:literal [$($in:ident)*] [$($out:ident)*];)*]
        [$($own:ident $own_name:literal $own_effect:literal;)*]
        [$($gate:ident $text:literal $qubits:literal $angles:literal,)*]
    ) => {
        match $op {
            $(ExtOp::$ext => $name,)*
            $(ExtOp::$own => $own_name,)*
            $(ExtOp::$gate => concat!("quantum.", $text),)*
        }
    };
}

/// The name of an op. Takes no memory.
pub fn name_of(op: ExtOp) -> &'static str
    ensures { result.now ≡ ext_op_name op }
{
    ext_ops!(name_of, op)
}

macro_rules! all {
    (
        []
        [$($ext:ident $name:literal $effect:literal [$($in:ident)*] [$($out:ident)*];)*]
        [$($own:ident $own_name:literal $own_effect:literal;)*]
        [$($gate:ident $text:literal $qubits:literal $angles:literal,)*]
    ) => {
        [$(ExtOp::$ext,)* $(ExtOp::$own,)* $(ExtOp::$gate,)*]
    };
}

/// The op of this name; `None` exactly where no op has it. Takes no memory.
pub fn op_of_name(name: &str) -> Option<ExtOp>
    ensures { (op : declared.ExtOp) → (result ≡ Some op) ↔ (ext_op_name op ≡ name.now) }
{
    ext_ops!(all,)
        .iter()
        .copied()
        .find(|op| name_of(*op) == name)
}
