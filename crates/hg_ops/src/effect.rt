//! Which ops are effects.

ghost use Rattle.std.specs.Prelude.{◌≡◌};
ghost use Rattle.hg_ops.specs.Op as spec;
ghost use Rattle.hg_ops.specs.OpView.{op_view};

use crate::op_kind::OpKind;
use crate::tables::{ext_ops, gates};

macro_rules! effects {
    (
        [$op:ident]
        [$($ext:ident $name:literal $effect:literal [$($in:ident)*] [$($out:ident)*];)*]
        [$($own:ident $own_name:literal $own_effect:literal;)*]
        [$($gate:ident $text:literal $qubits:literal $angles:literal,)*]
    ) => {
        match $op {
            OpKind::Cfg { .. } | OpKind::TailLoop { .. } | OpKind::Call { .. } | OpKind::CallIndirect { .. } => true,
            $(OpKind::$ext { .. } => $effect,)*
            $(OpKind::$own { .. } => $own_effect,)*
            $(OpKind::$gate => true,)*
            _ => false,
        }
    };
}

/// Whether the op is an effect: two effects in a region keep their order in every run. Effects are all ops on qubits,
/// results, divisions, and ops that may need a turn. Takes no memory.
pub fn is_effect(op: &OpKind) -> bool
    ensures { result ≡ spec.is_effect (op_view op.now) }
{
    ext_ops!(effects, op)
}
