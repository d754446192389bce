//! Which ops take a turn.

ghost use Rattle.std.specs.Prelude.{◌≡◌};
ghost use Rattle.hg_ops.specs.Op as spec;
ghost use Rattle.hg_ops.specs.OpView.{op_view};

use crate::op_kind::OpKind;

/// Whether the op takes a turn each time that it fires: a call does, however it finds its function. What runs inside the op
/// may take further turns, as a `TailLoop` does before each round but the first. Takes no memory.
pub fn takes_turn(op: &OpKind) -> bool
    ensures { result ≡ spec.takes_turn (op_view op.now) }
{
    matches!(op, OpKind::Call { .. } | OpKind::CallIndirect { .. })
}
