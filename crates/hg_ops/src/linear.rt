//! Which types are linear.

ghost use Rattle.std.specs.Prelude.{◌≡◌};
ghost use Rattle.hg_ops.specs.GraphType as spec;
ghost use Rattle.hg_ops.specs.TypeView.{type_view};

use crate::graph_type::GraphType;

/// Whether a value of the type has to be used exactly once: the type is that of qubits, or a Sum with a linear type in
/// at least one of its rows. No function type is linear. Takes no memory.
pub fn is_linear(ty: &GraphType) -> bool
    ensures { result ≡ spec.is_linear (type_view ty.now) }
{
    ty.is_linear()
}
