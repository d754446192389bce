//! What kind an op is.

ghost use Rattle.std.specs.Prelude.{◌≡◌, IsTrue, true, false};
ghost use Rattle.hg_graph.specs.Valid as spec;
ghost use Rattle.hg_ops.specs.Op as kind;
ghost use Rattle.hg_ops.specs.OpView.{op_view};

use hg_ops::OpKind;

/// Whether the op is a `Module`.
pub(crate) fn is_module(op: &OpKind) -> bool
    ensures tells { result ≡ spec.is_module (op_view op.now) }
    ensures op { IsTrue result → op_view op.now ≡ kind.Module }
{
    matches!(op, OpKind::Module)
}

/// Whether the op is an `ExitBlock`.
pub(crate) fn is_exit(op: &OpKind) -> bool
    ensures { result ≡ spec.is_exit (op_view op.now) }
{
    matches!(op, OpKind::ExitBlock { .. })
}

/// Whether the op is an `Input` or an `Output`.
pub(crate) fn is_boundary(op: &OpKind) -> bool
    ensures { result ≡ spec.is_boundary (op_view op.now) }
{
    matches!(op, OpKind::Input { .. } | OpKind::Output { .. })
}

/// Whether the op is an `Output`.
pub(crate) fn is_output(op: &OpKind) -> bool
    ensures { result ≡ spec.is_output (op_view op.now) }
{
    matches!(op, OpKind::Output { .. })
}

/// Whether the op is an `Input`.
pub(crate) fn is_input(op: &OpKind) -> bool
    ensures { result ≡ spec.is_input (op_view op.now) }
{
    matches!(op, OpKind::Input { .. })
}

/// Whether the op is one of those that stand in a region and may have order links.
pub(crate) fn is_operation(op: &OpKind) -> bool
    ensures { result ≡ kind.is_operation (op_view op.now) }
{
    !matches!(
        op,
        OpKind::Module
            | OpKind::FuncDefn { .. }
            | OpKind::Const { .. }
            | OpKind::DataflowBlock { .. }
            | OpKind::ExitBlock { .. }
            | OpKind::Case { .. }
    )
}

/// Whether the op has a region of its own, whose values go from an `Input` to an `Output`.
pub(crate) fn is_dataflow_container(op: &OpKind) -> bool
    ensures { result ≡ kind.is_dataflow_container (op_view op.now) }
{
    matches!(
        op,
        OpKind::FuncDefn { .. }
            | OpKind::Dfg { .. }
            | OpKind::Case { .. }
            | OpKind::DataflowBlock { .. }
            | OpKind::TailLoop { .. }
    )
}

// Whether the op may be a child of a dataflow container.
fn stands_in_region(op: &OpKind) -> bool
    ensures { result ≡ spec.stands_in_region (op_view op.now) }
{
    matches!(op, OpKind::Const { .. }) || is_operation(op)
}

/// Whether a node of the one op may have a child of the other.
pub(crate) fn may_stand_in(parent: &OpKind, child: &OpKind) -> bool
    ensures { result ≡ spec.may_stand_in (op_view parent.now) (op_view child.now) }
{
    match parent {
        OpKind::Module => matches!(child, OpKind::FuncDefn { .. } | OpKind::Const { .. }),
        OpKind::Cfg { .. } => matches!(
            child,
            OpKind::DataflowBlock { .. } | OpKind::ExitBlock { .. }
        ),
        OpKind::Conditional { .. } => matches!(child, OpKind::Case { .. }),
        _ => is_dataflow_container(parent) && stands_in_region(child),
    }
}
