//! The rule of variants and of tags.

ghost use Rattle.std.specs.Prelude.{◌≡◌, ◌↔◌, IsTrue};
ghost use Rattle.hg_graph.specs.Valid.{KeepsTags};
ghost use Rattle.hg_ops.specs.OpView.{op_view};

use gp_base::tag::is_tag;
use hg_ops::OpKind;

/// Whether the op has a row at least where it has rows, a row for its tag where it is a `Tag`, and a printable tag where
/// it reports a result.
pub(crate) fn keeps_tags(op: &OpKind) -> bool
    ensures { IsTrue result ↔ KeepsTags (op_view op.now) }
{
    match op {
        OpKind::Tag { rows, tag } => *tag < rows.len(),
        OpKind::Conditional { rows, .. } | OpKind::DataflowBlock { rows, .. } => rows.len() > 0,
        OpKind::ResultInt { tag } | OpKind::ResultBool { tag } => is_tag(tag.as_str().as_bytes()),
        _ => true,
    }
}
