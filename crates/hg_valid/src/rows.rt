//! Whether rows of types are those that a rule asks for.

ghost use Rattle.std.specs.Prelude.{◌≡◌, ◌↔◌, ◌++◌, ◌∷◌, [], IsTrue, length, map};
ghost use Rattle.hg_ops.specs.GraphType.{sum_type};
ghost use Rattle.hg_ops.specs.Op as kind;
ghost use Rattle.hg_ops.specs.OpView.{op_view};
ghost use Rattle.hg_ops.specs.TypeView.{type_view};

use hg_ops::{GraphType, OpKind, Row, Rows, same_types};

/// Whether the row has the types of one row and then those of another.
pub(crate) fn is_joined(row: &Row, front: &Row, back: &Row) -> bool
    ensures { IsTrue result ↔ (row.now ≡ front.now ++ back.now) }
{
    let types = row.as_slice();
    let front = front.as_slice();
    if types.len() < front.len() {
        return false;
    }
    same_types(&types[..front.len()], front) && same_types(&types[front.len()..], back.as_slice())
}

// Whether the type is the Sum of these rows.
fn is_sum(ty: &GraphType, rows: &Rows) -> bool
    ensures { IsTrue result ↔ (type_view ty.now ≡ sum_type rows.now) }
{
    match ty {
        GraphType::Sum(own) => own.is_same(rows),
        _ => false,
    }
}

// Whether the type is the Sum of these two rows.
fn is_choice(ty: &GraphType, first: &Row, second: &Row) -> bool
    ensures { IsTrue result ↔ (type_view ty.now ≡ sum_type (first.now ∷ second.now ∷ [])) }
{
    match ty {
        GraphType::Sum(rows) => has_two_rows(rows, first, second),
        _ => false,
    }
}

// Whether the rows are these two.
fn has_two_rows(rows: &Rows, first: &Row, second: &Row) -> bool
    ensures { IsTrue result ↔ (rows.now ≡ first.now ∷ second.now ∷ []) }
{
    match rows.as_slice() {
        [one, other] => one.is_same(first) && other.is_same(second),
        _ => false,
    }
}

// Whether the row begins with the Sum of these rows, and goes on with the types of another row.
fn is_sum_and(row: &Row, rows: &Rows, rest: &Row) -> bool
    ensures { IsTrue result ↔ (row.now ≡ sum_type rows.now ∷ rest.now) }
{
    match row.as_slice() {
        [first, others @ ..] => is_sum(first, rows) && same_types(others, rest.as_slice()),
        [] => false,
    }
}

// Whether the row begins with the Sum of these two rows, and goes on with the types of a third row.
fn is_choice_and(row: &Row, first: &Row, second: &Row, rest: &Row) -> bool
    ensures { IsTrue result ↔ (row.now ≡ sum_type (first.now ∷ second.now ∷ []) ∷ rest.now) }
{
    match row.as_slice() {
        [choice, others @ ..] => {
            is_choice(choice, first, second) && same_types(others, rest.as_slice())
        }
        [] => false,
    }
}

/// Whether the row has the types that the `Input` of a node with this op gives.
pub(crate) fn has_inner_ins(row: &Row, op: &OpKind) -> bool
    ensures { IsTrue result ↔ (row.now ≡ kind.inner_ins (op_view op.now)) }
{
    match op {
        OpKind::FuncDefn { ins, .. } => row.is_same(ins),
        OpKind::Dfg { ins, .. } => row.is_same(ins),
        OpKind::Case { ins, .. } => row.is_same(ins),
        OpKind::DataflowBlock { ins, .. } => row.is_same(ins),
        OpKind::TailLoop { again, rest, .. } => is_joined(row, again, rest),
        _ => row.len() == 0,
    }
}

/// Whether the row has the types that the `Output` of a node with this op takes.
pub(crate) fn has_inner_outs(row: &Row, op: &OpKind) -> bool
    ensures { IsTrue result ↔ (row.now ≡ kind.inner_outs (op_view op.now)) }
{
    match op {
        OpKind::FuncDefn { outs, .. } => row.is_same(outs),
        OpKind::Dfg { outs, .. } => row.is_same(outs),
        OpKind::Case { outs, .. } => row.is_same(outs),
        OpKind::DataflowBlock { rows, others, .. } => is_sum_and(row, rows, others),
        OpKind::TailLoop { again, leave, rest } => is_choice_and(row, again, leave, rest),
        _ => row.len() == 0,
    }
}
