//! Types that are the same in each part.

ghost use Rattle.std.specs.Prelude.{◌≡◌, IsTrue, map};
ghost use Rattle.gp_types.specs.View.{ty_view, field_view};

use gp_types::{Field, Ty};

/// Whether two types are the same in each part, the fields of structs among them. Takes no memory.
#[cycle(equal)]
pub(crate) fn is_equal(ty: &Ty, other: &Ty) -> bool
    ensures { IsTrue result → ty_view ty.now ≡ ty_view other.now }
{
    match (ty, other) {
        (Ty::Int, Ty::Int) | (Ty::Bool, Ty::Bool) | (Ty::Qubit, Ty::Qubit) => true,
        (Ty::Tuple(items), Ty::Tuple(others)) => are_equal(items, others),
        (Ty::Struct(name, fields), Ty::Struct(other, others)) => {
            name.as_str() == other.as_str() && are_equal_fields(fields, others)
        }
        _ => false,
    }
}

#[cycle(equal)]
fn are_equal(items: &[Ty], others: &[Ty]) -> bool
    ensures { IsTrue result → map ty_view items.now ≡ map ty_view others.now }
{
    if items.len() != others.len() {
        return false;
    }
    for i in 0..items.len() {
        if !is_equal(&items[i], &others[i]) {
            return false;
        }
    }
    true
}

#[cycle(equal)]
fn are_equal_fields(fields: &[Field], others: &[Field]) -> bool
    ensures { IsTrue result → map field_view fields.now ≡ map field_view others.now }
{
    if fields.len() != others.len() {
        return false;
    }
    for i in 0..fields.len() {
        if !is_equal_field(&fields[i], &others[i]) {
            return false;
        }
    }
    true
}

#[cycle(equal)]
fn is_equal_field(field: &Field, other: &Field) -> bool
    ensures { IsTrue result → field_view field.now ≡ field_view other.now }
{
    field.name.as_str() == other.name.as_str() && is_equal(&field.ty, &other.ty)
}
