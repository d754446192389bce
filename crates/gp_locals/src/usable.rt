//! The usable names of an environment, as a list by ascending positions.

ghost use Rattle.std.specs.Prelude.{◌≡◌, ◌≤◌, [], ◌++◌, ◌^◌, ◌-◌, min, IfOk, IfSome, IsTrue, OnErr, OnOk, Some, filter, length, map, option_map, slice_get};
ghost use Rattle.std.specs.Rc.{rc_slice_items};
ghost use Rattle.std.specs.Option.{option_copied};
ghost use Rattle.std.specs.List.{list_all};
ghost use Rattle.gp_types.specs.View.{ty_view};
ghost use Rattle.gp_locals.specs.code.Usable as spec;
ghost use Rattle.gp_locals.specs.View.{name_view};
ghost use Rattle.gp_locals.specs.code.UsableView.{usable_view, shared_view};

use crate::equal::is_equal;
use crate::name_type::{NameType, NameTypes};
use gp_base::{Name, Sequence};
use gp_types::{Ty, same_type, size};
use std::alloc::{AllocError, Global};
use std::rc::RcSlice;

/// A usable name with its type, by its position among the names of the function, counted from 0.
#[derive(Drop)]
pub(crate) struct UsableName {
    /// The position.
    pub(crate) position: usize,
    /// The type.
    pub(crate) ty: Ty,
}

/// The type of the name at a position, where it is usable. Takes no memory.
pub(crate) fn type_among(usable: &[UsableName], position: usize) -> Option<&Ty>
    ensures { option_map (λ ty. ty_view ty.now) result ≡ spec.type_among position (map usable_view usable.now) }
{
    for name in usable {
        if name.position == position {
            return Some(&name.ty);
        }
    }
    None
}

/// How many stand before the first that isn't below a position. Takes no memory.
fn count_below(usable: &[UsableName], position: usize) -> usize
    ensures exact { result ≡ spec.count_below position (map usable_view usable.now) }
    ensures within { result ≤ length usable.now }
{
    for i in 0..usable.len() {
        if usable[i].position >= position {
            return i;
        }
    }
    usable.len()
}

// Whether the name at a position stands in this place of the list.
fn stands_at(usable: &[UsableName], at: usize, position: usize) -> bool
    ensures { result ≡ spec.stands_at position (slice_get (map usable_view usable.now) at) }
{
    match usable.get(at) {
        Some(name) => name.position == position,
        None => false,
    }
}

/// Gives the name at a position this type. After an error nothing has changed.
pub(crate) fn put_among(
    usable: &mut Vec<UsableName>,
    position: usize,
    ty: Ty,
) -> Result<(), AllocError>
    ensures put { OnOk result (map usable_view usable.new.items ≡ spec.put_among position (ty_view ty) (map usable_view usable.old.items)) }
    ensures unchanged { OnErr result (usable.new.items ≡ usable.old.items) }
{
    let at = count_below(usable, position);
    if stands_at(usable, at, position) {
        usable[at] = UsableName { position, ty };
    } else {
        usable.insert(at, UsableName { position, ty })?;
    }
    Ok(())
}

// Whether the name at a position stands in this place of the list with this type; where it says so, it does.
fn has_at(usable: &[UsableName], at: usize, position: usize, ty: &Ty) -> bool
    ensures { IsTrue result → slice_get (map usable_view usable.now) at ≡ Some (spec.at_position position (ty_view ty.now)) }
{
    match usable.get(at) {
        Some(name) => name.position == position && is_equal(&name.ty, ty),
        None => false,
    }
}

/// Whether the name at a position has this type already; where it says so, it does. Takes no memory.
pub(crate) fn is_given(usable: &[UsableName], position: usize, ty: &Ty) -> bool
    ensures { IsTrue result → spec.put_among position (ty_view ty.now) (map usable_view usable.now) ≡ map usable_view usable.now }
{
    has_at(usable, count_below(usable, position), position, ty)
}

/// The same usable names once more.
pub(crate) fn copy_usable(
    alloc: Global,
    usable: &[UsableName],
) -> Result<Vec<UsableName>, AllocError>
    ensures { IfOk result (λ made. map usable_view made.items ≡ map usable_view usable.now) }
{
    let mut made = Vec::new(alloc);
    for name in usable {
        made.push(copy_name(name)?)?;
    }
    Ok(made)
}

fn copy_name(name: &UsableName) -> Result<UsableName, AllocError>
    ensures { IfOk result (λ made. usable_view made ≡ usable_view name.now) }
{
    Ok(UsableName {
        position: name.position,
        ty: name.ty.copy()?,
    })
}

// Whether a usable name has the same type among others.
fn is_kept_among(others: &[UsableName], name: &UsableName) -> bool
    ensures { result ≡ spec.is_kept_among (map usable_view others.now) (usable_view name.now) }
{
    match type_among(others, name.position) {
        Some(ty) => same_type(&name.ty, ty),
        None => false,
    }
}

/// Those that have the same type among others.
pub(crate) fn join_usable(
    alloc: Global,
    usable: &[UsableName],
    others: &[UsableName],
) -> Result<Vec<UsableName>, AllocError>
    ensures { IfOk result (λ joined. map usable_view joined.items ≡ filter (spec.is_kept_among (map usable_view others.now)) (map usable_view usable.now)) }
{
    let mut joined = Vec::new(alloc);
    for name in usable {
        if is_kept_among(others, name) {
            joined.push(copy_name(name)?)?;
        }
    }
    Ok(joined)
}

/// Whether each has the same type among others. Takes no memory.
pub(crate) fn are_kept(usable: &[UsableName], others: &[UsableName]) -> bool
    ensures { result ≡ list_all (spec.is_kept_among (map usable_view others.now)) (map usable_view usable.now) }
{
    for name in usable {
        if !is_kept_among(others, name) {
            return false;
        }
    }
    true
}

/// The sizes of their types, or 2^64 - 1 where they are more. Takes no memory.
pub(crate) fn sizes(usable: &[UsableName]) -> u64
    ensures { result ≡ min (spec.sizes (map usable_view usable.now)) (2 ^ 64 - 1) }
{
    let mut total: u64 = 0;
    for name in usable {
        total = total.saturating_add(size(&name.ty));
    }
    total
}

// The name at a position, where there is one.
fn name_at(names: &[Name], position: usize) -> Option<&Name>
    ensures { option_copied result ≡ slice_get names.now position }
{
    names.get(position)
}

// Lists a name with its type, where there is one.
fn list_name(listed: &mut NameTypes, name: Option<&Name>, ty: &Ty) -> Result<(), AllocError>
    ensures { OnOk result (map name_view listed.new
        ≡ map name_view listed.old ++ spec.with_name_at (option_copied name.entry) (ty_view ty.now) []) }
{
    if let Some(name) = name {
        listed.push(NameType {
            name: name.copy()?,
            ty: ty.copy()?,
        })?;
    }
    Ok(())
}

/// The usable names by their names, in the same order.
#[tactic(auto, using(crate::proofs::UsableLists::with_name_append))]
pub(crate) fn by_names(
    alloc: Global,
    names: &[Name],
    usable: &[UsableName],
) -> Result<NameTypes, AllocError>
    ensures { IfOk result (λ listed. map name_view listed ≡ spec.by_names names.now (map usable_view usable.now)) }
{
    let mut listed = Sequence::new(alloc);
    for name in usable {
        list_name(&mut listed, name_at(names, name.position), &name.ty)?;
    }
    Ok(listed)
}

/// A list of usable names that the places of a text share.
pub(crate) type SharedNames = RcSlice<UsableName>;

/// The usable names as a list that is shared, which is made where there is none yet.
pub(crate) fn share(
    alloc: Global,
    shared: &mut Option<SharedNames>,
    usable: &[UsableName],
) -> Result<SharedNames, AllocError>
    requires { IfSome (shared_view shared.now) (λ listed. listed ≡ map usable_view usable.now) }
    ensures made { IfOk result (λ made. map usable_view (rc_slice_items made) ≡ map usable_view usable.now) }
    ensures kept { IfSome (shared_view shared.new) (λ listed. listed ≡ map usable_view usable.now) }
{
    if let Some(listed) = shared {
        return listed.clone();
    }
    let made = RcSlice::from_vec(copy_usable(alloc, usable)?)?;
    *shared = Some(made.clone()?);
    Ok(made)
}

/// The shared list once more, where there is one. Takes no memory.
pub(crate) fn copy_shared(shared: &Option<SharedNames>) -> Result<Option<SharedNames>, AllocError>
    ensures { IfOk result (λ made. shared_view made ≡ shared_view shared.now) }
{
    match shared {
        Some(listed) => Ok(Some(listed.clone()?)),
        None => Ok(None),
    }
}

/// Of two shared lists one that has these names, where one is known to. Takes no memory.
pub(crate) fn one_with(
    usable: &[UsableName],
    first: &Option<SharedNames>,
    second: &Option<SharedNames>,
) -> Result<Option<SharedNames>, AllocError>
    ensures { IfOk result (λ made. IfSome (shared_view made) (λ listed. listed ≡ map usable_view usable.now)) }
{
    if has_names(first, usable) {
        return copy_shared(first);
    }
    if has_names(second, usable) {
        return copy_shared(second);
    }
    Ok(None)
}

// Whether a shared list has these names; where it says so, it does.
fn has_names(shared: &Option<SharedNames>, usable: &[UsableName]) -> bool
    ensures { IsTrue result → shared_view shared.now ≡ Some (map usable_view usable.now) }
{
    match shared {
        Some(listed) => are_equal(listed, usable),
        None => false,
    }
}

fn are_equal(usable: &[UsableName], others: &[UsableName]) -> bool
    ensures { IsTrue result → map usable_view usable.now ≡ map usable_view others.now }
{
    if usable.len() != others.len() {
        return false;
    }
    for i in 0..usable.len() {
        if !is_equal_name(&usable[i], &others[i]) {
            return false;
        }
    }
    true
}

fn is_equal_name(name: &UsableName, other: &UsableName) -> bool
    ensures { IsTrue result → usable_view name.now ≡ usable_view other.now }
{
    name.position == other.position && is_equal(&name.ty, &other.ty)
}
