//! The strongly connected components of the structs, where a struct leads to those that it holds.

use crate::cycles::add_held;
use crate::names::Names;
use gp_base::Sequence;
use gp_tree::StructDecl;
use std::alloc::{AllocError, Global};
use walks::component_numbers;

/// The numbers of the components of the structs, by the structs' places in the table of structs: from 1 on, in an order
/// in which a component comes after those that it leads to.
///
/// The numbers make the search for cycles fast, and decide nothing: that search tests them before it relies on them. So
/// no contract says which numbers these are. Takes steps in proportion to the structs and the names that they hold.
pub fn struct_components(alloc: Global, names: &Names) -> Result<Vec<u64>, AllocError> {
    let mut successors = Vec::new(alloc);
    for place in 0..names.structs.len() {
        if let Some((_, decl)) = names.structs.get_index(place) {
            successors.push(held_places(alloc, names, decl)?)?;
        }
    }
    component_numbers(alloc, &successors)
}

// The places in the table of structs of those that this one holds.
fn held_places(
    alloc: Global,
    names: &Names,
    decl: &StructDecl,
) -> Result<Sequence<u64>, AllocError> {
    let mut held = Vec::new(alloc);
    add_held(decl.fields.as_slice(), &mut held)?;
    let mut places = Sequence::new(alloc);
    for name in held {
        if let Some(place) = names.structs.get_index_of(name) {
            places.push(place as u64)?;
        }
    }
    Ok(places)
}
