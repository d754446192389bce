//! Usable names with their types.

use gp_base::{Name, Sequence};
use gp_types::Ty;

/// A usable name with its type.
#[derive(Drop)]
pub struct NameType {
    /// The name.
    pub name: Name,
    /// The type that it has at this place of the text.
    pub ty: Ty,
}

/// A list of usable names with their types, in the order of the names' first appearance in the function.
pub type NameTypes = Sequence<NameType>;
