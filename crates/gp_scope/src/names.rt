//! The names that a program imports and its structs, as tables.

ghost use Rattle.std.specs.Prelude.{◌≡◌, [], ◌∷◌, ◌++◌, true, not, IfOk};
ghost use Rattle.gp_scope.specs.Checks.{is_among};
ghost use Rattle.gp_scope.specs.Tables.{texts, value_in};

use gp_tree::{Item, StructDecl};
use indexmap::{IndexMap, IndexSet};
use std::alloc::AllocError;

/// A program with the names that it imports and its structs by name. Each table has its names in the order in which they
/// are first seen.
#[derive(Drop)]
pub struct Names<'a> {
    pub items: &'a [Item],
    pub imported: IndexSet<String>,
    pub structs: IndexMap<&'a str, &'a StructDecl>,
}

/// Adds a name to those that are taken, and says whether it was free.
pub fn take_name<'a>(taken: &mut IndexSet<&'a str>, name: &'a str) -> Result<bool, AllocError>
    ensures free { IfOk result (λ free. free ≡ not (is_among name.now (texts taken.old))) }
    ensures added { IfOk result (λ free. free ≡ true → texts taken.new ≡ texts taken.old ++ name.now ∷ []) }
{
    Ok(taken.insert(name)?)
}

/// The number of a name, where the structs have these numbers by their places in the table of structs: that of the
/// struct, else 1.
pub fn value_of(names: &Names, numbers: &[u64], name: &str) -> u64
    ensures { result ≡ value_in names.now.structs numbers.now name.now }
{
    match names.structs.get_index_of(name) {
        Some(place) => numbers.get(place).copied().unwrap_or(1),
        None => 1,
    }
}
