//! The types of a program's structs.

ghost use Rattle.std.specs.Prelude.{◌≡◌, List, ℕ, IfOk, OnOk, None, if◌then◌else◌, bytes_eq, option_map};
ghost use Rattle.std.specs.Option.{option_or};
ghost use Rattle.indexmap.specs.IndexMap.{get_by_text};
ghost use Rattle.gp_tree.specs.Program.{program_items};
ghost use Rattle.gp_types.specs.View.{ty_view};
ghost use Rattle.gp_scope.specs.ScopeView.{known_in, IsScopeOf};
ghost use Rattle.gp_scope.specs.Spelled.{struct_type_of};

use gp_scope::Scope;
use gp_tree::Item;
use gp_types::Ty;
use indexmap::IndexMap;
use std::alloc::{AllocError, Global};

/// The types of the program's structs by their names, as its scope has them.
pub fn struct_types(
    alloc: Global,
    items: &[Item],
    scope: &Scope,
) -> Result<IndexMap<String, Ty>, AllocError>
    requires { IsScopeOf (program_items items.now) scope.now }
    ensures { IfOk result (λ table. (q : List ℕ) → option_map ty_view (get_by_text table q) ≡ struct_type_of (program_items items.now) q) }
{
    let mut table = IndexMap::new(alloc);
    for item in items {
        match item {
            Item::Import(_) => {}
            Item::Function(_) => {}
            Item::Struct(decl) => add_type(alloc, scope, decl.name.as_str(), &mut table)?,
        }
    }
    Ok(table)
}

// Adds the type that the scope has for a name, where the table has none.
fn add_type(
    alloc: Global,
    scope: &Scope,
    name: &str,
    table: &mut IndexMap<String, Ty>,
) -> Result<(), AllocError>
    ensures { OnOk result ((q : List ℕ) → option_map ty_view (get_by_text table.new q)
        ≡ option_or (option_map ty_view (get_by_text table.old q)) (if bytes_eq q name.now then (known_in scope.now).struct_of name.now else None)) }
{
    if table.contains_key(name) {
        return Ok(());
    }
    let Some(ty) = scope.struct_type(name) else {
        return Ok(());
    };
    let ty = ty.copy()?;
    table.insert(String::from_str(alloc, name)?, ty)?;
    Ok(())
}
