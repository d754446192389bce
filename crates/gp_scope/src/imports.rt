//! Imports: that each is known, and the names that they bring in.

ghost use Rattle.std.specs.Prelude.{◌≡◌, ◌||◌, IfOk, OnOk, List, ℕ};
ghost use Rattle.gp_tree.specs.Program.{program_items};
ghost use Rattle.gp_scope.specs.Checks.{Answers, is_among};
ghost use Rattle.gp_scope.specs.Definitions as spec;
ghost use Rattle.gp_scope.specs.Tables.{HasImports, has_name};

use crate::fault::ScopeFault;
use crate::modules::offers;
use gp_tree::{Import, Item};
use indexmap::IndexSet;
use std::alloc::{AllocError, Global};

/// Each import in turn brings in only names that its module offers.
pub fn check_imports(items: &[Item]) -> Result<(), ScopeFault>
    ensures { Answers result (spec.imports_fault (program_items items.now)) }
{
    for item in items {
        if let Item::Import(import) = item {
            check_import(import)?;
        }
    }
    Ok(())
}

fn check_import(import: &Import) -> Result<(), ScopeFault>
    ensures { Answers result (spec.imported_names_fault import.now import.now.names) }
{
    for name in import.names.as_slice() {
        if !offers(import.module.as_str(), name.as_str()) {
            return Err(ScopeFault::ImportUnknown(import.line));
        }
    }
    Ok(())
}

/// The names that the imports bring in, in the order in which they are first seen.
pub fn imported_names(alloc: Global, items: &[Item]) -> Result<IndexSet<String>, AllocError>
    ensures { IfOk result (HasImports (program_items items.now)) }
{
    let mut imported = IndexSet::new(alloc);
    for item in items {
        if let Item::Import(import) = item {
            add_names(alloc, import, &mut imported)?;
        }
    }
    Ok(imported)
}

fn add_names(
    alloc: Global,
    import: &Import,
    imported: &mut IndexSet<String>,
) -> Result<(), AllocError>
    ensures { OnOk result ((name : List ℕ) → has_name imported.new name ≡ (is_among name import.now.names || has_name imported.old name)) }
{
    for name in import.names.as_slice() {
        imported.insert(String::from_str(alloc, name.as_str())?)?;
    }
    Ok(())
}
