//! The names phase.

ghost use Rattle.std.specs.Prelude.{◌≡◌, ℕ, List, IfOk, None, nat_lt};
ghost use Rattle.std.specs.List.{list_any};
ghost use Rattle.gp_tree.specs.Program.{program_items};
ghost use Rattle.gp_scope.specs.Collected.{CollectAnswer};
ghost use Rattle.gp_scope.specs.code.NamesAnswer.{NamesAnswer};
ghost use Rattle.gp_scope.specs.FirstFault.{CyclesAnswer, names_fault};
ghost use Rattle.gp_scope.specs.code.Levels.{level_size};
ghost use Rattle.gp_scope.specs.code.NamesOf.{AreNames, AreWhole};
ghost use Rattle.gp_scope.specs.ScopeView.{IsScopeOf};
ghost use Rattle.gp_scope.specs.Tables.{value_in};

use crate::big::check_sizes;
use crate::cycles::check_cycles;
use crate::definitions::{check_decorators, check_definitions, struct_table};
use crate::fault::ScopeFault;
use crate::imports::{check_imports, imported_names};
use crate::names::Names;
use crate::parts::check_parts;
use crate::scope::Scope;
use crate::sizes::struct_sizes;
use crate::tables::{annotated_types, function_count, signatures, struct_types};
use gp_tree::{Item, Program};
use gp_types::TYPE_SIZE_LIMIT;
use std::alloc::{AllocError, Global};

/// The scope of a program, or the first fault of its names.
///
/// Each step goes over the whole program before the next begins: imports; the names of structs and functions;
/// decorators; fields, parameters, results and annotated assignments; structs that hold themselves; sizes of types.
/// Of annotated assignments on one line the first counts; a program that was read from a text has none.
pub fn collect(alloc: Global, program: &Program) -> Result<Scope, ScopeFault>
    ensures { CollectAnswer (program_items program.now) result }
{
    match check_names(alloc, program.as_slice()) {
        Err(fault) => Err(fault),
        Ok(names) => check_types(alloc, names),
    }
}

// The steps up to the parts of definitions, and the tables of names that the later steps read.
fn check_names<'a>(alloc: Global, items: &'a [Item]) -> Result<Names<'a>, ScopeFault>
    ensures { NamesAnswer (program_items items.now) result }
{
    check_imports(items)?;
    let imported = imported_names(alloc, items)?;
    check_definitions(alloc, items, &imported)?;
    check_decorators(items, &imported)?;
    let structs = struct_table(alloc, items)?;
    let names = Names {
        items,
        imported,
        structs,
    };
    check_parts(alloc, &names)?;
    Ok(names)
}

// The steps on cycles and on sizes, and the scope where they find nothing.
fn check_types(alloc: Global, names: Names) -> Result<Scope, ScopeFault>
    requires tables { AreNames names }
    requires before { names_fault (program_items names.items.now) ≡ None }
    ensures { CollectAnswer (program_items names.entry.items.now) result }
{
    let sizes = struct_sizes(alloc, &names)?;
    match check_depth(alloc, &names, &sizes) {
        Err(fault) => return Err(fault),
        Ok(()) => {}
    }
    match check_sizes(alloc, &names, &sizes) {
        Err(fault) => return Err(fault),
        Ok(()) => {}
    }
    Ok(make_scope(alloc, names)?)
}

// No struct holds itself. Where every size is within the limit none can.
fn check_depth(alloc: Global, names: &Names, sizes: &[u64]) -> Result<(), ScopeFault>
    requires tables { AreNames names.now }
    requires levels { (name : List ℕ) → value_in names.now.structs sizes.now name ≡ level_size TYPE_SIZE_LIMIT (program_items names.now.items.now) name }
    ensures { CyclesAnswer (program_items names.now.items.now) result }
{
    if is_any_above(sizes) {
        check_cycles(alloc, names)?;
    }
    Ok(())
}

fn is_any_above(sizes: &[u64]) -> bool
    ensures { result ≡ list_any (λ size. nat_lt 64 size) sizes.now }
{
    for size in sizes {
        if *size > TYPE_SIZE_LIMIT {
            return true;
        }
    }
    false
}

fn make_scope(alloc: Global, names: Names) -> Result<Scope, AllocError>
    requires { AreWhole names }
    ensures { IfOk result (IsScopeOf (program_items names.entry.items.now)) }
{
    let structs = struct_types(alloc, &names)?;
    let signatures = signatures(alloc, &names)?;
    let annotated = annotated_types(alloc, &names)?;
    let functions = function_count(names.items);
    Ok(Scope {
        imports: names.imported,
        structs,
        signatures,
        annotated,
        functions,
    })
}
