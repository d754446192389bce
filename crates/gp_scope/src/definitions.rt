//! The names of structs and functions, and their decorators.

ghost use Rattle.std.specs.Prelude.{◌≡◌, ◌||◌, [], ◌∷◌, ◌++◌, IfOk, OnOk, List, ℕ, bytes_eq, if◌then◌else◌};
ghost use Rattle.std.specs.Option.{option_or};
ghost use Rattle.gp_tree.specs.Program.{program_items, struct_definition};
ghost use Rattle.gp_scope.specs.Checks.{Answers, fault_where, is_among};
ghost use Rattle.gp_scope.specs.declared.fault.ScopeFault.TheVariants as fault;
ghost use Rattle.gp_scope.specs.Definitions as spec;
ghost use Rattle.gp_scope.specs.Tables.{HasImports, HasStructs, struct_at, has_name, texts};

use crate::fault::ScopeFault;
use crate::names::take_name;
use gp_base::LineNo;
use gp_tree::{Item, StructDecl};
use indexmap::{IndexMap, IndexSet};
use std::alloc::{AllocError, Global};

/// Each struct and function in turn has a name that no definition before it has, that is imported nowhere in the
/// program, and that isn't `int`, `bool`, `tuple` or `range`.
pub fn check_definitions(
    alloc: Global,
    items: &[Item],
    imported: &IndexSet<String>,
) -> Result<(), ScopeFault>
    requires { HasImports (program_items items.now) imported.now }
    ensures { Answers result (spec.definitions_fault (program_items items.now) [] (program_items items.now)) }
{
    let mut taken = IndexSet::new(alloc);
    for item in items {
        match item {
            Item::Import(_) => {}
            Item::Struct(decl) => check_name(imported, &mut taken, decl.name.as_str(), decl.line)?,
            Item::Function(function) => {
                check_name(imported, &mut taken, function.name.as_str(), function.line)?
            }
        }
    }
    Ok(())
}

fn check_name<'a>(
    imported: &IndexSet<String>,
    taken: &mut IndexSet<&'a str>,
    name: &'a str,
    line: LineNo,
) -> Result<(), ScopeFault>
    ensures answer { Answers result (fault_where (spec.is_word name.now || has_name imported.now name.now || is_among name.now (texts taken.old)) (fault.NameTwice line)) }
    ensures added { OnOk result (texts taken.new ≡ texts taken.old ++ name.now ∷ []) }
{
    if is_word(name) || imported.contains(name) || !take_name(taken, name)? {
        return Err(ScopeFault::NameTwice(line));
    }
    Ok(())
}

fn is_word(name: &str) -> bool
    ensures { result ≡ spec.is_word name.now }
{
    matches!(name, "int" | "bool" | "tuple" | "range")
}

/// `guppy` is imported where there is a decorator.
pub fn check_decorators(items: &[Item], imported: &IndexSet<String>) -> Result<(), ScopeFault>
    requires { HasImports (program_items items.now) imported.now }
    ensures { Answers result (spec.decorators_fault (program_items items.now)) }
{
    if imported.contains("guppy") {
        return Ok(());
    }
    for item in items {
        match item {
            Item::Import(_) => {}
            Item::Struct(decl) => return Err(ScopeFault::NotImported(decl.mark)),
            Item::Function(function) => return Err(ScopeFault::NotImported(function.mark)),
        }
    }
    Ok(())
}

/// The structs of a program by name, in text order. Of two with one name the first counts.
pub fn struct_table<'a>(
    alloc: Global,
    items: &'a [Item],
) -> Result<IndexMap<&'a str, &'a StructDecl>, AllocError>
    ensures { IfOk result (HasStructs (program_items items.now)) }
{
    let mut structs = IndexMap::new(alloc);
    for item in items {
        if let Item::Struct(decl) = item {
            add_struct(&mut structs, decl)?;
        }
    }
    Ok(structs)
}

fn add_struct<'a>(
    structs: &mut IndexMap<&'a str, &'a StructDecl>,
    decl: &'a StructDecl,
) -> Result<(), AllocError>
    ensures { OnOk result ((name : List ℕ) → struct_at structs.new name ≡ option_or (struct_at structs.old name) (if bytes_eq name decl.now.name then Some (struct_definition decl.now) else None)) }
{
    let name = decl.name.as_str();
    if !structs.contains_key(name) {
        structs.insert(name, decl)?;
    }
    Ok(())
}
