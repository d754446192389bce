//! The tables of a scope.

ghost use Rattle.std.specs.Prelude.{◌≡◌, ◌+◌, List, ℕ, IfOk, OnOk, Some, None, if◌then◌else◌, bytes_eq, nat_eq, map, option_map, length, find};
ghost use Rattle.std.specs.Option.{option_or};
ghost use Rattle.indexmap.specs.IndexMap.{get_by, get_by_text};
ghost use Rattle.gp_base.specs.declared.name.LineNo.{LineNo};
ghost use Rattle.gp_tree.specs.Program.{program_items};
ghost use Rattle.gp_types.specs.View.{ty_view};
ghost use Rattle.gp_types.specs.Signature.{signature_view};
ghost use Rattle.gp_scope.specs.code.AnnotationView.{annotation};
ghost use Rattle.gp_scope.specs.Definitions.{functions_in};
ghost use Rattle.gp_scope.specs.code.NamesOf.{AreWhole};
ghost use Rattle.gp_scope.specs.Spelled.{spelled, struct_type_of, function_signature, annotated_type};

use crate::annotations::{Annotation, annotations};
use crate::names::Names;
use crate::types::{signature, spell, spell_name};
use gp_tree::Item;
use gp_types::{Signature, Ty};
use indexmap::IndexMap;
use std::alloc::{AllocError, Global};

/// The types of the structs by their names, in text order.
pub fn struct_types(alloc: Global, names: &Names) -> Result<IndexMap<String, Ty>, AllocError>
    requires { AreWhole names.now }
    ensures { IfOk result (λ table. (q : List ℕ) → option_map ty_view (get_by_text table q) ≡ struct_type_of (program_items names.now.items.now) q) }
{
    let mut table = IndexMap::new(alloc);
    for item in names.items {
        match item {
            Item::Import(_) => {}
            Item::Function(_) => {}
            Item::Struct(decl) => {
                let ty = spell_name(alloc, names, &decl.name)?;
                keep_first(alloc, &mut table, decl.name.as_str(), ty)?;
            }
        }
    }
    Ok(table)
}

/// The signatures of the functions by their names, in text order.
pub fn signatures(alloc: Global, names: &Names) -> Result<IndexMap<String, Signature>, AllocError>
    requires { AreWhole names.now }
    ensures { IfOk result (λ table. (q : List ℕ) → option_map signature_view (get_by_text table q) ≡ function_signature (program_items names.now.items.now) q) }
{
    let mut table = IndexMap::new(alloc);
    for item in names.items {
        match item {
            Item::Import(_) => {}
            Item::Struct(_) => {}
            Item::Function(function) => {
                let made = signature(alloc, names, function)?;
                keep_first(alloc, &mut table, function.name.as_str(), made)?;
            }
        }
    }
    Ok(table)
}

/// The number of functions.
pub fn function_count(items: &[Item]) -> u64
    ensures { result ≡ length (functions_in (program_items items.now)) }
{
    let mut count: u64 = 0;
    for item in items {
        if let Item::Function(_) = item {
            count += 1;
        }
    }
    count
}

/// The types that the annotated assignments write, by their lines.
pub fn annotated_types(alloc: Global, names: &Names) -> Result<IndexMap<u32, Ty>, AllocError>
    requires { AreWhole names.now }
    ensures { IfOk result (λ table. (line : LineNo) → option_map ty_view (get_by (nat_eq line.0) table) ≡ annotated_type (program_items names.now.items.now) line) }
{
    let mut table = IndexMap::new(alloc);
    for item in names.items {
        match item {
            Item::Import(_) => {}
            Item::Struct(_) => {}
            Item::Function(function) => {
                let found = annotations(alloc, &function.body)?;
                add_annotations(alloc, names, &found, &mut table)?;
            }
        }
    }
    Ok(table)
}

fn add_annotations(
    alloc: Global,
    names: &Names,
    found: &[Annotation],
    table: &mut IndexMap<u32, Ty>,
) -> Result<(), AllocError>
    requires { AreWhole names.now }
    ensures { OnOk result ((line : LineNo) → option_map ty_view (get_by (nat_eq line.0) table.new) ≡ option_or (option_map ty_view (get_by (nat_eq line.0) table.old)) (option_map (λ a. spelled (program_items names.now.items.now) a.ty) (find (λ a. nat_eq line.0 a.line.0) (map annotation found.now)))) }
{
    for annotation in found {
        let ty = spell(alloc, names, annotation.ty)?;
        keep_first_line(table, annotation.line.0, ty)?;
    }
    Ok(())
}

// Of two values with one name the first counts.
fn keep_first<V: Drop>(
    alloc: Global,
    table: &mut IndexMap<String, V>,
    name: &str,
    value: V,
) -> Result<(), AllocError>
    ensures { OnOk result ((q : List ℕ) → get_by_text table.new q ≡ option_or (get_by_text table.old q) (if bytes_eq q name.now then Some value else None)) }
{
    if !table.contains_key(name) {
        table.insert(String::from_str(alloc, name)?, value)?;
    }
    Ok(())
}

// Of two types on one line the first counts.
fn keep_first_line(table: &mut IndexMap<u32, Ty>, line: u32, ty: Ty) -> Result<(), AllocError>
    ensures { OnOk result ((q : ℕ) → get_by (nat_eq q) table.new ≡ option_or (get_by (nat_eq q) table.old) (if nat_eq q line then Some ty else None)) }
{
    if !table.contains_key(&line) {
        table.insert(line, ty)?;
    }
    Ok(())
}
