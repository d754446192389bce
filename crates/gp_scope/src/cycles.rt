//! Structs that hold themselves.

ghost use Rattle.std.specs.Prelude.{◌≡◌, ◌≢◌, ◌+◌, ◌&&◌, ◌||◌, ◌++◌, [], ◌∷◌, List, ℕ, All, IfOk, OnOk, MatchResult, None, Some, is_some, if◌then◌else◌, map, vec_len, nat_le};
ghost use Rattle.std.specs.Bool.{MatchBool};
ghost use Rattle.indexmap.specs.IndexMap.{index_map_len};
ghost use Rattle.gp_tree.specs.Program.{program_items, field_definition, struct_definition};
ghost use Rattle.gp_tree.specs.TypeExpression.{type_expression, type_expressions, parameter_types, result_type};
ghost use Rattle.gp_scope.specs.Checks.{is_among};
ghost use Rattle.gp_scope.specs.Definitions.{structs_in};
ghost use Rattle.gp_scope.specs.Cycles as spec;
ghost use Rattle.gp_scope.specs.code.Components as components;
ghost use Rattle.gp_scope.specs.code.EachName.{each_name, each_name_of, each_name_taken, each_name_answered, each_field_name};
ghost use Rattle.gp_scope.specs.FirstFault.{CyclesAnswer};
ghost use Rattle.gp_scope.specs.Tables.{struct_at, texts_of, value_in};
ghost use Rattle.gp_scope.specs.code.NamesOf.{AreNames};

use crate::components::struct_components;
use crate::definitions::struct_table;
use crate::fault::ScopeFault;
use crate::names::{Names, value_of};
use gp_tree::{FieldDecl, FunParamExpr, Item, StructDecl, TypeExpr};
use indexmap::IndexMap;
use std::alloc::{AllocError, Global};
use std::rc::Rc;

/// No struct holds itself, through fields, tuples, and parameters and results of function types.
///
/// The numbers of components show for nearly all structs that they are on no cycle; those of which they don't show it
/// are searched from, up to the first that is on one. One of the first component is searched from in any case, since a
/// name that is no struct has that number too.
pub fn check_cycles(alloc: Global, names: &Names) -> Result<(), ScopeFault>
    requires { AreNames names.now }
    ensures { CyclesAnswer (program_items names.now.items.now) result }
{
    let numbers = struct_components(alloc, names)?;
    let ordered = are_ordered(names, &numbers);
    for item in names.items {
        if let Item::Struct(decl) = item {
            if is_on_cycle(alloc, names, &numbers, ordered, decl.name.as_str())? {
                return Err(ScopeFault::StructCycle(decl.line));
            }
        }
    }
    Ok(())
}

// Whether the struct of this name is on a cycle.
fn is_on_cycle<'a>(
    alloc: Global,
    names: &Names<'a>,
    numbers: &[u64],
    ordered: bool,
    name: &'a str,
) -> Result<bool, AllocError>
    requires tables { AreNames names.now }
    requires ordered { ordered ≡ components.are_ordered (program_items names.now.items.now) (value_in names.now.structs numbers.now) }
    ensures { IfOk result (λ yes. MatchBool yes (spec.IsOnCycle (program_items names.now.items.now) name.now) (¬ spec.IsOnCycle (program_items names.now.items.now) name.now)) }
{
    if ordered && is_above_held(names, numbers, name) {
        return Ok(false);
    }
    holds_itself(alloc, names, name)
}

// Whether no struct has a number below that of a name that it holds.
fn are_ordered(names: &Names, numbers: &[u64]) -> bool
    requires { AreNames names.now }
    ensures { result ≡ components.are_ordered (program_items names.now.items.now) (value_in names.now.structs numbers.now) }
{
    for item in names.items {
        if let Item::Struct(decl) = item {
            let name = decl.name.as_str();
            if !is_held_within(names, numbers, value_of(names, numbers, name), name) {
                return false;
            }
        }
    }
    true
}

// Whether the struct of this name has a number above those of all names that it holds.
fn is_above_held(names: &Names, numbers: &[u64], name: &str) -> bool
    requires { AreNames names.now }
    ensures { result ≡ components.is_above_held (program_items names.now.items.now) (value_in names.now.structs numbers.now) name.now }
{
    let number = value_of(names, numbers, name);
    number > 0 && is_held_within(names, numbers, number - 1, name)
}

// Whether all names that the struct of this name holds have numbers up to the limit.
fn is_held_within(names: &Names, numbers: &[u64], limit: u64, name: &str) -> bool
    requires { AreNames names.now }
    ensures { result ≡ components.held_within (program_items names.now.items.now) (value_in names.now.structs numbers.now) limit name.now }
{
    match names.structs.get(name) {
        None => true,
        Some(decl) => are_fields_within(names, numbers, limit, decl.fields.as_slice()),
    }
}

fn are_fields_within(names: &Names, numbers: &[u64], limit: u64, fields: &[FieldDecl]) -> bool
    ensures { result ≡ each_field_name (λ name. nat_le (value_in names.now.structs numbers.now name) limit) (map field_definition fields.now) }
{
    for field in fields {
        if !is_within(names, numbers, limit, &field.ty) {
            return false;
        }
    }
    true
}

#[cycle(within)]
fn is_within(names: &Names, numbers: &[u64], limit: u64, ty: &TypeExpr) -> bool
    ensures { result ≡ each_name (λ name. nat_le (value_in names.now.structs numbers.now name) limit) (type_expression ty.now) }
{
    match ty {
        TypeExpr::Named(name) => value_of(names, numbers, name.as_str()) <= limit,
        TypeExpr::Tuple(items) => are_within(names, numbers, limit, items),
        TypeExpr::Callable(params, answer) => {
            are_params_within(names, numbers, limit, params)
                && is_answer_within(names, numbers, limit, answer)
        }
    }
}

#[cycle(within)]
fn are_within(names: &Names, numbers: &[u64], limit: u64, items: &[TypeExpr]) -> bool
    ensures { result ≡ each_name_of (λ name. nat_le (value_in names.now.structs numbers.now name) limit) (type_expressions items.now) }
{
    for item in items {
        if !is_within(names, numbers, limit, item) {
            return false;
        }
    }
    true
}

#[cycle(within)]
fn are_params_within(names: &Names, numbers: &[u64], limit: u64, params: &[FunParamExpr]) -> bool
    ensures { result ≡ each_name_taken (λ name. nat_le (value_in names.now.structs numbers.now name) limit) (parameter_types params.now) }
{
    for param in params {
        if !is_within(names, numbers, limit, &param.ty) {
            return false;
        }
    }
    true
}

#[cycle(within)]
fn is_answer_within(
    names: &Names,
    numbers: &[u64],
    limit: u64,
    answer: &Option<Rc<TypeExpr>>,
) -> bool
    ensures { result ≡ each_name_answered (λ name. nat_le (value_in names.now.structs numbers.now name) limit) (result_type answer.now) }
{
    match answer {
        None => true,
        Some(ty) => is_within(names, numbers, limit, ty),
    }
}

// The same by a search: the structs that this one reaches are taken out of those not seen yet.
fn holds_itself<'a>(alloc: Global, names: &Names<'a>, name: &'a str) -> Result<bool, AllocError>
    requires { AreNames names.now }
    ensures { IfOk result (λ yes. MatchBool yes (spec.IsOnCycle (program_items names.now.items.now) name.now) (¬ spec.IsOnCycle (program_items names.now.items.now) name.now)) }
{
    if !names.structs.contains_key(name) {
        return Ok(false);
    }
    let mut unseen = struct_table(alloc, names.items)?;
    let mut waiting = Vec::new(alloc);
    waiting.push(name)?;
    while let Some(next) = waiting.pop() {
        if let Some(decl) = names.structs.get(next) {
            reach_held(alloc, decl, &mut unseen, &mut waiting)?;
        }
    }
    Ok(!unseen.contains_key(name))
}

// Moves the names of structs that this one holds from those not seen yet to those that wait.
fn reach_held<'a>(
    alloc: Global,
    decl: &'a StructDecl,
    unseen: &mut IndexMap<&'a str, &'a StructDecl>,
    waiting: &mut Vec<&'a str>,
) -> Result<(), AllocError>
    ensures seen { OnOk result ((q : List ℕ) → struct_at unseen.new q ≡ (if spec.fields_mention (struct_definition decl.now).fields q then None else struct_at unseen.old q)) }
    ensures waiting { OnOk result ((q : List ℕ) → is_among q (texts_of waiting.new.items) ≡ (is_among q (texts_of waiting.old.items) || (spec.fields_mention (struct_definition decl.now).fields q && is_some (struct_at unseen.old q)))) }
    ensures count { OnOk result (vec_len waiting.new + index_map_len unseen.new ≡ vec_len waiting.old + index_map_len unseen.old) }
{
    let mut held = Vec::new(alloc);
    add_held(decl.fields.as_slice(), &mut held)?;
    for name in held {
        if unseen.swap_remove(name).is_some() {
            waiting.push(name)?;
        }
    }
    Ok(())
}

/// The names in the types of the fields, in text order.
pub fn add_held<'a>(fields: &'a [FieldDecl], held: &mut Vec<&'a str>) -> Result<(), AllocError>
    ensures { OnOk result ((q : List ℕ) → is_among q (texts_of held.new.items) ≡ (is_among q (texts_of held.old.items) || spec.fields_mention (map field_definition fields.now) q)) }
{
    for field in fields {
        add_names(&field.ty, held)?;
    }
    Ok(())
}

#[cycle(names)]
fn add_names<'a>(ty: &'a TypeExpr, held: &mut Vec<&'a str>) -> Result<(), AllocError>
    ensures { OnOk result ((q : List ℕ) → is_among q (texts_of held.new.items) ≡ (is_among q (texts_of held.old.items) || spec.mentions (type_expression ty.now) q)) }
{
    match ty {
        TypeExpr::Named(name) => held.push(name.as_str())?,
        TypeExpr::Tuple(items) => add_all_names(items, held)?,
        TypeExpr::Callable(params, answer) => {
            add_params_names(params, held)?;
            add_answer_names(answer, held)?;
        }
    }
    Ok(())
}

#[cycle(names)]
fn add_all_names<'a>(items: &'a [TypeExpr], held: &mut Vec<&'a str>) -> Result<(), AllocError>
    ensures { OnOk result ((q : List ℕ) → is_among q (texts_of held.new.items) ≡ (is_among q (texts_of held.old.items) || spec.some_mentions (type_expressions items.now) q)) }
{
    for item in items {
        add_names(item, held)?;
    }
    Ok(())
}

#[cycle(names)]
fn add_params_names<'a>(
    params: &'a [FunParamExpr],
    held: &mut Vec<&'a str>,
) -> Result<(), AllocError>
    ensures { OnOk result ((q : List ℕ) → is_among q (texts_of held.new.items) ≡ (is_among q (texts_of held.old.items) || spec.params_mention (parameter_types params.now) q)) }
{
    for param in params {
        add_names(&param.ty, held)?;
    }
    Ok(())
}

#[cycle(names)]
fn add_answer_names<'a>(
    answer: &'a Option<Rc<TypeExpr>>,
    held: &mut Vec<&'a str>,
) -> Result<(), AllocError>
    ensures { OnOk result ((q : List ℕ) → is_among q (texts_of held.new.items) ≡ (is_among q (texts_of held.old.items) || spec.answer_mentions (result_type answer.now) q)) }
{
    if let Some(ty) = answer {
        add_names(ty, held)?;
    }
    Ok(())
}
