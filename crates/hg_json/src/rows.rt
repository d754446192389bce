//! Lists of types, and lists of such lists.

ghost use Rattle.serde_json.specs.View.{view, items_view};
ghost use Rattle.hg_ops.specs.TypeView.{type_view};
ghost use Rattle.hg_json.specs.Reading as spec;
ghost use Rattle.hg_json.specs.code.Found.{Gives};

use crate::fault::Miss;
use crate::profile::Profile;
use crate::type_reading::type_of;
use hg_ops::{GraphType, Row, Rows};
use serde_json::Value;
use std::alloc::Global;

// The type whose text this is.
#[tactic(auto, unfolding(crate::specs::Reading::type_in))]
fn type_in(alloc: Global, profile: Profile, value: &Value) -> Result<GraphType, Miss>
    ensures { Gives type_view result (spec.type_in profile (view value.now)) }
{
    match value.as_str() {
        Some(text) => type_of(alloc, profile, text),
        None => Err(Miss::Shape),
    }
}

// The types of the items.
fn types_of(alloc: Global, profile: Profile, items: &[Value]) -> Result<Row, Miss>
    ensures { Gives (λ row. row) result
        (spec.all_of (spec.type_in profile) (items_view items.now)) }
{
    let mut found = Row::new(alloc);
    for k in 0..items.len() {
        let ty = type_in(alloc, profile, &items[k])?;
        found.push(ty)?;
    }
    Ok(found)
}

// A list of types.
#[tactic(auto, unfolding(crate::specs::Reading::row_in))]
fn row_in(alloc: Global, profile: Profile, value: &Value) -> Result<Row, Miss>
    ensures { Gives (λ row. row) result (spec.row_in profile (view value.now)) }
{
    match value.as_array() {
        Some(items) => types_of(alloc, profile, items),
        None => Err(Miss::Shape),
    }
}

// The rows of the items.
fn rows_of(alloc: Global, profile: Profile, items: &[Value]) -> Result<Rows, Miss>
    ensures { Gives (λ rows. rows) result
        (spec.all_of (spec.row_in profile) (items_view items.now)) }
{
    let mut found = Rows::new(alloc);
    for k in 0..items.len() {
        let row = row_in(alloc, profile, &items[k])?;
        found.push(row)?;
    }
    Ok(found)
}

// A list of rows.
#[tactic(auto, unfolding(crate::specs::Reading::rows_in))]
fn rows_in(alloc: Global, profile: Profile, value: &Value) -> Result<Rows, Miss>
    ensures { Gives (λ rows. rows) result (spec.rows_in profile (view value.now)) }
{
    match value.as_array() {
        Some(items) => rows_of(alloc, profile, items),
        None => Err(Miss::Shape),
    }
}

/// The list of types at a key.
#[tactic(auto, unfolding(crate::specs::Reading::row_at))]
pub fn row_at(alloc: Global, profile: Profile, value: &Value, key: &str) -> Result<Row, Miss>
    ensures { Gives (λ row. row) result (spec.row_at profile key.now (view value.now)) }
{
    match value.get(key) {
        Some(member) => row_in(alloc, profile, member),
        None => Err(Miss::Shape),
    }
}

/// The list of lists of types at a key.
#[tactic(auto, unfolding(crate::specs::Reading::rows_at))]
pub fn rows_at(alloc: Global, profile: Profile, value: &Value, key: &str) -> Result<Rows, Miss>
    ensures { Gives (λ rows. rows) result (spec.rows_at profile key.now (view value.now)) }
{
    match value.get(key) {
        Some(member) => rows_in(alloc, profile, member),
        None => Err(Miss::Shape),
    }
}
