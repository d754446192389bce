//! From the text of a type to the type. A depth is how many further brackets may be open.

ghost use Rattle.std.specs.Prelude.{◌≡◌, length};
ghost use Rattle.hg_json.specs.Steps.{past, separated};
ghost use Rattle.hg_json.specs.TypeText as spec;
ghost use Rattle.hg_json.specs.code.Found.{Finds, Gives};
ghost use Rattle.hg_ops.specs.TypeView.{type_view};

use crate::fault::Miss;
use crate::profile::{Profile, has_functions};
use hg_ops::{GraphType, Row, Rows};
use std::alloc::Global;

// The most brackets that may be open at once.
const MOST_BRACKETS: usize = 100;

// The bytes behind this one, where it is the first.
#[tactic(auto, unfolding(crate::specs::Steps::past))]
fn past_byte(bytes: &[u8], byte: u8) -> Option<&[u8]>
    ensures { Finds (λ rest. rest.now) result (past byte bytes.now) }
{
    match bytes {
        [first, rest @ ..] if *first == byte => Some(rest),
        _ => None,
    }
}

// What stands behind the word `int`.
#[tactic(auto, unfolding(crate::specs::TypeText::past_int))]
fn past_int(bytes: &[u8]) -> Option<&[u8]>
    ensures { Finds (λ rest. rest.now) result (spec.past_int bytes.now) }
{
    let rest = past_byte(bytes, b'i')?;
    let rest = past_byte(rest, b'n')?;
    past_byte(rest, b't')
}

// What stands behind the word `qubit`.
#[tactic(auto, unfolding(crate::specs::TypeText::past_qubit))]
fn past_qubit(bytes: &[u8]) -> Option<&[u8]>
    ensures { Finds (λ rest. rest.now) result (spec.past_qubit bytes.now) }
{
    let rest = past_byte(bytes, b'q')?;
    let rest = past_byte(rest, b'u')?;
    let rest = past_byte(rest, b'b')?;
    let rest = past_byte(rest, b'i')?;
    past_byte(rest, b't')
}

// Whether a row ends before its first type.
#[tactic(auto, unfolding(crate::specs::TypeText::ends_row))]
fn ends_row(bytes: &[u8]) -> bool
    ensures { result ≡ spec.ends_row bytes.now }
{
    match bytes {
        [] => true,
        [first, ..] => *first == b'|' || *first == b')' || *first == b':' || *first == b']',
    }
}

// A type at the front, and the bytes behind it.
#[cycle(types)]
#[tactic(auto, unfolding(crate::specs::TypeText::type_at, crate::specs::TypeText::plain_or))]
fn type_at(
    alloc: Global,
    profile: Profile,
    depth: usize,
    bytes: &[u8],
) -> Result<(GraphType, &[u8]), Miss>
    ensures { Gives (λ x. (type_view x.0, x.1.now)) result (spec.type_at profile depth bytes.now) }
{
    if let Some(rest) = past_int(bytes) {
        return Ok((GraphType::Int, rest));
    }
    if let Some(rest) = past_qubit(bytes) {
        return Ok((GraphType::Qubit, rest));
    }
    if depth == 0 {
        return Err(Miss::Shape);
    }
    bracketed(alloc, profile, depth - 1, bytes)
}

// A type with brackets, where the depth is that of the types in them.
#[cycle(types)]
#[tactic(auto, unfolding(crate::specs::TypeText::bracketed_from))]
fn bracketed(
    alloc: Global,
    profile: Profile,
    depth: usize,
    bytes: &[u8],
) -> Result<(GraphType, &[u8]), Miss>
    ensures { Gives (λ x. (type_view x.0, x.1.now)) result
        (spec.bracketed_from profile (spec.type_at profile depth) bytes.now) }
{
    if let Some(rest) = past_byte(bytes, b'(') {
        return sum(alloc, profile, depth, rest);
    }
    if !has_functions(profile) {
        return Err(Miss::Shape);
    }
    match past_byte(bytes, b'[') {
        Some(rest) => function(alloc, profile, depth, rest),
        None => Err(Miss::Shape),
    }
}

// A Sum behind its bracket.
#[cycle(types)]
#[tactic(auto, unfolding(crate::specs::TypeText::sum_from))]
fn sum(
    alloc: Global,
    profile: Profile,
    depth: usize,
    bytes: &[u8],
) -> Result<(GraphType, &[u8]), Miss>
    ensures { Gives (λ x. (type_view x.0, x.1.now)) result
        (spec.sum_from profile (spec.type_at profile depth) bytes.now) }
{
    let (rows, rest) = rows(alloc, profile, depth, bytes)?;
    match past_byte(rest, b')') {
        Some(rest) => Ok((GraphType::Sum(rows), rest)),
        None => Err(Miss::Shape),
    }
}

// A function behind its bracket.
#[cycle(types)]
#[tactic(auto, unfolding(crate::specs::TypeText::function_from))]
fn function(
    alloc: Global,
    profile: Profile,
    depth: usize,
    bytes: &[u8],
) -> Result<(GraphType, &[u8]), Miss>
    ensures { Gives (λ x. (type_view x.0, x.1.now)) result
        (spec.function_from profile (spec.type_at profile depth) bytes.now) }
{
    let (ins, rest) = row(alloc, profile, depth, bytes)?;
    let rest = past_byte(rest, b':').ok_or(Miss::Shape)?;
    let (outs, rest) = row(alloc, profile, depth, rest)?;
    match past_byte(rest, b']') {
        Some(rest) => Ok((GraphType::Function(ins, outs), rest)),
        None => Err(Miss::Shape),
    }
}

// Rows with bars between, one or more.
#[cycle(types)]
fn rows(alloc: Global, profile: Profile, depth: usize, bytes: &[u8]) -> Result<(Rows, &[u8]), Miss>
    ensures { Gives (λ x. (x.0, x.1.now)) result
        (separated (spec.row_from profile (spec.type_at profile depth)) spec.bar
        (length bytes.now) bytes.now) }
{
    let mut found = Rows::new(alloc);
    let mut rest = bytes;
    for _turn in 0..bytes.len() {
        let (entry, behind) = row(alloc, profile, depth, rest)?;
        found.push(entry)?;
        let Some(next) = past_byte(behind, b'|') else {
            return Ok((found, behind));
        };
        rest = next;
    }
    Err(Miss::Shape)
}

// A row.
#[cycle(types)]
#[tactic(auto, unfolding(crate::specs::TypeText::row_from))]
fn row(alloc: Global, profile: Profile, depth: usize, bytes: &[u8]) -> Result<(Row, &[u8]), Miss>
    ensures { Gives (λ x. (x.0, x.1.now)) result
        (spec.row_from profile (spec.type_at profile depth) bytes.now) }
{
    if ends_row(bytes) {
        return Ok((Row::new(alloc), bytes));
    }
    some_types(alloc, profile, depth, bytes)
}

// Types with commas between, one or more.
#[cycle(types)]
fn some_types(
    alloc: Global,
    profile: Profile,
    depth: usize,
    bytes: &[u8],
) -> Result<(Row, &[u8]), Miss>
    ensures { Gives (λ x. (x.0, x.1.now)) result
        (separated (spec.type_at profile depth) spec.comma (length bytes.now) bytes.now) }
{
    let mut found = Row::new(alloc);
    let mut rest = bytes;
    for _turn in 0..bytes.len() {
        let (entry, behind) = type_at(alloc, profile, depth, rest)?;
        found.push(entry)?;
        let Some(next) = past_byte(behind, b',') else {
            return Ok((found, behind));
        };
        rest = next;
    }
    Err(Miss::Shape)
}

/// The type that a text spells.
#[tactic(auto, unfolding(crate::specs::TypeText::type_of))]
pub fn type_of(alloc: Global, profile: Profile, text: &str) -> Result<GraphType, Miss>
    ensures { Gives type_view result (spec.type_of profile text.now) }
{
    let (ty, rest) = type_at(alloc, profile, MOST_BRACKETS, text.as_bytes())?;
    if rest.is_empty() {
        Ok(ty)
    } else {
        Err(Miss::Shape)
    }
}
