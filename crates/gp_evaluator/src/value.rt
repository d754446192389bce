//! Values of a run, and their parts.

ghost use Rattle.std.specs.Prelude.{◌≡◌, ◌<◌, IfOk, Some, map, option_map, length};
ghost use Rattle.gp_meaning.specs.Value as spec;
ghost use Rattle.gp_evaluator.specs.View.{value_view, field_view};

use gp_base::Name;
use std::alloc::{AllocError, Global};

/// A value of a run.
#[derive(Drop)]
#[cycle(value)]
pub enum Value {
    /// A whole number.
    Int(i64),
    /// A truth value.
    Bool(bool),
    /// A qubit, by its number.
    Qubit(u64),
    /// The parts of a tuple, in order.
    Tuple(Values),
    /// The fields of a struct, in the order in which it declares them.
    Struct(FieldValues),
    /// A function, by its name.
    Function(Name),
}

/// Values in a row.
pub type Values = Vec<Value>;

/// A field of a struct with its value.
#[derive(Drop)]
#[cycle(value)]
pub struct FieldValue {
    /// The field's name.
    pub name: Name,
    /// The field's value.
    pub value: Value,
}

/// The fields of a struct.
pub type FieldValues = Vec<FieldValue>;

impl Value {
    ghost use Rattle.std.specs.Prelude.{◌≡◌, IfOk};
    ghost use Rattle.gp_evaluator.specs.View.{value_view};

    /// The same value once more.
    #[cycle(copying)]
    pub fn copy(&self, alloc: Global) -> Result<Value, AllocError>
        ensures { IfOk result (λ made. value_view made ≡ value_view self.now) }
    {
        match self {
            Value::Int(number) => Ok(Value::Int(*number)),
            Value::Bool(truth) => Ok(Value::Bool(*truth)),
            Value::Qubit(number) => Ok(Value::Qubit(*number)),
            Value::Tuple(parts) => Ok(Value::Tuple(copy_values(alloc, parts)?)),
            Value::Struct(fields) => Ok(Value::Struct(copy_fields(alloc, fields)?)),
            Value::Function(name) => Ok(Value::Function(name.copy()?)),
        }
    }
}

#[cycle(copying)]
fn copy_values(alloc: Global, values: &[Value]) -> Result<Values, AllocError>
    ensures { IfOk result (λ made. map value_view made.items ≡ map value_view values.now) }
{
    let mut made = Vec::new(alloc);
    for value in values {
        made.push(value.copy(alloc)?)?;
    }
    Ok(made)
}

#[cycle(copying)]
fn copy_fields(alloc: Global, fields: &[FieldValue]) -> Result<FieldValues, AllocError>
    ensures { IfOk result (λ made. map field_view made.items ≡ map field_view fields.now) }
{
    let mut made = Vec::new(alloc);
    for field in fields {
        made.push(FieldValue {
            name: field.name.copy()?,
            value: field.value.copy(alloc)?,
        })?;
    }
    Ok(made)
}

/// The value at the end of a path of fields; `None` exactly where a field on the path isn't there. Takes no memory.
pub fn part_at<'a>(value: &'a Value, path: &[Name]) -> Option<&'a Value>
    ensures { option_map (λ part. value_view part.now) result ≡ spec.at_path (Some (value_view value.now)) path.now }
{
    let mut part = value;
    for field in path {
        part = field_of(part, field.as_str())?;
    }
    Some(part)
}

// The value of a field, where the value is that of a struct which has it.
fn field_of<'a>(value: &'a Value, name: &str) -> Option<&'a Value>
    ensures { option_map (λ part. value_view part.now) result ≡ spec.field_of (value_view value.now) name.now }
{
    match value {
        Value::Struct(fields) => field_named(fields, name),
        _ => None,
    }
}

fn field_named<'a>(fields: &'a [FieldValue], name: &str) -> Option<&'a Value>
    ensures { option_map (λ part. value_view part.now) result ≡ spec.field_named (spec.fields_of (map field_view fields.now)) name.now }
{
    for field in fields {
        if field.name.as_str() == name {
            return Some(&field.value);
        }
    }
    None
}

// The place of the first field of this name.
#[tactic(auto, using(crate::proofs::Paths::places))]
fn place_named(fields: &[FieldValue], name: &str) -> Option<usize>
    ensures { result ≡ spec.place_named (map field_view fields.now) name.now }
{
    for i in 0..fields.len() {
        if fields[i].name.as_str() == name {
            return Some(i);
        }
    }
    None
}

// The fields, of which the one at this place has another value.
fn with_value_at(
    alloc: Global,
    fields: &[FieldValue],
    place: usize,
    value: Value,
) -> Result<FieldValues, AllocError>
    requires { place < length fields.now }
    ensures { IfOk result (λ made. map field_view made.items ≡ spec.changed_at (map field_view fields.now) place (value_view value)) }
{
    let mut made = copy_fields(alloc, fields)?;
    made[place].value = value;
    Ok(made)
}

/// A value with another one at the end of a path of fields; `None` exactly where a field on the path isn't there.
pub fn with_part(
    alloc: Global,
    value: &Value,
    path: &[Name],
    part: Value,
) -> Result<Option<Value>, AllocError>
    ensures { IfOk result (λ changed. option_map value_view changed ≡ spec.with_part (value_view value.now) path.now (value_view part)) }
{
    let [field, rest @ ..] = path else {
        return Ok(Some(part));
    };
    let Value::Struct(fields) = value else {
        return Ok(None);
    };
    let Some(place) = place_named(fields, field.as_str()) else {
        return Ok(None);
    };
    match with_part(alloc, &fields[place].value, rest, part)? {
        Some(changed) => Ok(Some(Value::Struct(with_value_at(alloc, fields, place, changed)?))),
        None => Ok(None),
    }
}
