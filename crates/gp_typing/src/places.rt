//! The types of places.

ghost use Rattle.std.specs.Prelude.{◌≡◌, Some, map, option_map};
ghost use Rattle.gp_types.specs.Types.{fields_of};
ghost use Rattle.gp_types.specs.View.{ty_view, field_view};
ghost use Rattle.gp_typing.specs.Checks.{Answers};
ghost use Rattle.gp_types.specs.Signature.{signature_view};
ghost use Rattle.gp_typing.specs.code.ExpressionView.{name_in, type_in};
ghost use Rattle.gp_typing.specs.Expressions as spec;

use crate::context::Context;
use crate::fault::TypeFault;
use gp_base::{LineNo, Name};
use gp_locals::Found;
use gp_tree::Place;
use gp_types::{Field, Signature, Ty};
use std::alloc::Global;

/// The type of a place: `UnknownName` where its name is none of the function's and no function of the program has it, or
/// where a field is none of its type's; `NotOnEveryPath` where the name isn't usable; and `TooBigType` where it is a
/// function of the program whose type is above the limit.
pub fn place_type(alloc: Global, context: &Context<'_>, place: &Place) -> Result<Ty, TypeFault>
    ensures { Answers ty_view result (type_in context.now place.now) }
{
    let ty = name_type(alloc, context, place.name.as_str())?;
    match path_type(&ty, place.fields.as_slice()) {
        Some(part) => Ok(part.copy()?),
        None => Err(TypeFault::UnknownName(context.line)),
    }
}

// The type of a name.
fn name_type(alloc: Global, context: &Context<'_>, name: &str) -> Result<Ty, TypeFault>
    ensures { Answers ty_view result (name_in context.now name.now) }
{
    match context.environment.find(context.names, name) {
        Found::Usable(ty) => Ok(ty.copy()?),
        Found::Unusable => Err(TypeFault::NotOnEveryPath(context.line)),
        Found::Foreign => match context.scope.signature(name) {
            Some(signature) => function_value(alloc, context.line, signature),
            None => Err(TypeFault::UnknownName(context.line)),
        },
    }
}

// The type of a function of the program where its name stands for it as a value.
fn function_value(alloc: Global, line: LineNo, signature: &Signature) -> Result<Ty, TypeFault>
    ensures { Answers ty_view result (spec.function_value line (signature_view signature.now)) }
{
    if !signature.is_within_limit() {
        return Err(TypeFault::TooBigType(line));
    }
    Ok(signature.function_type(alloc)?)
}

// The type at the end of a path of fields.
fn path_type<'a>(ty: &'a Ty, fields: &[Name]) -> Option<&'a Ty>
    ensures { option_map (λ part. ty_view part.now) result ≡ spec.path_type (Some (ty_view ty.now)) fields.now }
{
    let mut part = ty;
    for field in fields {
        part = part_type(part, field.as_str())?;
    }
    Some(part)
}

// The type of a field, where the type is a struct that has it.
fn part_type<'a>(ty: &'a Ty, field: &str) -> Option<&'a Ty>
    ensures { option_map (λ part. ty_view part.now) result ≡ spec.part_type (ty_view ty.now) field.now }
{
    match ty {
        Ty::Struct(_, fields) => field_type(fields, field),
        _ => None,
    }
}

fn field_type<'a>(fields: &'a [Field], name: &str) -> Option<&'a Ty>
    ensures { option_map (λ ty. ty_view ty.now) result ≡ spec.field_type (fields_of (map field_view fields.now)) name.now }
{
    for field in fields {
        if field.name.as_str() == name {
            return Some(&field.ty);
        }
    }
    None
}
