//! Assignments.

ghost use Rattle.std.specs.Prelude.{◌≡◌, IsTrue, length, map};
ghost use Rattle.gp_types.specs.Types.{tys_of};
ghost use Rattle.gp_types.specs.View.{ty_view};
ghost use Rattle.gp_typing.specs.Checks.{Answers};
ghost use Rattle.gp_typing.specs.code.Pieces.{named};
ghost use Rattle.gp_typing.specs.Statements as spec;
ghost use Rattle.gp_typing.specs.code.StatementView.{frame_view, known_for};

use crate::fault::TypeFault;
use crate::frame::{Frame, is_borrowed, place_in};
use gp_base::LineNo;
use gp_locals::Environment;
use gp_tree::{Place, Targets};
use gp_types::{Ty, same_type};
use std::alloc::Global;

/// Gives a name this type; a borrowed parameter is `BorrowedAssigned`.
pub fn assign_name(
    frame: &Frame<'_>,
    environment: &mut Environment,
    line: LineNo,
    name: &str,
    ty: Ty,
) -> Result<(), TypeFault>
    ensures { Answers (λ _. environment.new) result
        (named (frame_view frame.now) environment.old line name.now (ty_view ty)) }
{
    if is_borrowed(frame.signature.params.as_slice(), name) {
        return Err(TypeFault::BorrowedAssigned(line));
    }
    environment.put(frame.names, name, ty)?;
    Ok(())
}

/// Assigns a value of this type to a place: a whole name takes the type, and is `BorrowedAssigned` where it is a borrowed
/// parameter; a field keeps its type.
pub fn assign_place(
    alloc: Global,
    frame: &Frame<'_>,
    environment: &mut Environment,
    line: LineNo,
    place: &Place,
    ty: Ty,
) -> Result<(), TypeFault>
    ensures { Answers (λ _. environment.new) result
        (spec.assigned_place (known_for frame.now) (frame_view frame.now) environment.old line place.now (ty_view ty)) }
{
    if place.fields.as_slice().is_empty() {
        return assign_name(frame, environment, line, place.name.as_str(), ty);
    }
    let field_ty = place_in(alloc, frame, environment, line, place)?;
    if !same_type(&field_ty, &ty) {
        return Err(TypeFault::Mismatch(line));
    }
    Ok(())
}

/// Assigns a value of this type to targets. A pattern takes the parts of a tuple: another type is a `Mismatch`, and
/// another number of parts a `WrongCount`.
pub fn assign_targets(
    alloc: Global,
    frame: &Frame<'_>,
    environment: &mut Environment,
    line: LineNo,
    targets: &Targets,
    ty: &Ty,
) -> Result<(), TypeFault>
    ensures { Answers (λ _. environment.new) result
        (spec.assigned (known_for frame.now) (frame_view frame.now) environment.old line targets.now (ty_view ty.now)) }
{
    match targets {
        Targets::One(place) => assign_place(alloc, frame, environment, line, place, ty.copy()?),
        Targets::Pattern(places) => {
            let Ty::Tuple(parts) = ty else {
                return Err(TypeFault::Mismatch(line));
            };
            if !are_as_many(places.as_slice(), parts) {
                return Err(TypeFault::WrongCount(line));
            }
            assign_places(alloc, frame, environment, line, places.as_slice(), parts)
        }
    }
}

// Whether a pattern has as many targets as there are parts.
#[tactic(auto, using(crate::proofs::AssignmentLemmas::apart_count, crate::proofs::AssignmentLemmas::same_count))]
fn are_as_many(places: &[Place], parts: &[Ty]) -> bool
    ensures exact { result ≡ spec.are_as_many places.now (tys_of (map ty_view parts.now)) }
    ensures same { IsTrue result → length places.now ≡ length parts.now }
{
    places.len() == parts.len()
}

// The targets of a pattern take the parts of a tuple one after the other.
fn assign_places(
    alloc: Global,
    frame: &Frame<'_>,
    environment: &mut Environment,
    line: LineNo,
    places: &[Place],
    parts: &[Ty],
) -> Result<(), TypeFault>
    requires { length places.now ≡ length parts.now }
    ensures { Answers (λ _. environment.new) result
        (spec.assigned_places (known_for frame.now) (frame_view frame.now) environment.old line places.now (tys_of (map ty_view parts.now))) }
{
    for i in 0..places.len() {
        let part = parts[i].copy()?;
        assign_place(alloc, frame, environment, line, &places[i], part)?;
    }
    Ok(())
}
