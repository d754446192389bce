//! What environments say of the names of a function.

use gp_base::Name;
use gp_locals::{Environment, Found, Locals, locals_of};
use gp_types::{Mode, SigParam, Ty, Tys};
use std::alloc::{AllocError, Global};
use std::test::Fail;

fn param(alloc: Global, name: &str) -> Result<SigParam, AllocError> {
    Ok(SigParam {
        name: Name::new(alloc, name)?,
        ty: Ty::Int,
        mode: Mode::Owned,
    })
}

// The names of a function without statements that takes `b` and `a`.
fn two_names(alloc: Global) -> Result<Locals, AllocError> {
    let mut params = Vec::new(alloc);
    params.push(param(alloc, "b")?)?;
    params.push(param(alloc, "a")?)?;
    locals_of(alloc, &params, &[])
}

// Both names are usable, with these types.
fn both_usable(alloc: Global, names: &Locals, a: Ty, b: Ty) -> Result<Environment, AllocError> {
    let mut environment = Environment::new(alloc, names);
    environment.put(names, "a", a)?;
    environment.put(names, "b", b)?;
    Ok(environment)
}

// The usable names, each with its type, in their order.
fn listed(
    alloc: Global,
    names: &Locals,
    environment: &mut Environment,
) -> Result<String, AllocError> {
    let mut text = String::new(alloc);
    let usable = environment.usable(alloc, names)?;
    let usable = usable.listed(alloc)?;
    for name in usable.as_slice() {
        text.push_str(name.name.as_str())?;
        text.push_str(match &name.ty {
            Ty::Int => ": int, ",
            Ty::Bool => ": bool, ",
            Ty::Qubit => ": qubit, ",
            _ => ": other, ",
        })?;
    }
    Ok(text)
}

// What an environment says of a name, in a word.
fn found(environment: &Environment, names: &Locals, name: &str) -> &'static str {
    match environment.find(names, name) {
        Found::Foreign => "foreign",
        Found::Unusable => "unusable",
        Found::Usable(Ty::Bool) => "bool",
        Found::Usable(_) => "another type",
    }
}

// A tuple of as many numbers.
fn numbers(alloc: Global, count: usize) -> Result<Ty, AllocError> {
    let mut parts: Tys = Vec::new(alloc);
    for _part in 0..count {
        parts.push(Ty::Int)?;
    }
    Ty::tuple(parts)
}

#[test]
fn names_stand_in_the_order_of_their_first_appearance(rt: HostRuntime) -> Result<(), Fail> {
    let names = two_names(rt.alloc())?;
    assert_eq!(rt; names.position("b"), Some(0));
    assert_eq!(rt; names.position("a"), Some(1));
    assert_eq!(rt; names.position("c"), None);
    Ok(())
}

#[test]
fn a_name_is_foreign_unusable_or_has_a_type(rt: HostRuntime) -> Result<(), Fail> {
    let alloc = rt.alloc();
    let names = two_names(alloc)?;
    let mut environment = Environment::new(alloc, &names);
    environment.put(&names, "a", Ty::Bool)?;
    assert_eq!(rt; found(&environment, &names, "a"), "bool");
    assert_eq!(rt; found(&environment, &names, "b"), "unusable");
    assert_eq!(rt; found(&environment, &names, "c"), "foreign");
    Ok(())
}

#[test]
fn usable_names_are_listed_in_their_order(rt: HostRuntime) -> Result<(), Fail> {
    let alloc = rt.alloc();
    let names = two_names(alloc)?;
    let mut environment = both_usable(alloc, &names, Ty::Int, Ty::Qubit)?;
    assert_eq!(rt;
        listed(alloc, &names, &mut environment)?.as_str(),
        "b: qubit, a: int, "
    );
    environment.put(&names, "b", Ty::Bool)?;
    environment.put(&names, "c", Ty::Bool)?;
    assert_eq!(rt;
        listed(alloc, &names, &mut environment)?.as_str(),
        "b: bool, a: int, "
    );
    Ok(())
}

#[test]
fn paths_join_at_equal_types(rt: HostRuntime) -> Result<(), Fail> {
    let alloc = rt.alloc();
    let names = two_names(alloc)?;
    let one = both_usable(alloc, &names, Ty::Int, Ty::Qubit)?;
    let other = both_usable(alloc, &names, Ty::Bool, Ty::Qubit)?;
    let mut joined = one.join(alloc, &other)?;
    assert_eq!(rt; listed(alloc, &names, &mut joined)?.as_str(), "b: qubit, ");
    assert!(rt; joined.keeps(&one) && joined.keeps(&other) && joined.keeps(&joined.copy(alloc)?));
    assert!(rt; !one.keeps(&other) && !one.keeps(&joined));
    Ok(())
}

#[test]
fn the_total_size_is_at_most_128(rt: HostRuntime) -> Result<(), Fail> {
    let alloc = rt.alloc();
    let names = two_names(alloc)?;
    // a tuple is 1 more than its parts
    let full = both_usable(alloc, &names, numbers(alloc, 126)?, Ty::Int)?;
    assert!(rt; full.is_within());
    let over = both_usable(alloc, &names, numbers(alloc, 127)?, Ty::Int)?;
    assert!(rt; !over.is_within());
    Ok(())
}
