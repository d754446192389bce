//! Each public function once, on types of every kind.

use gp_base::{GateName, Name, Sequence};
use gp_types::builtins::{Builtin, BuiltinType};
use gp_types::mode::Mode;
use gp_types::names::builtin;
use gp_types::same::{same_type, same_types};
use gp_types::signature::{SigParam, Signature};
use gp_types::ty::{Field, FunParam, Ty, is_linear, leaf_count, size};
use std::alloc::{AllocError, Global};
use std::test::Fail;

// A struct of this name with a qubit and a number.
fn pair(alloc: Global, name: &str) -> Result<Ty, AllocError> {
    let mut fields = Vec::new(alloc);
    fields.push(Field {
        name: Name::new(alloc, "q")?,
        ty: Ty::Qubit,
    })?;
    fields.push(Field {
        name: Name::new(alloc, "n")?,
        ty: Ty::Int,
    })?;
    Ty::structure(Name::new(alloc, name)?, fields)
}

#[test]
fn types_have_sizes_leaves_and_linearity(rt: HostRuntime) -> Result<(), Fail> {
    let pair = pair(rt.alloc(), "Pair")?;
    assert_eq!(rt; size(&pair), 3);
    assert_eq!(rt; leaf_count(&pair), 2);
    assert!(rt; is_linear(&pair));
    assert_eq!(rt; Mode::of(&pair, true), Mode::Owned);
    Ok(())
}

#[test]
fn struct_types_are_equal_by_name(rt: HostRuntime) -> Result<(), Fail> {
    let alloc = rt.alloc();
    let one = pair(alloc, "Pair")?;
    assert!(rt; same_type(&one, &one.copy()?));
    assert!(rt; !same_type(&one, &pair(alloc, "Other")?));
    let mut parts = Vec::new(alloc);
    parts.push(one)?;
    assert!(rt; same_types(&parts, &parts));
    let tuple = Ty::tuple(parts)?;
    assert!(rt; same_type(&tuple, &tuple.copy()?));
    Ok(())
}

// `Callable[[qubit], int]`, where the qubit is taken so.
fn function(alloc: Global, mode: Mode) -> Result<Ty, AllocError> {
    let mut params = Vec::new(alloc);
    params.push(FunParam {
        ty: Ty::Qubit,
        mode,
    })?;
    Ty::function(alloc, params, Some(Ty::Int))
}

#[test]
fn function_types_are_equal_by_types_and_modes(rt: HostRuntime) -> Result<(), Fail> {
    let lent = function(rt.alloc(), Mode::Borrowed)?;
    assert!(rt; same_type(&lent, &lent.copy()?));
    assert!(rt; !same_type(&lent, &function(rt.alloc(), Mode::Owned)?));
    assert_eq!(rt; size(&lent), 3);
    assert_eq!(rt; leaf_count(&lent), 1);
    assert!(rt; !is_linear(&lent));
    Ok(())
}

#[test]
fn built_in_functions_have_names_parameters_and_answers(rt: HostRuntime) {
    assert!(rt; builtin("sdg") == Some(Builtin::OneQubitGate(GateName::Sdg)));
    assert!(rt; builtin("guppy") == None);
    assert_eq!(rt; Builtin::Toffoli.parameters().len(), 3);
    assert!(rt; Builtin::Measure.answer() == Some(BuiltinType::Bool));
}

#[test]
fn signatures_have_parameters(rt: HostRuntime) -> Result<(), Fail> {
    let mut params = Sequence::new(rt.alloc());
    params.push(SigParam {
        name: Name::new(rt.alloc(), "p")?,
        ty: Ty::Bool,
        mode: Mode::Copied,
    })?;
    let signature = Signature {
        params,
        result: None,
    };
    assert_eq!(rt; signature.params.len(), 1);
    assert!(rt; signature.is_within_limit());
    assert_eq!(rt; size(&signature.function_type(rt.alloc())?), 2);
    Ok(())
}
