//! Each public call once. What the rules of names say of programs is in the tables of `gp_rows`.

use gp_base::{LineNo, Name, Names};
use gp_scope::laws::fault_or_scope;
use gp_scope::modules::offers;
use gp_scope::{ScopeFault, collect};
use gp_tree::{Import, Item, Program};
use std::alloc::{AllocError, Global};
use std::test::Fail;

// A program of one import.
fn importing(alloc: Global, module: &str, name: &str) -> Result<Program, AllocError> {
    let mut names = Names::new(alloc);
    names.push(Name::new(alloc, name)?)?;
    let mut program = Program::new(alloc);
    program.push(Item::Import(Import {
        line: LineNo(1),
        module: Name::new(alloc, module)?,
        names,
    }))?;
    Ok(program)
}

#[test]
fn modules_offer_their_names(rt: HostRuntime) {
    assert!(rt; offers("guppylang.std.quantum", "toffoli"));
    assert!(rt; !offers("guppylang.std.quantum", "result"));
}

#[test]
fn a_program_has_its_scope(rt: HostRuntime) -> Result<(), Fail> {
    let program = importing(rt.alloc(), "guppylang", "guppy")?;
    let scope = collect(rt.alloc(), &program).ok().ok_or("a fault")?;
    assert!(rt; scope.imports("guppy"));
    assert!(rt; !scope.imports("owned"));
    assert_eq!(rt; scope.function_count(), 0);
    assert!(rt; scope.struct_type("Pair").is_none());
    assert!(rt; scope.signature("main").is_none());
    assert!(rt; scope.annotated(LineNo(1)).is_none());
    Ok(())
}

#[test]
fn a_program_has_its_first_fault(rt: HostRuntime) -> Result<(), Fail> {
    let program = importing(rt.alloc(), "math", "pi")?;
    let fault = collect(rt.alloc(), &program).err();
    assert!(rt; matches!(fault, Some(ScopeFault::ImportUnknown(LineNo(1)))));
    Ok(())
}

#[test]
fn the_law_can_be_called() {
    fault_or_scope();
}
