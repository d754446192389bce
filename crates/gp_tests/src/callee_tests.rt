//! What names call, and which strings are tags.

use gp_base::{LineNo, Name, Names, Sequence};
use gp_locals::{Callee, callee_of_type, find_callee, is_tag, takes_tag};
use gp_scope::{Scope, collect};
use gp_tree::{Function, Import, Item, Program, StructDecl};
use gp_types::Ty;
use std::alloc::{AllocError, Global};
use std::test::Fail;

fn names(alloc: Global, texts: &[&str]) -> Result<Names, AllocError> {
    let mut names = Sequence::new(alloc);
    for text in texts {
        names.push(Name::new(alloc, text)?)?;
    }
    Ok(names)
}

fn import(alloc: Global, line: u32, module: &str, texts: &[&str]) -> Result<Item, AllocError> {
    Ok(Item::Import(Import {
        line: LineNo(line),
        module: Name::new(alloc, module)?,
        names: names(alloc, texts)?,
    }))
}

fn function(alloc: Global, line: u32, name: &str) -> Result<Item, AllocError> {
    Ok(Item::Function(Function {
        line: LineNo(line),
        mark: LineNo(line),
        name: Name::new(alloc, name)?,
        params: Sequence::new(alloc),
        result: None,
        body: Vec::new(alloc),
    }))
}

// A program that imports `guppy`, `h` and `result`, and has a struct `Pair` and a function `main`.
fn program(alloc: Global) -> Result<Program, AllocError> {
    let mut program = Sequence::new(alloc);
    program.push(import(alloc, 1, "guppylang", &["guppy"])?)?;
    program.push(import(alloc, 2, "guppylang.std.quantum", &["h"])?)?;
    program.push(import(alloc, 3, "guppylang.std.builtins", &["result"])?)?;
    program.push(Item::Struct(StructDecl {
        line: LineNo(5),
        mark: LineNo(4),
        name: Name::new(alloc, "Pair")?,
        fields: Sequence::new(alloc),
    }))?;
    program.push(function(alloc, 7, "main")?)?;
    Ok(program)
}

// What a call of the name calls, in a word.
fn called(scope: &Scope, name: &str) -> &'static str {
    match find_callee(scope, name) {
        None => "nothing",
        Some(callee) if takes_tag(&callee) => "result",
        Some(Callee::Written(_)) => "function",
        Some(Callee::Value(_, _)) => "value",
        Some(Callee::Made(_)) => "struct",
        Some(Callee::BuiltIn(_)) => "built-in",
    }
}

const CALLED: [(&str, &str); 6] = [
    ("main", "function"),
    ("Pair", "struct"),
    ("h", "built-in"),
    ("result", "result"),
    // No import brings it in.
    ("measure", "nothing"),
    // It is imported, and no built-in function.
    ("guppy", "nothing"),
];

#[test]
fn names_call_what_the_program_says(rt: HostRuntime) -> Result<(), Fail> {
    let program = program(rt.alloc())?;
    match collect(rt.alloc(), &program) {
        Ok(scope) => {
            for (name, what) in CALLED {
                assert_eq!(rt; called(&scope, name), what);
            }
        }
        Err(_) => assert!(rt; false),
    }
    Ok(())
}

#[test]
fn a_function_type_is_called_by_what_it_takes(rt: HostRuntime) -> Result<(), Fail> {
    let ty = Ty::function(rt.alloc(), Vec::new(rt.alloc()), Some(Ty::Int))?;
    assert!(rt; matches!(callee_of_type(&ty), Some(Callee::Value([], Some(_)))));
    assert!(rt; callee_of_type(&Ty::Int).is_none());
    Ok(())
}

#[test]
fn tags_are_short_printable_and_without_backslash(rt: HostRuntime) -> Result<(), Fail> {
    assert!(rt; is_tag(b" "));
    assert!(rt; is_tag(b"~m 0"));
    assert!(rt; is_tag(&[b'a'; 255]));
    assert!(rt; !is_tag(b""));
    assert!(rt; !is_tag(&[b'a'; 256]));
    assert!(rt; !is_tag(b"a\\n"));
    assert!(rt; !is_tag(b"a\x7F"));
    assert!(rt; !is_tag(b"a\x1F"));
    Ok(())
}
