//! The typing phase.

ghost use Rattle.std.specs.Prelude.{◌≡◌, List, ℕ, IfOk, length, map, option_map, slice_get};
ghost use Rattle.std.specs.Option.{option_copied};
ghost use Rattle.gp_tree.specs.Program.{program_items};
ghost use Rattle.gp_types.specs.View.{ty_view};
ghost use Rattle.gp_scope.specs.Known.{known_of};
ghost use Rattle.gp_scope.specs.ScopeView.{known_in, IsScopeOf};
ghost use Rattle.gp_typing.specs.Checks.{Answers};
ghost use Rattle.gp_typing.specs.Functions.{program_typing};
ghost use Rattle.gp_typing.specs.TypedView.{struct_in, typed_view};
ghost use Rattle.gp_typing.specs.View.{function_view};

use crate::fault::TypeFault;
use crate::functions::check_function;
use crate::struct_types::struct_types;
use crate::typed::TypedFunction;
use gp_base::Sequence;
use gp_scope::Scope;
use gp_tree::{Item, Program};
use gp_types::Ty;
use indexmap::IndexMap;
use std::alloc::Global;

/// The functions of a program with their types, in text order, and the types of its structs.
#[derive(Drop)]
pub struct Typed {
    pub(crate) functions: Sequence<TypedFunction>,
    pub(crate) structs: IndexMap<String, Ty>,
}

impl Typed {
    /// The number of functions.
    pub fn len(&self) -> u64
        ensures { result ≡ length self.now.functions }
    {
        self.functions.len()
    }

    /// The function at place `k`, counted from 0; `None` exactly where `k` isn't less than the length.
    pub fn get(&self, k: u64) -> Option<&TypedFunction>
        ensures { option_copied result ≡ slice_get self.now.functions k }
    {
        self.functions.get(k)
    }

    /// The type of the struct of this name; `None` exactly where the program has none. Takes no memory.
    pub fn struct_type(&self, name: &str) -> Option<&Ty>
        ensures { option_map ty_view (option_copied result) ≡ struct_in self.now name.now }
    {
        self.structs.get(name)
    }
}

/// The types of a program, or its first fault. The scope is the program's: what `collect` of the phase before answered
/// for it.
///
/// Functions are checked in text order, each statement by statement, and the first fault is the answer. Where there is
/// none, the answer has each function with its types and the type of each struct. `Memory` may take the place of either.
pub fn check(alloc: Global, program: &Program, scope: &Scope) -> Result<Typed, TypeFault>
    requires { IsScopeOf (program_items program.now) scope.now }
    ensures functions { Answers typed_view result (program_typing (known_of (program_items program.now)) (program_items program.now)) }
    ensures structs { IfOk result (λ typed. (name : List ℕ) → struct_in typed name ≡ (known_of (program_items program.now)).struct_of name) }
{
    let items = program.as_slice();
    let functions = check_functions(alloc, items, scope)?;
    let structs = struct_types(alloc, items, scope)?;
    Ok(Typed { functions, structs })
}

// The functions in text order.
fn check_functions(
    alloc: Global,
    items: &[Item],
    scope: &Scope,
) -> Result<Sequence<TypedFunction>, TypeFault>
    ensures { Answers (map function_view) result (program_typing (known_in scope.now) (program_items items.now)) }
{
    let mut functions = Sequence::new(alloc);
    for item in items {
        match item {
            Item::Import(_) => {}
            Item::Struct(_) => {}
            Item::Function(function) => functions.push(check_function(alloc, scope, function)?)?,
        }
    }
    Ok(functions)
}
