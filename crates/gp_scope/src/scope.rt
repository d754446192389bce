//! What a program's names stand for.

ghost use Rattle.std.specs.Prelude.{◌≡◌, option_map};
ghost use Rattle.std.specs.Option.{option_copied};
ghost use Rattle.gp_types.specs.View.{ty_view};
ghost use Rattle.gp_types.specs.Signature.{signature_view};
ghost use Rattle.gp_scope.specs.ScopeView.{known_in};

use gp_base::LineNo;
use gp_types::{Signature, Ty};
use indexmap::{IndexMap, IndexSet};

/// The names that a program imports, its struct types, the signatures of its functions and the types that its annotated
/// assignments write. Each table has its names in the order in which the program shows them first.
#[derive(Drop)]
pub struct Scope {
    pub(crate) imports: IndexSet<String>,
    pub(crate) structs: IndexMap<String, Ty>,
    pub(crate) signatures: IndexMap<String, Signature>,
    pub(crate) annotated: IndexMap<u32, Ty>,
    pub(crate) functions: u64,
}

impl Scope {
    /// Whether the program imports the name, from whatever module. Takes no memory.
    pub fn imports(&self, name: &str) -> bool
        ensures { result ≡ (known_in self.now).is_imported name.now }
    {
        self.imports.contains(name)
    }

    /// The type of the struct of this name; `None` exactly where the program has none. Takes no memory.
    pub fn struct_type(&self, name: &str) -> Option<&Ty>
        ensures { option_map ty_view (option_copied result) ≡ (known_in self.now).struct_of name.now }
    {
        self.structs.get(name)
    }

    /// What the function of this name takes and answers; `None` exactly where the program has none. Takes no memory.
    pub fn signature(&self, name: &str) -> Option<&Signature>
        ensures { option_map signature_view (option_copied result) ≡ (known_in self.now).signature_of name.now }
    {
        self.signatures.get(name)
    }

    /// The number of the program's functions. Takes no memory.
    pub fn function_count(&self) -> u64
        ensures { result ≡ self.now.functions }
    {
        self.functions
    }

    /// The type that the annotated assignment on this line writes; `None` exactly where the line has none. Takes no
    /// memory.
    pub fn annotated(&self, line: LineNo) -> Option<&Ty>
        ensures { option_map ty_view (option_copied result) ≡ (known_in self.now).annotated_at line }
    {
        self.annotated.get(&line.0)
    }
}
