//! The modules that a program may import from.

ghost use Rattle.std.specs.Prelude.{◌≡◌};
ghost use Rattle.gp_scope.specs.Modules as spec;

use gp_types::builtin;

/// Whether the module, named by its dotted text, offers this name to imports. Takes no memory.
pub fn offers(module_name: &str, name: &str) -> bool
    ensures { result ≡ spec.offers module_name.now name.now }
{
    match module_name {
        "guppylang" | "guppylang.decorator" => name == "guppy",
        "guppylang.std.builtins" => name == "owned" || name == "result",
        "guppylang.std.platform" => name == "result",
        "guppylang.std.lang" => name == "owned",
        "guppylang.std.quantum" => builtin(name).is_some() && name != "result",
        "collections.abc" | "typing" => name == "Callable",
        "__future__" => name == "annotations",
        _ => false,
    }
}
