//! The names of the built-in functions.

ghost use Rattle.std.specs.Prelude.{◌≡◌};
ghost use Rattle.gp_types.specs.Builtins.{builtin_named};

use crate::builtins::Builtin;
use gp_base::GateName;

/// The built-in function of this name; `None` exactly where there is none. Takes no memory.
#[tactic(auto, unfolding(crate::specs::Builtins::builtin_named))]
pub fn builtin(name: &str) -> Option<Builtin>
    ensures { result ≡ builtin_named name.now }
{
    match name {
        "qubit" => Some(Builtin::Qubit),
        "discard" => Some(Builtin::Discard),
        "measure" => Some(Builtin::Measure),
        "project_z" => Some(Builtin::ProjectZ),
        "reset" => Some(Builtin::Reset),
        "h" => Some(Builtin::OneQubitGate(GateName::H)),
        "x" => Some(Builtin::OneQubitGate(GateName::X)),
        "y" => Some(Builtin::OneQubitGate(GateName::Y)),
        "z" => Some(Builtin::OneQubitGate(GateName::Z)),
        "s" => Some(Builtin::OneQubitGate(GateName::S)),
        "sdg" => Some(Builtin::OneQubitGate(GateName::Sdg)),
        "t" => Some(Builtin::OneQubitGate(GateName::T)),
        "tdg" => Some(Builtin::OneQubitGate(GateName::Tdg)),
        "cx" => Some(Builtin::TwoQubitGate(GateName::Cx)),
        "cy" => Some(Builtin::TwoQubitGate(GateName::Cy)),
        "cz" => Some(Builtin::TwoQubitGate(GateName::Cz)),
        "toffoli" => Some(Builtin::Toffoli),
        "rx" => Some(Builtin::Rotation(GateName::Rx)),
        "ry" => Some(Builtin::Rotation(GateName::Ry)),
        "rz" => Some(Builtin::Rotation(GateName::Rz)),
        "result" => Some(Builtin::Result),
        _ => None,
    }
}
