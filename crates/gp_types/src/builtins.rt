//! The built-in functions.

ghost use Rattle.std.specs.Prelude.{◌≡◌};
ghost use Rattle.gp_types.specs.Builtins as spec;

use crate::mode::Mode;
use gp_base::GateName;

/// A built-in function of the language.
#[derive(Clone, Copy, Debug, PartialEq, Eq)]
pub enum Builtin {
    /// `qubit`: a new qubit.
    Qubit,
    /// `discard`: ends a qubit.
    Discard,
    /// `measure`: measures a qubit and ends it.
    Measure,
    /// `project_z`: measures a qubit that lives on.
    ProjectZ,
    /// `reset`: sets a qubit to its first state.
    Reset,
    /// `h`, `x`, `y`, `z`, `s`, `sdg`, `t` or `tdg`: a gate on one qubit.
    OneQubitGate(GateName),
    /// `cx`, `cy` or `cz`: a gate on two qubits.
    TwoQubitGate(GateName),
    /// `toffoli`: the gate on three qubits.
    Toffoli,
    /// `rx`, `ry` or `rz`: a rotation of a qubit by an angle in units of 1/65536 turn.
    Rotation(GateName),
    /// `result`: reports a number or a truth value under a tag.
    Result,
}

/// A type that built-in functions take or answer.
#[derive(Clone, Copy, Debug, PartialEq, Eq)]
pub enum BuiltinType {
    /// `int`.
    Int,
    /// `bool`.
    Bool,
    /// `qubit`.
    Qubit,
}

/// A parameter of a built-in function.
#[derive(Clone, Copy, Debug, PartialEq, Eq)]
pub struct BuiltinParameter {
    /// The type of its values.
    pub ty: BuiltinType,
    /// How it is taken.
    pub mode: Mode,
}

const QUBIT_BORROWED: BuiltinParameter = BuiltinParameter {
    ty: BuiltinType::Qubit,
    mode: Mode::Borrowed,
};

const QUBIT_OWNED: BuiltinParameter = BuiltinParameter {
    ty: BuiltinType::Qubit,
    mode: Mode::Owned,
};

const ANGLE: BuiltinParameter = BuiltinParameter {
    ty: BuiltinType::Int,
    mode: Mode::Copied,
};

impl Builtin {
    /// What the function takes, in order. `result` takes a tag and then an `int` or a `bool`, which is no such list:
    /// this answers an empty one for it.
    pub fn parameters(self) -> &'static [BuiltinParameter]
        ensures { result.now ≡ spec.parameters_of self }
    {
        match self {
            Builtin::Qubit | Builtin::Result => &[],
            Builtin::Discard | Builtin::Measure => &[QUBIT_OWNED],
            Builtin::ProjectZ | Builtin::Reset | Builtin::OneQubitGate(_) => &[QUBIT_BORROWED],
            Builtin::TwoQubitGate(_) => &[QUBIT_BORROWED, QUBIT_BORROWED],
            Builtin::Toffoli => &[QUBIT_BORROWED, QUBIT_BORROWED, QUBIT_BORROWED],
            Builtin::Rotation(_) => &[QUBIT_BORROWED, ANGLE],
        }
    }

    /// The type of the answer; `None` where the function answers nothing.
    pub fn answer(self) -> Option<BuiltinType>
        ensures { result ≡ spec.answer_of self }
    {
        match self {
            Builtin::Qubit => Some(BuiltinType::Qubit),
            Builtin::Measure | Builtin::ProjectZ => Some(BuiltinType::Bool),
            _ => None,
        }
    }
}
