//! The events of a run, and how it ends.

use crate::sequence::Sequence;
use crate::tag::Tag;

/// The fifteen gates. Qubits of a gate are distinct; an angle is in units of 1/65536 turn.
#[derive(Clone, Copy, Debug, PartialEq, Eq)]
pub enum GateName {
    H,
    X,
    Y,
    Z,
    S,
    Sdg,
    T,
    Tdg,
    Cx,
    Cy,
    Cz,
    Toffoli,
    Rx,
    Ry,
    Rz,
}

/// What a run does outside itself. Qubits are numbered from 0 in the order in which they are allocated.
#[derive(Drop)]
pub enum Event {
    /// The qubit begins to live.
    Alloc(u64),
    /// The qubit ends.
    Free(u64),
    /// The qubit is measured, with this outcome, and ends.
    MeasureFree(u64, bool),
    /// The qubit is measured, with this outcome, and lives on.
    Measure(u64, bool),
    /// The qubit is set to its first state.
    Reset(u64),
    /// A gate on one qubit.
    Gate1(GateName, u64),
    /// A gate on two qubits.
    Gate2(GateName, u64, u64),
    /// A gate on three qubits.
    Gate3(GateName, u64, u64, u64),
    /// A rotation of a qubit by an angle.
    Rotation(GateName, u64, i64),
    /// A whole number is reported under a tag.
    ResultInt(Tag, i64),
    /// A truth value is reported under a tag.
    ResultBool(Tag, bool),
}

/// A list of events. A contract sees it as the list of its events. `Events::new` takes no memory; a `push` that is
/// refused drops its event and leaves the list as it was.
pub type Events = Sequence<Event>;

/// How a run ends.
#[derive(Clone, Copy, Debug, PartialEq, Eq)]
pub enum End {
    /// The run returns.
    Returned,
    /// A loop or a call needs a turn, and no turn is left.
    TurnsUsed,
    /// A measurement needs an outcome, and no outcome is left.
    OutcomesUsed,
    /// A number is divided by zero.
    DivisionByZero,
}
