//! Ops.

use crate::graph_type::{Row, Rows};
use gp_base::Name;

/// What a node of a graph does. The ops up to `LoadFunction` are HUGR's own, the others are ops of extensions. A value
/// port has a number, its place in the row of inputs or of outputs, counted from 0.
#[derive(Drop)]
pub enum OpKind {
    /// The root of a graph: its children are functions and constants.
    Module,
    /// A function, whose children are its body.
    FuncDefn {
        /// The function's name.
        name: Name,
        /// The types of its arguments.
        ins: Row,
        /// The types of its results.
        outs: Row,
    },
    /// A whole number, which a `LoadConstant` gives as a value.
    Const {
        /// The number.
        value: i64,
    },
    /// Gives the arguments of the region in which it stands.
    Input {
        /// The types of its outputs.
        types: Row,
    },
    /// Takes the results of the region in which it stands.
    Output {
        /// The types of its inputs.
        types: Row,
    },
    /// Runs its children once.
    Dfg {
        /// The types of its inputs.
        ins: Row,
        /// The types of its outputs.
        outs: Row,
    },
    /// Runs its children, which are blocks, from the first until one leads to the exit.
    Cfg {
        /// The types of its inputs.
        ins: Row,
        /// The types of its outputs.
        outs: Row,
    },
    /// A block of a `Cfg`: it runs its children, and their first result says by its row which block is next.
    DataflowBlock {
        /// The types of its arguments.
        ins: Row,
        /// The rows of its first result, one for each block that may be next.
        rows: Rows,
        /// The types of its other results, which every next block gets behind the row.
        others: Row,
    },
    /// The exit of a `Cfg`.
    ExitBlock {
        /// The types of what the `Cfg` gives.
        types: Row,
    },
    /// Runs one of its children, which are cases: the one that the row of its first input names.
    Conditional {
        /// The rows of its first input, one for each case.
        rows: Rows,
        /// The types of its other inputs.
        ins: Row,
        /// The types of its outputs.
        outs: Row,
    },
    /// A case of a `Conditional`.
    Case {
        /// The types of its arguments.
        ins: Row,
        /// The types of its results.
        outs: Row,
    },
    /// Runs its children until their first result is of row 1; row 0 is for another round.
    TailLoop {
        /// The types that only a round takes.
        again: Row,
        /// The types that only the end gives.
        leave: Row,
        /// The types that both have.
        rest: Row,
    },
    /// Makes a Sum of one of its rows.
    Tag {
        /// The rows of the Sum.
        rows: Rows,
        /// The row's number, counted from 0.
        tag: u64,
    },
    /// Calls a function.
    Call {
        /// The types of its arguments.
        ins: Row,
        /// The types of its results.
        outs: Row,
    },
    /// Calls the function that its first input is.
    CallIndirect {
        /// The types of its arguments.
        ins: Row,
        /// The types of its results.
        outs: Row,
    },
    /// Gives the number of a `Const`.
    LoadConstant,
    /// Gives a function as a value.
    LoadFunction {
        /// The types of the function's arguments.
        ins: Row,
        /// The types of the function's results.
        outs: Row,
    },
    /// Allocates a qubit.
    Alloc,
    /// Frees a qubit.
    Free,
    /// Measures a qubit and frees it.
    MeasureFree,
    /// Measures a qubit.
    Measure,
    /// Sets a qubit to its first state.
    Reset,
    /// The Hadamard gate.
    H,
    /// The Pauli X gate.
    X,
    /// The Pauli Y gate.
    Y,
    /// The Pauli Z gate.
    Z,
    /// The S gate, a quarter turn about Z.
    S,
    /// The inverse of the S gate.
    Sdg,
    /// The T gate, an eighth of a turn about Z.
    T,
    /// The inverse of the T gate.
    Tdg,
    /// The controlled X gate: the control is the first qubit.
    Cx,
    /// The controlled Y gate: the control is the first qubit.
    Cy,
    /// The controlled Z gate.
    Cz,
    /// The Toffoli gate: X on the third qubit, controlled by the first two.
    Toffoli,
    /// A rotation about X, by an angle in units of 1/65536 turn.
    Rx,
    /// A rotation about Y, by an angle in units of 1/65536 turn.
    Ry,
    /// A rotation about Z, by an angle in units of 1/65536 turn.
    Rz,
    /// Reports a whole number.
    ResultInt {
        /// The text under which it is reported.
        tag: Name,
    },
    /// Reports a truth value.
    ResultBool {
        /// The text under which it is reported.
        tag: Name,
    },
    /// The sum of two whole numbers, which wraps.
    Add,
    /// The difference of two whole numbers, which wraps.
    Sub,
    /// The product of two whole numbers, which wraps.
    Mul,
    /// The quotient of two whole numbers, rounded towards minus infinity.
    FloorDiv,
    /// The remainder of two whole numbers, with the divisor's sign.
    Mod,
    /// A whole number with its sign turned round, which wraps.
    Neg,
    /// Whether two whole numbers are equal.
    IntEq,
    /// Whether two whole numbers differ.
    IntNe,
    /// Whether a whole number is less than another.
    Lt,
    /// Whether a whole number is at most another.
    Le,
    /// Whether a whole number is greater than another.
    Gt,
    /// Whether a whole number is at least another.
    Ge,
    /// Whether a truth value is false.
    Not,
    /// Whether two truth values are equal.
    BoolEq,
    /// Whether two truth values differ.
    BoolNe,
    /// The values of a Sum of one row.
    Unpack {
        /// The row.
        types: Row,
    },
}
