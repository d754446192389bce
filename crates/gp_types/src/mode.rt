//! How functions take arguments.

/// How a function takes an argument.
#[derive(Clone, Copy, Debug, PartialEq, Eq)]
pub enum Mode {
    /// A linear value that comes back to the caller when the function returns.
    Borrowed,
    /// A linear value that the function keeps.
    Owned,
    /// A value without qubits, which is copied.
    Copied,
}
