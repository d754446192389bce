//! How a call of the program ends.

ghost use Rattle.std.specs.Prelude.{◌≡◌};

/// How a call of the program ends. The number is the status of the process.
#[derive(Clone, Copy, Debug, PartialEq, Eq)]
pub enum Status {
    /// All was done and written.
    Done = 0,
    /// The input was refused, for the cause that standard error names.
    Refused = 1,
    /// The words of the command line have no meaning.
    Words = 2,
    /// Opening or reading the input failed.
    ReadFault = 3,
    /// Writing failed.
    WriteFault = 4,
    /// There was no memory.
    Memory = 5,
    /// A run ended before it returned.
    Stopped = 6,
}

impl Status {
    ghost use Rattle.guppy_call.specs.Status.{code_of};

    /// The number that the process ends with.
    pub fn code(self) -> u8
        ensures { result ≡ code_of self }
    {
        self as u8
    }
}
