//! Reading a whole input.

ghost use Rattle.std.specs.Prelude.{◌≡◌, ◌<◌, ◌+◌, ◌≤◌, ◌^◌, ◌⊎◌, length, take, vec_len, true, IfOk, OnErr, IsErrOf};
ghost use Rattle.gp_base.specs.Outside.{IsMissing, Rose, prepended, IsEndOf};
ghost use Rattle.guppy_call.specs.Input.{AreRead, AreReadOf};

use gp_base::{Failed, Files};
use std::alloc::{AllocError, Global};

// How many bytes are asked for at once.
const PIECE: usize = 16384;

/// Why an input wasn't read.
#[derive(Clone, Copy, Debug, PartialEq, Eq)]
pub enum InputError {
    /// Opening or reading failed.
    Failed,
    /// There was no memory.
    Memory,
}

impl From<AllocError> for InputError {
    ghost use Rattle.std.specs.Prelude.{◌≡◌};
    ghost use Rattle.guppy_call.specs.declared.input.InputError.TheVariants.{Memory};

    ghost from_gives = { λ _ e. e ≡ Memory };

    fn from(_e: AllocError) -> InputError {
        InputError::Memory
    }
}

impl From<Failed> for InputError {
    ghost use Rattle.std.specs.Prelude.{◌≡◌};
    ghost use Rattle.guppy_call.specs.declared.input.InputError.TheVariants.{Failed};

    ghost from_gives = { λ _ e. e ≡ Failed };

    fn from(_e: Failed) -> InputError {
        InputError::Failed
    }
}

// A buffer of this many bytes.
fn buffer(alloc: Global, len: usize) -> Result<Vec<u8>, AllocError>
    ensures { IfOk result (λ made. length made.items ≡ len) }
{
    vec![in alloc; 0; len]
}

// Reads at most `most` bytes of the open file to the front of the piece, and answers how many; 0 is the end.
fn read_piece<F: Files>(files: &mut F, piece: &mut [u8], most: usize) -> Result<usize, Failed>
    requires open { F.is_open files.old ≡ true }
    requires some { 0 < most }
    requires room { most ≤ length piece.old }
    ensures within { IfOk result (λ n. n ≤ most) }
    ensures moved { IfOk result (λ n. F.rest files.old ≡ prepended (take n piece.new) (F.rest files.new)) }
    ensures end { IfOk result (λ n. IsEndOf (F.rest files.old) n) }
    ensures cause { OnErr result (Rose (F.faults files.old) (F.faults files.new)) }
    ensures still_open { F.is_open files.new ≡ true }
    ensures count { F.faults files.old ≤ F.faults files.new }
{
    files.read(&mut piece[..most])
}

// Reads the open file to its end, or to the first byte past the limit.
fn read_open<F: Files>(alloc: Global, files: &mut F, limit: usize) -> Result<Vec<u8>, InputError>
    requires open { F.is_open files.old ≡ true }
    requires limit { limit + 1 < 2 ^ 64 }
    ensures read { IfOk result (λ bytes. AreReadOf (F.rest files.old) limit bytes.items) }
    ensures failed { IsErrOf result InputError.Failed → Rose (F.faults files.old) (F.faults files.new) }
    ensures count { F.faults files.old ≤ F.faults files.new }
{
    let mut piece = buffer(alloc, PIECE)?;
    let mut bytes = Vec::new(alloc);
    while bytes.len() <= limit {
        let most = PIECE.min(limit + 1 - bytes.len());
        let n = read_piece(files, &mut piece, most)?;
        if n == 0 {
            break;
        }
        bytes.extend_from_slice(&piece[..n])?;
    }
    Ok(bytes)
}

/// Reads all that a name holds, or one byte more than the limit where it holds more.
///
/// `Failed` comes only where the count of faults rose in this call, or where contents are told and the name
/// isn't held.
pub fn read_input<F: Files>(
    alloc: Global,
    files: &mut F,
    name: &str,
    limit: usize,
) -> Result<Vec<u8>, InputError>
    requires { limit + 1 < 2 ^ 64 }
    ensures read { IfOk result (λ bytes. AreRead (F.held files.old) name.now limit bytes.items) }
    ensures failed { IsErrOf result InputError.Failed
        → Rose (F.faults files.old) (F.faults files.new) ⊎ IsMissing (F.held files.old) name.now }
{
    files.open(name)?;
    read_open(alloc, files, limit)
}
