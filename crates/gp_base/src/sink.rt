//! What the program writes to.

ghost use Rattle.std.specs.Prelude.{◌≤◌, OnOk, OnErr};
ghost use Rattle.gp_base.specs.Outside.{Rose, Wrote, WrotePart};

use crate::files::Failed;

/// A target of bytes.
///
/// Implementations tell in the ghost member `bytes` what was written, or `None` where they don't tell.
pub trait Sink {
    ghost use Rattle.std.specs.Prelude.{◌≡◌, ◌<◌, ◌≤◌, ℕ, List, Option, length, take, OnErr, IfOk};
    ghost use Rattle.gp_base.specs.Outside.{appended, Rose};

    /// The bytes written, where the object tells them.
    ghost bytes: { Self → Option (List ℕ) };

    /// How many calls failed. A count stops at 2^64 - 1.
    ghost faults: { Self → ℕ };

    /// Writes bytes from the front of the piece, at least one, and answers how many.
    ///
    /// Fails only where the count of faults rose in this call; then nothing was written. A target that
    /// takes nothing is a counted fault.
    fn write(&mut self, piece: &[u8]) -> Result<usize, Failed>
        requires { 0 < length piece.now }
        ensures some { IfOk result (λ n. 0 < n) }
        ensures within { IfOk result (λ n. n ≤ length piece.now) }
        ensures written { IfOk result (λ n. bytes self.new ≡ appended (bytes self.old) (take n piece.now)) }
        ensures unwritten { OnErr result (bytes self.new ≡ bytes self.old) }
        ensures cause { OnErr result (Rose (faults self.old) (faults self.new)) }
        ensures count { faults self.old ≤ faults self.new };
}

/// Writes all bytes, in as many pieces as the sink takes. After an error the sink has a part from their front.
pub fn write_all<S: Sink>(sink: &mut S, bytes: &[u8]) -> Result<(), Failed>
    ensures ok { OnOk result (Wrote (S.bytes sink.old) (S.bytes sink.new) bytes.now) }
    ensures err { OnErr result (WrotePart (S.bytes sink.old) (S.bytes sink.new) bytes.now) }
    ensures cause { OnErr result (Rose (S.faults sink.old) (S.faults sink.new)) }
    ensures count { S.faults sink.old ≤ S.faults sink.new }
{
    let mut count = 0;
    while count < bytes.len() {
        count += sink.write(&bytes[count..])?;
    }
    Ok(())
}
