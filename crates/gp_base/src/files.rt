//! What the program reads: named contents, opened one at a time.

/// A call failed: the object's count of faults rose in that call, or the name isn't held.
#[derive(Clone, Copy, Debug, PartialEq, Eq)]
pub struct Failed;

/// Named contents to read from. The name `-` is standard input.
///
/// Implementations tell in the ghost members what they know: `held` and `rest` are `None` where an
/// object doesn't tell its contents.
pub trait Files {
    ghost use Rattle.std.specs.Prelude.{◌≡◌, ◌<◌, ◌≤◌, ◌⊎◌, ℕ, Bool, true, false, List, Option, length, take, IsTrue, OnOk, OnErr, IfOk};
    ghost use Rattle.gp_base.specs.Outside.{Holdings, MayOpen, IsMissing, contents_of, prepended, IsEndOf, Rose};

    /// What each name holds, where the object tells it.
    ghost held: { Self → Holdings };

    /// What is left of the open file, where the object tells it.
    ghost rest: { Self → Option (List ℕ) };

    /// Whether a file is open.
    ghost is_open: { Self → Bool };

    /// How many calls failed by a fault. A count stops at 2^64 - 1.
    ghost faults: { Self → ℕ };

    /// Opens a name, whose whole contents are then left to read.
    ///
    /// Fails only where the count of faults rose in this call, or where contents are told and the name
    /// isn't held; then no file is open.
    fn open(&mut self, name: &str) -> Result<(), Failed>
        ensures opened { OnOk result (is_open self.new ≡ true) }
        ensures held_name { OnOk result (MayOpen (held self.old) name.now) }
        ensures whole { OnOk result (rest self.new ≡ contents_of (held self.old) name.now) }
        ensures closed { OnErr result (is_open self.new ≡ false) }
        ensures cause { OnErr result (Rose (faults self.old) (faults self.new) ⊎ IsMissing (held self.old) name.now) }
        ensures kept { held self.new ≡ held self.old }
        ensures count { faults self.old ≤ faults self.new };

    /// Reads the next bytes into the front of `buf`, and answers how many; 0 is the end.
    ///
    /// Fails only where the count of faults rose in this call; then nothing moved.
    fn read(&mut self, buf: &mut [u8]) -> Result<usize, Failed>
        requires open { is_open self.old ≡ true }
        requires room { 0 < length buf.old }
        ensures within { IfOk result (λ n. n ≤ length buf.new) }
        ensures moved { IfOk result (λ n. rest self.old ≡ prepended (take n buf.new) (rest self.new)) }
        ensures end { IfOk result (λ n. IsEndOf (rest self.old) n) }
        ensures unmoved { OnErr result (rest self.new ≡ rest self.old) }
        ensures cause { OnErr result (Rose (faults self.old) (faults self.new)) }
        ensures still_open { is_open self.new ≡ true }
        ensures kept { held self.new ≡ held self.old }
        ensures count { faults self.old ≤ faults self.new };
}
