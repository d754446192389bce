//! A target of bytes outside the program, as standard output.

ghost use Rattle.std.specs.Prelude.{◌≡◌};
ghost use Rattle.std.specs.Io.{WritesAtMost};
ghost use Rattle.std.specs.Io.KnownBytes.{WriteAppends};

use gp_base::{Failed, Sink};
use std::io;
use std::io::{ErrorKind, Write};

/// A writer of the system, as standard output or standard error. What it holds isn't told.
///
/// Nothing is kept back in a buffer.
#[derive(Drop)]
pub struct RealSink<W> {
    writer: W,
    faults: u64,
}

// One write, tried again where a signal interrupts it.
fn write_retrying<W: Write>(writer: &mut W, piece: &[u8]) -> io::Result<usize>
    ensures bound { WritesAtMost result piece.now }
    ensures bytes { WriteAppends (W.contents writer.old) (W.contents writer.new) result piece.now }
{
    for _ in 0..u64::MAX {
        match writer.write(piece) {
            Err(e) if e.kind() == ErrorKind::Interrupted => {}
            outcome => return outcome,
        }
    }
    Err(io::Error::from(ErrorKind::TimedOut))
}

impl<W: Write> RealSink<W> {
    /// No call failed.
    pub fn new(writer: W) -> RealSink<W>
        ensures { ⟦<RealSink<W> as Sink>⟧.faults result ≡ 0 }
    {
        RealSink { writer, faults: 0 }
    }

    /// How many calls failed. The count stops at 2^64 - 1.
    pub fn faults(&self) -> u64
        ensures { result ≡ ⟦<RealSink<W> as Sink>⟧.faults self.now }
    {
        self.faults
    }
}

impl<W: Write> Sink for RealSink<W> {
    ghost use Rattle.std.specs.Prelude.{None};

    ghost bytes = { λ _. None };

    ghost faults = { λ sink. sink.faults };

    /// Hands the piece to one write. A write that a signal interrupts is tried again, and isn't a fault.
    fn write(&mut self, piece: &[u8]) -> Result<usize, Failed> {
        match write_retrying(&mut self.writer, piece) {
            Ok(count) if count > 0 => Ok(count),
            _ => {
                self.faults = self.faults.saturating_add(1);
                Err(Failed)
            }
        }
    }
}

#[cfg(test)]
mod tests {
    use super::*;
    use gp_base::write_all;

    // Is interrupted once, takes two bytes once, takes none once, and fails after that.
    #[derive(Drop)]
    struct Stubborn {
        calls: u8,
    }

    impl Write for Stubborn {
        fn write(&mut self, buf: &[u8]) -> io::Result<usize> {
            self.calls = self.calls.saturating_add(1);
            match self.calls {
                1 => Err(io::Error::from(ErrorKind::Interrupted)),
                2 => Ok(buf.len().min(2)),
                3 => Ok(0),
                _ => Err(io::Error::from(ErrorKind::StorageFull)),
            }
        }

        fn flush(&mut self) -> io::Result<()> {
            Ok(())
        }
    }

    #[test]
    fn counts_faults(rt: HostRuntime) {
        let mut sink = RealSink::new(Stubborn { calls: 0 });
        for (answer, faults) in [(Ok(2), 0), (Err(Failed), 1), (Err(Failed), 2)] {
            assert_eq!(rt; sink.write(b"abc"), answer);
            assert_eq!(rt; sink.faults(), faults);
        }
    }

    #[test]
    fn writes_through_the_bound(rt: HostRuntime) {
        let mut sink = RealSink::new(rt.stdout());
        assert!(rt; write_all(&mut sink, b"written\n").is_ok());
        assert_eq!(rt; sink.faults(), 0);
    }
}
