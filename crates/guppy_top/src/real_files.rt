//! The files of the system, and standard input.

ghost use Rattle.std.specs.Prelude.{◌≡◌, false};
ghost use Rattle.std.specs.Io.{ReadsAtMost};
ghost use Rattle.std.specs.Io.KnownBytes.{ReadConsumes};

use gp_base::{Failed, Files};
use std::io::{ErrorKind, Read};
use std::{fs, io, rt};

// The name of standard input.
const STANDARD_INPUT: &str = "-";

// What an open name is read from.
#[derive(Drop)]
enum Source<R: rt::Files + Input> {
    StandardInput(R::Reader),
    File(R::File),
}

/// The files of the system and its standard input. Their contents aren't told.
///
/// The name `-` is standard input, and every other name is a path. Standard input isn't opened anew: what was
/// read from it is gone. A folder opens, and fails at the first read.
#[derive(Drop)]
pub struct RealFiles<R: rt::Files + Input> {
    runtime: R,
    source: Option<Source<R>>,
    faults: u64,
}

// One read, tried again where a signal interrupts it.
fn read_retrying<S: Read>(source: &mut S, buf: &mut [u8]) -> io::Result<usize>
    ensures bound { ReadsAtMost result buf.new }
    ensures bytes { ReadConsumes (S.remaining source.old) (S.remaining source.new) result buf.new }
{
    for _ in 0..u64::MAX {
        match source.read(buf) {
            Err(e) if e.kind() == ErrorKind::Interrupted => {}
            outcome => return outcome,
        }
    }
    Err(io::Error::from(ErrorKind::TimedOut))
}

impl<R: rt::Files + Input> Source<R> {
    // Standard input, or the file at this path.
    fn open(runtime: &R, name: &str) -> io::Result<Source<R>> {
        if name == STANDARD_INPUT {
            return Ok(Source::StandardInput(runtime.reader()));
        }
        Ok(Source::File(fs::open(runtime, name)?))
    }

    // Reads to the front of the buffer, and answers how many bytes.
    fn read(&mut self, buf: &mut [u8]) -> io::Result<usize>
        ensures { ReadsAtMost result buf.new }
    {
        match self {
            Source::StandardInput(reader) => read_retrying(reader, buf),
            Source::File(file) => read_retrying(file, buf),
        }
    }
}

impl<R: rt::Files + Input> RealFiles<R> {
    /// No file is open, and no call failed.
    pub fn new(runtime: R) -> RealFiles<R>
        ensures closed { ⟦<RealFiles<R> as Files>⟧.is_open result ≡ false }
        ensures no_faults { ⟦<RealFiles<R> as Files>⟧.faults result ≡ 0 }
    {
        RealFiles {
            runtime,
            source: None,
            faults: 0,
        }
    }

    /// How many calls failed, those on missing files among them. The count stops at 2^64 - 1.
    pub fn faults(&self) -> u64
        ensures { result ≡ ⟦<RealFiles<R> as Files>⟧.faults self.now }
    {
        self.faults
    }
}

impl<R: rt::Files + Input> Files for RealFiles<R> {
    ghost use Rattle.std.specs.Prelude.{None, is_some};

    ghost held = { λ _. None };

    ghost rest = { λ _. None };

    ghost is_open = { λ files. is_some files.source };

    ghost faults = { λ files. files.faults };

    /// Closes what was open before, first. A missing file is a fault too.
    fn open(&mut self, name: &str) -> Result<(), Failed> {
        self.source = None;
        match Source::open(&self.runtime, name) {
            Ok(source) => {
                self.source = Some(source);
                Ok(())
            }
            Err(_) => {
                self.faults = self.faults.saturating_add(1);
                Err(Failed)
            }
        }
    }

    /// A read that a signal interrupts is tried again, and isn't a fault.
    fn read(&mut self, buf: &mut [u8]) -> Result<usize, Failed> {
        let source = self.source.as_mut().unwrap();
        match source.read(buf) {
            Ok(count) => Ok(count),
            Err(_) => {
                self.faults = self.faults.saturating_add(1);
                Err(Failed)
            }
        }
    }
}

#[cfg(test)]
mod tests {
    use super::*;
    use guppy_call::read_input;
    use std::test::Fail;

    // Is interrupted once, and is at its end after that.
    #[derive(Drop)]
    struct Interrupted {
        calls: u8,
    }

    impl Read for Interrupted {
        fn read(&mut self, _buf: &mut [u8]) -> io::Result<usize> {
            self.calls = self.calls.saturating_add(1);
            if self.calls == 1 {
                return Err(io::Error::from(ErrorKind::Interrupted));
            }
            Ok(0)
        }
    }

    #[test]
    fn tries_again(rt: HostRuntime) -> Result<(), Fail> {
        let mut source = Interrupted { calls: 0 };
        assert_eq!(rt; read_retrying(&mut source, &mut [0; 4])?, 0);
        assert_eq!(rt; source.calls, 2);
        Ok(())
    }

    #[test]
    fn reads_and_counts_faults(rt: HostRuntime) -> Result<(), Fail> {
        let mut files = RealFiles::new(&rt);
        let mut buf = [1; 4];
        files.open("/dev/zero")?;
        assert_eq!(rt; files.read(&mut buf)?, 4);
        assert_eq!(rt; buf, [0; 4]);
        assert_eq!(rt; files.faults(), 0);
        assert!(rt; files.open("/nowhere/at/all").is_err());
        assert_eq!(rt; files.faults(), 1);
        files.open("/")?;
        assert!(rt; files.read(&mut buf).is_err());
        assert_eq!(rt; files.faults(), 2);
        Ok(())
    }

    #[test]
    fn reads_through_the_bound(rt: HostRuntime) -> Result<(), Fail> {
        let mut files = RealFiles::new(&rt);
        let bytes = read_input(rt.alloc(), &mut files, "/dev/null", 9)?;
        assert!(rt; bytes.is_empty());
        let bytes = read_input(rt.alloc(), &mut files, "/dev/zero", 9)?;
        assert_eq!(rt; bytes.as_slice(), [0; 10].as_slice());
        Ok(())
    }
}
