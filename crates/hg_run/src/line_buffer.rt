//! A buffer before a sink.

use crate::tell_fault::TellFault;
use gp_base::{Failed, Sink};
use std::alloc::{AllocError, Global};
use std::marker::Model;

// So many bytes are kept before they are written.
const KEPT: usize = 8192;

/// Bytes that are still to be written to a sink. A contract sees it as their list.
#[derive(Drop)]
pub struct LineBuffer {
    bytes: Vec<u8>,
    // so many from the front are written
    written: usize,
}

impl Model for LineBuffer {
    ghost use Rattle.std.specs.Prelude.{◌≤◌, ℕ, List, drop, length};

    ghost Value = { List ℕ };

    ghost view = { λ buffer. drop buffer.written buffer.bytes.items };

    ghost invariant = { λ buffer. buffer.written ≤ length buffer.bytes.items };
}

impl LineBuffer {
    ghost use Rattle.std.specs.Prelude.{◌≡◌, ◌≤◌, ◌++◌, [], OnOk, OnErr, IsErrOf};
    ghost use Rattle.gp_base.specs.Outside.{Rose};
    ghost use Rattle.hg_run.specs.code.Buffering.{Grown, NoneLost, Passed, PassedPart};
    ghost use Rattle.hg_run.specs.declared.tell_fault.TellFault.TheVariants as fault;

    /// A buffer without bytes. Takes no memory.
    pub fn new(alloc: Global) -> LineBuffer
        ensures { result ≡ [] }
    {
        LineBuffer {
            bytes: Vec::new(alloc),
            written: 0,
        }
    }

    /// Writes what is kept. After an error the rest of it is kept.
    pub fn flush<S: Sink>(&mut self, sink: &mut S) -> Result<(), Failed>
        ensures whole { NoneLost (S.bytes sink.old) self.old (S.bytes sink.new) self.new }
        ensures none { OnOk result (self.new ≡ []) }
        ensures grown { Grown (S.bytes sink.old) (S.bytes sink.new) }
        ensures cause { OnErr result (Rose (S.faults sink.old) (S.faults sink.new)) }
        ensures count { S.faults sink.old ≤ S.faults sink.new }
    {
        while self.written < self.bytes.len() {
            self.written += sink.write(&self.bytes[self.written..])?;
        }
        self.bytes.clear();
        self.written = 0;
        Ok(())
    }

    // Keeps more bytes.
    fn keep(&mut self, bytes: &[u8]) -> Result<(), AllocError>
        ensures ok { OnOk result (self.new ≡ self.old ++ bytes.now) }
        ensures err { OnErr result (self.new ≡ self.old) }
    {
        self.bytes.extend_from_slice(bytes)
    }

    /// Keeps more bytes. Where the buffer is full, what it kept before is written first.
    pub fn put<S: Sink>(&mut self, sink: &mut S, bytes: &[u8]) -> Result<(), TellFault>
        ensures ok { OnOk result
            (Passed (S.bytes sink.old) self.old (S.bytes sink.new) self.new bytes.now) }
        ensures err { OnErr result
            (PassedPart (S.bytes sink.old) self.old (S.bytes sink.new) self.new bytes.now) }
        ensures grown { Grown (S.bytes sink.old) (S.bytes sink.new) }
        ensures cause { IsErrOf result fault.WriteFault
            → Rose (S.faults sink.old) (S.faults sink.new) }
        ensures count { S.faults sink.old ≤ S.faults sink.new }
    {
        if self.bytes.len() >= KEPT {
            self.flush(sink)?;
        }
        self.keep(bytes)?;
        Ok(())
    }
}
