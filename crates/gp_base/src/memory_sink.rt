//! A target of bytes in memory, for tests.

ghost use Rattle.std.specs.Prelude.{◌≡◌, ◌<◌, ◌≤◌, ◌-◌, ◌↔◌, ◌⊎◌, [], length, take, min, Some, is_err, IsTrue, IsErr, OnOk, OnErr, IfOk};
ghost use Rattle.gp_base.specs.FaultPlan.{no_failures, failing_also, fails_next, counted};
ghost use Rattle.gp_base.specs.Outside.{appended, Rose};

use crate::fault_plan::FaultPlan;
use crate::files::Failed;
use crate::sink::Sink;
use std::alloc::{AllocError, Global};
use std::marker::Model;

/// A target that keeps the bytes in memory, up to its room. Calls of `write` fail where `fail_at` lets them.
#[derive(Drop)]
pub struct MemorySink {
    written: Vec<u8>,
    room: usize,
    plan: FaultPlan,
}

impl Model for MemorySink {
    ghost use Rattle.std.specs.Prelude.{◌≤◌, vec_len, vec_capacity};
    ghost use Rattle.gp_base.specs.StoredBytes.{StoredBytes};

    ghost Value = { StoredBytes };

    ghost view = { λ sink. record { written = sink.written.items; room = sink.room; plan = sink.plan } };

    ghost invariant = { λ sink. (vec_len sink.written ≤ sink.room) × (sink.room ≤ vec_capacity sink.written) };
}

impl MemorySink {
    /// A target with this room, in bytes, which is taken at once. Nothing is written, and no call fails.
    pub fn new(alloc: Global, room: usize) -> Result<MemorySink, AllocError>
        ensures { IfOk result (λ sink. sink ≡ record { written = []; room = room; plan = no_failures }) }
    {
        Ok(MemorySink {
            written: Vec::with_capacity(alloc, room)?,
            room,
            plan: FaultPlan::new(alloc),
        })
    }

    /// Lets a call of `write` fail. They are counted from 0. After an error everything is as it was.
    pub fn fail_at(&mut self, call: u64) -> Result<(), AllocError>
        ensures ok { OnOk result (self.new ≡ record self.old { plan = failing_also call self.old.plan }) }
        ensures err { OnErr result (self.new ≡ self.old) }
    {
        self.plan.fail_at(call)
    }

    /// The bytes written.
    pub fn bytes(&self) -> &[u8]
        ensures { result.now ≡ self.now.written }
    {
        &self.written
    }

    /// How many calls failed. The count stops at 2^64 - 1.
    pub fn faults(&self) -> u64
        ensures { result ≡ self.now.plan.faults }
    {
        self.plan.faults()
    }
}

impl Sink for MemorySink {
    ghost bytes = { λ sink. Some sink.written };

    ghost faults = { λ sink. sink.plan.faults };

    /// Fails exactly where `fail_at` lets the call fail or the room is full. Takes no memory, and writes what fits.
    fn write(&mut self, piece: &[u8]) -> Result<usize, Failed>
        requires { 0 < length piece.now }
        ensures some { IfOk result (λ n. 0 < n) }
        ensures within { IfOk result (λ n. n ≤ length piece.now) }
        ensures written { IfOk result
            (λ n. Some self.new.written ≡ appended (Some self.old.written) (take n piece.now)) }
        ensures unwritten { OnErr result (Some self.new.written ≡ Some self.old.written) }
        ensures cause { OnErr result (Rose self.old.plan.faults self.new.plan.faults) }
        ensures count { self.old.plan.faults ≤ self.new.plan.faults }

        // Each call is counted, and a fault where it fails.
        ensures fails { IsErr result
            ↔ (IsTrue (fails_next self.old.plan) ⊎ (length self.old.written ≡ self.old.room)) }
        ensures fits { IfOk result
            (λ n. n ≡ min (length piece.now) (self.old.room - length self.old.written)) }
        ensures counted { self.new.plan ≡ counted (is_err result) self.old.plan }
        ensures room { self.new.room ≡ self.old.room }
    {
        let count = piece.len().min(self.room - self.written.len());
        let failed = count == 0 || self.plan.fails_next();
        self.plan.count(failed);
        if failed {
            return Err(Failed);
        }
        self.written.extend_from_slice(&piece[..count]).unwrap();
        Ok(count)
    }
}
