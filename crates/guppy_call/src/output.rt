//! Writing.

ghost use Rattle.std.specs.Prelude.{◌≡◌, ◌⊎◌, []};
ghost use Rattle.gp_base.specs.Outside.{Rose, Wrote};
ghost use Rattle.guppy_call.specs.Call.{Sends, line_of};
ghost use Rattle.guppy_call.specs.Refusal.{refusal_text, status_of};

use crate::refusal::Refusal;
use crate::status::Status;
use gp_base::{Failed, Sink, write_all};
use std::alloc::Global;

/// Writes a text, and answers the status that is due then, or `WriteFault`.
pub fn send<S: Sink>(sink: &mut S, text: &[u8], due: Status) -> Status
    ensures sent { Sends result due (S.bytes sink.old) (S.bytes sink.new) text.now }
    ensures fault { (result ≡ due)
        ⊎ ((result ≡ Status.WriteFault) × Rose (S.faults sink.old) (S.faults sink.new)) }
{
    match write_all(sink, text) {
        Ok(()) => due,
        Err(Failed) => Status::WriteFault,
    }
}

/// Writes the line of a refusal, and answers its status. `Memory` writes nothing.
pub fn refuse<S: Sink>(alloc: Global, sink: &mut S, refusal: Refusal) -> Status
    ensures sent { Sends result (status_of refusal)
        (S.bytes sink.old) (S.bytes sink.new) (line_of (refusal_text refusal)) }
    ensures write_fault { result ≡ Status.WriteFault → Rose (S.faults sink.old) (S.faults sink.new) }
    ensures memory { result ≡ Status.Memory → Wrote (S.bytes sink.old) (S.bytes sink.new) [] }
{
    match format!(in alloc; "{refusal}\n") {
        Ok(line) => send(sink, line.as_bytes(), refusal.status()),
        Err(_) => Status::Memory,
    }
}
