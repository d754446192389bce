//! What the program answers to a text that was read.

ghost use Rattle.std.specs.Prelude.{◌≡◌, ◌≢◌, ◌⊎◌, []};
ghost use Rattle.gp_base.specs.Outside.{Rose, Wrote};
ghost use Rattle.guppy_call.specs.Call.{Answer, seen, Delivers};
ghost use Rattle.guppy_call.specs.Made.{Makes, RefusesInput};
ghost use Rattle.guppy_call.specs.Modes.{IsDueIn, IsRun};
ghost use Rattle.guppy_words.specs.Meaning.{request_view};

use crate::compile::compile_text;
use crate::migrate::migrate_text;
use crate::mode_error::ModeError;
use crate::output::{refuse, send};
use crate::run::run_text;
use crate::status::Status;
use crate::validity::validate_text;
use gp_base::Sink;
use guppy_words::Request;
use std::alloc::Global;

// Writes the line that a mode made, or the refusal of its input.
fn deliver<O: Sink, E: Sink>(
    alloc: Global,
    made: Result<Vec<u8>, ModeError>,
    out: &mut O,
    err: &mut E,
) -> Status
    requires { RefusesInput made }
    ensures due { (answer : Answer) → Makes made answer → Delivers
        (seen result (O.bytes out.old) (O.bytes out.new) (E.bytes err.old) (E.bytes err.new)) answer }
    ensures write_fault { result ≡ Status.WriteFault
        → Rose (O.faults out.old) (O.faults out.new) ⊎ Rose (E.faults err.old) (E.faults err.new) }
    ensures memory { result ≡ Status.Memory → Wrote (E.bytes err.old) (E.bytes err.new) [] }
    ensures memory_out { result ≡ Status.Memory → Wrote (O.bytes out.old) (O.bytes out.new) [] }
    ensures words { result ≢ Status.Words }
    ensures read_fault { result ≢ Status.ReadFault }
    ensures stopped { result ≢ Status.Stopped }
{
    match made {
        Ok(line) => send(out, &line, Status::Done),
        Err(ModeError::Refused(refusal)) => refuse(alloc, err, refusal),
        Err(ModeError::Memory) => Status::Memory,
    }
}

/// Does with a text what a request asks for.
pub fn answer<O: Sink, E: Sink>(
    alloc: Global,
    request: &Request<'_>,
    text: &[u8],
    out: &mut O,
    err: &mut E,
) -> Status
    ensures due { (answer : Answer) → IsDueIn (request_view request.now) text.now answer → Delivers
        (seen result (O.bytes out.old) (O.bytes out.new) (E.bytes err.old) (E.bytes err.new)) answer }
    ensures write_fault { result ≡ Status.WriteFault
        → Rose (O.faults out.old) (O.faults out.new) ⊎ Rose (E.faults err.old) (E.faults err.new) }
    ensures memory { result ≡ Status.Memory → Wrote (E.bytes err.old) (E.bytes err.new) [] }
    ensures memory_out { result ≡ Status.Memory
        → IsRun (request_view request.now) ⊎ Wrote (O.bytes out.old) (O.bytes out.new) [] }
    ensures words { result ≢ Status.Words }
    ensures read_fault { result ≢ Status.ReadFault }
    ensures stopped { result ≡ Status.Stopped → IsRun (request_view request.now) }
{
    match request {
        Request::Compile(_) => deliver(alloc, compile_text(alloc, text), out, err),
        Request::Validate(_) => deliver(alloc, validate_text(alloc, text), out, err),
        Request::Migrate(_) => deliver(alloc, migrate_text(alloc, text), out, err),
        Request::Run(_, options) => run_text(alloc, text, options, out, err),
    }
}
