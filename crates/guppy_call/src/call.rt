//! The top call: what the program does for the words of its command line.

ghost use Rattle.std.specs.Prelude.{◌≡◌, ◌≢◌, ◌⊎◌, ℕ, List, [], None};
ghost use Rattle.gp_base.specs.Outside.{Rose, IsMissing, Wrote};
ghost use Rattle.hg_graph.specs.Graph.{Graph};
ghost use Rattle.hg_graph.specs.Ordered.{IsOrdered};
ghost use Rattle.hg_graph.specs.Thin.{ThinGate};
ghost use Rattle.hg_json.specs.GraphText.{json};
ghost use Rattle.hg_valid.specs.Runs.{KeepsPlaces, RunsEndWell};
ghost use Rattle.gp_lower.specs.Thin.{complete_lines};
ghost use Rattle.guppy_words.specs.Meaning as mode;
ghost use Rattle.guppy_words.specs.Meaning.{Meaning, Running, meaning_of, file_read, request_view};
ghost use Rattle.guppy_call.specs.Call.{Answer, seen, refused, done, Delivers, Settles};
ghost use Rattle.guppy_call.specs.Compile.{IsThin, IsGraphOf};
ghost use Rattle.guppy_call.specs.GraphTexts.{IsValidText};
ghost use Rattle.guppy_call.specs.Modes.{limit_of, IsDueIn, IsRun};
ghost use Rattle.guppy_call.specs.RunDue.{IsDueRun, under};
ghost use Rattle.guppy_call.specs.WordsFile.{Means, FileHolds, FileMissing, RunsFile, AnswersFile};

use crate::answer::answer;
use crate::input::{InputError, read_input};
use crate::output::refuse;
use crate::refusal::Refusal;
use crate::status::Status;
use gp_base::{Files, Names, SOURCE_LIMIT, Sink};
use guppy_words::{Request, WordsError, request_of};
use hg_json::MAX_TEXT_BYTES;
use std::alloc::Global;

// The most bytes of an input.
fn limit_of(request: &Request<'_>) -> usize
    ensures { result ≡ limit_of (request_view request.now) }
{
    match request {
        Request::Compile(_) => SOURCE_LIMIT,
        Request::Validate(_) | Request::Migrate(_) | Request::Run(_, _) => MAX_TEXT_BYTES,
    }
}

// Reads the input that a request names, and does with it what the request asks for.
fn serve<F: Files, O: Sink, E: Sink>(
    alloc: Global,
    request: &Request<'_>,
    files: &mut F,
    out: &mut O,
    err: &mut E,
) -> Status
    ensures served { AnswersFile
        (IsDueIn (request_view request.now)) (limit_of (request_view request.now))
        (F.faults files.old) (F.faults files.new)
        (F.held files.old) (file_read (request_view request.now))
        (seen result (O.bytes out.old) (O.bytes out.new) (E.bytes err.old) (E.bytes err.new)) }
    ensures read_fault { result ≡ Status.ReadFault → Rose (F.faults files.old) (F.faults files.new)
        ⊎ IsMissing (F.held files.old) (file_read (request_view request.now)) }
    ensures write_fault { result ≡ Status.WriteFault
        → Rose (O.faults out.old) (O.faults out.new) ⊎ Rose (E.faults err.old) (E.faults err.new) }
    ensures memory { result ≡ Status.Memory → Wrote (E.bytes err.old) (E.bytes err.new) [] }
    ensures memory_out { result ≡ Status.Memory
        → IsRun (request_view request.now) ⊎ Wrote (O.bytes out.old) (O.bytes out.new) [] }
    ensures words { result ≢ Status.Words }
    ensures stopped { result ≡ Status.Stopped → IsRun (request_view request.now) }
{
    match read_input(alloc, files, request.file(), limit_of(request)) {
        Ok(text) => answer(alloc, request, &text, out, err),
        Err(InputError::Failed) => refuse(alloc, err, Refusal::ReadFault),
        Err(InputError::Memory) => Status::Memory,
    }
}

/// Does what the words of a command line mean, the program's name first, and answers the status for the
/// process. It reads from `files`, writes what was asked for to `out`, and writes why it refuses to `err`.
///
/// The words are those of one simple command of `clap`: a mode, maybe the name of a file, which else is `-`, and for `run` the
/// options `--entry`, `--turns`, `--outcomes` and `--picks`. What the clauses say of a text, they say of the text that the
/// words' file held at the start, where `files` tell their contents. A call that is refused writes nothing to `out`. Want of
/// memory may take the place of any other answer, and may end a run at any place.
pub fn guppy<F: Files, O: Sink, E: Sink>(
    alloc: Global,
    words: &Names,
    files: &mut F,
    out: &mut O,
    err: &mut E,
) -> Status
    // The words.
    ensures words { meaning_of words.now ≡ None → Delivers
        (seen result (O.bytes out.old) (O.bytes out.new) (E.bytes err.old) (E.bytes err.new))
        (refused Refusal.WordsNotUnderstood) }
    ensures words_cause { result ≡ Status.Words → meaning_of words.now ≡ None }

    // Reading.
    ensures read_fault { result ≡ Status.ReadFault
        → Rose (F.faults files.old) (F.faults files.new) ⊎ FileMissing words.now (F.held files.old) }
    ensures missing { FileMissing words.now (F.held files.old) → Delivers
        (seen result (O.bytes out.old) (O.bytes out.new) (E.bytes err.old) (E.bytes err.new))
        (refused Refusal.ReadFault) }

    // Each mode answers what is due for the text that its file holds; for each text that is exactly one answer.
    ensures answers { (meaning : Meaning) (text : List ℕ) (answer : Answer)
        → FileHolds meaning words.now (F.held files.old) text → IsDueIn meaning text answer
        → Settles (F.faults files.old) (F.faults files.new)
        (seen result (O.bytes out.old) (O.bytes out.new) (E.bytes err.old) (E.bytes err.new))
        answer }
    // It does so over any files, also such as don't tell their contents.
    ensures any_files { (meaning : Meaning) → Means words.now meaning
        → AnswersFile (IsDueIn meaning) (limit_of meaning)
        (F.faults files.old) (F.faults files.new) (F.held files.old) (file_read meaning)
        (seen result (O.bytes out.old) (O.bytes out.new) (E.bytes err.old) (E.bytes err.new)) }

    // What `compile` writes is a graph whose runs are those of the source.
    ensures compiled { (file text : List ℕ) (gates : List ThinGate)
        → FileHolds (mode.compile file) words.now (F.held files.old) text
        → IsThin text (complete_lines gates)
        → (g : Graph) × IsGraphOf gates g × Settles (F.faults files.old) (F.faults files.new)
        (seen result (O.bytes out.old) (O.bytes out.new) (E.bytes err.old) (E.bytes err.new))
        (done (json g)) }

    // In a run of a valid graph each qubit has one place at each step, and no run is stuck. Where the graph is ordered too,
    // what is due for a run under any other picks is answered as well: the trace is the same for all picks.
    ensures places { (text : List ℕ) (g : Graph) → IsValidText text g → KeepsPlaces g × RunsEndWell g }
    ensures picks { (file text : List ℕ) (running : Running) (g : Graph) (picks : List ℕ) (answer : Answer)
        → FileHolds (mode.run file running) words.now (F.held files.old) text
        → IsValidText text g → IsOrdered g → IsDueRun (under picks running) text answer
        → Settles (F.faults files.old) (F.faults files.new)
        (seen result (O.bytes out.old) (O.bytes out.new) (E.bytes err.old) (E.bytes err.new))
        answer }

    // Writing, memory and stops. Want of memory writes nothing to `err`, and to `out` only the front of a run's trace.
    ensures write_fault { result ≡ Status.WriteFault
        → Rose (O.faults out.old) (O.faults out.new) ⊎ Rose (E.faults err.old) (E.faults err.new) }
    ensures memory { result ≡ Status.Memory → Wrote (E.bytes err.old) (E.bytes err.new) [] }
    ensures memory_out { result ≡ Status.Memory
        → RunsFile words.now ⊎ Wrote (O.bytes out.old) (O.bytes out.new) [] }
    ensures stopped { result ≡ Status.Stopped → RunsFile words.now }
{
    match request_of(alloc, words) {
        Ok(request) => serve(alloc, &request, files, out, err),
        Err(WordsError::NoMeaning) => refuse(alloc, err, Refusal::WordsNotUnderstood),
        Err(WordsError::Memory) => Status::Memory,
    }
}
