//! The text of events and of a run's end.

ghost use Rattle.std.specs.Prelude.{◌≡◌, ◌<◌, ◌≤◌, ◌+◌, ◌++◌, length, take, codes, decimal};
ghost use Rattle.std.specs.Fmt.{signed_decimal};
ghost use Rattle.gp_base.specs.EventText.{gate_text, outcome_text, truth_text, event_words, joined, event_line, end_text};

use crate::event::{End, Event, GateName};
use itoa::Buffer;
use std::marker::Model;

/// The room, in bytes, in which every line of an event fits.
pub const LINE_ROOM: usize = 320;

// The front of a line. A contract sees it as its bytes.
#[derive(Drop)]
struct Line {
    bytes: [u8; LINE_ROOM],
    len: usize,
}

impl Model for Line {
    ghost use Rattle.std.specs.Prelude.{◌≤◌, ℕ, List, take};
    ghost use Rattle.gp_base.specs.declared.event_text.TheConstants.{LINE_ROOM};

    ghost Value = { List ℕ };

    ghost view = { λ line. take line.len line.bytes };

    ghost invariant = { λ line. line.len ≤ LINE_ROOM };
}

impl Line {
    // A line that begins with a word.
    fn new(word: &[u8]) -> Line
        requires { length word.now ≤ LINE_ROOM }
        ensures { result ≡ word.now }
    {
        let mut bytes = [0; LINE_ROOM];
        bytes[..word.len()].copy_from_slice(word);
        Line {
            bytes,
            len: word.len(),
        }
    }

    // With more bytes at its end.
    fn push(&mut self, piece: &[u8])
        requires { length self.old + length piece.now ≤ LINE_ROOM }
        ensures { self.new ≡ self.old ++ piece.now }
    {
        let end = self.len + piece.len();
        self.bytes[self.len..end].copy_from_slice(piece);
        self.len = end;
    }

    // With a blank and a word at its end.
    fn word(mut self, word: &[u8]) -> Line
        requires { length self + length word.now < LINE_ROOM }
        ensures { result ≡ self ++ codes " " ++ word.now }
    {
        self.push(b" ");
        self.push(word);
        self
    }

    // With a blank and a qubit's number at its end.
    fn qubit(self, qubit: u64) -> Line
        requires { length self + 20 < LINE_ROOM }
        ensures text { result ≡ self ++ codes " " ++ decimal qubit }
        ensures short { length result ≤ length self + 21 }
    {
        self.word(Buffer::new().format(qubit).as_bytes())
    }

    // With a blank and a whole number at its end.
    fn number(self, n: i64) -> Line
        requires { length self + 20 < LINE_ROOM }
        ensures text { result ≡ self ++ codes " " ++ signed_decimal n }
        ensures short { length result ≤ length self + 21 }
    {
        self.word(Buffer::new().format(n).as_bytes())
    }
}

// The name of a gate.
fn gate_text(gate: GateName) -> &'static [u8]
    ensures text { result.now ≡ gate_text gate }
    ensures short { length result.now ≤ 7 }
{
    match gate {
        GateName::H => b"h",
        GateName::X => b"x",
        GateName::Y => b"y",
        GateName::Z => b"z",
        GateName::S => b"s",
        GateName::Sdg => b"sdg",
        GateName::T => b"t",
        GateName::Tdg => b"tdg",
        GateName::Cx => b"cx",
        GateName::Cy => b"cy",
        GateName::Cz => b"cz",
        GateName::Toffoli => b"toffoli",
        GateName::Rx => b"rx",
        GateName::Ry => b"ry",
        GateName::Rz => b"rz",
    }
}

// The outcome of a measurement.
fn outcome_text(outcome: bool) -> &'static [u8]
    ensures text { result.now ≡ outcome_text outcome }
    ensures short { length result.now ≤ 1 }
{
    if outcome { b"1" } else { b"0" }
}

// A truth value.
fn truth_text(truth: bool) -> &'static [u8]
    ensures text { result.now ≡ truth_text truth }
    ensures short { length result.now ≤ 5 }
{
    if truth { b"True" } else { b"False" }
}

// The words of an event.
fn event_words(event: &Event) -> Line
    ensures text { result ≡ joined (event_words event.now) }
    ensures short { length result < LINE_ROOM }
{
    match event {
        Event::Alloc(qubit) => Line::new(b"alloc").qubit(*qubit),
        Event::Free(qubit) => Line::new(b"free").qubit(*qubit),
        Event::MeasureFree(qubit, outcome) => Line::new(b"measure_free")
            .qubit(*qubit)
            .word(outcome_text(*outcome)),
        Event::Measure(qubit, outcome) => Line::new(b"measure")
            .qubit(*qubit)
            .word(outcome_text(*outcome)),
        Event::Reset(qubit) => Line::new(b"reset").qubit(*qubit),
        Event::Gate1(gate, qubit) => Line::new(gate_text(*gate)).qubit(*qubit),
        Event::Gate2(gate, first, second) => Line::new(gate_text(*gate))
            .qubit(*first)
            .qubit(*second),
        Event::Gate3(gate, first, second, third) => Line::new(gate_text(*gate))
            .qubit(*first)
            .qubit(*second)
            .qubit(*third),
        Event::Rotation(gate, qubit, angle) => Line::new(gate_text(*gate))
            .qubit(*qubit)
            .number(*angle),
        Event::ResultInt(tag, n) => Line::new(b"result").word(tag.as_bytes()).number(*n),
        Event::ResultBool(tag, truth) => Line::new(b"result")
            .word(tag.as_bytes())
            .word(truth_text(*truth)),
    }
}

/// Writes the event's line, with its line feed, at the front of `buf`, and answers its length in bytes. Takes no
/// memory, and always succeeds.
pub fn event_text(event: &Event, buf: &mut [u8; LINE_ROOM]) -> usize
    ensures len { result ≡ length (event_line event.now) }
    ensures fits { result ≤ LINE_ROOM }
    ensures text { take result buf.new ≡ event_line event.now }
{
    let mut line = event_words(event);
    line.push(b"\n");
    let Line { bytes, len } = line;
    *buf = bytes;
    len
}

/// The line of a run's end, without its line feed.
pub fn end_text(end: End) -> &'static str
    ensures { result.now ≡ end_text end }
{
    match end {
        End::Returned => "end return",
        End::TurnsUsed => "end turns",
        End::OutcomesUsed => "end outcomes",
        End::DivisionByZero => "end division",
    }
}
