//! Why the program refuses, and the texts that it gives for that.

ghost use Rattle.std.specs.Prelude.{◌≡◌};
ghost use Rattle.guppy_call.specs.Refusal.{status_of};

use crate::status::Status;
use gp_base::LineNo;
use std::fmt;

/// A fault of a source text.
#[derive(Clone, Copy, Debug, PartialEq, Eq)]
pub enum SourceFault {
    /// A qubit is used that was given up before.
    GivenUp,
    /// A function returns while it holds a qubit.
    HeldAtReturn,
}

impl fmt::Display for SourceFault {
    ghost use Rattle.std.specs.Prelude.{Some};
    ghost use Rattle.guppy_call.specs.Refusal.{fault_text};

    ghost output = { λ fault. Some (fault_text fault) };

    fn fmt<W: fmt::Write>(&self, f: &mut fmt::Formatter<W>) -> fmt::Result {
        f.write_str(match self {
            SourceFault::GivenUp => "GivenUp",
            SourceFault::HeldAtReturn => "HeldAtReturn",
        })
    }
}

/// A fault of a graph text. Entries are counted from 0.
#[derive(Clone, Copy, Debug, PartialEq, Eq)]
pub enum GraphFault {
    /// It isn't JSON.
    NotJson,
    /// It isn't an object with a version, nodes and edges.
    Top,
    /// It has another version.
    Version,
    /// This entry of its nodes isn't a node.
    Node(u64),
    /// This entry of its edges isn't a link.
    Link(u64),
}

impl fmt::Display for GraphFault {
    ghost use Rattle.std.specs.Prelude.{Some};
    ghost use Rattle.guppy_call.specs.Refusal.{graph_fault_text};

    ghost output = { λ fault. Some (graph_fault_text fault) };

    fn fmt<W: fmt::Write>(&self, f: &mut fmt::Formatter<W>) -> fmt::Result {
        match self {
            GraphFault::NotJson => f.write_str("NotJson"),
            GraphFault::Top => f.write_str("Top"),
            GraphFault::Version => f.write_str("Version"),
            GraphFault::Node(number) => write!(f, "Shape node {number}"),
            GraphFault::Link(number) => write!(f, "Shape link {number}"),
        }
    }
}

/// Why a call of the program is refused. Its text, with a line feed, is what standard error gets.
#[derive(Clone, Copy, Debug, PartialEq, Eq)]
pub enum Refusal {
    /// The words of the command line have no meaning.
    WordsNotUnderstood,
    /// Opening or reading the input failed.
    ReadFault,
    /// The input has more bytes than the mode's limit.
    TooLong,
    /// The input has a form that isn't served yet.
    NotBuilt,
    /// The source text has a fault on this line.
    Source(LineNo, SourceFault),
    /// The graph text has this fault.
    Graph(GraphFault),
    /// The graph breaks the rule of this number, from 1 to 15, at the node of this number.
    Rule(u8, u64),
    /// The graph has no function of the name that is to be run.
    NoEntry,
    /// The function that is to be run has inputs, or a linear output.
    EntryNotClosed,
}

impl fmt::Display for Refusal {
    ghost use Rattle.std.specs.Prelude.{Some};
    ghost use Rattle.guppy_call.specs.Refusal.{refusal_text};

    ghost output = { λ refusal. Some (refusal_text refusal) };

    fn fmt<W: fmt::Write>(&self, f: &mut fmt::Formatter<W>) -> fmt::Result {
        match self {
            Refusal::WordsNotUnderstood => f.write_str("guppy: words not understood"),
            Refusal::ReadFault => f.write_str("guppy: read fault"),
            Refusal::TooLong => f.write_str("guppy: input too long"),
            Refusal::NotBuilt => f.write_str("guppy: form not built yet"),
            Refusal::Source(line, fault) => {
                let number = line.0;
                write!(f, "line {number}: {fault}")
            }
            Refusal::Graph(fault) => write!(f, "graph: {fault}"),
            Refusal::Rule(rule, node) => {
                let (rule, node) = (*rule, *node);
                write!(f, "graph: rule {rule} node {node}")
            }
            Refusal::NoEntry => f.write_str("entry: NoEntry"),
            Refusal::EntryNotClosed => f.write_str("entry: EntryNotClosed"),
        }
    }
}

impl Refusal {
    /// The status of a call that is refused so.
    pub fn status(self) -> Status
        ensures { result ≡ status_of self }
    {
        match self {
            Refusal::WordsNotUnderstood => Status::Words,
            Refusal::ReadFault => Status::ReadFault,
            Refusal::TooLong
            | Refusal::NotBuilt
            | Refusal::Source(_, _)
            | Refusal::Graph(_)
            | Refusal::Rule(_, _)
            | Refusal::NoEntry
            | Refusal::EntryNotClosed => Status::Refused,
        }
    }
}
