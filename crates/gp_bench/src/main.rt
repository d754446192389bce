//! The program that the benchmarks of the front end time: it checks the source text on its standard input, and says whether
//! the text passes. With the word `run` it also runs the text's function `main`, without outcomes, and says how the run
//! ends.
#![tactic(auto)]

ghost use Rattle.std.specs.Prelude.{◌≤◌, length};

use gp_base::{Events, SOURCE_LIMIT};
use gp_evaluator::{EvalFault, SourceEnd, evaluate};
use gp_front::{CheckedText, TextFault, check_text};
use std::alloc::Global;
use std::fmt::{self, Display, Formatter, Write};
use std::rt::Env;
use std::{env, io};

// How often loops may come back and functions may be called.
const TURNS: u64 = 1_000_000_000;

// What was found of a text.
#[derive(Drop)]
enum Verdict {
    Passes,
    Ran(SourceEnd),
    NotRun(EvalFault),
    Refused(TextFault),
    TooLong,
}

impl Display for Verdict {
    fn fmt<W: Write>(&self, f: &mut Formatter<W>) -> fmt::Result {
        match self {
            Verdict::Passes => write!(f, "passes"),
            Verdict::Ran(end) => write!(f, "ran: {end:?}"),
            Verdict::NotRun(fault) => write!(f, "not run: {fault:?}"),
            Verdict::Refused(fault) => write!(f, "refused: {fault:?}"),
            Verdict::TooLong => write!(f, "too long"),
        }
    }
}

// How the run of `main` ends.
fn run_of(alloc: Global, text: &[u8]) -> Verdict
    requires { length text.now ≤ SOURCE_LIMIT }
{
    let checked = match check_text(alloc, text) {
        Ok(checked) => checked,
        Err(fault) => return Verdict::Refused(fault),
    };
    let CheckedText { program, scope, .. } = &checked;
    let mut events = Events::new(alloc);
    match evaluate(alloc, program, scope, "main", TURNS, &[], &mut events) {
        Ok(end) => Verdict::Ran(end),
        Err(fault) => Verdict::NotRun(fault),
    }
}

// Whether a text passes, and where it is run how that ends.
fn verdict_of(alloc: Global, text: &[u8], run: bool) -> Verdict {
    if text.len() > SOURCE_LIMIT {
        return Verdict::TooLong;
    }
    if run {
        return run_of(alloc, text);
    }
    match check_text(alloc, text) {
        Ok(_) => Verdict::Passes,
        Err(fault) => Verdict::Refused(fault),
    }
}

// Whether the words ask for a run.
fn asks_for_run<R: Env + AllocGlobal>(rt: &R) -> bool {
    let Ok(mut words) = env::args(rt) else {
        return false;
    };
    match words.nth(1) {
        Some(word) => word.as_str() == "run",
        None => false,
    }
}

fn main(rt: HostRuntime) -> io::Result<()> {
    let run = asks_for_run(&rt);
    let text = io::read_to_string(rt.alloc(), rt.stdin())?;
    println!(rt; "{}", verdict_of(rt.alloc(), text.as_bytes(), run))
}
