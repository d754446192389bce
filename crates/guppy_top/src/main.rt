//! The program `guppy`: compiles source texts of an integer profile of Guppy to program graphs, and runs them.
#![tactic(auto)]

mod real_files;
mod real_sink;

use gp_base::{Name, Names};
use guppy_call::{Status, guppy};
use real_files::RealFiles;
use real_sink::RealSink;
use std::alloc::AllocError;
use std::env;
use std::io::ErrorKind;
use std::process::ExitCode;
use std::rt::Env;

// The words of the command line, the program's name first. Where one isn't text there are none, which mean nothing.
fn words_of<R: Env + AllocGlobal>(rt: &R) -> Result<Names, AllocError> {
    let mut words = Names::new(rt.alloc());
    let given = match env::args(rt) {
        Ok(given) => given,
        Err(e) if e.kind() == ErrorKind::OutOfMemory => return Err(AllocError),
        Err(_) => return Ok(words),
    };
    for word in given {
        words.push(Name::new(rt.alloc(), word.as_str())?)?;
    }
    Ok(words)
}

fn main(rt: HostRuntime) -> ExitCode {
    let alloc = rt.alloc();
    let Ok(words) = words_of(&rt) else {
        return ExitCode::from(Status::Memory.code());
    };
    let mut files = RealFiles::new(&rt);
    let mut out = RealSink::new(rt.stdout());
    let mut err = RealSink::new(rt.stderr());
    let status = guppy(alloc, &words, &mut files, &mut out, &mut err);
    ExitCode::from(status.code())
}
