//! What calls come to.

use crate::calls::{Failing, Plan, Texts};
use crate::words::words_of;
use anyhow::{Result, anyhow};
use gp_base::{MemoryFiles, MemorySink};
use guppy_call::guppy;
use std::alloc::Global;
use std::str;

// How many bytes each sink has room for.
const ROOM: usize = 1_000_000;

// Adds what was written to a stream of this name.
fn push_written(told: &mut String, stream: &str, bytes: &[u8]) -> Result<()> {
    let Ok(text) = str::from_utf8(bytes) else {
        return Err(anyhow!("{stream} has bytes that are no text"));
    };
    let whole = bytes.iter().filter(|byte| **byte == b'\n').count();
    for (k, line) in text.lines().enumerate() {
        told.push_str(stream)?;
        told.push_str(if k < whole { " |" } else { " +" })?;
        told.push_str(line)?;
        told.push('\n')?;
    }
    Ok(())
}

// Makes a call of a plan with this text in its file, adds what it came to, and gives what it wrote to its output.
fn push_call(
    told: &mut String,
    alloc: Global,
    plan: Plan<'_>,
    call: &str,
    text: &[u8],
) -> Result<Vec<u8>> {
    let words = words_of(alloc, call)?;
    let mut files = MemoryFiles::new(alloc);
    files.put(plan.file, text)?;
    let mut out = MemorySink::new(alloc, ROOM)?;
    let mut err = MemorySink::new(alloc, ROOM)?;
    match plan.failing {
        Failing::Nothing => {}
        Failing::Read(number) => files.fail_at(number)?,
        Failing::Write(number) => out.fail_at(number)?,
        Failing::Refuse(number) => err.fail_at(number)?,
    }
    let status = guppy(alloc, &words, &mut files, &mut out, &mut err);
    told.push_str(format!(in alloc; "{status:?}\n")?.as_str())?;
    push_written(told, "out", out.bytes())?;
    push_written(told, "err", err.bytes())?;
    Ok(Vec::from_slice(alloc, out.bytes())?)
}

// What the calls come to, one after another, where the file holds this text at first.
fn told_whole(alloc: Global, plan: Plan<'_>, text: &[u8]) -> Result<String> {
    let mut told = String::new(alloc);
    let mut held = Vec::from_slice(alloc, text)?;
    for call in plan.calls.split("; ") {
        held = push_call(&mut told, alloc, plan, call, &held)?;
    }
    Ok(told)
}

// The same for each shorter text from the front of this one, where it isn't what the one before it came to.
fn told_prefixes(alloc: Global, plan: Plan<'_>, text: &[u8]) -> Result<String> {
    let mut told = String::new(alloc);
    let mut before = String::new(alloc);
    for len in 0..text.len() {
        let now = told_whole(alloc, plan, &text[..len])?;
        if now.as_str() != before.as_str() {
            told.push_str(now.as_str())?;
            before = now;
        }
    }
    Ok(told)
}

/// What the calls of a plan come to with this text.
pub fn told_calls(alloc: Global, plan: Plan<'_>, text: &[u8]) -> Result<String> {
    match plan.texts {
        Texts::Whole => told_whole(alloc, plan, text),
        Texts::Prefixes => told_prefixes(alloc, plan, text),
    }
}
