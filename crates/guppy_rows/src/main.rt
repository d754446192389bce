//! What the program `guppy` answers to tables of calls: a program that reads tables from the files that its words name, and
//! prints what each row's calls came to, under the name of the row's file. The file `stdout` has what is wanted: it is written
//! by hand, from the rules of the language and of graph texts.
//!
//! The lines of a table are those of `row_table`. A row's text is what the file `f.py` holds, which is the one file that
//! there is. Behind `tell` stand the words of a call without the program's name, with one blank between two words. A word
//! `FRONT*COUNT:TEXT` is FRONT and TEXT COUNT times behind it, and `""` a word of no characters; `(name)` stands for no
//! further word, and `(nothing)` for no word at all. `; ` parts two calls, of which the second finds in the file what the
//! first wrote to its output. In front of the words may stand, in this order:
//!
//! - `each prefix: `: the calls are made with each shorter text from the front of the row's text in place of it, and what they
//!   come to is told where it isn't what those with the text before came to;
//! - `read fault N: `, `write fault N: ` or `err fault N: `: the call N on files, on standard output or on standard error fails,
//!   counted from 0;
//! - `input: `: the one file that there is has the name `-`, which is that of standard input.
//!
//! For each call a line has the name of its status. What it wrote comes behind it: `out |TEXT` is a line of standard output with
//! its line feed, `out +TEXT` the rest behind the last line feed, and `err` says the same of standard error.
#![tactic(auto)]

mod calls;
mod outcome;
mod words;

use crate::calls::plan_of;
use crate::outcome::told_calls;
use anyhow::{Result, anyhow};
use row_table::Table;
use std::alloc::Global;
use std::rt::{Env, Files};
use std::{env, fs};

// Prints what the calls of each row of the table in this file came to.
fn print_table<R: Files + Print + AllocGlobal>(rt: &R, alloc: Global, file: &str) -> Result<()> {
    let text = fs::read_to_string(rt, file)?;
    let table = match Table::read(alloc, text.as_str()) {
        Ok(table) => table,
        Err((line, fault)) => return Err(anyhow!("{file}, line {line}: {fault}")),
    };
    println!(rt; "{file}")?;
    for row in table.rows() {
        let Some(plan) = plan_of(row.told) else {
            return Err(anyhow!("{file}, row {}: no such calls", row.name));
        };
        let told = told_calls(alloc, plan, &row.text)?;
        for line in told.as_str().lines() {
            println!(rt; "{}: {line}", row.name)?;
        }
    }
    Ok(())
}

// Does so for each file that the words name.
fn run<R: Env + Files + Print + AllocGlobal>(rt: &R) -> Result<()> {
    for file in env::args(rt)?.skip(1) {
        print_table(rt, rt.alloc(), file.as_str())?;
    }
    Ok(())
}

fn main(rt: HostRuntime) -> Result<()> {
    run(&rt)
}
