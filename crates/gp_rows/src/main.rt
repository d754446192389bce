//! What the front end says of tables of source texts: a program that reads tables from the files that its words name, and
//! prints a line `NAME: ANSWER` for each answer to a row, under the name of the row's file. The file `stdout` has what is
//! wanted: it is written by hand, from the rules of the language.
//!
//! The lines of a table are those of `row_table`, and behind `tell` stands a KIND:
//!
//! | KIND | What is told |
//! |---|---|
//! | `faults` | `Ok`, or the first fault of the whole text |
//! | `tokens` | each logical line: its number, `@`, its indentation, and its tokens |
//! | `forms` | the form of each logical line, or that it has none |
//! | `form_names` | the same, the forms by their names alone |
//! | `items` | the items of the program that the lines nest to, functions with their statements |
//! | `item_lines` | the same, each by its lines alone |
//! | `scope` | what each item's names stand for, and the types that annotated assignments write |
//! | `types` | the types of structs, the signatures of functions, and the usable names before each outer statement |
//! | `run ENTRY TURNS OUTCOMES` | the events of the run of this function with these turns and outcomes (a digit for each, none at all behind the turns for none), and how it ends |
//!
//! In place of what a phase tells stands the fault of that phase or of one before it: `line N: CODE`, with the phase before the
//! code in `faults`.
#![tactic(auto)]

mod fault_text;
mod kind;
mod program_text;
mod run_text;
mod scope_text;
mod token_text;
mod told;
mod type_text;

use crate::kind::kind_of;
use crate::told::answer;
use anyhow::{Result, anyhow};
use row_table::Table;
use std::alloc::Global;
use std::rt::{Env, Files};
use std::{env, fs};

// Prints what is told of each row of the table in this file.
fn print_table<R: Files + Print + AllocGlobal>(rt: &R, alloc: Global, file: &str) -> Result<()> {
    let text = fs::read_to_string(rt, file)?;
    let table = match Table::read(alloc, text.as_str()) {
        Ok(table) => table,
        Err((line, fault)) => return Err(anyhow!("{file}, line {line}: {fault}")),
    };
    println!(rt; "{file}")?;
    for row in table.rows() {
        let Some(kind) = kind_of(row.told) else {
            return Err(anyhow!("{file}, row {}: no such thing can be told", row.name));
        };
        let said = answer(alloc, kind, &row.text)?;
        for line in said.as_str().lines() {
            println!(rt; "{}: {line}", row.name)?;
        }
    }
    Ok(())
}

// Does so for each file that the words name.
fn run<R: Env + Files + Print + AllocGlobal>(rt: &R) -> Result<()> {
    for file in env::args(rt)?.skip(1) {
        print_table(rt, rt.alloc(), file.as_str())?;
    }
    Ok(())
}

fn main(rt: HostRuntime) -> Result<()> {
    run(&rt)
}
