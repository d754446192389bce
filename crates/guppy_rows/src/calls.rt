//! What is called, with which texts in which file, and which of its calls outside fail.

/// A call outside that fails.
#[derive(Clone, Copy)]
pub enum Failing {
    /// Each call is served.
    Nothing,
    /// The call on files of this number, counted from 0.
    Read(u64),
    /// The call on standard output of this number, counted from 0.
    Write(u64),
    /// The call on standard error of this number, counted from 0.
    Refuse(u64),
}

/// Which texts the file holds at first, one after another.
#[derive(Clone, Copy)]
pub enum Texts {
    /// The row's text.
    Whole,
    /// Each shorter text from the front of it, the one of no bytes first.
    Prefixes,
}

/// The calls of a row.
#[derive(Clone, Copy)]
pub struct Plan<'a> {
    /// With which texts they are made.
    pub texts: Texts,
    /// What fails in each of them.
    pub failing: Failing,
    /// The name of the one file that there is.
    pub file: &'static str,
    /// Their words, with `; ` between two calls.
    pub calls: &'a str,
}

// The number in front of the words, and the words.
fn numbered(rest: &str) -> Option<(u64, &str)> {
    let (number, rest) = rest.split_once(": ")?;
    Some((number.parse().ok()?, rest))
}

// What fails, and what stands behind it.
fn failing_of(told: &str) -> Option<(Failing, &str)> {
    if let Some(rest) = told.strip_prefix("read fault ") {
        let (number, rest) = numbered(rest)?;
        return Some((Failing::Read(number), rest));
    }
    if let Some(rest) = told.strip_prefix("write fault ") {
        let (number, rest) = numbered(rest)?;
        return Some((Failing::Write(number), rest));
    }
    if let Some(rest) = told.strip_prefix("err fault ") {
        let (number, rest) = numbered(rest)?;
        return Some((Failing::Refuse(number), rest));
    }
    Some((Failing::Nothing, told))
}

// The name of the file, and what stands behind it.
fn file_of(told: &str) -> (&'static str, &str) {
    match told.strip_prefix("input: ") {
        Some(rest) => ("-", rest),
        None => ("f.py", told),
    }
}

// Which texts the file holds, and what stands behind it.
fn texts_of(told: &str) -> (Texts, &str) {
    match told.strip_prefix("each prefix: ") {
        Some(rest) => (Texts::Prefixes, rest),
        None => (Texts::Whole, told),
    }
}

/// The calls that a line `tell` asks for, if its number is one.
pub fn plan_of(told: &str) -> Option<Plan<'_>> {
    let (texts, told) = texts_of(told);
    let (failing, told) = failing_of(told)?;
    let (file, calls) = file_of(told);
    Some(Plan {
        texts,
        failing,
        file,
        calls,
    })
}
