//! Tables of texts.

use crate::escapes::push_repeated;
use crate::malformed::Malformed;
use std::alloc::Global;

/// A row of a table.
#[derive(Drop)]
pub struct Row<'a> {
    /// The row's name.
    pub name: &'a str,
    /// What is told of its text, as the line `tell` above it says.
    pub told: &'a str,
    /// Its text.
    pub text: Vec<u8>,
}

// A text that rows can begin with.
#[derive(Drop)]
struct Head<'a> {
    name: &'a str,
    text: Vec<u8>,
}

// What the next text is added to.
#[derive(Clone, Copy)]
enum Open {
    Nothing,
    Head,
    Row,
}

/// A table, as far as it was read.
#[derive(Drop)]
pub struct Table<'a> {
    alloc: Global,
    rows: Vec<Row<'a>>,
    heads: Vec<Head<'a>>,
    open: Open,
    told: Option<&'a str>,
    // What the texts of the next rows begin with.
    beginning: Vec<u8>,
}

// A list of bytes of its own with these bytes.
fn copied(alloc: Global, bytes: &[u8]) -> Result<Vec<u8>, Malformed> {
    let mut copy = Vec::new(alloc);
    copy.extend_from_slice(bytes)?;
    Ok(copy)
}

impl<'a> Table<'a> {
    /// The rows of a table; or the number of the first line that can't be read, and why.
    pub fn read(alloc: Global, text: &'a str) -> Result<Table<'a>, (u64, Malformed)> {
        let mut table = Table {
            alloc,
            rows: Vec::new(alloc),
            heads: Vec::new(alloc),
            open: Open::Nothing,
            told: None,
            beginning: Vec::new(alloc),
        };
        let mut number: u64 = 0;
        for line in text.lines() {
            number = number.saturating_add(1);
            match table.read_line(line) {
                Ok(()) => {}
                Err(fault) => return Err((number, fault)),
            }
        }
        Ok(table)
    }

    /// The rows that were read, in order.
    pub fn rows(&self) -> &[Row<'a>] {
        self.rows.as_slice()
    }

    // Reads one line on.
    fn read_line(&mut self, line: &'a str) -> Result<(), Malformed> {
        if line.is_empty() || line.starts_with('#') {
            return Ok(());
        }
        if let Some(text) = line.strip_prefix('|') {
            let mut added = copied(self.alloc, text.as_bytes())?;
            added.push(b'\n')?;
            return self.add_text(&added);
        }
        if let Some(text) = line.strip_prefix('+') {
            return self.add_repeated(text, 1);
        }
        if let Some(rest) = line.strip_prefix('*') {
            let (count, text) = rest.split_once(' ').ok_or(Malformed::NoCount)?;
            let count = count.parse::<u32>().ok().ok_or(Malformed::NoCount)?;
            return self.add_repeated(text, count);
        }
        self.read_words(line)
    }

    // Reads a line that begins with a word.
    fn read_words(&mut self, line: &'a str) -> Result<(), Malformed> {
        let (word, rest) = line.split_once(' ').ok_or(Malformed::UnknownLine)?;
        match word {
            "tell" => self.told = Some(rest),
            "head" => self.begin_head(rest)?,
            "under" => self.begin_under(rest)?,
            "row" => self.begin_row(rest)?,
            _ => return Err(Malformed::UnknownLine),
        }
        Ok(())
    }

    fn begin_head(&mut self, name: &'a str) -> Result<(), Malformed> {
        let text = Vec::new(self.alloc);
        self.heads.push(Head { name, text })?;
        self.open = Open::Head;
        Ok(())
    }

    fn begin_under(&mut self, name: &str) -> Result<(), Malformed> {
        self.open = Open::Nothing;
        self.beginning = self.head_text(name)?;
        Ok(())
    }

    // The text of the head of this name.
    fn head_text(&self, name: &str) -> Result<Vec<u8>, Malformed> {
        if name == "nothing" {
            return Ok(Vec::new(self.alloc));
        }
        for head in self.heads.as_slice() {
            if head.name == name {
                return copied(self.alloc, head.text.as_slice());
            }
        }
        Err(Malformed::UnknownHead)
    }

    // A row's name, and what it shows, which nobody reads but people.
    fn begin_row(&mut self, rest: &'a str) -> Result<(), Malformed> {
        let (name, shows) = rest.split_once(": ").ok_or(Malformed::RowWithoutColon)?;
        if name.is_empty() || shows.is_empty() {
            return Err(Malformed::RowWithoutColon);
        }
        let told = self.told.ok_or(Malformed::NothingTold)?;
        let text = copied(self.alloc, self.beginning.as_slice())?;
        self.rows.push(Row { name, told, text })?;
        self.open = Open::Row;
        Ok(())
    }

    fn add_repeated(&mut self, text: &str, count: u32) -> Result<(), Malformed> {
        let mut added = Vec::new(self.alloc);
        push_repeated(&mut added, text, count)?;
        self.add_text(&added)
    }

    // Adds to the text of the head or of the row that is open.
    fn add_text(&mut self, added: &[u8]) -> Result<(), Malformed> {
        match self.open {
            Open::Nothing => return Err(Malformed::TextOfNothing),
            Open::Head => {
                if let Some(head) = self.heads.last_mut() {
                    head.text.extend_from_slice(added)?;
                }
            }
            Open::Row => {
                if let Some(row) = self.rows.last_mut() {
                    row.text.extend_from_slice(added)?;
                }
            }
        }
        Ok(())
    }
}
