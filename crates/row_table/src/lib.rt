//! Tables of texts for programs that print what is said of each text, so that what is wanted is a file of answers.
//!
//! A table is text, line by line. A line is one of these, or blank:
//!
//! | Line | What it does |
//! |---|---|
//! | `# ...` | nothing: a comment |
//! | `tell ...` | what is told of the rows below, up to the next such line; the program says what may stand there |
//! | `head NAME` | begins a text that the texts of rows can begin with |
//! | `under NAME` | the texts of the rows below begin with this head, up to the next such line; with `under nothing` they don't |
//! | `row NAME: ...` | begins a row; behind the colon stands what the row shows |
//! | `\|TEXT` | TEXT as it stands, and a line feed |
//! | `+TEXT` | TEXT with escapes, and no line feed |
//! | `*COUNT TEXT` | TEXT with escapes, COUNT times, and no line feed |
//!
//! The last three add to the head or to the row above them. The escapes are `\n` `\r` `\t`, `\xHH` (the byte with these two
//! hexadecimal digits), `\\`, and four that tell one repetition from the next: `\#` is its number, counted from 1, `\<` the
//! number before it, `\>` the number behind it, and `\_` as many blanks as its number says. A text has at most 64 MiB.
#![tactic(auto)]

mod escapes;
mod malformed;
mod table;

pub use escapes::TEXT_LIMIT;
pub use malformed::Malformed;
pub use table::{Row, Table};
