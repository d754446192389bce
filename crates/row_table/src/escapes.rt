//! Text with escapes, repeated.

use crate::malformed::Malformed;

// How far an escape was read.
#[derive(Clone, Copy)]
enum Escape {
    // No escape is open.
    Closed,
    // A backslash was read.
    Begun,
    // The first of two hexadecimal digits comes next.
    Byte,
    // The second one does, and the first was this.
    HalfByte(u8),
}

/// The greatest number of bytes of a text.
pub const TEXT_LIMIT: usize = 64 * 1024 * 1024;

/// Adds a text with escapes this many times, as long as the whole is no longer than a text may be.
pub fn push_repeated(out: &mut Vec<u8>, text: &str, count: u32) -> Result<(), Malformed> {
    for turn in 0..count {
        push_turn(out, text, u64::from(turn).saturating_add(1))?;
        if out.len() > TEXT_LIMIT {
            return Err(Malformed::TooLong);
        }
    }
    Ok(())
}

// Adds one repetition.
fn push_turn(out: &mut Vec<u8>, text: &str, turn: u64) -> Result<(), Malformed> {
    let mut escape = Escape::Closed;
    for byte in text.as_bytes() {
        escape = push_byte(out, escape, *byte, turn)?;
    }
    match escape {
        Escape::Closed => Ok(()),
        _ => Err(Malformed::UnknownEscape),
    }
}

// Reads one byte on, and adds what it completes.
fn push_byte(out: &mut Vec<u8>, escape: Escape, byte: u8, turn: u64) -> Result<Escape, Malformed> {
    match escape {
        Escape::Closed if byte == b'\\' => return Ok(Escape::Begun),
        Escape::Closed => out.push(byte)?,
        Escape::Begun if byte == b'x' => return Ok(Escape::Byte),
        Escape::Begun => push_special(out, byte, turn)?,
        Escape::Byte => return Ok(Escape::HalfByte(digit(byte)?)),
        Escape::HalfByte(high) => out.push(high.wrapping_mul(16).wrapping_add(digit(byte)?))?,
    }
    Ok(Escape::Closed)
}

// Adds what a byte behind a backslash stands for.
fn push_special(out: &mut Vec<u8>, byte: u8, turn: u64) -> Result<(), Malformed> {
    match byte {
        b'n' => out.push(b'\n')?,
        b'r' => out.push(b'\r')?,
        b't' => out.push(b'\t')?,
        b'\\' => out.push(b'\\')?,
        b'#' => push_number(out, turn)?,
        b'<' => push_number(out, turn.saturating_sub(1))?,
        b'>' => push_number(out, turn.saturating_add(1))?,
        b'_' => push_blanks(out, turn)?,
        _ => return Err(Malformed::UnknownEscape),
    }
    Ok(())
}

fn push_number(out: &mut Vec<u8>, number: u64) -> Result<(), Malformed> {
    let text = format!(in *out.allocator(); "{number}")?;
    out.extend_from_slice(text.as_bytes())?;
    Ok(())
}

fn push_blanks(out: &mut Vec<u8>, count: u64) -> Result<(), Malformed> {
    for _ in 0..count {
        out.push(b' ')?;
    }
    Ok(())
}

// The value of a hexadecimal digit.
fn digit(byte: u8) -> Result<u8, Malformed> {
    match byte {
        b'0'..=b'9' => Ok(byte.saturating_sub(b'0')),
        b'A'..=b'F' => Ok(byte.saturating_sub(b'A').saturating_add(10)),
        b'a'..=b'f' => Ok(byte.saturating_sub(b'a').saturating_add(10)),
        _ => Err(Malformed::UnknownEscape),
    }
}
