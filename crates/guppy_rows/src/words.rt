//! The words of a call.

use gp_base::{Name, Names};
use std::alloc::{AllocError, Global};

// What stands for a call without words, for one with the program's name alone, and for a word of no characters.
const NOTHING: &str = "(nothing)";

const NAME_ALONE: &str = "(name)";

const EMPTY_WORD: &str = "\"\"";

// The parts of a word `FRONT*COUNT:TEXT`.
fn repeated(word: &str) -> Option<(&str, u32, &str)> {
    let (front, rest) = word.split_once('*')?;
    let (count, text) = rest.split_once(':')?;
    Some((front, count.parse().ok()?, text))
}

// The word that is meant.
fn word_of(alloc: Global, word: &str) -> Result<Name, AllocError> {
    if word == EMPTY_WORD {
        return Name::new(alloc, "");
    }
    let Some((front, count, text)) = repeated(word) else {
        return Name::new(alloc, word);
    };
    let mut whole = String::from_str(alloc, front)?;
    for _ in 0..count {
        whole.push_str(text)?;
    }
    Name::new(alloc, whole.as_str())
}

/// The words of a call, the program's name first.
pub fn words_of(alloc: Global, call: &str) -> Result<Names, AllocError> {
    let mut words = Names::new(alloc);
    if call == NOTHING {
        return Ok(words);
    }
    words.push(Name::new(alloc, "guppy")?)?;
    if call == NAME_ALONE {
        return Ok(words);
    }
    for word in call.split(' ') {
        words.push(word_of(alloc, word)?)?;
    }
    Ok(words)
}
