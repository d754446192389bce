//! What is told of a text.

/// What is told of a row's text.
#[derive(Clone, Copy)]
pub enum Kind<'a> {
    /// The first fault of the whole text, or none.
    Faults,
    /// The logical lines with their tokens.
    Tokens,
    /// The forms of the lines.
    Forms,
    /// The names of these forms.
    FormNames,
    /// The items of the program.
    Items,
    /// The lines of these items.
    ItemLines,
    /// What names stand for.
    Scope,
    /// The types of structs and functions, and the usable names.
    Types,
    /// The events of a run, and how it ends.
    Run(Start<'a>),
}

/// How a run begins.
#[derive(Clone, Copy)]
pub struct Start<'a> {
    /// The name of the function that is run.
    pub entry: &'a str,
    /// How often a loop may come back and a function may be called.
    pub turns: u64,
    /// The outcomes of the measurements in their order, `0` or `1` for each.
    pub outcomes: &'a str,
}

// How the run begins that these words tell: the function, the turns, and the outcomes where there are any.
fn start_of(words: &str) -> Option<Start<'_>> {
    let (entry, rest) = words.split_once(' ')?;
    let (turns, outcomes) = rest.split_once(' ').unwrap_or((rest, ""));
    let turns = turns.parse().ok()?;
    Some(Start {
        entry,
        turns,
        outcomes,
    })
}

/// The kind that these words name.
pub fn kind_of(words: &str) -> Option<Kind<'_>> {
    if let Some(("run", rest)) = words.split_once(' ') {
        return Some(Kind::Run(start_of(rest)?));
    }
    match words {
        "faults" => Some(Kind::Faults),
        "tokens" => Some(Kind::Tokens),
        "forms" => Some(Kind::Forms),
        "form_names" => Some(Kind::FormNames),
        "items" => Some(Kind::Items),
        "item_lines" => Some(Kind::ItemLines),
        "scope" => Some(Kind::Scope),
        "types" => Some(Kind::Types),
        _ => None,
    }
}
