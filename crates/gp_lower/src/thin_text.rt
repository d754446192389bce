//! Thin texts: a fixed head, and then a line for each thing that is done with the qubit `q`.

ghost use Rattle.std.specs.Prelude.{◌≡◌, ◌≢◌, ℕ, List, ◌++◌, IfOk, IfSome, IfNone, MatchOption};
ghost use Rattle.gp_lower.specs.declared.thin_text.ThinLine.{ThinLine};
ghost use Rattle.gp_lower.specs.ThinText.{line_text, thin_text};

use gp_base::Sequence;
use std::alloc::{AllocError, Global};

// What every thin text begins with.
const HEAD: &[u8] = b"from guppylang import guppy
from guppylang.std.builtins import owned, result
from guppylang.std.quantum import qubit, h, x, z, cx, rz, measure, project_z, discard, reset
@guppy
def main() -> None:
    q = qubit()
";

/// A line of a thin text after its head. It is four spaces deep, and ends with a line feed.
#[derive(Clone, Copy, Debug, PartialEq, Eq)]
pub enum ThinLine {
    /// `h(q)`: the gate H on the qubit.
    H,
    /// `x(q)`: the gate X on the qubit.
    X,
    /// `discard(q)`: the qubit ends.
    Discard,
}

/// The lines of a thin text after its head, in order.
pub type ThinLines = Sequence<ThinLine>;

impl ThinLine {
    // The line's text, with its line feed.
    fn text(self) -> &'static [u8]
        ensures { result.now ≡ line_text self }
    {
        match self {
            ThinLine::H => b"    h(q)\n",
            ThinLine::X => b"    x(q)\n",
            ThinLine::Discard => b"    discard(q)\n",
        }
    }
}

// What follows `front` in a text; `None` exactly where the text doesn't begin with it.
fn after<'a>(text: &'a [u8], front: &[u8]) -> Option<&'a [u8]>
    ensures { MatchOption result
        ((rest : List ℕ) → text.now ≢ front.now ++ rest)
        (λ rest. text.now ≡ front.now ++ rest.now) }
{
    text.strip_prefix(front)
}

// The line that a text begins with, and what follows it.
fn first_line(text: &[u8]) -> Option<(ThinLine, &[u8])>
    ensures { MatchOption result
        ((line : ThinLine) (rest : List ℕ) → text.now ≢ line_text line ++ rest)
        (λ read. text.now ≡ line_text read.0 ++ read.1.now) }
{
    for line in [ThinLine::H, ThinLine::X, ThinLine::Discard] {
        if let Some(rest) = after(text, line.text()) {
            return Some((line, rest));
        }
    }
    None
}

/// The lines of a thin text after its head; `None` exactly where the text isn't thin. An error is want of
/// memory. Takes time in proportion to the text's length.
pub fn thin(alloc: Global, text: &[u8]) -> Result<Option<ThinLines>, AllocError>
    ensures lines { IfOk result (λ found. IfSome found (λ lines. text.now ≡ thin_text lines)) }
    ensures none { IfOk result
        (λ found. IfNone found ((lines : List ThinLine) → text.now ≢ thin_text lines)) }
{
    let Some(mut rest) = after(text, HEAD) else {
        return Ok(None);
    };
    let mut lines = Sequence::new(alloc);
    while !rest.is_empty() {
        let Some((line, following)) = first_line(rest) else {
            return Ok(None);
        };
        lines.push(line)?;
        rest = following;
    }
    Ok(Some(lines))
}
