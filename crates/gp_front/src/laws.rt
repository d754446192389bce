//! A law of source texts, carried by the contract of a function that does nothing.

ghost use Rattle.gp_front.specs.OneAnswer.{TextsHaveOneAnswer};

use gp_lex::laws::lines_or_fault;

/// A source text has one program with its scope and its types, or one first fault, and never both.
pub fn one_answer()
    ensures { TextsHaveOneAnswer }
{
    lines_or_fault();
}
