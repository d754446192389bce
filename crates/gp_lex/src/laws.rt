//! Laws of the words that contracts speak.

ghost use Rattle.gp_lex.specs.Lines.{PiecesAreOne, LinesOrFault};

/// A text is spelled by at most one list of pieces, and the pieces' texts join to it.
pub fn pieces_are_one()
    ensures { PiecesAreOne }
{}

/// Bytes have exactly one list of logical lines, or exactly one first fault, and never both.
pub fn lines_or_fault()
    ensures { LinesOrFault }
{}
