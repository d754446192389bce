//! A law of names, carried by the contract of a function that does nothing.

ghost use Rattle.gp_scope.specs.NamesLaws.{NamesHaveOneAnswer};

/// The names of a program have exactly one first fault, or none and so a scope.
pub fn fault_or_scope()
    ensures { NamesHaveOneAnswer }
{}
