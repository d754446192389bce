//! Laws of the texts, each carried by the contract of a function that does nothing.

ghost use Rattle.gp_lower.specs.ThinText.{OneReading};

/// A text is thin in at most one way.
#[tactic(auto, using(crate::proofs::ThinLemmas::one_reading))]
pub fn one_reading()
    ensures { OneReading }
{}
