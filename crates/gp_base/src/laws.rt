//! Laws of the words that contracts speak.

ghost use Rattle.gp_base.specs.Clean.{WorldsStayClean};
ghost use Rattle.gp_base.specs.EventText.{TraceIsLines};
ghost use Rattle.gp_base.specs.World.{LiveBelowNext};

/// Every qubit that is live in a world is below the number that the next qubit gets.
pub fn live_below_next()
    ensures { LiveBelowNext }
{}

/// Every word that changes a world (what allocates, frees, measures, resets, applies a gate or takes a turn) does so by
/// events that are clean from the flags before it and leave the flags after it, from whatever world, also where it stops.
/// Such steps join, and they keep a world clean whose events are clean from the start, as a program's first world is.
pub fn worlds_stay_clean()
    ensures { WorldsStayClean }
{}

/// A trace has a line for each of its events, in order, and one for its end: no tag breaks a line or adds one.
pub fn trace_is_lines()
    ensures { TraceIsLines }
{}
