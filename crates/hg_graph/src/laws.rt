//! Laws of thin graphs: functions without parameters, whose contracts are the laws.

ghost use Rattle.hg_graph.specs.Thin.{ThinGraphsAreLinked, ThinGraphsRun};

/// In every world and under every list of picks the `main` of a thin graph returns, with the events of
/// its gates on the world's next qubit, which has ended by then. One pick is taken for each node that
/// fires.
pub fn thin_graphs_run()
    ensures { ThinGraphsRun }
{}

/// In a thin graph each value input port and each linear value output port has exactly one link.
pub fn thin_graphs_are_linked()
    ensures { ThinGraphsAreLinked }
{}
