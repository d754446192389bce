//! Laws of program graphs and their runs. Each function does nothing: its contract is the law.
#![tactic(auto)]

ghost use Rattle.hg_laws.specs.Fits.{NumbersFit};
ghost use Rattle.hg_laws.specs.FunctionSamples.{FunctionSamplesRun, FunctionSamplesAreSound};
ghost use Rattle.hg_laws.specs.Samples.{NumbersAre, SamplesRun, SamplesAreValid};
ghost use Rattle.hg_laws.specs.Laws.{ValidGraphsKeepPlaces, MomentsChangeNothing, ValidGraphsEndWell, RunsAreClean, ClosedRunsHoldNone, PicksChangeNothing, BoundsSuffice, RunsUnfold, AnyReadyFirst, ValidRegionsGoOn, OneIsBroken, ValidOrBroken, CalleesAreTyped, CallsTakeTurns};

/// In a valid graph, under any picks and from proper arguments, each moment of a run keeps these facts together: each
/// qubit that is live and was allocated in this run or came with its arguments occurs exactly once in the values at
/// unread linear output ports of the open regions, and no other qubit occurs there; each value in a fired list has its
/// port's type; the feeders of each node that has fired or runs are in the list, and so are the sources of its order
/// links; no node stands twice in a list, and a running child doesn't stand in it.
pub fn valid_graphs_keep_places()
    ensures { ValidGraphsKeepPlaces }
{}

/// The run that writes its moments down is the plain run.
pub fn moments_change_nothing()
    ensures { MomentsChangeNothing }
{}

/// A run of a valid graph from proper arguments is never stuck. Where it returns, the outputs have their types, the live
/// qubits of the run are those of its outputs, each of which stands there once, and no other qubit has changed.
pub fn valid_graphs_end_well()
    ensures { ValidGraphsEndWell }
{}

/// The events of a run of whatever graph name live qubits only, and none twice in a gate; they lead from the live
/// qubits before the run to those after it.
pub fn runs_are_clean()
    ensures { RunsAreClean }
{}

/// A function of a valid graph that has no inputs and no linear output holds no qubit where its run returns.
pub fn closed_runs_hold_none()
    ensures { ClosedRunsHoldNone }
{}

/// In a valid ordered graph the run under any picks is the run under none: the same events, the same end with the same
/// values, and the same world after it.
pub fn picks_change_nothing()
    ensures { PicksChangeNothing }
{}

/// More turns and a greater depth than a run needs change no run of a valid graph.
pub fn bounds_suffice()
    ensures { BoundsSuffice }
{}

/// The run of a node of a valid graph is what its op does with the runs of further nodes, without bounds.
pub fn runs_unfold()
    ensures { RunsUnfold }
{}

/// In a valid ordered graph a region may be run by firing any ready node first.
pub fn any_ready_first()
    ensures { AnyReadyFirst }
{}

/// A region of a valid graph goes on as its children fire one by one: values have their types, something is ready while a
/// child is to fire, and in the end its `Output` has its values.
pub fn valid_regions_go_on()
    ensures { ValidRegionsGoOn }
{}

/// Of a graph that isn't valid one rule and one node are named: the least rule that is broken, and the least node that
/// breaks it. None is in a valid graph.
pub fn one_is_broken()
    ensures { OneIsBroken }
{}

/// Each graph is valid, or has a least broken rule and a least node that breaks it.
pub fn valid_or_broken()
    ensures { ValidOrBroken }
{}

/// A value names a function that an indirect call runs exactly where it is of the type at the call's first input; the
/// function has the value's name and the types of the call.
pub fn callees_are_typed()
    ensures { CalleesAreTyped }
{}

/// Exactly the ops of which `hg_ops::takes_turn` says so take a turn each time that they fire: such a firing is stuck before
/// anything happens, or takes one turn and then runs a node.
pub fn calls_take_turns()
    ensures { CallsTakeTurns }
{}

/// Where the constants of a graph and the arguments of a run have whole numbers of 64 bits alone, so have the values that the
/// run returns. Constants of graphs in memory are such numbers by their type.
pub fn numbers_fit()
    ensures { NumbersFit }
{}

/// Whole numbers keep 64 bits with a sign, and are divided towards minus infinity.
pub fn numbers_are()
    ensures { NumbersAre }
{}

/// The runs of four small graphs under some turns, outcomes and picks.
pub fn samples_run()
    ensures { SamplesRun }
{}

/// These graphs are valid, and all but one of them are ordered: so the laws speak of something.
pub fn samples_are_valid()
    ensures { SamplesAreValid }
{}

/// The runs of six small graphs with functions as values: one that is loaded and called, one that is called twice, one that
/// is passed to a function, one that goes into the cases of a `Conditional`, one that a `Conditional` chooses, and two with
/// the same types that are told apart by name. A seventh calls a function that hasn't the types of the call, and is stuck.
pub fn function_samples_run()
    ensures { FunctionSamplesRun }
{}

/// The first six of these graphs are valid and ordered.
pub fn function_samples_are_sound()
    ensures { FunctionSamplesAreSound }
{}
