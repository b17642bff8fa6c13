//! Laws of settling, over all graphs and all states.
//!
//! Each function here does nothing: its contract is the law, and its proof proves it. So a law can
//! be cited like any other contract.
ghost use Rattle.std.specs.Prelude.{◌≡◌};
ghost use Rattle.settling.specs.Laws.{EveryStateSettles, JoiningStepsMakeX, SettlingIsUnique};
ghost use Rattle.settling.specs.PassingLaws.{EveryStatePasses, PassingIsUnique, PassingSettles, SettlingPasses};
ghost use Rattle.settling.specs.Recurring.{StatesThatComeBackRecur};
ghost use Rattle.settling.specs.declared.settling.TheConstants.{MOST_LIMIT};

/// Every state of a graph settles, under every limit.
///
/// The unit steps end at the limit at the latest, and the joining steps after them end because each
/// one that changes something makes some storage node X that wasn't. The state has one entry for
/// each node.
pub fn every_state_settles()
    ensures { EveryStateSettles }
{}

/// A joining step that changes something makes some storage node X that wasn't.
///
/// An input node's steady state is its own state, so it never changes. On this one fact rests the
/// bound of `settle`: no more joining steps change something than there are storage nodes.
pub fn joining_steps_make_x()
    ensures { JoiningStepsMakeX }
{}

/// A state settles in one way alone, so that settling is a function of the graph, the state and the
/// limit, though it is defined as a relation: any two steppers that fit the graph settle alike.
pub fn settling_is_unique()
    ensures { SettlingIsUnique }
{}

/// The states that a state passes through say how it settles: in the last of them, after as many
/// steps as there are of them.
pub fn passing_settles()
    ensures { PassingSettles }
{}

/// Whatever settles passes through states, as many as it takes steps, and ends in the last of them.
pub fn settling_passes()
    ensures { SettlingPasses }
{}

/// A state passes through one list of states alone.
pub fn passing_is_unique()
    ensures { PassingIsUnique }
{}

/// Every state of a graph passes through states, under every limit.
pub fn every_state_passes()
    ensures { EveryStatePasses }
{}

/// From a state that comes back after some unit steps the same steps lead to it again, as often as one likes, and
/// what follows then counts on. So what is left of a limit may be passed over in whole rounds.
pub fn states_that_come_back_recur()
    ensures { StatesThatComeBackRecur }
{}

/// A law: the limit of a phase is at most 1,000,000.
pub fn limits_are_as_stated()
    ensures { MOST_LIMIT ≡ 1000000 }
{}
