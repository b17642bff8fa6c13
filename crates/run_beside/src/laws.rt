//! Laws of two runs side by side.
//!
//! Each function here does nothing: its contract is the law, and its proof proves it. So a law can be
//! cited like any other contract.
ghost use Rattle.run_beside.specs.Agreeing.{AgreeingGroupsRespondAlike, AgreeingGroupsMoveAlike, UnlistedGroupsMoveAlike, InputNodesMoveAlike, StepsByDifference};
ghost use Rattle.run_beside.specs.Noticing.{StepsKeepApart};
ghost use Rattle.run_beside.specs.Beside.{StepsStayBeside, PlacingStaysBeside};
ghost use Rattle.run_beside.specs.Replacing.{RestingStatesStay, SettledStatesStay, ReplacedStatesSettle, LaterReplacementsReplace, LaterReplacementsFollow};

/// A group that stands alike in two graphs, and whose members and read nodes have the same states, has the
/// same steady states in both, and moves alike, in plain steps and in joining ones.
///
/// After Bryant and Schuster, "Performance Evaluation of FMOSSIM, a Concurrent Switch-Level Fault
/// Simulator", 1985.
pub fn agreeing_groups_move_alike()
    ensures responds { AgreeingGroupsRespondAlike }
    ensures moves { AgreeingGroupsMoveAlike }
    ensures unlisted { UnlistedGroupsMoveAlike }
    ensures inputs { InputNodesMoveAlike }
{}

/// A run under a fault takes a step if each node follows the good run's step in a group on which both
/// agree, takes its steady state, or stays at rest.
///
/// After Bryant and Schuster, "Performance Evaluation of FMOSSIM, a Concurrent Switch-Level Fault
/// Simulator", 1985.
pub fn steps_by_difference()
    ensures { StepsByDifference }
{}

/// Every part is apart that a node concerns which differs, and so it stays in a step that takes over the good run's
/// changes if nodes follow, writes those of parts that are apart, and puts apart what these concern.
pub fn steps_keep_apart()
    ensures { StepsKeepApart }
{}

/// Each group of a fault's graph follows the good run, is marked, or rests, and so it stays in steps and if
/// nodes are placed, if the marks follow.
pub fn runs_stay_beside()
    ensures steps { StepsStayBeside }
    ensures places { PlacingStaysBeside }
{}

/// A state at rest stays, in plain steps and in joining ones; and a settled one is what any number of further
/// replacements leads to, plain ones up to the limit and then joining ones. If these lead to a state that the next one
/// leaves, it settled there.
pub fn settled_states_stay()
    ensures rests { RestingStatesStay }
    ensures settled { SettledStatesStay }
    ensures replaced { ReplacedStatesSettle }
{}

/// Replacements of which each is of the kind that its number says are those of a phase, plain ones up to the limit and then joining
/// ones; some and then others are as many as both together.
pub fn replacements_add_up()
    ensures replace { LaterReplacementsReplace }
    ensures follow { LaterReplacementsFollow }
{}
