//! Laws of a machine's steps, over all machines and all graphs.
//!
//! Each function here does nothing: its contract is the law, and its proof proves it. So a law can be
//! cited like any other contract.
ghost use Rattle.machine_laws.specs.Columns.{ColumnsStepApart, ColumnsJoinApart, MarkedMachinesFit, EditsKeepColumns, EditsAddNoTexts, FinishesKeepColumns, FittingMachinesFitAll};
ghost use Rattle.machine_laws.specs.Laws.{StepsAreUnitSteps, JoiningStepsAreJoinSteps, PlacingKeepsCover, PlacingKeepsFit, AlikeGroupsKeepTheirParts, EmptyPlacesAreCovered, EmptyPlacesKeepTexts, BuiltTextsAreKept, MoreTextsAreKept, StepsKeepTexts, PlacingKeepsTexts, FittingMachinesShareTexts, EditsKeepTexts};

/// A step of a machine that fits a graph is the unit step of the graph, and the machine fits the graph
/// afterwards; `joining` says the same of joining steps.
///
/// It rests on the law that a group rests where its members took their steady states and no node that it
/// reads changed.
pub fn steps_are_unit_steps()
    ensures plain { StepsAreUnitSteps }
    ensures joining { JoiningStepsAreJoinSteps }
{}

/// The same holds in each column of a machine of columns, whose parts and marks serve all columns: there more
/// parts may be marked than a column's own step marks.
///
/// `marked`: where all parts are marked, a machine that fits a graph fits it with any sound state.
#[tactic(auto, using(crate::proofs::FittingLemmas::marked_machines_fit))]
pub fn columns_step_apart()
    ensures plain { ColumnsStepApart }
    ensures joining { ColumnsJoinApart }
    ensures marked { MarkedMachinesFit }
{}

/// The columns of a machine stay through edits, if no group is stepped by vicinities.
///
/// `edited`: a column covers the graph after an edit, if the parts are marked that came behind the others and no mark
/// is lost. `untold`: no stale part has a text, if none had one. `finished`: a column fits the graph once the stale parts have
/// their codes. `fitting`: no group of a graph that such a machine fits is too large for a text.
pub fn columns_stay_through_edits()
    ensures edited { EditsKeepColumns }
    ensures untold { EditsAddNoTexts }
    ensures finished { FinishesKeepColumns }
    ensures fitting { FittingMachinesFitAll }
{}

/// A machine that covers or fits a graph does so after a node was placed: the parts that have the node as
/// a member or read it are marked.
pub fn placing_keeps_fits()
    ensures covers { PlacingKeepsCover }
    ensures fits { PlacingKeepsFit }
{}

/// The part of a group is its part in each graph that shares the group, with the same switches at the same
/// places and the same levels of its members.
///
/// So a change of a graph that leaves a group as it is leaves its part.
pub fn alike_groups_keep_their_parts()
    ensures { AlikeGroupsKeepTheirParts }
{}

/// An empty place at the end of a graph changes neither what a machine covers nor the texts whose codes its
/// parts have.
pub fn empty_places_are_covered()
    ensures covers { EmptyPlacesAreCovered }
    ensures texts { EmptyPlacesKeepTexts }
{}

/// The texts whose codes a machine's parts have are kept from its build on, whatever happens to it.
///
/// `built`: after a build, or after stale parts got their codes. `more`: after more texts were kept.
/// `step`, `placed`: after a step, and after a node was placed. `shared`: after anything that leaves a machine
/// that fits a graph as one that fits it, as settling does. `edited`: after an edit.
#[tactic(auto, using(crate::proofs::KeptLemmas::more_texts_are_kept, crate::proofs::KeptLemmas::steps_keep_texts, crate::proofs::KeptLemmas::placing_keeps_texts))]
pub fn machines_have_kept_texts()
    ensures built { BuiltTextsAreKept }
    ensures more { MoreTextsAreKept }
    ensures step { StepsKeepTexts }
    ensures placed { PlacingKeepsTexts }
    ensures shared { FittingMachinesShareTexts }
    ensures edited { EditsKeepTexts }
{}
