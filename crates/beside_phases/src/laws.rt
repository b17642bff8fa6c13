//! Laws of phases beside those of a record.
//!
//! Each function here does nothing: its contract is the law, and its proof proves it. So a law can be
//! cited like any other contract.
ghost use Rattle.beside_phases.specs.Placing.{PlacingBothFitsBeside};
ghost use Rattle.beside_phases.specs.Recorded.{PhasesAreRecorded, PhasesStayRecorded, StepsAreRecorded};

/// A record that has a phase of the good run has its steps: the states behind the one with which it begins are those of a phase
/// under its limit. So it is with a unit step; and a record that goes on has the same phases.
pub fn phases_are_recorded()
    ensures phases { PhasesAreRecorded }
    ensures steps { StepsAreRecorded }
    ensures stay { PhasesStayRecorded }
{}

/// A machine fits beside a run again if a node is placed in both, the parts come apart that it concerns if it differs, and those of
/// the parts that are apart are marked that it concerns.
pub fn placing_in_both_fits_beside()
    ensures { PlacingBothFitsBeside }
{}
