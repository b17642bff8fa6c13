//! Laws of a machine beside a good run.
//!
//! Each function here does nothing: its contract is the law, and its proof proves it. So a law can be
//! cited like any other contract.
ghost use Rattle.beside.specs.Laws.{StepsFitBeside, MachinesStartBeside, PlacingFitsBeside, GoingBackFitsBeside};

/// A step of a machine beside a step of the good run, plain or joining, is a step of the fault's graph, and the machine fits
/// beside the good run again.
///
/// After Bryant and Schuster, "Performance Evaluation of FMOSSIM, a Concurrent Switch-Level Fault
/// Simulator", 1985.
pub fn steps_fit_beside()
    ensures { StepsFitBeside }
{}

/// A machine that fits the fault's graph fits beside any run, if all its parts are marked and apart. It goes on to if a node is
/// placed, and the parts are put apart that it concerns; and if parts go back whose groups stand alike in both graphs, that
/// aren't marked, and that no node concerns which differs.
pub fn machines_fit_beside()
    ensures starts { MachinesStartBeside }
    ensures places { PlacingFitsBeside }
    ensures goes_back { GoingBackFitsBeside }
{}
