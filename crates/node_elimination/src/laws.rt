//! Two laws on which the elimination rests, and one on the largest texts.
//!
//! Each function here does nothing: its contract is the law, and its proof proves it.

ghost use Rattle.std.specs.Prelude.{◌<◌, ◌≤◌, ◌^◌, length};
ghost use Rattle.switch_paths.specs.Graphs.{nodes};
ghost use Rattle.dual_rail.specs.declared.rails.TheConstants.{TOO_MANY_NODES};
ghost use Rattle.straight_code.specs.Code.{CodeData};
ghost use Rattle.group_text.specs.Texts.{GroupTextData, IsSmall};
ghost use Rattle.group_analysis.specs.Meaning.{MeansText, bound_of};
ghost use Rattle.node_elimination.specs.Words.{ReachedByPaths, DrivenByPaths, EliminationKeepsTheSolution};
ghost use Rattle.node_elimination.specs.declared.system.TheConstants.{TOO_MANY_UNKNOWNS};

/// The equations are the paths.
///
/// `definite`: a node is reached at a level exactly if a definite path of at least this strength leads to it.
/// `unblocked`: it is driven to a rail at a level exactly if an unblocked path of at least this strength leads
/// to it from a root that has the rail.
///
/// After Bryant, "Boolean Analysis of MOS Circuits", 1987.
pub fn equations_are_the_paths()
    ensures definite { ReachedByPaths }
    ensures unblocked { DrivenByPaths }
{}

/// Elimination keeps the least solution.
///
/// To eliminate the unknown k is to lay its edges past it and to hand on its right side: the edge
/// from i to j becomes "it, or the edges from i to k and from k to j", and the right side of i
/// becomes "it, or the edge from i to k and the right side of k". The least solution of the system
/// that is left is that of the whole one.
///
/// After Bryant, "Boolean Analysis of MOS Circuits", 1987.
pub fn elimination_keeps_the_solution()
    ensures { EliminationKeepsTheSolution }
{}

/// The text of a group that isn't too large reaches no bound past which an analysis answers lack of memory.
///
/// `nodes`, `unknowns`: it has fewer local nodes and members than have numbers. `gates`: the bound on the gates of
/// its formulas, which is that on its code's instructions, is at most 2^30. `code`: so code that means it has at most
/// so many inputs and instructions.
pub fn largest_texts_fit()
    ensures nodes { (text : GroupTextData) → IsSmall text → nodes text.graph < TOO_MANY_NODES }
    ensures unknowns { (text : GroupTextData) → IsSmall text → text.members < TOO_MANY_UNKNOWNS }
    ensures gates { (text : GroupTextData) → IsSmall text → bound_of text.graph text.members ≤ 2 ^ 30 }
    ensures code { (text : GroupTextData) (code : CodeData) → IsSmall text → MeansText text code
        → (code.inputs ≤ 2600) × (length code.instructions ≤ 2 ^ 30) }
{}
