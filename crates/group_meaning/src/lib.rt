//! Channel-connected groups of a switch graph, and the laws that make them what a steady state can
//! be found in.
//!
//! Two storage nodes are linked where switches join them, end to end, through storage nodes alone.
//! The classes are the groups, `AreGroups` in `specs/`, and each graph has one list of them. The
//! layers above use the law that an unblocked path stays in one group but for its root: so each group
//! can be analysed by itself.
//!
//! ```text
//! an inverter and a pass transistor behind it, with storage nodes a and b on both its sides:
//! a and b are linked, Gnd and Vdd are linked with nothing
//! ```
//!
//! For the proofs of crates above: `LinkLemmas`, linked nodes; `GroupLemmas`, members and switches of
//! a group; `StoragePaths`, unblocked paths over storage nodes; `UniqueGroups` and `ExistingGroups`,
//! that a graph has one list of groups. They cite `AscendingLists` and `MappedLists` too, whose heads
//! say what they are of.
//!
//! After Bryant, Beatty, Brace, Cho and Sheffler, "COSMOS: A Compiled Simulator for MOS Circuits",
//! 1987.
#![tactic(auto)]

ghost use Rattle.group_meaning.specs.Laws.{UnblockedPathsRunOverStorage, UnblockedPathsStayInOneGroup, InputNodesAreReachedFromThemselves, LinkedIsAnEquivalence, GroupsExist, GroupsAreUnique};

/// An unblocked path stays in one group.
///
/// `storage`: every node after its root is a storage node. `group`: all storage nodes on it, its
/// root too if it is one, are in one group. So what is outside a group acts on it by the states
/// of input nodes at its ends and of the gates of its switches alone.
///
/// After Bryant, Beatty, Brace, Cho and Sheffler, "COSMOS: A Compiled Simulator for MOS Circuits",
/// 1987.
pub fn unblocked_paths_stay_in_one_group()
    ensures storage { UnblockedPathsRunOverStorage }
    ensures group { UnblockedPathsStayInOneGroup }
{}

/// An input node is reached from itself alone, by its own empty path, so it keeps its state.
///
/// Bryant, "A Switch-Level Model and Simulator for MOS Digital Systems", 1984.
pub fn input_nodes_are_reached_from_themselves()
    ensures { InputNodesAreReachedFromThemselves }
{}

/// Linked is an equivalence on storage nodes, so that its classes are groups.
pub fn linked_is_an_equivalence()
    ensures { LinkedIsAnEquivalence }
{}

/// Every graph has its groups, and no others: the groups are determined by the graph.
///
/// `exist`: there is a list of groups with each storage node in one of them. `unique`: there is no
/// other such list, since groups stand in order of their least nodes, and members and switches
/// ascend. So a function that gives the groups of a graph has one right answer, and always one.
///
/// After Bryant, Beatty, Brace, Cho and Sheffler, "COSMOS: A Compiled Simulator for MOS Circuits",
/// 1987.
pub fn groups_exist()
    ensures exist { GroupsExist }
    ensures unique { GroupsAreUnique }
{}
