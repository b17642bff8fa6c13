//! What a group reads, and where it rests.
//!
//! A group reads a node that is the gate of one of its switches, or an input node at an end of one. The
//! layer above uses the law `unread_groups_rest`: where each member took its steady state, and no node
//! that the group reads changed, each member's state is its steady state. So such a group needs no
//! evaluation until a node that it reads changes. The law `alike_groups_stay_alike` says what two graphs
//! that share a group say of it alike.
//!
//! ```text
//! an inverter a -> out: its group is out, and reads a, Gnd and Vdd
//! a is 0, out takes 1, and a stays: out rests
//! ```
//!
//! The proofs of crates above cite `AlikeGroups`, `ReadNodes` and `RestingGroups`, whose heads say
//! what they are of.
//!
//! After Bryant, "Boolean Analysis of MOS Circuits", 1987.
#![tactic(auto)]

ghost use Rattle.group_rest.specs.Rest.{UnreadGroupsRest};
ghost use Rattle.group_rest.specs.Alike.{AlikeGroupsHaveOneText, AlikeGroupsReadAlike, AlikeGroupsRestAlike};

/// A group rests where its members took their steady states and no node that it reads changed.
///
/// It doesn't matter how the rest of the state came about: not all nodes need to have taken their
/// steady states, nor all members in one step. A member that is a gate of the group is read too.
///
/// After Bryant, "Boolean Analysis of MOS Circuits", 1987.
pub fn unread_groups_rest()
    ensures { UnreadGroupsRest }
{}

/// A group that two graphs share, with the same switches at the same places and the same levels of its
/// members, has one text in both, over the same nodes; it reads the same nodes, and it rests in the same
/// states.
///
/// So a change of a graph that leaves a group as it is leaves all that was found of it.
///
/// After Beatty and Bryant, "Fast Incremental Circuit Analysis Using Extracted Hierarchy", 1988.
pub fn alike_groups_stay_alike()
    ensures texts { AlikeGroupsHaveOneText }
    ensures reads { AlikeGroupsReadAlike }
    ensures rests { AlikeGroupsRestAlike }
{}
