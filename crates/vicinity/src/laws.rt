ghost use Rattle.vicinity.specs.Laws.{UnblockedPathsStayInOneVicinity, OpenSwitchesDontMatter, NearNodesAreLinked, UnstirredVicinitiesRest, AsleepMembersRest};

/// An unblocked path stays in one vicinity, but for its root.
///
/// `vicinity`: all storage nodes on it are near each other, its root too if it is one. `open`: a node
/// has the same steady state without the open switches. `group`: near nodes are in one group.
///
/// After Bryant, "A Switch-Level Model and Simulator for MOS Digital Systems", 1984.
pub fn unblocked_paths_stay_in_one_vicinity()
    ensures vicinity { UnblockedPathsStayInOneVicinity }
    ensures open { OpenSwitchesDontMatter }
    ensures group { NearNodesAreLinked }
{}

/// A vicinity rests if its members took their steady states, and no switch at them and no input node at
/// its edge changed.
///
/// After Bryant, "A Switch-Level Model and Simulator for MOS Digital Systems", 1984.
pub fn unstirred_vicinities_rest()
    ensures { UnstirredVicinitiesRest }
{}

/// What no touched node is near rests, after a step of either kind and after a node was placed.
///
/// After Bryant, "A Switch-Level Model and Simulator for MOS Digital Systems", 1984.
pub fn asleep_members_rest()
    ensures { AsleepMembersRest }
{}
