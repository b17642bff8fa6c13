//! What an edit leaves.

ghost use Rattle.channel_groups.specs.Laws.{EditsChangeTheirNodesAlone, UntouchedGroupsAreKept, EmptyPlacesChangeNoGroup};

/// An edit changes its own nodes alone, and leaves every group that it doesn't touch.
///
/// `differ`: between all other nodes stands what stood there, and they have their levels. `kept`: a
/// group of the graph now that isn't touched was a group before the edit; its switches stand where
/// they stood, and its members, and the nodes at the other ends of its switches, have their levels.
pub fn untouched_groups_are_kept()
    ensures differ { EditsChangeTheirNodesAlone }
    ensures kept { UntouchedGroupsAreKept }
{}

/// An empty place more at the end of a graph changes no group, and no list of the places at a node.
pub fn empty_places_change_no_group()
    ensures { EmptyPlacesChangeNoGroup }
{}
