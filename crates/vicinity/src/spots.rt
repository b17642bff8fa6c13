//! Where the places stand in the lists of their ends. No clause rests on it: it only saves the search.

use crate::live_list::LiveList;
use switch_paths::Graph;

/// The spots at which a place was put last in the lists of its two ends.
#[derive(Clone, Copy)]
pub(crate) struct Spots {
    first: usize,
    second: usize,
}

/// Before any list is looked at: a place may stand at the head of each.
pub(crate) const HEADS: Spots = Spots {
    first: 0,
    second: 0,
};

/// Where a place was put last in the list of this node.
pub(crate) fn hint_at(graph: &Graph, spots: &[Spots], place: usize, node: usize) -> usize {
    let Some(switch) = graph.switch_there(place) else {
        return 0;
    };
    match spots.get(place) {
        Some(known) if switch.a == node => known.first,
        Some(known) => known.second,
        None => 0,
    }
}

/// Notes that this place stands at a spot of the list of this node.
pub(crate) fn note_spot(
    graph: &Graph,
    spots: &mut [Spots],
    place: usize,
    node: usize,
    spot: usize,
) {
    let Some(switch) = graph.switch_there(place) else {
        return;
    };
    if place >= spots.len() {
        return;
    }
    if switch.a == node {
        spots[place].first = spot;
    }
    if switch.b == node {
        spots[place].second = spot;
    }
}

/// Notes which places stand at these two spots of the list of a node.
pub(crate) fn note_exchange(
    graph: &Graph,
    spots: &mut [Spots],
    list: &[usize],
    node: usize,
    first: usize,
    second: usize,
) {
    if first < list.len() {
        note_spot(graph, spots, list[first], node, first);
    }
    if second < list.len() {
        note_spot(graph, spots, list[second], node, second);
    }
}

/// Notes where all places stand.
pub(crate) fn note_all(graph: &Graph, spots: &mut [Spots], lists: &[LiveList]) {
    for node in 0..lists.len() {
        for (spot, place) in lists[node].all().iter().enumerate() {
            note_spot(graph, spots, *place, node, spot);
        }
    }
}
