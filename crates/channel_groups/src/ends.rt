//! The places at each node, by the first and by the second end of their switches.

ghost use Rattle.std.specs.Prelude.{◌≡◌, ℕ, ◌+◌, ◌<◌, ◌≤◌, ◌∷◌, [], ◌++◌, None, Some, length, nat_eq, option_map, slice_index_or, slice_set, IfOk, IfSome, OnOk};
ghost use Rattle.std.specs.List.{IsDistinct};
ghost use Rattle.smallvec.specs.SmallVec.{HasRoomFor};
ghost use Rattle.switch_paths.specs.Graphs.{nodes, place_at};
ghost use Rattle.list_facts.specs.Taking.{TakesOut};
ghost use Rattle.channel_groups.specs.Listing.{places_of, AreListed, AreListedTo, SetsAt, HasRoomAt, Moves};

use smallvec::SmallVec;
use std::alloc::{AllocError, Global};
use switch_paths::Graph;

/// The places at a node: most nodes have few.
pub(crate) type Places = SmallVec<usize, 4>;

/// For each node the places whose switches have their first end there, and their second end.
#[derive(Drop)]
pub(crate) struct Ends {
    pub firsts: Vec<Places>,
    pub seconds: Vec<Places>,
    /// For each place where in its list it was put last, by either end: the list of a rail is long,
    /// and a place is taken out of it without a search.
    pub first_spots: Vec<usize>,
    pub second_spots: Vec<usize>,
}

/// The places at each node of a graph.
pub(crate) fn ends_of(alloc: Global, graph: &Graph) -> Result<Ends, AllocError>
    ensures firsts { IfOk result (λ ends. AreListed (λ switch. switch.a) graph.now None (places_of ends.firsts.items)) }
    ensures seconds { IfOk result (λ ends. AreListed (λ switch. switch.b) graph.now None (places_of ends.seconds.items)) }
    ensures firsts_count { IfOk result (λ ends. length ends.firsts.items ≡ nodes graph.now) }
    ensures seconds_count { IfOk result (λ ends. length ends.seconds.items ≡ nodes graph.now) }
{
    let mut ends = Ends {
        firsts: no_places(alloc, graph.nodes())?,
        seconds: no_places(alloc, graph.nodes())?,
        first_spots: Vec::new(alloc),
        second_spots: Vec::new(alloc),
    };
    grow_spots(&mut ends.first_spots, graph.places())?;
    grow_spots(&mut ends.second_spots, graph.places())?;
    for place in 0..graph.places() {
        list_switch(graph, place, &mut ends)?;
    }
    Ok(ends)
}

/// No places at each of so many nodes.
fn no_places(alloc: Global, count: usize) -> Result<Vec<Places>, AllocError>
    ensures count { IfOk result (λ lists. length lists.items ≡ count) }
    ensures none { IfOk result (λ lists. (node : ℕ) → places_of lists.items node ≡ []) }
{
    let mut lists = Vec::new(alloc);
    for _ in 0..count {
        lists.push(SmallVec::new(alloc))?;
    }
    Ok(lists)
}

/// Lists the switch at a place, if there is one, at both its ends.
fn list_switch(graph: &Graph, place: usize, ends: &mut Ends) -> Result<(), AllocError>
    requires inside { place < length graph.now.places }
    requires firsts_count { length ends.old.firsts.items ≡ nodes graph.now }
    requires seconds_count { length ends.old.seconds.items ≡ nodes graph.now }
    requires firsts { AreListedTo (λ switch. switch.a) graph.now place (places_of ends.old.firsts.items) }
    requires seconds { AreListedTo (λ switch. switch.b) graph.now place (places_of ends.old.seconds.items) }
    ensures firsts_count { length ends.new.firsts.items ≡ length ends.old.firsts.items }
    ensures seconds_count { length ends.new.seconds.items ≡ length ends.old.seconds.items }
    ensures firsts { OnOk result (AreListedTo (λ switch. switch.a) graph.now (place + 1) (places_of ends.new.firsts.items)) }
    ensures seconds { OnOk result (AreListedTo (λ switch. switch.b) graph.now (place + 1) (places_of ends.new.seconds.items)) }
{
    let Some(switch) = graph.switch_at(place) else {
        return Ok(());
    };
    list_place(&mut ends.firsts, &mut ends.first_spots, switch.a, place)?;
    list_place(&mut ends.seconds, &mut ends.second_spots, switch.b, place)?;
    Ok(())
}

/// Lists a place at a node.
fn list_place(
    lists: &mut Vec<Places>,
    spots: &mut Vec<usize>,
    node: usize,
    place: usize,
) -> Result<(), AllocError>
    requires { node < length lists.old.items }
    ensures count { length lists.new.items ≡ length lists.old.items }
    ensures lists { OnOk result (SetsAt node (places_of lists.old.items node ++ place ∷ []) (places_of lists.old.items) (places_of lists.new.items)) }
{
    set_spot(spots, place, lists[node].len());
    lists[node].push(place)?;
    Ok(())
}

/// The places that are listed at a node; past the last list there are none.
pub(crate) fn listed(lists: &[Places], node: usize) -> &[usize]
    ensures { result.now ≡ places_of lists.now node }
{
    match lists.get(node) {
        Some(places) => places.as_slice(),
        None => &[],
    }
}

/// Makes lists for so many nodes.
pub(crate) fn grow_lists(
    alloc: Global,
    lists: &mut Vec<Places>,
    count: usize,
) -> Result<(), AllocError>
    ensures same { (n : ℕ) → places_of lists.new.items n ≡ places_of lists.old.items n }
    ensures longer { length lists.old.items ≤ length lists.new.items }
    ensures ok { OnOk result (count ≤ length lists.new.items) }
{
    while lists.len() < count {
        lists.push(SmallVec::new(alloc))?;
    }
    Ok(())
}

/// Takes room for one place more at a node.
pub(crate) fn reserve_place(lists: &mut Vec<Places>, node: usize) -> Result<(), AllocError>
    requires { node < length lists.old.items }
    ensures same { (n : ℕ) → places_of lists.new.items n ≡ places_of lists.old.items n }
    ensures count { length lists.new.items ≡ length lists.old.items }
    ensures room { OnOk result (HasRoomAt lists.new.items node) }
{
    lists[node].reserve(1)?;
    Ok(())
}

/// Lists a place at one node in place of another, if it had been listed.
pub(crate) fn move_place(
    lists: &mut Vec<Places>,
    spots: &mut Vec<usize>,
    place: usize,
    from: Option<usize>,
    to: Option<usize>,
)
    requires distinct { (n : ℕ) → IsDistinct nat_eq (places_of lists.old.items n) }
    requires room { (n : ℕ) → to ≡ Some n → HasRoomAt lists.old.items n }
    ensures moves { Moves place from to (places_of lists.old.items) (places_of lists.new.items) }
    ensures count { length lists.new.items ≡ length lists.old.items }
{
    take_out(lists, spots, place, from);
    put_in(lists, spots, place, to);
}

/// Takes a place out of the list of a node.
fn take_out(lists: &mut Vec<Places>, spots: &mut Vec<usize>, place: usize, from: Option<usize>)
    requires { (n : ℕ) → IsDistinct nat_eq (places_of lists.old.items n) }
    ensures at { (n : ℕ) → from ≡ Some n → TakesOut place (places_of lists.old.items n) (places_of lists.new.items n) }
    ensures others { (n : ℕ) → ¬ (from ≡ Some n) → places_of lists.new.items n ≡ places_of lists.old.items n }
    ensures count { length lists.new.items ≡ length lists.old.items }
    ensures room { (n : ℕ) → HasRoomAt lists.old.items n → HasRoomAt lists.new.items n }
{
    let Some(node) = from else {
        return;
    };
    if node >= lists.len() {
        return;
    }
    take_from(&mut lists[node], spots, place);
}

/// Takes a place out of a list: from where it was put last, by the last one, which moves there.
fn take_from(places: &mut Places, spots: &mut Vec<usize>, place: usize)
    requires { IsDistinct nat_eq places.old.items }
    ensures taken { TakesOut place places.old.items places.new.items }
    ensures room { HasRoomFor places.old 1 → HasRoomFor places.new 1 }
{
    let Some(spot) = spot_of(places.as_slice(), spots, place) else {
        places.retain(|one| *one != place);
        return;
    };
    places.swap_remove(spot);
    if spot < places.len() {
        set_spot(spots, places[spot], spot);
    }
}

/// Where the place stands in the list, if it stands where it was put last.
fn spot_of(places: &[usize], spots: &[usize], place: usize) -> Option<usize>
    ensures within { IfSome result (λ spot. spot < length places.now) }
    ensures value { IfSome result (λ spot. slice_index_or places.now spot 0 ≡ place) }
{
    let spot = *spots.get(place)?;
    if spot < places.len() && places[spot] == place {
        Some(spot)
    } else {
        None
    }
}

/// Notes where a place is put in its list.
fn set_spot(spots: &mut Vec<usize>, place: usize, spot: usize)
    ensures { spots.new.items ≡ slice_set spots.old.items place spot }
{
    if place < spots.len() {
        spots[place] = spot;
    }
}

/// Makes room for where so many places are put.
pub(crate) fn grow_spots(spots: &mut Vec<usize>, count: usize) -> Result<(), AllocError>
    ensures { OnOk result (count ≤ length spots.new.items) }
{
    while spots.len() < count {
        spots.push(0)?;
    }
    Ok(())
}

/// Puts a place into the list of a node, which has room for it.
fn put_in(lists: &mut Vec<Places>, spots: &mut Vec<usize>, place: usize, to: Option<usize>)
    requires { (n : ℕ) → to ≡ Some n → HasRoomAt lists.old.items n }
    ensures at { (n : ℕ) → to ≡ Some n → places_of lists.new.items n ≡ places_of lists.old.items n ++ place ∷ [] }
    ensures others { (n : ℕ) → ¬ (to ≡ Some n) → places_of lists.new.items n ≡ places_of lists.old.items n }
    ensures count { length lists.new.items ≡ length lists.old.items }
{
    let Some(node) = to else {
        return;
    };
    set_spot(spots, place, lists[node].len());
    lists[node].push_reserved(place);
}
