//! Lists of places with those in front whose switches aren't open.
ghost use Rattle.std.specs.Prelude.{◌≡◌, ◌<◌, ◌≤◌, true, false, length, slice_index, Contains, IfSome};
ghost use Rattle.std.specs.List.Sorted.{IsPermutation};
ghost use Rattle.machine_parts.specs.Marking.{AreOnce};
ghost use Rattle.std.specs.Option.{IfNone};
ghost use Rattle.switch_paths.specs.Switching.{is_live, state_by};
ghost use Rattle.vicinity.specs.Turning.{Turns};

use switch_paths::{SwitchKind, SwitchState, switch_state};
use ternary::Tern;

/// Puts the place at this spot of a list in front or behind, and answers how many are in front then: it changes places
/// with one at the border, and the border moves past it.
pub(crate) fn turn(list: &mut [usize], border: usize, spot: usize, live: bool) -> usize
    requires border { border ≤ length list.old }
    requires spot { spot < length list.old }
    requires once { AreOnce list.old }
    ensures turns { Turns live (slice_index list.old spot) list.old border list.new result }
    ensures permutation { IsPermutation list.old list.new }
{
    if live {
        to_front(list, border, spot)
    } else {
        to_back(list, border, spot)
    }
}

// The place comes to the front.
fn to_front(list: &mut [usize], border: usize, spot: usize) -> usize
    requires border { border ≤ length list.old }
    requires spot { spot < length list.old }
    ensures turns { Turns true (slice_index list.old spot) list.old border list.new result }
    ensures permutation { IsPermutation list.old list.new }
{
    if spot < border {
        return border;
    }
    list.swap(spot, border);
    border + 1
}

// The place leaves the front.
fn to_back(list: &mut [usize], border: usize, spot: usize) -> usize
    requires border { border ≤ length list.old }
    requires spot { spot < length list.old }
    requires once { AreOnce list.old }
    ensures turns { Turns false (slice_index list.old spot) list.old border list.new result }
    ensures permutation { IsPermutation list.old list.new }
{
    if spot >= border {
        return border;
    }
    list.swap(spot, border - 1);
    border - 1
}

/// Where a place stands in a list: at the spot where it was put last, or else where a search finds it.
pub(crate) fn spot_of(list: &[usize], hint: usize, place: usize) -> Option<usize>
    ensures within { IfSome result (λ spot. spot < length list.now) }
    ensures there { IfSome result (λ spot. slice_index list.now spot ≡ place) }
    ensures none { IfNone result (¬ Contains list.now place) }
{
    if hint < list.len() && list[hint] == place {
        return Some(hint);
    }
    list.iter().position(|one| *one == place)
}

// Whether a switch of this kind isn't open if its gate has this state.
pub(crate) fn conducts(kind: SwitchKind, gate: Tern) -> bool
    ensures { result ≡ is_live (state_by kind gate) }
{
    match switch_state(kind, gate) {
        SwitchState::Open => false,
        _ => true,
    }
}
