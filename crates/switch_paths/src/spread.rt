//! Tables of strengths that spread over the switches of a graph until nothing more comes.
//!
//! A table has one strength for each node, 0 for none. What comes to a node with some strength
//! comes with each lower one too, so that one table stands for a set of pairs of a node and a
//! strength.

ghost use Rattle.std.specs.Prelude.{◌≡◌, ℕ, ◌+◌, ◌<◌, ◌≤◌, List, length, All, Option, Some, slice_index};
ghost use Rattle.std.specs.Bool.{OnTrue, OnFalse};
ghost use Rattle.switch_paths.specs.declared.switching.Switch.{Switch};
ghost use Rattle.switch_paths.specs.Graphs.{Fits, FitsPlace, place_at};
ghost use Rattle.switch_paths.specs.Path.{Joins};
ghost use Rattle.switch_paths.specs.Spread.{width, AreWidths, AllCome, Grows, IsSpread, IsSpreadOver, IsSpreadAcross, IsSpreadAt, room_left};

use crate::switching::{Switch, SwitchState, switch_state};
use ternary::Tern;

/// Writes the most that each place lets through: its switch's level if the switch is closed or,
/// unless `sure`, may be closed, and 0 elsewhere.
pub(crate) fn put_widths(sure: bool, state: &[Tern], places: &[Option<Switch>], widths: &mut [u8])
    requires fits { All (FitsPlace (length state.now)) places.now }
    requires room { length places.now ≤ length widths.old }
    ensures { AreWidths sure state.now places.now widths.new }
{
    for place in 0..places.len() {
        widths[place] = match &places[place] {
            Some(switch) => switch_width(sure, state, switch),
            None => 0,
        };
    }
}

// The most that a switch lets through.
fn switch_width(sure: bool, state: &[Tern], switch: &Switch) -> u8
    requires { Fits (length state.now) switch.now }
    ensures { result ≡ width sure state.now (Some switch.now) }
{
    match switch_state(switch.kind, state[switch.gate]) {
        SwitchState::Closed => switch.level,
        SwitchState::Unknown if !sure => switch.level,
        _ => 0,
    }
}

/// Spreads the strengths of a table over the places until nothing more comes: over a switch comes
/// the lesser of the strength at its one end and the place's width, unless the floor at its other
/// end is above that.
pub(crate) fn spread(places: &[Option<Switch>], widths: &[u8], floor: &[u8], table: &mut [u8])
    requires fits { All (FitsPlace (length floor.now)) places.now }
    requires widths { length places.now ≤ length widths.now }
    requires table { length floor.now ≤ length table.old }
    ensures come { AllCome places.now widths.now floor.now table.old table.new }
    ensures grows { Grows table.old table.new }
    ensures spread { IsSpread places.now widths.now floor.now table.new }
{
    while spread_once(places, widths, floor, table) {}
}

// Spreads once over each place; true where an entry rose.
fn spread_once(places: &[Option<Switch>], widths: &[u8], floor: &[u8], table: &mut [u8]) -> bool
    requires fits { All (FitsPlace (length floor.now)) places.now }
    requires widths { length places.now ≤ length widths.now }
    requires table { length floor.now ≤ length table.old }
    ensures come { AllCome places.now widths.now floor.now table.old table.new }
    ensures grows { Grows table.old table.new }
    ensures room { OnTrue result (room_left table.new < room_left table.old) }
    ensures same { OnFalse result (table.new ≡ table.old) }
    ensures spread { OnFalse result (IsSpread places.now widths.now floor.now table.new) }
{
    let mut rose = false;
    for place in 0..places.len() {
        rose |= spread_at(&places[place], widths[place], floor, table);
    }
    rose
}

// Spreads over what stands at one place; true where an entry rose.
fn spread_at(place: &Option<Switch>, width: u8, floor: &[u8], table: &mut [u8]) -> bool
    requires fits { FitsPlace (length floor.now) place.now }
    requires table { length floor.now ≤ length table.old }
    ensures come { (places : List (Option Switch)) (widths : List ℕ) (p : ℕ) →
        place_at places p ≡ place.now → slice_index widths p ≡ width →
        AllCome places widths floor.now table.old table.new }
    ensures grows { Grows table.old table.new }
    ensures room { OnTrue result (room_left table.new < room_left table.old) }
    ensures same { OnFalse result (table.new ≡ table.old) }
    ensures spread { OnFalse result (IsSpreadAt floor.now table.new width place.now) }
{
    match place {
        Some(switch) => spread_across(switch, width, floor, table),
        None => false,
    }
}

// Spreads over one switch, both ways; true where an entry rose.
fn spread_across(switch: &Switch, width: u8, floor: &[u8], table: &mut [u8]) -> bool
    requires fits { Fits (length floor.now) switch.now }
    requires table { length floor.now ≤ length table.old }
    ensures come { (places : List (Option Switch)) (widths : List ℕ) (place : ℕ) →
        place_at places place ≡ Some switch.now → slice_index widths place ≡ width →
        AllCome places widths floor.now table.old table.new }
    ensures grows { Grows table.old table.new }
    ensures room { OnTrue result (room_left table.new < room_left table.old) }
    ensures same { OnFalse result (table.new ≡ table.old) }
    ensures spread { OnFalse result (IsSpreadAcross floor.now table.new width switch.now) }
{
    let there = spread_over(floor, table, width, switch.a, switch.b);
    let back = spread_over(floor, table, width, switch.b, switch.a);
    there || back
}

// Spreads from m to n over a switch of this width; true where the entry of n rose.
fn spread_over(floor: &[u8], table: &mut [u8], width: u8, m: usize, n: usize) -> bool
    requires from { m < length floor.now }
    requires to { n < length floor.now }
    requires table { length floor.now ≤ length table.old }
    ensures come { (places : List (Option Switch)) (widths : List ℕ) (place : ℕ) (switch : Switch) →
        place_at places place ≡ Some switch → Joins switch m n → slice_index widths place ≡ width →
        AllCome places widths floor.now table.old table.new }
    ensures grows { Grows table.old table.new }
    ensures room { OnTrue result (room_left table.new < room_left table.old) }
    ensures same { OnFalse result (table.new ≡ table.old) }
    ensures spread { OnFalse result (IsSpreadOver floor.now table.new width m n) }
{
    let strength = table[m].min(width);
    if strength < floor[n] || strength <= table[n] {
        return false;
    }
    table[n] = strength;
    true
}
