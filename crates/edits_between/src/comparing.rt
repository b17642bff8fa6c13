//! Whether the same stands at two places, part by part, and whether two levels are one: that is asked at each place and of each node of two graphs.
ghost use Rattle.std.specs.Prelude.{◌≡◌, None, Some};
ghost use Rattle.std.specs.Bool.{OnTrue};

use switch_paths::{Switch, SwitchKind};

/// Whether the same stands at two places.
pub(crate) fn are_same(one: Option<Switch>, other: Option<Switch>) -> bool
    ensures { OnTrue result (one ≡ other) }
{
    match one {
        Some(switch) => stands_at(switch, other),
        None => is_empty(other),
    }
}

/// Whether two levels are one.
pub(crate) fn are_same_levels(one: u8, other: u8) -> bool
    ensures { OnTrue result (one ≡ other) }
{
    one == other
}

// Whether nothing stands at a place.
fn is_empty(place: Option<Switch>) -> bool
    ensures { OnTrue result (place ≡ None) }
{
    place.is_none()
}

// Whether this switch stands at a place.
fn stands_at(switch: Switch, place: Option<Switch>) -> bool
    ensures { OnTrue result (place ≡ Some switch) }
{
    match place {
        Some(other) => is_same(other, switch),
        None => false,
    }
}

// Whether two switches have the same parts.
fn is_same(one: Switch, other: Switch) -> bool
    ensures kind { OnTrue result (one.kind ≡ other.kind) }
    ensures level { OnTrue result (one.level ≡ other.level) }
    ensures gate { OnTrue result (one.gate ≡ other.gate) }
    ensures a { OnTrue result (one.a ≡ other.a) }
    ensures b { OnTrue result (one.b ≡ other.b) }
{
    same_kind(one.kind, other.kind)
        && one.level == other.level
        && one.gate == other.gate
        && one.a == other.a
        && one.b == other.b
}

// Whether two kinds are one.
fn same_kind(one: SwitchKind, other: SwitchKind) -> bool
    ensures { OnTrue result (one ≡ other) }
{
    one == other
}
