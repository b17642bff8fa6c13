//! What the words of a card name.

ghost use Rattle.std.specs.Prelude.{◌≡◌};
ghost use Rattle.spice_cards.specs.Tables.{named};
ghost use Rattle.spice_read.specs.Scopes as spec;
ghost use Rattle.spice_read.specs.Steps as steps;

use netlist::usual_strength;
use spice_cards::{Deck, Strength, Words};
use switch_paths::SwitchKind;

/// The node of a name outside every call: `0` is Gnd, and each other name stands for itself.
pub(crate) fn fixed_node(name: &[u8]) -> &[u8]
    ensures { result.now ≡ spec.fixed_node name.now }
{
    if is_zero(name) { b"Gnd" } else { name }
}

/// Whether a name means in every call what it means outside.
pub(crate) fn is_fixed(deck: &Deck, name: &[u8]) -> bool
    ensures { result ≡ spec.is_fixed deck.now name.now }
{
    is_zero(name) || is_rail(name) || deck.is_global(name)
}

// Whether the name is `0`, that of Gnd on cards.
fn is_zero(name: &[u8]) -> bool
    ensures { result ≡ spec.is_zero name.now }
{
    name == b"0".as_slice()
}

// Whether the name spells a rail, in any ASCII case.
fn is_rail(name: &[u8]) -> bool
    ensures { result ≡ spec.is_rail name.now }
{
    name.eq_ignore_ascii_case(b"gnd")
        || name.eq_ignore_ascii_case(b"gnd!")
        || name.eq_ignore_ascii_case(b"vdd")
        || name.eq_ignore_ascii_case(b"vdd!")
}

/// The nodes on a call's card: the words between its name and its subcircuit.
pub(crate) fn nodes_of<'d>(words: &Words<'d>) -> Words<'d>
    ensures { result ≡ spec.nodes_of words.now }
{
    words.behind(1).front(words.len().saturating_sub(2))
}

/// The subcircuit that a call's card names: its last word.
pub(crate) fn subcircuit_named<'d>(words: &Words<'d>) -> &'d [u8]
    ensures { result.now ≡ spec.subcircuit_named words.now }
{
    words.at(words.len().saturating_sub(1))
}

/// The kind of a model: that of its `.model` card, else the one by its first letter.
pub(crate) fn kind_of(deck: &Deck, model: &[u8]) -> Option<SwitchKind>
    ensures { result ≡ steps.kind_of deck.now model.now }
{
    deck.model(model).or(kind_by_name(model))
}

// The kind of a model without a `.model` card.
fn kind_by_name(model: &[u8]) -> Option<SwitchKind>
    ensures { result ≡ steps.kind_by_name model.now }
{
    match model {
        [b'n', ..] => Some(SwitchKind::NChan),
        [b'p', ..] => Some(SwitchKind::PChan),
        [b'd', ..] => Some(SwitchKind::Always),
        _ => None,
    }
}

/// The strength of a transistor of this kind, by what its card sets; a bad one is no strength of any
/// profile.
pub(crate) fn strength_number(kind: SwitchKind, set: Strength) -> u64
    ensures { result ≡ steps.strength_number kind set }
{
    match set {
        Strength::Usual => usual_strength(kind),
        Strength::Is(number) => u64::from(number),
        Strength::Bad => 0,
    }
}
