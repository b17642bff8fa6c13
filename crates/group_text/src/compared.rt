//! Texts as keys: two are equal exactly if their graphs, their members and their constants are,
//! and equal texts have equal hashes.

ghost use Rattle.std.specs.Cmp;
ghost use Rattle.std.specs.List.{flat_map, fold, zip};
ghost use Rattle.std.specs.Prelude.{◌≡◌, ◌↔◌, ◌≤◌, IsTrue, map};
ghost use Rattle.group_text.specs.Compared.{constant_code, kind_code, node_word, place_words, same_text, same_text_equivalence, text_writes, text_writes-same, words_writes};

use crate::text::GroupText;
use std::hash::{Hash, Hasher};
use switch_paths::{Graph, Switch, SwitchKind};
use ternary::Tern;

impl PartialEq for GroupText {
    ghost eq = { same_text };

    ghost laws = { Cmp.partial_equiv_from_equiv same_text_equivalence };

    fn eq(&self, other: &GroupText) -> bool
        ensures value { result ≡ same_text self.now other.now }
        ensures same { IsTrue result ↔ (self.now ≡ other.now) }
    {
        *self.graph() == *other.graph()
            && self.members() == other.members()
            && self.constants() == other.constants()
    }
}

impl Eq for GroupText {
    ghost laws = { same_text_equivalence };
}

impl Hash for GroupText {
    // Whole words only, which hashers take at once; different texts feed different words.
    ghost hash_input = { text_writes };

    ghost respects_eq = { text_writes-same };

    fn hash<H: Hasher>(&self, state: &mut H) {
        state.write_usize(self.members());
        state.write_usize(self.graph().nodes());
        state.write_usize(self.graph().places());
        feed_nodes(self, state);
        feed_places(self.graph(), state);
    }
}

// Feeds each local node: one word of its level and its constant.
fn feed_nodes<H: Hasher>(text: &GroupText, state: &mut H)
    ensures { state.new ≡ fold H.write state.old (words_writes (map node_word
        (zip text.now.graph.levels text.now.constants))) }
{
    for node in 0..text.graph().nodes() {
        let level = text.graph().level(node);
        state.write_u64(u64::from(level) + 256 * constant_code(text.constant(node)));
    }
}

// Feeds each place.
fn feed_places<H: Hasher>(graph: &Graph, state: &mut H)
    ensures { state.new ≡ fold H.write state.old (words_writes (flat_map place_words graph.now.places)) }
{
    for place in 0..graph.places() {
        feed_place(graph.switch_at(place), state);
    }
}

// Feeds what stands at a place: four words for a switch, and for an empty place one that no switch
// begins with.
fn feed_place<H: Hasher>(place: Option<Switch>, state: &mut H)
    ensures { state.new ≡ fold H.write state.old (words_writes (place_words place)) }
{
    match place {
        None => state.write_u64(3),
        Some(switch) => {
            state.write_u64(kind_code(switch.kind) + 4 * u64::from(switch.level));
            state.write_usize(switch.gate);
            state.write_usize(switch.a);
            state.write_usize(switch.b);
        }
    }
}

// The code of a constant, from 0 to 3.
fn constant_code(constant: Option<Tern>) -> u64
    ensures value { result ≡ constant_code constant }
    ensures bound { result ≤ 3 }
{
    match constant {
        None => 0,
        Some(Tern::Zero) => 1,
        Some(Tern::One) => 2,
        Some(Tern::Unk) => 3,
    }
}

// The code of a kind, from 0 to 2.
fn kind_code(kind: SwitchKind) -> u64
    ensures value { result ≡ kind_code kind }
    ensures bound { result ≤ 2 }
{
    match kind {
        SwitchKind::NChan => 0,
        SwitchKind::PChan => 1,
        SwitchKind::Always => 2,
    }
}
