//! Where parts are expanded: outside every call, or in calls inside one another.

ghost use Rattle.std.specs.Prelude.{◌≡◌, ◌==◌, if◌then◌else◌, [], length, take, IfOk, IfSome, IsNone, OnOk, None, Some};
ghost use Rattle.std.specs.List.{list_any};
ghost use Rattle.spice_cards.specs.Tables.{named};
ghost use Rattle.spice_read.specs.Frames.{name_below, scope_from, scope_of};
ghost use Rattle.spice_read.specs.Scopes as spec;

use crate::lookups::Lookups;
use crate::names::{fixed_node, is_fixed, nodes_of};
use crate::open_call::OpenCall;
use crate::ports::Ports;
use spice_cards::{Deck, Subcircuit, Words};
use std::alloc::Global;
use std::marker::Model;
use table_keys::TableKeys;
use ternary::NoMemory;

/// Where parts are expanded: outside every call of a deck, or in calls, whose ports stand for nodes.
///
/// No node is written down for a call, nor its path: the node of a name is found when it is asked for,
/// by the words on the cards of the calls from the innermost on.
#[derive(Drop)]
pub(crate) struct Frame<'d> {
    lookups: Lookups<'d>,
    keys: TableKeys,
    // The outermost first.
    calls: Vec<OpenCall<'d>>,
}

impl<'d> Model for Frame<'d> {
    ghost use Rattle.spice_read.specs.Frames.{FrameData};

    ghost Value = { FrameData };

    ghost view = { λ frame. record { deck = frame.lookups; calls = frame.calls.items } };
}

impl<'d> Frame<'d> {
    /// Outside every call of a deck. Names are hashed from these keys.
    pub(crate) fn outside(alloc: Global, keys: TableKeys, deck: &'d Deck) -> Frame<'d>
        ensures { result ≡ record { deck = deck.now; calls = [] } }
    {
        Frame {
            lookups: Lookups::new(alloc, keys, deck),
            keys,
            calls: Vec::new(alloc),
        }
    }

    /// The deck.
    pub(crate) fn deck(&self) -> &'d Deck
        ensures { result.now ≡ self.now.deck }
    {
        self.lookups.deck()
    }

    /// The subcircuit that the card on this line calls by this name, if there is one.
    pub(crate) fn find(&mut self, line: u64, name: &'d [u8]) -> Option<Subcircuit<'d>>
        ensures found { IfSome result (λ s. named self.old.deck.subcircuits name.now
            ≡ Some (record { line = s.line; ports = s.ports; parts = s.parts })) }
        ensures none { IsNone result → named self.old.deck.subcircuits name.now ≡ None }
        ensures stays { self.new ≡ self.old }
    {
        self.lookups.find(line, name)
    }

    /// How many calls are open.
    pub(crate) fn depth(&self) -> usize
        ensures { result ≡ length self.now.calls }
    {
        self.calls.len()
    }

    /// Opens a call, by the words of its card, and by the line and the ports of its subcircuit.
    pub(crate) fn open(
        &mut self,
        words: &Words<'d>,
        line: u64,
        ports: Words<'d>,
    ) -> Result<(), NoMemory>
        requires { length ports ≡ length (spec.nodes_of words.now) }
        ensures scope { OnOk result
            (scope_of self.new ≡ spec.called self.old.deck (scope_of self.old) words.now line ports.entry) }
        ensures outer { OnOk result (take (length self.old.calls) self.new.calls ≡ self.old.calls) }
        ensures deck { self.new.deck ≡ self.old.deck }
    {
        let ports = Ports::new(*self.calls.allocator(), self.keys, ports, nodes_of(words))?;
        self.calls.reserve(1)?;
        self.calls.push_reserved(OpenCall {
            name: words.at(0),
            line,
            ports,
        });
        Ok(())
    }

    /// Closes all calls but so many.
    pub(crate) fn close(&mut self, depth: usize)
        ensures { self.new ≡ record self.old { calls = take depth self.old.calls } }
    {
        self.calls.truncate(depth);
    }

    /// The node that a name stands for.
    pub(crate) fn node_of(&self, name: &[u8]) -> Result<Vec<u8>, NoMemory>
        ensures { IfOk result (λ node. node.items ≡ spec.node_in self.now.deck (scope_of self.now) name.now) }
    {
        node_in(
            *self.calls.allocator(),
            self.lookups.deck(),
            &self.calls,
            name,
        )
    }

    /// Whether the subcircuit that begins on this line is being expanded.
    pub(crate) fn is_expanding(&self, line: u64) -> bool
        ensures { result ≡ list_any (λ one. one == line) (scope_of self.now).expanding }
    {
        is_open(&self.calls, line)
    }
}

// Whether one of these calls is of the subcircuit that begins on this line.
fn is_open(calls: &[OpenCall<'_>], line: u64) -> bool
    ensures { result ≡ list_any (λ call. call.line == line) calls.now }
{
    calls.iter().any(|call| call.line == line)
}

// The node that a name stands for in these calls.
fn node_in(
    alloc: Global,
    deck: &Deck,
    calls: &[OpenCall<'_>],
    name: &[u8],
) -> Result<Vec<u8>, NoMemory>
    ensures { IfOk result (λ node. node.items
        ≡ spec.node_in deck.now (scope_from deck.now spec.outside calls.now) name.now) }
{
    match calls {
        [] => Ok(fixed_node(name).to_vec(alloc)?),
        [outer @ .., call] => match call.ports.find(name) {
            Some(word) => node_in(alloc, deck, outer, word),
            None if is_fixed(deck, name) => Ok(fixed_node(name).to_vec(alloc)?),
            None => below(alloc, calls, name),
        },
    }
}

// What has this name in these calls.
fn below(alloc: Global, calls: &[OpenCall<'_>], name: &[u8]) -> Result<Vec<u8>, NoMemory>
    ensures { IfOk result (λ bytes. bytes.items ≡ name_below calls.now name.now) }
{
    let mut bytes = Vec::new(alloc);
    for call in calls {
        bytes.extend_from_slice(call.name)?;
        bytes.reserve(1)?;
        bytes.push_reserved(b'.');
    }
    bytes.extend_from_slice(name)?;
    Ok(bytes)
}
