//! Items: the parts of a word between commas, and what they set.

ghost use Rattle.std.specs.Prelude.{◌≡◌, ◌∷◌, ◌<◌, length, position, map, true, IfSome};
ghost use Rattle.std.specs.Option.{option_copied};
ghost use Rattle.std.specs.Iterator.{YieldsFirstRef, item_count};
ghost use Rattle.netlist.specs.Edits.{is_size, is_strength};
ghost use Rattle.sim_read.specs.Items as spec;

use line_words::{Words, decimal};
use std::marker::Model;
use strength_order::{Profile, size_level, switch_level};

/// What a line of attributes sets at its node.
#[derive(Clone, Copy, PartialEq, Eq)]
pub(crate) enum Setting {
    /// Nothing.
    Unset,
    /// The node is an input node.
    Input,
    /// The node is a storage node of this size.
    Size(u64),
}

/// The items of a word that are left. Contracts see it as the list of those items.
#[derive(Drop)]
pub(crate) struct Items<'a> {
    // What stands after the last comma that was passed; None after the last item.
    rest: Option<&'a [u8]>,
}

impl<'a> Model for Items<'a> {
    ghost use Rattle.std.specs.Prelude.{List, ℕ};
    ghost use Rattle.std.specs.Option.{option_copied};
    ghost use Rattle.sim_read.specs.Items.{items_left};

    ghost Value = { List (List ℕ) };

    ghost view = { λ items. items_left (option_copied items.rest) };
}

impl<'a> Iterator for Items<'a> {
    type Item = &'a [u8];

    ghost next_gives = { YieldsFirstRef (λ items. items) };

    ghost remaining = { item_count (λ items. items) };

    fn next(&mut self) -> Option<&'a [u8]> {
        let (item, rest) = cut_item(self.rest?);
        self.rest = rest;
        Some(item)
    }
}

/// The items of a word.
pub(crate) fn items_of(word: &[u8]) -> Items<'_>
    ensures { result ≡ spec.items_of word.now }
{
    Items { rest: Some(word) }
}

// The bytes before the first comma, and those after it; all of them and none if there is none.
fn cut_item(word: &[u8]) -> (&[u8], Option<&[u8]>)
    ensures { spec.items_of word.now ≡ result.0.now ∷ spec.items_left (option_copied result.1) }
{
    match first_comma(word) {
        Some(at) => (&word[..at], Some(&word[at + 1..])),
        None => (word, None),
    }
}

// The place of the first comma.
fn first_comma(word: &[u8]) -> Option<usize>
    ensures { result ≡ position spec.is_comma word.now }
{
    word.iter().position(|&byte| byte == b',')
}

/// The strength of a transistor, by the words after its drain: the last one that an item
/// `strength:K` of a word `g=..` sets, or the usual one; None if one of them isn't accepted.
pub(crate) fn strength_by_words(profile: Profile, usual: u64, words: Words<'_>) -> Option<u64>
    ensures { result ≡ spec.strength_of profile usual words.entry }
{
    let mut strength = usual;
    for word in words {
        if let Some(part) = after_prefix(b"g=", word) {
            strength = strength_by_items(profile, strength, items_of(part))?;
        }
    }
    Some(strength)
}

// The strength after these items.
fn strength_by_items(profile: Profile, usual: u64, items: Items<'_>) -> Option<u64>
    ensures { result ≡ spec.strength_after profile usual (spec.strength_texts items.entry) }
{
    let mut strength = usual;
    for item in items {
        if let Some(text) = after_prefix(b"strength:", item) {
            strength = decimal(text).filter(|&k| accepts_strength(profile, k))?;
        }
    }
    Some(strength)
}

/// What the words after a node's name set: the last item `input` or `size:K`; None if a size
/// isn't accepted.
pub(crate) fn setting_by_words(profile: Profile, words: Words<'_>) -> Option<Setting>
    ensures value { result ≡ spec.setting_of profile words.entry }
    ensures accepted { IfSome result (spec.IsAccepted profile) }
{
    let mut setting = Setting::Unset;
    for word in words {
        setting = setting_by_items(profile, setting, items_of(word))?;
    }
    Some(setting)
}

// What is set after these items.
fn setting_by_items(profile: Profile, start: Setting, items: Items<'_>) -> Option<Setting>
    requires { spec.IsAccepted profile start }
    ensures value { result ≡ spec.setting_after profile start items.entry }
    ensures accepted { IfSome result (spec.IsAccepted profile) }
{
    let mut setting = start;
    for item in items {
        setting = setting_by_item(profile, setting, item)?;
    }
    Some(setting)
}

// What is set after one more item.
fn setting_by_item(profile: Profile, setting: Setting, item: &[u8]) -> Option<Setting>
    requires { spec.IsAccepted profile setting }
    ensures value { result ≡ spec.setting_after_item profile setting item.now }
    ensures accepted { IfSome result (spec.IsAccepted profile) }
{
    if matches!(item, b"input") {
        return Some(Setting::Input);
    }
    match after_prefix(b"size:", item) {
        Some(text) => {
            let size = decimal(text).filter(|&k| accepts_size(profile, k))?;
            Some(Setting::Size(size))
        }
        None => Some(setting),
    }
}

/// What stands after these bytes, where the word begins with them.
pub(crate) fn after_prefix<'a>(prefix: &[u8], word: &'a [u8]) -> Option<&'a [u8]>
    ensures { option_copied result ≡ spec.after_prefix prefix.now word.now }
{
    word.strip_prefix(prefix)
}

// Whether the profile accepts the strength.
fn accepts_strength(profile: Profile, strength: u64) -> bool
    ensures { result ≡ is_strength profile strength }
{
    switch_level(profile, strength).is_some()
}

// Whether the profile accepts the size.
fn accepts_size(profile: Profile, size: u64) -> bool
    ensures { result ≡ is_size profile size }
{
    size_level(profile, size).is_some()
}
