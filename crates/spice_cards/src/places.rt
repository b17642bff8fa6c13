//! Where words, parts and subcircuits stand in the pool of a deck.

use crate::sorts::PartSort;

/// A word: where it begins among the bytes of all words, and where it ends. Numbers of 32 bits keep
/// the words of a long text small.
#[derive(Clone, Copy)]
pub(crate) struct Span {
    pub at: u32,
    pub end: u32,
}

/// A part: its line, what it is, and where its words stand among all words.
#[derive(Clone, Copy)]
pub(crate) struct PartPlace {
    pub line: u32,
    pub sort: PartSort,
    pub first: u32,
    pub end: u32,
}

/// A subcircuit: where its `.subckt` and the end of its parts stand among the parts inside
/// subcircuits.
#[derive(Clone, Copy)]
pub(crate) struct SubcircuitPlace {
    pub opening: u32,
    pub end: u32,
}
