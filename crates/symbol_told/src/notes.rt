//! A hearer that keeps what waveform lines show, for who compares it.
ghost use Rattle.std.specs.Prelude.{◌≡◌, ◌+◌, ◌≤◌, ◌++◌, length, vec_capacity, vec_len, IfErr, OnErr, OnOk};
ghost use Rattle.symbol_told.specs.Noting as spec;

use crate::lines::{SymbolLines, ToldLine};
use decision_graph::Function;
use ports::PortFault;
use script_lang::Name;
use std::alloc::{AllocError, Global};
use std::marker::Model;
use ternary::NoMemory;

/// A waveform line as it is noted.
#[derive(Clone, Copy)]
pub struct WaveNote {
    /// The line's number.
    pub n: u64,
    /// How many words were watched by then.
    pub words: usize,
    /// How many nodes it shows.
    pub nodes: usize,
}

/// The words that are watched, each with the number of its nodes, and the waveform lines that were heard, by the words that were
/// watched by then. Lines of other kinds are passed over.
///
/// The rails of the nodes of all lines stand in two lists, line by line, so that a graph can be let go for a smaller one that
/// has these functions.
#[derive(Drop)]
pub struct Notes {
    alloc: Global,
    words: Vec<(Name, usize)>,
    waves: Vec<WaveNote>,
    highs: Vec<Function>,
    lows: Vec<Function>,
}

impl Model for Notes {
    ghost use Rattle.std.specs.Prelude.{◌≡◌, length};
    ghost use Rattle.symbol_told.specs.Noting.{NotesData};

    ghost Value = { NotesData };

    ghost view = { λ notes. record { words = notes.words.items; waves = notes.waves.items; highs = notes.highs.items; lows = notes.lows.items } };

    ghost invariant = { λ notes. length notes.highs.items ≡ length notes.lows.items };
}

impl Notes {
    /// None yet.
    pub fn new(alloc: Global) -> Notes
        ensures { result ≡ spec.no_notes }
    {
        Notes {
            alloc,
            words: Vec::new(alloc),
            waves: Vec::new(alloc),
            highs: Vec::new(alloc),
            lows: Vec::new(alloc),
        }
    }

    /// The words that are watched, each with the number of its nodes.
    pub fn words(&self) -> &[(Name, usize)]
        ensures { result.now ≡ self.now.words }
    {
        &self.words
    }

    /// The waveform lines, in order.
    pub fn waves(&self) -> &[WaveNote]
        ensures { result.now ≡ self.now.waves }
    {
        &self.waves
    }

    /// Where the nodes of all lines may be 1, line by line.
    pub fn highs(&self) -> &[Function]
        ensures value { result.now ≡ self.now.highs }
        ensures alike { length self.now.highs ≡ length self.now.lows }
    {
        &self.highs
    }

    /// Where they may be 0.
    pub fn lows(&self) -> &[Function]
        ensures value { result.now ≡ self.now.lows }
        ensures alike { length self.now.highs ≡ length self.now.lows }
    {
        &self.lows
    }

    /// Takes these functions in the place of those that there are, in the same order.
    pub fn stand_for(&mut self, highs: Vec<Function>, lows: Vec<Function>)
        requires { length highs.items ≡ length lows.items }
        ensures { self.new ≡ record self.old { highs = highs.items; lows = lows.items } }
    {
        self.highs = highs;
        self.lows = lows;
    }

    /// Takes a word more that is watched from here on, and stands for so many nodes. Out of memory all is as before.
    pub fn watch(&mut self, word: &[u8], nodes: usize) -> Result<(), NoMemory>
        ensures ok { OnOk result (self.new ≡ spec.with_word self.old word.now nodes) }
        ensures err { OnErr result (self.new ≡ self.old) }
    {
        let word = Name::from_slice(self.alloc, word)?;
        self.words.push((word, nodes)).map_err(AllocError::from)?;
        Ok(())
    }
}

impl SymbolLines for Notes {
    ghost use Rattle.symbol_told.specs.Noting.{NotesData, note};

    ghost Heard = { NotesData };

    ghost heard = { λ notes. notes };

    ghost hear = { note };

    ghost part = { λ _ _ _. Unit {0} };

    ghost faults = { λ _. 0 };

    ghost refusals = { λ _. 0 };

    fn tell(
        &mut self,
        line: ToldLine,
        highs: &[Function],
        lows: &[Function],
    ) -> Result<(), PortFault> {
        if let ToldLine::Wave { n, .. } = line {
            return self.add_wave(n, highs, lows);
        }
        Ok(())
    }
}

impl Notes {
    // Notes a waveform line.
    fn add_wave(&mut self, n: u64, highs: &[Function], lows: &[Function]) -> Result<(), PortFault>
        requires { length highs.now ≡ length lows.now }
        ensures ok { OnOk result (self.new ≡ spec.with_wave self.old n highs.now lows.now) }
        ensures refused { IfErr result (λ fault. fault ≡ PortFault.NoMemory) }
    {
        let wave = WaveNote {
            n,
            words: self.words.len(),
            nodes: highs.len(),
        };
        self.highs.reserve(highs.len())?;
        self.lows.reserve(lows.len())?;
        self.waves.push(wave)?;
        extend_reserved(&mut self.highs, highs);
        extend_reserved(&mut self.lows, lows);
        Ok(())
    }
}

// Puts these functions behind the others, in room that is there.
fn extend_reserved(list: &mut Vec<Function>, more: &[Function])
    requires { vec_len list.old + length more.now ≤ vec_capacity list.old }
    ensures { list.new.items ≡ list.old.items ++ more.now }
{
    for function in more {
        list.push_reserved(*function);
    }
}
