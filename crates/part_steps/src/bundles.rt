//! Parts that wait to be run together, by their codes.
ghost use Rattle.std.specs.Prelude.{◌≡◌, ◌<◌, ◌≤◌, length, IfOk};
ghost use Rattle.std.specs.Bool.{OnTrue};
ghost use Rattle.part_steps.specs.Waiting.{slot_for, HasRoom, IsEmptyFrom, starts_in, code_in, with_seat, cleared_at};

use crate::dense::Seat;
use std::alloc::{AllocError, Global};
use std::marker::Model;

// How many slots there are, and how many parts can wait in one of them: a word has a bit for each.
pub(crate) const SLOTS: usize = 64;

pub(crate) const COLUMNS: usize = 64;

// Parts of one code, by where their maps begin.
#[derive(Drop)]
pub(crate) struct Bundle {
    code: u32,
    starts: Vec<u32>,
}

/// Parts that wait to be run together. Those of one code wait in one slot, and while they do, no part of another
/// code waits there.
#[derive(Drop)]
pub struct Bundles {
    slots: Vec<Bundle>,
    // no part waits in this slot, or in one behind it
    high: usize,
}

impl Model for Bundles {
    ghost use Rattle.std.specs.Prelude.{List};
    ghost use Rattle.part_steps.specs.Waiting.{Slot, slots_of, AreBundles};

    ghost Value = { List Slot };

    ghost view = { λ bundles. slots_of bundles.slots.items };

    ghost invariant = { λ bundles. AreBundles bundles.slots.items bundles.high };
}

impl Bundles {
    // No part waits.
    pub(crate) fn new(alloc: Global) -> Result<Bundles, AllocError>
        ensures { IfOk result (IsEmptyFrom 0) }
    {
        let mut slots = Vec::with_capacity(alloc, SLOTS)?;
        for _ in 0..SLOTS {
            let starts = Vec::with_capacity(alloc, COLUMNS)?;
            slots.push_reserved(Bundle { code: 0, starts });
        }
        Ok(Bundles { slots, high: 0 })
    }

    // Whether a part with this code can wait before those in its slot are run.
    pub(crate) fn has_room(&self, code: u32) -> bool
        ensures room { OnTrue result (HasRoom self.now code) }
        ensures counted { length self.now ≡ SLOTS }
    {
        let bundle = &self.slots[slot_for(code)];
        bundle.starts.is_empty() || bundle.code == code && bundle.starts.len() < COLUMNS
    }

    // The part with this seat waits.
    pub(crate) fn add(&mut self, seat: Seat)
        requires { HasRoom self.old seat.code }
        ensures { self.new ≡ with_seat self.old seat }
    {
        let place = slot_for(seat.code);
        let bundle = &mut self.slots[place];
        bundle.code = seat.code;
        bundle.starts.push_reserved(seat.at);
        self.high = self.high.max(place + 1);
    }

    // The code of the parts that wait in a slot.
    pub(crate) fn code(&self, place: usize) -> u32
        requires { place < SLOTS }
        ensures { result ≡ code_in self.now place }
    {
        self.slots[place].code
    }

    // Where the maps of the parts begin that wait in a slot.
    pub(crate) fn starts(&self, place: usize) -> &[u32]
        requires { place < SLOTS }
        ensures starts { result.now ≡ starts_in self.now place }
        ensures few { length result.now ≤ COLUMNS }
        ensures counted { length self.now ≡ SLOTS }
    {
        &self.slots[place].starts
    }

    // No part waits in this slot any more.
    pub(crate) fn clear(&mut self, place: usize)
        requires { place < SLOTS }
        ensures { self.new ≡ cleared_at self.old place }
    {
        self.slots[place].starts.clear();
    }

    // No part waits any more.
    pub(crate) fn clear_all(&mut self)
        ensures { IsEmptyFrom 0 self.new }
    {
        let high = self.high();
        for place in 0..high {
            self.clear(place);
        }
        self.high = 0;
    }

    // No part waits in the slot with this number, or in one behind it.
    pub(crate) fn high(&self) -> usize
        ensures inside { result ≤ SLOTS }
        ensures empty { IsEmptyFrom result self.now }
        ensures counted { length self.now ≡ SLOTS }
    {
        self.high
    }
}

// The slot in which parts with this code wait.
pub(crate) fn slot_for(code: u32) -> usize
    ensures slot { result ≡ slot_for code }
    ensures inside { result < SLOTS }
{
    code as usize % SLOTS
}
