//! What a step reads of the parts, in a dense form.
ghost use Rattle.std.specs.Prelude.{◌≡◌, List, ◌<◌, ◌++◌, ◌∷◌, [], None, Some, length, slice_get, slice_set, vec_len, vec_capacity, All, IfOk, IfSome, OnOk};
ghost use Rattle.std.specs.Bool.{OnTrue};
ghost use Rattle.straight_code.specs.Code.{CodeData};
ghost use Rattle.machine_parts.specs.declared.part.MachinePart.{MachinePart};
ghost use Rattle.machine_parts.specs.Words.{Puts, AreOnce};
ghost use Rattle.part_steps.specs.Dense.{AreDense, AreSeatsOf, IsSeatOf, HasInputs, ArePlaces, Grows, IsCodeAt, IsMapAt, IsNumbered, IsPartNumbered};

use crate::making::count_values;
use crate::putting::put_in;
use machine_parts::MachinePart;
use part_words::{KnownRuns, is_large};
use std::alloc::{AllocError, Global};
use std::rc::Rc;
use straight_code::{Code, Instruction, Output};
use ternary::NoMemory;

// The runs of code that reads more values aren't kept.
const MOST_VALUES: usize = 1 << 16;

/// What a step reads of a part that has code: where its code stands among the codes, and where its map begins among
/// the nodes.
#[derive(Clone, Copy)]
pub struct Seat {
    pub code: u32,
    pub at: u32,
}

/// What a step reads of all parts: their codes; the maps one behind the other; and the seat of each part that has code.
/// Parts share their code if their texts are equal, those that a machine starts with and those that got code later: so
/// they are run together.
///
/// `places` tells for the number of a text where its code was put. A part that gets code later has its place there if
/// the code that stands there is the same: so nothing is said of `places`, and no part gets another's code by it.
///
/// The map of a part that lost its code stays if it is, and so does its code. Whoever holds a machine lets go of
/// all of it where most of its parts are left over, so that there are no more than so many of these.
///
/// `known` has the last runs of large codes of these, if there are any: a step looks up what they gave before. That stays
/// true, since codes only come behind the others.
#[derive(Drop)]
pub struct DenseParts {
    pub codes: Vec<Rc<Code>>,
    pub nodes: Vec<u32>,
    pub seats: Vec<Option<Seat>>,
    pub places: Vec<Option<u32>>,
    pub known: KnownRuns,
}

impl DenseParts {
    /// The seat of a part, whose map comes behind the others.
    #[tactic(auto, using(crate::proofs::DenseLemmas::grows_same, crate::proofs::DenseLemmas::grows_then, crate::proofs::DenseLemmas::places_more))]
    pub fn seat_shared(
        &mut self,
        part: &MachinePart,
        number: Option<usize>,
        places: &mut [Option<u32>],
    ) -> Result<Option<Seat>, NoMemory>
        requires inputs { HasInputs part.now }
        requires inside { IfSome number (λ n. n < length places.old) }
        ensures more { Grows self.old self.new }
        ensures seat { (list : List CodeData) → IsPartNumbered list number part.now → ArePlaces list self.old.codes.items places.old
            → IfOk result (IsSeatOf part.now self.new.codes.items self.new.nodes.items) }
        ensures places { (list : List CodeData) → IsPartNumbered list number part.now → ArePlaces list self.old.codes.items places.old
            → ArePlaces list self.new.codes.items places.new }
    {
        let Some(code) = &part.code else {
            return Ok(None);
        };
        let place = self.place_of(number, code, places)?;
        let at = self.add_map(&part.map)?;
        Ok(Some(Seat { code: place, at }))
    }

    // Where a code stands: at the place of its text's number, if that has one, else behind the others, where it
    // is put.
    fn place_of(
        &mut self,
        number: Option<usize>,
        code: &Rc<Code>,
        places: &mut [Option<u32>],
    ) -> Result<u32, NoMemory>
        requires { IfSome number (λ n. n < length places.old) }
        ensures more { Grows self.old self.new }
        ensures place { (list : List CodeData) → IsNumbered list number code.now.value → ArePlaces list self.old.codes.items places.old
            → IfOk result (λ place. IsCodeAt self.new.codes.items place code.now.value) }
        ensures places { (list : List CodeData) → IsNumbered list number code.now.value → ArePlaces list self.old.codes.items places.old
            → ArePlaces list self.new.codes.items places.new }
    {
        match number {
            Some(number) => self.place_shared(number, code, places),
            None => self.add_code(code),
        }
    }

    // Where the code of the text with this number stands: it is put behind the others if it isn't there yet.
    #[tactic(auto, using(crate::proofs::DenseLemmas::grows_same, crate::proofs::DenseLemmas::places_more, crate::proofs::DenseLemmas::place_known, crate::proofs::DenseLemmas::place_added))]
    fn place_shared(
        &mut self,
        number: usize,
        code: &Rc<Code>,
        places: &mut [Option<u32>],
    ) -> Result<u32, NoMemory>
        requires { number < length places.old }
        ensures more { Grows self.old self.new }
        ensures place { (list : List CodeData) → slice_get list number ≡ Some code.now.value → ArePlaces list self.old.codes.items places.old
            → IfOk result (λ place. IsCodeAt self.new.codes.items place code.now.value) }
        ensures places { (list : List CodeData) → slice_get list number ≡ Some code.now.value → ArePlaces list self.old.codes.items places.old
            → ArePlaces list self.new.codes.items places.new }
    {
        if let Some(place) = places[number] {
            return Ok(place);
        }
        let place = self.add_code(code)?;
        places[number] = Some(place);
        Ok(place)
    }

    // Puts code behind the others, and answers its place.
    #[tactic(auto, using(crate::proofs::DenseLemmas::grows_then))]
    fn add_code(&mut self, code: &Rc<Code>) -> Result<u32, NoMemory>
        ensures more { Grows self.old self.new }
        ensures there { IfOk result (λ place. IsCodeAt self.new.codes.items place code.now.value) }
        ensures places { self.new.places ≡ self.old.places }
    {
        let place = self.push_code(code)?;
        self.make_known(code);
        Ok(place)
    }

    // Puts code behind the others, and answers its place. No room is taken for its runs.
    #[tactic(auto, using(crate::proofs::DenseLemmas::grows_same, crate::proofs::DenseLemmas::grows_code, crate::proofs::DenseLemmas::code_last))]
    fn push_code(&mut self, code: &Rc<Code>) -> Result<u32, NoMemory>
        ensures more { Grows self.old self.new }
        ensures there { IfOk result (λ place. IsCodeAt self.new.codes.items place code.now.value) }
        ensures places { self.new.places ≡ self.old.places }
    {
        let place = short(self.codes.len())?;
        let shared = code.clone()?;
        self.codes.push(shared).map_err(AllocError::from)?;
        Ok(place)
    }

    // There is room for the last runs of this code, if it is large, and of others. Out of memory there is as much as before.
    #[tactic(auto, using(crate::proofs::DenseLemmas::grows_same))]
    fn make_known(&mut self, code: &Code)
        ensures more { Grows self.old self.new }
        ensures codes { self.new.codes ≡ self.old.codes }
        ensures places { self.new.places ≡ self.old.places }
    {
        let Some(values) = values_known(code) else {
            return;
        };
        if self.known.values() < values {
            self.widen_known(values);
        }
    }

    // There is room for the last runs of codes that read so many values each, unless memory is out. None ran yet.
    #[tactic(auto, using(crate::proofs::DenseLemmas::grows_same))]
    fn widen_known(&mut self, values: usize)
        ensures more { Grows self.old self.new }
        ensures codes { self.new.codes ≡ self.old.codes }
        ensures places { self.new.places ≡ self.old.places }
    {
        let alloc = *self.codes.allocator();
        if let Ok(known) = KnownRuns::with_room(alloc, values) {
            self.known = known;
        }
    }

    // Puts a map behind the others, and answers where it begins.
    #[tactic(auto, using(crate::proofs::DenseLemmas::grows_same, crate::proofs::DenseLemmas::grows_nodes, crate::proofs::DenseLemmas::map_last))]
    fn add_map(&mut self, map: &[usize]) -> Result<u32, NoMemory>
        ensures more { Grows self.old self.new }
        ensures there { IfOk result (λ at. IsMapAt self.new.nodes.items at map.now) }
    {
        let at = short(self.nodes.len())?;
        for node in map {
            self.nodes.push(short(*node)?).map_err(AllocError::from)?;
        }
        Ok(at)
    }

    /// The part with this number loses its code.
    pub fn clear(&mut self, k: usize)
        requires { k < length self.old.seats.items }
        ensures { (parts : List MachinePart) (part : MachinePart) → part.code ≡ None → AreDense parts self.old → AreDense (slice_set parts k part) self.new }
    {
        self.seats[k] = None;
    }

    /// Takes room for one seat more.
    pub fn make_room(&mut self) -> Result<(), AllocError>
        ensures same { (parts : List MachinePart) → AreDense parts self.old → AreDense parts self.new }
        ensures room { OnOk result (vec_len self.new.seats < vec_capacity self.new.seats) }
    {
        self.seats.reserve(1)
    }

    /// Adds the seat of a part without code, for which there is room.
    pub fn add_stale(&mut self)
        requires { vec_len self.old.seats < vec_capacity self.old.seats }
        ensures { (parts : List MachinePart) (part : MachinePart) → part.code ≡ None → AreDense parts self.old
            → AreDense (parts ++ part ∷ []) self.new }
    {
        self.seats.push_reserved(None);
    }

    /// The seats of these parts, whose texts have these numbers. Their maps come behind the others, and so do codes that
    /// no part had so far. Out of memory none came.
    #[tactic(auto, using(crate::proofs::DenseLemmas::dense_again))]
    pub fn seats_for(
        &mut self,
        alloc: Global,
        parts: &[MachinePart],
        numbers: &[usize],
    ) -> Result<Vec<Option<Seat>>, NoMemory>
        requires inputs { All HasInputs parts.now }
        requires numbered { length numbers.now ≡ length parts.now }
        ensures same { (others : List MachinePart) → AreDense others self.old → AreDense others self.new }
        ensures seats { IfOk result (λ seats. AreSeatsOf parts.now self.new.codes.items self.new.nodes.items seats.items) }
    {
        let codes = self.codes.len();
        let nodes = self.nodes.len();
        match self.add_seats(alloc, parts, numbers) {
            Ok(seats) => Ok(seats),
            Err(refused) => {
                self.codes.truncate(codes);
                self.nodes.truncate(nodes);
                Err(refused)
            }
        }
    }

    // The seats of these parts, whose texts have these numbers. Maps, and codes that aren't there yet, come behind the
    // others.
    #[tactic(auto, using(crate::proofs::DenseLemmas::grows_same, crate::proofs::DenseLemmas::no_seats))]
    fn add_seats(
        &mut self,
        alloc: Global,
        parts: &[MachinePart],
        numbers: &[usize],
    ) -> Result<Vec<Option<Seat>>, NoMemory>
        requires inputs { All HasInputs parts.now }
        requires numbered { length numbers.now ≡ length parts.now }
        ensures more { Grows self.old self.new }
        ensures seats { IfOk result (λ seats. AreSeatsOf parts.now self.new.codes.items self.new.nodes.items seats.items) }
    {
        let mut seats = Vec::with_capacity(alloc, parts.len())?;
        for (k, part) in parts.iter().enumerate() {
            let seat = self.seat_numbered(part, numbers[k])?;
            seats.push_reserved(seat);
        }
        Ok(seats)
    }

    // The seat of a part whose text has this number. Its map comes behind the others.
    #[tactic(auto, using(crate::proofs::DenseLemmas::grows_same, crate::proofs::DenseLemmas::grows_then))]
    fn seat_numbered(&mut self, part: &MachinePart, number: usize) -> Result<Option<Seat>, NoMemory>
        requires { HasInputs part.now }
        ensures more { Grows self.old self.new }
        ensures seat { IfOk result (IsSeatOf part.now self.new.codes.items self.new.nodes.items) }
    {
        let Some(code) = &part.code else {
            return Ok(None);
        };
        let place = self.place_same(number, code)?;
        let at = self.add_map(&part.map)?;
        Ok(Some(Seat { code: place, at }))
    }

    // Where this code stands: where that of the text with this number was put, if it is the same, else behind the
    // others, where it is put.
    #[tactic(auto, using(crate::proofs::DenseLemmas::grows_same, crate::proofs::DenseLemmas::grows_then))]
    fn place_same(&mut self, number: usize, code: &Rc<Code>) -> Result<u32, NoMemory>
        ensures more { Grows self.old self.new }
        ensures there { IfOk result (λ place. IsCodeAt self.new.codes.items place code.now.value) }
    {
        self.number_up_to(number)?;
        if let Some(place) = self.places[number] {
            if self.has_code_at(place, code) {
                return Ok(place);
            }
        }
        let place = self.add_code(code)?;
        self.places[number] = Some(place);
        Ok(place)
    }

    // Up to this one each number may have a place.
    fn number_up_to(&mut self, number: usize) -> Result<(), AllocError>
        ensures codes { self.new.codes ≡ self.old.codes }
        ensures nodes { self.new.nodes ≡ self.old.nodes }
        ensures seats { self.new.seats ≡ self.old.seats }
        ensures known { self.new.known ≡ self.old.known }
        ensures room { OnOk result (number < length self.new.places.items) }
    {
        while self.places.len() <= number {
            self.places.push(None)?;
        }
        Ok(())
    }

    // Whether this code stands at this place.
    fn has_code_at(&self, place: u32, code: &Code) -> bool
        ensures { OnTrue result (IsCodeAt self.now.codes.items place code.now) }
    {
        match self.codes.get(place as usize) {
            Some(there) => is_same(there, code),
            None => false,
        }
    }

    /// Puts seats in these slots.
    pub fn put_all(&mut self, slots: &[usize], seats: Vec<Option<Seat>>)
        requires inside { All (λ k. k < length self.old.seats.items) slots.now }
        requires counted { length seats.items ≡ length slots.now }
        ensures { (fresh old new : List MachinePart) → AreOnce slots.now → AreSeatsOf fresh self.old.codes.items self.old.nodes.items seats.items
            → Puts slots.now fresh old new → AreDense old self.old → AreDense new self.new }
    {
        put_in(slots, seats, &mut self.seats);
    }
}

// How many values code reads whose last runs are looked up.
fn values_known(code: &Code) -> Option<usize> {
    if !is_large(code) {
        return None;
    }
    match count_values(code) {
        Some(values) if values <= MOST_VALUES => Some(values),
        _ => None,
    }
}

// Whether both codes are the same.
fn is_same(one: &Code, other: &Code) -> bool
    ensures { OnTrue result (one.now ≡ other.now) }
{
    one.inputs() == other.inputs()
        && are_same_instructions(one.instructions(), other.instructions())
        && are_same_outputs(one.output_pairs(), other.output_pairs())
}

// Whether these instructions are the same.
fn are_same_instructions(these: &[Instruction], others: &[Instruction]) -> bool
    ensures { OnTrue result (these.now ≡ others.now) }
{
    these == others
}

// Whether these outputs are the same.
fn are_same_outputs(these: &[Output], others: &[Output]) -> bool
    ensures { OnTrue result (these.now ≡ others.now) }
{
    these == others
}

// A number as one of 32 bits. A larger one is lack of memory.
fn short(number: usize) -> Result<u32, NoMemory>
    ensures { IfOk result (λ same. same ≡ number) }
{
    match u32::try_from(number) {
        Ok(same) => Ok(same),
        Err(_) => Err(NoMemory),
    }
}
