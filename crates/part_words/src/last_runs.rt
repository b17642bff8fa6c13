//! The last runs of large codes: for each code an array of words, and in each of its columns one run.
ghost use Rattle.std.specs.Prelude.{◌≡◌, ◌+◌, ◌*◌, ◌^◌, ◌<◌, ◌≤◌, [], Some, None, length, take, All, IfOk, IfSome, vec_len, vec_capacity};
ghost use Rattle.std.specs.Bool.{OnTrue};
ghost use Rattle.straight_code.specs.Flat.{flat_values};
ghost use Rattle.word_columns.specs.Columns.{column_bits};
ghost use Rattle.part_words.specs.Noting.{map_at, states_at, NotesAll};
ghost use Rattle.part_words.specs.LastRuns.{IsRunOf, KnowsRuns, KeepsRuns};

use crate::change::Change;
use crate::column::{begin_column, column_with};
use crate::note::note_all;
use crate::together::run_together;
use std::alloc::{AllocError, Global};
use std::sync::ledger::Ledger;
use straight_code::Code;
use ternary::{Steps, Tern};
use word_columns::run_steps;

// Code with fewer instructions is run as soon as it is looked up.
const LARGE: usize = 256;

// A word has a bit for each of so many runs.
const COLUMNS: usize = 64;

/// The last runs of a code, one in each column of words: the constants, the rails of the inputs, and the results.
#[derive(Drop)]
pub struct LastRuns {
    /// where the code stands that ran, if one did
    pub place: Option<u32>,
    /// all that its instructions read, for 64 runs
    pub values: Vec<u64>,
    /// the column of the next run
    pub next: usize,
}

impl LastRuns {
    // Room for the last runs of code that reads so many values. No code ran yet.
    fn new(alloc: Global, values: usize) -> Result<LastRuns, AllocError>
        ensures { IfOk result (λ runs. runs.place ≡ None) }
    {
        Ok(LastRuns {
            place: None,
            values: vec![in alloc; 0; values]?,
            next: 0,
        })
    }
}

// The last runs of so many codes are kept. Those whose places differ by a multiple of this number put each other out.
const CODES: usize = 8;

/// The last runs of some codes, or of none.
#[derive(Drop)]
pub struct KnownRuns {
    pub codes: Vec<LastRuns>,
}

impl KnownRuns {
    /// Nothing is known.
    pub fn none(alloc: Global) -> KnownRuns
        ensures { result.codes.items ≡ [] }
    {
        KnownRuns {
            codes: Vec::new(alloc),
        }
    }

    /// Room for the last runs of codes that read so many values each. No code ran yet.
    pub fn with_room(alloc: Global, values: usize) -> Result<KnownRuns, AllocError>
        ensures { IfOk result (λ known. All (λ runs. runs.place ≡ None) known.codes.items) }
    {
        let mut codes = Vec::with_capacity(alloc, CODES)?;
        for _ in 0..CODES {
            codes.push_reserved(LastRuns::new(alloc, values)?);
        }
        Ok(KnownRuns { codes })
    }

    /// How many values a code may read for whose runs there is room.
    pub fn values(&self) -> usize {
        match self.codes.first() {
            Some(runs) => runs.values.len(),
            None => 0,
        }
    }
}

/// Whether code is so large that its last runs are looked up.
pub fn is_large(code: &Code) -> bool {
    code.len() >= LARGE
}

/// Runs code as [`run_together`], but for a part that is run alone it is looked up whether large code ran on the same
/// states before: then what it gave is noted, and no instruction is run. No other code stands at the place of this one;
/// codes at different places may share an array, in which the last one's runs are.
pub fn run_known<L: Ledger>(
    joining: bool,
    place: u32,
    code: &Code,
    nodes: &[u32],
    starts: &[u32],
    state: &[Tern],
    values: &mut [u64],
    known: &mut KnownRuns,
    changes: &mut Vec<Change>,
    steps: &mut Steps<L>,
)
    requires columns { length starts.now ≤ 64 }
    requires inside { All (λ at. at + code.now.inputs ≤ length nodes.now) starts.now }
    requires below { All (λ at. All (λ node. node < length state.now) (map_at nodes.now code.now.inputs at)) starts.now }
    requires front { length code.now.outputs ≤ code.now.inputs }
    requires values { 2 + 2 * code.now.inputs + length code.now.instructions ≤ length values.old }
    requires room { vec_len changes.old + length starts.now * length code.now.outputs ≤ vec_capacity changes.old }
    requires known { KnowsRuns place code.now known.old.codes.items }
    ensures notes { NotesAll joining code.now nodes.now starts.now state.now changes.old.items changes.new.items }
    ensures few { vec_len changes.new ≤ vec_len changes.old + length starts.now * length code.now.outputs }
    ensures capacity { vec_capacity changes.new ≡ vec_capacity changes.old }
    ensures count { length values.new ≡ length values.old }
    ensures steps { steps.new ≤ steps.old + length code.now.instructions }
    ensures known { KeepsRuns place code.now known.old.codes.items known.new.codes.items }
{
    if starts.len() == 1 && is_large(code) && !known.codes.is_empty() {
        let codes = known.codes.len();
        let runs = &mut known.codes[place as usize % codes];
        if has_room(code, runs) {
            run_again(
                joining, place, code, nodes, starts, state, runs, changes, steps,
            );
            return;
        }
    }
    run_together(joining, code, nodes, starts, state, values, changes, steps);
}

// Whether there is room for the runs of this code, which has no more values than numbers count.
fn has_room(code: &Code, runs: &LastRuns) -> bool
    requires { 2 + 2 * code.now.inputs + length code.now.instructions < 2 ^ 64 }
    ensures { OnTrue result (2 + 2 * code.now.inputs + length code.now.instructions ≤ length runs.now.values.items) }
{
    2 + 2 * code.inputs() + code.len() <= runs.values.len()
}

// Runs code for one part, unless it is among its last runs, and notes its members that change.
fn run_again<L: Ledger>(
    joining: bool,
    place: u32,
    code: &Code,
    nodes: &[u32],
    starts: &[u32],
    state: &[Tern],
    runs: &mut LastRuns,
    changes: &mut Vec<Change>,
    steps: &mut Steps<L>,
)
    requires one { length starts.now ≡ 1 }
    requires inside { All (λ at. at + code.now.inputs ≤ length nodes.now) starts.now }
    requires below { All (λ at. All (λ node. node < length state.now) (map_at nodes.now code.now.inputs at)) starts.now }
    requires front { length code.now.outputs ≤ code.now.inputs }
    requires wide { 2 + 2 * code.now.inputs + length code.now.instructions ≤ length runs.old.values.items }
    requires room { vec_len changes.old + length starts.now * length code.now.outputs ≤ vec_capacity changes.old }
    requires known { runs.old.place ≡ Some place → IsRunOf code.now runs.old.values.items }
    ensures notes { NotesAll joining code.now nodes.now starts.now state.now changes.old.items changes.new.items }
    ensures few { vec_len changes.new ≤ vec_len changes.old + length starts.now * length code.now.outputs }
    ensures capacity { vec_capacity changes.new ≡ vec_capacity changes.old }
    ensures steps { steps.new ≤ steps.old + length code.now.instructions }
    ensures place { runs.new.place ≡ Some place }
    ensures known { IsRunOf code.now runs.new.values.items }
{
    let at = starts[0] as usize;
    let column = column_of(place, code, nodes, at, state, runs, steps);
    note_all(joining, code, nodes, starts, &runs.values, column, changes);
}

// The column of the run on the states of the nodes of the map that begins at this place: if there is none yet, the code is
// run on them in the next column.
fn column_of<L: Ledger>(
    place: u32,
    code: &Code,
    nodes: &[u32],
    at: usize,
    state: &[Tern],
    runs: &mut LastRuns,
    steps: &mut Steps<L>,
) -> usize
    requires inside { at + code.now.inputs ≤ length nodes.now }
    requires below { All (λ node. node < length state.now) (map_at nodes.now code.now.inputs at) }
    requires wide { 2 + 2 * code.now.inputs + length code.now.instructions ≤ length runs.old.values.items }
    requires known { runs.old.place ≡ Some place → IsRunOf code.now runs.old.values.items }
    ensures inside { result < 64 }
    ensures begins { take (2 + 2 * code.now.inputs) (column_bits result runs.new.values.items)
        ≡ flat_values (states_at state.now nodes.now code.now.inputs at) [] }
    ensures wide { length runs.new.values.items ≡ length runs.old.values.items }
    ensures steps { steps.new ≤ steps.old + length code.now.instructions }
    ensures place { runs.new.place ≡ Some place }
    ensures known { IsRunOf code.now runs.new.values.items }
{
    if let Some(column) = found(place, code.inputs(), nodes, at, state, runs) {
        return column;
    }
    let column = runs.next % COLUMNS;
    begin_column(state, nodes, at, code.inputs(), column, &mut runs.values);
    run_steps(code, &mut runs.values, steps);
    runs.place = Some(place);
    runs.next = column + 1;
    column
}

// The column of a run of the code at this place on the states of these nodes, if it is among the last runs.
fn found(
    place: u32,
    inputs: usize,
    nodes: &[u32],
    at: usize,
    state: &[Tern],
    runs: &LastRuns,
) -> Option<usize>
    requires inside { at + inputs ≤ length nodes.now }
    requires below { All (λ node. node < length state.now) (map_at nodes.now inputs at) }
    requires wide { 2 + 2 * inputs ≤ length runs.now.values.items }
    ensures place { IfSome result (λ column. runs.now.place ≡ Some place) }
    ensures inside { IfSome result (λ column. column < 64) }
    ensures begins { IfSome result (λ column. take (2 + 2 * inputs) (column_bits column runs.now.values.items)
        ≡ flat_values (states_at state.now nodes.now inputs at) []) }
{
    if runs.place? != place {
        return None;
    }
    column_with(state, nodes, at, inputs, &runs.values)
}
