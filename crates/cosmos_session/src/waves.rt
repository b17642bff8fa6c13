//! Waveform lines: the room of one or of a row of them, taken before the first unit step and held between commands, and how a line or
//! a row is told.

ghost use Rattle.std.specs.Prelude.{◌≡◌, ◌<◌, ◌≤◌, ℕ, ◌+◌, ◌*◌, ◌^◌, ◌++◌, [], ◌∷◌, length, map, false, replicate, vec_len, vec_capacity, All, IfErr, IfOk, OnOk};
ghost use Rattle.cosmos_session.specs.Words.{state_at, COLUMN_ROOM, MOST_VALUES, WAVE_LINE_ROOM, Hears, row_of, Shown, Wave, IsShort};
ghost use Rattle.cosmos_session.specs.Words.{room_of, line_seen, count_at, values_at, wave_row, IsSinkFault, faults_applied, refusals_sent};
ghost use Rattle.cosmos_session.specs.Words.{Sent};

use column_stage::Stage;
use session_meaning::{ApplyFault, MOST_WATCHED};
use settling::Settled;
use std::alloc::Global;
use std::marker::Model;
use ternary::{NoMemory, Tern};
use told_lines::{Line, Lines};

/// The room of the values of a waveform line, or of a row of them: so many states.
///
/// Contracts see of how many. It is empty but within a call.
#[derive(Drop)]
pub(crate) struct WaveRoom {
    values: Vec<Tern>,
}

impl Model for WaveRoom {
    ghost use Rattle.std.specs.Prelude.{◌≡◌, ℕ, [], vec_capacity};

    ghost Value = { ℕ };

    ghost view = { λ room. vec_capacity room.values };

    ghost invariant = { λ room. room.values.items ≡ [] };
}

/// What a session holds between commands, so that a step or a phase takes no memory that an earlier one took: a count for each
/// column, and room for the values of a row.
#[derive(Drop)]
pub(crate) struct RowRoom {
    pub(crate) counts: Vec<Settled>,
    pub(crate) values: WaveRoom,
}

impl RowRoom {
    /// Nothing is held yet.
    pub(crate) fn new(alloc: Global) -> RowRoom
        ensures { result.counts.items ≡ [] }
    {
        RowRoom {
            counts: Vec::new(alloc),
            values: WaveRoom {
                values: Vec::new(alloc),
            },
        }
    }

    /// Counts a single unit step in each of so many columns, and has room for so many states. What is held already serves
    /// again.
    pub(crate) fn make_ready(&mut self, columns: usize, states: usize) -> Result<(), NoMemory>
        ensures counts { OnOk result (self.new.counts.items ≡ replicate columns (record { steps = 1; joined = false })) }
        ensures room { OnOk result (states ≤ self.new.values) }
    {
        let single = Settled {
            steps: 1,
            joined: false,
        };
        self.counts.clear();
        self.counts.resize(columns, single)?;
        self.values.reserve(states)
    }
}

impl WaveRoom {
    /// Has room for so many states.
    fn reserve(&mut self, states: usize) -> Result<(), NoMemory>
        ensures { OnOk result (states ≤ self.new) }
    {
        self.values.reserve(states)?;
        Ok(())
    }

    /// Room for so many states.
    pub(crate) fn new(alloc: Global, states: usize) -> Result<WaveRoom, NoMemory>
        ensures { IfOk result (λ room. states ≤ room) }
    {
        Ok(WaveRoom {
            values: Vec::with_capacity(alloc, states)?,
        })
    }

    /// Tells the line of a name that is shown, with the states of these nodes.
    pub(crate) fn show<L: Lines>(
        &mut self,
        name: &[u8],
        state: &[Tern],
        nodes: &[usize],
        out: &mut L,
    ) -> Result<(), ApplyFault>
        requires room { length nodes.now ≤ self.old }
        requires line { room_of (Shown name.now (map (state_at state.now) nodes.now)) ≤ L.room out.old }
        requires within { All (λ node. node < length state.now) nodes.now }
        ensures room { self.new ≡ self.old }
        ensures line { L.room out.new ≡ L.room out.old }
        ensures sent { Sent L.hear L.part (L.heard out.old) (L.heard out.new) (Shown name.now (map (state_at state.now) nodes.now) ∷ []) result }
        ensures cause { IfErr result IsSinkFault }
        ensures faults { L.faults out.new ≡ faults_applied (L.faults out.old) result }
        ensures refusals { L.refusals out.new ≡ refusals_sent (L.refusals out.old) result }
    {
        push_states(&mut self.values, state, nodes);
        let values = &self.values;
        let told = tell_line(Line::Shown { name, values }, out);
        self.values.clear();
        told
    }
}

impl WaveRoom {
    /// Tells the waveform lines with this number of all columns in order, of so many steps each, with the states of these nodes in
    /// the column.
    pub(crate) fn tell_row<M: Stage, L: Lines>(
        &mut self,
        n: u64,
        counts: &[Settled],
        stage: &M,
        nodes: &[usize],
        out: &mut L,
    ) -> Result<(), ApplyFault>
        requires counts { length counts.now ≡ M.columns stage.now }
        requires room { M.columns stage.now * length nodes.now ≤ self.old }
        requires line { M.columns stage.now * (COLUMN_ROOM + WAVE_LINE_ROOM) ≤ L.room out.old }
        requires few { length nodes.now ≤ MOST_WATCHED }
        requires within { (column : ℕ) → column < M.columns stage.now → All (λ node. node < length (M.states stage.now column)) nodes.now }
        ensures room { self.new ≡ self.old }
        ensures line { L.room out.new ≡ L.room out.old }
        ensures sent { Hears L.hear L.part (L.heard out.old) (L.heard out.new)
            (row_of (λ column. Wave n (count_at counts.now column).steps (count_at counts.now column).joined (map (state_at (M.states stage.now column)) nodes.now) ∷ [])
            (M.columns stage.now)) result }
        ensures cause { IfErr result IsSinkFault }
        ensures faults { L.faults out.new ≡ faults_applied (L.faults out.old) result }
        ensures refusals { L.refusals out.new ≡ refusals_sent (L.refusals out.old) result }
    {
        push_columns(&mut self.values, stage, nodes);
        let values = &self.values;
        let told = tell_values(n, counts, nodes.len(), values, out);
        self.values.clear();
        told
    }
}

// Tells a row with these values. A fault of the hearer is what ends a command.
fn tell_values<L: Lines>(
    n: u64,
    counts: &[Settled],
    width: usize,
    values: &[Tern],
    out: &mut L,
) -> Result<(), ApplyFault>
    requires columns { length counts.now < 2 ^ 32 }
    requires values { length values.now ≡ length counts.now * width }
    requires width { width ≤ MOST_VALUES }
    requires room { length counts.now * (COLUMN_ROOM + WAVE_LINE_ROOM) ≤ L.room out.old }
    ensures room { L.room out.new ≡ L.room out.old }
    ensures sent { Hears L.hear L.part (L.heard out.old) (L.heard out.new) (wave_row n counts.now width values.now) result }
    ensures cause { IfErr result IsSinkFault }
    ensures faults { L.faults out.new ≡ faults_applied (L.faults out.old) result }
    ensures refusals { L.refusals out.new ≡ refusals_sent (L.refusals out.old) result }
{
    match out.tell_row(n, counts, width, values) {
        Ok(()) => Ok(()),
        Err(fault) => Err(ApplyFault::of_sink(fault)),
    }
}

/// Tells a line. A fault of the hearer is what ends a command.
pub(crate) fn tell_line<L: Lines>(line: Line, out: &mut L) -> Result<(), ApplyFault>
    requires room { room_of (line_seen line) ≤ L.room out.old }
    requires short { IsShort (line_seen line) }
    ensures room { L.room out.new ≡ L.room out.old }
    ensures sent { Sent L.hear L.part (L.heard out.old) (L.heard out.new) (line_seen line.entry ∷ []) result }
    ensures cause { IfErr result IsSinkFault }
    ensures faults { L.faults out.new ≡ faults_applied (L.faults out.old) result }
    ensures refusals { L.refusals out.new ≡ refusals_sent (L.refusals out.old) result }
{
    match out.tell(0, line) {
        Ok(()) => Ok(()),
        Err(fault) => Err(ApplyFault::of_sink(fault)),
    }
}

// Puts the states of these nodes in each column, column by column, in room that is there.
fn push_columns<M: Stage>(values: &mut Vec<Tern>, stage: &M, nodes: &[usize])
    requires empty { values.old.items ≡ [] }
    requires room { M.columns stage.now * length nodes.now ≤ vec_capacity values.old }
    requires within { (column : ℕ) → column < M.columns stage.now → All (λ node. node < length (M.states stage.now column)) nodes.now }
    ensures few { M.columns stage.now < 2 ^ 32 }
    ensures length { length values.new.items ≡ M.columns stage.now * length nodes.now }
    ensures each { (column : ℕ) → column < M.columns stage.now
        → values_at (length nodes.now) values.new.items column ≡ map (state_at (M.states stage.now column)) nodes.now }
    ensures capacity { vec_capacity values.new ≡ vec_capacity values.old }
{
    for column in 0..stage.columns() {
        push_column(values, column, stage, nodes);
    }
}

// Appends the states of these nodes in a column, in room that is there.
fn push_column<M: Stage>(values: &mut Vec<Tern>, column: u32, stage: &M, nodes: &[usize])
    requires column { column < M.columns stage.now }
    requires room { vec_len values.old + length nodes.now ≤ vec_capacity values.old }
    requires within { All (λ node. node < length (M.states stage.now column)) nodes.now }
    ensures items { values.new.items ≡ values.old.items ++ map (state_at (M.states stage.now column)) nodes.now }
    ensures capacity { vec_capacity values.new ≡ vec_capacity values.old }
{
    for &node in nodes {
        values.push_reserved(stage.state(node, column));
    }
}

// Appends the states of these nodes, in room that is there.
fn push_states(values: &mut Vec<Tern>, state: &[Tern], nodes: &[usize])
    requires room { vec_len values.old + length nodes.now ≤ vec_capacity values.old }
    requires within { All (λ node. node < length state.now) nodes.now }
    ensures items { values.new.items ≡ values.old.items ++ map (state_at state.now) nodes.now }
    ensures capacity { vec_capacity values.new ≡ vec_capacity values.old }
{
    for &node in nodes {
        values.push_reserved(state[node]);
    }
}
