//! The states of all columns, and the machine that moves them, if there is one.

ghost use Rattle.std.specs.Prelude.{List, ◌≡◌, ℕ, ◌+◌, ◌-◌, ◌<◌, ◌≤◌, ◌⊎◌, true, None, Some, Err, ◌∷◌, length, is_some, replicate, slice_index_or, slice_set, IfSome, IfNone, IfOk, IfErr, OnOk, OnErr};
ghost use Rattle.std.specs.Bool.{OnTrue, OnFalse};
ghost use Rattle.column_machine_stage.specs.Words.{Zero, One, Unk, RAILS, GraphData, nodes, state_at, IsRailed, IsSound, IsStep, IsWired};
ghost use Rattle.column_machine_stage.specs.Words.{MOST_LIMIT, Settled, texts_of, undo, used_texts, Builds, GroupTextData, IsCutInColumns};
ghost use Rattle.column_machine_stage.specs.Words.{IsCutOff, IsGrown, Settles, TellsRefused, column_states, HasStates, GrowsWords};
ghost use Rattle.column_machine_stage.specs.Words.{spare_of, columns_of, highs_of, lows_of, last_in, spare_in, CanFollow, CoversInColumns};
ghost use Rattle.column_machine_stage.specs.Words.{FitsInColumns, IsKeptByColumns, AreColumns, AreAmong, AreSound, with_new_nodes};
ghost use Rattle.column_machine_stage.specs.Words.{NEW_NODES};
ghost use Rattle.column_machine_stage.specs.Stages.{EditsFrom, FitsIn, GrowsHeld, IsInTurnIn, IsTogetherIn, KeepsFit, KeepsRoomIn, MovesTogether, ReservesFrom, SameStates, ServesIn, hi_held, last_held, lo_held, machine_held, spare_held, states_in};
ghost use Rattle.column_machine_stage.specs.Acts.{BuildsColumns};

use crate::words::{UNKNOWN, Words};
use analysis_cache::{Analyst, Kept};
use channel_groups::Change;
use circuit_texts::BuildFault;
use column_machines::{ColumnMachine, Rails, grow_rails, state_in};
use column_stage::NEW_NODES;
use settling::{MOST_LIMIT, Settled};
use std::alloc::Global;
use std::marker::Model;
use std::mem;
use switch_paths::{GND, Graph, RAILS, VDD};
use ternary::{NoMemory, Tern};

// The rails alone, or the machine that moves them.
#[derive(Drop)]
pub(crate) enum Held {
    Still(Rails),
    Built(ColumnMachine),
}

/// The stage of a script for columns over a compiled machine: the states of all columns, and the machine that moves them,
/// if there is one.
///
/// Contracts see how many columns there are, the words of their states, the machine, how many members its groups may have,
/// and for how many new nodes there is room.
#[derive(Drop)]
pub struct ColumnMachineStage {
    alloc: Global,
    columns: u32,
    held: Held,
    // how many members the groups of the machine may have
    large: usize,
}

impl Model for ColumnMachineStage {
    ghost use Rattle.column_machine_stage.specs.Stages.{StageData, hi_held, lo_held, machine_held, spare_held, IsStage};

    ghost Value = { StageData };

    ghost view = { λ stage. record { columns = stage.columns; hi = hi_held stage.held; lo = lo_held stage.held; machine = machine_held stage.held; large = stage.large; spare = spare_held stage.held } };

    ghost invariant = { λ stage. IsStage (record { columns = stage.columns; hi = hi_held stage.held; lo = lo_held stage.held; machine = machine_held stage.held; large = stage.large; spare = spare_held stage.held }) };
}

impl ColumnMachineStage {
    /// The states at the start, in so many columns: Gnd is 0, Vdd is 1 and every other node X.
    pub fn start(alloc: Global, columns: u32, nodes: usize) -> Result<ColumnMachineStage, NoMemory>
        requires some { 1 ≤ columns }
        requires few { columns ≤ 64 }
        requires railed { RAILS ≤ nodes }
        ensures columns { IfOk result (λ stage. stage.columns ≡ columns) }
        ensures states { IfOk result (λ stage. (column : ℕ) → column < columns
            → states_in stage column ≡ Zero ∷ One ∷ replicate (nodes - RAILS) Unk) }
        ensures machine { IfOk result (λ stage. stage.machine ≡ None) }
        ensures serves { IfOk result (λ stage. (g : GraphData) (kept : List GroupTextData) → ServesIn stage g kept) }
    {
        let mut hi = vec![in alloc; UNKNOWN.hi; nodes]?;
        let mut lo = vec![in alloc; UNKNOWN.lo; nodes]?;
        hi[GND] = 0;
        lo[VDD] = 0;
        let held = Held::Still(Rails { hi, lo });
        Ok(ColumnMachineStage {
            alloc,
            columns,
            held,
            large: 0,
        })
    }

    // How many columns there are.
    pub(crate) fn count(&self) -> u32
        ensures value { result ≡ self.now.columns }
        ensures some { 1 ≤ result }
        ensures few { result ≤ 64 }
    {
        self.columns
    }

    // The rail "may be 1" of each node, bit i for column i.
    fn high_words(&self) -> &[u64]
        ensures { result.now ≡ self.now.hi }
    {
        match &self.held {
            Held::Still(rails) => &rails.hi,
            Held::Built(machine) => machine.hi(),
        }
    }

    // The rail "may be 0" of each node, bit i for column i.
    fn low_words(&self) -> &[u64]
        ensures { result.now ≡ self.now.lo }
    {
        match &self.held {
            Held::Still(rails) => &rails.lo,
            Held::Built(machine) => machine.lo(),
        }
    }

    // In each column the words are the rails of states: a call of this is for its contract alone.
    fn are_columns(&self)
        ensures { AreColumns self.now.columns self.now.hi self.now.lo }
    {
        match &self.held {
            Held::Still(_) => {}
            Held::Built(machine) => {
                let _few = machine.columns();
            }
        }
    }

    // The state of a node in a column.
    pub(crate) fn state_of(&self, node: usize, column: u32) -> Tern
        requires column { column < self.now.columns }
        requires node { node < length (states_in self.now column) }
        ensures { result ≡ state_at (states_in self.now column) node }
    {
        // a call for the proof alone: the columns are few
        let _few = self.count();
        let (hi, lo) = (self.high_words(), self.low_words());
        word_state(hi, lo, node, column as usize)
    }

    // Takes room for as many new nodes as one edit makes at most. A machine for columns that take turns is let go: it follows
    // no edit.
    //
    // The states stay, out of memory too.
    pub(crate) fn take_room(&mut self) -> Result<(), NoMemory>
        ensures same { SameStates self.old self.new }
        ensures room { OnOk result (NEW_NODES ≤ self.new.spare) }
        ensures machine { IfSome self.new.machine (ReservesFrom self.old.machine) }
        ensures last { last_held self.new.machine ≡ last_held self.old.machine }
        ensures large { self.new.large ≡ self.old.large }
    {
        self.leave_turns();
        reserve_in(&mut self.held)
    }

    // Lets a machine for columns that take turns go.
    fn leave_turns(&mut self)
        ensures columns { self.new.columns ≡ self.old.columns }
        ensures hi { self.new.hi ≡ self.old.hi }
        ensures lo { self.new.lo ≡ self.old.lo }
        ensures machine { IfSome self.new.machine (λ machine. self.old.machine ≡ Some machine) }
        ensures last { last_held self.new.machine ≡ last_held self.old.machine }
        ensures large { self.new.large ≡ self.old.large }
    {
        let held = mem::replace(&mut self.held, no_rails(self.alloc));
        self.held = without_turns(held);
    }

    // Goes on after an edit: a node that is X in each column is added for each that is new, in room that is there. What
    // machine there is follows the edit, or is let go; then the texts of its last build are moved to the front of what is
    // kept, where they count as standing anyhow.
    pub(crate) fn follow(&mut self, graph: &Graph, change: &Change, kept: &mut Kept)
        requires covers { IfSome self.old.machine (CanFollow (undo graph.now change.now)) }
        requires wired { IsWired (undo graph.now change.now) }
        requires room { nodes graph.now ≤ length self.old.hi + self.old.spare }
        requires last { AreAmong (last_held self.old.machine) (texts_of kept.old) }
        ensures columns { self.new.columns ≡ self.old.columns }
        ensures states { (column : ℕ) → column < self.old.columns
            → states_in self.new column ≡ with_new_nodes (states_in self.old column) (nodes graph.now) }
        ensures machine { IfSome self.new.machine (EditsFrom graph.now change.now self.old.machine) }
        ensures kept { used_texts (last_held self.new.machine) (texts_of kept.new) ≡ used_texts (last_held self.old.machine) (texts_of kept.old) }
        ensures last { AreAmong (last_held self.new.machine) (texts_of kept.new) }
        ensures bound { kept.new.bound ≡ kept.old.bound }
        ensures large { self.new.large ≡ self.old.large }
    {
        // a call for the proof alone: in each column the words are the rails of states
        self.are_columns();
        let columns = self.count();
        let held = mem::replace(&mut self.held, no_rails(self.alloc));
        self.held = followed(held, columns, graph, change, kept);
    }

    // Moves the texts of the machine's last build, if there is a machine, to the front of what is kept.
    pub(crate) fn put_last(&self, kept: &mut Kept)
        requires { AreAmong (last_held self.now.machine) (texts_of kept.old) }
        ensures kept { texts_of kept.new ≡ used_texts (last_held self.now.machine) (texts_of kept.old) }
        ensures bound { kept.new.bound ≡ kept.old.bound }
    {
        match &self.held {
            Held::Still(_) => {}
            Held::Built(machine) => machine.use_last(kept),
        }
    }

    // Gets a machine that fits the graph: the stale parts of the one that is there get their codes, and if there is none, or one
    // for columns that take turns that was made otherwise, one is made.
    //
    // Texts that aren't kept are analysed first, each once, and kept. What is kept, with the texts of this build in front, is
    // what a build leaves. The refusals are those of a build, with groups of up to `large` members accepted; after them the
    // states are as before, and the machine.
    pub(crate) fn make<A: Analyst>(
        &mut self,
        graph: &Graph,
        large: usize,
        kept: &mut Kept,
        analyst: &mut A,
    ) -> Result<u64, BuildFault>
        requires railed { IsRailed graph.now }
        requires sound { AreSound graph.now self.old.columns (states_in self.old) }
        requires serves { ServesIn self.old graph.now (used_texts (last_held self.old.machine) (texts_of kept.old)) }
        requires last { AreAmong (last_held self.old.machine) (texts_of kept.old) }
        ensures made { OnOk result (BuildsColumns large graph.now self.old self.new) }
        ensures serves { ServesIn self.new graph.now (used_texts (last_held self.new.machine) (texts_of kept.new)) }
        ensures builds { IfOk result (Builds large graph.now kept.old.bound (used_texts (last_held self.old.machine) (texts_of kept.old)) (used_texts (last_held self.new.machine) (texts_of kept.new))
            (A.analysed analyst.old) (A.analysed analyst.new)) }
        ensures last { AreAmong (last_held self.new.machine) (texts_of kept.new) }
        ensures bound { kept.new.bound ≡ kept.old.bound }
        ensures cut_off { result ≡ Err BuildFault.NoMemory → IsCutInColumns large graph.now kept.old.bound (used_texts (last_held self.old.machine) (texts_of kept.old)) (used_texts (last_held self.new.machine) (texts_of kept.new))
            (A.analysed analyst.old) (A.analysed analyst.new) }
        ensures refused { IfErr result (λ fault. (fault ≡ BuildFault.NoMemory)
            ⊎ (TellsRefused large graph.now fault × (kept.new ≡ kept.old) × (A.analysed analyst.new ≡ A.analysed analyst.old))) }
        ensures err { OnErr result (self.new ≡ self.old) }
    {
        if self.is_together() {
            return self.finish(graph, large, kept, analyst);
        }
        self.make_anew(graph, large, kept, analyst)
    }

    // Whether there is a machine for columns that step together.
    fn is_together(&self) -> bool
        ensures yes { OnTrue result (IsTogetherIn self.now.machine) }
        ensures no { OnFalse result (IsInTurnIn self.now.machine) }
    {
        match &self.held {
            Held::Still(_) => false,
            Held::Built(machine) => machine.is_together(),
        }
    }

    // Gives the stale parts of the machine, which is for columns that step together, their codes.
    fn finish<A: Analyst>(
        &mut self,
        graph: &Graph,
        large: usize,
        kept: &mut Kept,
        analyst: &mut A,
    ) -> Result<u64, BuildFault>
        requires together { IsTogetherIn self.old.machine }
        requires railed { IsRailed graph.now }
        requires sound { AreSound graph.now self.old.columns (states_in self.old) }
        requires serves { ServesIn self.old graph.now (used_texts (last_held self.old.machine) (texts_of kept.old)) }
        requires last { AreAmong (last_held self.old.machine) (texts_of kept.old) }
        ensures made { OnOk result (BuildsColumns large graph.now self.old self.new) }
        ensures together { IsTogetherIn self.new.machine }
        ensures builds { IfOk result (Builds large graph.now kept.old.bound (used_texts (last_held self.old.machine) (texts_of kept.old)) (used_texts (last_held self.new.machine) (texts_of kept.new))
            (A.analysed analyst.old) (A.analysed analyst.new)) }
        ensures last { OnOk result (AreAmong (last_held self.new.machine) (texts_of kept.new)) }
        ensures bound { kept.new.bound ≡ kept.old.bound }
        ensures cut_off { result ≡ Err BuildFault.NoMemory → IsCutOff large graph.now (used_texts (last_held self.old.machine) (texts_of kept.old)) (used_texts (last_held self.old.machine) (texts_of kept.new))
            (A.analysed analyst.old) (A.analysed analyst.new) }
        ensures refused { IfErr result (λ fault. fault ≡ BuildFault.NoMemory) }
        ensures err { OnErr result (self.new ≡ self.old) }
        ensures grown { OnErr result (IsGrown kept.old kept.new) }
    {
        // a call for the proof alone: the columns are as many as the machine's
        let _few = self.count();
        finish_in(&mut self.held, graph, kept, analyst)
    }

    // Gets a machine that fits the graph, where there is none, or one for columns that take turns: that one stays, if it was made
    // so, and if not one is made.
    fn make_anew<A: Analyst>(
        &mut self,
        graph: &Graph,
        large: usize,
        kept: &mut Kept,
        analyst: &mut A,
    ) -> Result<u64, BuildFault>
        requires turns { IsInTurnIn self.old.machine }
        requires railed { IsRailed graph.now }
        requires sound { AreSound graph.now self.old.columns (states_in self.old) }
        requires serves { ServesIn self.old graph.now (texts_of kept.old) }
        ensures made { OnOk result (BuildsColumns large graph.now self.old self.new) }
        ensures serves { ServesIn self.new graph.now (texts_of kept.new) }
        ensures builds { IfOk result (Builds large graph.now kept.old.bound (texts_of kept.old) (texts_of kept.new) (A.analysed analyst.old) (A.analysed analyst.new)) }
        ensures last { OnOk result (AreAmong (last_held self.new.machine) (texts_of kept.new)) }
        ensures front { OnOk result (used_texts (last_held self.new.machine) (texts_of kept.new) ≡ texts_of kept.new) }
        ensures bound { kept.new.bound ≡ kept.old.bound }
        ensures cut_off { result ≡ Err BuildFault.NoMemory → IsCutInColumns large graph.now kept.old.bound (texts_of kept.old) (texts_of kept.new) (A.analysed analyst.old) (A.analysed analyst.new) }
        ensures refused { IfErr result (λ fault. (fault ≡ BuildFault.NoMemory)
            ⊎ (TellsRefused large graph.now fault × (kept.new ≡ kept.old) × (A.analysed analyst.new ≡ A.analysed analyst.old))) }
        ensures err { OnErr result (self.new ≡ self.old) }
    {
        if self.is_made(large, kept) {
            return Ok(0);
        }
        let (machine, fresh) = self.machine_of(graph, large, kept, analyst)?;
        self.put(machine, large);
        Ok(fresh)
    }

    // Whether there is a machine with groups of up to so many members, and no bound on what is kept.
    fn is_made(&self, large: usize, kept: &Kept) -> bool
        ensures there { OnTrue result (is_some self.now.machine ≡ true) }
        ensures large { OnTrue result (self.now.large ≡ large) }
        ensures unbounded { OnTrue result (kept.now.bound ≡ None) }
    {
        if self.large != large {
            return false;
        }
        if let Some(_bound) = kept.bound() {
            return false;
        }
        match &self.held {
            Held::Still(_) => false,
            Held::Built(_) => true,
        }
    }

    // A machine that fits the graph, in the columns' states. The refusals are those of a build.
    fn machine_of<A: Analyst>(
        &self,
        graph: &Graph,
        large: usize,
        kept: &mut Kept,
        analyst: &mut A,
    ) -> Result<(ColumnMachine, u64), BuildFault>
        requires railed { IsRailed graph.now }
        requires sound { AreSound graph.now self.now.columns (states_in self.now) }
        ensures fits { IfOk result (λ made. FitsInColumns graph.now made.0) }
        ensures same { IfOk result (λ made. (columns_of made.0 ≡ self.now.columns) × (highs_of made.0 ≡ self.now.hi)
            × (lows_of made.0 ≡ self.now.lo)) }
        ensures builds { IfOk result (λ made. Builds large graph.now kept.old.bound (texts_of kept.old) (texts_of kept.new) (A.analysed analyst.old) (A.analysed analyst.new) made.1) }
        ensures bound { kept.new.bound ≡ kept.old.bound }
        ensures cut_off { result ≡ Err BuildFault.NoMemory → IsCutInColumns large graph.now kept.old.bound (texts_of kept.old) (texts_of kept.new) (A.analysed analyst.old) (A.analysed analyst.new) }
        ensures refused { IfErr result (λ fault. (fault ≡ BuildFault.NoMemory)
            ⊎ (TellsRefused large graph.now fault × (kept.new ≡ kept.old) × (A.analysed analyst.new ≡ A.analysed analyst.old))) }
    {
        // a call for the proof alone: in each column the words are the rails of states
        self.are_columns();
        let columns = self.count();
        let (hi, lo) = (self.high_words(), self.low_words());
        ColumnMachine::build(self.alloc, graph, columns, hi, lo, large, kept, analyst)
    }

    // From here on this machine moves the states, with groups of up to so many members.
    fn put(&mut self, machine: ColumnMachine, large: usize)
        requires { columns_of machine ≡ self.old.columns }
        ensures columns { self.new.columns ≡ self.old.columns }
        ensures hi { self.new.hi ≡ highs_of machine }
        ensures lo { self.new.lo ≡ lows_of machine }
        ensures machine { self.new.machine ≡ Some machine }
        ensures large { self.new.large ≡ large }
    {
        self.large = large;
        self.held = Held::Built(machine);
    }

    // Gives a node that is no rail the states that the words have in each column.
    pub(crate) fn set_node(&mut self, graph: &Graph, node: usize, words: Words)
        requires inside { node < length (states_in self.old 0) }
        requires no_rail { RAILS ≤ node }
        requires states { HasStates self.old.columns words.hi words.lo }
        ensures hi { self.new.hi ≡ slice_set self.old.hi node words.hi }
        ensures lo { self.new.lo ≡ slice_set self.old.lo node words.lo }
        ensures columns { self.new.columns ≡ self.old.columns }
        ensures machine { KeepsFit graph.now self.old.machine self.new.machine }
        ensures large { self.new.large ≡ self.old.large }
    {
        match &mut self.held {
            Held::Still(rails) => {
                rails.hi[node] = words.hi;
                rails.lo[node] = words.lo;
            }
            Held::Built(machine) => machine.place(graph, node, words.hi, words.lo),
        }
    }

    // Has the machine, which fits the graph, take a unit step in each column.
    pub(crate) fn step_machine(&mut self, graph: &Graph)
        requires { FitsIn graph.now self.old.machine }
        ensures moves { MovesTogether graph.now (λ _ old new. IsStep graph.now old new) self.old self.new }
        ensures large { self.new.large ≡ self.old.large }
    {
        if let Held::Built(machine) = &mut self.held {
            machine.step(graph);
        }
    }

    // Has the machine, which fits the graph, settle in each column.
    pub(crate) fn settle_machine(&mut self, graph: &Graph, limit: u64, counts: &mut [Settled])
        requires fits { FitsIn graph.now self.old.machine }
        requires low { 1 ≤ limit }
        requires high { limit ≤ MOST_LIMIT }
        requires places { length counts.old ≡ self.old.columns }
        ensures moves { (past : Settled) → MovesTogether graph.now
            (λ column old new. Settles graph.now old limit new (slice_index_or counts.new column past).steps (slice_index_or counts.new column past).joined) self.old self.new }
        ensures large { self.new.large ≡ self.old.large }
    {
        if let Held::Built(machine) = &mut self.held {
            machine.settle(graph, limit, counts);
        }
    }
}

// The state of a node in a column, by its words.
fn word_state(hi: &[u64], lo: &[u64], node: usize, column: usize) -> Tern
    requires column { column < 64 }
    requires high { node < length hi.now }
    requires low { node < length lo.now }
    ensures { result ≡ state_at (column_states column hi.now lo.now) node }
{
    state_in(hi[node], lo[node], column)
}

// Takes room in what is held for as many new nodes as one edit makes at most.
fn reserve_in(held: &mut Held) -> Result<(), NoMemory>
    ensures hi { hi_held held.new ≡ hi_held held.old }
    ensures lo { lo_held held.new ≡ lo_held held.old }
    ensures room { OnOk result (NEW_NODES ≤ spare_held held.new) }
    ensures machine { KeepsRoomIn (machine_held held.old) (machine_held held.new) }
{
    match held {
        Held::Still(rails) => reserve_rails(rails),
        Held::Built(machine) => machine.reserve(),
    }
}

// Takes room for the words of as many new nodes as one edit makes at most.
fn reserve_rails(rails: &mut Rails) -> Result<(), NoMemory>
    ensures hi { rails.new.hi.items ≡ rails.old.hi.items }
    ensures lo { rails.new.lo.items ≡ rails.old.lo.items }
    ensures room { OnOk result (NEW_NODES ≤ spare_of rails.new.hi rails.new.lo) }
{
    rails.hi.reserve(NEW_NODES)?;
    rails.lo.reserve(NEW_NODES)?;
    Ok(())
}

// Gives the stale parts of the machine that is held, for columns that step together, their codes.
fn finish_in<A: Analyst>(
    held: &mut Held,
    graph: &Graph,
    kept: &mut Kept,
    analyst: &mut A,
) -> Result<u64, BuildFault>
    requires together { IsTogetherIn (machine_held held.old) }
    requires covers { IfSome (machine_held held.old) (CoversInColumns graph.now) }
    requires railed { IsRailed graph.now }
    requires sound { IfSome (machine_held held.old) (λ machine. (column : ℕ) → column < columns_of machine → IsSound (column_states column (hi_held held.old) (lo_held held.old))) }
    requires known { IfSome (machine_held held.old) (IsKeptByColumns graph.now (texts_of kept.old)) }
    requires last { AreAmong (last_held (machine_held held.old)) (texts_of kept.old) }
    ensures together { IsTogetherIn (machine_held held.new) }
    ensures fits { OnOk result (FitsIn graph.now (machine_held held.new)) }
    ensures columns { IfSome (machine_held held.new) (λ machine. IfSome (machine_held held.old) (λ old. columns_of machine ≡ columns_of old)) }
    ensures hi { hi_held held.new ≡ hi_held held.old }
    ensures lo { lo_held held.new ≡ lo_held held.old }
    ensures builds { IfOk result (λ count. (large : ℕ) → Builds large graph.now kept.old.bound (used_texts (last_held (machine_held held.old)) (texts_of kept.old)) (used_texts (last_held (machine_held held.new)) (texts_of kept.new))
        (A.analysed analyst.old) (A.analysed analyst.new) count) }
    ensures last { OnOk result (AreAmong (last_held (machine_held held.new)) (texts_of kept.new)) }
    ensures bound { kept.new.bound ≡ kept.old.bound }
    ensures cut_off { result ≡ Err BuildFault.NoMemory → (large : ℕ) → IsCutOff large graph.now (used_texts (last_held (machine_held held.old)) (texts_of kept.old)) (used_texts (last_held (machine_held held.old)) (texts_of kept.new))
        (A.analysed analyst.old) (A.analysed analyst.new) }
    ensures refused { IfErr result (λ fault. fault ≡ BuildFault.NoMemory) }
    ensures err { OnErr result (held.new ≡ held.old) }
    ensures grown { OnErr result (IsGrown kept.old kept.new) }
{
    match held {
        Held::Still(_) => Err(BuildFault::NoMemory),
        Held::Built(machine) => machine.finish(graph, kept, analyst),
    }
}

// No rails.
fn no_rails(alloc: Global) -> Held
    ensures { machine_held result ≡ None }
{
    Held::Still(Rails {
        hi: Vec::new(alloc),
        lo: Vec::new(alloc),
    })
}

// What is held, but for a machine for columns that take turns, which leaves its words.
fn without_turns(held: Held) -> Held
    ensures hi { hi_held result ≡ hi_held held }
    ensures lo { lo_held result ≡ lo_held held }
    ensures machine { IfSome (machine_held result) (λ machine. machine_held held ≡ Some machine) }
    ensures last { last_held (machine_held result) ≡ last_held (machine_held held) }
    ensures columns_are { (columns : ℕ) → IfSome (machine_held held) (λ machine. columns_of machine ≡ columns) → IfNone (machine_held held) (AreColumns columns (hi_held held) (lo_held held))
        → IfNone (machine_held result) (AreColumns columns (hi_held result) (lo_held result)) }
{
    match held {
        Held::Still(rails) => Held::Still(rails),
        Held::Built(machine) => without_turn(machine),
    }
}

// A machine for columns that step together; one for columns that take turns leaves its words.
fn without_turn(machine: ColumnMachine) -> Held
    ensures hi { hi_held result ≡ highs_of machine }
    ensures lo { lo_held result ≡ lows_of machine }
    ensures machine { IfSome (machine_held result) (λ one. one ≡ machine) }
    ensures last { last_held (machine_held result) ≡ last_in machine }
    ensures columns_are { IfNone (machine_held result) (AreColumns (columns_of machine) (hi_held result) (lo_held result)) }
{
    if machine.is_together() {
        return Held::Built(machine);
    }
    Held::Still(machine.into_rails())
}

// What is held after an edit of the graph, with X for each node that is new.
fn followed(held: Held, columns: u32, graph: &Graph, change: &Change, kept: &mut Kept) -> Held
    requires few { columns ≤ 64 }
    requires columns_are { AreColumns columns (hi_held held) (lo_held held) }
    requires same { IfSome (machine_held held) (λ machine. columns_of machine ≡ columns) }
    requires covers { IfSome (machine_held held) (CanFollow (undo graph.now change.now)) }
    requires wired { IsWired (undo graph.now change.now) }
    requires room { nodes graph.now ≤ length (hi_held held) + spare_held held }
    requires last { AreAmong (last_held (machine_held held)) (texts_of kept.old) }
    ensures grows { GrowsHeld graph.now columns (hi_held held) (lo_held held) result }
    ensures machine { IfSome (machine_held result) (EditsFrom graph.now change.now (machine_held held)) }
    ensures kept { used_texts (last_held (machine_held result)) (texts_of kept.new) ≡ used_texts (last_held (machine_held held)) (texts_of kept.old) }
    ensures last { AreAmong (last_held (machine_held result)) (texts_of kept.new) }
    ensures bound { kept.new.bound ≡ kept.old.bound }
{
    match held {
        Held::Still(rails) => Held::Still(grown(rails, columns, graph)),
        Held::Built(machine) => edited(machine, graph, change, kept),
    }
}

// Rails with X for each node that is new to a graph, in room that is there.
fn grown(rails: Rails, columns: u32, graph: &Graph) -> Rails
    requires few { columns ≤ 64 }
    requires columns_are { AreColumns columns rails.hi.items rails.lo.items }
    requires room { nodes graph.now ≤ length rails.hi.items + spare_of rails.hi rails.lo }
    ensures { GrowsWords graph.now columns rails.hi.items rails.lo.items result.hi.items result.lo.items }
{
    let mut rails = rails;
    grow_rails(&mut rails, graph.nodes());
    rails
}

// A machine after an edit of the graph, or the words that it leaves.
fn edited(machine: ColumnMachine, graph: &Graph, change: &Change, kept: &mut Kept) -> Held
    requires covers { CanFollow (undo graph.now change.now) machine }
    requires wired { IsWired (undo graph.now change.now) }
    requires room { nodes graph.now ≤ length (highs_of machine) + spare_in machine }
    requires last { AreAmong (last_in machine) (texts_of kept.old) }
    ensures grows { GrowsHeld graph.now (columns_of machine) (highs_of machine) (lows_of machine) result }
    ensures machine { IfSome (machine_held result) (EditsFrom graph.now change.now (Some machine)) }
    ensures kept { used_texts (last_held (machine_held result)) (texts_of kept.new) ≡ used_texts (last_in machine) (texts_of kept.old) }
    ensures last { AreAmong (last_held (machine_held result)) (texts_of kept.new) }
    ensures bound { kept.new.bound ≡ kept.old.bound }
{
    match machine.edit(graph, change, kept) {
        Ok(next) => Held::Built(next),
        Err(rails) => Held::Still(rails),
    }
}
