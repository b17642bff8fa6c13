//! What moves columns: a machine that steps them together, or one that takes them in turn.
ghost use Rattle.std.specs.Prelude.{List, ◌≡◌, ℕ, ◌+◌, ◌<◌, ◌≤◌, ◌⊎◌, length, slice_index_or, slice_set, Err, IfOk, IfErr, OnOk, OnErr};
ghost use Rattle.std.specs.Bool.{OnTrue, OnFalse};
ghost use Rattle.column_machines.specs.Words.{RAILS, MOST_LIMIT, Settled, NEW_NODES};
ghost use Rattle.switch_paths.specs.Words.{GraphData, nodes, IsRailed, IsSound, IsStep, IsWired};
ghost use Rattle.column_machines.specs.Words.{texts_of, undo, used_texts, Builds, GroupTextData, IsCutInColumns, IsCutOff, IsGrown, Settles, TellsRefused};
ghost use Rattle.column_machines.specs.Columns.{column_states, CoversInWords, HasSoundColumn, HasStates};
ghost use Rattle.column_machines.specs.Editing.{AreKeptIn, GrowsWords};
ghost use Rattle.column_machines.specs.Moving.{columns_of, highs_of, lows_of, column_in, last_in, spare_in, CanFollow, CoversInColumns, EditsColumns, FitsInColumns, IsInTurn, IsKeptByColumns, IsOfKind, IsTogether, KeepsColumnsButRoom};
ghost use Rattle.column_machines.specs.declared.column_machine.ColumnMachine.TheVariants.{Together};
ghost use Rattle.column_machines.specs.Running.{AreColumns};
ghost use Rattle.column_machines.specs.Turns.{FitsInTurn};

use crate::machine::WordMachine;
use crate::rails::{Rails, grow_rails};
use crate::turns::TurnMachine;
use analysis_cache::{Analyst, Kept};
use channel_groups::Change;
use circuit_texts::BuildFault;
use column_stage::some_state;
use settling::{MOST_LIMIT, Settled};
use std::alloc::Global;
use switch_paths::Graph;
use ternary::NoMemory;
use unit_step::{Codes, Machine};
use word_settling::WordStepper;

/// What moves the columns of a circuit.
#[derive(Drop)]
pub enum ColumnMachine {
    /// All columns step together, by the codes of the groups' texts: each group has one.
    Together(WordMachine),
    /// The columns take turns, since some groups are too large for a text.
    InTurn(TurnMachine),
}

impl ColumnMachine {
    /// What moves the columns of a graph in these states, so many of them: a part for each group, with the code of
    /// the group's text, if it has one, and both rails of each node's states, bit i for column i.
    ///
    /// There are 1 to 64 columns; the bits from the last one on may be anything. Code comes from what is kept;
    /// texts that aren't kept are analysed first, each once, in the order of the groups, and kept. A group that is too
    /// large for a text is refused if it has more members than `large`: the first such group is told and nothing is
    /// analysed. The count is that of the new texts. Out of memory, nothing was analysed, or a prefix of what is new; or
    /// all of it, if there was none for the columns alone.
    pub fn build<A: Analyst>(
        alloc: Global,
        graph: &Graph,
        columns: u32,
        hi: &[u64],
        lo: &[u64],
        large: usize,
        kept: &mut Kept,
        analyst: &mut A,
    ) -> Result<(ColumnMachine, u64), BuildFault>
        requires some { 1 ≤ columns }
        requires few { columns ≤ 64 }
        requires highs { length hi.now ≡ nodes graph.now }
        requires lows { length lo.now ≡ nodes graph.now }
        requires railed { IsRailed graph.now }
        requires sound { (column : ℕ) → column < columns → HasSoundColumn graph.now hi.now lo.now column }
        ensures fits { IfOk result (λ made. FitsInColumns graph.now made.0) }
        ensures fresh { IfOk result (λ made. (columns_of made.0 ≡ columns) × (highs_of made.0 ≡ hi.now) × (lows_of made.0 ≡ lo.now)) }
        ensures builds { IfOk result (λ made. Builds large graph.now kept.old.bound (texts_of kept.old) (texts_of kept.new) (A.analysed analyst.old) (A.analysed analyst.new) made.1) }
        ensures bound { kept.new.bound ≡ kept.old.bound }
        ensures cut_off { result ≡ Err BuildFault.NoMemory → IsCutInColumns large graph.now kept.old.bound (texts_of kept.old) (texts_of kept.new) (A.analysed analyst.old) (A.analysed analyst.new) }
        ensures refused { IfErr result (λ fault. (fault ≡ BuildFault.NoMemory)
            ⊎ (TellsRefused large graph.now fault × (kept.new ≡ kept.old) × (A.analysed analyst.new ≡ A.analysed analyst.old))) }
    {
        let state = some_state(alloc, graph.nodes())?;
        let (machine, fresh) = Machine::build(
            alloc,
            graph,
            &state,
            large,
            Codes::All,
            kept,
            analyst,
        )?;
        if machine.has_wide_groups() {
            let turns = TurnMachine::of(alloc, columns, machine, hi, lo)?;
            return Ok((ColumnMachine::InTurn(turns), fresh));
        }
        let together = WordMachine::of_machine(alloc, graph, columns, machine, hi, lo)?;
        Ok((ColumnMachine::Together(together), fresh))
    }

    /// How many columns there are. In each of them the words are the rails of states.
    pub fn columns(&self) -> u32
        ensures value { result ≡ columns_of self.now }
        ensures few { result ≤ 64 }
        ensures columns_are { AreColumns (columns_of self.now) (highs_of self.now) (lows_of self.now) }
    {
        match self {
            ColumnMachine::Together(machine) => machine.columns(),
            ColumnMachine::InTurn(machine) => machine.columns(),
        }
    }

    /// The rail "may be 1" of each node, bit i for column i.
    pub fn hi(&self) -> &[u64]
        ensures { result.now ≡ highs_of self.now }
    {
        match self {
            ColumnMachine::Together(machine) => machine.hi(),
            ColumnMachine::InTurn(machine) => machine.hi(),
        }
    }

    /// The rail "may be 0" of each node, bit i for column i.
    pub fn lo(&self) -> &[u64]
        ensures { result.now ≡ lows_of self.now }
    {
        match self {
            ColumnMachine::Together(machine) => machine.lo(),
            ColumnMachine::InTurn(machine) => machine.lo(),
        }
    }

    /// Gives a node that is no rail these words; all other nodes stay.
    ///
    /// In each column some rail of the node is set. The graph is meant that is handed in: the machine covers and fits it
    /// afterwards if it did before. It takes no memory.
    pub fn place(&mut self, graph: &Graph, node: usize, hi: u64, lo: u64)
        requires inside { node < length (highs_of self.old) }
        requires no_rail { RAILS ≤ node }
        requires states { HasStates (columns_of self.old) hi lo }
        ensures highs { highs_of self.new ≡ slice_set (highs_of self.old) node hi }
        ensures lows { lows_of self.new ≡ slice_set (lows_of self.old) node lo }
        ensures columns { columns_of self.new ≡ columns_of self.old }
        ensures last { last_in self.new ≡ last_in self.old }
        ensures kind { IsOfKind self.old self.new }
        ensures known { (g : GraphData) (kept : List GroupTextData) → IsKeptByColumns g kept self.old → IsKeptByColumns g kept self.new }
        ensures covers { CoversInColumns graph.now self.old → CoversInColumns graph.now self.new }
        ensures fits { FitsInColumns graph.now self.old → FitsInColumns graph.now self.new }
    {
        match self {
            ColumnMachine::Together(machine) => machine.place(graph, node, hi, lo),
            ColumnMachine::InTurn(machine) => machine.place(node, hi, lo),
        }
    }

    /// Has each column take a unit step of a graph. It takes no memory.
    pub fn step(&mut self, graph: &Graph)
        ensures step { FitsInColumns graph.now self.old → (column : ℕ) → column < columns_of self.old
            → IsStep graph.now (column_in self.old column) (column_in self.new column) }
        ensures fits { FitsInColumns graph.now self.old → FitsInColumns graph.now self.new }
        ensures columns { columns_of self.new ≡ columns_of self.old }
        ensures kind { IsOfKind self.old self.new }
    {
        match self {
            ColumnMachine::Together(machine) => {
                let _changed = machine.step(graph);
            }
            ColumnMachine::InTurn(machine) => step_in_turn(machine, graph),
        }
    }

    /// Settles each column, as it would settle alone, at most `limit` unit steps and then joining steps.
    ///
    /// `limit` is from 1 to [`MOST_LIMIT`], and there is a place of `out` for each column, which gets its count of
    /// steps and whether it joined. A column that has settled stays while others go on. A call takes no memory and
    /// has no refusal.
    pub fn settle(&mut self, graph: &Graph, limit: u64, out: &mut [Settled])
        requires low { 1 ≤ limit }
        requires high { limit ≤ MOST_LIMIT }
        requires places { length out.old ≡ columns_of self.old }
        ensures settles { FitsInColumns graph.now self.old → (column : ℕ) (past : Settled) → column < columns_of self.old
            → Settles graph.now (column_in self.old column) limit (column_in self.new column) (slice_index_or out.new column past).steps (slice_index_or out.new column past).joined }
        ensures fits { FitsInColumns graph.now self.old → FitsInColumns graph.now self.new }
        ensures columns { columns_of self.new ≡ columns_of self.old }
        ensures kind { IsOfKind self.old self.new }
    {
        match self {
            ColumnMachine::Together(machine) => machine.settle(graph, limit, out),
            ColumnMachine::InTurn(machine) => machine.run(graph, Some(limit), out),
        }
    }
}

impl ColumnMachine {
    /// Whether all columns step together.
    pub fn is_together(&self) -> bool
        ensures yes { OnTrue result (IsTogether self.now) }
        ensures no { OnFalse result (IsInTurn self.now) }
    {
        match self {
            ColumnMachine::Together(_) => true,
            ColumnMachine::InTurn(_) => false,
        }
    }

    /// Takes room for the states of as many new nodes as one edit makes at most.
    ///
    /// Nothing else changes. Columns that take turns follow no edit, and have none.
    pub fn reserve(&mut self) -> Result<(), NoMemory>
        ensures room { OnOk result (NEW_NODES ≤ spare_in self.new) }
        ensures same { KeepsColumnsButRoom self.old self.new }
    {
        match self {
            ColumnMachine::Together(machine) => machine.reserve(),
            ColumnMachine::InTurn(_) => Err(NoMemory),
        }
    }

    /// What moves the columns of the graph after an edit, where it covered the graph before it: columns that step together
    /// follow it, as [`WordMachine::edit`] says. Else only the words are left, with X for each new node, and the texts of the
    /// last build are in front of what is kept.
    pub fn edit(
        self,
        graph: &Graph,
        change: &Change,
        kept: &mut Kept,
    ) -> Result<ColumnMachine, Rails>
        requires covers { CanFollow (undo graph.now change.now) self }
        requires wired { IsWired (undo graph.now change.now) }
        requires room { nodes graph.now ≤ length (highs_of self) + spare_in self }
        requires last { AreKeptIn (last_in self) (texts_of kept.old) }
        ensures edits { IfOk result (EditsColumns graph.now change.now self) }
        ensures kept { OnOk result (kept.new ≡ kept.old) }
        ensures rails { IfErr result (λ rails. GrowsWords graph.now (columns_of self) (highs_of self) (lows_of self) rails.hi.items rails.lo.items) }
        ensures gone { OnErr result (texts_of kept.new ≡ used_texts (last_in self) (texts_of kept.old)) }
        ensures bound { kept.new.bound ≡ kept.old.bound }
    {
        match self {
            ColumnMachine::Together(machine) => edited(machine, graph, change, kept),
            ColumnMachine::InTurn(machine) => Err(words_left(machine, graph)),
        }
    }

    /// Moves the texts of the last build, if they only count as standing there, to the front of what is kept, for what goes on
    /// without the machine. It keeps no memory, and if there is none it only takes longer.
    pub fn use_last(&self, kept: &mut Kept)
        requires { AreKeptIn (last_in self.now) (texts_of kept.old) }
        ensures texts { texts_of kept.new ≡ used_texts (last_in self.now) (texts_of kept.old) }
        ensures bound { kept.new.bound ≡ kept.old.bound }
    {
        match self {
            ColumnMachine::Together(machine) => machine.use_last(kept),
            ColumnMachine::InTurn(_) => {}
        }
    }

    /// Both rails of each node's states, for what goes on without the machine.
    pub fn into_rails(self) -> Rails
        ensures highs { result.hi.items ≡ highs_of self }
        ensures lows { result.lo.items ≡ lows_of self }
        ensures columns_are { AreColumns (columns_of self) result.hi.items result.lo.items }
    {
        match self {
            ColumnMachine::Together(machine) => machine.into_rails(),
            ColumnMachine::InTurn(machine) => machine.into_rails(),
        }
    }

    /// Gives the stale parts of columns that step together their codes, as [`WordMachine::finish`] says.
    pub fn finish<A: Analyst>(
        &mut self,
        graph: &Graph,
        kept: &mut Kept,
        analyst: &mut A,
    ) -> Result<u64, BuildFault>
        requires together { IsTogether self.old }
        requires covers { CoversInColumns graph.now self.old }
        requires railed { IsRailed graph.now }
        requires sound { (column : ℕ) → column < columns_of self.old → IsSound (column_in self.old column) }
        requires known { IsKeptByColumns graph.now (texts_of kept.old) self.old }
        requires last { AreKeptIn (last_in self.old) (texts_of kept.old) }
        ensures together { IsTogether self.new }
        ensures fits { OnOk result (FitsInColumns graph.now self.new) }
        ensures columns { columns_of self.new ≡ columns_of self.old }
        ensures highs { highs_of self.new ≡ highs_of self.old }
        ensures lows { lows_of self.new ≡ lows_of self.old }
        ensures builds { IfOk result (λ count. (large : ℕ) → Builds large graph.now kept.old.bound (used_texts (last_in self.old) (texts_of kept.old)) (used_texts (last_in self.new) (texts_of kept.new))
            (A.analysed analyst.old) (A.analysed analyst.new) count) }
        ensures there { OnOk result (AreKeptIn (last_in self.new) (texts_of kept.new)) }
        ensures bound { kept.new.bound ≡ kept.old.bound }
        ensures cut_off { result ≡ Err BuildFault.NoMemory → (large : ℕ) → IsCutOff large graph.now (used_texts (last_in self.old) (texts_of kept.old)) (used_texts (last_in self.old) (texts_of kept.new))
            (A.analysed analyst.old) (A.analysed analyst.new) }
        ensures refused { IfErr result (λ fault. fault ≡ BuildFault.NoMemory) }
        ensures err { OnErr result (self.new ≡ self.old) }
        ensures grown { OnErr result (IsGrown kept.old kept.new) }
    {
        match self {
            ColumnMachine::Together(machine) => machine.finish(graph, kept, analyst),
            ColumnMachine::InTurn(_) => Err(BuildFault::NoMemory),
        }
    }
}

// Columns that step together, after an edit.
fn edited(
    machine: WordMachine,
    graph: &Graph,
    change: &Change,
    kept: &mut Kept,
) -> Result<ColumnMachine, Rails>
    requires covers { CoversInWords (undo graph.now change.now) machine }
    requires wired { IsWired (undo graph.now change.now) }
    requires room { nodes graph.now ≤ length machine.hi + machine.spare }
    requires last { AreKeptIn machine.machine.last (texts_of kept.old) }
    ensures edits { IfOk result (EditsColumns graph.now change.now (Together machine)) }
    ensures kept { OnOk result (kept.new ≡ kept.old) }
    ensures rails { IfErr result (λ rails. GrowsWords graph.now machine.columns machine.hi machine.lo rails.hi.items rails.lo.items) }
    ensures gone { OnErr result (texts_of kept.new ≡ used_texts machine.machine.last (texts_of kept.old)) }
    ensures bound { kept.new.bound ≡ kept.old.bound }
{
    match machine.edit(graph, change, kept) {
        Ok(next) => Ok(ColumnMachine::Together(next)),
        Err(rails) => Err(rails),
    }
}

// The words of columns that took turns, with X for each node that is new to a graph, in room that is there.
fn words_left(machine: TurnMachine, graph: &Graph) -> Rails
    requires { nodes graph.now ≤ length machine.hi }
    ensures { GrowsWords graph.now machine.columns machine.hi machine.lo result.hi.items result.lo.items }
{
    // a call for the proof alone: there are at most 64 columns
    let _few = machine.columns();
    let mut rails = machine.into_rails();
    grow_rails(&mut rails, graph.nodes());
    rails
}

// Has each column take a unit step, in turn.
fn step_in_turn(machine: &mut TurnMachine, graph: &Graph)
    ensures step { FitsInTurn graph.now machine.old → (column : ℕ) → column < machine.old.columns
        → IsStep graph.now (column_states column machine.old.hi machine.old.lo) (column_states column machine.new.hi machine.new.lo) }
    ensures fits { FitsInTurn graph.now machine.old → FitsInTurn graph.now machine.new }
    ensures columns { machine.new.columns ≡ machine.old.columns }
{
    let none = Settled {
        steps: 0,
        joined: false,
    };
    let mut counts = [none; 64];
    let columns = machine.columns() as usize;
    machine.run(graph, None, &mut counts[..columns]);
}
