//! The machine of columns.
ghost use Rattle.std.specs.Prelude.{◌≡◌, ◌≢◌, ℕ, ◌^◌, ◌<◌, ◌≤◌, true, false, length, slice_index_or, None, Some, IfOk};
ghost use Rattle.column_machines.specs.Words.{RAILS, nodes, IsWired, IsStep, MOST_LIMIT, Settled, IsJoinStep, StaysOrBecomesX, Settles};
ghost use Rattle.column_machines.specs.Words.{is_in_column, Concerns, FitsGraph, HasLast};
ghost use Rattle.machine_parts.specs.Words.{MarksAll};
ghost use Rattle.column_machines.specs.Columns.{column_of, CoversInWords, FitsInWords, HasSoundColumn, HasStates};
ghost use Rattle.column_machines.specs.Making.{IsMadeOf};
ghost use Rattle.column_machines.specs.Running.{AreColumns};
ghost use Rattle.column_machines.specs.Stepping.{StepsColumns};
ghost use Rattle.column_machines.specs.Placing.{PlacesWords};

use crate::advance::advance;
use crate::evaluation::Workspace;
use crate::making::workspace_for;
use crate::rails::Rails;
use part_lists::{Agenda, mark_all};
use settling::{MOST_LIMIT, Settled};
use std::alloc::Global;
use std::marker::Model;
use switch_paths::{Graph, graphs_are_wired};
use ternary::NoMemory;
use unit_step::Machine;
use word_columns::used_columns;
use word_settling::{WordStepper, settle_each};

/// A compiled circuit with up to 64 states: a machine, whose parts are those of its groups, which of them are marked, and both
/// rails of each node's states, bit i for column i.
///
/// A step runs the code of the marked parts alone, once for all columns. The machine itself doesn't step: it is there for its
/// parts, and follows edits. All room is taken when the machine of columns is made or follows an edit.
#[derive(Drop)]
pub struct WordMachine {
    pub(crate) columns: u32,
    // the bits of the columns
    pub(crate) used: u64,
    pub(crate) machine: Machine,
    pub(crate) agenda: Agenda,
    pub(crate) hi: Vec<u64>,
    pub(crate) lo: Vec<u64>,
    pub(crate) workspace: Workspace,
}

impl Model for WordMachine {
    ghost use Rattle.std.specs.Prelude.{min};
    ghost use Rattle.column_machines.specs.Columns.{WordData};
    ghost use Rattle.column_machines.specs.Making.{spare_of};
    ghost use Rattle.column_machines.specs.Evaluating.{rooms, IsEven};
    ghost use Rattle.column_machines.specs.Running.{IsWordMachine};

    ghost Value = { WordData };

    ghost view = { λ m. record { columns = m.columns; machine = m.machine; marks = m.agenda; hi = m.hi.items; lo = m.lo.items; spare = min (spare_of m.hi m.lo) m.machine.spare } };

    ghost invariant = { λ m. IsWordMachine m.columns m.used m.machine m.agenda m.hi.items m.lo.items (rooms m.workspace) × IsEven m.workspace };
}

impl WordMachine {
    // The machine of columns of a machine that fits a graph, with all parts marked, in these states.
    pub(crate) fn of_machine(
        alloc: Global,
        graph: &Graph,
        columns: u32,
        machine: Machine,
        hi: &[u64],
        lo: &[u64],
    ) -> Result<WordMachine, NoMemory>
        requires some { 1 ≤ columns }
        requires few { columns ≤ 64 }
        requires machine { FitsGraph graph.now machine }
        requires without { machine.wide ≡ None }
        requires last { HasLast graph.now machine.last }
        requires highs { length hi.now ≡ nodes graph.now }
        requires lows { length lo.now ≡ nodes graph.now }
        requires sound { (column : ℕ) → column < columns → HasSoundColumn graph.now hi.now lo.now column }
        ensures fits { IfOk result (λ made. FitsInWords graph.now made) }
        ensures fresh { IfOk result (λ made. (made.columns ≡ columns) × (made.hi ≡ hi.now) × (made.lo ≡ lo.now)) }
        ensures machine { IfOk result (λ made. made.machine ≡ machine) }
    {
        WordMachine::with_marks(alloc, columns, machine, hi, lo)
    }

    // The machine of columns of a machine, with all parts marked, in these states.
    fn with_marks(
        alloc: Global,
        columns: u32,
        machine: Machine,
        hi: &[u64],
        lo: &[u64],
    ) -> Result<WordMachine, NoMemory>
        requires some { 1 ≤ columns }
        requires few { columns ≤ 64 }
        requires columns_are { AreColumns columns hi.now lo.now }
        requires nodes { length hi.now ≡ length machine.state }
        ensures { IfOk result (IsMadeOf columns machine hi.now lo.now) }
    {
        let parts = machine.parts();
        let members = machine.most_members();
        let agenda = Agenda::all(alloc, parts)?;
        let workspace = workspace_for(alloc, members, parts)?;
        let highs = Vec::from_slice(alloc, hi)?;
        let lows = Vec::from_slice(alloc, lo)?;
        Ok(WordMachine {
            columns,
            used: used_columns(columns),
            machine,
            agenda,
            hi: highs,
            lo: lows,
            workspace,
        })
    }

    // Both rails of each node's states, for what goes on without the machine.
    pub(crate) fn into_rails(self) -> Rails
        ensures highs { result.hi.items ≡ self.hi }
        ensures lows { result.lo.items ≡ self.lo }
        ensures columns_are { AreColumns self.columns result.hi.items result.lo.items }
    {
        let WordMachine {
            columns: _columns,
            used: _used,
            machine: _machine,
            agenda: _agenda,
            hi,
            lo,
            workspace: _workspace,
        } = self;
        Rails { hi, lo }
    }

    /// How many columns it has.
    pub fn columns(&self) -> u32
        ensures value { result ≡ self.now.columns }
        ensures few { result ≤ 64 }
        ensures columns_are { AreColumns self.now.columns self.now.hi self.now.lo }
    {
        self.columns
    }

    /// The rail "may be 1" of each node, bit i for column i.
    pub fn hi(&self) -> &[u64]
        ensures { result.now ≡ self.now.hi }
    {
        &self.hi
    }

    /// The rail "may be 0" of each node, bit i for column i.
    pub fn lo(&self) -> &[u64]
        ensures { result.now ≡ self.now.lo }
    {
        &self.lo
    }

    /// Gives a node that is no rail these words, and marks the parts that have it as a member or read it; all
    /// other nodes stay.
    ///
    /// In each column some rail of the node is set. The graph is meant that is handed in: the machine covers and fits it
    /// afterwards if it did before. It takes no memory.
    pub fn place(&mut self, graph: &Graph, node: usize, hi: u64, lo: u64)
        requires inside { node < length self.old.hi }
        requires no_rail { RAILS ≤ node }
        requires states { HasStates self.old.columns hi lo }
        ensures places { PlacesWords node hi lo self.old self.new }
        ensures covers { CoversInWords graph.now self.old → CoversInWords graph.now self.new }
        ensures fits { FitsInWords graph.now self.old → FitsInWords graph.now self.new }
    {
        graphs_are_wired(graph);
        self.put(node, hi, lo);
    }

    // Gives a node these words, and marks the parts that have it as a member or read it.
    fn put(&mut self, node: usize, hi: u64, lo: u64)
        requires inside { node < length self.old.hi }
        requires states { HasStates self.old.columns hi lo }
        ensures places { PlacesWords node hi lo self.old self.new }
        ensures counted { length self.old.lo ≡ length self.old.hi }
    {
        self.hi[node] = hi;
        self.lo[node] = lo;
        mark_concerned(&self.machine, node, &mut self.agenda);
    }

    /// Settles each column, as it would settle alone: all take unit steps together while some column changes, at
    /// most `limit` of them, and after that joining steps while some column changes.
    ///
    /// `limit` is from 1 to [`MOST_LIMIT`], and there is a place of `out` for each column, which gets its count of
    /// steps and whether it joined. A column that has settled stays while others go on. A call takes no memory and
    /// has no refusal.
    pub fn settle(&mut self, graph: &Graph, limit: u64, out: &mut [Settled])
        requires low { 1 ≤ limit }
        requires high { limit ≤ MOST_LIMIT }
        requires places { length out.old ≡ self.old.columns }
        ensures settles { FitsInWords graph.now self.old → (column : ℕ) (past : Settled) → column < self.old.columns
            → Settles graph.now (column_of self.old column) limit (column_of self.new column) (slice_index_or out.new column past).steps (slice_index_or out.new column past).joined }
        ensures fits { FitsInWords graph.now self.old → FitsInWords graph.now self.new }
        ensures columns { self.new.columns ≡ self.old.columns }
    {
        let _few = self.columns();
        settle_each(self, graph, limit, out);
    }

    // Takes a step of all columns on a graph, plain or joining, and answers with the bits of those that it changes.
    fn step_on(&mut self, graph: &Graph, joining: bool) -> u64
        ensures wired { IsWired graph.now }
        ensures steps { StepsColumns joining self.old self.new result }
        ensures fits { FitsInWords graph.now self.old → FitsInWords graph.now self.new }
        ensures columns { self.new.columns ≡ self.old.columns }
        ensures nodes { (column : ℕ) → column < self.old.columns → length (column_of self.new column) ≡ length (column_of self.old column) }
        ensures few { (column : ℕ) → column < self.old.columns → length (column_of self.new column) < 2 ^ 63 }
        ensures changed { (column : ℕ) → column < self.old.columns → is_in_column column result ≡ true
            → column_of self.new column ≢ column_of self.old column }
        ensures same { (column : ℕ) → column < self.old.columns → is_in_column column result ≡ false
            → column_of self.new column ≡ column_of self.old column }
        ensures beyond { (column : ℕ) → self.old.columns ≤ column → is_in_column column result ≡ false }
    {
        graphs_are_wired(graph);
        self.take(joining)
    }

    // Takes such a step, whatever the graph is.
    fn take(&mut self, joining: bool) -> u64
        ensures steps { StepsColumns joining self.old self.new result }
        ensures few { (column : ℕ) → length (column_of self.new column) < 2 ^ 63 }
    {
        advance(
            joining,
            self.used,
            &mut self.machine,
            &mut self.hi,
            &mut self.lo,
            &mut self.agenda,
            &mut self.workspace,
        )
    }
}

impl WordStepper for WordMachine {
    ghost columns = { λ machine. machine.columns };

    ghost state = { λ machine column. column_of machine column };

    ghost fits = { λ machine g. FitsInWords g machine };

    fn step(&mut self, graph: &Graph) -> u64
        ensures steps { StepsColumns false self.old self.new result }
        ensures step { FitsInWords graph.now self.old → (column : ℕ) → column < self.old.columns → IsStep graph.now (column_of self.old column) (column_of self.new column) }
        ensures fits { FitsInWords graph.now self.old → FitsInWords graph.now self.new }
        ensures columns { self.new.columns ≡ self.old.columns }
        ensures nodes { (column : ℕ) → column < self.old.columns → length (column_of self.new column) ≡ length (column_of self.old column) }
        ensures changed { (column : ℕ) → column < self.old.columns → is_in_column column result ≡ true
            → column_of self.new column ≢ column_of self.old column }
        ensures same { (column : ℕ) → column < self.old.columns → is_in_column column result ≡ false
            → column_of self.new column ≡ column_of self.old column }
        ensures beyond { (column : ℕ) → self.old.columns ≤ column → is_in_column column result ≡ false }
    {
        self.step_on(graph, false)
    }

    fn join_step(&mut self, graph: &Graph) -> u64
        ensures steps { StepsColumns true self.old self.new result }
        ensures step { FitsInWords graph.now self.old → (column : ℕ) → column < self.old.columns → IsJoinStep graph.now (column_of self.old column) (column_of self.new column) }
        ensures fits { FitsInWords graph.now self.old → FitsInWords graph.now self.new }
        ensures columns { self.new.columns ≡ self.old.columns }
        ensures nodes { (column : ℕ) → column < self.old.columns → length (column_of self.new column) ≡ length (column_of self.old column) }
        ensures few { (column : ℕ) → column < self.old.columns → length (column_of self.new column) < 2 ^ 63 }
        ensures unknown { (column : ℕ) → column < self.old.columns → StaysOrBecomesX (column_of self.old column) (column_of self.new column) }
        ensures changed { (column : ℕ) → column < self.old.columns → is_in_column column result ≡ true
            → column_of self.new column ≢ column_of self.old column }
        ensures same { (column : ℕ) → column < self.old.columns → is_in_column column result ≡ false
            → column_of self.new column ≡ column_of self.old column }
        ensures beyond { (column : ℕ) → self.old.columns ≤ column → is_in_column column result ≡ false }
    {
        self.step_on(graph, true)
    }
}

// Marks the parts that have a node as a member or read it.
fn mark_concerned(machine: &Machine, node: usize, agenda: &mut Agenda)
    requires inside { node < length machine.now.state }
    requires counted { length agenda.old ≡ length machine.now.parts }
    ensures { MarksAll (λ k. Concerns machine.now.parts k node) agenda.old agenda.new }
{
    mark_owner(machine.owner(node), agenda);
    mark_all(machine.readers(node), agenda);
}

// Marks the part that owns a node, if one does.
fn mark_owner(owner: Option<usize>, agenda: &mut Agenda)
    requires { (k : ℕ) → owner ≡ Some k → k < length agenda.old }
    ensures { MarksAll (λ k. owner ≡ Some k) agenda.old agenda.new }
{
    match owner {
        Some(k) => agenda.mark(k),
        None => {}
    }
}
