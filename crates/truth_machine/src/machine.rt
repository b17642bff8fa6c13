//! The machine over truths.
ghost use Rattle.std.specs.Prelude.{◌≡◌, ℕ, ◌^◌, ◌<◌, ◌≤◌, true, false, length, replicate, None, All, IfErr, IfOk, OnErr};
ghost use Rattle.switch_paths.specs.declared.TheConstants.{RAILS};
ghost use Rattle.truth_machine.specs.Words.{nodes, IsWired, StaysOrBecomesX, AreSeated, FitsGraph, ReadsAt, IsStale, AreApart};
ghost use Rattle.truth_machine.specs.Words.{SettleTogether, AreKept, AreColumns, HasStates, HasSound};
ghost use Rattle.settling.specs.declared.settling.TheConstants.{MOST_LIMIT};
ghost use Rattle.truth_machine.specs.Machines.{column_of, FitsInMachine};
ghost use Rattle.truth_machine.specs.Keeping.{KeepsTruths};
ghost use Rattle.truth_machine.specs.Moving.{PlacesTruths, Rests, StepsColumns};

use column_settling::{ColumnStepper, settle_columns};
use machine_parts::MachinePart;
use part_lists::{Agenda, lists_of, mark_all};
use settling::{MOST_LIMIT, Settled};
use std::alloc::Global;
use std::marker::Model;
use switch_paths::{Graph, graphs_are_wired};
use ternary::NoMemory;
use truth_columns::Truths;
use truth_parts::{Workspace, advance, workspace_for};
use unit_step::Machine;

/// A compiled circuit with a state in each column of a maker of truths: the parts of its groups, which of them are
/// marked, and both rails of each node.
///
/// A step runs the code of the marked parts alone, once for all columns. All its room but the maker's is taken when the
/// machine is made.
#[derive(Drop)]
pub struct TruthMachine<T: Truths + Drop> {
    pub(crate) truths: T,
    pub(crate) parts: Vec<MachinePart>,
    pub(crate) agenda: Agenda,
    // for each node the parts that read it, and the one that has it as a member
    pub(crate) readers: Vec<Vec<usize>>,
    pub(crate) owners: Vec<Vec<usize>>,
    pub(crate) hi: Vec<T::Truth>,
    pub(crate) lo: Vec<T::Truth>,
    pub(crate) workspace: Workspace<T::Truth>,
}

impl<T: Truths + Drop> Model for TruthMachine<T> {
    ghost use Rattle.truth_parts.specs.Evaluating.{rooms, IsWorkspace};
    ghost use Rattle.truth_machine.specs.Machines.{IsTruthMachine, TruthData};

    ghost Value = { TruthData T.Truth T };

    ghost view = { λ m. record { maker = m.truths; parts = m.parts.items; marks = m.agenda; hi = m.hi.items; lo = m.lo.items } };

    ghost invariant = { λ m. IsTruthMachine (T.columns m.truths) (T.has m.truths) (T.holds m.truths) m.parts.items m.agenda m.readers.items m.owners.items
        m.hi.items m.lo.items (rooms m.workspace) × IsWorkspace (T.has m.truths) m.workspace };
}

impl<T: Truths + Drop> TruthMachine<T> {
    /// The machine with the parts of a machine that fits a graph, all of them marked, in these states.
    ///
    /// Lack of memory is the only error, and then the maker is let go too.
    pub fn of_machine(
        alloc: Global,
        graph: &Graph,
        truths: T,
        machine: Machine,
        hi: &[T::Truth],
        lo: &[T::Truth],
    ) -> Result<TruthMachine<T>, NoMemory>
        requires machine { FitsGraph graph.now machine }
        requires without { machine.wide ≡ None }
        requires highs { length hi.now ≡ nodes graph.now }
        requires lows { length lo.now ≡ nodes graph.now }
        requires high_has { All (T.has truths) hi.now }
        requires low_has { All (T.has truths) lo.now }
        requires sound { (column : ℕ) → column < T.columns truths → HasSound graph.now (T.holds truths) hi.now lo.now column }
        ensures fits { IfOk result (FitsInMachine T.columns T.holds graph.now) }
        ensures fresh { IfOk result (λ made. (made.maker ≡ truths) × (made.hi ≡ hi.now) × (made.lo ≡ lo.now)) }
    {
        TruthMachine::of_parts(alloc, truths, machine.into_parts(), hi, lo)
    }

    // A machine of these parts, all of them marked, in these states.
    fn of_parts(
        alloc: Global,
        truths: T,
        parts: Vec<MachinePart>,
        hi: &[T::Truth],
        lo: &[T::Truth],
    ) -> Result<TruthMachine<T>, NoMemory>
        requires columns { AreColumns (T.columns truths) (T.holds truths) hi.now lo.now }
        requires high_has { All (T.has truths) hi.now }
        requires low_has { All (T.has truths) lo.now }
        requires seated { AreSeated (length hi.now) parts.items }
        requires apart { AreApart parts.items }
        requires fresh { (k : ℕ) → ¬ IsStale parts.items k }
        requires reads { (k node : ℕ) → ReadsAt parts.items k node → node < length hi.now }
        ensures { IfOk result (λ machine. machine ≡ record { maker = truths; parts = parts.items; marks = replicate (length parts.items) true; hi = hi.now; lo = lo.now }) }
    {
        let nodes = hi.len();
        let agenda = Agenda::all(alloc, parts.len())?;
        let readers = lists_of(alloc, false, &parts, nodes)?;
        let owners = lists_of(alloc, true, &parts, nodes)?;
        let workspace = workspace_for(alloc, &truths, &parts)?;
        let highs = Vec::from_slice(alloc, hi)?;
        let lows = Vec::from_slice(alloc, lo)?;
        Ok(TruthMachine {
            truths,
            parts,
            agenda,
            readers,
            owners,
            hi: highs,
            lo: lows,
            workspace,
        })
    }

    /// Where each node may be 1.
    pub fn hi(&self) -> &[T::Truth]
        ensures { result.now ≡ self.now.hi }
    {
        &self.hi
    }

    /// Where each node may be 0.
    pub fn lo(&self) -> &[T::Truth]
        ensures { result.now ≡ self.now.lo }
    {
        &self.lo
    }

    /// The maker of its truths.
    pub fn truths(&self) -> &T
        ensures { result.now ≡ self.now.maker }
    {
        &self.truths
    }

    /// The maker, for what goes on without the machine. All else is dropped.
    pub fn into_truths(self) -> T
        ensures { result ≡ self.maker }
    {
        let TruthMachine {
            truths,
            parts: _parts,
            agenda: _agenda,
            readers: _readers,
            owners: _owners,
            hi: _hi,
            lo: _lo,
            workspace: _workspace,
        } = self;
        truths
    }

    /// Gives a node that is no rail these truths, and marks the parts that have it as a member or read it; all other nodes
    /// stay.
    ///
    /// In each column some rail of the node is there. The graph is meant that is handed in: the machine fits it afterwards
    /// if it did before. It takes no memory.
    pub fn place(&mut self, graph: &Graph, node: usize, hi: T::Truth, lo: T::Truth)
        requires inside { node < length self.old.hi }
        requires no_rail { RAILS ≤ node }
        requires high_has { T.has self.old.maker hi }
        requires low_has { T.has self.old.maker lo }
        requires states { HasStates (T.columns self.old.maker) (T.holds self.old.maker) hi lo }
        ensures places { PlacesTruths node hi lo self.old self.new }
        ensures fits { FitsInMachine T.columns T.holds graph.now self.old → FitsInMachine T.columns T.holds graph.now self.new }
    {
        graphs_are_wired(graph);
        self.put(node, hi, lo);
    }

    // Gives a node these truths, and marks the parts that have it as a member or read it.
    fn put(&mut self, node: usize, hi: T::Truth, lo: T::Truth)
        requires inside { node < length self.old.hi }
        requires high_has { T.has self.old.maker hi }
        requires low_has { T.has self.old.maker lo }
        requires states { HasStates (T.columns self.old.maker) (T.holds self.old.maker) hi lo }
        ensures places { PlacesTruths node hi lo self.old self.new }
        ensures counted { length self.old.lo ≡ length self.old.hi }
    {
        self.hi[node] = hi;
        self.lo[node] = lo;
        mark_all(&self.owners[node], &mut self.agenda);
        mark_all(&self.readers[node], &mut self.agenda);
    }

    /// Settles each column, as it would settle alone: all take unit steps together while some column changes, at most
    /// `limit` of them, and after that joining steps while some column changes.
    ///
    /// What is told is the greatest count of a column, and whether that column joined. If the maker runs out, it tells why,
    /// which is so of the maker as it is then, and some steps were taken. Either way the maker has all truths that it had, and
    /// its bound.
    pub fn settle(&mut self, graph: &Graph, limit: u64) -> Result<Settled, T::Fault>
        requires fits { FitsInMachine T.columns T.holds graph.now self.old }
        requires some { 0 < T.columns self.old.maker }
        requires high { limit ≤ MOST_LIMIT }
        ensures settles { IfOk result (SettleTogether graph.now (T.columns self.old.maker) (column_of T.holds self.old) limit (column_of T.holds self.new)) }
        ensures fits { FitsInMachine T.columns T.holds graph.now self.new }
        ensures columns { T.columns self.new.maker ≡ T.columns self.old.maker }
        ensures kept { AreKept (T.columns self.old.maker) (T.has self.old.maker) (T.holds self.old.maker) (T.columns self.new.maker) (T.has self.new.maker)
            (T.holds self.new.maker) }
        ensures bound { T.bound self.new.maker ≡ T.bound self.old.maker }
        ensures spent { IfErr result (T.spent self.new.maker) }
    {
        settle_columns(self, graph, limit)
    }

    // Takes a step of all columns on a graph, plain or joining, and answers whether it changes some column.
    fn step_on(&mut self, graph: &Graph, joining: bool) -> Result<bool, T::Fault>
        ensures wired { IsWired graph.now }
        ensures steps { IfOk result (StepsColumns T.columns T.holds joining self.old self.new) }
        ensures rests { OnErr result (Rests self.old self.new) }
        ensures kept { AreKept (T.columns self.old.maker) (T.has self.old.maker) (T.holds self.old.maker) (T.columns self.new.maker) (T.has self.new.maker)
            (T.holds self.new.maker) }
        ensures bound { T.bound self.new.maker ≡ T.bound self.old.maker }
        ensures spent { IfErr result (T.spent self.new.maker) }
        ensures highs { All (T.has self.old.maker) self.old.hi }
        ensures lows { All (T.has self.old.maker) self.old.lo }
        ensures fits { FitsInMachine T.columns T.holds graph.now self.old → FitsInMachine T.columns T.holds graph.now self.new }
        ensures nodes { (column : ℕ) → column < T.columns self.old.maker
            → length (column_of T.holds self.new column) ≡ length (column_of T.holds self.old column) }
        ensures unknown { joining ≡ true → (column : ℕ) → column < T.columns self.old.maker
            → StaysOrBecomesX (column_of T.holds self.old column) (column_of T.holds self.new column) }
        ensures few { (column : ℕ) → length (column_of T.holds self.new column) < 2 ^ 63 }
    {
        graphs_are_wired(graph);
        self.take(joining)
    }

    // Takes such a step, whatever the graph is.
    fn take(&mut self, joining: bool) -> Result<bool, T::Fault>
        ensures steps { IfOk result (StepsColumns T.columns T.holds joining self.old self.new) }
        ensures rests { OnErr result (Rests self.old self.new) }
        ensures kept { AreKept (T.columns self.old.maker) (T.has self.old.maker) (T.holds self.old.maker) (T.columns self.new.maker) (T.has self.new.maker)
            (T.holds self.new.maker) }
        ensures bound { T.bound self.new.maker ≡ T.bound self.old.maker }
        ensures spent { IfErr result (T.spent self.new.maker) }
        ensures highs { All (T.has self.old.maker) self.old.hi }
        ensures lows { All (T.has self.old.maker) self.old.lo }
        ensures nodes { (column : ℕ) → column < T.columns self.old.maker
            → length (column_of T.holds self.new column) ≡ length (column_of T.holds self.old column) }
        ensures unknown { joining ≡ true → (column : ℕ) → column < T.columns self.old.maker
            → StaysOrBecomesX (column_of T.holds self.old column) (column_of T.holds self.new column) }
        ensures few { (column : ℕ) → length (column_of T.holds self.new column) < 2 ^ 63 }
    {
        advance(
            joining,
            &mut self.truths,
            &self.parts,
            &self.readers,
            &mut self.hi,
            &mut self.lo,
            &mut self.agenda,
            &mut self.workspace,
        )
    }
}

impl<T: Truths + Drop> ColumnStepper for TruthMachine<T> {
    type Fault = T::Fault;

    ghost columns = { λ machine. T.columns machine.maker };

    ghost state = { λ machine column. column_of T.holds machine column };

    ghost fits = { λ machine g. FitsInMachine T.columns T.holds g machine };

    ghost keeps = { λ old new. KeepsTruths T.columns T.has T.holds T.bound old new };

    ghost spent = { λ machine why. T.spent machine.maker why };

    fn step(&mut self, graph: &Graph) -> Result<bool, T::Fault> {
        self.step_on(graph, false)
    }

    fn join_step(&mut self, graph: &Graph) -> Result<bool, T::Fault> {
        self.step_on(graph, true)
    }
}
