//! Commands for columns: what is done in each column, by the letters that it is given, and the commands that take no step.

ghost use Rattle.std.specs.Prelude.{◌≡◌, ◌<◌, ◌≤◌, ℕ, List, [], is_some, true, map, None, All, IfErr, IfOk, OnErr, OnOk};
ghost use Rattle.cosmos_session.specs.Words.{nodes, RAILS, GroupTextData, used_texts, texts_of, Shared, Values, IsShared, IsSharedSetup};
ghost use Rattle.cosmos_session.specs.Words.{alone_of, in_column, value_in, Leads, LeadsBy, Placed, AreSound, IsLetters, ObeysInAll};
ghost use Rattle.cosmos_session.specs.Words.{ObeysInAllOn, QuietlyInAll, acts_of_letters, column_of, IsFaultFor, NamesNode, refusal_of};
ghost use Rattle.cosmos_session.specs.Words.{IsHeldSession, start_of, faults_applied, IsEditing, IsStill};
ghost use Rattle.netlist.specs.Words.{node_of, node_named};
ghost use Rattle.script_lang.specs.Forms as form;
ghost use Rattle.script_lang.specs.declared.command.Command.TheVariants as family;
ghost use Rattle.column_script.specs.Forms.{IsFormed};
ghost use Rattle.cosmos_session.specs.Targets.{target_of};

use crate::guesses::Guesses;
use crate::session::Session;
use crate::values::Target;
use crate::waves::RowRoom;
use analysis_cache::{Analyst, Kept};
use column_script::{ColumnCommand, ValueCommand};
use column_stage::{ColumnStage, Columns, Stage};
use netlist::{Circuit, RAILS};
use node_words::Vectors;
use script_lang::{ClockList, Command, Edit, Name, Setup, StateList, Value, ValueList};
use session_meaning::{ApplyFault, FIRST_LIMIT};
use settling::Blind;
use std::alloc::Global;
use switch_paths::Graph;
use ternary::{NoMemory, Tern};
use told_lines::Lines;

impl<M: Columns> Session<M> {
    /// A session at its start over a stage whose columns are at theirs: in each Gnd is 0, Vdd is 1 and every other node X.
    pub fn over(alloc: Global, circuit: Circuit, stage: M) -> Session<M>
        requires some { 1 ≤ M.columns stage }
        requires start { (column : ℕ) → column < M.columns stage → M.states stage column ≡ (start_of circuit).state }
        requires last { M.last stage ≡ [] }
        requires serves { (kept : List GroupTextData) → M.serves stage circuit.graph kept }
        ensures stage { result.stage ≡ stage }
        ensures start { (column : ℕ) → column < M.columns stage → column_of M.states result column ≡ start_of circuit }
    {
        let kept = Kept::with_keys(alloc, circuit.keys());
        Self::over_stage(alloc, circuit, kept, stage, Guesses::none(alloc))
    }

    // A session at its start over a stage whose columns are at theirs, which keeps these, without a bound.
    pub(crate) fn over_stage(
        alloc: Global,
        circuit: Circuit,
        kept: Kept,
        stage: M,
        guesses: Guesses,
    ) -> Session<M>
        requires bound { kept.bound ≡ None }
        requires some { 1 ≤ M.columns stage }
        requires start { (column : ℕ) → column < M.columns stage → M.states stage column ≡ (start_of circuit).state }
        requires last { M.last stage ≡ [] }
        requires serves { M.serves stage circuit.graph (used_texts (M.last stage) (texts_of kept)) }
        ensures core { result.core ≡ record (start_of circuit) { kept = texts_of kept } }
        ensures stage { result.stage ≡ stage }
    {
        // For the proof alone: a circuit's graph is well formed.
        let _graph = circuit.graph();
        let vectors = Vectors::new(alloc, circuit.keys());
        Session {
            alloc,
            circuit,
            stage,
            watched: Vec::new(alloc),
            clocks: Vec::new(alloc),
            limit: FIRST_LIMIT,
            count: 0,
            missed: false,
            vectors,
            saves: Vec::new(alloc),
            kept,
            large: 0,
            fresh: 0,
            room: RowRoom::new(alloc),
            guesses,
        }
    }
}

impl<M: ColumnStage> Session<M> {
    /// How many columns there are.
    pub fn columns(&self) -> u32
        ensures value { result ≡ M.columns self.now.stage }
        ensures some { 1 ≤ result }
    {
        self.stage.columns()
    }

    /// Does a command in each column, and tells the columns' lines.
    ///
    /// Each column obeys what it is given of the command, as the session of a plain script would: so whether the
    /// command is refused, and why, doesn't depend on the column. A waveform line of the command is told for
    /// all columns, in order, before the next one of any. Before `step`, `phase` and `cycle` the circuit is built
    /// once for all columns: the analyst is given each text of its groups that isn't kept, once, and its code is
    /// kept.
    ///
    /// A fault of the hearer ends the command: then a prefix of the lines was heard, and each column is as after a
    /// whole part of the command. Lack of memory of the hearer is alike. Lack of memory of any other kind changes
    /// nothing but what is kept: all memory is taken before the first unit step, a build last of all.
    ///
    /// What is done to the stage is told act by act, as a plain session tells it.
    pub fn apply_columns<A: Analyst, L: Lines>(
        &mut self,
        command: &ColumnCommand,
        analyst: &mut A,
        out: &mut L,
    ) -> Result<(), ApplyFault>
        requires { IsFormed (M.columns self.old.stage) command.now }
        ensures obeys { ObeysInAll M.cuts L.hear L.part (M.columns self.old.stage) (column_of M.states self.old) command.now (column_of M.states self.new)
            (L.heard out.old) (L.heard out.new) (A.analysed analyst.old) (A.analysed analyst.new) (L.refusals out.old) (L.refusals out.new) result }
        ensures stage { ObeysInAllOn M.cuts L.hear L.part M.columns M.states M.did self.old command.now self.new
            (L.heard out.old) (L.heard out.new) (A.analysed analyst.old) (A.analysed analyst.new) (L.refusals out.old) (L.refusals out.new) result }
        ensures faults { L.faults out.new ≡ faults_applied (L.faults out.old) result }
        ensures columns { M.columns self.new.stage ≡ M.columns self.old.stage }
        ensures named { IfErr result (NamesNode self.new.core.circuit.graph) }
        ensures before { IsHeldSession M.columns M.states M.serves self.old }
        ensures session { IsHeldSession M.columns M.states M.serves self.new }
    {
        self.is_well_formed();
        let outcome = self.obey_columns(command, analyst, out);
        self.is_well_formed();
        outcome
    }

    // Does a command in each column, and tells the columns' lines.
    fn obey_columns<A: Analyst, L: Lines>(
        &mut self,
        command: &ColumnCommand,
        analyst: &mut A,
        out: &mut L,
    ) -> Result<(), ApplyFault>
        requires formed { IsFormed (M.columns self.old.stage) command.now }
        requires session { IsHeldSession M.columns M.states M.serves self.old }
        ensures obeys { ObeysInAllOn M.cuts L.hear L.part M.columns M.states M.did self.old command.now self.new
            (L.heard out.old) (L.heard out.new) (A.analysed analyst.old) (A.analysed analyst.new) (L.refusals out.old) (L.refusals out.new) result }
        ensures faults { L.faults out.new ≡ faults_applied (L.faults out.old) result }
        ensures columns { M.columns self.new.stage ≡ M.columns self.old.stage }
    {
        match command {
            ColumnCommand::Values(kind, list) => self.give_letters(*kind, list),
            ColumnCommand::Shared(shared) => self.obey_shared(shared, analyst, out),
        }
    }

    // Does a command that is the same in each column.
    fn obey_shared<A: Analyst, L: Lines>(
        &mut self,
        command: &Command,
        analyst: &mut A,
        out: &mut L,
    ) -> Result<(), ApplyFault>
        requires formed { form.IsFormed command.now × IsShared command.now }
        requires session { IsHeldSession M.columns M.states M.serves self.old }
        ensures obeys { ObeysInAllOn M.cuts L.hear L.part M.columns M.states M.did self.old (Shared command.now) self.new
            (L.heard out.old) (L.heard out.new) (A.analysed analyst.old) (A.analysed analyst.new) (L.refusals out.old) (L.refusals out.new) result }
        ensures faults { L.faults out.new ≡ faults_applied (L.faults out.old) result }
        ensures columns { M.columns self.new.stage ≡ M.columns self.old.stage }
    {
        match command {
            Command::Edit(edit) => self.edit_columns(edit),
            Command::Setup(setup) => self.set_up_columns(setup),
            Command::Run(run) => self.run_columns(run, analyst, out, &mut Blind {}),
            Command::Give(_) | Command::Tell(_) => unreachable!(),
        }
    }

    // An edit of the circuit. Each node that is new is X in each column.
    fn edit_columns(&mut self, edit: &Edit) -> Result<(), ApplyFault>
        ensures quiet { QuietlyInAll (M.columns self.old.stage) (column_of M.states self.old) (Shared (family.Edit edit.now)) (column_of M.states self.new) result }
        ensures stage { OnOk result (LeadsBy M.did IsEditing self.old.stage self.new.stage) }
        ensures still { OnErr result (IsStill M.did self.old.stage self.new.stage) }
        ensures columns { M.columns self.new.stage ≡ M.columns self.old.stage }
    {
        let done = self.edit(edit);
        self.is_well_formed();
        done
    }

    // Sets what later commands go by, which is the same in each column.
    fn set_up_columns(&mut self, setup: &Setup) -> Result<(), ApplyFault>
        requires { form.IsFormedSetup setup.now × IsSharedSetup setup.now }
        ensures quiet { QuietlyInAll (M.columns self.old.stage) (column_of M.states self.old) (Shared (family.Setup setup.now)) (column_of M.states self.new) result }
        ensures stage { self.new.stage ≡ self.old.stage }
        ensures columns { M.columns self.new.stage ≡ M.columns self.old.stage }
    {
        self.set_up_alike(setup)
    }

    // `set` and `charge`: gives the named nodes their letters in each column, from left to right.
    fn give_letters(&mut self, kind: ValueCommand, list: &ClockList) -> Result<(), ApplyFault>
        requires formed { IsFormed (M.columns self.old.stage) (Values kind list.now) }
        ensures quiet { QuietlyInAll (M.columns self.old.stage) (column_of M.states self.old) (Values kind list.now) (column_of M.states self.new) result }
        ensures stage { OnOk result (Leads M.did self.old.stage (acts_of_letters self.old.core.circuit list.now) self.new.stage) }
        ensures still { OnErr result (self.new.stage ≡ self.old.stage) }
        ensures columns { M.columns self.new.stage ≡ M.columns self.old.stage }
    {
        self.allow_letters(kind, list)?;
        self.put_letters(list.items());
        Ok(())
    }

    // Whether these nodes may be given letters, which doesn't depend on the column.
    fn allow_letters(&self, kind: ValueCommand, list: &ClockList) -> Result<(), ApplyFault>
        ensures allowed { OnOk result (refusal_of self.now.core (in_column 0 (Values kind list.now)) ≡ None) }
        ensures refused { IfErr result (IsFaultFor (refusal_of self.now.core (in_column 0 (Values kind list.now)))) }
    {
        let first = first_values(self.alloc, list.items())?;
        match self.states_for(&first, target_of(kind)) {
            Ok(_states) => Ok(()),
            Err(fault) => Err(fault),
        }
    }

    // Gives these named nodes, which are in use and no rails, their letters, from left to right.
    fn put_letters(&mut self, list: &[(Name, StateList)])
        requires fit { All (λ item. IsLetters (M.columns self.old.stage) item.1) list.now }
        requires known { All (λ item. is_some (node_of self.old.core.circuit.names item.0) ≡ true) list.now }
        requires past { All (λ item. RAILS ≤ node_named self.old.core.circuit item.0) list.now }
        ensures core { self.new.core ≡ record self.old.core { state = self.new.core.state } }
        ensures stage { Leads M.did self.old.stage (acts_of_letters self.old.core.circuit list.now) self.new.stage }
        ensures columns { M.columns self.new.stage ≡ M.columns self.old.stage }
    {
        place_letters(&self.circuit, list, &mut self.stage);
    }
}

// These names, each with the first letter.
fn first_values(alloc: Global, list: &[(Name, StateList)]) -> Result<ValueList, NoMemory>
    ensures { IfOk result (λ values. values ≡ map alone_of (map (value_in 0) list.now)) }
{
    let mut values = ValueList::new(alloc);
    for (name, letters) in list {
        let letter = letters.items().first().copied().unwrap_or(Tern::Zero);
        values.push((Name::from_slice(alloc, name.items())?, Value::Alone(letter)))?;
    }
    Ok(values)
}

/// Which nodes a command gives letters.
pub(crate) fn target_of(kind: ValueCommand) -> Target
    ensures { result ≡ target_of kind }
{
    match kind {
        ValueCommand::Set => Target::Inputs,
        ValueCommand::Charge => Target::Stores,
    }
}

// Gives these named nodes, which are in use and no rails, their letters, from left to right.
fn place_letters<M: Stage>(circuit: &Circuit, list: &[(Name, StateList)], stage: &mut M)
    requires sound { AreSound circuit.now.graph (M.columns stage.old) (M.states stage.old) }
    requires fit { All (λ item. IsLetters (M.columns stage.old) item.1) list.now }
    requires known { All (λ item. is_some (node_of circuit.now.names item.0) ≡ true) list.now }
    requires past { All (λ item. RAILS ≤ node_named circuit.now item.0) list.now }
    ensures columns { M.columns stage.new ≡ M.columns stage.old }
    ensures sound { AreSound circuit.now.graph (M.columns stage.new) (M.states stage.new) }
    ensures last { M.last stage.new ≡ M.last stage.old }
    ensures serves { (kept : List GroupTextData) → M.serves stage.old circuit.now.graph kept → M.serves stage.new circuit.now.graph kept }
    ensures did { Leads M.did stage.old (acts_of_letters circuit.now list.now) stage.new }
{
    for (name, letters) in list {
        let node = circuit.find(name.items()).unwrap();
        place_node(circuit.graph(), node, letters.items(), stage);
    }
}

// Gives a node that is no rail its letters.
fn place_node<M: Stage>(graph: &Graph, node: usize, letters: &[Tern], stage: &mut M)
    requires sound { AreSound graph.now (M.columns stage.old) (M.states stage.old) }
    requires inside { node < nodes graph.now }
    requires no_rail { RAILS ≤ node }
    requires letters { IsLetters (M.columns stage.old) letters.now }
    ensures columns { M.columns stage.new ≡ M.columns stage.old }
    ensures sound { AreSound graph.now (M.columns stage.new) (M.states stage.new) }
    ensures last { M.last stage.new ≡ M.last stage.old }
    ensures serves { (kept : List GroupTextData) → M.serves stage.old graph.now kept → M.serves stage.new graph.now kept }
    ensures did { M.did (Placed graph.now node letters.now) stage.old stage.new }
{
    stage.place(graph, node, letters);
}
