//! The data of a session, and what each command does to them.

ghost use Rattle.std.specs.Prelude.{◌≡◌, not, None, IfOk, IfErr, OnOk};
ghost use Rattle.cosmos_session.specs.Words.{texts_of, start_of, IsHeldSession, IsUnseen, KnowsBehind, PassesThrough, Sees, NamesNode};
ghost use Rattle.cosmos_session.specs.Words.{faults_applied, Obeys, ObeysOn};
ghost use Rattle.script_lang.specs.Forms.{IsFormed};

use crate::guesses::Guesses;
use crate::waves::RowRoom;
use analysis_cache::{Analyst, Kept};
use column_stage::{Columns, PlainStage};
use netlist::Circuit;
use node_words::Vectors;
use script_lang::{Command, Name, StateList};
use session_meaning::{ApplyFault, Clock};
use settling::{Blind, Onlooker};
use std::alloc::Global;
use std::marker::Model;
use ternary::{NoMemory, Tern};
use told_lines::Lines;

/// A simulation session: a circuit, the state of its nodes, the nodes that are watched, the clocks,
/// the limit of a phase, how many waveform lines there were, whether some expectation was not met, the vectors
/// that names stand for, the names under which states are kept, the texts whose analyses are kept, the most
/// recently used first, perhaps a bound on their number, how many members a group without a text may have, and how
/// many texts were analysed since the last report.
///
/// Beside these data contracts see the stage that moves the state, whatever it is: what it is built of comes at the
/// first command that wants it, and lives through edits of the circuit. They don't see the room for rows of waveform lines, which is
/// held between commands, nor the nodes that are guessed for words.
#[derive(Drop)]
pub struct Session<M: Columns> {
    pub(crate) alloc: Global,
    pub(crate) circuit: Circuit,
    pub(crate) stage: M,
    pub(crate) watched: Vec<usize>,
    pub(crate) clocks: Vec<Clock>,
    pub(crate) limit: u64,
    pub(crate) count: u64,
    pub(crate) missed: bool,
    pub(crate) vectors: Vectors,
    pub(crate) saves: Vec<(Name, StateList)>,
    pub(crate) kept: Kept,
    pub(crate) large: usize,
    pub(crate) fresh: u64,
    pub(crate) room: RowRoom,
    pub(crate) guesses: Guesses,
}

impl<M: Columns> Model for Session<M> {
    ghost use Rattle.group_analysis.specs.Using.{used_texts};
    ghost use Rattle.analysis_cache.specs.Keeping.{texts_of};
    ghost use Rattle.column_stage.specs.Columns.{AreAmong};
    ghost use Rattle.session_meaning.specs.Sessions.{HeldSession, IsHeldSession};

    ghost Value = { HeldSession M };

    ghost view = { λ session. record { core = record { circuit = session.circuit; state = M.states session.stage 0; watched = session.watched.items; clocks = session.clocks.items; limit = session.limit; count = session.count; missed = session.missed; vectors = session.vectors; saves = session.saves.items; bound = session.kept.bound; large = session.large; kept = used_texts (M.last session.stage) (texts_of session.kept); fresh = session.fresh }; stage = session.stage } };

    ghost invariant = { λ session. IsHeldSession M.columns M.states M.serves (record { core = record { circuit = session.circuit; state = M.states session.stage 0; watched = session.watched.items; clocks = session.clocks.items; limit = session.limit; count = session.count; missed = session.missed; vectors = session.vectors; saves = session.saves.items; bound = session.kept.bound; large = session.large; kept = used_texts (M.last session.stage) (texts_of session.kept); fresh = session.fresh }; stage = session.stage })
        × AreAmong (M.last session.stage) (texts_of session.kept) };
}

impl<M: Columns> Session<M> {
    /// The circuit, as edited so far.
    pub fn circuit(&self) -> &Circuit
        ensures value { result.now ≡ self.now.core.circuit }
        ensures session { IsHeldSession M.columns M.states M.serves self.now }
    {
        &self.circuit
    }

    /// The nodes that are watched, in the order of the watch list.
    pub fn watched(&self) -> &[usize]
        ensures { result.now ≡ self.now.core.watched }
    {
        &self.watched
    }

    /// How many members a group without a text may have; with 0 each group is to have a text.
    pub fn large(&self) -> usize
        ensures { result ≡ self.now.core.large }
    {
        self.large
    }

    /// The clocks, in the order of the line that set them.
    pub fn clocks(&self) -> &[Clock]
        ensures { result.now ≡ self.now.core.clocks }
    {
        &self.clocks
    }

    /// The vectors that names stand for.
    pub fn vectors(&self) -> &Vectors
        ensures { result.now ≡ self.now.core.vectors }
    {
        &self.vectors
    }

    /// The nodes that are guessed for the next words of `set` and `charge`, in order, if the script ran before.
    pub fn guesses(&self) -> &[usize] {
        self.guesses.next()
    }

    /// The stage that moves the state: it serves the circuit with what is kept. After a unit step, a phase, a cycle or a
    /// report it fits the circuit, until an edit.
    pub fn stage(&self) -> &M
        ensures value { result.now ≡ self.now.stage }
        ensures session { IsHeldSession M.columns M.states M.serves self.now }
    {
        &self.stage
    }

    /// Each session is well formed: a call of this is for its contract alone.
    pub(crate) fn is_well_formed(&self)
        ensures { IsHeldSession M.columns M.states M.serves self.now }
    {
        let _ = &self.alloc;
    }
}

impl<M: PlainStage> Session<M> {
    /// A session at its start: Gnd is 0, Vdd is 1 and every other node X; nothing is watched, there
    /// are no clocks, a phase has the limit 100, nothing is kept, and there is no bound. Out of memory the circuit is
    /// dropped.
    pub fn new(alloc: Global, circuit: Circuit) -> Result<Session<M>, NoMemory>
        ensures core { IfOk result (λ session. session.core ≡ start_of circuit) }
        ensures starts { IfOk result (λ session. M.starts session.stage) }
    {
        let kept = Kept::with_keys(alloc, circuit.keys());
        Self::start(alloc, circuit, kept)
    }

    // A session at its start which keeps these, without a bound.
    fn start(alloc: Global, circuit: Circuit, kept: Kept) -> Result<Session<M>, NoMemory>
        requires { kept.bound ≡ None }
        ensures core { IfOk result (λ session. session.core ≡ record (start_of circuit) { kept = texts_of kept }) }
        ensures starts { IfOk result (λ session. M.starts session.stage) }
    {
        let state = first_states(alloc, &circuit)?;
        let guesses = Guesses::none(alloc);
        Ok(Self::over_stage(alloc, circuit, kept, M::still(state), guesses))
    }

    /// A session at its start over a copy of another circuit, in which what this one keeps is kept still, without a bound. Its stage may hold on
    /// to what this one's has, and the names of its circuit are this one's, if they are the same.
    /// Out of memory this one is dropped.
    pub fn restart(self, start: &Circuit) -> Result<Session<M>, NoMemory>
        ensures core { IfOk result (λ session. session.core ≡ record (start_of start.now) { kept = self.core.kept }) }
        ensures starts { IfOk result (λ session. M.starts session.stage) }
    {
        let Session {
            alloc,
            circuit,
            stage,
            mut kept,
            guesses,
            ..
        } = self;
        let circuit = start.copy_over(alloc, circuit)?;
        stage.use_last(&mut kept);
        kept.set_bound(None);
        let state = first_states(alloc, &circuit)?;
        let again = stage.again(state);
        Ok(Self::over_stage(alloc, circuit, kept, again, guesses.again()))
    }

    /// The state of each node.
    pub fn state(&self) -> &[Tern]
        ensures { result.now ≡ self.now.core.state }
    {
        self.stage.column()
    }

    /// Whether each expectation so far was met.
    pub fn met(&self) -> bool
        ensures { result ≡ not self.now.core.missed }
    {
        !self.missed
    }

    /// Does a command, and tells its lines.
    ///
    /// A refusal comes exactly if the command has one, the first of its causes, and changes nothing; a
    /// command that needs the circuit built is refused last if a group is too large, and the first such
    /// group is told. Before `step`, `phase`, `cycle` and `report` the circuit is built if it isn't: the
    /// analyst is given each text of its groups that isn't kept, once, and its code is kept. The texts of its
    /// groups are the most recently used ones then, and what is past the bound is cut, but none of these.
    ///
    /// What is done to the stage is told act by act, and what an act does to it is the stage's own. A command that is
    /// refused, or lacks memory before it began, leaves it as it was, but that room for new nodes may have been taken.
    ///
    /// A fault of the hearer ends the command: nothing is told after the one call that failed, so its count
    /// rose by one, and at no other answer. Then a prefix of the command's lines was heard, and of the next one a
    /// part, and the data are as after a whole part of it: its effect, or of a `cycle` the phases at a prefix of its
    /// places. Lack of memory of the hearer while it is told a line is alike. Lack of memory of any other kind
    /// changes nothing but what is kept: all memory is taken before the first unit step, also the hearer's room
    /// for a line, and a build last of all.
    pub fn apply<A: Analyst, L: Lines>(
        &mut self,
        command: &Command,
        analyst: &mut A,
        out: &mut L,
    ) -> Result<(), ApplyFault>
        requires { IsFormed command.now }
        ensures obeys { Obeys L.hear L.part self.old.core command.now self.new.core (L.heard out.old) (L.heard out.new)
            (A.analysed analyst.old) (A.analysed analyst.new) (L.refusals out.old) (L.refusals out.new) result }
        ensures stage { ObeysOn L.hear L.part M.did self.old command.now self.new (L.heard out.old) (L.heard out.new)
            (A.analysed analyst.old) (A.analysed analyst.new) (L.refusals out.old) (L.refusals out.new) result }
        ensures faults { L.faults out.new ≡ faults_applied (L.faults out.old) result }
        ensures named { IfErr result (NamesNode self.new.core.circuit.graph) }
        ensures before { IsHeldSession M.columns M.states M.serves self.old }
        ensures session { IsHeldSession M.columns M.states M.serves self.new }
    {
        self.apply_seen(command, analyst, out, &mut Blind {})
    }

    /// Does a command as `apply` does, under the eyes of an onlooker, who knows the session's state.
    ///
    /// The onlooker is shown each step or phase of the command, in order: the state in which it begins, which for a
    /// `cycle` is the one behind the placing of the letters; the one behind each unit step of either sort that changes
    /// something; and its end, with the number of unit steps that its waveform line tells. A command that ends with a fault
    /// of its own shows it nothing; what it sees if the hearer's fault ends the command isn't told. The state behind the
    /// command is shown by `show_behind`.
    pub fn apply_seen<A: Analyst, L: Lines, O: Onlooker>(
        &mut self,
        command: &Command,
        analyst: &mut A,
        out: &mut L,
        onlooker: &mut O,
    ) -> Result<(), ApplyFault>
        requires formed { IsFormed command.now }
        requires knows { O.knows onlooker.old self.old.core.state }
        ensures obeys { Obeys L.hear L.part self.old.core command.now self.new.core (L.heard out.old) (L.heard out.new)
            (A.analysed analyst.old) (A.analysed analyst.new) (L.refusals out.old) (L.refusals out.new) result }
        ensures stage { ObeysOn L.hear L.part M.did self.old command.now self.new (L.heard out.old) (L.heard out.new)
            (A.analysed analyst.old) (A.analysed analyst.new) (L.refusals out.old) (L.refusals out.new) result }
        ensures faults { L.faults out.new ≡ faults_applied (L.faults out.old) result }
        ensures named { IfErr result (NamesNode self.new.core.circuit.graph) }
        ensures before { IsHeldSession M.columns M.states M.serves self.old }
        ensures session { IsHeldSession M.columns M.states M.serves self.new }
        ensures seen { OnOk result (Sees O.begin O.see O.rest (PassesThrough self.old.core command.now) (O.seen onlooker.old) (O.seen onlooker.new)) }
        ensures knows { OnOk result (KnowsBehind O.knows onlooker.new self.old.core command.now self.new.core) }
        ensures unseen { IsUnseen onlooker.old onlooker.new (L.faults out.old) (L.faults out.new) (L.refusals out.old) (L.refusals out.new) result }
    {
        self.is_well_formed();
        let outcome = self.obey(command, analyst, out, onlooker);
        self.is_well_formed();
        outcome
    }

    // Does a command, and tells its lines.
    fn obey<A: Analyst, L: Lines, O: Onlooker>(
        &mut self,
        command: &Command,
        analyst: &mut A,
        out: &mut L,
        onlooker: &mut O,
    ) -> Result<(), ApplyFault>
        requires formed { IsFormed command.now }
        requires knows { O.knows onlooker.old self.old.core.state }
        requires session { IsHeldSession M.columns M.states M.serves self.old }
        ensures obeys { ObeysOn L.hear L.part M.did self.old command.now self.new (L.heard out.old) (L.heard out.new)
            (A.analysed analyst.old) (A.analysed analyst.new) (L.refusals out.old) (L.refusals out.new) result }
        ensures faults { L.faults out.new ≡ faults_applied (L.faults out.old) result }
        ensures seen { OnOk result (Sees O.begin O.see O.rest (PassesThrough self.old.core command.now) (O.seen onlooker.old) (O.seen onlooker.new)) }
        ensures knows { OnOk result (KnowsBehind O.knows onlooker.new self.old.core command.now self.new.core) }
        ensures unseen { IsUnseen onlooker.old onlooker.new (L.faults out.old) (L.faults out.new) (L.refusals out.old) (L.refusals out.new) result }
    {
        match command {
            Command::Edit(edit) => self.edit(edit),
            Command::Give(give) => self.give(give),
            Command::Setup(setup) => self.set_up(setup),
            Command::Run(run) => self.run(run, analyst, out, onlooker),
            Command::Tell(tell) => self.tell(tell, out),
        }
    }
}

// The states at a start: Gnd is 0, Vdd is 1 and every other node X.
fn first_states(alloc: Global, circuit: &Circuit) -> Result<Vec<Tern>, NoMemory>
    ensures { IfOk result (λ states. states.items ≡ (start_of circuit.now).state) }
{
    let mut states = vec![in alloc; Tern::Unk; circuit.graph().nodes()]?;
    states[0] = Tern::Zero;
    states[1] = Tern::One;
    Ok(states)
}
