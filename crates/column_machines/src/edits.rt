//! What an edit of the graph does to a machine of columns, and what gives its stale parts their codes.
ghost use Rattle.std.specs.Prelude.{◌≡◌, ◌≢◌, ℕ, ◌+◌, ◌≤◌, ◌<◌, Err, length, IfOk, IfErr, OnOk, OnErr};
ghost use Rattle.std.specs.Bool.{OnTrue};
ghost use Rattle.switch_paths.specs.Words.{nodes, IsRailed, IsSound, IsWired};
ghost use Rattle.column_machines.specs.Words.{undo, used_texts, AllFit, Covers, Edits, IsKeptBy, NEW_NODES, AddsMarked};
ghost use Rattle.analysis_cache.specs.Words.{texts_of, IsGrown};
ghost use Rattle.circuit_texts.specs.Words.{Builds, IsCutOff};
ghost use Rattle.column_machines.specs.Columns.{column_of, CoversInWords, FitsInWords};
ghost use Rattle.column_machines.specs.Editing.{AreKeptIn, EditsWords, Follows, GrowsWords, KeepsButRoom, KeepsWords};
ghost use Rattle.column_machines.specs.Evaluating.{rooms, IsEven};
ghost use Rattle.column_machines.specs.Making.{spare_of};
ghost use Rattle.column_machines.specs.Running.{IsWordMachine, IsRunnable};

use crate::evaluation::Workspace;
use crate::machine::WordMachine;
use crate::making::widen;
use crate::rails::{Rails, grow_rails};
use analysis_cache::{Analyst, Kept};
use channel_groups::Change;
use circuit_texts::BuildFault;
use part_lists::{Agenda, add_marked};
use std::alloc::AllocError;
use std::marker::Brand;
use std::sync::ledger::{Blank, Ledger};
use switch_paths::{Graph, graphs_are_wired};
use ternary::{NoMemory, Steps};
use unit_step::{Codes, EditRefused, Machine, NEW_NODES};

// How many parts a machine may always have that groups left which are gone.
const MOST_LEFT: usize = 16;

// How many parts may wait for their codes: a build costs about as much as so many.
const MOST_WAITING: usize = 1000;

// A machine that followed an edit, the marks of its columns, and room for their steps.
#[derive(Drop)]
pub(crate) struct Followed {
    pub(crate) machine: Machine,
    pub(crate) agenda: Agenda,
    pub(crate) workspace: Workspace,
}

impl WordMachine {
    /// Takes room for the states of as many new nodes as one edit makes at most.
    ///
    /// Nothing else changes. Out of memory the machine is as before, but for its room.
    pub fn reserve(&mut self) -> Result<(), NoMemory>
        ensures room { OnOk result (NEW_NODES ≤ self.new.spare) }
        ensures same { KeepsButRoom self.old self.new }
    {
        reserve_words(&mut self.hi, &mut self.lo)?;
        self.machine.reserve()
    }

    /// The machine of columns of the graph after an edit, where it covered the graph before it.
    ///
    /// The groups that the edit touches are stale and marked: they wait for `finish`. Every other group keeps its part, with
    /// its code and its mark. New nodes are X in each column, all other nodes stay. The work is that of the machine's own
    /// edit. Where that lacks memory, where a group came that is too large for a text, where very many parts wait, or where
    /// most parts were left by groups that are gone, only the words are left, and the texts of the last build are in front of
    /// what is kept.
    pub fn edit(self, graph: &Graph, change: &Change, kept: &mut Kept) -> Result<WordMachine, Rails>
        requires covers { CoversInWords (undo graph.now change.now) self }
        requires wired { IsWired (undo graph.now change.now) }
        requires room { nodes graph.now ≤ length self.hi + self.spare }
        requires last { AreKeptIn self.machine.last (texts_of kept.old) }
        ensures edits { IfOk result (EditsWords graph.now change.now self) }
        ensures kept { OnOk result (kept.new ≡ kept.old) }
        ensures rails { IfErr result (λ rails. GrowsWords graph.now self.columns self.hi self.lo rails.hi.items rails.lo.items) }
        ensures gone { OnErr result (texts_of kept.new ≡ used_texts self.machine.last (texts_of kept.old)) }
        ensures bound { kept.new.bound ≡ kept.old.bound }
    {
        graphs_are_wired(graph);
        let WordMachine {
            columns,
            used,
            machine,
            agenda,
            hi,
            lo,
            workspace,
        } = self;
        let mut rails = Rails { hi, lo };
        grow_rails(&mut rails, graph.nodes());
        match follow_edit(machine, graph, change, agenda, workspace) {
            Ok(followed) => Ok(joined(columns, used, followed, rails)),
            Err(left) => {
                left.use_last(kept);
                Err(rails)
            }
        }
    }

    /// Moves the texts of the machine's last build to the front of what is kept, for what goes on without it.
    pub fn use_last(&self, kept: &mut Kept)
        requires { AreKeptIn self.now.machine.last (texts_of kept.old) }
        ensures texts { texts_of kept.new ≡ used_texts self.now.machine.last (texts_of kept.old) }
        ensures bound { kept.new.bound ≡ kept.old.bound }
    {
        self.machine.use_last(kept);
    }

    /// Gives the stale parts their codes, so that each column fits the graph that it covers. The answer is how many texts
    /// were new.
    ///
    /// It is the machine's own finish, which gives each part its code, however long that is. The states stay, and the marks.
    /// Out of memory the machine is as before; no group is refused.
    pub fn finish<A: Analyst>(
        &mut self,
        graph: &Graph,
        kept: &mut Kept,
        analyst: &mut A,
    ) -> Result<u64, BuildFault>
        requires covers { CoversInWords graph.now self.old }
        requires railed { IsRailed graph.now }
        requires sound { (column : ℕ) → column < self.old.columns → IsSound (column_of self.old column) }
        requires known { IsKeptBy graph.now (texts_of kept.old) self.old.machine }
        requires last { AreKeptIn self.old.machine.last (texts_of kept.old) }
        ensures fits { OnOk result (FitsInWords graph.now self.new) }
        ensures words { KeepsWords self.old self.new }
        ensures builds { IfOk result (λ count. (large : ℕ) → Builds large graph.now kept.old.bound (used_texts self.old.machine.last (texts_of kept.old)) (used_texts self.new.machine.last (texts_of kept.new))
            (A.analysed analyst.old) (A.analysed analyst.new) count) }
        ensures there { OnOk result (AreKeptIn self.new.machine.last (texts_of kept.new)) }
        ensures bound { kept.new.bound ≡ kept.old.bound }
        ensures cut_off { result ≡ Err BuildFault.NoMemory → (large : ℕ) → IsCutOff large graph.now (used_texts self.old.machine.last (texts_of kept.old)) (used_texts self.old.machine.last (texts_of kept.new))
            (A.analysed analyst.old) (A.analysed analyst.new) }
        ensures refused { IfErr result (λ fault. fault ≡ BuildFault.NoMemory) }
        ensures err { OnErr result (self.new ≡ self.old) }
        ensures grown { OnErr result (IsGrown kept.old kept.new) }
    {
        // these calls are for the proof alone: there are as many marks as parts
        let _before = self.machine.all_parts();
        let result = self.machine.finish(graph, 0, Codes::All, kept, analyst);
        let _after = self.machine.all_parts();
        result
    }
}

// Takes room for the words of as many new nodes as one edit makes at most.
fn reserve_words(hi: &mut Vec<u64>, lo: &mut Vec<u64>) -> Result<(), AllocError>
    ensures room { OnOk result (NEW_NODES ≤ spare_of hi.new lo.new) }
    ensures highs { hi.new.items ≡ hi.old.items }
    ensures lows { lo.new.items ≡ lo.old.items }
{
    hi.reserve(NEW_NODES)?;
    lo.reserve(NEW_NODES)?;
    Ok(())
}

// The machine of columns with a machine that followed an edit, and with these words.
fn joined(columns: u32, used: u64, followed: Followed, rails: Rails) -> WordMachine
    requires is { IsWordMachine columns used followed.machine followed.agenda rails.hi.items rails.lo.items (rooms followed.workspace) }
    requires even { IsEven followed.workspace }
    ensures columns { result.columns ≡ columns }
    ensures machine { result.machine ≡ followed.machine }
    ensures marks { result.marks ≡ followed.agenda }
    ensures highs { result.hi ≡ rails.hi.items }
    ensures lows { result.lo ≡ rails.lo.items }
{
    let Followed {
        machine,
        agenda,
        workspace,
    } = followed;
    let Rails { hi, lo } = rails;
    WordMachine {
        columns,
        used,
        machine,
        agenda,
        hi,
        lo,
        workspace,
    }
}

// The machine after an edit, with marks for the parts that came, and room for the steps of all; or what is left of it,
// where it can't go on.
fn follow_edit(
    machine: Machine,
    graph: &Graph,
    change: &Change,
    agenda: Agenda,
    workspace: Workspace,
) -> Result<Followed, Machine>
    requires covers { Covers (undo graph.now change.now) machine }
    requires wired { IsWired (undo graph.now change.now) }
    requires room { nodes graph.now ≤ length machine.state + machine.spare }
    requires counted { length agenda ≡ length machine.parts }
    requires rails { IsEven workspace }
    ensures ok { IfOk result (Follows graph.now change.now machine agenda) }
    ensures err { IfErr result (λ left. left.last ≡ machine.last) }
{
    match edit_uncounted::<Brand>(machine, graph, change, Blank::new(1)) {
        Ok(machine) => go_on(machine, graph, agenda, workspace),
        Err(EditRefused { machine }) => Err(machine),
    }
}

// A machine that was edited, with marks for the parts that came, and room for the steps of all, if it can go on.
fn go_on(
    machine: Machine,
    graph: &Graph,
    agenda: Agenda,
    workspace: Workspace,
) -> Result<Followed, Machine>
    requires covers { Covers graph.now machine }
    requires counted { length agenda ≤ length machine.parts }
    requires rails { IsEven workspace }
    ensures machine { IfOk result (λ made. made.machine ≡ machine) }
    ensures fit { OnOk result (AllFit graph.now) }
    ensures marks { IfOk result (λ made. AddsMarked (length machine.parts) agenda made.agenda) }
    ensures runs { IfOk result (λ made. IsRunnable machine.parts made.agenda (rooms made.workspace)) }
    ensures rails { IfOk result (λ made. IsEven made.workspace) }
    ensures err { IfErr result (λ left. left ≡ machine) }
{
    if !can_go_on(&machine, graph) {
        return Err(machine);
    }
    let mut agenda = agenda;
    let mut workspace = workspace;
    match make_room(&machine, &mut agenda, &mut workspace) {
        Ok(()) => Ok(Followed {
            machine,
            agenda,
            workspace,
        }),
        Err(_lack) => Err(machine),
    }
}

// Whether columns can go on with a machine that was edited.
fn can_go_on(machine: &Machine, graph: &Graph) -> bool
    requires { Covers graph.now machine.now }
    ensures { OnTrue result (AllFit graph.now) }
{
    if is_sparse(machine) {
        return false;
    }
    if machine.waiters() > MOST_WAITING {
        return false;
    }
    machine.all_fit(graph)
}

// Whether most of a machine's parts, and more than 16, were left by groups that are gone.
fn is_sparse(machine: &Machine) -> bool {
    let left = machine.parts().saturating_sub(machine.groups());
    left > machine.groups() && left > MOST_LEFT
}

// Takes room for the steps of a machine's parts, and marks those that came behind the others.
fn make_room(
    machine: &Machine,
    agenda: &mut Agenda,
    workspace: &mut Workspace,
) -> Result<(), AllocError>
    requires few { length agenda.old ≤ length machine.now.parts }
    requires rails { IsEven workspace.old }
    ensures marks { OnOk result (AddsMarked (length machine.now.parts) agenda.old agenda.new) }
    ensures runs { OnOk result (IsRunnable machine.now.parts agenda.new (rooms workspace.new)) }
    ensures rails { OnOk result (IsEven workspace.new) }
{
    let parts = machine.parts();
    let members = machine.most_members();
    add_marked(parts, agenda)?;
    widen(members, parts, workspace)?;
    Ok(())
}

// The machine after an edit, without counting the looks at nodes and switches.
fn edit_uncounted<L: Ledger>(
    machine: Machine,
    graph: &Graph,
    change: &Change,
    blank: Blank,
) -> Result<Machine, EditRefused>
    requires name { blank.name ≡ L.name }
    requires parts { blank.parts ≡ L.parts }
    requires some { blank.parts ≢ 0 }
    requires covers { Covers (undo graph.now change.now) machine }
    requires wired { IsWired (undo graph.now change.now) }
    requires room { nodes graph.now ≤ length machine.state + machine.spare }
    ensures edits { IfOk result (Edits graph.now change.now machine) }
    ensures last { IfErr result (λ refused. refused.machine.last ≡ machine.last) }
{
    machine.edit(graph, change, &mut Steps::<L>::new(blank))
}
