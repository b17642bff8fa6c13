//! The machine.
ghost use Rattle.std.specs.Prelude.{◌≡◌, ◌≢◌, ℕ, Bool, List, [], ◌-◌, vec_len, vec_capacity, ◌+◌, ◌^◌, ◌<◌, ◌≤◌, ◌⊎◌, true, false, length, count_by, option_map, All, None, Some, Err, IsTrue, is_some, IfSome, IfNone, IfOk, IfErr, OnOk, OnErr, if◌then◌else◌};
ghost use Rattle.std.specs.Bool.{OnTrue, OnFalse};
ghost use Rattle.unit_step.specs.Words.{raised, RAILS, ListsChanges, IsJoinStep, StaysOrBecomesX, HasLast, AreSeated, Advances, Places};
ghost use Rattle.unit_step.specs.Words.{Covers, FitsGraph, IsWorked};
ghost use Rattle.switch_paths.specs.Words.{GraphData, nodes, IsRailed, IsSound, IsStep};
ghost use Rattle.analysis_cache.specs.Words.{texts_of, IsGrown, HoldsKept, HoldsNearlyKept};
ghost use Rattle.group_text.specs.Words.{GroupTextData, is_among};
ghost use Rattle.group_analysis.specs.Using.{used_texts};
ghost use Rattle.circuit_texts.specs.Words.{TellsRefused, Builds, IsCutOff};
ghost use Rattle.machine_parts.specs.Words.{HasMember, ReadsAt, AreApart, has_members, count_marked, marked_sum, instructions_of, MarksAll};
ghost use Rattle.unit_step.specs.Bodies.{CanStart, of_body, fixed_of};
ghost use Rattle.unit_step.specs.Listing.{nodes_told};

use crate::body::Body;
use crate::last_texts::LastTexts;
use crate::listing::list;
use crate::long::Codes;
use crate::planning::plan_of;
use analysis_cache::{Analyst, Kept};
use channel_groups::Groups;
use circuit_texts::BuildFault;
use kept_parts::TextUses;
use machine_parts::MachinePart;
use part_advance::advance;
use part_steps::{Agenda, DenseParts, ReaderLists, Workspace, mark_all};
use settling::{Recall, Stepper, moves_after, moves_raised};
use std::alloc::Global;
use std::marker::Model;
use std::sync::ledger::Ledger;
use switch_paths::{Graph, graphs_are_wired};
use ternary::{Steps, Tern};
use wide_groups::place;

/// A compiled circuit: the parts of its groups, which of them are marked, and a state; and the groups that are stepped by
/// vicinities, since they are too large for a text or their code is long.
///
/// A step runs the code of the marked parts alone, and of those groups it looks at what is awake alone. All its room is
/// taken before, when the machine is built, edited or finished.
pub struct Machine {
    pub(crate) body: Body,
    pub(crate) moves: u64,
    pub(crate) placed: u64,
}

impl Model for Machine {
    ghost use Rattle.std.specs.Prelude.{◌-◌, length, vec_len, vec_capacity};
    ghost use Rattle.unit_step.specs.LastTexts.{AreLastTexts, texts_of_last};
    ghost use Rattle.unit_step.specs.Words.{texts_used, count_distinct, MachineData, rooms, IsMachine, AreDense, HoldsWide};
    ghost use Rattle.run_beside.specs.Near.{AreNearIn};

    ghost Value = { MachineData };

    ghost view = { λ m. record { groups = m.body.groups; parts = m.body.parts.items; uses = texts_used m.body.uses; marks = m.body.agenda.marks; state = m.body.state.items; texts = count_distinct (texts_used m.body.uses); last = texts_of_last m.body.uses.known m.body.last_texts; moves = m.moves; placed = m.placed; spare = vec_capacity m.body.state - vec_len m.body.state; wide = m.body.wide } };

    ghost invariant = { λ m. IsMachine m.body.parts.items m.body.agenda.marks m.body.agenda.waiting (length m.body.state.items) m.body.readers m.body.owners.items m.body.uses.numbers m.body.held m.body.most (rooms m.body.workspace)
        × AreDense m.body.parts.items m.body.dense × AreLastTexts m.body.parts.items m.body.uses.numbers (length m.body.state.items) (length m.body.uses.known) m.body.last_texts
        × HoldsWide m.body.parts.items m.body.state.items (vec_capacity m.body.noted) m.body.wide × AreNearIn m.body.parts.items m.body.owners.items m.body.near };
}

impl Machine {
    /// The machine of a graph, in this state: a part for each group, with the code of the group's text, if it has one.
    /// The groups that are too large for a text, and those whose code is long, unless all codes are asked for, are stepped by
    /// vicinities, and all their nodes are touched.
    ///
    /// Code comes from what is kept; texts that aren't kept are analysed first, each once, in the order
    /// of the groups, and kept; the count is their number. All texts of the groups are in front of what is kept
    /// then, and what is past its bound is cut. Every part is marked. A group that is too large for a text is
    /// refused if it has more members than `large`: the first such group is told and nothing is analysed. Out of
    /// memory nothing was analysed, or a prefix of what is new, and nothing is moved or cut.
    ///
    /// An analyst that held exactly the texts that were kept holds exactly those that are kept, and after a refusal
    /// at most one besides.
    pub fn build<A: Analyst>(
        alloc: Global,
        graph: &Graph,
        state: &[Tern],
        large: usize,
        codes: Codes,
        kept: &mut Kept,
        analyst: &mut A,
    ) -> Result<(Machine, u64), BuildFault>
        requires counted { length state.now ≡ nodes graph.now }
        requires railed { IsRailed graph.now }
        requires sound { IsSound state.now }
        ensures fits { IfOk result (λ made. FitsGraph graph.now made.0) }
        ensures without { IfOk result (λ made. codes ≡ Codes.All → large ≡ 0 → made.0.wide ≡ None) }
        ensures fresh { IfOk result (λ made. (made.0.state ≡ state.now) × (made.0.moves ≡ 0) × (made.0.placed ≡ 0)) }
        ensures last { IfOk result (λ made. HasLast graph.now made.0.last) }
        ensures builds { IfOk result (λ made. Builds large graph.now kept.old.bound (texts_of kept.old) (texts_of kept.new) (A.analysed analyst.old) (A.analysed analyst.new) made.1) }
        ensures bound { kept.new.bound ≡ kept.old.bound }
        ensures cut_off { result ≡ Err BuildFault.NoMemory → IsCutOff large graph.now (texts_of kept.old) (texts_of kept.new) (A.analysed analyst.old) (A.analysed analyst.new) }
        ensures refused { IfErr result (λ fault. (fault ≡ BuildFault.NoMemory)
            ⊎ (TellsRefused large graph.now fault × (kept.new ≡ kept.old) × (A.analysed analyst.new ≡ A.analysed analyst.old))) }
        ensures grown { OnErr result (IsGrown kept.old kept.new) }
        ensures holds { OnOk result (HoldsKept kept.old (A.held analyst.old) → HoldsKept kept.new (A.held analyst.new)) }
        ensures nearly { OnErr result (HoldsKept kept.old (A.held analyst.old) → HoldsNearlyKept kept.new (A.held analyst.new)) }
    {
        let plan = plan_of(alloc, kept.keys(), graph, state, large)?;
        let fresh = kept.fill(plan.uses.known(), analyst)?;
        let body = Body::of_plan(alloc, graph, plan, codes, kept)?;
        let holding = body.holding(graph, large, &[])?;
        kept.put_first(body.uses.known(), analyst);
        let mut machine = Machine::start(body);
        machine.hold(large, holding);
        Ok((machine, fresh))
    }

    // The machine that starts with what was made for it. It takes no memory.
    fn start(body: Body) -> Machine
        requires { CanStart body }
        ensures { result ≡ of_body body result.spare }
    {
        Machine {
            body,
            moves: 0,
            placed: 0,
        }
    }

    /// The state of each node.
    pub fn state(&self) -> &[Tern]
        ensures { result.now ≡ self.now.state }
    {
        &self.body.state
    }

    /// The state of each node, for what goes on without the machine, with its room for more.
    pub fn into_state(self) -> Vec<Tern>
        ensures state { result.items ≡ self.state }
        ensures room { vec_capacity result - vec_len result ≡ self.spare }
    {
        let (_parts, state) = self.taken_apart();
        state
    }

    /// The parts, for what goes on without the machine.
    pub fn into_parts(self) -> Vec<MachinePart>
        ensures parts { result.items ≡ self.parts }
        ensures seated { AreSeated (length self.state) self.parts }
        ensures apart { AreApart self.parts }
        ensures reads { (k node : ℕ) → ReadsAt self.parts k node → node < length self.state }
    {
        let (parts, _state) = self.taken_apart();
        parts
    }

    // The parts and the states, for what goes on without the machine. All else is dropped.
    fn taken_apart(self) -> (Vec<MachinePart>, Vec<Tern>)
        ensures parts { result.0.items ≡ self.parts }
        ensures state { result.1.items ≡ self.state }
        ensures room { vec_capacity result.1 - vec_len result.1 ≡ self.spare }
        ensures seated { AreSeated (length self.state) self.parts }
        ensures apart { AreApart self.parts }
        ensures reads { (k node : ℕ) → ReadsAt self.parts k node → node < length self.state }
    {
        let Machine {
            body,
            moves: _moves,
            placed: _placed,
        } = self;
        let Body {
            groups: _groups,
            parts,
            dense: _dense,
            uses: _uses,
            last_texts: _last_texts,
            held: _held,
            most: _most,
            agenda: _agenda,
            readers: _readers,
            owners: _owners,
            state,
            workspace: _workspace,
            wide: _wide,
            noted: _noted,
            near: _near,
        } = body;
        (parts, state)
    }

    /// The groups of the graph that it covers, as they were found when it was built and kept through edits.
    pub fn grouping(&self) -> Option<&Groups>
        ensures { option_map (λ groups. groups.now) result ≡ self.now.groups }
    {
        self.body.groups.as_ref()
    }

    /// How many groups it has: how many of its parts have a member.
    pub fn groups(&self) -> usize
        ensures { result ≡ count_by has_members self.now.parts }
    {
        self.body.held
    }

    /// How many parts it has, with those that groups left which edits dissolved: these have no member.
    pub fn parts(&self) -> usize
        ensures { result ≡ length self.now.parts }
    {
        self.body.parts.len()
    }

    /// How many distinct texts its groups have.
    pub fn texts(&self) -> usize
        ensures { result ≡ self.now.texts }
    {
        self.body.uses.distinct()
    }

    /// Moves the texts that its groups had at the last build to the front of what is kept, in their order, for
    /// what goes on without the machine. It keeps no memory, and if there is none it only takes longer.
    ///
    /// What a build leaves is kept in the order of use, the present texts first. So long as there is a machine,
    /// only it knows their order.
    pub fn use_last(&self, kept: &mut Kept)
        requires { All (λ text. IsTrue (is_among (texts_of kept.old) text)) self.now.last }
        ensures texts { texts_of kept.new ≡ used_texts self.now.last (texts_of kept.old) }
        ensures bound { kept.new.bound ≡ kept.old.bound }
    {
        self.body.last_texts.use_all(&self.body.uses, kept);
    }

    /// Whether some of its groups are stepped by vicinities.
    pub fn has_wide_groups(&self) -> bool
        ensures { result ≡ is_some self.now.wide }
    {
        self.body.wide.is_some()
    }

    /// How often a step changed the state. It stays at `u64::MAX` once it is there.
    pub fn moves(&self) -> u64
        ensures { result ≡ self.now.moves }
    {
        self.moves
    }

    /// How often a member of a part was placed. It stays at `u64::MAX` once it is there.
    pub fn placed(&self) -> u64
        ensures { result ≡ self.now.placed }
    {
        self.placed
    }

    /// How many parts are marked.
    pub fn marked(&self) -> usize
        ensures { result ≡ count_marked self.now.marks }
    {
        self.body.agenda.marked()
    }

    /// Gives a node that is no rail this state, and marks the parts that have it as a member or read
    /// it; all other nodes stay.
    ///
    /// The graph is meant that is handed in: the machine covers and fits it afterwards if it did
    /// before. `placed` counts the node if it is a member of a part. It takes no memory.
    pub fn set_node(&mut self, graph: &Graph, node: usize, value: Tern)
        requires inside { node < length self.old.state }
        requires no_rail { RAILS ≤ node }
        ensures places { Places node value self.old self.new }
        ensures covers { Covers graph.now self.old → Covers graph.now self.new }
        ensures fits { FitsGraph graph.now self.old → FitsGraph graph.now self.new }
        ensures member { (k : ℕ) → HasMember self.old.parts k node → self.new.placed ≡ raised self.old.placed 1 }
        ensures no_member { ((k : ℕ) → ¬ HasMember self.old.parts k node) → self.new.placed ≡ self.old.placed }
    {
        graphs_are_wired(graph);
        place(node, value, &mut self.body.state, &mut self.body.wide);
        let owner = self.body.owners[node];
        mark_owner(owner, &mut self.body.agenda);
        mark_all(self.body.readers.of(node), &mut self.body.agenda);
        self.placed = placed_after(self.placed, owner);
    }

    /// What can remember a state of it, and remembers none. It takes no memory.
    pub fn recall(&self) -> Recall
        ensures { result.since ≡ None }
    {
        Recall::new(*self.body.state.allocator())
    }

    /// Counts so many steps more that changed the state, and led back to it.
    pub fn count_moves(&mut self, count: u64)
        ensures state { self.new.state ≡ self.old.state }
        ensures fits { (g : GraphData) → FitsGraph g self.old → FitsGraph g self.new }
        ensures moves { self.new.moves ≡ raised self.old.moves count }
        ensures placed { self.new.placed ≡ self.old.placed }
        ensures fixed { fixed_of self.new ≡ fixed_of self.old }
    {
        self.moves = moves_raised(self.moves, count);
    }

    /// An empty list for the nodes that steps change, if someone looks at them. It takes no memory.
    pub fn listing(&self, is_looked_at: bool) -> Option<Vec<usize>>
        ensures { option_map (λ nodes. nodes.items) result ≡ (if is_looked_at then Some [] else None) }
    {
        if is_looked_at {
            Some(Vec::new(*self.body.state.allocator()))
        } else {
            None
        }
    }

    /// Takes a unit step as `Stepper::step` does, and lists the nodes at which it changes the state, if there is a list.
    ///
    /// Out of memory for the list there is none any more, and any node may have changed.
    pub fn step_listed<L: Ledger>(
        &mut self,
        graph: &Graph,
        steps: &mut Steps<L>,
        changed: &mut Option<Vec<usize>>,
    ) -> bool
        ensures advances { Advances false self.old self.new }
        ensures ticks { IsWorked (marked_sum instructions_of self.old.parts self.old.marks) self.old.wide self.old.state steps.old steps.new }
        ensures step { FitsGraph graph.now self.old → IsStep graph.now self.old.state self.new.state }
        ensures fits { FitsGraph graph.now self.old → FitsGraph graph.now self.new }
        ensures nodes { length self.new.state ≡ length self.old.state }
        ensures few { length self.new.state < 2 ^ 63 }
        ensures changed { OnTrue result (self.new.state ≢ self.old.state) }
        ensures same { OnFalse result (self.new.state ≡ self.old.state) }
        ensures listed { ListsChanges (nodes_told changed.new (length self.new.state)) self.old.state self.new.state }
        ensures none { changed.old ≡ None → changed.new ≡ None }
        ensures moved { OnTrue result (self.new.moves ≡ raised self.old.moves 1) }
        ensures rested { OnFalse result (self.new.moves ≡ self.old.moves) }
        ensures placed { self.new.placed ≡ self.old.placed }
        ensures fixed { fixed_of self.new ≡ fixed_of self.old }
    {
        graphs_are_wired(graph);
        self.take(false, steps, changed)
    }

    /// Takes a joining step as `Stepper::join_step` does, and lists the nodes as `step_listed` does.
    pub fn join_step_listed<L: Ledger>(
        &mut self,
        graph: &Graph,
        steps: &mut Steps<L>,
        changed: &mut Option<Vec<usize>>,
    ) -> bool
        ensures advances { Advances true self.old self.new }
        ensures ticks { IsWorked (marked_sum instructions_of self.old.parts self.old.marks) self.old.wide self.old.state steps.old steps.new }
        ensures step { FitsGraph graph.now self.old → IsJoinStep graph.now self.old.state self.new.state }
        ensures fits { FitsGraph graph.now self.old → FitsGraph graph.now self.new }
        ensures unknown { StaysOrBecomesX self.old.state self.new.state }
        ensures nodes { length self.new.state ≡ length self.old.state }
        ensures few { length self.new.state < 2 ^ 63 }
        ensures changed { OnTrue result (self.new.state ≢ self.old.state) }
        ensures same { OnFalse result (self.new.state ≡ self.old.state) }
        ensures listed { ListsChanges (nodes_told changed.new (length self.new.state)) self.old.state self.new.state }
        ensures none { changed.old ≡ None → changed.new ≡ None }
        ensures moved { OnTrue result (self.new.moves ≡ raised self.old.moves 1) }
        ensures rested { OnFalse result (self.new.moves ≡ self.old.moves) }
        ensures placed { self.new.placed ≡ self.old.placed }
        ensures fixed { fixed_of self.new ≡ fixed_of self.old }
    {
        graphs_are_wired(graph);
        self.take(true, steps, changed)
    }

    // Takes a step, plain or joining, lists the nodes at which it changes the state, if there is a list, and answers
    // whether it does.
    fn take<L: Ledger>(
        &mut self,
        joining: bool,
        steps: &mut Steps<L>,
        changed: &mut Option<Vec<usize>>,
    ) -> bool
        ensures advances { Advances joining self.old self.new }
        ensures ticks { IsWorked (marked_sum instructions_of self.old.parts self.old.marks) self.old.wide self.old.state steps.old steps.new }
        ensures unknown { joining ≡ true → StaysOrBecomesX self.old.state self.new.state }
        ensures few { length self.new.state < 2 ^ 63 }
        ensures changed { OnTrue result (self.new.state ≢ self.old.state) }
        ensures same { OnFalse result (self.new.state ≡ self.old.state) }
        ensures listed { ListsChanges (nodes_told changed.new (length self.new.state)) self.old.state self.new.state }
        ensures none { changed.old ≡ None → changed.new ≡ None }
        ensures moved { OnTrue result (self.new.moves ≡ raised self.old.moves 1) }
        ensures rested { OnFalse result (self.new.moves ≡ self.old.moves) }
    {
        let moved = advance(
            joining,
            &self.body.parts,
            &mut self.body.dense,
            &self.body.readers,
            &mut self.body.state,
            &mut self.body.agenda,
            &mut self.body.workspace,
            &mut self.body.wide,
            &mut self.body.noted,
            steps,
        );
        self.moves = moves_after(self.moves, moved);
        list(&self.body.workspace.changes, &self.body.noted, changed);
        moved
    }
}

// One call drops a machine: a function that owns one has nothing to show of its many fields.
impl Drop for Machine {
    fn drop(self) {
        let (_parts, _state) = self.taken_apart();
    }
}

impl Stepper for Machine {
    ghost state = { λ machine. machine.state };

    ghost fits = { λ machine g. FitsGraph g machine };

    ghost moves = { λ machine. machine.moves };

    ghost placed = { λ machine. machine.placed };

    ghost Fixed = { List GroupTextData × Bool };

    ghost fixed = { fixed_of };

    fn states(&self) -> &[Tern] {
        self.state()
    }

    fn skip(&mut self, count: u64) {
        self.count_moves(count);
    }

    fn step<L: Ledger>(&mut self, graph: &Graph, steps: &mut Steps<L>) -> bool
        ensures advances { Advances false self.old self.new }
        ensures ticks { IsWorked (marked_sum instructions_of self.old.parts self.old.marks) self.old.wide self.old.state steps.old steps.new }
        ensures step { FitsGraph graph.now self.old → IsStep graph.now self.old.state self.new.state }
        ensures fits { FitsGraph graph.now self.old → FitsGraph graph.now self.new }
        ensures nodes { length self.new.state ≡ length self.old.state }
        ensures few { length self.new.state < 2 ^ 63 }
        ensures changed { OnTrue result (self.new.state ≢ self.old.state) }
        ensures same { OnFalse result (self.new.state ≡ self.old.state) }
        ensures moved { OnTrue result (self.new.moves ≡ raised self.old.moves 1) }
        ensures rested { OnFalse result (self.new.moves ≡ self.old.moves) }
        ensures placed { self.new.placed ≡ self.old.placed }
        ensures fixed { fixed_of self.new ≡ fixed_of self.old }
    {
        self.step_listed(graph, steps, &mut None)
    }

    fn join_step<L: Ledger>(&mut self, graph: &Graph, steps: &mut Steps<L>) -> bool
        ensures advances { Advances true self.old self.new }
        ensures ticks { IsWorked (marked_sum instructions_of self.old.parts self.old.marks) self.old.wide self.old.state steps.old steps.new }
        ensures step { FitsGraph graph.now self.old → IsJoinStep graph.now self.old.state self.new.state }
        ensures fits { FitsGraph graph.now self.old → FitsGraph graph.now self.new }
        ensures unknown { StaysOrBecomesX self.old.state self.new.state }
        ensures nodes { length self.new.state ≡ length self.old.state }
        ensures few { length self.new.state < 2 ^ 63 }
        ensures changed { OnTrue result (self.new.state ≢ self.old.state) }
        ensures same { OnFalse result (self.new.state ≡ self.old.state) }
        ensures moved { OnTrue result (self.new.moves ≡ raised self.old.moves 1) }
        ensures rested { OnFalse result (self.new.moves ≡ self.old.moves) }
        ensures placed { self.new.placed ≡ self.old.placed }
        ensures fixed { fixed_of self.new ≡ fixed_of self.old }
    {
        self.join_step_listed(graph, steps, &mut None)
    }
}

// The number of placed members after a node was placed that this part owns, if one does.
fn placed_after(placed: u64, owner: Option<usize>) -> u64
    ensures some { IfSome owner (λ _. result ≡ raised placed 1) }
    ensures none { IfNone owner (result ≡ placed) }
{
    match owner {
        Some(_) => placed.saturating_add(1),
        None => placed,
    }
}

// Marks the part that owns a node, if one does.
fn mark_owner(owner: Option<usize>, agenda: &mut Agenda)
    requires { IfSome owner (λ k. k < length agenda.old.marks) }
    ensures marks { MarksAll (λ k. owner ≡ Some k) agenda.old.marks agenda.new.marks }
    ensures waiting { agenda.new.waiting ≡ agenda.old.waiting }
{
    if let Some(k) = owner {
        agenda.mark(k);
    }
}
