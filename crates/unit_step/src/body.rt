//! What a machine is made of.
ghost use Rattle.std.specs.Prelude.{◌≡◌, ℕ, ◌<◌, ◌↔◌, true, length, replicate, All, Contains, IsTrue, IfOk};
ghost use Rattle.switch_paths.specs.Words.{nodes, IsRailed, IsSound};
ghost use Rattle.analysis_cache.specs.Keeping.{texts_of};
ghost use Rattle.group_text.specs.FirstTexts.{is_among};
ghost use Rattle.kept_parts.specs.Uses.{texts_used};
ghost use Rattle.machine_parts.specs.Words.{AreApart, IsFormed, IsMarked, IsStale};
ghost use Rattle.unit_step.specs.Planning.{IsPlan};
ghost use Rattle.machine_laws.specs.Words.{IsReady, AreInOrder, AreUntold, HasLast};
ghost use Rattle.unit_step.specs.LastTexts.{texts_of_last};
ghost use Rattle.unit_step.specs.Holding.{HasNodes, HoldsNext};
ghost use Rattle.unit_step.specs.Bodies.{CanStart, IsCodedAt, of_body};
ghost use Rattle.part_steps.specs.Dense.{AreDense, HasInputs, HaveCodes};

use crate::holding::{Holding, holding_of, holds_all, others_waiting};
use crate::last_texts::LastTexts;
use crate::long::{Codes, add_if, loosen_new};
use crate::planning::Plan;
use crate::seating::add_stale;
use analysis_cache::Kept;
use channel_groups::Groups;
use kept_parts::{TextUses, parts_by_number};
use machine_parts::MachinePart;
use part_steps::{
    Agenda, DenseParts, ReaderLists, Workspace, all_owners, count_held, parts_with_reads,
    workspace_for,
};
use part_words::{Change, KnownRuns};
use run_beside::Near;
use std::alloc::{AllocError, Global};
use switch_paths::{Graph, graphs_are_wired};
use ternary::{NoMemory, Tern};
use vicinity::Wide;

// What a machine is made of, but for its counts. All that takes memory is taken when it is made, so what is left of
// a build can't fail, and may move and cut what is kept.
#[derive(Drop)]
pub(crate) struct Body {
    // the groups of the graph that the machine was built for
    pub(crate) groups: Option<Groups>,
    pub(crate) parts: Vec<MachinePart>,
    // what a step reads of the parts
    pub(crate) dense: DenseParts,
    // the text of each part whose group has one, once it was found
    pub(crate) uses: TextUses,
    // the texts of the last build
    pub(crate) last_texts: LastTexts,
    // how many parts have a member
    pub(crate) held: usize,
    // at least as many as all parts have members
    pub(crate) most: usize,
    pub(crate) agenda: Agenda,
    // for each node the parts that read it, and the part that it is a member of
    pub(crate) readers: ReaderLists,
    pub(crate) owners: Vec<Option<usize>>,
    pub(crate) state: Vec<Tern>,
    pub(crate) workspace: Workspace,
    // the groups that are stepped by vicinities, if they are known, and room for a change of each node
    pub(crate) wide: Option<Wide>,
    pub(crate) noted: Vec<Change>,
    // what is near the parts that are apart in a run beside a good one, if it is known
    pub(crate) near: Option<Near>,
}

impl Body {
    // The body of a plan whose texts are kept.
    pub(crate) fn of_plan(
        alloc: Global,
        graph: &Graph,
        plan: Plan,
        codes: Codes,
        kept: &Kept,
    ) -> Result<Body, NoMemory>
        requires plan { (large : ℕ) × IsPlan large graph.now plan.state.items plan }
        requires kept { All (λ text. IsTrue (is_among (texts_of kept.now) text)) plan.uses.known }
        requires counted { length plan.state.items ≡ nodes graph.now }
        requires railed { IsRailed graph.now }
        requires sound { IsSound plan.state.items }
        ensures starts { IfOk result CanStart }
        ensures begins { IfOk result (λ body. (spare : ℕ) → IsReady graph.now (of_body body spare)) }
        ensures all { codes ≡ Codes.All → IfOk result (λ body. AreUntold graph.now body.parts.items) }
        ensures last { IfOk result (λ body. HasLast graph.now (texts_of_last body.uses.known body.last_texts)) }
        ensures state { IfOk result (λ body. body.state ≡ plan.state) }
        ensures known { IfOk result (λ body. body.uses.known ≡ plan.uses.known) }
    {
        graphs_are_wired(graph);
        let Plan {
            groups,
            uses,
            maps,
            reads,
            large,
            state,
        } = plan;
        let mut uses = uses;
        let parts = parts_by_number(alloc, kept, &uses, maps)?;
        let mut held = parts_with_reads(alloc, parts, reads)?;
        loosen_new(alloc, codes, &uses, &mut held);
        add_stale(alloc, graph, &groups, &large, &mut held, &mut uses)?;
        Body::of_parts(alloc, Some(groups), held, state, uses)
    }

    // The body of these parts in this state.
    pub(crate) fn of_parts(
        alloc: Global,
        groups: Option<Groups>,
        parts: Vec<MachinePart>,
        state: Vec<Tern>,
        uses: TextUses,
    ) -> Result<Body, NoMemory>
        requires formed { All (IsFormed (length state.items)) parts.items }
        requires some { All (λ part. 0 < part.members) parts.items }
        requires apart { AreApart parts.items }
        requires reads { All (λ part. All (λ node. node < length state.items) part.reads.items) parts.items }
        requires numbered { length uses.numbers ≡ length parts.items }
        requires coded { HaveCodes uses.numbers parts.items }
        ensures starts { IfOk result CanStart }
        ensures groups { IfOk result (λ body. body.groups ≡ groups) }
        ensures parts { IfOk result (λ body. body.parts ≡ parts) }
        ensures state { IfOk result (λ body. body.state ≡ state) }
        ensures uses { IfOk result (λ body. body.uses ≡ uses) }
        ensures order { IfOk result (λ body. AreInOrder parts.items (texts_used uses) (texts_of_last uses.known body.last_texts)) }
    {
        let nodes = state.len();
        let held = count_held(&parts);
        let agenda = agenda_of(alloc, &parts)?;
        let readers = ReaderLists::of_parts(alloc, &parts, nodes)?;
        let owners = all_owners(alloc, &parts, nodes)?;
        let workspace = workspace_for(alloc, &parts)?;
        let dense = dense_of(alloc, &parts, &uses)?;
        let last_texts = LastTexts::of_parts(alloc, &parts, &uses, nodes)?;
        Ok(Body {
            groups,
            parts,
            dense,
            uses,
            last_texts,
            held,
            most: workspace.changes.capacity(),
            agenda,
            readers,
            owners,
            state,
            workspace,
            wide: None,
            noted: Vec::new(alloc),
            near: None,
        })
    }

    // The groups of the parts that wait, but for these, anew, under the present state, unless each of them is stepped by
    // vicinities already.
    #[inline(never)]
    pub(crate) fn holding(
        &self,
        graph: &Graph,
        large: usize,
        coded: &[usize],
    ) -> Result<Option<Holding>, NoMemory>
        requires counted { length self.now.state.items ≡ nodes graph.now }
        requires there { All (HasNodes (nodes graph.now)) self.now.parts.items }
        requires waits { (k : ℕ) → IsMarked self.now.agenda.waiting k ↔ IsStale self.now.parts.items k }
        ensures { IfOk result (HoldsNext large graph.now self.now.parts.items self.now.wide self.now.state.items coded.now) }
    {
        let alloc = *self.parts.allocator();
        let these = others_waiting(alloc, &self.agenda, coded)?;
        if holds_all(&self.wide, &self.parts, &these) {
            return Ok(None);
        }
        let holding = holding_of(alloc, graph, &self.parts, &these, large, &self.state)?;
        Ok(Some(holding))
    }
}

// All of these parts are marked, and those without code wait.
fn agenda_of(alloc: Global, parts: &[MachinePart]) -> Result<Agenda, AllocError>
    requires some { All (λ part. 0 < part.members) parts.now }
    ensures marks { IfOk result (λ agenda. agenda.marks ≡ replicate (length parts.now) true) }
    ensures waiting { IfOk result (λ agenda. (k : ℕ) → IsMarked agenda.waiting k ↔ IsStale parts.now k) }
{
    let coded = parts_with_code(alloc, parts)?;
    let mut agenda = Agenda::with_stale(alloc, 0, parts.len())?;
    agenda.make_ready(&coded);
    Ok(agenda)
}

// The numbers of the parts that have code.
fn parts_with_code(alloc: Global, parts: &[MachinePart]) -> Result<Vec<usize>, AllocError>
    ensures { IfOk result (λ coded. (k : ℕ) → Contains coded.items k ↔ IsCodedAt parts.now k) }
{
    let mut coded = Vec::new(alloc);
    for (k, part) in parts.iter().enumerate() {
        add_if(part.code.is_some(), k, &mut coded)?;
    }
    Ok(coded)
}

// What a step reads of these parts; those whose texts have one number share their code. More codes or nodes than
// a number of 32 bits can count are refused as lack of memory.
#[tactic(auto, using(part_steps::proofs::DenseLemmas::no_seats, part_steps::proofs::DenseLemmas::places_none, part_steps::proofs::DenseLemmas::known_none))]
fn dense_of(alloc: Global, parts: &[MachinePart], uses: &TextUses) -> Result<DenseParts, NoMemory>
    requires inputs { All HasInputs parts.now }
    requires numbered { length uses.now.numbers ≡ length parts.now }
    requires coded { HaveCodes uses.now.numbers parts.now }
    ensures { IfOk result (AreDense parts.now) }
{
    let mut places = vec![in alloc; None; uses.known().len()]?;
    let mut dense = DenseParts {
        codes: Vec::new(alloc),
        nodes: Vec::new(alloc),
        seats: Vec::with_capacity(alloc, parts.len())?,
        places: Vec::new(alloc),
        known: KnownRuns::none(alloc),
    };
    for (k, part) in parts.iter().enumerate() {
        let seat = dense.seat_shared(part, uses.number_of(k), &mut places)?;
        dense.seats.push_reserved(seat);
    }
    dense.places = places;
    Ok(dense)
}
