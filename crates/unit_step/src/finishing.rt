//! The codes of the parts that an edit made stale.
ghost use Rattle.std.specs.Prelude.{◌≡◌, ℕ, ◌⊎◌, None, length, All, IsTrue, Err, IfOk, IfErr, OnOk, OnErr, slice_index_or};
ghost use Rattle.std.specs.Bool.{OnTrue};
ghost use Rattle.switch_paths.specs.Graphs.{nodes};
ghost use Rattle.switch_paths.specs.Rails.{IsRailed, IsSound};
ghost use Rattle.group_text.specs.FirstTexts.{is_among};
ghost use Rattle.analysis_cache.specs.Words.{texts_of, IsGrown, HoldsKept, HoldsNearlyKept};
ghost use Rattle.circuit_texts.specs.Words.{NoneRefused, TellsRefused, Builds, Fills, IsCutOff};
ghost use Rattle.group_analysis.specs.Using.{used_texts};
ghost use Rattle.unit_step.specs.Words.{count_distinct, some_texts, MachinePart, Covers, IsKeptBy, Finishes, MakesReady, StaysKnown};
ghost use Rattle.unit_step.specs.Words.{AreInOrder, HasNoTexts};
ghost use Rattle.machine_parts.specs.Parts.{IsStale, Stands};
ghost use Rattle.unit_step.specs.LastTexts.{IsLeft};
ghost use Rattle.unit_step.specs.Holding.{HoldsNextIn};
ghost use Rattle.unit_step.specs.Waking.{AreDue, HaveCode, IsWaking, IsRisen, Wakes};

use crate::holding::Holding;
use crate::long::{Codes, coded_of, long_texts, loosen_unless_all};
use crate::machine::Machine;
use crate::making_ready::{numbers_of, put_texts};
use crate::waking::{Risen, Waking, has_no_group, ids_at, least_members, owners_of};
use analysis_cache::{Analyst, Kept};
use circuit_texts::{BuildFault, GroupSizes, GroupTexts, reads_at, sizes_at, texts_at};
use kept_parts::parts_of;
use part_steps::{needs_of, parts_with_reads, put_in, widen_for_codes};
use switch_paths::{Graph, graphs_are_wired};
use ternary::NoMemory;

impl Machine {
    /// Gives the stale parts their codes, so that the machine fits the graph that it covers. The answer is how
    /// many texts were new.
    ///
    /// Code comes from what is kept; texts that aren't kept are analysed first, each once, in the order of
    /// the groups, and kept. With the texts of the other parts, which are kept, that is what a build of the
    /// graph analyses. Then the texts that were there at the last build, and are gone, are in front of what is
    /// kept, in order, and what is past its bound is cut: so with the present texts in front it is what a build
    /// keeps. States, marks, and the parts that had code stay. The refusals are those of `build`; after them
    /// the machine is as before, and nothing was moved or cut.
    ///
    /// A group that is too large for a text is refused if it has more members than `large`. Else its part stays stale, and
    /// the group is stepped by vicinities; so is one whose code is long, unless all codes are asked for and no group was stepped so
    /// before. If there are such groups that weren't stepped so before, all nodes of all such
    /// groups are touched; else only the bound changes, if this one is smaller. The work is that of the parts that wait.
    ///
    /// An analyst that held exactly the texts that were kept holds exactly those that are kept, and after a refusal
    /// at most one besides.
    pub fn finish<A: Analyst>(
        &mut self,
        graph: &Graph,
        large: usize,
        codes: Codes,
        kept: &mut Kept,
        analyst: &mut A,
    ) -> Result<u64, BuildFault>
        requires covers { Covers graph.now self.old }
        requires railed { IsRailed graph.now }
        requires sound { IsSound self.old.state }
        requires known { IsKeptBy graph.now (texts_of kept.old) self.old }
        requires last { All (λ text. IsTrue (is_among (texts_of kept.old) text)) self.old.last }
        ensures finishes { OnOk result (Finishes graph.now self.old self.new) }
        ensures stays { OnOk result (StaysKnown large self.old self.new) }
        ensures without { OnOk result (codes ≡ Codes.All → large ≡ 0 → self.old.wide ≡ None → HasNoTexts self.old → self.new.wide ≡ None) }
        ensures builds { IfOk result (Builds large graph.now kept.old.bound (used_texts self.old.last (texts_of kept.old)) (used_texts self.new.last (texts_of kept.new))
            (A.analysed analyst.old) (A.analysed analyst.new)) }
        ensures there { OnOk result (All (λ text. IsTrue (is_among (texts_of kept.new) text)) self.new.last) }
        ensures bound { kept.new.bound ≡ kept.old.bound }
        ensures cut_off { result ≡ Err BuildFault.NoMemory → IsCutOff large graph.now (used_texts self.old.last (texts_of kept.old)) (used_texts self.old.last (texts_of kept.new))
            (A.analysed analyst.old) (A.analysed analyst.new) }
        ensures refused { IfErr result (λ fault. (fault ≡ BuildFault.NoMemory)
            ⊎ (TellsRefused large graph.now fault × (kept.new ≡ kept.old) × (A.analysed analyst.new ≡ A.analysed analyst.old))) }
        ensures err { OnErr result (self.new ≡ self.old) }
        ensures grown { OnErr result (IsGrown kept.old kept.new) }
        ensures holds { OnOk result (HoldsKept kept.old (A.held analyst.old) → HoldsKept kept.new (A.held analyst.new)) }
        ensures nearly { OnErr result (HoldsKept kept.old (A.held analyst.old) → HoldsNearlyKept kept.new (A.held analyst.new)) }
    {
        let fresh = self.wake(graph, large, codes, kept, analyst)?;
        self.settle_last(kept, analyst);
        Ok(fresh)
    }

    // Gives the stale parts their codes. The texts that aren't kept are analysed first, and kept behind what is
    // kept; the answer is how many were. If no part waits, only the bound changes.
    fn wake<A: Analyst>(
        &mut self,
        graph: &Graph,
        large: usize,
        codes: Codes,
        kept: &mut Kept,
        analyst: &mut A,
    ) -> Result<u64, BuildFault>
        requires covers { Covers graph.now self.old }
        requires railed { IsRailed graph.now }
        requires sound { IsSound self.old.state }
        requires known { IsKeptBy graph.now (texts_of kept.old) self.old }
        ensures makes_ready { OnOk result (MakesReady graph.now self.old self.new) }
        ensures stays { OnOk result (StaysKnown large self.old self.new) }
        ensures without { OnOk result (codes ≡ Codes.All → large ≡ 0 → self.old.wide ≡ None → HasNoTexts self.old → self.new.wide ≡ None) }
        ensures fills { IfOk result (Fills large graph.now (texts_of kept.old) (texts_of kept.new) (A.analysed analyst.old) (A.analysed analyst.new)) }
        ensures bound { kept.new.bound ≡ kept.old.bound }
        ensures cut_off { result ≡ Err BuildFault.NoMemory → IsCutOff large graph.now (texts_of kept.old) (texts_of kept.new) (A.analysed analyst.old) (A.analysed analyst.new) }
        ensures refused { IfErr result (λ fault. (fault ≡ BuildFault.NoMemory)
            ⊎ (TellsRefused large graph.now fault × (kept.new ≡ kept.old) × (A.analysed analyst.new ≡ A.analysed analyst.old))) }
        ensures err { OnErr result (self.new ≡ self.old) }
        ensures grown { IsGrown kept.old kept.new }
        ensures holds { OnOk result (HoldsKept kept.old (A.held analyst.old) → HoldsKept kept.new (A.held analyst.new)) }
        ensures nearly { OnErr result (HoldsKept kept.old (A.held analyst.old) → HoldsNearlyKept kept.new (A.held analyst.new)) }
    {
        if self.none_waits() {
            self.hold_up_to(large);
            return Ok(0);
        }
        self.wake_due(graph, large, codes, kept, analyst)
    }

    // The same, where some part may wait: if no group is due, only the bound changes. What takes room is here, so that
    // a machine at rest has none of it to make ready.
    #[inline(never)]
    fn wake_due<A: Analyst>(
        &mut self,
        graph: &Graph,
        large: usize,
        codes: Codes,
        kept: &mut Kept,
        analyst: &mut A,
    ) -> Result<u64, BuildFault>
        requires covers { Covers graph.now self.old }
        requires railed { IsRailed graph.now }
        requires sound { IsSound self.old.state }
        requires known { IsKeptBy graph.now (texts_of kept.old) self.old }
        ensures makes_ready { OnOk result (MakesReady graph.now self.old self.new) }
        ensures stays { OnOk result (StaysKnown large self.old self.new) }
        ensures without { OnOk result (codes ≡ Codes.All → large ≡ 0 → self.old.wide ≡ None → HasNoTexts self.old → self.new.wide ≡ None) }
        ensures fills { IfOk result (Fills large graph.now (texts_of kept.old) (texts_of kept.new) (A.analysed analyst.old) (A.analysed analyst.new)) }
        ensures bound { kept.new.bound ≡ kept.old.bound }
        ensures cut_off { result ≡ Err BuildFault.NoMemory → IsCutOff large graph.now (texts_of kept.old) (texts_of kept.new) (A.analysed analyst.old) (A.analysed analyst.new) }
        ensures refused { IfErr result (λ fault. (fault ≡ BuildFault.NoMemory)
            ⊎ (TellsRefused large graph.now fault × (kept.new ≡ kept.old) × (A.analysed analyst.new ≡ A.analysed analyst.old))) }
        ensures err { OnErr result (self.new ≡ self.old) }
        ensures grown { IsGrown kept.old kept.new }
        ensures holds { OnOk result (HoldsKept kept.old (A.held analyst.old) → HoldsKept kept.new (A.held analyst.new)) }
        ensures nearly { OnErr result (HoldsKept kept.old (A.held analyst.old) → HoldsNearlyKept kept.new (A.held analyst.new)) }
    {
        let sizes = self.due(graph, large)?;
        if has_no_group(&sizes) {
            self.hold(large, None);
            return Ok(0);
        }
        let waking = self.waking(graph, &sizes)?;
        let fresh = kept.fill(&waking.texts, analyst)?;
        let risen = self.risen(graph, codes, waking, kept)?;
        let holding = self.holding(graph, large, &risen.coded)?;
        self.make_ready(graph, risen)?;
        self.hold(large, holding);
        Ok(fresh)
    }

    // Whether no part waits for its code. The distinct texts are counted, whether one does or not.
    fn none_waits(&self) -> bool
        ensures none { OnTrue result ((k : ℕ) → ¬ IsStale self.now.parts k) }
        ensures texts { self.now.texts ≡ count_distinct self.now.uses }
    {
        self.body.agenda.none_waits()
    }

    // The ids of the groups whose parts wait. Those are passed over that are stepped by vicinities already, unless one of
    // these has more members than `large`.
    pub(crate) fn due(&self, graph: &Graph, large: usize) -> Result<GroupSizes, BuildFault>
        requires covers { Covers graph.now self.now }
        ensures due { IfOk result (AreDue graph.now self.now large) }
        ensures few { OnOk result (NoneRefused large graph.now) }
        ensures refused { IfErr result (λ fault. (fault ≡ BuildFault.NoMemory) ⊎ TellsRefused large graph.now fault) }
    {
        let alloc = *self.body.parts.allocator();
        let Some(groups) = &self.body.groups else {
            unreachable!();
        };
        let nodes = least_members(
            alloc,
            &self.body.parts,
            &self.body.agenda,
            &self.body.wide,
            large,
        )?;
        let waiting = ids_at(alloc, graph, groups, &nodes)?;
        sizes_at(alloc, groups, &waiting, large)
    }

    // The groups of the parts that wait, but for those in these slots, anew, under the present state, unless each of them is
    // stepped by vicinities already.
    fn holding(
        &self,
        graph: &Graph,
        large: usize,
        coded: &[usize],
    ) -> Result<Option<Holding>, NoMemory>
        requires { length self.now.state ≡ nodes graph.now }
        ensures { IfOk result (HoldsNextIn large graph.now self.now coded.now) }
    {
        self.body.holding(graph, large, coded)
    }

    // The texts that the parts have now are those of the last build from now on: those that are gone are used,
    // in order, and what is past the bound is cut, but no text that a part has.
    fn settle_last<A: Analyst>(&mut self, kept: &mut Kept, analyst: &mut A)
        requires textless { (k : ℕ) (part : MachinePart) → Stands self.old.parts k part → part.members ≡ 0
            → slice_index_or self.old.uses k None ≡ None }
        requires last { All (λ text. IsTrue (is_among (texts_of kept.old) text)) self.old.last }
        requires used { All (λ text. IsTrue (is_among (texts_of kept.old) text)) (some_texts self.old.uses) }
        ensures same { self.new ≡ record self.old { last = self.new.last } }
        ensures order { AreInOrder self.new.parts self.new.uses self.new.last }
        ensures left { IsLeft kept.old.bound self.old.last (texts_of kept.old) self.new.last (texts_of kept.new) }
        ensures there { All (λ text. IsTrue (is_among (texts_of kept.new) text)) self.new.last }
        ensures bound { kept.new.bound ≡ kept.old.bound }
        ensures analysed { A.analysed analyst.new ≡ A.analysed analyst.old }
        ensures holds { HoldsKept kept.old (A.held analyst.old) → HoldsKept kept.new (A.held analyst.new) }
    {
        self.body
            .last_texts
            .use_leavers(&self.body.parts, &self.body.uses, kept);
        self.body.uses.cut_past_bound(kept, analyst);
        self.body
            .last_texts
            .renew(&self.body.parts, &self.body.uses, &self.body.owners);
    }

    // What is found of the groups that are due and have a text.
    #[inline(never)]
    fn waking(&self, graph: &Graph, sizes: &GroupSizes) -> Result<Waking, BuildFault>
        requires covers { Covers graph.now self.now }
        requires due { (large : ℕ) × AreDue graph.now self.now large sizes.now }
        ensures waking { IfOk result (IsWaking graph.now self.now) }
        ensures refused { IfErr result (λ fault. fault ≡ BuildFault.NoMemory) }
    {
        let alloc = *self.body.parts.allocator();
        let Some(groups) = &self.body.groups else {
            unreachable!();
        };
        let slots = owners_of(alloc, &self.body.owners, &sizes.told)?;
        let GroupTexts { texts, maps } = texts_at(alloc, graph, groups, &sizes.told)?;
        let reads = reads_at(alloc, graph, groups, &sizes.told)?;
        Ok(Waking {
            slots,
            texts,
            maps,
            reads,
        })
    }

    // What the parts become whose groups are due and have a text, which is kept.
    #[inline(never)]
    fn risen(
        &self,
        graph: &Graph,
        codes: Codes,
        waking: Waking,
        kept: &Kept,
    ) -> Result<Risen, NoMemory>
        requires covers { Covers graph.now self.now }
        requires waking { IsWaking graph.now self.now waking }
        requires kept { All (λ text. IsTrue (is_among (texts_of kept.now) text)) waking.texts.items }
        ensures risen { IfOk result (IsRisen graph.now self.now) }
        ensures all { IfOk result (λ risen. codes ≡ Codes.All → self.now.wide ≡ None → HaveCode risen.parts.items) }
    {
        graphs_are_wired(graph);
        let alloc = *self.body.parts.allocator();
        let Waking {
            slots,
            texts,
            maps,
            reads,
        } = waking;
        let mut parts = parts_with_reads(alloc, parts_of(alloc, kept, &texts, maps)?, reads)?;
        let (wide, uses) = (&self.body.wide, &self.body.uses);
        let fresh = long_texts(alloc, kept.keys(), uses, &slots, &texts, &parts)?;
        loosen_unless_all(alloc, codes, wide, uses, &fresh, &texts, &mut parts);
        let coded = coded_of(alloc, &slots, &parts)?;
        Ok(Risen {
            slots,
            texts,
            parts,
            coded,
        })
    }

    // Puts these parts in their slots. Those of them that have no code go on waiting.
    #[inline(never)]
    fn make_ready(&mut self, graph: &Graph, risen: Risen) -> Result<(), NoMemory>
        requires covers { Covers graph.now self.old }
        requires risen { IsRisen graph.now self.old risen }
        ensures wakes { OnOk result (Wakes graph.now risen.coded.items self.old self.new) }
        ensures err { OnErr result (self.new ≡ self.old) }
    {
        let alloc = *self.body.parts.allocator();
        let Risen {
            slots,
            texts,
            parts,
            coded,
        } = risen;
        let Some(needs) = needs_of(&parts) else {
            return Err(NoMemory);
        };
        let numbers = numbers_of(alloc, &texts, &mut self.body.uses)?;
        widen_for_codes(&mut self.body.workspace, needs.values)?;
        let seats = self.body.dense.seats_for(alloc, &parts, &numbers)?;
        self.body.last_texts.note_all(&slots, &self.body.parts)?;
        self.body
            .readers
            .list_all(&slots, &parts, &self.body.parts)?;
        self.body.near = None;
        put_texts(&slots, &numbers, &mut self.body.uses);
        self.body.dense.put_all(&slots, seats);
        put_in(&slots, parts, &mut self.body.parts);
        self.body.agenda.make_ready(&coded);
        Ok(())
    }
}
