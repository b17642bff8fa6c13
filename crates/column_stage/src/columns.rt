//! The states of all columns, and what is done to them that counts no columns: edits of the circuit, and builds.

ghost use Rattle.std.specs.Prelude.{◌≡◌, ℕ, ◌+◌, ◌<◌, ◌≤◌, ◌⊎◌, List, Option, Err, IfOk, IfErr, OnOk, OnErr};
ghost use Rattle.column_stage.specs.Words.{Tern, GraphData, nodes, IsRailed, GroupTextData, used_texts, texts_of, TellsRefused, Builds, Act, Reserved, Edited, Built, AreAmong, AreSound, with_new_nodes, IsUndone};
ghost use Rattle.column_stage.specs.declared.TheConstants.{NEW_NODES};

use analysis_cache::{Analyst, Kept};
use channel_groups::Change;
use circuit_texts::BuildFault;
use std::alloc::Global;
use switch_paths::Graph;
use ternary::NoMemory;

/// The states of all columns, and what moves them, if it is there already.
///
/// Contracts see how many columns there are, and the states of each; for how many new nodes there is room; the texts
/// that the groups had at the last build, which count as standing in front of what is kept; which graphs it serves
/// while these texts are kept, so that a build goes on from what is there; which graphs it fits, so that it can take
/// steps of them; what a build may have analysed that ran out of memory; and what an act did to it, which is the
/// instance's own.
pub trait Columns: Drop {
    ghost columns: { Self → ℕ };

    ghost states: { Self → ℕ → List Tern };

    ghost spare: { Self → ℕ };

    ghost last: { Self → List GroupTextData };

    ghost serves: { Self → GraphData → List GroupTextData → Type 0 };

    ghost fits: { Self → GraphData → Type 0 };

    ghost cuts: { ℕ → GraphData → Option ℕ → List GroupTextData → List GroupTextData → List GroupTextData → List GroupTextData → Type 0 };

    ghost did: { Act → Self → Self → Type 0 };

    /// Takes room for the states of as many new nodes as one edit makes at most.
    ///
    /// Out of memory too the states stay, and what moves them.
    fn reserve(&mut self) -> Result<(), NoMemory>
        ensures room { OnOk result (NEW_NODES ≤ spare self.new) }
        ensures columns { columns self.new ≡ columns self.old }
        ensures states { (column : ℕ) → column < columns self.old → states self.new column ≡ states self.old column }
        ensures last { last self.new ≡ last self.old }
        ensures serves { (g : GraphData) (kept : List GroupTextData) → serves self.old g kept → serves self.new g kept }
        ensures did { did Reserved self.old self.new };

    /// Goes on after an edit of the graph: each new node is X in each column, in room that is there. What served the graph
    /// before serves the one after; if that lacks memory, what moves the states is let go.
    fn edit(&mut self, alloc: Global, graph: &Graph, change: &Change, kept: &mut Kept)
        requires before { (before : GraphData) × IsUndone before graph.now change.now × AreSound before (columns self.old) (states self.old)
            × (nodes graph.now ≤ nodes before + spare self.old) × serves self.old before (used_texts (last self.old) (texts_of kept.old)) }
        requires last { AreAmong (last self.old) (texts_of kept.old) }
        ensures columns { columns self.new ≡ columns self.old }
        ensures states { (column : ℕ) → column < columns self.old
            → states self.new column ≡ with_new_nodes (states self.old column) (nodes graph.now) }
        ensures kept { used_texts (last self.new) (texts_of kept.new) ≡ used_texts (last self.old) (texts_of kept.old) }
        ensures last { AreAmong (last self.new) (texts_of kept.new) }
        ensures bound { kept.new.bound ≡ kept.old.bound }
        ensures serves { serves self.new graph.now (used_texts (last self.old) (texts_of kept.old)) }
        ensures did { did (Edited graph.now change.now) self.old self.new };

    /// Gets what takes steps of the graph: what is there goes on, and if there is nothing it is made.
    ///
    /// Texts that aren't kept are analysed first, each once, and kept; the answer is how many these are. What is kept,
    /// with the texts of this build in front, is what a build leaves. The refusals are those of a build, with groups of
    /// up to `large` members accepted; after them the states are as before, and what moves them.
    fn build<A: Analyst>(
        &mut self,
        alloc: Global,
        graph: &Graph,
        large: usize,
        kept: &mut Kept,
        analyst: &mut A,
    ) -> Result<u64, BuildFault>
        requires railed { IsRailed graph.now }
        requires sound { AreSound graph.now (columns self.old) (states self.old) }
        requires serves { serves self.old graph.now (used_texts (last self.old) (texts_of kept.old)) }
        requires last { AreAmong (last self.old) (texts_of kept.old) }
        ensures fits { OnOk result (fits self.new graph.now) }
        ensures serves { serves self.new graph.now (used_texts (last self.new) (texts_of kept.new)) }
        ensures columns { columns self.new ≡ columns self.old }
        ensures states { (column : ℕ) → column < columns self.old → states self.new column ≡ states self.old column }
        ensures builds { IfOk result (Builds large graph.now kept.old.bound (used_texts (last self.old) (texts_of kept.old)) (used_texts (last self.new) (texts_of kept.new))
            (A.analysed analyst.old) (A.analysed analyst.new)) }
        ensures last { AreAmong (last self.new) (texts_of kept.new) }
        ensures bound { kept.new.bound ≡ kept.old.bound }
        ensures cut_off { result ≡ Err BuildFault.NoMemory → cuts large graph.now kept.old.bound (used_texts (last self.old) (texts_of kept.old)) (used_texts (last self.new) (texts_of kept.new))
            (A.analysed analyst.old) (A.analysed analyst.new) }
        ensures refused { IfErr result (λ fault. (fault ≡ BuildFault.NoMemory)
            ⊎ (TellsRefused large graph.now fault × (kept.new ≡ kept.old) × (A.analysed analyst.new ≡ A.analysed analyst.old))) }
        ensures err { OnErr result (self.new ≡ self.old) }
        ensures did { OnOk result (did (Built large graph.now) self.old self.new) };

    /// Moves the texts of the last build to the front of what is kept, for what goes on without the stage.
    fn use_last(&self, kept: &mut Kept)
        requires { AreAmong (last self.now) (texts_of kept.old) }
        ensures kept { texts_of kept.new ≡ used_texts (last self.now) (texts_of kept.old) }
        ensures bound { kept.new.bound ≡ kept.old.bound };
}
