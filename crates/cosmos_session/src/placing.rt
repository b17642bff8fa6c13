//! What is done to a stage: a node is given a state, room is taken, the graph is edited, and it is built.

ghost use Rattle.std.specs.Prelude.{◌≡◌, ℕ, ◌+◌, ◌<◌, ◌≤◌, ◌⊎◌, [], ◌∷◌, List, Err, slice_set, IfErr, IfOk, OnErr, OnOk};
ghost use Rattle.cosmos_session.specs.Words.{GraphData, nodes, RAILS, IsRailed, Builds, TellsRefused, Built, LeadsBy, Placed, Reserved};
ghost use Rattle.cosmos_session.specs.Words.{AreAmong, AreSound, IsSoundState, with_new_nodes, IsUndone, NEW_NODES, GroupTextData};
ghost use Rattle.cosmos_session.specs.Words.{used_texts, texts_of, IsEditing};
ghost use Rattle.cosmos_session.specs.Keeping.{KeepsStage};

use analysis_cache::{Analyst, Kept};
use channel_groups::Change;
use circuit_texts::BuildFault;
use column_stage::{Columns, PlainStage, Stage};
use std::alloc::Global;
use switch_paths::Graph;
use ternary::{NoMemory, Tern};

/// Gives a node that is no rail this state.
pub(crate) fn put_node<M: PlainStage>(graph: &Graph, node: usize, value: Tern, stage: &mut M)
    requires one { M.columns stage.old ≡ 1 }
    requires sound { IsSoundState graph.now (M.states stage.old 0) }
    requires inside { node < nodes graph.now }
    requires no_rail { RAILS ≤ node }
    ensures one { M.columns stage.new ≡ 1 }
    ensures state { M.states stage.new 0 ≡ slice_set (M.states stage.old 0) node value }
    ensures sound { IsSoundState graph.now (M.states stage.new 0) }
    ensures last { M.last stage.new ≡ M.last stage.old }
    ensures serves { (kept : List GroupTextData) → M.serves stage.old graph.now kept → M.serves stage.new graph.now kept }
    ensures fits { M.fits stage.old graph.now → M.fits stage.new graph.now }
    ensures did { M.did (Placed graph.now node (value ∷ [])) stage.old stage.new }
{
    stage.place(graph, node, &[value]);
}

/// Gives a node that is no rail this state, in each column.
pub(crate) fn put_in_all<M: Stage>(graph: &Graph, node: usize, letter: Tern, stage: &mut M)
    requires some { 1 ≤ M.columns stage.old }
    requires sound { AreSound graph.now (M.columns stage.old) (M.states stage.old) }
    requires inside { node < nodes graph.now }
    requires no_rail { RAILS ≤ node }
    ensures states { (column : ℕ) → column < M.columns stage.old → M.states stage.new column ≡ slice_set (M.states stage.old column) node letter }
    ensures keeps { KeepsStage M.columns M.states M.last M.serves M.fits graph.now stage.old stage.new }
    ensures did { M.did (Placed graph.now node (letter ∷ [])) stage.old stage.new }
{
    stage.place(graph, node, &[letter]);
}

/// Takes room for the states of as many new nodes as one edit makes at most.
pub(crate) fn take_room<M: Columns>(stage: &mut M) -> Result<(), NoMemory>
    requires { 1 ≤ M.columns stage.old }
    ensures room { OnOk result (NEW_NODES ≤ M.spare stage.new) }
    ensures columns { M.columns stage.new ≡ M.columns stage.old }
    ensures state { M.states stage.new 0 ≡ M.states stage.old 0 }
    ensures states { (column : ℕ) → column < M.columns stage.old → M.states stage.new column ≡ M.states stage.old column }
    ensures last { M.last stage.new ≡ M.last stage.old }
    ensures serves { (g : GraphData) (kept : List GroupTextData) → M.serves stage.old g kept → M.serves stage.new g kept }
    ensures did { M.did Reserved stage.old stage.new }
{
    stage.reserve()
}

/// Tells the stage, which served the graph before, of an edit of the graph: each new node is X, in room that is there.
pub(crate) fn edit_stage<M: Columns>(
    alloc: Global,
    graph: &Graph,
    change: &Change,
    stage: &mut M,
    kept: &mut Kept,
)
    requires some { 1 ≤ M.columns stage.old }
    requires before { (before : GraphData) × IsUndone before graph.now change.now × AreSound before (M.columns stage.old) (M.states stage.old)
        × (nodes graph.now ≤ nodes before + M.spare stage.old) × M.serves stage.old before (used_texts (M.last stage.old) (texts_of kept.old)) }
    requires last { AreAmong (M.last stage.old) (texts_of kept.old) }
    ensures columns { M.columns stage.new ≡ M.columns stage.old }
    ensures state { M.states stage.new 0 ≡ with_new_nodes (M.states stage.old 0) (nodes graph.now) }
    ensures states { (column : ℕ) → column < M.columns stage.old
        → M.states stage.new column ≡ with_new_nodes (M.states stage.old column) (nodes graph.now) }
    ensures kept { used_texts (M.last stage.new) (texts_of kept.new) ≡ used_texts (M.last stage.old) (texts_of kept.old) }
    ensures last { AreAmong (M.last stage.new) (texts_of kept.new) }
    ensures bound { kept.new.bound ≡ kept.old.bound }
    ensures serves { M.serves stage.new graph.now (used_texts (M.last stage.old) (texts_of kept.old)) }
    ensures did { LeadsBy M.did IsEditing stage.old stage.new }
{
    stage.edit(alloc, graph, change, kept);
}

/// Gets what takes steps of the graph, as `Columns::build` does.
pub(crate) fn build_stage<M: Columns, A: Analyst>(
    alloc: Global,
    graph: &Graph,
    large: usize,
    stage: &mut M,
    kept: &mut Kept,
    analyst: &mut A,
) -> Result<u64, BuildFault>
    requires railed { IsRailed graph.now }
    requires some { 1 ≤ M.columns stage.old }
    requires sound { AreSound graph.now (M.columns stage.old) (M.states stage.old) }
    requires serves { M.serves stage.old graph.now (used_texts (M.last stage.old) (texts_of kept.old)) }
    requires last { AreAmong (M.last stage.old) (texts_of kept.old) }
    ensures fits { OnOk result (M.fits stage.new graph.now) }
    ensures serves { M.serves stage.new graph.now (used_texts (M.last stage.new) (texts_of kept.new)) }
    ensures columns { M.columns stage.new ≡ M.columns stage.old }
    ensures state { M.states stage.new 0 ≡ M.states stage.old 0 }
    ensures states { (column : ℕ) → column < M.columns stage.old → M.states stage.new column ≡ M.states stage.old column }
    ensures builds { IfOk result (Builds large graph.now kept.old.bound (used_texts (M.last stage.old) (texts_of kept.old)) (used_texts (M.last stage.new) (texts_of kept.new))
        (A.analysed analyst.old) (A.analysed analyst.new)) }
    ensures last { AreAmong (M.last stage.new) (texts_of kept.new) }
    ensures bound { kept.new.bound ≡ kept.old.bound }
    ensures cut_off { result ≡ Err BuildFault.NoMemory → M.cuts large graph.now kept.old.bound (used_texts (M.last stage.old) (texts_of kept.old)) (used_texts (M.last stage.new) (texts_of kept.new))
        (A.analysed analyst.old) (A.analysed analyst.new) }
    ensures refused { IfErr result (λ fault. (fault ≡ BuildFault.NoMemory)
        ⊎ (TellsRefused large graph.now fault × (kept.new ≡ kept.old) × (A.analysed analyst.new ≡ A.analysed analyst.old))) }
    ensures err { OnErr result (stage.new ≡ stage.old) }
    ensures did { OnOk result (M.did (Built large graph.now) stage.old stage.new) }
{
    stage.build(alloc, graph, large, kept, analyst)
}
