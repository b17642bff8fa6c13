//! States that are kept under names, and given back.

ghost use Rattle.std.specs.Prelude.{◌≡◌, ◌<◌, ◌≤◌, List, length, position, slice_set, option_map, OnOk, OnErr};
ghost use Rattle.cosmos_session.specs.Words.{nodes, IsSound, state_at, RAILS, LeadsBy, IsSoundState, GroupTextData, Quietly, GivesOn};
ghost use Rattle.cosmos_session.specs.Words.{GivesOther, PlacesOther};
ghost use Rattle.script_lang.specs.declared.command.Command.TheVariants as family;
ghost use Rattle.script_lang.specs.declared.command.Give.TheVariants as given;
ghost use Rattle.script_lang.specs.declared.command.Setup.TheVariants as asked;
ghost use Rattle.session_meaning.specs.Refusals as refused;
ghost use Rattle.session_meaning.specs.Saves as spec;

use crate::placing::put_node;
use crate::session::Session;
use column_stage::PlainStage;
use netlist::RAILS;
use script_lang::{Name, StateList};
use session_meaning::{ApplyFault, MOST_SAVES, Refusal};
use std::alloc::AllocError;
use switch_paths::Graph;
use ternary::{NoMemory, Tern};

impl<M: PlainStage> Session<M> {
    /// `save`: keeps the present states of all nodes under a name, in the place of those that it kept.
    pub(crate) fn save(&mut self, name: &Name) -> Result<(), ApplyFault>
        ensures quiet { Quietly self.old.core (family.Setup (asked.Save name.now)) self.new.core result }
        ensures stage { self.new.stage ≡ self.old.stage }
    {
        if let Some(refusal) = save_refusal(&self.saves, name.items()) {
            return Err(ApplyFault::Refused(refusal));
        }
        let state = StateList::from_slice(self.alloc, self.stage.column())?;
        let name = Name::from_slice(self.alloc, name.items())?;
        put_save(&mut self.saves, name, state)?;
        Ok(())
    }

    /// `back`: gives each node that was there at the save the state that was kept under the name.
    pub(crate) fn back(&mut self, name: &Name) -> Result<(), ApplyFault>
        ensures quiet { Quietly self.old.core (family.Give (given.Back name.now)) self.new.core result }
        ensures stage { OnOk result (GivesOn M.did self.old (given.Back name.now) self.new) }
        ensures still { OnErr result (self.new.stage ≡ self.old.stage) }
    {
        let Some(kept) = kept_under(&self.saves, name.items()) else {
            return Err(ApplyFault::Refused(Refusal::NoSave));
        };
        give_back(self.circuit.graph(), kept.items(), &mut self.stage);
        Ok(())
    }
}

// The refusal of keeping states under a name.
fn save_refusal(saves: &[(Name, StateList)], name: &[u8]) -> Option<Refusal>
    ensures { result ≡ refused.save_refusal saves.now name.now }
{
    if other_saves(saves, name) >= MOST_SAVES {
        Some(Refusal::TooManySaves)
    } else {
        None
    }
}

// How many other names keep states.
fn other_saves(saves: &[(Name, StateList)], name: &[u8]) -> usize
    ensures { result ≡ spec.other_saves saves.now name.now }
{
    saves.iter().filter(|save| name != save.0.items()).count()
}

// The states that are kept under a name.
fn kept_under<'a>(saves: &'a [(Name, StateList)], name: &[u8]) -> Option<&'a StateList>
    ensures { option_map (λ state. state.now) result ≡ spec.kept_under saves.now name.now }
{
    for save in saves {
        if name == save.0.items() {
            return Some(&save.1);
        }
    }
    None
}

// The place of what a name keeps.
fn place_of(saves: &[(Name, StateList)], name: &[u8]) -> Option<usize>
    ensures { result ≡ position (spec.is_under name.now) saves.now }
{
    saves.iter().position(|save| name == save.0.items())
}

// Keeps states under a name, in the place of those that it kept. Out of memory both are dropped.
fn put_save(
    saves: &mut Vec<(Name, StateList)>,
    name: Name,
    state: StateList,
) -> Result<(), NoMemory>
    ensures ok { OnOk result (saves.new.items ≡ spec.with_save saves.old.items name state) }
    ensures err { OnErr result (saves.new.items ≡ saves.old.items) }
{
    match place_of(saves, name.items()) {
        Some(place) => saves[place] = (name, state),
        None => saves.push((name, state)).map_err(AllocError::from)?,
    }
    Ok(())
}

// Gives the nodes past the rails the states that were kept, each that differs.
fn give_back<M: PlainStage>(graph: &Graph, kept: &[Tern], stage: &mut M)
    requires one { M.columns stage.old ≡ 1 }
    requires sound { IsSoundState graph.now (M.states stage.old 0) }
    requires few { length kept.now ≤ nodes graph.now }
    requires railed { RAILS ≤ length kept.now }
    requires kept { IsSound kept.now }
    ensures one { M.columns stage.new ≡ 1 }
    ensures state { M.states stage.new 0 ≡ spec.back_to kept.now (M.states stage.old 0) }
    ensures last { M.last stage.new ≡ M.last stage.old }
    ensures serves { (texts : List GroupTextData) → M.serves stage.old graph.now texts → M.serves stage.new graph.now texts }
    ensures did { LeadsBy M.did (PlacesOther graph.now (M.states stage.old 0) (M.states stage.new 0)) stage.old stage.new }
{
    for node in RAILS..kept.len() {
        give_one(graph, node, kept[node], stage);
    }
}

// Gives a node past the rails this state, if it has another.
fn give_one<M: PlainStage>(graph: &Graph, node: usize, value: Tern, stage: &mut M)
    requires one { M.columns stage.old ≡ 1 }
    requires sound { IsSoundState graph.now (M.states stage.old 0) }
    requires inside { node < nodes graph.now }
    requires no_rail { RAILS ≤ node }
    ensures one { M.columns stage.new ≡ 1 }
    ensures state { M.states stage.new 0 ≡ slice_set (M.states stage.old 0) node value }
    ensures sound { IsSoundState graph.now (M.states stage.new 0) }
    ensures last { M.last stage.new ≡ M.last stage.old }
    ensures serves { (texts : List GroupTextData) → M.serves stage.old graph.now texts → M.serves stage.new graph.now texts }
    ensures did { GivesOther M.did graph.now node value (state_at (M.states stage.old 0) node) stage.old stage.new }
{
    if stage.column()[node] != value {
        put_node(graph, node, value, stage);
    }
}
