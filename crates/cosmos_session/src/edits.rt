//! Edits of the circuit.

ghost use Rattle.std.specs.Prelude.{◌≡◌, ◌<◌, ◌≤◌, All, OnOk, OnErr};
ghost use Rattle.cosmos_session.specs.Words.{nodes, RAILS, answer_of, with_input, with_place, LeadsBy, Quietly, IsEditing, IsStill};
ghost use Rattle.cosmos_session.specs.Words.{place_after, edit_fault, edit_of};
ghost use Rattle.script_lang.specs.declared.command.Command.TheVariants as family;
ghost use Rattle.script_lang.specs.declared.command.Edit.TheVariants as asked;
ghost use Rattle.session_meaning.specs.Effects as effect;

use crate::changes::{change_at, change_of, change_of_level};
use crate::naming::all_nodes;
use crate::placing::{edit_stage, take_room};
use crate::refusals;
use crate::session::Session;
use column_stage::Columns;
use netlist::{Circuit, EditFault, RAILS, usual_strength};
use script_lang::{Edit, Name, NameList};
use session_meaning::{ApplyFault, Refusal, SwitchEdit};
use switch_paths::SwitchKind;

impl<M: Columns> Session<M> {
    /// Does an edit.
    pub(crate) fn edit(&mut self, edit: &Edit) -> Result<(), ApplyFault>
        ensures quiet { Quietly self.old.core (family.Edit edit.now) self.new.core result }
        ensures stage { OnOk result (LeadsBy M.did IsEditing self.old.stage self.new.stage) }
        ensures still { OnErr result (IsStill M.did self.old.stage self.new.stage) }
    {
        match edit {
            Edit::Input(names) => self.input(names),
            Edit::Store(name, size) => self.store(name, *size),
            Edit::Add {
                kind,
                gate,
                source,
                drain,
                strength,
            } => self.add(*kind, gate, source, drain, *strength),
            Edit::Del(number) => self.edit_switch(*number, SwitchEdit::Removal),
            Edit::Strength(number, strength) => {
                self.edit_switch(*number, SwitchEdit::Strength(*strength))
            }
            Edit::Kind(number, kind) => self.edit_switch(*number, SwitchEdit::Kind(*kind)),
            Edit::Wire {
                number,
                gate,
                source,
                drain,
            } => self.rewire(*number, gate, source, drain),
        }
    }

    // `input`: makes the named nodes input nodes.
    #[tactic(auto, using(session_meaning::proofs::OutcomeLemmas::still_yet, session_meaning::proofs::OutcomeLemmas::still_roomed))]
    fn input(&mut self, names: &NameList) -> Result<(), ApplyFault>
        ensures quiet { Quietly self.old.core (family.Edit (asked.Input names.now)) self.new.core result }
        ensures stage { OnOk result (LeadsBy M.did IsEditing self.old.stage self.new.stage) }
        ensures still { OnErr result (IsStill M.did self.old.stage self.new.stage) }
    {
        let (circuit, vectors) = (&self.circuit, &self.vectors);
        if let Some(refusal) = refusals::input_refusal(circuit, vectors, names.items()) {
            return Err(ApplyFault::Refused(refusal));
        }
        let nodes = all_nodes(self.alloc, circuit, vectors, names.items())?;
        self.make_inputs(&nodes);
        Ok(())
    }

    // Makes these nodes, none of which is a rail, input nodes.
    #[tactic(auto, using(column_stage::proofs::LeadingLemmas::leads_by_none, column_stage::proofs::LeadingLemmas::leads_by_both))]
    fn make_inputs(&mut self, list: &[usize])
        requires within { All (λ node. node < nodes self.old.core.circuit.graph) list.now }
        requires past { All (λ node. RAILS ≤ node) list.now }
        ensures made { self.new.core ≡ record self.old.core { circuit = effect.with_inputs self.old.core.circuit list.now } }
        ensures stage { LeadsBy M.did IsEditing self.old.stage self.new.stage }
    {
        for &node in list {
            self.make_input(node);
        }
    }

    // Makes a node, which is no rail, an input node.
    fn make_input(&mut self, node: usize)
        requires within { node < nodes self.old.core.circuit.graph }
        requires past { RAILS ≤ node }
        ensures made { self.new.core ≡ record self.old.core { circuit = with_input self.old.core.circuit node } }
        ensures stage { LeadsBy M.did IsEditing self.old.stage self.new.stage }
    {
        let change = change_of_level(self.circuit.graph(), node);
        put_input(&mut self.circuit, node);
        edit_stage(
            self.alloc,
            self.circuit.graph(),
            &change,
            &mut self.stage,
            &mut self.kept,
        );
    }

    // `store`: makes the named node a storage node of this size.
    #[tactic(auto, using(session_meaning::proofs::OutcomeLemmas::still_yet, session_meaning::proofs::OutcomeLemmas::still_roomed))]
    fn store(&mut self, name: &Name, size: u64) -> Result<(), ApplyFault>
        ensures quiet { Quietly self.old.core (family.Edit (asked.Store name.now size)) self.new.core result }
        ensures stage { OnOk result (LeadsBy M.did IsEditing self.old.stage self.new.stage) }
        ensures still { OnErr result (IsStill M.did self.old.stage self.new.stage) }
    {
        let Some(node) = self.circuit.find(name.items()) else {
            return Err(ApplyFault::Refused(Refusal::UnknownNode));
        };
        let change = change_of_level(self.circuit.graph(), node);
        match self.circuit.make_store(node, size) {
            Ok(()) => {
                edit_stage(
                    self.alloc,
                    self.circuit.graph(),
                    &change,
                    &mut self.stage,
                    &mut self.kept,
                );
                Ok(())
            }
            Err(_) if node < RAILS => Err(ApplyFault::Refused(Refusal::Rail)),
            Err(_) => Err(ApplyFault::Refused(Refusal::BadSize)),
        }
    }

    // `add`: adds a transistor; each node that its names make is X.
    #[tactic(auto, using(session_meaning::proofs::OutcomeLemmas::still_yet, session_meaning::proofs::OutcomeLemmas::still_roomed))]
    fn add(
        &mut self,
        kind: SwitchKind,
        gate: &Name,
        source: &Name,
        drain: &Name,
        strength: Option<u64>,
    ) -> Result<(), ApplyFault>
        ensures quiet { Quietly self.old.core (family.Edit (asked.Add kind gate.now source.now drain.now strength)) self.new.core result }
        ensures stage { OnOk result (LeadsBy M.did IsEditing self.old.stage self.new.stage) }
        ensures still { OnErr result (IsStill M.did self.old.stage self.new.stage) }
    {
        let strength = strength.unwrap_or(usual_strength(kind));
        take_room(&mut self.stage)?;
        let change = change_at(self.circuit.graph(), self.circuit.graph().places());
        let (gate, source, drain) = (gate.items(), source.items(), drain.items());
        match self.circuit.add_switch(kind, strength, gate, source, drain) {
            Ok(_) => {
                edit_stage(
                    self.alloc,
                    self.circuit.graph(),
                    &change,
                    &mut self.stage,
                    &mut self.kept,
                );
                Ok(())
            }
            Err(fault) => Err(ApplyFault::of_edit(fault)),
        }
    }

    // Does an edit of the transistor with this number that leaves its terminals.
    #[tactic(auto, using(session_meaning::proofs::OutcomeLemmas::still_yet, session_meaning::proofs::OutcomeLemmas::still_roomed))]
    fn edit_switch(&mut self, number: u64, edit: SwitchEdit) -> Result<(), ApplyFault>
        ensures quiet { Quietly self.old.core (family.Edit (edit_of number edit)) self.new.core result }
        ensures stage { OnOk result (LeadsBy M.did IsEditing self.old.stage self.new.stage) }
        ensures still { OnErr result (IsStill M.did self.old.stage self.new.stage) }
    {
        let change = change_of(self.circuit.graph(), number);
        match edited(&mut self.circuit, number, edit) {
            Ok(()) => {
                edit_stage(
                    self.alloc,
                    self.circuit.graph(),
                    &change,
                    &mut self.stage,
                    &mut self.kept,
                );
                Ok(())
            }
            Err(fault) => Err(ApplyFault::of_edit(fault)),
        }
    }

    // `wire`: sets the terminals of the transistor with this number; each node that the names make is
    // X.
    #[tactic(auto, using(session_meaning::proofs::OutcomeLemmas::still_yet, session_meaning::proofs::OutcomeLemmas::still_roomed))]
    fn rewire(
        &mut self,
        number: u64,
        gate: &Name,
        source: &Name,
        drain: &Name,
    ) -> Result<(), ApplyFault>
        ensures quiet { Quietly self.old.core (family.Edit (asked.Wire number gate.now source.now drain.now)) self.new.core result }
        ensures stage { OnOk result (LeadsBy M.did IsEditing self.old.stage self.new.stage) }
        ensures still { OnErr result (IsStill M.did self.old.stage self.new.stage) }
    {
        take_room(&mut self.stage)?;
        let change = change_of(self.circuit.graph(), number);
        let (gate, source, drain) = (gate.items(), source.items(), drain.items());
        match self.circuit.rewire(number, gate, source, drain) {
            Ok(()) => {
                edit_stage(
                    self.alloc,
                    self.circuit.graph(),
                    &change,
                    &mut self.stage,
                    &mut self.kept,
                );
                Ok(())
            }
            Err(fault) => Err(ApplyFault::of_edit(fault)),
        }
    }
}

// Makes a node, which is no rail, an input node.
fn put_input(circuit: &mut Circuit, node: usize)
    requires within { node < nodes circuit.old.graph }
    requires past { RAILS ≤ node }
    ensures { circuit.new ≡ with_input circuit.old node }
{
    let _made = circuit.make_input(node);
}

// Does an edit of a circuit's transistor with this number.
fn edited(circuit: &mut Circuit, number: u64, edit: SwitchEdit) -> Result<(), EditFault>
    ensures answer { result ≡ answer_of (edit_fault circuit.old number edit) }
    ensures ok { OnOk result (circuit.new ≡ with_place circuit.old number (place_after circuit.old number edit)) }
    ensures err { OnErr result (circuit.new ≡ circuit.old) }
{
    match edit {
        SwitchEdit::Removal => circuit.del(number),
        SwitchEdit::Strength(strength) => circuit.set_strength(number, strength),
        SwitchEdit::Kind(kind) => circuit.set_kind(number, kind),
    }
}
