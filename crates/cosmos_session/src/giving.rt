//! The commands that give nodes states.

ghost use Rattle.std.specs.Prelude.{◌≡◌, ◌<◌, ◌≤◌, None, List, All, IfErr, IfOk, OnOk, OnErr};
ghost use Rattle.switch_paths.specs.Graphs.{nodes};
ghost use Rattle.switch_paths.specs.declared.TheConstants.{RAILS};
ghost use Rattle.script_lang.specs.declared.command.Command.TheVariants as family;
ghost use Rattle.script_lang.specs.declared.command.Give.TheVariants as asked;
ghost use Rattle.session_meaning.specs.Effects as effect;
ghost use Rattle.cosmos_session.specs.Words.{acts_of_states, give_of, refusal_of, values_refusal, GivesOn, GroupTextData, IsFaultFor, IsSoundState, Leads, Quietly};
ghost use Rattle.cosmos_session.specs.Targets.{target_at};

use crate::columns::target_of;
use crate::guesses::Guesses;
use crate::placing::put_node;
use crate::session::Session;
use crate::values::{Target, all_states, place_refusal};
use column_script::ValueCommand;
use column_stage::{Columns, PlainStage};
use netlist::{Circuit, RAILS};
use script_lang::{Give, ValueList};
use session_meaning::ApplyFault;
use std::mem;
use ternary::Tern;

impl<M: PlainStage> Session<M> {
    /// Gives named nodes states.
    pub(crate) fn give(&mut self, give: &Give) -> Result<(), ApplyFault>
        ensures quiet { Quietly self.old.core (family.Give give.now) self.new.core result }
        ensures stage { OnOk result (GivesOn M.did self.old give.now self.new) }
        ensures still { OnErr result (self.new.stage ≡ self.old.stage) }
    {
        match give {
            Give::Set(list) => self.give_values(ValueCommand::Set, list),
            Give::Charge(list) => self.give_values(ValueCommand::Charge, list),
            Give::Back(name) => self.back(name),
        }
    }

    // `set` and `charge`: give the named input nodes, or the named storage nodes, their states, from left to right.
    #[tactic(auto, using(session_meaning::proofs::OutcomeLemmas::fault_quiet))]
    fn give_values(&mut self, kind: ValueCommand, list: &ValueList) -> Result<(), ApplyFault>
        ensures quiet { Quietly self.old.core (give_of kind list.now) self.new.core result }
        ensures stage { OnOk result (Leads M.did self.old.stage
            (acts_of_states self.old.core.circuit.graph (effect.states_by self.old.core.circuit self.old.core.vectors list.now)) self.new.stage) }
        ensures still { OnErr result (self.new.stage ≡ self.old.stage) }
    {
        let states = self.values_noted(kind, list)?;
        self.put_assigned(&states);
        Ok(())
    }

    // The nodes that `set` or `charge` gives states, as `values_allowed` answers them; for which nodes the words stood is noted.
    fn values_noted(
        &mut self,
        kind: ValueCommand,
        list: &ValueList,
    ) -> Result<Vec<(usize, Tern)>, ApplyFault>
        ensures same { self.new ≡ self.old }
        ensures allowed { OnOk result (refusal_of self.old.core (give_of kind list.now) ≡ None) }
        ensures states { IfOk result (λ states. states.items ≡ effect.states_by self.old.core.circuit self.old.core.vectors list.now) }
        ensures within { IfOk result (λ states. All (λ pair. pair.0 < nodes self.old.core.circuit.graph) states.items) }
        ensures refused { IfErr result (IsFaultFor (refusal_of self.old.core (give_of kind list.now))) }
    {
        let none = Guesses::none(self.alloc);
        let mut guesses = mem::replace(&mut self.guesses, none);
        let states = self.values_guessed(kind, list, &mut guesses);
        self.guesses = guesses;
        states
    }

    // Gives these nodes, none of which is a rail, their states, from left to right.
    fn put_assigned(&mut self, states: &[(usize, Tern)])
        requires within { All (λ pair. pair.0 < nodes self.old.core.circuit.graph) states.now }
        requires past { All (λ pair. RAILS ≤ pair.0) states.now }
        ensures state { self.new.core ≡ record self.old.core { state = effect.assigned self.old.core.state states.now } }
        ensures stage { Leads M.did self.old.stage (acts_of_states self.old.core.circuit.graph states.now) self.new.stage }
    {
        assign(&self.circuit, states, &mut self.stage);
    }
}

impl<M: Columns> Session<M> {
    /// The nodes that a command gives states, from left to right, by the values that it has in one column, each with its state
    /// there; or why the command is refused, which doesn't depend on the column.
    pub fn values_allowed(
        &self,
        kind: ValueCommand,
        list: &ValueList,
    ) -> Result<Vec<(usize, Tern)>, ApplyFault>
        ensures allowed { OnOk result (refusal_of self.now.core (give_of kind list.now) ≡ None) }
        ensures states { IfOk result (λ states. states.items ≡ effect.states_by self.now.core.circuit self.now.core.vectors list.now) }
        ensures within { IfOk result (λ states. All (λ pair. pair.0 < nodes self.now.core.circuit.graph) states.items) }
        ensures refused { IfErr result (IsFaultFor (refusal_of self.now.core (give_of kind list.now))) }
    {
        self.values_guessed(kind, list, &mut Guesses::none(self.alloc))
    }

    // The same, with these guesses for the words.
    fn values_guessed(
        &self,
        kind: ValueCommand,
        list: &ValueList,
        guesses: &mut Guesses,
    ) -> Result<Vec<(usize, Tern)>, ApplyFault>
        ensures allowed { OnOk result (refusal_of self.now.core (give_of kind list.now) ≡ None) }
        ensures states { IfOk result (λ states. states.items ≡ effect.states_by self.now.core.circuit self.now.core.vectors list.now) }
        ensures within { IfOk result (λ states. All (λ pair. pair.0 < nodes self.now.core.circuit.graph) states.items) }
        ensures refused { IfErr result (IsFaultFor (refusal_of self.now.core (give_of kind list.now))) }
    {
        let target = target_of(kind);
        self.states_guessed(list, target, guesses)
    }

    /// The states that these assignments give nodes, from left to right.
    pub(crate) fn states_for(
        &self,
        list: &ValueList,
        target: Target,
    ) -> Result<Vec<(usize, Tern)>, ApplyFault>
        ensures allowed { OnOk result (values_refusal (target_at target self.now.core.circuit) self.now.core.circuit self.now.core.vectors list.now ≡ None) }
        ensures states { IfOk result (λ states. states.items ≡ effect.states_by self.now.core.circuit self.now.core.vectors list.now) }
        ensures within { IfOk result (λ states. All (λ pair. pair.0 < nodes self.now.core.circuit.graph) states.items) }
        ensures refused { IfErr result (IsFaultFor
            (values_refusal (target_at target self.now.core.circuit) self.now.core.circuit self.now.core.vectors list.now)) }
    {
        self.states_guessed(list, target, &mut Guesses::none(self.alloc))
    }

    // The same, with these guesses for the words.
    fn states_guessed(
        &self,
        list: &ValueList,
        target: Target,
        guesses: &mut Guesses,
    ) -> Result<Vec<(usize, Tern)>, ApplyFault>
        ensures allowed { OnOk result (values_refusal (target_at target self.now.core.circuit) self.now.core.circuit self.now.core.vectors list.now ≡ None) }
        ensures states { IfOk result (λ states. states.items ≡ effect.states_by self.now.core.circuit self.now.core.vectors list.now) }
        ensures within { IfOk result (λ states. All (λ pair. pair.0 < nodes self.now.core.circuit.graph) states.items) }
        ensures refused { IfErr result (IsFaultFor
            (values_refusal (target_at target self.now.core.circuit) self.now.core.circuit self.now.core.vectors list.now)) }
    {
        let (circuit, vectors) = (&self.circuit, &self.vectors);
        if let Some(refusal) = place_refusal(circuit, vectors, list.items()) {
            return Err(ApplyFault::Refused(refusal));
        }
        all_states(self.alloc, circuit, vectors, list.items(), target, guesses)
    }
}

// Gives these nodes, none of which is a rail, their states, from left to right.
fn assign<M: PlainStage>(circuit: &Circuit, states: &[(usize, Tern)], stage: &mut M)
    requires one { M.columns stage.old ≡ 1 }
    requires sound { IsSoundState circuit.now.graph (M.states stage.old 0) }
    requires within { All (λ pair. pair.0 < nodes circuit.now.graph) states.now }
    requires past { All (λ pair. RAILS ≤ pair.0) states.now }
    ensures one { M.columns stage.new ≡ 1 }
    ensures state { M.states stage.new 0 ≡ effect.assigned (M.states stage.old 0) states.now }
    ensures last { M.last stage.new ≡ M.last stage.old }
    ensures serves { (kept : List GroupTextData) → M.serves stage.old circuit.now.graph kept → M.serves stage.new circuit.now.graph kept }
    ensures did { Leads M.did stage.old (acts_of_states circuit.now.graph states.now) stage.new }
{
    for (node, value) in states {
        put_node(circuit.graph(), *node, *value, stage);
    }
}
