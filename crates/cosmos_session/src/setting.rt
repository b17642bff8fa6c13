//! The commands that set what later ones go by.

ghost use Rattle.std.specs.Prelude.{◌≡◌, ◌<◌, ◌≤◌, is_some, true, map, All, IfOk};
ghost use Rattle.cosmos_session.specs.Words.{nodes, AreBeats, IsFormedSetup, IsTimes, IsSharedSetup, Quietly};
ghost use Rattle.netlist.specs.Names.{node_of};
ghost use Rattle.script_lang.specs.declared.command.Command.TheVariants as family;
ghost use Rattle.script_lang.specs.declared.command.Setup.TheVariants as asked;
ghost use Rattle.session_meaning.specs.Effects as effect;

use crate::naming::few_nodes;
use crate::refusals;
use crate::session::Session;
use column_stage::{Columns, PlainStage};
use netlist::Circuit;
use script_lang::{ClockList, Name, NameList, Setup, StateList};
use session_meaning::{ApplyFault, Clock, MOST_WATCHED, Refusal};
use std::alloc::Global;
use ternary::NoMemory;

impl<M: PlainStage> Session<M> {
    /// Sets what later commands go by.
    pub(crate) fn set_up(&mut self, setup: &Setup) -> Result<(), ApplyFault>
        requires { IsFormedSetup setup.now }
        ensures quiet { Quietly self.old.core (family.Setup setup.now) self.new.core result }
        ensures stage { self.new.stage ≡ self.old.stage }
    {
        match setup {
            Setup::Keep(number) => self.set_bound(*number),
            Setup::Save(name) => self.save(name),
            _ => self.set_up_alike(setup),
        }
    }
}

impl<M: Columns> Session<M> {
    /// Sets what later commands go by, which is the same in all columns.
    pub(crate) fn set_up_alike(&mut self, setup: &Setup) -> Result<(), ApplyFault>
        requires { IsFormedSetup setup.now × IsSharedSetup setup.now }
        ensures quiet { Quietly self.old.core (family.Setup setup.now) self.new.core result }
        ensures stage { self.new.stage ≡ self.old.stage }
    {
        match setup {
            Setup::Watch(names) => self.watch(names),
            Setup::Limit(number) => self.set_limit(*number),
            Setup::Clock(list) => self.set_clocks(list),
            Setup::Widen(number) => self.set_large(*number),
            Setup::Vector(name, words) => self.set_vector(name, words),
            Setup::Keep(_) | Setup::Save(_) => unreachable!(),
        }
    }

    // `watch`: appends the named nodes to the watch list.
    fn watch(&mut self, names: &NameList) -> Result<(), ApplyFault>
        ensures quiet { Quietly self.old.core (family.Setup (asked.Watch names.now)) self.new.core result }
        ensures stage { self.new.stage ≡ self.old.stage }
    {
        let (circuit, vectors) = (&self.circuit, &self.vectors);
        if let Some(refusal) = refusals::known_refusal(circuit, vectors, names.items()) {
            return Err(ApplyFault::Refused(refusal));
        }
        let left = MOST_WATCHED - self.watched.len();
        let found = few_nodes(self.alloc, circuit, vectors, names.items(), left)?;
        let Some(nodes) = found else {
            return Err(ApplyFault::Refused(Refusal::TooManyWatched));
        };
        self.watched.extend_from_slice(&nodes)?;
        Ok(())
    }

    // `vector`: gives a name to the nodes that these words stand for.
    fn set_vector(&mut self, name: &Name, words: &NameList) -> Result<(), ApplyFault>
        ensures quiet { Quietly self.old.core (family.Setup (asked.Vector name.now words.now)) self.new.core result }
        ensures stage { self.new.stage ≡ self.old.stage }
    {
        let vectors = &mut self.vectors;
        match vectors.define(self.alloc, &self.circuit, name.items(), words.items()) {
            Ok(()) => Ok(()),
            Err(fault) => Err(ApplyFault::of_vector(fault)),
        }
    }

    // `limit`: sets the limit of a phase.
    fn set_limit(&mut self, limit: u64) -> Result<(), ApplyFault>
        requires { IsTimes limit }
        ensures quiet { Quietly self.old.core (family.Setup (asked.Limit limit)) self.new.core result }
        ensures stage { self.new.stage ≡ self.old.stage }
    {
        self.limit = limit;
        Ok(())
    }

    // `keep`: sets the bound on the number of texts that are kept. The next build cuts what is past it.
    fn set_bound(&mut self, number: u64) -> Result<(), ApplyFault>
        ensures quiet { Quietly self.old.core (family.Setup (asked.Keep number)) self.new.core result }
        ensures stage { self.new.stage ≡ self.old.stage }
    {
        self.kept.set_bound(Some(number));
        Ok(())
    }

    // `wide`: sets how many members a group without a text may have. The next build goes by it.
    fn set_large(&mut self, number: u64) -> Result<(), ApplyFault>
        ensures quiet { Quietly self.old.core (family.Setup (asked.Widen number)) self.new.core result }
        ensures stage { self.new.stage ≡ self.old.stage }
    {
        self.large = number as usize;
        Ok(())
    }

    // `clock`: puts these clocks in place of all others.
    fn set_clocks(&mut self, list: &ClockList) -> Result<(), ApplyFault>
        requires { AreBeats list.now }
        ensures quiet { Quietly self.old.core (family.Setup (asked.Clock list.now)) self.new.core result }
        ensures stage { self.new.stage ≡ self.old.stage }
    {
        if let Some(refusal) = refusals::clocks_refusal(&self.circuit, list.items()) {
            return Err(ApplyFault::Refused(refusal));
        }
        self.clocks = named_clocks(self.alloc, &self.circuit, list.items())?;
        Ok(())
    }
}

// The clocks of these names, which are in use, and their letters.
fn named_clocks(
    alloc: Global,
    circuit: &Circuit,
    list: &[(Name, StateList)],
) -> Result<Vec<Clock>, NoMemory>
    requires { All (λ item. is_some (node_of circuit.now.names item.0) ≡ true) list.now }
    ensures items { IfOk result (λ clocks. clocks.items ≡ map (effect.clock_of circuit.now) list.now) }
    ensures within { IfOk result (λ clocks. All (λ clock. clock.node < nodes circuit.now.graph) clocks.items) }
{
    let mut clocks = Vec::with_capacity(alloc, list.len())?;
    for (name, states) in list {
        let node = circuit.find(name.items()).unwrap();
        let states = Vec::from_slice(alloc, states.items())?;
        clocks.push_reserved(Clock { node, states });
    }
    Ok(clocks)
}
