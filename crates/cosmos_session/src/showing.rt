//! The state behind a command, as an onlooker is shown it: a look at those nodes alone that may have changed.

ghost use Rattle.std.specs.Prelude.{◌≡◌, length, map, IfSome, OnOk, OnErr};
ghost use Rattle.cosmos_session.specs.Words.{numbers_from, Edit, SessionData, KnowsBehind};
ghost use Rattle.script_lang.specs.declared.command.Command.TheVariants as family;
ghost use Rattle.cosmos_session.specs.Showing.{IsGivenBy};

use crate::session::Session;
use crate::values::Target;
use column_stage::PlainStage;
use script_lang::{Command, Give};
use settling::{Moved, Onlooker, unfailing};
use ternary::{NoMemory, Tern};

// The state of each node, and those nodes that were given states, each with it.
#[derive(Drop)]
struct Given<'a> {
    state: &'a [Tern],
    pairs: &'a [(usize, Tern)],
}

impl Moved for Given<'_> {
    ghost state = { λ given. given.state.now };

    ghost changed = { λ given. map (λ pair. pair.0) given.pairs.now };

    fn states(&self) -> &[Tern] {
        self.state
    }

    fn change_count(&self) -> usize {
        self.pairs.len()
    }

    fn changed_node(&self, at: usize) -> usize {
        let (node, _) = self.pairs[at];
        node
    }
}

// The state of each node, any of which may have changed.
#[derive(Drop)]
struct Whole<'a> {
    state: &'a [Tern],
}

impl Moved for Whole<'_> {
    ghost state = { λ whole. whole.state.now };

    ghost changed = { λ whole. numbers_from 0 (length whole.state.now) };

    fn states(&self) -> &[Tern] {
        self.state
    }

    fn change_count(&self) -> usize {
        self.state.len()
    }

    fn changed_node(&self, at: usize) -> usize {
        at
    }
}

impl<M: PlainStage> Session<M> {
    /// Shows an onlooker the state behind a command that was accepted under its eyes, by `apply_seen`.
    ///
    /// It looks at the nodes to which the command gave states, and behind `back` at all. Out of memory, which an edit alone
    /// may need, for nodes that are new, nothing is told of what it has seen.
    pub fn show_behind<O: Onlooker>(
        &self,
        command: &Command,
        onlooker: &mut O,
    ) -> Result<(), NoMemory>
        requires { (old : SessionData) × KnowsBehind O.knows onlooker.old old command.now self.now.core }
        ensures seen { OnOk result (O.seen onlooker.new ≡ O.see (O.seen onlooker.old) self.now.core.state) }
        ensures knows { OnOk result (O.knows onlooker.new self.now.core.state) }
        ensures edit { OnErr result ((edit : Edit) × (command.now ≡ family.Edit edit)) }
    {
        match command {
            Command::Edit(_) => onlooker.grow(self.stage.column())?,
            Command::Give(give) => self.show_given(give, onlooker),
            Command::Setup(_) | Command::Run(_) | Command::Tell(_) => self.show_still(onlooker),
        }
        Ok(())
    }

    /// Shows an onlooker that the state which it knows still stands.
    pub fn show_still<O: Onlooker>(&self, onlooker: &mut O)
        requires { O.knows onlooker.old self.now.core.state }
        ensures seen { O.seen onlooker.new ≡ O.see (O.seen onlooker.old) self.now.core.state }
        ensures knows { O.knows onlooker.new self.now.core.state }
    {
        let state = self.stage.column();
        unfailing(onlooker.see(&Given { state, pairs: &[] }));
    }

    // Shows the state behind a command that gave nodes states.
    fn show_given<O: Onlooker>(&self, give: &Give, onlooker: &mut O)
        requires { (old : SessionData) × KnowsBehind O.knows onlooker.old old (family.Give give.now) self.now.core }
        ensures seen { O.seen onlooker.new ≡ O.see (O.seen onlooker.old) self.now.core.state }
        ensures knows { O.knows onlooker.new self.now.core.state }
    {
        let state = self.stage.column();
        match self.given_by(give, onlooker.is_looking()) {
            Some(pairs) => unfailing(onlooker.see(&Given {
                state,
                pairs: &pairs,
            })),
            None => unfailing(onlooker.see(&Whole { state })),
        }
    }

    // The nodes to which the command gave states, each with it, if they are known; none are looked for if nobody looks.
    fn given_by(&self, give: &Give, looks: bool) -> Option<Vec<(usize, Tern)>>
        ensures { IfSome result (λ pairs. IsGivenBy give.now self.now.core pairs.items) }
    {
        if !looks {
            return None;
        }
        match give {
            Give::Set(list) => self.states_for(list, Target::Inputs).ok(),
            Give::Charge(list) => self.states_for(list, Target::Stores).ok(),
            Give::Back(_) => None,
        }
    }
}
