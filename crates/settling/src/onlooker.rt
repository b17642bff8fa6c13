//! Who looks on at a whole run.
ghost use Rattle.std.specs.Prelude.{◌≡◌, refl, Bool, true, false, List, Ok, OnOk};
ghost use Rattle.ternary.specs.declared.tern.Tern.{Tern};
ghost use Rattle.settling.specs.Moved.{IsGrown, ListsChanges};

use crate::moved::Moved;
use crate::observer::{Blind, Never, Observer};
use ternary::{NoMemory, Tern};

/// An observer of a whole run, whose looks at moves don't fail: it is shown where a step or a phase begins and where it
/// is over, and between them states that moved or grew.
///
/// Contracts see one more meaning: whether it looks at all. Who doesn't has no use for a list of the nodes that a move
/// changed, or for being shown anything: nothing becomes of what it has seen, and any state may be one that it knows.
pub trait Onlooker: Observer<Fault = Never> {
    ghost looks: { Bool };

    /// Whether it looks at all.
    fn is_looking(&self) -> bool
        ensures { result ≡ looks };

    /// Sees that a step or a phase begins in this state, which differs at listed nodes alone from one that is known.
    fn begin<M: Moved>(&mut self, moved: &M)
        requires { (old : List Tern) × Self.knows self.old old × ListsChanges (M.changed moved.now) old (M.state moved.now) }
        ensures seen { Self.seen self.new ≡ Self.begin (Self.seen self.old) (M.state moved.now) }
        ensures knows { Self.knows self.new (M.state moved.now) };

    /// Sees that the step or the phase is over, of which so many unit steps are told. What is known stays known.
    fn rest(&mut self, steps: u64)
        ensures seen { Self.seen self.new ≡ Self.rest (Self.seen self.old) steps }
        ensures knows { (state : List Tern) → Self.knows self.old state → Self.knows self.new state };

    /// Sees a state that is known but for nodes behind the others, which are new and X.
    ///
    /// Without memory for the new ones nothing is told of what the observer has seen.
    fn grow(&mut self, state: &[Tern]) -> Result<(), NoMemory>
        requires { (old : List Tern) × Self.knows self.old old × IsGrown old state.now }
        ensures seen { OnOk result (Self.seen self.new ≡ Self.see (Self.seen self.old) state.now) }
        ensures knows { OnOk result (Self.knows self.new state.now) };

    ghost blind: { looks ≡ false → (seen : Self.Seen) (state : List Tern) → Self.see seen state ≡ seen };

    ghost sure: { looks ≡ false → (onlooker : Self) (state : List Tern) → Self.knows onlooker state };
}

impl Onlooker for Blind {
    ghost looks = { false };

    ghost blind = { λ _ seen _. refl };

    ghost sure = { λ _ _ _. tt };

    #[inline]
    fn is_looking(&self) -> bool {
        false
    }

    fn begin<M: Moved>(&mut self, _moved: &M) {}

    fn rest(&mut self, _steps: u64) {}

    fn grow(&mut self, _state: &[Tern]) -> Result<(), NoMemory> {
        Ok(())
    }
}

/// What a look that never fails answers.
pub fn unfailing<T>(looked: Result<T, Never>) -> T
    ensures { looked ≡ Ok result }
{
    match looked {
        Ok(value) => value,
        Err(never) => match never {},
    }
}
