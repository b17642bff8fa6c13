//! Who is shown the states that settling passes through.
ghost use Rattle.std.specs.Prelude.{◌≡◌, ℕ, List, OnOk, IfErr};
ghost use Rattle.std.specs.Bool.{OnTrue};
ghost use Rattle.ternary.specs.declared.tern.Tern.{Tern};
ghost use Rattle.settling.specs.Moved.{ListsChanges};
ghost use Rattle.settling.specs.Recurring.{OnceIsEnough};

use crate::moved::Moved;

/// Who is shown a state each time that it moved.
///
/// Contracts see five meanings: what was seen so far; what a state more does to it; the states that
/// the observer knows, against which it may compare the next one at the listed nodes alone; what
/// no look changes; and what a look does that fails. Two more matter to an `Onlooker`, who is shown
/// them: what the beginning of a step or a phase in a state does to what was seen, and what its end does,
/// with the number of its unit steps.
pub trait Observer {
    /// Why a look fails.
    type Fault: Drop;

    ghost Seen: { Type 0 };

    ghost seen: { Self → Self.Seen };

    ghost see: { Self.Seen → List Tern → Self.Seen };

    ghost begin: { Self.Seen → List Tern → Self.Seen };

    ghost rest: { Self.Seen → ℕ → Self.Seen };

    ghost knows: { Self → List Tern → Type 0 };

    ghost Fixed: { Type 0 } = { Unit {0} };

    ghost fixed: { Self → Self.Fixed };

    ghost part: { Self → List Tern → Self.Fault → Self → Type 0 };

    /// Whether it is enough to show it a round of states once: if they come again, in the same order, they tell it nothing
    /// new. It isn't if an observer doesn't say so.
    #[inline]
    fn is_once_enough(&self) -> bool
        ensures { OnTrue result (OnceIsEnough see) }
    {
        false
    }

    /// Sees the state that a move left, which differs at listed nodes alone from one that is known.
    fn see<M: Moved>(&mut self, moved: &M) -> Result<(), Self::Fault>
        requires { (old : List Tern) × knows self.old old × ListsChanges (M.changed moved.now) old (M.state moved.now) }
        ensures seen { OnOk result (seen self.new ≡ see (seen self.old) (M.state moved.now)) }
        ensures knows { OnOk result (knows self.new (M.state moved.now)) }
        ensures fixed { OnOk result (fixed self.new ≡ fixed self.old) }
        ensures part { IfErr result (λ fault. part self.old (M.state moved.now) fault self.new) };
}

/// Who doesn't look. It never fails, and costs nothing.
#[derive(Drop)]
pub struct Blind {}

/// Why a look fails that never fails: there is no such value.
#[derive(Drop)]
pub enum Never {}

impl Observer for Blind {
    type Fault = Never;

    ghost Seen = { Unit {0} };

    ghost seen = { λ _. tt };

    ghost see = { λ _ _. tt };

    ghost begin = { λ _ _. tt };

    ghost rest = { λ _ _. tt };

    ghost knows = { λ _ _. Unit {0} };

    ghost fixed = { λ _. tt };

    ghost part = { λ _ _ _ _. ⊥ };

    #[inline]
    fn is_once_enough(&self) -> bool {
        true
    }

    fn see<M: Moved>(&mut self, _moved: &M) -> Result<(), Never> {
        Ok(())
    }
}
