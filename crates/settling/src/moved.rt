//! What an observer looks at: a state that moved, with the nodes at which it may have changed.
ghost use Rattle.std.specs.Prelude.{◌≡◌, ℕ, ◌<◌, List, length, slice_index_or};
ghost use Rattle.ternary.specs.declared.tern.Tern.{Tern};

use ternary::Tern;

/// A state that moved, and the nodes at which the last move may have changed it.
///
/// Contracts see two meanings: the state of each node, and the list of the nodes, in which one may
/// stand more than once. It is what a step or an edit promises of the list that makes it of use.
pub trait Moved {
    ghost state: { Self → List Tern };

    ghost changed: { Self → List ℕ };

    /// The state of each node.
    fn states(&self) -> &[Tern]
        ensures { result.now ≡ state self.now };

    /// How many entries the list of the nodes has.
    fn change_count(&self) -> usize
        ensures { result ≡ length (changed self.now) };

    /// The node of this entry.
    fn changed_node(&self, at: usize) -> usize
        requires { at < length (changed self.now) }
        ensures { result ≡ slice_index_or (changed self.now) at 0 };
}
