//! The state in which a step or a phase begins, as an onlooker is shown it: the clocks' nodes may have been placed.

ghost use Rattle.std.specs.Prelude.{◌≡◌, map};
ghost use Rattle.session_meaning.specs.Passing.{KnowsButClocks};

use session_meaning::Clock;
use settling::{Moved, Onlooker};
use ternary::Tern;

// The state of each node, and the clocks whose nodes were placed.
#[derive(Drop)]
struct Put<'a> {
    state: &'a [Tern],
    clocks: &'a [Clock],
}

impl Moved for Put<'_> {
    ghost state = { λ put. put.state.now };

    ghost changed = { λ put. map (λ clock. clock.node) put.clocks.now };

    fn states(&self) -> &[Tern] {
        self.state
    }

    fn change_count(&self) -> usize {
        self.clocks.len()
    }

    fn changed_node(&self, at: usize) -> usize {
        let clock = &self.clocks[at];
        clock.node
    }
}

/// Shows that a step or a phase begins in this state, which differs from one that is known at the nodes of these clocks alone.
pub(crate) fn begin_at<O: Onlooker>(state: &[Tern], clocks: &[Clock], onlooker: &mut O)
    requires { KnowsButClocks O.knows onlooker.old clocks.now state.now }
    ensures seen { O.seen onlooker.new ≡ O.begin (O.seen onlooker.old) state.now }
    ensures knows { O.knows onlooker.new state.now }
{
    onlooker.begin(&Put { state, clocks });
}
