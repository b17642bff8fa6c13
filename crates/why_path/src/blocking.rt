//! Whether a walk is blocked.

ghost use Rattle.std.specs.Prelude.{◌≡◌, ◌↔◌, IsTrue, length, IfOk};
ghost use Rattle.why_path.specs.Words.{nodes, AreStrongest, IsBlocked, IsLive};

use std::alloc::Global;
use switch_paths::{Graph, Walk, WalkFacts, graphs_are_wired, strongest};
use ternary::{NoMemory, Tern};

/// Whether a walk that is a live path under this state isn't blocked: nowhere on its way, its root
/// and its end included, does a definite path lead that is stronger than the walk so far.
///
/// `state` has one state for each node of the graph.
///
/// Bryant, "Boolean Analysis of MOS Circuits", 1987.
pub fn unblocked(
    alloc: Global,
    graph: &Graph,
    state: &[Tern],
    walk: &Walk,
) -> Result<bool, NoMemory>
    requires state { length state.now ≡ nodes graph.now }
    requires live { IsLive graph.now state.now walk.now }
    ensures { IfOk result (λ free. IsTrue free ↔ (¬ IsBlocked graph.now state.now walk.now.root walk.now.hops.items)) }
{
    graphs_are_wired(graph);
    let best = strongest(alloc, graph, state)?;
    Ok(is_free(graph, state, &best, walk))
}

// Whether nothing stronger leads to where the walk stands at any time.
fn is_free(graph: &Graph, state: &[Tern], best: &[u8], walk: &Walk) -> bool
    requires state { length state.now ≡ nodes graph.now }
    requires best { length best.now ≡ nodes graph.now }
    requires strongest { AreStrongest graph.now state.now best.now }
    requires live { IsLive graph.now state.now walk.now }
    ensures { IsTrue result ↔ (¬ IsBlocked graph.now state.now walk.now.root walk.now.hops.items) }
{
    let mut facts = WalkFacts {
        end: walk.root,
        strength: graph.level(walk.root),
        definite: true,
    };
    if best[facts.end] > facts.strength {
        return false;
    }
    for &place in &walk.hops {
        let Some(next) = graph.after_hop(state, facts, place) else {
            unreachable!();
        };
        if best[next.end] > next.strength {
            return false;
        }
        facts = next;
    }
    true
}
