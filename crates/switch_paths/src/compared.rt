//! Graphs as keys: two are equal exactly if their levels and their places are, the empty places
//! included, and equal graphs have equal hashes.

ghost use Rattle.std.specs.Prelude.{◌≡◌, ◌↔◌, IsTrue};
ghost use Rattle.switch_paths.specs.Compared.{same_graph, same_graph_equivalence, graph_writes, graph_writes-same};
ghost use Rattle.std.specs.Cmp;

use crate::graph::Graph;
use std::hash::{Hash, Hasher};

impl PartialEq for Graph {
    ghost eq = { same_graph };

    ghost laws = { Cmp.partial_equiv_from_equiv same_graph_equivalence };

    fn eq(&self, other: &Graph) -> bool
        ensures value { result ≡ same_graph self.now other.now }
        ensures same { IsTrue result ↔ (self.now ≡ other.now) }
    {
        self.levels() == other.levels() && self.switches() == other.switches()
    }
}

impl Eq for Graph {
    ghost laws = { same_graph_equivalence };
}

impl Hash for Graph {
    ghost hash_input = { graph_writes };

    ghost respects_eq = { graph_writes-same };

    fn hash<H: Hasher>(&self, state: &mut H) {
        self.levels().hash(state);
        self.switches().hash(state);
    }
}
