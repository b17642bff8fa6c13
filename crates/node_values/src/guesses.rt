//! A node that a name may stand for: what the node is called decides.
ghost use Rattle.std.specs.Prelude.{◌≡◌, Some};
ghost use Rattle.std.specs.Bool.{OnTrue};
ghost use Rattle.netlist.specs.Names.{node_of};

use netlist::Circuit;

/// Whether there is such a node, and it is called so: then the name stands for it. A node that has more names is called by the first one.
pub fn is_called(circuit: &Circuit, node: usize, name: &[u8]) -> bool
    ensures { OnTrue result (node_of circuit.now.names name.now ≡ Some node) }
{
    if circuit.graph().nodes() <= node {
        return false;
    }
    is_same(circuit.name_of(node), name)
}

// Whether two names are one.
fn is_same(one: &[u8], other: &[u8]) -> bool
    ensures { OnTrue result (one.now ≡ other.now) }
{
    if one.len() != other.len() {
        return false;
    }
    for place in 0..one.len() {
        if one[place] != other[place] {
            return false;
        }
    }
    true
}
