//! The room of the lines of nodes.

ghost use Rattle.std.specs.Prelude.{ℕ, ◌<◌, ◌≤◌, List, length, IfOk};
ghost use Rattle.ternary.specs.declared.tern.Tern.{Tern};
ghost use Rattle.switch_paths.specs.Words.{nodes};
ghost use Rattle.netlist.specs.Words.{IsCircuit, called};
ghost use Rattle.told_lines.specs.Lines.{AreInRoom};
ghost use Rattle.node_looks.specs.Looks.{node_lines};

use netlist::Circuit;
use printed_lines::{COLUMN_ROOM, LOOK_LINE_ROOM};
use ternary::NoMemory;

// A length that no name comes near.
const FAR: usize = 0x4000_0000_0000_0000;

/// Room for each line of each node: a line has at most two names, and none is longer than the longest. No name
/// comes near the length past which memory is said to have run out.
pub fn room_to_look(circuit: &Circuit) -> Result<usize, NoMemory>
    ensures { IfOk result (λ room. (state : List Tern) (node : ℕ) → node < nodes circuit.now.graph →
        AreInRoom room (node_lines circuit.now state node)) }
{
    let longest = longest_called(circuit);
    if longest >= FAR {
        return Err(NoMemory);
    }
    Ok(COLUMN_ROOM + (LOOK_LINE_ROOM + (longest + longest)))
}

// The length of the longest name by which a node is called.
fn longest_called(circuit: &Circuit) -> usize
    ensures longest { (node : ℕ) → node < nodes circuit.now.graph → length (called circuit.now node) ≤ result }
    ensures netlist { IsCircuit circuit.now }
{
    let mut most = 0;
    for node in 0..circuit.graph().nodes() {
        most = most.max(circuit.name_of(node).len());
    }
    most
}
