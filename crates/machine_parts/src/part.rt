//! The parts of a machine.

use std::rc::Rc;
use straight_code::Code;

/// The part of a group in a machine.
///
/// Input j of its code stands for the node at place j of its map. The nodes at the first `members` places
/// are its members: output j of the code is the next state of the node at place j. A part without a code
/// is stale: it waits for one.
#[derive(Drop)]
pub struct MachinePart {
    pub code: Option<Rc<Code>>,
    pub map: Vec<usize>,
    pub members: usize,
    pub reads: Vec<usize>,
}
