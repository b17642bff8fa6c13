use crate::code::Code;
use std::rc::Rc;

/// A part of a listing: the code of a group over the nodes of the whole circuit.
///
/// Input j of the code stands for the node at place j of the map. The nodes at the first `members`
/// places are the part's members: output j of the code is the next state of the node at place j.
#[derive(Drop)]
pub struct Part {
    pub code: Rc<Code>,
    pub map: Vec<usize>,
    pub members: usize,
}
