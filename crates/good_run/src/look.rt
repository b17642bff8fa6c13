//! A look at a state.

/// Where the changes of a look end in the list of all, and whether a step or a phase begins with it.
#[derive(Clone, Copy)]
pub struct Look {
    pub begins: bool,
    pub end: usize,
}
