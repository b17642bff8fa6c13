/// A node or a place, and how many there are of what is told of it.
#[derive(Clone, Copy, PartialEq, Eq)]
pub struct Counted {
    pub number: usize,
    pub count: usize,
}
