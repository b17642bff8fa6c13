/// A Boolean function: the place of its vertex in the graph.
#[derive(Clone, Copy, Debug, PartialEq, Eq, Hash)]
pub struct Function {
    /// The index of the vertex.
    pub place: u32,
}

/// A vertex of a decision graph.
#[derive(Clone, Copy, Debug, PartialEq, Eq, Hash)]
pub enum Vertex {
    /// A constant.
    Leaf(bool),
    /// A decision on the variable with this number: the first function if it is true, the second if it is
    /// false.
    Branch(u32, Function, Function),
}
