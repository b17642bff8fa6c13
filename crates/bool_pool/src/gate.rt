/// A formula of a pool: the place of its gate.
#[derive(Clone, Copy, PartialEq, Eq, Hash)]
pub struct Id {
    /// The index of the gate in the pool.
    pub place: usize,
}

/// A gate of a pool.
#[derive(Clone, Copy, PartialEq, Eq, Hash)]
pub enum Gate {
    /// The constant false.
    False,
    /// The constant true.
    True,
    /// The variable with this number.
    Var(u32),
    /// True if the formula is false.
    Not(Id),
    /// True if both formulas are true.
    And(Id, Id),
    /// True where at least one of both formulas is true.
    Or(Id, Id),
}

/// The two formulas that stand for the state of a node.
#[derive(Clone, Copy, PartialEq, Eq)]
pub struct Rails {
    /// The formula for "may be 1".
    pub hi: Id,
    /// The formula for "may be 0".
    pub lo: Id,
}
