//! What a step changes.

use ternary::Tern;

/// A node that takes another state.
#[derive(Clone, Copy)]
pub struct Change {
    pub node: usize,
    pub value: Tern,
}
