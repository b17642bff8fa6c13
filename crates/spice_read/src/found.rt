//! What a name was found to stand for.

use spice_cards::Subcircuit;

/// A name, and the subcircuit that it stands for.
#[derive(Drop)]
pub(crate) struct Found<'d> {
    pub name: &'d [u8],
    pub subcircuit: Subcircuit<'d>,
}
