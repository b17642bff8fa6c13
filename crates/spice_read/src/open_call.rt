//! A call that is open.

use crate::ports::Ports;

/// A call that is open: its name, the line of its subcircuit, and the subcircuit's ports with the words on
/// the card of the call.
#[derive(Drop)]
pub(crate) struct OpenCall<'d> {
    pub name: &'d [u8],
    pub line: u64,
    pub ports: Ports<'d>,
}
