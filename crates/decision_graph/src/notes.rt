//! Results of operations that are remembered.
ghost use Rattle.std.specs.Prelude.{◌<◌};

use crate::Function;
use crate::combining::Kind;

// An operation, its operands and its result.
#[derive(Clone, Copy)]
pub(crate) struct Note {
    pub(crate) kind: Kind,
    pub(crate) a: Function,
    pub(crate) b: Function,
    pub(crate) made: Function,
}

// What is noted at first: "false and false" is false.
pub(crate) const FIRST_NOTE: Note = Note {
    kind: Kind::And,
    a: Function { place: 0 },
    b: Function { place: 0 },
    made: Function { place: 0 },
};

// Where the result of an operation is noted, in so many places.
pub(crate) fn slot(kind: Kind, a: Function, b: Function, count: usize) -> usize
    requires { 0 < count }
    ensures { result < count }
{
    let salt: u64 = match kind {
        Kind::And => 0x9e37_79b9_7f4a_7c15,
        Kind::Or => 0xc2b2_ae3d_27d4_eb4f,
        Kind::Differ => 0x1656_67b1_9e37_79f9,
    };
    let first = (a.place as u64).wrapping_mul(0xff51_afd7_ed55_8ccd);
    let mixed = (first ^ (first >> 29) ^ b.place as u64 ^ salt).wrapping_mul(0xc4ce_b9fe_1a85_ec53);
    (mixed ^ (mixed >> 32)) as usize % count
}
