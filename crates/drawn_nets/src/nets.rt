/// An inverter of a p-channel and an n-channel switch.
pub const INVERTER: &[u8] = b"p a Vdd out\nn a Gnd out\nA a input\n";

/// Two inverters of one text, one of another text, and a pass switch.
pub const INVERTERS: &[u8] =
    b"p a Vdd b\nn a Gnd b\np b Vdd c\nn b Gnd c\np c Vdd d\nn c Gnd d g=strength:3\nn a e f\nA a input\n";

/// A depletion load pulls its output up, and an enhancement switch pulls it down.
pub const RATIOED_INVERTER: &[u8] = b"d out out Vdd\ne a Gnd out\n";

/// A bus of size 2 and a cell of size 1 on it.
pub const SHARED_CHARGE: &[u8] = b"n g bus cell\nA g input\nA bus size:2\n";

/// A stronger path from Gnd blocks a weaker one from Vdd at the node m.
pub const BLOCKED_IN_THE_MIDDLE: &[u8] =
    b"n Vdd Vdd m g=strength:1\nn Vdd Gnd m\nn x m out\nA x input\n";

/// The node a is its own inverse, and o and q follow.
pub const RING_AND_TWO_INVERTERS: &[u8] =
    b"p a Vdd a\nn a Gnd a\np a Vdd o\nn a Gnd o\np o Vdd q\nn o Gnd q\n";

/// The gate of the one switch is a node at its end.
pub const GATED_BY_A_MEMBER: &[u8] = b"n x x y g=strength:1\nA y size:2\n";

/// A rail closes the switch for good.
pub const GATED_BY_A_RAIL: &[u8] = b"n Vdd out Gnd\n";
