//! One order of levels for the sizes of storage nodes, the strengths of switches and input nodes.
//!
//! Where two paths meet at a node, the stronger one blocks the other, so sizes, strengths and
//! input nodes are compared with one another. Their common order has the levels 1 to 16: size k is
//! level k, strength g is level 8 + g, and an input node is level 16. The main type is `Profile`,
//! which says how many sizes and strengths a netlist may use. The layers above use that
//! `size_level` and `switch_level` answer None exactly for what the profile doesn't accept, and
//! that every size is below every strength and every strength below an input node.
//!
//! ```text
//! size_level(Profile::One, 3)        is Some(3)
//! switch_level(Profile::One, 1)      is Some(9)
//! switch_level(Profile::One, 5)      is None
//! switch_level(Profile::Two, 7)      is Some(15)
//! ```
//!
//! After Bryant, "A Switch-Level Model and Simulator for MOS Digital Systems", 1984. The numbers
//! of the levels are this project's own.
#![tactic(auto)]

ghost use Rattle.std.specs.Prelude.{◌≡◌, ◌↔◌, ◌≤◌, ℕ, IfSome};
ghost use Rattle.std.specs.Option.{SomeIff};
ghost use Rattle.strength_order.specs.Levels.{IsLevel, IsSizeLevel, IsSwitchLevel, IsSize, IsStrength, level_of_size, level_of_strength, level_of_input, greatest_size, greatest_strength, SizesAreBelowStrengths, StrengthsAreBelowInputs};

/// The level of size 1, the least of all levels.
pub const LEAST_SIZE_LEVEL: u8 = 1;

/// The level of size 8, the last one that is kept for sizes.
pub const GREATEST_SIZE_LEVEL: u8 = 8;

/// The level of strength 1.
pub const LEAST_SWITCH_LEVEL: u8 = 9;

/// The level of strength 7, the last one that is kept for strengths.
pub const GREATEST_SWITCH_LEVEL: u8 = 15;

/// The level of an input node, above all sizes and strengths and the greatest of all levels.
pub const INPUT_LEVEL: u8 = 16;

/// How many sizes and strengths a netlist may use.
#[derive(Clone, Copy, PartialEq, Eq)]
pub enum Profile {
    /// Sizes 1 to 3 and strengths 1 to 4.
    One,
    /// Sizes 1 to 8 and strengths 1 to 7: all levels that are kept for them.
    Two,
}

impl Profile {
    fn greatest_size(self) -> u64
        ensures { result ≡ greatest_size self }
    {
        match self {
            Profile::One => 3,
            Profile::Two => 8,
        }
    }

    fn greatest_strength(self) -> u64
        ensures { result ≡ greatest_strength self }
    {
        match self {
            Profile::One => 4,
            Profile::Two => 7,
        }
    }
}

/// The level of the size `k`: None exactly if the profile doesn't accept it. Profile 1 accepts
/// 1 to 3, profile 2 accepts 1 to 8.
pub fn size_level(p: Profile, k: u64) -> Option<u8>
    ensures value { SomeIff result (IsSize p k) (level_of_size k) }
    ensures range { IfSome result IsSizeLevel }
{
    if k < 1 || k > p.greatest_size() {
        return None;
    }
    Some(k as u8)
}

/// The level of the strength `g`: None exactly if the profile doesn't accept it. Profile 1
/// accepts 1 to 4, profile 2 accepts 1 to 7.
pub fn switch_level(p: Profile, g: u64) -> Option<u8>
    ensures value { SomeIff result (IsStrength p g) (level_of_strength g) }
    ensures range { IfSome result IsSwitchLevel }
{
    if g < 1 || g > p.greatest_strength() {
        return None;
    }
    Some(GREATEST_SIZE_LEVEL + g as u8)
}

/// A law: every size that the profile accepts is weaker than every strength that it accepts, and
/// that is weaker than an input node.
pub fn sizes_strengths_and_inputs_are_in_order(p: Profile)
    ensures sizes { SizesAreBelowStrengths p }
    ensures strengths { StrengthsAreBelowInputs p }
{}

/// A law: the constants bound the levels, from those of sizes over those of strengths to that of
/// an input node.
pub fn constants_bound_the_levels()
    ensures levels { (level : ℕ) → IsLevel level ↔ ((LEAST_SIZE_LEVEL ≤ level) × (level ≤ INPUT_LEVEL)) }
    ensures sizes { (level : ℕ)
        → IsSizeLevel level ↔ ((LEAST_SIZE_LEVEL ≤ level) × (level ≤ GREATEST_SIZE_LEVEL)) }
    ensures switches { (level : ℕ)
        → IsSwitchLevel level ↔ ((LEAST_SWITCH_LEVEL ≤ level) × (level ≤ GREATEST_SWITCH_LEVEL)) }
    ensures input { INPUT_LEVEL ≡ level_of_input }
{}
