//! The limits of this crate, as numbers, and what parts of small texts take.

ghost use Rattle.std.specs.Prelude.{◌≡◌, ◌<◌, ◌≤◌, ◌^◌, List, length, All};
ghost use Rattle.std.specs.List.{sum_by};
ghost use Rattle.machine_parts.specs.declared.part.MachinePart.{MachinePart};
ghost use Rattle.machine_parts.specs.Making.{NeedTooMuch};
ghost use Rattle.part_steps.specs.declared.bundles.TheConstants.{SLOTS, COLUMNS};
ghost use Rattle.part_steps.specs.Small.{IsSmallPart, nodes_of};

/// A law: up to 64 parts of one code run together, of up to 64 codes that wait.
pub fn limits_are_as_stated()
    ensures slots { SLOTS ≡ 64 }
    ensures columns { COLUMNS ≡ 64 }
{}

/// A law: parts of small texts need no more than numbers count. `room`: the room for the steps of up to 2^32 of them is
/// told. `maps`: the maps of up to 1,000,000 of them, one behind the other, have places of 32 bits.
pub fn small_parts_fit()
    ensures room { (parts : List MachinePart) → length parts ≤ 2 ^ 32 → All IsSmallPart parts → ¬ NeedTooMuch parts }
    ensures maps { (parts : List MachinePart) → length parts ≤ 1000000 → All IsSmallPart parts → sum_by nodes_of parts < 2 ^ 32 }
{}
