//! Laws of compiled machines over graphs: which graphs a machine covers and fits, and what steps, placings, edits
//! and builds leave of that.
//!
//! `MachineData` is a machine as contracts see it. A machine covers a graph if its parts are those of the graph's
//! groups, and fits it if each of them has its code and the members of each part that isn't marked rest. The layers
//! above use the laws: `steps_are_unit_steps`, `columns_step_apart`, `columns_stay_through_edits`,
//! `placing_keeps_fits`, `alike_groups_keep_their_parts`, `empty_places_are_covered` and `machines_have_kept_texts`. No
//! machine is made here, and what is kept of codes is only told by its texts.
//!
//! ```text
//! a machine that fits a graph takes a step: the states are those of the graph's unit step, and it fits it again
//! ```
//!
//! For the proofs of crates above: `FittingLemmas`, `PlacingLemmas` and `KeptLemmas` (what steps, placings and
//! edits leave), `ColumnEdits` (what edits leave of a column), `PartGroups` (the members of a part of a group). They cite `ClearingLemmas`, `CoveringLemmas`,
//! `FillingLemmas`, `FinishingBuilds`, `FinishingGroups`, `FinishingTexts`, `FinishingWaiting`, `LastTextsGroups`,
//! `RenewingLemmas`, `SeatingLemmas`, `SlotLemmas` and `StayingParts` too, whose heads say what they are of.
//!
//! After Bryant, Beatty, Brace, Cho and Sheffler, "COSMOS: A Compiled Simulator for MOS Circuits",
//! 1987.
#![tactic(auto)]

mod laws;

pub use laws::{
    alike_groups_keep_their_parts, columns_stay_through_edits, columns_step_apart,
    empty_places_are_covered, machines_have_kept_texts, placing_keeps_fits, steps_are_unit_steps,
};
