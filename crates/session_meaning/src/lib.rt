//! What the commands of a test script mean to a simulation session: its data, their lines, refusals and
//! effects, and what they do to the stage that moves its state. There is no session here, and no stage.
//!
//! The main types are `Refusal` and `ApplyFault`: why a command is refused, or was not done. The crates above
//! use the definitions in `specs/`. `SessionData` are a session's data, and `HeldSession` has the stage too.
//! `refusal_of` is the first refusal of a command; `Effect` is what one that isn't refused
//! does, and the lines that it tells; `Obeys` is what a call comes to, to the data, to what is heard of the
//! lines and to the texts that are analysed. `IsStageAfter` is what each command does to the stage, act by act,
//! whatever the stage is, and `ObeysOn` says both. By the law
//! `commands_have_one_effect` what a command does is determined. `PassesThrough` is what an onlooker sees of a
//! command, and by `commands_pass_through_one_list` that is determined too.
//!
//! ```text
//! `set a=1` at a node that is no input node has the refusal NotInput; at an input node its effect is a state
//! with 1 there, and no line
//! ```
//!
//! For the proofs of crates above: `EffectLemmas`, how each formed command ends, and that what is
//! done keeps the data ready. They cite `BeatLemmas`, `ClockLemmas`, `EditLemmas`, `LeavingLemmas`, `LineLemmas`,
//! `OutcomeLemmas`, `PassExistence`, `PassingLemmas`, `RefusalLemmas`, `SizeLemmas`, `StateLemmas`, `UniqueBuilds` and
//! `UniqueEffects` too, and of columns `BeatRowLemmas`, `ColumnLemmas`, `LetterLemmas` and `RowLemmas`; their heads say what they are of.
//! `cosmos_session` cites the others: `ActLemmas`, `BackLemmas`, `BuildLemmas`, `InAllLemmas`, `MoveLemmas`, `OneColumnLemmas`, `SaveLemmas`,
//! `StartLemmas`, `StayingLemmas` and `UndoLemmas`.
//!
//! After Bryant, "A Switch-Level Model and Simulator for MOS Digital Systems", 1984, and Bryant, Beatty,
//! Brace, Cho and Sheffler, "COSMOS: A Compiled Simulator for MOS Circuits", 1987.
#![tactic(auto)]

mod clock;
mod fault;
mod laws;
mod switches;

pub use clock::{Clock, places_of};
pub use fault::{ApplyFault, Refusal};
pub use laws::{
    columns_refuse_alike, commands_have_one_effect, commands_pass_through_one_list,
    limits_are_as_stated, saves_come_back,
};
pub use switches::SwitchEdit;

/// The most entries of the watch list.
pub const MOST_WATCHED: usize = 256;

/// The most names under which states are kept.
pub const MOST_SAVES: usize = 64;

/// The limit of a phase before any command sets it.
pub const FIRST_LIMIT: u64 = 100;
