//! The compiled machine as the stage of a session: one column, moved by the code of its groups.
//!
//! The main type is `MachineStage`, a `PlainStage` of `column_stage`: the state of each node, and the machine that
//! moves it, if there is one. It is built at the first command that wants it, over the analyses that are kept. An edit
//! makes the parts of the groups that it touches stale, and the next build gives these their codes. The state is held
//! once, by the machine if there is one: `specs/Held.antt`.
//!
//! The layer above uses a session over it, whose contract says which acts a command does to its stage. What an act does
//! to the machine is `DidAct`, and the law `commands_move_the_machine` says what so each command does to it,
//! `IsMachineAfter`: how often it moved, which of its parts are marked, and when it is at rest; a refused one leaves it. By
//! `held_machines_serve` the machine of a session covers its circuit and has its state, and by
//! `only_edits_lose_the_machine` no command but an edit ends without the one that was there.
//!
//! ```text
//! `set a=1`, then `phase`: a is placed, its readers are marked; the machine is built, and settles
//! ```
//!
//! After Bryant, "A Switch-Level Model and Simulator for MOS Digital Systems", 1984, and Bryant, Beatty,
//! Brace, Cho and Sheffler, "COSMOS: A Compiled Simulator for MOS Circuits", 1987.
#![tactic(auto)]

mod columns;
mod laws;
mod moving;
mod plain;
mod regrouping;
mod stage;

pub use laws::{
    commands_move_the_machine, held_machines_serve, only_edits_lose_the_machine,
    refused_commands_leave_the_machine,
};
pub use moving::{settle_to_rest, take_step};
pub use stage::MachineStage;
