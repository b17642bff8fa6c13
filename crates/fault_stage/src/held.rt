//! What a stage holds.

use crate::built::Built;
use crate::waiting::Waiting;
use machine_stage::MachineStage;

/// A stage that holds on to nothing; one that is built, and records its run, or goes beside a recorded one; or one that waits for its
/// build.
#[derive(Drop)]
pub(crate) enum Held {
    Whole(MachineStage),
    Built(Built),
    Waiting(Waiting),
}
