//! What moves the states of a circuit's nodes under a session, in one column or in several side by side.
//!
//! The main type is the trait `Columns`. The session of a script is generic over it: it knows by the contract
//! that each column's states move by the model's steps, and which acts were done to the stage, one after the other
//! (`Act`, `Leads`). What an act does to marks, counts and the like of a machine is the instance's own, `did`. What edits and
//! builds ask for is in it, and counts no columns.
//!
//! A `Stage` has columns that have numbers, and its moves never fail. A `PlainStage` is one of a single column, as a plain
//! script has it: its states can be looked at, also while they move. Of a `ColumnStage` it is known what each act does to the
//! states of each column. A `TruthStage` may have more columns than can be counted, one for each valuation of a script's
//! variables, and its moves may run out. `Work` is what else is done to one in a session, and leaves the states of all columns.
//!
//! ```text
//! place a at 1; step          the acts Placed, Stepped; in each column the states are those by one unit step
//! ```
//!
//! Nothing here bounds the number of columns. A column's states are a list for each column, however an instance holds
//! them.
//!
//! After Bryant, Beatty, Brace, Cho and Sheffler, "COSMOS: A Compiled Simulator for MOS Circuits", 1987.
#![tactic(auto)]

mod columns;
mod moving;
mod plain;
mod stage;
mod starting;
mod truths;
mod work;

pub use columns::Columns;
pub use moving::ColumnStage;
pub use plain::PlainStage;
pub use stage::Stage;
pub use starting::some_state;
pub use truths::TruthStage;
pub use work::Work;

/// The most new nodes of one edit.
pub const NEW_NODES: usize = 3;
