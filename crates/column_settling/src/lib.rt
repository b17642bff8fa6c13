//! Settling of any number of columns in one run.
//!
//! The main trait is [`ColumnStepper`]: the states of columns, which move by unit steps together, however these are
//! computed and however many columns there are. [`settle_columns`] settles them in one run: in each column its
//! contract is `Settles`, that of a single column, and it tells the greatest count of steps. A column that has settled
//! is at a fixed point, and stays while others go on; so one that still moves has moved in each step so far. A stepper may
//! run out; what it says of why is so of it then (`spent`), and what each step keeps stands between it before and behind (`Reaches`).
//!
//! ```text
//! two columns of an inverter that feeds itself, at 0 and at X, with the limit 4: the first takes 4 steps and a joining
//! one, the second none; told are 5 steps, and that some column joined
//! ```
#![tactic(auto)]

mod phases;
mod stepping;

pub use phases::settle_columns;
pub use stepping::ColumnStepper;
