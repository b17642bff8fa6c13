//! The compiled machine of many columns: up to 64 states of one circuit, simulated together by the bits of words.
//!
//! The main type is [`ColumnMachine`], one of two machines. If each group has a text it is a [`WordMachine`]: a machine that
//! is there for its parts, which of them are marked, and for each node a word for each of both rails. Bit i of the words is
//! the node's state in column i: X has both rails. One set of parts and marks serves all columns, and a step runs the code of
//! a marked part once, for all columns: each column is a machine of its own that shares the parts and the marks. The layer
//! above uses that in each column a step is the unit step of the graph, that [`ColumnMachine::settle`] settles each column as
//! it would settle alone, and that [`ColumnMachine::edit`] and [`ColumnMachine::finish`] keep it through edits.
//!
//! ```text
//! an inverter a -> out, three columns, a is 0, 1 and X in columns 0, 1 and 2: hi of a is 0b110, lo is 0b101
//! a step runs the inverter's code once: hi of out is 0b101, lo is 0b110
//! ```
//!
//! Groups that are too large for a text are stepped by vicinities, and what is touched of these belongs to one state. Then
//! it is a [`TurnMachine`]: the machine of one state takes the columns in turn, and what differs between one column and the
//! next is placed. It looks at those nodes alone at which the columns aren't all alike. An edit lets it go.
//!
//! The proofs of crates above cite `ColumnLemmas`, whose head says what it is of.
//!
//! After Bryant, Beatty, Brace, Cho and Sheffler, "COSMOS: A Compiled Simulator for MOS Circuits",
//! 1987; the columns are the bits of words, an old device of parallel simulation.
#![tactic(auto)]

mod advance;
mod bits;
mod column_machine;
mod edits;
mod evaluation;
mod machine;
mod making;
mod rails;
mod taking;
mod turning;
mod turns;
mod uneven;

pub use bits::{state_in, with_bit};
pub use column_machine::ColumnMachine;
pub use machine::WordMachine;
pub use rails::{Rails, grow_rails};
pub use turns::TurnMachine;
