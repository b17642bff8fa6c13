//! What the assignments of `set`, `charge` and `expect` give: a letter for each node of their names.
//!
//! The main call is [`letters_given`]. The layers above use its contract: the nodes with their letters are
//! exactly `letters_given` of `specs/Givings.antt`, and there is none exactly for the fault that this has.
//! [`is_misplaced`] tells the values that may stand at vectors alone, and [`one_given`] gives the one node of most
//! assignments, without memory. Who guesses which node that is saves it a look-up: [`is_called`] says if the guess is right.
//!
//! ```text
//! a is node 2, and the vector v has the nodes 2 and 3
//! letters_given(alloc, &circuit, &vectors, b"v", %d1)     is [(2, Some(Zero)), (3, Some(One))]
//! letters_given(alloc, &circuit, &vectors, b"v", 1)       is [(2, Some(One)), (3, Some(One))]
//! letters_given(alloc, &circuit, &vectors, b"v", 101)     is refused: VectorValue
//! letters_given(alloc, &circuit, &vectors, b"w", 1)       is refused: UnknownNode
//! is_misplaced(&circuit, &vectors, b"a", 101)             is true
//! ```
//!
//! The proofs of crates above cite `GivingLemmas`, whose head says what it is of.
#![tactic(auto)]

mod fault;
mod givings;
mod guesses;

pub use fault::GivenFault;
pub use givings::{is_misplaced, letters_given, one_given};
pub use guesses::is_called;
