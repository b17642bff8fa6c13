//! Boolean functions as reduced ordered decision graphs.
//!
//! The main type is [`DecisionGraph`], a list of vertices. A [`Function`] is the place of a vertex: a leaf, which
//! is a constant, or a branch on a variable, which leads to one vertex if the variable is true and to another
//! if it is false. Variables are decided on in the order of their numbers, no branch leads to one vertex twice
//! and no two vertices are equal, so two functions are one handle exactly if they agree under all valuations of
//! the variables. Vertices are only added, and each function keeps its meaning.
//!
//! The layers above use the contracts of `not`, `and`, `or` and `differ`, by what a function holds under a
//! valuation; of `same`, which compares functions under all valuations at once; and of `witness`, which finds the
//! first valuation under which a function holds. A graph has a bound on its vertices: an operation that needs one
//! more is refused, apart from lack of memory. `compact` gives some functions a graph of their own.
//!
//! ```text
//! let x = graph.variable(0)?;
//! let y = graph.variable(1)?;
//! let both = graph.and(x, y)?;
//! graph.and(y, x)?                              is both
//! graph.or(both, graph.not(both)?)?             is graph.constant(true)
//! graph.witness(alloc, both)?                   is [true, true]
//! ```
//!
//! A call goes down one variable at a time, so it calls itself at most once for each variable, and there are at most
//! `MOST_VARIABLES`.
//!
//! For the proofs of crates above: `ValueLemmas` (vertices that are added leave what functions hold), `AgreeLemmas`
//! (a function knows the variables of the graph alone, and functions that agree have one place), and `VertexLemmas`
//! (graphs that extend one another).
//!
//! After Bryant, "Graph-Based Algorithms for Boolean Function Manipulation", 1986; the table in which no vertex
//! stands twice and the notes of results after Brace, Rudell and Bryant, "Efficient Implementation of a BDD
//! Package", 1990.
#![tactic(auto)]

mod combining;
mod compact;
mod functions;
mod graph;
mod laws;
mod notes;
mod vertex;

pub use graph::{DecisionGraph, GraphFault};
pub use laws::limits_are_as_stated;
pub use vertex::{Function, Vertex};

/// The most variables of a graph.
pub const MOST_VARIABLES: u32 = 4_096;
