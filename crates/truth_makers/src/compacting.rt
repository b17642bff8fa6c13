//! A maker of its own for the functions that are still wanted.
ghost use Rattle.std.specs.Prelude.{◌≡◌, ℕ, ◌<◌, length, All, IfOk};
ghost use Rattle.decision_graph.specs.Graphs.{SameShape};
ghost use Rattle.truth_columns.specs.Columns.{values_in};
ghost use Rattle.truth_makers.specs.Makers.{columns_in, function_holds, IsFunctionOf};

use crate::Symbols;
use decision_graph::{Function, GraphFault};
use std::alloc::Global;

impl Symbols {
    /// A maker of the same variables and bound that has what these functions need, and the functions in it, in the same order.
    ///
    /// In each column each function holds where it held. Results are remembered anew, in so many places.
    pub fn compact(
        &self,
        alloc: Global,
        roots: &[Function],
        notes: usize,
    ) -> Result<(Symbols, Vec<Function>), GraphFault>
        requires inside { All (IsFunctionOf self.now) roots.now }
        requires some { 0 < notes }
        ensures shape { IfOk result (λ made. SameShape self.now.graph made.0.graph) }
        ensures columns { IfOk result (λ made. columns_in made.0 ≡ columns_in self.now) }
        ensures counted { IfOk result (λ made. length made.1.items ≡ length roots.now) }
        ensures inside { IfOk result (λ made. All (IsFunctionOf made.0) made.1.items) }
        ensures same { IfOk result (λ made. (column : ℕ) →
            values_in (function_holds made.0) column made.1.items ≡ values_in (function_holds self.now) column roots.now) }
    {
        let (graph, found) = self.graph.compact(alloc, roots, notes)?;
        Ok((Symbols { graph }, found))
    }
}
