//! Where a node isn't as it is expected to be.
ghost use Rattle.std.specs.Prelude.{◌≡◌, ◌<◌, ◌≤◌, length, IfErr, IfOk};
ghost use Rattle.decision_graph.specs.Vertices.{Extends};
ghost use Rattle.decision_graph.specs.Graphs.{SameShape};
ghost use Rattle.decision_graph.specs.declared.graph.GraphFault.TheVariants as fault;
ghost use Rattle.truth_makers.specs.Expecting.{IsMissed};

use crate::Symbols;
use decision_graph::{Function, GraphFault};

impl Symbols {
    /// Where a node with these rails isn't as wanted: 1 where the wanted function holds, and 0 elsewhere.
    pub fn missed(
        &mut self,
        hi: Function,
        lo: Function,
        wanted: Function,
    ) -> Result<Function, GraphFault>
        requires hi { hi.place < length self.old.graph.vertices }
        requires lo { lo.place < length self.old.graph.vertices }
        requires wanted { wanted.place < length self.old.graph.vertices }
        ensures shape { SameShape self.old.graph self.new.graph }
        ensures extends { Extends self.old.graph.vertices self.new.graph.vertices }
        ensures full { IfErr result (λ why. why ≡ fault.Full → self.new.graph.most ≤ length self.new.graph.vertices) }
        ensures inside { IfOk result (λ r. r.place < length self.new.graph.vertices) }
        ensures missed { IfOk result (λ r. IsMissed self.old.graph.vertices self.new.graph.vertices hi.place lo.place wanted.place r.place) }
    {
        let high = self.graph.differ(hi, wanted)?;
        let other = self.graph.not(wanted)?;
        let low = self.graph.differ(lo, other)?;
        let made = self.graph.or(high, low)?;
        Ok(made)
    }
}
