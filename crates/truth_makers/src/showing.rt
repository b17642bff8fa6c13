//! The state that a node has in all columns.
ghost use Rattle.std.specs.Prelude.{◌<◌, length, IfSome};
ghost use Rattle.std.specs.Option.{IfNone};
ghost use Rattle.ternary.specs.declared.tern.Tern.{Tern};
ghost use Rattle.truth_makers.specs.Expecting.{IsStateOfAll};

use crate::Symbols;
use decision_graph::Function;
use ternary::Tern;

impl Symbols {
    /// The state that a node with these rails has under all valuations; None exactly if it hasn't one.
    pub fn state(&self, hi: Function, lo: Function) -> Option<Tern>
        requires hi { hi.place < length self.now.graph.vertices }
        requires lo { lo.place < length self.now.graph.vertices }
        ensures alike { IfSome result (IsStateOfAll self.now.graph.vertices hi.place lo.place) }
        ensures varies { IfNone result ((state : Tern) → IsStateOfAll self.now.graph.vertices hi.place lo.place state → ⊥) }
    {
        let always = self.graph.constant(true);
        let may_be_one = (self.graph.same(hi, always), self.graph.is_never(hi));
        let may_be_zero = (self.graph.same(lo, always), self.graph.is_never(lo));
        match (may_be_one, may_be_zero) {
            ((true, _), (_, true)) => Some(Tern::One),
            ((_, true), (true, _)) => Some(Tern::Zero),
            ((true, _), (true, _)) => Some(Tern::Unk),
            _ => None,
        }
    }
}
