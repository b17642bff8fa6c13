//! The stage of a plain script: one column, whose states can be looked at.

ghost use Rattle.std.specs.Prelude.{◌≡◌, ℕ, List, [], length, Option, IfSome};
ghost use Rattle.switch_paths.specs.Graphs.{GraphData};
ghost use Rattle.channel_groups.specs.Grouping.{AreOf};
ghost use Rattle.group_text.specs.FirstTexts.{first_texts};
ghost use Rattle.group_text.specs.Texts.{GroupTextData};
ghost use Rattle.circuit_texts.specs.Building.{HasTexts, IsCutOff};

use crate::stage::Stage;
use channel_groups::Groups;
use switch_paths::Graph;
use ternary::Tern;

/// A stage of one column, which is shown: its states can be looked at, and its groups and their texts be counted.
///
/// Contracts see one more meaning: whether it is as at a start, when nothing was done to it.
pub trait PlainStage: Stage {
    ghost starts: { Self → Type 0 };

    /// A stage at its start, in this state. Nothing was built, and it serves any graph.
    fn still(state: Vec<Tern>) -> Self
        ensures one { Self.columns result ≡ 1 }
        ensures state { Self.states result 0 ≡ state.items }
        ensures last { Self.last result ≡ [] }
        ensures serves { (g : GraphData) (kept : List GroupTextData) → Self.serves result g kept }
        ensures starts { starts result };

    /// A stage at its start in another state. It may hold on to what this one has, so that less is to be made anew where it is
    /// built next: while what is kept stays kept, it serves any graph.
    fn again(self, state: Vec<Tern>) -> Self
        ensures one { Self.columns result ≡ 1 }
        ensures state { Self.states result 0 ≡ state.items }
        ensures last { Self.last result ≡ [] }
        ensures serves { (g h : GraphData) (kept : List GroupTextData) → Self.serves self g kept → Self.serves result h kept }
        ensures starts { starts result };

    /// The state of each node.
    fn column(&self) -> &[Tern]
        ensures one { Self.columns self.now ≡ 1 }
        ensures value { result.now ≡ Self.states self.now 0 };

    /// How many groups the graph has.
    fn groups(&self, graph: &Graph) -> usize
        requires { Self.fits self.now graph.now }
        ensures { (large : ℕ) (texts : List GroupTextData) (has : HasTexts large graph.now texts) → result ≡ length has.groups };

    /// How many distinct texts the graph's groups have, of those that have one.
    fn texts(&self, graph: &Graph) -> usize
        requires { Self.fits self.now graph.now }
        ensures { (large : ℕ) (texts : List GroupTextData) → HasTexts large graph.now texts → result ≡ length (first_texts texts) };

    /// The groups of the graph, if they are at hand.
    fn grouping(&self, graph: &Graph) -> Option<&Groups>
        requires { (kept : List GroupTextData) × Self.serves self.now graph.now kept }
        ensures { IfSome result (λ groups. AreOf graph.now groups.now) };

    // There is one column, always.
    ghost one: { (stage : Self) → Self.columns stage ≡ 1 };

    // It is shown.
    ghost in_sight: { Self.Shows };

    // A build that ran out of memory analysed nothing, or a prefix of what is new.
    ghost cuts_off: { (large : ℕ) (g : GraphData) (bound : Option ℕ) (old new before after : List GroupTextData) →
        Self.cuts large g bound old new before after → IsCutOff large g old new before after };
}
