//! The stage as the stage of a plain script, whose states can be looked at.

use crate::stage::FaultStage;
use channel_groups::Groups;
use column_stage::PlainStage;
use switch_paths::Graph;
use ternary::Tern;

impl PlainStage for FaultStage {
    ghost use Rattle.std.specs.Prelude.{refl};
    ghost use Rattle.fault_stage.specs.Stages.{IsAtStart};

    ghost starts = { IsAtStart };

    fn still(state: Vec<Tern>) -> FaultStage {
        FaultStage::start(state)
    }

    fn again(self, state: Vec<Tern>) -> FaultStage {
        self.start_again(state)
    }

    fn column(&self) -> &[Tern] {
        self.states()
    }

    fn groups(&self, graph: &Graph) -> usize {
        self.group_count(graph)
    }

    fn texts(&self, graph: &Graph) -> usize {
        self.text_count(graph)
    }

    fn grouping(&self, graph: &Graph) -> Option<&Groups> {
        self.groups_there(graph)
    }

    ghost one = { λ stage. refl };

    ghost in_sight = { tt };

    ghost cuts_off = { λ large g bound old new before after cut. cut };
}
