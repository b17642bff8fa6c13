//! The machine's stage as the stage of a plain script, whose states can be looked at.

use crate::stage::MachineStage;
use channel_groups::Groups;
use column_stage::PlainStage;
use switch_paths::Graph;
use ternary::Tern;

impl PlainStage for MachineStage {
    ghost use Rattle.std.specs.Prelude.{◌≡◌, None, refl};

    ghost starts = { λ stage. stage.machine ≡ None };

    fn still(state: Vec<Tern>) -> MachineStage {
        MachineStage::start(state)
    }

    fn again(self, state: Vec<Tern>) -> MachineStage {
        MachineStage::start(state)
    }

    fn column(&self) -> &[Tern] {
        self.states()
    }

    fn groups(&self, _graph: &Graph) -> usize {
        self.group_count()
    }

    fn texts(&self, _graph: &Graph) -> usize {
        self.text_count()
    }

    fn grouping(&self, _graph: &Graph) -> Option<&Groups> {
        self.machine()?.grouping()
    }

    ghost one = { λ stage. refl };

    ghost in_sight = { tt };

    ghost cuts_off = { λ large g bound old new before after cut. cut };
}
