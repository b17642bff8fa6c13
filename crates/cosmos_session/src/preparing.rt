//! Building the circuit before the commands that need it.

ghost use Rattle.std.specs.Prelude.{◌≡◌, ℕ, ◌<◌, OnOk};
ghost use Rattle.session_meaning.specs.Stages.{ReadiesBy};

use crate::placing::build_stage;
use crate::session::Session;
use analysis_cache::Analyst;
use column_stage::Columns;
use session_meaning::ApplyFault;

impl<M: Columns> Session<M> {
    /// Has the stage built for the session's circuit, so that it fits: what is there goes on, and if there is nothing it
    /// is made. The texts that aren't kept are analysed, kept and counted, and what is past the bound is cut.
    ///
    /// It is the last call of a command that can lack memory.
    pub(crate) fn make_ready<A: Analyst>(&mut self, analyst: &mut A) -> Result<(), ApplyFault>
        ensures readies { ReadiesBy M.cuts M.did self.old self.new (A.analysed analyst.old) (A.analysed analyst.new) result }
        ensures columns { M.columns self.new.stage ≡ M.columns self.old.stage }
        ensures states { (column : ℕ) → column < M.columns self.old.stage → M.states self.new.stage column ≡ M.states self.old.stage column }
        ensures fits { OnOk result (M.fits self.new.stage self.new.core.circuit.graph) }
    {
        let graph = self.circuit.graph();
        match build_stage(
            self.alloc,
            graph,
            self.large,
            &mut self.stage,
            &mut self.kept,
            analyst,
        ) {
            Ok(fresh) => {
                self.fresh = self.fresh.saturating_add(fresh);
                Ok(())
            }
            Err(fault) => Err(ApplyFault::of_build(fault)),
        }
    }
}
