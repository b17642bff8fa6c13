//! The build of what moves the states.
ghost use Rattle.std.specs.Prelude.{◌≡◌, ◌⊎◌, true, Err, None, IfErr, IfOk, OnErr, OnOk};
ghost use Rattle.std.specs.Bool.{OnTrue};
ghost use Rattle.symbol_stage.specs.Words.{nodes, texts_of, AreSound, Builds, IsCutInColumns, IsFunctionOf, IsGear, IsRailed, TellsRefused};
ghost use Rattle.symbol_stage.specs.Stages.{FitsIn, ServesIn, columns_on, states_in};

use crate::SymbolStage;
use analysis_cache::{Analyst, Kept};
use circuit_texts::BuildFault;
use column_stage::some_state;
use decision_graph::Function;
use switch_paths::Graph;
use truth_machine::{Gear, gear_for};
use unit_step::{Codes, Machine};

impl SymbolStage {
    /// Gets what takes steps of the graph: what is there goes on, and if there is nothing it is made, with code for all groups.
    ///
    /// Texts that aren't kept are analysed first, each once, and kept; the answer is how many these are. The refusals are those of
    /// a build in which no larger groups are accepted; the states stay, whatever comes of it.
    pub(crate) fn make<A: Analyst>(
        &mut self,
        graph: &Graph,
        kept: &mut Kept,
        analyst: &mut A,
    ) -> Result<u64, BuildFault>
        requires railed { IsRailed graph.now }
        requires sound { AreSound graph.now (columns_on self.old) (states_in self.old) }
        requires serves { ServesIn self.old graph.now (texts_of kept.old) }
        ensures fits { OnOk result (FitsIn self.new graph.now) }
        ensures serves { ServesIn self.new graph.now (texts_of kept.new) }
        ensures maker { self.new.machine.maker ≡ self.old.machine.maker }
        ensures highs { self.new.machine.hi ≡ self.old.machine.hi }
        ensures lows { self.new.machine.lo ≡ self.old.machine.lo }
        ensures builds { IfOk result (Builds 0 graph.now kept.old.bound (texts_of kept.old) (texts_of kept.new) (A.analysed analyst.old) (A.analysed analyst.new)) }
        ensures bound { kept.new.bound ≡ kept.old.bound }
        ensures cut_off { result ≡ Err BuildFault.NoMemory → IsCutInColumns 0 graph.now kept.old.bound (texts_of kept.old) (texts_of kept.new) (A.analysed analyst.old) (A.analysed analyst.new) }
        ensures refused { IfErr result (λ fault. (fault ≡ BuildFault.NoMemory)
            ⊎ (TellsRefused 0 graph.now fault × (kept.new ≡ kept.old) × (A.analysed analyst.new ≡ A.analysed analyst.old))) }
        ensures err { OnErr result (self.new ≡ self.old) }
    {
        if self.is_built(kept) {
            return Ok(0);
        }
        let (gear, fresh) = self.gear_of(graph, kept, analyst)?;
        // a call for the proof alone: the rails are those of states
        self.machine.are_rails();
        self.room = None;
        self.machine.fit(graph, gear);
        self.built = true;
        Ok(fresh)
    }

    // Whether a build was done for the graph as it is, and no bound is on what is kept.
    fn is_built(&self, kept: &Kept) -> bool
        ensures built { OnTrue result (self.now.built ≡ true) }
        ensures unbounded { OnTrue result (kept.now.bound ≡ None) }
    {
        if let Some(_bound) = kept.bound() {
            return false;
        }
        self.built
    }

    // The gear for the graph. The refusals are those of a build.
    fn gear_of<A: Analyst>(
        &self,
        graph: &Graph,
        kept: &mut Kept,
        analyst: &mut A,
    ) -> Result<(Gear<Function>, u64), BuildFault>
        requires railed { IsRailed graph.now }
        ensures gear { IfOk result (λ made. IsGear graph.now (IsFunctionOf self.now.machine.maker) (nodes graph.now) made.0) }
        ensures builds { IfOk result (λ made. Builds 0 graph.now kept.old.bound (texts_of kept.old) (texts_of kept.new) (A.analysed analyst.old) (A.analysed analyst.new) made.1) }
        ensures bound { kept.new.bound ≡ kept.old.bound }
        ensures cut_off { result ≡ Err BuildFault.NoMemory → IsCutInColumns 0 graph.now kept.old.bound (texts_of kept.old) (texts_of kept.new) (A.analysed analyst.old) (A.analysed analyst.new) }
        ensures refused { IfErr result (λ fault. (fault ≡ BuildFault.NoMemory)
            ⊎ (TellsRefused 0 graph.now fault × (kept.new ≡ kept.old) × (A.analysed analyst.new ≡ A.analysed analyst.old))) }
    {
        let state = some_state(self.alloc, graph.nodes())?;
        let (machine, fresh) = Machine::build(
            self.alloc,
            graph,
            &state,
            0,
            Codes::All,
            kept,
            analyst,
        )?;
        let gear = gear_for(self.alloc, graph, machine, self.machine.truths())?;
        Ok((gear, fresh))
    }
}
