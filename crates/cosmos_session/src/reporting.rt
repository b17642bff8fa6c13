//! Reports: how many groups and texts there are, and how many texts were new.

ghost use Rattle.std.specs.Prelude.{◌≡◌, ◌≤◌, ◌+◌, List, IfErr, OnOk};
ghost use Rattle.cosmos_session.specs.Words.{GroupTextData, HasTexts, COLUMN_ROOM, REPORT_LINE_ROOM, Shared, ObeysInAllOn, IsReported};
ghost use Rattle.cosmos_session.specs.Words.{IsSinkFault, faults_applied, refusals_sent, IsDoneAndSent};
ghost use Rattle.script_lang.specs.declared.command.Command.TheVariants as family;
ghost use Rattle.script_lang.specs.declared.command.Run.TheVariants as asked;

use crate::session::Session;
use crate::waves::tell_line;
use analysis_cache::Analyst;
use column_stage::PlainStage;
use printed_lines::{COLUMN_ROOM, REPORT_LINE_ROOM};
use session_meaning::ApplyFault;
use told_lines::{Line, Lines};

impl<M: PlainStage> Session<M> {
    /// `report`: a line with the numbers of groups, of distinct texts, and of texts that were analysed
    /// since the last report.
    pub(crate) fn report<A: Analyst, L: Lines>(
        &mut self,
        analyst: &mut A,
        out: &mut L,
    ) -> Result<(), ApplyFault>
        ensures obeys { ObeysInAllOn M.cuts L.hear L.part M.columns M.states M.did self.old (Shared (family.Run asked.Report)) self.new
            (L.heard out.old) (L.heard out.new) (A.analysed analyst.old) (A.analysed analyst.new) (L.refusals out.old) (L.refusals out.new) result }
        ensures faults { L.faults out.new ≡ faults_applied (L.faults out.old) result }
        ensures state { OnOk result (self.new.core.state ≡ self.old.core.state) }
    {
        out.reserve(COLUMN_ROOM + REPORT_LINE_ROOM)?;
        self.make_ready(analyst)?;
        self.is_well_formed();
        self.tell_report(out)
    }

    // Tells the line of a report, with the stage's numbers, and begins to count anew. The stage fits, and no group is too
    // large.
    fn tell_report<L: Lines>(&mut self, out: &mut L) -> Result<(), ApplyFault>
        requires fits { M.fits self.old.stage self.old.core.circuit.graph }
        requires texts { (texts : List GroupTextData) × HasTexts self.old.core.large self.old.core.circuit.graph texts }
        requires line { COLUMN_ROOM + REPORT_LINE_ROOM ≤ L.room out.old }
        ensures report { IsDoneAndSent IsReported L.hear L.part self.old.core self.new.core (L.heard out.old) (L.heard out.new) result }
        ensures stage { self.new.stage ≡ self.old.stage }
        ensures cause { IfErr result IsSinkFault }
        ensures faults { L.faults out.new ≡ faults_applied (L.faults out.old) result }
        ensures refusals { L.refusals out.new ≡ refusals_sent (L.refusals out.old) result }
    {
        let graph = self.circuit.graph();
        let groups = self.stage.groups(graph) as u64;
        let texts = self.stage.texts(graph) as u64;
        let fresh = self.fresh;
        self.fresh = 0;
        tell_line(
            Line::Reported {
                groups,
                texts,
                fresh,
            },
            out,
        )
    }
}
