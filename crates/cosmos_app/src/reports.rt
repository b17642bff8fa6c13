//! What is told of a circuit alone, by what is asked.

ghost use Rattle.std.specs.Prelude.{◌≡◌, ◌≢◌, ℕ, List, IfErr};
ghost use Rattle.cosmos_app.specs.Words.{IsCircuit, HasVisibleNames, report_seen, IsToldBy, faults_written, IsRefusedOnce};
ghost use Rattle.cosmos_app.specs.Answers.{IsAnswerIn};

use circuit_reports::{list_findings, list_groups, report_check, write_listing};
use command_line::Report;
use group_analysis::Analyst;
use netlist::Circuit;
use ports::Sink;
use run_ends::{End, Stop};
use std::alloc::Global;
use table_keys::TableKeys;

/// Writes what is asked of a circuit alone.
pub(crate) fn report_on<S: Sink, A: Analyst>(
    alloc: Global,
    keys: TableKeys,
    circuit: &Circuit,
    report: Report,
    out: &mut S,
    analyst: &mut A,
) -> Result<End, Stop>
    requires circuit { IsCircuit circuit.now }
    requires visible { HasVisibleNames circuit.now }
    ensures told { (holds : List ℕ → List ℕ) → IsToldBy (IsAnswerIn (report_seen report) holds circuit.now)
        (S.written out.old) (S.written out.new) (A.analysed analyst.old) (A.analysed analyst.new) result }
    ensures no_read { IfErr result (λ stop. stop ≢ Stop.Read) }
    ensures write { S.faults out.new ≡ faults_written (S.faults out.old) result }
    ensures refused { IsRefusedOnce (S.refusals out.old) (S.refusals out.new) result }
{
    match report {
        Report::Check => report_check(alloc, circuit, out),
        Report::Groups => list_groups(alloc, keys, circuit, out),
        Report::Compile => write_listing(alloc, keys, circuit, out, analyst),
        Report::Lint => list_findings(alloc, keys, circuit, out),
    }
}
