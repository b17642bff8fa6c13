//! What `batch` writes: the run of a script in columns, on the machine of columns.

ghost use Rattle.std.specs.Prelude.{◌≡◌, ◌≢◌, IfErr};
ghost use Rattle.cosmos_app.specs.Words.{IsCircuit, faults_written, IsRefusedOnce, IsToldBy};
ghost use Rattle.cosmos_app.specs.ColumnRuns as spec;

use column_machine_stage::ColumnMachineStage;
use column_run::run_in_columns;
use command_line::ColumnCount;
use cosmos_session::Session;
use group_analysis::Analyst;
use netlist::Circuit;
use ports::Sink;
use run_ends::{End, Stop};
use std::alloc::Global;
use told_lines::Printer;

/// Runs the lines of a script from the start in the circuit, in so many columns.
pub(crate) fn run_columns<S: Sink + Drop, A: Analyst>(
    alloc: Global,
    circuit: Circuit,
    columns: ColumnCount,
    text: &[u8],
    out: &mut Printer<S>,
    analyst: &mut A,
) -> Result<End, Stop>
    requires { IsCircuit circuit }
    ensures told { IsToldBy (spec.IsColumnRun columns.count text.now circuit)
        out.old.page.written out.new.page.written (A.analysed analyst.old) (A.analysed analyst.new) result }
    ensures no_read { IfErr result (λ stop. stop ≢ Stop.Read) }
    ensures write { out.new.faults ≡ faults_written out.old.faults result }
    ensures refused { IsRefusedOnce out.old.refusals out.new.refusals result }
{
    let stage = ColumnMachineStage::start(alloc, columns.count, circuit.graph().nodes())?;
    let mut session = Session::<ColumnMachineStage>::over(alloc, circuit, stage);
    out.set_numbered(true);
    run_in_columns(alloc, &mut session, text, out, analyst)
}
