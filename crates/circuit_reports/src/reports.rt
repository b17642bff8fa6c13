//! What `check` and `groups` write of a circuit.

ghost use Rattle.std.specs.Prelude.{◌≡◌, ◌≢◌, IfErr, count_by, is_some};
ghost use Rattle.run_ends.specs.Ends.{IsTold};
ghost use Rattle.run_ends.specs.Stops.{faults_written, IsRefusedOnce};
ghost use Rattle.circuit_reports.specs.Answers.{IsCheck, IsGroups};

use group_report::report_groups;
use netlist::Circuit;
use ports::{Sink, send};
use printed_lines::{CHECK_LINE_ROOM, LineBuf, check_line};
use run_ends::{End, Stop};
use std::alloc::Global;
use switch_paths::Graph;
use table_keys::TableKeys;

/// Writes the check line of a circuit: how many nodes, transistors and names it has.
pub fn report_check<S: Sink>(alloc: Global, circuit: &Circuit, out: &mut S) -> Result<End, Stop>
    ensures told { IsTold (IsCheck circuit.now) (S.written out.old) (S.written out.new) result }
    ensures no_read { IfErr result (λ stop. stop ≢ Stop.Read) }
    ensures write { S.faults out.new ≡ faults_written (S.faults out.old) result }
    ensures refused { IsRefusedOnce (S.refusals out.old) (S.refusals out.new) result }
{
    let mut line = LineBuf::new(alloc, CHECK_LINE_ROOM)?;
    let graph = circuit.graph();
    check_line(
        &mut line,
        graph.nodes() as u64,
        switches(graph),
        circuit.names() as u64,
    );
    match send(out, line.bytes()) {
        Ok(()) => Ok(End::Done),
        Err(fault) => Err(Stop::of_write(fault)),
    }
}

/// How many places of a graph hold a switch.
pub fn switches(graph: &Graph) -> u64
    ensures { result ≡ count_by is_some graph.now.places }
{
    let mut count = 0;
    for place in 0..graph.places() {
        if graph.switch_at(place).is_some() {
            count += 1;
        }
    }
    count
}

/// Writes the lines of a circuit's groups, one for each.
pub fn list_groups<S: Sink>(
    alloc: Global,
    keys: TableKeys,
    circuit: &Circuit,
    out: &mut S,
) -> Result<End, Stop>
    ensures told { IsTold (IsGroups circuit.now) (S.written out.old) (S.written out.new) result }
    ensures no_read { IfErr result (λ stop. stop ≢ Stop.Read) }
    ensures write { S.faults out.new ≡ faults_written (S.faults out.old) result }
    ensures refused { IsRefusedOnce (S.refusals out.old) (S.refusals out.new) result }
{
    match report_groups(alloc, circuit, keys, out) {
        Ok(()) => Ok(End::Done),
        Err(fault) => Err(Stop::of_write(fault)),
    }
}
