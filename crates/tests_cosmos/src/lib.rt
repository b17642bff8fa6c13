//! Runs of the program over ports in memory.
//!
//! `run_in_memory` is the top call over a table of texts and a printer to a sink in memory: no fault can be answered
//! there, so its answer is that of the words, or lack of memory. The tests show what no clause says: that with ample
//! memory each request and each command has the answer that is expected, and that each read and each write
//! that fails is the last.
//!
//! `step_by_program` says in one clause what a written listing is worth: whoever has that text alone makes
//! the unit steps of the netlist's circuit.
//!
//! ```text
//! run_in_memory(alloc, ["sim", "net", "script"], files, out, analyst)   is Status::Done
//! ```
#![tactic(auto)]

ghost use Rattle.std.specs.Prelude.{◌≡◌, ◌≢◌, Some};
ghost use Rattle.ports.specs.HonestPorts.{held};
ghost use Rattle.command_line.specs.Requests.{names_of, request_of};
ghost use Rattle.cosmos_app.specs.Answers.{IsAnswered};
ghost use Rattle.cosmos_app.specs.Wholes.{ReadsAll};

use cosmos_app::{Status, run};
use group_analysis::Analyst;
use machine_stage::MachineStage;
use ports::{HonestFiles, HonestSink};
use std::alloc::Global;
use told_lines::Printer;

/// Answers the words of a command line over files in memory and a printer to a sink in memory, and gives the sink
/// back.
///
/// What was written is the answer's text, or a prefix of it out of memory.
pub fn run_in_memory<A: Analyst>(
    alloc: Global,
    words: &[String],
    files: &mut HonestFiles,
    out: Printer<HonestSink>,
    analyst: &mut A,
) -> (Status, HonestSink)
    ensures answer { IsAnswered (names_of words.now) (held files.old.table) out.page.written (Some result.1.written)
        (A.analysed analyst.old) (A.analysed analyst.new) result.0 }

    // Each file that the words need was read to its end, or to the first byte too many, before any answer
    // but lack of memory.
    ensures whole { ReadsAll (Some files.old.taken) (Some files.new.taken)
        (held files.old.table) (request_of (names_of words.now)) result.0 }

    // Over ports that never fail no fault is answered.
    ensures no_read_fault { result.0 ≢ Status.ReadFault }
    ensures no_write_fault { result.0 ≢ Status.WriteFault }
{
    let mut printer = out;
    let status = run::<MachineStage, _, _, _>(alloc, words, files, &mut printer, analyst);
    (status, printer.into_sink())
}

#[cfg(test)]
mod tests;
#[cfg(test)]
mod texts;
mod written;

pub use written::step_by_program;
