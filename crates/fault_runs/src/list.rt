//! Reading a list of faults.

ghost use Rattle.std.specs.Prelude.{◌≡◌, ◌++◌, All, IfOk, IfSome, OnOk};
ghost use Rattle.fault_sim.specs.Faults.{IsFault};
ghost use Rattle.fault_meaning.specs.Lists as spec;

use fault_meaning::{ListRefusal, ListedFault};
use fault_sim::{Fault, ListFault, read_fault};
use line_words::{Line, cut_line, front, lines};
use netlist::Circuit;
use printed_lines::FaultCode;
use script_lang::ItemList;
use std::alloc::Global;
use ternary::NoMemory;

/// The faults of a list, which contracts see as a list.
pub(crate) type FaultList = ItemList<ListedFault>;

/// Reads a list of faults in the circuit at the start: its faults in order, or its first refused line.
pub(crate) fn read_list(
    alloc: Global,
    circuit: &Circuit,
    text: &[u8],
) -> Result<Result<FaultList, ListRefusal>, NoMemory>
    ensures value { IfOk result (λ read. spec.faults_in circuit.now text.now ≡ read) }
    ensures faults { IfOk result (λ read. IfOk read (All (λ listed. IsFault circuit.now listed.fault))) }
{
    let cut = cut_line(text);
    let mut faults = FaultList::new(alloc);
    for line in lines(front(text)) {
        match read_line(circuit, cut, line) {
            Ok(found) => add_found(&mut faults, line.number, found)?,
            Err(code) => {
                return Ok(Err(ListRefusal {
                    line: line.number,
                    code,
                }));
            }
        }
    }
    Ok(Ok(faults))
}

// Adds what the line with this number names.
fn add_found(faults: &mut FaultList, line: u64, found: Option<Fault>) -> Result<(), NoMemory>
    ensures { OnOk result (faults.new ≡ faults.old ++ spec.faults_at line found) }
{
    let Some(fault) = found else {
        return Ok(());
    };
    faults.push(ListedFault { line, fault })
}

// Reads one line; the one that holds the first byte too many of the list is refused.
fn read_line(
    circuit: &Circuit,
    cut: Option<u64>,
    line: Line<'_>,
) -> Result<Option<Fault>, FaultCode>
    ensures value { result ≡ spec.listed_at circuit.now cut (line.entry.number, line.entry.bytes.now) }
    ensures fault { IfOk result (λ found. IfSome found (IsFault circuit.now)) }
{
    if cut == Some(line.number) {
        return Err(FaultCode::F2TooLong);
    }
    match read_fault(circuit, line.bytes) {
        Ok(found) => Ok(found),
        Err(fault) => Err(list_code(fault)),
    }
}

// The code of a refused line.
fn list_code(fault: ListFault) -> FaultCode
    ensures { result ≡ spec.list_code fault }
{
    match fault {
        ListFault::LineTooLong => FaultCode::L1LineTooLong,
        ListFault::BadByte => FaultCode::L2BadByte,
        ListFault::BadFault => FaultCode::F1BadFault,
        ListFault::NoSuchSwitch => FaultCode::E2NoSuchSwitch,
        ListFault::UnknownNode => FaultCode::E1UnknownNode,
        ListFault::Rail => FaultCode::E3Rail,
    }
}
