//! What becomes of a line, by what its command answers.

ghost use Rattle.std.specs.Prelude.{◌≡◌};
ghost use Rattle.symbol_session.specs.Turns as spec;

use circuit_texts::BuildFault;
use decision_graph::GraphFault;
use run_ends::Stop;
use script_meaning::Turn;
use script_run::refusal_code;
use session_meaning::ApplyFault;
use symbol_run::SymbolFault;

/// What becomes of a line by what its command answers.
pub(crate) fn turn_of(ended: Result<(), ApplyFault>) -> Result<Turn, SymbolFault>
    ensures { result ≡ spec.turn_of ended }
{
    match ended {
        Ok(()) => Ok(Turn::Accepted),
        Err(ApplyFault::Refused(refusal)) => Ok(Turn::Refused(refusal_code(refusal))),
        Err(ApplyFault::GroupNodes { node, count }) => {
            Ok(Turn::TooLarge(BuildFault::GroupNodes { node, count }))
        }
        Err(ApplyFault::GroupSwitches { node, count }) => {
            Ok(Turn::TooLarge(BuildFault::GroupSwitches { node, count }))
        }
        Err(ApplyFault::WriteFault) => Err(SymbolFault::Stopped(Stop::Write)),
        Err(ApplyFault::NoMemory) => Err(SymbolFault::Stopped(Stop::Memory)),
    }
}

/// What becomes of a line whose command moves the states, behind its build.
pub(crate) fn turn_moved(moved: Result<(), SymbolFault>) -> Result<Turn, SymbolFault>
    ensures { result ≡ spec.turn_moved moved }
{
    match moved {
        Ok(()) => Ok(Turn::Accepted),
        Err(fault) => Err(fault),
    }
}

/// What a fault of the graph ends with, at the line with this number.
pub(crate) fn fault_at(number: u64, fault: GraphFault) -> SymbolFault
    ensures { result ≡ spec.fault_at number fault }
{
    match fault {
        GraphFault::Full => SymbolFault::Full(number),
        GraphFault::NoMemory => SymbolFault::Stopped(Stop::Memory),
    }
}

/// What lack of memory ends with.
pub(crate) fn want() -> SymbolFault
    ensures { result ≡ spec.want }
{
    SymbolFault::Stopped(Stop::Memory)
}
