//! The codes under which faults of netlists are printed.

ghost use Rattle.std.specs.Prelude.{◌≡◌};
ghost use Rattle.circuit_reports.specs.Codes as spec;

use printed_lines::FaultCode;
use sim_read::NetWhat;

/// The code of a refused line of a netlist.
pub fn net_code(what: NetWhat) -> FaultCode
    ensures { result ≡ spec.net_code what }
{
    match what {
        NetWhat::LineTooLong => FaultCode::L1LineTooLong,
        NetWhat::BadByte => FaultCode::L2BadByte,
        NetWhat::BadRecord => FaultCode::N1BadRecord,
        NetWhat::FewWords => FaultCode::N2FewWords,
        NetWhat::Format => FaultCode::N3Format,
        NetWhat::BadCaps => FaultCode::N5BadCaps,
        NetWhat::TooLong => FaultCode::N4TooLong,
        NetWhat::BadStrength => FaultCode::E4BadStrength,
        NetWhat::BadSize => FaultCode::E5BadSize,
        NetWhat::AliasTaken => FaultCode::E6AliasTaken,
        NetWhat::TooManyNodes => FaultCode::E7TooManyNodes,
        NetWhat::TooManySwitches => FaultCode::E8TooManySwitches,
    }
}
