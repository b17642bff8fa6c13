//! The codes under which faults of scripts are printed.

ghost use Rattle.std.specs.Prelude.{◌≡◌};
ghost use Rattle.script_meaning.specs.Codes as spec;

use cosmos_session::Refusal;
use printed_lines::FaultCode;
use script_lang::ScriptFault;

/// The code of a line that is no command; lack of memory has none.
pub fn script_code(fault: ScriptFault) -> Option<FaultCode>
    ensures { result ≡ spec.script_code fault }
{
    match fault {
        ScriptFault::LineTooLong => Some(FaultCode::L1LineTooLong),
        ScriptFault::BadByte => Some(FaultCode::L2BadByte),
        ScriptFault::BadCommand => Some(FaultCode::S1BadCommand),
        ScriptFault::FewWords => Some(FaultCode::S2FewWords),
        ScriptFault::ManyWords => Some(FaultCode::S3ManyWords),
        ScriptFault::BadValue => Some(FaultCode::S4BadValue),
        ScriptFault::BadNumber => Some(FaultCode::S5BadNumber),
        ScriptFault::NoMemory => None,
    }
}

/// The code of a refused command.
pub fn refusal_code(refusal: Refusal) -> FaultCode
    ensures { result ≡ spec.refusal_code refusal }
{
    match refusal {
        Refusal::UnknownNode => FaultCode::E1UnknownNode,
        Refusal::NoSuchSwitch => FaultCode::E2NoSuchSwitch,
        Refusal::Rail => FaultCode::E3Rail,
        Refusal::BadStrength => FaultCode::E4BadStrength,
        Refusal::BadSize => FaultCode::E5BadSize,
        Refusal::TooManyNodes => FaultCode::E7TooManyNodes,
        Refusal::TooManySwitches => FaultCode::E8TooManySwitches,
        Refusal::NotInput => FaultCode::S6NotInput,
        Refusal::NotStore => FaultCode::S7NotStore,
        Refusal::ClockLength => FaultCode::S8ClockLength,
        Refusal::NoClock => FaultCode::S9NoClock,
        Refusal::TooManyWatched => FaultCode::S10TooManyWatched,
        Refusal::BadValue => FaultCode::S4BadValue,
        Refusal::NameTaken => FaultCode::S12NameTaken,
        Refusal::TooMany => FaultCode::S13TooMany,
        Refusal::VectorValue => FaultCode::S14VectorValue,
        Refusal::TooManySaves => FaultCode::S15TooManySaves,
        Refusal::NoSave => FaultCode::S16NoSave,
    }
}
