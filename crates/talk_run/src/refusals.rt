//! The line of a refusal in a talk.
ghost use Rattle.std.specs.Prelude.{◌≡◌, []};
ghost use Rattle.talk_run.specs.Words.{faults_after, fault_line_of, Tries};
ghost use Rattle.printed_lines.specs.declared.faults.FaultPlace.TheVariants.{Heard};

use crate::teller::Teller;
use column_stage::PlainStage;
use cosmos_session::Session;
use ports::PortFault;
use printed_lines::{COLUMN_ROOM, FAULT_LINE_ROOM, FaultCode, FaultPlace};
use refusal_words::script_word;
use script_run::note_line;
use std::alloc::Global;
use strength_order::INPUT_LEVEL;
use talk_port::Talk;
use told_lines::{Line, Lines};

/// Says the refusal of the line with this number under a code that names no group, and notes its cure with this word.
pub(crate) fn refuse<T: Talk + Drop>(
    alloc: Global,
    number: u64,
    code: FaultCode,
    word: &[u8],
    out: &mut Teller<T>,
) -> Result<(), PortFault>
    ensures said { Tries (fault_line_of (Heard number) code [] 0) out.old.spoken.talk out.new.spoken.talk result }
    ensures hearing { out.new.spoken.unheard ≡ out.old.spoken.unheard }
    ensures faults { out.new.faults ≡ faults_after out.old.faults result }
{
    refuse_named(alloc, number, code, b"", 0, word, out)
}

/// Says the refusal of the line with this number, with a name and a count, and notes its cure with this word.
pub(crate) fn refuse_named<T: Talk + Drop>(
    alloc: Global,
    number: u64,
    code: FaultCode,
    name: &[u8],
    count: u64,
    word: &[u8],
    out: &mut Teller<T>,
) -> Result<(), PortFault>
    ensures said { Tries (fault_line_of (Heard number) code name.now count) out.old.spoken.talk out.new.spoken.talk result }
    ensures hearing { out.new.spoken.unheard ≡ out.old.spoken.unheard }
    ensures faults { out.new.faults ≡ faults_after out.old.faults result }
{
    let told = tell_named(number, code, name, count, out);
    if told.is_ok() {
        note_line(alloc, number, code, word, out);
    }
    told
}

// Says the line of a refusal, with a name and a count.
fn tell_named<T: Talk + Drop>(
    number: u64,
    code: FaultCode,
    name: &[u8],
    count: u64,
    out: &mut Teller<T>,
) -> Result<(), PortFault>
    ensures said { Tries (fault_line_of (Heard number) code name.now count) out.old.spoken.talk out.new.spoken.talk result }
    ensures hearing { out.new.spoken.unheard ≡ out.old.spoken.unheard }
    ensures faults { out.new.faults ≡ faults_after out.old.faults result }
{
    let room = COLUMN_ROOM + (FAULT_LINE_ROOM + name.len());
    let Ok(()) = out.reserve(room) else {
        return Err(PortFault::NoMemory);
    };
    let place = FaultPlace::Heard(number);
    out.tell(
        0,
        Line::Refused {
            place,
            code,
            name,
            count,
        },
    )
}

/// The word that the refusal of a line is about: of a cycle with a clock on a storage node the name of that node, which
/// an earlier line has.
pub(crate) fn word_of<'a, M: PlainStage>(
    code: FaultCode,
    bytes: &'a [u8],
    session: &'a Session<M>,
) -> &'a [u8] {
    let word = script_word(code, bytes, 1, session.circuit(), session.vectors(), 1);
    if word.is_empty() && code == FaultCode::S6NotInput {
        storage_clock(session)
    } else {
        word
    }
}

// The name of the first storage node with a clock, and no bytes if there is none.
fn storage_clock<M: PlainStage>(session: &Session<M>) -> &[u8] {
    let circuit = session.circuit();
    for clock in session.clocks() {
        let node = clock.node;
        if node < circuit.graph().nodes() && circuit.graph().level(node) != INPUT_LEVEL {
            return circuit.name_of(node);
        }
    }
    b""
}
