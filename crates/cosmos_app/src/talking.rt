//! A talk about a netlist or a deck.

ghost use Rattle.std.specs.Prelude.{◌≡◌, ◌≢◌, ◌+◌, IfErr, IfSome, OnOk};
ghost use Rattle.cosmos_app.specs.Words.{faults_after, TakesFiles, StartsAtMost, faults_written};
ghost use Rattle.cosmos_app.specs.Counts.{sink_count};
ghost use Rattle.cosmos_app.specs.Named.{IsCircuitRefusal};
ghost use Rattle.cosmos_app.specs.Talking.{HandsOn, HasReadOnce, IsTalk, IsTalkTo, ReadsOnce, SaysRefusal, SaysText, SaysWhole};

use crate::named::{CircuitRefusal, read_named, refuse_circuit};
use crate::noting::NotingSink;
use crate::top::end_status;
use column_stage::PlainStage;
use group_analysis::Analyst;
use line_words::MOST_FILE_BYTES;
use ports::{Files, PortFault};
use run_ends::{End, Status, Stop};
use std::alloc::Global;
use talk_port::Talk;
use talk_run::{Teller, talk_in};

/// Holds the talk about the netlist of this name, or the deck if the name is that of one.
///
/// A netlist or a deck with a refused line ends it before a line is heard, with the line of that refusal. Else a
/// session in the circuit answers each line when it is heard, until the end is heard or a line quits. After a fault of
/// reading, of a file or of a line, each line that was heard is answered; after a fault of writing, or lack of memory,
/// the last one perhaps in part.
pub fn talk<M: PlainStage, F: Files, T: Talk + Drop, A: Analyst + Drop>(
    alloc: Global,
    net: &str,
    files: &mut F,
    out: &mut Teller<T>,
    analyst: A,
) -> Status
    ensures answer { IfSome (F.holds files.old) (λ holds.
        IsTalkTo net.now holds (A.analysed analyst) out.old.spoken.talk out.new.spoken.talk result) }

    // Unless a fault or lack of memory stopped the talk, all that was said is handed on at its end. A count rises by one
    // at the one call that fails: that of the files, of the lines that could not be heard, or of what could not be said.
    ensures handed { HandsOn out.new.behind result }
    ensures read { HasReadOnce (F.faults files.old) (F.faults files.new) out.old.spoken.unheard out.new.spoken.unheard result }
    ensures write { out.new.faults ≡ sink_count out.old.faults result }

    // The file is started once at the most, and read to its end or to the first byte too many.
    ensures started { StartsAtMost (F.started files.old) (F.started files.new) net.now }
    ensures taken { TakesFiles (F.taken files.old) (F.taken files.new) (MOST_FILE_BYTES + 1) }
{
    end_status(hold::<M, _, _, _>(alloc, net, files, out, analyst))
}

// Reads the netlist or the deck, and holds the talk about it.
fn hold<M: PlainStage, F: Files, T: Talk + Drop, A: Analyst + Drop>(
    alloc: Global,
    net: &str,
    files: &mut F,
    out: &mut Teller<T>,
    analyst: A,
) -> Result<End, Stop>
    ensures told { IfSome (F.holds files.old) (λ holds.
        IsTalk net.now holds (A.analysed analyst) out.old.spoken.talk out.new.spoken.talk result) }
    ensures handed { OnOk result (out.new.behind ≡ 0) }
    ensures read { ReadsOnce (F.faults files.old) (F.faults files.new) out.old.spoken.unheard out.new.spoken.unheard result }
    ensures write { out.new.faults ≡ faults_written out.old.faults result }
    ensures started { StartsAtMost (F.started files.old) (F.started files.new) net.now }
    ensures taken { TakesFiles (F.taken files.old) (F.taken files.new) (MOST_FILE_BYTES + 1) }
{
    let mut refused = Vec::new(alloc);
    match read_named(alloc, files, net, &mut refused)? {
        Ok(circuit) => talk_in::<M, _, _>(alloc, circuit, analyst, out),
        Err(refusal) => say_refusal(alloc, refusal, &refused, out),
    }
}

// Says the line of the refusal of a netlist or a deck.
fn say_refusal<T: Talk + Drop>(
    alloc: Global,
    refusal: CircuitRefusal,
    line: &[u8],
    out: &mut Teller<T>,
) -> Result<End, Stop>
    ensures said { SaysRefusal (IsCircuitRefusal refusal) out.old.spoken.talk out.new.spoken.talk result }
    ensures no_read { IfErr result (λ stop. stop ≢ Stop.Read) }
    ensures handed { OnOk result (out.new.behind ≡ 0) }
    ensures hearing { out.new.spoken.unheard ≡ out.old.spoken.unheard }
    ensures write { out.new.faults ≡ faults_written out.old.faults result }
{
    let mut sink = NotingSink::new(alloc);
    match refuse_circuit(alloc, refusal, line, &mut sink) {
        Ok(end) => say_text(&sink, end, out),
        Err(stop) => Err(stop),
    }
}

// Says what was written to a sink, hands it on, notes what was noted there, and ends so.
fn say_text<T: Talk + Drop>(sink: &NotingSink, end: End, out: &mut Teller<T>) -> Result<End, Stop>
    ensures said { SaysText sink.now.written end out.old.spoken.talk out.new.spoken.talk result }
    ensures no_read { IfErr result (λ stop. stop ≢ Stop.Read) }
    ensures handed { OnOk result (out.new.behind ≡ 0) }
    ensures hearing { out.new.spoken.unheard ≡ out.old.spoken.unheard }
    ensures write { out.new.faults ≡ faults_written out.old.faults result }
{
    match say_whole(sink.written(), out) {
        Ok(()) => {
            sink.note_to(out);
            Ok(end)
        }
        Err(fault) => Err(Stop::of_write(fault)),
    }
}

// Says a text and hands it on.
fn say_whole<T: Talk + Drop>(text: &[u8], out: &mut Teller<T>) -> Result<(), PortFault>
    ensures said { SaysWhole text.now out.old.spoken.talk out.new.spoken.talk result }
    ensures handed { OnOk result (out.new.behind ≡ 0) }
    ensures hearing { out.new.spoken.unheard ≡ out.old.spoken.unheard }
    ensures cause { out.new.faults ≡ faults_after out.old.faults result }
{
    match out.say(text) {
        Ok(()) => out.hand_on(),
        Err(fault) => Err(fault),
    }
}
