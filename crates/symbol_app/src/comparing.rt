//! The comparison of two netlists or decks by the run of a script under all valuations of its variables.

ghost use Rattle.std.specs.Prelude.{◌≡◌, ◌≢◌, ◌+◌, true, List, [], ◌∷◌, length, codes, IfErr, IfOk, IfSome};
ghost use Rattle.line_words.specs.Files as file;
ghost use Rattle.ports.specs.Taken.{TakesFiles};
ghost use Rattle.netlist.specs.Circuits.{IsCircuit};
ghost use Rattle.group_text.specs.Texts.{GroupTextData};
ghost use Rattle.circuit_files.specs.Starts.{StartsAtMost};
ghost use Rattle.circuit_files.specs.Wholes.{ReadsWhole};
ghost use Rattle.run_ends.specs.Ends.{IsUntouched};
ghost use Rattle.run_ends.specs.Stops.{faults_read, faults_written, IsRefusedOnce};
ghost use Rattle.symbol_meaning.specs.Scripts.{read_of, variables_of};
ghost use Rattle.symbol_reading.specs.Reading.{read_data};
ghost use Rattle.symbol_app.specs.Comparisons.{IsComparedBehind, IsComparedIn, IsComparedTo, RunsOutBehind, RunsOutComparing};
ghost use Rattle.cosmos_app.specs.Named.{circuit_named, IsCircuitRefusal};
ghost use Rattle.symbol_app.specs.InTurn.{read_in_turn, IsBehind, StartsInTurn};
ghost use Rattle.symbol_app.specs.Symbolic.{IsNever, IsToldInAll};

use crate::ends::{SymbolEnd, end_of_comparison};
use crate::other_net::OtherNet;
use crate::refusals::refuse_in_all;
use circuit_files::read_file;
use cosmos_app::{CircuitRefusal, read_named};
use group_analysis::Analyst;
use line_words::MOST_FILE_BYTES;
use netlist::Circuit;
use ports::{Files, Sink};
use run_ends::Stop;
use std::alloc::Global;
use symbol_reading::{ScriptRead, read_script};
use symbol_session::{SymbolSession, SymbolStart};
use table_keys::TableKeys;
use ternary::NoMemory;
use truth_makers::Symbols;

/// Compares the circuits of two netlists, each of which is a deck if its name is that of one, by the script of the third name,
/// under all valuations of its variables, and writes to the sink in which waveform lines they differ. It hands back the sink.
///
/// A netlist or a deck with a refused line has the line of that refusal in the place of the comparison, and no file behind it
/// is read. If one vertex more is wanted than there may be, what was written is a prefix of a right answer's text.
pub fn equiv<F: Files, S: Sink + Drop, A: Analyst>(
    alloc: Global,
    one: &str,
    other: &str,
    script: &str,
    files: &mut F,
    out: S,
    analyst: &mut A,
) -> (S, Result<SymbolEnd, Stop>)
    ensures answer { IfSome (F.holds files.old) (λ holds. IsComparedTo one.now other.now script.now holds
        (S.written out) (S.written result.0) (A.analysed analyst.old) (A.analysed analyst.new) result.1) }

    // The files are started in the order of the names, each behind a netlist or a deck only if that has no refusal. Of each
    // at most the first byte too many is read, and it is read to its end, or to that byte, before any other answer than a
    // fault or lack of memory.
    ensures started { StartsInTurn (one.now ∷ other.now ∷ []) script.now (F.holds files.old) (F.started files.old) (F.started files.new) }
    ensures taken { TakesFiles (F.taken files.old) (F.taken files.new) (MOST_FILE_BYTES + 1) }
    ensures whole { IfOk result.1 (λ _. IfSome (F.holds files.old) (λ holds.
        ReadsWhole (F.taken files.old) (F.taken files.new) holds (read_in_turn (one.now ∷ other.now ∷ []) script.now holds))) }

    // A count rises by one at the one call that fails, and nothing is called after it. If a file can't be read nothing was
    // written.
    ensures read { F.faults files.new ≡ faults_read (F.faults files.old) result.1 }
    ensures write { S.faults result.0 ≡ faults_written (S.faults out) result.1 }
    ensures refused { IsRefusedOnce (S.refusals out) (S.refusals result.0) result.1 }
    ensures untouched { IsUntouched (S.written out) (S.written result.0) result.1 }
{
    let mut refused = Vec::new(alloc);
    match read_named(alloc, files, one, &mut refused) {
        Ok(Ok(circuit)) => equiv_behind(alloc, circuit, other, script, files, out, analyst),
        Ok(Err(refusal)) => refuse_in_all(alloc, b"first net: ", refusal, &refused, out),
        Err(stop) => (out, Err(stop)),
    }
}

// Reads the second netlist or deck, and compares its circuit with that of the first.
fn equiv_behind<F: Files, S: Sink + Drop, A: Analyst>(
    alloc: Global,
    circuit: Circuit,
    other: &str,
    script: &str,
    files: &mut F,
    out: S,
    analyst: &mut A,
) -> (S, Result<SymbolEnd, Stop>)
    requires { IsCircuit circuit }
    ensures told { IfSome (F.holds files.old) (λ holds.
        IsToldInAll (IsComparedBehind (holds script.now) circuit (circuit_named other.now (holds other.now)))
        (RunsOutBehind (holds script.now) circuit (circuit_named other.now (holds other.now)))
        (S.written out) (S.written result.0) (A.analysed analyst.old) (A.analysed analyst.new) result.1) }
    ensures started { StartsInTurn (other.now ∷ []) script.now (F.holds files.old) (F.started files.old) (F.started files.new) }
    ensures taken { TakesFiles (F.taken files.old) (F.taken files.new) (MOST_FILE_BYTES + 1) }
    ensures whole { IfOk result.1 (λ _. IfSome (F.holds files.old) (λ holds.
        ReadsWhole (F.taken files.old) (F.taken files.new) holds (read_in_turn (other.now ∷ []) script.now holds))) }
    ensures read { F.faults files.new ≡ faults_read (F.faults files.old) result.1 }
    ensures write { S.faults result.0 ≡ faults_written (S.faults out) result.1 }
    ensures refused { IsRefusedOnce (S.refusals out) (S.refusals result.0) result.1 }
    ensures untouched { IsUntouched (S.written out) (S.written result.0) result.1 }
{
    let mut refused = Vec::new(alloc);
    match read_named(alloc, files, other, &mut refused) {
        Ok(Ok(second)) => equiv_file(alloc, circuit, second, script, files, out, analyst),
        Ok(Err(refusal)) => refuse_second(alloc, refusal, &refused, out),
        Err(stop) => (out, Err(stop)),
    }
}

// Writes the line of the refusal of the second netlist or deck. The note is on that file.
fn refuse_second<S: Sink + Drop>(
    alloc: Global,
    refusal: CircuitRefusal,
    line: &[u8],
    out: S,
) -> (S, Result<SymbolEnd, Stop>)
    ensures told { (asked : List GroupTextData) → IsToldInAll (IsBehind (codes "second net: ") (IsCircuitRefusal refusal)) IsNever
        (S.written out) (S.written result.0) asked asked result.1 }
    ensures no_read { IfErr result.1 (λ stop. stop ≢ Stop.Read) }
    ensures write { S.faults result.0 ≡ faults_written (S.faults out) result.1 }
    ensures refused { IsRefusedOnce (S.refusals out) (S.refusals result.0) result.1 }
{
    let out = OtherNet { sink: out };
    let (out, end) = refuse_in_all(alloc, b"second net: ", refusal, line, out);
    let OtherNet { sink } = out;
    (sink, end)
}

// Reads the script, and compares both circuits by it.
fn equiv_file<F: Files, S: Sink + Drop, A: Analyst>(
    alloc: Global,
    circuit: Circuit,
    second: Circuit,
    script: &str,
    files: &mut F,
    out: S,
    analyst: &mut A,
) -> (S, Result<SymbolEnd, Stop>)
    requires first { IsCircuit circuit }
    requires second { IsCircuit second }
    ensures told { IfSome (F.holds files.old) (λ holds.
        IsToldInAll (IsComparedIn (holds script.now) circuit second) (RunsOutComparing (holds script.now) circuit second)
        (S.written out) (S.written result.0) (A.analysed analyst.old) (A.analysed analyst.new) result.1) }
    ensures started { StartsAtMost (F.started files.old) (F.started files.new) script.now }
    ensures taken { TakesFiles (F.taken files.old) (F.taken files.new) (MOST_FILE_BYTES + 1) }
    ensures whole { IfOk result.1 (λ _. IfSome (F.holds files.old) (λ holds.
        ReadsWhole (F.taken files.old) (F.taken files.new) holds (script.now ∷ []))) }
    ensures read { F.faults files.new ≡ faults_read (F.faults files.old) result.1 }
    ensures write { S.faults result.0 ≡ faults_written (S.faults out) result.1 }
    ensures refused { IsRefusedOnce (S.refusals out) (S.refusals result.0) result.1 }
    ensures untouched { IsUntouched (S.written out) (S.written result.0) result.1 }
{
    match read_file(alloc, files, script) {
        Ok(text) => equiv_text(alloc, files.keys(), circuit, second, &text, out, analyst),
        Err(stop) => (out, Err(stop)),
    }
}

// Compares both circuits by the lines of a script. Tables of names are hashed from these keys.
fn equiv_text<S: Sink + Drop, A: Analyst>(
    alloc: Global,
    keys: TableKeys,
    circuit: Circuit,
    second: Circuit,
    text: &[u8],
    out: S,
    analyst: &mut A,
) -> (S, Result<SymbolEnd, Stop>)
    requires first { IsCircuit circuit }
    requires second { IsCircuit second }
    ensures told { IsToldInAll (IsComparedIn text.now circuit second) (RunsOutComparing text.now circuit second)
        (S.written out) (S.written result.0) (A.analysed analyst.old) (A.analysed analyst.new) result.1 }
    ensures no_read { IfErr result.1 (λ stop. stop ≢ Stop.Read) }
    ensures write { S.faults result.0 ≡ faults_written (S.faults out) result.1 }
    ensures refused { IsRefusedOnce (S.refusals out) (S.refusals result.0) result.1 }
{
    match read_script(alloc, keys, text, true) {
        Ok(read) => equiv_read(alloc, keys, circuit, second, text, &read, out, analyst),
        Err(NoMemory) => (out, Err(Stop::Memory)),
    }
}

// Compares both circuits by the lines of a script of which this was read before.
fn equiv_read<S: Sink + Drop, A: Analyst>(
    alloc: Global,
    keys: TableKeys,
    circuit: Circuit,
    second: Circuit,
    text: &[u8],
    read: &ScriptRead,
    out: S,
    analyst: &mut A,
) -> (S, Result<SymbolEnd, Stop>)
    requires read { read.now ≡ read_data true (file.cut_line text.now) (file.lines_in text.now) }
    ensures told { IsToldInAll (IsComparedIn text.now circuit second) (RunsOutComparing text.now circuit second)
        (S.written out) (S.written result.0) (A.analysed analyst.old) (A.analysed analyst.new) result.1 }
    ensures no_read { IfErr result.1 (λ stop. stop ≢ Stop.Read) }
    ensures write { S.faults result.0 ≡ faults_written (S.faults out) result.1 }
    ensures refused { IsRefusedOnce (S.refusals out) (S.refusals result.0) result.1 }
{
    match both_starts(alloc, keys, circuit, second, text, read) {
        Ok((symbols, one, other)) => {
            let (out, end) = symbol_equiv::equiv::<SymbolSession, _, _, _>(
                alloc,
                symbols,
                one,
                other,
                text,
                read.stop,
                read.variables.items(),
                out,
                analyst,
            );
            (out, end_of_comparison(read.bound, end))
        }
        Err(NoMemory) => (out, Err(Stop::Memory)),
    }
}

// A maker of functions of the script's variables, and what both sessions are started of besides.
fn both_starts(
    alloc: Global,
    keys: TableKeys,
    circuit: Circuit,
    second: Circuit,
    text: &[u8],
    read: &ScriptRead,
) -> Result<(Symbols, SymbolStart, SymbolStart), NoMemory>
    requires { read.now ≡ read_data true (file.cut_line text.now) (file.lines_in text.now) }
    ensures maker { IfOk result (λ made. made.0.graph.variables ≡ length (variables_of (read_of true (file.cut_line text.now) (file.lines_in text.now)))) }
    ensures first { IfOk result (λ made. made.1 ≡ record { circuit = circuit; text = text.now }) }
    ensures second { IfOk result (λ made. made.2 ≡ record { circuit = second; text = text.now }) }
{
    let variables = read.variables.items();
    let symbols = SymbolSession::maker(alloc, keys, variables.len(), read.bound)?;
    let one = SymbolStart::new(alloc, circuit, variables, text)?;
    let other = SymbolStart::new(alloc, second, variables, text)?;
    Ok((symbols, one, other))
}
