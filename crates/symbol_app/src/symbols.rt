//! The run of a script under all valuations of its variables, over a netlist or a deck.

ghost use Rattle.std.specs.Prelude.{◌≡◌, ◌≢◌, ℕ, ◌+◌, ◌<◌, false, [], ◌∷◌, IfErr, IfOk, IfSome};
ghost use Rattle.line_words.specs.Files as file;
ghost use Rattle.ports.specs.Taken.{TakesFiles};
ghost use Rattle.netlist.specs.Circuits.{CircuitData, IsCircuit};
ghost use Rattle.circuit_files.specs.Starts.{StartsAtMost};
ghost use Rattle.circuit_files.specs.Wholes.{ReadsWhole};
ghost use Rattle.run_ends.specs.Ends.{IsUntouched};
ghost use Rattle.run_ends.specs.Stops.{faults_read, faults_written, IsRefusedOnce};
ghost use Rattle.session_meaning.specs.Sessions.{start_of};
ghost use Rattle.symbol_meaning.specs.Readings.{valuations_of};
ghost use Rattle.symbol_meaning.specs.Scripts.{before_stop, read_of, stop_of};
ghost use Rattle.symbol_reading.specs.Reading.{read_data};
ghost use Rattle.symbol_session.specs.Sessions.{ServesLines, data_of, valuations_by};
ghost use Rattle.symbol_app.specs.InTurn.{read_in_turn, StartsInTurn};
ghost use Rattle.symbol_app.specs.Symbolic.{IsBrokenAtStart, IsSymbolic, IsSymbolicTo, IsToldInAll, RunsOutAt};

use crate::ends::{SymbolEnd, end_of_run};
use crate::refusals::refuse_in_all;
use circuit_files::read_file;
use cosmos_app::read_named;
use group_analysis::Analyst;
use line_words::MOST_FILE_BYTES;
use netlist::Circuit;
use ports::{Files, Sink};
use printed_lines::LineBuf;
use run_ends::Stop;
use std::alloc::Global;
use symbol_outcomes::symbolic_scripts_have_answers;
use symbol_reading::{ScriptRead, read_script};
use symbol_run::{LineSession, SymbolFault, run_script};
use symbol_session::SymbolSession;
use symbol_told::SymbolPrinter;
use table_keys::TableKeys;
use ternary::NoMemory;

/// Runs the script of this name under all valuations of its variables, in the circuit of the netlist of the other name, or of
/// the deck if that is the name of one, and writes to the sink what the lines tell of all valuations together. It hands back
/// the sink.
///
/// A netlist or a deck with a refused line has the line of that refusal in the place of the run, and the script isn't read. If
/// one vertex more is wanted than there may be, what was written is a prefix of a right answer's text.
pub fn symbolic<F: Files, S: Sink + Drop, A: Analyst>(
    alloc: Global,
    net: &str,
    script: &str,
    files: &mut F,
    out: S,
    analyst: &mut A,
) -> (S, Result<SymbolEnd, Stop>)
    ensures answer { IfSome (F.holds files.old) (λ holds. IsSymbolicTo net.now script.now holds
        (S.written out) (S.written result.0) (A.analysed analyst.old) (A.analysed analyst.new) result.1) }

    // The files are started in the order of the names, the script only if the netlist or the deck has no refusal. Of each
    // at most the first byte too many is read, and it is read to its end, or to that byte, before any other answer than a
    // fault or lack of memory.
    ensures started { StartsInTurn (net.now ∷ []) script.now (F.holds files.old) (F.started files.old) (F.started files.new) }
    ensures taken { TakesFiles (F.taken files.old) (F.taken files.new) (MOST_FILE_BYTES + 1) }
    ensures whole { IfOk result.1 (λ _. IfSome (F.holds files.old) (λ holds.
        ReadsWhole (F.taken files.old) (F.taken files.new) holds (read_in_turn (net.now ∷ []) script.now holds))) }

    // A count rises by one at the one call that fails, and nothing is called after it. If a file can't be read nothing was
    // written.
    ensures read { F.faults files.new ≡ faults_read (F.faults files.old) result.1 }
    ensures write { S.faults result.0 ≡ faults_written (S.faults out) result.1 }
    ensures refused { IsRefusedOnce (S.refusals out) (S.refusals result.0) result.1 }
    ensures untouched { IsUntouched (S.written out) (S.written result.0) result.1 }
{
    let mut refused = Vec::new(alloc);
    match read_named(alloc, files, net, &mut refused) {
        Ok(Ok(circuit)) => symbolic_file(alloc, circuit, script, files, out, analyst),
        Ok(Err(refusal)) => refuse_in_all(alloc, b"", refusal, &refused, out),
        Err(stop) => (out, Err(stop)),
    }
}

// Reads the script, and runs it in the circuit.
fn symbolic_file<F: Files, S: Sink + Drop, A: Analyst>(
    alloc: Global,
    circuit: Circuit,
    script: &str,
    files: &mut F,
    out: S,
    analyst: &mut A,
) -> (S, Result<SymbolEnd, Stop>)
    requires { IsCircuit circuit }
    ensures told { IfSome (F.holds files.old) (λ holds.
        IsToldInAll (IsSymbolic (holds script.now) circuit) (RunsOutAt (holds script.now) circuit)
        (S.written out) (S.written result.0) (A.analysed analyst.old) (A.analysed analyst.new) result.1) }
    ensures started { StartsAtMost (F.started files.old) (F.started files.new) script.now }
    ensures taken { TakesFiles (F.taken files.old) (F.taken files.new) (MOST_FILE_BYTES + 1) }
    ensures whole { IfOk result.1 (λ _. IfSome (F.holds files.old) (λ holds.
        ReadsWhole (F.taken files.old) (F.taken files.new) holds (script.now ∷ []))) }
    ensures read { F.faults files.new ≡ faults_read (F.faults files.old) result.1 }
    ensures write { S.faults result.0 ≡ faults_written (S.faults out) result.1 }
    ensures refused { IsRefusedOnce (S.refusals out) (S.refusals result.0) result.1 }
    ensures untouched { IsUntouched (S.written out) (S.written result.0) result.1 }
{
    match read_file(alloc, files, script) {
        Ok(text) => symbolic_text(alloc, files.keys(), circuit, &text, out, analyst),
        Err(stop) => (out, Err(stop)),
    }
}

// Runs the lines of a script from the start in the circuit, under all valuations of its variables. Tables of names are hashed
// from these keys.
fn symbolic_text<S: Sink + Drop, A: Analyst>(
    alloc: Global,
    keys: TableKeys,
    circuit: Circuit,
    text: &[u8],
    out: S,
    analyst: &mut A,
) -> (S, Result<SymbolEnd, Stop>)
    requires { IsCircuit circuit }
    ensures told { IsToldInAll (IsSymbolic text.now circuit) (RunsOutAt text.now circuit)
        (S.written out) (S.written result.0) (A.analysed analyst.old) (A.analysed analyst.new) result.1 }
    ensures no_read { IfErr result.1 (λ stop. stop ≢ Stop.Read) }
    ensures write { S.faults result.0 ≡ faults_written (S.faults out) result.1 }
    ensures refused { IsRefusedOnce (S.refusals out) (S.refusals result.0) result.1 }
{
    match read_script(alloc, keys, text, false) {
        Ok(read) => symbolic_read(alloc, keys, circuit, text, read, out, analyst),
        Err(NoMemory) => (out, Err(Stop::Memory)),
    }
}

// Runs the lines of a script of which this was read before.
fn symbolic_read<S: Sink + Drop, A: Analyst>(
    alloc: Global,
    keys: TableKeys,
    circuit: Circuit,
    text: &[u8],
    read: ScriptRead,
    out: S,
    analyst: &mut A,
) -> (S, Result<SymbolEnd, Stop>)
    requires circuit { IsCircuit circuit }
    requires read { read ≡ read_data false (file.cut_line text.now) (file.lines_in text.now) }
    ensures told { IsToldInAll (IsSymbolic text.now circuit) (RunsOutAt text.now circuit)
        (S.written out) (S.written result.0) (A.analysed analyst.old) (A.analysed analyst.new) result.1 }
    ensures no_read { IfErr result.1 (λ stop. stop ≢ Stop.Read) }
    ensures write { S.faults result.0 ≡ faults_written (S.faults out) result.1 }
    ensures refused { IsRefusedOnce (S.refusals out) (S.refusals result.0) result.1 }
{
    match session_at_start(alloc, keys, circuit, &read, text) {
        Ok(session) => run_session(alloc, session, text, read, out, analyst),
        Err(fault) => (out, end_of_run(read.bound, Err(fault))),
    }
}

// The session of a script, at its start in the circuit. If it is broken off, an answer is there that a run of it may have had.
fn session_at_start(
    alloc: Global,
    keys: TableKeys,
    circuit: Circuit,
    read: &ScriptRead,
    text: &[u8],
) -> Result<SymbolSession, SymbolFault>
    requires circuit { IsCircuit circuit }
    requires read { read.now ≡ read_data false (file.cut_line text.now) (file.lines_in text.now) }
    ensures telling { IfOk result (λ session. session.quiet ≡ false) }
    ensures valuations { IfOk result (λ session.
        valuations_by session ≡ valuations_of (read_of false (file.cut_line text.now) (file.lines_in text.now))) }
    ensures starts { IfOk result (λ session. (column : ℕ) → column < (valuations_by session).columns → data_of session column ≡ start_of circuit) }
    ensures serves { IfOk result (λ session. ServesLines session (file.cut_line text.now)
        (before_stop (stop_of false (file.cut_line text.now) (file.lines_in text.now)) (file.lines_in text.now))) }
    ensures broken { IfErr result (IsBrokenAtStart text.now circuit) }
    ensures unwritten { IfErr result (λ fault. fault ≢ SymbolFault.Stopped Stop.Write) }
{
    // a law, for the proof alone
    symbolic_scripts_have_answers();
    let variables = read.variables.items();
    match SymbolSession::maker(alloc, keys, variables.len(), read.bound) {
        Ok(symbols) => SymbolSession::start(alloc, circuit, symbols, variables, text, false),
        Err(NoMemory) => Err(SymbolFault::Stopped(Stop::Memory)),
    }
}

// Runs the lines of a script of which this was read before, by a session that is at its start.
fn run_session<M: LineSession + Drop, S: Sink + Drop, A: Analyst>(
    alloc: Global,
    session: M,
    text: &[u8],
    read: ScriptRead,
    out: S,
    analyst: &mut A,
) -> (S, Result<SymbolEnd, Stop>)
    requires read { read ≡ read_data false (file.cut_line text.now) (file.lines_in text.now) }
    requires telling { M.quiet session ≡ false }
    requires valuations { M.valuations session ≡ valuations_of (read_of false (file.cut_line text.now) (file.lines_in text.now)) }
    requires serves { M.serves session (file.cut_line text.now)
        (before_stop (stop_of false (file.cut_line text.now) (file.lines_in text.now)) (file.lines_in text.now)) }
    ensures told { (circuit : CircuitData) → ((column : ℕ) → column < (M.valuations session).columns → M.sessions session column ≡ start_of circuit) →
        IsToldInAll (IsSymbolic text.now circuit) (RunsOutAt text.now circuit)
        (S.written out) (S.written result.0) (A.analysed analyst.old) (A.analysed analyst.new) result.1 }
    ensures no_read { IfErr result.1 (λ stop. stop ≢ Stop.Read) }
    ensures write { S.faults result.0 ≡ faults_written (S.faults out) result.1 }
    ensures refused { IsRefusedOnce (S.refusals out) (S.refusals result.0) result.1 }
{
    let ScriptRead {
        variables,
        bound,
        stop,
    } = read;
    match LineBuf::new(alloc, 0) {
        Ok(line) => {
            let mut session = session;
            let mut page = SymbolPrinter::new(line, variables, out);
            let end = run_script(alloc, &mut session, text, stop, &mut page, analyst);
            (page.into_sink(), end_of_run(bound, end))
        }
        Err(NoMemory) => (out, Err(Stop::Memory)),
    }
}
