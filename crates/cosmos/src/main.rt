//! The program: a switch-level simulator for MOS circuits.
//!
//! `cosmos sim NET SCRIPT` reads the netlist and the script of these names and obeys the script in
//! the netlist's circuit, writing a line for each step and each phase, and for each expectation that
//! isn't met; `cosmos sim-spice DECK SCRIPT` does the same in the circuit of a SPICE deck.
//! `cosmos batch NET L SCRIPT` obeys it in L columns at once, which differ in the script's letters, and
//! writes their lines row by row.
//! `cosmos check NET` reads the netlist and writes how many nodes, transistors and names it
//! has; `cosmos groups NET` writes its channel-connected groups, `cosmos compile NET` a listing of
//! it, and `cosmos lint NET` what it most often has wrong, of a netlist or a deck. `cosmos gen PART KIND SEED N` reads nothing and writes a generated netlist or script, and
//! `cosmos large KIND SEED N` one line that sums up the run of both. `cosmos why NET SCRIPT NODE` runs
//! the script, whose lines aren't written, and writes why the node may be 1 and why it may be 0 at its
//! end. `cosmos cover NET SCRIPT` runs the script so too, and writes which of 0 and 1 each node never had.
//! `cosmos vcd NET SCRIPT` does what `sim` does on a netlist or a deck, and writes a value change dump.
//! `cosmos symbolic NET SCRIPT` runs a script with bits left open on a netlist or a deck, under all valuations at once, and
//! `cosmos equiv NET1 NET2 SCRIPT` compares two of them by such a run.
//! `cosmos faults NET SCRIPT LIST` runs the script under each fault of a list and writes whether it
//! shows. `cosmos talk NET` reads the netlist or the deck, and then obeys lines as they come from standard input, each
//! answered before the next one is read. `cosmos help` writes a page on all requests and commands, `cosmos help WORD`
//! what the request or the command WORD does, and `cosmos version` the program's version. All other words are answered
//! by the usage line.
//!
//! The exit status is that of `cosmos_app::run`, whose contract says what is written: 0 where all went
//! well, 1 where an expectation wasn't met or there is a finding, 2 for words that are no command line and for
//! a NODE that isn't in use, 3 and 4 for a refused line of the netlist or the deck, or of the script or the
//! list, 5 and 6 where reading or writing failed, 7 for lack of memory, and 8 if a run under all valuations wants one vertex more
//! than there may be. For 2 standard error has the forms
//! of all requests, or a line if it is NODE that isn't in use; for 3 and 4 a line with the file's name, the
//! number of the refused line, its code and the cure, as `help_texts` has it; for 5, 6, 7 and 8 a line that says
//! more. Under `talk` it has the cure of each refused line too, if standard input is a terminal. No clause speaks of
//! standard error.
//!
//! `answer_over` makes that call, over any opener of files, a printer to any outlet and any stage that moves the state, and
//! has its clauses for all of them; `main` hands it the files of the system, a printer to standard output and the machine.
//! `talk_over` does so for a talk, over any port of one, and `dump_over`, `symbolic_over` and `equiv_over` for a dump, a run under
//! all valuations and a comparison, over any outlet.
//!
//! ```text
//! cosmos sim inverter.sim inverter.cmd
//! cosmos check inverter.sim
//! ```
#![tactic(auto)]

ghost use Rattle.std.specs.Prelude.{◌≡◌, [], ◌∷◌, Some, IfSome};
ghost use Rattle.command_line.specs.Requests.{Simulate, names_of, over, request_of};
ghost use Rattle.run_ends.specs.Stops.{faults_read, faults_written};
ghost use Rattle.cosmos_app.specs.Answers.{IsAnswered};
ghost use Rattle.symbol_app.specs.Comparisons.{IsComparedTo};
ghost use Rattle.cosmos_app.specs.Counts.{files_count, sink_count};
ghost use Rattle.cosmos_app.specs.Dumping.{IsDumpTo};
ghost use Rattle.symbol_app.specs.InTurn.{StartsInTurn};
ghost use Rattle.cosmos_app.specs.Starts.{RequestStarts};
ghost use Rattle.symbol_app.specs.Symbolic.{IsSymbolicTo};
ghost use Rattle.cosmos_app.specs.Talking.{HandsOn, HasReadOnce, IsTalkTo};

use column_stage::PlainStage;
use command_line::{dump_names, equiv_names, symbolic_names, talk_net};
use cosmos_app::{Status, Stop, dump, run, talk};
use group_analysis::Analyst;
use machine_stage::MachineStage;
use node_elimination::SymbolicAnalyst;
use ports::{FilesOver, Open, Outlet, SinkOver, real_files, real_outlet};
use standard_error::{Told, tell_full, tell_start, tell_stop};
use std::alloc::Global;
use std::hash::RandomState;
use std::process::ExitCode;
use std::{env, io};
use symbol_app::{SymbolEnd, equiv, symbol_status, symbolic};
use table_keys::TableKeys;
use talk_port::{RealTalk, StdWriter, Talk, real_talk};
use talk_run::Teller;
use told_lines::Printer;

fn main(rt: HostRuntime) -> ExitCode {
    ExitCode::from(status(&rt).code())
}

// What the words of the command line come to. Words that aren't UTF-8 are no command line.
fn status(rt: &HostRuntime) -> Status {
    match words(rt) {
        Ok(words) => answer_drawn(rt, &words),
        Err(error) if error.kind() == io::ErrorKind::InvalidData => answer_drawn(rt, &[]),
        Err(error) => {
            tell_start(rt, "words of the command line", error);
            Status::NoMemory
        }
    }
}

// The words after the program's name.
fn words(rt: &HostRuntime) -> io::Result<Vec<String>> {
    let words = env::args(rt)?.skip(1).collect(rt.alloc())?;
    Ok(words)
}

// Answers the words, with tables that are hashed from keys that the system draws.
fn answer_drawn(rt: &HostRuntime, words: &[String]) -> Status {
    match RandomState::new(rt) {
        Ok(random) => answer(rt, words, TableKeys::drawn(random)),
        Err(error) => {
            tell_start(rt, "keys of the tables", error);
            Status::NoMemory
        }
    }
}

// Answers the words over the files of the system and the standard output, and says on standard error why a run
// stopped: of a file that can't be read the name that was started last.
fn answer(rt: &HostRuntime, words: &[String], keys: TableKeys) -> Status {
    if let Some(net) = talk_net(words) {
        return answer_talk(rt, words, net, keys);
    }
    if let Some((net, script)) = dump_names(words) {
        return answer_dump(rt, words, net, script, keys);
    }
    if let Some((net, script)) = symbolic_names(words) {
        return answer_symbolic(rt, words, net, script, keys);
    }
    if let Some((one, other, script)) = equiv_names(words) {
        return answer_equiv(rt, words, one, other, script, keys);
    }
    let sink = SinkOver::new(Told::over(real_outlet(rt), rt, words));
    let Ok(mut out) = Printer::new(rt.alloc(), sink, false) else {
        tell_stop(rt, words, Status::NoMemory, None, None, None);
        return Status::NoMemory;
    };
    let mut files = real_files(rt, keys);
    let mut analyst = SymbolicAnalyst::with_keys(rt.alloc(), keys);
    let status = answer_over::<MachineStage, _, _, _>(
        rt.alloc(),
        words,
        &mut files,
        &mut out,
        &mut analyst,
    );
    let sink = out.into_sink();
    sink.outlet().finish();
    let (of_file, of_output) = (files.reason(), sink.reason());
    tell_stop(rt, words, status, files.name(), of_file, of_output);
    status
}

// Writes the dump of a script's run over the files of the system and the standard output, and says on standard error why
// it stopped.
fn answer_dump(
    rt: &HostRuntime,
    words: &[String],
    net: &str,
    script: &str,
    keys: TableKeys,
) -> Status {
    let sink = SinkOver::new(Told::over(real_outlet(rt), rt, words));
    let mut files = real_files(rt, keys);
    let mut analyst = SymbolicAnalyst::with_keys(rt.alloc(), keys);
    let (sink, status) = dump_over::<MachineStage, _, _, _>(
        rt.alloc(),
        net,
        script,
        &mut files,
        sink,
        &mut analyst,
    );
    sink.outlet().finish();
    let (of_file, of_output) = (files.reason(), sink.reason());
    tell_stop(rt, words, status, files.name(), of_file, of_output);
    status
}

// Runs a script under all valuations over the files of the system and the standard output, and says on standard error why it
// stopped.
fn answer_symbolic(
    rt: &HostRuntime,
    words: &[String],
    net: &str,
    script: &str,
    keys: TableKeys,
) -> Status {
    let sink = SinkOver::new(Told::over(real_outlet(rt), rt, words));
    let mut files = real_files(rt, keys);
    let mut analyst = SymbolicAnalyst::with_keys(rt.alloc(), keys);
    let (sink, end) = symbolic_over(rt.alloc(), net, script, &mut files, sink, &mut analyst);
    sink.outlet().finish();
    let (of_file, of_output) = (files.reason(), sink.reason());
    tell_end(rt, words, end, files.name(), of_file, of_output)
}

// Compares two netlists or decks over the files of the system and the standard output, and says on standard error why it
// stopped.
fn answer_equiv(
    rt: &HostRuntime,
    words: &[String],
    one: &str,
    other: &str,
    script: &str,
    keys: TableKeys,
) -> Status {
    let sink = SinkOver::new(Told::over(real_outlet(rt), rt, words));
    let mut files = real_files(rt, keys);
    let mut analyst = SymbolicAnalyst::with_keys(rt.alloc(), keys);
    let (sink, end) = equiv_over(
        rt.alloc(),
        one,
        other,
        script,
        &mut files,
        sink,
        &mut analyst,
    );
    sink.outlet().finish();
    let (of_file, of_output) = (files.reason(), sink.reason());
    tell_end(rt, words, end, files.name(), of_file, of_output)
}

// Tells why a run under all valuations stopped, as `tell_stop` does, or that vertices ran out. Its status is handed back.
fn tell_end(
    rt: &HostRuntime,
    words: &[String],
    end: Result<SymbolEnd, Stop>,
    file: Option<&str>,
    of_file: Option<io::Error>,
    of_output: Option<io::Error>,
) -> Status {
    if let Ok(SymbolEnd::Full { vertices, line }) = end {
        tell_full(rt, vertices, line);
    }
    let status = symbol_status(end);
    tell_stop(rt, words, status, file, of_file, of_output);
    status
}

// Holds the talk about a netlist or a deck over the files of the system, standard input and standard output, and says on
// standard error why it stopped.
fn answer_talk(rt: &HostRuntime, words: &[String], net: &str, keys: TableKeys) -> Status {
    let Some(mut out) = real_teller(rt, words) else {
        tell_stop(rt, words, Status::NoMemory, None, None, None);
        return Status::NoMemory;
    };
    let mut files = real_files(rt, keys);
    let analyst = SymbolicAnalyst::with_keys(rt.alloc(), keys);
    let status = talk_over::<MachineStage, _, _, _>(rt.alloc(), net, &mut files, &mut out, analyst);
    let of_talk = out.into_port().reason();
    if files.reason().is_some() || of_talk.is_none() {
        tell_stop(rt, words, status, files.name(), files.reason(), None);
    } else {
        tell_stop(rt, words, status, Some("standard input"), of_talk, of_talk);
    }
    status
}

// A talk over standard input and standard output, whose notes are told.
type ToldTalk<'r, 'w> = RealTalk<'r, Told<'r, 'w, StdWriter<io::Printer<'r, HostRuntime>>>>;

// A teller over standard input and standard output, in a run with these words, if there is memory for it.
fn real_teller<'r, 'w>(
    rt: &'r HostRuntime,
    words: &'w [String],
) -> Option<Teller<ToldTalk<'r, 'w>>> {
    let outlet = Told::over(StdWriter::new(io::writer(rt)), rt, words);
    let port = real_talk(rt, outlet).ok()?;
    Teller::new(rt.alloc(), port).ok()
}

// Answers the words over the files of an opener and a printer to an outlet.
fn answer_over<M: PlainStage, O: Open + Drop, W: Outlet + Drop, A: Analyst>(
    alloc: Global,
    words: &[String],
    files: &mut FilesOver<O>,
    out: &mut Printer<SinkOver<W>>,
    analyst: &mut A,
) -> Status
    ensures answer { IfSome (O.holds files.old.opener) (λ holds. IsAnswered (names_of words.now) holds
        out.old.page.written out.new.page.written (A.analysed analyst.old) (A.analysed analyst.new) result) }
    ensures started { RequestStarts (request_of (names_of words.now))
        (O.holds files.old.opener) (Some files.old.started) (Some files.new.started) }
    ensures read { files.new.faults ≡ files_count files.old.faults result }
    ensures write { out.new.faults ≡ sink_count out.old.faults result }
{
    run::<M, _, _, _>(alloc, words, files, out, analyst)
}

// Writes the dump of a script's run over the files of an opener and any outlet.
fn dump_over<M: PlainStage, O: Open + Drop, T: Outlet + Drop, A: Analyst>(
    alloc: Global,
    net: &str,
    script: &str,
    files: &mut FilesOver<O>,
    out: SinkOver<T>,
    analyst: &mut A,
) -> (SinkOver<T>, Status)
    ensures answer { IfSome (O.holds files.old.opener) (λ holds. IsDumpTo net.now script.now holds
        out.contents result.0.contents (A.analysed analyst.old) (A.analysed analyst.new) result.1) }
    ensures started { RequestStarts (over net.now (Simulate script.now))
        (O.holds files.old.opener) (Some files.old.started) (Some files.new.started) }
    ensures read { files.new.faults ≡ files_count files.old.faults result.1 }
    ensures write { result.0.faults ≡ sink_count out.faults result.1 }
{
    dump::<M, _, _, _>(alloc, net, script, files, out, analyst)
}

// Runs a script under all valuations over the files of an opener and any outlet.
fn symbolic_over<O: Open + Drop, T: Outlet + Drop, A: Analyst>(
    alloc: Global,
    net: &str,
    script: &str,
    files: &mut FilesOver<O>,
    out: SinkOver<T>,
    analyst: &mut A,
) -> (SinkOver<T>, Result<SymbolEnd, Stop>)
    ensures answer { IfSome (O.holds files.old.opener) (λ holds. IsSymbolicTo net.now script.now holds
        out.contents result.0.contents (A.analysed analyst.old) (A.analysed analyst.new) result.1) }
    ensures started { StartsInTurn (net.now ∷ []) script.now
        (O.holds files.old.opener) (Some files.old.started) (Some files.new.started) }
    ensures read { files.new.faults ≡ faults_read files.old.faults result.1 }
    ensures write { result.0.faults ≡ faults_written out.faults result.1 }
{
    symbolic(alloc, net, script, files, out, analyst)
}

// Compares two netlists or decks over the files of an opener and any outlet.
fn equiv_over<O: Open + Drop, T: Outlet + Drop, A: Analyst>(
    alloc: Global,
    one: &str,
    other: &str,
    script: &str,
    files: &mut FilesOver<O>,
    out: SinkOver<T>,
    analyst: &mut A,
) -> (SinkOver<T>, Result<SymbolEnd, Stop>)
    ensures answer { IfSome (O.holds files.old.opener) (λ holds. IsComparedTo one.now other.now script.now holds
        out.contents result.0.contents (A.analysed analyst.old) (A.analysed analyst.new) result.1) }
    ensures started { StartsInTurn (one.now ∷ other.now ∷ []) script.now
        (O.holds files.old.opener) (Some files.old.started) (Some files.new.started) }
    ensures read { files.new.faults ≡ faults_read files.old.faults result.1 }
    ensures write { result.0.faults ≡ faults_written out.faults result.1 }
{
    equiv(alloc, one, other, script, files, out, analyst)
}

// Holds the talk about a netlist or a deck over the files of an opener and the port of any talk.
fn talk_over<M: PlainStage, O: Open + Drop, T: Talk + Drop, A: Analyst + Drop>(
    alloc: Global,
    net: &str,
    files: &mut FilesOver<O>,
    out: &mut Teller<T>,
    analyst: A,
) -> Status
    ensures answer { IfSome (O.holds files.old.opener) (λ holds.
        IsTalkTo net.now holds (A.analysed analyst) out.old.spoken.talk out.new.spoken.talk result) }
    ensures handed { HandsOn out.new.behind result }
    ensures read { HasReadOnce files.old.faults files.new.faults out.old.spoken.unheard out.new.spoken.unheard result }
    ensures write { out.new.faults ≡ sink_count out.old.faults result }
{
    talk::<M, _, _, _>(alloc, net, files, out, analyst)
}
