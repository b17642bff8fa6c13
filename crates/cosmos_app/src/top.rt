//! The top call.

ghost use Rattle.std.specs.Prelude.{◌≡◌, ◌≢◌, ◌+◌, ℕ, List, [], ◌∷◌, IfSome, IfOk, IfErr};
ghost use Rattle.cosmos_app.specs.Words.{TakesFiles, IsCircuit, HasVisibleNames, alone_seen, names_of, question_seen, faults_read};
ghost use Rattle.cosmos_app.specs.Words.{faults_written, IsRefusedOnce, ReadsWhole, StartsAtMost, IsToldBy, IsUntouched, status_after};
ghost use Rattle.command_line.specs.Requests as spec;
ghost use Rattle.cosmos_app.specs.Answers.{IsAnswer, IsAnswered, IsAnswerIn, IsAnswerTo, IsSimulation};
ghost use Rattle.cosmos_app.specs.Named.{circuit_by, IsOverEither};
ghost use Rattle.cosmos_app.specs.Purposes.{IsRunFor};
ghost use Rattle.cosmos_app.specs.Counts.{files_count, sink_count, HasRefused};
ghost use Rattle.cosmos_app.specs.Wholes.{files_of, needed, scripts_of, ReadsAll};
ghost use Rattle.cosmos_app.specs.Starts.{QuestionStarts, RequestStarts, ScriptStarts};

use crate::columns::run_columns;
use crate::faults::judge_list;
use crate::named::{read_by, refuse_circuit};
use crate::reports::report_on;
use circuit_files::read_file;
use circuit_reports::{refuse_words, show_text, write_part};
use column_stage::PlainStage;
use command_line::{Alone, Purpose, Question, Request, request_of};
use cosmos_session::Session;
use group_analysis::Analyst;
use line_words::MOST_FILE_BYTES;
use netlist::Circuit;
use ports::{Files, Sink};
use run_ends::{End, Status, Stop};
use script_reports::{cover_script, explain, sum_up};
use script_run::run_lines;
use std::alloc::Global;
use table_keys::TableKeys;
use told_lines::Printer;

/// Answers the words of a command line, which are those after the program's name.
///
/// `sim NET SCRIPT` reads the netlist and the script of these names and runs the script's lines in
/// order, writing a waveform line for each step and each phase, a line for each expectation that isn't
/// met and one for each report; the analyst makes code of each text of a group that a command needs and
/// that isn't kept. `sim-spice DECK SCRIPT` does the same in the circuit of the SPICE deck of that name.
/// `batch NET L SCRIPT` does so in L columns at once, a decimal from 1 to 64, which differ in the letters of
/// the script, and writes the columns' lines row by row.
/// `check NET` reads the netlist and writes how many nodes, transistors and names it has;
/// `groups NET` writes a line for each of its channel-connected groups; `compile NET` has the analyst
/// make code of each text of a group that the circuit has, once, and writes a listing of the circuit,
/// or the line of its first group that is too large. `lint NET` writes a line for each finding in the circuit and one
/// with their numbers; if NET's name is that of a deck, by `is_deck_name`, it is read as one. `gen PART KIND SEED N` writes the netlist or the
/// script, by PART `net` or `script`, that `net_gen::generate` makes of the family KIND, `inverters`,
/// `passes` or `columns`, from the seed SEED, a decimal within 64 bits, with N rows, a decimal from 1 to
/// 10,000; it reads no file. `large KIND SEED N` makes both texts, runs the script in the netlist's circuit
/// as `sim` does, and writes one line that sums the run up: how many nodes and transistors the circuit has,
/// and of the waveform lines how many there are, the sum of their steps, how many have the mark, and how
/// many values are 0, 1 and X; an expectation that isn't met counts for nothing. `why NET SCRIPT NODE` runs the
/// script as `sim` does, whose lines aren't written, and writes two lines for the node of the name NODE in the
/// circuit and the state at the script's end: a strongest reason why it may be 1, or that there is none, and
/// the same of 0. A name that isn't in use then is refused with the status of the usage line. `cover NET SCRIPT` runs the
/// script so too, in the circuit of a netlist or a deck, and writes a line for each node but the rails that lacks 0 or 1,
/// with what it never had in any state behind a line, a unit step or the placing of a cycle's letters, and the counts.
/// `faults NET SCRIPT LIST` reads the netlist, the script and the list of faults, runs the script as `sim` does,
/// and then once more under each fault of the list, and writes a line with the verdict on each fault and one
/// that counts the verdicts; the first refused line of the list, or else of the script in the run without a
/// fault, ends it before, with the line of that refusal. `help` writes the page of help, `help WORD` the text of
/// the topic WORD, a request or a command of a script, and `version` the version's line, as `help_texts` has
/// them; they read no file. All other words are answered by the usage line.
///
/// A netlist, a deck or a script with a refused line ends the run with the line of that refusal. A file is
/// read to its end, or to the first byte too many, before any refusal of it is answered. After a call
/// of a port that fails none follows: after a fault of reading nothing was written, and after a fault
/// of writing, or lack of memory, what was written is a prefix of the text that the words have.
///
/// What is noted of a refusal besides, for a human, is no part of what is written, and no clause says what it is.
///
/// The lines of a script are told to the printer, which writes them to its sink, each after the number of its column
/// under `batch` alone. All other texts are written to that sink as they are.
///
/// Tables whose entries come from the files are hashed with the keys that the files have.
pub fn run<M: PlainStage, F: Files, S: Sink + Drop, A: Analyst>(
    alloc: Global,
    words: &[String],
    files: &mut F,
    out: &mut Printer<S>,
    analyst: &mut A,
) -> Status
    ensures answer { IfSome (F.holds files.old) (λ holds. IsAnswered (names_of words.now) holds
        out.old.page.written out.new.page.written (A.analysed analyst.old) (A.analysed analyst.new) result) }

    // The files are started in the order of the words, the script only if the netlist or the deck has
    // no refusal.
    ensures started { RequestStarts
        (spec.request_of (names_of words.now))
        (F.holds files.old) (F.started files.old) (F.started files.new) }

    // Of each started file at most the first byte too many is read, and each file that the request needs is
    // read to its end, or to that byte, before any other answer than a fault or lack of memory.
    ensures taken { TakesFiles (F.taken files.old) (F.taken files.new) (MOST_FILE_BYTES + 1) }
    ensures whole { IfSome (F.holds files.old) (λ holds. ReadsAll (F.taken files.old) (F.taken files.new)
        holds (spec.request_of (names_of words.now)) result) }

    // A count rises by one at the one call that fails, and nothing is called after it.
    ensures read { F.faults files.new ≡ files_count (F.faults files.old) result }
    ensures write { out.new.faults ≡ sink_count out.old.faults result }
    ensures refused { HasRefused out.old.refusals out.new.refusals result }

    // Where a file can't be read nothing was written.
    ensures untouched { result ≡ Status.ReadFault → out.new ≡ out.old }
{
    end_status(answer::<M, _, _, _>(alloc, words, files, out, analyst))
}

/// The status that a run ends with.
pub fn end_status(end: Result<End, Stop>) -> Status
    ensures { result ≡ status_after end }
{
    match end {
        Ok(End::Done) => Status::Done,
        Ok(End::Mismatch) => Status::Mismatch,
        Ok(End::Usage) => Status::Usage,
        Ok(End::NetRefused) => Status::NetRefused,
        Ok(End::ScriptRefused) => Status::ScriptRefused,
        Err(Stop::Read) => Status::ReadFault,
        Err(Stop::Write) => Status::WriteFault,
        Err(Stop::Memory) => Status::NoMemory,
    }
}

// Answers the words.
fn answer<M: PlainStage, F: Files, S: Sink + Drop, A: Analyst>(
    alloc: Global,
    words: &[String],
    files: &mut F,
    out: &mut Printer<S>,
    analyst: &mut A,
) -> Result<End, Stop>
    ensures told { IfSome (F.holds files.old) (λ holds. IsToldBy (IsAnswer (names_of words.now) holds)
        out.old.page.written out.new.page.written (A.analysed analyst.old) (A.analysed analyst.new) result) }
    ensures started { RequestStarts
        (spec.request_of (names_of words.now))
        (F.holds files.old) (F.started files.old) (F.started files.new) }
    ensures taken { TakesFiles (F.taken files.old) (F.taken files.new) (MOST_FILE_BYTES + 1) }
    ensures whole { IfOk result (λ _. IfSome (F.holds files.old) (λ holds.
        ReadsWhole (F.taken files.old) (F.taken files.new) holds (files_of (spec.request_of (names_of words.now)) holds))) }
    ensures read { F.faults files.new ≡ faults_read (F.faults files.old) result }
    ensures write { out.new.faults ≡ faults_written out.old.faults result }
    ensures refused { IsRefusedOnce out.old.refusals out.new.refusals result }
    ensures untouched { IsUntouched out.old out.new result }
{
    match request_of(words) {
        Request::About { net, question } => {
            answer_over::<M, _, _, _>(alloc, false, net, question, files, out, analyst)
        }
        Request::OverDeck { deck, question } => {
            answer_over::<M, _, _, _>(alloc, true, deck, question, files, out, analyst)
        }
        Request::Alone(alone) => answer_alone::<M, _, _>(alloc, files.keys(), alone, out, analyst),
    }
}

// Answers what needs no file.
fn answer_alone<M: PlainStage, S: Sink + Drop, A: Analyst>(
    alloc: Global,
    keys: TableKeys,
    alone: Alone<'_>,
    out: &mut Printer<S>,
    analyst: &mut A,
) -> Result<End, Stop>
    ensures told { (holds : List ℕ → List ℕ) → IsToldBy (IsAnswerTo (alone_seen alone.entry) holds)
        out.old.page.written out.new.page.written (A.analysed analyst.old) (A.analysed analyst.new) result }
    ensures no_read { IfErr result (λ stop. stop ≢ Stop.Read) }
    ensures write { out.new.faults ≡ faults_written out.old.faults result }
    ensures refused { IsRefusedOnce out.old.refusals out.new.refusals result }
{
    match alone {
        Alone::Generate { part, sample } => write_part(alloc, part, sample, out),
        Alone::SumUp(sample) => sum_up::<M, _, _>(alloc, keys, sample, out, analyst),
        Alone::Show(text) => show_text(text, out),
        Alone::Unclear => refuse_words(out),
    }
}

// Reads the deck of this name, or else the netlist, and answers the question in its circuit.
#[tactic(auto, using(run_ends::proofs::EndLemmas::read_none, run_ends::proofs::EndLemmas::untouched_none))]
fn answer_over<M: PlainStage, F: Files, S: Sink + Drop, A: Analyst>(
    alloc: Global,
    deck: bool,
    name: &str,
    question: Question<'_>,
    files: &mut F,
    out: &mut Printer<S>,
    analyst: &mut A,
) -> Result<End, Stop>
    ensures told { IfSome (F.holds files.old) (λ holds. IsToldBy
        (IsOverEither (IsAnswerIn (question_seen question.entry) holds) (circuit_by deck (holds name.now)))
        out.old.page.written out.new.page.written (A.analysed analyst.old) (A.analysed analyst.new) result) }
    ensures started { QuestionStarts
        (circuit_by deck) name.now (question_seen question.entry)
        (F.holds files.old) (F.started files.old) (F.started files.new) }
    ensures taken { TakesFiles (F.taken files.old) (F.taken files.new) (MOST_FILE_BYTES + 1) }
    ensures whole { IfOk result (λ _. IfSome (F.holds files.old) (λ holds.
        ReadsWhole (F.taken files.old) (F.taken files.new) holds
        (needed (question_seen question.entry) name.now (circuit_by deck (holds name.now))))) }
    ensures read { F.faults files.new ≡ faults_read (F.faults files.old) result }
    ensures write { out.new.faults ≡ faults_written out.old.faults result }
    ensures refused { IsRefusedOnce out.old.refusals out.new.refusals result }
    ensures untouched { IsUntouched out.old out.new result }
{
    let mut refused = Vec::new(alloc);
    match read_by(alloc, files, deck, name, &mut refused)? {
        Ok(circuit) => answer_in::<M, _, _, _>(alloc, circuit, question, files, out, analyst),
        Err(refusal) => refuse_circuit(alloc, refusal, &refused, out),
    }
}

// Answers a question about a circuit.
fn answer_in<M: PlainStage, F: Files, S: Sink + Drop, A: Analyst>(
    alloc: Global,
    circuit: Circuit,
    question: Question<'_>,
    files: &mut F,
    out: &mut Printer<S>,
    analyst: &mut A,
) -> Result<End, Stop>
    requires circuit { IsCircuit circuit }
    requires visible { HasVisibleNames circuit }
    ensures told { IfSome (F.holds files.old) (λ holds. IsToldBy
        (IsAnswerIn (question_seen question.entry) holds circuit)
        out.old.page.written out.new.page.written (A.analysed analyst.old) (A.analysed analyst.new) result) }
    ensures started { ScriptStarts
        (question_seen question.entry) (F.started files.old) (F.started files.new) }
    ensures taken { TakesFiles (F.taken files.old) (F.taken files.new) (MOST_FILE_BYTES + 1) }
    ensures whole { IfOk result (λ _. IfSome (F.holds files.old) (λ holds.
        ReadsWhole (F.taken files.old) (F.taken files.new) holds (scripts_of (question_seen question.entry)))) }
    ensures read { F.faults files.new ≡ faults_read (F.faults files.old) result }
    ensures write { out.new.faults ≡ faults_written out.old.faults result }
    ensures refused { IsRefusedOnce out.old.refusals out.new.refusals result }
    ensures untouched { IsUntouched out.old out.new result }
{
    match question {
        Question::Run { script, purpose } => {
            run_script::<M, _, _, _>(alloc, circuit, script, purpose, files, out, analyst)
        }
        Question::Judge { script, list } => {
            judge_list::<_, _, _>(alloc, circuit, script, list, files, out, analyst)
        }
        Question::Report(report) => {
            report_on(alloc, files.keys(), &circuit, report, out, analyst)
        }
    }
}

// Reads the script and runs it in the circuit, for a purpose.
#[tactic(auto, using(run_ends::proofs::EndLemmas::read_none, run_ends::proofs::EndLemmas::untouched_none))]
fn run_script<M: PlainStage, F: Files, S: Sink + Drop, A: Analyst>(
    alloc: Global,
    circuit: Circuit,
    script: &str,
    purpose: Purpose<'_>,
    files: &mut F,
    out: &mut Printer<S>,
    analyst: &mut A,
) -> Result<End, Stop>
    requires { IsCircuit circuit }
    ensures told { IfSome (F.holds files.old) (λ holds. IsToldBy (IsRunFor purpose.entry (holds script.now) circuit)
        out.old.page.written out.new.page.written (A.analysed analyst.old) (A.analysed analyst.new) result) }
    ensures started { StartsAtMost (F.started files.old) (F.started files.new) script.now }
    ensures taken { TakesFiles (F.taken files.old) (F.taken files.new) (MOST_FILE_BYTES + 1) }
    ensures whole { IfOk result (λ _. IfSome (F.holds files.old) (λ holds.
        ReadsWhole (F.taken files.old) (F.taken files.new) holds (script.now ∷ []))) }
    ensures read { F.faults files.new ≡ faults_read (F.faults files.old) result }
    ensures write { out.new.faults ≡ faults_written out.old.faults result }
    ensures refused { IsRefusedOnce out.old.refusals out.new.refusals result }
    ensures untouched { IsUntouched out.old out.new result }
{
    let text = read_file(alloc, files, script)?;
    run_text::<M, _, _>(alloc, circuit, &text, purpose, out, analyst)
}

// Runs the lines of a script from the start in the circuit, for a purpose.
fn run_text<M: PlainStage, S: Sink + Drop, A: Analyst>(
    alloc: Global,
    circuit: Circuit,
    text: &[u8],
    purpose: Purpose<'_>,
    out: &mut Printer<S>,
    analyst: &mut A,
) -> Result<End, Stop>
    requires { IsCircuit circuit }
    ensures told { IsToldBy (IsRunFor purpose.entry text.now circuit)
        out.old.page.written out.new.page.written (A.analysed analyst.old) (A.analysed analyst.new) result }
    ensures no_read { IfErr result (λ stop. stop ≢ Stop.Read) }
    ensures write { out.new.faults ≡ faults_written out.old.faults result }
    ensures refused { IsRefusedOnce out.old.refusals out.new.refusals result }
{
    match purpose {
        Purpose::Lines => simulate::<M, _, _>(alloc, circuit, text, out, analyst),
        Purpose::Columns(columns) => run_columns(alloc, circuit, columns, text, out, analyst),
        Purpose::Reasons(node) => explain::<M, _, _>(alloc, circuit, text, node, out, analyst),
        Purpose::Cover => cover_script::<M, _, _>(alloc, circuit, text, out, analyst),
    }
}

// Runs the lines of a script from the start in the circuit.
fn simulate<M: PlainStage, S: Sink + Drop, A: Analyst>(
    alloc: Global,
    circuit: Circuit,
    text: &[u8],
    out: &mut Printer<S>,
    analyst: &mut A,
) -> Result<End, Stop>
    requires { IsCircuit circuit }
    ensures told { IsToldBy (IsSimulation text.now circuit)
        out.old.page.written out.new.page.written (A.analysed analyst.old) (A.analysed analyst.new) result }
    ensures no_read { IfErr result (λ stop. stop ≢ Stop.Read) }
    ensures write { out.new.faults ≡ faults_written out.old.faults result }
    ensures refused { IsRefusedOnce out.old.refusals out.new.refusals result }
{
    let mut session = Session::<M>::new(alloc, circuit)?;
    out.set_numbered(false);
    run_lines(alloc, &mut session, text, out, analyst)
}
