//! What the words of a command line ask for.

ghost use Rattle.std.specs.Prelude.{◌≡◌, ◌≤◌, IfSome};
ghost use Rattle.std.specs.Option.{option_map};
ghost use Rattle.command_line.specs.Requests as spec;
ghost use Rattle.command_line.specs.Samples as samples;
ghost use Rattle.command_line.specs.Columns as columns;

use crate::column_count::ColumnCount;
use crate::columns::columns_of;
use crate::decks::is_deck_name;
use crate::sample::Sample;
use help_texts::{page, topic, version};
use line_words::decimal;
use net_gen::{GenKind, GenPart, MOST_ROWS};

/// What words ask for.
#[derive(Clone, Copy)]
pub enum Request<'a> {
    /// A question about the netlist with this name.
    About {
        net: &'a str,
        question: Question<'a>,
    },
    /// A question about the deck with this name.
    OverDeck {
        deck: &'a str,
        question: Question<'a>,
    },
    /// What needs no file.
    Alone(Alone<'a>),
}

/// What words ask for that needs no file.
#[derive(Clone, Copy)]
pub enum Alone<'a> {
    /// A part of a sample.
    Generate { part: GenPart, sample: Sample },
    /// The run of a sample's script in its netlist's circuit, summed up.
    SumUp(Sample),
    /// A text, as it stands.
    Show(&'a str),
    /// Nothing that there is.
    Unclear,
}

/// What may be asked about a netlist, or about a deck.
#[derive(Clone, Copy)]
pub enum Question<'a> {
    /// The run of the script with this name in its circuit, for a purpose.
    Run {
        script: &'a str,
        purpose: Purpose<'a>,
    },
    /// The verdicts on the faults of the list with this name, beside the run of the script with that one.
    Judge {
        script: &'a str,
        list: &'a str,
    },
    /// What is told of its circuit alone.
    Report(Report),
}

/// What the lines of a script are run for.
#[derive(Clone, Copy)]
pub enum Purpose<'a> {
    /// What they write.
    Lines,
    /// What they write in so many columns of the circuit.
    Columns(ColumnCount),
    /// The reasons of the node with this name at their end.
    Reasons(&'a str),
    /// Which of 0 and 1 each node never had.
    Cover,
}

/// What is told of a circuit alone.
#[derive(Clone, Copy)]
pub enum Report {
    /// How many nodes, transistors and names it has.
    Check,
    /// Its channel-connected groups.
    Groups,
    /// Its listing.
    Compile,
    /// What it most likely has wrong.
    Lint,
}

/// What the words of a command line ask for: `sim NET SCRIPT`, `sim-spice DECK SCRIPT`, `check NET`, `groups NET`,
/// `compile NET`, `lint NET`, `gen PART KIND SEED N`, `large KIND SEED N`, `why NET SCRIPT NODE`,
/// `faults NET SCRIPT LIST`, `batch NET L SCRIPT`, `cover NET SCRIPT`, `help`, `help WORD` of a request or a command of a
/// script, and `version`, and nothing else. Under `lint` and `cover` NET is a deck if its name is that of one.
pub fn request_of(words: &[String]) -> Request<'_>
    ensures { spec.request_seen result ≡ spec.request_of (spec.names_of words.now) }
{
    if let [command] = words {
        by_one(command)
    } else if let [command, word] = words {
        by_two(command, word)
    } else if let [command, circuit, script] = words {
        simulation(command, circuit, script)
    } else if let [command, part, kind, seed, rows] = words {
        generation(command, part, kind, seed, rows)
    } else if let [command, first, second, third] = words {
        by_four(command, first, second, third)
    } else {
        Request::Alone(Alone::Unclear)
    }
}

// What one word asks for.
fn by_one<'a>(command: &str) -> Request<'a>
    ensures { spec.request_seen result ≡ spec.by_one command.now }
{
    if command == "help" {
        Request::Alone(Alone::Show(page()))
    } else if command == "version" {
        Request::Alone(Alone::Show(version()))
    } else {
        Request::Alone(Alone::Unclear)
    }
}

// What two words ask for.
fn by_two<'a>(command: &'a str, word: &'a str) -> Request<'a>
    ensures { spec.request_seen result ≡ spec.by_two command.now word.now }
{
    if command == "help" {
        shown(topic(word))
    } else if command == "lint" {
        over(word, Question::Report(Report::Lint))
    } else {
        about(word, question_of(command))
    }
}

// What three words ask for.
fn simulation<'a>(command: &str, circuit: &'a str, script: &'a str) -> Request<'a>
    ensures { spec.request_seen result ≡ spec.simulation command.now circuit.now script.now }
{
    if command == "sim" {
        run_for(circuit, script, Purpose::Lines)
    } else if command == "sim-spice" {
        simulation_over(circuit, script)
    } else if command == "cover" {
        coverage(circuit, script)
    } else {
        Request::Alone(Alone::Unclear)
    }
}

// What five words ask for.
fn generation<'a>(command: &str, part: &str, kind: &str, seed: &str, rows: &str) -> Request<'a>
    ensures { spec.request_seen result ≡ spec.generation command.now part.now kind.now seed.now rows.now }
{
    if command == "gen" {
        generate(part_of(part), sample_of(kind, seed, rows))
    } else {
        Request::Alone(Alone::Unclear)
    }
}

// What four words ask for, by the first.
fn by_four<'a>(command: &str, first: &'a str, second: &'a str, third: &'a str) -> Request<'a>
    ensures { spec.request_seen result ≡ spec.by_four command.now first.now second.now third.now }
{
    if command == "large" {
        sum_up(sample_of(first, second, third))
    } else if command == "why" {
        run_for(first, second, Purpose::Reasons(third))
    } else if command == "faults" {
        judgement(first, second, third)
    } else if command == "batch" {
        in_columns(first, columns_of(second), third)
    } else {
        Request::Alone(Alone::Unclear)
    }
}

// The run of a script over a deck.
fn simulation_over<'a>(deck: &'a str, script: &'a str) -> Request<'a>
    ensures { spec.request_seen result ≡ spec.OverDeck deck.now (spec.Simulate script.now) }
{
    let purpose = Purpose::Lines;
    let question = Question::Run { script, purpose };
    Request::OverDeck { deck, question }
}

// What a script covers, over a netlist or a deck.
fn coverage<'a>(net: &'a str, script: &'a str) -> Request<'a>
    ensures { spec.request_seen result ≡ spec.over net.now (spec.Cover script.now) }
{
    let purpose = Purpose::Cover;
    over(net, Question::Run { script, purpose })
}

// The question for the run of a script for a purpose.
fn run_for<'a>(net: &'a str, script: &'a str, purpose: Purpose<'a>) -> Request<'a>
    ensures { spec.request_seen result ≡ spec.About net.now (spec.run_seen purpose.entry script.now) }
{
    let question = Question::Run { script, purpose };
    Request::About { net, question }
}

// The question about the faults of a list.
fn judgement<'a>(net: &'a str, script: &'a str, list: &'a str) -> Request<'a>
    ensures { spec.request_seen result ≡ spec.About net.now (spec.Judge script.now list.now) }
{
    let question = Question::Judge { script, list };
    Request::About { net, question }
}

// The run of a script in columns, if it is told how many.
fn in_columns<'a>(net: &'a str, count: Option<ColumnCount>, script: &'a str) -> Request<'a>
    ensures { spec.request_seen result ≡ spec.in_columns net.now (option_map columns.columns_seen count) script.now }
{
    match count {
        Some(count) => run_for(net, script, Purpose::Columns(count)),
        None => Request::Alone(Alone::Unclear),
    }
}

// A sample's run summed up, where the words tell one.
fn sum_up<'a>(sample: Option<Sample>) -> Request<'a>
    ensures { spec.request_seen result ≡ spec.sum_up (option_map samples.sample_seen sample) }
{
    match sample {
        Some(sample) => Request::Alone(Alone::SumUp(sample)),
        None => Request::Alone(Alone::Unclear),
    }
}

// A text, if there is one.
fn shown<'a>(text: Option<&'a str>) -> Request<'a>
    ensures { spec.request_seen result ≡ spec.shown (option_map (λ text. text.now) text.entry) }
{
    match text {
        Some(text) => Request::Alone(Alone::Show(text)),
        None => Request::Alone(Alone::Unclear),
    }
}

// A question about a netlist, if there is one.
fn about<'a>(net: &'a str, question: Option<Question<'a>>) -> Request<'a>
    ensures { spec.request_seen result ≡ spec.about net.now (option_map spec.question_seen question.entry) }
{
    match question {
        Some(question) => Request::About { net, question },
        None => Request::Alone(Alone::Unclear),
    }
}

// A question about a deck, if the name is that of one, and else about a netlist.
fn over<'a>(net: &'a str, question: Question<'a>) -> Request<'a>
    ensures { spec.request_seen result ≡ spec.over net.now (spec.question_seen question.entry) }
{
    if is_deck_name(net) {
        Request::OverDeck {
            deck: net,
            question,
        }
    } else {
        Request::About { net, question }
    }
}

// A part of a sample, where the words tell both.
fn generate<'a>(part: Option<GenPart>, sample: Option<Sample>) -> Request<'a>
    ensures { spec.request_seen result ≡ spec.generate part (option_map samples.sample_seen sample) }
{
    match (part, sample) {
        (Some(part), Some(sample)) => Request::Alone(Alone::Generate { part, sample }),
        _ => Request::Alone(Alone::Unclear),
    }
}

// What a word alone asks about a netlist.
fn question_of(command: &str) -> Option<Question<'_>>
    ensures { option_map spec.question_seen result ≡ spec.question_of command.now }
{
    if command == "check" {
        Some(Question::Report(Report::Check))
    } else if command == "groups" {
        Some(Question::Report(Report::Groups))
    } else if command == "compile" {
        Some(Question::Report(Report::Compile))
    } else {
        None
    }
}

// The part of a sample that a word names.
fn part_of(word: &str) -> Option<GenPart>
    ensures { result ≡ samples.part_of word.now }
{
    if word == "net" {
        Some(GenPart::Net)
    } else if word == "script" {
        Some(GenPart::Script)
    } else {
        None
    }
}

// The sample that the words for its family, its seed and its number of rows tell.
fn sample_of(kind: &str, seed: &str, rows: &str) -> Option<Sample>
    ensures { option_map samples.sample_seen result ≡ samples.sample_of kind.now seed.now rows.now }
{
    let kind = kind_of(kind)?;
    let seed = decimal(seed.as_bytes())?;
    let rows = rows_of(rows)?;
    Some(Sample { kind, seed, rows })
}

// The family that a word names.
fn kind_of(word: &str) -> Option<GenKind>
    ensures { result ≡ samples.kind_of word.now }
{
    if word == "inverters" {
        Some(GenKind::Inverters)
    } else if word == "passes" {
        Some(GenKind::Passes)
    } else if word == "columns" {
        Some(GenKind::Columns)
    } else {
        None
    }
}

// The number of rows that a word writes.
fn rows_of(word: &str) -> Option<u64>
    ensures value { result ≡ samples.rows_of word.now }
    ensures some { IfSome result (λ rows. 1 ≤ rows) }
    ensures most { IfSome result (λ rows. rows ≤ MOST_ROWS) }
{
    let rows = decimal(word.as_bytes())?;
    if 1 <= rows && rows <= MOST_ROWS {
        Some(rows)
    } else {
        None
    }
}
