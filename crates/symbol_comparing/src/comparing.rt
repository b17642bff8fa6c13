//! The comparison of two runs, line by line and word by word.
ghost use Rattle.std.specs.Prelude.{◌≡◌, ◌≢◌, ◌+◌, ◌<◌, ◌∷◌, [], drop, length, take, IfErr};
ghost use Rattle.decision_graph.specs.Graphs.{SameShape};
ghost use Rattle.decision_graph.specs.Vertices.{Extends};
ghost use Rattle.symbol_meaning.specs.Comparing.{by_words, AreCompared, AreComparedWords, IsComparedWord};
ghost use Rattle.symbol_meaning.specs.Readings.{Valuations};
ghost use Rattle.symbol_comparing.specs.Notes.{names_of, rails_in, shown_in, AreNoted};
ghost use Rattle.symbol_comparing.specs.Rails.{letters_in, rails_seen, AreRailsOf};
ghost use Rattle.symbol_comparing.specs.Told.{faults_compared, AreValuationsOf, Compares, RefusedCompared, StopsByFull, Tells};
ghost use Rattle.symbol_comparing.specs.Words.{DifferFirst};

use crate::fault::{CompareFault, fault_of_graph};
use crate::rails::{Rails, cut, letters};
use crate::words::first_difference;
use crate::workspace::Workspace;
use ports::Sink;
use printed_lines::LineBuf;
use run_ends::End;
use script_lang::Name;
use std::alloc::Global;
use symbol_told::{DifferenceShown, Notes, WaveNote};
use truth_makers::Symbols;

/// Compares what two runs show that were noted over this maker, by the names of its variables, and writes what is told of them,
/// by way of a buffer without bytes.
///
/// A line is written for each word of each waveform line whose letters differ under some valuation, in order, and last the
/// count. The sink is given back.
pub fn compare<S: Sink + Drop>(
    alloc: Global,
    symbols: &mut Symbols,
    variables: &[Name],
    first: &Notes,
    second: &Notes,
    buffer: LineBuf,
    sink: S,
) -> (S, Result<End, CompareFault>)
    requires noted { AreNoted symbols.old first.now second.now }
    requires empty { buffer.bytes ≡ [] }
    ensures told { (v : Valuations) → AreValuationsOf symbols.old v → Compares v variables.now
        (shown_in symbols.old first.now) (shown_in symbols.old second.now) (S.written sink) (S.written result.0) result.1 }
    ensures full { StopsByFull symbols.new result.1 }
    ensures write { S.faults result.0 ≡ faults_compared (S.faults sink) result.1 }
    ensures refused { RefusedCompared (S.refusals sink) (S.refusals result.0) result.1 }
{
    let mut workspace = Workspace::new(buffer, sink);
    let ended = compare_all(alloc, symbols, variables, first, second, &mut workspace);
    (workspace.into_sink(), ended)
}

// Compares all waveform lines, and writes the count.
#[tactic(auto, using(crate::proofs::FaultLemmas::not_full))]
fn compare_all<S: Sink + Drop>(
    alloc: Global,
    symbols: &mut Symbols,
    variables: &[Name],
    first: &Notes,
    second: &Notes,
    workspace: &mut Workspace<S>,
) -> Result<End, CompareFault>
    requires noted { AreNoted symbols.old first.now second.now }
    requires none { workspace.old.count ≡ 0 }
    ensures told { (v : Valuations) → AreValuationsOf symbols.old v → Compares v variables.now
        (shown_in symbols.old first.now) (shown_in symbols.old second.now) workspace.old.written workspace.new.written result }
    ensures full { StopsByFull symbols.new result }
    ensures write { workspace.new.faults ≡ faults_compared workspace.old.faults result }
    ensures refused { RefusedCompared workspace.old.refusals workspace.new.refusals result }
{
    compare_waves(alloc, symbols, variables, first, second, workspace)?;
    let waves = wave_count(first);
    workspace.end(waves)
}

// How many waveform lines there are.
fn wave_count(notes: &Notes) -> u64
    ensures { result ≡ length notes.now.waves }
{
    notes.waves().len() as u64
}

// Compares waveform line by waveform line.
fn compare_waves<S: Sink + Drop>(
    alloc: Global,
    symbols: &mut Symbols,
    variables: &[Name],
    first: &Notes,
    second: &Notes,
    workspace: &mut Workspace<S>,
) -> Result<(), CompareFault>
    requires noted { AreNoted symbols.old first.now second.now }
    ensures told { (v : Valuations) → AreValuationsOf symbols.old v → Tells
        (AreCompared v (shown_in symbols.old first.now) (shown_in symbols.old second.now) (length first.now.waves))
        variables.now workspace.old.written workspace.new.written workspace.old.count workspace.new.count result }
    ensures full { StopsByFull symbols.new result }
    ensures write { workspace.new.faults ≡ faults_compared workspace.old.faults result }
    ensures refused { RefusedCompared workspace.old.refusals workspace.new.refusals result }
{
    let mut left = rails_noted(first);
    let mut right = rails_noted(second);
    for k in 0..first.waves().len() {
        let wave = wave_at(first, k);
        let own = wave_at(second, k);
        let (left_here, left_rest) = cut(left, wave.nodes);
        let (right_here, right_rest) = cut(right, own.nodes);
        let words = front(first, wave.words);
        let others = front(second, own.words);
        compare_words(
            alloc, symbols, variables, wave.n, words, others, left_here, right_here, workspace,
        )?;
        left = left_rest;
        right = right_rest;
    }
    Ok(())
}

// The waveform line at a place.
#[tactic(auto, using(crate::proofs::StateLemmas::drop_there))]
fn wave_at(notes: &Notes, k: usize) -> WaveNote
    requires { k < length notes.now.waves }
    ensures { drop k notes.now.waves ≡ result ∷ drop (k + 1) notes.now.waves }
{
    notes.waves()[k]
}

// The rails of the nodes of all lines.
fn rails_noted(notes: &Notes) -> Rails<'_>
    ensures seen { rails_seen result ≡ rails_in notes.now }
    ensures alike { length notes.now.highs ≡ length notes.now.lows }
{
    Rails {
        highs: notes.highs(),
        lows: notes.lows(),
    }
}

// The first words, so many or all that there are.
#[tactic(auto, using(crate::proofs::StateLemmas::take_least))]
fn front(notes: &Notes, count: usize) -> &[(Name, usize)]
    ensures { result.now ≡ take count notes.now.words }
{
    let words = notes.words();
    &words[..count.min(words.len())]
}

// Compares the words of a waveform line, one after the other.
fn compare_words<S: Sink + Drop>(
    alloc: Global,
    symbols: &mut Symbols,
    variables: &[Name],
    line: u64,
    words: &[(Name, usize)],
    others: &[(Name, usize)],
    one: Rails<'_>,
    other: Rails<'_>,
    workspace: &mut Workspace<S>,
) -> Result<(), CompareFault>
    requires words { names_of words.now ≡ names_of others.now }
    requires one { AreRailsOf symbols.old (rails_seen one) }
    requires other { AreRailsOf symbols.old (rails_seen other) }
    ensures shape { SameShape symbols.old.graph symbols.new.graph }
    ensures extends { Extends symbols.old.graph.vertices symbols.new.graph.vertices }
    ensures told { (v : Valuations) → AreValuationsOf symbols.old v → Tells
        (AreComparedWords v line (λ column. by_words words.now (letters_in symbols.old (rails_seen one.entry) column))
        (λ column. by_words others.now (letters_in symbols.old (rails_seen other.entry) column)))
        variables.now workspace.old.written workspace.new.written workspace.old.count workspace.new.count result }
    ensures full { StopsByFull symbols.new result }
    ensures write { workspace.new.faults ≡ faults_compared workspace.old.faults result }
    ensures refused { RefusedCompared workspace.old.refusals workspace.new.refusals result }
{
    let mut left = one;
    let mut right = other;
    for j in 0..words.len() {
        let first = word_at(words, j);
        let second = word_at(others, j);
        let (left_here, left_rest) = cut(left, first.1);
        let (right_here, right_rest) = cut(right, second.1);
        compare_word(
            alloc, symbols, variables, line, first.0, left_here, right_here, workspace,
        )?;
        left = left_rest;
        right = right_rest;
    }
    Ok(())
}

// The word at a place, and how many nodes it stands for.
#[tactic(auto, using(crate::proofs::StateLemmas::drop_there))]
fn word_at(words: &[(Name, usize)], j: usize) -> (&[u8], usize)
    requires { j < length words.now }
    ensures { drop j words.now ≡ (result.0.now, result.1) ∷ drop (j + 1) words.now }
{
    let (word, nodes) = &words[j];
    (word.items(), *nodes)
}

// Compares a word.
#[tactic(auto, using(crate::proofs::FaultLemmas::graph_counts, crate::proofs::FaultLemmas::graph_refused, crate::proofs::FaultLemmas::graph_full, crate::proofs::FaultLemmas::not_full))]
fn compare_word<S: Sink + Drop>(
    alloc: Global,
    symbols: &mut Symbols,
    variables: &[Name],
    line: u64,
    word: &[u8],
    one: Rails<'_>,
    other: Rails<'_>,
    workspace: &mut Workspace<S>,
) -> Result<(), CompareFault>
    requires one { AreRailsOf symbols.old (rails_seen one) }
    requires other { AreRailsOf symbols.old (rails_seen other) }
    ensures shape { SameShape symbols.old.graph symbols.new.graph }
    ensures extends { Extends symbols.old.graph.vertices symbols.new.graph.vertices }
    ensures told { (v : Valuations) → AreValuationsOf symbols.old v → Tells
        (IsComparedWord v line word.now (letters_in symbols.old (rails_seen one.entry)) (letters_in symbols.old (rails_seen other.entry)))
        variables.now workspace.old.written workspace.new.written workspace.old.count workspace.new.count result }
    ensures full { StopsByFull symbols.new result }
    ensures write { workspace.new.faults ≡ faults_compared workspace.old.faults result }
    ensures refused { RefusedCompared workspace.old.refusals workspace.new.refusals result }
{
    match first_difference(alloc, symbols, one, other) {
        Ok(Some(vars)) => {
            tell_word(
                alloc, symbols, variables, line, word, one, other, &vars, workspace,
            )
        }
        Ok(None) => Ok(()),
        Err(fault) => Err(fault_of_graph(fault)),
    }
}

// Writes the line of a word whose letters differ first in the column of a valuation.
fn tell_word<S: Sink + Drop>(
    alloc: Global,
    symbols: &Symbols,
    variables: &[Name],
    line: u64,
    word: &[u8],
    one: Rails<'_>,
    other: Rails<'_>,
    vars: &[bool],
    workspace: &mut Workspace<S>,
) -> Result<(), CompareFault>
    requires one { AreRailsOf symbols.now (rails_seen one) }
    requires other { AreRailsOf symbols.now (rails_seen other) }
    requires differ { DifferFirst symbols.now (rails_seen one) (rails_seen other) vars.now }
    ensures told { (v : Valuations) → AreValuationsOf symbols.now v → Tells
        (IsComparedWord v line word.now (letters_in symbols.now (rails_seen one.entry)) (letters_in symbols.now (rails_seen other.entry)))
        variables.now workspace.old.written workspace.new.written workspace.old.count workspace.new.count result }
    ensures stopped { IfErr result (λ why. why ≢ CompareFault.Full) }
    ensures write { workspace.new.faults ≡ faults_compared workspace.old.faults result }
    ensures refused { RefusedCompared workspace.old.refusals workspace.new.refusals result }
{
    let first = letters(alloc, symbols, one, vars)?;
    let second = letters(alloc, symbols, other, vars)?;
    let own = DifferenceShown {
        line,
        word,
        one: &first,
        other: &second,
        truths: vars,
    };
    workspace.tell(variables, own)
}
