//! The expansion of a deck's parts.

ghost use Rattle.std.specs.Prelude.{◌≡◌, length, IfOk, IfErr, OnOk, Ok, Err, MatchResult};
ghost use Rattle.ternary.specs.Unmade.{IsFault};
ghost use Rattle.spice_read.specs.Frames.{scope_of};
ghost use Rattle.spice_read.specs.Making.{after, step_meaning};
ghost use Rattle.spice_read.specs.Scopes as scopes;
ghost use Rattle.spice_read.specs.Steps as spec;

use crate::frame::Frame;
use crate::making::Made;
use crate::names::{kind_of, nodes_of, strength_number, subcircuit_named};
use spice_cards::{DeckFault, DeckRefusal, DeckWhat, PartSort, Parts, Strength, Subcircuit, Words};
use ternary::Unmade;

/// The most calls that are open inside one another.
pub const MOST_OPEN: usize = 32;

/// The most calls of a deck, each counted where it stands in the expansion.
pub const MOST_CALLS: u64 = 1_000_000;

/// Expands parts in order, with room for so many calls inside one another.
///
/// The first refused card in the order of the expansion ends all. Of a call's causes the first of these
/// wins: no subcircuit has the name; it has another number of ports; it is being expanded; there is no room
/// for the call; there are too many calls. Of a transistor's: its model has no kind; then what the edit of
/// the circuit refuses.
pub(crate) fn expand<'d>(
    made: &mut Made,
    room: usize,
    frame: &mut Frame<'d>,
    parts: Parts<'d>,
) -> Result<(), DeckFault>
    ensures ok { OnOk result
        (after made.old (spec.expand room frame.old.deck (scope_of frame.old) parts.entry) ≡ Ok made.new) }
    ensures refused { IfErr result
        (IsFault (after made.old (spec.expand room frame.old.deck (scope_of frame.old) parts.entry))) }

    // The calls that it opens are closed again.
    ensures closed { OnOk result (frame.new ≡ frame.old) }
{
    for part in parts {
        match part.sort {
            PartSort::Transistor(strength) => {
                match place(made, frame, part.line, strength, &part.words) {
                    Ok(()) => {}
                    Err(fault) => return Err(fault),
                }
            }
            PartSort::Call => {
                let subcircuit = match entry(frame, part.line, &part.words) {
                    Ok(subcircuit) => subcircuit,
                    Err(what) => {
                        return Err(Unmade::Refused(DeckRefusal {
                            line: part.line,
                            what,
                        }));
                    }
                };
                if room == 0 {
                    return Err(Unmade::Refused(DeckRefusal {
                        line: part.line,
                        what: DeckWhat::TooDeep,
                    }));
                }
                match made.open(part.line) {
                    Ok(()) => {}
                    Err(fault) => return Err(fault),
                }
                let depth = frame.depth();
                match frame.open(&part.words, subcircuit.line, subcircuit.ports) {
                    Ok(()) => {}
                    Err(_) => return Err(Unmade::NoMemory),
                }
                match expand(made, room - 1, frame, subcircuit.parts) {
                    Ok(()) => {}
                    Err(fault) => return Err(fault),
                }
                frame.close(depth);
            }
            PartSort::Opening => {}
        }
    }
    Ok(())
}

// Places a transistor, by its line, the strength that its card sets, and its words.
fn place(
    made: &mut Made,
    frame: &Frame<'_>,
    line: u64,
    set: Strength,
    words: &Words<'_>,
) -> Result<(), DeckFault>
    ensures ok { OnOk result
        (step_meaning made.old (spec.transistor_step frame.now.deck (scope_of frame.now) line set words.now) ≡ Ok made.new) }
    ensures refused { IfErr result
        (IsFault (step_meaning made.old (spec.transistor_step frame.now.deck (scope_of frame.now) line set words.now))) }
{
    let Some(kind) = kind_of(frame.deck(), words.at(5)) else {
        return Err(Unmade::Refused(DeckRefusal {
            line,
            what: DeckWhat::BadModel,
        }));
    };
    let gate = frame.node_of(words.at(2))?;
    let source = frame.node_of(words.at(3))?;
    let drain = frame.node_of(words.at(1))?;
    made.place(
        line,
        kind,
        strength_number(kind, set),
        &gate,
        &source,
        &drain,
    )
}

// The subcircuit that a call opens, by the line and the words of its card, or why it opens none.
fn entry<'d>(
    frame: &mut Frame<'d>,
    line: u64,
    words: &Words<'d>,
) -> Result<Subcircuit<'d>, DeckWhat>
    ensures value { MatchResult result
        (λ s. spec.entry_of frame.old.deck (scope_of frame.old) words.now
        ≡ Ok (record { line = s.line; ports = s.ports; parts = s.parts }))
        (λ what. spec.entry_of frame.old.deck (scope_of frame.old) words.now ≡ Err what) }
    ensures counted { IfOk result (λ s. length s.ports ≡ length (scopes.nodes_of words.now)) }
    ensures stays { frame.new ≡ frame.old }
{
    let Some(subcircuit) = frame.find(line, subcircuit_named(words)) else {
        return Err(DeckWhat::NoSubckt);
    };
    if nodes_of(words).len() != subcircuit.ports.len() {
        return Err(DeckWhat::PortCount);
    }
    if frame.is_expanding(subcircuit.line) {
        return Err(DeckWhat::Recursion);
    }
    Ok(subcircuit)
}
