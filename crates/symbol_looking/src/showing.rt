//! Names that are shown.
ghost use Rattle.std.specs.Prelude.{◌≡◌, ◌<◌, ◌≤◌, ◌∷◌, [], map, All};
ghost use Rattle.symbol_looking.specs.Words.{faults_after, RefusedOnce, IsCircuit, AreWithin, named, column_of, told_by, faults_applied};
ghost use Rattle.symbol_looking.specs.Words.{AreMerged, Shown, columns_on, states_in};
ghost use Rattle.switch_paths.specs.Graphs.{nodes};
ghost use Rattle.script_lang.specs.declared.command.Tell.TheVariants as asked;
ghost use Rattle.session_meaning.specs.Refusals as refusal;
ghost use Rattle.symbol_looking.specs.Letters.{letter_on, nodes_on};
ghost use Rattle.symbol_looking.specs.Names.{all_shown, shown_of};
ghost use Rattle.symbol_looking.specs.Tellings.{HearsSome, RefusedTelling, TellsInAll, telling, tellings};

use crate::letters::letters;
use crate::telling::{applied, tell_line};
use cosmos_session::Session;
use netlist::Circuit;
use node_words::{Named, Vectors};
use ports::PortFault;
use script_lang::Name;
use session_meaning::{ApplyFault, Refusal};
use std::alloc::Global;
use symbol_stage::SymbolStage;
use symbol_told::{SymbolLines, ToldLine};

/// `show`: tells the line of each of these names, with the letter that each of its nodes has in all columns.
///
/// It changes nothing. Memory is taken line by line; if it lacks, a front of the lines was heard.
#[tactic(auto, using(crate::proofs::HeardLemmas::refused_told))]
pub fn show<L: SymbolLines>(
    alloc: Global,
    session: &Session<SymbolStage>,
    names: &[Name],
    out: &mut L,
) -> Result<(), ApplyFault>
    ensures tells { TellsInAll L.hear L.part
        (refusal.refusal_of_tell session.now.core.circuit session.now.core.vectors (asked.Show names.now))
        (tellings (all_shown session.now names.now)) (L.heard out.old) (L.heard out.new) result }
    ensures merged { AreMerged (columns_on session.now.stage) (λ column. told_by (column_of states_in session.now column) (asked.Show names.now))
        (all_shown session.now names.now) }
    ensures faults { L.faults out.new ≡ faults_applied (L.faults out.old) result }
    ensures refusals { RefusedTelling (L.refusals out.old) (L.refusals out.new) result }
{
    match show_refusal(session, names) {
        Some(found) => Err(ApplyFault::Refused(found)),
        None => applied(show_all(alloc, session, names, out)),
    }
}

// Why these names can't be shown.
fn show_refusal(session: &Session<SymbolStage>, names: &[Name]) -> Option<Refusal>
    ensures { result ≡ refusal.refusal_of_tell session.now.core.circuit session.now.core.vectors (asked.Show names.now) }
{
    known_refusal(session.circuit(), session.vectors(), names)
}

// The first refusal of these names as names in use.
fn known_refusal(circuit: &Circuit, vectors: &Vectors, names: &[Name]) -> Option<Refusal>
    ensures { result ≡ refusal.first_refusal (λ name. refusal.known_refusal (named circuit.now vectors.now name)) names.now }
{
    for name in names {
        if let Some(found) = name_refusal(circuit, vectors, name.items()) {
            return Some(found);
        }
    }
    None
}

// The refusal of a name as one in use, for a node or a vector.
fn name_refusal(circuit: &Circuit, vectors: &Vectors, name: &[u8]) -> Option<Refusal>
    ensures { result ≡ refusal.known_refusal (named circuit.now vectors.now name.now) }
{
    match vectors.named(circuit, name) {
        Named::Node(_) | Named::Vector(_) => None,
        Named::Nothing => Some(Refusal::UnknownNode),
    }
}

// Tells the line of each of these names.
fn show_all<L: SymbolLines>(
    alloc: Global,
    session: &Session<SymbolStage>,
    names: &[Name],
    out: &mut L,
) -> Result<(), PortFault>
    ensures heard { HearsSome L.hear L.part (L.heard out.old) (L.heard out.new) (tellings (all_shown session.now names.now)) result }
    ensures faults { L.faults out.new ≡ faults_after (L.faults out.old) result }
    ensures refusals { RefusedOnce (L.refusals out.old) (L.refusals out.new) result }
{
    let (circuit, vectors) = (session.circuit(), session.vectors());
    let stage = session.stage();
    for name in names {
        show_name(alloc, circuit, vectors, stage, name.items(), out)?;
    }
    Ok(())
}

// Tells the line of a name.
fn show_name<L: SymbolLines>(
    alloc: Global,
    circuit: &Circuit,
    vectors: &Vectors,
    stage: &SymbolStage,
    name: &[u8],
    out: &mut L,
) -> Result<(), PortFault>
    requires states { nodes circuit.now.graph ≤ nodes_on stage.now }
    requires netlist { IsCircuit circuit.now }
    requires vectors { AreWithin (nodes circuit.now.graph) vectors.now }
    ensures heard { HearsSome L.hear L.part (L.heard out.old) (L.heard out.new)
        (telling (shown_of circuit.now vectors.now (letter_on stage.now) name.now) ∷ []) result }
    ensures faults { L.faults out.new ≡ faults_after (L.faults out.old) result }
    ensures refusals { RefusedOnce (L.refusals out.old) (L.refusals out.new) result }
{
    match vectors.named(circuit, name) {
        Named::Node(node) => show_nodes(alloc, stage, name, &[node], out),
        Named::Vector(nodes) => show_nodes(alloc, stage, name, nodes, out),
        Named::Nothing => show_nodes(alloc, stage, name, &[], out),
    }
}

// Tells the line of a name with these nodes.
#[tactic(auto, using(crate::proofs::HeardLemmas::lacks_faults, crate::proofs::HeardLemmas::lacks_once, crate::proofs::HeardLemmas::none_heard))]
fn show_nodes<L: SymbolLines>(
    alloc: Global,
    stage: &SymbolStage,
    name: &[u8],
    nodes: &[usize],
    out: &mut L,
) -> Result<(), PortFault>
    requires { All (λ node. node < nodes_on stage.now) nodes.now }
    ensures heard { HearsSome L.hear L.part (L.heard out.old) (L.heard out.new)
        (telling (Shown name.now (map (letter_on stage.now) nodes.now)) ∷ []) result }
    ensures faults { L.faults out.new ≡ faults_after (L.faults out.old) result }
    ensures refusals { RefusedOnce (L.refusals out.old) (L.refusals out.new) result }
{
    let values = letters(alloc, stage, nodes)?;
    tell_line(
        ToldLine::Shown {
            name,
            values: &values,
        },
        out,
    )
}
