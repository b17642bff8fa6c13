//! Where the rails stand that are kept under names.

ghost use Rattle.std.specs.Prelude.{◌≡◌, ◌+◌, ◌∷◌, ◌++◌, ◌^◌, ◌<◌, ◌≤◌, [], length, drop, slice_set, IfOk, OnErr, OnOk};
ghost use Rattle.switch_paths.specs.Graphs.{nodes};
ghost use Rattle.switch_paths.specs.declared.TheConstants as rail;
ghost use Rattle.symbol_session.specs.Keeping as spec;

use cosmos_session::Session;
use decision_graph::Function;
use netlist::RAILS;
use script_lang::Name;
use std::alloc::{AllocError, Global};
use symbol_stage::{Letters, SymbolStage};
use ternary::NoMemory;

/// Where a name stands among those that keep states, or else behind them: its number; the place from which on its functions are kept,
/// behind the one that comes first of all; and how many nodes it has.
#[derive(Clone, Copy)]
pub(crate) struct FoundSave {
    pub(crate) there: bool,
    pub(crate) number: usize,
    pub(crate) place: usize,
    pub(crate) nodes: usize,
}

/// How many other names keep states.
pub(crate) fn other_saves(saves: &[(Name, usize)], name: &[u8]) -> usize
    ensures { result ≡ spec.other_saves saves.now name.now }
{
    saves.iter().filter(|save| name != save.0.items()).count()
}

/// Where a name stands among those that keep states.
pub(crate) fn found_save(saves: &[(Name, usize)], name: &[u8]) -> FoundSave
    requires { spec.kept_by saves.now + 1 < 2 ^ 64 }
    ensures there { result.there ≡ spec.is_kept saves.now name.now }
    ensures number { result.number ≡ length (spec.before_save saves.now name.now) }
    ensures place { result.place ≡ 1 + spec.kept_by (spec.before_save saves.now name.now) }
    ensures nodes { result.nodes ≡ spec.nodes_under saves.now name.now }
{
    let mut place = 1;
    for k in 0..saves.len() {
        let save = save_at(saves, k);
        let same = is_named(name, save);
        let nodes = save.1;
        if same {
            return FoundSave {
                there: true,
                number: k,
                place,
                nodes,
            };
        }
        let both = nodes + nodes;
        place += both;
    }
    FoundSave {
        there: false,
        number: saves.len(),
        place,
        nodes: 0,
    }
}

// The name that keeps states at a place.
fn save_at(saves: &[(Name, usize)], k: usize) -> &(Name, usize)
    requires { k < length saves.now }
    ensures { drop k saves.now ≡ result.now ∷ drop (k + 1) saves.now }
{
    &saves[k]
}

// States are kept there under this name.
fn is_named(name: &[u8], save: &(Name, usize)) -> bool
    ensures { result ≡ spec.is_named name.now save.now }
{
    name == save.0.items()
}

// How many nodes a session has.
fn nodes_of(session: &Session<SymbolStage>) -> usize
    ensures nodes { result ≡ nodes session.now.core.circuit.graph }
    ensures has { spec.HasNodes session.now.stage result }
{
    session.circuit().graph().nodes()
}

/// The rails of all nodes of a session: where each may be 1, and where it may be 0.
pub(crate) fn session_rails(
    alloc: Global,
    session: &Session<SymbolStage>,
) -> Result<(Vec<Function>, Vec<Function>), NoMemory>
    ensures { IfOk result (λ rails. spec.AreRailsTo session.now.stage (nodes session.now.core.circuit.graph) rails.0.items rails.1.items) }
{
    let nodes = nodes_of(session);
    let stage = session.stage();
    all_rails(alloc, stage, nodes)
}

// The rails of all nodes of a stage.
fn all_rails(
    alloc: Global,
    stage: &SymbolStage,
    nodes: usize,
) -> Result<(Vec<Function>, Vec<Function>), NoMemory>
    requires { spec.HasNodes stage.now nodes }
    ensures { IfOk result (λ rails. spec.AreRailsTo stage.now nodes rails.0.items rails.1.items) }
{
    let mut highs = Vec::with_capacity(alloc, nodes)?;
    let mut lows = Vec::with_capacity(alloc, nodes)?;
    for node in 0..nodes {
        let (high, low) = stage.rails(node);
        highs.push_reserved(high);
        lows.push_reserved(low);
    }
    Ok((highs, lows))
}

/// Keeps the rails of these nodes under a name, in the place of those that it kept. Out of memory all is as before.
pub(crate) fn keep_rails(
    alloc: Global,
    saves: &mut Vec<(Name, usize)>,
    kept: &mut Vec<Function>,
    name: &Name,
    rails: &(Vec<Function>, Vec<Function>),
) -> Result<(), NoMemory>
    requires { spec.kept_by saves.old.items + 1 ≡ length kept.old.items }
    ensures saves { OnOk result (saves.new.items ≡ spec.with_name saves.old.items name.now (length rails.now.0.items)) }
    ensures kept { OnOk result (kept.new.items ≡ spec.with_rails kept.old.items (1 + spec.kept_by (spec.before_save saves.old.items name.now))
        (spec.nodes_under saves.old.items name.now) rails.now.0.items rails.now.1.items) }
    ensures saves_err { OnErr result (saves.new.items ≡ saves.old.items) }
    ensures kept_err { OnErr result (kept.new.items ≡ kept.old.items) }
{
    let nodes = rails.0.len();
    let found = found_save(saves, name.items());
    let made = kept_with(alloc, kept, found, &rails.0, &rails.1)?;
    put_save(alloc, saves, found, name, nodes)?;
    *kept = made;
    Ok(())
}

// What is kept, with these rails in the place of those that were found.
fn kept_with(
    alloc: Global,
    kept: &[Function],
    found: FoundSave,
    highs: &[Function],
    lows: &[Function],
) -> Result<Vec<Function>, NoMemory>
    requires { found.place + (found.nodes + found.nodes) ≤ length kept.now }
    ensures { IfOk result (λ made. made.items ≡ spec.with_rails kept.now found.place found.nodes highs.now lows.now) }
{
    let rest = found.place + (found.nodes + found.nodes);
    joined(alloc, &kept[..found.place], highs, lows, &kept[rest..])
}

// These functions, one list behind the other.
fn joined(
    alloc: Global,
    front: &[Function],
    highs: &[Function],
    lows: &[Function],
    rest: &[Function],
) -> Result<Vec<Function>, NoMemory>
    ensures { IfOk result (λ made. made.items ≡ front.now ++ (highs.now ++ (lows.now ++ rest.now))) }
{
    let mut made = Vec::from_slice(alloc, front)?;
    made.extend_from_slice(highs)?;
    made.extend_from_slice(lows)?;
    made.extend_from_slice(rest)?;
    Ok(made)
}

// Puts a name with the number of its nodes where it was found, or else behind the others. Out of memory all is as before.
fn put_save(
    alloc: Global,
    saves: &mut Vec<(Name, usize)>,
    found: FoundSave,
    name: &Name,
    nodes: usize,
) -> Result<(), NoMemory>
    requires there { found.there ≡ spec.is_kept saves.old.items name.now }
    requires number { found.number ≡ length (spec.before_save saves.old.items name.now) }
    ensures ok { OnOk result (saves.new.items ≡ spec.with_name saves.old.items name.now nodes) }
    ensures err { OnErr result (saves.new.items ≡ saves.old.items) }
{
    let own = Name::from_slice(alloc, name.items())?;
    if found.there {
        put_there(saves, found.number, own, nodes);
        return Ok(());
    }
    put_behind(saves, own, nodes)
}

// Puts a name with the number of its nodes at a place.
fn put_there(saves: &mut Vec<(Name, usize)>, number: usize, name: Name, nodes: usize)
    requires { number < length saves.old.items }
    ensures { saves.new.items ≡ slice_set saves.old.items number (name, nodes) }
{
    saves[number] = (name, nodes);
}

// Puts it behind the others.
fn put_behind(saves: &mut Vec<(Name, usize)>, name: Name, nodes: usize) -> Result<(), NoMemory>
    ensures ok { OnOk result (saves.new.items ≡ saves.old.items ++ (name, nodes) ∷ []) }
    ensures err { OnErr result (saves.new.items ≡ saves.old.items) }
{
    saves.push((name, nodes)).map_err(AllocError::from)?;
    Ok(())
}

/// The nodes past the rails of what was found, each with its letters.
pub(crate) fn back_letters(
    alloc: Global,
    kept: &[Function],
    found: FoundSave,
) -> Result<Vec<(usize, Letters)>, NoMemory>
    requires within { found.place + (found.nodes + found.nodes) ≤ length kept.now }
    requires railed { rail.RAILS ≤ found.nodes }
    ensures { IfOk result (λ pairs. pairs.items ≡ spec.letters_from kept.now found.place found.nodes) }
{
    let mut pairs = Vec::new(alloc);
    for node in RAILS..found.nodes {
        let letters = letters_at(kept, found, node);
        push_letters(&mut pairs, node, letters)?;
    }
    Ok(pairs)
}

// The letters of a node of what was found.
fn letters_at(kept: &[Function], found: FoundSave, node: usize) -> Letters
    requires within { found.place + (found.nodes + found.nodes) ≤ length kept.now }
    requires inside { node < found.nodes }
    ensures { result ≡ spec.letters_at kept.now found.place found.nodes node }
{
    let hi = function_at(kept, found.place + node);
    let lo = function_at(kept, found.place + (found.nodes + node));
    Letters { hi, lo }
}

// The function at a place.
fn function_at(kept: &[Function], place: usize) -> Function
    requires { place < length kept.now }
    ensures { result ≡ spec.kept_at kept.now place }
{
    kept[place]
}

// Puts a node with its letters behind the others.
fn push_letters(
    pairs: &mut Vec<(usize, Letters)>,
    node: usize,
    letters: Letters,
) -> Result<(), NoMemory>
    ensures { OnOk result (pairs.new.items ≡ pairs.old.items ++ (node, letters) ∷ []) }
{
    pairs.push((node, letters)).map_err(AllocError::from)?;
    Ok(())
}
