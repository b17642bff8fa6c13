//! The letters that nodes have under all valuations, and their rails.
ghost use Rattle.std.specs.Prelude.{◌≡◌, ◌<◌, map, All, IfOk};
ghost use Rattle.symbol_looking.specs.Letters.{AreRailsAt, letter_on, nodes_on, rail_of};

use decision_graph::Function;
use std::alloc::{AllocError, Global};
use symbol_stage::SymbolStage;
use ternary::Tern;

/// The letter that a node has in all columns; None if two columns differ in it.
pub(crate) fn letter(stage: &SymbolStage, node: usize) -> Option<Tern>
    requires { node < nodes_on stage.now }
    ensures { result ≡ letter_on stage.now node }
{
    let symbols = stage.symbols();
    symbols.graph.size();
    let (high, low) = stage.rails(node);
    symbols.state(high, low)
}

/// The letters of these nodes.
pub(crate) fn letters(
    alloc: Global,
    stage: &SymbolStage,
    nodes: &[usize],
) -> Result<Vec<Option<Tern>>, AllocError>
    requires { All (λ node. node < nodes_on stage.now) nodes.now }
    ensures { IfOk result (λ letters. letters.items ≡ map (letter_on stage.now) nodes.now) }
{
    let mut letters = Vec::with_capacity(alloc, nodes.len())?;
    for &node in nodes {
        letters.push_reserved(letter(stage, node));
    }
    Ok(letters)
}

/// The rails of these nodes: where each may be 1, and where it may be 0.
pub(crate) fn rails(
    alloc: Global,
    stage: &SymbolStage,
    nodes: &[usize],
) -> Result<(Vec<Function>, Vec<Function>), AllocError>
    requires { All (λ node. node < nodes_on stage.now) nodes.now }
    ensures highs { IfOk result (λ rails. rails.0.items ≡ map (rail_of stage.now.machine.hi) nodes.now) }
    ensures lows { IfOk result (λ rails. rails.1.items ≡ map (rail_of stage.now.machine.lo) nodes.now) }
    ensures rails { IfOk result (λ rails. AreRailsAt stage.now nodes.now rails.0.items rails.1.items) }
{
    let mut highs = Vec::with_capacity(alloc, nodes.len())?;
    let mut lows = Vec::with_capacity(alloc, nodes.len())?;
    for &node in nodes {
        let (high, low) = stage.rails(node);
        highs.push_reserved(high);
        lows.push_reserved(low);
    }
    Ok((highs, lows))
}
