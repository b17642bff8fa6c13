//! A word in two runs.
ghost use Rattle.std.specs.Prelude.{◌≡◌, ◌≢◌, ℕ, ◌≤◌, false, length, IfErr, IfOk};
ghost use Rattle.decision_graph.specs.Graphs.{SameShape};
ghost use Rattle.decision_graph.specs.Meaning.{assigned};
ghost use Rattle.decision_graph.specs.Vertices.{Extends};
ghost use Rattle.decision_graph.specs.declared.graph.GraphFault.TheVariants as fault;
ghost use Rattle.symbol_comparing.specs.Rails.{AreRailsOf, rails_seen};
ghost use Rattle.symbol_comparing.specs.Words.{IsFirstDifference};

use crate::rails::{Rails, difference};
use decision_graph::GraphFault;
use std::alloc::{AllocError, Global};
use truth_makers::Symbols;

/// The valuation of the first column in which the letters of nodes differ, also in their number; None exactly if they are the same
/// in all columns.
pub(crate) fn first_difference(
    alloc: Global,
    symbols: &mut Symbols,
    one: Rails<'_>,
    other: Rails<'_>,
) -> Result<Option<Vec<bool>>, GraphFault>
    requires one { AreRailsOf symbols.old (rails_seen one) }
    requires other { AreRailsOf symbols.old (rails_seen other) }
    ensures shape { SameShape symbols.old.graph symbols.new.graph }
    ensures extends { Extends symbols.old.graph.vertices symbols.new.graph.vertices }
    ensures full { IfErr result (λ why. why ≡ fault.Full → symbols.new.graph.most ≤ length symbols.new.graph.vertices) }
    ensures found { IfOk result (IsFirstDifference symbols.old (rails_seen one.entry) (rails_seen other.entry)) }
{
    if one.highs.len() != other.highs.len() {
        return first_of_uneven(alloc, symbols, one, other);
    }
    let made = difference(&mut symbols.graph, one, other)?;
    match symbols.first(alloc, made) {
        Ok(found) => Ok(found),
        Err(_) => Err(GraphFault::NoMemory),
    }
}

// The same if the numbers of nodes differ.
fn first_of_uneven(
    alloc: Global,
    symbols: &Symbols,
    one: Rails<'_>,
    other: Rails<'_>,
) -> Result<Option<Vec<bool>>, GraphFault>
    requires one { AreRailsOf symbols.now (rails_seen one) }
    requires other { AreRailsOf symbols.now (rails_seen other) }
    requires uneven { length one.highs.now ≢ length other.highs.now }
    ensures found { IfOk result (IsFirstDifference symbols.now (rails_seen one.entry) (rails_seen other.entry)) }
    ensures memory { IfErr result (λ why. why ≡ fault.NoMemory) }
{
    let variables = symbols.graph.variables();
    match first_of_all(alloc, variables as usize) {
        Ok(vars) => Ok(Some(vars)),
        Err(_) => Err(GraphFault::NoMemory),
    }
}

// The first valuation of so many variables: all are false.
fn first_of_all(alloc: Global, variables: usize) -> Result<Vec<bool>, AllocError>
    ensures count { IfOk result (λ vars. length vars.items ≡ variables) }
    ensures unset { IfOk result (λ vars. (v : ℕ) → assigned vars.items v ≡ false) }
{
    let vars = vec![in alloc; false; variables]?;
    Ok(vars)
}
