//! A graph of functions that is kept small.
ghost use Rattle.std.specs.Prelude.{◌≡◌, ◌<◌, ◌≤◌, IfOk};
ghost use Rattle.decision_graph.specs.declared.TheConstants.{MOST_VARIABLES};
ghost use Rattle.truth_makers.specs.Makers.{IsFunctionOf};

use decision_graph::{DecisionGraph, Function, GraphFault, MOST_VARIABLES};
use formula_functions::NamedFunctions;
use std::alloc::Global;
use std::test::Fail;
use symbol_stage::SymbolStage;
use table_keys::TableKeys;
use ternary::NoMemory;
use truth_makers::Symbols;

// The stage of the rails alone, with so many variables and this bound on the vertices.
fn stage_of(alloc: Global, variables: u32, most: u32) -> Result<SymbolStage, NoMemory>
    requires shallow { variables ≤ MOST_VARIABLES }
    requires both { 2 ≤ most }
    ensures { IfOk result (λ stage. stage.machine.maker.graph.variables ≡ variables) }
{
    let graph = DecisionGraph::new(alloc, TableKeys::fixed(), variables, most, 10)?;
    let stage = SymbolStage::start(alloc, Symbols { graph }, 2)?;
    Ok(stage)
}

// The function of a variable. There are as many variables then.
fn variable_of(stage: &mut SymbolStage, number: u32) -> Result<Function, GraphFault>
    requires { number < stage.old.machine.maker.graph.variables }
    ensures variables { stage.new.machine.maker.graph.variables ≡ stage.old.machine.maker.graph.variables }
    ensures inside { IfOk result (IsFunctionOf stage.new.machine.maker) }
{
    stage.variable(number)
}

// Has the stage let go what it doesn't need, with a function that stands under a name and in a list: what it is then in both.
fn cut_to(
    stage: &mut SymbolStage,
    alloc: Global,
    wanted: Function,
) -> Result<(Option<Function>, Function), NoMemory>
    requires { IsFunctionOf stage.old.machine.maker wanted }
{
    let mut names = NamedFunctions::new(alloc, TableKeys::fixed());
    names.add(alloc, b"$a", wanted)?;
    let mut kept = [wanted];
    stage.tidy(&mut names, &mut kept, 10);
    Ok((names.function(b"$a"), kept[0]))
}

#[test]
fn a_graph_that_has_grown_is_cut_to_what_is_needed(rt: HostRuntime) -> Result<(), Fail> {
    let mut stage = stage_of(rt.alloc(), 4, 8)?;
    variable_of(&mut stage, 3)?;
    variable_of(&mut stage, 2)?;
    variable_of(&mut stage, 1)?;
    let wanted = variable_of(&mut stage, 0)?;
    assert_eq!(rt; stage.symbols().graph.size(), 6);
    let (named, kept) = cut_to(&mut stage, rt.alloc(), wanted)?;
    assert_eq!(rt; stage.symbols().graph.size(), 3);
    assert_eq!(rt; named, Some(kept));
    Ok(())
}

#[test]
fn a_graph_of_what_is_needed_stays(rt: HostRuntime) -> Result<(), Fail> {
    let mut stage = stage_of(rt.alloc(), 4, 8)?;
    variable_of(&mut stage, 3)?;
    let wanted = variable_of(&mut stage, 0)?;
    let (named, kept) = cut_to(&mut stage, rt.alloc(), wanted)?;
    assert_eq!(rt; stage.symbols().graph.size(), 4);
    assert_eq!(rt; named, Some(kept));
    assert_eq!(rt; kept, wanted);
    Ok(())
}
