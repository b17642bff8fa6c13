//! Truths in columns.
use decision_graph::DecisionGraph;
use std::test::Fail;
use straight_code::StepKind;
use table_keys::TableKeys;
use truth_columns::Truths;
use truth_makers::{Symbols, WordTruths};

#[test]
fn the_first_column_is_that_of_the_first_valuation(rt: HostRuntime) -> Result<(), Fail> {
    let graph = DecisionGraph::new(rt.alloc(), TableKeys::fixed(), 2, 100, 10)?;
    let mut symbols = Symbols { graph };
    let x = symbols.graph.variable(0)?;
    let y = symbols.graph.variable(1)?;
    let one = symbols.perform(StepKind::Or, x, y)?;
    let found = symbols.first(rt.alloc(), one)?.ok_or("none")?;
    assert_eq!(rt; found.as_slice(), [false, true].as_slice());
    Ok(())
}

#[test]
fn words_hold_in_the_columns_of_their_bits(rt: HostRuntime) -> Result<(), Fail> {
    let mut words = WordTruths::new(3);
    assert!(rt; matches!(words.perform(StepKind::And, 6, 3), Ok(2)));
    Ok(())
}
