//! The letters of the items of a list, by the functions that a stage's maker makes of formulas.
ghost use Rattle.std.specs.Prelude.{◌≡◌, ℕ, ◌<◌, [], ◌∷◌, ◌++◌, zip, map, All, IfErr, IfOk, OnOk};
ghost use Rattle.decision_graph.specs.declared.graph.GraphFault.TheVariants as fault;
ghost use Rattle.symbol_giving.specs.Words.{truth_of, state_of_truth, IsSpent, GivesLetters, letter_given, columns_on, letter_under};
ghost use Rattle.symbol_giving.specs.Letters.{IsLetterOf, IsTableOf, OnlyMakes, letter_in, named_in, pairs_in};

use crate::letters::{SymbolLetter, same_letter};
use column_stage::Work;
use cosmos_session::Session;
use decision_graph::GraphFault;
use formula_functions::NamedFunctions;
use formulas::Part;
use std::alloc::{AllocError, Global};
use symbol_lines::Item;
use symbol_stage::{Letters, SymbolStage};
use ternary::NoMemory;

// A formula whose letters are wanted, by the functions that its names stand for; and behind the work the letters, or why there
// are none.
#[derive(Drop)]
struct FormulaWork<'a> {
    table: &'a NamedFunctions,
    formula: &'a [Part],
    made: Result<Letters, GraphFault>,
}

impl Work<SymbolStage> for FormulaWork<'_> {
    ghost use Rattle.symbol_giving.specs.Letters.{IsFormulaMade, IsTableOf};

    ghost asks = { λ work stage. IsTableOf stage work.table.now };

    ghost done = { λ before old after new. IsFormulaMade before.table.now before.formula.now old new after.made };

    fn work(&mut self, stage: &mut SymbolStage) {
        self.made = stage.letters(self.table, self.formula);
    }
}

/// These nodes, each with the letter of the item at its place.
pub(crate) fn item_letters(
    session: &mut Session<SymbolStage>,
    alloc: Global,
    table: &NamedFunctions,
    nodes: &[usize],
    items: &[Item],
) -> Result<Vec<(usize, SymbolLetter)>, GraphFault>
    requires { IsTableOf session.old.stage table.now }
    ensures only { OnlyMakes session.old session.new }
    ensures letters { IfOk result (λ pairs. (column : ℕ) → column < columns_on session.old.stage →
        pairs_in session.new.stage pairs.items column ≡ zip nodes.now (map (letter_under (named_in session.old.stage table.now column)) items.now)) }
    ensures own { IfOk result (λ pairs. All (λ pair. IsLetterOf session.new.stage pair.1) pairs.items) }
    ensures spent { IfErr result (IsSpent session.new.stage.machine.maker) }
{
    let letters = letters_in_order(session, alloc, table, items)?;
    match paired(alloc, nodes, &letters) {
        Ok(pairs) => Ok(pairs),
        Err(NoMemory) => Err(GraphFault::NoMemory),
    }
}

// These nodes, each with the letter at its place.
fn paired(
    alloc: Global,
    nodes: &[usize],
    letters: &[SymbolLetter],
) -> Result<Vec<(usize, SymbolLetter)>, NoMemory>
    ensures { IfOk result (λ pairs. pairs.items ≡ zip nodes.now letters.now) }
{
    let mut pairs = Vec::new(alloc);
    for (&node, &letter) in nodes.iter().zip(letters) {
        pairs.push((node, letter)).map_err(AllocError::from)?;
    }
    Ok(pairs)
}

// The letters of items, in order.
fn letters_in_order(
    session: &mut Session<SymbolStage>,
    alloc: Global,
    table: &NamedFunctions,
    items: &[Item],
) -> Result<Vec<SymbolLetter>, GraphFault>
    requires { IsTableOf session.old.stage table.now }
    ensures only { OnlyMakes session.old session.new }
    ensures letters { IfOk result (λ letters. (column : ℕ) → column < columns_on session.old.stage →
        map (letter_in session.new.stage column) letters.items ≡ map (letter_under (named_in session.old.stage table.now column)) items.now) }
    ensures own { IfOk result (λ letters. All (IsLetterOf session.new.stage) letters.items) }
    ensures spent { IfErr result (IsSpent session.new.stage.machine.maker) }
{
    let mut letters = Vec::new(alloc);
    for item in items {
        let letter = item_letter(session, table, item)?;
        push(&mut letters, letter)?;
    }
    Ok(letters)
}

// Puts a letter behind the others.
fn push(letters: &mut Vec<SymbolLetter>, letter: SymbolLetter) -> Result<(), GraphFault>
    ensures ok { OnOk result (letters.new.items ≡ letters.old.items ++ letter ∷ []) }
    ensures room { IfErr result (λ why. why ≡ fault.NoMemory) }
{
    match letters.push(letter) {
        Ok(()) => Ok(()),
        Err(_) => Err(GraphFault::NoMemory),
    }
}

// The letter of an item.
fn item_letter(
    session: &mut Session<SymbolStage>,
    table: &NamedFunctions,
    item: &Item,
) -> Result<SymbolLetter, GraphFault>
    requires { IsTableOf session.old.stage table.now }
    ensures only { OnlyMakes session.old session.new }
    ensures letter { IfOk result (λ letter. (column : ℕ) → column < columns_on session.old.stage →
        letter_in session.new.stage column letter ≡ letter_under (named_in session.old.stage table.now column) item.now) }
    ensures own { IfOk result (IsLetterOf session.new.stage) }
    ensures spent { IfErr result (IsSpent session.new.stage.machine.maker) }
{
    match item {
        Item::Letter(letter) => Ok(same_letter(*letter)),
        Item::Formula(formula) => match formula_letters(session, table, formula.parts()) {
            Ok(given) => Ok(SymbolLetter::Truth(given)),
            Err(fault) => Err(fault),
        },
    }
}

/// The letters of a formula.
pub fn formula_letters(
    session: &mut Session<SymbolStage>,
    table: &NamedFunctions,
    formula: &[Part],
) -> Result<Letters, GraphFault>
    requires { IsTableOf session.old.stage table.now }
    ensures only { OnlyMakes session.old session.new }
    ensures letter { IfOk result (λ given. (column : ℕ) → column < columns_on session.old.stage →
        letter_given session.new.stage given column ≡ state_of_truth (truth_of (named_in session.old.stage table.now column) formula.now)) }
    ensures own { IfOk result (GivesLetters session.new.stage) }
    ensures spent { IfErr result (IsSpent session.new.stage.machine.maker) }
{
    let mut work = FormulaWork {
        table,
        formula,
        made: Err(GraphFault::NoMemory),
    };
    session.work_on_stage(&mut work);
    work.made
}
