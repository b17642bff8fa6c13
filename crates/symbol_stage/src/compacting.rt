//! A maker of its own for the functions that are still wanted.
ghost use Rattle.std.specs.Prelude.{◌≡◌, ℕ, ◌<◌, ◌≤◌, ◌++◌, List, length, take, drop, All, IfOk, OnErr, OnOk};
ghost use Rattle.truth_columns.specs.Columns.{HasColumn};
ghost use Rattle.symbol_stage.specs.Words.{columns_in, function_holds, GraphData, GroupTextData, IsFunctionOf};
ghost use Rattle.truth_machine.specs.Machines.{column_of, FitsInMachine};
ghost use Rattle.symbol_stage.specs.Compacting.{AreMoved, IsMoved};
ghost use Rattle.symbol_stage.specs.Stages.{FitsIn, ServesIn, columns_on, states_in};

use crate::SymbolStage;
use decision_graph::{Function, GraphFault};
use std::alloc::{AllocError, Global};
use truth_machine::TruthMachine;
use truth_makers::Symbols;

impl SymbolStage {
    /// Goes on over a maker of the same variables and bound that has what the states and these functions need alone, and tells
    /// what these are in it, in the same order.
    ///
    /// Under each valuation all states stay, and each function holds where it held. Results are remembered anew, in so many
    /// places. If memory lacks, all is as before.
    pub(crate) fn compact(
        &mut self,
        others: &[Function],
        notes: usize,
    ) -> Result<Vec<Function>, GraphFault>
        requires inside { All (IsFunctionOf self.old.machine.maker) others.now }
        requires some { 0 < notes }
        ensures moved { IfOk result (λ found. AreMoved self.old.machine.maker self.new.machine.maker others.now found.items) }
        ensures states { OnOk result ((column : ℕ) → column < columns_on self.new → states_in self.new column ≡ states_in self.old column) }
        ensures built { self.new.built ≡ self.old.built }
        ensures serves { (g : GraphData) (kept : List GroupTextData) → ServesIn self.old g kept → ServesIn self.new g kept }
        ensures fits { (g : GraphData) → FitsIn self.old g → FitsIn self.new g }
        ensures err { OnErr result (self.new.machine ≡ self.old.machine) }
    {
        self.room = None;
        // a call for the proof alone: the rails are those of states
        self.machine.are_rails();
        let (symbols, hi, lo, found) = moved(self.alloc, &self.machine, others, notes)?;
        let left = symbols.graph.size();
        go_on(self.alloc, &mut self.machine, symbols, hi, lo)?;
        self.left = left;
        Ok(found)
    }
}

// A maker that has what the rails and these functions need alone, the rails in it, and these functions.
fn moved(
    alloc: Global,
    machine: &TruthMachine<Symbols>,
    others: &[Function],
    notes: usize,
) -> Result<(Symbols, Vec<Function>, Vec<Function>, Vec<Function>), GraphFault>
    requires inside { All (IsFunctionOf machine.now.maker) others.now }
    requires some { 0 < notes }
    ensures { IfOk result (λ made. IsMoved machine.now.maker made.0 machine.now.hi machine.now.lo others.now made.1.items made.2.items made.3.items) }
{
    // a call for the proof alone: the rails are functions of the maker
    machine.are_rails();
    let highs = machine.hi();
    let lows = machine.lo();
    let symbols = machine.truths();
    let roots = roots_of(alloc, highs, lows, others)?;
    let (made, all) = symbols.compact(alloc, &roots, notes)?;
    let (hi, rest) = cut(alloc, &all, highs.len())?;
    let (lo, found) = cut(alloc, &rest, lows.len())?;
    Ok((made, hi, lo, found))
}

// The front of a list, of so many, and the rest.
fn cut(
    alloc: Global,
    list: &[Function],
    count: usize,
) -> Result<(Vec<Function>, Vec<Function>), GraphFault>
    requires { count ≤ length list.now }
    ensures { IfOk result (λ made. (made.0.items ≡ take count list.now) × (made.1.items ≡ drop count list.now)) }
{
    let front = copy_of(alloc, &list[..count])?;
    let rest = copy_of(alloc, &list[count..])?;
    Ok((front, rest))
}

// The same list.
fn copy_of(alloc: Global, list: &[Function]) -> Result<Vec<Function>, GraphFault>
    ensures { IfOk result (λ made. made.items ≡ list.now) }
{
    match Vec::from_slice(alloc, list) {
        Ok(made) => Ok(made),
        Err(_) => Err(GraphFault::NoMemory),
    }
}

// These functions, one list behind the other.
fn roots_of(
    alloc: Global,
    hi: &[Function],
    lo: &[Function],
    others: &[Function],
) -> Result<Vec<Function>, GraphFault>
    ensures { IfOk result (λ roots. roots.items ≡ (hi.now ++ lo.now) ++ others.now) }
{
    match joined(alloc, hi, lo, others) {
        Ok(roots) => Ok(roots),
        Err(_) => Err(GraphFault::NoMemory),
    }
}

fn joined(
    alloc: Global,
    hi: &[Function],
    lo: &[Function],
    others: &[Function],
) -> Result<Vec<Function>, AllocError>
    ensures { IfOk result (λ roots. roots.items ≡ (hi.now ++ lo.now) ++ others.now) }
{
    let mut roots = Vec::from_slice(alloc, hi)?;
    roots.extend_from_slice(lo)?;
    roots.extend_from_slice(others)?;
    Ok(roots)
}

// Has the machine go on over this maker, with these rails of the same states.
fn go_on(
    alloc: Global,
    machine: &mut TruthMachine<Symbols>,
    symbols: Symbols,
    hi: Vec<Function>,
    lo: Vec<Function>,
) -> Result<(), GraphFault>
    requires columns { columns_in symbols ≡ columns_in machine.old.maker }
    requires highs { length hi.items ≡ length machine.old.hi }
    requires lows { length lo.items ≡ length hi.items }
    requires high_has { All (IsFunctionOf symbols) hi.items }
    requires low_has { All (IsFunctionOf symbols) lo.items }
    requires same { (column : ℕ) → column < columns_in symbols → HasColumn (function_holds symbols) column hi.items lo.items (column_of function_holds machine.old column) }
    ensures maker { OnOk result (machine.new.maker ≡ symbols) }
    ensures states { OnOk result ((column : ℕ) → column < columns_in symbols → column_of function_holds machine.new column ≡ column_of function_holds machine.old column) }
    ensures fits { (g : GraphData) → FitsInMachine columns_in function_holds g machine.old → FitsInMachine columns_in function_holds g machine.new }
    ensures err { OnErr result (machine.new ≡ machine.old) }
{
    match machine.move_to(alloc, symbols, hi, lo) {
        Ok(()) => Ok(()),
        Err(_) => Err(GraphFault::NoMemory),
    }
}
