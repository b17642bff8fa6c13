//! The graph of functions is kept small: what nothing needs any more is let go once it has grown.
ghost use Rattle.std.specs.Prelude.{◌≡◌, ℕ, ◌+◌, ◌*◌, ◌/◌, ◌<◌, ◌≤◌, ◌++◌, false, List, length, take, drop, All, IfOk};
ghost use Rattle.symbol_stage.specs.Words.{table_of, GraphData, GroupTextData, IsFunctionOf};
ghost use Rattle.symbol_stage.specs.Compacting.{IsTidied};
ghost use Rattle.symbol_stage.specs.Stages.{ServesIn};

use crate::SymbolStage;
use decision_graph::{Function, GraphFault};
use formula_functions::NamedFunctions;
use std::alloc::{AllocError, Global};

/// A graph that isn't more than half full is let grow to so many vertices.
const LARGE: u32 = 65_536;

impl SymbolStage {
    /// Lets go what neither the states nor the functions of these names and of this list need, if the graph has grown to more
    /// than twice what was left the last time. Results are remembered anew then, in so many places.
    ///
    /// Under each valuation all states stay, and the functions of the names and of the list hold where they held, at the same
    /// places of both. It can't fail: if memory lacks for it, all is as before.
    pub fn tidy(&mut self, names: &mut NamedFunctions, kept: &mut [Function], notes: usize)
        requires named { All (IsFunctionOf self.old.machine.maker) names.old.functions }
        requires inside { All (IsFunctionOf self.old.machine.maker) kept.old }
        requires some { 0 < notes }
        ensures tidied { IsTidied self.old self.new names.old names.new kept.old kept.new }
        ensures serves { (g : GraphData) (texts : List GroupTextData) → ServesIn self.old g texts → ServesIn self.new g texts }
    {
        if !self.has_grown() {
            return;
        }
        let _done = self.tidy_up(names, kept, notes);
    }

    // Does so, whether the graph has grown or not. If memory lacks, all is as before.
    fn tidy_up(
        &mut self,
        names: &mut NamedFunctions,
        kept: &mut [Function],
        notes: usize,
    ) -> Result<(), GraphFault>
        requires named { All (IsFunctionOf self.old.machine.maker) names.old.functions }
        requires inside { All (IsFunctionOf self.old.machine.maker) kept.old }
        requires some { 0 < notes }
        ensures tidied { IsTidied self.old self.new names.old names.new kept.old kept.new }
        ensures serves { (g : GraphData) (texts : List GroupTextData) → ServesIn self.old g texts → ServesIn self.new g texts }
    {
        let all = self.outside(names, kept)?;
        let found = self.compact(&all, notes)?;
        put_back(found, names, kept);
        Ok(())
    }

    // The functions that are needed outside: those of these names, and behind them those of a list.
    fn outside(
        &self,
        names: &NamedFunctions,
        kept: &[Function],
    ) -> Result<Vec<Function>, GraphFault>
        ensures { IfOk result (λ all. all.items ≡ names.now.functions ++ kept.now) }
    {
        match both_of(self.alloc, names.functions(), kept) {
            Ok(all) => Ok(all),
            Err(_) => Err(GraphFault::NoMemory),
        }
    }

    // Whether the graph has grown so much since the last time that it is worth while to let go what nothing needs.
    fn has_grown(&self) -> bool {
        let graph = &self.machine.truths().graph;
        is_worth_while(graph.size(), self.left, graph.most())
    }
}

// Whether a graph with so many vertices, which may have so many at most, has grown to more than twice what was left, and is large
// or more than half full. So one that is more than half full isn't let grow past that.
fn is_worth_while(size: u32, left: u32, most: u32) -> bool
    ensures { result ≡ false → most / 2 < size → size ≤ 2 * left + 1 }
{
    let half = size / 2;
    if half <= left {
        return false;
    }
    let enough = most / 2;
    if size <= enough {
        return LARGE < size;
    }
    true
}

// These functions, one list behind the other.
fn both_of(
    alloc: Global,
    first: &[Function],
    second: &[Function],
) -> Result<Vec<Function>, AllocError>
    ensures { IfOk result (λ both. both.items ≡ first.now ++ second.now) }
{
    let mut both = Vec::from_slice(alloc, first)?;
    both.extend_from_slice(second)?;
    Ok(both)
}

// Lets the names stand for the first of these functions, in order, and puts the others into a list, in the place of those that it
// had.
fn put_back(mut found: Vec<Function>, names: &mut NamedFunctions, kept: &mut [Function])
    requires { length found.items ≡ length names.old.functions + length kept.old }
    ensures names { names.new ≡ table_of names.old.names (take (length names.old.functions) found.items) }
    ensures kept { kept.new ≡ drop (length names.old.functions) found.items }
{
    let functions = names.functions();
    let count = functions.len();
    put_rest(&found, count, kept);
    found.truncate(count);
    names.stand_for(found);
}

// Puts the functions of a list, from a place on, into another that has as many.
fn put_rest(found: &[Function], count: usize, kept: &mut [Function])
    requires { length found.now ≡ count + length kept.old }
    ensures { kept.new ≡ drop count found.now }
{
    kept.copy_from_slice(&found[count..]);
}
