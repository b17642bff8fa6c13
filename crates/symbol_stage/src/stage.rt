//! The states of all valuations, and what moves them.
ghost use Rattle.std.specs.Prelude.{◌≡◌, ℕ, ◌-◌, ◌<◌, ◌≤◌, false, List, ◌∷◌, length, replicate, slice_index_or, IfErr, IfOk, OnErr, OnOk};
ghost use Rattle.ternary.specs.declared.tern.Tern.TheVariants.{Zero, One, Unk};
ghost use Rattle.ternary.specs.Tern.{may_one, may_zero};
ghost use Rattle.switch_paths.specs.declared.TheConstants.{RAILS};
ghost use Rattle.switch_paths.specs.Switching.{state_at};
ghost use Rattle.settling.specs.declared.settling.TheConstants.{MOST_LIMIT};
ghost use Rattle.column_settling.specs.Together.{SettleTogether};
ghost use Rattle.symbol_stage.specs.Words.{function_holds, AreColumns, GroupTextData, HasStates, IsFunctionOf, IsSpent, IsStep, KeepsGiven, PlacesTruths};
ghost use Rattle.symbol_stage.specs.Given.{GivesLetters, letter_given};
ghost use Rattle.symbol_stage.specs.Stages.{FitsIn, ServesIn, bound_in, columns_on, states_in};

use column_settling::ColumnStepper;
use decision_graph::{Function, GraphFault};
use settling::{MOST_LIMIT, Settled};
use std::alloc::Global;
use std::marker::Model;
use switch_paths::{GND, Graph, RAILS, VDD};
use ternary::NoMemory;
use truth_columns::Truths;
use truth_machine::{Gear, TruthMachine, empty_gear};
use truth_makers::Symbols;

// Room for the states of an edit's nodes: the rails as they are, with room for more, and a gear without parts.
#[derive(Drop)]
pub(crate) struct Room {
    pub(crate) gear: Gear<Function>,
    pub(crate) hi: Vec<Function>,
    pub(crate) lo: Vec<Function>,
}

/// The states of all nodes under all valuations of a script's variables, and what moves them.
///
/// Contracts see the machine, with the maker of functions in it; whether it was built for the graph as it is; and for how many new
/// nodes there is room.
#[derive(Drop)]
pub struct SymbolStage {
    pub(crate) alloc: Global,
    pub(crate) machine: TruthMachine<Symbols>,
    pub(crate) built: bool,
    // how many vertices its graph had at the start, or after the last time that it was compacted
    pub(crate) left: u32,
    // there from the call that takes it to what comes next
    pub(crate) room: Option<Room>,
}

impl Model for SymbolStage {
    ghost use Rattle.std.specs.Prelude.{IfSome};
    ghost use Rattle.symbol_stage.specs.Stages.{IsRoom, StageData, spare_held};

    ghost Value = { StageData };

    ghost view = { λ stage. record { machine = stage.machine; built = stage.built; spare = spare_held stage.room } };

    ghost invariant = { λ stage. IfSome stage.room (IsRoom stage.machine) };
}

impl SymbolStage {
    /// The states at the start, under all valuations of the maker's variables: Gnd is 0, Vdd is 1 and every other node X.
    ///
    /// Lack of memory is the only error, and then the maker is let go too.
    pub fn start(alloc: Global, symbols: Symbols, nodes: usize) -> Result<SymbolStage, NoMemory>
        requires railed { RAILS ≤ nodes }
        ensures maker { IfOk result (λ stage. stage.machine.maker ≡ symbols) }
        ensures states { IfOk result (λ stage. (column : ℕ) → column < columns_on stage
            → states_in stage column ≡ Zero ∷ One ∷ replicate (nodes - RAILS) Unk) }
        ensures unbuilt { IfOk result (λ stage. stage.built ≡ false) }
    {
        let left = symbols.graph.size();
        let never = symbols.constant(false);
        let always = symbols.constant(true);
        let mut hi = vec![in alloc; always; nodes]?;
        let mut lo = vec![in alloc; always; nodes]?;
        hi[GND] = never;
        lo[VDD] = never;
        let gear = empty_gear(alloc, &symbols, nodes)?;
        let machine = TruthMachine::still(gear, symbols, hi, lo);
        Ok(SymbolStage {
            alloc,
            machine,
            built: false,
            left,
            room: None,
        })
    }

    // In each column the rails are those of states: a call of this is for its contract alone.
    pub(crate) fn are_rails(&self)
        ensures { AreColumns (columns_on self.now) (function_holds self.now.machine.maker) self.now.machine.hi self.now.machine.lo }
    {
        self.machine.are_rails();
    }

    /// The maker of its functions.
    pub fn symbols(&self) -> &Symbols
        ensures { result.now ≡ self.now.machine.maker }
    {
        self.machine.truths()
    }

    /// Both rails of a node: where it may be 1, and where it may be 0.
    pub fn rails(&self, node: usize) -> (Function, Function)
        requires { node < length self.now.machine.hi }
        ensures high { slice_index_or self.now.machine.hi node result.0 ≡ result.0 }
        ensures low { slice_index_or self.now.machine.lo node result.1 ≡ result.1 }
        ensures high_has { IsFunctionOf self.now.machine.maker result.0 }
        ensures low_has { IsFunctionOf self.now.machine.maker result.1 }
        ensures one { (column : ℕ) → column < columns_on self.now →
            function_holds self.now.machine.maker result.0 column ≡ may_one (state_at (states_in self.now column) node) }
        ensures zero { (column : ℕ) → column < columns_on self.now →
            function_holds self.now.machine.maker result.1 column ≡ may_zero (state_at (states_in self.now column) node) }
    {
        self.machine.rails(node)
    }

    /// Gives a node that is no rail these functions: where it may be 1, and where it may be 0.
    ///
    /// Under each valuation one of them holds. It takes no memory.
    pub(crate) fn place(&mut self, graph: &Graph, node: usize, hi: Function, lo: Function)
        requires inside { node < length self.old.machine.hi }
        requires no_rail { RAILS ≤ node }
        requires high_has { IsFunctionOf self.old.machine.maker hi }
        requires low_has { IsFunctionOf self.old.machine.maker lo }
        requires states { HasStates (columns_on self.old) (function_holds self.old.machine.maker) hi lo }
        ensures places { PlacesTruths node hi lo self.old.machine self.new.machine }
        ensures built { self.new.built ≡ self.old.built }
        ensures serves { (kept : List GroupTextData) → ServesIn self.old graph.now kept → ServesIn self.new graph.now kept }
        ensures fits { FitsIn self.old graph.now → FitsIn self.new graph.now }
    {
        self.room = None;
        self.machine.place(graph, node, hi, lo);
    }

    /// Takes a unit step under each valuation.
    ///
    /// If vertices or memory run out, no step was taken, under no valuation. Vertices run out only if there are as many as there
    /// may be.
    pub(crate) fn step_all(&mut self, graph: &Graph) -> Result<(), GraphFault>
        requires { FitsIn self.old graph.now }
        ensures columns { columns_on self.new ≡ columns_on self.old }
        ensures steps { OnOk result ((column : ℕ) → column < columns_on self.old → IsStep graph.now (states_in self.old column) (states_in self.new column)) }
        ensures err { OnErr result ((column : ℕ) → column < columns_on self.old → states_in self.new column ≡ states_in self.old column) }
        ensures kept { KeepsGiven columns_on GivesLetters letter_given bound_in self.old self.new }
        ensures built { self.new.built ≡ self.old.built }
        ensures serves { (kept : List GroupTextData) → ServesIn self.old graph.now kept → ServesIn self.new graph.now kept }
        ensures fits { FitsIn self.new graph.now }
        ensures spent { IfErr result (IsSpent self.new.machine.maker) }
    {
        self.room = None;
        let _moved = self.machine.step(graph)?;
        Ok(())
    }

    /// Settles under each valuation, as it would under that alone, and tells the greatest count, and whether a joining step was
    /// among those.
    ///
    /// If vertices or memory run out, some steps were taken. Vertices run out only if there are as many as there may be.
    pub(crate) fn settle_all(&mut self, graph: &Graph, limit: u64) -> Result<Settled, GraphFault>
        requires fits { FitsIn self.old graph.now }
        requires high { limit ≤ MOST_LIMIT }
        ensures columns { columns_on self.new ≡ columns_on self.old }
        ensures settles { IfOk result (SettleTogether graph.now (columns_on self.old) (states_in self.old) limit (states_in self.new)) }
        ensures kept { KeepsGiven columns_on GivesLetters letter_given bound_in self.old self.new }
        ensures built { self.new.built ≡ self.old.built }
        ensures serves { (kept : List GroupTextData) → ServesIn self.old graph.now kept → ServesIn self.new graph.now kept }
        ensures fits { FitsIn self.new graph.now }
        ensures spent { IfErr result (IsSpent self.new.machine.maker) }
    {
        self.room = None;
        self.machine.settle(graph, limit)
    }
}
