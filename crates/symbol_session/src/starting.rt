//! The session at its start.

ghost use Rattle.std.specs.Prelude.{◌≡◌, ◌≢◌, ℕ, ◌+◌, ◌<◌, false, max, [], ◌∷◌, ◌++◌, length, slice_get, All, Some, IfErr, IfOk, OnErr, OnOk};
ghost use Rattle.line_words.specs.Files as file;
ghost use Rattle.symbol_session.specs.Words.{start_of, valuations_of, before_stop, read_of, stop_of, variables_of, no_table, IsFunctionOf};
ghost use Rattle.symbol_session.specs.Words.{MakesMore, has_name, StopsAmong, KeepsFunctions, StandFor};
ghost use Rattle.symbol_session.specs.Sessions.{ServesLines, data_of, maker_of, valuations_by};
ghost use Rattle.symbol_session.specs.Starting.{AreApart, AreVariables, IsAtStart, IsFirstKept, ServesAlike, StandForVariables};
ghost use Rattle.symbol_session.specs.Turns.{IsOwnFault};

use crate::SymbolSession;
use crate::turns::{fault_at, want};
use cosmos_session::Session;
use decision_graph::{DecisionGraph, Function, GraphFault, MOST_VARIABLES};
use formula_functions::NamedFunctions;
use netlist::Circuit;
use run_ends::Stop;
use script_lang::Name;
use std::alloc::Global;
use symbol_run::SymbolFault;
use symbol_stage::{Outside, SymbolStage};
use table_keys::TableKeys;
use ternary::NoMemory;
use truth_columns::Truths;
use truth_makers::Symbols;
use unseen_text::UnseenText;

/// In how many places a graph remembers results.
pub(crate) const NOTES: usize = 65_536;

impl SymbolSession {
    /// A maker of functions of so many variables, of which a script has no more than it may have, in a graph of up to so many vertices:
    /// of two at least.
    ///
    /// Lack of memory is the only error.
    pub fn maker(
        alloc: Global,
        keys: TableKeys,
        variables: usize,
        bound: u32,
    ) -> Result<Symbols, NoMemory>
        ensures variables { IfOk result (λ symbols. symbols.graph.variables ≡ variables) }
        ensures bound { IfOk result (λ symbols. symbols.graph.most ≡ max 2 bound) }
    {
        if variables > MOST_VARIABLES as usize {
            return Err(NoMemory);
        }
        let most = bound.max(2);
        let graph = DecisionGraph::new(alloc, keys, variables as u32, most, NOTES)?;
        Ok(Symbols { graph })
    }

    /// A session at its start over a circuit, of a script, quiet or not, with these variables: in each column Gnd is 0, Vdd is 1 and every
    /// other node X. The maker has the script's variables, and may have functions already.
    ///
    /// If vertices run out for the variables' functions, the first line is told: it is there, since there is a variable. Out of memory too
    /// the circuit and the maker are let go.
    pub fn start(
        alloc: Global,
        circuit: Circuit,
        symbols: Symbols,
        variables: &[Name],
        text: &[u8],
        quiet: bool,
    ) -> Result<SymbolSession, SymbolFault>
        requires maker { symbols.graph.variables ≡ length variables.now }
        requires variables { variables.now ≡ variables_of (read_of quiet (file.cut_line text.now) (file.lines_in text.now)) }
        ensures quiet { IfOk result (λ session. session.quiet ≡ quiet) }
        ensures valuations { IfOk result (λ session. valuations_by session ≡ valuations_of (read_of quiet (file.cut_line text.now) (file.lines_in text.now))) }
        ensures starts { IfOk result (λ session. (column : ℕ) → column < (valuations_by session).columns → data_of session column ≡ start_of circuit) }
        ensures serves { IfOk result (λ session. ServesLines session (file.cut_line text.now)
            (before_stop (stop_of quiet (file.cut_line text.now) (file.lines_in text.now)) (file.lines_in text.now))) }
        ensures keeps { IfOk result (λ session. KeepsFunctions symbols (maker_of session)) }
        ensures among { IfErr result (StopsAmong
            (before_stop (stop_of quiet (file.cut_line text.now) (file.lines_in text.now)) (file.lines_in text.now))) }
        ensures unwritten { IfErr result (λ fault. fault ≢ SymbolFault.Stopped Stop.Write) }
    {
        let script = UnseenText::of(text);
        SymbolSession::begin(alloc, circuit, symbols, variables, script, quiet)
    }

    /// The same of a script whose text contracts know. It is served with any script that has the same valuations.
    pub(crate) fn begin(
        alloc: Global,
        circuit: Circuit,
        symbols: Symbols,
        variables: &[Name],
        text: UnseenText,
        quiet: bool,
    ) -> Result<SymbolSession, SymbolFault>
        requires maker { symbols.graph.variables ≡ length variables.now }
        requires variables { variables.now ≡ variables_of (read_of quiet (file.cut_line text.text) (file.lines_in text.text)) }
        ensures quiet { IfOk result (λ session. session.quiet ≡ quiet) }
        ensures text { IfOk result (λ session. session.text ≡ text.text) }
        ensures starts { IfOk result (λ session. (column : ℕ) → column < (valuations_by session).columns → data_of session column ≡ start_of circuit) }
        ensures serves { IfOk result ServesAlike }
        ensures keeps { IfOk result (λ session. KeepsFunctions symbols (maker_of session)) }
        ensures own { IfErr result (IsOwnFault 1) }
        ensures some { IfErr result (λ fault. fault ≡ SymbolFault.Full 1 → 0 < length variables.now) }
    {
        let mut names = NamedFunctions::new(alloc, circuit.keys());
        match pieces(alloc, &circuit, symbols, variables, &mut names) {
            Ok((stage, kept)) => {
                let session = Session::over(alloc, circuit, stage);
                let outside = Outside {
                    names,
                    kept,
                    notes: NOTES,
                };
                Ok(SymbolSession {
                    alloc,
                    session,
                    outside,
                    saves: Vec::new(alloc),
                    count: 0,
                    left: 0,
                    quiet,
                    text,
                })
            }
            Err(fault) => Err(fault),
        }
    }

    /// A maker of its own for these functions, which are let go from this session's, and in their place the functions in it, in the same
    /// order. If it can't be made, all is as before.
    pub(crate) fn make_leave(&self, others: &mut Vec<Function>) -> Result<Symbols, GraphFault>
        requires { All (IsFunctionOf (maker_of self.now)) others.old.items }
        ensures moved { IfOk result (λ symbols. StandFor (maker_of self.now) symbols others.old.items others.new.items) }
        ensures err { OnErr result (others.new.items ≡ others.old.items) }
    {
        let symbols = self.session.stage().symbols();
        match symbols.compact(self.alloc, others, NOTES) {
            Ok((own, found)) => {
                *others = found;
                Ok(own)
            }
            Err(fault) => Err(fault),
        }
    }
}

// The stage at the start, whose functions the names stand for, and what is kept at the start.
fn pieces(
    alloc: Global,
    circuit: &Circuit,
    symbols: Symbols,
    variables: &[Name],
    names: &mut NamedFunctions,
) -> Result<(SymbolStage, Vec<Function>), SymbolFault>
    requires apart { AreApart [] variables.now }
    requires none { names.old ≡ no_table }
    requires few { length variables.now ≡ symbols.graph.variables }
    ensures stage { IfOk result (λ made. IsAtStart symbols circuit.now made.0) }
    ensures named { IfOk result (λ made. StandForVariables made.0.machine.maker variables.now names.new) }
    ensures kept { IfOk result (λ made. IsFirstKept made.0.machine.maker made.1.items) }
    ensures own { IfErr result (IsOwnFault 1) }
    ensures some { IfErr result (λ fault. fault ≡ SymbolFault.Full 1 → 0 < length variables.now) }
{
    match first_kept(alloc, &symbols) {
        Ok(kept) => match stage_at_start(alloc, circuit, symbols, variables, names) {
            Ok(stage) => Ok((stage, kept)),
            Err(fault) => Err(fault_at(1, fault)),
        },
        Err(NoMemory) => Err(want()),
    }
}

// The list of what is kept at the start: no expectation wasn't met.
fn first_kept(alloc: Global, symbols: &Symbols) -> Result<Vec<Function>, NoMemory>
    ensures { IfOk result (λ kept. IsFirstKept symbols.now kept.items) }
{
    let never = symbols.constant(false);
    let kept = vec![in alloc; never; 1]?;
    Ok(kept)
}

// The stage at the start, once the variables' names stand for the variables, in a table without names.
fn stage_at_start(
    alloc: Global,
    circuit: &Circuit,
    symbols: Symbols,
    variables: &[Name],
    names: &mut NamedFunctions,
) -> Result<SymbolStage, GraphFault>
    requires apart { AreApart [] variables.now }
    requires none { names.old ≡ no_table }
    requires few { length variables.now ≡ symbols.graph.variables }
    ensures stage { IfOk result (IsAtStart symbols circuit.now) }
    ensures named { IfOk result (λ stage. StandForVariables stage.machine.maker variables.now names.new) }
    ensures some { IfErr result (λ fault. fault ≡ GraphFault.Full → 0 < length variables.now) }
{
    // a call for the proof alone: a circuit's graph is well formed
    let graph = circuit.graph();
    match SymbolStage::start(alloc, symbols, graph.nodes()) {
        Ok(stage) => {
            let mut stage = stage;
            match name_variables(alloc, &mut stage, variables, names) {
                Ok(()) => Ok(stage),
                Err(fault) => Err(fault),
            }
        }
        Err(NoMemory) => Err(GraphFault::NoMemory),
    }
}

// Lets the variables' names stand for the variables, in order, in a table without names.
fn name_variables(
    alloc: Global,
    stage: &mut SymbolStage,
    variables: &[Name],
    names: &mut NamedFunctions,
) -> Result<(), GraphFault>
    requires apart { AreApart [] variables.now }
    requires none { names.old ≡ no_table }
    requires few { length variables.now ≡ stage.old.machine.maker.graph.variables }
    ensures makes { MakesMore stage.old.machine stage.new.machine }
    ensures built { stage.new.built ≡ stage.old.built }
    ensures named { OnOk result (StandForVariables stage.new.machine.maker variables.now names.new) }
    ensures some { IfErr result (λ _. 0 < length variables.now) }
{
    for k in 0..variables.len() {
        name_variable(alloc, stage, name_at(variables, k), k, names)?;
    }
    Ok(())
}

/// The name at a place.
pub(crate) fn name_at(names: &[Name], k: usize) -> &[u8]
    requires { k < length names.now }
    ensures { slice_get names.now k ≡ Some result.now }
{
    names[k].items()
}

// Lets the name of the variable with this number stand for it, in a table of those before it.
fn name_variable(
    alloc: Global,
    stage: &mut SymbolStage,
    name: &[u8],
    k: usize,
    names: &mut NamedFunctions,
) -> Result<(), GraphFault>
    requires few { k < stage.old.machine.maker.graph.variables }
    requires new { has_name names.old.names name.now ≡ false }
    requires stand { AreVariables stage.old.machine.maker k names.old }
    ensures makes { MakesMore stage.old.machine stage.new.machine }
    ensures built { stage.new.built ≡ stage.old.built }
    ensures names { OnOk result (names.new.names ≡ names.old.names ++ name.now ∷ []) }
    ensures stand { OnOk result (AreVariables stage.new.machine.maker (k + 1) names.new) }
{
    // a call for the proof alone: there are few variables
    let _count = stage.symbols().graph.variables();
    let function = stage.variable(k as u32)?;
    match names.add(alloc, name, function) {
        Ok(()) => Ok(()),
        Err(NoMemory) => Err(GraphFault::NoMemory),
    }
}
