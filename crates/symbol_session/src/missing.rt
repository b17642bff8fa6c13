//! In which columns an expectation wasn't met so far.

ghost use Rattle.std.specs.Prelude.{◌≡◌, ◌<◌, ◌+◌, ◌||◌, ◌∷◌, [], ℕ, length, drop, slice_index_or, slice_set, All, IfOk, OnOk};
ghost use Rattle.symbol_session.specs.Words.{function_holds, IsFunctionOf, columns_on, IsTableOf, OnlyMakes, IsGiven, AreWantedOf};
ghost use Rattle.symbol_session.specs.Words.{KeepsFunctions};
ghost use Rattle.symbol_session.specs.Missing.{IsMissedMade, NotesMissed, isnt_met};
ghost use Rattle.symbol_session.specs.Sessions.{Stays, maker_of};

use crate::SymbolSession;
use column_stage::Work;
use cosmos_session::Session;
use decision_graph::{Function, GraphFault};
use formula_functions::NamedFunctions;
use std::alloc::Global;
use symbol_expecting::missed_among;
use symbol_giving::{SymbolLetter, letters_of};
use symbol_script::Assignment;
use symbol_stage::SymbolStage;

// Nodes with what is wanted of them, and where one of them isn't so or another function holds; behind the work that function, or why there
// is none.
#[derive(Drop)]
struct Missing<'a> {
    pairs: &'a [(usize, SymbolLetter)],
    before: Function,
    made: Result<Function, GraphFault>,
}

impl Work<SymbolStage> for Missing<'_> {
    ghost use Rattle.truth_makers.specs.Makers.{IsFunctionOf};
    ghost use Rattle.symbol_expecting.specs.Missing.{AreWantedOf};
    ghost use Rattle.symbol_session.specs.Missing.{IsMissedMade};

    ghost asks = { λ work stage. AreWantedOf stage work.pairs.now × IsFunctionOf stage.machine.maker work.before };

    ghost done = { λ before old after new. IsMissedMade before.pairs.now before.before old new after.made };

    fn work(&mut self, stage: &mut SymbolStage) {
        self.made = missed_or(stage, self.pairs, self.before);
    }
}

// Where one of these nodes isn't as it is wanted, or another function holds.
fn missed_or(
    stage: &mut SymbolStage,
    pairs: &[(usize, SymbolLetter)],
    before: Function,
) -> Result<Function, GraphFault>
    requires pairs { AreWantedOf stage.old pairs.now }
    requires before { IsFunctionOf stage.old.machine.maker before }
    ensures { IsMissedMade pairs.now before stage.old stage.new result }
{
    let own = missed_among(stage, pairs)?;
    let made = stage.either(before, own)?;
    Ok(made)
}

impl SymbolSession {
    /// Notes in which columns these assignments, of which each gives letters, aren't all met.
    pub(crate) fn note_missed(&mut self, list: &[Assignment]) -> Result<(), GraphFault>
        requires { All (IsGiven self.old.session.core.circuit self.old.session.core.vectors) list.now }
        ensures notes { OnOk result (NotesMissed self.old list.now self.new) }
        ensures stays { Stays self.old self.new }
        ensures keeps { KeepsFunctions (maker_of self.old) (maker_of self.new) }
    {
        for k in 0..list.len() {
            let own = assignment_at(list, k);
            self.note_one(own)?;
        }
        Ok(())
    }

    // Notes in which columns an assignment isn't met.
    fn note_one(&mut self, own: &Assignment) -> Result<(), GraphFault>
        requires { IsGiven self.old.session.core.circuit self.old.session.core.vectors own.now }
        ensures notes { OnOk result (NotesMissed self.old (own.now ∷ []) self.new) }
        ensures core { self.new.session.core ≡ self.old.session.core }
        ensures stays { Stays self.old self.new }
        ensures keeps { KeepsFunctions (maker_of self.old) (maker_of self.new) }
    {
        let before = first_of(&self.outside.kept);
        let names = &self.outside.names;
        match missed_with(&mut self.session, self.alloc, names, own, before) {
            Ok(made) => {
                put_first(&mut self.outside.kept, made);
                Ok(())
            }
            Err(fault) => Err(fault),
        }
    }
}

// Where an assignment isn't met, or another function holds.
fn missed_with(
    session: &mut Session<SymbolStage>,
    alloc: Global,
    names: &NamedFunctions,
    own: &Assignment,
    before: Function,
) -> Result<Function, GraphFault>
    requires table { IsTableOf session.old.stage names.now }
    requires given { IsGiven session.old.core.circuit session.old.core.vectors own.now }
    requires before { IsFunctionOf session.old.stage.machine.maker before }
    ensures only { OnlyMakes session.old session.new }
    ensures inside { IfOk result (IsFunctionOf session.new.stage.machine.maker) }
    ensures holds { IfOk result (λ made. (column : ℕ) → column < columns_on session.old.stage → function_holds session.new.stage.machine.maker made column
        ≡ (function_holds session.old.stage.machine.maker before column || isnt_met session.old names.now own.now column)) }
{
    // a call for the proof alone: each node has rails
    let _circuit = session.circuit();
    let pairs = letters_of(session, alloc, names, own)?;
    let mut missing = Missing {
        pairs: &pairs,
        before,
        made: Err(GraphFault::NoMemory),
    };
    session.work_on_stage(&mut missing);
    missing.made
}

// The assignment at a place.
fn assignment_at(list: &[Assignment], k: usize) -> &Assignment
    requires { k < length list.now }
    ensures { drop k list.now ≡ result.now ∷ drop (k + 1) list.now }
{
    &list[k]
}

// The first of these functions.
fn first_of(kept: &[Function]) -> Function
    requires { 0 < length kept.now }
    ensures { (d : Function) → result ≡ slice_index_or kept.now 0 d }
{
    kept[0]
}

// Puts a function into the first place.
fn put_first(kept: &mut Vec<Function>, made: Function)
    requires { 0 < length kept.old.items }
    ensures { kept.new.items ≡ slice_set kept.old.items 0 made }
{
    kept[0] = made;
}
