//! `expect` of a symbolic script.
ghost use Rattle.std.specs.Prelude.{◌≡◌, ◌+◌, ◌<◌, ◌∷◌, [], All, Err, drop, length, IfErr};
ghost use Rattle.symbol_expecting.specs.Words.{TableData, HeldSession, StageData, AreToldOf, IsToldOf, Valuations, data_of, AreGivenBy};
ghost use Rattle.symbol_expecting.specs.Words.{IsTableOf, OnlyMakes, IsGiven};
ghost use Rattle.symbol_expecting.specs.Expecting.{AreMeantBy, ExpectsInAll, Tells};
ghost use Rattle.symbol_expecting.specs.Faults.{IsSpentBy, RefusedExpected, faults_expected};
ghost use Rattle.symbol_expecting.specs.Missing.{AreWantedOf};

use crate::allowing::allow;
use crate::fault::ExpectFault;
use crate::search::first_in_session;
use crate::telling::tell_unmet;
use cosmos_session::Session;
use formula_functions::NamedFunctions;
use std::alloc::Global;
use symbol_giving::{SymbolLetter, letters_of};
use symbol_script::{Assignment, AssignmentList};
use symbol_stage::SymbolStage;
use symbol_told::SymbolLines;

/// `expect`: tells of each assignment, from left to right, the first valuation under which it isn't met, if there is one, after
/// so many waveform lines. The answer is whether anything was told.
///
/// In each column it is what the command of a plain script is that it is there: it is refused if that is, before anything is told.
/// The session stays as it was, but that its stage's maker made more. If vertices or memory run out, or the hearer meets a
/// fault, a front of what would be told was heard. Vertices run out only if there are as many as there may be.
pub fn expect<L: SymbolLines>(
    session: &mut Session<SymbolStage>,
    alloc: Global,
    table: &NamedFunctions,
    list: &AssignmentList,
    n: u64,
    out: &mut L,
) -> Result<bool, ExpectFault>
    requires table { IsTableOf session.old.stage table.now }
    requires count { n ≡ session.old.core.count }
    ensures told { (v : Valuations) → AreMeantBy session.old table.now list.now v →
        ExpectsInAll L.hear L.part v (data_of session.old) list.now (L.heard out.old) (L.heard out.new) result }
    ensures only { OnlyMakes session.old session.new }
    ensures full { result ≡ Err ExpectFault.Full → IsSpentBy session.new.stage ExpectFault.Full }
    ensures faults { L.faults out.new ≡ faults_expected (L.faults out.old) result }
    ensures refusals { RefusedExpected (L.refusals out.old) (L.refusals out.new) result }
{
    allow(alloc, session.circuit(), session.vectors(), list)?;
    expect_all(session, alloc, table, list.items(), n, out)
}

// Tells of all assignments, none of which is refused.
fn expect_all<L: SymbolLines>(
    session: &mut Session<SymbolStage>,
    alloc: Global,
    table: &NamedFunctions,
    list: &[Assignment],
    n: u64,
    out: &mut L,
) -> Result<bool, ExpectFault>
    requires table { IsTableOf session.old.stage table.now }
    requires count { n ≡ session.old.core.count }
    requires given { All (IsGiven session.old.core.circuit session.old.core.vectors) list.now }
    ensures told { (v : Valuations) → AreMeantBy session.old table.now list.now v →
        Tells (AreToldOf v (data_of session.old) list.now) L.hear L.part (L.heard out.old) (L.heard out.new) result }
    ensures only { OnlyMakes session.old session.new }
    ensures spent { IfErr result (IsSpentBy session.new.stage) }
    ensures faults { L.faults out.new ≡ faults_expected (L.faults out.old) result }
    ensures refusals { RefusedExpected (L.refusals out.old) (L.refusals out.new) result }
{
    let mut missed = false;
    for k in 0..list.len() {
        let own = assignment_at(list, k);
        let told = expect_one(session, alloc, table, own, n, out)?;
        missed |= told;
    }
    Ok(missed)
}

// The assignment at a place.
fn assignment_at(list: &[Assignment], k: usize) -> &Assignment
    requires { k < length list.now }
    ensures { drop k list.now ≡ result.now ∷ drop (k + 1) list.now }
{
    &list[k]
}

// Tells of an assignment, if it isn't met under some valuation.
fn expect_one<L: SymbolLines>(
    session: &mut Session<SymbolStage>,
    alloc: Global,
    table: &NamedFunctions,
    own: &Assignment,
    n: u64,
    out: &mut L,
) -> Result<bool, ExpectFault>
    requires table { IsTableOf session.old.stage table.now }
    requires count { n ≡ session.old.core.count }
    requires given { IsGiven session.old.core.circuit session.old.core.vectors own.now }
    ensures told { (first : HeldSession StageData) (v : Valuations) → OnlyMakes first session.old → IsTableOf first.stage table.now →
        AreMeantBy first table.now (own.now ∷ []) v →
        Tells (IsToldOf v (data_of first) own.now) L.hear L.part (L.heard out.old) (L.heard out.new) result }
    ensures only { OnlyMakes session.old session.new }
    ensures spent { IfErr result (IsSpentBy session.new.stage) }
    ensures faults { L.faults out.new ≡ faults_expected (L.faults out.old) result }
    ensures refusals { RefusedExpected (L.refusals out.old) (L.refusals out.new) result }
{
    // for the proof alone: a session's stage has the nodes of its circuit
    session.stage();
    let pairs = letters_of(session, alloc, table, own)?;
    expect_nodes(session, alloc, own, &pairs, n, out)
}

// Tells of an assignment of which this is wanted of these nodes, if it isn't met under some valuation.
fn expect_nodes<L: SymbolLines>(
    session: &mut Session<SymbolStage>,
    alloc: Global,
    own: &Assignment,
    pairs: &[(usize, SymbolLetter)],
    n: u64,
    out: &mut L,
) -> Result<bool, ExpectFault>
    requires count { n ≡ session.old.core.count }
    requires wanted { AreWantedOf session.old.stage pairs.now }
    ensures told { (first : HeldSession StageData) (table : TableData) (v : Valuations) → OnlyMakes first session.old →
        AreGivenBy first table own.now session.old.stage pairs.now → AreMeantBy first table (own.now ∷ []) v →
        Tells (IsToldOf v (data_of first) own.now) L.hear L.part (L.heard out.old) (L.heard out.new) result }
    ensures only { OnlyMakes session.old session.new }
    ensures spent { IfErr result (IsSpentBy session.new.stage) }
    ensures faults { L.faults out.new ≡ faults_expected (L.faults out.old) result }
    ensures refusals { RefusedExpected (L.refusals out.old) (L.refusals out.new) result }
{
    let found = first_in_session(alloc, session, pairs)?;
    match found {
        Some(vars) => tell_unmet(session, alloc, own, pairs, &vars, n, out),
        None => Ok(false),
    }
}
