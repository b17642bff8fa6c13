//! `set` and `charge` of a symbolic script.
ghost use Rattle.std.specs.Prelude.{◌≡◌, ℕ, ◌<◌, [], ◌∷◌, ◌++◌, None, All, option_map, IfErr, IfOk, IfSome, OnErr, OnOk};
ghost use Rattle.column_script.specs.declared.command.ValueCommand.{ValueCommand};
ghost use Rattle.symbol_giving.specs.Words.{KeepsGiven, states_given, IsSpent, GivesLetters, letter_given, bound_in, columns_on};
ghost use Rattle.symbol_giving.specs.Words.{refusal_of, give_of, letters_in_column};
ghost use Rattle.symbol_giving.specs.StandIns.{IsGiven};
ghost use Rattle.symbol_giving.specs.Letters.{IsLetterOf, IsTableOf, OnlyMakes, letter_in, pairs_in};
ghost use Rattle.symbol_giving.specs.Giving.{GivesInAll, IsFaultGiving, IsLack, IsRefusedBy, IsSpentBy, command_in, data_of, fault_of_graph, fault_of_values, stand_command, states_in_column};

use crate::fault::GivingFault;
use crate::letters::{SymbolLetter, letters_of};
use crate::standing::stand_ins;
use column_script::ValueCommand;
use column_stage::TruthStage;
use cosmos_session::Session;
use decision_graph::GraphFault;
use formula_functions::NamedFunctions;
use script_lang::ValueList;
use session_meaning::ApplyFault;
use std::alloc::Global;
use symbol_script::{Assignment, AssignmentList};
use symbol_stage::{Letters, SymbolStage};
use ternary::NoMemory;

/// `set` and `charge`: gives the named nodes their letters under all valuations, from left to right.
///
/// In each column it does what the command of a plain script does that it is there. So it is refused as that is, the same in all
/// columns, and then nothing changes. All functions are made before a node is given one: if vertices or memory run out, nothing
/// changed but that the stage's maker made more. Vertices run out only if there are as many as there may be.
pub fn give(
    session: &mut Session<SymbolStage>,
    alloc: Global,
    kind: ValueCommand,
    table: &NamedFunctions,
    list: &AssignmentList,
) -> Result<(), GivingFault>
    requires { IsTableOf session.old.stage table.now }
    ensures gives { GivesInAll (columns_on session.old.stage) (command_in kind table.now list.now session.old) (data_of session.old) (data_of session.new) result }
    ensures refused { IfErr result (IsRefusedBy session.old session.new) }
    ensures only { OnErr result (OnlyMakes session.old session.new) }
    ensures kept { KeepsGiven columns_on GivesLetters letter_given bound_in session.old.stage session.new.stage }
    ensures columns { columns_on session.new.stage ≡ columns_on session.old.stage }
    ensures spent { IfErr result (IsSpentBy session.new.stage) }
{
    match allow(session, alloc, kind, list) {
        Ok(()) => give_allowed(session, alloc, table, list.items()),
        Err(fault) => Err(fault),
    }
}

// Gives the named nodes their letters, by one of both commands, which isn't refused.
fn give_allowed(
    session: &mut Session<SymbolStage>,
    alloc: Global,
    table: &NamedFunctions,
    list: &[Assignment],
) -> Result<(), GivingFault>
    requires table { IsTableOf session.old.stage table.now }
    requires allowed { (kind : ValueCommand) × (refusal_of session.old.core (stand_command kind list.now session.old.core) ≡ None) }
    ensures gives { (kind : ValueCommand) → refusal_of session.old.core (stand_command kind list.now session.old.core) ≡ None →
        GivesInAll (columns_on session.old.stage) (command_in kind table.now list.now session.old) (data_of session.old) (data_of session.new) result }
    ensures lacks { IfErr result IsLack }
    ensures only { OnErr result (OnlyMakes session.old session.new) }
    ensures kept { KeepsGiven columns_on GivesLetters letter_given bound_in session.old.stage session.new.stage }
    ensures columns { columns_on session.new.stage ≡ columns_on session.old.stage }
    ensures spent { IfErr result (IsSpentBy session.new.stage) }
{
    // for the proof alone: a session's vectors are of nodes of its circuit
    let _circuit = session.circuit();
    match all_letters(session, alloc, table, list) {
        Ok(pairs) => {
            session.give_in_all(&pairs);
            Ok(())
        }
        Err(fault) => Err(giving_fault(fault)),
    }
}

// Why nothing is given where a function isn't made.
fn giving_fault(fault: GraphFault) -> GivingFault
    ensures { result ≡ fault_of_graph fault }
{
    match fault {
        GraphFault::Full => GivingFault::Full,
        GraphFault::NoMemory => GivingFault::NoMemory,
    }
}

// Why these assignments are refused, which doesn't depend on the valuation.
fn allow(
    session: &Session<SymbolStage>,
    alloc: Global,
    kind: ValueCommand,
    list: &AssignmentList,
) -> Result<(), GivingFault>
    ensures allowed { OnOk result (refusal_of session.now.core (stand_command kind list.now session.now.core) ≡ None) }
    ensures refused { IfErr result (IsFaultGiving (refusal_of session.now.core (stand_command kind list.now session.now.core))) }
{
    match stand_ins(alloc, session.circuit(), session.vectors(), list) {
        Ok(values) => allow_values(session, kind, &values),
        Err(NoMemory) => Err(GivingFault::NoMemory),
    }
}

// Why plain assignments are refused.
fn allow_values(
    session: &Session<SymbolStage>,
    kind: ValueCommand,
    values: &ValueList,
) -> Result<(), GivingFault>
    ensures allowed { OnOk result (refusal_of session.now.core (give_of kind values.now) ≡ None) }
    ensures refused { IfErr result (IsFaultGiving (refusal_of session.now.core (give_of kind values.now))) }
{
    match session.values_allowed(kind, values) {
        Ok(_states) => Ok(()),
        Err(fault) => Err(refused_by(fault)),
    }
}

// Why nothing is given where values are refused.
fn refused_by(fault: ApplyFault) -> GivingFault
    ensures { result ≡ fault_of_values fault }
{
    match fault {
        ApplyFault::Refused(refusal) => GivingFault::Refused(refusal),
        ApplyFault::GroupNodes { .. }
        | ApplyFault::GroupSwitches { .. }
        | ApplyFault::WriteFault
        | ApplyFault::NoMemory => GivingFault::NoMemory,
    }
}

// The nodes that assignments give letters, from left to right, each with what it is given.
fn all_letters(
    session: &mut Session<SymbolStage>,
    alloc: Global,
    table: &NamedFunctions,
    list: &[Assignment],
) -> Result<Vec<(usize, Letters)>, GraphFault>
    requires table { IsTableOf session.old.stage table.now }
    requires given { All (IsGiven session.old.core.circuit session.old.core.vectors) list.now }
    ensures only { OnlyMakes session.old session.new }
    ensures own { IfOk result (λ given. All (λ pair. GivesLetters session.new.stage pair.1) given.items) }
    ensures states { IfOk result (λ given. (column : ℕ) → column < columns_on session.old.stage →
        letters_in_column letter_given session.new.stage given.items column ≡ states_in_column table.now list.now session.old column) }
    ensures spent { IfErr result (IsSpent session.new.stage.machine.maker) }
{
    let mut given = Vec::new(alloc);
    for own in list {
        let pairs = letters_of(session, alloc, table, own)?;
        add_given(session.stage(), &pairs, &mut given)?;
    }
    Ok(given)
}

// Puts the nodes that are given letters behind the others, each with what it is given.
fn add_given(
    stage: &SymbolStage,
    pairs: &[(usize, SymbolLetter)],
    given: &mut Vec<(usize, Letters)>,
) -> Result<(), GraphFault>
    requires letters { All (λ pair. IsLetterOf stage.now pair.1) pairs.now }
    requires own { All (λ pair. GivesLetters stage.now pair.1) given.old.items }
    ensures own { OnOk result (All (λ pair. GivesLetters stage.now pair.1) given.new.items) }
    ensures states { OnOk result ((column : ℕ) → column < columns_on stage.now →
        letters_in_column letter_given stage.now given.new.items column
        ≡ letters_in_column letter_given stage.now given.old.items column ++ states_given (pairs_in stage.now pairs.now column)) }
    ensures spent { IfErr result (IsSpent stage.now.machine.maker) }
{
    for (node, letter) in pairs {
        add_letter(stage, *node, *letter, given)?;
    }
    Ok(())
}

// Puts a node behind the others, with what it is given, if its letter is one of a state.
fn add_letter(
    stage: &SymbolStage,
    node: usize,
    letter: SymbolLetter,
    given: &mut Vec<(usize, Letters)>,
) -> Result<(), GraphFault>
    requires letter { IsLetterOf stage.now letter }
    requires own { All (λ pair. GivesLetters stage.now pair.1) given.old.items }
    ensures own { OnOk result (All (λ pair. GivesLetters stage.now pair.1) given.new.items) }
    ensures states { OnOk result ((column : ℕ) → column < columns_on stage.now →
        letters_in_column letter_given stage.now given.new.items column
        ≡ letters_in_column letter_given stage.now given.old.items column ++ states_given ((node, letter_in stage.now column letter) ∷ [])) }
    ensures spent { IfErr result (IsSpent stage.now.machine.maker) }
{
    let Some(own) = given_as(stage, letter) else {
        return Ok(());
    };
    match given.push((node, own)) {
        Ok(()) => Ok(()),
        Err(_) => Err(GraphFault::NoMemory),
    }
}

// What gives a node a letter, if it is one of a state.
fn given_as(stage: &SymbolStage, letter: SymbolLetter) -> Option<Letters>
    requires { IsLetterOf stage.now letter }
    ensures own { IfSome result (GivesLetters stage.now) }
    ensures letter { (column : ℕ) → column < columns_on stage.now →
        option_map (λ own. letter_given stage.now own column) result ≡ letter_in stage.now column letter }
{
    match letter {
        SymbolLetter::Any => None,
        SymbolLetter::Same(state) => Some(stage.alike(state)),
        SymbolLetter::Truth(own) => Some(own),
    }
}
