//! The commands that are given values: `set`, `charge` and `expect`.

ghost use Rattle.std.specs.Prelude.{◌≡◌, List, All, IfErr};
ghost use Rattle.symbol_session.specs.Words.{GroupTextData, faults_stopped, RefusedStopped, StopsAt, IsGiven, Valuations, AreMeantBy};
ghost use Rattle.symbol_session.specs.Words.{ExpectsInAll, RefusedExpected, faults_expected, columns_in, KeepsFunctions};
ghost use Rattle.symbol_script.specs.declared.line.SymbolLine.TheVariants as asks;
ghost use Rattle.symbol_script.specs.declared.line.ValueVerb.TheVariants as is_verb;
ghost use Rattle.symbol_session.specs.Asked.{AreSame, GivesAsked, IsKnown, asked_values};
ghost use Rattle.symbol_session.specs.Missing.{Remembers};
ghost use Rattle.symbol_session.specs.Sessions.{Stays, data_of, maker_of, truths_by, valuations_by};
ghost use Rattle.symbol_session.specs.Turns as spec;
ghost use Rattle.symbol_session.specs.Turns.{IsOwnFault, TakesAsked};

use crate::SymbolSession;
use crate::turns::{fault_at, want};
use column_script::ValueCommand;
use run_ends::Stop;
use script_meaning::Turn;
use script_run::refusal_code;
use symbol_expecting::{ExpectFault, expect};
use symbol_giving::{GivingFault, give};
use symbol_run::SymbolFault;
use symbol_script::{AssignmentList, ValueVerb};
use symbol_told::SymbolLines;

impl SymbolSession {
    /// Gives nodes letters in each column, or tells of each assignment that isn't met in some column.
    pub(crate) fn obey_values<L: SymbolLines>(
        &mut self,
        number: u64,
        verb: ValueVerb,
        list: &AssignmentList,
        out: &mut L,
    ) -> Result<Turn, SymbolFault>
        ensures turn { IsKnown (valuations_by self.old) self.old.names.names (truths_by self.old) (asks.Values verb list.now) →
            (texts : List GroupTextData) → TakesAsked (maker_of self.new) L.hear L.part (valuations_by self.old) (data_of self.old)
            (asks.Values verb list.now) (data_of self.new) (L.heard out.old) (L.heard out.new) texts texts result }
        ensures stays { Stays self.old self.new }
        ensures keeps { KeepsFunctions (maker_of self.old) (maker_of self.new) }
        ensures number { IfErr result (StopsAt number) }
        ensures write { L.faults out.new ≡ faults_stopped (L.faults out.old) result }
        ensures refused { RefusedStopped (L.refusals out.old) (L.refusals out.new) result }
    {
        // a call for the proof alone: the maker has a column for each valuation
        self.is_well_formed();
        match verb {
            ValueVerb::Set => self.give(number, ValueCommand::Set, list),
            ValueVerb::Charge => self.give(number, ValueCommand::Charge, list),
            ValueVerb::Expect => self.expect(number, list, out),
        }
    }

    // Gives nodes their letters in each column.
    fn give(
        &mut self,
        number: u64,
        kind: ValueCommand,
        list: &AssignmentList,
    ) -> Result<Turn, SymbolFault>
        ensures gives { IsKnown (valuations_by self.old) self.old.names.names (truths_by self.old) (asked_values kind list.now) →
            GivesAsked (valuations_by self.old) (data_of self.old) (asked_values kind list.now) (data_of self.new) result }
        ensures stays { Stays self.old self.new }
        ensures keeps { KeepsFunctions (maker_of self.old) (maker_of self.new) }
        ensures own { IfErr result (IsOwnFault number) }
    {
        // a call for the proof alone: there is a column, and all functions live on
        self.is_well_formed();
        let names = &self.outside.names;
        let ended = give(&mut self.session, self.alloc, kind, names, list);
        turn_given(number, ended)
    }

    // `expect`: tells of each assignment that isn't met in some column.
    fn expect<L: SymbolLines>(
        &mut self,
        number: u64,
        list: &AssignmentList,
        out: &mut L,
    ) -> Result<Turn, SymbolFault>
        ensures turn { IsKnown (valuations_by self.old) self.old.names.names (truths_by self.old) (asks.Values is_verb.Expect list.now) →
            (texts : List GroupTextData) → TakesAsked (maker_of self.new) L.hear L.part (valuations_by self.old) (data_of self.old)
            (asks.Values is_verb.Expect list.now) (data_of self.new) (L.heard out.old) (L.heard out.new) texts texts result }
        ensures stays { Stays self.old self.new }
        ensures keeps { KeepsFunctions (maker_of self.old) (maker_of self.new) }
        ensures number { IfErr result (StopsAt number) }
        ensures write { L.faults out.new ≡ faults_stopped (L.faults out.old) result }
        ensures refused { RefusedStopped (L.refusals out.old) (L.refusals out.new) result }
    {
        // a call for the proof alone: there is a column
        self.is_well_formed();
        match self.tell_unmet(list, out) {
            Ok(missed) => self.remember(number, missed, list),
            Err(fault) => turn_expected(number, fault),
        }
    }

    // Tells of each assignment that isn't met in some column. The answer is whether anything was told.
    fn tell_unmet<L: SymbolLines>(
        &mut self,
        list: &AssignmentList,
        out: &mut L,
    ) -> Result<bool, ExpectFault>
        ensures told { (v : Valuations) → AreMeantBy self.old.session self.old.names list.now v →
            ExpectsInAll L.hear L.part v (data_of self.old) list.now (L.heard out.old) (L.heard out.new) result }
        ensures core { self.new.session.core ≡ self.old.session.core }
        ensures same { AreSame (columns_in (maker_of self.old)) (data_of self.old) (data_of self.new) }
        ensures stays { Stays self.old self.new }
        ensures keeps { KeepsFunctions (maker_of self.old) (maker_of self.new) }
        ensures faults { L.faults out.new ≡ faults_expected (L.faults out.old) result }
        ensures refusals { RefusedExpected (L.refusals out.old) (L.refusals out.new) result }
    {
        let names = &self.outside.names;
        expect(&mut self.session, self.alloc, names, list, self.count, out)
    }

    // Remembers in which columns these assignments, each of which gives letters, aren't all met, if they aren't in some.
    fn remember(
        &mut self,
        number: u64,
        missed: bool,
        list: &AssignmentList,
    ) -> Result<Turn, SymbolFault>
        requires { All (IsGiven self.old.session.core.circuit self.old.session.core.vectors) list.now }
        ensures notes { Remembers missed self.old list.now self.new result }
        ensures stays { Stays self.old self.new }
        ensures keeps { KeepsFunctions (maker_of self.old) (maker_of self.new) }
        ensures own { IfErr result (IsOwnFault number) }
    {
        if !missed {
            return Ok(Turn::Accepted);
        }
        match self.note_missed(list.items()) {
            Ok(()) => Ok(Turn::Accepted),
            Err(fault) => Err(fault_at(number, fault)),
        }
    }
}

// What becomes of a line that gives nodes letters.
fn turn_given(number: u64, ended: Result<(), GivingFault>) -> Result<Turn, SymbolFault>
    ensures { result ≡ spec.turn_given number ended }
{
    match ended {
        Ok(()) => Ok(Turn::Accepted),
        Err(GivingFault::Refused(refusal)) => Ok(Turn::Refused(refusal_code(refusal))),
        Err(GivingFault::Full) => Err(SymbolFault::Full(number)),
        Err(GivingFault::NoMemory) => Err(want()),
    }
}

// What becomes of a line whose expectations weren't all told.
fn turn_expected(number: u64, fault: ExpectFault) -> Result<Turn, SymbolFault>
    ensures { result ≡ spec.turn_expected number fault }
{
    match fault {
        ExpectFault::Refused(refusal) => Ok(Turn::Refused(refusal_code(refusal))),
        ExpectFault::Full => Err(SymbolFault::Full(number)),
        ExpectFault::NoMemory => Err(want()),
        ExpectFault::Unheard(fault) => Err(SymbolFault::Stopped(Stop::of_write(fault))),
    }
}
