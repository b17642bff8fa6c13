//! The commands that say of names.

ghost use Rattle.std.specs.Prelude.{◌≡◌, ◌<◌, ℕ, Ok, false, IfErr, IfOk, OnOk};
ghost use Rattle.symbol_lines.specs.declared.commands.SymbolCommand.TheVariants as command;
ghost use Rattle.symbol_session.specs.Words.{has_name, value_named, with_named, truth_of, columns_in, function_holds, IsFunctionOf};
ghost use Rattle.symbol_session.specs.Words.{KeepsFunctions};
ghost use Rattle.symbol_script.specs.declared.line.SymbolLine.TheVariants as asks;
ghost use Rattle.symbol_session.specs.Asked.{AreSame, NamesAsked};
ghost use Rattle.symbol_session.specs.Sessions.{Stays, data_of, maker_of, truths_by};
ghost use Rattle.symbol_session.specs.Turns as spec;
ghost use Rattle.symbol_session.specs.Turns.{HasNext, IsOwnFault};

use crate::SymbolSession;
use crate::turns::{fault_at, want};
use decision_graph::{Function, GraphFault};
use formulas::Formula;
use printed_lines::FaultCode;
use script_lang::Name;
use script_meaning::Turn;
use symbol_giving::formula_letters;
use symbol_lines::SymbolCommand;
use symbol_run::SymbolFault;
use symbol_stage::Letters;
use ternary::NoMemory;

impl SymbolSession {
    /// Does a command that says of names: of these `let` alone does anything, which puts its name behind the others of the table.
    pub(crate) fn name(&mut self, number: u64, command: &SymbolCommand) -> Result<Turn, SymbolFault>
        ensures quiet { self.new.quiet ≡ self.old.quiet }
        ensures text { self.new.text ≡ self.old.text }
        ensures same { AreSame (columns_in (maker_of self.old)) (data_of self.old) (data_of self.new) }
        ensures names { NamesAsked self.old.names.names (asks.Names command.now) result }
        ensures next { result ≡ Ok Turn.Accepted → HasNext self.old self.new (asks.Names command.now) }
        ensures keeps { KeepsFunctions (maker_of self.old) (maker_of self.new) }
        ensures own { IfErr result (IsOwnFault number) }
    {
        match command {
            SymbolCommand::Let(name, formula) => self.define(number, name, formula),
            SymbolCommand::Variables(_) => Ok(Turn::Accepted),
            SymbolCommand::Vertices(_) => Ok(Turn::Accepted),
        }
    }

    // `let`: makes the function of the formula, and lets the name stand for it.
    fn define(&mut self, number: u64, name: &Name, formula: &Formula) -> Result<Turn, SymbolFault>
        ensures quiet { self.new.quiet ≡ self.old.quiet }
        ensures text { self.new.text ≡ self.old.text }
        ensures same { AreSame (columns_in (maker_of self.old)) (data_of self.old) (data_of self.new) }
        ensures names { NamesAsked self.old.names.names (asks.Names (command.Let name.now formula.now)) result }
        ensures next { result ≡ Ok Turn.Accepted → HasNext self.old self.new (asks.Names (command.Let name.now formula.now)) }
        ensures keeps { KeepsFunctions (maker_of self.old) (maker_of self.new) }
        ensures own { IfErr result (IsOwnFault number) }
    {
        if self.defined(name) {
            return Ok(Turn::Refused(FaultCode::S18NameDefined));
        }
        self.define_new(number, name, formula)
    }

    // Whether a name stands for a function.
    fn defined(&self, name: &Name) -> bool
        ensures { result ≡ has_name self.now.names.names name.now }
    {
        // a call for the proof alone: each name has a function
        let _functions = self.outside.names.functions();
        self.outside.names.function(name.items()).is_some()
    }

    // Lets a name that isn't there stand for the function of a formula.
    fn define_new(
        &mut self,
        number: u64,
        name: &Name,
        formula: &Formula,
    ) -> Result<Turn, SymbolFault>
        requires { has_name self.old.names.names name.now ≡ false }
        ensures quiet { self.new.quiet ≡ self.old.quiet }
        ensures text { self.new.text ≡ self.old.text }
        ensures same { AreSame (columns_in (maker_of self.old)) (data_of self.old) (data_of self.new) }
        ensures names { NamesAsked self.old.names.names (asks.Names (command.Let name.now formula.now)) result }
        ensures next { result ≡ Ok Turn.Accepted → HasNext self.old self.new (asks.Names (command.Let name.now formula.now)) }
        ensures keeps { KeepsFunctions (maker_of self.old) (maker_of self.new) }
        ensures own { IfErr result (IsOwnFault number) }
    {
        // a call for the proof alone: the names' functions are the session's
        self.is_well_formed();
        match self.letters_of_formula(formula) {
            Ok(letters) => self.add_name(name, letters.hi),
            Err(fault) => Err(fault_at(number, fault)),
        }
    }

    // Makes the letters of a formula.
    fn letters_of_formula(&mut self, formula: &Formula) -> Result<Letters, GraphFault>
        ensures stays { Stays self.old self.new }
        ensures same { AreSame (columns_in (maker_of self.old)) (data_of self.old) (data_of self.new) }
        ensures table { self.new.names ≡ self.old.names }
        ensures keeps { KeepsFunctions (maker_of self.old) (maker_of self.new) }
        ensures inside { IfOk result (λ letters. IsFunctionOf (maker_of self.new) letters.hi) }
        ensures truth { IfOk result (λ letters. (column : ℕ) → column < columns_in (maker_of self.old) → function_holds (maker_of self.new) letters.hi column
            ≡ truth_of (value_named self.old.names.names (truths_by self.old column)) formula.now) }
    {
        let names = &self.outside.names;
        formula_letters(&mut self.session, names, formula.parts())
    }

    // Lets a name that isn't there stand for a function.
    fn add_name(&mut self, name: &Name, function: Function) -> Result<Turn, SymbolFault>
        requires fresh { has_name self.old.names.names name.now ≡ false }
        requires inside { IsFunctionOf (maker_of self.old) function }
        ensures others { self.new ≡ record self.old { names = self.new.names } }
        ensures ok { OnOk result (self.new.names ≡ with_named self.old.names name.now function) }
        ensures accepted { IfOk result (λ turn. turn ≡ Turn.Accepted) }
        ensures memory { IfErr result (λ fault. fault ≡ spec.want) }
    {
        match self.outside.names.add(self.alloc, name.items(), function) {
            Ok(()) => Ok(Turn::Accepted),
            Err(NoMemory) => Err(want()),
        }
    }
}
