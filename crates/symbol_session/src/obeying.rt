//! A line, read and obeyed in all columns.

ghost use Rattle.std.specs.Prelude.{◌≡◌, ◌∷◌, ℕ, List, Ok, IfErr};
ghost use Rattle.symbol_session.specs.Words.{IsFormed, script_code, faults_stopped, RefusedStopped, StopsAt, TakesTurnInAll};
ghost use Rattle.symbol_session.specs.Words.{KeepsFunctions, TakesTurnRailed};
ghost use Rattle.symbol_script.specs.declared.line.SymbolLine.TheVariants as asks;
ghost use Rattle.symbol_session.specs.Asked.{IsAskable, IsKnown, IsOfScript};
ghost use Rattle.symbol_session.specs.Sessions.{ServesLines, Stays, data_of, maker_of, truths_by, valuations_by};
ghost use Rattle.symbol_session.specs.Turns.{HasNext, TakesAsked, turn_unread};

use crate::SymbolSession;
use crate::turns::want;
use group_analysis::Analyst;
use line_words::Line;
use printed_lines::FaultCode;
use script_lang::{Command, ScriptFault};
use script_meaning::Turn;
use script_run::script_code;
use symbol_run::SymbolFault;
use symbol_script::{SymbolLine, read_symbol_line};
use symbol_told::SymbolLines;

impl SymbolSession {
    /// Obeys a line, or tells why it is refused. The one that holds the first byte too many of the script is refused.
    pub(crate) fn obey_line<L: SymbolLines, A: Analyst>(
        &mut self,
        cut: Option<u64>,
        line: Line<'_>,
        out: &mut L,
        analyst: &mut A,
    ) -> Result<Turn, SymbolFault>
        ensures quiet { self.new.quiet ≡ self.old.quiet }
        ensures text { self.new.text ≡ self.old.text }
        ensures turn { (rest : List (ℕ × List ℕ)) → ServesLines self.old cut ((line.entry.number, line.entry.bytes.now) ∷ rest) →
            TakesTurnInAll L.hear L.part self.old.quiet (valuations_by self.old) cut (data_of self.old) (line.entry.number, line.entry.bytes.now) rest
            (data_of self.new) (L.heard out.old) (L.heard out.new) (A.analysed analyst.old) (A.analysed analyst.new) result }
        ensures serves { (rest : List (ℕ × List ℕ)) → ServesLines self.old cut ((line.entry.number, line.entry.bytes.now) ∷ rest) →
            result ≡ Ok Turn.Accepted → ServesLines self.new cut rest }
        ensures noted { (rest : List (ℕ × List ℕ)) → ServesLines self.old cut ((line.entry.number, line.entry.bytes.now) ∷ rest) →
            TakesTurnRailed (maker_of self.new) L.hear self.old.quiet (valuations_by self.old) cut (data_of self.old) (line.entry.number, line.entry.bytes.now)
            (data_of self.new) (L.heard out.old) (L.heard out.new) (A.analysed analyst.old) (A.analysed analyst.new) result }
        ensures keeps { KeepsFunctions (maker_of self.old) (maker_of self.new) }
        ensures number { IfErr result (StopsAt line.entry.number) }
        ensures write { L.faults out.new ≡ faults_stopped (L.faults out.old) result }
        ensures refused { RefusedStopped (L.refusals out.old) (L.refusals out.new) result }
    {
        // a call for the proof alone: the maker has the script's variables
        self.is_well_formed();
        if cut == Some(line.number) {
            return Ok(Turn::Refused(FaultCode::S11TooLong));
        }
        match read_symbol_line(self.alloc, line.bytes, self.quiet) {
            Ok(Some(asked)) => self.obey_asked(line.number, &asked, out, analyst),
            Ok(None) => Ok(Turn::Accepted),
            Err(fault) => unread(fault),
        }
    }

    // Does in all columns what a line asks for.
    fn obey_asked<L: SymbolLines, A: Analyst>(
        &mut self,
        number: u64,
        asked: &SymbolLine,
        out: &mut L,
        analyst: &mut A,
    ) -> Result<Turn, SymbolFault>
        requires { IsAskable asked.now }
        ensures quiet { self.new.quiet ≡ self.old.quiet }
        ensures text { self.new.text ≡ self.old.text }
        ensures turn { IsKnown (valuations_by self.old) self.old.names.names (truths_by self.old) asked.now →
            TakesAsked (maker_of self.new) L.hear L.part (valuations_by self.old) (data_of self.old) asked.now
            (data_of self.new) (L.heard out.old) (L.heard out.new) (A.analysed analyst.old) (A.analysed analyst.new) result }
        ensures next { result ≡ Ok Turn.Accepted → HasNext self.old self.new asked.now }
        ensures keeps { KeepsFunctions (maker_of self.old) (maker_of self.new) }
        ensures number { IfErr result (StopsAt number) }
        ensures write { L.faults out.new ≡ faults_stopped (L.faults out.old) result }
        ensures refused { RefusedStopped (L.refusals out.old) (L.refusals out.new) result }
    {
        // a call for the proof alone: the maker has a column for each valuation
        self.is_well_formed();
        match asked {
            SymbolLine::Values(verb, list) => self.obey_values(number, *verb, list, out),
            SymbolLine::Names(command) => self.name(number, command),
            SymbolLine::Plain(command) => self.obey_plain(number, command, out, analyst),
        }
    }

    // Does a plain command, the same in each column.
    fn obey_plain<L: SymbolLines, A: Analyst>(
        &mut self,
        number: u64,
        command: &Command,
        out: &mut L,
        analyst: &mut A,
    ) -> Result<Turn, SymbolFault>
        requires { IsFormed command.now × IsOfScript command.now }
        ensures stays { Stays self.old self.new }
        ensures keeps { KeepsFunctions (maker_of self.old) (maker_of self.new) }
        ensures turn { TakesAsked (maker_of self.new) L.hear L.part (valuations_by self.old) (data_of self.old) (asks.Plain command.now)
            (data_of self.new) (L.heard out.old) (L.heard out.new) (A.analysed analyst.old) (A.analysed analyst.new) result }
        ensures number { IfErr result (StopsAt number) }
        ensures write { L.faults out.new ≡ faults_stopped (L.faults out.old) result }
        ensures refused { RefusedStopped (L.refusals out.old) (L.refusals out.new) result }
    {
        // a call for the proof alone: the maker has a column for each valuation
        self.is_well_formed();
        match command {
            Command::Edit(edit) => self.edit(edit),
            Command::Give(give) => self.give_back(give),
            Command::Setup(setup) => self.set_up(setup),
            Command::Run(run) => self.run(number, run, out, analyst),
            Command::Tell(tell) => self.tell(tell, out),
        }
    }
}

// What becomes of a line that is no command.
fn unread(fault: ScriptFault) -> Result<Turn, SymbolFault>
    ensures { result ≡ turn_unread (script_code fault) }
{
    match script_code(fault) {
        Some(code) => Ok(Turn::Refused(code)),
        None => Err(want()),
    }
}
