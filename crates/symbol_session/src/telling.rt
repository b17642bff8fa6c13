//! The commands that tell of what is there: `show` and `look`.

ghost use Rattle.std.specs.Prelude.{◌≡◌, ℕ, List, IfErr};
ghost use Rattle.symbol_session.specs.Words.{GroupTextData, told_by, refusal_of_tell, faults_applied, AreMerged, RefusedTelling};
ghost use Rattle.symbol_session.specs.Words.{TellsInAll, tellings, faults_stopped, RefusedStopped, StopsAt, columns_in};
ghost use Rattle.script_lang.specs.declared.command.Command.TheVariants as family;
ghost use Rattle.symbol_script.specs.declared.line.SymbolLine.TheVariants as asks;
ghost use Rattle.symbol_session.specs.Asked.{IsOfTell};
ghost use Rattle.symbol_session.specs.Sessions.{data_of, maker_of, valuations_by};
ghost use Rattle.symbol_session.specs.Turns.{TakesAsked, told_of};

use crate::SymbolSession;
use crate::turns::turn_of;
use script_lang::Tell;
use script_meaning::Turn;
use session_meaning::ApplyFault;
use symbol_looking::{look, show};
use symbol_run::SymbolFault;
use symbol_told::SymbolLines;

impl SymbolSession {
    /// Tells of what is there in all columns, and changes nothing.
    pub(crate) fn tell<L: SymbolLines>(&self, tell: &Tell, out: &mut L) -> Result<Turn, SymbolFault>
        requires { IsOfTell tell.now }
        ensures turn { (texts : List GroupTextData) → TakesAsked (maker_of self.now) L.hear L.part (valuations_by self.now) (data_of self.now)
            (asks.Plain (family.Tell tell.now)) (data_of self.now) (L.heard out.old) (L.heard out.new) texts texts result }
        ensures number { (number : ℕ) → IfErr result (StopsAt number) }
        ensures write { L.faults out.new ≡ faults_stopped (L.faults out.old) result }
        ensures refused { RefusedStopped (L.refusals out.old) (L.refusals out.new) result }
    {
        // a call for the proof alone: the maker has the script's variables
        self.is_well_formed();
        let ended = self.tell_names(tell, out);
        turn_of(ended)
    }

    // Tells of names.
    fn tell_names<L: SymbolLines>(&self, tell: &Tell, out: &mut L) -> Result<(), ApplyFault>
        requires { IsOfTell tell.now }
        ensures tells { TellsInAll L.hear L.part (refusal_of_tell self.now.session.core.circuit self.now.session.core.vectors tell.now)
            (tellings (told_of self.now.session tell.now)) (L.heard out.old) (L.heard out.new) result }
        ensures merged { AreMerged (columns_in (maker_of self.now)) (λ column. told_by (data_of self.now column) tell.now) (told_of self.now.session tell.now) }
        ensures faults { L.faults out.new ≡ faults_applied (L.faults out.old) result }
        ensures refusals { RefusedTelling (L.refusals out.old) (L.refusals out.new) result }
    {
        match tell {
            Tell::Show(names) => show(self.alloc, &self.session, names.items(), out),
            Tell::Look(names) => look(&self.session, names.items(), out),
            Tell::Expect(_) => unreachable!(),
        }
    }
}
