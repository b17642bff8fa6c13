//! States that are kept under names in all columns, and given back.

ghost use Rattle.std.specs.Prelude.{◌≡◌, ℕ, ◌+◌, ◌<◌, ◌≤◌, length, All, IfErr, IfOk, OnErr, OnOk};
ghost use Rattle.script_lang.specs.declared.command.Command.TheVariants as family;
ghost use Rattle.script_lang.specs.declared.command.Give.TheVariants as given;
ghost use Rattle.script_lang.specs.declared.command.Setup.TheVariants as asked;
ghost use Rattle.symbol_session.specs.Words.{assigned, letters_in_column, nodes, GivesLetters, letter_given, columns_in, KeepsFunctions};
ghost use Rattle.switch_paths.specs.declared.TheConstants.{RAILS};
ghost use Rattle.symbol_session.specs.Asked.{IsOfGive, QuietlyAsked};
ghost use Rattle.symbol_session.specs.Keeping as keeping;
ghost use Rattle.symbol_session.specs.Keeping.{KeepsStates};
ghost use Rattle.symbol_session.specs.Sessions.{Stays, data_of, maker_of};
ghost use Rattle.symbol_session.specs.Turns as spec;

use crate::SymbolSession;
use crate::keeping::{FoundSave, back_letters, found_save, keep_rails, other_saves, session_rails};
use crate::turns::want;
use printed_lines::FaultCode;
use script_lang::{Give, Name};
use script_meaning::Turn;
use session_meaning::MOST_SAVES;
use symbol_run::SymbolFault;
use symbol_stage::Letters;
use ternary::NoMemory;

impl SymbolSession {
    /// `save`: keeps in each column the present states of all nodes under a name, in the place of those that it kept.
    pub(crate) fn save(&mut self, name: &Name) -> Result<Turn, SymbolFault>
        ensures quiet { QuietlyAsked (columns_in (maker_of self.old)) (data_of self.old) (family.Setup (asked.Save name.now)) (data_of self.new) result }
        ensures stays { Stays self.old self.new }
        ensures keeps { KeepsFunctions (maker_of self.old) (maker_of self.new) }
        ensures memory { IfErr result (λ fault. fault ≡ spec.want) }
    {
        // a call for the proof alone: a session is well formed
        self.is_well_formed();
        let others = self.others(name);
        if others >= MOST_SAVES {
            return Ok(Turn::Refused(FaultCode::S15TooManySaves));
        }
        match self.keep_states(name) {
            Ok(()) => Ok(Turn::Accepted),
            Err(NoMemory) => Err(want()),
        }
    }

    // How many other names keep states.
    fn others(&self, name: &Name) -> usize
        ensures { result ≡ keeping.other_saves self.now.saves name.now }
    {
        other_saves(&self.saves, name.items())
    }

    // Keeps the present states of all nodes under a name. Out of memory all is as before.
    fn keep_states(&mut self, name: &Name) -> Result<(), NoMemory>
        ensures ok { OnOk result (KeepsStates self.old name.now self.new) }
        ensures err { OnErr result (self.new ≡ self.old) }
    {
        // a call for the proof alone: a session is well formed
        self.is_well_formed();
        let rails = session_rails(self.alloc, &self.session)?;
        match keep_rails(
            self.alloc,
            &mut self.saves,
            &mut self.outside.kept,
            name,
            &rails,
        ) {
            Ok(()) => Ok(()),
            Err(NoMemory) => Err(NoMemory),
        }
    }

    /// `back`: gives in each column each node that was there at the save the state that was kept under the name.
    pub(crate) fn give_back(&mut self, give: &Give) -> Result<Turn, SymbolFault>
        requires { IsOfGive give.now }
        ensures quiet { QuietlyAsked (columns_in (maker_of self.old)) (data_of self.old) (family.Give give.now) (data_of self.new) result }
        ensures stays { Stays self.old self.new }
        ensures keeps { KeepsFunctions (maker_of self.old) (maker_of self.new) }
        ensures memory { IfErr result (λ fault. fault ≡ spec.want) }
    {
        match give {
            Give::Back(name) => self.back(name),
            Give::Set(_) | Give::Charge(_) => unreachable!(),
        }
    }

    // `back`.
    fn back(&mut self, name: &Name) -> Result<Turn, SymbolFault>
        ensures quiet { QuietlyAsked (columns_in (maker_of self.old)) (data_of self.old) (family.Give (given.Back name.now)) (data_of self.new) result }
        ensures stays { Stays self.old self.new }
        ensures keeps { KeepsFunctions (maker_of self.old) (maker_of self.new) }
        ensures memory { IfErr result (λ fault. fault ≡ spec.want) }
    {
        // a call for the proof alone: a session is well formed
        self.is_well_formed();
        let found = self.found(name);
        let there = found.there;
        if !there {
            return Ok(Turn::Refused(FaultCode::S16NoSave));
        }
        match self.letters_kept(found) {
            Ok(pairs) => {
                self.put_letters(&pairs);
                Ok(Turn::Accepted)
            }
            Err(NoMemory) => Err(want()),
        }
    }

    // Where a name stands among those that keep states.
    fn found(&self, name: &Name) -> FoundSave
        ensures there { result.there ≡ keeping.is_kept self.now.saves name.now }
        ensures place { result.place ≡ 1 + keeping.kept_by (keeping.before_save self.now.saves name.now) }
        ensures nodes { result.nodes ≡ keeping.nodes_under self.now.saves name.now }
    {
        found_save(&self.saves, name.items())
    }

    // The nodes past the rails of what was found, each with the letters that were kept.
    fn letters_kept(&self, found: FoundSave) -> Result<Vec<(usize, Letters)>, NoMemory>
        requires within { found.place + (found.nodes + found.nodes) ≤ length self.now.kept }
        requires railed { RAILS ≤ found.nodes }
        ensures { IfOk result (λ pairs. pairs.items ≡ keeping.letters_from self.now.kept found.place found.nodes) }
    {
        back_letters(self.alloc, &self.outside.kept, found)
    }

    // Gives these nodes, none of which is a rail, their letters in each column, from left to right.
    fn put_letters(&mut self, pairs: &[(usize, Letters)])
        requires within { All (λ pair. pair.0 < nodes self.old.session.core.circuit.graph) pairs.now }
        requires past { All (λ pair. RAILS ≤ pair.0) pairs.now }
        requires own { All (λ pair. GivesLetters self.old.session.stage pair.1) pairs.now }
        ensures given { (column : ℕ) → column < columns_in (maker_of self.old) → data_of self.new column
            ≡ record (data_of self.old column) { state = assigned (data_of self.old column).state (letters_in_column letter_given self.old.session.stage pairs.now column) } }
        ensures stays { Stays self.old self.new }
        ensures keeps { KeepsFunctions (maker_of self.old) (maker_of self.new) }
    {
        // a call for the proof alone: there is a column, and all functions live on
        self.is_well_formed();
        self.session.give_in_all(pairs);
    }
}
