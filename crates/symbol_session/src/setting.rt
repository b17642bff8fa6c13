//! Edits, and the commands that set what later ones go by.

ghost use Rattle.std.specs.Prelude.{◌≡◌, IfErr};
ghost use Rattle.symbol_session.specs.Words.{IsFormedSetup, IsSharedSetup, columns_in, KeepsFunctions};
ghost use Rattle.script_lang.specs.declared.command.Command.TheVariants as family;
ghost use Rattle.symbol_session.specs.Asked.{IsOfSetup, QuietlyAsked};
ghost use Rattle.symbol_session.specs.Sessions.{Stays, data_of, maker_of};
ghost use Rattle.symbol_session.specs.Turns.{want};

use crate::SymbolSession;
use crate::turns::turn_of;
use script_lang::{Edit, Setup};
use script_meaning::Turn;
use symbol_run::SymbolFault;

impl SymbolSession {
    /// Does an edit of the circuit in each column: each node that is new is X.
    pub(crate) fn edit(&mut self, edit: &Edit) -> Result<Turn, SymbolFault>
        ensures quiet { QuietlyAsked (columns_in (maker_of self.old)) (data_of self.old) (family.Edit edit.now) (data_of self.new) result }
        ensures stays { Stays self.old self.new }
        ensures keeps { KeepsFunctions (maker_of self.old) (maker_of self.new) }
        ensures memory { IfErr result (λ fault. fault ≡ want) }
    {
        // calls for the proof alone: a session is well formed before and after
        self.is_well_formed();
        let ended = self.session.edit_in_all(edit);
        let _circuit = self.session.circuit();
        turn_of(ended)
    }

    /// Sets what later commands go by, or keeps the states of each column under a name.
    pub(crate) fn set_up(&mut self, setup: &Setup) -> Result<Turn, SymbolFault>
        requires { IsFormedSetup setup.now × IsOfSetup setup.now }
        ensures quiet { QuietlyAsked (columns_in (maker_of self.old)) (data_of self.old) (family.Setup setup.now) (data_of self.new) result }
        ensures stays { Stays self.old self.new }
        ensures keeps { KeepsFunctions (maker_of self.old) (maker_of self.new) }
        ensures memory { IfErr result (λ fault. fault ≡ want) }
    {
        match setup {
            Setup::Save(name) => self.save(name),
            _ => self.set_up_alike(setup),
        }
    }

    // Sets what later commands go by.
    fn set_up_alike(&mut self, setup: &Setup) -> Result<Turn, SymbolFault>
        requires { IsFormedSetup setup.now × IsSharedSetup setup.now }
        ensures quiet { QuietlyAsked (columns_in (maker_of self.old)) (data_of self.old) (family.Setup setup.now) (data_of self.new) result }
        ensures stays { Stays self.old self.new }
        ensures keeps { KeepsFunctions (maker_of self.old) (maker_of self.new) }
        ensures memory { IfErr result (λ fault. fault ≡ want) }
    {
        // a call for the proof alone: there is a column
        self.is_well_formed();
        let ended = self.session.set_up_in_all(setup);
        turn_of(ended)
    }
}
