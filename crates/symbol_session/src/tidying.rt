//! The graph of functions is kept small between lines.

ghost use Rattle.std.specs.Prelude.{◌≡◌, ◌+◌, ◌<◌, length, drop, All};
ghost use Rattle.truth_makers.specs.Makers.{columns_in, IsFunctionOf};
ghost use Rattle.symbol_equiv.specs.Sharing.{StandFor};
ghost use Rattle.symbol_session.specs.Asked.{AreSame};
ghost use Rattle.symbol_session.specs.Sessions.{Stays, data_of, maker_of};
ghost use Rattle.symbol_session.specs.Tidying.{AreTidied};

use crate::SymbolSession;
use crate::starting::NOTES;
use cosmos_session::Session;
use decision_graph::Function;
use symbol_stage::{Outside, SymbolStage};

impl SymbolSession {
    /// Lets functions go that nothing needs any more, unless the script is quiet: then others have functions of the session.
    pub(crate) fn tidy_unless_quiet(&mut self)
        ensures stays { Stays self.old self.new }
        ensures same { AreSame (columns_in (maker_of self.old)) (data_of self.old) (data_of self.new) }
    {
        if !self.quiet {
            self.tidy_with(&mut []);
        }
    }

    /// Lets functions go that neither it nor this list needs, if the graph has grown, and puts into the list what stands for those that
    /// it had. It can't fail: if memory lacks, all is as before.
    pub(crate) fn tidy_with(&mut self, others: &mut [Function])
        requires { All (IsFunctionOf (maker_of self.old)) others.old }
        ensures stays { Stays self.old self.new }
        ensures same { AreSame (columns_in (maker_of self.old)) (data_of self.old) (data_of self.new) }
        ensures moved { StandFor (maker_of self.old) (maker_of self.new) others.old others.new }
    {
        // a call for the proof alone: all functions are the maker's
        self.is_well_formed();
        tidy_parts(&mut self.session, &mut self.outside, others);
    }

    /// Notes how many vertices there are now.
    pub(crate) fn note_left(&mut self)
        ensures { self.new ≡ self.old }
    {
        self.left = self.session.stage().symbols().graph.size();
    }
}

// Lets functions go that neither the session nor these need, if the graph has grown, and puts in their places what stands for them.
// If memory lacks, all is as before.
fn tidy_parts(session: &mut Session<SymbolStage>, outside: &mut Outside, others: &mut [Function])
    requires named { All (IsFunctionOf session.old.stage.machine.maker) outside.old.names.functions }
    requires kept { All (IsFunctionOf session.old.stage.machine.maker) outside.old.kept.items }
    requires others { All (IsFunctionOf session.old.stage.machine.maker) others.old }
    requires some { 0 < outside.old.notes }
    ensures tidied { AreTidied session.old session.new outside.old.names outside.new.names outside.old.kept.items outside.new.kept.items others.old others.new }
    ensures some { 0 < outside.new.notes }
{
    let count = outside.kept.len();
    match outside.kept.extend_from_slice(others) {
        Ok(()) => {
            session.work_on_stage(outside);
            outside.notes = NOTES;
            put_rest(&outside.kept, count, others);
            outside.kept.truncate(count);
        }
        Err(_) => {}
    }
}

// Puts the functions of a list, from a place on, into another that has as many.
fn put_rest(found: &[Function], count: usize, list: &mut [Function])
    requires { length found.now ≡ count + length list.old }
    ensures { list.new ≡ drop count found.now }
{
    list.copy_from_slice(&found[count..]);
}
