//! The session of a symbolic script, and how it obeys a line.

ghost use Rattle.session_meaning.specs.Sessions.{IsHeldSession};
ghost use Rattle.symbol_stage.specs.Stages.{ServesIn, columns_on, states_in};
ghost use Rattle.symbol_session.specs.Sessions.{HasTrue, IsSymbolSession, maker_of};

use cosmos_session::Session;
use group_analysis::Analyst;
use line_words::Line;
use netlist::Circuit;
use node_words::Vectors;
use script_lang::Name;
use script_meaning::Turn;
use std::alloc::Global;
use std::marker::Model;
use symbol_run::{LineSession, SymbolFault};
use symbol_stage::{Outside, SymbolStage};
use symbol_told::SymbolLines;
use truth_columns::Truths;
use unseen_text::UnseenText;

/// A session that obeys the lines of a symbolic script: the session over the stage of functions; the names that stand for functions,
/// the script's variables first and then what was defined, and the functions that are kept beside them; the names under which
/// states are kept, each with the number of its nodes; how many waveform lines there were; and whether the script is quiet.
///
/// The functions that are kept stand in one list, so that they can go on together over another graph: first the one that holds where
/// an expectation wasn't met so far, and then for each name under which states are kept where its nodes may be 1, and where they may
/// be 0.
///
/// Contracts see besides the text of the script.
#[derive(Drop)]
pub struct SymbolSession {
    pub(crate) alloc: Global,
    pub(crate) session: Session<SymbolStage>,
    pub(crate) outside: Outside,
    pub(crate) saves: Vec<(Name, usize)>,
    pub(crate) count: u64,
    // how many vertices the graph had when functions were let go the last time
    pub(crate) left: u32,
    pub(crate) quiet: bool,
    pub(crate) text: UnseenText,
}

impl Model for SymbolSession {
    ghost use Rattle.std.specs.Prelude.{◌<◌};
    ghost use Rattle.symbol_session.specs.Sessions.{IsSymbolSession, SymbolData};

    ghost Value = { SymbolData };

    ghost view = { λ own. record { session = own.session; names = own.outside.names; kept = own.outside.kept.items; saves = own.saves.items; count = own.count; quiet = own.quiet; text = own.text.text } };

    ghost invariant = { λ own. IsSymbolSession (record { session = own.session; names = own.outside.names; kept = own.outside.kept.items; saves = own.saves.items; count = own.count; quiet = own.quiet; text = own.text.text })
        × (0 < own.outside.notes) };
}

impl SymbolSession {
    /// Each session is well formed: a call of this is for its contract alone.
    pub(crate) fn is_well_formed(&self)
        ensures own { IsSymbolSession self.now }
        ensures session { IsHeldSession columns_on states_in ServesIn self.now.session }
        ensures constant { HasTrue (maker_of self.now) }
    {
        let _circuit = self.session.circuit();
        let _always = self.session.stage().symbols().constant(true);
    }
}

impl LineSession for SymbolSession {
    ghost use Rattle.symbol_session.specs.Sessions.{ServesLines, data_of, valuations_by};

    ghost quiet = { λ own. own.quiet };

    ghost valuations = { valuations_by };

    ghost sessions = { data_of };

    ghost serves = { ServesLines };

    fn circuit(&self) -> &Circuit {
        self.session.circuit()
    }

    fn vectors(&self) -> &Vectors {
        self.session.vectors()
    }

    fn obey<L: SymbolLines, A: Analyst>(
        &mut self,
        cut: Option<u64>,
        line: Line<'_>,
        out: &mut L,
        analyst: &mut A,
    ) -> Result<Turn, SymbolFault> {
        // calls for the proof alone: the maker has a column for each valuation, before the line and behind it
        self.is_well_formed();
        let turn = self.obey_line(cut, line, out, analyst)?;
        self.is_well_formed();
        self.tidy_unless_quiet();
        Ok(turn)
    }
}
