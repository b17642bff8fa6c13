//! The session as one that goes on over a maker of functions which others have functions of.

use crate::SymbolSession;
use decision_graph::{Function, GraphFault};
use group_analysis::Analyst;
use line_words::Line;
use script_meaning::Turn;
use symbol_equiv::SharesMaker;
use symbol_run::SymbolFault;
use symbol_told::SymbolLines;
use truth_makers::Symbols;

impl SharesMaker for SymbolSession {
    ghost use Rattle.symbol_session.specs.Sessions.{maker_of};

    ghost maker = { maker_of };

    fn obey_noted<L: SymbolLines, A: Analyst>(
        &mut self,
        cut: Option<u64>,
        line: Line<'_>,
        out: &mut L,
        analyst: &mut A,
    ) -> Result<Turn, SymbolFault> {
        self.obey_line(cut, line, out, analyst)
    }

    fn has_grown(&self) -> bool {
        let graph = &self.session.stage().symbols().graph;
        graph.size() / 2 > self.left
    }

    fn tidy(&mut self, others: &mut Vec<Function>) {
        // a call for the proof alone: the columns are those of the valuations
        self.is_well_formed();
        self.tidy_with(others);
        self.note_left();
    }

    fn leave(&self, others: &mut Vec<Function>) -> Result<Symbols, GraphFault> {
        self.make_leave(others)
    }
}
