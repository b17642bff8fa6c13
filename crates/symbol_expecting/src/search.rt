//! The search for the first valuation under which nodes aren't as they are wanted, as work on a session's stage.
ghost use Rattle.std.specs.Prelude.{IfErr, IfOk};
ghost use Rattle.truth_makers.specs.Makers.{IsSpent};
ghost use Rattle.symbol_giving.specs.Letters.{OnlyMakes};
ghost use Rattle.symbol_expecting.specs.Missing.{AreWantedOf, IsFirstMissed};

use crate::missing::first_missed;
use column_stage::Work;
use cosmos_session::Session;
use decision_graph::GraphFault;
use std::alloc::Global;
use symbol_giving::SymbolLetter;
use symbol_stage::SymbolStage;

// What is wanted of nodes, and what was found.
#[derive(Drop)]
struct Search<'a> {
    alloc: Global,
    pairs: &'a [(usize, SymbolLetter)],
    found: Result<Option<Vec<bool>>, GraphFault>,
}

impl Work<SymbolStage> for Search<'_> {
    ghost use Rattle.symbol_expecting.specs.Missing.{AreWantedOf, IsSearched};

    ghost asks = { λ search stage. AreWantedOf stage search.pairs.now };

    ghost done = { λ before old after new. IsSearched old new before.pairs.now after.found };

    fn work(&mut self, stage: &mut SymbolStage) {
        self.found = first_missed(self.alloc, stage, self.pairs);
    }
}

/// The valuation of the first column in which these nodes of a session aren't all as they are wanted; None exactly if they are in
/// all columns.
pub(crate) fn first_in_session(
    alloc: Global,
    session: &mut Session<SymbolStage>,
    pairs: &[(usize, SymbolLetter)],
) -> Result<Option<Vec<bool>>, GraphFault>
    requires { AreWantedOf session.old.stage pairs.now }
    ensures makes { OnlyMakes session.old session.new }
    ensures spent { IfErr result (IsSpent session.new.stage.machine.maker) }
    ensures first { IfOk result (IsFirstMissed session.new.stage pairs.now) }
{
    let mut search = Search {
        alloc,
        pairs,
        found: Err(GraphFault::NoMemory),
    };
    session.work_on_stage(&mut search);
    let Search { found, .. } = search;
    found
}
