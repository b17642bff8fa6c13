//! What ends a comparison of two circuits before its answer is written.

use decision_graph::GraphFault;
use run_ends::Stop;
use symbol_comparing::CompareFault;
use symbol_run::SymbolFault;
use ternary::NoMemory;

/// What ends a comparison of two circuits before its answer is written.
#[derive(Clone, Copy, Debug, PartialEq, Eq)]
pub enum EqualFault {
    /// A file could not be read, the output could not be written, or memory ran out.
    Stopped(Stop),
    /// One vertex more was wanted than there may be, at the line with this number in one of the runs.
    FullAt(u64),
    /// One vertex more was wanted than there may be, when a run was done or both were compared.
    Full,
}

impl From<SymbolFault> for EqualFault {
    ghost use Rattle.std.specs.Prelude.{◌≡◌};
    ghost use Rattle.symbol_equiv.specs.Ends.{fault_of_run};

    ghost from_gives = { λ fault own. own ≡ fault_of_run fault };

    fn from(fault: SymbolFault) -> EqualFault {
        match fault {
            SymbolFault::Stopped(stop) => EqualFault::Stopped(stop),
            SymbolFault::Full(number) => EqualFault::FullAt(number),
        }
    }
}

impl From<CompareFault> for EqualFault {
    ghost use Rattle.std.specs.Prelude.{◌≡◌};
    ghost use Rattle.symbol_equiv.specs.Ends.{fault_of_comparing};

    ghost from_gives = { λ fault own. own ≡ fault_of_comparing fault };

    fn from(fault: CompareFault) -> EqualFault {
        match fault {
            CompareFault::Stopped(stop) => EqualFault::Stopped(stop),
            CompareFault::Full => EqualFault::Full,
        }
    }
}

impl From<GraphFault> for EqualFault {
    ghost use Rattle.std.specs.Prelude.{◌≡◌};
    ghost use Rattle.symbol_equiv.specs.Ends.{fault_of_graph};

    ghost from_gives = { λ fault own. own ≡ fault_of_graph fault };

    fn from(fault: GraphFault) -> EqualFault {
        match fault {
            GraphFault::NoMemory => EqualFault::Stopped(Stop::Memory),
            GraphFault::Full => EqualFault::Full,
        }
    }
}

impl From<NoMemory> for EqualFault {
    ghost use Rattle.std.specs.Prelude.{◌≡◌};
    ghost use Rattle.run_ends.specs.declared.stop.Stop.TheVariants.{Memory};
    ghost use Rattle.symbol_equiv.specs.declared.fault.EqualFault.TheVariants.{Stopped};

    ghost from_gives = { λ _ own. own ≡ Stopped Memory };

    fn from(_want: NoMemory) -> EqualFault {
        EqualFault::Stopped(Stop::Memory)
    }
}

impl From<Stop> for EqualFault {
    ghost use Rattle.std.specs.Prelude.{◌≡◌};
    ghost use Rattle.symbol_equiv.specs.declared.fault.EqualFault.TheVariants.{Stopped};

    ghost from_gives = { λ stop own. own ≡ Stopped stop };

    fn from(stop: Stop) -> EqualFault {
        EqualFault::Stopped(stop)
    }
}
