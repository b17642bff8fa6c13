//! What ends a comparison before its answer is written.
ghost use Rattle.std.specs.Prelude.{◌≡◌};
ghost use Rattle.symbol_comparing.specs.Told as spec;

use decision_graph::GraphFault;
use run_ends::Stop;
use std::alloc::AllocError;

/// What ends a comparison before its answer is written.
#[derive(Clone, Copy, Debug, PartialEq, Eq)]
pub enum CompareFault {
    /// The output could not be written, or memory ran out.
    Stopped(Stop),
    /// One vertex more was wanted than there may be.
    Full,
}

/// What a comparison ends with if a function can't be made.
pub fn fault_of_graph(fault: GraphFault) -> CompareFault
    ensures { result ≡ spec.fault_of_graph fault }
{
    match fault {
        GraphFault::Full => CompareFault::Full,
        GraphFault::NoMemory => CompareFault::Stopped(Stop::Memory),
    }
}

impl From<AllocError> for CompareFault {
    ghost use Rattle.run_ends.specs.declared.stop.Stop.TheVariants.{Memory};
    ghost use Rattle.symbol_comparing.specs.declared.fault.CompareFault.TheVariants.{Stopped};

    ghost from_gives = { λ _ own. own ≡ Stopped Memory };

    fn from(_want: AllocError) -> CompareFault {
        CompareFault::Stopped(Stop::Memory)
    }
}
