//! What ends an `expect` before all of it was told.
ghost use Rattle.std.specs.Prelude.{◌≡◌};

use decision_graph::GraphFault;
use ports::PortFault;
use session_meaning::Refusal;
use std::alloc::AllocError;

/// What ends an `expect` before all of it was told.
#[derive(Clone, Copy, Debug, PartialEq, Eq)]
pub enum ExpectFault {
    /// It is refused, in all columns alike.
    Refused(Refusal),
    /// One vertex more was wanted than there may be.
    Full,
    /// Memory ran out, but not the hearer's.
    NoMemory,
    /// The hearer met a fault.
    Unheard(PortFault),
}

impl From<AllocError> for ExpectFault {
    ghost use Rattle.symbol_expecting.specs.declared.fault.ExpectFault.TheVariants.{NoMemory};

    ghost from_gives = { λ _ fault. fault ≡ NoMemory };

    fn from(_want: AllocError) -> ExpectFault {
        ExpectFault::NoMemory
    }
}

impl From<GraphFault> for ExpectFault {
    ghost use Rattle.symbol_expecting.specs.Faults.{of_graph};

    ghost from_gives = { λ fault own. own ≡ of_graph fault };

    fn from(fault: GraphFault) -> ExpectFault {
        match fault {
            GraphFault::Full => ExpectFault::Full,
            GraphFault::NoMemory => ExpectFault::NoMemory,
        }
    }
}
