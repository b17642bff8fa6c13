ghost use Rattle.std.specs.Prelude.{◌≡◌};
ghost use Rattle.run_ends.specs.Stops.{read_stop_of, write_stop_of};

use ports::PortFault;
use ternary::NoMemory;

/// How a run ends that meets no fault and no lack of memory.
#[derive(Clone, Copy, Debug, PartialEq, Eq)]
pub enum End {
    /// The script was obeyed to its end, or all that was asked for was written.
    Done,
    /// The script was obeyed to its end, and an expectation was not met; or the circuit has a finding.
    Mismatch,
    /// The words are no command line.
    Usage,
    /// A line of the netlist was refused.
    NetRefused,
    /// A line of the script was refused.
    ScriptRefused,
}

/// What ends a run before its answer is written.
#[derive(Clone, Copy, Debug, PartialEq, Eq)]
pub enum Stop {
    /// A file could not be read.
    Read,
    /// The output could not be written.
    Write,
    /// Memory ran out.
    Memory,
}

impl Stop {
    /// What a fault of reading stops with.
    pub fn of_read(fault: PortFault) -> Stop
        ensures { result ≡ read_stop_of fault }
    {
        match fault {
            PortFault::Failed => Stop::Read,
            PortFault::NoMemory => Stop::Memory,
        }
    }

    /// What a fault of writing stops with.
    pub fn of_write(fault: PortFault) -> Stop
        ensures { result ≡ write_stop_of fault }
    {
        match fault {
            PortFault::Failed => Stop::Write,
            PortFault::NoMemory => Stop::Memory,
        }
    }
}

impl From<NoMemory> for Stop {
    ghost use Rattle.run_ends.specs.declared.stop.Stop.TheVariants.{Memory};

    ghost from_gives = { λ _ stop. stop ≡ Memory };

    fn from(_want: NoMemory) -> Stop {
        Stop::Memory
    }
}
