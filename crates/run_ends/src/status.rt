ghost use Rattle.std.specs.Prelude.{◌≡◌};
ghost use Rattle.run_ends.specs.Statuses.{code_of};

/// What a run of the program comes to.
#[derive(Clone, Copy, Debug, PartialEq, Eq)]
pub enum Status {
    /// None of the others.
    Done,
    /// The script was accepted to its end and an expectation of it was not met; or the circuit has a finding.
    Mismatch,
    /// The words are no command line.
    Usage,
    /// A line of the netlist was refused.
    NetRefused,
    /// A line of the script was refused.
    ScriptRefused,
    /// A file could not be read.
    ReadFault,
    /// The output could not be written.
    WriteFault,
    /// Memory ran out.
    NoMemory,
    /// A run under all valuations wanted one vertex more than there may be.
    Full,
}

impl Status {
    /// The exit status of the program: 0 to 8, in the order of the cases.
    pub fn code(self) -> u8
        ensures { result ≡ code_of self }
    {
        self as u8
    }
}
