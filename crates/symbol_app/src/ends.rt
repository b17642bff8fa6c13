//! How a run under all valuations ends.

ghost use Rattle.std.specs.Prelude.{◌≡◌};
ghost use Rattle.symbol_app.specs.Comparisons.{ended_comparison};
ghost use Rattle.symbol_app.specs.Symbolic.{ended_run, status_in_all, stop_unread};

use cosmos_app::end_status;
use run_ends::{End, Status, Stop};
use symbol_equiv::EqualFault;
use symbol_run::SymbolFault;

/// How a run under all valuations ends that meets no fault and no lack of memory.
#[derive(Clone, Copy, Debug, PartialEq, Eq)]
pub enum SymbolEnd {
    /// As a run of a script does.
    Ended(End),
    /// There may be so many vertices, and one more was wanted: at the line with this number, or, if there is none, in the
    /// comparison of two runs.
    Full { vertices: u32, line: Option<u64> },
}

/// The status that such a run ends with: 8 if vertices ran out.
pub fn symbol_status(end: Result<SymbolEnd, Stop>) -> Status
    ensures { result ≡ status_in_all end }
{
    match end {
        Ok(SymbolEnd::Ended(end)) => end_status(Ok(end)),
        Ok(SymbolEnd::Full { .. }) => Status::Full,
        Err(stop) => end_status(Err(stop)),
    }
}

// How the run of a script ends, which may have so many vertices.
pub(crate) fn end_of_run(vertices: u32, end: Result<End, SymbolFault>) -> Result<SymbolEnd, Stop>
    ensures { result ≡ ended_run vertices end }
{
    match end {
        Ok(end) => Ok(SymbolEnd::Ended(end)),
        Err(SymbolFault::Stopped(stop)) => Err(unread(stop)),
        Err(SymbolFault::Full(line)) => Ok(SymbolEnd::Full {
            vertices,
            line: Some(line),
        }),
    }
}

// How a comparison ends, which may have so many vertices.
pub(crate) fn end_of_comparison(
    vertices: u32,
    end: Result<End, EqualFault>,
) -> Result<SymbolEnd, Stop>
    ensures { result ≡ ended_comparison vertices end }
{
    match end {
        Ok(end) => Ok(SymbolEnd::Ended(end)),
        Err(EqualFault::Stopped(stop)) => Err(unread(stop)),
        Err(EqualFault::FullAt(line)) => Ok(SymbolEnd::Full {
            vertices,
            line: Some(line),
        }),
        Err(EqualFault::Full) => Ok(SymbolEnd::Full {
            vertices,
            line: None,
        }),
    }
}

// What stops a run that reads no file: the sink, or memory. A session's contract leaves open that a file stops it.
fn unread(stop: Stop) -> Stop
    ensures { result ≡ stop_unread stop }
{
    match stop {
        Stop::Write => Stop::Write,
        Stop::Read | Stop::Memory => Stop::Memory,
    }
}
