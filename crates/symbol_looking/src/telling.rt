//! How a line is told, and what ends a command that tells.
ghost use Rattle.std.specs.Prelude.{◌≡◌, ◌∷◌, []};
ghost use Rattle.ports.specs.Ports.{faults_after, RefusedOnce};
ghost use Rattle.told_lines.specs.Hearing.{Hears};
ghost use Rattle.symbol_told.specs.Lines.{told_seen};
ghost use Rattle.symbol_looking.specs.Tellings as spec;

use ports::PortFault;
use session_meaning::ApplyFault;
use symbol_told::{SymbolLines, ToldLine};

/// Tells a line of another kind than a waveform line.
pub(crate) fn tell_line<L: SymbolLines>(line: ToldLine, out: &mut L) -> Result<(), PortFault>
    ensures heard { Hears L.hear L.part (L.heard out.old) (L.heard out.new) (spec.telling (told_seen line.entry) ∷ []) result }
    ensures faults { L.faults out.new ≡ faults_after (L.faults out.old) result }
    ensures refusals { RefusedOnce (L.refusals out.old) (L.refusals out.new) result }
{
    out.tell(line, &[], &[])
}

/// What a command ends with where its telling ended so.
pub(crate) fn applied(told: Result<(), PortFault>) -> Result<(), ApplyFault>
    ensures { result ≡ spec.applied told }
{
    match told {
        Ok(()) => Ok(()),
        Err(fault) => Err(ApplyFault::of_sink(fault)),
    }
}
