//! The waveform line of all columns together.
ghost use Rattle.std.specs.Prelude.{◌≡◌, ℕ, ◌<◌, ◌∷◌, [], length, All, OnOk};
ghost use Rattle.symbol_looking.specs.Words.{faults_after, RefusedOnce, column_of, wave_by, AreMerged, columns_on, states_in};
ghost use Rattle.settling.specs.declared.settling.Settled.{Settled};
ghost use Rattle.symbol_looking.specs.Letters.{AreRailsAt, nodes_on};
ghost use Rattle.symbol_looking.specs.Tellings.{HearsSome};
ghost use Rattle.symbol_looking.specs.Waves.{AreCounted, wave_at, wave_of, wave_with};

use crate::letters::{letters, rails};
use cosmos_session::Session;
use decision_graph::Function;
use ports::PortFault;
use settling::Settled;
use std::alloc::Global;
use symbol_stage::SymbolStage;
use symbol_told::{SymbolLines, ToldLine};
use ternary::Tern;

/// Tells the waveform line behind a step or a phase, with the rails of the watched nodes.
///
/// Its number is that of the session's lines so far, the one of this step or phase among them. `told` is what a phase told of all
/// columns, or one step and no mark. Out of memory of its own it tells nothing.
pub fn tell_wave<L: SymbolLines>(
    alloc: Global,
    session: &Session<SymbolStage>,
    n: u64,
    told: Settled,
    out: &mut L,
) -> Result<(), PortFault>
    requires number { n ≡ session.now.core.count }
    ensures heard { HearsSome L.hear L.part (L.heard out.old) (L.heard out.new) (wave_of session.now told ∷ []) result }
    ensures merged { (count : ℕ → Settled) → AreCounted (columns_on session.now.stage) count told → AreMerged (columns_on session.now.stage)
        (λ column. wave_by (column_of states_in session.now column) (count column).steps (count column).joined ∷ [])
        ((wave_of session.now told).line ∷ []) }
    ensures rails { OnOk result (AreRailsAt session.now.stage session.now.core.watched (wave_of session.now told).highs (wave_of session.now told).lows) }
    ensures faults { L.faults out.new ≡ faults_after (L.faults out.old) result }
    ensures refusals { RefusedOnce (L.refusals out.old) (L.refusals out.new) result }
{
    tell_nodes(alloc, session.stage(), session.watched(), n, told, out)
}

// Tells the waveform line of these nodes.
#[tactic(auto, using(crate::proofs::HeardLemmas::lacks_faults, crate::proofs::HeardLemmas::lacks_once, crate::proofs::HeardLemmas::none_heard))]
fn tell_nodes<L: SymbolLines>(
    alloc: Global,
    stage: &SymbolStage,
    nodes: &[usize],
    n: u64,
    told: Settled,
    out: &mut L,
) -> Result<(), PortFault>
    requires { All (λ node. node < nodes_on stage.now) nodes.now }
    ensures heard { HearsSome L.hear L.part (L.heard out.old) (L.heard out.new) (wave_at stage.now nodes.now n told ∷ []) result }
    ensures rails { OnOk result
        (AreRailsAt stage.now nodes.now (wave_at stage.now nodes.now n told).highs (wave_at stage.now nodes.now n told).lows) }
    ensures faults { L.faults out.new ≡ faults_after (L.faults out.old) result }
    ensures refusals { RefusedOnce (L.refusals out.old) (L.refusals out.new) result }
{
    let values = letters(alloc, stage, nodes)?;
    let (highs, lows) = rails(alloc, stage, nodes)?;
    tell_values(n, told, &values, &highs, &lows, out)
}

// Tells a waveform line with these letters and rails.
fn tell_values<L: SymbolLines>(
    n: u64,
    told: Settled,
    values: &[Option<Tern>],
    highs: &[Function],
    lows: &[Function],
    out: &mut L,
) -> Result<(), PortFault>
    requires { length highs.now ≡ length lows.now }
    ensures heard { HearsSome L.hear L.part (L.heard out.old) (L.heard out.new) (wave_with n told values.now highs.now lows.now ∷ []) result }
    ensures faults { L.faults out.new ≡ faults_after (L.faults out.old) result }
    ensures refusals { RefusedOnce (L.refusals out.old) (L.refusals out.new) result }
{
    let line = ToldLine::Wave {
        n,
        k: told.steps,
        mark: told.joined,
        values,
    };
    out.tell(line, highs, lows)
}
