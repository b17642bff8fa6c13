ghost use Rattle.std.specs.Prelude.{◌≡◌, ◌≢◌, ◌+◌, ◌≤◌, IfOk};
ghost use Rattle.switch_paths.specs.Switching.{is_closed, is_live};
ghost use Rattle.bool_pool.specs.Gate.{Extends};
ghost use Rattle.dual_rail.specs.Conduct.{AreInside, Tells};

use bool_pool::{Id, Pool, Rails};
use std::sync::ledger::Ledger;
use switch_paths::SwitchKind;
use ternary::{NoMemory, Steps};

/// The formula "the switch is closed", for a switch of this kind whose gate has these rails.
///
/// Of the rails at least one is set wherever they are those of a state, so that "not may be 0" is
/// "1 for certain".
pub fn closed<L: Ledger>(
    pool: &mut Pool,
    kind: SwitchKind,
    gate: Rails,
    steps: &mut Steps<L>,
) -> Result<Id, NoMemory>
    requires { AreInside pool.old gate }
    ensures extends { Extends pool.old pool.new }
    ensures tells { IfOk result (λ r. Tells is_closed pool.old pool.new kind gate r.place) }
    ensures rises { steps.old ≤ steps.new }
    ensures few { steps.new ≤ steps.old + 2 }
{
    match kind {
        SwitchKind::NChan => pool.not(gate.lo, steps),
        SwitchKind::PChan => pool.not(gate.hi, steps),
        SwitchKind::Always => pool.constant(true, steps),
    }
}

/// The formula "the switch isn't open", for a switch of this kind whose gate has these rails.
pub fn may_conduct<L: Ledger>(
    pool: &mut Pool,
    kind: SwitchKind,
    gate: Rails,
    steps: &mut Steps<L>,
) -> Result<Id, NoMemory>
    requires { AreInside pool.old gate }
    ensures extends { Extends pool.old pool.new }
    ensures tells { IfOk result (λ r. Tells is_live pool.old pool.new kind gate r.place) }
    ensures rises { steps.old ≤ steps.new }
    ensures few { steps.new ≤ steps.old + 2 }
{
    match kind {
        SwitchKind::NChan => Ok(gate.hi),
        SwitchKind::PChan => Ok(gate.lo),
        SwitchKind::Always => pool.constant(true, steps),
    }
}
