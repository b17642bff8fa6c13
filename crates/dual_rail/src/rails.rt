ghost use Rattle.std.specs.Prelude.{◌≡◌, ◌+◌, ◌*◌, ◌<◌, ◌≤◌, IfOk};
ghost use Rattle.ternary.specs.Tern.{may_one, may_zero};
ghost use Rattle.bool_pool.specs.Gate.{constant_gate, Extends};
ghost use Rattle.bool_pool.specs.Made.{IsLeaf};

use bool_pool::{Gate, Pool, Rails};
use std::sync::ledger::Ledger;
use ternary::{NoMemory, Steps, Tern};

/// A local node of this number or a higher one has no variables: a variable's number has 32 bits,
/// and each node has two.
pub const TOO_MANY_NODES: usize = 2_147_483_648;

/// The rails of a local node: variable `2 * local` for "may be 1", and the next one for "may be 0".
///
/// At an error the pool may hold further gates.
pub fn var_rails<L: Ledger>(
    pool: &mut Pool,
    local: u32,
    steps: &mut Steps<L>,
) -> Result<Rails, NoMemory>
    requires { local < TOO_MANY_NODES }
    ensures extends { Extends pool.old pool.new }
    ensures hi { IfOk result (λ rails. IsLeaf pool.new (Gate.Var (2 * local)) (λ vars. vars (2 * local)) rails.hi.place) }
    ensures lo { IfOk result (λ rails. IsLeaf pool.new (Gate.Var (2 * local + 1)) (λ vars. vars (2 * local + 1)) rails.lo.place) }
    ensures rises { steps.old ≤ steps.new }
    ensures few { steps.new ≤ steps.old + 2 }
{
    let hi = pool.var(2 * local, steps)?;
    let lo = pool.var(2 * local + 1, steps)?;
    Ok(Rails { hi, lo })
}

/// The rails of a state that is known.
///
/// At an error the pool may hold further gates.
pub fn const_rails<L: Ledger>(
    pool: &mut Pool,
    t: Tern,
    steps: &mut Steps<L>,
) -> Result<Rails, NoMemory>
    ensures extends { Extends pool.old pool.new }
    ensures hi { IfOk result (λ rails. IsLeaf pool.new (constant_gate (may_one t)) (λ vars. may_one t) rails.hi.place) }
    ensures lo { IfOk result (λ rails. IsLeaf pool.new (constant_gate (may_zero t)) (λ vars. may_zero t) rails.lo.place) }
    ensures rises { steps.old ≤ steps.new }
    ensures few { steps.new ≤ steps.old + 2 }
{
    let hi = pool.constant(t.may_one(), steps)?;
    let lo = pool.constant(t.may_zero(), steps)?;
    Ok(Rails { hi, lo })
}
