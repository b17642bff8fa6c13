//! Settling of all columns in one run.
ghost use Rattle.std.specs.Prelude.{◌≡◌, ℕ, ◌<◌, ◌≤◌, ◌^◌, ◌+◌, true, false, IfErr, IfOk};
ghost use Rattle.switch_paths.specs.Step.{IsStep};
ghost use Rattle.settling.specs.declared.settling.TheConstants.{MOST_LIMIT};
ghost use Rattle.column_settling.specs.Reaching.{Reaches};
ghost use Rattle.column_settling.specs.Together.{StepTogether, JoinTogether, SettleTogether};

use crate::stepping::ColumnStepper;
use settling::{MOST_LIMIT, Settled};
use switch_paths::Graph;

/// Settles the state of each column: all take unit steps together while some column changes, at most `limit` of them,
/// and after that joining steps while some column changes.
///
/// Each column settles as it would alone. What is told is the greatest count of a column, and whether that column
/// joined: no column has more steps, and if it didn't join, none did. If the stepper runs out, it tells why, which is so of
/// it as it is then.
///
/// In the manner of MOSSIM II: Bryant, "A Switch-Level Model and Simulator for MOS Digital Systems", 1984.
pub fn settle_columns<M: ColumnStepper>(
    m: &mut M,
    graph: &Graph,
    limit: u64,
) -> Result<Settled, M::Fault>
    requires fits { M.fits m.old graph.now }
    requires some { 0 < M.columns m.old }
    requires high { limit ≤ MOST_LIMIT }
    ensures settles { IfOk result (λ told. SettleTogether graph.now (M.columns m.old) (M.state m.old) limit (M.state m.new) told) }
    ensures fits { M.fits m.new graph.now }
    ensures columns { M.columns m.new ≡ M.columns m.old }
    ensures keeps { Reaches M.keeps m.old m.new }
    ensures spent { IfErr result (M.spent m.new) }
{
    let (steps, rest) = step_columns(m, graph, limit)?;
    if rest {
        return Ok(Settled {
            steps,
            joined: false,
        });
    }
    let more = join_columns(m, graph)?;
    Ok(Settled {
        steps: steps + more,
        joined: more > 0,
    })
}

// Takes unit steps while some column changes, at most `limit` of them; answers how many changed one, which is the
// greatest count of a column, and whether all columns rest.
fn step_columns<M: ColumnStepper>(
    m: &mut M,
    graph: &Graph,
    limit: u64,
) -> Result<(u64, bool), M::Fault>
    requires some { 0 < M.columns m.old }
    ensures together { IfOk result (λ taken. M.fits m.old graph.now → StepTogether graph.now (M.columns m.old) limit (M.state m.old) (M.state m.new) taken.0) }
    ensures rest { IfOk result (λ taken. M.fits m.old graph.now → taken.1 ≡ true → (column : ℕ) → column < M.columns m.old
        → IsStep graph.now (M.state m.new column) (M.state m.new column)) }
    ensures within { IfOk result (λ taken. taken.0 ≤ limit) }
    ensures limited { IfOk result (λ taken. taken.1 ≡ false → taken.0 ≡ limit) }
    ensures fits { M.fits m.old graph.now → M.fits m.new graph.now }
    ensures columns { M.columns m.new ≡ M.columns m.old }
    ensures keeps { Reaches M.keeps m.old m.new }
    ensures spent { IfErr result (M.spent m.new) }
{
    for taken in 0..limit {
        let moved = m.step(graph)?;
        if !moved {
            return Ok((taken, true));
        }
    }
    Ok((limit, false))
}

// Takes joining steps while some column changes; answers how many changed one, which is the greatest count of a column.
fn join_columns<M: ColumnStepper>(m: &mut M, graph: &Graph) -> Result<u64, M::Fault>
    requires { M.fits m.old graph.now }
    ensures together { IfOk result (λ taken. JoinTogether graph.now (M.columns m.old) (M.state m.old) (M.state m.new) taken) }
    ensures few { IfOk result (λ taken. taken < 2 ^ 63) }
    ensures fits { M.fits m.new graph.now }
    ensures columns { M.columns m.new ≡ M.columns m.old }
    ensures keeps { Reaches M.keeps m.old m.new }
    ensures spent { IfErr result (M.spent m.new) }
{
    let mut taken = 0;
    'joining: loop {
        let moved = m.join_step(graph)?;
        if !moved {
            return Ok(taken);
        }
        taken += 1;
    }
}
