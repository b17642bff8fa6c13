//! All findings of a circuit, by their kinds.

ghost use Rattle.std.specs.Prelude.{◌≡◌, IfOk};
ghost use Rattle.circuit_lint.specs.Findings as spec;

use crate::counted::Counted;
use crate::dead::dead_switches;
use crate::nodes::floating_and_unused;
use crate::shorts::shorts_of;
use crate::sides::{SideFault, Sides, all_sides, showing};
use crate::supplies::supplies;
use channel_groups::Groups;
use netlist::Circuit;
use std::alloc::Global;
use std::marker::Model;
use table_keys::TableKeys;
use ternary::NoMemory;

/// The findings of a circuit: lists of places that join the rails, floating nodes, groups that show a fault,
/// dead switches, places of names of supplies, and unused nodes.
#[derive(Drop)]
pub struct Findings {
    pub(crate) shorted: Vec<Vec<usize>>,
    pub(crate) floating: Vec<Counted>,
    pub(crate) undriven: Vec<Sides>,
    pub(crate) never_one: Vec<Sides>,
    pub(crate) never_zero: Vec<Sides>,
    pub(crate) dead: Vec<Counted>,
    pub(crate) supply: Vec<usize>,
    pub(crate) wide: Vec<Sides>,
    pub(crate) unused: Vec<usize>,
}

impl Model for Findings {
    ghost use Rattle.circuit_lint.specs.Findings.{FindingsData};
    ghost use Rattle.circuit_lint.specs.Ways.{lists_of};

    ghost Value = { FindingsData };

    ghost view = { λ found. record { shorted = lists_of found.shorted.items; floating = found.floating.items; undriven = found.undriven.items; never_one = found.never_one.items; never_zero = found.never_zero.items; dead = found.dead.items; supply = found.supply.items; wide = found.wide.items; unused = found.unused.items } };
}

impl Findings {
    /// Whether there is no finding.
    pub fn is_clean(&self) -> bool
        ensures { result ≡ spec.is_clean self.now }
    {
        self.shorted.is_empty()
            && self.floating.is_empty()
            && self.undriven.is_empty()
            && self.never_one.is_empty()
            && self.never_zero.is_empty()
            && self.dead.is_empty()
            && self.supply.is_empty()
            && self.wide.is_empty()
            && self.unused.is_empty()
    }
}

/// The findings of a circuit. Its dead switches are counted in a table that is hashed with these keys.
///
/// The time is linear in the nodes, places and names of the circuit, but for sorts of the places at which lists that
/// join the rails begin.
pub fn findings_of(alloc: Global, circuit: &Circuit, keys: TableKeys) -> Result<Findings, NoMemory>
    ensures { IfOk result (spec.AreFindings circuit.now) }
{
    let graph = circuit.graph();
    let groups = Groups::of(alloc, graph)?;
    let ids = groups.ids(alloc)?;
    let sides = all_sides(alloc, graph, &groups, &ids)?;
    let (floating, unused) = floating_and_unused(alloc, graph)?;
    Ok(Findings {
        shorted: shorts_of(alloc, graph, &groups, &ids)?,
        floating,
        undriven: showing(alloc, SideFault::Undriven, &sides)?,
        never_one: showing(alloc, SideFault::NeverOne, &sides)?,
        never_zero: showing(alloc, SideFault::NeverZero, &sides)?,
        dead: dead_switches(alloc, graph, keys)?,
        supply: supplies(alloc, circuit)?,
        wide: showing(alloc, SideFault::Wide, &sides)?,
        unused,
    })
}
