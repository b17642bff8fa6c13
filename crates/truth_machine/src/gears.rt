//! What a machine over truths has besides its maker and rails, and a machine that takes such a gear.
ghost use Rattle.std.specs.Prelude.{◌≡◌, ℕ, ◌<◌, ◌≤◌, [], length, None, All, IfOk};
ghost use Rattle.truth_machine.specs.Words.{nodes, FitsGraph, AreColumns, HasSound};
ghost use Rattle.truth_machine.specs.Machines.{FitsInMachine};
ghost use Rattle.truth_machine.specs.Gears.{IsEmptyGear, IsGear};

use crate::TruthMachine;
use machine_parts::MachinePart;
use part_lists::{Agenda, lists_of};
use std::alloc::Global;
use switch_paths::Graph;
use ternary::NoMemory;
use truth_columns::Truths;
use truth_parts::{Workspace, workspace_for};
use unit_step::Machine;

/// What a machine over truths has besides its maker and rails: the parts, which of them are marked, for each node the parts
/// that read it and the one that has it as a member, and room for steps.
#[derive(Drop)]
pub struct Gear<A> {
    parts: Vec<MachinePart>,
    agenda: Agenda,
    readers: Vec<Vec<usize>>,
    owners: Vec<Vec<usize>>,
    workspace: Workspace<A>,
}

/// The gear for a graph, with the parts of a machine that fits it, all of them marked.
///
/// All memory that a machine over truths wants is taken here. Lack of it is the only error.
pub fn gear_for<T: Truths>(
    alloc: Global,
    graph: &Graph,
    machine: Machine,
    truths: &T,
) -> Result<Gear<T::Truth>, NoMemory>
    requires machine { FitsGraph graph.now machine }
    requires without { machine.wide ≡ None }
    ensures { IfOk result (IsGear graph.now (T.has truths.now) (nodes graph.now)) }
{
    let nodes = graph.nodes();
    let parts = machine.into_parts();
    let agenda = Agenda::all(alloc, parts.len())?;
    let readers = lists_of(alloc, false, &parts, nodes)?;
    let owners = lists_of(alloc, true, &parts, nodes)?;
    let workspace = workspace_for(alloc, truths, &parts)?;
    Ok(Gear {
        parts,
        agenda,
        readers,
        owners,
        workspace,
    })
}

/// A gear without parts, for so many nodes: that of a machine that holds states alone.
pub fn empty_gear<T: Truths>(
    alloc: Global,
    truths: &T,
    nodes: usize,
) -> Result<Gear<T::Truth>, NoMemory>
    ensures { IfOk result (IsEmptyGear (T.has truths.now) nodes) }
{
    let agenda = Agenda::all(alloc, 0)?;
    let readers = lists_of(alloc, false, &[], nodes)?;
    let owners = lists_of(alloc, true, &[], nodes)?;
    let workspace = workspace_for(alloc, truths, &[])?;
    Ok(Gear {
        parts: Vec::new(alloc),
        agenda,
        readers,
        owners,
        workspace,
    })
}

/// Cuts a gear without parts to fewer nodes. It takes no memory.
pub fn cut_gear<T: Truths>(truths: &T, gear: &mut Gear<T::Truth>, nodes: usize)
    requires { (count : ℕ) × IsEmptyGear (T.has truths.now) count gear.old × (nodes ≤ count) }
    ensures { IsEmptyGear (T.has truths.now) nodes gear.new }
{
    gear.readers.truncate(nodes);
    gear.owners.truncate(nodes);
}

impl<T: Truths + Drop> TruthMachine<T> {
    /// The machine that holds states alone: it has no parts, and fits no graph. It takes no memory.
    pub fn still(
        gear: Gear<T::Truth>,
        truths: T,
        hi: Vec<T::Truth>,
        lo: Vec<T::Truth>,
    ) -> TruthMachine<T>
        requires gear { IsEmptyGear (T.has truths) (length hi.items) gear }
        requires columns { AreColumns (T.columns truths) (T.holds truths) hi.items lo.items }
        requires high_has { All (T.has truths) hi.items }
        requires low_has { All (T.has truths) lo.items }
        ensures { result ≡ record { maker = truths; parts = []; marks = []; hi = hi.items; lo = lo.items } }
    {
        let Gear {
            parts,
            agenda,
            readers,
            owners,
            workspace,
        } = gear;
        TruthMachine {
            truths,
            parts,
            agenda,
            readers,
            owners,
            hi,
            lo,
            workspace,
        }
    }

    /// Takes these rails of nodes over, of the same maker, and holds their states alone, with a gear without parts. It takes no
    /// memory.
    pub fn hold(&mut self, gear: Gear<T::Truth>, hi: Vec<T::Truth>, lo: Vec<T::Truth>)
        requires gear { IsEmptyGear (T.has self.old.maker) (length hi.items) gear }
        requires columns { AreColumns (T.columns self.old.maker) (T.holds self.old.maker) hi.items lo.items }
        requires high_has { All (T.has self.old.maker) hi.items }
        requires low_has { All (T.has self.old.maker) lo.items }
        ensures { self.new ≡ record { maker = self.old.maker; parts = []; marks = []; hi = hi.items; lo = lo.items } }
    {
        let Gear {
            parts,
            agenda,
            readers,
            owners,
            workspace,
        } = gear;
        self.parts = parts;
        self.agenda = agenda;
        self.readers = readers;
        self.owners = owners;
        self.hi = hi;
        self.lo = lo;
        self.workspace = workspace;
    }

    /// Takes a gear for a graph in the place of its own: in each column it fits the graph then, with the states that it has. It
    /// takes no memory.
    pub fn fit(&mut self, graph: &Graph, gear: Gear<T::Truth>)
        requires gear { IsGear graph.now (T.has self.old.maker) (nodes graph.now) gear }
        requires counted { length self.old.hi ≡ nodes graph.now }
        requires sound { (column : ℕ) → column < T.columns self.old.maker → HasSound graph.now (T.holds self.old.maker) self.old.hi self.old.lo column }
        ensures fits { FitsInMachine T.columns T.holds graph.now self.new }
        ensures maker { self.new.maker ≡ self.old.maker }
        ensures highs { self.new.hi ≡ self.old.hi }
        ensures lows { self.new.lo ≡ self.old.lo }
    {
        let Gear {
            parts,
            agenda,
            readers,
            owners,
            workspace,
        } = gear;
        self.parts = parts;
        self.agenda = agenda;
        self.readers = readers;
        self.owners = owners;
        self.workspace = workspace;
    }

    /// The rails are those of states in each column, and truths of the maker: a call of this is for its contract alone.
    pub fn are_rails(&self)
        ensures columns { AreColumns (T.columns self.now.maker) (T.holds self.now.maker) self.now.hi self.now.lo }
        ensures highs { All (T.has self.now.maker) self.now.hi }
        ensures lows { All (T.has self.now.maker) self.now.lo }
    {
        let _ = &self.truths;
    }
}
