//! What a machine of many columns uses of a machine: its parts, which of them a node concerns, and their codes, which run
//! on words that have a bit for each column.
ghost use Rattle.std.specs.Prelude.{◌≡◌, ℕ, ◌*◌, ◌+◌, ◌<◌, ◌≤◌, ◌↔◌, List, Some, length, map, take, All, Contains};
ghost use Rattle.std.specs.Bool.{OnTrue};
ghost use Rattle.std.specs.List.{sum_by};
ghost use Rattle.unit_step.specs.Words.{Tern, state_at, code_value, AreRailsIn, AllFit, MachinePart, rooms, AreSeated, Covers};
ghost use Rattle.machine_parts.specs.Words.{AreApart, HasMember, IsSeated, ReadsAt, Stands, members_of};
ghost use Rattle.unit_step.specs.Columns.{GivesWords};

use crate::machine::Machine;
use crate::seating::owner_of;
use machine_parts::MachinePart;
use part_steps::Workspace;
use straight_code::Code;
use switch_paths::Graph;
use word_columns::run_words;

impl Machine {
    /// Its parts, with those that groups left which edits dissolved: these have no member.
    pub fn all_parts(&self) -> &[MachinePart]
        ensures value { result.now ≡ self.now.parts }
        ensures counted { length self.now.marks ≡ length self.now.parts }
        ensures seated { AreSeated (length self.now.state) self.now.parts }
        ensures apart { AreApart self.now.parts }
    {
        &self.body.parts
    }

    /// At least as many as all parts have members.
    pub fn most_members(&self) -> usize
        ensures { sum_by members_of self.now.parts ≤ result }
    {
        self.body.most
    }

    /// At least as many as there are parts that wait for their codes.
    pub fn waiters(&self) -> usize {
        self.body.agenda.waiters().len()
    }

    /// Whether no group of the graph that it covers is too large for a text. If memory lacks to find out, it says no.
    ///
    /// The work is that of the parts that wait.
    pub fn all_fit(&self, graph: &Graph) -> bool
        requires covers { Covers graph.now self.now }
        ensures { OnTrue result (AllFit graph.now) }
    {
        match self.due(graph, 0) {
            Ok(_sizes) => true,
            Err(_fault) => false,
        }
    }

    /// The part that has a node as a member, if there is one.
    pub fn owner(&self, node: usize) -> Option<usize>
        ensures { (k : ℕ) → (result ≡ Some k) ↔ HasMember self.now.parts k node }
    {
        owner_of(&self.body.owners, node)
    }

    /// The parts that read a node.
    pub fn readers(&self, node: usize) -> &[usize]
        requires { node < length self.now.state }
        ensures { (k : ℕ) → Contains result.now k ↔ ReadsAt self.now.parts k node }
    {
        self.body.readers.of(node)
    }

    /// Runs the code of a part, if it has one, in all columns.
    ///
    /// The words `hi` and `lo` are the rails of each node's states, bit i for column i; those of the part's members, in
    /// order, come to the front of `out_hi` and `out_lo`. It takes no memory: codes run in room that the machine has
    /// for its own steps.
    pub fn run_columns(
        &mut self,
        k: usize,
        hi: &[u64],
        lo: &[u64],
        out_hi: &mut [u64],
        out_lo: &mut [u64],
    )
        requires inside { k < length self.old.parts }
        requires nodes { length hi.now ≡ length self.old.state }
        requires words { length lo.now ≡ length hi.now }
        requires highs { All (λ part. part.members ≤ length out_hi.old) self.old.parts }
        requires lows { length out_lo.old ≡ length out_hi.old }
        ensures same { self.new ≡ self.old }
        ensures gives { (part : MachinePart) → Stands self.old.parts k part → GivesWords part hi.now lo.now out_hi.new out_lo.new }
    {
        run_at(
            &self.body.parts,
            k,
            hi,
            lo,
            &mut self.body.workspace,
            out_hi,
            out_lo,
        );
    }
}

// Runs the code of the part with this number, if it has one, on the words of the nodes.
fn run_at(
    parts: &[MachinePart],
    k: usize,
    hi: &[u64],
    lo: &[u64],
    workspace: &mut Workspace,
    out_hi: &mut [u64],
    out_lo: &mut [u64],
)
    requires inside { k < length parts.now }
    requires seated { All (IsSeated (length hi.now) (rooms workspace.old)) parts.now }
    requires words { length lo.now ≡ length hi.now }
    requires highs { All (λ part. part.members ≤ length out_hi.old) parts.now }
    requires lows { length out_lo.old ≡ length out_hi.old }
    ensures gives { (part : MachinePart) → Stands parts.now k part → GivesWords part hi.now lo.now out_hi.new out_lo.new }
    ensures rooms { rooms workspace.new ≡ rooms workspace.old }
{
    run_part(&parts[k], hi, lo, workspace, out_hi, out_lo);
}

// Runs the code of a part, if it has one, on the words of the nodes.
fn run_part(
    part: &MachinePart,
    hi: &[u64],
    lo: &[u64],
    workspace: &mut Workspace,
    out_hi: &mut [u64],
    out_lo: &mut [u64],
)
    requires seated { IsSeated (length hi.now) (rooms workspace.old) part.now }
    requires words { length lo.now ≡ length hi.now }
    requires highs { part.now.members ≤ length out_hi.old }
    requires lows { length out_lo.old ≡ length out_hi.old }
    ensures gives { GivesWords part.now hi.now lo.now out_hi.new out_lo.new }
    ensures rooms { rooms workspace.new ≡ rooms workspace.old }
{
    if let Some(code) = &part.code {
        run_front(
            code,
            &part.map,
            hi,
            lo,
            &mut workspace.values,
            out_hi,
            out_lo,
        );
    }
}

// Runs code on the words of the nodes of a map, and writes those of its outputs to the front.
fn run_front(
    code: &Code,
    nodes: &[usize],
    hi: &[u64],
    lo: &[u64],
    values: &mut [u64],
    out_hi: &mut [u64],
    out_lo: &mut [u64],
)
    requires words { length lo.now ≡ length hi.now }
    requires nodes { length nodes.now ≡ code.now.inputs }
    requires below { All (λ node. node < length hi.now) nodes.now }
    requires values { 2 + 2 * code.now.inputs + length code.now.instructions ≤ length values.old }
    requires highs { length code.now.outputs ≤ length out_hi.old }
    requires lows { length code.now.outputs ≤ length out_lo.old }
    ensures { (column : ℕ) (state : List Tern) → column < 64 → AreRailsIn column hi.now lo.now state
        → AreRailsIn column (take (length code.now.outputs) out_hi.new) (take (length code.now.outputs) out_lo.new)
        (code_value code.now (map (state_at state) nodes.now)) }
{
    let outputs = code.outputs();
    run_words(
        code,
        hi,
        lo,
        nodes,
        values,
        &mut out_hi[..outputs],
        &mut out_lo[..outputs],
    );
}
