ghost use Rattle.std.specs.Prelude.{◌≡◌, ℕ, ◌<◌, ◌^◌, length, map, nat_lt, slice_get, All, IfOk, OnOk, Some};
ghost use Rattle.strength_order.specs.declared.TheConstants.{INPUT_LEVEL};
ghost use Rattle.switch_paths.specs.Graphs.{nodes};
ghost use Rattle.straight_code.specs.Code.{results, IsAllowed, AreAllowed, IsOutput, IsCode};
ghost use Rattle.linear_code.specs.Listing.{IsListing, IsListingStep};
ghost use Rattle.line_words.specs.Visible.{IsVisibleName};
ghost use Rattle.straight_code.specs.Parts.{IsPart, AreMembers};
ghost use Rattle.linear_code.specs.Built.{IsBuilt};
ghost use Rattle.linear_code.specs.Moved.{moved_operand, moved_instruction, moved_output, AddsPart, AreNexts};

use std::alloc::{AllocError, Global};
use std::marker::Model;
use straight_code::{Instruction, Operand, Output, Part, instruction_value, output_state};
use strength_order::INPUT_LEVEL;
use switch_paths::Graph;
use ternary::{NoMemory, Tern};

/// A node of a listing.
#[derive(Drop)]
pub(crate) struct ListedNode {
    pub(crate) is_storage: bool,
    pub(crate) name: Vec<u8>,
}

/// A listing: the nodes of a circuit, and straight-line code for the next states of its storage
/// nodes.
///
/// Its meaning is a step: all nodes move at once, each storage node to what the code gives from the
/// states of all nodes, X if neither rail is set; an input node keeps its state.
#[derive(Drop)]
pub struct Listing {
    nodes: Vec<ListedNode>,
    instructions: Vec<Instruction>,
    // for each storage node, in ascending order
    nexts: Vec<Output>,
}

impl Model for Listing {
    ghost use Rattle.std.specs.Prelude.{map};
    ghost use Rattle.straight_code.specs.Code.{results, AreAllowed};
    ghost use Rattle.linear_code.specs.Listing.{ListingData, IsListing};

    ghost Value = { ListingData };

    ghost view = { λ listing. record { entries = map (λ node. record { is_storage = node.is_storage; name = node.name.items }) listing.nodes.items; instructions = listing.instructions.items; nexts = listing.nexts.items } };

    ghost invariant = { λ listing. IsListing (record { entries = map (λ node. record { is_storage = node.is_storage; name = node.name.items }) listing.nodes.items; instructions = listing.instructions.items; nexts = listing.nexts.items }) };
}

impl Listing {
    /// The listing of a graph's nodes, with these names, and of its parts.
    ///
    /// It has as many instructions as the codes of all parts together, and the next state of a
    /// part's member is what the part's code gives on the states of its nodes.
    pub fn build(
        alloc: Global,
        graph: &Graph,
        names: Vec<Vec<u8>>,
        parts: &[Part],
    ) -> Result<Listing, NoMemory>
        requires names { length names.items ≡ nodes graph.now }
        requires visible { All (λ name. IsVisibleName name.items) names.items }
        requires fit { All (IsPart (nodes graph.now)) parts.now }
        requires members { AreMembers graph.now parts.now }
        ensures { IfOk result (λ listing. IsBuilt graph.now (map (λ name. name.items) names.items) parts.now listing) }
    {
        let mut instructions = Vec::new(alloc);
        let mut outputs = vec![in alloc; NEVER; graph.nodes()]?;
        for part in parts {
            add_part(part, &mut instructions, &mut outputs)?;
        }
        let nodes = listed_nodes(alloc, graph, names)?;
        let nexts = storage_outputs(alloc, &nodes, &outputs)?;
        Ok(Listing {
            nodes,
            instructions,
            nexts,
        })
    }

    /// How many nodes it has: a state of it has one for each.
    pub fn nodes(&self) -> usize
        ensures { result ≡ length self.now.entries }
    {
        self.nodes.len()
    }

    // Its nodes, in order.
    pub(crate) fn listed(&self) -> &[ListedNode]
        ensures nodes { map (λ node. record { is_storage = node.is_storage; name = node.name.items }) result.now ≡ self.now.entries }
        ensures listing { IsListing self.now }
    {
        &self.nodes
    }

    // Its instructions, in order.
    pub(crate) fn instructions(&self) -> &[Instruction]
        ensures { result.now ≡ self.now.instructions }
    {
        &self.instructions
    }

    // The rails of the next state of each storage node, in ascending order.
    pub(crate) fn nexts(&self) -> &[Output]
        ensures { result.now ≡ self.now.nexts }
    {
        &self.nexts
    }

    /// The states of all nodes after a step from these states.
    pub fn step(&self, alloc: Global, state: &[Tern]) -> Result<Vec<Tern>, NoMemory>
        requires { length state.now ≡ length self.now.entries }
        ensures { IfOk result (λ next. IsListingStep self.now state.now next.items) }
    {
        let results = results_of(alloc, &self.instructions, state)?;
        let mut next = Vec::new(alloc);
        let mut moved = 0;
        for (node, listed) in self.nodes.iter().enumerate() {
            if listed.is_storage {
                next.push(output_state(self.nexts[moved], state, &results))
                    .map_err(AllocError::from)?;
                moved += 1;
            } else {
                next.push(state[node]).map_err(AllocError::from)?;
            }
        }
        Ok(next)
    }

    // The listing with these nodes, instructions and next states.
    pub(crate) fn from_parts(
        nodes: Vec<ListedNode>,
        instructions: Vec<Instruction>,
        nexts: Vec<Output>,
    ) -> Listing
        requires { IsListing (record { entries = map (λ node. record { is_storage = node.is_storage; name = node.name.items }) nodes.items; instructions = instructions.items; nexts = nexts.items }) }
        ensures { result ≡ record { entries = map (λ node. record { is_storage = node.is_storage; name = node.name.items }) nodes.items; instructions = instructions.items; nexts = nexts.items } }
    {
        Listing {
            nodes,
            instructions,
            nexts,
        }
    }
}

// Neither rail is ever set.
const NEVER: Output = Output {
    hi: Operand::Constant(false),
    lo: Operand::Constant(false),
};

// The nodes of a graph with these names.
fn listed_nodes(
    alloc: Global,
    graph: &Graph,
    names: Vec<Vec<u8>>,
) -> Result<Vec<ListedNode>, AllocError>
    requires { length names.items ≡ nodes graph.now }
    ensures kinds { IfOk result (λ listed. map (λ node. node.is_storage) listed.items ≡ map (λ level. nat_lt level INPUT_LEVEL) graph.now.levels) }
    ensures named { IfOk result (λ listed. map (λ node. node.name.items) listed.items ≡ map (λ name. name.items) names.items) }
{
    let mut listed = Vec::new(alloc);
    for (node, name) in names.into_iter().enumerate() {
        let is_storage = graph.level(node) < INPUT_LEVEL;
        listed.push(ListedNode { is_storage, name })?;
    }
    Ok(listed)
}

// Adds the instructions of a part, and notes the outputs of its members at their nodes.
fn add_part(
    part: &Part,
    instructions: &mut Vec<Instruction>,
    outputs: &mut [Output],
) -> Result<(), AllocError>
    requires { IsPart (length outputs.old) part.now }
    ensures program { IsCode part.now.code.value }
    ensures adds { OnOk result (AddsPart part.now instructions.old.items instructions.new.items outputs.old outputs.new) }
{
    let offset = instructions.len();
    for instruction in part.code.instructions() {
        instructions.push(moved_instruction(*instruction, &part.map, offset))?;
    }
    for (j, output) in part.code.output_pairs().iter().enumerate() {
        outputs[part.map[j]] = moved_output(*output, &part.map, offset);
    }
    Ok(())
}

// The instruction over the nodes of the whole circuit, behind so many other instructions.
fn moved_instruction(instruction: Instruction, map: &[usize], offset: usize) -> Instruction
    requires reads { AreAllowed (length map.now) (2 ^ 63) instruction }
    requires offset { offset < 2 ^ 63 }
    ensures { result ≡ moved_instruction map.now offset instruction }
{
    match instruction {
        Instruction::Not(a) => Instruction::Not(moved_operand(a, map, offset)),
        Instruction::And(a, b) => {
            Instruction::And(moved_operand(a, map, offset), moved_operand(b, map, offset))
        }
        Instruction::Or(a, b) => {
            Instruction::Or(moved_operand(a, map, offset), moved_operand(b, map, offset))
        }
    }
}

// The output over the nodes of the whole circuit, behind so many other instructions.
fn moved_output(output: Output, map: &[usize], offset: usize) -> Output
    requires reads { IsOutput (length map.now) (2 ^ 63) output }
    requires offset { offset < 2 ^ 63 }
    ensures { result ≡ moved_output map.now offset output }
{
    Output {
        hi: moved_operand(output.hi, map, offset),
        lo: moved_operand(output.lo, map, offset),
    }
}

// The operand over the nodes of the whole circuit, behind so many other instructions.
fn moved_operand(operand: Operand, map: &[usize], offset: usize) -> Operand
    requires reads { IsAllowed (length map.now) (2 ^ 63) operand }
    requires offset { offset < 2 ^ 63 }
    ensures { result ≡ moved_operand map.now offset operand }
{
    match operand {
        Operand::Constant(b) => Operand::Constant(b),
        Operand::High(j) => Operand::High(map[j]),
        Operand::Low(j) => Operand::Low(map[j]),
        Operand::Earlier(k) => Operand::Earlier(offset + k),
    }
}

// The outputs of the storage nodes, in ascending order.
fn storage_outputs(
    alloc: Global,
    nodes: &[ListedNode],
    outputs: &[Output],
) -> Result<Vec<Output>, AllocError>
    requires { length nodes.now ≡ length outputs.now }
    ensures { IfOk result (λ nexts. AreNexts (map (λ node. record { is_storage = node.is_storage; name = node.name.items }) nodes.now) (length nodes.now) outputs.now nexts.items) }
{
    let mut nexts = Vec::new(alloc);
    for (node, listed) in nodes.iter().enumerate() {
        if listed.is_storage {
            nexts.push(outputs[node])?;
        }
    }
    Ok(nexts)
}

// The results of all instructions.
fn results_of(
    alloc: Global,
    instructions: &[Instruction],
    state: &[Tern],
) -> Result<Vec<bool>, AllocError>
    requires { (k : ℕ) (instruction : Instruction) → slice_get instructions.now k ≡ Some instruction → AreAllowed (length state.now) k instruction }
    ensures { IfOk result (λ done. done.items ≡ results state.now instructions.now) }
{
    let mut results = Vec::new(alloc);
    for instruction in instructions {
        let result = instruction_value(*instruction, state, &results);
        results.push(result)?;
    }
    Ok(results)
}
