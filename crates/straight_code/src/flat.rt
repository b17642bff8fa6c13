//! Code in a dense form, for many runs.
//!
//! All that an instruction can read stands in one array: the two constants, both rails of each input, and
//! the results. So an instruction is a kind and two places of that array, and a run has no branch on what
//! an operand is.

ghost use Rattle.std.specs.Prelude.{◌≡◌, ◌+◌, ◌*◌, ◌<◌, ◌≤◌, ◌^◌, [], length, map, take, All, IfOk};
ghost use Rattle.switch_paths.specs.Switching.{state_at};
ghost use Rattle.straight_code.specs.Code.{settled, IsAllowed, AreAllowed, IsOutput, IsCode, ReadsEarlier};
ghost use Rattle.straight_code.specs.Flat.{IsFlat, place_of, step_of, pair_of, kind_value, step_value, pair_value, flat_values};

use crate::code::{Instruction, Operand, Output};
use std::alloc::{AllocError, Global};
use ternary::{NoMemory, Tern};

/// What an instruction does.
#[derive(Clone, Copy, PartialEq, Eq)]
pub enum StepKind {
    Not,
    And,
    Or,
}

/// An instruction over the places of the array.
#[derive(Clone, Copy, PartialEq, Eq)]
pub struct FlatStep {
    pub kind: StepKind,
    pub a: u32,
    /// For a Not the same place as `a`.
    pub b: u32,
}

/// The places of both rails of an output.
#[derive(Clone, Copy, PartialEq, Eq)]
pub struct FlatOutput {
    pub hi: u32,
    pub lo: u32,
}

/// The instructions and the outputs of code, over the places of one array.
#[derive(Drop)]
pub struct FlatCode {
    pub steps: Vec<FlatStep>,
    pub outputs: Vec<FlatOutput>,
}

/// The most inputs, and the most instructions, of code: places are numbers of 32 bits.
const MOST: usize = 1 << 30;

impl FlatCode {
    /// The dense form of code. Code with too many inputs or instructions is refused as lack of memory.
    pub(crate) fn of(
        alloc: Global,
        inputs: usize,
        instructions: &[Instruction],
        outputs: &[Output],
    ) -> Result<FlatCode, NoMemory>
        requires { IsCode (record { inputs = inputs; instructions = instructions.now; outputs = outputs.now }) }
        ensures { IfOk result (λ flat. IsFlat inputs instructions.now outputs.now flat) }
    {
        if inputs > MOST || instructions.len() > MOST {
            return Err(NoMemory);
        }
        Ok(FlatCode {
            steps: steps_of(alloc, inputs, instructions)?,
            outputs: pairs_of(alloc, inputs, instructions.len(), outputs)?,
        })
    }
}

// The instructions over the places.
fn steps_of(
    alloc: Global,
    inputs: usize,
    instructions: &[Instruction],
) -> Result<Vec<FlatStep>, AllocError>
    requires reads { ReadsEarlier inputs instructions.now }
    requires inputs { inputs ≤ MOST }
    requires count { length instructions.now ≤ MOST }
    ensures { IfOk result (λ steps. steps.items ≡ map (step_of inputs) instructions.now) }
{
    let mut steps = Vec::new(alloc);
    for (k, instruction) in instructions.iter().enumerate() {
        steps.push(step_of(inputs, k, *instruction))?;
    }
    Ok(steps)
}

// The outputs over the places.
fn pairs_of(
    alloc: Global,
    inputs: usize,
    results: usize,
    outputs: &[Output],
) -> Result<Vec<FlatOutput>, AllocError>
    requires reads { All (IsOutput inputs results) outputs.now }
    requires inputs { inputs ≤ MOST }
    requires count { results ≤ MOST }
    ensures { IfOk result (λ pairs. pairs.items ≡ map (pair_of inputs) outputs.now) }
{
    let mut pairs = Vec::new(alloc);
    for output in outputs {
        pairs.push(FlatOutput {
            hi: place_of(inputs, results, output.hi),
            lo: place_of(inputs, results, output.lo),
        })?;
    }
    Ok(pairs)
}

// An instruction over the places, behind so many results.
fn step_of(inputs: usize, results: usize, instruction: Instruction) -> FlatStep
    requires reads { AreAllowed inputs results instruction }
    requires inputs { inputs ≤ MOST }
    requires count { results ≤ MOST }
    ensures { result ≡ step_of inputs instruction }
{
    let (kind, first, second) = match instruction {
        Instruction::Not(a) => (StepKind::Not, a, a),
        Instruction::And(a, b) => (StepKind::And, a, b),
        Instruction::Or(a, b) => (StepKind::Or, a, b),
    };
    FlatStep {
        kind,
        a: place_of(inputs, results, first),
        b: place_of(inputs, results, second),
    }
}

// The place of an operand.
fn place_of(inputs: usize, results: usize, operand: Operand) -> u32
    requires reads { IsAllowed inputs results operand }
    requires inputs { inputs ≤ MOST }
    requires count { results ≤ MOST }
    ensures { result ≡ place_of inputs operand }
{
    let place = match operand {
        Operand::Constant(false) => 0,
        Operand::Constant(true) => 1,
        Operand::High(j) => 2 + 2 * j,
        Operand::Low(j) => 3 + 2 * j,
        Operand::Earlier(k) => 2 + 2 * inputs + k,
    };
    place as u32
}

/// Puts the constants and the rails of the inputs into the array: input j has the state of node j of
/// these.
pub(crate) fn fill_rails(state: &[Tern], nodes: &[u32], values: &mut [bool])
    requires below { All (λ node. node < length state.now) nodes.now }
    requires room { 2 + 2 * length nodes.now ≤ length values.old }
    ensures rails { take (2 + 2 * length nodes.now) values.new ≡ flat_values (map (state_at state.now) nodes.now) [] }
    ensures count { length values.new ≡ length values.old }
{
    values[0] = false;
    values[1] = true;
    for (j, node) in nodes.iter().enumerate() {
        let tern = state[*node as usize];
        values[2 + 2 * j] = tern.may_one();
        values[3 + 2 * j] = tern.may_zero();
    }
}

/// The result of an instruction.
pub(crate) fn step_value(step: FlatStep, values: &[bool]) -> bool
    requires a { step.a < length values.now }
    requires b { step.b < length values.now }
    ensures { result ≡ step_value values.now step }
{
    kind_value(step.kind, values[step.a as usize], values[step.b as usize])
}

// What an instruction of this kind gives of two values: bit 2a + b of a number for the kind. A run goes through
// instructions of all kinds, so it has no branch on the kind.
fn kind_value(kind: StepKind, a: bool, b: bool) -> bool
    ensures { result ≡ kind_value kind a b }
{
    let table: u32 = match kind {
        StepKind::Not => 0b0011,
        StepKind::And => 0b1000,
        StepKind::Or => 0b1110,
    };
    (table >> (2 * a as u32 + b as u32)) & 1 == 1
}

/// The state of an output.
pub(crate) fn pair_value(pair: FlatOutput, values: &[bool]) -> Tern
    requires hi { pair.hi < length values.now }
    requires lo { pair.lo < length values.now }
    ensures { result ≡ pair_value values.now pair }
{
    Tern::from_rails(values[pair.hi as usize], values[pair.lo as usize]).unwrap_or(Tern::Unk)
}
