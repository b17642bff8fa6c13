ghost use Rattle.std.specs.Prelude.{◌≡◌, ℕ, ◌+◌, ◌*◌, ◌<◌, ◌≤◌, Bool, length, map, All, IfOk};
ghost use Rattle.switch_paths.specs.Switching.{state_at};
ghost use Rattle.straight_code.specs.Flat.{IsFlat};
ghost use Rattle.straight_code.specs.Code.{IsCode, operand_value, instruction_value, settled, output_state, code_value, IsAllowed, AreAllowed, IsOutput};

use crate::flat::{FlatCode, fill_rails, pair_value, step_value};
use std::alloc::Global;
use std::marker::Model;
use std::sync::ledger::Ledger;
use ternary::{NoMemory, Steps, Tern};

/// What an instruction or an output reads.
#[derive(Clone, Copy, PartialEq, Eq)]
pub enum Operand {
    /// This truth value.
    Constant(bool),
    /// Whether the input with this number may be 1.
    High(usize),
    /// Whether the input with this number may be 0.
    Low(usize),
    /// The result of the instruction with this number.
    Earlier(usize),
}

/// An instruction: its result is a truth value.
#[derive(Clone, Copy, PartialEq, Eq)]
pub enum Instruction {
    /// True if the operand is false.
    Not(Operand),
    /// True if both operands are true.
    And(Operand, Operand),
    /// True where at least one of both operands is true.
    Or(Operand, Operand),
}

/// The two rails of an output's state.
#[derive(Clone, Copy, PartialEq, Eq)]
pub struct Output {
    /// Whether the output may be 1.
    pub hi: Operand,
    /// Whether the output may be 0.
    pub lo: Operand,
}

/// Straight-line code: how many inputs it has, its instructions in order, and its outputs.
///
/// Each instruction reads constants, rails of inputs and results of earlier instructions.
#[derive(Drop)]
pub struct Code {
    inputs: usize,
    instructions: Vec<Instruction>,
    outputs: Vec<Output>,
    // the same in a dense form
    flat: FlatCode,
}

impl Model for Code {
    ghost use Rattle.straight_code.specs.Code.{CodeData, IsCode};
    ghost use Rattle.straight_code.specs.Flat.{IsFlat};

    ghost Value = { CodeData };

    ghost view = { λ code. record { inputs = code.inputs; instructions = code.instructions.items; outputs = code.outputs.items } };

    ghost invariant = { λ code. IsCode (record { inputs = code.inputs; instructions = code.instructions.items; outputs = code.outputs.items })
        × IsFlat code.inputs code.instructions.items code.outputs.items code.flat };
}

impl Code {
    /// The code with these instructions and outputs. Code with too many inputs or instructions for its
    /// dense form is refused as lack of memory.
    pub fn new(
        alloc: Global,
        inputs: usize,
        instructions: Vec<Instruction>,
        outputs: Vec<Output>,
    ) -> Result<Code, NoMemory>
        requires { IsCode (record { inputs = inputs; instructions = instructions.items; outputs = outputs.items }) }
        ensures { IfOk result (λ code. code ≡ record { inputs = inputs; instructions = instructions.items; outputs = outputs.items }) }
    {
        let flat = FlatCode::of(alloc, inputs, &instructions, &outputs)?;
        Ok(Code {
            inputs,
            instructions,
            outputs,
            flat,
        })
    }

    /// How many instructions it has.
    pub fn len(&self) -> usize
        ensures { result ≡ length self.now.instructions }
    {
        self.instructions.len()
    }

    /// How many inputs it has.
    pub fn inputs(&self) -> usize
        ensures { result ≡ self.now.inputs }
    {
        self.inputs
    }

    /// How many outputs it has.
    pub fn outputs(&self) -> usize
        ensures { result ≡ length self.now.outputs }
    {
        self.outputs.len()
    }

    /// Its instructions, in order.
    pub fn instructions(&self) -> &[Instruction]
        ensures value { result.now ≡ self.now.instructions }
        ensures program { IsCode self.now }
    {
        &self.instructions
    }

    /// The rails of its outputs.
    pub fn output_pairs(&self) -> &[Output]
        ensures { result.now ≡ self.now.outputs }
    {
        &self.outputs
    }

    /// The same instructions and outputs in the dense form, for runs of other kinds of values.
    pub fn dense(&self) -> &FlatCode
        ensures flat { IsFlat self.now.inputs self.now.instructions self.now.outputs result.now }
        ensures program { IsCode self.now }
    {
        &self.flat
    }

    /// Runs the code on the states of its inputs, and writes those of its outputs, X if neither
    /// rail is set.
    ///
    /// It takes one step for each instruction, and no memory: the results stand in `scratch`, which
    /// has room for one for each instruction.
    pub fn run<L: Ledger>(
        &self,
        input: &[Tern],
        scratch: &mut [bool],
        out: &mut [Tern],
        steps: &mut Steps<L>,
    )
        requires input { length input.now ≡ self.now.inputs }
        requires scratch { length self.now.instructions ≤ length scratch.old }
        requires out { length out.old ≡ length self.now.outputs }
        ensures value { out.new ≡ code_value self.now input.now }
        ensures scratch { length scratch.new ≡ length scratch.old }
        ensures steps { steps.new ≡ steps.old + length self.now.instructions }
    {
        for (k, instruction) in self.instructions.iter().enumerate() {
            scratch[k] = instruction_value(*instruction, input, &scratch[..k]);
            steps.tick();
        }
        let results = &scratch[..self.instructions.len()];
        for (k, output) in self.outputs.iter().enumerate() {
            out[k] = output_state(*output, input, results);
        }
    }

    /// Runs the code where input j has the state of node j of these, as [`Code::run`] would on those
    /// states.
    ///
    /// It takes one step for each instruction, and no memory: all that instructions read stands in
    /// `values`, which has room for both constants, both rails of each input and each result.
    pub fn run_mapped<L: Ledger>(
        &self,
        state: &[Tern],
        nodes: &[u32],
        values: &mut [bool],
        out: &mut [Tern],
        steps: &mut Steps<L>,
    )
        requires nodes { length nodes.now ≡ self.now.inputs }
        requires below { All (λ node. node < length state.now) nodes.now }
        requires values { 2 + 2 * self.now.inputs + length self.now.instructions ≤ length values.old }
        requires out { length out.old ≡ length self.now.outputs }
        ensures value { out.new ≡ code_value self.now (map (state_at state.now) nodes.now) }
        ensures values { length values.new ≡ length values.old }
        ensures steps { steps.new ≡ steps.old + length self.now.instructions }
    {
        fill_rails(state, nodes, values);
        let first = 2 + 2 * self.inputs;
        for (k, step) in self.flat.steps.iter().enumerate() {
            values[first + k] = step_value(*step, &values[..first + k]);
            steps.tick();
        }
        let all = &values[..first + self.instructions.len()];
        for (k, pair) in self.flat.outputs.iter().enumerate() {
            out[k] = pair_value(*pair, all);
        }
    }
}

/// The result of an instruction, by the states of the inputs and the results so far.
pub fn instruction_value(instruction: Instruction, input: &[Tern], done: &[bool]) -> bool
    requires { AreAllowed (length input.now) (length done.now) instruction }
    ensures { result ≡ instruction_value input.now done.now instruction }
{
    match instruction {
        Instruction::Not(a) => !operand_value(a, input, done),
        Instruction::And(a, b) => operand_value(a, input, done) && operand_value(b, input, done),
        Instruction::Or(a, b) => operand_value(a, input, done) || operand_value(b, input, done),
    }
}

/// The state of an output.
pub fn output_state(output: Output, input: &[Tern], done: &[bool]) -> Tern
    requires { IsOutput (length input.now) (length done.now) output }
    ensures { result ≡ output_state input.now done.now output }
{
    let one = operand_value(output.hi, input, done);
    let zero = operand_value(output.lo, input, done);
    Tern::from_rails(one, zero).unwrap_or(Tern::Unk)
}

// The value of an operand.
fn operand_value(operand: Operand, input: &[Tern], done: &[bool]) -> bool
    requires { IsAllowed (length input.now) (length done.now) operand }
    ensures { result ≡ operand_value input.now done.now operand }
{
    match operand {
        Operand::Constant(b) => b,
        Operand::High(j) => input[j].may_one(),
        Operand::Low(j) => input[j].may_zero(),
        Operand::Earlier(k) => done[k],
    }
}
