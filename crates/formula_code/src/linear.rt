//! Code for formulas.

ghost use Rattle.std.specs.Prelude.{◌≡◌, ℕ, ◌*◌, ◌<◌, ◌↔◌, List, [], ◌∷◌, ◌++◌, length, map, nat_eq, All, Contains, IsSome, IfOk, OnOk};
ghost use Rattle.std.specs.List.Sorted.{IsStrictlyIncreasing};
ghost use Rattle.indexmap.specs.IndexMap.{get};
ghost use Rattle.bool_pool.specs.Words.{gate_at, IsOperand, IsVariable, AreReaching, HasVariablesBelow, ReachExactly};
ghost use Rattle.dual_rail.specs.Conduct.{AreInside};
ghost use Rattle.formula_code.specs.Words.{Means, rail_of, operand_at, with_gate, gate_operand, output_of, AreNoted, AreLowered};

use bool_pool::{Gate, Id, Pool, Rails};
use indexmap::IndexMap;
use std::alloc::{AllocError, Global};
use std::collections::BTreeSet;
use straight_code::{Code, Instruction, Operand, Output};
use ternary::NoMemory;

/// Code with an output for each pair of formulas.
///
/// Its input j has the variables 2j and 2j + 1, whether it may be 1 and whether it may be 0. It has one
/// instruction for each And, Or and Not that the formulas reach, and no other. Code of more than 2^30
/// inputs or instructions is refused as lack of memory.
pub fn linearise(
    alloc: Global,
    pool: &Pool,
    outs: &[Rails],
    inputs: usize,
) -> Result<Code, NoMemory>
    requires formulas { All (AreInside pool.now) outs.now }
    requires variables { HasVariablesBelow pool.now outs.now (2 * inputs) }
    ensures inputs { IfOk result (λ code. code.inputs ≡ inputs) }
    ensures outputs { IfOk result (λ code. length code.outputs ≡ length outs.now) }
    ensures means { IfOk result (λ code. Means pool.now outs.now code) }
    ensures exact { IfOk result (λ code. ReachExactly pool.now outs.now (length code.instructions)) }
{
    let places = reached_places(alloc, pool, outs)?;
    let mut lowered = Lowered {
        instructions: Vec::new(alloc),
        operands: IndexMap::new(alloc),
    };
    for &place in &places {
        lowered.lower(pool, place)?;
    }
    let outputs = lowered.outputs(alloc, outs)?;
    let code = Code::new(alloc, inputs, lowered.instructions, outputs)?;
    Ok(code)
}

// The places that the formulas reach, in ascending order.
fn reached_places(alloc: Global, pool: &Pool, outs: &[Rails]) -> Result<Vec<usize>, AllocError>
    requires { All (AreInside pool.now) outs.now }
    ensures ascending { IfOk result (λ places. IsStrictlyIncreasing places.items) }
    ensures each { IfOk result (λ places. (place : ℕ) → Contains places.items place ↔ AreReaching pool.now outs.now place) }
{
    let mut roots = BTreeSet::new(alloc);
    for rails in outs {
        roots.insert(rails.hi.place)?;
        roots.insert(rails.lo.place)?;
    }
    pool.reached_places(alloc, roots)
}

// Code for the places that were lowered so far.
#[derive(Drop)]
struct Lowered {
    instructions: Vec<Instruction>,
    // for each of the places: what has its value
    operands: IndexMap<usize, Operand>,
}

impl Lowered {
    // Lowers the gate at a place, whose operands were lowered.
    fn lower(&mut self, pool: &Pool, place: usize) -> Result<(), AllocError>
        requires inside { place < length pool.now }
        requires operands { (k : ℕ) → k < place → IsOperand (gate_at pool.now place) k → IsSome (get nat_eq self.old.operands k) }
        ensures { OnOk result ((inputs : ℕ) (places : List ℕ)
            → ((v : ℕ) → IsVariable (gate_at pool.now place) v → v < 2 * inputs)
            → AreLowered pool.now inputs places self.old.instructions.items (get nat_eq self.old.operands)
            → AreLowered pool.now inputs (places ++ place ∷ []) self.new.instructions.items (get nat_eq self.new.operands)) }
    {
        let operand = self.lower_gate(pool.gate(Id { place }))?;
        self.operands.insert(place, operand)?;
        Ok(())
    }

    // Adds the instruction of a gate, if it is an operation, and answers the operand that has its
    // value.
    fn lower_gate(&mut self, gate: Gate) -> Result<Operand, AllocError>
        requires { (k : ℕ) → IsOperand gate k → IsSome (get nat_eq self.old.operands k) }
        ensures operand { IfOk result (λ operand. operand ≡ gate_operand (length self.old.instructions.items) gate) }
        ensures instructions { OnOk result (self.new.instructions.items
            ≡ with_gate (get nat_eq self.old.operands) self.old.instructions.items gate) }
        ensures noted { self.new.operands ≡ self.old.operands }
    {
        match gate {
            Gate::False => Ok(Operand::Constant(false)),
            Gate::True => Ok(Operand::Constant(true)),
            Gate::Var(v) => Ok(variable(v)),
            Gate::Not(a) => self.add(Instruction::Not(self.operand(a))),
            Gate::And(a, b) => self.add(Instruction::And(self.operand(a), self.operand(b))),
            Gate::Or(a, b) => self.add(Instruction::Or(self.operand(a), self.operand(b))),
        }
    }

    // Adds an instruction, and answers the operand that has its result.
    fn add(&mut self, instruction: Instruction) -> Result<Operand, AllocError>
        ensures operand { IfOk result (λ operand. operand ≡ Operand.Earlier (length self.old.instructions.items)) }
        ensures instructions { OnOk result (self.new.instructions.items ≡ self.old.instructions.items ++ instruction ∷ []) }
        ensures noted { self.new.operands ≡ self.old.operands }
    {
        let result = Operand::Earlier(self.instructions.len());
        self.instructions.push(instruction)?;
        Ok(result)
    }

    // What has the value of a formula whose place was lowered.
    fn operand(&self, id: Id) -> Operand
        requires { IsSome (get nat_eq self.now.operands id.place) }
        ensures { result ≡ operand_at (get nat_eq self.now.operands) id.place }
    {
        match self.operands.get(&id.place) {
            Some(operand) => *operand,
            None => unreachable!(),
        }
    }

    // The outputs for these pairs of formulas, whose places were lowered.
    fn outputs(&self, alloc: Global, outs: &[Rails]) -> Result<Vec<Output>, AllocError>
        requires { All (AreNoted (get nat_eq self.now.operands)) outs.now }
        ensures { IfOk result (λ outputs. outputs.items ≡ map (output_of (get nat_eq self.now.operands)) outs.now) }
    {
        let mut outputs = Vec::new(alloc);
        for rails in outs {
            outputs.push(Output {
                hi: self.operand(rails.hi),
                lo: self.operand(rails.lo),
            })?;
        }
        Ok(outputs)
    }
}

// The rail that a variable stands for.
fn variable(v: u32) -> Operand
    ensures { result ≡ rail_of v }
{
    let input = v as usize / 2;
    if v % 2 == 0 {
        Operand::High(input)
    } else {
        Operand::Low(input)
    }
}
