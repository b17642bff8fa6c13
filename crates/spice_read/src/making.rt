//! What the steps of an expansion make.

ghost use Rattle.std.specs.Prelude.{◌≡◌, Option, IfOk, IfErr, OnOk, Ok};
ghost use Rattle.netlist.specs.Faults.{IsAnswered, MakingFault};
ghost use Rattle.ternary.specs.Unmade.{IsFault};
ghost use Rattle.spice_read.specs.Making as spec;
ghost use Rattle.spice_read.specs.Making.{edited, step_meaning, MadeData};
ghost use Rattle.spice_read.specs.Steps.{Step};

use crate::expansion::MOST_CALLS;
use netlist::{Circuit, EditFault};
use spice_cards::{DeckFault, DeckRefusal, DeckWhat};
use std::alloc::Global;
use std::marker::Model;
use strength_order::Profile;
use switch_paths::SwitchKind;
use table_keys::TableKeys;
use ternary::{NoMemory, Unmade};

/// What was made of a deck so far: the circuit, and how many calls were opened.
#[derive(Drop)]
pub(crate) struct Made {
    circuit: Circuit,
    calls: u64,
}

impl Model for Made {
    ghost use Rattle.spice_read.specs.Making.{MadeData};

    ghost Value = { MadeData };

    ghost view = { λ made. record { circuit = made.circuit; calls = made.calls } };
}

impl Made {
    /// Nothing: the rails alone. Names are hashed from these keys.
    pub(crate) fn new(alloc: Global, keys: TableKeys) -> Result<Made, NoMemory>
        ensures { IfOk result (λ made. made ≡ spec.nothing_made) }
    {
        Ok(Made {
            circuit: Circuit::with_keys(alloc, Profile::One, keys)?,
            calls: 0,
        })
    }

    /// The circuit.
    pub(crate) fn into_circuit(self) -> Circuit
        ensures { result ≡ self.circuit }
    {
        self.circuit
    }

    /// Opens a call, on this line. Refused with `TooManyCalls` exactly if there are `MOST_CALLS` already.
    pub(crate) fn open(&mut self, line: u64) -> Result<(), DeckFault>
        ensures ok { OnOk result (step_meaning self.old (Step.opened line) ≡ Ok self.new) }
        ensures refused { IfErr result (IsFault (step_meaning self.old (Step.opened line))) }
    {
        if self.calls >= MOST_CALLS {
            return Err(Unmade::Refused(DeckRefusal {
                line,
                what: DeckWhat::TooManyCalls,
            }));
        }
        self.calls += 1;
        Ok(())
    }

    /// Adds a transistor, from a card on this line.
    pub(crate) fn place(
        &mut self,
        line: u64,
        kind: SwitchKind,
        strength: u64,
        gate: &[u8],
        source: &[u8],
        drain: &[u8],
    ) -> Result<(), DeckFault>
        ensures ok { OnOk result
            (step_meaning self.old (Step.placed line kind strength gate.now source.now drain.now) ≡ Ok self.new) }
        ensures refused { IfErr result
            (IsFault (step_meaning self.old (Step.placed line kind strength gate.now source.now drain.now))) }
    {
        match self.circuit.add_switch(kind, strength, gate, source, drain) {
            Ok(_) => Ok(()),
            Err(fault) => Err(edit_fault(line, fault)),
        }
    }
}

// The fault of a card on this line whose edit answers this fault.
fn edit_fault(line: u64, fault: EditFault) -> DeckFault
    requires { (refusal : Option MakingFault) × IsAnswered refusal fault }
    ensures { (refusal : Option MakingFault) (made : MadeData)
        → IsAnswered refusal fault → IsFault (edited line refusal made) result }
{
    let what = match fault {
        EditFault::BadStrength => DeckWhat::BadStrength,
        EditFault::AliasTaken | EditFault::TooManyNodes => DeckWhat::TooManyNodes,
        EditFault::TooManySwitches => DeckWhat::TooManySwitches,
        EditFault::NoMemory => return Unmade::NoMemory,
        EditFault::NoSuchSwitch | EditFault::Rail | EditFault::BadSize => unreachable!(),
    };
    Unmade::Refused(DeckRefusal { line, what })
}
