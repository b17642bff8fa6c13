//! Whether an `expect` is refused, which doesn't depend on the valuation.
ghost use Rattle.std.specs.Prelude.{◌≡◌, map, None, IfErr, OnOk};
ghost use Rattle.node_values.specs.Givings as giving;
ghost use Rattle.session_meaning.specs.Refusals as spec;
ghost use Rattle.symbol_giving.specs.StandIns.{stand_in};
ghost use Rattle.symbol_expecting.specs.Faults.{IsRefusalFor};

use crate::fault::ExpectFault;
use netlist::Circuit;
use node_values::{GivenFault, is_misplaced, letters_given};
use node_words::Vectors;
use script_lang::{Name, Value};
use session_meaning::Refusal;
use std::alloc::Global;
use symbol_giving::stand_ins;
use symbol_script::AssignmentList;
use ternary::NoMemory;

/// Whether an `expect` of these assignments is refused: as that of the assignments which stand for them.
pub(crate) fn allow(
    alloc: Global,
    circuit: &Circuit,
    vectors: &Vectors,
    list: &AssignmentList,
) -> Result<(), ExpectFault>
    ensures allowed { OnOk result (spec.values_refusal spec.none_at circuit.now vectors.now (map (stand_in circuit.now vectors.now) list.now) ≡ None) }
    ensures refused { IfErr result (IsRefusalFor (spec.values_refusal spec.none_at circuit.now vectors.now (map (stand_in circuit.now vectors.now) list.now))) }
{
    match stand_ins(alloc, circuit, vectors, list) {
        Ok(values) => allow_values(alloc, circuit, vectors, values.items()),
        Err(NoMemory) => Err(ExpectFault::NoMemory),
    }
}

// Whether an `expect` of a plain script is refused.
fn allow_values(
    alloc: Global,
    circuit: &Circuit,
    vectors: &Vectors,
    list: &[(Name, Value)],
) -> Result<(), ExpectFault>
    ensures allowed { OnOk result (spec.values_refusal spec.none_at circuit.now vectors.now list.now ≡ None) }
    ensures refused { IfErr result (IsRefusalFor (spec.values_refusal spec.none_at circuit.now vectors.now list.now)) }
{
    if let Some(refusal) = place_refusal(circuit, vectors, list) {
        return Err(ExpectFault::Refused(refusal));
    }
    allow_all(alloc, circuit, vectors, list)
}

// The refusal of values that may stand at vectors alone and stand at other names.
fn place_refusal(circuit: &Circuit, vectors: &Vectors, list: &[(Name, Value)]) -> Option<Refusal>
    ensures { result ≡ spec.first_refusal (spec.place_refusal circuit.now vectors.now) list.now }
{
    for (name, value) in list {
        if is_misplaced(circuit, vectors, name.items(), value) {
            return Some(Refusal::BadValue);
        }
    }
    None
}

// Whether what the assignments give is refused.
fn allow_all(
    alloc: Global,
    circuit: &Circuit,
    vectors: &Vectors,
    list: &[(Name, Value)],
) -> Result<(), ExpectFault>
    ensures allowed { OnOk result (spec.givings_refusal spec.none_at circuit.now vectors.now list.now ≡ None) }
    ensures refused { IfErr result (IsRefusalFor (spec.givings_refusal spec.none_at circuit.now vectors.now list.now)) }
{
    for (name, value) in list {
        allow_value(alloc, circuit, vectors, name.items(), value)?;
    }
    Ok(())
}

// Whether an assignment is refused by its name and its value.
fn allow_value(
    alloc: Global,
    circuit: &Circuit,
    vectors: &Vectors,
    name: &[u8],
    value: &Value,
) -> Result<(), ExpectFault>
    ensures allowed { OnOk result (spec.given_refusal spec.none_at (giving.letters_given circuit.now vectors.now (name.now, value.now)) ≡ None) }
    ensures refused { IfErr result (IsRefusalFor
        (spec.given_refusal spec.none_at (giving.letters_given circuit.now vectors.now (name.now, value.now)))) }
{
    match letters_given(alloc, circuit, vectors, name, value) {
        Ok(_pairs) => Ok(()),
        Err(GivenFault::UnknownNode) => Err(ExpectFault::Refused(Refusal::UnknownNode)),
        Err(GivenFault::VectorValue) => Err(ExpectFault::Refused(Refusal::VectorValue)),
        Err(GivenFault::NoMemory) => Err(ExpectFault::NoMemory),
    }
}
