//! What holds of the edits of a circuit, whatever the circuit.

ghost use Rattle.std.specs.Prelude.{◌≡◌};
ghost use Rattle.netlist.specs.Laws.{NumbersAreRemoved, RemovedNumbersStay};
ghost use Rattle.netlist.specs.declared.TheConstants.{MOST_NODES, MOST_SWITCHES};

/// A law: the number of a transistor that is removed is no transistor's again.
///
/// `removed`: a transistor's number is free once it is removed. `stays`: so it stays, whatever edits
/// follow.
pub fn removed_numbers_stay_free()
    ensures removed { NumbersAreRemoved }
    ensures stays { RemovedNumbersStay }
{}

/// A law: a circuit has up to 1,000,000 nodes and 2,000,000 transistors.
pub fn limits_are_as_stated()
    ensures nodes { MOST_NODES ≡ 1000000 }
    ensures switches { MOST_SWITCHES ≡ 2000000 }
{}
