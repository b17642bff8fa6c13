//! Laws of the circuit of a deck.

ghost use Rattle.std.specs.Prelude.{◌≡◌, ℕ, List, [], Ok, None};
ghost use Rattle.line_words.specs.Files.{front_of};
ghost use Rattle.netlist.specs.Circuits.{CircuitData, HasVisibleNames, IsCircuit};
ghost use Rattle.spice_cards.specs.Tables.{named};
ghost use Rattle.spice_read.specs.Expansions.{last_named, IsExpanded};
ghost use Rattle.spice_read.specs.Making.{circuit_of};
ghost use Rattle.spice_read.specs.Scopes.{with_each};
ghost use Rattle.spice_read.specs.declared.expansion.TheConstants.{MOST_CALLS, MOST_OPEN};

/// A law: if a port is named twice, the node at its last place counts.
pub fn the_last_place_of_a_port_counts()
    ensures { (ports : List (List ℕ × List ℕ)) (name : List ℕ) → named (with_each [] ports) name ≡ last_named None ports name }
{}

/// A law: a deck that isn't refused means the circuit of the transistors of its expansion alone, one after
/// the other.
pub fn decks_are_expanded()
    ensures expanded { (text : List ℕ) (c : CircuitData) → circuit_of text ≡ Ok c → IsExpanded text c }

    // What isn't refused is a circuit, and its nodes are called by names that a line can hold.
    ensures circuit { (text : List ℕ) (c : CircuitData) → circuit_of text ≡ Ok c → IsCircuit c }
    ensures visible { (text : List ℕ) (c : CircuitData) → circuit_of text ≡ Ok c → HasVisibleNames c }

    // What stands behind the first byte too many has no meaning.
    ensures front { (text : List ℕ) → circuit_of (front_of text) ≡ circuit_of text }
{}

/// A law: up to 32 calls are open inside one another, and up to 1,000,000 are made.
pub fn limits_are_as_stated()
    ensures deep { MOST_OPEN ≡ 32 }
    ensures calls { MOST_CALLS ≡ 1000000 }
{}
