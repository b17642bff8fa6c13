//! Laws of the meaning of a netlist.

ghost use Rattle.std.specs.Prelude.{◌≡◌, ◌↔◌, [], ◌∷◌, ◌++◌, ℕ, List, Some, None, Ok, Err, IsSome};
ghost use Rattle.line_words.specs.Files.{front_of};
ghost use Rattle.netlist.specs.Words.{is_strength, CircuitData, IsCircuit};
ghost use Rattle.sim_read.specs.Words.{AddInAnyOrder, number_that, strength_after, netlist_of, IsFirstRefused, MakesAll};
ghost use Rattle.sim_read.specs.declared.fault.NetRefusal.{NetRefusal};
ghost use Rattle.sim_read.specs.declared.header.TheConstants.{HEADER_LINE, MOST_THRESHOLDS};
ghost use Rattle.sim_read.specs.declared.pieces.TheConstants.{MOST_HELD};

use strength_order::Profile;

/// A law: a text means a circuit or the refusal of its first refused line, by its front alone.
pub fn netlists_are_circuits_or_refused_lines()
    // What stands behind the first byte too many has no meaning.
    ensures front { (text : List ℕ) → netlist_of (front_of text) ≡ netlist_of text }

    // It is refused at the line that is refused in the circuit that the lines before it make.
    ensures refused { (text : List ℕ) (refusal : NetRefusal)
        → (netlist_of text ≡ Err refusal) ↔ IsFirstRefused text refusal }

    // It means the circuit that all its lines make, one after the other, of the rails alone in the
    // text's profile, after the sizing in profile 2.
    ensures made { (text : List ℕ) (c : CircuitData) → (netlist_of text ≡ Ok c) ↔ MakesAll text c }

    // What isn't refused is a circuit.
    ensures circuit { (text : List ℕ) (c : CircuitData) → netlist_of text ≡ Ok c → IsCircuit c }
{}

/// A law: lines of capacitance come to the same in any order.
pub fn capacitances_add_in_any_order()
    ensures { AddInAnyOrder }
{}

/// A law: of a transistor's strengths the last one counts, if all are accepted.
pub fn the_last_strength_counts(profile: Profile)
    ensures last { (usual strength : ℕ) (texts : List (List ℕ)) (text : List ℕ)
        → number_that (is_strength profile) text ≡ Some strength → IsSome (strength_after profile usual texts)
        → strength_after profile usual (texts ++ text ∷ []) ≡ Some strength }
    ensures bad { (usual : ℕ) (before after : List (List ℕ)) (text : List ℕ)
        → number_that (is_strength profile) text ≡ None
        → strength_after profile usual (before ++ text ∷ after) ≡ None }
{}

/// A law: the header is line 1, it gives up to 7 thresholds, and of a line up to 65,538 bytes are held.
pub fn limits_are_as_stated()
    ensures header { HEADER_LINE ≡ 1 }
    ensures thresholds { MOST_THRESHOLDS ≡ 7 }
    ensures held { MOST_HELD ≡ 65538 }
{}
