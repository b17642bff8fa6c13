//! When a command is refused.

ghost use Rattle.std.specs.Prelude.{◌≡◌, ◌<◌, ◌==◌, length, All, if◌then◌else◌};
ghost use Rattle.switch_paths.specs.Graphs.{nodes};
ghost use Rattle.netlist.specs.Names.{node_of};
ghost use Rattle.node_words.specs.Words.{named};
ghost use Rattle.session_meaning.specs.Refusals as spec;
ghost use Rattle.session_meaning.specs.declared.fault.Refusal.TheVariants.{ClockLength};

use netlist::{Circuit, RAILS};
use node_words::{Named, Vectors};
use script_lang::{Name, Run, StateList};
use session_meaning::{Clock, Refusal};
use strength_order::INPUT_LEVEL;

/// The first refusal of making these named nodes input nodes.
pub(crate) fn input_refusal(circuit: &Circuit, vectors: &Vectors, names: &[Name]) -> Option<Refusal>
    ensures { result ≡ spec.first_refusal (λ name. spec.named_refusal spec.rail_at (named circuit.now vectors.now name)) names.now }
{
    for name in names {
        if let Some(refusal) = rail_refusal(circuit, vectors, name.items()) {
            return Some(refusal);
        }
    }
    None
}

/// The first refusal of these names as names in use.
pub(crate) fn known_refusal(circuit: &Circuit, vectors: &Vectors, names: &[Name]) -> Option<Refusal>
    ensures { result ≡ spec.first_refusal (λ name. spec.known_refusal (named circuit.now vectors.now name)) names.now }
{
    for name in names {
        if let Some(refusal) = name_refusal(circuit, vectors, name.items()) {
            return Some(refusal);
        }
    }
    None
}

// The refusal of a name as one in use, for a node or a vector.
fn name_refusal(circuit: &Circuit, vectors: &Vectors, name: &[u8]) -> Option<Refusal>
    ensures { result ≡ spec.known_refusal (named circuit.now vectors.now name.now) }
{
    match vectors.named(circuit, name) {
        Named::Node(_) | Named::Vector(_) => None,
        Named::Nothing => Some(Refusal::UnknownNode),
    }
}

/// The first refusal of these names and letters as clocks: their lengths first, then their nodes.
pub(crate) fn clocks_refusal(circuit: &Circuit, list: &[(Name, StateList)]) -> Option<Refusal>
    ensures { result ≡ spec.or_else (spec.length_refusal list.now)
        (spec.first_refusal (λ item. spec.set_refusal circuit.now (node_of circuit.now.names item.0)) list.now) }
{
    match lengths_refusal(list) {
        Some(refusal) => Some(refusal),
        None => clock_nodes_refusal(circuit, list),
    }
}

// Whether two of these clocks have different numbers of letters.
fn lengths_refusal(list: &[(Name, StateList)]) -> Option<Refusal>
    ensures { result ≡ spec.length_refusal list.now }
{
    match list.split_first() {
        Some((first, others)) => other_length_refusal(first.1.items().len(), others),
        None => None,
    }
}

// Whether some clock has another number of letters than this.
fn other_length_refusal(count: usize, others: &[(Name, StateList)]) -> Option<Refusal>
    ensures { result ≡ spec.first_refusal (λ other. if length other.1 == count then None else Some ClockLength) others.now }
{
    for (_, states) in others {
        if states.items().len() != count {
            return Some(Refusal::ClockLength);
        }
    }
    None
}

// The first refusal of these named nodes as clocks' nodes.
fn clock_nodes_refusal(circuit: &Circuit, list: &[(Name, StateList)]) -> Option<Refusal>
    ensures { result ≡ spec.first_refusal (λ item. spec.set_refusal circuit.now (node_of circuit.now.names item.0)) list.now }
{
    for (name, _) in list {
        if let Some(refusal) = input_node_refusal(circuit, name.items()) {
            return Some(refusal);
        }
    }
    None
}

/// Why a command that has the circuit built is refused, by the data alone.
pub(crate) fn run_refusal(run: &Run, circuit: &Circuit, clocks: &[Clock]) -> Option<Refusal>
    requires { All (λ clock. clock.node < nodes circuit.now.graph) clocks.now }
    ensures { result ≡ spec.refusal_of_run circuit.now clocks.now run.now }
{
    match run {
        Run::Step => None,
        Run::Phase => None,
        Run::Cycle(_) => cycle_refusal(circuit, clocks),
        Run::Report => None,
    }
}

/// The first refusal of a cycle of these clocks: none were accepted, or a node is no input node any
/// more.
pub fn cycle_refusal(circuit: &Circuit, clocks: &[Clock]) -> Option<Refusal>
    requires { All (λ clock. clock.node < nodes circuit.now.graph) clocks.now }
    ensures { result ≡ spec.cycle_refusal circuit.now clocks.now }
{
    if clocks.is_empty() {
        return Some(Refusal::NoClock);
    }
    for clock in clocks {
        if circuit.graph().level(clock.node) != INPUT_LEVEL {
            return Some(Refusal::NotInput);
        }
    }
    None
}

// The refusal of editing the nodes of a name: it isn't in use, or one of them is a rail.
fn rail_refusal(circuit: &Circuit, vectors: &Vectors, name: &[u8]) -> Option<Refusal>
    ensures { result ≡ spec.named_refusal spec.rail_at (named circuit.now vectors.now name.now) }
{
    match vectors.named(circuit, name) {
        Named::Node(node) => rail_among(&[node]),
        Named::Vector(nodes) => rail_among(nodes),
        Named::Nothing => Some(Refusal::UnknownNode),
    }
}

// The refusal of editing these nodes: one of them is a rail.
fn rail_among(list: &[usize]) -> Option<Refusal>
    ensures { result ≡ spec.first_refusal spec.rail_at list.now }
{
    for &node in list {
        if node < RAILS {
            return Some(Refusal::Rail);
        }
    }
    None
}

// The refusal of a named node as an input node that can be set.
fn input_node_refusal(circuit: &Circuit, name: &[u8]) -> Option<Refusal>
    ensures { result ≡ spec.set_refusal circuit.now (node_of circuit.now.names name.now) }
{
    match circuit.find(name) {
        Some(node) if node < RAILS => Some(Refusal::Rail),
        Some(node) if circuit.graph().level(node) == INPUT_LEVEL => None,
        Some(_) => Some(Refusal::NotInput),
        None => Some(Refusal::UnknownNode),
    }
}
