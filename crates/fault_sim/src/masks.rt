//! Commands under a node that is stuck.
ghost use Rattle.std.specs.Prelude.{◌≡◌, ◌≢◌, ◌==◌, ℕ, [], ◌∷◌, ◌++◌, Some, map, option_map, IfOk, IfSome, OnOk, if◌then◌else◌};
ghost use Rattle.std.specs.Bool.{OnTrue};
ghost use Rattle.script_lang.specs.declared.command.Command.TheVariants as family;
ghost use Rattle.script_lang.specs.declared.command.Edit.TheVariants as edited;
ghost use Rattle.script_lang.specs.declared.command.Give.TheVariants as given;
ghost use Rattle.script_lang.specs.Forms.{IsFormed};
ghost use Rattle.vector_values.specs.Values.{plain_value};
ghost use Rattle.fault_sim.specs.Masks as spec;
ghost use Rattle.fault_sim.specs.Masks.{command_left, is_stuck, masked_of, state_for, IsSpared};

use netlist::Circuit;
use node_values::{GivenFault, is_called, letters_given};
use node_words::{Named, Vectors};
use script_lang::{ClockList, Command, Edit, Give, Name, Setup, StateList, Value, ValueList};
use std::alloc::Global;
use ternary::{NoMemory, Tern};
use vector_values::{Letter, VectorValue};

/// What is obeyed in place of a command while a node may be stuck.
#[derive(Drop)]
pub enum Left {
    /// The command itself.
    Same,
    /// Another command.
    Other(Command),
    /// Nothing.
    Nothing,
}

/// What is obeyed in place of a well-formed command while a node is stuck at a state. A command that stays as it is, as each does if no
/// node is stuck, isn't copied, but for `charge` and `clock`.
///
/// Each letter that `set` or `clock` gives the node is replaced by the state at which it is stuck, also if a
/// vector has the node; each word that names it is taken out of `charge`, which does nothing if no word is
/// left, and its letters in vectors give it nothing; and `store` of it does nothing. Names are looked up in the
/// circuit and among the vectors as they are at the command. All other words stay.
///
/// A word of `set` isn't looked up if the node that is guessed for it, at its place, is called so.
pub fn masked(
    alloc: Global,
    command: &Command,
    circuit: &Circuit,
    vectors: &Vectors,
    guesses: &[usize],
    stuck: Option<(usize, Tern)>,
) -> Result<Left, NoMemory>
    requires { IsFormed command.now }
    ensures value { IfOk result (λ left. command_left command.now left ≡ masked_of circuit.now vectors.now stuck command.now) }
    ensures formed { IfOk result (λ left. IfSome (command_left command.now left) IsFormed) }
{
    match stuck {
        None => Ok(Left::Same),
        Some(_) => {
            let mask = Mask {
                alloc,
                circuit,
                vectors,
                guesses,
                stuck,
            };
            masked_by_family(&mask, command)
        }
    }
}

// What commands are masked for.
#[derive(Clone, Copy)]
struct Mask<'a> {
    alloc: Global,
    circuit: &'a Circuit,
    vectors: &'a Vectors,
    // Nodes for which the words of `set` may stand, in order.
    guesses: &'a [usize],
    stuck: Option<(usize, Tern)>,
}

// What is left of a command under a mask, family by family.
fn masked_by_family(mask: &Mask<'_>, command: &Command) -> Result<Left, NoMemory>
    ensures { IfOk result (λ left. command_left command.now left ≡ masked_of mask.now.circuit.now mask.now.vectors.now mask.now.stuck command.now) }
{
    match command {
        Command::Edit(edit) => Ok(masked_edit(mask, edit)),
        Command::Give(give) => masked_give(mask, give),
        Command::Setup(setup) => masked_setup(mask, setup),
        Command::Run(_) => Ok(Left::Same),
        Command::Tell(_) => Ok(Left::Same),
    }
}

// An edit, unless it is `store` of the stuck node.
fn masked_edit(mask: &Mask<'_>, edit: &Edit) -> Left
    ensures { command_left (family.Edit edit.now) result ≡ option_map family.Edit (spec.masked_edit mask.now.circuit.now mask.now.stuck edit.now) }
{
    match edit {
        Edit::Store(name, _) => masked_store(mask, name.items()),
        _ => Left::Same,
    }
}

// `store` of any size, unless it is of the stuck node.
fn masked_store(mask: &Mask<'_>, name: &[u8]) -> Left
    ensures { (size : ℕ) → command_left (family.Edit (edited.Store name.now size)) result
        ≡ option_map family.Edit (spec.masked_edit mask.now.circuit.now mask.now.stuck (edited.Store name.now size)) }
{
    if names_stuck(mask, name) {
        Left::Nothing
    } else {
        Left::Same
    }
}

// States that are given, with the stuck node at its own.
fn masked_give(mask: &Mask<'_>, give: &Give) -> Result<Left, NoMemory>
    ensures { IfOk result (λ left. command_left (family.Give give.now) left
        ≡ option_map family.Give (spec.masked_give mask.now.circuit.now mask.now.vectors.now mask.now.stuck give.now)) }
{
    match give {
        Give::Set(list) => masked_set(mask, list),
        Give::Charge(list) => match masked_charge(mask, list)? {
            Some(give) => Ok(Left::Other(Command::Give(give))),
            None => Ok(Left::Nothing),
        },
        Give::Back(_) => Ok(Left::Same),
    }
}

// `set` with the stuck node given its own state; it is copied if one of its words may give the node another one.
fn masked_set(mask: &Mask<'_>, list: &ValueList) -> Result<Left, NoMemory>
    ensures { IfOk result (λ left. command_left (family.Give (given.Set list.now)) left
        ≡ Some (family.Give (given.Set (spec.masked_sets mask.now.circuit.now mask.now.vectors.now mask.now.stuck list.now)))) }
{
    if spares(mask, list) {
        return Ok(Left::Same);
    }
    let list = masked_assignments(mask, list)?;
    Ok(Left::Other(Command::Give(Give::Set(list))))
}

// Whether no assignment is that of the stuck node or of a vector: then all that they give stays.
fn spares(mask: &Mask<'_>, list: &ValueList) -> bool
    ensures { OnTrue result (spec.masked_sets mask.now.circuit.now mask.now.vectors.now mask.now.stuck list.now ≡ list.now) }
{
    let mut guesses = mask.guesses;
    for (name, _) in list.items() {
        let (guess, later) = first_guess(guesses);
        guesses = later;
        if !spares_name(mask, name.items(), guess) {
            return false;
        }
    }
    true
}

// The node that is guessed first, if there is one, and the later guesses.
fn first_guess(guesses: &[usize]) -> (usize, &[usize]) {
    match guesses {
        [] => (usize::MAX, guesses),
        [guess, later @ ..] => (*guess, later),
    }
}

// Whether a name stands for a node that isn't stuck, or for nothing. It isn't looked up if the node that is guessed is called so.
fn spares_name(mask: &Mask<'_>, name: &[u8], guess: usize) -> bool
    ensures { OnTrue result (IsSpared mask.now.circuit.now mask.now.vectors.now mask.now.stuck name.now) }
{
    if is_called(mask.circuit, guess, name) {
        return is_other(mask.stuck, guess);
    }
    match mask.vectors.named(mask.circuit, name) {
        Named::Node(node) => is_other(mask.stuck, node),
        Named::Vector(_) => false,
        Named::Nothing => true,
    }
}

// Whether a node isn't the one that is stuck.
fn is_other(stuck: Option<(usize, Tern)>, node: usize) -> bool
    ensures { OnTrue result (IfSome stuck (λ at. node ≢ at.0)) }
{
    match stuck {
        Some(at) => node != at.0,
        None => true,
    }
}

// What is set for later commands: clocks give the stuck node its own state.
fn masked_setup(mask: &Mask<'_>, setup: &Setup) -> Result<Left, NoMemory>
    ensures { IfOk result (λ left. command_left (family.Setup setup.now) left
        ≡ Some (family.Setup (spec.masked_setup mask.now.circuit.now mask.now.stuck setup.now))) }
{
    match setup {
        Setup::Clock(list) => {
            let list = masked_clocks(mask, list)?;
            Ok(Left::Other(Command::Setup(Setup::Clock(list))))
        }
        _ => Ok(Left::Same),
    }
}

// `charge` without the words that name the stuck node, unless no word is left.
fn masked_charge(mask: &Mask<'_>, list: &ValueList) -> Result<Option<Give>, NoMemory>
    ensures { IfOk result (λ left. left
        ≡ spec.masked_give mask.now.circuit.now mask.now.vectors.now mask.now.stuck (given.Charge list.now)) }
{
    let list = others(mask, list)?;
    if list.items().is_empty() {
        Ok(None)
    } else {
        Ok(Some(Give::Charge(list)))
    }
}

// The assignments that don't give the stuck node alone a state, with those of vectors giving it none.
fn others(mask: &Mask<'_>, list: &ValueList) -> Result<ValueList, NoMemory>
    ensures { IfOk result (λ left. left
        ≡ spec.masked_charges mask.now.circuit.now mask.now.vectors.now mask.now.stuck list.now) }
{
    let mut left = ValueList::new(mask.alloc);
    for (name, value) in list.items() {
        put_other(mask, &mut left, name.items(), value)?;
    }
    Ok(left)
}

// Puts the assignment behind the others that are left, unless it gives the stuck node alone a state.
fn put_other(
    mask: &Mask<'_>,
    left: &mut ValueList,
    name: &[u8],
    value: &Value,
) -> Result<(), NoMemory>
    ensures { OnOk result (left.new ≡ left.old
        ++ spec.masked_charges mask.now.circuit.now mask.now.vectors.now mask.now.stuck ((name.now, value.now) ∷ [])) }
{
    if charges_stuck(mask, name, value) {
        return Ok(());
    }
    let value = charge_value(mask, name, value)?;
    left.push((Name::from_slice(mask.alloc, name)?, value))?;
    Ok(())
}

// Whether the assignment gives the stuck node alone a state.
fn charges_stuck(mask: &Mask<'_>, name: &[u8], value: &Value) -> bool
    ensures { result ≡ spec.is_stuck_alone mask.now.circuit.now mask.now.stuck (name.now, value.now) }
{
    match value {
        Value::Wide(_) => false,
        Value::Letter(_) | Value::Alone(_) => names_stuck(mask, name),
    }
}

// The assignments, with the stuck node given the state at which it is stuck.
fn masked_assignments(mask: &Mask<'_>, list: &ValueList) -> Result<ValueList, NoMemory>
    ensures { IfOk result (λ left. left
        ≡ spec.masked_sets mask.now.circuit.now mask.now.vectors.now mask.now.stuck list.now) }
{
    let mut left = ValueList::new(mask.alloc);
    for (name, value) in list.items() {
        let value = set_value(mask, name.items(), value)?;
        left.push((Name::from_slice(mask.alloc, name.items())?, value))?;
    }
    Ok(left)
}

// What `set` gives the nodes of a name.
fn set_value(mask: &Mask<'_>, name: &[u8], value: &Value) -> Result<Value, NoMemory>
    ensures { IfOk result (λ given. given
        ≡ spec.set_value mask.now.circuit.now mask.now.vectors.now mask.now.stuck (name.now, value.now)) }
{
    match mask.stuck {
        Some(at) if names_stuck(mask, name) => with_own(mask.alloc, at.1, value),
        Some(at) => vector_value(mask, at.0, Some(at.1), name, value),
        None => value.copied(mask.alloc),
    }
}

// What `charge` gives the nodes of a name.
fn charge_value(mask: &Mask<'_>, name: &[u8], value: &Value) -> Result<Value, NoMemory>
    ensures { IfOk result (λ given. given
        ≡ spec.charge_value mask.now.circuit.now mask.now.vectors.now mask.now.stuck (name.now, value.now)) }
{
    match mask.stuck {
        Some(at) => vector_value(mask, at.0, None, name, value),
        None => value.copied(mask.alloc),
    }
}

// The value with this state in the place of the one that it gives a node alone.
fn with_own(alloc: Global, own: Tern, value: &Value) -> Result<Value, NoMemory>
    ensures { IfOk result (λ given. given ≡ spec.with_own own value.now) }
{
    match value {
        Value::Letter(_) => Ok(Value::Letter(own)),
        Value::Wide(wide) => Ok(Value::Wide(wide.copied(alloc)?)),
        Value::Alone(_) => Ok(Value::Alone(own)),
    }
}

// The value, with this letter in the place of each that it gives the node as one of a vector's.
fn vector_value(
    mask: &Mask<'_>,
    node: usize,
    own: Letter,
    name: &[u8],
    value: &Value,
) -> Result<Value, NoMemory>
    ensures { IfOk result (λ given. given
        ≡ spec.vector_value mask.now.circuit.now mask.now.vectors.now node own (name.now, value.now)) }
{
    match mask.vectors.named(mask.circuit, name) {
        Named::Vector(_) => {
            match letters_given(mask.alloc, mask.circuit, mask.vectors, name, value) {
                Ok(pairs) => Ok(Value::Wide(masked_letters(mask.alloc, node, own, &pairs)?)),
                Err(GivenFault::NoMemory) => Err(NoMemory),
                Err(GivenFault::UnknownNode | GivenFault::VectorValue) => value.copied(mask.alloc),
            }
        }
        Named::Node(_) | Named::Nothing => value.copied(mask.alloc),
    }
}

// These letters, with this one in the place of each of the node's.
fn masked_letters(
    alloc: Global,
    node: usize,
    own: Letter,
    pairs: &[(usize, Letter)],
) -> Result<VectorValue, NoMemory>
    ensures { IfOk result (λ value. value ≡ plain_value (spec.masked_letters node own pairs.now)) }
{
    let mut letters = Vec::with_capacity(alloc, pairs.len())?;
    for pair in pairs {
        letters.push_reserved(masked_letter(node, own, pair));
    }
    Ok(VectorValue::of_letters(letters))
}

// The letter of a pair, or this one if the pair is the node's.
fn masked_letter(node: usize, own: Letter, pair: &(usize, Letter)) -> Letter
    ensures { result ≡ (if pair.now.0 == node then own else pair.now.1) }
{
    if pair.0 == node { own } else { pair.1 }
}

// The clocks, with the stuck node given the state at which it is stuck each time.
fn masked_clocks(mask: &Mask<'_>, list: &ClockList) -> Result<ClockList, NoMemory>
    ensures { IfOk result (λ left. left
        ≡ map (λ item. (item.0, map (state_for mask.now.circuit.now mask.now.stuck item.0) item.1)) list.now) }
{
    let mut left = ClockList::new(mask.alloc);
    for (name, states) in list.items() {
        let states = masked_states(mask, name.items(), states)?;
        left.push((Name::from_slice(mask.alloc, name.items())?, states))?;
    }
    Ok(left)
}

// The states that a clock gives the node of a name.
fn masked_states(mask: &Mask<'_>, name: &[u8], states: &StateList) -> Result<StateList, NoMemory>
    ensures { IfOk result (λ left. left
        ≡ map (state_for mask.now.circuit.now mask.now.stuck name.now) states.now) }
{
    let mut left = StateList::new(mask.alloc);
    for state in states.items() {
        left.push(given_state(mask, name, *state))?;
    }
    Ok(left)
}

// The state that a word gives the node of a name.
fn given_state(mask: &Mask<'_>, name: &[u8], state: Tern) -> Tern
    ensures { result ≡ state_for mask.now.circuit.now mask.now.stuck name.now state }
{
    match mask.stuck {
        Some(at) if names_stuck(mask, name) => at.1,
        _ => state,
    }
}

// Whether the name is that of the stuck node.
fn names_stuck(mask: &Mask<'_>, name: &[u8]) -> bool
    ensures { result ≡ is_stuck mask.now.circuit.now mask.now.stuck name.now }
{
    match mask.stuck {
        Some(at) => mask.circuit.find(name).is_some_and(|node| node == at.0),
        None => false,
    }
}
