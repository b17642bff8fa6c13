//! The commands that put a fault into a circuit.
ghost use Rattle.std.specs.Prelude.{◌≡◌, [], ◌∷◌, All, IfOk};
ghost use Rattle.script_lang.specs.declared.command.Command.TheVariants as family;
ghost use Rattle.script_lang.specs.declared.command.Edit.TheVariants.{Input};
ghost use Rattle.script_lang.specs.declared.command.Give.TheVariants.{Set};
ghost use Rattle.script_lang.specs.declared.value.Value.TheVariants.{Letter};
ghost use Rattle.netlist.specs.Circuits.{HasVisibleNames};
ghost use Rattle.script_lang.specs.Forms.{IsFormed};
ghost use Rattle.fault_sim.specs.Changes.{commands_of, commands_in, stuck_by};
ghost use Rattle.fault_sim.specs.Faults.{IsFault};

use crate::fault::Fault;
use netlist::Circuit;
use script_lang::{Command, Edit, Give, Name, NameList, Value, ValueList};
use std::alloc::Global;
use switch_paths::SwitchKind;
use ternary::{NoMemory, Tern};

/// The commands that a fault stands for, which are obeyed before the script: `del K` for an open
/// transistor, `type K d` for a closed one, and `input NAME` and `set NAME=V` for a node that is stuck.
pub fn fault_commands(
    alloc: Global,
    circuit: &Circuit,
    fault: Fault,
) -> Result<(Command, Option<Command>), NoMemory>
    requires { IsFault circuit.now fault }
    ensures value { IfOk result (λ given. commands_in given ≡ commands_of circuit.now fault) }
    ensures formed { HasVisibleNames circuit.now
        → IfOk result (λ given. All IsFormed (commands_in given)) }
{
    commands_by_kind(alloc, circuit, fault)
}

// The same, kind by kind.
fn commands_by_kind(
    alloc: Global,
    circuit: &Circuit,
    fault: Fault,
) -> Result<(Command, Option<Command>), NoMemory>
    requires { IsFault circuit.now fault }
    ensures { IfOk result (λ given. commands_in given ≡ commands_of circuit.now fault) }
{
    match fault {
        Fault::Open(number) => Ok((Command::Edit(Edit::Del(number)), None)),
        Fault::Closed(number) => {
            let closing = Edit::Kind(number, SwitchKind::Always);
            Ok((Command::Edit(closing), None))
        }
        Fault::Stuck(node, state) => {
            let given = stuck_commands(alloc, circuit.name_of(node), state)?;
            Ok((given.0, Some(given.1)))
        }
    }
}

/// The node that is stuck under a fault, and its state, if one is.
pub fn stuck_node(fault: Fault) -> Option<(usize, Tern)>
    ensures { result ≡ stuck_by fault }
{
    match fault {
        Fault::Stuck(node, state) => Some((node, state)),
        _ => None,
    }
}

// The commands that make the node of a name an input node and set it.
fn stuck_commands(alloc: Global, name: &[u8], state: Tern) -> Result<(Command, Command), NoMemory>
    ensures { IfOk result (λ given. given
        ≡ (family.Edit (Input (name.now ∷ [])), family.Give (Set ((name.now, Letter state) ∷ [])))) }
{
    let mut names = NameList::new(alloc);
    names.push(Name::from_slice(alloc, name)?)?;
    let mut list = ValueList::new(alloc);
    list.push((Name::from_slice(alloc, name)?, Value::Letter(state)))?;
    Ok((
        Command::Edit(Edit::Input(names)),
        Command::Give(Give::Set(list)),
    ))
}
