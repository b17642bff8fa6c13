ghost use Rattle.std.specs.Prelude.{◌≡◌, ◌≢◌};
ghost use Rattle.group_analysis.specs.Meaning.{MeansText};

use drawn_nets::{
    BLOCKED_IN_THE_MIDDLE, RATIOED_INVERTER, RING_AND_TWO_INVERTERS, SHARED_CHARGE, count_states,
    numbered_state, texts_of,
};
use group_analysis::Analyst;
use group_text::GroupText;
use node_elimination::SymbolicAnalyst;
use sim_read::read_netlist;
use std::alloc::Global;
use std::marker::Brand;
use std::sync::ledger::{Blank, Ledger};
use std::test::Fail;
use straight_code::Code;
use switch_paths::plain_step;
use table_keys::TableKeys;
use ternary::{NoMemory, Steps, Tern};

// What a net shows, the net, and how many states the local nodes of all its groups have, the rails at their constants.
const ROWS: [(&str, &[u8], u64); 4] = [
    ("a ratioed inverter", RATIOED_INVERTER, 12),
    ("shared charge", SHARED_CHARGE, 27),
    ("a blocked path", BLOCKED_IN_THE_MIDDLE, 27),
    ("a ring", RING_AND_TWO_INVERTERS, 21),
];

#[test]
fn code_gives_the_plain_step(rt: HostRuntime) -> Result<(), Fail> {
    for (name, net, states) in &ROWS {
        let circuit = read_netlist(rt.alloc(), TableKeys::fixed(), net)?;
        let mut tried: u64 = 0;
        for (text, _nodes) in &texts_of(rt.alloc(), circuit.graph())? {
            let wrong = compare::<Brand>(rt.alloc(), text, Blank::new(1))?;
            assert!(rt; wrong == 0, "{}", *name);
            tried = tried.saturating_add(count_states(text.constants()));
        }
        assert!(rt; tried == *states, "{}", *name);
    }
    Ok(())
}

// In how many states of a text's local nodes its code gives other states than the plain step.
fn compare<L: Ledger>(alloc: Global, text: &GroupText, blank: Blank) -> Result<u64, NoMemory>
    requires name { blank.name ≡ L.name }
    requires parts { blank.parts ≡ L.parts }
    requires some { blank.parts ≢ 0 }
{
    let mut steps: Steps<L> = Steps::new(blank);
    let code = SymbolicAnalyst::new(alloc).analyse(alloc, text)?;
    let mut wrong: u64 = 0;
    for number in 0..count_states(text.constants()) {
        let is_right = is_plain_step(alloc, text, &code, number, &mut steps)?;
        wrong = wrong.saturating_add(u64::from(!is_right));
    }
    Ok(wrong)
}

// Whether the code gives what the plain step does in the state with this number.
fn is_plain_step<L: Ledger>(
    alloc: Global,
    text: &GroupText,
    code: &Code,
    number: u64,
    steps: &mut Steps<L>,
) -> Result<bool, NoMemory>
    requires { MeansText text.now code.now }
{
    let state = numbered_state(alloc, text.constants(), number)?;
    let next = plain_step(alloc, text.graph(), &state)?;
    let mut scratch = vec![in alloc; false; code.len()]?;
    let mut out = vec![in alloc; Tern::Unk; text.members()]?;
    code.run(&state, &mut scratch, &mut out, steps);
    Ok(next.starts_with(&out))
}
