ghost use Rattle.std.specs.Prelude.{◌≡◌, ◌⊎◌, ◌++◌, List, map, IfOk, IfErr, OnOk, OnErr};
ghost use Rattle.std.specs.List.{range_with_len};
ghost use Rattle.circuit_listing.specs.Words.{called, first_texts, nodes, text_of_group, AllFit, AnalysesFront, AreGroups, Group, HasVisibleNames, IsFaithful, TellsTooLarge};

use analysis_cache::Kept;
use channel_groups::Groups;
use circuit_texts::BuildFault;
use group_analysis::Analyst;
use kept_parts::{NumberedTexts, numbered_texts, parts_by_number};
use linear_code::Listing;
use netlist::Circuit;
use std::alloc::{AllocError, Global};
use table_keys::TableKeys;
use ternary::NoMemory;

/// The listing of a circuit: the code of each group, made by the analyst, over the circuit's nodes.
///
/// Groups with equal texts share their code: each distinct text is analysed once, in the order of its
/// first group, whose least node is the least. If some group is too large, the first such group is
/// told and nothing is analysed; out of memory a prefix of the distinct texts was analysed. The
/// keys start the hashes of the table of texts.
pub fn list_circuit<A: Analyst>(
    alloc: Global,
    keys: TableKeys,
    circuit: &Circuit,
    analyst: &mut A,
) -> Result<Listing, BuildFault>
    requires { HasVisibleNames circuit.now }
    ensures listing { IfOk result (λ listing. IsFaithful circuit.now listing) }
    ensures fits { OnOk result (AllFit circuit.now.graph) }
    ensures analysed { OnOk result ((groups : List Group) → AreGroups circuit.now.graph groups
        → A.analysed analyst.new ≡ A.analysed analyst.old ++ first_texts (map (text_of_group circuit.now.graph) groups)) }
    ensures front { OnErr result ((groups : List Group) → AreGroups circuit.now.graph groups
        → AnalysesFront (A.analysed analyst.old) (A.analysed analyst.new) (first_texts (map (text_of_group circuit.now.graph) groups))) }
    ensures refused { IfErr result (λ fault. (fault ≡ BuildFault.NoMemory)
        ⊎ (TellsTooLarge circuit.now.graph fault × (A.analysed analyst.new ≡ A.analysed analyst.old))) }
{
    let groups = Groups::of(alloc, circuit.graph())?;
    let NumberedTexts { uses, maps } = numbered_texts(alloc, keys, circuit.graph(), &groups)?;
    drop(groups);
    let mut kept = Kept::with_keys(alloc, keys);
    kept.ensure(uses.known(), analyst)?;
    let parts = parts_by_number(alloc, &kept, &uses, maps)?;
    // The parts share what they need of these: the listing is made without them.
    drop(uses);
    drop(kept);
    let names = names_of(alloc, circuit)?;
    Ok(Listing::build(alloc, circuit.graph(), names, &parts)?)
}

// What the nodes of a circuit are called.
fn names_of(alloc: Global, circuit: &Circuit) -> Result<Vec<Vec<u8>>, AllocError>
    ensures { IfOk result (λ names. map (λ name. name.items) names.items
        ≡ map (called circuit.now) (range_with_len 0 (nodes circuit.now.graph))) }
{
    let mut names = Vec::new(alloc);
    for node in 0..circuit.graph().nodes() {
        let name = Vec::from_slice(alloc, circuit.name_of(node))?;
        names.push(name)?;
    }
    Ok(names)
}
