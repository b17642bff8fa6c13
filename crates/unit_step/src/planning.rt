//! What is found of a graph before a machine is built of it.
ghost use Rattle.std.specs.Prelude.{◌≡◌, ◌⊎◌, IfOk, IfErr};
ghost use Rattle.circuit_texts.specs.Sizes.{TellsRefused};
ghost use Rattle.unit_step.specs.Planning.{IsPlan};

use channel_groups::{GroupId, Groups};
use circuit_texts::{BuildFault, GroupSizes, reads_at, sizes_at};
use kept_parts::{NumberedTexts, TextUses, numbered_at};
use std::alloc::Global;
use switch_paths::Graph;
use table_keys::TableKeys;
use ternary::Tern;

// The groups of a graph; for each of those that have a text its number, the nodes that the text's local nodes stand
// for, and the nodes that it reads; the ids of those that have none; and the state to start in.
#[derive(Drop)]
pub(crate) struct Plan {
    pub(crate) groups: Groups,
    pub(crate) uses: TextUses,
    pub(crate) maps: Vec<Vec<usize>>,
    pub(crate) reads: Vec<Vec<usize>>,
    pub(crate) state: Vec<Tern>,
    pub(crate) large: Vec<GroupId>,
}

// The plan of a machine of a graph that starts in this state. A group that is too large for a text is refused if it has
// more members than `large`. The hashes of texts start from these keys.
pub(crate) fn plan_of(
    alloc: Global,
    keys: TableKeys,
    graph: &Graph,
    state: &[Tern],
    large: usize,
) -> Result<Plan, BuildFault>
    ensures plan { IfOk result (IsPlan large graph.now state.now) }
    ensures refused { IfErr result (λ fault. (fault ≡ BuildFault.NoMemory) ⊎ TellsRefused large graph.now fault) }
{
    let groups = Groups::of(alloc, graph)?;
    let ids = groups.ids(alloc)?;
    let GroupSizes { told, large } = sizes_at(alloc, &groups, &ids, large)?;
    let NumberedTexts { uses, maps } = numbered_at(alloc, keys, graph, &groups, &told)?;
    Ok(Plan {
        uses,
        maps,
        reads: reads_at(alloc, graph, &groups, &told)?,
        state: Vec::from_slice(alloc, state)?,
        large,
        groups,
    })
}
