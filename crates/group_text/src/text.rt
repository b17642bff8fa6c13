ghost use Rattle.std.specs.Prelude.{◌≡◌, ◌<◌, ◌≤◌, ◌⊎◌, length, map, None, Some, slice_index_or, IfOk, IfErr, OnOk};
ghost use Rattle.switch_paths.specs.Graphs.{nodes};
ghost use Rattle.group_meaning.specs.Groups.{IsGroup};
ghost use Rattle.group_text.specs.Texts.{IsText, constant_of, local_nodes, size_fault, text_of_group};
ghost use Rattle.group_text.specs.declared.text.TextFault.TheVariants.{NoMemory};

use crate::local::{collect_nodes, local_graph};
use std::alloc::Global;
use std::marker::Model;
use switch_paths::{GND, Graph, VDD, graphs_are_wired};
use ternary::{NoMemory, Tern};

/// The most members of a group whose text is made.
pub const MOST_MEMBERS: usize = 200;

/// The most switches of a group whose text is made.
pub const MOST_SWITCHES: usize = 800;

/// Why a group has no text.
#[derive(Clone, Copy, Debug, PartialEq, Eq)]
pub enum TextFault {
    /// The group has more than [`MOST_MEMBERS`] members: so many.
    GroupNodes { count: u64 },
    /// The group has at most [`MOST_MEMBERS`] members, and more than [`MOST_SWITCHES`] switches: so
    /// many.
    GroupSwitches { count: u64 },
    /// Memory ran out.
    NoMemory,
}

impl From<NoMemory> for TextFault {
    ghost from_gives = { λ _ fault. fault ≡ NoMemory };

    fn from(_want: NoMemory) -> TextFault {
        TextFault::NoMemory
    }
}

/// The text of a group: its local graph, how many of its nodes are members, and which are a rail.
///
/// Two texts are equal exactly if all three are, and equal texts have equal hashes. So an
/// analysis that is kept under a text serves each group that has it.
#[derive(Drop)]
pub struct GroupText {
    graph: Graph,
    members: usize,
    constants: Vec<Option<Tern>>,
}

impl Model for GroupText {
    ghost use Rattle.group_text.specs.Texts.{GroupTextData, IsText};

    ghost Value = { GroupTextData };

    ghost view = { λ text. record { graph = text.graph; members = text.members; constants = text.constants.items } };

    ghost invariant = { λ text. IsText (record { graph = text.graph; members = text.members; constants = text.constants.items }) };
}

impl GroupText {
    /// The local graph: the members first, then the outside nodes, which are input nodes.
    pub fn graph(&self) -> &Graph
        ensures value { result.now ≡ self.now.graph }
        ensures text { IsText self.now }
    {
        &self.graph
    }

    /// How many of the local nodes are members of the group: the first ones.
    pub fn members(&self) -> usize
        ensures { result ≡ self.now.members }
    {
        self.members
    }

    /// The constant state of a local node that stands for a rail: 0 for Gnd, 1 for Vdd. `None` exactly
    /// if it is no rail.
    pub fn constant(&self, local: usize) -> Option<Tern>
        requires { local < nodes self.now.graph }
        ensures { result ≡ slice_index_or self.now.constants local None }
    {
        self.constants[local]
    }

    /// The constants of all local nodes, in order.
    pub fn constants(&self) -> &[Option<Tern>]
        ensures { result.now ≡ self.now.constants }
    {
        &self.constants
    }

    /// An equal text.
    pub fn copy(&self, alloc: Global) -> Result<GroupText, NoMemory>
        ensures { IfOk result (λ text. text ≡ self.now) }
    {
        Ok(GroupText {
            graph: self.graph.copy(alloc)?,
            members: self.members,
            constants: Vec::from_slice(alloc, &self.constants)?,
        })
    }
}

/// The text of the group with these members and switches, and the node that each local node stands
/// for.
///
/// A group with too many members is refused first, then one with too many switches.
pub fn text_of(
    alloc: Global,
    graph: &Graph,
    members: &[usize],
    switches: &[usize],
) -> Result<(GroupText, Vec<usize>), TextFault>
    requires { IsGroup graph.now (record { members = members.now; switches = switches.now }) }
    ensures text { IfOk result (λ made.
        made.0 ≡ text_of_group graph.now (record { members = members.now; switches = switches.now })) }
    ensures locals { IfOk result (λ made.
        made.1.items ≡ local_nodes graph.now (record { members = members.now; switches = switches.now })) }
    ensures fits { OnOk result (size_fault (length members.now) (length switches.now) ≡ None) }
    ensures too_large { IfErr result (λ fault. (fault ≡ TextFault.NoMemory)
        ⊎ (size_fault (length members.now) (length switches.now) ≡ Some fault)) }
{
    if members.len() > MOST_MEMBERS {
        return Err(TextFault::GroupNodes {
            count: members.len() as u64,
        });
    }
    if switches.len() > MOST_SWITCHES {
        return Err(TextFault::GroupSwitches {
            count: switches.len() as u64,
        });
    }
    Ok(text_of_any_size(alloc, graph, members, switches)?)
}

/// The same for a group of any size.
///
/// A text that [`text_of`] refuses is for a look at a single group: what is kept by texts, and their
/// analysis, need small ones.
pub fn text_of_any_size(
    alloc: Global,
    graph: &Graph,
    members: &[usize],
    switches: &[usize],
) -> Result<(GroupText, Vec<usize>), NoMemory>
    requires { IsGroup graph.now (record { members = members.now; switches = switches.now }) }
    ensures text { IfOk result (λ made.
        made.0 ≡ text_of_group graph.now (record { members = members.now; switches = switches.now })) }
    ensures locals { IfOk result (λ made.
        made.1.items ≡ local_nodes graph.now (record { members = members.now; switches = switches.now })) }
{
    graphs_are_wired(graph);
    let locals = collect_nodes(alloc, graph, members, switches)?;
    let text = GroupText {
        graph: local_graph(alloc, graph, members, switches, &locals)?,
        members: members.len(),
        constants: constants_of(alloc, locals.as_slice())?,
    };
    let nodes = list_of(alloc, locals.as_slice())?;
    Ok((text, nodes))
}

// For each local node the constant of the node that it stands for.
fn constants_of(alloc: Global, locals: &[usize]) -> Result<Vec<Option<Tern>>, NoMemory>
    ensures { IfOk result (λ constants. constants.items ≡ map constant_of locals.now) }
{
    Ok(locals.iter().map(|&node| constant_of(node)).collect(alloc)?)
}

// The same nodes in a list of their own.
fn list_of(alloc: Global, nodes: &[usize]) -> Result<Vec<usize>, NoMemory>
    ensures { IfOk result (λ list. list.items ≡ nodes.now) }
{
    Ok(Vec::from_slice(alloc, nodes)?)
}

// The constant of a node: Gnd is 0, Vdd is 1.
fn constant_of(node: usize) -> Option<Tern>
    ensures { result ≡ constant_of node }
{
    match node {
        GND => Some(Tern::Zero),
        VDD => Some(Tern::One),
        _ => None,
    }
}
