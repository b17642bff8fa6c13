//! The groups that are stepped by vicinities, if they are known, through an edit and a build.
ghost use Rattle.std.specs.Prelude.{◌≡◌, ◌≤◌, ◌↔◌, true, IfOk};
ghost use Rattle.switch_paths.specs.Graphs.{nodes};
ghost use Rattle.wide_groups.specs.Moving.{graph_in};
ghost use Rattle.wide_groups.specs.Staying.{GrowsIn, HoldsNode, HoldsAny, ForgetsWith, lowered, HoldsUpTo};

use ternary::NoMemory;
use vicinity::Wide;

/// They are known once the circuit has so many nodes: the new ones are no members of them.
pub fn grown(wide: Option<Wide>, count: usize) -> Result<Option<Wide>, NoMemory>
    requires { nodes (graph_in wide) ≤ count }
    ensures { IfOk result (GrowsIn count wide) }
{
    match wide {
        Some(wide) => {
            let wide = wide.grown(count)?;
            Ok(Some(wide))
        }
        None => Ok(None),
    }
}

/// Whether this node is a member of one of them.
pub fn holds_node(wide: &Option<Wide>, node: usize) -> bool
    ensures { (result ≡ true) ↔ HoldsNode wide.now node }
{
    match wide {
        Some(wide) => wide.has(node),
        None => false,
    }
}

/// Whether one of these nodes is.
pub fn holds_any(wide: &Option<Wide>, members: &[usize]) -> bool
    ensures { (result ≡ true) ↔ HoldsAny wide.now members.now }
{
    match wide {
        Some(wide) => wide.has_any(members),
        None => false,
    }
}

/// Whether they are known, and none of them has more members than this.
pub fn holds_up_to(wide: &Option<Wide>, large: usize) -> bool
    ensures { (result ≡ true) ↔ HoldsUpTo large wide.now }
{
    match wide {
        Some(wide) => wide.large() <= large,
        None => false,
    }
}

/// If one of these nodes is a member of one of them, they aren't known any more.
pub fn forget_with(members: &[usize], wide: &mut Option<Wide>)
    ensures { ForgetsWith members.now wide.old wide.new }
{
    if holds_any(wide, members) {
        *wide = None;
    }
}

/// From now on a group without a text is one of them only if it has no more members than this either.
pub fn lower(large: usize, wide: &mut Option<Wide>)
    ensures { wide.new ≡ lowered large wide.old }
{
    if let Some(wide) = wide {
        wide.lower(large);
    }
}
