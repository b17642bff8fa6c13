use channel_groups::Groups;
use group_text::{GroupText, TextFault, text_of};
use std::alloc::Global;
use switch_paths::Graph;

/// The texts of all groups of a graph, each with the nodes that its local nodes stand for.
pub fn texts_of(alloc: Global, graph: &Graph) -> Result<Vec<(GroupText, Vec<usize>)>, TextFault> {
    let groups = Groups::of(alloc, graph)?;
    let mut texts = Vec::new(alloc);
    for &id in &groups.ids(alloc)? {
        let group = groups.group(id);
        let text = text_of(alloc, graph, group.members(), group.switches())?;
        texts.push(text).map_err(|_| TextFault::NoMemory)?;
    }
    Ok(texts)
}
