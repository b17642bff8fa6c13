//! Which nodes the words of `set` and `charge` stood for in an earlier run of a script.

use std::alloc::Global;

// So many words are noted at most.
const MOST_NOTED: usize = 1_048_576;

/// The nodes for which the words of `set` and `charge` stood in a run, word by word, and how many words the present run has come by.
///
/// Contracts don't see it, and nothing is believed of it: a word stands for a node that is guessed only if the node is called so.
#[derive(Drop)]
pub(crate) struct Guesses {
    nodes: Vec<usize>,
    at: usize,
    // How many words are noted at most.
    most: usize,
}

impl Guesses {
    /// Nothing is guessed or noted: that pays only for a script that runs again.
    pub(crate) fn none(alloc: Global) -> Guesses {
        Guesses {
            nodes: Vec::new(alloc),
            at: 0,
            most: 0,
        }
    }

    /// The script begins again.
    pub(crate) fn again(self) -> Guesses {
        Guesses {
            nodes: self.nodes,
            at: 0,
            most: MOST_NOTED,
        }
    }

    /// The nodes that are guessed for the next words, in order.
    pub(crate) fn next(&self) -> &[usize] {
        match self.nodes.get(self.at..) {
            Some(nodes) => nodes,
            None => &[],
        }
    }

    /// The node that is guessed for the next word; if none is, a number that no node has.
    pub(crate) fn first(&self) -> usize {
        match self.nodes.get(self.at) {
            Some(node) => *node,
            None => usize::MAX,
        }
    }

    /// Goes past a word, which stood for this node; if it stood for more nodes or none, this is a number that no node has.
    pub(crate) fn note(&mut self, node: usize) {
        let at = self.at;
        self.at = at.saturating_add(1);
        if at < self.nodes.len() {
            self.nodes[at] = node;
        } else if at < self.most {
            put(&mut self.nodes, node);
        }
    }
}

// Puts a node behind the others, if there is memory for it.
fn put(nodes: &mut Vec<usize>, node: usize) {
    match nodes.push(node) {
        Ok(()) => {}
        Err(_) => {}
    }
}
