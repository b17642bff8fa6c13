//! What `C` lines added to names, and what comes of it to each node.

ghost use Rattle.std.specs.Prelude.{◌≡◌, ◌≤◌, ◌<◌, ◌+◌, ◌*◌, ◌^◌, [], ℕ, length, slice_index, slice_set, IfOk, IfNone, IfSome, OnOk, OnErr};
ghost use Rattle.switch_paths.specs.Graphs.{nodes};
ghost use Rattle.sim_read.specs.Capacitances.{added_among, all_added, is_of, with_both, with_more};

use indexmap::IndexMap;
use netlist::Circuit;
use std::alloc::Global;
use std::marker::Model;
use table_keys::TableKeys;
use ternary::NoMemory;

/// How much was added to each name, in thousandths.
///
/// Contracts see it as the list of the names to which something was added, each with its sum.
#[derive(Drop)]
pub(crate) struct Sums {
    table: IndexMap<Vec<u8>, u64, TableKeys>,
}

impl Model for Sums {
    ghost use Rattle.std.specs.Prelude.{List, ℕ};
    ghost use Rattle.netlist.specs.Naming.{entries_of};

    ghost Value = { List (List ℕ × ℕ) };

    ghost view = { λ sums. entries_of sums.table.entries };
}

impl Sums {
    /// Nothing was added. Names are hashed from these keys.
    pub(crate) fn new(alloc: Global, keys: TableKeys) -> Sums
        ensures { result ≡ [] }
    {
        Sums {
            table: IndexMap::with_hasher(alloc, keys),
        }
    }

    /// Adds so much to two names, once if both are one.
    ///
    /// Out of memory it was added to the first, or to none.
    pub(crate) fn add_both(
        &mut self,
        first: &[u8],
        second: &[u8],
        more: u64,
    ) -> Result<(), NoMemory>
        requires { all_added self.old + 2 * more < 2 ^ 64 }
        ensures ok { OnOk result
            (self.new ≡ with_both self.old first.now second.now more) }
        ensures bound { all_added self.new ≤ all_added self.old + 2 * more }
    {
        self.add(first, more)?;
        if first != second {
            self.add(second, more)?;
        }
        Ok(())
    }

    // Adds so much to a name.
    fn add(&mut self, name: &[u8], more: u64) -> Result<(), NoMemory>
        requires { all_added self.old + more < 2 ^ 64 }
        ensures ok { OnOk result
            (self.new ≡ with_more self.old name.now more) }
        ensures err { OnErr result (self.new ≡ self.old) }
    {
        let sum = self.table.get(name).copied().unwrap_or(0) + more;
        let word = name.to_vec(*self.table.allocator())?;
        match self.table.insert(word, sum) {
            Ok(_) => Ok(()),
            Err(_) => Err(NoMemory),
        }
    }

    /// How much was added to all names of each node, in the order of the nodes.
    pub(crate) fn by_node(&self, alloc: Global, circuit: &Circuit) -> Result<Vec<u64>, NoMemory>
        requires { all_added self.now < 2 ^ 64 }
        ensures count { IfOk result (λ found. length found.items ≡ nodes circuit.now.graph) }
        ensures sums { IfOk result (λ found. (node : ℕ) → node < nodes circuit.now.graph
            → slice_index found.items node ≡ added_among self.now (is_of circuit.now.names node)) }
    {
        let mut found = vec![in alloc; 0; circuit.graph().nodes()]?;
        for place in 0..self.table.len() {
            let Some((name, sum)) = self.table.get_index(place) else {
                unreachable!()
            };
            add_at(&mut found, circuit.find(name), *sum);
        }
        Ok(found)
    }
}

// Adds so much at a place, if there is one.
fn add_at(found: &mut Vec<u64>, place: Option<usize>, more: u64)
    requires within { IfSome place (λ at. at < length found.old.items) }
    requires room { IfSome place (λ at. slice_index found.old.items at + more < 2 ^ 64) }
    ensures some { IfSome place (λ at.
        found.new.items ≡ slice_set found.old.items at (slice_index found.old.items at + more)) }
    ensures none { IfNone place (found.new ≡ found.old) }
{
    if let Some(at) = place {
        found[at] += more;
    }
}
