//! The nodes at which columns that take turns aren't all alike.
ghost use Rattle.std.specs.Prelude.{◌≡◌, ◌⊎◌, ℕ, ◌<◌, true, length, Contains};
ghost use Rattle.switch_paths.specs.Words.{state_at};
ghost use Rattle.column_machines.specs.Words.{is_in_column, nodes_told, IsIn, MarksAll};
ghost use Rattle.column_machines.specs.Columns.{column_states, state_in};

use crate::bits::have_state;
use settling::Moved;
use ternary::Tern;
use unit_step::{Machine, Watched};
use vicinity::NodeSet;

// Puts each node in.
pub(crate) fn put_each(set: &mut NodeSet)
    ensures count { length set.new.inside ≡ length set.old.inside }
    ensures each { (node : ℕ) → node < length set.old.inside → IsIn set.new.inside node }
{
    let count = set.nodes();
    for node in 0..count {
        set.insert(node);
    }
}

// Puts a node in that has these words, unless it has this state in each of the columns whose bits are used.
pub(crate) fn put_uneven(used: u64, hi: u64, lo: u64, state: Tern, node: usize, set: &mut NodeSet)
    requires { node < length set.old.inside }
    ensures count { length set.new.inside ≡ length set.old.inside }
    ensures stays { (other : ℕ) → IsIn set.old.inside other → IsIn set.new.inside other }
    ensures there { IsIn set.new.inside node ⊎ ((column : ℕ) → column < 64 → is_in_column column used ≡ true → state_in column (hi, lo) ≡ state) }
{
    if !have_state(used, hi, lo, state) {
        set.insert(node);
    }
}

// Puts in the nodes at which a machine's last step may have changed its state.
pub(crate) fn note(machine: &mut Machine, changed: &mut Option<Vec<usize>>, set: &mut NodeSet)
    requires { (node : ℕ) → Contains (nodes_told changed.old (length machine.old.state)) node → node < length set.old.inside }
    ensures same { machine.new ≡ machine.old }
    ensures puts { MarksAll (Contains (nodes_told changed.old (length machine.old.state))) set.old.inside set.new.inside }
{
    put_changed(&Watched { machine, changed }, set);
}

// Puts in the nodes at which a move may have changed a state.
fn put_changed<M: Moved>(moved: &M, set: &mut NodeSet)
    requires { (node : ℕ) → Contains (M.changed moved.now) node → node < length set.old.inside }
    ensures { MarksAll (Contains (M.changed moved.now)) set.old.inside set.new.inside }
{
    let count = moved.change_count();
    for at in 0..count {
        set.insert(moved.changed_node(at));
    }
}

// Empties a set of nodes, of which those go to the other one that haven't this state in each of the columns whose bits are
// used.
pub(crate) fn sift(
    used: u64,
    state: &[Tern],
    hi: &[u64],
    lo: &[u64],
    uneven: &mut NodeSet,
    stay: &mut NodeSet,
)
    requires counted { length state.now ≡ length hi.now }
    requires even { length lo.now ≡ length hi.now }
    requires inside { length uneven.old.inside ≡ length hi.now }
    requires room { length stay.old.inside ≡ length hi.now }
    ensures less { length uneven.new.inside ≡ length uneven.old.inside }
    ensures more { length stay.new.inside ≡ length stay.old.inside }
    ensures even { (column node : ℕ) → column < 64 → is_in_column column used ≡ true → node < length hi.now → IsIn uneven.old.inside node → (¬ IsIn stay.new.inside node)
        → state_at (column_states column hi.now lo.now) node ≡ state_at state.now node }
{
    while let Some(node) = uneven.pop() {
        put_uneven(used, hi[node], lo[node], state[node], node, stay);
    }
}
