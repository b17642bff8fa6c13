//! Both rails of each node's states, in words that stand alone.
ghost use Rattle.std.specs.Prelude.{◌≡◌, ℕ, ◌+◌, ◌-◌, ◌<◌, [], ◌∷◌, ◌++◌, List, length, replicate, vec_len, vec_capacity};
ghost use Rattle.ternary.specs.declared.tern.Tern.{Tern};
ghost use Rattle.ternary.specs.declared.tern.Tern.TheVariants.{Unk};
ghost use Rattle.word_columns.specs.Columns.{AreRailsIn};
ghost use Rattle.column_machines.specs.Making.{HasRoom};

/// Both rails of each node's states, bit i for column i: what a machine of columns leaves that can't go on.
#[derive(Drop)]
pub struct Rails {
    /// the rail "may be 1" of each node
    pub hi: Vec<u64>,
    /// and the rail "may be 0"
    pub lo: Vec<u64>,
}

/// Adds nodes that are X in each column, up to so many nodes, in room that is there.
pub fn grow_rails(rails: &mut Rails, nodes: usize)
    requires room { HasRoom (nodes - vec_len rails.old.hi) rails.old }
    requires even { vec_len rails.old.lo ≡ vec_len rails.old.hi }
    ensures highs { vec_len rails.new.hi ≡ vec_len rails.old.hi + (nodes - vec_len rails.old.hi) }
    ensures lows { vec_len rails.new.lo ≡ vec_len rails.old.hi + (nodes - vec_len rails.old.hi) }
    ensures states { (column : ℕ) (state : List Tern) → column < 64 → AreRailsIn column rails.old.hi.items rails.old.lo.items state
        → AreRailsIn column rails.new.hi.items rails.new.lo.items (state ++ replicate (nodes - length state) Unk) }
{
    for _node in rails.hi.len()..nodes {
        push_words(rails, u64::MAX, u64::MAX);
    }
}

// Adds a node with these words, in room that is there.
fn push_words(rails: &mut Rails, hi: u64, lo: u64)
    requires { HasRoom 1 rails.old }
    ensures hi { rails.new.hi.items ≡ rails.old.hi.items ++ hi ∷ [] }
    ensures lo { rails.new.lo.items ≡ rails.old.lo.items ++ lo ∷ [] }
    ensures hi_room { vec_capacity rails.new.hi ≡ vec_capacity rails.old.hi }
    ensures lo_room { vec_capacity rails.new.lo ≡ vec_capacity rails.old.lo }
{
    rails.hi.push_reserved(hi);
    rails.lo.push_reserved(lo);
}
