//! The keys of hashed tables whose entries come from a text.
//!
//! The main type is `TableKeys`. Where the author of a text knows how its names are hashed, he can pick names
//! that all fall into one place of a table, so that reading them takes the square of their number. Tables of
//! names, of texts of groups and of formulas therefore start their hashes from keys that the system draws. No
//! contract speaks of keys, and nothing that is written depends on them: the order of a table is that in
//! which its entries came.
//!
//! ```text
//! TableKeys::drawn(RandomState::new(rt)?)      another start in each run of the program
//! TableKeys::fixed()                           for tests, and for callers that make their own names
//! keys.folded()                                for tables of what the program numbers itself: a cheaper hash
//! ```
#![tactic(auto)]

use std::hash::{BuildHasher, DefaultHasher, FoldHasher, Hasher, RandomState};

/// The keys with which a table starts the hash of each entry.
#[derive(Clone, Copy)]
pub struct TableKeys {
    initial: DefaultHasher,
}

impl TableKeys {
    /// Keys that are the same in every run.
    pub fn fixed() -> TableKeys {
        TableKeys {
            initial: DefaultHasher::new(),
        }
    }

    /// Keys that were drawn from the system.
    pub fn drawn(random: RandomState) -> TableKeys {
        TableKeys {
            initial: random.build_hasher(),
        }
    }

    /// These keys for a table whose entries no text names, as gates and vertices, which the program numbers itself.
    pub fn folded(self) -> FoldedKeys {
        let mut initial = FoldHasher::default();
        initial.write_u64(self.initial.finish());
        FoldedKeys {
            keys: self,
            initial,
        }
    }
}

impl BuildHasher for TableKeys {
    type Hasher = DefaultHasher;

    ghost build_hasher = { λ keys. keys.initial };

    fn build_hasher(&self) -> DefaultHasher {
        self.initial
    }
}

/// Keys with which a table starts the hash of each entry, by a folded product: that takes a fifth of the instructions of the other hash, but
/// isn't cryptographic. Its start is a number that comes of the keys.
#[derive(Clone, Copy)]
pub struct FoldedKeys {
    keys: TableKeys,
    initial: FoldHasher,
}

impl FoldedKeys {
    /// The keys of which these were made.
    pub fn keys(self) -> TableKeys {
        self.keys
    }
}

impl BuildHasher for FoldedKeys {
    type Hasher = FoldHasher;

    ghost build_hasher = { λ keys. keys.initial };

    fn build_hasher(&self) -> FoldHasher {
        self.initial
    }
}
