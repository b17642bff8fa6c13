ghost use Rattle.std.specs.Prelude.{◌≡◌, ◌≢◌, [], length, IfOk, OnOk, OnErr};
ghost use Rattle.bool_pool.specs.Gate.{Extends};
ghost use Rattle.group_analysis.specs.Meaning.{MeansText};
ghost use Rattle.node_elimination.specs.Holding.{AreFormulasOf, IsCompacted};

use crate::analysis::analyse;
use crate::given::GivenTexts;
use crate::held::{Formulas, all_formulas, ids_of_pairs, put_formulas, split_formulas};
use bool_pool::{Id, Pool};
use formula_code::linearise;
use group_analysis::Analyst;
use group_text::GroupText;
use std::alloc::Global;
use std::marker::{Brand, Model};
use std::sync::ledger::{Blank, Ledger};
use straight_code::Code;
use table_keys::TableKeys;
use ternary::{NoMemory, Steps};

/// An analyst that eliminates: its code is that of the formulas which [`analyse`] makes of a text.
///
/// It owns the pool of all formulas, so that groups share what is alike in them, and holds the formulas of
/// each text until it is released. It counts the texts that it was given; their list is seen by contracts
/// alone and takes no memory.
#[derive(Drop)]
pub struct SymbolicAnalyst {
    alloc: Global,
    pool: Pool,
    analysed: usize,
    given: GivenTexts,
    held: Formulas,
}

impl Model for SymbolicAnalyst {
    ghost use Rattle.std.specs.Prelude.{◌≡◌, length};
    ghost use Rattle.node_elimination.specs.Holding.{AnalystData, IsHolding};
    ghost use Rattle.node_elimination.specs.HeldTable.{shown};

    ghost Value = { AnalystData };

    ghost view = { λ analyst. record { texts = analyst.given.texts; gates = analyst.pool; held = shown analyst.held.entries } };

    ghost invariant = { λ analyst. (analyst.analysed ≡ length analyst.given.texts) × IsHolding analyst.pool (shown analyst.held.entries) };
}

impl SymbolicAnalyst {
    /// An analyst that was given no text, whose keys are the same in every run.
    pub fn new(alloc: Global) -> SymbolicAnalyst
        ensures { result ≡ record { texts = []; gates = []; held = [] } }
    {
        SymbolicAnalyst::with_keys(alloc, TableKeys::fixed())
    }

    /// An analyst that was given no text, and whose tables look gates and texts up by hashes that start
    /// from these keys.
    pub fn with_keys(alloc: Global, keys: TableKeys) -> SymbolicAnalyst
        ensures { result ≡ record { texts = []; gates = []; held = [] } }
    {
        SymbolicAnalyst {
            alloc,
            pool: Pool::with_keys(alloc, keys),
            analysed: 0,
            given: GivenTexts::new(),
            held: Formulas::with_hasher(alloc, keys),
        }
    }

    /// How many texts it has analysed.
    pub fn analysed(&self) -> usize
        ensures { result ≡ length self.now.texts }
    {
        self.analysed
    }

    /// How many gates its pool has.
    pub fn pool_size(&self) -> usize
        ensures { result ≡ length self.now.gates }
    {
        self.pool.size()
    }
}

impl Analyst for SymbolicAnalyst {
    ghost use Rattle.std.specs.Map.{keys_of};
    ghost use Rattle.group_analysis.specs.Held.{set_of};

    ghost analysed = { λ analyst. analyst.texts };

    ghost held = { λ analyst. set_of (keys_of analyst.held) };

    fn analyse(&mut self, alloc: Global, text: &GroupText) -> Result<Code, NoMemory> {
        let Some(analysed) = self.analysed.checked_add(1) else {
            return Err(NoMemory);
        };
        let key = text.copy(alloc)?;
        let made = make::<Brand>(alloc, &mut self.pool, text, Blank::new(1))?;
        self.held.insert(key, made.formulas).map_err(|_| NoMemory)?;
        self.given = self.given.with(text);
        self.analysed = analysed;
        Ok(made.code)
    }

    fn release(&mut self, text: &GroupText) {
        self.held.swap_remove(text);
    }

    /// Leaves only the gates that the formulas of held texts reach, which keep their values.
    fn compact(&mut self) -> Result<(), NoMemory>
        ensures analysed { self.new.texts ≡ self.old.texts }
        ensures holds { set_of (keys_of self.new.held) ≡ set_of (keys_of self.old.held) }
        ensures compacted { OnOk result (IsCompacted self.old self.new) }
        ensures err { OnErr result (self.new ≡ self.old) }
    {
        let roots = all_formulas(self.alloc, &self.held)?;
        let (pool, found) = self.pool.compact(self.alloc, &roots)?;
        let split = split_formulas(self.alloc, &self.held, &found)?;
        put_formulas(&mut self.held, split);
        self.pool = pool;
        Ok(())
    }
}

// What an analysis makes of a text.
#[derive(Drop)]
struct Made {
    code: Code,
    formulas: Vec<Id>,
}

// Code that means the text, and the formulas of its members, of which it is.
fn make<L: Ledger>(
    alloc: Global,
    pool: &mut Pool,
    text: &GroupText,
    blank: Blank,
) -> Result<Made, NoMemory>
    requires name { blank.name ≡ L.name }
    requires parts { blank.parts ≡ L.parts }
    requires some { blank.parts ≢ 0 }
    ensures extends { Extends pool.old pool.new }
    ensures means { IfOk result (λ made. MeansText text.now made.code) }
    ensures formulas { IfOk result (λ made. AreFormulasOf pool.new text.now made.formulas.items) }
{
    let mut steps: Steps<L> = Steps::new(blank);
    let answers = analyse(alloc, pool, text, &mut steps)?;
    let code = linearise(alloc, pool, &answers, text.graph().nodes())?;
    let formulas = ids_of_pairs(alloc, &answers)?;
    Ok(Made { code, formulas })
}
