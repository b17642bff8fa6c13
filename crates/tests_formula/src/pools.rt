//! Formulas of a pool, by their values and by how many gates they are.
ghost use Rattle.std.specs.Prelude.{◌≡◌, ◌≢◌};

use bool_pool::Pool;
use std::alloc::Global;
use std::marker::Brand;
use std::process::Abort;
use std::sync::ledger::{Blank, Ledger};
use std::test::Fail;
use ternary::{NoMemory, Steps};

// The values of h and l, and that of "h and l".
const ROWS: [(bool, bool, bool); 4] = [
    (false, false, false),
    (false, true, false),
    (true, false, false),
    (true, true, true),
];

// Makes the formulas, compares their values with the rows, and gives the pool's size.
fn size_after_rows<L: Ledger>(
    rt: &impl Abort,
    alloc: Global,
    pool: &mut Pool,
    steps: &mut Steps<L>,
) -> Result<usize, NoMemory> {
    let h = pool.var(0, steps)?;
    let l = pool.var(3, steps)?;
    let both = pool.and(h, l, steps)?;
    let swapped = pool.and(l, h, steps)?;
    let either = pool.or(both, swapped, steps)?;
    let not_both = pool.not(both, steps)?;
    let no = pool.constant(false, steps)?;
    let yes = pool.constant(true, steps)?;
    for (h_value, l_value, want) in ROWS {
        let vars = [h_value, false, false, l_value];
        let told = [
            pool.value(alloc, either, &vars)?,
            pool.value(alloc, not_both, &vars)?,
            pool.value(alloc, no, &vars)?,
            pool.value(alloc, yes, &vars)?,
        ];
        assert!(rt; told == [want, !want, false, true]);
    }
    Ok(pool.size())
}

// The pool's sizes after the formulas were made once and twice.
fn sizes<L: Ledger>(rt: &impl Abort, alloc: Global, blank: Blank) -> Result<[usize; 2], NoMemory>
    requires name { blank.name ≡ L.name }
    requires parts { blank.parts ≡ L.parts }
    requires some { blank.parts ≢ 0 }
{
    let mut pool = Pool::new(alloc);
    let mut steps: Steps<L> = Steps::new(blank);
    let once = size_after_rows(rt, alloc, &mut pool, &mut steps)?;
    let twice = size_after_rows(rt, alloc, &mut pool, &mut steps)?;
    Ok([once, twice])
}

#[test]
fn formulas_made_twice_have_one_gate_each(rt: HostRuntime) -> Result<(), Fail> {
    let found = sizes::<Brand>(&rt, rt.alloc(), Blank::new(1))?;
    assert!(rt; found == [6, 6]);
    Ok(())
}
