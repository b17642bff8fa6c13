//! What is put in slots.
ghost use Rattle.std.specs.Prelude.{◌≡◌, ◌<◌, length, All};
ghost use Rattle.machine_parts.specs.Putting.{Puts};

/// Puts these in these slots.
pub fn put_in<T: Drop>(slots: &[usize], fresh: Vec<T>, all: &mut [T])
    requires inside { All (λ k. k < length all.old) slots.now }
    requires counted { length fresh.items ≡ length slots.now }
    ensures { Puts slots.now fresh.items all.old all.new }
{
    let mut place = 0;
    for one in fresh {
        all[slots[place]] = one;
        place += 1;
    }
}
