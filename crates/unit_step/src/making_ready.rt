//! The stale parts get their codes.
ghost use Rattle.std.specs.Prelude.{◌≡◌, ◌<◌, length, map, All, Some, IfOk, slice_get};
ghost use Rattle.kept_parts.specs.Uses.{IsNumbered, texts_used};
ghost use Rattle.machine_parts.specs.Putting.{Puts};

use group_text::GroupText;
use kept_parts::TextUses;
use std::alloc::{AllocError, Global};
use ternary::NoMemory;

// The numbers of these texts.
pub(crate) fn numbers_of(
    alloc: Global,
    texts: &[GroupText],
    uses: &mut TextUses,
) -> Result<Vec<usize>, NoMemory>
    ensures same { texts_used uses.new ≡ texts_used uses.old }
    ensures numbered { IsNumbered uses.old uses.new }
    ensures numbers { IfOk result (λ numbers. map (slice_get uses.new.known) numbers.items ≡ map Some texts.now) }
{
    let mut numbers = Vec::new(alloc);
    for text in texts {
        let number = uses.number(alloc, text)?;
        numbers.push(number).map_err(AllocError::from)?;
    }
    Ok(numbers)
}

// Gives these parts the texts with these numbers.
pub(crate) fn put_texts(slots: &[usize], numbers: &[usize], uses: &mut TextUses)
    requires inside { All (λ k. k < length uses.old.numbers) slots.now }
    requires counted { length numbers.now ≡ length slots.now }
    requires known { All (λ number. number < length uses.old.known) numbers.now }
    ensures known { uses.new.known ≡ uses.old.known }
    ensures puts { Puts slots.now (map Some numbers.now) uses.old.numbers uses.new.numbers }
{
    for (place, number) in numbers.iter().enumerate() {
        uses.free(slots[place]);
        uses.set(slots[place], *number);
    }
}
