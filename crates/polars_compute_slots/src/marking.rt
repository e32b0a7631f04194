//! Sets the slots of the rows of an array.

ghost use Rattle.std.specs.Prelude.{◌≡◌, ◌+◌, ◌≤◌, length};
ghost use Rattle.polars_arrays_flat.specs.ArrayRows.{number_rows};
ghost use Rattle.polars_arrays_flat.specs.StoredRows.{masked, number_slots};
ghost use Rattle.polars_arrays_words.specs.Bits.{first_of, is_bit};
ghost use Rattle.polars_compute_slots.specs.Slots.{HaveSlots, Marks, slot_state};
ghost use Rattle.polars_compute_slots.specs.State.{rows_read};

use crate::number::UniqueNumber;
use crate::slots::Slots;
use crate::span::Span;
use polars_arrays_bits::bit_mask::BitMask;
use polars_arrays_bits::bitmap::Bitmap;
use polars_arrays_flat::array::Array;
use polars_arrays_flat::primitive::PrimitiveArray;
use polars_arrays_numbers::steps::Steps;

// Number of rows that are read between two checks of whether all values were seen.
const BLOCK: usize = 512;

// Number of rows that are read at once if some rows are null: those with a bit in one word of the
// mask.
const WORD_ROWS: usize = 64;

// Sets the slot of each number.
#[inline(always)]
fn mark_all<T: UniqueNumber, S: Slots>(slots: &mut S, span: &Span<T>, numbers: &[T])
    requires size { length (S.set_slots slots.old) ≡ span.now.count + 1 }
    requires fit { HaveSlots (T.value span.now.least) span.now.count
        (number_slots T.value numbers.now) }
    ensures { Marks (T.value span.now.least) span.now.count (number_slots T.value numbers.now)
        (S.set_slots slots.old) (S.set_slots slots.new) }
{
    for number in numbers {
        slots.set(span.slot(*number));
    }
}

// Sets the slots of 64 rows. Row `i` is `numbers[i]` if bit `i` of `word` is 1, and null otherwise.
#[inline(always)]
fn mark_word<T: UniqueNumber, S: Slots>(slots: &mut S, span: &Span<T>, numbers: &[T], word: u64)
    requires size { length (S.set_slots slots.old) ≡ span.now.count + 1 }
    requires few { length numbers.now ≡ 64 }
    requires fit { HaveSlots (T.value span.now.least) span.now.count
        (masked (first_of (is_bit word) 64) (number_slots T.value numbers.now)) }
    ensures { Marks (T.value span.now.least) span.now.count
        (masked (first_of (is_bit word) 64) (number_slots T.value numbers.now))
        (S.set_slots slots.old) (S.set_slots slots.new) }
{
    for i in 0..numbers.len() {
        let present = (word >> i) & 1 == 1;
        slots.set(span.row_slot(present, numbers[i]));
    }
}

// Sets the slot of each row. Row `i` is `numbers[i]` if bit `i` of `mask` is 1, and null otherwise.
// Reads the mask bit by bit.
#[inline(always)]
fn mark_few<T: UniqueNumber, S: Slots>(
    slots: &mut S,
    span: &Span<T>,
    numbers: &[T],
    mask: &BitMask<'_>,
)
    requires size { length (S.set_slots slots.old) ≡ span.now.count + 1 }
    requires bits { length mask.now ≡ length numbers.now }
    requires fit { HaveSlots (T.value span.now.least) span.now.count
        (masked mask.now (number_slots T.value numbers.now)) }
    ensures { Marks (T.value span.now.least) span.now.count
        (masked mask.now (number_slots T.value numbers.now)) (S.set_slots slots.old)
        (S.set_slots slots.new) }
{
    for i in 0..numbers.len() {
        slots.set(span.row_slot(mask.get(i), numbers[i]));
    }
}

// Sets the slot of each row. Row `i` is `numbers[i]` if bit `i` of `mask` is 1, and null otherwise.
// Reads the mask by words of 64 bits, and the rest bit by bit.
#[inline(always)]
fn mark_masked<T: UniqueNumber, S: Slots>(
    slots: &mut S,
    span: &Span<T>,
    numbers: &[T],
    mask: &BitMask<'_>,
)
    requires size { length (S.set_slots slots.old) ≡ span.now.count + 1 }
    requires bits { length mask.now ≡ length numbers.now }
    requires fit { HaveSlots (T.value span.now.least) span.now.count
        (masked mask.now (number_slots T.value numbers.now)) }
    ensures { Marks (T.value span.now.least) span.now.count
        (masked mask.now (number_slots T.value numbers.now)) (S.set_slots slots.old)
        (S.set_slots slots.new) }
{
    let blocks = numbers.len() / WORD_ROWS;
    for k in 0..blocks {
        let at = WORD_ROWS * k;
        mark_word(slots, span, &numbers[at..at + WORD_ROWS], mask.word(k));
    }
    let at = WORD_ROWS * blocks;
    let rest = numbers.len() - at;
    mark_few(slots, span, &numbers[at..at + rest], &mask.window(at, rest));
}

// Sets the slots of `numbers`, in blocks of 512. Stops before a block if the slots of all values of
// the range are set. Adds the number of rows read to `steps`.
#[inline(always)]
fn mark_until_full<T: UniqueNumber, S: Slots>(
    slots: &mut S,
    span: &Span<T>,
    numbers: &[T],
    steps: &mut Steps,
)
    requires size { length (S.set_slots slots.old) ≡ span.now.count + 1 }
    requires fit { HaveSlots (T.value span.now.least) span.now.count
        (number_slots T.value numbers.now) }
    ensures marks { Marks (T.value span.now.least) span.now.count (number_slots T.value numbers.now)
        (S.set_slots slots.old) (S.set_slots slots.new) }
    ensures read { steps.new
        ≡ steps.old + rows_read
        (slot_state (T.value span.now.least) span.now.count (S.set_slots slots.old))
        (number_slots T.value numbers.now) }
{
    let mut at = 0;
    while at < numbers.len() && slots.count_values(span.count) < span.count {
        let n = BLOCK.min(numbers.len() - at);
        mark_all(slots, span, &numbers[at..at + n]);
        steps.add(n);
        at += n;
    }
}

// Sets the slot of each row. Row `i` is `numbers[i]` if bit `i` of `validity` is 1, and null
// otherwise. Adds the number of rows read to `steps`. If a row is null, all rows are read.
// Otherwise blocks of 512 rows are read until the slots of all values are set.
#[inline(always)]
fn mark_under<T: UniqueNumber, S: Slots>(
    slots: &mut S,
    span: &Span<T>,
    numbers: &[T],
    validity: &Bitmap,
    steps: &mut Steps,
)
    requires size { length (S.set_slots slots.old) ≡ span.now.count + 1 }
    requires bits { length validity.now ≡ length numbers.now }
    requires fit { HaveSlots (T.value span.now.least) span.now.count
        (masked validity.now (number_slots T.value numbers.now)) }
    ensures marks { Marks (T.value span.now.least) span.now.count
        (masked validity.now (number_slots T.value numbers.now)) (S.set_slots slots.old)
        (S.set_slots slots.new) }
    ensures read { steps.new
        ≡ steps.old + rows_read
        (slot_state (T.value span.now.least) span.now.count (S.set_slots slots.old))
        (masked validity.now (number_slots T.value numbers.now)) }
{
    if validity.unset_bits() == 0 {
        mark_until_full(slots, span, numbers, steps);
        return;
    }
    mark_masked(slots, span, numbers, &BitMask::from_bitmap(validity));
    steps.add(numbers.len());
}

/// Sets the slots of an array's rows, and adds the number of rows read to `steps`. If a row is
/// null, all rows are read. Otherwise blocks of 512 rows are read until the slots of all values are
/// set.
#[inline(always)]
pub fn mark_rows<T: UniqueNumber, S: Slots>(
    slots: &mut S,
    span: &Span<T>,
    array: &PrimitiveArray<T>,
    steps: &mut Steps,
)
    requires size { length (S.set_slots slots.old) ≡ span.now.count + 1 }
    requires fit { HaveSlots (T.value span.now.least) span.now.count
        (number_rows T.value array.now) }
    ensures marks { Marks (T.value span.now.least) span.now.count (number_rows T.value array.now)
        (S.set_slots slots.old) (S.set_slots slots.new) }
    ensures read { steps.new
        ≡ steps.old + rows_read
        (slot_state (T.value span.now.least) span.now.count (S.set_slots slots.old))
        (number_rows T.value array.now) }
{
    match array.validity() {
        Some(validity) => mark_under(slots, span, array.values(), validity, steps),
        None => mark_until_full(slots, span, array.values(), steps),
    }
}
