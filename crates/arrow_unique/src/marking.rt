//! Rows that are marked in a state: the bits of their numbers are set.

ghost use Rattle.std.specs.Option.{option_copied};
ghost use Rattle.std.specs.Prelude.{◌≡◌, ◌<◌, ◌≤◌, ◌+◌, ◌*◌, [], ◌∷◌, ℕ, true, false, length};
ghost use Rattle.arrow_unique.specs.Memory.{AreMarked};
ghost use Rattle.polars_arrays_flat.specs.Row.{Int};
ghost use Rattle.polars_arrays_flat.specs.StoredRows.{masked, number_slots, rows_under};
ghost use Rattle.polars_arrays_flat.specs.Validity.{HasBits};
ghost use Rattle.polars_arrays_words.specs.Bits.{IsWritten, first_of, is_bit};
ghost use Rattle.polars_compute_slots.specs.Slots.{HasSlot, HaveSlots};

use polars_arrays_bits::bit_mask::BitMask;
use polars_arrays_bits::bitmap::Bitmap;
use polars_arrays_words::words::WORD_BITS;
use polars_compute_slots::number::UniqueNumber;
use polars_compute_slots::span::Span;

// Sets bit `p` of `words` to 1.
#[inline(always)]
fn set_bit(words: &mut [u64], p: usize)
    requires { p < 64 * length words.old }
    ensures { IsWritten words.old words.new p (p + 1) true }
{
    let word = words[p / WORD_BITS];
    words[p / WORD_BITS] = word | 1u64 << (p % WORD_BITS);
}

// Sets the bit of `number`, which lies in the range `span`, in the state `words`.
#[inline(always)]
fn mark_number<T: UniqueNumber>(words: &mut [u64], span: &Span<T>, number: T)
    requires fit { HasSlot (T.value span.now.least) span.now.count (Int (T.value number)) }
    requires room { span.now.count ≤ 64 * length words.old }
    ensures { AreMarked (T.value span.now.least) span.now.count (Int (T.value number) ∷ [])
        words.old words.new }
{
    set_bit(words, span.slot(number));
}

// Sets the bits of `numbers`, which all lie in the range `span`, in the state `words`.
#[inline(always)]
fn mark_all<T: UniqueNumber>(words: &mut [u64], span: &Span<T>, numbers: &[T])
    requires fit { HaveSlots (T.value span.now.least) span.now.count
        (number_slots T.value numbers.now) }
    requires room { span.now.count ≤ 64 * length words.old }
    ensures { AreMarked (T.value span.now.least) span.now.count (number_slots T.value numbers.now)
        words.old words.new }
{
    for i in 0..numbers.len() {
        mark_number(words, span, numbers[i]);
    }
}

// Sets the bits of the numbers of present rows in the state `words`. `numbers` are the numbers of
// at most 64 rows; those of present rows lie in the range `span`. Row `i` is present if bit `i` of
// `present` is 1. Bits of `present` without a row are 0. The loop visits only present rows.
#[inline(always)]
fn mark_some<T: UniqueNumber>(words: &mut [u64], span: &Span<T>, numbers: &[T], present: u64)
    requires few { length numbers.now ≤ 64 }
    requires zeros { (i : ℕ) → length numbers.now ≤ i → i < 64 → is_bit present i ≡ false }
    requires fit { HaveSlots (T.value span.now.least) span.now.count
        (masked (first_of (is_bit present) (length numbers.now))
        (number_slots T.value numbers.now)) }
    requires room { span.now.count ≤ 64 * length words.old }
    ensures { AreMarked (T.value span.now.least) span.now.count
        (masked (first_of (is_bit present) (length numbers.now)) (number_slots T.value numbers.now))
        words.old words.new }
{
    let mut rest = present;
    while rest != 0 {
        let i = rest.trailing_zeros() as usize;
        mark_number(words, span, numbers[i]);
        rest &= rest - 1;
    }
}

// Sets the bits of the numbers of present rows in the state `words`. `numbers` are the numbers of
// at most 64 rows; those of present rows lie in the range `span`. Row `i` is present if bit `i` of
// `present` is 1. Bits of `present` without a row are 0. This function is faster than `mark_some`
// if all 64 rows are present.
#[inline(always)]
fn mark_word<T: UniqueNumber>(words: &mut [u64], span: &Span<T>, numbers: &[T], present: u64)
    requires few { length numbers.now ≤ 64 }
    requires zeros { (i : ℕ) → length numbers.now ≤ i → i < 64 → is_bit present i ≡ false }
    requires fit { HaveSlots (T.value span.now.least) span.now.count
        (masked (first_of (is_bit present) (length numbers.now))
        (number_slots T.value numbers.now)) }
    requires room { span.now.count ≤ 64 * length words.old }
    ensures { AreMarked (T.value span.now.least) span.now.count
        (masked (first_of (is_bit present) (length numbers.now)) (number_slots T.value numbers.now))
        words.old words.new }
{
    if present == u64::MAX {
        mark_all(words, span, numbers);
    } else {
        mark_some(words, span, numbers, present);
    }
}

// Sets the bits of the numbers of all rows that are present by `mask`, in the state `words`. The
// numbers of present rows lie in the range `span`. Works on blocks of 64 rows.
fn mark_masked<T: UniqueNumber>(
    words: &mut [u64],
    span: &Span<T>,
    numbers: &[T],
    mask: &BitMask<'_>,
)
    requires bits { length mask.now ≡ length numbers.now }
    requires fit { HaveSlots (T.value span.now.least) span.now.count
        (masked mask.now (number_slots T.value numbers.now)) }
    requires room { span.now.count ≤ 64 * length words.old }
    ensures { AreMarked (T.value span.now.least) span.now.count
        (masked mask.now (number_slots T.value numbers.now)) words.old words.new }
{
    let blocks = numbers.len() / WORD_BITS;
    for k in 0..blocks {
        let at = WORD_BITS * k;
        mark_word(words, span, &numbers[at..at + WORD_BITS], mask.word(k));
    }
    let at = WORD_BITS * blocks;
    let rest = numbers.len() - at;
    mark_word(
        words,
        span,
        &numbers[at..at + rest],
        mask.few_bits(at, rest),
    );
}

/// Sets the bits of the numbers of all present rows, which lie in the range `span`, in the state
/// `words`. Numbers stored under nulls are ignored. All rows are present if `validity` is `None`.
pub fn mark_rows<T: UniqueNumber>(
    words: &mut [u64],
    span: &Span<T>,
    numbers: &[T],
    validity: Option<&Bitmap>,
)
    requires bits { HasBits (length numbers.now) (option_copied validity) }
    requires fit { HaveSlots (T.value span.now.least) span.now.count
        (rows_under (option_copied validity) (number_slots T.value numbers.now)) }
    requires room { span.now.count ≤ 64 * length words.old }
    ensures { AreMarked (T.value span.now.least) span.now.count
        (rows_under (option_copied validity.entry) (number_slots T.value numbers.now))
        words.old words.new }
{
    match validity {
        Some(bits) => mark_masked(words, span, numbers, &BitMask::from_bitmap(bits)),
        None => mark_all(words, span, numbers),
    }
}
