//! Folds of numbers by an operator: of all numbers, of those whose bit of a mask is 1, or of the
//! present rows of an array.

ghost use Rattle.std.specs.Option.{option_copied};
ghost use Rattle.std.specs.Prelude.{◌≡◌, ◌<◌, ◌%◌, ℕ, true, false, eqb, not, length, map};
ghost use Rattle.std.specs.Prelude.{get_or, option_map};
ghost use Rattle.polars_arrays_flat.specs.ArrayRows.{number_rows};
ghost use Rattle.polars_arrays_flat.specs.Row.{Int};
ghost use Rattle.polars_arrays_flat.specs.StoredRows.{kept, masked, number_slots, rows_under};
ghost use Rattle.polars_arrays_flat.specs.Validity.{HasBits};
ghost use Rattle.polars_compute_reductions.specs.Folds.{folded, folded_if_any, number_or};
ghost use Rattle.polars_arrays_words.specs.Bits.{first_of, is_bit};

use crate::flags::{Flag, flags_of_8, flags_of_16, flags_of_32};
use crate::operator::Operator;
use polars_arrays_bits::bit_mask::BitMask;
use polars_arrays_bits::bitmap::Bitmap;
use polars_arrays_flat::array::Array;
use polars_arrays_flat::primitive::PrimitiveArray;
use polars_arrays_numbers::comparison::{Comparison, Unequal};
use polars_arrays_numbers::native_type::NativeType;

// Number of rows in a block: those with a bit in one word of the mask.
const BLOCK: usize = 64;

// Number of blocks in a run, and so of words of its mask.
const RUN_WORDS: usize = 32;

// Number of rows in a run.
const RUN: usize = BLOCK * RUN_WORDS;

/// Returns the fold of `numbers`. If there are none, returns the number that folds start with.
#[inline]
pub fn fold_all<T: NativeType, O: Operator<T>>(operator: &O, numbers: &[T]) -> T
    ensures { T.value result
        ≡ folded O.joined (O.neutral operator.now) (number_slots T.value numbers.now) }
{
    let mut total = operator.start();
    for number in numbers {
        total = operator.join(total, *number);
    }
    total
}

/// Returns the folds of all numbers by two operators, in one pass over the numbers.
#[inline]
pub fn fold_all_both<T: NativeType, A: Operator<T>, B: Operator<T>>(
    first: &A,
    second: &B,
    numbers: &[T],
) -> (T, T)
    ensures first { T.value result.0
        ≡ folded A.joined (A.neutral first.now) (number_slots T.value numbers.now) }
    ensures second { T.value result.1
        ≡ folded B.joined (B.neutral second.now) (number_slots T.value numbers.now) }
{
    let mut total = first.start();
    let mut other = second.start();
    for number in numbers {
        total = first.join(total, *number);
        other = second.join(other, *number);
    }
    (total, other)
}

// Returns `number` if `present` is true, and `other` otherwise. Compiles without a branch, so that
// loops can be vectorized.
#[inline(always)]
fn choose<T: NativeType>(present: bool, number: T, other: T) -> T
    ensures { T.value result ≡ number_or (T.value other) (kept present (Int (T.value number))) }
{
    if present { number } else { other }
}

// Returns the fold of the numbers whose flag is set. The loop has no branch in its body and is
// vectorized. It is fastest if flags are as wide as numbers.
#[inline(always)]
fn fold_flagged<T: NativeType, O: Operator<T>, F: Flag>(
    operator: &O,
    numbers: &[T],
    flags: &[F],
) -> T
    requires { length flags.now ≡ length numbers.now }
    ensures { T.value result
        ≡ folded O.joined (O.neutral operator.now)
        (masked (map F.set flags.now) (number_slots T.value numbers.now)) }
{
    let start = operator.start();
    let mut total = start;
    for i in 0..numbers.len() {
        total = operator.join(total, choose(flags[i].is_set(), numbers[i], start));
    }
    total
}

// Returns the fold of those of 64 numbers whose bit of `word` is 1. The bits are expanded to flags:
// of 32 bits for numbers of 32 bits, and of 8 bits for others.
#[inline(always)]
fn fold_mixed<T: NativeType, O: Operator<T>>(operator: &O, numbers: &[T], word: u64) -> T
    requires { length numbers.now ≡ 64 }
    ensures { T.value result
        ≡ folded O.joined (O.neutral operator.now)
        (masked (first_of (is_bit word) 64) (number_slots T.value numbers.now)) }
{
    match T::width() {
        32 => fold_flagged(operator, numbers, &flags_of_32(word)),
        _ => fold_flagged(operator, numbers, &flags_of_8(word)),
    }
}

// Returns the fold of those of 64 numbers whose bit of `word` is 1. If all bits are 1 or all are 0,
// the bits aren't expanded to flags.
#[inline(always)]
fn fold_word<T: NativeType, O: Operator<T>>(operator: &O, numbers: &[T], word: u64) -> T
    requires { length numbers.now ≡ 64 }
    ensures { T.value result
        ≡ folded O.joined (O.neutral operator.now)
        (masked (first_of (is_bit word) 64) (number_slots T.value numbers.now)) }
{
    match word {
        u64::MAX => fold_all(operator, numbers),
        0 => operator.start(),
        _ => fold_mixed(operator, numbers, word),
    }
}

// Returns the AND of all words of a run's mask. The result is `u64::MAX` exactly if all rows of the
// run are present. The loop has no branch in its body and is vectorized.
#[inline(always)]
fn common_bits(mask: &BitMask<'_>) -> u64
    requires { length mask.now ≡ 2048 }
    ensures { (p : ℕ) → p < 2048 → is_bit result (p % 64) ≡ true → get_or mask.now p false ≡ true }
{
    let mut common = u64::MAX;
    for k in 0..RUN_WORDS {
        common &= mask.word(k);
    }
    common
}

// Returns the fold of the numbers whose bit of the mask is 1. Reads the mask bit by bit.
#[inline(always)]
fn fold_by_row<T: NativeType, O: Operator<T>>(operator: &O, numbers: &[T], mask: &BitMask<'_>) -> T
    requires { length mask.now ≡ length numbers.now }
    ensures { T.value result
        ≡ folded O.joined (O.neutral operator.now)
        (masked mask.now (number_slots T.value numbers.now)) }
{
    let start = operator.start();
    let mut total = start;
    for i in 0..numbers.len() {
        total = operator.join(total, choose(mask.get(i), numbers[i], start));
    }
    total
}

// Returns the fold of the numbers whose bit of the mask is 1. Reads the mask by words of 64 bits,
// and the bits after the last whole word one by one.
fn fold_words<T: NativeType, O: Operator<T>>(operator: &O, numbers: &[T], mask: &BitMask<'_>) -> T
    requires { length mask.now ≡ length numbers.now }
    ensures { T.value result
        ≡ folded O.joined (O.neutral operator.now)
        (masked mask.now (number_slots T.value numbers.now)) }
{
    let blocks = numbers.len() / BLOCK;
    let mut total = operator.start();
    for k in 0..blocks {
        let at = BLOCK * k;
        let block = fold_word(operator, &numbers[at..at + BLOCK], mask.word(k));
        total = operator.join(total, block);
    }
    let at = BLOCK * blocks;
    let rest = numbers.len() - at;
    let last = fold_by_row(operator, &numbers[at..at + rest], &mask.window(at, rest));
    operator.join(total, last)
}

// Joins each number whose flag is set to the total at the same index of `lanes`. The loop has no
// branch in its body and is vectorized.
#[inline(always)]
fn join_flagged<T: NativeType, O: Operator<T>, F: Flag>(
    operator: &O,
    lanes: &mut [T],
    numbers: &[T],
    flags: &[F],
)
    requires lanes { length lanes.old ≡ length numbers.now }
    requires flags { length flags.now ≡ length numbers.now }
    ensures kept { length lanes.new ≡ length lanes.old }
    ensures joined { folded O.joined (O.neutral operator.now) (number_slots T.value lanes.new)
        ≡ O.joined (folded O.joined (O.neutral operator.now) (number_slots T.value lanes.old))
        (folded O.joined (O.neutral operator.now)
        (masked (map F.set flags.now) (number_slots T.value numbers.now))) }
{
    let start = operator.start();
    for i in 0..numbers.len() {
        lanes[i] = operator.join(lanes[i], choose(flags[i].is_set(), numbers[i], start));
    }
}

// Joins each number whose bit of `word` is 1 to the total at the same index of `lanes`. Called for
// numbers of 8 or 16 bits.
#[inline(always)]
fn join_mixed<T: NativeType, O: Operator<T>>(
    operator: &O,
    lanes: &mut [T],
    numbers: &[T],
    word: u64,
)
    requires lanes { length lanes.old ≡ 64 }
    requires numbers { length numbers.now ≡ 64 }
    ensures kept { length lanes.new ≡ 64 }
    ensures joined { folded O.joined (O.neutral operator.now) (number_slots T.value lanes.new)
        ≡ O.joined (folded O.joined (O.neutral operator.now) (number_slots T.value lanes.old))
        (folded O.joined (O.neutral operator.now)
        (masked (first_of (is_bit word) 64) (number_slots T.value numbers.now))) }
{
    match T::width() {
        16 => join_flagged(operator, lanes, numbers, &flags_of_16(word)),
        _ => join_flagged(operator, lanes, numbers, &flags_of_8(word)),
    }
}

// Returns the fold of the numbers of a run whose bit of the mask is 1. Collects 64 totals: number
// `i` is joined to total `i % 64`. The totals are joined once, after the last number, which is
// faster than once for each word. Called for numbers of 8 or 16 bits.
#[inline(always)]
fn fold_in_lanes<T: NativeType, O: Operator<T>>(
    operator: &O,
    numbers: &[T],
    mask: &BitMask<'_>,
) -> T
    requires run { length numbers.now ≡ 2048 }
    requires bits { length mask.now ≡ 2048 }
    ensures { T.value result
        ≡ folded O.joined (O.neutral operator.now)
        (masked mask.now (number_slots T.value numbers.now)) }
{
    let mut lanes = [operator.start(); BLOCK];
    for k in 0..RUN_WORDS {
        let at = BLOCK * k;
        join_mixed(operator, &mut lanes, &numbers[at..at + BLOCK], mask.word(k));
    }
    fold_all(operator, &lanes)
}

// Returns the fold of the numbers of a run whose bit of the mask is 1. Called if the first word of
// the mask has both ones and zeros; other words are then likely to have both, too.
#[inline(always)]
fn fold_mixed_run<T: NativeType, O: Operator<T>>(
    operator: &O,
    numbers: &[T],
    mask: &BitMask<'_>,
) -> T
    requires run { length numbers.now ≡ 2048 }
    requires bits { length mask.now ≡ 2048 }
    ensures { T.value result
        ≡ folded O.joined (O.neutral operator.now)
        (masked mask.now (number_slots T.value numbers.now)) }
{
    if T::width() <= 16 {
        fold_in_lanes(operator, numbers, mask)
    } else {
        fold_words(operator, numbers, mask)
    }
}

// Returns the fold of the numbers of a run whose bit of the mask is 1. Called if the first word of
// the mask is all ones. If all other words are, too, one loop folds all numbers of the run.
#[inline(always)]
fn fold_even_run<T: NativeType, O: Operator<T>>(
    operator: &O,
    numbers: &[T],
    mask: &BitMask<'_>,
) -> T
    requires run { length numbers.now ≡ 2048 }
    requires bits { length mask.now ≡ 2048 }
    ensures { T.value result
        ≡ folded O.joined (O.neutral operator.now)
        (masked mask.now (number_slots T.value numbers.now)) }
{
    if common_bits(mask) == u64::MAX {
        fold_all(operator, numbers)
    } else {
        fold_words(operator, numbers, mask)
    }
}

// Returns the fold of the numbers of a run whose bit of the mask is 1. The first word of the mask
// chooses the function that is likely to be fastest; the result is the same.
#[inline(always)]
fn fold_run<T: NativeType, O: Operator<T>>(operator: &O, numbers: &[T], mask: &BitMask<'_>) -> T
    requires run { length numbers.now ≡ 2048 }
    requires bits { length mask.now ≡ 2048 }
    ensures { T.value result
        ≡ folded O.joined (O.neutral operator.now)
        (masked mask.now (number_slots T.value numbers.now)) }
{
    match mask.word(0) {
        u64::MAX => fold_even_run(operator, numbers, mask),
        0 => fold_words(operator, numbers, mask),
        _ => fold_mixed_run(operator, numbers, mask),
    }
}

/// Returns the fold of the numbers whose bit of the mask is 1. If there are none, returns the
/// number that folds start with. Works on runs of 2048 rows.
pub fn fold_present<T: NativeType, O: Operator<T>>(
    operator: &O,
    numbers: &[T],
    mask: &BitMask<'_>,
) -> T
    requires { length mask.now ≡ length numbers.now }
    ensures { T.value result
        ≡ folded O.joined (O.neutral operator.now)
        (masked mask.now (number_slots T.value numbers.now)) }
{
    let runs = numbers.len() / RUN;
    let mut total = operator.start();
    for k in 0..runs {
        let at = RUN * k;
        let run = fold_run(operator, &numbers[at..at + RUN], &mask.window(at, RUN));
        total = operator.join(total, run);
    }
    let at = RUN * runs;
    let rest = numbers.len() - at;
    let last = fold_words(operator, &numbers[at..at + rest], &mask.window(at, rest));
    operator.join(total, last)
}

/// Returns the fold of the numbers whose bit of the validity is 1, or of all numbers if there is no
/// validity.
pub fn fold_under<T: NativeType, O: Operator<T>>(
    operator: &O,
    numbers: &[T],
    validity: Option<&Bitmap>,
) -> T
    requires { HasBits (length numbers.now) (option_copied validity) }
    ensures { T.value result
        ≡ folded O.joined (O.neutral operator.now)
        (rows_under (option_copied validity.entry) (number_slots T.value numbers.now)) }
{
    match validity {
        Some(bits) => fold_present(operator, numbers, &BitMask::from_bitmap(bits)),
        None => fold_all(operator, numbers),
    }
}

/// Returns the fold of the present rows of an array. If no row is present, returns the number that
/// folds start with.
pub fn fold_rows<T: NativeType, O: Operator<T>>(operator: &O, array: &PrimitiveArray<T>) -> T
    ensures { T.value result
        ≡ folded O.joined (O.neutral operator.now) (number_rows T.value array.now) }
{
    fold_under(operator, array.values(), array.validity())
}

/// Returns the fold of the present rows of an array, or `None` if no row is present.
pub fn reduce_rows<T: NativeType, O: Operator<T>>(
    operator: &O,
    array: &PrimitiveArray<T>,
) -> Option<T>
    ensures { option_map T.value result
        ≡ folded_if_any O.joined (O.neutral operator.now) (number_rows T.value array.now) }
{
    // Has no effect at run time. The proof learns from it that the validity has a bit for each row.
    let _validity = array.validity();
    let total = fold_rows(operator, array);
    // Nulls are counted only if the total is the number that folds start with, as it is without
    // present rows.
    if Unequal.compare(total, operator.start()) {
        return Some(total);
    }
    if array.null_count() == array.len() {
        return None;
    }
    Some(total)
}
