//! Equality of the rows of two windows: `n` rows from row `a` on of the left array, and `n` rows
//! from row `b` on of the right one. Both arrays have the same type.
//!
//! A comparison of nested arrays compares windows of the arrays inside them, and copies no array.
//! Structs need one comparison for each column. Lists of fixed size need one comparison of all
//! their items. Lists between offsets need one comparison for each run of adjacent lists that match
//! (`runs.rt`). Dictionaries need a comparison of two entries for each pair of rows whose keys are
//! not null.
//!
//! Leaves are compared by the `LeafKernel` that the caller passes as `steps`. The counter `Steps`
//! is a `LeafKernel`: it compares leaves by equality (`eq_leaves`), and counts them.

ghost use Rattle.std.specs.Prelude.{◌≡◌, ◌+◌, ◌-◌, ◌<◌, ◌≤◌, IsTrue, length, IfOk, MatchResult};
ghost use Rattle.polars_arrays_bits.specs.Errors.{IsMemory};
ghost use Rattle.polars_arrays_nested.specs.Parts.{list_values};
ghost use Rattle.polars_arrays_nested.specs.declared.any_array.AnyArray.{AnyArray, List};
ghost use Rattle.polars_arrays_nested.specs.declared.any_array.AnyArray.{FixedSizeList, Struct};
ghost use Rattle.polars_arrays_nested.specs.declared.any_array.AnyArray.{Dictionary};
ghost use Rattle.polars_compare_nested.specs.Bits.{AddsRawBits, JoinsBits, RawBits, SameBits};
ghost use Rattle.polars_compare_nested.specs.Bits.{SamePresent};
ghost use Rattle.polars_compare_nested.specs.FewLeaves.{AreLeavesWithoutNulls};
ghost use Rattle.polars_compare_nested.specs.Known.{AreKnown};
ghost use Rattle.polars_compare_nested.specs.Tally.{tally};
ghost use Rattle.polars_compare_nested.specs.Windows.{AreWindows, Compares};

use crate::downcast::{as_dictionary, as_fixed_size_list, as_list, as_struct};
use crate::entries::row_entries;
use crate::few_leaves::{are_few_leaves, are_leaves, has_leaves, same_few};
use crate::items::item_window;
use crate::leaf_entries::eq_leaf_entries;
use crate::leaf_kernel::LeafKernel;
use crate::masks::join_windows;
use crate::runs::{Matches, NextRows, next_rows, push_rows, push_word};
use crate::structs::column_pair;
use polars_arrays_bits::bit_mask::BitMask;
use polars_arrays_bits::bitmap::Bitmap;
use polars_arrays_bits::builder::BitmapBuilder;
use polars_arrays_bits::error::ComputeError;
use polars_arrays_bits::mutable_bitmap::MutableBitmap;
use polars_arrays_nested::any_array::AnyArray;
use polars_arrays_nested::dictionary::DictionaryArray;
use polars_arrays_nested::fixed_size_list::FixedSizeListArray;
use polars_arrays_nested::list::ListArray;
use polars_arrays_nested::struct_array::StructArray;
use std::alloc::Global;

/// Returns a bit for each `i` below `n`: 1 if row `a + i` of the left array and row `b + i` of the
/// right one are the same. Null is the same as null alone. Leaves are compared by `steps`, whose
/// count increases by one for each comparison. The error is `Memory`; the count may have increased
/// by then.
#[cycle(equal)]
pub fn equal_windows<K: LeafKernel>(
    alloc: Global,
    left: &AnyArray,
    a: usize,
    right: &AnyArray,
    b: usize,
    n: usize,
    steps: &mut K,
) -> Result<Bitmap, ComputeError>
    requires { AreWindows left.now a right.now b n }
    ensures { Compares (SameBits K.agree) left.now a right.now b n (K.count steps.old)
        (K.count steps.new) result }
{
    // Each arm returns a bit for each pair of rows: 1 if they are the same. If a row is masked on
    // either side, the bit is arbitrary.
    let raw = match left {
        AnyArray::Null(_) => Bitmap::new_with_value(alloc, true, n),
        AnyArray::List(left) => eq_lists(alloc, left, a, as_list(right), b, n, steps),
        AnyArray::FixedSizeList(left) => {
            eq_fixed_size_lists(alloc, left, a, as_fixed_size_list(right), b, n, steps)
        }
        AnyArray::Struct(left) => eq_structs(alloc, left, a, as_struct(right), b, n, steps),
        AnyArray::Dictionary(left) => {
            eq_dictionaries(alloc, left, a, as_dictionary(right), b, n, steps)
        }
        _ => steps.leaf_eq(alloc, left, a, right, b, n),
    };
    join_windows(alloc, raw?, left, a, right, b)
}

/// Returns a bit for each `i` below `n`: 1 if list `a + i` of the left array and list `b + i` of
/// the right one have the same number of items, and the same items in order. If a list is masked on
/// either side, the bit is arbitrary. Leaves are compared and counted by `steps`. The error is
/// `Memory`; the count of `steps` may have increased by then.
#[cycle(equal)]
pub fn eq_lists<K: LeafKernel>(
    alloc: Global,
    left: &ListArray,
    a: usize,
    right: &ListArray,
    b: usize,
    n: usize,
    steps: &mut K,
) -> Result<Bitmap, ComputeError>
    requires { AreWindows (List left.now) a (List right.now) b n }
    ensures { Compares (RawBits K.agree) (List left.now) a (List right.now) b n (K.count steps.old)
        (K.count steps.new) result }
{
    // For the proof: both lengths fit in 64 bits, so the indices don't overflow.
    let (_rows, _others) = (left.offsets().len(), right.offsets().len());
    let leaves = are_leaves(left.values(), right.values());
    let mut bits = BitmapBuilder::with_capacity(alloc, n)?;
    let mut matches = Matches::none();
    let mut done = 0;
    while done < n {
        done += push_next(
            alloc,
            &mut bits,
            left,
            a + done,
            right,
            b + done,
            n - done,
            leaves,
            &mut matches,
            steps,
        )?;
    }
    Ok(bits.freeze())
}

// Appends to `bits` the bits of `eq_lists` for the next pairs of lists, from lists `a` and `b` on,
// and returns the number of pairs: at least one and at most `n`. If `leaves` is true, all items are
// leaves without nulls. `matches` has the known matches of the next pairs, and afterwards those of
// the pairs that follow. The error is `Memory`; the count of `steps` may have increased by then.
#[cycle(equal)]
fn push_next<K: LeafKernel>(
    alloc: Global,
    bits: &mut BitmapBuilder,
    left: &ListArray,
    a: usize,
    right: &ListArray,
    b: usize,
    n: usize,
    leaves: bool,
    matches: &mut Matches,
    steps: &mut K,
) -> Result<usize, ComputeError>
    requires windows { AreWindows (List left.now) a (List right.now) b n }
    requires some { 1 ≤ n }
    requires room { n ≤ bits.old.room }
    requires leaves { IsTrue leaves
        → AreLeavesWithoutNulls (list_values left.now) (list_values right.now) }
    requires known { AreKnown left.now a right.now b n matches.old }
    ensures some { MatchResult result (λ rows. 1 ≤ rows) IsMemory }
    ensures within { IfOk result (λ rows. rows ≤ n) }
    ensures told { IfOk result
        (λ rows. AddsRawBits K.agree (List left.now) a (List right.now) b rows bits.old.bits
        bits.new.bits) }
    ensures room { IfOk result (λ rows. bits.new.room ≡ bits.old.room - rows) }
    ensures known { IfOk result
        (λ rows. AreKnown left.now (a + rows) right.now (b + rows) (n - rows) matches.new) }
    ensures counted { IfOk result
        (λ rows. K.count steps.new
        ≡ K.count steps.old + tally (List left.now) (List right.now) a b rows) }
    ensures kept { K.count steps.old ≤ K.count steps.new }
{
    match next_rows(left, a, right, b, n, matches) {
        NextRows::Apart => {
            bits.push_reserved(false);
            Ok(1)
        }
        NextRows::Run(run) => {
            let (left_items, right_items) = (left.values(), right.values());
            let (from, at) = (run.left_start, run.right_start);
            if are_few_leaves(left_items, right_items, leaves, run.count) {
                let word = same_few(alloc, left_items, from, right_items, at, run.count, steps)?;
                push_word(bits, word, left, a, run.len);
                return Ok(run.len);
            }
            let items = equal_windows(alloc, left_items, from, right_items, at, run.count, steps)?;
            push_rows(bits, &items, left, a, run.len);
            Ok(run.len)
        }
    }
}

/// Returns a bit for each `i` below `n`: 1 if fixed-size list `a + i` of the left array and
/// fixed-size list `b + i` of the right one have the same items in order. If a list is masked on
/// either side, the bit is arbitrary. Leaves are compared and counted by `steps`. The error is
/// `Memory`; the count of `steps` may have increased by then.
#[cycle(equal)]
pub fn eq_fixed_size_lists<K: LeafKernel>(
    alloc: Global,
    left: &FixedSizeListArray,
    a: usize,
    right: &FixedSizeListArray,
    b: usize,
    n: usize,
    steps: &mut K,
) -> Result<Bitmap, ComputeError>
    requires { AreWindows (FixedSizeList left.now) a (FixedSizeList right.now) b n }
    ensures { Compares (RawBits K.agree) (FixedSizeList left.now) a (FixedSizeList right.now) b n
        (K.count steps.old) (K.count steps.new) result }
{
    let (left_start, count) = item_window(left, a, n);
    let (right_start, _) = item_window(right, b, n);
    let (left_items, right_items) = (left.values(), right.values());
    let items = equal_windows(
        alloc,
        left_items,
        left_start,
        right_items,
        right_start,
        count,
        steps,
    )?;
    BitMask::from_bitmap(&items).all_in_blocks(alloc, left.width(), n)
}

/// Returns a bit for each `i` below `n`: 1 if struct `a + i` of the left array and struct `b + i`
/// of the right one have the same row in each column. If a struct is masked on either side, the bit
/// is arbitrary. Leaves are compared and counted by `steps`. The bitmap of the first column is
/// reused for the result. The error is `Memory`; the count of `steps` may have increased by then.
#[cycle(equal)]
pub fn eq_structs<K: LeafKernel>(
    alloc: Global,
    left: &StructArray,
    a: usize,
    right: &StructArray,
    b: usize,
    n: usize,
    steps: &mut K,
) -> Result<Bitmap, ComputeError>
    requires { AreWindows (Struct left.now) a (Struct right.now) b n }
    ensures { Compares (RawBits K.agree) (Struct left.now) a (Struct right.now) b n
        (K.count steps.old) (K.count steps.new) result }
{
    let count = left.values().len();
    if count == 0 {
        return Bitmap::new_with_value(alloc, true, n);
    }
    let (column, other) = column_pair(left, right, 0);
    let first = equal_windows(alloc, column, a, other, b, n, steps)?;
    let mut bits = first.into_mut(alloc)?;
    for i in 1..count {
        let (column, other) = column_pair(left, right, i);
        join_column(alloc, &mut bits, column, a, other, b, n, steps)?;
    }
    Ok(bits.freeze())
}

// Clears each bit `i` of `bits` for which row `a + i` of the left column and row `b + i` of the
// right one differ. `n` is the number of bits. Leaves without nulls are compared by `leaf_and_eq`,
// all other rows into a new bitmap. The error is `Memory`; the count of `steps` may have increased
// by then.
#[cycle(equal)]
fn join_column<K: LeafKernel>(
    alloc: Global,
    bits: &mut MutableBitmap,
    left: &AnyArray,
    a: usize,
    right: &AnyArray,
    b: usize,
    n: usize,
    steps: &mut K,
) -> Result<(), ComputeError>
    requires windows { AreWindows left.now a right.now b n }
    requires as_many { length bits.old ≡ n }
    ensures told { MatchResult result
        (λ _. JoinsBits (SameBits K.agree left.now a right.now b n) bits.old bits.new) IsMemory }
    ensures counted { IfOk result
        (λ _. K.count steps.new ≡ K.count steps.old + tally left.now right.now a b n) }
    ensures kept { K.count steps.old ≤ K.count steps.new }
{
    if are_leaves(left, right) {
        return steps.leaf_and_eq(alloc, bits, left, a, right, b);
    }
    let same = equal_windows(alloc, left, a, right, b, n, steps)?;
    bits.and_assign(&same);
    Ok(())
}

/// Returns a bit for each `i` below `n`: 1 if key `a + i` of the left array and key `b + i` of the
/// right one refer to entries that are the same. If a row is masked on either side, the bit is
/// arbitrary. Leaves are compared and counted by `steps`. If the entries are leaves, keys are read
/// in blocks of 64. The error is `Memory`; the count of `steps` may have increased by then.
#[cycle(equal)]
pub fn eq_dictionaries<K: LeafKernel>(
    alloc: Global,
    left: &DictionaryArray,
    a: usize,
    right: &DictionaryArray,
    b: usize,
    n: usize,
    steps: &mut K,
) -> Result<Bitmap, ComputeError>
    requires { AreWindows (Dictionary left.now) a (Dictionary right.now) b n }
    ensures { Compares (RawBits K.agree) (Dictionary left.now) a (Dictionary right.now) b n
        (K.count steps.old) (K.count steps.new) result }
{
    if has_leaves(left.values()) {
        return eq_leaf_entries(alloc, left, a, right, b, n, steps);
    }
    // For the proof: both lengths fit in 64 bits, so the indices don't overflow.
    let (_rows, _others) = (left.keys().len(), right.keys().len());
    let mut bits = BitmapBuilder::with_capacity(alloc, n)?;
    for i in 0..n {
        let same = equal_entries(alloc, left, a + i, right, b + i, steps)?;
        bits.push_reserved(same);
    }
    Ok(bits.freeze())
}

// Returns whether key `a` of the left array and key `b` of the right one refer to entries that are
// the same. If a row is masked on either side, the result is arbitrary. The error is `Memory`; the
// count of `steps` may have increased by then.
#[cycle(equal)]
#[inline(always)]
fn equal_entries<K: LeafKernel>(
    alloc: Global,
    left: &DictionaryArray,
    a: usize,
    right: &DictionaryArray,
    b: usize,
    steps: &mut K,
) -> Result<bool, ComputeError>
    requires { AreWindows (Dictionary left.now) a (Dictionary right.now) b 1 }
    ensures told { MatchResult result
        (λ bit. SamePresent K.agree (Dictionary left.now) a (Dictionary right.now) b bit) IsMemory }
    ensures counted { IfOk result
        (λ _. K.count steps.new
        ≡ K.count steps.old + tally (Dictionary left.now) (Dictionary right.now) a b 1) }
    ensures kept { K.count steps.old ≤ K.count steps.new }
{
    match row_entries(left, a, right, b) {
        Some(pair) => {
            let (entries, others) = (left.values(), right.values());
            let same = raw_row(alloc, entries, pair.left, others, pair.right, steps)?;
            Ok(same)
        }
        None => Ok(false),
    }
}

// Returns whether row `a` of the left array and row `b` of the right one are the same. If a row is
// masked on either side, the result is arbitrary. Leaves are compared by `leaf_row_eq`, which may
// need no bitmap. The error is `Memory`; the count of `steps` may have increased by then.
#[cycle(equal)]
#[inline(always)]
fn raw_row<K: LeafKernel>(
    alloc: Global,
    left: &AnyArray,
    a: usize,
    right: &AnyArray,
    b: usize,
    steps: &mut K,
) -> Result<bool, ComputeError>
    requires { AreWindows left.now a right.now b 1 }
    ensures told { MatchResult result
        (λ bit. SamePresent K.agree left.now a right.now b bit) IsMemory }
    ensures counted { IfOk result
        (λ _. K.count steps.new ≡ K.count steps.old + tally left.now right.now a b 1) }
    ensures kept { K.count steps.old ≤ K.count steps.new }
{
    match left {
        AnyArray::Null(_)
        | AnyArray::List(_)
        | AnyArray::FixedSizeList(_)
        | AnyArray::Struct(_)
        | AnyArray::Dictionary(_) => nested_row(alloc, left, a, right, b, steps),
        _ => steps.leaf_row_eq(alloc, left, a, right, b),
    }
}

// Returns whether row `a` of the left array and row `b` of the right one are the same, for nested
// arrays and for null arrays. If a row is masked on either side, the result is arbitrary. A row of
// a dictionary array needs no bitmap of its own. The error is `Memory`; the count of `steps` may
// have increased by then.
#[cycle(equal)]
fn nested_row<K: LeafKernel>(
    alloc: Global,
    left: &AnyArray,
    a: usize,
    right: &AnyArray,
    b: usize,
    steps: &mut K,
) -> Result<bool, ComputeError>
    requires { AreWindows left.now a right.now b 1 }
    ensures told { MatchResult result
        (λ bit. SamePresent K.agree left.now a right.now b bit) IsMemory }
    ensures counted { IfOk result
        (λ _. K.count steps.new ≡ K.count steps.old + tally left.now right.now a b 1) }
    ensures kept { K.count steps.old ≤ K.count steps.new }
{
    match left {
        AnyArray::Dictionary(left) => equal_entries(alloc, left, a, as_dictionary(right), b, steps),
        _ => {
            let bits = equal_windows(alloc, left, a, right, b, 1, steps)?;
            Ok(bits.get_bit(0))
        }
    }
}
