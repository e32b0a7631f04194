//! Raw equality of windows of two dictionary arrays whose entries are leaves.

ghost use Rattle.std.specs.Prelude.{◌≡◌, ◌+◌, ◌-◌, ◌<◌, ◌≤◌, IsTrue, IfOk, MatchResult};
ghost use Rattle.polars_arrays_bits.specs.Errors.{IsMemory};
ghost use Rattle.polars_arrays_nested.specs.Parts.{dictionary_values};
ghost use Rattle.polars_arrays_nested.specs.Types.{type_of};
ghost use Rattle.polars_arrays_nested.specs.declared.any_array.AnyArray.{Dictionary};
ghost use Rattle.polars_compare_nested.specs.Bits.{AddsRawBits, RawBits, SamePresent};
ghost use Rattle.polars_compare_nested.specs.Leaf.{is_leaf};
ghost use Rattle.polars_compare_nested.specs.Tally.{tally};
ghost use Rattle.polars_compare_nested.specs.Windows.{AreWindows, Compares};

use crate::entries::{KeyBlock, block_entries};
use crate::leaf_kernel::LeafKernel;
use polars_arrays_bits::bitmap::Bitmap;
use polars_arrays_bits::builder::BitmapBuilder;
use polars_arrays_bits::error::ComputeError;
use polars_arrays_nested::any_array::AnyArray;
use polars_arrays_nested::dictionary::DictionaryArray;
use polars_arrays_words::words::WORD_BITS;
use std::alloc::Global;

/// Returns a bit for each `i` below `n`: 1 if key `a + i` of the left array and key `b + i` of the
/// right one refer to leaves that are the same by `steps`. If a row is masked on either side, the
/// bit is arbitrary. The count of `steps` increases by one for each pair of non-null keys. The
/// error is `Memory`; the count may have increased by then. Not inlined, so that the functions that
/// recurse into nested arrays reserve no stack for the keys of a block.
#[inline(never)]
pub(crate) fn eq_leaf_entries<K: LeafKernel>(
    alloc: Global,
    left: &DictionaryArray,
    a: usize,
    right: &DictionaryArray,
    b: usize,
    n: usize,
    steps: &mut K,
) -> Result<Bitmap, ComputeError>
    requires leaves { IsTrue (is_leaf (type_of (dictionary_values left.now))) }
    requires windows { AreWindows (Dictionary left.now) a (Dictionary right.now) b n }
    ensures { Compares (RawBits K.agree) (Dictionary left.now) a (Dictionary right.now) b n
        (K.count steps.old) (K.count steps.new) result }
{
    // For the proof: both lengths fit in 64 bits, so the indices don't overflow.
    let (_rows, _others) = (left.keys().len(), right.keys().len());
    let mut bits = BitmapBuilder::with_capacity(alloc, n)?;
    let mut done = 0;
    while done < n {
        let count = (n - done).min(WORD_BITS);
        push_block(
            alloc,
            &mut bits,
            left,
            a + done,
            right,
            b + done,
            count,
            steps,
        )?;
        done += count;
    }
    Ok(bits.freeze())
}

// Appends a bit for each `i` below `n`, which is at most 64: 1 if key `a + i` of the left array and
// key `b + i` of the right one refer to leaves that are the same by `steps`. If a row is masked on
// either side, the bit is arbitrary. All keys are read before the first leaf is compared, so that
// reads of keys don't wait for comparisons. The error is `Memory`; the count of `steps` may have
// increased by then.
fn push_block<K: LeafKernel>(
    alloc: Global,
    bits: &mut BitmapBuilder,
    left: &DictionaryArray,
    a: usize,
    right: &DictionaryArray,
    b: usize,
    n: usize,
    steps: &mut K,
) -> Result<(), ComputeError>
    requires leaves { IsTrue (is_leaf (type_of (dictionary_values left.now))) }
    requires windows { AreWindows (Dictionary left.now) a (Dictionary right.now) b n }
    requires few { n ≤ 64 }
    requires room { n ≤ bits.old.room }
    ensures told { MatchResult result
        (λ _. AddsRawBits K.agree (Dictionary left.now) a (Dictionary right.now) b n bits.old.bits
        bits.new.bits) IsMemory }
    ensures room { IfOk result (λ _. bits.new.room ≡ bits.old.room - n) }
    ensures counted { IfOk result
        (λ _. K.count steps.new
        ≡ K.count steps.old + tally (Dictionary left.now) (Dictionary right.now) a b n) }
    ensures kept { K.count steps.old ≤ K.count steps.new }
{
    let keys = KeyBlock::read(left, a, n);
    let others = KeyBlock::read(right, b, n);
    for i in 0..n {
        let same = equal_row(alloc, &keys, &others, i, steps)?;
        bits.push_reserved(same);
    }
    Ok(())
}

// Returns whether the keys `i` of two blocks refer to leaves that are the same by `steps`. If a row
// is masked on either side, the result is arbitrary. The error is `Memory`; the count of `steps`
// may have increased by then.
#[inline(always)]
fn equal_row<K: LeafKernel>(
    alloc: Global,
    left: &KeyBlock<'_>,
    right: &KeyBlock<'_>,
    i: usize,
    steps: &mut K,
) -> Result<bool, ComputeError>
    requires leaves { IsTrue (is_leaf (type_of (dictionary_values left.now.array.now))) }
    requires left_in { i < left.now.count }
    requires right_in { i < right.now.count }
    requires windows { AreWindows (Dictionary left.now.array.now) (left.now.at + i)
        (Dictionary right.now.array.now) (right.now.at + i) 1 }
    ensures told { MatchResult result
        (λ bit. SamePresent K.agree (Dictionary left.now.array.now) (left.now.at + i)
        (Dictionary right.now.array.now) (right.now.at + i) bit) IsMemory }
    ensures counted { IfOk result
        (λ _. K.count steps.new
        ≡ K.count steps.old
        + tally (Dictionary left.now.array.now) (Dictionary right.now.array.now) (left.now.at + i)
        (right.now.at + i) 1) }
    ensures kept { K.count steps.old ≤ K.count steps.new }
{
    match block_entries(left, right, i) {
        Some(pair) => {
            let (entries, others) = (left.array.values(), right.array.values());
            equal_leaves(alloc, entries, pair.left, others, pair.right, steps)
        }
        None => Ok(false),
    }
}

// Returns whether leaf `a` of the left array and leaf `b` of the right one are the same by `steps`.
// If a leaf is masked on either side, the result is arbitrary. The error is `Memory`; the count of
// `steps` may have increased by then.
#[inline(always)]
fn equal_leaves<K: LeafKernel>(
    alloc: Global,
    left: &AnyArray,
    a: usize,
    right: &AnyArray,
    b: usize,
    steps: &mut K,
) -> Result<bool, ComputeError>
    requires leaves { IsTrue (is_leaf (type_of left.now)) }
    requires windows { AreWindows left.now a right.now b 1 }
    ensures told { MatchResult result
        (λ bit. SamePresent K.agree left.now a right.now b bit) IsMemory }
    ensures counted { IfOk result
        (λ _. K.count steps.new ≡ K.count steps.old + tally left.now right.now a b 1) }
    ensures kept { K.count steps.old ≤ K.count steps.new }
{
    steps.leaf_row_eq(alloc, left, a, right, b)
}
