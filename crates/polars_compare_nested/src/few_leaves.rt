//! Finds windows of at most 64 leaves without nulls. A comparison of these returns a word instead
//! of a bitmap.

ghost use Rattle.std.specs.Prelude.{◌≡◌, ◌+◌, ◌≤◌, IsTrue, IfOk, MatchResult};
ghost use Rattle.polars_arrays_bits.specs.Errors.{IsMemory};
ghost use Rattle.polars_arrays_nested.specs.GoodParts.{IsGood};
ghost use Rattle.polars_arrays_nested.specs.Types.{type_of};
ghost use Rattle.polars_arrays_words.specs.Bits.{first_of, is_bit};
ghost use Rattle.polars_compare_nested.specs.Bits.{SameBits};
ghost use Rattle.polars_compare_nested.specs.FewLeaves.{AreFewLeaves, AreLeavesWithoutNulls};
ghost use Rattle.polars_compare_nested.specs.Leaf.{is_leaf};
ghost use Rattle.polars_compare_nested.specs.Tally.{tally};
ghost use Rattle.polars_compare_nested.specs.Windows.{AreWindows};

use crate::leaf_kernel::LeafKernel;
use polars_arrays_bits::error::ComputeError;
use polars_arrays_nested::any_array::AnyArray;
use polars_arrays_words::words::WORD_BITS;
use std::alloc::Global;

/// Returns whether the rows of an array are leaves: numbers, truth values, byte strings or texts.
#[inline(always)]
pub(crate) fn has_leaves(array: &AnyArray) -> bool
    ensures { IsTrue result → IsTrue (is_leaf (type_of array.now)) }
{
    match array {
        AnyArray::Null(_)
        | AnyArray::List(_)
        | AnyArray::FixedSizeList(_)
        | AnyArray::Struct(_)
        | AnyArray::Dictionary(_) => false,
        _ => true,
    }
}

/// Returns whether the rows of two arrays of the same type are leaves without nulls. May return
/// `false` for an array with a validity even if no row is null.
#[inline(always)]
pub(crate) fn are_leaves(left: &AnyArray, right: &AnyArray) -> bool
    requires left_good { IsGood left.now }
    requires right_good { IsGood right.now }
    ensures { IsTrue result → AreLeavesWithoutNulls left.now right.now }
{
    has_leaves(left) && !left.may_have_nulls() && !right.may_have_nulls()
}

/// Returns whether two windows of `n` rows consist of at most 64 leaves without nulls each. If
/// `leaves` is true, the rows of both arrays must be leaves without nulls.
#[inline(always)]
pub(crate) fn are_few_leaves(_left: &AnyArray, _right: &AnyArray, leaves: bool, n: usize) -> bool
    requires leaves { IsTrue leaves → AreLeavesWithoutNulls _left.now _right.now }
    ensures { IsTrue result → AreFewLeaves _left.now _right.now n }
{
    leaves && n <= WORD_BITS
}

/// Compares two windows of at most 64 leaves without nulls by `steps`. Bit `i` of the result is 1
/// if row `a + i` of the left array and row `b + i` of the right one are the same. The count of
/// `steps` increases by `n`. The error is `Memory`; the count may have increased by then.
#[inline(always)]
pub(crate) fn same_few<K: LeafKernel>(
    alloc: Global,
    left: &AnyArray,
    a: usize,
    right: &AnyArray,
    b: usize,
    n: usize,
    steps: &mut K,
) -> Result<u64, ComputeError>
    requires windows { AreWindows left.now a right.now b n }
    requires few { AreFewLeaves left.now right.now n }
    ensures told { MatchResult result
        (λ word. SameBits K.agree left.now a right.now b n (first_of (is_bit word) n)) IsMemory }
    ensures counted { IfOk result
        (λ _. K.count steps.new ≡ K.count steps.old + tally left.now right.now a b n) }
    ensures kept { K.count steps.old ≤ K.count steps.new }
{
    steps.leaf_word_eq(alloc, left, a, right, b, n)
}
