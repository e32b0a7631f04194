//! Raw equality of windows of at most 64 leaves of one type, as a word with the bit of the first
//! row lowest.

ghost use Rattle.std.specs.Prelude.{◌≡◌, ◌+◌, ◌≤◌, IsTrue, length, MatchResult};
ghost use Rattle.polars_arrays_words.specs.Bits.{first_of, is_bit};
ghost use Rattle.polars_arrays_bits.specs.Errors.{IsMemory};
ghost use Rattle.polars_arrays_flat.specs.ArrayRows.{number_rows};
ghost use Rattle.polars_arrays_flat.specs.StoredRows.{row as row_at};
ghost use Rattle.polars_arrays_nested.specs.Lengths.{len_of};
ghost use Rattle.polars_arrays_nested.specs.Types.{type_of};
ghost use Rattle.polars_compare_leaves.specs.Sameness.{same_leaf};
ghost use Rattle.polars_compare_nested.specs.Bits.{LeafWord, PresentBits};
ghost use Rattle.polars_compare_nested.specs.Leaf.{is_leaf};

use crate::downcast::downcast;
use crate::leaf_windows::eq_leaves;
use polars_arrays_bits::bit_mask::BitMask;
use polars_arrays_bits::error::ComputeError;
use polars_arrays_flat::primitive::PrimitiveArray;
use polars_arrays_nested::any_array::AnyArray;
use polars_arrays_numbers::comparison::Equal;
use polars_arrays_numbers::native_type::NativeType;
use polars_compare_leaves::numbers::compare_few_numbers;
use std::alloc::Global;

// Matches on the kind of two arrays, and returns the word of `leaf_word`. For the listed kinds,
// calls the function `$word`. For all other kinds, reads the word from a bitmap.
macro_rules! compare_few_leaves {
    (($alloc:expr, $left:expr, $a:expr, $right:expr, $b:expr, $n:expr), $word:ident:
        $($kind:ident)+) => {
        match $left {
            $(AnyArray::$kind(left) => Ok($word(left, $a, downcast!($right, $kind), $b, $n)),)+
            _ => word_of_windows($alloc, $left, $a, $right, $b, $n),
        }
    };
}

/// Returns a word whose bit `i` is 1 if row `a + i` of the left array is equal to row `b + i` of
/// the right one, for each `i` below `n`, which is at most 64. If a row is masked on either side,
/// the bit is arbitrary. The error is `Memory`; numbers need no memory.
#[tactic(auto, using(crate::proofs::Strings::counts, crate::proofs::Cases::cases))]
#[inline]
pub(crate) fn leaf_word(
    alloc: Global,
    left: &AnyArray,
    a: usize,
    right: &AnyArray,
    b: usize,
    n: usize,
) -> Result<u64, ComputeError>
    requires leaves { IsTrue (is_leaf (type_of left.now)) }
    requires one_type { type_of left.now ≡ type_of right.now }
    requires left_in { a + n ≤ len_of left.now }
    requires right_in { b + n ≤ len_of right.now }
    requires few { n ≤ 64 }
    ensures { MatchResult result (LeafWord same_leaf left.now a right.now b n) IsMemory }
{
    compare_few_leaves!(
        (alloc, left, a, right, b, n),
        number_word: Int8 Int16 Int32 Int64 Int128 UInt8 UInt16 UInt32 UInt64 UInt128
    )
}

// Returns the word of `leaf_word`, for leaves of any kind. Reads the word from a bitmap of the
// results. The error is `Memory`.
fn word_of_windows(
    alloc: Global,
    left: &AnyArray,
    a: usize,
    right: &AnyArray,
    b: usize,
    n: usize,
) -> Result<u64, ComputeError>
    requires leaves { IsTrue (is_leaf (type_of left.now)) }
    requires one_type { type_of left.now ≡ type_of right.now }
    requires left_in { a + n ≤ len_of left.now }
    requires right_in { b + n ≤ len_of right.now }
    requires few { n ≤ 64 }
    ensures { MatchResult result (LeafWord same_leaf left.now a right.now b n) IsMemory }
{
    let bits = eq_leaves(alloc, left, a, right, b, n)?;
    Ok(BitMask::from_bitmap(&bits).few_bits(0, n))
}

// Returns a word whose bit `i` is 1 if number `a + i` of the left array is equal to number `b + i`
// of the right one, for each `i` below `n`, which is at most 64. Does not allocate.
#[inline(always)]
fn number_word<T: NativeType>(
    left: &PrimitiveArray<T>,
    a: usize,
    right: &PrimitiveArray<T>,
    b: usize,
    n: usize,
) -> u64
    requires left_in { a + n ≤ length left.now.values }
    requires right_in { b + n ≤ length right.now.values }
    requires few { n ≤ 64 }
    ensures { PresentBits same_leaf (row_at (number_rows T.value left.now)) left.now.validity a
        (row_at (number_rows T.value right.now)) right.now.validity b n
        (first_of (is_bit result) n) }
{
    compare_few_numbers(&Equal, left, a, right, b, n)
}
