//! Raw equality of windows of leaves of one type, combined by AND with existing bits.

ghost use Rattle.std.specs.Prelude.{◌≡◌, ◌+◌, ◌≤◌, IsTrue, length, MatchResult};
ghost use Rattle.polars_arrays_bits.specs.Errors.{IsMemory};
ghost use Rattle.polars_arrays_flat.specs.ArrayRows.{number_rows};
ghost use Rattle.polars_arrays_flat.specs.StoredRows.{row as row_at};
ghost use Rattle.polars_arrays_nested.specs.Lengths.{len_of};
ghost use Rattle.polars_arrays_nested.specs.Types.{type_of};
ghost use Rattle.polars_compare_leaves.specs.Sameness.{same_leaf};
ghost use Rattle.polars_compare_nested.specs.Bits.{JoinsBits, JoinsLeafBits, PresentBits};
ghost use Rattle.polars_compare_nested.specs.Leaf.{is_leaf};

use crate::downcast::downcast;
use crate::leaf_windows::eq_leaves;
use polars_arrays_bits::error::ComputeError;
use polars_arrays_bits::mutable_bitmap::MutableBitmap;
use polars_arrays_flat::primitive::PrimitiveArray;
use polars_arrays_nested::any_array::AnyArray;
use polars_arrays_numbers::comparison::Equal;
use polars_arrays_numbers::native_type::NativeType;
use polars_compare_leaves::numbers::and_number_windows;
use std::alloc::Global;

// Matches on the kind of two arrays. For the listed kinds, calls the function that precedes them.
// For all other kinds, compares the windows into a bitmap.
macro_rules! join_leaves {
    (($alloc:expr, $bits:expr, $left:expr, $a:expr, $right:expr, $b:expr), $join:ident:
        $($kind:ident)+) => {
        match $left {
            $(AnyArray::$kind(left) => {
                $join($bits, left, $a, downcast!($right, $kind), $b);
                Ok(())
            })+
            _ => and_by_bitmap($alloc, $bits, $left, $a, $right, $b),
        }
    };
}

/// Clears each bit `i` of `bits` for which row `a + i` of `left` and row `b + i` of `right` are
/// both present and differ. If one of the two rows is null, the function may clear the bit or leave
/// it. Both arrays have the same leaf type. The error is `Memory`; numbers need no memory.
#[tactic(auto, using(crate::proofs::Strings::counts, crate::proofs::Cases::cases))]
#[inline]
pub(crate) fn and_leaf_windows(
    alloc: Global,
    bits: &mut MutableBitmap,
    left: &AnyArray,
    a: usize,
    right: &AnyArray,
    b: usize,
) -> Result<(), ComputeError>
    requires leaves { IsTrue (is_leaf (type_of left.now)) }
    requires one_type { type_of left.now ≡ type_of right.now }
    requires left_in { a + length bits.old ≤ len_of left.now }
    requires right_in { b + length bits.old ≤ len_of right.now }
    ensures { MatchResult result
        (λ _. JoinsLeafBits same_leaf left.now a right.now b bits.old bits.new) IsMemory }
{
    join_leaves!(
        (alloc, bits, left, a, right, b),
        and_numbers: Int8 Int16 Int32 Int64 Int128 UInt8 UInt16 UInt32 UInt64 UInt128
    )
}

// Clears the same bits as `and_leaf_windows`, for leaves of any kind. Allocates a bitmap of the
// results. The error is `Memory`.
fn and_by_bitmap(
    alloc: Global,
    bits: &mut MutableBitmap,
    left: &AnyArray,
    a: usize,
    right: &AnyArray,
    b: usize,
) -> Result<(), ComputeError>
    requires leaves { IsTrue (is_leaf (type_of left.now)) }
    requires one_type { type_of left.now ≡ type_of right.now }
    requires left_in { a + length bits.old ≤ len_of left.now }
    requires right_in { b + length bits.old ≤ len_of right.now }
    ensures { MatchResult result
        (λ _. JoinsLeafBits same_leaf left.now a right.now b bits.old bits.new) IsMemory }
{
    let n = bits.len();
    let same = eq_leaves(alloc, left, a, right, b, n)?;
    bits.and_assign(&same);
    Ok(())
}

// Clears each bit `i` of `bits` for which number `a + i` of the left array and number `b + i` of
// the right one are not equal.
fn and_numbers<T: NativeType>(
    bits: &mut MutableBitmap,
    left: &PrimitiveArray<T>,
    a: usize,
    right: &PrimitiveArray<T>,
    b: usize,
)
    requires left_in { a + length bits.old ≤ length left.now.values }
    requires right_in { b + length bits.old ≤ length right.now.values }
    ensures { JoinsBits
        (PresentBits same_leaf (row_at (number_rows T.value left.now)) left.now.validity a
        (row_at (number_rows T.value right.now)) right.now.validity b (length bits.old)) bits.old
        bits.new }
{
    and_number_windows(bits, &Equal, left, a, right, b);
}
