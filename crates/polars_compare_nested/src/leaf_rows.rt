//! Equality of two stored leaves of arrays of one type. No function allocates.

ghost use Rattle.std.specs.Prelude.{◌≡◌, ◌<◌, IsTrue, length};
ghost use Rattle.polars_arrays_flat.specs.ArrayRows.{number_rows, truth_rows};
ghost use Rattle.polars_arrays_flat.specs.StoredRows.{byte_slots, rows_under};
ghost use Rattle.polars_arrays_flat.specs.StoredRows.{row as row_at};
ghost use Rattle.polars_arrays_nested.specs.Lengths.{len_of};
ghost use Rattle.polars_arrays_nested.specs.Types.{type_of};
ghost use Rattle.polars_arrays_views.specs.Parts.{view_rows};
ghost use Rattle.polars_compare_leaves.specs.Sameness.{same_leaf};
ghost use Rattle.polars_compare_nested.specs.Bits.{LeafBit, PresentBit};
ghost use Rattle.polars_compare_nested.specs.Leaf.{is_leaf};

use crate::downcast::downcast;
use polars_arrays_flat::boolean::BooleanArray;
use polars_arrays_flat::byte_rows::ByteRows;
use polars_arrays_flat::primitive::PrimitiveArray;
use polars_arrays_nested::any_array::AnyArray;
use polars_arrays_numbers::comparison::{Comparison, Equal};
use polars_arrays_numbers::native_type::NativeType;
use polars_arrays_numbers::steps::Steps;
use polars_arrays_views::binary_view::BinaryViewArray;
use polars_arrays_views::rows::rows_equal;
use polars_arrays_views::text_view::Utf8ViewArray;
use polars_compare_leaves::bytes::ByteComparison;

// Matches on the kind of two arrays, and calls the function that precedes the kind in the list.
macro_rules! compare_rows {
    (($left:expr, $a:expr, $right:expr, $b:expr), $($same:ident: $($kind:ident)+);+) => {
        match $left {
            $($(AnyArray::$kind(left) => $same(left, $a, downcast!($right, $kind), $b),)+)+
            _ => unreachable!(),
        }
    };
}

/// Returns whether leaf `a` of the left array and leaf `b` of the right one are equal. If a row is
/// masked on either side, the result is arbitrary.
#[tactic(auto, using(crate::proofs::Strings::counts, crate::proofs::Cases::cases))]
#[inline(always)]
pub(crate) fn leaf_rows(left: &AnyArray, a: usize, right: &AnyArray, b: usize) -> bool
    requires leaves { IsTrue (is_leaf (type_of left.now)) }
    requires one_type { type_of left.now ≡ type_of right.now }
    requires left_in { a < len_of left.now }
    requires right_in { b < len_of right.now }
    ensures { LeafBit same_leaf left.now a right.now b result }
{
    compare_rows!(
        (left, a, right, b),
        same_truth: Boolean;
        same_number: Int8 Int16 Int32 Int64 Int128 UInt8 UInt16 UInt32 UInt64 UInt128;
        same_bytes: Binary LargeBinary Utf8 LargeUtf8 FixedSizeBinary;
        same_view: BinaryView;
        same_text: Utf8View
    )
}

// Returns whether truth value `a` of the left array is equal to truth value `b` of the right one.
#[inline(always)]
fn same_truth(left: &BooleanArray, a: usize, right: &BooleanArray, b: usize) -> bool
    requires left_in { a < length left.now.values }
    requires right_in { b < length right.now.values }
    ensures { PresentBit same_leaf (row_at (truth_rows left.now)) left.now.validity a
        (row_at (truth_rows right.now)) right.now.validity b result }
{
    let (left, right) = (left.values(), right.values());
    let (x, y) = (left.get_bit(a), right.get_bit(b));
    x == y
}

// Returns whether number `a` of the left array is equal to number `b` of the right one.
#[inline(always)]
fn same_number<T: NativeType>(
    left: &PrimitiveArray<T>,
    a: usize,
    right: &PrimitiveArray<T>,
    b: usize,
) -> bool
    requires left_in { a < length left.now.values }
    requires right_in { b < length right.now.values }
    ensures { PresentBit same_leaf (row_at (number_rows T.value left.now)) left.now.validity a
        (row_at (number_rows T.value right.now)) right.now.validity b result }
{
    let (left, right) = (left.values(), right.values());
    Comparison::compare(&Equal, left[a], right[b])
}

// Returns whether byte string or text `a` of the left array is equal to byte string or text `b` of
// the right one. The arrays store their strings between offsets, or have strings of one size.
#[inline(always)]
fn same_bytes<R: ByteRows>(left: &R, a: usize, right: &R, b: usize) -> bool
    requires left_in { a < length (R.strings left.now) }
    requires right_in { b < length (R.strings right.now) }
    ensures { PresentBit same_leaf
        (row_at (rows_under (R.mask left.now) (byte_slots (R.strings left.now)))) (R.mask left.now)
        a (row_at (rows_under (R.mask right.now) (byte_slots (R.strings right.now))))
        (R.mask right.now) b result }
{
    let (left, n) = left.bytes_on(a);
    let (right, m) = right.bytes_on(b);
    ByteComparison::compare_beginnings(&Equal, left, n, right, m)
}

// Returns whether text `a` of the left array is equal to text `b` of the right one.
#[inline(always)]
fn same_text(left: &Utf8ViewArray, a: usize, right: &Utf8ViewArray, b: usize) -> bool
    requires left_in { a < length left.now.views }
    requires right_in { b < length right.now.views }
    ensures { PresentBit same_leaf (row_at (view_rows left.now)) left.now.validity a
        (row_at (view_rows right.now)) right.now.validity b result }
{
    same_view(left.as_binview(), a, right.as_binview(), b)
}

// Returns whether byte string `a` of the left array is equal to byte string `b` of the right one.
// `rows_equal` counts comparisons that read a buffer. That count is dropped, since this crate
// counts comparisons of leaves.
#[inline(always)]
fn same_view(left: &BinaryViewArray, a: usize, right: &BinaryViewArray, b: usize) -> bool
    requires left_in { a < length left.now.views }
    requires right_in { b < length right.now.views }
    ensures { PresentBit same_leaf (row_at (view_rows left.now)) left.now.validity a
        (row_at (view_rows right.now)) right.now.validity b result }
{
    rows_equal(left, a, right, b, &mut Steps::new())
}
