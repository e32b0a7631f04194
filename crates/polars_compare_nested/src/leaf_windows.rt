//! Raw equality of windows of two arrays of leaves of one type.

ghost use Rattle.std.specs.Prelude.{◌≡◌, ◌+◌, ◌≤◌, IsTrue, length, MatchResult};
ghost use Rattle.polars_arrays_bits.specs.Errors.{IsMemory};
ghost use Rattle.polars_arrays_bytes.specs.OffsetStrings.{offset_rows, row_count};
ghost use Rattle.polars_arrays_bytes.specs.SizedStrings.{sized_rows};
ghost use Rattle.polars_arrays_flat.specs.StoredRows.{row as row_at};
ghost use Rattle.polars_arrays_nested.specs.Lengths.{len_of};
ghost use Rattle.polars_arrays_nested.specs.Types.{type_of};
ghost use Rattle.polars_arrays_views.specs.Parts.{view_rows};
ghost use Rattle.polars_compare_leaves.specs.Sameness.{same_leaf};
ghost use Rattle.polars_compare_nested.specs.Bits.{LeafBits, PresentBits};
ghost use Rattle.polars_compare_nested.specs.Leaf.{is_leaf};

use crate::downcast::downcast;
use polars_arrays_bits::bitmap::Bitmap;
use polars_arrays_bits::error::ComputeError;
use polars_arrays_bytes::binary::BinaryArray;
use polars_arrays_bytes::fixed_size::FixedSizeBinaryArray;
use polars_arrays_bytes::text::Utf8Array;
use polars_arrays_nested::any_array::AnyArray;
use polars_arrays_numbers::comparison::Equal;
use polars_arrays_numbers::offset::Offset;
use polars_arrays_numbers::steps::Steps;
use polars_arrays_views::binary_view::BinaryViewArray;
use polars_arrays_views::text_view::Utf8ViewArray;
use polars_compare_leaves::booleans::compare_truth_windows;
use polars_compare_leaves::bytes::compare_byte_windows;
use polars_compare_leaves::numbers::compare_number_windows;
use polars_compare_leaves::sized::compare_sized_windows;
use polars_compare_leaves::view_windows::compare_view_windows;
use std::alloc::Global;

// Matches on the kind of two arrays, and calls the function that precedes the kind in a list. The
// functions of the first list take the comparison `Equal` as an argument.
macro_rules! compare_leaves {
    (($alloc:expr, $left:expr, $a:expr, $right:expr, $b:expr, $n:expr),
        [$($compare:ident: $($of:ident)+);+],
        [$($windows:ident: $($kind:ident)+);+]) => {
        match $left {
            $($(AnyArray::$of(left) =>
                $compare($alloc, &Equal, left, $a, downcast!($right, $of), $b, $n),)+)+
            $($(AnyArray::$kind(left) =>
                $windows($alloc, left, $a, downcast!($right, $kind), $b, $n),)+)+
            _ => unreachable!(),
        }
    };
}

/// Returns a bit for each `i` below `n`: 1 if row `a + i` of the left array is equal to row `b + i`
/// of the right one. If a row is masked on either side, the bit is arbitrary. The error is
/// `Memory`.
#[tactic(auto, using(crate::proofs::Strings::counts, crate::proofs::Cases::cases))]
#[inline]
pub(crate) fn eq_leaves(
    alloc: Global,
    left: &AnyArray,
    a: usize,
    right: &AnyArray,
    b: usize,
    n: usize,
) -> Result<Bitmap, ComputeError>
    requires leaves { IsTrue (is_leaf (type_of left.now)) }
    requires one_type { type_of left.now ≡ type_of right.now }
    requires left_in { a + n ≤ len_of left.now }
    requires right_in { b + n ≤ len_of right.now }
    ensures { MatchResult result (LeafBits same_leaf left.now a right.now b n) IsMemory }
{
    compare_leaves!(
        (alloc, left, a, right, b, n),
        [
            compare_truth_windows: Boolean;
            compare_number_windows: Int8 Int16 Int32 Int64 Int128 UInt8 UInt16 UInt32 UInt64 UInt128
        ],
        [
            eq_strings: Binary LargeBinary;
            utf8_windows: Utf8 LargeUtf8;
            eq_views: BinaryView;
            text_windows: Utf8View;
            eq_sized_strings: FixedSizeBinary
        ]
    )
}

// Returns the bits of `eq_leaves`, for byte strings between offsets. The error is `Memory`.
#[tactic(auto, using(crate::proofs::Strings::counts))]
#[inline]
fn eq_strings<O: Offset>(
    alloc: Global,
    left: &BinaryArray<O>,
    a: usize,
    right: &BinaryArray<O>,
    b: usize,
    n: usize,
) -> Result<Bitmap, ComputeError>
    requires left_in { a + n ≤ row_count left.now.offsets }
    requires right_in { b + n ≤ row_count right.now.offsets }
    ensures { MatchResult result
        (PresentBits same_leaf (row_at (offset_rows O.value left.now)) left.now.validity a
        (row_at (offset_rows O.value right.now)) right.now.validity b n) IsMemory }
{
    compare_byte_windows(alloc, &Equal, &left.lent(), a, &right.lent(), b, n)
}

// Returns the bits of `eq_leaves`, for texts between offsets. The error is `Memory`.
#[inline]
fn utf8_windows<O: Offset>(
    alloc: Global,
    left: &Utf8Array<O>,
    a: usize,
    right: &Utf8Array<O>,
    b: usize,
    n: usize,
) -> Result<Bitmap, ComputeError>
    requires left_in { a + n ≤ row_count left.now.offsets }
    requires right_in { b + n ≤ row_count right.now.offsets }
    ensures { MatchResult result
        (PresentBits same_leaf (row_at (offset_rows O.value left.now)) left.now.validity a
        (row_at (offset_rows O.value right.now)) right.now.validity b n) IsMemory }
{
    eq_strings(alloc, left.as_binary(), a, right.as_binary(), b, n)
}

// Returns the bits of `eq_leaves`, for byte strings of fixed size. The error is `Memory`.
#[tactic(auto, using(crate::proofs::Strings::counts))]
fn eq_sized_strings(
    alloc: Global,
    left: &FixedSizeBinaryArray,
    a: usize,
    right: &FixedSizeBinaryArray,
    b: usize,
    n: usize,
) -> Result<Bitmap, ComputeError>
    requires left_in { a + n ≤ left.now.count }
    requires right_in { b + n ≤ right.now.count }
    ensures { MatchResult result
        (PresentBits same_leaf (row_at (sized_rows left.now)) left.now.validity a
        (row_at (sized_rows right.now)) right.now.validity b n) IsMemory }
{
    compare_sized_windows(alloc, &Equal, left, a, right, b, n)
}

// Returns the bits of `eq_leaves`, for texts in views. The error is `Memory`.
#[inline]
fn text_windows(
    alloc: Global,
    left: &Utf8ViewArray,
    a: usize,
    right: &Utf8ViewArray,
    b: usize,
    n: usize,
) -> Result<Bitmap, ComputeError>
    requires left_in { a + n ≤ length left.now.views }
    requires right_in { b + n ≤ length right.now.views }
    ensures { MatchResult result
        (PresentBits same_leaf (row_at (view_rows left.now)) left.now.validity a
        (row_at (view_rows right.now)) right.now.validity b n) IsMemory }
{
    eq_views(alloc, left.as_binview(), a, right.as_binview(), b, n)
}

// Returns the bits of `eq_leaves`, for byte strings in views. The error is `Memory`.
// `compare_view_windows` counts comparisons that read a buffer. That count is dropped, since this
// crate counts comparisons of leaves.
#[inline]
fn eq_views(
    alloc: Global,
    left: &BinaryViewArray,
    a: usize,
    right: &BinaryViewArray,
    b: usize,
    n: usize,
) -> Result<Bitmap, ComputeError>
    requires left_in { a + n ≤ length left.now.views }
    requires right_in { b + n ≤ length right.now.views }
    ensures { MatchResult result
        (PresentBits same_leaf (row_at (view_rows left.now)) left.now.validity a
        (row_at (view_rows right.now)) right.now.validity b n) IsMemory }
{
    compare_view_windows(alloc, &Equal, left, a, right, b, n, &mut Steps::new())
}
