//! The least or the greatest row of an array of one kind, chosen by an argument.

ghost use Rattle.std.specs.Prelude.{length, MatchOption};
ghost use Rattle.polars_arrays_bytes.specs.OffsetStrings.{offset_rows, row_count};
ghost use Rattle.polars_arrays_flat.specs.ArrayRows.{number_rows, truth_rows};
ghost use Rattle.polars_arrays_flat.specs.Row.{Bytes, Int, Truth};
ghost use Rattle.polars_arrays_flat.specs.StoredRows.{row as row_at};
ghost use Rattle.polars_arrays_nested.specs.StoredRows.{listed};
ghost use Rattle.polars_arrays_views.specs.Parts.{view_rows};
ghost use Rattle.polars_compare_extremes.specs.Extremes.{FindsBest, NonePresent};
ghost use Rattle.polars_compare_extremes.specs.Scalars.{better_of};

use crate::borrowed::{BytesMinMaxKernel, TextMinMaxKernel};
use crate::kernel::MinMaxKernel;
use polars_arrays_bytes::binary::BinaryArray;
use polars_arrays_bytes::text::Utf8Array;
use polars_arrays_flat::array::Array;
use polars_arrays_flat::boolean::BooleanArray;
use polars_arrays_flat::primitive::PrimitiveArray;
use polars_arrays_numbers::native_type::NativeType;
use polars_arrays_numbers::offset::Offset;
use polars_arrays_views::binary_view::BinaryViewArray;
use polars_arrays_views::text_view::Utf8ViewArray;

/// The row that is searched for: the least one or the greatest one.
#[derive(Clone, Copy, Debug)]
pub(crate) enum Extreme {
    Least,
    Greatest,
}

// Returns the least or the greatest present row of `$array`, as `$extreme` says, or `None` if no
// row is present. `validity` is called for the proof alone: by its contract, the validity has a bit
// for each row.
macro_rules! extreme_of {
    ($array:expr, $extreme:expr) => {{
        let _validity = $array.validity();
        match $extreme {
            Extreme::Least => $array.min_ignore_nan_kernel(),
            Extreme::Greatest => $array.max_ignore_nan_kernel(),
        }
    }};
}

/// Returns the least or the greatest present truth value, as `extreme` says, or `None` if no row is
/// present.
pub(crate) fn truth_extreme(array: &BooleanArray, extreme: Extreme) -> Option<bool>
    ensures { MatchOption result
        (NonePresent (listed (row_at (truth_rows array.now)) (length array.now.values)))
        (λ found. FindsBest (better_of extreme)
        (listed (row_at (truth_rows array.now)) (length array.now.values)) (Truth found)) }
{
    extreme_of!(array, extreme)
}

/// Returns the least or the greatest present number, as `extreme` says, or `None` if no row is
/// present.
pub(crate) fn number_extreme<T: NativeType + 'static>(
    array: &PrimitiveArray<T>,
    extreme: Extreme,
) -> Option<T>
    ensures { MatchOption result
        (NonePresent (listed (row_at (number_rows T.value array.now)) (length array.now.values)))
        (λ found. FindsBest (better_of extreme)
        (listed (row_at (number_rows T.value array.now)) (length array.now.values))
        (Int (T.value found))) }
{
    extreme_of!(array, extreme)
}

/// Returns the least or the greatest present byte string, as `extreme` says, or `None` if no row is
/// present.
pub(crate) fn bytes_extreme<O: Offset>(array: &BinaryArray<O>, extreme: Extreme) -> Option<&[u8]>
    ensures { MatchOption result
        (NonePresent (listed (row_at (offset_rows O.value array.now))
        (row_count array.now.offsets)))
        (λ found. FindsBest (better_of extreme)
        (listed (row_at (offset_rows O.value array.now)) (row_count array.now.offsets))
        (Bytes found.now)) }
{
    extreme_of!(array, extreme)
}

/// Returns the least or the greatest present text, as `extreme` says, or `None` if no row is
/// present.
pub(crate) fn text_extreme<O: Offset>(array: &Utf8Array<O>, extreme: Extreme) -> Option<&str>
    ensures { MatchOption result
        (NonePresent (listed (row_at (offset_rows O.value array.now))
        (row_count array.now.offsets)))
        (λ found. FindsBest (better_of extreme)
        (listed (row_at (offset_rows O.value array.now)) (row_count array.now.offsets))
        (Bytes found.now)) }
{
    extreme_of!(array, extreme)
}

/// Returns the least or the greatest present byte string of an array of views, as `extreme` says,
/// or `None` if no row is present.
pub(crate) fn view_extreme(array: &BinaryViewArray, extreme: Extreme) -> Option<&[u8]>
    ensures { MatchOption result
        (NonePresent (listed (row_at (view_rows array.now)) (length array.now.views)))
        (λ found. FindsBest (better_of extreme)
        (listed (row_at (view_rows array.now)) (length array.now.views)) (Bytes found.now)) }
{
    extreme_of!(array, extreme)
}

/// Returns the least or the greatest present text of an array of views, as `extreme` says, or
/// `None` if no row is present.
pub(crate) fn text_view_extreme(array: &Utf8ViewArray, extreme: Extreme) -> Option<&str>
    ensures { MatchOption result
        (NonePresent (listed (row_at (view_rows array.now)) (length array.now.views)))
        (λ found. FindsBest (better_of extreme)
        (listed (row_at (view_rows array.now)) (length array.now.views)) (Bytes found.now)) }
{
    extreme_of!(array, extreme)
}
