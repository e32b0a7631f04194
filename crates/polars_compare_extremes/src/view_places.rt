//! Searches for the best present byte string of an array of views.

ghost use Rattle.std.specs.Prelude.{◌≡◌, ◌<◌, [], length, slice_index_or, IfSome, MatchOption};
ghost use Rattle.std.specs.Option.{option_copied};
ghost use Rattle.polars_arrays_flat.specs.ByteOrder.{bytes_lt};
ghost use Rattle.polars_arrays_flat.specs.Row.{Bytes};
ghost use Rattle.polars_arrays_flat.specs.StoredRows.{byte_slots, rows_under};
ghost use Rattle.polars_arrays_flat.specs.Validity.{HasBits};
ghost use Rattle.polars_arrays_views.specs.Parts.{view_strings};
ghost use Rattle.polars_compare_extremes.specs.Extremes.{FindsBest, NonePresent};
ghost use Rattle.polars_compare_extremes.specs.Places.{IsBestSlot, IsFirstPresent, string_row};

use crate::places::first_present;
use crate::preference::Preference;
use polars_arrays_bits::bitmap::Bitmap;
use polars_arrays_flat::byte_rows::ByteRows;
use polars_arrays_flat::validity::is_present;
use polars_arrays_numbers::steps::Steps;
use polars_arrays_views::binary_view::BinaryViewArray;
use polars_arrays_views::rows::row_less;

/// Returns whether row `i` of `array` is less than row `j`. If row `i` has the greater prefix
/// (first four bytes), the result is `false`, and nothing else is compared. In a search for the
/// least or greatest row this is often the case.
#[inline(always)]
pub(crate) fn less_by_prefix(array: &BinaryViewArray, i: usize, j: usize) -> bool
    requires row { i < length array.now.views }
    requires other { j < length array.now.views }
    ensures { result
        ≡ bytes_lt (slice_index_or (view_strings array.now) i [])
        (slice_index_or (view_strings array.now) j []) }
{
    if array.view(i).prefix() > array.view(j).prefix() {
        return false;
    }
    row_less(array, i, array, j, &mut Steps::new())
}

// Returns the index of the best present row of `array` by `preference`. If several are equally
// good, returns the index of the first of them. `present` has a bit for each row, or is `None` if
// all rows are present. `first` is the index of the first present row.
#[tactic(auto, using(crate::proofs::Lent::lends))]
fn best_view_from<P: Preference>(
    preference: &P,
    array: &BinaryViewArray,
    present: Option<&Bitmap>,
    first: usize,
) -> usize
    requires bits { HasBits (length (view_strings array.now)) (option_copied present) }
    requires first { IsFirstPresent (length (view_strings array.now)) (option_copied present)
        first }
    ensures { IsBestSlot P.rows (string_row (view_strings array.now)) (option_copied present.entry)
        (length (view_strings array.now)) result }
{
    let n = array.count();
    let mut place = first;
    for i in first + 1..n {
        if preference.is_better_row(array, i, place) && is_present(present, i) {
            place = i;
        }
    }
    place
}

/// Returns the index of the best present row of `array` by `preference`, or `None` if no row is
/// present. If several are equally good, returns the index of the first of them. `present` has a
/// bit for each row, or is `None` if all rows are present.
pub(crate) fn best_view_place<P: Preference>(
    preference: &P,
    array: &BinaryViewArray,
    present: Option<&Bitmap>,
) -> Option<usize>
    requires { HasBits (length (view_strings array.now)) (option_copied present) }
    ensures found { MatchOption result
        (NonePresent (rows_under (option_copied present.entry)
        (byte_slots (view_strings array.now))))
        (λ place. FindsBest P.rows
        (rows_under (option_copied present.entry) (byte_slots (view_strings array.now)))
        (string_row (view_strings array.now) place)) }
    ensures within { IfSome result (λ place. place < length (view_strings array.now)) }
{
    match first_present(present, array.count()) {
        Some(first) => Some(best_view_from(preference, array, present, first)),
        None => None,
    }
}

/// Returns the best present row by `preference`, borrowed from `array`, or `None` if no row is
/// present. `present` has a bit for each row, or is `None` if all rows are present.
#[tactic(auto, using(crate::proofs::Lent::lends))]
pub(crate) fn best_view<'a, P: Preference>(
    preference: &P,
    array: &'a BinaryViewArray,
    present: Option<&Bitmap>,
) -> Option<&'a [u8]>
    requires { HasBits (length (view_strings array.now)) (option_copied present) }
    ensures { MatchOption result
        (NonePresent (rows_under (option_copied present.entry)
        (byte_slots (view_strings array.now))))
        (λ bytes. FindsBest P.rows
        (rows_under (option_copied present.entry) (byte_slots (view_strings array.now)))
        (Bytes bytes.now)) }
{
    match best_view_place(preference, array, present) {
        Some(place) => Some(array.value(place)),
        None => None,
    }
}
