//! Searches for the best present byte string of an array: the least or the greatest one.

ghost use Rattle.std.specs.Prelude.{◌≡◌, ◌<◌, ℕ, true, false, length, IfSome, MatchOption};
ghost use Rattle.std.specs.Option.{option_copied};
ghost use Rattle.polars_arrays_flat.specs.Row.{Bytes};
ghost use Rattle.polars_arrays_flat.specs.StoredRows.{byte_slots, rows_under};
ghost use Rattle.polars_arrays_flat.specs.Validity.{HasBits, is_present};
ghost use Rattle.polars_compare_extremes.specs.Extremes.{FindsBest, IsBest, NonePresent};
ghost use Rattle.polars_compare_extremes.specs.Places.{IsBestSlot, IsFirstPresent, string_row};

use crate::preference::Preference;
use polars_arrays_bits::bitmap::Bitmap;
use polars_arrays_flat::byte_rows::ByteRows;
use polars_arrays_flat::validity::is_present;

// Returns the index of the first present row among `n` rows, or `None` if no row is present.
// `present` has a bit for each row, or is `None` if all rows are present.
pub(crate) fn first_present(present: Option<&Bitmap>, n: usize) -> Option<usize>
    requires { HasBits n (option_copied present) }
    ensures { MatchOption result
        ((k : ℕ) → k < n → is_present (option_copied present.entry) k ≡ false)
        (IsFirstPresent n (option_copied present.entry)) }
{
    for i in 0..n {
        if is_present(present, i) {
            return Some(i);
        }
    }
    None
}

// Returns the index of the best present byte string of `rows` by `preference`. If several are
// equally good, returns the index of the first of them. `present` has a bit for each row, or is
// `None` if all rows are present. `first` is the index of the first present row.
fn best_from<P: Preference, R: ByteRows>(
    preference: &P,
    rows: &R,
    present: Option<&Bitmap>,
    first: usize,
) -> usize
    requires bits { HasBits (length (R.strings rows.now)) (option_copied present) }
    requires first { IsFirstPresent (length (R.strings rows.now)) (option_copied present) first }
    ensures { IsBestSlot P.rows (string_row (R.strings rows.now)) (option_copied present.entry)
        (length (R.strings rows.now)) result }
{
    let n = rows.count();
    let mut place = first;
    let mut best = rows.bytes(first);
    for i in first + 1..n {
        let bytes = rows.bytes(i);
        if is_present(present, i) && preference.is_better(bytes, best) {
            place = i;
            best = bytes;
        }
    }
    place
}

/// Returns the index of the best present byte string of `rows` by `preference`, or `None` if no row
/// is present. If several are equally good, returns the index of the first of them. `present` has a
/// bit for each row, or is `None` if all rows are present.
pub fn best_place<P: Preference, R: ByteRows>(
    preference: &P,
    rows: &R,
    present: Option<&Bitmap>,
) -> Option<usize>
    requires { HasBits (length (R.strings rows.now)) (option_copied present) }
    ensures best { MatchOption result
        (NonePresent (rows_under (option_copied present.entry) (byte_slots (R.strings rows.now))))
        (IsBest P.rows
        (rows_under (option_copied present.entry) (byte_slots (R.strings rows.now)))) }
    ensures within { IfSome result (λ place. place < length (R.strings rows.now)) }
    ensures found { IfSome result
        (λ place. FindsBest P.rows
        (rows_under (option_copied present.entry) (byte_slots (R.strings rows.now)))
        (string_row (R.strings rows.now) place)) }
{
    match first_present(present, rows.count()) {
        Some(first) => Some(best_from(preference, rows, present, first)),
        None => None,
    }
}

/// Returns the best present byte string by `preference`, borrowed from `rows`, or `None` if no row
/// is present. `present` has a bit for each row, or is `None` if all rows are present.
pub fn best_string<'a, P: Preference, R: ByteRows>(
    preference: &P,
    rows: &'a R,
    present: Option<&Bitmap>,
) -> Option<&'a [u8]>
    requires { HasBits (length (R.strings rows.now)) (option_copied present) }
    ensures { MatchOption result
        (NonePresent (rows_under (option_copied present.entry) (byte_slots (R.strings rows.now))))
        (λ bytes. FindsBest P.rows
        (rows_under (option_copied present.entry) (byte_slots (R.strings rows.now)))
        (Bytes bytes.now)) }
{
    match best_place(preference, rows, present) {
        Some(place) => Some(rows.bytes(place)),
        None => None,
    }
}
