//! Finds the least and the greatest number. All numbers must be in JSON syntax, with exponents of
//! at most 30 digits (`IsNarrow`).

ghost use Rattle.std.specs.List.{All};
ghost use Rattle.std.specs.Prelude.{◌≡◌, ◌<◌, false, length, get_or, [], if◌then◌else◌};
ghost use Rattle.polars_arrays_bytes.specs.OffsetStrings.{offset_strings};
ghost use Rattle.schema_values.specs.Numbers.{IsBestPlace, IsNarrow, better};

use diff_numbers::cells::number_in;
use json_tolerances::order::is_less;
use polars_arrays_bytes::binary::BinaryArray;
use polars_arrays_flat::byte_rows::ByteRows;

/// Returns whether the number `left` is less than the number `right`.
fn is_number_less(left: &[u8], right: &[u8]) -> bool
    requires left { IsNarrow left.now }
    requires right { IsNarrow right.now }
    ensures { result ≡ better false left.now right.now }
{
    let Some(first) = number_in(left) else {
        unreachable!()
    };
    let Some(second) = number_in(right) else {
        unreachable!()
    };
    match is_less(first, second) {
        Ok(answer) => answer,
        Err(_) => unreachable!(),
    }
}

/// Returns whether the number `left` is less than `right`, or greater if `greatest` is set.
fn is_better(greatest: bool, left: &[u8], right: &[u8]) -> bool
    requires left { IsNarrow left.now }
    requires right { IsNarrow right.now }
    ensures { result ≡ better greatest left.now right.now }
{
    if greatest {
        is_number_less(right, left)
    } else {
        is_number_less(left, right)
    }
}

/// Returns `other` if the number in the cell at index `other` is better (see `is_better`) than the
/// number in the cell at index `best`, and else `best`.
fn better_place(cells: &BinaryArray<i64>, greatest: bool, best: usize, other: usize) -> usize
    requires all { All IsNarrow (offset_strings (λ x. x) cells.now) }
    requires best { best < length (offset_strings (λ x. x) cells.now) }
    requires other { other < length (offset_strings (λ x. x) cells.now) }
    ensures { result
        ≡ (if better greatest (get_or (offset_strings (λ x. x) cells.now) other [])
        (get_or (offset_strings (λ x. x) cells.now) best []) then other else best) }
{
    if is_better(greatest, cells.bytes(other), cells.bytes(best)) {
        other
    } else {
        best
    }
}

/// Returns the index of the cell with the least number, or with the greatest if `greatest` is set.
/// If several cells have this value, returns the first index. There must be at least one cell.
pub(crate) fn best_place(cells: &BinaryArray<i64>, greatest: bool) -> usize
    requires all { All IsNarrow (offset_strings (λ x. x) cells.now) }
    requires some { 0 < length (offset_strings (λ x. x) cells.now) }
    ensures { IsBestPlace (better greatest) (offset_strings (λ x. x) cells.now)
        (length (offset_strings (λ x. x) cells.now)) result }
{
    let mut best = 0;
    for i in 1..cells.count() {
        best = better_place(cells, greatest, best, i);
    }
    best
}
