//! Offsets of byte strings: counts and checks rows, and finds the bytes of a row.

ghost use Rattle.std.specs.Prelude.{◌≡◌, ◌+◌, ◌<◌, ◌≤◌, ◌↔◌, IsTrue, length, take};
ghost use Rattle.std.specs.Option.{MatchOption};
ghost use Rattle.polars_arrays_bytes.specs.Faults.{IsFirstBad};
ghost use Rattle.polars_arrays_bytes.specs.OffsetStrings.{AreGood, AreRising, between, Bounds};
ghost use Rattle.polars_arrays_bytes.specs.OffsetStrings.{IsGoodRow, IsWithin, place_at, places};
ghost use Rattle.polars_arrays_bytes.specs.OffsetStrings.{row_count, string_between};
ghost use Rattle.polars_arrays_flat.specs.Validity.{window};
ghost use Rattle.polars_arrays_numbers.specs.Naturals.{natural_of};

use polars_arrays_bits::buffer::Buffer;
use polars_arrays_numbers::offset::Offset;

/// Returns the number of rows: one less than the number of offsets, or 0 if there are no offsets.
pub fn row_count<O: Offset>(offsets: &[O]) -> usize
    ensures { result ≡ row_count offsets.now }
{
    offsets.len().saturating_sub(1)
}

/// Returns the first row `i` for which `0 <= offsets[i] <= offsets[i + 1] <= n` does not hold. `n`
/// is the number of bytes. Returns 0 also if there are no offsets, or if the only one is not in
/// `0..=n`. Otherwise returns `None`.
#[tactic(auto, using(crate::proofs::OffsetWindows::faults))]
pub fn first_bad_row<O: Offset>(offsets: &[O], n: usize) -> Option<usize>
    ensures { MatchOption result (AreGood n (places O.value offsets.now))
        (IsFirstBad n (places O.value offsets.now)) }
{
    if !starts_within(offsets, n) {
        return Some(0);
    }
    if ends_within(offsets, n) && are_rising(offsets) {
        return None;
    }
    for row in 0..row_count(offsets) {
        if !is_good_row(offsets, n, row) {
            return Some(row);
        }
    }
    None
}

// Returns whether there are offsets, and the first one is in `0..=n`.
fn starts_within<O: Offset>(offsets: &[O], n: usize) -> bool
    ensures { IsTrue result ↔ IsWithin n (place_at (places O.value offsets.now) 0) }
{
    match offsets.first() {
        Some(first) => is_within(*first, n),
        None => false,
    }
}

// Returns whether there are offsets, and the last one is in `0..=n`.
fn ends_within<O: Offset>(offsets: &[O], n: usize) -> bool
    ensures { IsTrue result
        → IsWithin n (place_at (places O.value offsets.now) (row_count offsets.now)) }
{
    match offsets.last() {
        Some(last) => is_within(*last, n),
        None => false,
    }
}

// Returns whether no offset is less than the one before it. The loop's body has no branch.
fn are_rising<O: Offset>(offsets: &[O]) -> bool
    ensures { IsTrue result → AreRising O.value offsets.now }
{
    let mut rising = true;
    for row in 0..row_count(offsets) {
        rising &= offsets[row] <= offsets[row + 1];
    }
    rising
}

// Returns whether an offset is in `0..=n`.
fn is_within<O: Offset>(offset: O, n: usize) -> bool
    ensures { IsTrue result ↔ IsWithin n (natural_of (O.value offset)) }
{
    match offset.to_place() {
        Some(at) => at <= n,
        None => false,
    }
}

// Returns whether row `row` is good for `n` bytes: `0 <= offsets[row] <= offsets[row + 1] <= n`.
fn is_good_row<O: Offset>(offsets: &[O], n: usize, row: usize) -> bool
    requires { row + 1 < length offsets.now }
    ensures { IsTrue result ↔ IsGoodRow n (places O.value offsets.now) row }
{
    bounds(offsets[row], offsets[row + 1], n)
}

// Returns whether `0 <= from <= to <= n`.
fn bounds<O: Offset>(from: O, to: O, n: usize) -> bool
    ensures { IsTrue result ↔ Bounds n (natural_of (O.value from)) (natural_of (O.value to)) }
{
    match (from.to_place(), to.to_place()) {
        (Some(from), Some(to)) => from <= to && to <= n,
        _ => false,
    }
}

// Returns the bytes of row `i`, a slice of `values`.
#[inline]
pub(crate) fn string_at<'a, O: Offset>(offsets: &[O], values: &'a [u8], i: usize) -> &'a [u8]
    requires row { i < row_count offsets.now }
    requires good { IsGoodRow (length values.now) (places O.value offsets.now) i }
    ensures { result.now ≡ string_between (places O.value offsets.now) values.now i }
{
    let (from, to) = (offsets[i].place(), offsets[i + 1].place());
    &values[from..to]
}

// Returns the bytes from the first one of row `i` to the end of `values`, and the length of row
// `i`.
#[inline(always)]
pub(crate) fn string_on<'a, O: Offset>(
    offsets: &[O],
    values: &'a [u8],
    i: usize,
) -> (&'a [u8], usize)
    requires row { i < row_count offsets.now }
    requires good { IsGoodRow (length values.now) (places O.value offsets.now) i }
    ensures within { result.1 ≤ length result.0.now }
    ensures string { take result.1 result.0.now
        ≡ string_between (places O.value offsets.now) values.now i }
{
    let (from, to) = (offsets[i].place(), offsets[i + 1].place());
    (&values[from..], to - from)
}

/// Slices the offsets in place: only the `n + 1` offsets of the `n` rows from row `at` on remain.
pub fn keep_rows<O: Offset>(offsets: &mut Buffer<O>, at: usize, n: usize)
    requires { at + n < length offsets.old.items }
    ensures { offsets.new
        ≡ record { items = window at (n + 1) offsets.old.items; owned = offsets.old.owned } }
{
    // Has no effect at run time. The proof learns from it that `n + 1` fits in a `usize`.
    let _len = offsets.len();
    offsets.slice(at, n + 1);
}
