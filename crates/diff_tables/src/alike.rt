//! Finds the pairs of rows that may differ. The lengths of all strings of two rows are compared,
//! and then all their bytes at once. Most pairs of rows are equal, and need no other comparison.

ghost use Rattle.std.specs.Prelude.{◌≡◌, ◌+◌, ◌<◌, ◌≤◌, true, length, IfOk, OnOk};
ghost use Rattle.polars_arrays_bytes.specs.OffsetStrings.{offset_strings};
ghost use Rattle.polars_arrays_flat.specs.Validity.{window};
ghost use Rattle.diff_tables.specs.Alike.{AreAsLong, AreSameCells, ListsAllBut, NameRowsOf};
ghost use Rattle.diff_tables.specs.Alike.{TellLengths, all_bytes};

use diff_keys::blocks::block_end;
use polars_arrays_bytes::binary::BinaryArray;
use polars_arrays_flat::byte_rows::ByteRows;
use polars_arrays_numbers::offset::Offset;
use std::alloc::{AllocError, Global};

/// Returns the bytes of `n` adjacent strings, from string `at` on.
fn bytes_from<O: Offset>(array: &BinaryArray<O>, at: usize, n: usize) -> &[u8]
    requires { at + n ≤ length (offset_strings O.value array.now) }
    ensures { result.now ≡ all_bytes (window at n (offset_strings O.value array.now)) }
{
    // The sum below is at most this count, so it doesn't overflow a `usize`.
    let _count = array.count();
    let ends = array.offsets();
    let (from, to) = (ends[at].place(), ends[at + n].place());
    &array.values()[from..to]
}

/// Returns whether the `n` strings from `at` on in `left` have the same lengths, one by one, as the
/// `n` strings from `from` on in `right`.
fn are_as_long<L: ByteRows, R: ByteRows>(
    left: &L,
    at: usize,
    right: &R,
    from: usize,
    n: usize,
) -> bool
    requires left { at + n ≤ length (L.strings left.now) }
    requires right { from + n ≤ length (R.strings right.now) }
    ensures { result ≡ true → AreAsLong n at (L.strings left.now) from (R.strings right.now) }
{
    // The indices below are less than these counts, so they don't overflow a `usize`.
    let (_left, _right) = (left.count(), right.count());
    for c in 0..n {
        if left.bytes(at + c).len() != right.bytes(from + c).len() {
            return false;
        }
    }
    true
}

/// Returns whether the `n` strings from `at` on in `left` have the same lengths and the same bytes
/// as the `n` strings from `from` on in `right`. `as_long` is the result of `are_as_long` for these
/// strings.
fn are_alike<L: Offset, R: Offset>(
    left: &BinaryArray<L>,
    at: usize,
    right: &BinaryArray<R>,
    from: usize,
    n: usize,
    as_long: bool,
) -> bool
    requires left { at + n ≤ length (offset_strings L.value left.now) }
    requires right { from + n ≤ length (offset_strings R.value right.now) }
    requires as_long { as_long ≡ true
        → AreAsLong n at (offset_strings L.value left.now) from (offset_strings R.value right.now) }
    ensures { result ≡ true → window at n (offset_strings L.value left.now)
        ≡ window from n (offset_strings R.value right.now) }
{
    if !as_long {
        return false;
    }
    bytes_from(left, at, n) == bytes_from(right, from, n)
}

/// Returns for each pair in `start..end` whether its two rows have strings of the same lengths,
/// column by column: element `p - start` is for pair `p`. Pair `p` is row `left_rows[p]` of `left`
/// and row `right_rows[p]` of `right`. A row is `width` adjacent strings.
fn lengths_agree<L: Offset, R: Offset>(
    alloc: Global,
    left: &BinaryArray<L>,
    left_rows: &[u32],
    right: &BinaryArray<R>,
    right_rows: &[u32],
    width: usize,
    start: usize,
    end: usize,
) -> Result<Vec<bool>, AllocError>
    requires one_length { length left_rows.now ≡ length right_rows.now }
    requires left { NameRowsOf width (offset_strings L.value left.now) left_rows.now }
    requires right { NameRowsOf width (offset_strings R.value right.now) right_rows.now }
    requires rise { start ≤ end }
    requires within { end ≤ length left_rows.now }
    ensures { IfOk result
        (λ flags. TellLengths width (offset_strings L.value left.now)
        (offset_strings R.value right.now) left_rows.now right_rows.now start end flags.items) }
{
    // The indices below are at most these counts, so they don't overflow a `usize`.
    let (_left, _right) = (left.count(), right.count());
    let (left, right) = (left.lent(), right.lent());
    let mut flags = Vec::with_capacity(alloc, end - start)?;
    for p in start..end {
        let at = width * left_rows[p] as usize;
        let from = width * right_rows[p] as usize;
        flags.push(are_as_long(&left, at, &right, from, width))?;
    }
    Ok(flags)
}

/// Appends to `places` the indices of the pairs in `start..end` whose two rows differ in the length
/// or in a byte of a string. Pair `p` is row `left_rows[p]` of `left` and row `right_rows[p]` of
/// `right`. A row is `width` adjacent strings. `as_long` is what `lengths_agree` returns for the
/// same arguments.
fn push_unlike<L: Offset, R: Offset>(
    places: &mut Vec<usize>,
    left: &BinaryArray<L>,
    left_rows: &[u32],
    right: &BinaryArray<R>,
    right_rows: &[u32],
    width: usize,
    start: usize,
    end: usize,
    as_long: &[bool],
) -> Result<(), AllocError>
    requires one_length { length left_rows.now ≡ length right_rows.now }
    requires left { NameRowsOf width (offset_strings L.value left.now) left_rows.now }
    requires right { NameRowsOf width (offset_strings R.value right.now) right_rows.now }
    requires rise { start ≤ end }
    requires within { end ≤ length left_rows.now }
    requires as_long { TellLengths width (offset_strings L.value left.now)
        (offset_strings R.value right.now) left_rows.now right_rows.now start end as_long.now }
    ensures { OnOk result
        (ListsAllBut
        (AreSameCells width (offset_strings L.value left.now) (offset_strings R.value right.now)
        left_rows.now right_rows.now) start places.old.items
        → ListsAllBut
        (AreSameCells width (offset_strings L.value left.now) (offset_strings R.value right.now)
        left_rows.now right_rows.now) end places.new.items) }
{
    // The indices below are at most these counts, so they don't overflow a `usize`.
    let (_left, _right) = (left.count(), right.count());
    for p in start..end {
        let at = width * left_rows[p] as usize;
        let from = width * right_rows[p] as usize;
        if !are_alike(left, at, right, from, width, as_long[p - start]) {
            places.push(p)?;
        }
    }
    Ok(())
}

/// Returns the indices of the pairs whose two rows differ in the length or in a byte of a string,
/// in ascending order. Pair `p` is row `left_rows[p]` of `left` and row `right_rows[p]` of `right`.
/// A row is `width` adjacent strings, and each is compared with the string of the other row in the
/// same column. The only error is a failed allocation.
pub(crate) fn unlike_pairs<L: Offset, R: Offset>(
    alloc: Global,
    left: &BinaryArray<L>,
    left_rows: &[u32],
    right: &BinaryArray<R>,
    right_rows: &[u32],
    width: usize,
) -> Result<Vec<usize>, AllocError>
    requires one_length { length left_rows.now ≡ length right_rows.now }
    requires left { NameRowsOf width (offset_strings L.value left.now) left_rows.now }
    requires right { NameRowsOf width (offset_strings R.value right.now) right_rows.now }
    ensures { IfOk result
        (λ places. ListsAllBut
        (AreSameCells width (offset_strings L.value left.now) (offset_strings R.value right.now)
        left_rows.now right_rows.now) (length left_rows.now) places.items) }
{
    let mut places = Vec::new(alloc);
    let mut start = 0;
    // The offsets of a whole block are read before its bytes. The reads don't depend on each other,
    // so the processor can wait for many of them at once.
    while start < left_rows.len() {
        let end = block_end(start, left_rows.len());
        let as_long = lengths_agree(alloc, left, left_rows, right, right_rows, width, start, end)?;
        push_unlike(
            &mut places,
            left,
            left_rows,
            right,
            right_rows,
            width,
            start,
            end,
            &as_long,
        )?;
        start = end;
    }
    Ok(places)
}
