//! Comparisons of stored rows, whatever the validity. A COMPARISON is one of `named_comparisons`.
//! The result BITS has a bit for each pair of rows, or for each row: 1 if the comparison holds.
//!
//! - `compare_truth_windows COMPARISON A a B b n`, and in the same form `compare_byte_windows` and
//!   `compare_sized_windows`: BITS for two windows
//! - `compare_view_windows COMPARISON A a B b n`: `BITS in N` for two windows, where N is the
//!   number of pairs looked up in buffers
//! - `compare_truth COMPARISON A TRUTH`: BITS for the rows of A and a constant
//! - `compare_bytes COMPARISON A BYTES`, `compare_view_bytes COMPARISON A BYTES`: BITS for the rows
//!   of A and a constant
//!
//! A window is `n` rows from row `a` on of A, and from row `b` on of B.

ghost use Rattle.recorded_text.specs.Cases.{HasGoodArrays};
ghost use Rattle.recorded_kernels.specs.Windows.{AreWindows};

use crate::counters::lent_counter;
use crate::named_comparisons::Compared;
use crate::named_kinds::{of_kind, of_one_kind};
use crate::operands::{read_next_bytes, read_truth};
use crate::view_rows::{as_views, write_followed};
use crate::windows::{Windows, is_within, read_windows};
use polars_arrays_flat::array::Array;
use polars_arrays_flat::byte_rows::ByteRows;
use polars_arrays_nested::any_array::AnyArray;
use polars_compare_leaves::booleans::{TruthComparison, compare_truth, compare_truth_windows};
use polars_compare_leaves::bytes::{ByteComparison, compare_byte_windows, compare_bytes};
use polars_compare_leaves::sized::compare_sized_windows;
use polars_compare_leaves::view_comparison::ViewComparison;
use polars_compare_leaves::view_windows::{compare_view_bytes, compare_view_windows};
use recorded_text::bits_text::write_made;
use recorded_text::fault::Fault;
use recorded_text::store::Store;
use recorded_text::words::Words;
use std::alloc::Global;

/// Reads two windows, and compares their stored rows. `compared` selects the kind of the arrays.
/// Returns the text of the bits, and for views also the number of pairs looked up in buffers. The
/// error is `Case` if the arrays are of another kind, or a window is out of range.
pub fn ask_windows<C: TruthComparison + ByteComparison + ViewComparison>(
    alloc: Global,
    comparison: &C,
    compared: Compared,
    store: &Store,
    words: &mut Words,
) -> Result<String, Fault>
    requires { HasGoodArrays store.now }
{
    let windows = read_windows(store, words)?;
    match compared {
        Compared::TruthWindows => truth_windows(alloc, comparison, windows),
        Compared::StringWindows => string_windows(alloc, comparison, windows),
        Compared::SizedWindows => sized_windows(alloc, comparison, windows),
        _ => view_windows(alloc, comparison, windows),
    }
}

// Returns the text of the bits that compare the stored truth values of two windows. The error is
// `Case` if the arrays are not both of kind `Boolean`.
fn truth_windows<C: TruthComparison>(
    alloc: Global,
    comparison: &C,
    windows: Windows,
) -> Result<String, Fault>
    requires { AreWindows windows }
{
    let Windows {
        left,
        a,
        right,
        b,
        n,
    } = windows;
    let (AnyArray::Boolean(left), AnyArray::Boolean(right)) = (left, right) else {
        return Err(Fault::Case);
    };
    write_made(
        alloc,
        compare_truth_windows(alloc, comparison, left, a, right, b, n),
    )
}

// Returns the text of the bits that compare the stored byte strings of two windows. The arrays must
// be of one kind that holds byte strings or texts, or the left of kind `Binary` and the right of
// kind `Utf8View`. Otherwise, or if a window is out of range, the error is `Case`.
fn string_windows<C: ByteComparison>(
    alloc: Global,
    comparison: &C,
    windows: Windows,
) -> Result<String, Fault> {
    match (windows.left, windows.right) {
        (AnyArray::Binary(left), AnyArray::Utf8View(right)) => {
            strings(alloc, comparison, left, right, windows)
        }
        (left, right) => {
            of_one_kind!(left, right,
                left, right => strings(alloc, comparison, left, right, windows),
                Binary LargeBinary Utf8 LargeUtf8 BinaryView Utf8View FixedSizeBinary)
        }
    }
}

// Returns the text of the bits that compare the byte strings of `left` and `right` in the two
// windows. The error is `Case` if a window is out of range.
fn strings<L: ByteRows, R: ByteRows, C: ByteComparison>(
    alloc: Global,
    comparison: &C,
    left: &L,
    right: &R,
    windows: Windows,
) -> Result<String, Fault> {
    let Windows { a, b, n, .. } = windows;
    if !is_within(a, n, left.count()) || !is_within(b, n, right.count()) {
        return Err(Fault::Case);
    }
    write_made(
        alloc,
        compare_byte_windows(alloc, comparison, left, a, right, b, n),
    )
}

// Returns the text of the bits that compare the stored rows of windows of two `FixedSizeBinary`
// arrays. The error is `Case` if an array is of another kind, or a window is out of range.
fn sized_windows<C: ByteComparison>(
    alloc: Global,
    comparison: &C,
    windows: Windows,
) -> Result<String, Fault> {
    let Windows {
        left,
        a,
        right,
        b,
        n,
    } = windows;
    let (AnyArray::FixedSizeBinary(left), AnyArray::FixedSizeBinary(right)) = (left, right) else {
        return Err(Fault::Case);
    };
    if !is_within(a, n, left.count()) || !is_within(b, n, right.count()) {
        return Err(Fault::Case);
    }
    write_made(
        alloc,
        compare_sized_windows(alloc, comparison, left, a, right, b, n),
    )
}

// Returns the text of the bits that compare the stored rows of windows of two arrays of views, and
// the number of pairs looked up in buffers. The error is `Case` if an array is of another kind, or
// a window is out of range.
fn view_windows<C: ViewComparison>(
    alloc: Global,
    comparison: &C,
    windows: Windows,
) -> Result<String, Fault> {
    let Windows { a, b, n, .. } = windows;
    let left = as_views(windows.left)?;
    let right = as_views(windows.right)?;
    if !is_within(a, n, left.len()) || !is_within(b, n, right.len()) {
        return Err(Fault::Case);
    }
    let mut steps = lent_counter();
    let bits = compare_view_windows(alloc, comparison, left, a, right, b, n, &mut steps);
    write_followed(alloc, bits, &steps)
}

/// Reads the name of an array and a constant, and returns the text of the bits that compare each
/// stored row with the constant. The error is `Case` if the array's kind does not fit `compared`.
pub fn ask_constant<C: TruthComparison + ByteComparison + ViewComparison>(
    alloc: Global,
    comparison: &C,
    compared: Compared,
    store: &Store,
    words: &mut Words,
) -> Result<String, Fault>
    requires { HasGoodArrays store.now }
{
    let array = store.read(words)?;
    match (compared, array) {
        (Compared::Truths, AnyArray::Boolean(truths)) => {
            write_made(
                alloc,
                compare_truth(alloc, comparison, truths, read_truth(words)?),
            )
        }
        (Compared::Strings, _) => strings_beside(alloc, comparison, array, words),
        (Compared::Views, _) => views_beside(alloc, comparison, array, words),
        _ => Err(Fault::Case),
    }
}

// Reads a byte string from the next word, and returns the text of the bits that compare each stored
// byte string or text of `array` with it. The error is `Case` if `array` is of another kind.
fn strings_beside<C: ByteComparison>(
    alloc: Global,
    comparison: &C,
    array: &AnyArray,
    words: &mut Words,
) -> Result<String, Fault> {
    let bytes = read_next_bytes(alloc, words)?;
    passing_strings(alloc, comparison, array, &bytes)
}

// Returns the text of the bits that compare each stored byte string or text of `array` with
// `bytes`. The error is `Case` if `array` is of another kind.
fn passing_strings<C: ByteComparison>(
    alloc: Global,
    comparison: &C,
    array: &AnyArray,
    bytes: &[u8],
) -> Result<String, Fault> {
    of_kind!(array, strings => write_made(alloc, compare_bytes(alloc, comparison, strings, bytes)),
        Binary LargeBinary Utf8 LargeUtf8 BinaryView Utf8View FixedSizeBinary)
}

// Reads a byte string from the next word, and returns the text of the bits that compare each stored
// row of `array`, an array of views, with it. The error is `Case` if `array` is of another kind.
fn views_beside<C: ViewComparison>(
    alloc: Global,
    comparison: &C,
    array: &AnyArray,
    words: &mut Words,
) -> Result<String, Fault> {
    let views = as_views(array)?;
    let bytes = read_next_bytes(alloc, words)?;
    write_made(alloc, compare_view_bytes(alloc, comparison, views, &bytes))
}
