//! Calls on single rows of arrays of views, and of kernels that count the pairs of rows looked up
//! in buffers. If the index of a row is out of range, the error is `Case`.
//!
//! - `rows_equal A i B j`, `row_less A i B j`: `TRUTH in N`, where N is the number of pairs looked
//!   up in buffers
//! - `row_equals_bytes A i BYTES`, `row_less_bytes A i BYTES`, `bytes_less_row BYTES A i`: a truth
//!   value
//! - `view_comparison COMPARISON A i B j`: `TRUTH in N`, for a comparison of `named_comparisons`
//! - `view_comparison_bytes COMPARISON A i BYTES`: a truth value
//! - `tot_eq_kernel_followed A B`, `tot_lt_kernel_followed A B`: `BITS in N`. Masked rows are
//!   compared by their stored values
//! - `followed A B`: the number N of `tot_eq_kernel_followed`, and that of
//!   `tot_lt_kernel_followed`, separated by a space
//! - `scalar_row_len BYTES`, `scalar_row_bytes BYTES`, `scalar_row_prefix BYTES`: the length, the
//!   bytes, or the prefix of the view of a byte string that is prepared as a `ScalarRow`

ghost use Rattle.std.specs.Prelude.{◌≡◌, ◌<◌, length, IfOk};
ghost use Rattle.recorded_text.specs.Cases.{HasGoodArrays};

use crate::counters::{add_count, lent_counter};
use crate::named_kinds::of_one_kind;
use crate::operands::{read_next_bytes, read_two, write_truth};
use polars_arrays_bits::bitmap::Bitmap;
use polars_arrays_bits::error::ComputeError;
use polars_arrays_nested::any_array::AnyArray;
use polars_arrays_numbers::steps::Steps;
use polars_arrays_views::binary_view::BinaryViewArray;
use polars_arrays_views::rows::{
    bytes_less_row, row_equals_bytes, row_less, row_less_bytes, rows_equal,
};
use polars_arrays_views::scalar::ScalarRow;
use polars_compare_leaves::followed::FollowedKernel;
use polars_compare_leaves::view_comparison::ViewComparison;
use recorded_text::bits_text::write_made;
use recorded_text::bytes_text::write_bytes;
use recorded_text::fault::Fault;
use recorded_text::store::Store;
use recorded_text::words::Words;
use std::alloc::Global;

/// A call on rows of arrays of views, or on a prepared byte string. The comment above a group of
/// variants gives their operands.
#[derive(Clone, Copy)]
pub enum Asked {
    /// Two rows.
    Equal,
    Less,
    /// A row and a byte string.
    EqualsBytes,
    LessThanBytes,
    GreaterThanBytes,
    /// All rows of two arrays.
    EqualRows,
    LessRows,
    Followed,
    /// A prepared byte string.
    ScalarLen,
    ScalarBytes,
    ScalarPrefix,
}

/// Returns the text of the result of the call `asked`, with the operands that `words` give.
pub fn ask(alloc: Global, asked: Asked, store: &Store, words: &mut Words) -> Result<String, Fault>
    requires { HasGoodArrays store.now }
{
    match asked {
        Asked::Equal | Asked::Less => two_rows(alloc, asked, store, words),
        Asked::EqualsBytes | Asked::LessThanBytes => row_and_bytes(alloc, asked, store, words),
        Asked::GreaterThanBytes => bytes_and_row(alloc, store, words),
        Asked::EqualRows | Asked::LessRows | Asked::Followed => all_rows(
            alloc, asked, store, words,
        ),
        Asked::ScalarLen | Asked::ScalarBytes | Asked::ScalarPrefix => scalar(alloc, asked, words),
    }
}

/// Returns the views inside `array`, an array of byte strings (`BinaryView`) or of texts
/// (`Utf8View`). The error is `Case` if `array` is of another kind.
pub fn as_views(array: &AnyArray) -> Result<&BinaryViewArray, Fault> {
    match array {
        AnyArray::BinaryView(views) => Ok(views),
        AnyArray::Utf8View(texts) => Ok(texts.as_binview()),
        _ => Err(Fault::Case),
    }
}

// Reads the name of an array of views, and the index of a row. The error is `Case` if the array is
// of another kind or the index is out of range.
fn read_row<'a>(store: &'a Store, words: &mut Words) -> Result<(&'a BinaryViewArray, usize), Fault>
    requires { HasGoodArrays store.now }
    ensures { IfOk result (λ row. row.1 < length row.0.now.views) }
{
    let views = as_views(store.read(words)?)?;
    let row = words.read_number()?;
    if row < views.views().len() {
        Ok((views, row))
    } else {
        Err(Fault::Case)
    }
}

// Returns the text `TRUTH in N`, where N is the count of `steps`, a counter that began at 0.
fn write_counted(alloc: Global, truth: bool, steps: &Steps) -> Result<String, Fault> {
    Ok(format!(in alloc; "{truth} in {}", steps.seen())?)
}

/// Returns the text `BITS in N`, where N is the increase of `steps`, a counter that `lent_counter`
/// created. If `bits` is an error, converts it to a `Fault`.
pub fn write_followed(
    alloc: Global,
    bits: Result<Bitmap, ComputeError>,
    steps: &Steps,
) -> Result<String, Fault> {
    add_count(write_made(alloc, bits), steps.seen(), "")
}

// Reads two rows, and returns the text that says whether they are equal, or for `Less`, whether the
// first is less, with the number of pairs looked up.
fn two_rows(alloc: Global, asked: Asked, store: &Store, words: &mut Words) -> Result<String, Fault>
    requires { HasGoodArrays store.now }
{
    let (left, i) = read_row(store, words)?;
    let (right, j) = read_row(store, words)?;
    let mut steps = Steps::new();
    let truth = match asked {
        Asked::Equal => rows_equal(left, i, right, j, &mut steps),
        _ => row_less(left, i, right, j, &mut steps),
    };
    write_counted(alloc, truth, &steps)
}

/// Reads two rows, and returns the text that says whether `comparison` holds for them, with the
/// number of pairs looked up in buffers.
pub fn compare_two<C: ViewComparison>(
    alloc: Global,
    comparison: &C,
    store: &Store,
    words: &mut Words,
) -> Result<String, Fault>
    requires { HasGoodArrays store.now }
{
    let (left, i) = read_row(store, words)?;
    let (right, j) = read_row(store, words)?;
    let mut steps = Steps::new();
    let passes = comparison.compare(left, i, right, j, &mut steps);
    write_counted(alloc, passes, &steps)
}

// Reads a row and a byte string. Returns the text that says whether they are equal, or for
// `LessThanBytes`, whether the row is less.
fn row_and_bytes(
    alloc: Global,
    asked: Asked,
    store: &Store,
    words: &mut Words,
) -> Result<String, Fault>
    requires { HasGoodArrays store.now }
{
    let (views, i) = read_row(store, words)?;
    let bytes = read_next_bytes(alloc, words)?;
    let scalar = ScalarRow::new(&bytes);
    let truth = match asked {
        Asked::EqualsBytes => row_equals_bytes(views, i, &scalar),
        _ => row_less_bytes(views, i, &scalar),
    };
    write_truth(alloc, truth)
}

// Reads a byte string and a row, and returns the text that says whether the string is less than the
// row.
fn bytes_and_row(alloc: Global, store: &Store, words: &mut Words) -> Result<String, Fault>
    requires { HasGoodArrays store.now }
{
    let bytes = read_next_bytes(alloc, words)?;
    let (views, i) = read_row(store, words)?;
    let less = bytes_less_row(&ScalarRow::new(&bytes), views, i);
    write_truth(alloc, less)
}

/// Reads a row and a byte string, and returns the text that says whether `comparison` holds.
pub fn compare_with_bytes<C: ViewComparison>(
    alloc: Global,
    comparison: &C,
    store: &Store,
    words: &mut Words,
) -> Result<String, Fault>
    requires { HasGoodArrays store.now }
{
    let (views, i) = read_row(store, words)?;
    let bytes = read_next_bytes(alloc, words)?;
    let passes = comparison.compare_bytes(views, i, &ScalarRow::new(&bytes));
    write_truth(alloc, passes)
}

// Reads the names of two arrays of views, and returns the text of the result of `asked` for all
// their rows. The error is `Case` if the arrays are not both of kind `BinaryView` or both of kind
// `Utf8View`, or if their lengths differ.
fn all_rows(alloc: Global, asked: Asked, store: &Store, words: &mut Words) -> Result<String, Fault>
    requires { HasGoodArrays store.now }
{
    let (these, those) = read_two(store, words)?;
    of_one_kind!(these, those, left, right => rows_followed(alloc, asked, left, right),
        BinaryView Utf8View)
}

// Returns the text of a bit for each index, and of the number of pairs looked up. A bit says
// whether the two stored rows are equal, or for `LessRows`, whether the left one is less. For
// `Followed`, returns the two numbers of `pairs_followed`. The error is `Case` if the lengths
// differ.
fn rows_followed<A: FollowedKernel>(
    alloc: Global,
    asked: Asked,
    left: &A,
    right: &A,
) -> Result<String, Fault> {
    if left.count() != right.count() {
        return Err(Fault::Case);
    }
    let mut steps = lent_counter();
    let bits = match asked {
        Asked::EqualRows => left.tot_eq_kernel_followed(alloc, right, &mut steps),
        Asked::LessRows => left.tot_lt_kernel_followed(alloc, right, &mut steps),
        _ => return pairs_followed(alloc, left, right),
    };
    write_followed(alloc, bits, &steps)
}

// Returns the text of two numbers: the pairs of rows looked up by equality, and by order.
fn pairs_followed<A: FollowedKernel>(alloc: Global, left: &A, right: &A) -> Result<String, Fault>
    requires { length (A.strings right.now) ≡ length (A.strings left.now) }
{
    let mut equal = Steps::new();
    left.tot_eq_kernel_followed(alloc, right, &mut equal)?;
    let mut less = Steps::new();
    left.tot_lt_kernel_followed(alloc, right, &mut less)?;
    Ok(format!(in alloc; "{} {}", equal.seen(), less.seen())?)
}

// Reads a byte string, prepares it as a `ScalarRow`, and returns the text of the part that `asked`
// names.
fn scalar(alloc: Global, asked: Asked, words: &mut Words) -> Result<String, Fault> {
    let bytes = read_next_bytes(alloc, words)?;
    write_scalar(alloc, asked, &ScalarRow::new(&bytes))
}

// Returns the text of the length of `scalar`, of its bytes, or of the prefix of its view as a
// big-endian number. `asked` says which.
fn write_scalar(alloc: Global, asked: Asked, scalar: &ScalarRow<'_>) -> Result<String, Fault> {
    match asked {
        Asked::ScalarLen => Ok(scalar.len().to_string(alloc)?),
        Asked::ScalarBytes => write_bytes(alloc, scalar.bytes()),
        _ => Ok(scalar.view().prefix().to_string(alloc)?),
    }
}
