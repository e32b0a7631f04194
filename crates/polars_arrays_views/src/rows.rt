//! Compares single rows for equality and order. Null rows are compared too, by their stored bytes.

ghost use Rattle.std.specs.Prelude.{◌≡◌, ◌<◌, ◌+◌, ℕ, List, [], IsTrue, if◌then◌else◌, length};
ghost use Rattle.std.specs.Prelude.{slice_index_or, false};
ghost use Rattle.std.specs.Str.{bytes_eq};
ghost use Rattle.polars_arrays_flat.specs.ByteOrder.{bytes_lt};
ghost use Rattle.polars_arrays_views.specs.Parts.{view_strings};
ghost use Rattle.polars_arrays_views.specs.Views.{GoodView, is_short, row_bytes, followed_eq};
ghost use Rattle.polars_arrays_views.specs.Views.{followed_lt};

use crate::binary_view::BinaryViewArray;
use crate::scalar::ScalarRow;
use crate::view::View;
use polars_arrays_flat::byte_order::bytes_less;
use polars_arrays_numbers::steps::Steps;

/// Returns whether row `i` of `left` and row `j` of `right` have equal bytes. Adds 1 to `steps` if
/// it reads the buffers: if both rows have the same length, above 12 bytes, and the same prefix.
#[inline]
pub fn rows_equal(
    left: &BinaryViewArray,
    i: usize,
    right: &BinaryViewArray,
    j: usize,
    steps: &mut Steps,
) -> bool
    requires left { i < length left.now.views }
    requires right { j < length right.now.views }
    ensures same { result
        ≡ bytes_eq (slice_index_or (view_strings left.now) i [])
        (slice_index_or (view_strings right.now) j []) }
    ensures counted { steps.new
        ≡ steps.old + (if followed_eq (slice_index_or (view_strings left.now) i [])
        (slice_index_or (view_strings right.now) j []) then 1 else 0) }
{
    let v = left.view(i);
    let w = right.view(j);
    // `&` evaluates both comparisons, so that no branch depends on the bytes of short rows
    if v.len() <= 12 {
        return v.same_head(w) & v.same_tail(w);
    }
    if !v.same_head(w) {
        return false;
    }
    steps.add(1);
    left.value(i) == right.value(j)
}

/// Returns whether the views `v` and `w` have the same sixteen bytes. If the row of `v` has at most
/// 12 bytes, the result says whether the rows are equal. For a longer row the result is only a
/// guess, since the buffers are not read.
#[inline(always)]
pub fn guess_equal(v: &View, w: &View) -> bool
    ensures { (buffers others : List (List ℕ)) → GoodView buffers v.now → GoodView others w.now
        → IsTrue (is_short v.now) → result
        ≡ bytes_eq (row_bytes buffers v.now) (row_bytes others w.now) }
{
    v.same_bytes(w)
}

/// Returns whether the view holds its whole row, which then has at most 12 bytes. Comparing such a
/// row for equality reads no buffer.
#[inline(always)]
pub fn lies_in_view(v: &View) -> bool
    ensures short { result ≡ is_short v.now }
    ensures free { (buffers others : List (List ℕ)) (w : List ℕ) → GoodView buffers v.now
        → GoodView others w → IsTrue result
        → followed_eq (row_bytes buffers v.now) (row_bytes others w) ≡ false }
{
    v.is_short()
}

/// Returns whether row `i` of `left` is less than row `j` of `right`, byte by byte. Adds 1 to
/// `steps` if the views don't decide: if a row has more than 12 bytes, and both have the same
/// prefix.
#[inline]
pub fn row_less(
    left: &BinaryViewArray,
    i: usize,
    right: &BinaryViewArray,
    j: usize,
    steps: &mut Steps,
) -> bool
    requires left { i < length left.now.views }
    requires right { j < length right.now.views }
    ensures less { result
        ≡ bytes_lt (slice_index_or (view_strings left.now) i [])
        (slice_index_or (view_strings right.now) j []) }
    ensures counted { steps.new
        ≡ steps.old + (if followed_lt (slice_index_or (view_strings left.now) i [])
        (slice_index_or (view_strings right.now) j []) then 1 else 0) }
{
    let v = left.view(i);
    let w = right.view(j);
    if v.len().max(w.len()) <= 12 {
        return v.inlined_less(w);
    }
    let (p, q) = (v.prefix(), w.prefix());
    if p != q {
        return p < q;
    }
    steps.add(1);
    bytes_less(left.value(i), right.value(j))
}

/// Returns whether row `i` of `left` has exactly the bytes of `scalar`.
#[inline]
pub fn row_equals_bytes(left: &BinaryViewArray, i: usize, scalar: &ScalarRow) -> bool
    requires { i < length left.now.views }
    ensures { result ≡ bytes_eq (slice_index_or (view_strings left.now) i []) scalar.now }
{
    let v = left.view(i);
    let w = scalar.view();
    let size = scalar.len();
    // this branch depends on `scalar` alone, so it goes the same way for all rows
    if size <= 12 {
        return w.same_head(v) & w.same_tail(v);
    }
    if v.len() != size {
        return false;
    }
    if v.prefix() != w.prefix() {
        return false;
    }
    left.value(i) == scalar.bytes()
}

/// Returns whether row `i` of `left` is less than `scalar`, byte by byte.
#[inline]
pub fn row_less_bytes(left: &BinaryViewArray, i: usize, scalar: &ScalarRow) -> bool
    requires { i < length left.now.views }
    ensures { result ≡ bytes_lt (slice_index_or (view_strings left.now) i []) scalar.now }
{
    let v = left.view(i);
    let w = scalar.view();
    let (p, q) = (v.prefix(), w.prefix());
    if p != q {
        return p < q;
    }
    if v.len().max(scalar.len()) <= 12 {
        return v.inlined_less(w);
    }
    bytes_less(left.value(i), scalar.bytes())
}

/// Returns whether `scalar` is less than row `j` of `right`, byte by byte.
#[inline]
pub fn bytes_less_row(scalar: &ScalarRow, right: &BinaryViewArray, j: usize) -> bool
    requires { j < length right.now.views }
    ensures { result ≡ bytes_lt scalar.now (slice_index_or (view_strings right.now) j []) }
{
    let v = scalar.view();
    let w = right.view(j);
    let (p, q) = (v.prefix(), w.prefix());
    if p != q {
        return p < q;
    }
    if scalar.len().max(w.len()) <= 12 {
        return v.inlined_less(w);
    }
    bytes_less(scalar.bytes(), right.value(j))
}
