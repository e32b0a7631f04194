//! Views of a part, which are checked and read in the part's own memory.
#![tactic(auto)]

ghost use Rattle.std.specs.Prelude.{◌≡◌, ◌≤◌, ◌<◌, ◌+◌, ◌*◌, ℕ, List, IfSome, IsTrue, drop};
ghost use Rattle.std.specs.Prelude.{length, take};
ghost use Rattle.std.specs.Int.{w32, from_be_bytes};
ghost use Rattle.std.specs.Str.{IsUtf8};
ghost use Rattle.polars_arrays_bytes.specs.SizedStrings.{sized_string};
ghost use Rattle.polars_arrays_flat.specs.ByteOrder.{AreBytes};
ghost use Rattle.polars_arrays_views.specs.Views.{AllZero, GoodView, InBuffer, buffer_at};
ghost use Rattle.polars_arrays_views.specs.Views.{row_bytes};
ghost use Rattle.polars_arrays_views.specs.Views.{view_len};
ghost use Rattle.arrow_parts.specs.Lent.{buffers_in, lent_buffers};
ghost use Rattle.arrow_arrays.specs.Views.{LeadsToRow, NotNegative, view_in};
ghost use Rattle.arrow_equality.specs.Views.{ArePartViews, HoldsRow, IsAsciiStretch, LeadsToString};

use crate::part_strings::is_text;
use arrow_parts::part::{Bytes, Part};
use polars_arrays_views::view::View;

/// Returns view `i`, which is stored as the sixteen bytes from index `16 * i` on.
#[inline(always)]
pub fn view_at(views: &[u8], i: usize) -> View
    requires { 16 * i + 16 ≤ length views.now }
    ensures { result ≡ sized_string 16 views.now i }
{
    let mut all = [0u8; 16];
    all.copy_from_slice(&views[16 * i..16 * i + 16]);
    View::new(all)
}

/// Returns whether all bytes of the view after its row are 0. The row must have at most 12 bytes.
/// No branch depends on the bytes.
#[inline(always)]
fn is_padded(view: &View) -> bool
    requires { view_len view.now ≤ 12 }
    ensures { IsTrue result → AllZero (drop (4 + view_len view.now) view.now) }
{
    // The row follows the four bytes of its length.
    view.as_u128() >> 32 >> (8 * view.len()) == 0
}

/// Returns the four bytes from index `at` on as a big-endian number.
#[inline(always)]
fn prefix_at(bytes: &[u8], at: usize) -> u32
    requires { at + 4 ≤ length bytes.now }
    ensures value { result ≡ from_be_bytes w32 (take 4 (drop at bytes.now)) }
    ensures bytes { AreBytes bytes.now }
{
    let b = &bytes[at..at + 4];
    u32::from_be_bytes([b[0], b[1], b[2], b[3]])
}

/// Returns the bytes of the buffer with the index `number`.
#[inline(always)]
fn buffer_of<'a>(buffers: &[Bytes<'a>], number: usize) -> &'a [u8]
    requires { number < length (lent_buffers buffers.now) }
    ensures { result.now ≡ buffer_at (lent_buffers buffers.now) number }
{
    buffers[number].bytes
}

/// Returns whether the row of the view lies in one of `buffers` and begins with the view's prefix.
/// The row must have more than 12 bytes.
#[inline(always)]
fn lies_in_buffer(view: &View, buffers: &[Bytes<'_>]) -> bool
    requires { 12 < view_len view.now }
    ensures { IsTrue result → InBuffer (lent_buffers buffers.now) view.now }
{
    let (number, at, len) = (view.buffer(), view.offset(), view.len());
    if number >= buffers.len() {
        return false;
    }
    let bytes = buffer_of(buffers, number);
    at + len <= bytes.len() && prefix_at(bytes, at) == view.prefix()
}

/// Returns whether the length, the buffer's index and the offset of a view are below 2^31, that is,
/// not negative in the Arrow format.
#[inline(always)]
fn is_not_negative(view: &View) -> bool
    ensures { IsTrue result → NotNegative view.now }
{
    view.len() < 1 << 31 && view.buffer() < 1 << 31 && view.offset() < 1 << 31
}

/// Returns whether the view leads to a row: a row of at most 12 bytes is padded with zeros, and a
/// longer one lies in one of `buffers` and begins with the view's prefix.
#[inline(always)]
fn leads_to_row(view: &View, buffers: &[Bytes<'_>]) -> bool
    ensures { IsTrue result → LeadsToRow (lent_buffers buffers.now) view.now }
{
    if view.len() <= 12 {
        return is_padded(view);
    }
    is_not_negative(view) && lies_in_buffer(view, buffers)
}

/// Returns the row of the view, which has more than 12 bytes and lies in one of `buffers`.
#[inline(always)]
pub fn long_row<'a>(view: &View, buffers: &[Bytes<'a>]) -> &'a [u8]
    requires long { 12 < view_len view.now }
    requires lies { InBuffer (lent_buffers buffers.now) view.now }
    ensures { result.now ≡ row_bytes (lent_buffers buffers.now) view.now }
{
    let at = view.offset();
    let bytes = buffer_of(buffers, view.buffer());
    &bytes[at..at + view.len()]
}

/// The number of bytes of a buffer that are checked at once where rows follow one another.
const STRETCH_BYTES: usize = 1024;

/// A stretch of ASCII bytes: those of the buffer with the index `number` from index `from` up to
/// index `to`.
#[derive(Clone, Copy)]
pub struct Stretch {
    pub number: usize,
    pub from: usize,
    pub to: usize,
}

/// Returns whether the row of the view, which has more than 12 bytes, lies in a stretch.
#[inline(always)]
fn holds_row(stretch: &Stretch, view: &View) -> bool
    ensures { IsTrue result → HoldsRow stretch.now view.now }
{
    if view.buffer() != stretch.number {
        return false;
    }
    let at = view.offset();
    stretch.from <= at && at + view.len() <= stretch.to
}

/// Returns how many bytes are checked at once from index `at` of a buffer on: `STRETCH_BYTES` if
/// they follow `known`, a stretch of this buffer, and else none but the row that begins there.
#[inline(always)]
fn bytes_ahead(known: &Stretch, number: usize, at: usize) -> usize
    ensures { result ≤ 1024 }
{
    if number == known.number && known.from <= at && at <= known.to {
        STRETCH_BYTES
    } else {
        0
    }
}

/// Returns a stretch of ASCII bytes that begins with the row of the view, which has more than 12
/// bytes and lies in one of `buffers`. The stretch ends with the row, or after `STRETCH_BYTES`
/// bytes if the row follows `known`. Returns `None` if a byte in it is not ASCII.
fn stretch_from(view: &View, buffers: &[Bytes<'_>], known: &Stretch) -> Option<Stretch>
    requires { InBuffer (lent_buffers buffers.now) view.now }
    ensures ascii { IfSome result (IsAsciiStretch (lent_buffers buffers.now)) }
    ensures row { IfSome result (λ s. HoldsRow s view.now) }
{
    let number = view.buffer();
    let bytes = buffer_of(buffers, number);
    let from = view.offset();
    let ahead = bytes_ahead(known, number, from);
    let to = bytes.len().min(from + ahead).max(from + view.len());
    if !bytes[from..to].is_ascii() {
        return None;
    }
    Some(Stretch { number, from, to })
}

/// Checks that a row of more than 12 bytes, which lies in one of `buffers`, is UTF-8. Returns
/// `known`, or another stretch of ASCII bytes that holds the row. Returns `None` if the row is not
/// UTF-8.
#[inline(always)]
fn long_text(view: &View, buffers: &[Bytes<'_>], known: Stretch) -> Option<Stretch>
    requires long { 12 < view_len view.now }
    requires lies { InBuffer (lent_buffers buffers.now) view.now }
    requires ascii { IsAsciiStretch (lent_buffers buffers.now) known }
    ensures text { IfSome result (λ _. IsUtf8 (row_bytes (lent_buffers buffers.now) view.now)) }
    ensures ascii { IfSome result (IsAsciiStretch (lent_buffers buffers.now)) }
{
    if holds_row(&known, view) {
        return Some(known);
    }
    match stretch_from(view, buffers, &known) {
        Some(stretch) => Some(stretch),
        None => {
            if is_text(long_row(view, buffers)) {
                Some(known)
            } else {
                None
            }
        }
    }
}

/// Returns whether a row of at most 12 bytes is UTF-8.
#[inline(always)]
fn is_short_text(view: &View) -> bool
    requires { view_len view.now ≤ 12 }
    ensures { IsTrue result → (buffers : List (List ℕ)) → IsUtf8 (row_bytes buffers view.now) }
{
    view.is_ascii() || is_text(view.inlined())
}

/// Checks that the row of the view is UTF-8. Returns `known`, or another stretch of ASCII bytes
/// that holds the row. Returns `None` if the row is not UTF-8.
#[inline(always)]
fn text_row(view: &View, buffers: &[Bytes<'_>], known: Stretch) -> Option<Stretch>
    requires good { GoodView (lent_buffers buffers.now) view.now }
    requires ascii { IsAsciiStretch (lent_buffers buffers.now) known }
    ensures text { IfSome result (λ _. IsUtf8 (row_bytes (lent_buffers buffers.now) view.now)) }
    ensures ascii { IfSome result (IsAsciiStretch (lent_buffers buffers.now)) }
{
    if view.len() > 12 {
        return long_text(view, buffers, known);
    }
    if is_short_text(view) {
        Some(known)
    } else {
        None
    }
}

/// Checks that the view leads to a row, and to a row in UTF-8 if `texts` is true. Returns `known`,
/// or another stretch of ASCII bytes that holds the row. Returns `None` if the check fails.
#[inline(always)]
fn string_row(view: &View, buffers: &[Bytes<'_>], texts: bool, known: Stretch) -> Option<Stretch>
    requires { IsAsciiStretch (lent_buffers buffers.now) known }
    ensures leads { IfSome result
        (λ _. LeadsToString texts (lent_buffers buffers.now) view.now) }
    ensures ascii { IfSome result (IsAsciiStretch (lent_buffers buffers.now)) }
{
    if !leads_to_row(view, buffers) {
        return None;
    }
    if !texts {
        return Some(known);
    }
    text_row(view, buffers, known)
}

/// Returns whether each view of a part leads to a row, also where the row is null, and to a row in
/// UTF-8 if `texts` is true.
fn lead_to_strings(part: &Part<'_>, texts: bool) -> bool
    requires { length part.now.u8s.now ≡ 16 * part.now.rows }
    ensures { IsTrue result → (i : ℕ) → i < part.now.rows
        → LeadsToString texts (buffers_in part.now) (view_in part.now i) }
{
    let (views, buffers) = (part.u8s, part.buffers);
    let mut known = Stretch {
        number: 0,
        from: 0,
        to: 0,
    };
    for i in 0..part.rows {
        match string_row(&view_at(views, i), buffers, texts, known) {
            Some(stretch) => known = stretch,
            None => return false,
        }
    }
    true
}

/// Returns whether a part has no child arrays, a name in UTF-8, sixteen bytes for each row, and
/// views that lead to rows, also where the rows are null. If `texts` is true, the rows also have to
/// be UTF-8. The validity is not checked.
pub fn are_part_views(part: &Part<'_>, texts: bool) -> bool
    ensures { IsTrue result → ArePartViews part.now texts }
{
    if part.children != 0 || !is_text(part.name) {
        return false;
    }
    let Some(size) = part.rows.checked_mul(16) else {
        return false;
    };
    part.u8s.len() == size && lead_to_strings(part, texts)
}
