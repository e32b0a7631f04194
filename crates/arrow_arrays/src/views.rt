//! Conversion of views to byte strings. The bytes of all rows are copied into one buffer.
#![tactic(auto, using(crate::proofs::ViewRows::views))]

ghost use Rattle.std.specs.Prelude.{◌≡◌, ◌↔◌, ◌+◌, ◌*◌, ◌^◌, ◌≤◌, ◌<◌, ◌++◌, true, length, take};
ghost use Rattle.std.specs.Prelude.{drop, IsTrue, IfSome, IfNone, IfOk, IfErr, OnOk, MatchOption};
ghost use Rattle.polars_arrays_bytes.specs.OffsetStrings.{places};
ghost use Rattle.polars_arrays_flat.specs.Validity.{is_present};
ghost use Rattle.polars_arrays_views.specs.Views.{AllZero, InBuffer, IsView, row_bytes, view_len};
ghost use Rattle.polars_arrays_views.specs.Views.{view_prefix};
ghost use Rattle.arrow_parts.specs.Lent.{buffers_in, lent_buffers, present_in};
ghost use Rattle.arrow_parts.specs.Refusals.{IsHonest};
ghost use Rattle.arrow_arrays.specs.Stands.{IsViewed};
ghost use Rattle.arrow_arrays.specs.Views.{AllLead, AreGathered, AreTextViews, AreViews};
ghost use Rattle.arrow_arrays.specs.Views.{LeadsToRow, NotNegative, bytes_if, has_row, view_in};
ghost use Rattle.arrow_arrays.specs.Views.{viewed_row};

use crate::slots::present;
use arrow_parts::part::{Bytes, Part};
use arrow_parts::refused::Refused;
use polars_arrays_bits::bitmap::Bitmap;
use polars_arrays_bits::buffer::Buffer;
use polars_arrays_bytes::binary::BinaryArray;
use polars_arrays_bytes::text::Utf8Array;
use polars_arrays_views::view::View;
use std::alloc::Global;

/// Returns the view that is stored in `bytes`, which are sixteen bytes.
#[inline(always)]
fn view_of(bytes: &[u8]) -> View
    requires { length bytes.now ≡ 16 }
    ensures { result ≡ bytes.now }
{
    let mut all = [0u8; 16];
    all.copy_from_slice(bytes);
    View::new(all)
}

/// Returns whether all bytes are 0.
#[inline(always)]
fn is_zero(bytes: &[u8]) -> bool
    ensures { IsTrue result ↔ AllZero bytes.now }
{
    bytes.iter().all(|b| *b == 0)
}

/// Returns whether the length, the buffer's index and the offset of a view are below 2^31. In the
/// Arrow format, they are signed numbers of 32 bits, which must not be negative.
#[inline(always)]
fn is_not_negative(view: &View) -> bool
    ensures { IsTrue result ↔ NotNegative view.now }
{
    view.len() < 1 << 31 && view.buffer() < 1 << 31 && view.offset() < 1 << 31
}

/// Returns the row that is stored inline in the view `bytes`. Its length `len` is at most 12.
/// Returns `None` if a byte after the row is not 0.
#[inline(always)]
fn short_row(bytes: &[u8], len: usize) -> Option<&[u8]>
    requires size { length bytes.now ≡ 16 }
    requires short { len ≤ 12 }
    ensures row { IfSome result (λ row. row.now ≡ take len (drop 4 bytes.now)) }
    ensures good { IfSome result (λ _. AllZero (drop (4 + len) bytes.now)) }
    ensures none { IfNone result (¬ (AllZero (drop (4 + len) bytes.now))) }
{
    if is_zero(&bytes[4 + len..]) {
        Some(&bytes[4..4 + len])
    } else {
        None
    }
}

/// Returns a row of more than 12 bytes, which lies in the buffer to which `view` refers. `prefix`
/// is the copy of the row's first four bytes in the view. Returns `None` if this buffer doesn't
/// exist or is too short, or if the row doesn't begin with `prefix`.
#[inline(always)]
fn long_row<'a>(view: &View, prefix: &[u8], buffers: &'a [Bytes<'a>]) -> Option<&'a [u8]>
    requires long { 12 < view_len view.now }
    requires prefix { prefix.now ≡ view_prefix view.now }
    ensures row { IfSome result (λ row. row.now ≡ row_bytes (lent_buffers buffers.now) view.now) }
    ensures good { IfSome result (λ _. InBuffer (lent_buffers buffers.now) view.now) }
    ensures none { IfNone result (¬ (InBuffer (lent_buffers buffers.now) view.now)) }
{
    let (number, at, len) = (view.buffer(), view.offset(), view.len());
    if number >= buffers.len() {
        return None;
    }
    let bytes = buffers[number].bytes;
    if at + len > bytes.len() || &bytes[at..at + 4] != prefix {
        return None;
    }
    Some(&bytes[at..at + len])
}

/// Returns the row of the view that is stored as the sixteen bytes `bytes`. A row of more than 12
/// bytes lies in one of `buffers`. Returns `None` if the view is not valid: if a byte after a short
/// row is not 0, if the index of the buffer or the offset is negative or too large, or if the row
/// doesn't begin with the prefix in the view.
fn row_of<'a>(bytes: &'a [u8], buffers: &'a [Bytes<'a>]) -> Option<&'a [u8]>
    requires { length bytes.now ≡ 16 }
    ensures row { IfSome result (λ row. row.now ≡ row_bytes (lent_buffers buffers.now) bytes.now) }
    ensures good { IfSome result (λ _. LeadsToRow (lent_buffers buffers.now) bytes.now) }
    ensures none { IfNone result (¬ (LeadsToRow (lent_buffers buffers.now) bytes.now)) }
{
    let view = view_of(bytes);
    if view.len() <= 12 {
        return short_row(bytes, view.len());
    }
    if !is_not_negative(&view) {
        return None;
    }
    long_row(&view, &bytes[4..8], buffers)
}

/// Returns whether row `i` is present, that is, whether bit `i` of `present` exists and is 1. If
/// `present` is `None`, all rows are present.
#[inline(always)]
fn is_row(present: &Option<Bitmap>, i: usize) -> bool
    ensures { result ≡ is_present present.now i }
{
    match present {
        Some(bits) => i < bits.len() && bits.get_bit(i),
        None => true,
    }
}

/// Appends the bytes of row `i` of a part with views to `bytes`. Appends nothing if the row is null
/// by `present`, the validity of the part. Fails with `Parts` if the view of a present row is not
/// valid, and with `Memory` if an allocation fails.
fn append_row(
    part: &Part<'_>,
    present: &Option<Bitmap>,
    i: usize,
    bytes: &mut Vec<u8>,
) -> Result<(), Refused>
    requires present { present.now ≡ present_in part.now }
    requires row { i < part.now.rows }
    requires within { 16 * i + 16 ≤ length part.now.u8s.now }
    ensures appended { OnOk result
        (bytes.new.items ≡ bytes.old.items
        ++ bytes_if (has_row part.now i) (viewed_row part.now i)) }
    ensures good { OnOk result
        (has_row part.now i ≡ true → LeadsToRow (buffers_in part.now) (view_in part.now i)) }
    ensures refused { IfErr result (IsHonest (AllLead part.now part.now.rows)) }
{
    if !is_row(present, i) {
        return Ok(());
    }
    match row_of(&part.u8s[16 * i..16 * i + 16], part.buffers) {
        Some(row) => {
            bytes.extend_from_slice(row)?;
            Ok(())
        }
        None => Err(Refused::Parts),
    }
}

/// Byte strings, stored one after the other. String `i` has the bytes from offset `ends[i]` up to
/// offset `ends[i + 1]`.
#[derive(Drop)]
struct Strings {
    ends: Buffer<i64>,
    bytes: Buffer<u8>,
}

/// Copies the rows of a part with views into byte strings. A row that is null by `present`, the
/// validity of the part, becomes an empty string. Fails with `Parts` if the view of a present row
/// is not valid, and with `Memory` if an allocation fails.
fn gathered(alloc: Global, part: &Part<'_>, present: &Option<Bitmap>) -> Result<Strings, Refused>
    requires present { present.now ≡ present_in part.now }
    requires size { length part.now.u8s.now ≡ 16 * part.now.rows }
    ensures rows { IfOk result
        (λ s. AreGathered part.now part.now.rows (places (λ x. x) s.ends.items) s.bytes.items) }
    ensures good { IfOk result (λ _. AllLead part.now part.now.rows) }
    ensures refused { IfErr result (IsHonest (AllLead part.now part.now.rows)) }
{
    let mut ends: Vec<i64> = Vec::with_capacity(alloc, part.rows + 1)?;
    let mut bytes: Vec<u8> = Vec::new(alloc);
    ends.push_reserved(0);
    for i in 0..part.rows {
        append_row(part, present, i, &mut bytes)?;
        // A vector of bytes is always shorter than 2^63 bytes.
        match i64::try_from(bytes.len()) {
            Ok(end) => ends.push_reserved(end),
            Err(_) => return Err(Refused::Memory),
        }
    }
    Ok(Strings {
        ends: Buffer::from_vec(ends),
        bytes: Buffer::from_vec(bytes),
    })
}

/// Returns whether a part has exactly sixteen bytes for each row.
fn has_views(part: &Part<'_>) -> bool
    ensures { IsTrue result ↔ (length part.now.u8s.now ≡ 16 * part.now.rows) }
{
    match part.rows.checked_mul(16) {
        Some(size) => part.u8s.len() == size,
        None => false,
    }
}

/// Returns the array of a part's byte strings, which are stored as views. Fails with `Parts` if
/// there are not sixteen bytes for each row, if the view of a present row is not valid, or if there
/// are fewer validity bits than rows. Fails with `Memory` if an allocation fails.
#[tactic(auto, using(crate::proofs::GatheredRows::arrays))]
pub fn viewed_strings(alloc: Global, part: &Part<'_>) -> Result<BinaryArray<i64>, Refused>
    ensures made { IfOk result (IsViewed part.now) }
    ensures good { IfOk result (λ _. AreViews part.now) }
    ensures refused { IfErr result (IsHonest (AreViews part.now)) }
{
    if !has_views(part) {
        return Err(Refused::Parts);
    }
    let validity = present(alloc, part)?;
    let strings = gathered(alloc, part, &validity)?;
    let array = BinaryArray::try_new(strings.ends, strings.bytes, validity)?;
    Ok(array)
}

/// Returns the array of a part's texts, which are stored as views. Fails as `viewed_strings` does,
/// and with `Parts` if the text of a present row is not UTF-8.
#[tactic(auto, using(crate::proofs::GatheredRows::arrays))]
pub fn viewed_texts(alloc: Global, part: &Part<'_>) -> Result<Utf8Array<i64>, Refused>
    ensures made { IfOk result (IsViewed part.now) }
    ensures good { IfOk result (λ _. AreTextViews part.now) }
    ensures refused { IfErr result (IsHonest (AreTextViews part.now)) }
{
    if !has_views(part) {
        return Err(Refused::Parts);
    }
    let validity = present(alloc, part)?;
    let strings = gathered(alloc, part, &validity)?;
    let array = Utf8Array::try_new(strings.ends, strings.bytes, validity)?;
    Ok(array)
}
