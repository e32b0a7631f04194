//! Arrays of texts that have a view for each row.

ghost use Rattle.std.specs.Prelude.{◌≡◌, ◌↔◌, ◌<◌, ◌≤◌, ◌+◌, [], length, slice_index_or, IfOk};
ghost use Rattle.std.specs.Prelude.{IfErr, IsTrue, MatchOption, IsOk, MatchResult, ⊤, refl};
ghost use Rattle.std.specs.List.{All};
ghost use Rattle.std.specs.Result.{OkIff};
ghost use Rattle.std.specs.Str.{IsCharBoundary, IsUtf8};
ghost use Rattle.polars_arrays_bits.specs.Errors.{IsMemory};
ghost use Rattle.polars_arrays_flat.specs.DataType.{kind_of};
ghost use Rattle.polars_arrays_flat.specs.Kind.{Utf8ViewKind};
ghost use Rattle.polars_arrays_flat.specs.SlotLaws.{byte_slots-present};
ghost use Rattle.polars_arrays_flat.specs.StoredRows.{rows_under, byte_slots};
ghost use Rattle.polars_arrays_flat.specs.Validity.{masked_count, validity_window, window};
ghost use Rattle.polars_arrays_views.specs.Parts.{contents, strings_of, view_rows, view_strings};
ghost use Rattle.polars_arrays_views.specs.Parts.{GoodParts};
ghost use Rattle.polars_arrays_views.specs.Texts.{AllText, IsFirstNotText, IsFirstTextFault};
ghost use Rattle.polars_arrays_views.specs.Texts.{LiesBetween};
ghost use Rattle.polars_arrays_views.specs.Views.{GoodView, InBuffer, row_bytes};

use crate::binary_view::BinaryViewArray;
use crate::view::View;
use polars_arrays_bits::bitmap::Bitmap;
use polars_arrays_bits::buffer::Buffer;
use polars_arrays_bits::error::{ArrayError, ComputeError};
use polars_arrays_flat::array::Array;
use polars_arrays_flat::byte_rows::ByteRows;
use polars_arrays_flat::data_type::ArrowDataType;
use polars_arrays_flat::mask::Mask;
use std::alloc::Global;
use std::marker::Model;
use std::str::{from_utf8, from_utf8_unchecked};

/// An array of texts in UTF-8, with an optional validity. It is stored as an array of the texts'
/// bytes.
#[derive(Drop)]
pub struct Utf8ViewArray {
    binary: BinaryViewArray,
}

impl Model for Utf8ViewArray {
    ghost use Rattle.polars_arrays_views.specs.Parts.{ViewParts};
    ghost use Rattle.polars_arrays_views.specs.Texts.{AllText};

    ghost Value = { ViewParts };

    ghost view = { λ a. a.binary };

    ghost invariant = { λ a. AllText a.binary };
}

impl Utf8ViewArray {
    /// Creates an array of one view per row, the buffers of the rows of more than 12 bytes, and a
    /// validity. The errors are those of `BinaryViewArray::try_new`, and after these checks
    /// `NotUtf8` with the first row whose bytes, taken alone, are not UTF-8. Null rows are checked
    /// too.
    pub fn try_new(
        views: Buffer<View>,
        buffers: Vec<Buffer<u8>>,
        validity: Option<Bitmap>,
    ) -> Result<Utf8ViewArray, ArrayError>
        ensures made { OkIff result
            (GoodParts
            (record { views = views.items; buffers = contents buffers.items; validity = validity })
            × AllText
            (record { views = views.items; buffers = contents buffers.items; validity = validity }))
            (record {
              views = views.items;
              buffers = contents buffers.items;
              validity =
                  validity;
            }) }
        ensures refused { IfErr result
            (IsFirstTextFault
            (record {
              views = views.items;
              buffers = contents buffers.items;
              validity =
                  validity;
            })) }
        ensures rows { IfOk result
            (λ a. view_rows a
            ≡ rows_under validity (byte_slots (strings_of (contents buffers.items) views.items))) }
    {
        let binary = BinaryViewArray::try_new(views, buffers, validity)?;
        match first_not_text(&binary) {
            Some(row) => Err(ArrayError::NotUtf8 { row }),
            None => Ok(Utf8ViewArray { binary }),
        }
    }

    /// Returns the array of the texts' bytes.
    pub fn as_binview(&self) -> &BinaryViewArray
        ensures bytes { result.now ≡ self.now }
        ensures text { AllText self.now }
    {
        &self.binary
    }

    /// Returns the views, including those of masked rows.
    pub fn views(&self) -> &[View]
        ensures value { result.now ≡ self.now.views }
        ensures good { All (GoodView self.now.buffers) self.now.views }
    {
        self.binary.views()
    }

    /// Returns the text of row `i`, also if the row is masked.
    #[inline]
    pub fn value(&self, i: usize) -> &str
        requires { i < length self.now.views }
        ensures { result.now ≡ slice_index_or (view_strings self.now) i [] }
    {
        let bytes = self.as_binview().value(i);
        unsafe { from_utf8_unchecked(bytes) }
    }

    /// Slices the array in place: only the `n` rows from row `at` on remain. The buffers don't
    /// change.
    pub fn slice(&mut self, at: usize, n: usize)
        requires { at + n ≤ length self.old.views }
        ensures stored { self.new
            ≡ record {
              views = window at n self.old.views;
              buffers = self.old.buffers;
              validity =
                  validity_window at n self.old.validity;
            } }
        ensures strings { view_strings self.new ≡ window at n (view_strings self.old) }
        ensures rows { view_rows self.new ≡ window at n (view_rows self.old) }
    {
        self.binary.slice(at, n);
    }

    /// Clones the array. The error is `Memory`.
    pub fn clone_array(&self, alloc: Global) -> Result<Utf8ViewArray, ComputeError>
        ensures { MatchResult result (λ copy. copy ≡ self.now) IsMemory }
    {
        let binary = self.binary.clone_array(alloc)?;
        Ok(Utf8ViewArray { binary })
    }

    /// Returns the array's type. Always succeeds, since it does not allocate.
    pub fn dtype(&self, _alloc: Global) -> Result<ArrowDataType, ComputeError>
        ensures dtype { MatchResult result (λ dtype. kind_of dtype ≡ Utf8ViewKind) IsMemory }
        ensures succeeds { IsOk result }
    {
        Ok(ArrowDataType::Utf8View)
    }
}

impl Array for Utf8ViewArray {
    ghost slots = { λ a. byte_slots (view_strings a) };

    ghost validity_bits = { λ a. a.validity };

    ghost mask = { λ a. a.validity };

    ghost nulls = { λ a. masked_count a.validity };

    ghost same_type = { λ a b. ⊤ };

    ghost good = { λ a. ⊤ };

    fn len(&self) -> usize {
        self.binary.len()
    }

    fn validity(&self) -> Option<&Bitmap> {
        self.binary.validity()
    }

    fn missing_mask(&self, _alloc: Global) -> Result<Mask<'_>, ComputeError> {
        Ok(Mask::lent(self.validity()))
    }

    fn null_count(&self) -> usize {
        self.binary.null_count()
    }

    ghost null_law = { λ a b i within is_null. absurd
        (byte_slots-present (view_strings a) i within is_null) };
}

impl ByteRows for Utf8ViewArray {
    ghost strings = { λ a. view_strings a };

    fn count(&self) -> usize {
        self.binary.count()
    }

    fn bytes(&self, i: usize) -> &[u8] {
        self.binary.bytes(i)
    }

    ghost slots_law = { λ a. refl };
}

// Returns the first row whose bytes, taken alone, are not UTF-8. Returns `None` if all rows are
// UTF-8.
fn first_not_text(array: &BinaryViewArray) -> Option<usize>
    ensures { MatchOption result (AllText array.now) (IsFirstNotText (view_strings array.now)) }
{
    let whole = hold_texts(array.buffers(), array.len());
    for row in 0..array.len() {
        if !is_text_row(array, row, whole) {
            return Some(row);
        }
    }
    None
}

// Returns whether each buffer as a whole is UTF-8. Returns `false` also if the buffers together
// have more than 64 bytes for each of `rows` rows: most of their bytes may then belong to other
// arrays, and are not worth reading.
fn hold_texts(buffers: &[Buffer<u8>], rows: usize) -> bool
    ensures { IsTrue result → All IsUtf8 (contents buffers.now) }
{
    let mut room = rows.saturating_mul(64);
    for i in 0..buffers.len() {
        let bytes = buffers[i].as_slice();
        if bytes.len() > room || !is_text(bytes) {
            return false;
        }
        room -= bytes.len();
    }
    true
}

// Returns whether the bytes of row `row` are UTF-8. `whole` may be true only if each buffer as a
// whole is UTF-8.
fn is_text_row(array: &BinaryViewArray, row: usize, whole: bool) -> bool
    requires row { row < length array.now.views }
    requires whole { IsTrue whole → All IsUtf8 array.now.buffers }
    ensures { IsTrue result ↔ IsUtf8 (slice_index_or (view_strings array.now) row []) }
{
    if shows_text(array.view(row), array.buffers(), whole) {
        return true;
    }
    is_text(array.value(row))
}

// Returns whether a quick check shows that the row of `view` is UTF-8. For a row of at most 12
// bytes, returns whether the view is ASCII. For a longer row, returns whether `whole` is true and
// the row begins and ends between characters of its buffer. `whole` may be true only if each buffer
// as a whole is UTF-8.
fn shows_text(view: &View, buffers: &[Buffer<u8>], whole: bool) -> bool
    requires good { GoodView (contents buffers.now) view.now }
    requires whole { IsTrue whole → All IsUtf8 (contents buffers.now) }
    ensures { IsTrue result → IsUtf8 (row_bytes (contents buffers.now) view.now) }
{
    if view.is_short() {
        return view.is_ascii();
    }
    whole && lies_between_characters(view, buffers)
}

// Returns whether the row begins and ends between characters of its buffer.
fn lies_between_characters(view: &View, buffers: &[Buffer<u8>]) -> bool
    requires { InBuffer (contents buffers.now) view.now }
    ensures { IsTrue result → LiesBetween (contents buffers.now) view.now }
{
    let bytes = buffers[view.buffer()].as_slice();
    let at = view.offset();
    begins_character(bytes, at) && begins_character(bytes, at + view.len())
}

// Returns whether index `at` lies between characters: the byte at `at` is not a continuation byte
// of UTF-8, or `at` is the length of `bytes`.
fn begins_character(bytes: &[u8], at: usize) -> bool
    requires { at ≤ length bytes.now }
    ensures { IsTrue result → IsCharBoundary bytes.now at }
{
    if at == bytes.len() {
        return true;
    }
    let byte = bytes[at];
    byte < 128 || byte >= 192
}

// Returns whether `bytes` is UTF-8.
fn is_text(bytes: &[u8]) -> bool
    ensures { IsTrue result ↔ IsUtf8 bytes.now }
{
    from_utf8(bytes).is_ok()
}
