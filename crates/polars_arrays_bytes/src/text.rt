//! Arrays of texts, with offsets that say where each text lies.

ghost use Rattle.std.specs.Prelude.{◌≡◌, ◌+◌, ◌<◌, ◌≤◌, ◌↔◌, Some, [], length, slice_index_or};
ghost use Rattle.std.specs.Prelude.{IsTrue, IsOk, MatchResult, IfOk, IfErr, ⊤, refl};
ghost use Rattle.std.specs.Option.{MatchOption};
ghost use Rattle.std.specs.Result.{OkIff};
ghost use Rattle.std.specs.Str.{IsUtf8};
ghost use Rattle.polars_arrays_bits.specs.Errors.{IsMemory};
ghost use Rattle.polars_arrays_bytes.specs.OffsetStrings.{AreGood, offset_rows, offset_strings};
ghost use Rattle.polars_arrays_bytes.specs.OffsetStrings.{place_at, places, row_count};
ghost use Rattle.polars_arrays_bytes.specs.OffsetStrings.{strings_between};
ghost use Rattle.polars_arrays_bytes.specs.Texts.{AreBegun, AreTextParts, AreTexts, IsBegun};
ghost use Rattle.polars_arrays_bytes.specs.Texts.{IsFirstOther, IsFirstTextFault};
ghost use Rattle.polars_arrays_flat.specs.DataType.{kind_of};
ghost use Rattle.polars_arrays_flat.specs.SlotLaws.{byte_slots-present};
ghost use Rattle.polars_arrays_flat.specs.StoredRows.{rows_under, byte_slots};
ghost use Rattle.polars_arrays_flat.specs.Validity.{masked_count, validity_window, window};

use crate::binary::BinaryArray;
use crate::lent_strings::LentStrings;
use crate::offset_type::OffsetType;
use crate::offsets::row_count;
use polars_arrays_bits::bitmap::Bitmap;
use polars_arrays_bits::buffer::Buffer;
use polars_arrays_bits::error::{ArrayError, ComputeError};
use polars_arrays_flat::array::Array;
use polars_arrays_flat::byte_rows::ByteRows;
use polars_arrays_flat::data_type::ArrowDataType;
use polars_arrays_flat::mask::Mask;
use polars_arrays_numbers::offset::Offset;
use std::alloc::Global;
use std::marker::Model;
use std::str::{from_utf8, from_utf8_unchecked};

/// An array of texts in UTF-8, with an optional validity. All texts lie in one buffer of bytes.
/// Offsets say where each text begins and ends.
#[derive(Drop)]
pub struct Utf8Array<O: Offset> {
    binary: BinaryArray<O>,
}

impl<O: Offset> Model for Utf8Array<O> {
    ghost use Rattle.polars_arrays_bytes.specs.OffsetStrings.{OffsetStrings, offset_code};
    ghost use Rattle.polars_arrays_bytes.specs.OffsetStrings.{offset_strings};
    ghost use Rattle.polars_arrays_bytes.specs.Texts.{AreTexts};

    ghost Value = { OffsetStrings O };

    ghost coded = { offset_code O.code };

    ghost view = { λ a. a.binary };

    ghost invariant = { λ a. AreTexts (offset_strings O.value a.binary) };
}

impl<O: Offset> Utf8Array<O> {
    /// Creates an array of texts: row `i` is the UTF-8 in `values[offsets[i]..offsets[i + 1]]`. The
    /// errors are those of `BinaryArray::try_new`, and after these checks `NotUtf8` with the first
    /// row whose bytes, taken alone, are not UTF-8. Null rows are checked too.
    pub fn try_new(
        offsets: Buffer<O>,
        values: Buffer<u8>,
        validity: Option<Bitmap>,
    ) -> Result<Utf8Array<O>, ArrayError>
        ensures made { OkIff result
            (AreTextParts O.value
            (record { offsets = offsets.items; values = values.items; validity = validity }))
            (record { offsets = offsets.items; values = values.items; validity = validity }) }
        ensures refused { IfErr result
            (IsFirstTextFault O.value
            (record { offsets = offsets.items; values = values.items; validity = validity })) }
        ensures rows { IfOk result
            (λ a. offset_rows O.value a
            ≡ rows_under validity
            (byte_slots (strings_between (places O.value offsets.items) values.items))) }
    {
        let binary = BinaryArray::try_new(offsets, values, validity)?;
        match first_bad_text(&binary) {
            Some(row) => Err(ArrayError::NotUtf8 { row }),
            None => Ok(Utf8Array { binary }),
        }
    }

    /// Returns the array of byte strings that stores the texts.
    pub fn as_binary(&self) -> &BinaryArray<O>
        ensures binary { result.now ≡ self.now }
        ensures texts { AreTexts (offset_strings O.value result.now) }
    {
        &self.binary
    }

    /// Borrows the array together with its offsets and bytes as slices. Used for loops over its
    /// texts.
    pub fn lent(&self) -> LentStrings<'_, O>
        ensures { result.array.now ≡ self.now }
    {
        self.binary.lent()
    }

    /// Returns the offsets. There is one offset more than there are rows.
    pub fn offsets(&self) -> &[O]
        ensures offsets { result.now ≡ self.now.offsets }
        ensures good { AreGood (length self.now.values) (places O.value result.now) }
    {
        self.binary.offsets()
    }

    /// Returns the text of row `i`, also if the row is masked.
    pub fn value(&self, i: usize) -> &str
        requires { i < row_count self.now.offsets }
        ensures { result.now ≡ slice_index_or (offset_strings O.value self.now) i [] }
    {
        let bytes = self.binary.value(i);
        unsafe { from_utf8_unchecked(bytes) }
    }

    /// Slices the array in place: only the `n` rows from row `at` on remain. The stored bytes don't
    /// change.
    pub fn slice(&mut self, at: usize, n: usize)
        requires { at + n ≤ row_count self.old.offsets }
        ensures stored { self.new
            ≡ record {
              offsets = window at (n + 1) self.old.offsets;
              values =
                  self.old.values;
              validity = validity_window at n self.old.validity;
            } }
        ensures strings { offset_strings O.value self.new
            ≡ window at n (offset_strings O.value self.old) }
        ensures rows { offset_rows O.value self.new ≡ window at n (offset_rows O.value self.old) }
    {
        self.binary.slice(at, n);
    }

    /// Clones the array. The error is `Memory`.
    pub fn clone_array(&self, alloc: Global) -> Result<Utf8Array<O>, ComputeError>
        ensures { MatchResult result (λ copy. copy ≡ self.now) IsMemory }
    {
        let binary = self.binary.clone_array(alloc)?;
        Ok(Utf8Array { binary })
    }
}

impl<O: OffsetType> Utf8Array<O> {
    /// Returns the array's type. Always succeeds, since it does not allocate.
    pub fn dtype(&self, _alloc: Global) -> Result<ArrowDataType, ComputeError>
        ensures dtype { MatchResult result (λ dtype. kind_of dtype ≡ O.text_kind) IsMemory }
        ensures succeeds { IsOk result }
    {
        Ok(O::text_data_type())
    }
}

impl<O: Offset> Array for Utf8Array<O> {
    ghost slots = { λ a. byte_slots (offset_strings O.value a) };

    ghost validity_bits = { λ a. a.validity };

    ghost mask = { λ a. a.validity };

    ghost nulls = { λ a. masked_count a.validity };

    ghost same_type = { λ a b. ⊤ };

    ghost good = { λ a. ⊤ };

    fn len(&self) -> usize {
        self.binary.len()
    }

    fn validity(&self) -> Option<&Bitmap> {
        self.binary.validity()
    }

    fn missing_mask(&self, _alloc: Global) -> Result<Mask<'_>, ComputeError> {
        Ok(Mask::lent(self.validity()))
    }

    fn null_count(&self) -> usize {
        self.binary.null_count()
    }

    ghost null_law = { λ a b i within is_null. absurd
        (byte_slots-present (offset_strings O.value a) i within is_null) };
}

impl<O: Offset> ByteRows for Utf8Array<O> {
    ghost strings = { offset_strings O.value };

    fn count(&self) -> usize {
        self.binary.count()
    }

    fn bytes(&self, i: usize) -> &[u8] {
        self.binary.bytes(i)
    }

    #[inline(always)]
    fn bytes_on(&self, i: usize) -> (&[u8], usize) {
        self.binary.bytes_on(i)
    }

    ghost slots_law = { λ a. refl };
}

// Returns the first row that is not UTF-8, or `None` if all rows are. First checks the bytes of all
// rows at once. Checks row by row only if that does not show that each row is UTF-8.
fn first_bad_text<O: Offset>(binary: &BinaryArray<O>) -> Option<usize>
    ensures { MatchOption result (AreTexts (offset_strings O.value binary.now))
        (IsFirstOther (offset_strings O.value binary.now)) }
{
    if show_texts(binary.offsets(), binary.values()) {
        return None;
    }
    for row in 0..binary.count() {
        if !is_text(binary.bytes(row)) {
            return Some(row);
        }
    }
    None
}

// Returns whether one check of the bytes of all rows shows that each row is UTF-8: the bytes are
// ASCII, or they are UTF-8 and no row begins inside a character.
fn show_texts<O: Offset>(offsets: &[O], values: &[u8]) -> bool
    requires { AreGood (length values.now) (places O.value offsets.now) }
    ensures { IsTrue result → AreTexts (strings_between (places O.value offsets.now) values.now) }
{
    let (from, to) = ends(offsets, values);
    let bytes = &values[from..to];
    if bytes.is_ascii() {
        return true;
    }
    is_text(bytes) && begin_characters(offsets, values, to)
}

// Returns the first and the last offset, as indices of bytes.
fn ends<O: Offset>(offsets: &[O], values: &[u8]) -> (usize, usize)
    requires { AreGood (length values.now) (places O.value offsets.now) }
    ensures from { place_at (places O.value offsets.now) 0 ≡ Some result.0 }
    ensures to { place_at (places O.value offsets.now) (row_count offsets.now) ≡ Some result.1 }
    ensures within { (result.0 ≤ result.1) × (result.1 ≤ length values.now) }
{
    (offsets[0].place(), offsets[row_count(offsets)].place())
}

// Returns whether no row begins inside a character, that is, with a continuation byte. `end` is the
// last offset. No branch depends on the bytes.
fn begin_characters<O: Offset>(offsets: &[O], values: &[u8], end: usize) -> bool
    requires good { AreGood (length values.now) (places O.value offsets.now) }
    requires within { end ≤ length values.now }
    ensures { IsTrue result → AreBegun (places O.value offsets.now) values.now end }
{
    let mut begun = true;
    for row in 0..row_count(offsets) {
        begun &= begins_character(values, offsets[row].place(), end);
    }
    begun
}

// Returns whether the byte at index `at` is not a continuation byte of UTF-8. Returns `true` if
// `at` is not below `end`.
fn begins_character(values: &[u8], at: usize, end: usize) -> bool
    requires { end ≤ length values.now }
    ensures { IsTrue result → IsBegun values.now end at }
{
    if at >= end {
        return true;
    }
    let byte = values[at];
    (byte < 128) | (byte >= 192)
}

// Returns whether `bytes` is UTF-8.
fn is_text(bytes: &[u8]) -> bool
    ensures { IsTrue result ↔ IsUtf8 bytes.now }
{
    from_utf8(bytes).is_ok()
}
