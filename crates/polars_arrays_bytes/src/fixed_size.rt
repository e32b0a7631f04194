//! Arrays of byte strings of one fixed size.

ghost use Rattle.std.specs.Prelude.{◌≡◌, ◌+◌, ◌*◌, ◌<◌, ◌≤◌, [], length, slice_index_or, IsOk};
ghost use Rattle.std.specs.Prelude.{MatchResult, IfOk, IfErr, ⊤, refl};
ghost use Rattle.std.specs.Result.{OkIff};
ghost use Rattle.polars_arrays_bits.specs.Errors.{IsMemory};
ghost use Rattle.polars_arrays_bytes.specs.SizedStrings.{IsSized, sized_rows, sized_string};
ghost use Rattle.polars_arrays_bytes.specs.SizedStrings.{sized_strings};
ghost use Rattle.polars_arrays_flat.specs.DataType.{kind_of};
ghost use Rattle.polars_arrays_flat.specs.Kind.{FixedSizeBinaryKind};
ghost use Rattle.polars_arrays_flat.specs.SlotLaws.{byte_slots-present};
ghost use Rattle.polars_arrays_flat.specs.StoredRows.{rows_under, byte_slots};
ghost use Rattle.polars_arrays_flat.specs.Validity.{masked_count, validity_window, window};

use polars_arrays_bits::bitmap::Bitmap;
use polars_arrays_bits::buffer::Buffer;
use polars_arrays_bits::error::{ArrayError, ComputeError};
use polars_arrays_flat::array::Array;
use polars_arrays_flat::byte_rows::ByteRows;
use polars_arrays_flat::data_type::ArrowDataType;
use polars_arrays_flat::mask::Mask;
use polars_arrays_flat::validity::{clone_validity, has_bits, null_count, slice_validity};
use std::alloc::Global;
use std::marker::Model;

/// An array of byte strings that all have the same number of bytes, with an optional validity.
#[derive(Drop)]
pub struct FixedSizeBinaryArray {
    // number of bytes of each string
    size: usize,
    // number of strings; the bytes alone do not determine it if `size` is 0
    count: usize,
    values: Buffer<u8>,
    validity: Option<Bitmap>,
}

impl Model for FixedSizeBinaryArray {
    ghost use Rattle.polars_arrays_bytes.specs.SizedStrings.{IsSized, SizedStrings, sized_code};

    ghost Value = { SizedStrings };

    ghost coded = { sized_code };

    ghost view = { λ a. record
        { size = a.size; count = a.count; values = a.values.items; validity = a.validity } };

    ghost invariant = { λ a. IsSized a.size a.count a.values.items a.validity };
}

impl FixedSizeBinaryArray {
    /// Creates an array of `len` byte strings of `size` bytes each, which follow one another in
    /// `values`. The error is `Length` if the validity does not have one bit per string, or if
    /// `values` does not have `size * len` bytes.
    pub fn try_new(
        size: usize,
        len: usize,
        values: Buffer<u8>,
        validity: Option<Bitmap>,
    ) -> Result<FixedSizeBinaryArray, ArrayError>
        ensures made { OkIff result (IsSized size len values.items validity)
            (record { size = size; count = len; values = values.items; validity = validity }) }
        ensures refused { IfErr result (λ e. e ≡ ArrayError.Length) }
        ensures rows { IfOk result
            (λ a. sized_rows a
            ≡ rows_under validity (byte_slots (sized_strings size len values.items))) }
    {
        if !has_bits(len, &validity) || size.checked_mul(len) != Some(values.len()) {
            return Err(ArrayError::Length);
        }
        Ok(FixedSizeBinaryArray {
            size,
            count: len,
            values,
            validity,
        })
    }

    /// Returns the number of bytes of each string.
    pub fn size(&self) -> usize
        ensures { result ≡ self.now.size }
    {
        self.size
    }

    /// Returns the bytes of all strings, including those of masked rows.
    pub fn values(&self) -> &[u8]
        ensures values { result.now ≡ self.now.values }
        ensures bytes { length result.now ≡ self.now.size * self.now.count }
    {
        self.values.as_slice()
    }

    /// Returns the bytes of row `i`, also if the row is masked.
    #[tactic(auto, using(crate::proofs::Windows::sized))]
    pub fn value(&self, i: usize) -> &[u8]
        requires { i < self.now.count }
        ensures { result.now
            ≡ slice_index_or (sized_strings self.now.size self.now.count self.now.values) i [] }
    {
        string_at(self.values.as_slice(), self.size, i)
    }

    /// Slices the array in place: only the `n` rows from row `at` on remain. No byte is moved.
    #[tactic(auto, using(crate::proofs::Windows::sized))]
    pub fn slice(&mut self, at: usize, n: usize)
        requires { at + n ≤ self.old.count }
        ensures stored { self.new
            ≡ record {
              size = self.old.size;
              count = n;
              values =
                  window (self.old.size * at) (self.old.size * n) self.old.values;
              validity =
                  validity_window at n self.old.validity;
            } }
        ensures strings { sized_strings self.new.size self.new.count self.new.values
            ≡ window at n (sized_strings self.old.size self.old.count self.old.values) }
        ensures rows { sized_rows self.new ≡ window at n (sized_rows self.old) }
    {
        keep_strings(&mut self.values, self.size, at, n);
        slice_validity(&mut self.validity, at, n);
        self.count = n;
    }

    /// Clones the array. The error is `Memory`.
    pub fn clone_array(&self, alloc: Global) -> Result<FixedSizeBinaryArray, ComputeError>
        ensures { MatchResult result (λ copy. copy ≡ self.now) IsMemory }
    {
        let values = self.values.clone_buffer(alloc)?;
        let validity = clone_validity(alloc, &self.validity)?;
        Ok(FixedSizeBinaryArray {
            size: self.size,
            count: self.count,
            values,
            validity,
        })
    }

    /// Returns the array's type. Always succeeds, since it does not allocate.
    pub fn dtype(&self, _alloc: Global) -> Result<ArrowDataType, ComputeError>
        ensures dtype { MatchResult result
            (λ dtype. kind_of dtype ≡ FixedSizeBinaryKind self.now.size) IsMemory }
        ensures succeeds { IsOk result }
    {
        Ok(ArrowDataType::FixedSizeBinary(self.size))
    }
}

impl Array for FixedSizeBinaryArray {
    ghost slots = { λ a. byte_slots (sized_strings a.size a.count a.values) };

    ghost validity_bits = { λ a. a.validity };

    ghost mask = { λ a. a.validity };

    ghost nulls = { λ a. masked_count a.validity };

    ghost same_type = { λ a b. FixedSizeBinaryKind a.size ≡ FixedSizeBinaryKind b.size };

    ghost good = { λ a. ⊤ };

    #[tactic(auto, using(crate::proofs::Windows::sized))]
    fn len(&self) -> usize {
        self.count
    }

    #[tactic(auto, using(crate::proofs::Windows::sized))]
    fn validity(&self) -> Option<&Bitmap> {
        self.validity.as_ref()
    }

    #[tactic(auto, using(crate::proofs::Windows::sized))]
    fn missing_mask(&self, _alloc: Global) -> Result<Mask<'_>, ComputeError> {
        Ok(Mask::lent(self.validity()))
    }

    #[tactic(auto, using(crate::proofs::Windows::sized))]
    fn null_count(&self) -> usize {
        null_count(&self.validity)
    }

    ghost null_law = { λ a b i within is_null. absurd
        (byte_slots-present (sized_strings a.size a.count a.values) i within is_null) };
}

impl ByteRows for FixedSizeBinaryArray {
    ghost strings = { λ a. sized_strings a.size a.count a.values };

    #[tactic(auto, using(crate::proofs::Windows::sized))]
    fn count(&self) -> usize {
        self.count
    }

    #[tactic(auto, using(crate::proofs::Windows::sized))]
    fn bytes(&self, i: usize) -> &[u8] {
        self.value(i)
    }

    ghost slots_law = { λ a. refl };
}

// Returns the bytes of string `i`, a slice of `values`. Each string has `size` bytes.
#[inline]
pub(crate) fn string_at(values: &[u8], size: usize, i: usize) -> &[u8]
    requires { size * i + size ≤ length values.now }
    ensures { result.now ≡ sized_string size values.now i }
{
    let start = size * i;
    &values[start..start + size]
}

// Slices the bytes in place: only the bytes of the `n` strings from string `at` on remain. Each
// string has `size` bytes.
fn keep_strings(values: &mut Buffer<u8>, size: usize, at: usize, n: usize)
    requires { size * at + size * n ≤ length values.old.items }
    ensures { values.new
        ≡ record {
          items = window (size * at) (size * n) values.old.items;
          owned =
              values.old.owned;
        } }
{
    // Has no effect at run time. The proof learns from it that both products fit in a `usize`.
    let _len = values.len();
    values.slice(size * at, size * n);
}
