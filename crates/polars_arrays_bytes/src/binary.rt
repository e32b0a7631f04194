//! Arrays of byte strings, with offsets that say where each string lies.

ghost use Rattle.std.specs.Prelude.{◌≡◌, ◌+◌, ◌<◌, ◌≤◌, [], length, slice_index_or, IsOk};
ghost use Rattle.std.specs.Prelude.{MatchResult, IfOk, IfErr, ⊤, refl};
ghost use Rattle.std.specs.Result.{OkIff};
ghost use Rattle.polars_arrays_bits.specs.Errors.{IsMemory};
ghost use Rattle.polars_arrays_bytes.specs.Faults.{IsFirstFault};
ghost use Rattle.polars_arrays_bytes.specs.OffsetStrings.{AreBounded, AreGood, offset_rows};
ghost use Rattle.polars_arrays_bytes.specs.OffsetStrings.{offset_strings, places, row_count};
ghost use Rattle.polars_arrays_bytes.specs.OffsetStrings.{strings_between};
ghost use Rattle.polars_arrays_flat.specs.DataType.{kind_of};
ghost use Rattle.polars_arrays_flat.specs.SlotLaws.{byte_slots-present};
ghost use Rattle.polars_arrays_flat.specs.StoredRows.{rows_under, byte_slots};
ghost use Rattle.polars_arrays_flat.specs.Validity.{masked_count, validity_window, window};

use crate::lent_strings::LentStrings;
use crate::offset_type::OffsetType;
use crate::offsets::{first_bad_row, keep_rows, row_count, string_at, string_on};
use polars_arrays_bits::bitmap::Bitmap;
use polars_arrays_bits::buffer::Buffer;
use polars_arrays_bits::error::{ArrayError, ComputeError};
use polars_arrays_flat::array::Array;
use polars_arrays_flat::byte_rows::ByteRows;
use polars_arrays_flat::data_type::ArrowDataType;
use polars_arrays_flat::mask::Mask;
use polars_arrays_flat::validity::{clone_validity, has_bits, null_count, slice_validity};
use polars_arrays_numbers::offset::Offset;
use std::alloc::Global;
use std::marker::Model;

/// An array of byte strings, with an optional validity. All strings lie in one buffer of bytes.
/// Offsets say where each string begins and ends.
#[derive(Drop)]
pub struct BinaryArray<O: Offset> {
    offsets: Buffer<O>,
    values: Buffer<u8>,
    validity: Option<Bitmap>,
}

impl<O: Offset> Model for BinaryArray<O> {
    ghost use Rattle.polars_arrays_bytes.specs.OffsetStrings.{AreBounded, OffsetStrings};
    ghost use Rattle.polars_arrays_bytes.specs.OffsetStrings.{offset_code};

    ghost Value = { OffsetStrings O };

    ghost coded = { offset_code O.code };

    ghost view = { λ a. record
        { offsets = a.offsets.items; values = a.values.items; validity = a.validity } };

    ghost invariant = { λ a. AreBounded O.value
        (record { offsets = a.offsets.items; values = a.values.items; validity = a.validity }) };
}

impl<O: Offset> BinaryArray<O> {
    /// Creates an array of byte strings: row `i` is `values[offsets[i]..offsets[i + 1]]`. The first
    /// offset need not be 0. The errors, in the order of the checks, are
    /// - `Length`, if the validity does not have one bit per row (there is one row less than there
    ///   are offsets, and no row without offsets),
    /// - `Offsets` with the first row for which `0 <= offsets[i] <= offsets[i + 1] <= values.len()`
    ///   does not hold; it is row 0 if there are no offsets, or if the only one is not in
    ///   `0..=values.len()`.
    ///
    /// The offsets of null rows are checked too.
    #[tactic(auto, using(crate::proofs::OffsetWindows::faults))]
    pub fn try_new(
        offsets: Buffer<O>,
        values: Buffer<u8>,
        validity: Option<Bitmap>,
    ) -> Result<BinaryArray<O>, ArrayError>
        ensures made { OkIff result
            (AreBounded O.value
            (record { offsets = offsets.items; values = values.items; validity = validity }))
            (record { offsets = offsets.items; values = values.items; validity = validity }) }
        ensures refused { IfErr result
            (IsFirstFault O.value
            (record { offsets = offsets.items; values = values.items; validity = validity })) }
        ensures rows { IfOk result
            (λ a. offset_rows O.value a
            ≡ rows_under validity
            (byte_slots (strings_between (places O.value offsets.items) values.items))) }
    {
        if !has_bits(row_count(offsets.as_slice()), &validity) {
            return Err(ArrayError::Length);
        }
        match first_bad_row(offsets.as_slice(), values.len()) {
            Some(row) => Err(ArrayError::Offsets { row }),
            None => Ok(BinaryArray {
                offsets,
                values,
                validity,
            }),
        }
    }

    /// Returns the offsets. There is one offset more than there are rows.
    pub fn offsets(&self) -> &[O]
        ensures offsets { result.now ≡ self.now.offsets }
        ensures good { AreGood (length self.now.values) (places O.value result.now) }
    {
        self.offsets.as_slice()
    }

    // Has no effect at run time. A proof learns from it that the offsets are good (`AreGood`).
    #[inline(always)]
    pub(crate) fn law_good(&self)
        ensures { AreGood (length self.now.values) (places O.value self.now.offsets) }
    {
        let _offsets = &self.offsets;
    }

    /// Returns all stored bytes, including those of masked rows and those that belong to no row.
    pub fn values(&self) -> &[u8]
        ensures { result.now ≡ self.now.values }
    {
        self.values.as_slice()
    }

    /// Returns the bytes of row `i`, also if the row is masked.
    #[tactic(auto, using(crate::proofs::OffsetWindows::offset_rows))]
    pub fn value(&self, i: usize) -> &[u8]
        requires { i < row_count self.now.offsets }
        ensures { result.now ≡ slice_index_or (offset_strings O.value self.now) i [] }
    {
        string_at(self.offsets(), self.values(), i)
    }

    /// Borrows the array together with its offsets and bytes as slices. Used for loops over its
    /// strings.
    pub fn lent(&self) -> LentStrings<'_, O>
        ensures { result.array.now ≡ self.now }
    {
        LentStrings::new(self)
    }

    /// Slices the array in place: only the `n` rows from row `at` on remain. The stored bytes don't
    /// change.
    #[tactic(auto, using(crate::proofs::OffsetWindows::slices))]
    pub fn slice(&mut self, at: usize, n: usize)
        requires { at + n ≤ row_count self.old.offsets }
        ensures stored { self.new
            ≡ record {
              offsets = window at (n + 1) self.old.offsets;
              values =
                  self.old.values;
              validity = validity_window at n self.old.validity;
            } }
        ensures strings { offset_strings O.value self.new
            ≡ window at n (offset_strings O.value self.old) }
        ensures rows { offset_rows O.value self.new ≡ window at n (offset_rows O.value self.old) }
    {
        keep_rows(&mut self.offsets, at, n);
        slice_validity(&mut self.validity, at, n);
    }

    /// Clones the array. The error is `Memory`.
    pub fn clone_array(&self, alloc: Global) -> Result<BinaryArray<O>, ComputeError>
        ensures { MatchResult result (λ copy. copy ≡ self.now) IsMemory }
    {
        let offsets = self.offsets.clone_buffer(alloc)?;
        let values = self.values.clone_buffer(alloc)?;
        let validity = clone_validity(alloc, &self.validity)?;
        Ok(BinaryArray {
            offsets,
            values,
            validity,
        })
    }
}

impl<O: OffsetType> BinaryArray<O> {
    /// Returns the array's type. Always succeeds, since it does not allocate.
    pub fn dtype(&self, _alloc: Global) -> Result<ArrowDataType, ComputeError>
        ensures dtype { MatchResult result (λ dtype. kind_of dtype ≡ O.binary_kind) IsMemory }
        ensures succeeds { IsOk result }
    {
        Ok(O::binary_data_type())
    }
}

impl<O: Offset> Array for BinaryArray<O> {
    ghost slots = { λ a. byte_slots (offset_strings O.value a) };

    ghost validity_bits = { λ a. a.validity };

    ghost mask = { λ a. a.validity };

    ghost nulls = { λ a. masked_count a.validity };

    ghost same_type = { λ a b. ⊤ };

    ghost good = { λ a. ⊤ };

    #[tactic(auto, using(crate::proofs::OffsetWindows::offset_rows))]
    fn len(&self) -> usize {
        row_count(self.offsets())
    }

    #[tactic(auto, using(crate::proofs::OffsetWindows::offset_rows))]
    fn validity(&self) -> Option<&Bitmap> {
        self.validity.as_ref()
    }

    #[tactic(auto, using(crate::proofs::OffsetWindows::offset_rows))]
    fn missing_mask(&self, _alloc: Global) -> Result<Mask<'_>, ComputeError> {
        Ok(Mask::lent(self.validity()))
    }

    #[tactic(auto, using(crate::proofs::OffsetWindows::offset_rows))]
    fn null_count(&self) -> usize {
        null_count(&self.validity)
    }

    ghost null_law = { λ a b i within is_null. absurd
        (byte_slots-present (offset_strings O.value a) i within is_null) };
}

impl<O: Offset> ByteRows for BinaryArray<O> {
    ghost strings = { offset_strings O.value };

    #[tactic(auto, using(crate::proofs::OffsetWindows::offset_rows))]
    fn count(&self) -> usize {
        row_count(self.offsets())
    }

    #[tactic(auto, using(crate::proofs::OffsetWindows::offset_rows))]
    fn bytes(&self, i: usize) -> &[u8] {
        self.value(i)
    }

    #[inline(always)]
    #[tactic(auto, using(crate::proofs::OffsetWindows::offset_rows))]
    fn bytes_on(&self, i: usize) -> (&[u8], usize) {
        string_on(self.offsets(), self.values(), i)
    }

    ghost slots_law = { λ a. refl };
}
