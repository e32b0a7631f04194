//! Arrays of numbers.

ghost use Rattle.std.specs.Prelude.{◌≡◌, ◌↔◌, ◌+◌, ◌≤◌, length, map, replicate, false, true, None};
ghost use Rattle.std.specs.Prelude.{Some, IsTrue, IsFalse, IsOk, IsSome, IfSome, IfOk, IfErr};
ghost use Rattle.std.specs.Prelude.{MatchResult, ⊤};
ghost use Rattle.std.specs.Borrow.{sem};
ghost use Rattle.std.specs.Result.{OkIff};
ghost use Rattle.polars_arrays_bits.specs.Errors.{IsMemory};
ghost use Rattle.polars_arrays_flat.specs.ArrayRows.{number_rows, filled_row};
ghost use Rattle.polars_arrays_flat.specs.DataType.{kind_of};
ghost use Rattle.polars_arrays_flat.specs.Row.{Null};
ghost use Rattle.polars_arrays_flat.specs.SlotLaws.{number_slots-present};
ghost use Rattle.polars_arrays_flat.specs.StoredRows.{rows_under, number_slots};
ghost use Rattle.polars_arrays_flat.specs.Validity.{HasBits, masked_count, validity_window, window};

use crate::array::Array;
use crate::arrow_type::ArrowType;
use crate::data_type::ArrowDataType;
use crate::fill::{filled, repeated};
use crate::mask::Mask;
use crate::validity::{clone_validity, has_bits, null_count, slice_validity};
use num_traits::Zero;
use polars_arrays_bits::bitmap::Bitmap;
use polars_arrays_bits::buffer::Buffer;
use polars_arrays_bits::error::{ArrayError, ComputeError};
use polars_arrays_numbers::native_type::NativeType;
use std::alloc::Global;
use std::marker::Model;

/// An array of numbers, with an optional validity.
#[derive(Drop)]
pub struct PrimitiveArray<T: Copy> {
    values: Buffer<T>,
    validity: Option<Bitmap>,
}

impl<T: Copy> Model for PrimitiveArray<T> {
    ghost use Rattle.std.specs.Prelude.{length};
    ghost use Rattle.polars_arrays_flat.specs.Numbers.{Numbers, numbers_code};
    ghost use Rattle.polars_arrays_flat.specs.Validity.{HasBits};

    ghost Value = { Numbers T };

    ghost coded = { numbers_code T.code };

    ghost view = { λ a. record
        { values = a.values.items; validity = a.validity; owned = a.values.owned } };

    ghost invariant = { λ a. HasBits (length a.values.items) a.validity };
}

impl<T: Copy> PrimitiveArray<T> {
    ghost use Rattle.polars_arrays_flat.specs.NumbersLends.{lends_values, lends_values_if};

    /// Returns whether the array owns its stored values, so that they may be written. Values that
    /// were shared once are never owned again.
    pub fn is_owned(&self) -> bool
        ensures { result ≡ self.now.owned }
    {
        self.values.is_owned()
    }

    /// Mutably borrows the stored values, including those of masked rows. The array must own its
    /// values.
    pub fn as_mut_values(&mut self) -> &mut [T]
        requires { IsTrue self.old.owned }
        ensures* written { sem 𝓛 (lends_values T.row self.entry result) }
        ensures values { result.now ≡ self.old.values }
    {
        self.values.as_mut_slice()
    }

    // Returns whether the array owns its values, as `is_owned` does. It takes `&mut self`, so that
    // `get_mut_values` can call it before it borrows the values.
    fn owns(&mut self) -> bool
        ensures unchanged { self.new ≡ self.old }
        ensures owned { result ≡ self.old.owned }
    {
        self.is_owned()
    }

    /// Mutably borrows the stored values, including those of masked rows. Returns `None` if the
    /// values are shared.
    pub fn get_mut_values(&mut self) -> Option<&mut [T]>
        ensures* written { sem 𝓛 (lends_values_if T.row self.entry result) }
        ensures owned { IsSome result ↔ IsTrue self.old.owned }
        ensures values { IfSome result (λ values. values.now ≡ self.old.values) }
    {
        if self.owns() {
            Some(self.as_mut_values())
        } else {
            None
        }
    }
}

impl<T: NativeType> PrimitiveArray<T> {
    /// Creates an array of stored values and a validity. The error is `Length` if the validity does
    /// not have one bit per value.
    pub fn try_new(
        values: Buffer<T>,
        validity: Option<Bitmap>,
    ) -> Result<PrimitiveArray<T>, ArrayError>
        ensures made { OkIff result (HasBits (length values.items) validity)
            (record { values = values.items; validity = validity; owned = values.owned }) }
        ensures refused { IfErr result (λ e. e ≡ ArrayError.Length) }
        ensures rows { IfOk result
            (λ a. number_rows T.value a ≡ rows_under validity (number_slots T.value values.items)) }
    {
        if !has_bits(values.len(), &validity) {
            return Err(ArrayError::Length);
        }
        Ok(PrimitiveArray { values, validity })
    }

    /// Creates an array of a vector's numbers, without a validity: all rows are present.
    pub fn from_vec(values: Vec<T>) -> PrimitiveArray<T>
        ensures stored { result ≡ record { values = values.items; validity = None; owned = true } }
        ensures rows { number_rows T.value result ≡ number_slots T.value values.items }
    {
        PrimitiveArray {
            values: Buffer::from_vec(values),
            validity: None,
        }
    }

    /// Returns the stored values, including those of masked rows.
    pub fn values(&self) -> &[T]
        ensures { result.now ≡ self.now.values }
    {
        self.values.as_slice()
    }

    /// Slices the array in place: only the `n` rows from row `at` on remain. No value is moved.
    #[tactic(auto, using(crate::proofs::RowWindows::windows))]
    pub fn slice(&mut self, at: usize, n: usize)
        requires { at + n ≤ length self.old.values }
        ensures stored { self.new
            ≡ record {
              values = window at n self.old.values;
              validity =
                  validity_window at n self.old.validity;
              owned = self.old.owned;
            } }
        ensures rows { number_rows T.value self.new ≡ window at n (number_rows T.value self.old) }
    {
        self.values.slice(at, n);
        slice_validity(&mut self.validity, at, n);
    }

    /// Removes and returns the validity, or returns `None` if there is none. No row is masked
    /// afterwards.
    pub fn take_validity(&mut self) -> Option<Bitmap>
        ensures taken { result ≡ self.old.validity }
        ensures left { self.new ≡ record self.old { validity = None } }
        ensures bits { HasBits (length self.old.values) result }
        ensures rows { number_rows T.value self.new ≡ number_slots T.value self.old.values }
    {
        self.validity.take()
    }

    /// Replaces the validity. A new validity must have one bit per row.
    pub fn with_validity(self, validity: Option<Bitmap>) -> PrimitiveArray<T>
        requires { HasBits (length self.values) validity }
        ensures stored { result ≡ record self { validity = validity } }
        ensures rows { number_rows T.value result
            ≡ rows_under validity (number_slots T.value self.values) }
    {
        let PrimitiveArray { values, .. } = self;
        PrimitiveArray { values, validity }
    }

    /// Converts to an array whose stored values are shared: later clones use the same values
    /// instead of copying them. No value is moved. The error is `Memory`, and can occur only if the
    /// array owns its values.
    pub fn share(self, alloc: Global) -> Result<PrimitiveArray<T>, ComputeError>
        ensures stored { MatchResult result
            (λ shared. shared ≡ record self { owned = false }) IsMemory }
        ensures rows { IfOk result
            (λ shared. number_rows T.value shared ≡ number_rows T.value self) }
        ensures stays { IsFalse self.owned → IsOk result }
    {
        let PrimitiveArray { values, validity } = self;
        let values = values.share(alloc)?;
        Ok(PrimitiveArray { values, validity })
    }

    /// Clones the array. Owned values are copied, shared ones are not. The error is `Memory`.
    pub fn clone_array(&self, alloc: Global) -> Result<PrimitiveArray<T>, ComputeError>
        ensures { MatchResult result (λ copy. copy ≡ self.now) IsMemory }
    {
        let values = self.values.clone_buffer(alloc)?;
        let validity = clone_validity(alloc, &self.validity)?;
        Ok(PrimitiveArray { values, validity })
    }
}

impl<T: ArrowType> PrimitiveArray<T> {
    /// Returns the array's type. Always succeeds, since it does not allocate.
    pub fn dtype(&self, _alloc: Global) -> Result<ArrowDataType, ComputeError>
        ensures dtype { MatchResult result (λ dtype. kind_of dtype ≡ T.kind) IsMemory }
        ensures succeeds { IsOk result }
    {
        Ok(T::arrow_data_type())
    }
}

impl<T: NativeType> PrimitiveArray<T> {
    /// Sets all stored values to `value`, and leaves the validity unchanged. If the array owns its
    /// values, they are overwritten in place, which always succeeds. Otherwise new values are
    /// allocated, and the error is `Memory`.
    #[tactic(auto, using(crate::proofs::RowWindows::fills))]
    pub fn fill_with(self, alloc: Global, value: T) -> Result<PrimitiveArray<T>, ComputeError>
        ensures stored { MatchResult result
            (λ filled. filled
            ≡ record {
              values = replicate (length self.values) value;
              validity =
                  self.validity;
              owned = true;
            }) IsMemory }
        ensures rows { IfOk result
            (λ filled. number_rows T.value filled
            ≡ map (filled_row (T.value value)) (number_rows T.value self)) }
        ensures in_place { IsTrue self.owned → IsOk result }
    {
        let PrimitiveArray { values, validity } = self;
        let values = filled(alloc, values, value)?;
        Ok(PrimitiveArray { values, validity })
    }
}

impl<T: NativeType + Zero> PrimitiveArray<T> {
    /// Creates an array of `len` masked rows, whose stored values are all 0. The error is `Memory`.
    #[tactic(auto, using(crate::proofs::RowWindows::fills))]
    pub fn full_null(alloc: Global, len: usize) -> Result<PrimitiveArray<T>, ComputeError>
        ensures stored { MatchResult result
            (λ nulls. nulls
            ≡ record {
              values = replicate len T.zero;
              validity = Some (replicate len false);
              owned =
                  true;
            }) IsMemory }
        ensures rows { IfOk result (λ nulls. number_rows T.value nulls ≡ replicate len Null) }
    {
        let values = repeated(alloc, T::zero(), len)?;
        let validity = Bitmap::new_zeroed(alloc, len)?;
        Ok(PrimitiveArray {
            values,
            validity: Some(validity),
        })
    }
}

impl<T: NativeType> Array for PrimitiveArray<T> {
    ghost slots = { λ a. number_slots T.value a.values };

    ghost validity_bits = { λ a. a.validity };

    ghost mask = { λ a. a.validity };

    ghost nulls = { λ a. masked_count a.validity };

    ghost same_type = { λ a b. ⊤ };

    ghost good = { λ a. ⊤ };

    fn len(&self) -> usize {
        self.values.len()
    }

    fn validity(&self) -> Option<&Bitmap> {
        self.validity.as_ref()
    }

    fn missing_mask(&self, _alloc: Global) -> Result<Mask<'_>, ComputeError> {
        Ok(Mask::lent(self.validity()))
    }

    #[tactic(auto, using(crate::proofs::NullCounts::nulls_counted))]
    fn null_count(&self) -> usize {
        null_count(&self.validity)
    }

    ghost null_law = { λ a b i within is_null. absurd
        (number_slots-present T.value a.values i within is_null) };
}
