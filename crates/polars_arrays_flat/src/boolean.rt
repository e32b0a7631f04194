//! Arrays of truth values.

ghost use Rattle.std.specs.Prelude.{◌≡◌, ◌+◌, ◌≤◌, length, IsOk, MatchResult, IfOk, IfErr, ⊤};
ghost use Rattle.std.specs.Result.{OkIff};
ghost use Rattle.polars_arrays_bits.specs.Errors.{IsMemory};
ghost use Rattle.polars_arrays_flat.specs.ArrayRows.{truth_rows};
ghost use Rattle.polars_arrays_flat.specs.DataType.{kind_of};
ghost use Rattle.polars_arrays_flat.specs.Kind.{BooleanKind};
ghost use Rattle.polars_arrays_flat.specs.SlotLaws.{truth_slots-present};
ghost use Rattle.polars_arrays_flat.specs.StoredRows.{rows_under, truth_slots};
ghost use Rattle.polars_arrays_flat.specs.Validity.{HasBits, masked_count, validity_window, window};

use crate::array::Array;
use crate::data_type::ArrowDataType;
use crate::mask::Mask;
use crate::validity::{clone_validity, has_bits, null_count, slice_validity};
use polars_arrays_bits::bitmap::Bitmap;
use polars_arrays_bits::error::{ArrayError, ComputeError};
use std::alloc::Global;
use std::marker::Model;

/// An array of truth values, with an optional validity.
#[derive(Drop)]
pub struct BooleanArray {
    values: Bitmap,
    validity: Option<Bitmap>,
}

impl Model for BooleanArray {
    ghost use Rattle.std.specs.Coded.{coded_bool};
    ghost use Rattle.std.specs.Prelude.{Bool, length};
    ghost use Rattle.polars_arrays_flat.specs.Flat.{Flat, flat_code};
    ghost use Rattle.polars_arrays_flat.specs.Validity.{HasBits};

    ghost Value = { Flat Bool };

    ghost coded = { flat_code coded_bool };

    ghost view = { λ a. record { values = a.values; validity = a.validity } };

    ghost invariant = { λ a. HasBits (length a.values) a.validity };
}

impl BooleanArray {
    /// Creates an array of stored values and a validity. The error is `Length` if the validity does
    /// not have one bit per value.
    pub fn try_new(values: Bitmap, validity: Option<Bitmap>) -> Result<BooleanArray, ArrayError>
        ensures made { OkIff result (HasBits (length values) validity)
            (record { values = values; validity = validity }) }
        ensures refused { IfErr result (λ e. e ≡ ArrayError.Length) }
        ensures rows { IfOk result (λ a. truth_rows a ≡ rows_under validity (truth_slots values)) }
    {
        if !has_bits(values.len(), &validity) {
            return Err(ArrayError::Length);
        }
        Ok(BooleanArray { values, validity })
    }

    /// Returns the stored values, including those of masked rows.
    pub fn values(&self) -> &Bitmap
        ensures { result.now ≡ self.now.values }
    {
        &self.values
    }

    /// Slices the array in place: only the `n` rows from row `at` on remain. No value is moved.
    #[tactic(auto, using(crate::proofs::RowWindows::windows))]
    pub fn slice(&mut self, at: usize, n: usize)
        requires { at + n ≤ length self.old.values }
        ensures stored { self.new
            ≡ record {
              values = window at n self.old.values;
              validity =
                  validity_window at n self.old.validity;
            } }
        ensures rows { truth_rows self.new ≡ window at n (truth_rows self.old) }
    {
        self.values.slice(at, n);
        slice_validity(&mut self.validity, at, n);
    }

    /// Clones the array. The error is `Memory`.
    pub fn clone_array(&self, alloc: Global) -> Result<BooleanArray, ComputeError>
        ensures { MatchResult result (λ copy. copy ≡ self.now) IsMemory }
    {
        let values = self.values.clone_bitmap(alloc)?;
        let validity = clone_validity(alloc, &self.validity)?;
        Ok(BooleanArray { values, validity })
    }

    /// Returns the array's type. Always succeeds, since it does not allocate.
    pub fn dtype(&self, _alloc: Global) -> Result<ArrowDataType, ComputeError>
        ensures dtype { MatchResult result (λ dtype. kind_of dtype ≡ BooleanKind) IsMemory }
        ensures succeeds { IsOk result }
    {
        Ok(ArrowDataType::Boolean)
    }
}

impl Array for BooleanArray {
    ghost slots = { λ a. truth_slots a.values };

    ghost validity_bits = { λ a. a.validity };

    ghost mask = { λ a. a.validity };

    ghost nulls = { λ a. masked_count a.validity };

    ghost same_type = { λ a b. ⊤ };

    ghost good = { λ a. ⊤ };

    fn len(&self) -> usize {
        self.values.len()
    }

    fn validity(&self) -> Option<&Bitmap> {
        self.validity.as_ref()
    }

    fn missing_mask(&self, _alloc: Global) -> Result<Mask<'_>, ComputeError> {
        Ok(Mask::lent(self.validity()))
    }

    #[tactic(auto, using(crate::proofs::NullCounts::nulls_counted))]
    fn null_count(&self) -> usize {
        null_count(&self.validity)
    }

    ghost null_law = { λ a b i within is_null. absurd
        (truth_slots-present a.values i within is_null) };
}
