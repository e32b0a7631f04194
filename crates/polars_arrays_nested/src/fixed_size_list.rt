//! Arrays of lists of one fixed size.

ghost use Rattle.std.specs.Prelude.{◌≡◌, ◌*◌, ◌<◌, ◌+◌, ◌≤◌, ℕ, IfOk, IfErr, refl, MatchResult};
ghost use Rattle.std.specs.Result.{OkIff};
ghost use Rattle.polars_arrays_bits.specs.Errors.{IsMemory};
ghost use Rattle.polars_arrays_bits.specs.declared.error.ArrayError.TheVariants.{Length};
ghost use Rattle.polars_arrays_flat.specs.Row.{Rows};
ghost use Rattle.polars_arrays_flat.specs.StoredRows.{kept};
ghost use Rattle.polars_arrays_flat.specs.Validity.{is_present, masked_count};
ghost use Rattle.polars_arrays_nested.specs.AnyRows.{row, rows_from};
ghost use Rattle.polars_arrays_nested.specs.Clones.{IsClone};
ghost use Rattle.polars_arrays_nested.specs.Cuts.{IsCut};
ghost use Rattle.polars_arrays_nested.specs.GoodParts.{AreFixedLists, IsGood};
ghost use Rattle.polars_arrays_nested.specs.Lengths.{len_of};
ghost use Rattle.polars_arrays_nested.specs.Parts.{fixed_validity, fixed_values, fixed_width};
ghost use Rattle.polars_arrays_nested.specs.StoredRows.{stored_fixed_list, stored_fixed_lists};
ghost use Rattle.polars_arrays_nested.specs.StoredRowLaws.{listed-present};
ghost use Rattle.polars_arrays_nested.specs.Types.{type_of};
ghost use Rattle.polars_arrays_nested.specs.declared.any_array.AnyArray.{FixedSizeList};
ghost use Rattle.polars_arrays_nested.specs.declared.any_array.AnyArray.{size-AnyArray};
ghost use Rattle.polars_arrays_nested.specs.declared.fixed_size_list.FixedSizeListArray.{
  size-FixedSizeListArray,
};

use crate::any_array::AnyArray;
use polars_arrays_bits::bitmap::Bitmap;
use polars_arrays_bits::error::{ArrayError, ComputeError};
use polars_arrays_flat::array::Array;
use polars_arrays_flat::mask::Mask;
use polars_arrays_flat::validity::{clone_validity, has_bits, null_count, slice_validity};
use std::alloc::Global;

/// An array of lists that all have the same number of items, with an optional validity.
#[cycle(arrays)]
#[derive(Drop)]
pub struct FixedSizeListArray {
    // number of items of each list
    width: usize,
    // number of lists; the items alone do not determine it if `width` is 0
    len: usize,
    values: Box<AnyArray>,
    validity: Option<Bitmap>,
}

impl FixedSizeListArray {
    /// Creates an array of `len` lists of `width` items each, which follow one another in `values`.
    /// The error is `Length` if the validity does not have one bit per list, or if `values` does
    /// not have `width * len` rows.
    pub fn try_new(
        width: usize,
        len: usize,
        values: Box<AnyArray>,
        validity: Option<Bitmap>,
    ) -> Result<FixedSizeListArray, ArrayError>
        requires { IsGood values.value }
        ensures made { OkIff result (AreFixedLists (len_of values.value) width len validity)
            (record { width = width; len = len; values = values; validity = validity }) }
        ensures refused { IfErr result (λ e. e ≡ Length) }
        ensures good { IfOk result (λ a. IsGood (FixedSizeList a)) }
        ensures rows { IfOk result
            (λ a. (i : ℕ) → row (FixedSizeList a) i
            ≡ kept (is_present validity i)
            (Rows (rows_from (row values.value) (width * i) width))) }
    {
        if !has_bits(len, &validity) || width.checked_mul(len) != Some(values.len()) {
            return Err(ArrayError::Length);
        }
        Ok(FixedSizeListArray {
            width,
            len,
            values,
            validity,
        })
    }

    /// Returns the number of lists.
    pub fn len(&self) -> usize
        ensures { result ≡ len_of (FixedSizeList self.now) }
    {
        self.len
    }

    /// Returns the number of items of each list.
    pub fn width(&self) -> usize
        ensures { result ≡ fixed_width self.now }
    {
        self.width
    }

    /// Returns the array of the items of all lists.
    pub fn values(&self) -> &AnyArray
        ensures values { result.now ≡ fixed_values self.now }
        ensures smaller { size-AnyArray result.now < size-FixedSizeListArray self.now }
    {
        &self.values
    }

    /// Slices the array in place: only the `n` rows from row `at` on remain.
    #[cycle(slices)]
    pub fn slice(&mut self, at: usize, n: usize)
        requires good { IsGood (FixedSizeList self.old) }
        requires within { at + n ≤ len_of (FixedSizeList self.old) }
        ensures { IsCut (FixedSizeList self.new) (FixedSizeList self.old) at n }
    {
        // The products below are at most this number, so they fit a `usize`.
        let _items = self.values.len();
        self.values.slice(self.width * at, self.width * n);
        slice_validity(&mut self.validity, at, n);
        self.len = n;
    }

    /// Clones the array. The error is `Memory`.
    #[cycle(clones)]
    #[tactic(auto, using(crate::proofs::Clones::copies))]
    pub fn clone_array(&self, alloc: Global) -> Result<FixedSizeListArray, ComputeError>
        ensures { MatchResult result
            (λ copy. IsClone (FixedSizeList copy) (FixedSizeList self.now)) IsMemory }
    {
        let values = self.values.clone_array(alloc)?;
        let values = Box::new(alloc, values)?;
        let validity = clone_validity(alloc, &self.validity)?;
        Ok(FixedSizeListArray {
            width: self.width,
            len: self.len,
            values,
            validity,
        })
    }
}

impl Array for FixedSizeListArray {
    ghost slots = { stored_fixed_lists };

    ghost validity_bits = { fixed_validity };

    ghost mask = { fixed_validity };

    ghost nulls = { λ a. masked_count (fixed_validity a) };

    ghost same_type = { λ a b. type_of (FixedSizeList a) ≡ type_of (FixedSizeList b) };

    ghost good = { λ a. IsGood (FixedSizeList a) };

    #[tactic(auto, using(crate::proofs::Lengths::lengths))]
    fn len(&self) -> usize {
        self.len
    }

    #[tactic(auto, using(crate::proofs::Lengths::lengths))]
    fn validity(&self) -> Option<&Bitmap> {
        self.validity.as_ref()
    }

    #[tactic(auto, using(crate::proofs::Lengths::lengths))]
    fn missing_mask(&self, _alloc: Global) -> Result<Mask<'_>, ComputeError> {
        Ok(Mask::lent(self.validity()))
    }

    #[tactic(auto, using(crate::proofs::NullCounts::nulls_counted))]
    fn null_count(&self) -> usize {
        null_count(&self.validity)
    }

    ghost null_law = { λ a b i within is_null. absurd
        (listed-present (stored_fixed_list a) _ i (λ k. refl) within is_null) };
}
