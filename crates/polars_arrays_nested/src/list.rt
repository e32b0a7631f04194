//! Arrays of lists.

ghost use Rattle.std.specs.Prelude.{◌≡◌, ◌<◌, ◌+◌, ◌≤◌, ℕ, IfOk, IfErr, refl, MatchResult};
ghost use Rattle.std.specs.Result.{OkIff};
ghost use Rattle.polars_arrays_bits.specs.Errors.{IsMemory};
ghost use Rattle.polars_arrays_flat.specs.Row.{Rows};
ghost use Rattle.polars_arrays_flat.specs.StoredRows.{kept};
ghost use Rattle.polars_arrays_flat.specs.Validity.{is_present, masked_count};
ghost use Rattle.polars_arrays_nested.specs.AnyRows.{row, rows_from};
ghost use Rattle.polars_arrays_nested.specs.Clones.{IsClone};
ghost use Rattle.polars_arrays_nested.specs.Cuts.{IsCut};
ghost use Rattle.polars_arrays_nested.specs.Faults.{IsListFault};
ghost use Rattle.polars_arrays_nested.specs.GoodParts.{AreLists, IsGood};
ghost use Rattle.polars_arrays_nested.specs.Lengths.{len_of};
ghost use Rattle.polars_arrays_nested.specs.ListOffsets.{offset_at, span};
ghost use Rattle.polars_arrays_nested.specs.Parts.{list_offsets, list_validity, list_values};
ghost use Rattle.polars_arrays_nested.specs.StoredRows.{stored_list, stored_lists};
ghost use Rattle.polars_arrays_nested.specs.StoredRowLaws.{listed-present};
ghost use Rattle.polars_arrays_nested.specs.Types.{type_of};
ghost use Rattle.polars_arrays_nested.specs.declared.any_array.AnyArray.{List, size-AnyArray};
ghost use Rattle.polars_arrays_nested.specs.declared.list.ListArray.{size-ListArray};

use crate::any_array::AnyArray;
use crate::list_offsets::ListOffsets;
use polars_arrays_bits::bitmap::Bitmap;
use polars_arrays_bits::error::{ArrayError, ComputeError};
use polars_arrays_flat::array::Array;
use polars_arrays_flat::mask::Mask;
use polars_arrays_flat::validity::{clone_validity, has_bits, null_count, slice_validity};
use std::alloc::Global;

/// An array of lists, with an optional validity. The items of all lists lie in one array. Offsets
/// say where each list begins and ends.
#[cycle(arrays)]
#[derive(Drop)]
pub struct ListArray {
    offsets: ListOffsets,
    values: Box<AnyArray>,
    validity: Option<Bitmap>,
}

impl ListArray {
    /// Creates an array of lists: row `i` has the rows `offsets[i]..offsets[i + 1]` of `values` as
    /// its items. For example, the offsets 0, 2, 2 make a list of two items and an empty list. The
    /// first offset need not be 0. The errors, in the order of the checks, are
    /// - `Length`, if the validity does not have one bit per row (the number of rows is one less
    ///   than the number of offsets, or 0 if there are no offsets),
    /// - `Offsets` with the first row for which `0 <= offsets[i] <= offsets[i + 1] <= values.len()`
    ///   does not hold (`i` is the row). It is row 0 also if there are no offsets, or if the only
    ///   offset is not in `0..=values.len()`.
    ///
    /// The offsets of null rows are checked too.
    #[tactic(auto, using(crate::proofs::Faults::faults))]
    pub fn try_new(
        offsets: ListOffsets,
        values: Box<AnyArray>,
        validity: Option<Bitmap>,
    ) -> Result<ListArray, ArrayError>
        requires { IsGood values.value }
        ensures made { OkIff result (AreLists (len_of values.value) offsets validity)
            (record { offsets = offsets; values = values; validity = validity }) }
        ensures refused { IfErr result (IsListFault (len_of values.value) offsets validity) }
        ensures good { IfOk result (λ a. IsGood (List a)) }
        ensures rows { IfOk result
            (λ a. (i : ℕ) → row (List a) i
            ≡ kept (is_present validity i)
            (Rows (rows_from (row values.value) (offset_at offsets i) (span offsets i)))) }
    {
        if !has_bits(offsets.len(), &validity) {
            drop((offsets, values, validity));
            return Err(ArrayError::Length);
        }
        match offsets.first_bad_row(values.len()) {
            Some(row) => {
                drop((offsets, values, validity));
                Err(ArrayError::Offsets { row })
            }
            None => Ok(ListArray {
                offsets,
                values,
                validity,
            }),
        }
    }

    /// Returns the offsets. List `i` has the items `offsets[i]..offsets[i + 1]`.
    pub fn offsets(&self) -> &ListOffsets
        ensures { result.now ≡ list_offsets self.now }
    {
        &self.offsets
    }

    /// Returns the array of all items, including those of masked rows and those that belong to no
    /// list.
    pub fn values(&self) -> &AnyArray
        ensures values { result.now ≡ list_values self.now }
        ensures smaller { size-AnyArray result.now < size-ListArray self.now }
    {
        &self.values
    }

    /// Slices the array in place: only the `n` rows from row `at` on remain. The array of items
    /// does not change.
    #[tactic(auto, using(crate::proofs::Cuts::kept_parts))]
    pub fn slice(&mut self, at: usize, n: usize)
        requires good { IsGood (List self.old) }
        requires within { at + n ≤ len_of (List self.old) }
        ensures { IsCut (List self.new) (List self.old) at n }
    {
        self.offsets.slice(at, n);
        slice_validity(&mut self.validity, at, n);
    }

    /// Clones the array. The error is `Memory`.
    #[cycle(clones)]
    #[tactic(auto, using(crate::proofs::Clones::copies))]
    pub fn clone_array(&self, alloc: Global) -> Result<ListArray, ComputeError>
        ensures { MatchResult result (λ copy. IsClone (List copy) (List self.now)) IsMemory }
    {
        let values = self.values.clone_array(alloc)?;
        let values = Box::new(alloc, values)?;
        let validity = clone_validity(alloc, &self.validity)?;
        let offsets = self.offsets.clone_offsets(alloc)?;
        Ok(ListArray {
            offsets,
            values,
            validity,
        })
    }
}

impl Array for ListArray {
    ghost slots = { stored_lists };

    ghost validity_bits = { list_validity };

    ghost mask = { list_validity };

    ghost nulls = { λ a. masked_count (list_validity a) };

    ghost same_type = { λ a b. type_of (List a) ≡ type_of (List b) };

    ghost good = { λ a. IsGood (List a) };

    #[tactic(auto, using(crate::proofs::Lengths::lengths))]
    fn len(&self) -> usize {
        self.offsets.len()
    }

    #[tactic(auto, using(crate::proofs::Lengths::lengths))]
    fn validity(&self) -> Option<&Bitmap> {
        self.validity.as_ref()
    }

    #[tactic(auto, using(crate::proofs::Lengths::lengths))]
    fn missing_mask(&self, _alloc: Global) -> Result<Mask<'_>, ComputeError> {
        Ok(Mask::lent(self.validity()))
    }

    #[tactic(auto, using(crate::proofs::NullCounts::nulls_counted))]
    fn null_count(&self) -> usize {
        null_count(&self.validity)
    }

    ghost null_law = { λ a b i within is_null. absurd
        (listed-present (stored_list a) _ i (λ k. refl) within is_null) };
}
