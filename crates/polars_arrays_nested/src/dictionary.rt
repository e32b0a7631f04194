//! Dictionary arrays: keys, and the entries to which the keys refer.

ghost use Rattle.std.specs.Prelude.{◌≡◌, ◌<◌, ◌+◌, ◌≤◌, ℕ, true, IfOk, IfErr, refl, MatchResult};
ghost use Rattle.std.specs.Result.{OkIff};
ghost use Rattle.polars_arrays_bits.specs.Errors.{IsMemory};
ghost use Rattle.polars_arrays_flat.specs.ArrayRows.{is_null};
ghost use Rattle.polars_arrays_flat.specs.StoredRows.{kept};
ghost use Rattle.polars_arrays_flat.specs.Validity.{is_present, masked_count};
ghost use Rattle.polars_arrays_nested.specs.AnyRows.{entry_row, row};
ghost use Rattle.polars_arrays_nested.specs.Clones.{IsClone};
ghost use Rattle.polars_arrays_nested.specs.Cuts.{IsCut};
ghost use Rattle.polars_arrays_nested.specs.DictKeys.{key_at, key_count, key_validity};
ghost use Rattle.polars_arrays_nested.specs.Faults.{IsKeyFault};
ghost use Rattle.polars_arrays_nested.specs.GoodParts.{AreKeys, IsGood};
ghost use Rattle.polars_arrays_nested.specs.Lengths.{len_of};
ghost use Rattle.polars_arrays_nested.specs.Masks.{mask_of};
ghost use Rattle.polars_arrays_nested.specs.Parts.{dictionary_keys, dictionary_values};
ghost use Rattle.polars_arrays_nested.specs.StoredRows.{stored_entry, stored_entries};
ghost use Rattle.polars_arrays_nested.specs.StoredRowLaws.{listed-present};
ghost use Rattle.polars_arrays_nested.specs.Types.{type_of};
ghost use Rattle.polars_arrays_nested.specs.declared.any_array.AnyArray.{Dictionary, size-AnyArray};
ghost use Rattle.polars_arrays_nested.specs.declared.dictionary.DictionaryArray.{
  size-DictionaryArray,
};

use crate::any_array::AnyArray;
use crate::dict_keys::DictKeys;
use crate::masks::{dictionary_mask, has_entry};
use polars_arrays_bits::bitmap::Bitmap;
use polars_arrays_bits::error::{ArrayError, ComputeError};
use polars_arrays_flat::array::Array;
use polars_arrays_flat::mask::Mask;
use std::alloc::Global;

/// A dictionary array: keys, with an optional validity, and entries. The key of a row is the index
/// of its entry. A row is null if its key is masked or its entry is null.
#[cycle(arrays)]
#[derive(Drop)]
pub struct DictionaryArray {
    keys: DictKeys,
    values: Box<AnyArray>,
}

impl DictionaryArray {
    /// Creates a dictionary array. The key of a row is the index of its entry in `values`: the keys
    /// 1, 0, 1 and the entries `x`, `y` make the rows `y`, `x`, `y`. The error is `Key` with the
    /// first row whose key is present, and is negative or not below the number of entries. The key
    /// of a masked row may be any number.
    #[tactic(auto, using(crate::proofs::Faults::faults))]
    pub fn try_new(keys: DictKeys, values: Box<AnyArray>) -> Result<DictionaryArray, ArrayError>
        requires { IsGood values.value }
        ensures made { OkIff result (AreKeys (len_of values.value) keys)
            (record { keys = keys; values = values }) }
        ensures refused { IfErr result (IsKeyFault (len_of values.value) keys) }
        ensures good { IfOk result (λ a. IsGood (Dictionary a)) }
        ensures rows { IfOk result
            (λ a. (i : ℕ) → row (Dictionary a) i
            ≡ kept (is_present (key_validity keys) i)
            (entry_row (row values.value (key_at keys i)))) }
    {
        match keys.first_bad_key(values.len()) {
            Some(row) => {
                drop((keys, values));
                Err(ArrayError::Key { row })
            }
            None => Ok(DictionaryArray { keys, values }),
        }
    }

    /// Returns the keys. The key of a row is the index of its entry.
    pub fn keys(&self) -> &DictKeys
        ensures { result.now ≡ dictionary_keys self.now }
    {
        &self.keys
    }

    /// Returns the array of the entries, including those to which no key refers.
    pub fn values(&self) -> &AnyArray
        ensures values { result.now ≡ dictionary_values self.now }
        ensures smaller { size-AnyArray result.now < size-DictionaryArray self.now }
    {
        &self.values
    }

    /// Returns key `i` as the index of an entry. The key must be present.
    #[inline(always)]
    pub fn key_value(&self, i: usize) -> usize
        requires good { IsGood (Dictionary self.now) }
        requires within { i < key_count (dictionary_keys self.now) }
        requires present { is_present (key_validity (dictionary_keys self.now)) i ≡ true }
        ensures key { result ≡ key_at (dictionary_keys self.now) i }
        ensures entry { result < len_of (dictionary_values self.now) }
    {
        self.keys.key(i)
    }

    /// Returns whether row `i` is null: its key is masked, or its entry is null.
    #[tactic(auto, using(crate::proofs::Presence::rows_told))]
    pub fn is_null_row(&self, i: usize) -> bool
        requires good { IsGood (Dictionary self.now) }
        requires within { i < len_of (Dictionary self.now) }
        ensures { result ≡ is_null (row (Dictionary self.now) i) }
    {
        !has_entry(self, i)
    }

    /// Slices the array in place: only the `n` rows from row `at` on remain. The entries don't
    /// change.
    #[tactic(auto, using(crate::proofs::Cuts::kept_parts))]
    pub fn slice(&mut self, at: usize, n: usize)
        requires good { IsGood (Dictionary self.old) }
        requires within { at + n ≤ len_of (Dictionary self.old) }
        ensures { IsCut (Dictionary self.new) (Dictionary self.old) at n }
    {
        self.keys.slice(at, n);
    }

    /// Clones the array. The error is `Memory`.
    #[cycle(clones)]
    #[tactic(auto, using(crate::proofs::Clones::copies))]
    pub fn clone_array(&self, alloc: Global) -> Result<DictionaryArray, ComputeError>
        ensures { MatchResult result
            (λ copy. IsClone (Dictionary copy) (Dictionary self.now)) IsMemory }
    {
        let values = self.values.clone_array(alloc)?;
        let values = Box::new(alloc, values)?;
        let keys = self.keys.clone_keys(alloc)?;
        Ok(DictionaryArray { keys, values })
    }
}

impl Array for DictionaryArray {
    ghost slots = { stored_entries };

    ghost validity_bits = { λ a. key_validity (dictionary_keys a) };

    ghost mask = { λ a. mask_of (Dictionary a) };

    ghost nulls = { λ a. masked_count (key_validity (dictionary_keys a)) };

    ghost same_type = { λ a b. type_of (Dictionary a) ≡ type_of (Dictionary b) };

    ghost good = { λ a. IsGood (Dictionary a) };

    #[tactic(auto, using(crate::proofs::Lengths::lengths))]
    fn len(&self) -> usize {
        self.keys.len()
    }

    #[tactic(auto, using(crate::proofs::Lengths::lengths))]
    fn validity(&self) -> Option<&Bitmap> {
        self.keys.validity()
    }

    #[tactic(auto, using(crate::proofs::Lengths::lengths))]
    fn missing_mask(&self, alloc: Global) -> Result<Mask<'_>, ComputeError> {
        dictionary_mask(alloc, self)
    }

    #[tactic(auto, using(crate::proofs::NullCounts::nulls_counted))]
    fn null_count(&self) -> usize {
        match self.keys.validity() {
            Some(bits) => bits.unset_bits(),
            None => 0,
        }
    }

    ghost null_law = { λ a b i within is_null. absurd
        (listed-present (stored_entry a) _ i (λ k. refl) within is_null) };
}
