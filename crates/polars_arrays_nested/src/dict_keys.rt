//! The keys of dictionary arrays.

ghost use Rattle.std.specs.Option.{MatchOption, option_copied};
ghost use Rattle.std.specs.Prelude.{◌≡◌, ◌↔◌, ◌+◌, ◌<◌, ◌≤◌, ℕ, Bool, List, Some, IsTrue};
ghost use Rattle.std.specs.Prelude.{MatchResult, length, slice_index_or};
ghost use Rattle.polars_arrays_bits.specs.Errors.{IsMemory};
ghost use Rattle.polars_arrays_bytes.specs.OffsetStrings.{place_at, places};
ghost use Rattle.polars_arrays_flat.specs.Validity.{HasBits, is_present, masked_count};
ghost use Rattle.polars_arrays_flat.specs.Validity.{validity_window, window};
ghost use Rattle.polars_arrays_nested.specs.DictKeys.{IsEntry, IsFirstBadKey, IsGoodKey};
ghost use Rattle.polars_arrays_nested.specs.DictKeys.{NameEntries, key_at, key_count, key_places};
ghost use Rattle.polars_arrays_nested.specs.DictKeys.{key_type, key_validity};
ghost use Rattle.polars_arrays_nested.specs.Places.{place_or_zero};

use polars_arrays_bits::bitmap::Bitmap;
use polars_arrays_bits::error::ComputeError;
use polars_arrays_flat::array::Array;
use polars_arrays_flat::data_type::IntegerType;
use polars_arrays_flat::primitive::PrimitiveArray;
use polars_arrays_flat::validity::is_present;
use polars_arrays_numbers::dictionary_key::DictionaryKey;
use std::alloc::Global;

// Matches on `$keys`, binds the array inside to `$of_type`, and evaluates one expression for all
// types of keys.
macro_rules! each_type {
    ($keys:expr, $of_type:ident => $each:expr) => {
        match $keys {
            DictKeys::Int8($of_type) => $each,
            DictKeys::Int16($of_type) => $each,
            DictKeys::Int32($of_type) => $each,
            DictKeys::Int64($of_type) => $each,
            DictKeys::UInt8($of_type) => $each,
            DictKeys::UInt16($of_type) => $each,
            DictKeys::UInt32($of_type) => $each,
            DictKeys::UInt64($of_type) => $each,
        }
    };
}

/// The keys of a dictionary array: for each row the index of its entry, with an optional validity.
#[derive(Drop)]
pub enum DictKeys {
    Int8(PrimitiveArray<i8>),
    Int16(PrimitiveArray<i16>),
    Int32(PrimitiveArray<i32>),
    Int64(PrimitiveArray<i64>),
    UInt8(PrimitiveArray<u8>),
    UInt16(PrimitiveArray<u16>),
    UInt32(PrimitiveArray<u32>),
    UInt64(PrimitiveArray<u64>),
}

impl DictKeys {
    /// Returns the number of keys.
    #[tactic(auto, using(crate::proofs::Places::places_of))]
    pub fn len(&self) -> usize
        ensures { result ≡ key_count self.now }
    {
        each_type!(self, keys => keys.len())
    }

    /// Returns the validity of the keys: a bit for each key, 0 if the key is masked. Returns `None`
    /// if there is no validity.
    #[tactic(auto, using(crate::proofs::Places::places_of))]
    pub fn validity(&self) -> Option<&Bitmap>
        ensures mask { option_copied result ≡ key_validity self.now }
        ensures bits { HasBits (key_count self.now) (key_validity self.now) }
    {
        each_type!(self, keys => keys.validity())
    }

    /// Returns the number of masked keys.
    pub fn null_count(&self) -> usize
        ensures { result ≡ masked_count (key_validity self.now) }
    {
        each_type!(self, keys => keys.null_count())
    }

    /// Returns the type of the keys.
    pub fn key_type(&self) -> IntegerType
        ensures { result ≡ key_type self.now }
    {
        match self {
            DictKeys::Int8(_) => IntegerType::Int8,
            DictKeys::Int16(_) => IntegerType::Int16,
            DictKeys::Int32(_) => IntegerType::Int32,
            DictKeys::Int64(_) => IntegerType::Int64,
            DictKeys::UInt8(_) => IntegerType::UInt8,
            DictKeys::UInt16(_) => IntegerType::UInt16,
            DictKeys::UInt32(_) => IntegerType::UInt32,
            DictKeys::UInt64(_) => IntegerType::UInt64,
        }
    }

    /// Returns key `i` as the index of an entry, even if the key is masked. Returns 0 for a
    /// negative key, which in a dictionary only a masked row can have.
    #[inline(always)]
    #[tactic(auto, using(crate::proofs::Places::places_of))]
    pub fn key(&self, i: usize) -> usize
        requires { i < key_count self.now }
        ensures { result ≡ key_at self.now i }
    {
        each_type!(self, keys => entry_of(keys.values(), i))
    }

    /// Returns the first row whose key is present, and is negative or not below `n`, the number of
    /// entries. Returns `None` if there is no such row.
    pub fn first_bad_key(&self, n: usize) -> Option<usize>
        ensures { MatchOption result (NameEntries n (key_validity self.now) (key_places self.now))
            (IsFirstBadKey n (key_validity self.now) (key_places self.now)) }
    {
        each_type!(self, keys => first_bad(keys, n))
    }

    /// Slices the keys in place: only the `n` keys from key `at` on remain. No key is moved.
    #[tactic(auto, using(crate::proofs::Places::places_of))]
    pub fn slice(&mut self, at: usize, n: usize)
        requires { at + n ≤ key_count self.old }
        ensures places { key_places self.new ≡ window at n (key_places self.old) }
        ensures validity { key_validity self.new ≡ validity_window at n (key_validity self.old) }
        ensures name { key_type self.new ≡ key_type self.old }
    {
        each_type!(self, keys => keys.slice(at, n))
    }

    /// Clones the keys. Owned values are copied, shared ones are not. The error is `Memory`.
    pub fn clone_keys(&self, alloc: Global) -> Result<DictKeys, ComputeError>
        ensures { MatchResult result (λ copy. copy ≡ self.now) IsMemory }
    {
        match self {
            DictKeys::Int8(keys) => keys.clone_array(alloc).map(DictKeys::Int8),
            DictKeys::Int16(keys) => keys.clone_array(alloc).map(DictKeys::Int16),
            DictKeys::Int32(keys) => keys.clone_array(alloc).map(DictKeys::Int32),
            DictKeys::Int64(keys) => keys.clone_array(alloc).map(DictKeys::Int64),
            DictKeys::UInt8(keys) => keys.clone_array(alloc).map(DictKeys::UInt8),
            DictKeys::UInt16(keys) => keys.clone_array(alloc).map(DictKeys::UInt16),
            DictKeys::UInt32(keys) => keys.clone_array(alloc).map(DictKeys::UInt32),
            DictKeys::UInt64(keys) => keys.clone_array(alloc).map(DictKeys::UInt64),
        }
    }
}

// Returns key `i` as the index of an entry, or 0 if the key is negative.
#[inline(always)]
#[tactic(auto, using(crate::proofs::Places::places_of))]
fn entry_of<K: DictionaryKey>(keys: &[K], i: usize) -> usize
    requires { i < length keys.now }
    ensures { result ≡ place_or_zero (place_at (places K.value keys.now) i) }
{
    keys[i].to_entry().unwrap_or(0)
}

// Returns the first row whose key is present, and is negative or not below `n`, the number of
// entries. Returns `None` if there is no such row.
fn first_bad<K: DictionaryKey>(keys: &PrimitiveArray<K>, n: usize) -> Option<usize>
    ensures { MatchOption result (NameEntries n keys.now.validity (places K.value keys.now.values))
        (IsFirstBadKey n keys.now.validity (places K.value keys.now.values)) }
{
    for row in 0..keys.len() {
        if !is_good_key(keys, row, n) {
            return Some(row);
        }
    }
    None
}

// Returns whether the key of row `row` is masked, or is the index of one of `n` entries.
#[tactic(auto, using(crate::proofs::Places::places_of))]
fn is_good_key<K: DictionaryKey>(keys: &PrimitiveArray<K>, row: usize, n: usize) -> bool
    requires { row < length keys.now.values }
    ensures { IsTrue result ↔ IsGoodKey n keys.now.validity (places K.value keys.now.values) row }
{
    if is_present(keys.validity(), row) {
        names_entry(keys.values(), row, n)
    } else {
        true
    }
}

// Returns whether `keys[row]` is the index of one of `n` entries.
#[tactic(auto, using(crate::proofs::Places::places_of))]
fn names_entry<K: DictionaryKey>(keys: &[K], row: usize, n: usize) -> bool
    requires { row < length keys.now }
    ensures { IsTrue result ↔ IsEntry n (place_at (places K.value keys.now) row) }
{
    match keys[row].to_entry() {
        Some(entry) => entry < n,
        None => false,
    }
}
