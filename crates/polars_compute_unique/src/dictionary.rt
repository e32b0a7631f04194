//! Distinct keys of dictionary arrays.

ghost use Rattle.std.specs.Borrow.{sem};
ghost use Rattle.std.specs.Prelude.{◌≡◌, ◌↔◌, ◌+◌, ◌<◌, ◌≤◌, ◌^◌, pos, IfOk, IsOk, IsTrue};
ghost use Rattle.std.specs.Prelude.{MatchResult, Some};
ghost use Rattle.polars_arrays_bits.specs.Errors.{IsMemory};
ghost use Rattle.polars_arrays_flat.specs.ArrayRows.{number_rows};
ghost use Rattle.polars_arrays_flat.specs.Row.{Int};
ghost use Rattle.polars_arrays_nested.specs.GoodParts.{AreKeys, IsGood};
ghost use Rattle.polars_arrays_nested.specs.Lengths.{len_of};
ghost use Rattle.polars_arrays_nested.specs.Parts.{dictionary_keys, dictionary_values};
ghost use Rattle.polars_arrays_nested.specs.declared.any_array.AnyArray.{Dictionary};
ghost use Rattle.polars_compute_slots.specs.Slots.{IsCounted};
ghost use Rattle.polars_compute_slots.specs.State.{finalised, new_state, numbers_from, read_by};
ghost use Rattle.polars_compute_unique.specs.Dictionaries.{IsFinalFault, IsMissingKey};
ghost use Rattle.polars_compute_unique.specs.Dictionaries.{NamesEntries, names_null};

use crate::kernel::RangedUniqueKernel;
use crate::primitive::PrimitiveRangedUniqueState;
use polars_arrays_bits::error::ComputeError;
use polars_arrays_flat::primitive::PrimitiveArray;
use polars_arrays_nested::any_array::AnyArray;
use polars_arrays_nested::dict_keys::DictKeys;
use polars_arrays_nested::dictionary::DictionaryArray;
use polars_compute_slots::reading::{NullValues, ReadCounts};
use std::alloc::Global;
use std::marker::Model;

// The greatest number of entries that keys of type `u32` can refer to.
const MOST_ENTRIES: usize = 1 << 32;

/// A state that collects the distinct keys of dictionary arrays. It has the entries of one
/// dictionary, which its results use. Entries aren't compared: two keys are distinct even if their
/// entries are equal. A key to a null entry is collected like any other key, and counts as null in
/// results.
#[derive(Drop)]
pub struct DictionaryRangedUniqueState {
    keys: PrimitiveRangedUniqueState<u32>,
    entries: AnyArray,
}

impl Model for DictionaryRangedUniqueState {
    ghost use Rattle.polars_arrays_nested.specs.GoodParts.{IsGood};
    ghost use Rattle.polars_arrays_nested.specs.contracts.any_array.AnyArray as any;
    ghost use Rattle.polars_compute_unique.specs.KeyState.{KeyState, key_state_code};

    ghost Value = { KeyState };

    ghost coded = { key_state_code any.the_row.coded };

    ghost view = { λ s. record { keys = s.keys; entries = s.entries } };

    ghost invariant = { λ s. IsGood s.entries };
}

/// Returns whether keys of type `u32` can refer to all entries of a dictionary: whether `values`,
/// its entries, has at most 2^32 rows.
pub fn keys_fit(values: &AnyArray) -> bool
    ensures { IsTrue result ↔ (len_of values.now ≤ 2 ^ 32) }
{
    values.len() <= MOST_ENTRIES
}

// Creates a state of the keys from 0 to `n - 1` that has seen none of them. The error is `Memory`,
// and is possible only if `n` is greater than 127.
fn new_keys(alloc: Global, n: usize) -> Result<PrimitiveRangedUniqueState<u32>, ComputeError>
    requires { n ≤ 2 ^ 32 }
    ensures state { MatchResult result
        (λ state. state ≡ new_state (numbers_from (pos 0) n)) IsMemory }
    ensures few { n ≤ 127 → IsOk result }
{
    match n {
        0 => Ok(PrimitiveRangedUniqueState::new_empty()),
        n => PrimitiveRangedUniqueState::new(alloc, 0, (n - 1) as u32),
    }
}

impl DictionaryRangedUniqueState {
    ghost use Rattle.polars_compute_unique.specs.KeyLends.{lends_keys};

    /// Creates a state of the keys of a dictionary that has seen none of them. `values` has the
    /// entries of the dictionary, at most 2^32. The error is `Memory`, and is possible only for
    /// more than 127 entries.
    pub fn new(alloc: Global, values: AnyArray) -> Result<DictionaryRangedUniqueState, ComputeError>
        requires good { IsGood values }
        requires fit { len_of values ≤ 2 ^ 32 }
        ensures state { MatchResult result
            (λ state. state
            ≡ record { keys = new_state (numbers_from (pos 0) (len_of values)); entries = values })
            IsMemory }
        ensures few { len_of values ≤ 127 → IsOk result }
    {
        match new_keys(alloc, values.len()) {
            Ok(keys) => Ok(DictionaryRangedUniqueState {
                keys,
                entries: values,
            }),
            Err(refused) => {
                drop(values);
                Err(refused)
            }
        }
    }

    /// Returns a mutable reference to the state of the keys. All that is written through it changes
    /// this state, even the range of keys.
    pub fn key_state(&mut self) -> &mut PrimitiveRangedUniqueState<u32>
        ensures* written { sem 𝓛 (lends_keys self.entry result) }
        ensures keys { result.now ≡ self.old.keys }
    {
        &mut self.keys
    }

    // Counts the keys of the range that don't refer to null entries, and those of them that were
    // seen. Also returns whether a null or a key to a null entry was seen.
    fn read_counts(&self) -> ReadCounts
        ensures counted { IsCounted (read_by (names_null self.now.entries) self.now.keys) result }
        ensures few { result.seen + 1 < 2 ^ 64 }
    {
        self.keys.read_counts(&EntryNulls::of(&self.entries))
    }
}

// Moves a value into a new box. The error is `Memory`.
fn boxed<T: Drop>(alloc: Global, value: T) -> Result<Box<T>, ComputeError>
    ensures { MatchResult result (λ boxed. boxed.value ≡ value) IsMemory }
{
    let boxed = Box::new(alloc, value)?;
    Ok(boxed)
}

// Creates a dictionary array of the keys and entries. Each key must refer to an entry.
fn array_of(keys: PrimitiveArray<u32>, entries: Box<AnyArray>) -> DictionaryArray
    requires good { IsGood entries.value }
    requires named { AreKeys (len_of entries.value) (DictKeys.UInt32 keys) }
    ensures keys { dictionary_keys result ≡ DictKeys.UInt32 keys }
    ensures entries { dictionary_values result ≡ entries.value }
    ensures good { IsGood (Dictionary result) }
{
    let Ok(array) = DictionaryArray::try_new(DictKeys::UInt32(keys), entries) else {
        unreachable!();
    };
    array
}

// Creates a dictionary array of the keys and entries. Each key must refer to an entry. The error is
// `Memory`.
fn keyed_array(
    alloc: Global,
    keys: PrimitiveArray<u32>,
    entries: AnyArray,
) -> Result<DictionaryArray, ComputeError>
    requires good { IsGood entries }
    requires named { AreKeys (len_of entries) (DictKeys.UInt32 keys) }
    ensures keys { MatchResult result
        (λ array. dictionary_keys array ≡ DictKeys.UInt32 keys) IsMemory }
    ensures entries { IfOk result (λ array. dictionary_values array ≡ entries) }
    ensures good { IfOk result (λ array. IsGood (Dictionary array)) }
{
    match boxed(alloc, entries) {
        Ok(entries) => Ok(array_of(keys, entries)),
        Err(refused) => {
            drop(keys);
            Err(refused)
        }
    }
}

// Checks that each key seen refers to one of `len` entries. Otherwise the error is `KeyOutOfRange`
// with `len` and the least key that doesn't.
fn name_entries(keys: &PrimitiveRangedUniqueState<u32>, len: usize) -> Result<(), ComputeError>
    ensures { MatchResult result (λ _. NamesEntries len keys.now) (IsMissingKey len keys.now) }
{
    match keys.least_from(len as i128) {
        Some(key) => Err(ComputeError::KeyOutOfRange { key, len }),
        None => Ok(()),
    }
}

// The keys that mean null: those that refer to null entries.
#[derive(Drop)]
struct EntryNulls<'a> {
    entries: &'a AnyArray,
}

impl<'a> EntryNulls<'a> {
    // Creates an `EntryNulls` for the entries of a dictionary.
    fn of(entries: &'a AnyArray) -> EntryNulls<'a>
        ensures { result.entries.now ≡ entries.now }
    {
        EntryNulls { entries }
    }
}

impl NullValues for EntryNulls<'_> {
    ghost use Rattle.polars_arrays_nested.specs.GoodParts.{IsGood};
    ghost use Rattle.polars_compute_unique.specs.Dictionaries.{names_null};

    ghost good = { λ n. IsGood n.entries.now };

    ghost is_null = { λ n. names_null n.entries.now };

    #[tactic(auto, using(crate::proofs::NullKeys::null_keys))]
    fn may_be_null(&self) -> bool {
        self.entries.may_have_nulls()
    }

    #[tactic(auto, using(crate::proofs::NullKeys::null_keys))]
    fn stands_for_null(&self, value: i128) -> bool {
        let len = self.entries.len();
        match usize::try_from(value) {
            Ok(key) => key < len && self.entries.is_null_row(key),
            Err(_) => false,
        }
    }
}

// Returns an array of the keys seen, ascending, without those that refer to null entries. A null is
// the last row if a null was seen, or a key to a null entry. The error is `KeyOutOfRange` if a key
// seen has no entry, and otherwise `Memory`.
fn list_keys(
    alloc: Global,
    keys: PrimitiveRangedUniqueState<u32>,
    entries: &AnyArray,
) -> Result<PrimitiveArray<u32>, ComputeError>
    requires good { IsGood entries.now }
    ensures rows { MatchResult result
        (λ array. number_rows (λ x. pos x) array
        ≡ finalised (λ v. Int v) (read_by (names_null entries.now) keys))
        (IsFinalFault (Some entries.now) keys) }
    ensures entries { IfOk result (λ _. NamesEntries (len_of entries.now) keys) }
{
    name_entries(&keys, entries.len())?;
    let array = keys.list_read(alloc, &EntryNulls::of(entries))?;
    Ok(array)
}

impl RangedUniqueKernel for DictionaryRangedUniqueState {
    ghost use Rattle.std.specs.Prelude.{Some};
    ghost use Rattle.polars_arrays_flat.specs.Row.{Int};
    ghost use Rattle.polars_arrays_nested.specs.Parts.{dictionary_keys, dictionary_values};
    ghost use Rattle.polars_compute_slots.specs.State.{read_by};
    ghost use Rattle.polars_compute_unique.specs.Dictionaries.{are_u32, key_rows, names_null};

    type Array = DictionaryArray;

    ghost state = { λ s. s.keys };

    ghost read = { λ s. read_by (names_null s.entries) s.keys };

    ghost dictionary = { λ s. Some s.entries };

    ghost fed = { λ a. key_rows (dictionary_keys a) };

    ghost is_taken = { λ a. are_u32 (dictionary_keys a) };

    ghost array_dictionary = { λ a. Some (dictionary_values a) };

    ghost value_row = { λ v. Int v };

    fn has_seen_all(&self) -> bool {
        let counts = self.read_counts();
        counts.seen == counts.values && counts.has_null
    }

    fn accepts(&self, array: &DictionaryArray) -> bool {
        match array.keys() {
            DictKeys::UInt32(keys) => self.keys.accepts(keys),
            _ => false,
        }
    }

    fn same_range(&self, other: &DictionaryRangedUniqueState) -> bool {
        self.keys.same_range(&other.keys)
    }

    fn append(&mut self, array: &DictionaryArray) {
        match array.keys() {
            DictKeys::UInt32(keys) => self.keys.append(keys),
            _ => unreachable!(),
        }
    }

    fn append_state(&mut self, other: &DictionaryRangedUniqueState) {
        self.keys.append_state(&other.keys);
    }

    fn finalize_unique(self, alloc: Global) -> Result<DictionaryArray, ComputeError> {
        let DictionaryRangedUniqueState { keys, entries } = self;
        match list_keys(alloc, keys, &entries) {
            Ok(keys) => keyed_array(alloc, keys, entries),
            Err(refused) => {
                drop(entries);
                Err(refused)
            }
        }
    }

    fn finalize_n_unique(&self) -> usize {
        let counts = self.read_counts();
        counts.seen + usize::from(counts.has_null)
    }

    fn finalize_n_unique_non_null(&self) -> usize {
        self.read_counts().seen
    }
}
