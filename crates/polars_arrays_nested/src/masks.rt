//! Masks of arrays of any kind and of their windows.
//!
//! A row is null if its bit of the validity is 0, if the array is a `Null` array, or if the array
//! is a dictionary and the row's entry is null.

ghost use Rattle.std.specs.Prelude.{◌≡◌, ◌+◌, ◌≤◌, ◌<◌, ℕ, false, IfSome, MatchResult, length};
ghost use Rattle.std.specs.Option.{ForSome, option_copied};
ghost use Rattle.polars_arrays_bits.specs.Errors.{IsMemory};
ghost use Rattle.polars_arrays_flat.specs.ArrayRows.{is_null};
ghost use Rattle.polars_arrays_flat.specs.Validity.{HasBits, is_present, validity_window, window};
ghost use Rattle.polars_arrays_nested.specs.AnyRows.{row};
ghost use Rattle.polars_arrays_nested.specs.DictKeys.{key_count, key_validity};
ghost use Rattle.polars_arrays_nested.specs.GoodParts.{IsGood};
ghost use Rattle.polars_arrays_nested.specs.Lengths.{len_of};
ghost use Rattle.polars_arrays_nested.specs.Masks.{has_bits, mask_of, named_bits, names_present};
ghost use Rattle.polars_arrays_nested.specs.Masks.{presence_of};
ghost use Rattle.polars_arrays_nested.specs.Parts.{dictionary_keys, dictionary_values};
ghost use Rattle.polars_arrays_nested.specs.declared.any_array.AnyArray.{Dictionary};

use crate::any_array::{AnyArray, each_array};
use crate::dict_keys::DictKeys;
use crate::dictionary::DictionaryArray;
use polars_arrays_bits::bitmap::Bitmap;
use polars_arrays_bits::builder::BitmapBuilder;
use polars_arrays_bits::error::ComputeError;
use polars_arrays_bits::packing::TruthValues;
use polars_arrays_flat::array::Array;
use polars_arrays_flat::mask::Mask;
use polars_arrays_flat::validity::is_present;
use std::alloc::Global;

// Returns whether the array may have nulls: it is a `Null` array, it has a validity, or it is a
// dictionary whose entries may have nulls.
#[tactic(auto, using(crate::proofs::Presence::entries))]
fn keeps_bits(array: &AnyArray) -> bool
    requires { IsGood array.now }
    ensures { result ≡ has_bits (presence_of array.now) }
{
    match array {
        AnyArray::Null(_) => true,
        AnyArray::Dictionary(array) => {
            keeps_bits(array.values()) || array.keys().validity().is_some()
        }
        _ => array.validity().is_some(),
    }
}

// Returns whether row `i` is not null. A row of a dictionary is not null if its key is present and
// the entry is not null.
#[tactic(auto, using(crate::proofs::Presence::entries))]
fn is_there(array: &AnyArray, i: usize) -> bool
    requires good { IsGood array.now }
    requires within { i < len_of array.now }
    ensures { result ≡ is_present (presence_of array.now) i }
{
    match array {
        AnyArray::Null(_) => false,
        AnyArray::Dictionary(array) => {
            is_present(array.keys().validity(), i) && is_there(array.values(), array.key_value(i))
        }
        _ => is_present(array.validity(), i),
    }
}

// Returns whether row `i` of a dictionary is not null: its key is present, and the entry is not
// null.
#[tactic(auto, using(crate::proofs::Presence::entries))]
pub(crate) fn has_entry(array: &DictionaryArray, i: usize) -> bool
    requires good { IsGood (Dictionary array.now) }
    requires within { i < len_of (Dictionary array.now) }
    ensures { result
        ≡ names_present (dictionary_keys array.now) (presence_of (dictionary_values array.now)) i }
{
    let keys = array.keys();
    is_present(keys.validity(), i) && is_there(array.values(), array.key_value(i))
}

// A list of truth values for the `n` keys from key `at` on. A value is true if the key and its
// entry are both present. `validity` is the validity of `keys`, and `entries` the mask of the
// entries.
#[derive(Drop)]
struct NamedEntries<'m, 'a> {
    keys: &'m DictKeys,
    validity: Option<&'m Bitmap>,
    entries: &'m Mask<'a>,
    at: usize,
    n: usize,
    ghost of_keys: { option_copied validity ≡ key_validity keys.now },
    ghost bits: { ForSome (key_validity keys.now) (λ bits. length bits ≡ key_count keys.now) },
    ghost within: { at + n ≤ key_count keys.now },
}

impl TruthValues for NamedEntries<'_, '_> {
    ghost values = { λ e. window e.at e.n (named_bits e.keys.now e.entries.now) };

    #[tactic(auto, using(crate::proofs::Presence::windows))]
    #[inline]
    fn len(&self) -> usize {
        self.n
    }

    #[tactic(auto, using(crate::proofs::Presence::windows))]
    #[inline]
    fn value(&self, i: usize) -> bool {
        // Has no effect at run time. The proof learns from it that the sum fits in 64 bits.
        let _keys = self.keys.len();
        let row = self.at + i;
        is_present(self.validity, row) && self.entries.is_present(self.keys.key(row))
    }
}

// Computes the mask of the `n` rows of a dictionary from row `at` on. Follows each key to its
// entry, and, if the entry is a key again, on to the last entry. The error is `Memory`.
#[tactic(auto, using(crate::proofs::Presence::windows))]
fn followed_window(
    alloc: Global,
    array: &DictionaryArray,
    at: usize,
    n: usize,
) -> Result<Bitmap, ComputeError>
    requires good { IsGood (Dictionary array.now) }
    requires within { at + n ≤ len_of (Dictionary array.now) }
    ensures { MatchResult result
        (λ bits. bits
        ≡ window at n
        (named_bits (dictionary_keys array.now) (presence_of (dictionary_values array.now))))
        IsMemory }
{
    // Has no effect at run time. The proof learns from it that the sums fit in 64 bits.
    let _rows = array.keys().len();
    let mut bits = BitmapBuilder::with_capacity(alloc, n)?;
    for i in 0..n {
        bits.push_reserved(has_entry(array, at + i));
    }
    Ok(bits.freeze())
}

// Computes the mask of the `n` rows of a dictionary from row `at` on. Reads the validity of the
// entries directly, unless the entries are a `Null` array or a dictionary. The error is `Memory`.
#[tactic(auto, using(crate::proofs::Presence::windows, crate::proofs::Presence::entries))]
fn named_window(
    alloc: Global,
    array: &DictionaryArray,
    at: usize,
    n: usize,
) -> Result<Bitmap, ComputeError>
    requires good { IsGood (Dictionary array.now) }
    requires within { at + n ≤ len_of (Dictionary array.now) }
    ensures { MatchResult result
        (λ bits. bits
        ≡ window at n
        (named_bits (dictionary_keys array.now) (presence_of (dictionary_values array.now))))
        IsMemory }
{
    match array.values() {
        AnyArray::Null(_) | AnyArray::Dictionary(_) => followed_window(alloc, array, at, n),
        entries => {
            let keys = array.keys();
            let validity = keys.validity();
            let entries = &Mask::lent(entries.validity());
            Bitmap::from_values(
                alloc,
                &NamedEntries {
                    keys,
                    validity,
                    entries,
                    at,
                    n,
                },
            )
        }
    }
}

// Returns the mask of the `n` rows of a dictionary from row `at` on. Computes the mask if the
// entries may have nulls (`keeps_bits`), and otherwise borrows the validity of the keys. The error
// is `Memory`.
#[tactic(auto, using(crate::proofs::Presence::windows))]
fn dictionary_window(
    alloc: Global,
    array: &DictionaryArray,
    at: usize,
    n: usize,
) -> Result<Mask<'_>, ComputeError>
    requires good { IsGood (Dictionary array.now) }
    requires within { at + n ≤ len_of (Dictionary array.now) }
    ensures mask { MatchResult result
        (λ present. present ≡ validity_window at n (mask_of (Dictionary array.now))) IsMemory }
    ensures bits { HasBits n (validity_window at n (mask_of (Dictionary array.now))) }
{
    if keeps_bits(array.values()) {
        let bits = named_window(alloc, array, at, n)?;
        return Ok(Mask::owned(bits));
    }
    Ok(lent_window(array.keys().validity(), at, n))
}

// Returns the mask of all rows of a dictionary. The error is `Memory`.
#[tactic(auto, using(crate::proofs::Presence::windows))]
pub(crate) fn dictionary_mask(
    alloc: Global,
    array: &DictionaryArray,
) -> Result<Mask<'_>, ComputeError>
    requires { IsGood (Dictionary array.now) }
    ensures mask { MatchResult result
        (λ present. present ≡ mask_of (Dictionary array.now)) IsMemory }
    ensures bits { HasBits (len_of (Dictionary array.now)) (mask_of (Dictionary array.now)) }
{
    let keys = array.keys();
    // Has no effect at run time. The proof learns from it that a validity has a bit for each key.
    let _validity = keys.validity();
    dictionary_window(alloc, array, 0, keys.len())
}

// Creates the mask of the `n` rows from row `at` on. The mask borrows its bits from `validity`. If
// this is `None`, all rows are present.
#[inline(always)]
fn lent_window<'a>(validity: Option<&'a Bitmap>, at: usize, n: usize) -> Mask<'a>
    requires { IfSome (option_copied validity) (λ bits. at + n ≤ length bits) }
    ensures { result ≡ validity_window at n (option_copied validity.entry) }
{
    match validity {
        Some(bits) => Mask::lent_window(bits, at, n),
        None => Mask::all(),
    }
}

impl AnyArray {
    /// Returns the mask of all rows. Borrows the bits from the array, or computes them. A `Null`
    /// array has a mask without bits, since its stored rows are null already. The error is
    /// `Memory`.
    #[tactic(auto, using(crate::proofs::Lengths::lengths))]
    pub fn missing_mask(&self, alloc: Global) -> Result<Mask<'_>, ComputeError>
        requires { IsGood self.now }
        ensures mask { MatchResult result (λ present. present ≡ mask_of self.now) IsMemory }
        ensures bits { HasBits (len_of self.now) (mask_of self.now) }
    {
        each_array!(self, array => array.missing_mask(alloc))
    }

    /// Returns the mask of the `n` rows from row `at` on. Computes at most `n` bits, so the cost
    /// does not depend on the length of the array. The error is `Memory`.
    #[tactic(auto, using(crate::proofs::Presence::windows))]
    #[inline(always)]
    pub fn window_mask(&self, alloc: Global, at: usize, n: usize) -> Result<Mask<'_>, ComputeError>
        requires good { IsGood self.now }
        requires within { at + n ≤ len_of self.now }
        ensures mask { MatchResult result
            (λ present. present ≡ validity_window at n (mask_of self.now)) IsMemory }
        ensures bits { HasBits n (validity_window at n (mask_of self.now)) }
    {
        match self {
            AnyArray::Dictionary(array) => dictionary_window(alloc, array, at, n),
            _ => Ok(lent_window(self.validity(), at, n)),
        }
    }

    /// Returns `false` only if no row is null. May return `true` for an array without nulls, since
    /// all bits of a validity may be 1.
    #[tactic(auto, using(crate::proofs::Presence::rows_told))]
    pub fn may_have_nulls(&self) -> bool
        requires { IsGood self.now }
        ensures { result ≡ false → (i : ℕ) → i < len_of self.now → is_null (row self.now i)
            ≡ false }
    {
        keeps_bits(self)
    }

    /// Returns whether row `i` is null: its bit of the validity is 0, the array is a `Null` array,
    /// or the array is a dictionary and the row's entry is null.
    #[tactic(auto, using(crate::proofs::Presence::rows_told))]
    pub fn is_null_row(&self, i: usize) -> bool
        requires good { IsGood self.now }
        requires within { i < len_of self.now }
        ensures { result ≡ is_null (row self.now i) }
    {
        !is_there(self, i)
    }
}
