//! The entries that rows of two dictionary arrays refer to.

ghost use Rattle.std.specs.Prelude.{◌≡◌, ◌<◌, ◌≤◌, ◌+◌, ◌^◌, ℕ, true, length};
ghost use Rattle.polars_arrays_bytes.specs.OffsetStrings.{place_at, places};
ghost use Rattle.polars_arrays_flat.specs.Validity.{is_present};
ghost use Rattle.polars_arrays_nested.specs.DictKeys.{key_at, key_count, key_validity};
ghost use Rattle.polars_arrays_nested.specs.GoodParts.{IsGood};
ghost use Rattle.polars_arrays_nested.specs.Lengths.{len_of};
ghost use Rattle.polars_arrays_nested.specs.Parts.{dictionary_keys, dictionary_values};
ghost use Rattle.polars_arrays_nested.specs.Places.{place_or_zero};
ghost use Rattle.polars_arrays_nested.specs.declared.any_array.AnyArray.{Dictionary};
ghost use Rattle.polars_arrays_words.specs.Bits.{is_bit};
ghost use Rattle.polars_compare_nested.specs.Entries.{AreRowEntries, HoldsKeys, HoldsPlaces};

use crate::spans::present_bits;
use polars_arrays_flat::validity::is_present;
use polars_arrays_nested::dict_keys::DictKeys;
use polars_arrays_nested::dictionary::DictionaryArray;
use polars_arrays_numbers::dictionary_key::DictionaryKey;
use polars_arrays_words::words::WORD_BITS;

/// The indices of two entries, one in each of two dictionaries.
#[derive(Drop)]
pub(crate) struct EntryPair {
    pub(crate) left: usize,
    pub(crate) right: usize,
}

/// Returns the indices of the entries that row `i` of one array and row `j` of the other refer to,
/// or `None` if at least one of the two keys is null.
#[inline]
pub(crate) fn row_entries(
    left: &DictionaryArray,
    i: usize,
    right: &DictionaryArray,
    j: usize,
) -> Option<EntryPair>
    requires left_good { IsGood (Dictionary left.now) }
    requires right_good { IsGood (Dictionary right.now) }
    requires left_in { i < len_of (Dictionary left.now) }
    requires right_in { j < len_of (Dictionary right.now) }
    ensures { AreRowEntries left.now i right.now j result }
{
    if is_present(left.keys().validity(), i) && is_present(right.keys().validity(), j) {
        Some(EntryPair {
            left: left.key_value(i),
            right: right.key_value(j),
        })
    } else {
        None
    }
}

/// The keys of `count` rows of a dictionary array, at most 64, from row `at` on. Bit `k` of
/// `present` is 1 if key `at + k` is not null. `keys[k]` is key `at + k` as the index of an entry,
/// or 0 if the key is negative.
#[derive(Drop)]
pub(crate) struct KeyBlock<'a> {
    pub(crate) array: &'a DictionaryArray,
    pub(crate) at: usize,
    pub(crate) count: usize,
    present: u64,
    keys: [usize; WORD_BITS],
    ghost few: { count ≤ 64 },
    ghost within: { at + count ≤ key_count (dictionary_keys array.now) },
    ghost fits: { at + count < 2 ^ 64 },
    ghost bits: { (i : ℕ) → i < count → is_bit present i
        ≡ is_present (key_validity (dictionary_keys array.now)) (at + i) },
    ghost read: { HoldsKeys (dictionary_keys array.now) at count keys },
}

impl<'a> KeyBlock<'a> {
    /// Reads the keys of `n` rows from row `at` on. `n` is at most 64.
    #[inline(always)]
    pub(crate) fn read(array: &'a DictionaryArray, at: usize, n: usize) -> KeyBlock<'a>
        requires few { n ≤ 64 }
        requires within { at + n ≤ key_count (dictionary_keys array.now) }
        ensures array { result.array.now ≡ array.now }
        ensures at { result.at ≡ at }
        ensures count { result.count ≡ n }
    {
        let keys = array.keys();
        // For the proof: the number of keys fits in 64 bits, so the indices don't overflow.
        let _rows = keys.len();
        KeyBlock {
            array,
            at,
            count: n,
            present: present_bits(keys.validity(), at, n),
            keys: keys_from(keys, at, n),
        }
    }

    // Returns whether key `k` of the block is not null.
    #[inline(always)]
    fn has_key(&self, k: usize) -> bool
        requires { k < self.now.count }
        ensures { result
            ≡ is_present (key_validity (dictionary_keys self.now.array.now)) (self.now.at + k) }
    {
        has_bit(self.present, k)
    }
}

// Returns `n` keys from index `at` on as indices of entries, or 0 in place of a negative key. `n`
// is at most 64; the elements after the first `n` are unspecified.
#[inline(always)]
#[tactic(auto, using(polars_arrays_nested::proofs::Places::places_of))]
fn keys_from(keys: &DictKeys, at: usize, n: usize) -> [usize; WORD_BITS]
    requires few { n ≤ 64 }
    requires within { at + n ≤ key_count keys.now }
    ensures { HoldsKeys keys.now at n result }
{
    match keys {
        DictKeys::Int8(keys) => places_from(keys.values(), at, n),
        DictKeys::Int16(keys) => places_from(keys.values(), at, n),
        DictKeys::Int32(keys) => places_from(keys.values(), at, n),
        DictKeys::Int64(keys) => places_from(keys.values(), at, n),
        DictKeys::UInt8(keys) => places_from(keys.values(), at, n),
        DictKeys::UInt16(keys) => places_from(keys.values(), at, n),
        DictKeys::UInt32(keys) => places_from(keys.values(), at, n),
        DictKeys::UInt64(keys) => places_from(keys.values(), at, n),
    }
}

// Returns `n` keys from index `at` on as indices of entries, or 0 in place of a negative key. `n`
// is at most 64; the elements after the first `n` are unspecified.
#[inline(always)]
#[tactic(auto, using(polars_arrays_nested::proofs::Places::places_of))]
fn places_from<K: DictionaryKey>(keys: &[K], at: usize, n: usize) -> [usize; WORD_BITS]
    requires few { n ≤ 64 }
    requires within { at + n ≤ length keys.now }
    ensures { HoldsPlaces (places K.value keys.now) at n result }
{
    let mut found = [0; WORD_BITS];
    for k in 0..n {
        found[k] = place_of(keys, at + k);
    }
    found
}

// Returns key `i` as the index of an entry, or 0 if it is negative.
#[inline(always)]
#[tactic(auto, using(polars_arrays_nested::proofs::Places::places_of))]
fn place_of<K: DictionaryKey>(keys: &[K], i: usize) -> usize
    requires { i < length keys.now }
    ensures { result ≡ place_or_zero (place_at (places K.value keys.now) i) }
{
    keys[i].to_entry().unwrap_or(0)
}

// Returns whether bit `i` of a word is set.
#[inline(always)]
fn has_bit(word: u64, i: usize) -> bool
    requires { i < 64 }
    ensures { result ≡ is_bit word i }
{
    (word >> i) & 1 == 1
}

/// Returns the indices of the entries that key `k` of each of two blocks refers to, or `None` if at
/// least one of the two keys is null.
#[inline(always)]
pub(crate) fn block_entries(left: &KeyBlock, right: &KeyBlock, k: usize) -> Option<EntryPair>
    requires left_good { IsGood (Dictionary left.now.array.now) }
    requires right_good { IsGood (Dictionary right.now.array.now) }
    requires left_in { k < left.now.count }
    requires right_in { k < right.now.count }
    ensures { AreRowEntries left.now.array.now (left.now.at + k) right.now.array.now
        (right.now.at + k) result }
{
    if left.has_key(k) && right.has_key(k) {
        law_entry(left.array, left.at + k);
        law_entry(right.array, right.at + k);
        Some(EntryPair {
            left: left.keys[k],
            right: right.keys[k],
        })
    } else {
        None
    }
}

// Does nothing at run time. For the proof: a key that is not null is the index of an entry.
#[inline(always)]
fn law_entry(_array: &DictionaryArray, _i: usize)
    requires good { IsGood (Dictionary _array.now) }
    requires within { _i < key_count (dictionary_keys _array.now) }
    requires present { is_present (key_validity (dictionary_keys _array.now)) _i ≡ true }
    ensures { key_at (dictionary_keys _array.now) _i < len_of (dictionary_values _array.now) }
{}
