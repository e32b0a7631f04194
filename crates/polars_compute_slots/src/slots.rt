//! The trait `Slots`: flags (slots) that are set one by one. Up to 128 slots are stored in a `u128`
//! (`WordSlots`), and more in a `MutableBitmap`.

ghost use Rattle.std.specs.Prelude.{◌≡◌, ◌+◌, ◌<◌, ◌≤◌, ◌^◌, ◌||◌, List, Bool, true, false, length};
ghost use Rattle.std.specs.Prelude.{count_by, take, replicate, slice_get, slice_set};
ghost use Rattle.std.specs.Simd.Lanes.{zip2};

use polars_arrays_bits::mutable_bitmap::MutableBitmap;
use std::marker::Model;

/// The greatest number of slots that a `WordSlots` can store.
pub const WORD_SLOTS: usize = 128;

/// A list of slots, each set or not. The last slot is that of null.
pub trait Slots {
    // A flag for each slot, true if the slot is set.
    ghost set_slots: { Self → List Bool };

    /// Sets slot `i`.
    fn set(&mut self, i: usize)
        requires { i < length (set_slots self.old) }
        ensures { set_slots self.new ≡ slice_set (set_slots self.old) i true };

    /// Returns whether slot `i` is set.
    fn is_set(&self, i: usize) -> bool
        requires { i < length (set_slots self.now) }
        ensures { slice_get (set_slots self.now) i ≡ Some result };

    /// Returns the number of set slots, not counting the last one, which is that of null. There are
    /// `n + 1` slots.
    fn count_values(&self, n: usize) -> usize
        requires { length (set_slots self.now) ≡ n + 1 }
        ensures { result ≡ count_by (λ b. b) (take n (set_slots self.now)) };

    /// Sets the slots that are set in `other`, which has the same number of slots.
    fn join(&mut self, other: &Self)
        requires { length (set_slots other.now) ≡ length (set_slots self.old) }
        ensures { set_slots self.new ≡ zip2 ◌||◌ (set_slots self.old) (set_slots other.now) };
}

/// A list of at most 128 slots, stored in a `u128`.
#[derive(Drop)]
pub struct WordSlots {
    // bits from `len` on are 0
    word: u128,
    len: usize,
}

impl Model for WordSlots {
    ghost use Rattle.std.specs.Prelude.{◌^◌, ◌<◌, ◌≤◌, Bool, List};
    ghost use Rattle.polars_arrays_words.specs.Bits.{first_of, is_bit};

    ghost Value = { List Bool };

    ghost view = { λ s. first_of (is_bit s.word) s.len };

    ghost invariant = { λ s. (s.len ≤ 128) × (s.word < 2 ^ s.len) };
}

impl WordSlots {
    /// Creates `len` slots, none of them set.
    pub fn none_set(len: usize) -> WordSlots
        requires { len ≤ 128 }
        ensures { result ≡ replicate len false }
    {
        WordSlots { word: 0, len }
    }

    /// Returns a copy. A loop that sets slots of a local copy can keep the word in registers.
    #[inline(always)]
    pub fn copied(&self) -> WordSlots
        ensures { result ≡ self.now }
    {
        WordSlots {
            word: self.word,
            len: self.len,
        }
    }

    /// Returns the number of slots.
    pub fn len(&self) -> usize
        ensures { result ≡ length self.now }
    {
        self.len
    }
}

// Returns 2^i. Shifting a word of 64 bits and then choosing the half is faster than a shift of 128
// bits.
#[inline(always)]
fn one_bit(i: usize) -> u128
    requires { i < 128 }
    ensures { result ≡ 2 ^ i }
{
    let half = u128::from(1u64 << (i % 64));
    if i < 64 { half } else { half << 64 }
}

impl Slots for WordSlots {
    ghost set_slots = { λ s. s };

    #[inline(always)]
    fn set(&mut self, i: usize) {
        let word = self.word;
        self.word = word | one_bit(i);
    }

    #[inline(always)]
    fn is_set(&self, i: usize) -> bool {
        (self.word >> i) & 1 == 1
    }

    fn count_values(&self, n: usize) -> usize {
        self.word.count_ones() as usize - usize::from(self.is_set(n))
    }

    fn join(&mut self, other: &WordSlots) {
        self.word |= other.word;
    }
}

impl Slots for MutableBitmap {
    ghost set_slots = { λ s. s };

    #[inline(always)]
    fn set(&mut self, i: usize) {
        MutableBitmap::set(self, i, true);
    }

    #[inline(always)]
    fn is_set(&self, i: usize) -> bool {
        self.get(i)
    }

    fn count_values(&self, n: usize) -> usize {
        self.set_bits() - usize::from(self.is_set(n))
    }

    fn join(&mut self, other: &MutableBitmap) {
        self.or_assign(other);
    }
}
