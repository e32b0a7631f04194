//! Borrowed windows of packed truth values.

ghost use Rattle.std.specs.Prelude.{◌≡◌, ℕ, ◌+◌, ◌*◌, ◌<◌, ◌≤◌, false, not, length, take, drop};
ghost use Rattle.std.specs.Prelude.{count_by, slice_get};
ghost use Rattle.std.specs.List.{list_all};
ghost use Rattle.polars_arrays_words.specs.Bits.{first_of, is_bit, window};

mod blocks;
mod logic;
mod merges;

use crate::bitmap::Bitmap;
use polars_arrays_words::runs::all_set;
use polars_arrays_words::source::{Aligned, BitSource, Shifted, count_window};
use polars_arrays_words::words::{bit_from, low_bits, place_of, word_from};
use std::marker::Model;

/// A borrowed window of a bitmap: some adjacent bits. No bit is copied.
#[derive(Drop)]
pub struct BitMask<'a> {
    words: &'a [u64],
    // index of the first bit of the window, counted from the lowest bit of the first word
    at: usize,
    len: usize,
}

impl<'a> Model for BitMask<'a> {
    ghost use Rattle.std.specs.Prelude.{◌+◌, ◌*◌, ◌<◌, ◌≤◌, Bool, List, length};
    ghost use Rattle.polars_arrays_words.specs.Bits.{window};

    ghost Value = { List Bool };

    ghost view = { λ m. window m.at m.len m.words.now };

    ghost invariant = { λ m. (m.at < 64) × (m.at + m.len ≤ 64 * length m.words.now) };
}

impl<'a> BitMask<'a> {
    /// Creates the window of all bits of a bitmap.
    pub fn from_bitmap(bitmap: &'a Bitmap) -> BitMask<'a>
        ensures { result ≡ bitmap.now }
    {
        let (words, at) = bitmap.packed();
        let len = bitmap.len();
        BitMask { words, at, len }
    }

    // Returns the words that hold the window, and the index of the window's first bit in the first
    // word.
    pub(crate) fn packed(&self) -> (&'a [u64], usize)
        ensures begin { result.1 < 64 }
        ensures within { result.1 + length self.now ≤ 64 * length result.0.now }
        ensures bits { window result.1 (length self.now) result.0.now ≡ self.now }
    {
        (self.words, self.at)
    }

    /// Returns the window of the `n` bits from index `at` on.
    pub fn window(&self, at: usize, n: usize) -> BitMask<'a>
        requires { at + n ≤ length self.now }
        ensures { result ≡ take n (drop at self.now) }
    {
        let place = place_of(self.at, at, n);
        BitMask {
            words: place.words_of(self.words),
            at: place.by,
            len: n,
        }
    }

    /// Returns the number of bits.
    pub fn len(&self) -> usize
        ensures { result ≡ length self.now }
    {
        self.len
    }

    /// Returns bit `i`.
    pub fn get(&self, i: usize) -> bool
        requires { i < length self.now }
        ensures { slice_get self.now i ≡ Some result }
    {
        bit_from(self.words, self.at, i)
    }

    /// Returns bits `64 * k` to `64 * k + 63` as a word. The first of these bits is the lowest bit.
    #[inline]
    pub fn word(&self, k: usize) -> u64
        requires { 64 * k + 64 ≤ length self.now }
        ensures { first_of (is_bit result) 64 ≡ take 64 (drop (64 * k) self.now) }
    {
        let words = self.words;
        if self.at == 0 {
            return Aligned { words }.inner_word(k);
        }
        let by = self.at;
        Shifted { words, by }.inner_word(k)
    }

    /// Returns the `n` bits from index `at` on as a word, with `n` at most 64. The first of these
    /// bits is the lowest. The bits above the last one are 0.
    #[inline]
    pub fn few_bits(&self, at: usize, n: usize) -> u64
        requires within { at + n ≤ length self.now }
        requires few { n ≤ 64 }
        ensures bits { first_of (is_bit result) n ≡ take n (drop at self.now) }
        ensures rest { (i : ℕ) → n ≤ i → i < 64 → is_bit result i ≡ false }
    {
        word_from(self.words, self.at, at) & low_bits(n)
    }

    /// Returns whether the `n` bits from index `at` on are all true.
    #[inline(always)]
    pub fn all_set(&self, at: usize, n: usize) -> bool
        requires { at + n ≤ length self.now }
        ensures { result ≡ list_all (λ b. b) (take n (drop at self.now)) }
    {
        all_set(self.words, self.at, at, n)
    }

    /// Returns the number of false bits.
    pub fn unset_bits(&self) -> usize
        ensures { result ≡ count_by not self.now }
    {
        self.len - count_window(self.words, self.at, self.len)
    }
}
