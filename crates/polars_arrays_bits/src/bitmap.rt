//! Immutable lists of packed truth values.

ghost use Rattle.std.specs.Prelude.{◌≡◌, ℕ, ◌+◌, ◌*◌, ◌/◌, ◌%◌, ◌<◌, ◌≤◌, Bool, false, List};
ghost use Rattle.std.specs.Prelude.{length, take, drop, get_or, slice_get, vec_len, replicate};
ghost use Rattle.std.specs.Prelude.{MatchResult};
ghost use Rattle.polars_arrays_words.specs.Bits.{is_bit, first_of, window};
ghost use Rattle.polars_arrays_bits.specs.Errors.{IsMemory};

mod counts;
mod logic;

use crate::buffer::Buffer;
use crate::error::ComputeError;
use crate::mutable_bitmap::MutableBitmap;
use polars_arrays_words::packing::{Bools, Packed, TruthValues};
use polars_arrays_words::source::{Aligned, BitSource, Shifted, collect_words};
use polars_arrays_words::words::{WORD_BITS, bit_from, filled_word, place_of};
use std::alloc::Global;
use std::marker::Model;

/// A list of truth values, packed into 64-bit words, lowest bit first (the Arrow layout). The bits
/// can't be written. Clones of a shared bitmap use the same words (see `share`).
#[derive(Drop)]
pub struct Bitmap {
    // bits before `at` and from `at + len` on are arbitrary
    words: Buffer<u64>,
    // index of the first bit of the bitmap, counted from the lowest bit of the first word
    at: usize,
    len: usize,
}

impl Model for Bitmap {
    ghost use Rattle.std.specs.Prelude.{◌+◌, ◌*◌, ◌<◌, ◌≤◌, Bool, List, length};
    ghost use Rattle.polars_arrays_words.specs.Bits.{window};

    ghost Value = { List Bool };

    ghost view = { λ b. window b.at b.len b.words.items };

    ghost invariant = { λ b. (b.at < 64) × (b.at + b.len ≤ 64 * length b.words.items) };
}

impl Bitmap {
    /// Creates a bitmap of `len` false bits. The error is `Memory`.
    pub fn new_zeroed(alloc: Global, len: usize) -> Result<Bitmap, ComputeError>
        ensures { MatchResult result (λ bits. bits ≡ replicate len false) IsMemory }
    {
        Bitmap::new_with_value(alloc, false, len)
    }

    /// Creates a bitmap of `len` bits that are all `value`. The error is `Memory`.
    pub fn new_with_value(alloc: Global, value: bool, len: usize) -> Result<Bitmap, ComputeError>
        ensures { MatchResult result (λ bits. bits ≡ replicate len value) IsMemory }
    {
        let words = vec![in alloc; filled_word(value); len.div_ceil(WORD_BITS)]?;
        Ok(Bitmap::from_vec(words, len))
    }

    /// Creates a bitmap of the truth values of a slice. The error is `Memory`.
    pub fn from_bools(alloc: Global, values: &[bool]) -> Result<Bitmap, ComputeError>
        ensures { MatchResult result (λ bits. bits ≡ values.now) IsMemory }
    {
        Bitmap::from_values(alloc, &Bools { values })
    }

    /// Creates a bitmap of the truth values of `values`, such as the results of comparing two
    /// slices. The error is `Memory`.
    pub fn from_values<V: TruthValues>(alloc: Global, values: &V) -> Result<Bitmap, ComputeError>
        ensures { MatchResult result (λ bits. bits ≡ V.values values.now) IsMemory }
    {
        let source = Packed { values };
        Bitmap::from_source(alloc, &source, values.len())
    }

    // Creates a bitmap of the first `len` bits of a source. The error is `Memory`.
    pub(crate) fn from_source<S: BitSource>(
        alloc: Global,
        source: &S,
        len: usize,
    ) -> Result<Bitmap, ComputeError>
        ensures { MatchResult result (λ bits. bits ≡ first_of (S.bit source.now) len) IsMemory }
    {
        let words = collect_words(alloc, source, len.div_ceil(WORD_BITS))?;
        Ok(Bitmap::from_vec(words, len))
    }

    /// Creates a bitmap of `n` of the bits in `words`, beginning at bit `at`. Bit `i` of the bitmap
    /// is bit `(at + i) % 64` of word `(at + i) / 64`; bit 0 of a word is its lowest (the Arrow
    /// layout). No word is copied.
    pub fn from_words(words: Buffer<u64>, at: usize, n: usize) -> Bitmap
        requires { at + n ≤ 64 * length words.items }
        ensures len { length result ≡ n }
        ensures bits { (i : ℕ) → i < n → get_or result i false
            ≡ is_bit (get_or words.items ((at + i) / 64) 0) ((at + i) % 64) }
    {
        let place = place_of(0, at, n);
        let mut words = words;
        words.slice(place.first, place.count);
        Bitmap {
            words,
            at: place.by,
            len: n,
        }
    }

    /// Returns the number of bits.
    pub fn len(&self) -> usize
        ensures { result ≡ length self.now }
    {
        self.len
    }

    /// Returns bit `i`.
    pub fn get_bit(&self, i: usize) -> bool
        requires { i < length self.now }
        ensures { slice_get self.now i ≡ Some result }
    {
        bit_from(self.words.as_slice(), self.at, i)
    }

    /// Returns bit `i`, or `None` if `i` is not below the number of bits.
    pub fn get(&self, i: usize) -> Option<bool>
        ensures { result ≡ slice_get self.now i }
    {
        if i < self.len() {
            Some(self.get_bit(i))
        } else {
            None
        }
    }

    /// Slices the bitmap in place: only the `n` bits from index `at` on remain. No bit is moved.
    pub fn slice(&mut self, at: usize, n: usize)
        requires { at + n ≤ length self.old }
        ensures { self.new ≡ take n (drop at self.old) }
    {
        let place = place_of(self.at, at, n);
        self.words.slice(place.first, place.count);
        self.at = place.by;
        self.len = n;
    }

    /// Converts to a bitmap whose words are shared: later clones use the same words instead of
    /// copying them. The bits don't change, and no word is moved. The error is `Memory`.
    pub fn share(self, alloc: Global) -> Result<Bitmap, ComputeError>
        ensures { MatchResult result (λ shared. shared ≡ self) IsMemory }
    {
        let Bitmap { words, at, len } = self;
        let words = words.share(alloc)?;
        Ok(Bitmap { words, at, len })
    }

    /// Clones the bitmap. Owned words are copied, shared ones are not. The error is `Memory`.
    pub fn clone_bitmap(&self, alloc: Global) -> Result<Bitmap, ComputeError>
        ensures { MatchResult result (λ copy. copy ≡ self.now) IsMemory }
    {
        let words = self.words.clone_buffer(alloc)?;
        Ok(Bitmap {
            words,
            at: self.at,
            len: self.len,
        })
    }

    /// Converts to a mutable bitmap of the same bits. Reuses the words if the bitmap owns them, if
    /// no word was sliced off, and if the first bit is the lowest of its word. Otherwise copies the
    /// words. The error is `Memory`.
    pub fn into_mut(self, alloc: Global) -> Result<MutableBitmap, ComputeError>
        ensures { MatchResult result (λ bits. bits ≡ self) IsMemory }
    {
        let Bitmap { words, at, len } = self;
        if at != 0 {
            let words = words.as_slice();
            return MutableBitmap::from_source(alloc, &Shifted { words, by: at }, len);
        }
        match words.into_vec() {
            Ok(words) => Ok(MutableBitmap::from_vec(words, len)),
            Err(words) => {
                let words = words.as_slice();
                MutableBitmap::from_source(alloc, &Aligned { words }, len)
            }
        }
    }

    // Creates a bitmap of the first `len` bits of `words`. Bit 0 is the lowest bit of the first
    // word.
    pub(crate) fn from_vec(words: Vec<u64>, len: usize) -> Bitmap
        requires { len ≤ 64 * vec_len words }
        ensures { result ≡ window 0 len words.items }
    {
        let words = Buffer::from_vec(words);
        Bitmap { words, at: 0, len }
    }

    // Returns the words that store the bits, and the index of the bitmap's first bit in the first
    // word.
    pub(crate) fn packed(&self) -> (&[u64], usize)
        ensures begin { result.1 < 64 }
        ensures within { result.1 + length self.now ≤ 64 * length result.0.now }
        ensures bits { window result.1 (length self.now) result.0.now ≡ self.now }
    {
        (self.words.as_slice(), self.at)
    }
}
