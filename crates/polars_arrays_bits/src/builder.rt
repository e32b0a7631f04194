//! A builder of bitmaps.

ghost use Rattle.std.specs.Prelude.{◌≡◌, ◌+◌, ◌-◌, ◌*◌, ◌<◌, ◌≤◌, [], ◌∷◌, ◌++◌, length, replicate};
ghost use Rattle.std.specs.Prelude.{MatchResult};
ghost use Rattle.polars_arrays_words.specs.Bits.{first_of};
ghost use Rattle.polars_arrays_words.specs.Blocks.{blocks_all};
ghost use Rattle.polars_arrays_bits.specs.Errors.{IsMemory};

use crate::bit_mask::BitMask;
use crate::bitmap::Bitmap;
use crate::error::ComputeError;
use polars_arrays_words::folds::{BitPairs, Blocks, Fours};
use polars_arrays_words::packing::TruthValues;
use polars_arrays_words::source::BitSource;
use polars_arrays_words::words::WORD_BITS;
use polars_arrays_words::write::{append_bits, append_values, fill_bits, write_bit};
use std::alloc::Global;
use std::marker::Model;

/// A bitmap under construction, with room for a limited number of further bits.
#[derive(Drop)]
pub struct BitmapBuilder {
    // bits from `len` on are arbitrary
    words: Vec<u64>,
    len: usize,
    room: usize,
}

impl Model for BitmapBuilder {
    ghost use Rattle.std.specs.Prelude.{◌+◌, ◌*◌, ◌^◌, ◌<◌, ◌≤◌, length};
    ghost use Rattle.polars_arrays_words.specs.Bits.{window};
    ghost use Rattle.polars_arrays_bits.specs.Draft.{Draft};

    ghost Value = { Draft };

    ghost view = { λ b. record { bits = window 0 b.len b.words.items; room = b.room } };

    ghost invariant = { λ b. (b.len + b.room ≤ 64 * length b.words.items)
        × (b.len + b.room < 2 ^ 64) };
}

impl BitmapBuilder {
    /// Creates an empty builder with room for at least `n` bits. The error is `Memory`.
    pub fn with_capacity(alloc: Global, n: usize) -> Result<BitmapBuilder, ComputeError>
        ensures empty { MatchResult result (λ builder. builder.bits ≡ []) IsMemory }
        ensures room { MatchResult result (λ builder. n ≤ builder.room) IsMemory }
    {
        let words = vec![in alloc; 0u64; n.div_ceil(WORD_BITS)]?;
        Ok(BitmapBuilder {
            words,
            len: 0,
            room: n,
        })
    }

    /// Returns the number of bits pushed so far.
    pub fn len(&self) -> usize
        ensures { result ≡ length self.now.bits }
    {
        self.len
    }

    /// Returns the number of bits that can still be pushed.
    pub fn room(&self) -> usize
        ensures { result ≡ self.now.room }
    {
        self.room
    }

    /// Pushes one bit. There must be room for it.
    #[inline]
    pub fn push_reserved(&mut self, value: bool)
        requires { 0 < self.old.room }
        ensures { self.new
            ≡ record { bits = self.old.bits ++ value ∷ []; room = self.old.room - 1 } }
    {
        write_bit(self.words.as_mut_slice(), self.len, value);
        self.len += 1;
        self.room -= 1;
    }

    /// Pushes `n` bits that are all `value`, whole words at a time.
    pub fn extend_constant(&mut self, n: usize, value: bool)
        requires { n ≤ self.old.room }
        ensures { self.new
            ≡ record { bits = self.old.bits ++ replicate n value; room = self.old.room - n } }
    {
        let end = self.len + n;
        fill_bits(self.words.as_mut_slice(), self.len, end, value);
        self.len = end;
        self.room -= n;
    }

    /// Pushes the truth values of `values`. Packs and writes 64 values at a time.
    pub fn extend_values<V: TruthValues>(&mut self, values: &V)
        requires { length (V.values values.now) ≤ self.old.room }
        ensures { self.new
            ≡ record {
              bits = self.old.bits
                  ++ V.values values.now;
              room = self.old.room - length (V.values values.now);
            } }
    {
        let count = values.len();
        append_values(self.words.as_mut_slice(), self.len, values);
        self.len += count;
        self.room -= count;
    }

    // Pushes the first `n` bits of a source, a word at a time.
    fn extend_source<S: BitSource>(&mut self, source: &S, n: usize)
        requires { n ≤ self.old.room }
        ensures { self.new
            ≡ record {
              bits = self.old.bits
                  ++ first_of (S.bit source.now) n;
              room = self.old.room - n;
            } }
    {
        append_bits(self.words.as_mut_slice(), self.len, source, n);
        self.len += n;
        self.room -= n;
    }

    /// Pushes a bit for each of the first `n` blocks of `width` bits of `items`. The bit is true if
    /// all bits of the block are true. The first block begins at the first bit. For the widths 2
    /// and 4 whole words are folded at once, for others a block at a time.
    pub fn extend_blocks(&mut self, items: &BitMask<'_>, width: usize, n: usize)
        requires within { width * n ≤ length items.now }
        requires room { n ≤ self.old.room }
        ensures { self.new
            ≡ record {
              bits = self.old.bits
                  ++ blocks_all width n items.now;
              room = self.old.room - n;
            } }
    {
        // Has no effect at run time. The proof learns from it that indices fit in 64 bits.
        let _len = items.len();
        let (words, by) = items.packed();
        match width {
            2 => self.extend_source(&BitPairs { words, by }, n),
            4 => self.extend_source(&Fours { words, by }, n),
            _ => {
                let count = n;
                self.extend_values(&Blocks {
                    words,
                    by,
                    width,
                    count,
                });
            }
        }
    }

    /// Converts to a bitmap of the pushed bits. No word is copied.
    pub fn freeze(self) -> Bitmap
        ensures { result ≡ self.bits }
    {
        let BitmapBuilder {
            words,
            len,
            room: _,
        } = self;
        Bitmap::from_vec(words, len)
    }
}
