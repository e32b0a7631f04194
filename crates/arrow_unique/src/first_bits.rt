//! The bits of a state, as a source of bits.

use polars_arrays_words::source::{Aligned, BitSource};
use polars_arrays_words::words::{WORD_BITS, low_bits};

/// The first `count` bits of `words`. All later bits read as 0.
#[derive(Drop)]
pub struct FirstBits<'a> {
    pub words: &'a [u64],
    pub count: usize,
}

impl BitSource for FirstBits<'_> {
    ghost use Rattle.std.specs.Prelude.{◌&&◌, ◌/◌, length, ltb, min};
    ghost use Rattle.polars_arrays_words.specs.Bits.{bit_of};

    ghost bit = { λ s i. ltb i s.count && bit_of s.words.now i };

    ghost inner = { λ s. min (length s.words.now) (s.count / 64) };

    #[inline]
    fn inner_words(&self) -> usize {
        self.words.len().min(self.count / WORD_BITS)
    }

    #[inline(always)]
    fn inner_word(&self, k: usize) -> u64 {
        self.words[k]
    }

    #[inline]
    fn word(&self, k: usize) -> u64 {
        let word = Aligned { words: self.words }.word(k);
        if k < self.count / WORD_BITS {
            word
        } else if k == self.count / WORD_BITS {
            word & low_bits(self.count % WORD_BITS)
        } else {
            0
        }
    }
}
