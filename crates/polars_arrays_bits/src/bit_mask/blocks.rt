//! Reduces each block of bits to one bit, which is true if all bits of the block are true.

ghost use Rattle.std.specs.Prelude.{◌≡◌, ◌*◌, ◌^◌, ◌<◌, ◌≤◌, length, MatchResult};
ghost use Rattle.polars_arrays_words.specs.Blocks.{blocks_all};
ghost use Rattle.polars_arrays_bits.specs.Errors.{IsMemory};

use super::BitMask;
use crate::bitmap::Bitmap;
use crate::error::ComputeError;
use polars_arrays_words::folds::{BitPairs, Blocks, Fours};
use std::alloc::Global;

impl BitMask<'_> {
    // Returns a bit for each of the first `n` pairs of bits, true if both bits of the pair are
    // true. The error is `Memory`.
    fn all_in_pairs(&self, alloc: Global, n: usize) -> Result<Bitmap, ComputeError>
        requires { 2 * n ≤ length self.now }
        ensures { MatchResult result (λ bits. bits ≡ blocks_all 2 n self.now) IsMemory }
    {
        let words = self.words;
        let by = self.at;
        Bitmap::from_source(alloc, &BitPairs { words, by }, n)
    }

    // Returns a bit for each of the first `n` blocks of four bits, true if all bits of the block
    // are true. The error is `Memory`.
    fn all_in_fours(&self, alloc: Global, n: usize) -> Result<Bitmap, ComputeError>
        requires { 4 * n ≤ length self.now }
        ensures { MatchResult result (λ bits. bits ≡ blocks_all 4 n self.now) IsMemory }
    {
        let words = self.words;
        let by = self.at;
        Bitmap::from_source(alloc, &Fours { words, by }, n)
    }

    // Returns a bit for each of the first `n` blocks of eight bits, true if all bits of the block
    // are true. Folds blocks of four bits first, and then pairs of the results. The error is
    // `Memory`.
    fn all_in_eights(&self, alloc: Global, n: usize) -> Result<Bitmap, ComputeError>
        requires few { n < 2 ^ 63 }
        requires within { 8 * n ≤ length self.now }
        ensures { MatchResult result (λ bits. bits ≡ blocks_all 8 n self.now) IsMemory }
    {
        let fours = self.all_in_fours(alloc, 2 * n)?;
        let eights = BitMask::from_bitmap(&fours).all_in_pairs(alloc, n)?;
        Ok(eights)
    }

    // Returns a bit for each of the first `n` blocks of sixteen bits, true if all bits of the block
    // are true. Folds blocks of four bits first, and then blocks of four results. The error is
    // `Memory`.
    fn all_in_sixteens(&self, alloc: Global, n: usize) -> Result<Bitmap, ComputeError>
        requires few { n < 2 ^ 62 }
        requires within { 16 * n ≤ length self.now }
        ensures { MatchResult result (λ bits. bits ≡ blocks_all 16 n self.now) IsMemory }
    {
        let fours = self.all_in_fours(alloc, 4 * n)?;
        let sixteens = BitMask::from_bitmap(&fours).all_in_fours(alloc, n)?;
        Ok(sixteens)
    }

    // Returns a bit for each of the first `n` blocks of `width` bits, true if all bits of the block
    // are true. Reads one block at a time, so it suits any width. The error is `Memory`.
    fn all_one_by_one(&self, alloc: Global, width: usize, n: usize) -> Result<Bitmap, ComputeError>
        requires { width * n ≤ length self.now }
        ensures { MatchResult result (λ bits. bits ≡ blocks_all width n self.now) IsMemory }
    {
        // Has no effect at run time. The proof learns from it that indices fit in 64 bits.
        let _len = self.len();
        let words = self.words;
        let by = self.at;
        let count = n;
        Bitmap::from_values(
            alloc,
            &Blocks {
                words,
                by,
                width,
                count,
            },
        )
    }

    /// Returns a bit for each of the first `n` blocks of `width` bits, true if all bits of the
    /// block are true. The first block begins at the first bit. For example, the bits 1, 1, 0, 1 in
    /// blocks of two give 1, 0. A block of no bits gives 1. For the widths 2, 4, 8 and 16 whole
    /// words are folded at once, for others a block at a time. The error is `Memory`.
    pub fn all_in_blocks(
        &self,
        alloc: Global,
        width: usize,
        n: usize,
    ) -> Result<Bitmap, ComputeError>
        requires { width * n ≤ length self.now }
        ensures { MatchResult result (λ bits. bits ≡ blocks_all width n self.now) IsMemory }
    {
        // Has no effect at run time. The proof learns from it that indices fit in 64 bits.
        let _len = self.len();
        match width {
            2 => self.all_in_pairs(alloc, n),
            4 => self.all_in_fours(alloc, n),
            8 => self.all_in_eights(alloc, n),
            16 => self.all_in_sixteens(alloc, n),
            _ => self.all_one_by_one(alloc, width, n),
        }
    }
}
