//! Boolean operations on whole bitmaps, a word at a time.

ghost use Rattle.std.specs.Prelude.{◌≡◌, Bool, not, ◌&&◌, ◌||◌, length, map, MatchResult};
ghost use Rattle.std.specs.Simd.Lanes.{zip2};
ghost use Rattle.polars_arrays_words.specs.Bits.{zip3};
ghost use Rattle.polars_arrays_words.specs.Logic.{xor, xnor, and_not, or_not, merged_eq, merged_ne};
ghost use Rattle.polars_arrays_bits.specs.Errors.{IsMemory};

use super::Bitmap;
use crate::bit_mask::BitMask;
use crate::error::ComputeError;
use std::alloc::Global;

impl Bitmap {
    /// Returns the bitwise AND of `self` and `other`. The error is `Memory`.
    pub fn and(&self, alloc: Global, other: &Bitmap) -> Result<Bitmap, ComputeError>
        requires { length other.now ≡ length self.now }
        ensures { MatchResult result (λ bits. bits ≡ zip2 ◌&&◌ self.now other.now) IsMemory }
    {
        BitMask::from_bitmap(self).and(alloc, &BitMask::from_bitmap(other))
    }

    /// Returns the bitwise OR of `self` and `other`. The error is `Memory`.
    pub fn or(&self, alloc: Global, other: &Bitmap) -> Result<Bitmap, ComputeError>
        requires { length other.now ≡ length self.now }
        ensures { MatchResult result (λ bits. bits ≡ zip2 ◌||◌ self.now other.now) IsMemory }
    {
        BitMask::from_bitmap(self).or(alloc, &BitMask::from_bitmap(other))
    }

    /// Returns the bitwise XOR of `self` and `other`. The error is `Memory`.
    pub fn xor(&self, alloc: Global, other: &Bitmap) -> Result<Bitmap, ComputeError>
        requires { length other.now ≡ length self.now }
        ensures { MatchResult result (λ bits. bits ≡ zip2 xor self.now other.now) IsMemory }
    {
        BitMask::from_bitmap(self).xor(alloc, &BitMask::from_bitmap(other))
    }

    /// Returns for each index whether the bits of `self` and `other` are equal. The error is
    /// `Memory`.
    pub fn xnor(&self, alloc: Global, other: &Bitmap) -> Result<Bitmap, ComputeError>
        requires { length other.now ≡ length self.now }
        ensures { MatchResult result (λ bits. bits ≡ zip2 xnor self.now other.now) IsMemory }
    {
        BitMask::from_bitmap(self).xnor(alloc, &BitMask::from_bitmap(other))
    }

    /// Returns `a & !b` for each index, where `a` is the bit of `self`, and `b` the bit of `other`.
    /// The error is `Memory`.
    pub fn and_not(&self, alloc: Global, other: &Bitmap) -> Result<Bitmap, ComputeError>
        requires { length other.now ≡ length self.now }
        ensures { MatchResult result (λ bits. bits ≡ zip2 and_not self.now other.now) IsMemory }
    {
        BitMask::from_bitmap(self).and_not(alloc, &BitMask::from_bitmap(other))
    }

    /// Returns `a | !b` for each index, where `a` is the bit of `self`, and `b` the bit of `other`.
    /// The error is `Memory`.
    pub fn or_not(&self, alloc: Global, other: &Bitmap) -> Result<Bitmap, ComputeError>
        requires { length other.now ≡ length self.now }
        ensures { MatchResult result (λ bits. bits ≡ zip2 or_not self.now other.now) IsMemory }
    {
        BitMask::from_bitmap(self).or_not(alloc, &BitMask::from_bitmap(other))
    }

    /// Returns a bitmap in which each bit is negated. The error is `Memory`.
    pub fn not(&self, alloc: Global) -> Result<Bitmap, ComputeError>
        ensures { MatchResult result (λ bits. bits ≡ map not self.now) IsMemory }
    {
        BitMask::from_bitmap(self).not(alloc)
    }

    /// Returns for each row whether the left and the right side are equal. Null is equal only to
    /// null. `q` says for each row whether the stored values are equal. `l` and `r` are the masks
    /// of the left and the right side. Computes `(q & l & r) | !(l | r)`. The error is `Memory`.
    pub fn merge_eq(
        alloc: Global,
        q: &Bitmap,
        l: &Bitmap,
        r: &Bitmap,
    ) -> Result<Bitmap, ComputeError>
        requires left { length l.now ≡ length q.now }
        requires right { length r.now ≡ length q.now }
        ensures { MatchResult result (λ bits. bits ≡ zip3 merged_eq q.now l.now r.now) IsMemory }
    {
        BitMask::merge_eq(
            alloc,
            &BitMask::from_bitmap(q),
            &BitMask::from_bitmap(l),
            &BitMask::from_bitmap(r),
        )
    }

    /// Returns for each row whether the left and the right side differ. Null is equal only to null.
    /// `q` says for each row whether the stored values differ. `l` and `r` are the masks of the
    /// left and the right side. Computes `(q & l & r) | (l ^ r)`. The error is `Memory`.
    pub fn merge_ne(
        alloc: Global,
        q: &Bitmap,
        l: &Bitmap,
        r: &Bitmap,
    ) -> Result<Bitmap, ComputeError>
        requires left { length l.now ≡ length q.now }
        requires right { length r.now ≡ length q.now }
        ensures { MatchResult result (λ bits. bits ≡ zip3 merged_ne q.now l.now r.now) IsMemory }
    {
        BitMask::merge_ne(
            alloc,
            &BitMask::from_bitmap(q),
            &BitMask::from_bitmap(l),
            &BitMask::from_bitmap(r),
        )
    }
}
