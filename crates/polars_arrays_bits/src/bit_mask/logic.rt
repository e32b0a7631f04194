//! Boolean operations on borrowed windows of bits, a word at a time.

ghost use Rattle.std.specs.Prelude.{◌≡◌, Bool, not, ◌&&◌, ◌||◌, length, map, MatchResult};
ghost use Rattle.std.specs.Simd.Lanes.{zip2};
ghost use Rattle.polars_arrays_words.specs.Bits.{first_of};
ghost use Rattle.polars_arrays_words.specs.Logic.{xor, xnor, and_not, or_not};
ghost use Rattle.polars_arrays_bits.specs.Errors.{IsMemory};

use super::BitMask;
use crate::bitmap::Bitmap;
use crate::error::ComputeError;
use polars_arrays_words::operators::{
    And, AndNot, BinaryOperator, Mapped, Not, Or, OrNot, Xnor, Xor, Zipped,
};
use polars_arrays_words::source::{Aligned, BitSource, Shifted};
use std::alloc::Global;

impl BitMask<'_> {
    // Applies an operator to the two bits at each index: first the bit of this window, then the bit
    // of `other`. The error is `Memory`.
    fn zip<O: BinaryOperator>(
        &self,
        alloc: Global,
        other: &BitMask<'_>,
        operator: O,
    ) -> Result<Bitmap, ComputeError>
        requires { length other.now ≡ length self.now }
        ensures { MatchResult result (λ bits. bits ≡ zip2 O.bit self.now other.now) IsMemory }
    {
        let words = self.words;
        if self.at == 0 {
            return other.zip_last(alloc, operator, Aligned { words });
        }
        let by = self.at;
        other.zip_last(alloc, operator, Shifted { words, by })
    }

    // Applies an operator to the two bits at each index: first the bit of `left`, then the bit of
    // this window. The error is `Memory`.
    fn zip_last<O: BinaryOperator, A: BitSource + Drop>(
        &self,
        alloc: Global,
        operator: O,
        left: A,
    ) -> Result<Bitmap, ComputeError>
        ensures { MatchResult result
            (λ bits. bits ≡ zip2 O.bit (first_of (A.bit left) (length self.now)) self.now)
            IsMemory }
    {
        let words = self.words;
        if self.at == 0 {
            let right = Aligned { words };
            let source = Zipped {
                operator,
                left,
                right,
            };
            return Bitmap::from_source(alloc, &source, self.len);
        }
        let by = self.at;
        let right = Shifted { words, by };
        let source = Zipped {
            operator,
            left,
            right,
        };
        Bitmap::from_source(alloc, &source, self.len)
    }

    /// Returns the bitwise AND of `self` and `other`. The error is `Memory`.
    pub fn and(&self, alloc: Global, other: &BitMask<'_>) -> Result<Bitmap, ComputeError>
        requires { length other.now ≡ length self.now }
        ensures { MatchResult result (λ bits. bits ≡ zip2 ◌&&◌ self.now other.now) IsMemory }
    {
        self.zip(alloc, other, And)
    }

    /// Returns the bitwise OR of `self` and `other`. The error is `Memory`.
    pub fn or(&self, alloc: Global, other: &BitMask<'_>) -> Result<Bitmap, ComputeError>
        requires { length other.now ≡ length self.now }
        ensures { MatchResult result (λ bits. bits ≡ zip2 ◌||◌ self.now other.now) IsMemory }
    {
        self.zip(alloc, other, Or)
    }

    /// Returns the bitwise XOR of `self` and `other`. The error is `Memory`.
    pub fn xor(&self, alloc: Global, other: &BitMask<'_>) -> Result<Bitmap, ComputeError>
        requires { length other.now ≡ length self.now }
        ensures { MatchResult result (λ bits. bits ≡ zip2 xor self.now other.now) IsMemory }
    {
        self.zip(alloc, other, Xor)
    }

    /// Returns for each index whether the bits of `self` and `other` are equal. The error is
    /// `Memory`.
    pub fn xnor(&self, alloc: Global, other: &BitMask<'_>) -> Result<Bitmap, ComputeError>
        requires { length other.now ≡ length self.now }
        ensures { MatchResult result (λ bits. bits ≡ zip2 xnor self.now other.now) IsMemory }
    {
        self.zip(alloc, other, Xnor)
    }

    /// Returns `a & !b` for each index, where `a` is the bit of `self`, and `b` the bit of `other`.
    /// The error is `Memory`.
    pub fn and_not(&self, alloc: Global, other: &BitMask<'_>) -> Result<Bitmap, ComputeError>
        requires { length other.now ≡ length self.now }
        ensures { MatchResult result (λ bits. bits ≡ zip2 and_not self.now other.now) IsMemory }
    {
        self.zip(alloc, other, AndNot)
    }

    /// Returns `a | !b` for each index, where `a` is the bit of `self`, and `b` the bit of `other`.
    /// The error is `Memory`.
    pub fn or_not(&self, alloc: Global, other: &BitMask<'_>) -> Result<Bitmap, ComputeError>
        requires { length other.now ≡ length self.now }
        ensures { MatchResult result (λ bits. bits ≡ zip2 or_not self.now other.now) IsMemory }
    {
        self.zip(alloc, other, OrNot)
    }

    /// Returns a bitmap in which each bit is negated. The error is `Memory`.
    pub fn not(&self, alloc: Global) -> Result<Bitmap, ComputeError>
        ensures { MatchResult result (λ bits. bits ≡ map not self.now) IsMemory }
    {
        let words = self.words;
        let operator = Not;
        if self.at == 0 {
            let source = Aligned { words };
            return Bitmap::from_source(alloc, &Mapped { operator, source }, self.len);
        }
        let by = self.at;
        let source = Shifted { words, by };
        Bitmap::from_source(alloc, &Mapped { operator, source }, self.len)
    }

    /// Copies the bits into a bitmap that owns its words. The error is `Memory`.
    pub fn to_bitmap(&self, alloc: Global) -> Result<Bitmap, ComputeError>
        ensures { MatchResult result (λ bits. bits ≡ self.now) IsMemory }
    {
        let words = self.words;
        if self.at == 0 {
            return Bitmap::from_source(alloc, &Aligned { words }, self.len);
        }
        let by = self.at;
        Bitmap::from_source(alloc, &Shifted { words, by }, self.len)
    }
}
