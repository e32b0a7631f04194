//! Operators on truth values, applied to 64 truth values at a time.

ghost use Rattle.std.specs.Prelude.{◌≡◌, ℕ, ◌<◌, Bool, not, ◌&&◌, ◌||◌};
ghost use Rattle.polars_arrays_words.specs.Bits.{is_bit};

use crate::source::BitSource;

/// An operator on one truth value. `apply` applies it to each bit of a word.
pub trait UnaryOperator: Drop {
    // The operator on truth values.
    ghost bit: { Bool → Bool };

    /// Returns the word whose bits are the operator's results.
    fn apply(&self, x: u64) -> u64
        ensures { (i : ℕ) → i < 64 → is_bit result i ≡ bit (is_bit x i) };
}

/// An operator on two truth values. `apply` applies it to the two bits at each index of two words.
pub trait BinaryOperator: Drop {
    // The operator on truth values.
    ghost bit: { Bool → Bool → Bool };

    /// Returns the word whose bits are the operator's results.
    fn apply(&self, x: u64, y: u64) -> u64
        ensures { (i : ℕ) → i < 64 → is_bit result i ≡ bit (is_bit x i) (is_bit y i) };
}

/// An operator on three truth values. `apply` applies it to the three bits at each index of three
/// words.
pub trait TernaryOperator: Drop {
    // The operator on truth values.
    ghost bit: { Bool → Bool → Bool → Bool };

    /// Returns the word whose bits are the operator's results.
    fn apply(&self, x: u64, y: u64, z: u64) -> u64
        ensures { (i : ℕ) → i < 64 → is_bit result i ≡ bit (is_bit x i) (is_bit y i) (is_bit z i) };
}

/// The operator `!x`.
#[derive(Drop)]
pub struct Not;

impl UnaryOperator for Not {
    ghost bit = { not };

    #[inline]
    fn apply(&self, x: u64) -> u64 {
        !x
    }
}

/// The operator `x & y`.
#[derive(Drop)]
pub struct And;

impl BinaryOperator for And {
    ghost bit = { ◌&&◌ };

    #[inline]
    fn apply(&self, x: u64, y: u64) -> u64 {
        x & y
    }
}

/// The operator `x | y`.
#[derive(Drop)]
pub struct Or;

impl BinaryOperator for Or {
    ghost bit = { ◌||◌ };

    #[inline]
    fn apply(&self, x: u64, y: u64) -> u64 {
        x | y
    }
}

/// The operator `x ^ y`.
#[derive(Drop)]
pub struct Xor;

impl BinaryOperator for Xor {
    ghost use Rattle.polars_arrays_words.specs.Logic.{xor};

    ghost bit = { xor };

    #[inline]
    fn apply(&self, x: u64, y: u64) -> u64 {
        x ^ y
    }
}

/// The operator "`x` equals `y`".
#[derive(Drop)]
pub struct Xnor;

impl BinaryOperator for Xnor {
    ghost use Rattle.polars_arrays_words.specs.Logic.{xnor};

    ghost bit = { xnor };

    #[inline]
    fn apply(&self, x: u64, y: u64) -> u64 {
        x ^ !y
    }
}

/// The operator `x & !y`.
#[derive(Drop)]
pub struct AndNot;

impl BinaryOperator for AndNot {
    ghost use Rattle.polars_arrays_words.specs.Logic.{and_not};

    ghost bit = { and_not };

    #[inline]
    fn apply(&self, x: u64, y: u64) -> u64 {
        x & !y
    }
}

/// The operator `x | !y`.
#[derive(Drop)]
pub struct OrNot;

impl BinaryOperator for OrNot {
    ghost use Rattle.polars_arrays_words.specs.Logic.{or_not};

    ghost bit = { or_not };

    #[inline]
    fn apply(&self, x: u64, y: u64) -> u64 {
        x | !y
    }
}

/// Equality of two rows that may be null. Null is equal only to null. `x` says whether the stored
/// values are equal, `y` and `z` whether the left and the right row are present. Computes
/// inequality and negates it, which takes one operation less.
#[derive(Drop)]
pub struct MergeEq;

impl TernaryOperator for MergeEq {
    ghost use Rattle.polars_arrays_words.specs.Logic.{merged_eq};

    ghost bit = { merged_eq };

    #[inline]
    fn apply(&self, x: u64, y: u64, z: u64) -> u64 {
        !((y & !x) | (y ^ z))
    }
}

/// Inequality of two rows that may be null. Null is equal only to null. `x` says whether the stored
/// values differ, `y` and `z` whether the left and the right row are present. If exactly one row is
/// present, `y ^ z` is 1. Otherwise `y` and `z` are equal, so `x & y` suffices.
#[derive(Drop)]
pub struct MergeNe;

impl TernaryOperator for MergeNe {
    ghost use Rattle.polars_arrays_words.specs.Logic.{merged_ne};

    ghost bit = { merged_ne };

    #[inline]
    fn apply(&self, x: u64, y: u64, z: u64) -> u64 {
        (x & y) | (y ^ z)
    }
}

/// A source whose bits are the operator's results for the bits of another source.
#[derive(Drop)]
pub struct Mapped<O, A> {
    pub operator: O,
    pub source: A,
}

impl<O: UnaryOperator, A: BitSource> BitSource for Mapped<O, A> {
    ghost bit = { λ s i. O.bit (A.bit s.source i) };

    ghost inner = { λ s. A.inner s.source };

    #[inline]
    fn inner_words(&self) -> usize {
        self.source.inner_words()
    }

    #[inline(always)]
    fn is_cheap(&self) -> bool {
        self.source.is_cheap()
    }

    #[inline]
    fn inner_word(&self, k: usize) -> u64 {
        self.operator.apply(self.source.inner_word(k))
    }

    #[inline]
    fn word(&self, k: usize) -> u64 {
        self.operator.apply(self.source.word(k))
    }
}

/// A source whose bits are the operator's results for the bits of two sources at the same index.
#[derive(Drop)]
pub struct Zipped<O, A, B> {
    pub operator: O,
    pub left: A,
    pub right: B,
}

impl<O: BinaryOperator, A: BitSource, B: BitSource> BitSource for Zipped<O, A, B> {
    ghost use Rattle.std.specs.Prelude.{min};

    ghost bit = { λ s i. O.bit (A.bit s.left i) (B.bit s.right i) };

    ghost inner = { λ s. min (A.inner s.left) (B.inner s.right) };

    #[inline]
    fn inner_words(&self) -> usize {
        self.left.inner_words().min(self.right.inner_words())
    }

    #[inline(always)]
    fn is_cheap(&self) -> bool {
        self.left.is_cheap() && self.right.is_cheap()
    }

    #[inline]
    fn inner_word(&self, k: usize) -> u64 {
        self.operator
            .apply(self.left.inner_word(k), self.right.inner_word(k))
    }

    #[inline]
    fn word(&self, k: usize) -> u64 {
        self.operator.apply(self.left.word(k), self.right.word(k))
    }
}

/// A source whose bits are the operator's results for the bits of three sources at the same index.
#[derive(Drop)]
pub struct Merged<O, A, B, C> {
    pub operator: O,
    pub first: A,
    pub second: B,
    pub third: C,
}

impl<O: TernaryOperator, A: BitSource, B: BitSource, C: BitSource> BitSource
    for Merged<O, A, B, C> {
    ghost use Rattle.std.specs.Prelude.{min};

    ghost bit = { λ s i. O.bit (A.bit s.first i) (B.bit s.second i) (C.bit s.third i) };

    ghost inner = { λ s. min (A.inner s.first) (min (B.inner s.second) (C.inner s.third)) };

    #[inline]
    fn inner_words(&self) -> usize {
        let others = self.second.inner_words().min(self.third.inner_words());
        self.first.inner_words().min(others)
    }

    #[inline(always)]
    fn is_cheap(&self) -> bool {
        self.first.is_cheap() && self.second.is_cheap() && self.third.is_cheap()
    }

    #[inline]
    fn inner_word(&self, k: usize) -> u64 {
        self.operator.apply(
            self.first.inner_word(k),
            self.second.inner_word(k),
            self.third.inner_word(k),
        )
    }

    #[inline]
    fn word(&self, k: usize) -> u64 {
        self.operator.apply(self.first.word(k), self.second.word(k), self.third.word(k))
    }
}
