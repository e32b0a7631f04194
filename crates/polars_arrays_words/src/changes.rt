//! Changes the bits of words in place, 64 bits at a time.

ghost use Rattle.std.specs.Prelude.{◌≡◌, ℕ, ◌^◌, ◌<◌, ◌≤◌, Bool, length};
ghost use Rattle.polars_arrays_words.specs.Bits.{IsChanged, IsChangedWord};

use crate::operators::{BinaryOperator, TernaryOperator};
use crate::source::BitSource;

/// A change of bits. The new value of a bit depends on its index and its old value.
pub trait WordChange {
    // The new value of the bit at each index, given its old value.
    ghost bit: { Self → ℕ → Bool → Bool };

    // The number of leading words that `inner_word` can change.
    ghost inner: { Self → ℕ };

    /// Returns the number of leading words that `inner_word` can change.
    fn inner_words(&self) -> usize
        ensures { result ≡ inner self.now };

    /// Returns the new value of word `k`, given its old value `word`. Reads the change's sources of
    /// bits without bounds checks.
    fn inner_word(&self, k: usize, word: u64) -> u64
        requires { k < inner self.now }
        ensures { IsChangedWord (bit self.now) k word result };

    /// Returns the new value of word `k`, given its old value `word`.
    fn word(&self, k: usize, word: u64) -> u64
        requires { k < 2 ^ 58 }
        ensures { IsChangedWord (bit self.now) k word result };
}

/// A change that sets each bit to the operator's result for the bit itself and the source's bit at
/// the same index.
#[derive(Drop)]
pub struct JoinedWith<O, A> {
    pub operator: O,
    pub source: A,
}

impl<O: BinaryOperator, A: BitSource> WordChange for JoinedWith<O, A> {
    ghost bit = { λ c p b. O.bit b (A.bit c.source p) };

    ghost inner = { λ c. A.inner c.source };

    #[inline]
    fn inner_words(&self) -> usize {
        self.source.inner_words()
    }

    #[inline]
    fn inner_word(&self, k: usize, word: u64) -> u64 {
        self.operator.apply(word, self.source.inner_word(k))
    }

    #[inline]
    fn word(&self, k: usize, word: u64) -> u64 {
        self.operator.apply(word, self.source.word(k))
    }
}

/// A change that sets each bit to the operator's result for the bit itself and the bits of two
/// sources at the same index.
#[derive(Drop)]
pub struct MergedWith<O, A, B> {
    pub operator: O,
    pub left: A,
    pub right: B,
}

impl<O: TernaryOperator, A: BitSource, B: BitSource> WordChange for MergedWith<O, A, B> {
    ghost use Rattle.std.specs.Prelude.{min};

    ghost bit = { λ c p b. O.bit b (A.bit c.left p) (B.bit c.right p) };

    ghost inner = { λ c. min (A.inner c.left) (B.inner c.right) };

    #[inline]
    fn inner_words(&self) -> usize {
        self.left.inner_words().min(self.right.inner_words())
    }

    #[inline]
    fn inner_word(&self, k: usize, word: u64) -> u64 {
        self.operator
            .apply(word, self.left.inner_word(k), self.right.inner_word(k))
    }

    #[inline]
    fn word(&self, k: usize, word: u64) -> u64 {
        self.operator
            .apply(word, self.left.word(k), self.right.word(k))
    }
}

/// Applies `change` to the first `to` words of `words`. Reads the change's sources without bounds
/// checks.
#[inline(always)]
pub fn change_inner_words<C: WordChange>(words: &mut [u64], change: &C, to: usize)
    requires within { to ≤ length words.old }
    requires inner { to ≤ C.inner change.now }
    ensures { IsChanged (C.bit change.now) words.old words.new 0 to }
{
    for k in 0..to {
        words[k] = change.inner_word(k, words[k]);
    }
}

/// Applies `change` to the words from index `from` up to `to`, which is excluded.
#[inline(always)]
pub fn change_words<C: WordChange>(words: &mut [u64], change: &C, from: usize, to: usize)
    requires order { from ≤ to }
    requires within { to ≤ length words.old }
    requires few { to ≤ 2 ^ 58 }
    ensures { IsChanged (C.bit change.now) words.old words.new from to }
{
    for k in from..to {
        words[k] = change.word(k, words[k]);
    }
}
