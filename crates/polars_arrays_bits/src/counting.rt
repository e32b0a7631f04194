//! Packs truth values into bitmaps, and adds the cost of each value to a counter.

ghost use Rattle.std.specs.Prelude.{◌≡◌, ℕ, ◌+◌, ◌*◌, ◌/◌, ◌^◌, ◌<◌, ◌≤◌, [], Bool, List, false};
ghost use Rattle.std.specs.Prelude.{IsTrue, length, vec_capacity, get_or, slice_index_or, IfOk};
ghost use Rattle.std.specs.Prelude.{MatchResult};
ghost use Rattle.polars_arrays_words.specs.Bits.{AreWords};
ghost use Rattle.polars_arrays_bits.specs.Costs.{cost_of};
ghost use Rattle.polars_arrays_bits.specs.Errors.{IsMemory};
ghost use Rattle.polars_arrays_bits.specs.Guesses.{AreSure};
ghost use Rattle.polars_arrays_words.specs.Packing.{IsPacked};

use crate::bitmap::Bitmap;
use crate::error::ComputeError;
use polars_arrays_numbers::steps::Steps;
use polars_arrays_words::packing::put;
use polars_arrays_words::words::WORD_BITS;
use std::alloc::Global;

/// A list of truth values. Each has a cost, which `value` adds to a counter. A type may also offer
/// guesses, which are not counted: `guess` returns the right value if `is_sure` is true, and the
/// cost of that value is then 0.
pub trait CountedValues {
    // The truth values, the first one first.
    ghost values: { Self → List Bool };

    // The cost of the value at each index.
    ghost costs: { Self → ℕ → ℕ };

    // Indices at which the guess is sure to be right.
    ghost sure: { Self → ℕ → Bool };

    /// Returns the number of truth values.
    fn len(&self) -> usize
        ensures { result ≡ length (values self.now) };

    /// Returns the truth value at index `i`, and adds its cost to `steps`.
    fn value(&self, i: usize, steps: &mut Steps) -> bool
        requires { i < length (values self.now) }
        ensures told { result ≡ slice_index_or (values self.now) i false }
        ensures counted { steps.new ≡ steps.old + costs self.now i };

    /// Returns a guess of the truth value at index `i`, and counts nothing. The guess is right if
    /// `is_sure(i)` is true, and may be wrong otherwise.
    fn guess(&self, i: usize) -> bool
        requires { i < length (values self.now) }
        ensures { IsTrue (sure self.now i) → result ≡ slice_index_or (values self.now) i false };

    /// Returns whether the guess at index `i` is sure to be right. If so, the cost of the value is
    /// 0.
    #[inline(always)]
    fn is_sure(&self, _i: usize) -> bool
        requires { _i < length (values self.now) }
        ensures sure { IsTrue result → IsTrue (sure self.now _i) }
        ensures free { IsTrue result → costs self.now _i ≡ 0 }
    {
        false
    }
}

// Packs the eight guesses from index `at` on into the lowest eight bits of a word.
#[inline(always)]
fn guess_eight<V: CountedValues>(values: &V, at: usize) -> u64
    requires within { at + 8 ≤ length (V.values values.now) }
    requires fits { at + 8 < 2 ^ 64 }
    ensures { AreSure (V.sure values.now) at 8 → IsPacked result (V.values values.now) at 8 }
{
    let mut word = 0;
    for i in 0..8 {
        word = put(word, u64::from(values.guess(at + i)), i);
    }
    word
}

// Packs the 64 guesses from index `at` on into a word, eight at a time. The compiler removes the
// branches of loops that have a small constant number of iterations.
#[inline(always)]
fn guess_word<V: CountedValues>(values: &V, at: usize) -> u64
    requires within { at + 64 ≤ length (V.values values.now) }
    requires fits { at + 64 < 2 ^ 64 }
    ensures { AreSure (V.sure values.now) at 64 → IsPacked result (V.values values.now) at 64 }
{
    let mut word = 0;
    for eight in 0..8 {
        let byte = guess_eight(values, at + 8 * eight);
        word = put(word, byte, 8 * eight);
    }
    word
}

// Returns whether all 64 guesses from index `at` on are sure to be right. A separate loop is faster
// than a check with each guess.
#[inline(always)]
fn are_sure<V: CountedValues>(values: &V, at: usize) -> bool
    requires within { at + 64 ≤ length (V.values values.now) }
    requires fits { at + 64 < 2 ^ 64 }
    ensures sure { IsTrue result → AreSure (V.sure values.now) at 64 }
    ensures free { IsTrue result → cost_of (V.costs values.now) at 64 ≡ 0 }
{
    let mut sure = true;
    for i in 0..WORD_BITS {
        sure &= values.is_sure(at + i);
    }
    sure
}

// Packs the `count` truth values from index `at` on into a word, with zeros above them. Adds the
// cost of each value to `steps`.
#[inline(always)]
fn pack_counted<V: CountedValues>(values: &V, at: usize, count: usize, steps: &mut Steps) -> u64
    requires few { count ≤ 64 }
    requires within { at + count ≤ length (V.values values.now) }
    requires fits { at + count < 2 ^ 64 }
    ensures packed { IsPacked result (V.values values.now) at count }
    ensures counted { steps.new ≡ steps.old + cost_of (V.costs values.now) at count }
{
    let mut word = 0;
    for i in 0..count {
        word = put(word, u64::from(values.value(at + i, steps)), i);
    }
    word
}

// Packs the `count` truth values from index `at` on into a word, with zeros above them. Adds their
// costs to `steps`. If `count` is 64 and all guesses are sure, the word is made of the guesses;
// otherwise the values are read one by one. If the first guess is not sure, no guess is made.
#[inline(always)]
fn count_word<V: CountedValues>(values: &V, at: usize, count: usize, steps: &mut Steps) -> u64
    requires few { count ≤ 64 }
    requires within { at + count ≤ length (V.values values.now) }
    requires fits { at + count < 2 ^ 64 }
    ensures packed { IsPacked result (V.values values.now) at count }
    ensures counted { steps.new ≡ steps.old + cost_of (V.costs values.now) at count }
{
    if count == WORD_BITS && values.is_sure(at) {
        let word = guess_word(values, at);
        if are_sure(values, at) {
            return word;
        }
    }
    pack_counted(values, at, count, steps)
}

// Appends the `count` words that hold all truth values of `values` to the empty vector `words`.
// Adds the cost of each value to `steps`.
#[inline(always)]
fn push_counted<V: CountedValues>(words: &mut Vec<u64>, values: &V, count: usize, steps: &mut Steps)
    requires enough { length (V.values values.now) ≤ 64 * count }
    requires least { 64 * count < length (V.values values.now) + 64 }
    requires room { count ≤ vec_capacity words.old }
    requires none { words.old.items ≡ [] }
    ensures words { AreWords (λ i. get_or (V.values values.now) i false) count words.new.items }
    ensures counted { steps.new
        ≡ steps.old + cost_of (V.costs values.now) 0 (length (V.values values.now)) }
{
    let len = values.len();
    for k in 0..count {
        let at = WORD_BITS * k;
        words.push_reserved(count_word(values, at, (len - at).min(WORD_BITS), steps));
    }
}

impl Bitmap {
    /// Creates a bitmap of the truth values of `values`, and adds the cost of each value to
    /// `steps`. The values are read one by one, except for words in which all 64 guesses are sure
    /// (`is_sure`). The error is `Memory`; `steps` is then not less than before.
    pub fn from_counted<V: CountedValues>(
        alloc: Global,
        values: &V,
        steps: &mut Steps,
    ) -> Result<Bitmap, ComputeError>
        ensures told { MatchResult result (λ bits. bits ≡ V.values values.now) IsMemory }
        ensures counted { IfOk result
            (λ _. steps.new
            ≡ steps.old + cost_of (V.costs values.now) 0 (length (V.values values.now))) }
        ensures kept { steps.old ≤ steps.new }
    {
        let len = values.len();
        let count = len.div_ceil(WORD_BITS);
        let mut words = Vec::with_capacity(alloc, count)?;
        push_counted(&mut words, values, count, steps);
        Ok(Bitmap::from_vec(words, len))
    }
}
