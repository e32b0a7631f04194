//! Sources of bits, read 64 bits at a time, and loops that collect or count these bits.

ghost use Rattle.std.specs.Prelude.{◌≡◌, ℕ, ◌+◌, ◌-◌, ◌*◌, ◌^◌, ◌<◌, ◌≤◌, Bool, [], length};
ghost use Rattle.std.specs.Prelude.{vec_capacity, count_by, IfOk};
ghost use Rattle.polars_arrays_words.specs.Bits.{bit_of, window, true_count, IsWord, AreWords};

use crate::words::{WORD_BITS, bits_from, join, join_lanes, word_or_zero};
use std::alloc::{AllocError, Global};

/// A sequence of bits that is read in words of 64. The first bit of a word is its lowest bit.
pub trait BitSource {
    // The bit at each index.
    ghost bit: { Self → ℕ → Bool };

    // The number of inner words.
    ghost inner: { Self → ℕ };

    /// Returns the number of inner words. These are the leading words for which `inner_word` reads
    /// nothing past the end of its data.
    fn inner_words(&self) -> usize
        ensures { result ≡ inner self.now };

    /// Returns whether reading a word is cheap. If so, `collect_words` reads four words per
    /// iteration.
    // A short loop takes up to 40 percent longer if the jump at its end is badly aligned in the
    // processor's cache. That is why four cheap words are read per iteration.
    #[inline(always)]
    fn is_cheap(&self) -> bool {
        false
    }

    /// Returns inner word `k`. The index is not checked at run time, since `requires` proves that
    /// it is in range.
    fn inner_word(&self, k: usize) -> u64
        requires { k < inner self.now }
        ensures { IsWord (bit self.now) k result };

    /// Returns word `k`, which need not be an inner word.
    fn word(&self, k: usize) -> u64
        requires { k < 2 ^ 58 }
        ensures { IsWord (bit self.now) k result };
}

/// The bits of `words`, followed by zeros. The first bit is the lowest bit of the first word.
#[derive(Drop)]
pub struct Aligned<'a> {
    pub words: &'a [u64],
}

impl BitSource for Aligned<'_> {
    ghost bit = { λ s i. bit_of s.words.now i };

    ghost inner = { λ s. length s.words.now };

    #[inline]
    fn inner_words(&self) -> usize {
        self.words.len()
    }

    #[inline(always)]
    fn is_cheap(&self) -> bool {
        true
    }

    #[inline]
    fn inner_word(&self, k: usize) -> u64 {
        self.words[k]
    }

    #[inline]
    fn word(&self, k: usize) -> u64 {
        word_or_zero(self.words, k)
    }
}

/// The bits of `words`, followed by zeros. The first bit is bit `by` of the first word, and `by` is
/// not 0.
#[derive(Drop)]
pub struct Shifted<'a> {
    pub words: &'a [u64],
    pub by: usize,
    pub ghost some: { 0 < by },
    pub ghost within_word: { by < 64 },
}

impl BitSource for Shifted<'_> {
    ghost bit = { λ s i. bit_of s.words.now (s.by + i) };

    ghost inner = { λ s. length s.words.now - 1 };

    #[inline]
    fn inner_words(&self) -> usize {
        self.words.len().saturating_sub(1)
    }

    #[inline(always)]
    fn is_cheap(&self) -> bool {
        true
    }

    #[inline]
    fn inner_word(&self, k: usize) -> u64 {
        join_lanes(self.words[k], self.words[k + 1], self.by)
    }

    #[inline]
    fn word(&self, k: usize) -> u64 {
        join(
            word_or_zero(self.words, k),
            word_or_zero(self.words, k + 1),
            self.by,
        )
    }
}

/// The bits of `words`, followed by zeros. The first bit is bit `by` of the first word. `by` may be
/// 0, so a single loop serves all values of `by`. Each word is made from two of `words`, so
/// `Placed` suits loops that spend most of their time on other work.
#[derive(Drop)]
pub struct Placed<'a> {
    pub words: &'a [u64],
    pub by: usize,
    pub ghost within_word: { by < 64 },
}

impl BitSource for Placed<'_> {
    ghost bit = { λ s i. bit_of s.words.now (s.by + i) };

    ghost inner = { λ s. length s.words.now - 1 };

    #[inline]
    fn inner_words(&self) -> usize {
        self.words.len().saturating_sub(1)
    }

    #[inline]
    fn inner_word(&self, k: usize) -> u64 {
        bits_from(self.words[k], self.words[k + 1], self.by)
    }

    #[inline]
    fn word(&self, k: usize) -> u64 {
        bits_from(
            word_or_zero(self.words, k),
            word_or_zero(self.words, k + 1),
            self.by,
        )
    }
}

// Appends the four words of `source` from word `k` on to `words`. Reads them without bounds checks.
#[inline(always)]
fn push_four_words<S: BitSource>(words: &mut Vec<u64>, source: &S, k: usize)
    requires inner { k + 4 ≤ S.inner source.now }
    requires fits { k + 4 < 2 ^ 64 }
    requires room { k + 4 ≤ vec_capacity words.old }
    requires before { AreWords (S.bit source.now) k words.old.items }
    ensures words { AreWords (S.bit source.now) (k + 4) words.new.items }
    ensures room { vec_capacity words.new ≡ vec_capacity words.old }
{
    let first = source.inner_word(k);
    let second = source.inner_word(k + 1);
    let third = source.inner_word(k + 2);
    let fourth = source.inner_word(k + 3);
    words.push_reserved(first);
    words.push_reserved(second);
    words.push_reserved(third);
    words.push_reserved(fourth);
}

// Fills an empty vector with the first `4 * fours` words of a source. Reads them without bounds
// checks.
#[inline(always)]
fn push_fours<S: BitSource>(words: &mut Vec<u64>, source: &S, fours: usize)
    requires inner { 4 * fours ≤ S.inner source.now }
    requires fits { 4 * fours < 2 ^ 64 }
    requires room { 4 * fours ≤ vec_capacity words.old }
    requires none { words.old.items ≡ [] }
    ensures words { AreWords (S.bit source.now) (4 * fours) words.new.items }
    ensures room { vec_capacity words.new ≡ vec_capacity words.old }
{
    for four in 0..fours {
        push_four_words(words, source, 4 * four);
    }
}

// Appends the words of `source` from word `from` up to word `to`, which is excluded, to `words`.
// Reads them without bounds checks.
#[inline(always)]
fn push_inner_words<S: BitSource>(words: &mut Vec<u64>, source: &S, from: usize, to: usize)
    requires order { from ≤ to }
    requires inner { to ≤ S.inner source.now }
    requires room { to ≤ vec_capacity words.old }
    requires before { AreWords (S.bit source.now) from words.old.items }
    ensures words { AreWords (S.bit source.now) to words.new.items }
    ensures room { vec_capacity words.new ≡ vec_capacity words.old }
{
    for k in from..to {
        words.push_reserved(source.inner_word(k));
    }
}

// Appends the words of `source` from word `from` up to word `to`, which is excluded, to `words`.
#[inline(always)]
fn push_words<S: BitSource>(words: &mut Vec<u64>, source: &S, from: usize, to: usize)
    requires order { from ≤ to }
    requires few { to ≤ 2 ^ 58 }
    requires room { to ≤ vec_capacity words.old }
    requires before { AreWords (S.bit source.now) from words.old.items }
    ensures { AreWords (S.bit source.now) to words.new.items }
{
    for k in from..to {
        words.push_reserved(source.word(k));
    }
}

/// Collects the first `count` words of a source. The error is that memory ran out.
#[inline(always)]
pub fn collect_words<S: BitSource>(
    alloc: Global,
    source: &S,
    count: usize,
) -> Result<Vec<u64>, AllocError>
    requires { count ≤ 2 ^ 58 }
    ensures { IfOk result (λ words. AreWords (S.bit source.now) count words.items) }
{
    let mut words = Vec::with_capacity(alloc, count)?;
    let inner = source.inner_words().min(count);
    let fours = if source.is_cheap() { inner / 4 } else { 0 };
    push_fours(&mut words, source, fours);
    push_inner_words(&mut words, source, 4 * fours, inner);
    push_words(&mut words, source, inner, count);
    Ok(words)
}

// Counts the set bits of the four words from index `k` on. Reads them without bounds checks.
#[inline(always)]
fn count_four_words<S: BitSource>(source: &S, k: usize) -> usize
    requires inner { k + 4 ≤ S.inner source.now }
    requires fits { k + 4 < 2 ^ 64 }
    ensures { true_count (S.bit source.now) (64 * (k + 4))
        ≡ true_count (S.bit source.now) (64 * k) + result }
{
    let first = source.inner_word(k).count_ones();
    let second = source.inner_word(k + 1).count_ones();
    let third = source.inner_word(k + 2).count_ones();
    let fourth = source.inner_word(k + 3).count_ones();
    (first + second + third + fourth) as usize
}

// Counts the set bits of the first `4 * fours` words. Reads them without bounds checks, four words
// per iteration, which makes the cost of the loop itself low.
#[inline(always)]
fn count_inner_words<S: BitSource>(source: &S, fours: usize) -> usize
    requires inner { 4 * fours ≤ S.inner source.now }
    requires few { 64 * (4 * fours) < 2 ^ 64 }
    ensures { result ≡ true_count (S.bit source.now) (64 * (4 * fours)) }
{
    let mut counted = 0;
    for four in 0..fours {
        counted += count_four_words(source, 4 * four);
    }
    counted
}

// Counts the set bits of the first `to` words. `before` is the count for the first `from` words,
// which are not read again.
#[inline(always)]
fn count_words<S: BitSource>(source: &S, before: usize, from: usize, to: usize) -> usize
    requires order { from ≤ to }
    requires few { 64 * to < 2 ^ 64 }
    requires before { before ≡ true_count (S.bit source.now) (64 * from) }
    ensures { result ≡ true_count (S.bit source.now) (64 * to) }
{
    let mut counted = before;
    for k in from..to {
        counted += source.word(k).count_ones() as usize;
    }
    counted
}

/// Counts the set bits among the first `len` bits.
#[inline(always)]
pub fn count_bits<S: BitSource>(source: &S, len: usize) -> usize
    ensures { result ≡ true_count (S.bit source.now) len }
{
    let whole = len / WORD_BITS;
    let fours = source.inner_words().min(whole) / 4;
    let counted = count_inner_words(source, fours);
    let counted = count_words(source, counted, 4 * fours, whole);
    let last = source.word(whole) & ((1 << (len % WORD_BITS)) - 1);
    counted + last.count_ones() as usize
}

/// Counts the set bits among the `len` bits that begin at bit `by` of the first word. Bits past the
/// end of `words` are not set.
pub fn count_window(words: &[u64], by: usize, len: usize) -> usize
    requires { by < 64 }
    ensures { result ≡ count_by (λ b. b) (window by len words.now) }
{
    if by == 0 {
        count_bits(&Aligned { words }, len)
    } else {
        count_bits(&Shifted { words, by }, len)
    }
}
