//! Packs truth values into words, 64 values to a word.

ghost use Rattle.std.specs.Prelude.{◌≡◌, ℕ, ◌+◌, ◌-◌, ◌^◌, ◌<◌, ◌≤◌, Bool, List, false, not, ◌||◌};
ghost use Rattle.std.specs.Prelude.{eqb, length, get_or, slice_index_or};
ghost use Rattle.polars_arrays_words.specs.Bits.{is_bit};
ghost use Rattle.polars_arrays_words.specs.Packing.{IsMarked, IsPacked};

use crate::source::BitSource;
use crate::words::WORD_BITS;
use std::simd::prelude::*;

/// A list of truth values, which are read one at a time.
pub trait TruthValues {
    // The truth values, the first one first.
    ghost values: { Self → List Bool };

    /// Returns the number of truth values.
    fn len(&self) -> usize
        ensures { result ≡ length (values self.now) };

    /// Returns the truth value at index `i`.
    fn value(&self, i: usize) -> bool
        requires { i < length (values self.now) }
        ensures { result ≡ slice_index_or (values self.now) i false };

    /// Returns whether truth values are packed eight at a time, in registers (`pack_by_bytes`).
    /// Otherwise each value is first written to a flag of one byte, and a vector operation packs 64
    /// flags (`pack_by_flags`), or 16 in `pack_few` (`pack_by_sixteens`). Registers are faster if
    /// each value is computed from more than 64 bits. The packed bits don't depend on this choice,
    /// and `pack_few` ignores it for fewer than 16 values.
    #[inline(always)]
    fn packs_in_registers(&self) -> bool {
        false
    }
}

// Returns the word whose bit `i` is 1 if flag `i` is not 0.
#[inline(always)]
fn pack_flags(flags: &[u8; 64]) -> u64
    ensures { (i : ℕ) → i < 64 → is_bit result i ≡ not (eqb (get_or flags.now i 0) 0) }
{
    u8x64::from_array(*flags)
        .simd_ne(u8x64::splat(0))
        .to_bitmask()
}

// Returns the word whose bit `i` is 1 if flag `i` of the sixteen is not 0. The bits above bit 15
// are 0.
#[inline(always)]
fn pack_sixteen_flags(flags: &[u8; 16]) -> u64
    ensures { (i : ℕ) → i < 64 → is_bit result i ≡ not (eqb (get_or flags.now i 0) 0) }
{
    u8x16::from_array(*flags)
        .simd_ne(u8x16::splat(0))
        .to_bitmask()
}

// Writes `count` truth values, those from index `at + done` on, to the flags from index `done` on.
// The first `done` flags are written already.
#[inline(always)]
fn mark_next<V: TruthValues, const N: usize>(
    flags: &mut [u8; N],
    values: &V,
    at: usize,
    done: usize,
    count: usize,
)
    requires marked { IsMarked N flags.old (V.values values.now) at done }
    requires few { done + count ≤ N }
    requires within { at + (done + count) ≤ length (V.values values.now) }
    requires fits { at + (done + count) < 2 ^ 64 }
    ensures { IsMarked N flags.new (V.values values.now) at (done + count) }
{
    for i in done..done + count {
        flags[i] = u8::from(values.value(at + i));
    }
}

// Packs `count` truth values from index `at` on into a word, with zeros above them. The values are
// first written to flags of one byte each, sixteen at a time: the compiler removes the branches of
// a loop with that constant number of iterations.
#[inline(always)]
fn pack_by_flags<V: TruthValues>(values: &V, at: usize, count: usize) -> u64
    requires few { count ≤ 64 }
    requires within { at + count ≤ length (V.values values.now) }
    requires fits { at + count < 2 ^ 64 }
    ensures { IsPacked result (V.values values.now) at count }
{
    let mut flags = [0u8; 64];
    for sixteen in 0..count / 16 {
        mark_next(&mut flags, values, at, 16 * sixteen, 16);
    }
    let rest = count % 16;
    mark_next(&mut flags, values, at, count - rest, rest);
    pack_flags(&flags)
}

/// Returns `word` combined by OR with `more`, which is shifted up by `by` bits.
#[inline(always)]
pub fn put(word: u64, more: u64, by: usize) -> u64
    requires { by < 64 }
    ensures below { (i : ℕ) → i < by → is_bit result i ≡ is_bit word i }
    ensures above { (i : ℕ) → i < 64 - by → is_bit result (by + i)
        ≡ (is_bit word (by + i) || is_bit more i) }
{
    word | (more << by)
}

// Packs the sixteen truth values from index `at` on into a word, with zeros above them. The flags
// stay in a register.
#[inline(always)]
fn pack_sixteen<V: TruthValues>(values: &V, at: usize) -> u64
    requires within { at + 16 ≤ length (V.values values.now) }
    requires fits { at + 16 < 2 ^ 64 }
    ensures { IsPacked result (V.values values.now) at 16 }
{
    let mut flags = [0u8; 16];
    mark_next(&mut flags, values, at, 0, 16);
    pack_sixteen_flags(&flags)
}

// Packs `count` truth values from index `at` on into a word, sixteen at a time, with zeros above
// them. If `count` is not a multiple of 16, the last sixteen overlap those before them, so that no
// value has to be packed singly.
#[inline(always)]
fn pack_by_sixteens<V: TruthValues>(values: &V, at: usize, count: usize) -> u64
    requires some { 16 ≤ count }
    requires few { count ≤ 64 }
    requires within { at + count ≤ length (V.values values.now) }
    requires fits { at + count < 2 ^ 64 }
    ensures { IsPacked result (V.values values.now) at count }
{
    let mut word = 0;
    for sixteen in 0..count / 16 {
        let more = pack_sixteen(values, at + 16 * sixteen);
        word = put(word, more, 16 * sixteen);
    }
    if count % 16 > 0 {
        let last = pack_sixteen(values, at + (count - 16));
        word = put(word, last, count - 16);
    }
    word
}

// Packs `count` truth values from index `at` on into a word, with zeros above them. Begins with the
// last value: each step shifts the word up by one bit, and puts the next value into the lowest bit.
#[inline(always)]
fn pack_bits<V: TruthValues>(values: &V, at: usize, count: usize) -> u64
    requires few { count ≤ 64 }
    requires within { at + count ≤ length (V.values values.now) }
    requires fits { at + count < 2 ^ 64 }
    ensures { IsPacked result (V.values values.now) at count }
{
    let mut word = 0;
    for i in 0..count {
        let value = values.value(at + (count - 1 - i));
        word = put(u64::from(value), word, 1);
    }
    word
}

// Packs `count` truth values from index `at` on into a word, eight at a time, with zeros above
// them. The values stay in registers until eight of them make a byte.
#[inline(always)]
fn pack_by_bytes<V: TruthValues>(values: &V, at: usize, count: usize) -> u64
    requires few { count ≤ 64 }
    requires within { at + count ≤ length (V.values values.now) }
    requires fits { at + count < 2 ^ 64 }
    ensures { IsPacked result (V.values values.now) at count }
{
    let mut word = 0;
    for eight in 0..count / 8 {
        word = put(word, pack_bits(values, at + 8 * eight, 8), 8 * eight);
    }
    let rest = count % 8;
    if rest > 0 {
        word = put(
            word,
            pack_bits(values, at + (count - rest), rest),
            count - rest,
        );
    }
    word
}

// Packs `count` truth values from index `at` on into a word, with zeros above them. Uses the way
// that `packs_in_registers` asks for.
#[inline(always)]
pub(crate) fn pack_word<V: TruthValues>(values: &V, at: usize, count: usize) -> u64
    requires few { count ≤ 64 }
    requires within { at + count ≤ length (V.values values.now) }
    requires fits { at + count < 2 ^ 64 }
    ensures { IsPacked result (V.values values.now) at count }
{
    if values.packs_in_registers() {
        pack_by_bytes(values, at, count)
    } else {
        pack_by_flags(values, at, count)
    }
}

/// Packs `count` truth values from index `at` on into a word, with zeros above them. Meant for
/// calls in which `count` is not a constant.
// Flags are worth their cost from sixteen values on. An array of 64 flags would be slower here: the
// compiler would put it in memory, since it does not know how many flags are used.
#[inline(always)]
pub fn pack_few<V: TruthValues>(values: &V, at: usize, count: usize) -> u64
    requires few { count ≤ 64 }
    requires within { at + count ≤ length (V.values values.now) }
    requires fits { at + count < 2 ^ 64 }
    ensures { IsPacked result (V.values values.now) at count }
{
    if count < 16 {
        pack_bits(values, at, count)
    } else if values.packs_in_registers() {
        pack_by_bytes(values, at, count)
    } else {
        pack_by_sixteens(values, at, count)
    }
}

/// A source of bits made from truth values that are not packed yet. A word is packed whenever it is
/// read. Bits past the last value are false.
#[derive(Drop)]
pub struct Packed<'a, V> {
    pub values: &'a V,
}

impl<'a, V: TruthValues> BitSource for Packed<'a, V> {
    ghost use Rattle.std.specs.Prelude.{◌/◌, false, length, get_or};

    ghost bit = { λ s i. get_or (V.values s.values.now) i false };

    ghost inner = { λ s. length (V.values s.values.now) / 64 };

    #[inline]
    fn inner_words(&self) -> usize {
        self.values.len() / WORD_BITS
    }

    // This is inlined, since a call for each word would cost as much as combining the word with
    // masks.
    #[inline(always)]
    fn inner_word(&self, k: usize) -> u64 {
        // Has no effect at run time. The proof learns from it that indices fit in 64 bits.
        let _len = self.values.len();
        pack_word(self.values, WORD_BITS * k, WORD_BITS)
    }

    #[inline]
    fn word(&self, k: usize) -> u64 {
        let len = self.values.len();
        let at = (WORD_BITS * k).min(len);
        pack_word(self.values, at, (len - at).min(WORD_BITS))
    }
}

/// The truth values of a slice of `bool`.
#[derive(Drop)]
pub struct Bools<'a> {
    pub values: &'a [bool],
}

impl TruthValues for Bools<'_> {
    ghost values = { λ b. b.values.now };

    #[inline]
    fn len(&self) -> usize {
        self.values.len()
    }

    #[inline]
    fn value(&self, i: usize) -> bool {
        self.values[i]
    }
}
