//! Writes bits into slices of words. Bit 0 is the lowest bit of the first word.

ghost use Rattle.std.specs.Prelude.{◌≡◌, ◌+◌, ◌*◌, ◌^◌, ◌<◌, ◌≤◌, Bool, length, slice_set};
ghost use Rattle.polars_arrays_words.specs.Bits.{IsPut, IsWritten, first_of};
ghost use Rattle.polars_arrays_words.specs.Packing.{AreAppended};

use crate::packing::{TruthValues, pack_few, pack_word, put};
use crate::source::BitSource;
use crate::words::{WORD_BITS, filled_word, word_or_zero};

/// Sets bit `p` to `value`.
#[inline]
pub fn write_bit(words: &mut [u64], p: usize, value: bool)
    requires { p < 64 * length words.old }
    ensures { IsWritten words.old words.new p (p + 1) value }
{
    let word = words[p / WORD_BITS];
    let mask = 1u64 << (p % WORD_BITS);
    words[p / WORD_BITS] = if value { word | mask } else { word & !mask };
}

// Sets the bits from `from` up to `to`, which is excluded, to `value`, one by one.
fn write_bits(words: &mut [u64], from: usize, to: usize, value: bool)
    requires order { from ≤ to }
    requires room { to ≤ 64 * length words.old }
    ensures { IsWritten words.old words.new from to value }
{
    for p in from..to {
        write_bit(words, p, value);
    }
}

// Sets all bits of the words from index `from` up to `to`, which is excluded, to `value`.
fn write_words(words: &mut [u64], from: usize, to: usize, value: bool)
    requires order { from ≤ to }
    requires room { to ≤ length words.old }
    ensures { IsWritten words.old words.new (64 * from) (64 * to) value }
{
    let word = filled_word(value);
    for k in from..to {
        words[k] = word;
    }
}

/// Sets the bits from `from` up to `to`, which is excluded, to `value`. Sets whole words where
/// possible.
pub fn fill_bits(words: &mut [u64], from: usize, to: usize, value: bool)
    requires order { from ≤ to }
    requires room { to ≤ 64 * length words.old }
    ensures { IsWritten words.old words.new from to value }
{
    let first = from.div_ceil(WORD_BITS);
    let last = to / WORD_BITS;
    if first < last {
        write_bits(words, from, WORD_BITS * first, value);
        write_words(words, first, last, value);
        write_bits(words, WORD_BITS * last, to, value);
    } else {
        write_bits(words, from, to, value);
    }
}

// Sets word `k` to `word`, or does nothing if there is no word `k`.
#[inline]
fn set_word(words: &mut [u64], k: usize, word: u64)
    ensures { words.new ≡ slice_set words.old k word }
{
    if k < words.len() {
        words[k] = word;
    }
}

// Writes the 64 bits of `word` from bit `p` on, as far as there are words. The bits before `p`
// don't change. The bits after these 64 may change.
#[inline]
fn put_word(words: &mut [u64], p: usize, word: u64)
    ensures { IsPut words.old words.new p word }
{
    let k = p / WORD_BITS;
    let by = p % WORD_BITS;
    let before = word_or_zero(words, k) & ((1 << by) - 1);
    set_word(words, k, put(before, word, by));
    set_word(words, k + 1, (word >> 1) >> (WORD_BITS - 1 - by));
}

/// Writes truth values from bit `from` on, 64 at a time. The bits before `from` don't change. The
/// bits after the values may change.
pub fn append_values<V: TruthValues>(words: &mut [u64], from: usize, values: &V)
    requires room { from + length (V.values values.now) ≤ 64 * length words.old }
    requires fits { from + length (V.values values.now) < 2 ^ 64 }
    ensures { AreAppended words.old words.new from (V.values values.now)
        (length (V.values values.now)) }
{
    let len = values.len();
    for k in 0..len / WORD_BITS {
        let at = WORD_BITS * k;
        put_word(words, from + at, pack_word(values, at, WORD_BITS));
    }
    let rest = len % WORD_BITS;
    put_word(
        words,
        from + (len - rest),
        pack_few(values, len - rest, rest),
    );
}

/// Writes the first `len` bits of a source from bit `from` on, a word at a time. The bits before
/// `from` don't change. The bits after these `len` may change.
pub fn append_bits<S: BitSource>(words: &mut [u64], from: usize, source: &S, len: usize)
    requires room { from + len ≤ 64 * length words.old }
    requires fits { from + len < 2 ^ 64 }
    ensures { AreAppended words.old words.new from (first_of (S.bit source.now) len) len }
{
    for k in 0..len.div_ceil(WORD_BITS) {
        put_word(words, from + WORD_BITS * k, source.word(k));
    }
}
