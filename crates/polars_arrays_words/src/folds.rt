//! Reduces each block of bits to one bit, which is true if all bits of the block are true. For
//! blocks of two and of four bits, whole words are folded at once.

ghost use Rattle.std.specs.Prelude.{◌≡◌, ℕ, ◌+◌, ◌*◌, ◌^◌, ◌<◌, ◌≤◌, [], ◌∷◌, ◌&&◌, ◌||◌, length};
ghost use Rattle.polars_arrays_words.specs.Bits.{is_bit, bit_of, IsWord};
ghost use Rattle.polars_arrays_words.specs.Blocks.{block_true, IsFolded};

use crate::packing::{TruthValues, put};
use crate::runs::all_set;
use crate::source::BitSource;
use crate::words::{bits_from, word_or_zero};

// Returns `word | (word >> by)`, with 0 for each bit that is 0 in `mask`.
#[inline(always)]
fn gather(word: u64, by: usize, mask: u64) -> u64
    requires { by < 64 }
    ensures { (i : ℕ) → i < 64 → is_bit result i
        ≡ ((is_bit word i || is_bit word (by + i)) && is_bit mask i) }
{
    (word | (word >> by)) & mask
}

// Returns a word with a bit for each of the 32 pairs of bits of `word`, 1 if both bits are 1. The
// results first lie in every second bit. Each step then moves neighbouring runs of results
// together, until all 32 results are the lowest bits.
#[inline(always)]
fn fold_pairs(word: u64) -> u64
    ensures { IsFolded 2 32 word result }
{
    let answers = word & (word >> 1) & 0x5555_5555_5555_5555;
    let answers = gather(answers, 1, 0x3333_3333_3333_3333);
    let answers = gather(answers, 2, 0x0F0F_0F0F_0F0F_0F0F);
    let answers = gather(answers, 4, 0x00FF_00FF_00FF_00FF);
    let answers = gather(answers, 8, 0x0000_FFFF_0000_FFFF);
    gather(answers, 16, 0xFFFF_FFFF)
}

// Returns a word with a bit for each pair of bits of two words, 1 if both bits are 1. The results
// for `first` are the lower half.
#[inline(always)]
fn fold_two_words(first: u64, second: u64) -> u64
    ensures { (i : ℕ) → i < 64 → is_bit result i ≡ block_true 2 (bit_of (first ∷ second ∷ [])) i }
{
    put(fold_pairs(first), fold_pairs(second), 32)
}

// Returns a word with a bit for each of the 16 blocks of four bits of `word`, 1 if all four bits
// are 1. The results first lie in every fourth bit. Each step then moves neighbouring runs of
// results together, until all 16 results are the lowest bits.
#[inline(always)]
fn fold_fours(word: u64) -> u64
    ensures { IsFolded 4 16 word result }
{
    let pairs = word & (word >> 1);
    let answers = pairs & (pairs >> 2) & 0x1111_1111_1111_1111;
    let answers = gather(answers, 3, 0x0303_0303_0303_0303);
    let answers = gather(answers, 6, 0x000F_000F_000F_000F);
    let answers = gather(answers, 12, 0x0000_00FF_0000_00FF);
    gather(answers, 24, 0xFFFF)
}

// Returns a word with a bit for each block of four bits of four words, 1 if all four bits are 1.
// The results for `first` are the lowest bits.
#[inline(always)]
fn fold_four_words(first: u64, second: u64, third: u64, fourth: u64) -> u64
    ensures { (i : ℕ) → i < 64 → is_bit result i
        ≡ block_true 4 (bit_of (first ∷ second ∷ third ∷ fourth ∷ [])) i }
{
    let two = put(fold_fours(first), fold_fours(second), 16);
    let three = put(two, fold_fours(third), 32);
    put(three, fold_fours(fourth), 48)
}

// Returns word `k` of the bits that begin at bit `by` of the first word. Reads without bounds
// checks.
#[inline(always)]
fn inner_word_at(words: &[u64], by: usize, k: usize) -> u64
    requires by { by < 64 }
    requires inner { k + 1 < length words.now }
    ensures { IsWord (λ p. bit_of words.now (by + p)) k result }
{
    bits_from(words[k], words[k + 1], by)
}

// Returns word `k` of the bits that begin at bit `by` of the first word, with zeros past the end of
// `words`.
#[inline(always)]
fn word_at(words: &[u64], by: usize, k: usize) -> u64
    requires by { by < 64 }
    requires few { k < 2 ^ 60 }
    ensures { IsWord (λ p. bit_of words.now (by + p)) k result }
{
    bits_from(word_or_zero(words, k), word_or_zero(words, k + 1), by)
}

/// A source with a bit for each pair of adjacent bits, true if both bits of the pair are true. The
/// first pair begins at bit `by` of the first word. Bits past the end of `words` are false.
#[derive(Drop)]
pub struct BitPairs<'a> {
    pub words: &'a [u64],
    pub by: usize,
    pub ghost within_word: { by < 64 },
}

impl BitSource for BitPairs<'_> {
    ghost use Rattle.std.specs.Prelude.{◌+◌, ◌-◌, ◌/◌, length};
    ghost use Rattle.polars_arrays_words.specs.Bits.{bit_of};
    ghost use Rattle.polars_arrays_words.specs.Blocks.{block_true};

    ghost bit = { λ s i. block_true 2 (λ p. bit_of s.words.now (s.by + p)) i };

    ghost inner = { λ s. (length s.words.now - 1) / 2 };

    #[inline]
    fn inner_words(&self) -> usize {
        self.words.len().saturating_sub(1) / 2
    }

    #[inline]
    fn inner_word(&self, k: usize) -> u64 {
        fold_two_words(
            inner_word_at(self.words, self.by, 2 * k),
            inner_word_at(self.words, self.by, 2 * k + 1),
        )
    }

    #[inline]
    fn word(&self, k: usize) -> u64 {
        fold_two_words(
            word_at(self.words, self.by, 2 * k),
            word_at(self.words, self.by, 2 * k + 1),
        )
    }
}

/// A source with a bit for each block of four adjacent bits, true if all four are true. The first
/// block begins at bit `by` of the first word. Bits past the end of `words` are false.
#[derive(Drop)]
pub struct Fours<'a> {
    pub words: &'a [u64],
    pub by: usize,
    pub ghost within_word: { by < 64 },
}

impl BitSource for Fours<'_> {
    ghost use Rattle.std.specs.Prelude.{◌+◌, ◌-◌, ◌/◌, length};
    ghost use Rattle.polars_arrays_words.specs.Bits.{bit_of};
    ghost use Rattle.polars_arrays_words.specs.Blocks.{block_true};

    ghost bit = { λ s i. block_true 4 (λ p. bit_of s.words.now (s.by + p)) i };

    ghost inner = { λ s. (length s.words.now - 1) / 4 };

    #[inline]
    fn inner_words(&self) -> usize {
        self.words.len().saturating_sub(1) / 4
    }

    #[inline]
    fn inner_word(&self, k: usize) -> u64 {
        fold_four_words(
            inner_word_at(self.words, self.by, 4 * k),
            inner_word_at(self.words, self.by, 4 * k + 1),
            inner_word_at(self.words, self.by, 4 * k + 2),
            inner_word_at(self.words, self.by, 4 * k + 3),
        )
    }

    #[inline]
    fn word(&self, k: usize) -> u64 {
        fold_four_words(
            word_at(self.words, self.by, 4 * k),
            word_at(self.words, self.by, 4 * k + 1),
            word_at(self.words, self.by, 4 * k + 2),
            word_at(self.words, self.by, 4 * k + 3),
        )
    }
}

/// A list of `count` truth values, one for each block of `width` bits, true if all bits of the
/// block are true. The first block begins at bit `by` of the first word. Bits past the end of
/// `words` are false. Blocks are read one at a time.
#[derive(Drop)]
pub struct Blocks<'a> {
    pub words: &'a [u64],
    pub by: usize,
    pub width: usize,
    pub count: usize,
    pub ghost within_word: { by < 64 },
    pub ghost fits: { width * count < 2 ^ 64 },
}

impl TruthValues for Blocks<'_> {
    ghost use Rattle.polars_arrays_words.specs.Bits.{first_of};

    ghost values = { λ b. first_of (block_true b.width (λ p. bit_of b.words.now (b.by + p)))
        b.count };

    #[inline(always)]
    fn len(&self) -> usize {
        self.count
    }

    #[inline(always)]
    fn value(&self, i: usize) -> bool {
        all_set(self.words, self.by, self.width * i, self.width)
    }

    // Values are packed in registers, since each value reads bits of two words.
    #[inline(always)]
    fn packs_in_registers(&self) -> bool {
        true
    }
}
