//! Checks whether all bits of a run are true.

ghost use Rattle.std.specs.Prelude.{◌≡◌, ◌+◌, ◌^◌, ◌<◌, ◌≤◌};
ghost use Rattle.std.specs.List.{list_all};
ghost use Rattle.polars_arrays_words.specs.Bits.{first_of, is_bit, window};

use crate::words::{WORD_BITS, word_from};

// Returns whether the `n` bits from bit `at` on are all true. `n` is at most 64. Bit 0 is bit `by`
// of the first word.
#[inline(always)]
fn few_set(words: &[u64], by: usize, at: usize, n: usize) -> bool
    requires by { by < 64 }
    requires few { n ≤ 64 }
    ensures { result ≡ list_all (λ b. b) (window (by + at) n words.now) }
{
    n <= word_from(words, by, at).trailing_ones() as usize
}

// Returns whether the `n` bits from bit `at` on are all true. Bit 0 is bit `by` of the first word.
// Stops at the first word with a false bit. This function is not inlined, so that `all_set`, which
// is, stays short.
#[inline(never)]
fn many_set(words: &[u64], by: usize, at: usize, n: usize) -> bool
    requires by { by < 64 }
    requires fits { at + n < 2 ^ 64 }
    ensures { result ≡ list_all (λ b. b) (window (by + at) n words.now) }
{
    for k in 0..n / WORD_BITS {
        if !few_set(words, by, at + WORD_BITS * k, WORD_BITS) {
            return false;
        }
    }
    let rest = n % WORD_BITS;
    few_set(words, by, at + (n - rest), rest)
}

/// Returns whether the `n` bits from bit `at` on are all true. Bit 0 is bit `by` of the first word.
/// Bits past the end of `words` are false.
#[inline(always)]
pub fn all_set(words: &[u64], by: usize, at: usize, n: usize) -> bool
    requires by { by < 64 }
    requires fits { at + n < 2 ^ 64 }
    ensures { result ≡ list_all (λ b. b) (window (by + at) n words.now) }
{
    if n <= WORD_BITS {
        few_set(words, by, at, n)
    } else {
        many_set(words, by, at, n)
    }
}

/// Returns whether the `n` bits of a word from bit `at` on are all true.
#[inline]
pub fn word_set(word: u64, at: usize, n: usize) -> bool
    requires { at + n ≤ 64 }
    ensures { result ≡ list_all (λ b. b) (first_of (λ i. is_bit word (at + i)) n) }
{
    // If `at` is 64, the run is empty. A shift by 64 is not allowed, so the shift is then by 0.
    n <= (word >> (at % WORD_BITS)).trailing_ones() as usize
}
