//! Queries of states: how many values were seen, and which ones.

ghost use Rattle.std.specs.Prelude.{◌≡◌, ◌+◌, ◌<◌, ◌≤◌, ◌*◌, ◌^◌, ◌+ℤ◌, ◌≤ℤ◌, ◌<ℤ◌, ◌++◌, ℕ, ℤ};
ghost use Rattle.std.specs.Prelude.{pos, length, map, drop};
ghost use Rattle.arrow_unique.specs.Memory.{low_word, state_in};
ghost use Rattle.polars_arrays_flat.specs.Row.{Row};
ghost use Rattle.polars_compute_slots.specs.State.{finalised, set_of};

use crate::first_bits::FirstBits;
use polars_arrays_words::source::{BitSource, count_window};
use polars_arrays_words::words::WORD_BITS;

/// Returns how many of the first `count` bits of `words` are 1: the number of distinct numbers that
/// a state of `count` numbers has seen. Null is not counted.
pub fn count_seen(count: usize, words: &[u64]) -> usize
    ensures { (least : ℤ) (flag : ℕ) → result
        ≡ length (set_of (state_in least count words.now flag)) }
{
    count_window(words, 0, count)
}

/// Returns the number of distinct rows that a state of `count` numbers has seen. Null counts as one
/// row if `flag` is not 0.
pub fn count_finalised(count: usize, words: &[u64], flag: u64) -> usize
    requires { count + 1 < 2 ^ 64 }
    ensures { (least : ℤ) (put : ℤ → Row)
        → result ≡ length (finalised put (state_in least count words.now flag)) }
{
    count_seen(count, words) + usize::from(flag != 0)
}

// Returns the lower 64 bits of `least + i`, as a number of 128 bits in two's complement.
#[inline(always)]
fn low_word_at(least: i128, i: usize) -> u64
    requires { (least +ℤ pos i) <ℤ pos (2 ^ 127) }
    ensures { result ≡ low_word (least +ℤ pos i) }
{
    let number = least + i as i128;
    (number.cast_unsigned() & 0xFFFF_FFFF_FFFF_FFFF) as u64
}

/// Writes the numbers that a state has seen to `out`, in ascending order. The range of the state is
/// the `count` numbers from `least` on, and `words` has a bit for each of them. Each number is
/// written as the lower 64 bits of its two's complement. `out` has room for all numbers that were
/// seen, and its remaining elements are unchanged.
pub fn list(least: i128, count: usize, words: &[u64], out: &mut [u64])
    requires numbers { (least +ℤ pos count) ≤ℤ pos (2 ^ 127) }
    requires bits { count ≤ 64 * length words.now }
    requires room { (flag : ℕ)
        → length (set_of (state_in least count words.now flag)) ≤ length out.old }
    ensures { (flag : ℕ) → out.new ≡ map low_word (set_of (state_in least count words.now flag))
        ++ drop (length (set_of (state_in least count words.now flag))) out.old }
{
    let source = FirstBits { words, count };
    let mut n = 0;
    for k in 0..count.div_ceil(WORD_BITS) {
        let mut rest = source.word(k);
        while rest != 0 {
            let i = rest.trailing_zeros() as usize;
            out[n] = low_word_at(least, WORD_BITS * k + i);
            n += 1;
            rest &= rest - 1;
        }
    }
}
