//! States that are merged into another state of the same range.

ghost use Rattle.std.specs.Prelude.{◌≤◌, ◌*◌, ℤ, length};
ghost use Rattle.arrow_unique.specs.Memory.{AreJoined, Holds, state_in};
ghost use Rattle.polars_compute_slots.specs.State.{merged};

use crate::first_bits::FirstBits;
use polars_arrays_words::changes::{JoinedWith, WordChange, change_inner_words, change_words};
use polars_arrays_words::operators::Or;
use polars_arrays_words::words::WORD_BITS;

// Sets bit `p` of `words` if bit `p` of `others` is set, for all `p` below `count`.
fn join_words(words: &mut [u64], others: &[u64], count: usize)
    requires { count ≤ 64 * length words.old }
    ensures { AreJoined count others.now words.old words.new }
{
    let source = FirstBits {
        words: others,
        count,
    };
    let change = JoinedWith {
        operator: Or,
        source,
    };
    let to = count.div_ceil(WORD_BITS);
    let inner = change.inner_words().min(to);
    change_inner_words(words, &change, inner);
    change_words(words, &change, inner, to);
}

/// Merges the state in `others` and `other_flag` into the state in `words` and `flag`. Both have
/// the same range of `count` numbers. Afterwards a bit is set if either state had seen its number.
/// If `other_flag` is not 0, `flag` becomes 1. Other bits of `words` are unchanged.
pub fn merge(count: usize, words: &mut [u64], flag: &mut u64, others: &[u64], other_flag: u64)
    requires { count ≤ 64 * length words.old }
    ensures { (least : ℤ) → Holds least count words.old words.new flag.new
        (merged (state_in least count words.old flag.old)
        (state_in least count others.now other_flag)) }
{
    join_words(words, others, count);
    if other_flag != 0 {
        *flag = 1;
    }
}
