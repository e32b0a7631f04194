//! Reads single bits and runs of bits from slices of 64-bit words.

ghost use Rattle.std.specs.Prelude.{◌≡◌, ℕ, ◌+◌, ◌-◌, ◌*◌, ◌/◌, ◌%◌, ◌^◌, ◌<◌, ◌≤◌, true, false};
ghost use Rattle.std.specs.Prelude.{List, [], ◌∷◌, length, get_or, take, drop};
ghost use Rattle.polars_arrays_words.specs.Bits.{is_bit, bit_of};

/// The number of bits of a word.
pub const WORD_BITS: usize = 64;

// Returns word `k`, or 0 if there is no word `k`.
#[inline]
pub(crate) fn word_or_zero(words: &[u64], k: usize) -> u64
    ensures { result ≡ get_or words.now k 0 }
{
    if k < words.len() { words[k] } else { 0 }
}

// Returns the 64 bits that begin at bit `by` of `low` and continue in `high`, the next word. `by`
// is not 0. The compiler makes this a single instruction, which is the fastest form for one word.
#[inline]
pub(crate) fn join(low: u64, high: u64, by: usize) -> u64
    requires some { 0 < by }
    requires within_word { by < 64 }
    ensures { (i : ℕ) → i < 64 → is_bit result i ≡ bit_of (low ∷ high ∷ []) (by + i) }
{
    (low >> by) | (high << (64 - by))
}

// Returns the 64 bits that begin at bit `by` of `low` and continue in `high`, like `join`, but in a
// form that the compiler can vectorize in loops. For `|` the compiler emits a double-word shift,
// which has no vector form. The two terms share no bit, so `+` has the same result. `^` would do
// too, except in loops that combine two joins by `^`: there the compiler reorders all four shifts.
#[inline]
pub(crate) fn join_lanes(low: u64, high: u64, by: usize) -> u64
    requires some { 0 < by }
    requires within_word { by < 64 }
    ensures { (i : ℕ) → i < 64 → is_bit result i ≡ bit_of (low ∷ high ∷ []) (by + i) }
{
    (low >> by) + (high << (64 - by))
}

// Returns the 64 bits that begin at bit `by` of `low` and continue in `high`. `by` may be 0, and
// then `low` is returned. The `if` costs no branch: the compiler emits one double-word shift.
#[inline]
pub(crate) fn bits_from(low: u64, high: u64, by: usize) -> u64
    requires { by < 64 }
    ensures { (i : ℕ) → i < 64 → is_bit result i ≡ bit_of (low ∷ high ∷ []) (by + i) }
{
    if by == 0 { low } else { join(low, high, by) }
}

/// Returns the 64 bits from bit `at` on, with zeros past the end of `words`. Bit 0 is bit `by` of
/// the first word.
#[inline]
pub fn word_from(words: &[u64], by: usize, at: usize) -> u64
    requires { by < 64 }
    ensures { (i : ℕ) → i < 64 → is_bit result i ≡ bit_of words.now (by + at + i) }
{
    let begin = by + at % WORD_BITS;
    let k = at / WORD_BITS + begin / WORD_BITS;
    bits_from(
        word_or_zero(words, k),
        word_or_zero(words, k + 1),
        begin % WORD_BITS,
    )
}

/// Returns bit `i`. Bit 0 is bit `by` of the first word.
#[inline]
pub fn bit_from(words: &[u64], by: usize, i: usize) -> bool
    requires by { by < 64 }
    requires within { by + i < 64 * length words.now }
    ensures { result ≡ bit_of words.now (by + i) }
{
    let place = by + i % WORD_BITS;
    (words[i / WORD_BITS + place / WORD_BITS] >> (place % WORD_BITS)) & 1 == 1
}

/// The location of a run of bits in a slice of words.
#[derive(Drop)]
pub struct Place {
    /// Index of the first word.
    pub first: usize,
    /// Number of words.
    pub count: usize,
    /// Index of the first bit of the run in the first word.
    pub by: usize,
}

impl Place {
    /// Returns the words that hold the run, as a slice of `words`.
    pub fn words_of<'a>(&self, words: &'a [u64]) -> &'a [u64]
        requires { self.now.first + self.now.count ≤ length words.now }
        ensures { result.now ≡ take self.now.count (drop self.now.first words.now) }
    {
        &words[self.first..self.first + self.count]
    }
}

/// Returns the [`Place`] of a run of `n` bits in a slice of words. The run begins `by + at` bits
/// after the lowest bit of the slice's first word. This sum need not fit in a `usize`.
pub fn place_of(by: usize, at: usize, n: usize) -> Place
    requires { by < 64 }
    ensures within_word { result.by < 64 }
    ensures begin { 64 * result.first + result.by ≡ by + at }
    ensures enough { result.by + n ≤ 64 * result.count }
    ensures least { 64 * result.count < result.by + n + 64 }
{
    let begin = by + at % WORD_BITS;
    let by = begin % WORD_BITS;
    let end = by + n % WORD_BITS;
    Place {
        first: at / WORD_BITS + begin / WORD_BITS,
        count: n / WORD_BITS + end.div_ceil(WORD_BITS),
        by,
    }
}

/// Returns the word whose 64 bits are all `value`.
#[inline]
pub fn filled_word(value: bool) -> u64
    ensures { (i : ℕ) → i < 64 → is_bit result i ≡ value }
{
    if value { u64::MAX } else { 0 }
}

/// Returns the word whose `n` lowest bits are 1 and whose other bits are 0.
#[inline]
pub fn low_bits(n: usize) -> u64
    requires { n ≤ 64 }
    ensures low { (i : ℕ) → i < n → is_bit result i ≡ true }
    ensures rest { (i : ℕ) → n ≤ i → i < 64 → is_bit result i ≡ false }
{
    if n < WORD_BITS {
        (1 << n) - 1
    } else {
        u64::MAX
    }
}
