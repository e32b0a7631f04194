//! Conversion of lent bits to bitmaps. The bits are copied.

ghost use Rattle.std.specs.Prelude.{◌≡◌, ◌+◌, ◌*◌, ◌≤◌, length, IfOk, IfErr};
ghost use Rattle.arrow_parts.specs.ByteBits.{HoldBits, HoldPresence, byte_window, presence};
ghost use Rattle.arrow_parts.specs.ByteWords.{HaveBytes, IsBytes};
ghost use Rattle.arrow_parts.specs.Refusals.{IsHonest, IsMemoryFailure};

use crate::refused::Refused;
use polars_arrays_bits::bitmap::Bitmap;
use polars_arrays_bits::buffer::Buffer;
use polars_arrays_words::packing::put;
use std::alloc::Global;

/// Reads `count` of `bytes`, from index `at` on, as a little-endian word. `count` is at most 8. The
/// remaining high bytes of the word are 0.
fn few_bytes(bytes: &[u8], at: usize, count: usize) -> u64
    requires few { count ≤ 8 }
    requires within { at + count ≤ length bytes.now }
    ensures { IsBytes bytes.now at count result }
{
    let mut word: u64 = 0;
    for k in 0..count {
        word = put(word, u64::from(bytes[at + k]), 8 * k);
    }
    word
}

/// Copies bytes into little-endian words of 8 bytes each. The bits of the last word past the last
/// byte are 0. The only error is `Memory`.
fn words_of(alloc: Global, bytes: &[u8]) -> Result<Vec<u64>, Refused>
    ensures room { IfOk result (λ words. length bytes.now ≤ 8 * length words.items) }
    ensures bits { IfOk result (λ words. HaveBytes bytes.now (length bytes.now) words.items) }
    ensures refused { IfErr result IsMemoryFailure }
{
    let whole = bytes.len() / 8;
    let rest = bytes.len() % 8;
    let mut words = Vec::with_capacity(alloc, whole + 1)?;
    for k in 0..whole {
        words.push(few_bytes(bytes, 8 * k, 8))?;
    }
    if rest == 0 {
        return Ok(words);
    }
    words.push(few_bytes(bytes, 8 * whole, rest))?;
    Ok(words)
}

/// Returns the `n` bits of `bytes` from bit `at` on. Bit 0 is the lowest bit of the first byte.
/// Only the bytes that have these bits are read and copied.
///
/// Fails with `Parts` if a bit lies past the last byte, and with `Memory` if an allocation fails.
pub fn bits_of(alloc: Global, bytes: &[u8], at: usize, n: usize) -> Result<Bitmap, Refused>
    ensures held { IfOk result (λ _. HoldBits at n bytes.now) }
    ensures bits { IfOk result (λ bits. bits ≡ byte_window at n bytes.now) }
    ensures refused { IfErr result (IsHonest (HoldBits at n bytes.now)) }
{
    if n == 0 {
        return Ok(Bitmap::from_words(Buffer::from_vec(Vec::new(alloc)), 0, 0));
    }
    let Some(end) = at.checked_add(n) else {
        return Err(Refused::Parts);
    };
    if bytes.len() < end.div_ceil(8) {
        return Err(Refused::Parts);
    }
    let words = words_of(alloc, &bytes[at / 8..end.div_ceil(8)])?;
    Ok(Bitmap::from_words(Buffer::from_vec(words), at % 8, n))
}

/// Returns the validity of `n` rows, the bits of `bytes` from bit `at` on: a row is present if its
/// bit is 1. Returns `None` if `bytes` is empty, which means that all rows are present.
///
/// Fails with `Parts` if a bit lies past the last byte, and with `Memory` if an allocation fails.
pub fn validity(alloc: Global, bytes: &[u8], at: usize, n: usize) -> Result<Option<Bitmap>, Refused>
    ensures held { IfOk result (λ _. HoldPresence at n bytes.now) }
    ensures bits { IfOk result (λ bits. bits ≡ presence at n bytes.now) }
    ensures refused { IfErr result (IsHonest (HoldPresence at n bytes.now)) }
{
    if bytes.is_empty() {
        return Ok(None);
    }
    Ok(Some(bits_of(alloc, bytes, at, n)?))
}
