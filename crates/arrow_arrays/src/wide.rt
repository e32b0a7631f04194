//! Conversion of numbers of 128 bits, which are lent as pairs of 64-bit words.
#![tactic(auto, using(crate::proofs::SlotLemmas::refusals))]

ghost use Rattle.std.specs.Prelude.{◌≡◌, ◌+◌, ◌*◌, ◌^◌, length, map, IfErr, IfOk};
ghost use Rattle.arrow_arrays.specs.Good.{AreNumbers};
ghost use Rattle.arrow_arrays.specs.Stands.{IsNumbers};
ghost use Rattle.arrow_parts.specs.Lent.{signed_wide, wide_numbers};
ghost use Rattle.arrow_parts.specs.Refusals.{IsHonest, IsMemoryFailure};

use crate::slots::numbers;
use arrow_parts::part::Part;
use arrow_parts::refused::Refused;
use polars_arrays_flat::primitive::PrimitiveArray;
use std::alloc::Global;

/// Returns the number of 128 bits whose lower word is `low` and whose upper word is `high`.
#[inline(always)]
fn joined(low: u64, high: u64) -> u128
    ensures { result ≡ low + 2 ^ 64 * high }
{
    u128::from(low) + u128::from(high) * (1 << 64)
}

/// Returns the signed number that has the same 128 bits as `number`.
#[inline(always)]
fn signed(number: u128) -> i128
    ensures { result ≡ signed_wide number }
{
    if number < 1 << 127 {
        number as i128
    } else {
        -1 - (u128::MAX - number) as i128
    }
}

/// Joins each pair of words to a number of 128 bits. The lower word of a pair comes first. If there
/// is an odd number of words, the last one is ignored. The only error is `Memory`.
fn numbers_of(alloc: Global, words: &[u64]) -> Result<Vec<u128>, Refused>
    ensures numbers { IfOk result (λ all. all.items ≡ wide_numbers words.now) }
    ensures refused { IfErr result IsMemoryFailure }
{
    let count = words.len() / 2;
    let mut all: Vec<u128> = Vec::with_capacity(alloc, count)?;
    for i in 0..count {
        all.push_reserved(joined(words[2 * i], words[2 * i + 1]));
    }
    Ok(all)
}

/// Joins each pair of words to a signed number of 128 bits in two's complement. The lower word of a
/// pair comes first. If there is an odd number of words, the last one is ignored. The only error is
/// `Memory`.
fn signed_of(alloc: Global, words: &[u64]) -> Result<Vec<i128>, Refused>
    ensures numbers { IfOk result (λ all. all.items ≡ map signed_wide (wide_numbers words.now)) }
    ensures refused { IfErr result IsMemoryFailure }
{
    let unsigned = numbers_of(alloc, words)?;
    let mut all: Vec<i128> = Vec::with_capacity(alloc, unsigned.len())?;
    for i in 0..unsigned.len() {
        all.push_reserved(signed(unsigned[i]));
    }
    Ok(all)
}

/// Copies the unsigned numbers of 128 bits in `part.u64s`, and the validity of the part, into an
/// array. Fails with `Parts` if there isn't one pair of words for each row, or if there are fewer
/// validity bits than rows, and with `Memory` if an allocation fails.
pub fn unsigned_numbers(alloc: Global, part: &Part<'_>) -> Result<PrimitiveArray<u128>, Refused>
    ensures made { IfOk result (IsNumbers part.now (wide_numbers part.now.u64s.now)) }
    ensures refused { IfErr result
        (IsHonest (AreNumbers part.now (length (wide_numbers part.now.u64s.now)))) }
{
    let values = numbers_of(alloc, part.u64s)?;
    numbers(alloc, part, &values)
}

/// Copies the signed numbers of 128 bits in `part.u64s`, and the validity of the part, into an
/// array. Fails with `Parts` if there isn't one pair of words for each row, or if there are fewer
/// validity bits than rows, and with `Memory` if an allocation fails.
pub fn signed_numbers(alloc: Global, part: &Part<'_>) -> Result<PrimitiveArray<i128>, Refused>
    ensures made { IfOk result
        (IsNumbers part.now (map signed_wide (wide_numbers part.now.u64s.now))) }
    ensures refused { IfErr result
        (IsHonest (AreNumbers part.now (length (wide_numbers part.now.u64s.now)))) }
{
    let values = signed_of(alloc, part.u64s)?;
    numbers(alloc, part, &values)
}
