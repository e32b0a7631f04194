//! Expands a word of 64 bits to 64 flags, one for each row. A flag is a number that is 0 exactly if
//! the row's bit is 0. Loops that read a flag and a number for each row are fastest if both are
//! equally wide.

ghost use Rattle.std.specs.Prelude.{◌≡◌, ℕ, Bool, eqb, not, map};
ghost use Rattle.polars_arrays_words.specs.Bits.{first_of, is_bit};

use std::simd::prelude::*;

// Number of rows that have a bit in one word.
const ROWS: usize = 64;

// For each row, the index of the byte of a word that has the row's bit.
const BYTES: [usize; ROWS] = [
    0, 0, 0, 0, 0, 0, 0, 0, 1, 1, 1, 1, 1, 1, 1, 1, 2, 2, 2, 2, 2, 2, 2, 2, 3, 3, 3, 3, 3, 3, 3, 3,
    4, 4, 4, 4, 4, 4, 4, 4, 5, 5, 5, 5, 5, 5, 5, 5, 6, 6, 6, 6, 6, 6, 6, 6, 7, 7, 7, 7, 7, 7, 7, 7,
];

// For each row, the mask of its bit within its byte (`BYTES`).
const PLACES: [u8; ROWS] = [
    1, 2, 4, 8, 16, 32, 64, 128, 1, 2, 4, 8, 16, 32, 64, 128, 1, 2, 4, 8, 16, 32, 64, 128, 1, 2, 4,
    8, 16, 32, 64, 128, 1, 2, 4, 8, 16, 32, 64, 128, 1, 2, 4, 8, 16, 32, 64, 128, 1, 2, 4, 8, 16,
    32, 64, 128, 1, 2, 4, 8, 16, 32, 64, 128,
];

// For each row, the index of the half of a word that has the row's bit.
const HALVES: [usize; ROWS] = [
    0, 0, 0, 0, 0, 0, 0, 0, 0, 0, 0, 0, 0, 0, 0, 0, 0, 0, 0, 0, 0, 0, 0, 0, 0, 0, 0, 0, 0, 0, 0, 0,
    1, 1, 1, 1, 1, 1, 1, 1, 1, 1, 1, 1, 1, 1, 1, 1, 1, 1, 1, 1, 1, 1, 1, 1, 1, 1, 1, 1, 1, 1, 1, 1,
];

// For each row, the mask of its bit within its half (`HALVES`).
const HALF_PLACES: [u32; ROWS] = [
    1, 2, 4, 8, 16, 32, 64, 128, 256, 512, 1024, 2048, 4096, 8192, 16384, 32768, 65536, 131072,
    262144, 524288, 1048576, 2097152, 4194304, 8388608, 16777216, 33554432, 67108864, 134217728,
    268435456, 536870912, 1073741824, 2147483648, 1, 2, 4, 8, 16, 32, 64, 128, 256, 512, 1024,
    2048, 4096, 8192, 16384, 32768, 65536, 131072, 262144, 524288, 1048576, 2097152, 4194304,
    8388608, 16777216, 33554432, 67108864, 134217728, 268435456, 536870912, 1073741824, 2147483648,
];

// For each row, the index of the quarter of a word that has the row's bit.
const QUARTERS: [usize; ROWS] = [
    0, 0, 0, 0, 0, 0, 0, 0, 0, 0, 0, 0, 0, 0, 0, 0, 1, 1, 1, 1, 1, 1, 1, 1, 1, 1, 1, 1, 1, 1, 1, 1,
    2, 2, 2, 2, 2, 2, 2, 2, 2, 2, 2, 2, 2, 2, 2, 2, 3, 3, 3, 3, 3, 3, 3, 3, 3, 3, 3, 3, 3, 3, 3, 3,
];

// For each row, the mask of its bit within its quarter (`QUARTERS`).
const QUARTER_PLACES: [u16; ROWS] = [
    1, 2, 4, 8, 16, 32, 64, 128, 256, 512, 1024, 2048, 4096, 8192, 16384, 32768, 1, 2, 4, 8, 16,
    32, 64, 128, 256, 512, 1024, 2048, 4096, 8192, 16384, 32768, 1, 2, 4, 8, 16, 32, 64, 128, 256,
    512, 1024, 2048, 4096, 8192, 16384, 32768, 1, 2, 4, 8, 16, 32, 64, 128, 256, 512, 1024, 2048,
    4096, 8192, 16384, 32768,
];

/// A number that is used as a flag, which is set if the number is not 0.
pub(crate) trait Flag: Copy {
    // True if the flag is set.
    ghost set: { Self → Bool };

    /// Returns whether the flag is set.
    fn is_set(self) -> bool
        ensures { result ≡ set self };
}

impl Flag for u8 {
    ghost set = { λ flag. not (eqb flag 0) };

    #[inline(always)]
    fn is_set(self) -> bool {
        self != 0
    }
}

impl Flag for u16 {
    ghost set = { λ flag. not (eqb flag 0) };

    #[inline(always)]
    fn is_set(self) -> bool {
        self != 0
    }
}

impl Flag for u32 {
    ghost set = { λ flag. not (eqb flag 0) };

    #[inline(always)]
    fn is_set(self) -> bool {
        self != 0
    }
}

/// Returns 64 bytes, one for each bit of `word`, the lowest bit first. A byte is 0 if its bit is 0,
/// and not 0 if its bit is 1.
#[inline(always)]
pub(crate) fn flags_of_8(word: u64) -> [u8; ROWS]
    ensures { map (λ flag. not (eqb flag 0)) result ≡ first_of (is_bit word) 64 }
{
    let bytes: u8x64 = u8x8::from_array(word.to_le_bytes()).swizzle(BYTES);
    (bytes & u8x64::from_array(PLACES)).to_array()
}

/// Returns 64 numbers of 16 bits, one for each bit of `word`, the lowest bit first. A number is 0
/// if its bit is 0, and not 0 if its bit is 1.
#[inline(always)]
pub(crate) fn flags_of_16(word: u64) -> [u16; ROWS]
    ensures { map (λ flag. not (eqb flag 0)) result ≡ first_of (is_bit word) 64 }
{
    let first = (word % (1 << 16)) as u16;
    let second = ((word >> 16) % (1 << 16)) as u16;
    let third = ((word >> 32) % (1 << 16)) as u16;
    let fourth = (word >> 48) as u16;
    let quarters: u16x64 = u16x4::from_array([first, second, third, fourth]).swizzle(QUARTERS);
    (quarters & u16x64::from_array(QUARTER_PLACES)).to_array()
}

/// Returns 64 numbers of 32 bits, one for each bit of `word`, the lowest bit first. A number is 0
/// if its bit is 0, and not 0 if its bit is 1.
#[inline(always)]
pub(crate) fn flags_of_32(word: u64) -> [u32; ROWS]
    ensures { map (λ flag. not (eqb flag 0)) result ≡ first_of (is_bit word) 64 }
{
    let low = (word % (1 << 32)) as u32;
    let high = (word >> 32) as u32;
    let halves: u32x64 = u32x2::from_array([low, high]).swizzle(HALVES);
    (halves & u32x64::from_array(HALF_PLACES)).to_array()
}
