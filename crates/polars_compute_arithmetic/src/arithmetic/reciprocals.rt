//! Prepared divisors of unsigned numbers. The reciprocal of a divisor is computed once. Each
//! quotient is then a multiplication by the reciprocal and a shift.

ghost use Rattle.std.specs.Prelude.{◌≡◌, ℕ, ◌+◌, ◌*◌, ◌/◌, ◌^◌, ◌<◌, ◌≤◌};
ghost use Rattle.polars_compute_arithmetic.specs.Reciprocal.{reciprocal};

use std::marker::Model;

/// A prepared divisor of at most 2^31, for numbers of at most 2^31. In contracts its value is the
/// divisor. A division multiplies two numbers of 32 bits into 64 bits, so loops of divisions are
/// vectorized.
#[derive(Drop)]
pub struct ShortReciprocal {
    divisor: u32,
    factor: u32,
    shift: u32,
}

impl Model for ShortReciprocal {
    ghost Value = { ℕ };

    ghost view = { λ r. r.divisor };

    ghost invariant = { λ r. (2 ≤ r.divisor) × (r.divisor ≤ 2 ^ 31) × (r.shift < 31)
        × (r.divisor ≤ 2 * 2 ^ r.shift) × (r.factor ≡ reciprocal (2 ^ 32 * 2 ^ r.shift) r.divisor)
        × (r.factor < 2 ^ 32) };
}

impl ShortReciprocal {
    /// Prepares a divisor from 2 to 2^31.
    pub fn new(divisor: u32) -> ShortReciprocal
        requires some { 2 ≤ divisor }
        requires within { divisor ≤ 2 ^ 31 }
        ensures { result ≡ divisor }
    {
        let shift = (divisor - 1).ilog2();
        let whole = (1u64 << 32) * (1u64 << shift);
        ShortReciprocal {
            divisor,
            factor: ((whole - 1) / divisor as u64 + 1) as u32,
            shift,
        }
    }

    /// Returns `a` divided by the divisor, rounded down.
    #[inline(always)]
    pub fn divide(&self, a: u32) -> u32
        requires { a ≤ 2 ^ 31 }
        ensures quotient { result ≡ a / self.now }
        ensures half { 2 * result ≤ a }
    {
        (((a as u64 * self.factor as u64) >> 32) >> self.shift) as u32
    }
}

/// A prepared divisor of at most 2^63, for numbers of at most 2^63. In contracts its value is the
/// divisor.
#[derive(Drop)]
pub struct ShortReciprocal64 {
    divisor: u64,
    factor: u64,
    shift: u32,
}

impl Model for ShortReciprocal64 {
    ghost Value = { ℕ };

    ghost view = { λ r. r.divisor };

    ghost invariant = { λ r. (2 ≤ r.divisor) × (r.divisor ≤ 2 ^ 63) × (r.shift < 63)
        × (r.divisor ≤ 2 * 2 ^ r.shift) × (r.factor ≡ reciprocal (2 ^ 64 * 2 ^ r.shift) r.divisor)
        × (r.factor < 2 ^ 64) };
}

impl ShortReciprocal64 {
    /// Prepares a divisor from 2 to 2^63.
    pub fn new(divisor: u64) -> ShortReciprocal64
        requires some { 2 ≤ divisor }
        requires within { divisor ≤ 2 ^ 63 }
        ensures { result ≡ divisor }
    {
        let shift = (divisor - 1).ilog2();
        let whole = (1u128 << 64) * (1u128 << shift);
        ShortReciprocal64 {
            divisor,
            factor: ((whole - 1) / divisor as u128 + 1) as u64,
            shift,
        }
    }

    /// Returns `a` divided by the divisor, rounded down.
    #[inline(always)]
    pub fn divide(&self, a: u64) -> u64
        requires { a ≤ 2 ^ 63 }
        ensures quotient { result ≡ a / self.now }
        ensures half { 2 * result ≤ a }
    {
        high_product(a, self.factor) >> self.shift
    }
}

/// A prepared divisor of 32 bits, for numbers of 32 bits. In contracts its value is the divisor.
/// The reciprocal has 33 bits. Its highest bit is always 1 and is not stored, so that products have
/// 64 bits.
#[derive(Drop)]
pub struct Reciprocal32 {
    divisor: u32,
    factor: u32,
    shift: u32,
}

impl Model for Reciprocal32 {
    ghost Value = { ℕ };

    ghost view = { λ r. r.divisor };

    ghost invariant = { λ r. (2 ≤ r.divisor) × (r.divisor < 2 ^ 32) × (r.shift < 32)
        × (r.divisor ≤ 2 * 2 ^ r.shift)
        × (2 ^ 32 + r.factor ≡ reciprocal (2 ^ 32 * (2 * 2 ^ r.shift)) r.divisor)
        × (r.factor < 2 ^ 32) };
}

impl Reciprocal32 {
    /// Prepares a divisor of at least 2.
    pub fn new(divisor: u32) -> Reciprocal32
        requires { 2 ≤ divisor }
        ensures { result ≡ divisor }
    {
        let shift = (divisor - 1).ilog2();
        let half = (1u64 << 32) * (1u64 << shift);
        let quotient = (half - 1 + half) / divisor as u64;
        Reciprocal32 {
            divisor,
            factor: (quotient - u32::MAX as u64) as u32,
            shift,
        }
    }

    /// Returns `a` divided by the divisor, rounded down.
    #[inline(always)]
    pub fn divide(&self, a: u32) -> u32
        ensures { result ≡ a / self.now }
    {
        let sum = a as u64 + ((a as u64 * self.factor as u64) >> 32);
        ((sum >> 1) >> self.shift) as u32
    }
}

/// A prepared divisor of 64 bits, for numbers of 64 bits. In contracts its value is the divisor.
/// The reciprocal has 65 bits. Its highest bit is always 1 and is not stored.
#[derive(Drop)]
pub struct Reciprocal64 {
    divisor: u64,
    factor: u64,
    shift: u32,
}

impl Model for Reciprocal64 {
    ghost Value = { ℕ };

    ghost view = { λ r. r.divisor };

    ghost invariant = { λ r. (2 ≤ r.divisor) × (r.divisor < 2 ^ 64) × (r.shift < 64)
        × (r.divisor ≤ 2 * 2 ^ r.shift)
        × (2 ^ 64 + r.factor ≡ reciprocal (2 ^ 64 * (2 * 2 ^ r.shift)) r.divisor)
        × (r.factor < 2 ^ 64) };
}

impl Reciprocal64 {
    /// Prepares a divisor of at least 2.
    pub fn new(divisor: u64) -> Reciprocal64
        requires { 2 ≤ divisor }
        ensures { result ≡ divisor }
    {
        let shift = (divisor - 1).ilog2();
        let half = (1u128 << 64) * (1u128 << shift);
        let quotient = (half - 1 + half) / divisor as u128;
        Reciprocal64 {
            divisor,
            factor: (quotient - u64::MAX as u128) as u64,
            shift,
        }
    }

    /// Returns `a` divided by the divisor, rounded down.
    #[inline(always)]
    pub fn divide(&self, a: u64) -> u64
        ensures { result ≡ a / self.now }
    {
        half_sum(a, high_product(a, self.factor)) >> self.shift
    }
}

// Returns the upper 64 bits of the product of two numbers of 64 bits.
#[inline(always)]
fn high_product(a: u64, factor: u64) -> u64
    ensures product { result ≡ a * factor / 2 ^ 64 }
    ensures within { result ≤ a }
{
    ((a as u128 * factor as u128) >> 64) as u64
}

// Returns half of `a + b`, rounded down, even if the sum has 65 bits. `b` must be at most `a`.
#[inline(always)]
fn half_sum(a: u64, b: u64) -> u64
    requires { b ≤ a }
    ensures { result ≡ (a + b) / 2 }
{
    ((a - b) >> 1) + b
}
