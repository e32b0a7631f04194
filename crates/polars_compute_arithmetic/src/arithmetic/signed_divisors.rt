//! Prepared divisors of signed numbers. Each stores the reciprocal of the divisor's absolute value.

ghost use Rattle.std.specs.Prelude.{◌≡◌, ℤ, pos, ℕ, ◌+◌, ◌*◌, ◌≤◌, ◌<◌, ◌^◌, unsigned_abs};
ghost use Rattle.std.specs.Prelude.{FitsSigned};
ghost use Rattle.std.specs.Int.{w16, w32, w64};
ghost use Rattle.polars_compute_arithmetic.specs.Quotients.{floor_by, floor_quotient};
ghost use Rattle.polars_compute_arithmetic.specs.Quotients.{truncated_quotient};

use crate::arithmetic::reciprocals::{ShortReciprocal, ShortReciprocal64};
use std::marker::Model;

/// A prepared divisor of type `i16`. In contracts its value is the divisor.
#[derive(Drop)]
pub struct SignedDivisor16 {
    divisor: i16,
    offset: i32,
    magnitude: ShortReciprocal,
}

impl Model for SignedDivisor16 {
    ghost Value = { ℤ };

    ghost view = { λ r. r.divisor };

    ghost invariant = { λ r. (2 ≤ unsigned_abs r.divisor) × FitsSigned w16 r.divisor
        × (r.offset ≡ pos (2 ^ 15 * unsigned_abs r.divisor))
        × (r.magnitude ≡ unsigned_abs r.divisor) };
}

impl SignedDivisor16 {
    /// Prepares a divisor other than 0, 1 and -1.
    pub fn new(divisor: i16) -> SignedDivisor16
        requires { 2 ≤ unsigned_abs divisor }
        ensures { result ≡ divisor }
    {
        let magnitude = u32::from(divisor.unsigned_abs());
        SignedDivisor16 {
            divisor,
            offset: ((1 << 15) * magnitude) as i32,
            magnitude: ShortReciprocal::new(magnitude),
        }
    }

    /// Returns `x` divided by the divisor, rounded down.
    #[inline(always)]
    pub fn divide_floor(&self, x: i16) -> i32
        ensures quotient { result ≡ floor_quotient x self.now }
        ensures half { 2 * unsigned_abs result ≤ unsigned_abs x + 1 }
    {
        let x = i32::from(x);
        self.divide_by_magnitude(if self.divisor > 0 { x } else { -x })
    }

    // Returns `x` divided by the absolute value of the divisor, rounded down. The reciprocal only
    // divides numbers of at least 0. So 2^15 times the absolute value is added to `x`, and 2^15 is
    // subtracted from the quotient.
    #[inline(always)]
    fn divide_by_magnitude(&self, x: i32) -> i32
        requires { unsigned_abs x ≤ 2 ^ 15 }
        ensures quotient { result ≡ floor_by x (unsigned_abs self.now) }
        ensures half { 2 * unsigned_abs result ≤ unsigned_abs x + 1 }
    {
        self.magnitude.divide((x + self.offset) as u32) as i32 - (1 << 15)
    }

    /// Returns `x` divided by the divisor, rounded toward 0.
    #[inline(always)]
    pub fn divide_truncated(&self, x: i16) -> i32
        ensures quotient { result ≡ truncated_quotient x self.now }
        ensures half { 2 * unsigned_abs result ≤ unsigned_abs x }
    {
        let q = self.magnitude.divide(u32::from(x.unsigned_abs())) as i32;
        if (x < 0) == (self.divisor < 0) { q } else { -q }
    }
}

/// A prepared divisor of type `i32`. In contracts its value is the divisor.
#[derive(Drop)]
pub struct SignedDivisor32 {
    divisor: i32,
    magnitude: ShortReciprocal,
}

impl Model for SignedDivisor32 {
    ghost Value = { ℤ };

    ghost view = { λ r. r.divisor };

    ghost invariant = { λ r. (2 ≤ unsigned_abs r.divisor) × FitsSigned w32 r.divisor
        × (r.magnitude ≡ unsigned_abs r.divisor) };
}

impl SignedDivisor32 {
    /// Prepares a divisor other than 0, 1 and -1.
    pub fn new(divisor: i32) -> SignedDivisor32
        requires { 2 ≤ unsigned_abs divisor }
        ensures { result ≡ divisor }
    {
        SignedDivisor32 {
            divisor,
            magnitude: ShortReciprocal::new(divisor.unsigned_abs()),
        }
    }

    /// Returns `x` divided by the divisor, rounded down.
    #[inline(always)]
    pub fn divide_floor(&self, x: i32) -> i32
        ensures quotient { result ≡ floor_quotient x self.now }
        ensures half { 2 * unsigned_abs result ≤ unsigned_abs x + 1 }
    {
        let below = if self.divisor > 0 { x < 0 } else { x > 0 };
        let a = x.unsigned_abs() - u32::from(below);
        let q = self.magnitude.divide(a) as i32;
        if below { -1 - q } else { q }
    }

    /// Returns `x` divided by the divisor, rounded toward 0.
    #[inline(always)]
    pub fn divide_truncated(&self, x: i32) -> i32
        ensures quotient { result ≡ truncated_quotient x self.now }
        ensures half { 2 * unsigned_abs result ≤ unsigned_abs x }
    {
        let q = self.magnitude.divide(x.unsigned_abs()) as i32;
        if (x < 0) == (self.divisor < 0) { q } else { -q }
    }
}

/// A prepared divisor of type `i64`. In contracts its value is the divisor.
#[derive(Drop)]
pub struct SignedDivisor64 {
    divisor: i64,
    magnitude: ShortReciprocal64,
}

impl Model for SignedDivisor64 {
    ghost Value = { ℤ };

    ghost view = { λ r. r.divisor };

    ghost invariant = { λ r. (2 ≤ unsigned_abs r.divisor) × FitsSigned w64 r.divisor
        × (r.magnitude ≡ unsigned_abs r.divisor) };
}

impl SignedDivisor64 {
    /// Prepares a divisor other than 0, 1 and -1.
    pub fn new(divisor: i64) -> SignedDivisor64
        requires { 2 ≤ unsigned_abs divisor }
        ensures { result ≡ divisor }
    {
        SignedDivisor64 {
            divisor,
            magnitude: ShortReciprocal64::new(divisor.unsigned_abs()),
        }
    }

    /// Returns `x` divided by the divisor, rounded down.
    #[inline(always)]
    pub fn divide_floor(&self, x: i64) -> i64
        ensures { result ≡ floor_quotient x self.now }
    {
        let below = if self.divisor > 0 { x < 0 } else { x > 0 };
        let a = x.unsigned_abs() - u64::from(below);
        let q = self.magnitude.divide(a) as i64;
        if below { -1 - q } else { q }
    }

    /// Returns `x` divided by the divisor, rounded toward 0.
    #[inline(always)]
    pub fn divide_truncated(&self, x: i64) -> i64
        ensures { result ≡ truncated_quotient x self.now }
    {
        let q = self.magnitude.divide(x.unsigned_abs()) as i64;
        if (x < 0) == (self.divisor < 0) { q } else { -q }
    }
}
