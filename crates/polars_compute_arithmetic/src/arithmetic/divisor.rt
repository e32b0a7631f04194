//! The trait `DivisorNumber`: number types whose divisors can be prepared.

ghost use Rattle.std.specs.Prelude.{◌≡◌, ◌↔◌, ◌≤◌, ◌≤ℤ◌, ℤ, IsSome, IfSome, pos, unsigned_abs};
ghost use Rattle.polars_compute_arithmetic.specs.Quotients.{floor_quotient, truncated_quotient};

use crate::arithmetic::reciprocals::{Reciprocal32, Reciprocal64, ShortReciprocal};
use crate::arithmetic::signed_divisors::{SignedDivisor16, SignedDivisor32, SignedDivisor64};
use polars_arrays_numbers::native_type::NativeType;

/// A number type whose divisors can be prepared. A prepared divisor stores its reciprocal, so that
/// each division by it is a multiplication and a shift, which is faster than a division.
pub trait DivisorNumber: NativeType {
    /// A prepared divisor: a number with its reciprocal.
    type Divisor: Drop;

    // The number that a prepared divisor divides by.
    ghost divisor: { Self.Divisor → ℤ };

    /// Prepares the number as a divisor. Returns `None` if it is 0, 1 or -1.
    fn to_divisor(self) -> Option<Self::Divisor>
        ensures some { IsSome result ↔ (2 ≤ unsigned_abs (Self.value self)) }
        ensures same { IfSome result (λ kept. divisor kept ≡ Self.value self) };

    /// Divides the number by a prepared divisor, and returns the quotient rounded down.
    fn floor_by(self, by: &Self::Divisor) -> Self
        ensures { Self.value result ≡ floor_quotient (Self.value self) (divisor by.now) };

    /// Divides the number by a prepared divisor, and returns the quotient rounded toward 0.
    fn truncated_by(self, by: &Self::Divisor) -> Self
        ensures { Self.value result ≡ truncated_quotient (Self.value self) (divisor by.now) };

    /// States that the number lies between the least and the greatest number of its type. Does
    /// nothing at run time.
    fn law_ends(self)
        ensures least { Self.low ≤ℤ Self.value self }
        ensures greatest { Self.value self ≤ℤ Self.high };
}

impl DivisorNumber for i8 {
    type Divisor = SignedDivisor16;

    ghost divisor = { λ d. d };

    fn to_divisor(self) -> Option<SignedDivisor16> {
        if self.unsigned_abs() < 2 {
            return None;
        }
        Some(SignedDivisor16::new(i16::from(self)))
    }

    #[inline(always)]
    fn floor_by(self, by: &SignedDivisor16) -> i8 {
        by.divide_floor(i16::from(self)) as i8
    }

    #[inline(always)]
    fn truncated_by(self, by: &SignedDivisor16) -> i8 {
        by.divide_truncated(i16::from(self)) as i8
    }

    fn law_ends(self) {}
}

impl DivisorNumber for i16 {
    type Divisor = SignedDivisor16;

    ghost divisor = { λ d. d };

    fn to_divisor(self) -> Option<SignedDivisor16> {
        if self.unsigned_abs() < 2 {
            return None;
        }
        Some(SignedDivisor16::new(self))
    }

    #[inline(always)]
    fn floor_by(self, by: &SignedDivisor16) -> i16 {
        by.divide_floor(self) as i16
    }

    #[inline(always)]
    fn truncated_by(self, by: &SignedDivisor16) -> i16 {
        by.divide_truncated(self) as i16
    }

    fn law_ends(self) {}
}

impl DivisorNumber for i32 {
    type Divisor = SignedDivisor32;

    ghost divisor = { λ d. d };

    fn to_divisor(self) -> Option<SignedDivisor32> {
        if self.unsigned_abs() < 2 {
            return None;
        }
        Some(SignedDivisor32::new(self))
    }

    #[inline(always)]
    fn floor_by(self, by: &SignedDivisor32) -> i32 {
        by.divide_floor(self)
    }

    #[inline(always)]
    fn truncated_by(self, by: &SignedDivisor32) -> i32 {
        by.divide_truncated(self)
    }

    fn law_ends(self) {}
}

impl DivisorNumber for i64 {
    type Divisor = SignedDivisor64;

    ghost divisor = { λ d. d };

    fn to_divisor(self) -> Option<SignedDivisor64> {
        if self.unsigned_abs() < 2 {
            return None;
        }
        Some(SignedDivisor64::new(self))
    }

    #[inline(always)]
    fn floor_by(self, by: &SignedDivisor64) -> i64 {
        by.divide_floor(self)
    }

    #[inline(always)]
    fn truncated_by(self, by: &SignedDivisor64) -> i64 {
        by.divide_truncated(self)
    }

    fn law_ends(self) {}
}

impl DivisorNumber for u8 {
    type Divisor = ShortReciprocal;

    ghost divisor = { λ d. pos d };

    fn to_divisor(self) -> Option<ShortReciprocal> {
        if self < 2 {
            return None;
        }
        Some(ShortReciprocal::new(u32::from(self)))
    }

    #[inline(always)]
    fn floor_by(self, by: &ShortReciprocal) -> u8 {
        by.divide(u32::from(self)) as u8
    }

    #[inline(always)]
    fn truncated_by(self, by: &ShortReciprocal) -> u8 {
        by.divide(u32::from(self)) as u8
    }

    fn law_ends(self) {}
}

impl DivisorNumber for u16 {
    type Divisor = ShortReciprocal;

    ghost divisor = { λ d. pos d };

    fn to_divisor(self) -> Option<ShortReciprocal> {
        if self < 2 {
            return None;
        }
        Some(ShortReciprocal::new(u32::from(self)))
    }

    #[inline(always)]
    fn floor_by(self, by: &ShortReciprocal) -> u16 {
        by.divide(u32::from(self)) as u16
    }

    #[inline(always)]
    fn truncated_by(self, by: &ShortReciprocal) -> u16 {
        by.divide(u32::from(self)) as u16
    }

    fn law_ends(self) {}
}

impl DivisorNumber for u32 {
    type Divisor = Reciprocal32;

    ghost divisor = { λ d. pos d };

    fn to_divisor(self) -> Option<Reciprocal32> {
        if self < 2 {
            return None;
        }
        Some(Reciprocal32::new(self))
    }

    #[inline(always)]
    fn floor_by(self, by: &Reciprocal32) -> u32 {
        by.divide(self)
    }

    #[inline(always)]
    fn truncated_by(self, by: &Reciprocal32) -> u32 {
        by.divide(self)
    }

    fn law_ends(self) {}
}

impl DivisorNumber for u64 {
    type Divisor = Reciprocal64;

    ghost divisor = { λ d. pos d };

    fn to_divisor(self) -> Option<Reciprocal64> {
        if self < 2 {
            return None;
        }
        Some(Reciprocal64::new(self))
    }

    #[inline(always)]
    fn floor_by(self, by: &Reciprocal64) -> u64 {
        by.divide(self)
    }

    #[inline(always)]
    fn truncated_by(self, by: &Reciprocal64) -> u64 {
        by.divide(self)
    }

    fn law_ends(self) {}
}
