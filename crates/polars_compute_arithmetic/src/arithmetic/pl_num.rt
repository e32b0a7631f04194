//! The trait `PlNumArithmetic`: arithmetic on single numbers.

ghost use Rattle.std.specs.Prelude.{◌≡◌, ◌≢◌, pos, int_rem};
ghost use Rattle.num_traits.specs.Laws.{bit_len};
ghost use Rattle.polars_arrays_numbers.specs.Wrapping.{wrapped};
ghost use Rattle.polars_compute_arithmetic.specs.Operations.{difference_of, floor_division};
ghost use Rattle.polars_compute_arithmetic.specs.Operations.{magnitude_of, modulo, negation_of};
ghost use Rattle.polars_compute_arithmetic.specs.Operations.{or_zero, product_of, sum_of};
ghost use Rattle.polars_compute_arithmetic.specs.Operations.{truncated_division};
ghost use Rattle.polars_compute_arithmetic.specs.Quotients.{across, is_below};

use crate::arithmetic::divisor::DivisorNumber;
use num_traits::{One, WrappingAdd, WrappingMul, WrappingNeg, WrappingSub, Zero};
use polars_compute_reductions::wrapping::WrappingNumber;

/// Wrapping arithmetic on single numbers. A quotient or modulus is 0 if the divisor is 0.
pub trait PlNumArithmetic: DivisorNumber
    + WrappingNumber
    + Zero
    + One
    + WrappingAdd
    + WrappingSub
    + WrappingMul
    + WrappingNeg {
    /// Returns the absolute value. The least number of a signed type has none in the type, and is
    /// returned unchanged.
    fn wrapping_abs(self) -> Self
        ensures { Self.value result
            ≡ wrapped Self.low (bit_len Self.width) (or_zero (magnitude_of (Self.value self))) };

    /// Returns the quotient rounded toward 0, or 0 if `rhs` is 0. For example, -7 by 2 gives -3.
    fn wrapping_trunc_div(self, rhs: Self) -> Self
        ensures { Self.value result
            ≡ wrapped Self.low (bit_len Self.width)
            (or_zero (truncated_division (Self.value self) (Self.value rhs))) };

    /// Returns the negated number.
    #[inline(always)]
    final fn wrapping_neg(self) -> Self
        ensures { Self.value result
            ≡ wrapped Self.low (bit_len Self.width) (or_zero (negation_of (Self.value self))) }
    {
        WrappingNeg::wrapping_neg(&self)
    }

    /// Returns the sum.
    #[inline(always)]
    final fn wrapping_add(self, rhs: Self) -> Self
        ensures { Self.value result
            ≡ wrapped Self.low (bit_len Self.width)
            (or_zero (sum_of (Self.value self) (Self.value rhs))) }
    {
        WrappingAdd::wrapping_add(&self, &rhs)
    }

    /// Returns the difference `self - rhs`.
    #[inline(always)]
    final fn wrapping_sub(self, rhs: Self) -> Self
        ensures { Self.value result
            ≡ wrapped Self.low (bit_len Self.width)
            (or_zero (difference_of (Self.value self) (Self.value rhs))) }
    {
        WrappingSub::wrapping_sub(&self, &rhs)
    }

    /// Returns the product.
    #[inline(always)]
    final fn wrapping_mul(self, rhs: Self) -> Self
        ensures { Self.value result
            ≡ wrapped Self.low (bit_len Self.width)
            (or_zero (product_of (Self.value self) (Self.value rhs))) }
    {
        WrappingMul::wrapping_mul(&self, &rhs)
    }

    /// Returns the quotient rounded down, or 0 if `rhs` is 0. For example, -7 by 2 gives -4.
    #[inline(always)]
    final fn wrapping_floor_div(self, rhs: Self) -> Self
        ensures { Self.value result
            ≡ wrapped Self.low (bit_len Self.width)
            (or_zero (floor_division (Self.value self) (Self.value rhs))) }
    {
        if rhs.is_zero() {
            return Self::zero();
        }
        let quotient = self.wrapping_trunc_div(rhs);
        if is_across(remainder(self, rhs, quotient), rhs) {
            PlNumArithmetic::wrapping_sub(quotient, Self::one())
        } else {
            quotient
        }
    }

    /// Returns the modulus: the remainder of the division that rounds down. It is 0 or has the sign
    /// of `rhs`. Returns 0 if `rhs` is 0. For example, -7 and 2 give 1.
    #[inline(always)]
    final fn wrapping_mod(self, rhs: Self) -> Self
        ensures { Self.value result
            ≡ wrapped Self.low (bit_len Self.width)
            (or_zero (modulo (Self.value self) (Self.value rhs))) }
    {
        if rhs.is_zero() {
            return Self::zero();
        }
        let quotient = self.wrapping_trunc_div(rhs);
        let rest = remainder(self, rhs, quotient);
        if is_across(rest, rhs) {
            PlNumArithmetic::wrapping_add(rest, rhs)
        } else {
            rest
        }
    }

    /// Returns the quotient rounded down, or 0 if `rhs` is 0. Another name of `wrapping_floor_div`.
    #[inline(always)]
    final fn legacy_div(self, rhs: Self) -> Self
        ensures { Self.value result
            ≡ wrapped Self.low (bit_len Self.width)
            (or_zero (floor_division (Self.value self) (Self.value rhs))) }
    {
        self.wrapping_floor_div(rhs)
    }
}

// Returns `number - quotient * divisor`. `quotient` is `number / divisor`, rounded toward 0 and
// wrapped.
#[inline(always)]
fn remainder<T: PlNumArithmetic>(number: T, divisor: T, quotient: T) -> T
    requires some { T.value divisor ≢ pos 0 }
    requires quotient { T.value quotient
        ≡ wrapped T.low (bit_len T.width)
        (or_zero (truncated_division (T.value number) (T.value divisor))) }
    ensures rest { T.value result ≡ int_rem (T.value number) (T.value divisor) }
    ensures wraps { T.value result ≡ wrapped T.low (bit_len T.width) (T.value result) }
{
    number.law_ends();
    T::zero().law_ends();
    let product = PlNumArithmetic::wrapping_mul(quotient, divisor);
    PlNumArithmetic::wrapping_sub(number, product)
}

// Returns whether a number is below 0.
#[inline(always)]
fn is_negative<T: PlNumArithmetic>(number: T) -> bool
    ensures { result ≡ is_below (T.value number) }
{
    number < T::zero()
}

// Returns whether a remainder is not 0 and has a sign different from that of its divisor.
#[inline(always)]
fn is_across<T: PlNumArithmetic>(rest: T, divisor: T) -> bool
    ensures { result ≡ across (T.value rest) (T.value divisor) }
{
    (is_negative(rest) != is_negative(divisor)) & !rest.is_zero()
}

// In the signed types, `self.wrapping_abs()` is the method of the integer type, not of this trait.
impl PlNumArithmetic for i8 {
    #[inline(always)]
    fn wrapping_abs(self) -> i8 {
        self.wrapping_abs()
    }

    #[inline(always)]
    fn wrapping_trunc_div(self, rhs: i8) -> i8 {
        if rhs == 0 { 0 } else { self.wrapping_div(rhs) }
    }
}

impl PlNumArithmetic for i16 {
    #[inline(always)]
    fn wrapping_abs(self) -> i16 {
        self.wrapping_abs()
    }

    #[inline(always)]
    fn wrapping_trunc_div(self, rhs: i16) -> i16 {
        if rhs == 0 { 0 } else { self.wrapping_div(rhs) }
    }
}

impl PlNumArithmetic for i32 {
    #[inline(always)]
    fn wrapping_abs(self) -> i32 {
        self.wrapping_abs()
    }

    #[inline(always)]
    fn wrapping_trunc_div(self, rhs: i32) -> i32 {
        if rhs == 0 { 0 } else { self.wrapping_div(rhs) }
    }
}

impl PlNumArithmetic for i64 {
    #[inline(always)]
    fn wrapping_abs(self) -> i64 {
        self.wrapping_abs()
    }

    #[inline(always)]
    fn wrapping_trunc_div(self, rhs: i64) -> i64 {
        if rhs == 0 { 0 } else { self.wrapping_div(rhs) }
    }
}

impl PlNumArithmetic for u8 {
    #[inline(always)]
    fn wrapping_abs(self) -> u8 {
        self
    }

    #[inline(always)]
    fn wrapping_trunc_div(self, rhs: u8) -> u8 {
        if rhs == 0 { 0 } else { self / rhs }
    }
}

impl PlNumArithmetic for u16 {
    #[inline(always)]
    fn wrapping_abs(self) -> u16 {
        self
    }

    #[inline(always)]
    fn wrapping_trunc_div(self, rhs: u16) -> u16 {
        if rhs == 0 { 0 } else { self / rhs }
    }
}

impl PlNumArithmetic for u32 {
    #[inline(always)]
    fn wrapping_abs(self) -> u32 {
        self
    }

    #[inline(always)]
    fn wrapping_trunc_div(self, rhs: u32) -> u32 {
        if rhs == 0 { 0 } else { self / rhs }
    }
}

impl PlNumArithmetic for u64 {
    #[inline(always)]
    fn wrapping_abs(self) -> u64 {
        self
    }

    #[inline(always)]
    fn wrapping_trunc_div(self, rhs: u64) -> u64 {
        if rhs == 0 { 0 } else { self / rhs }
    }
}
