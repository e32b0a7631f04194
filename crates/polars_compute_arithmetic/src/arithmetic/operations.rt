//! Types that stand for operations on two numbers. Functions on arrays are generic in such a type,
//! and so are written once for all operations.

ghost use Rattle.std.specs.Prelude.{◌≡◌, ◌≢◌, ◌≤◌, ℤ, pos, refl, unsigned_abs};
ghost use Rattle.num_traits.specs.Laws.{bit_len};
ghost use Rattle.polars_compute_arithmetic.specs.Operations.{Operation, difference_of};
ghost use Rattle.polars_compute_arithmetic.specs.Operations.{floor_division, modulo, product_of};
ghost use Rattle.polars_compute_arithmetic.specs.Operations.{sum_of, truncated_division};
ghost use Rattle.polars_compute_arithmetic.specs.Operations.{unless_zero};
ghost use Rattle.polars_compute_arithmetic.specs.Quotients.{floor_quotient, modulus};
ghost use Rattle.polars_compute_arithmetic.specs.Quotients.{truncated_quotient};
ghost use Rattle.polars_compute_arithmetic.specs.Results.{Gives};

use crate::arithmetic::divisor::DivisorNumber;
use crate::arithmetic::pl_num::PlNumArithmetic;
use polars_arrays_numbers::native_type::NativeType;

/// An operation on two numbers of type `T`.
pub(crate) trait NumberOperation<T: NativeType> {
    // The operation on whole numbers, before the result is wrapped.
    ghost meaning: { Operation };

    /// Applies the operation to `x` and `y`. Returns the result wrapped to the type, or 0 if there
    /// is none (the divisor `y` is 0).
    fn apply(x: T, y: T) -> T
        ensures { Gives T.value T.low (bit_len T.width) meaning x y result };
}

/// A division or modulus: an operation that has a result for each divisor except 0.
pub(crate) trait NumberDivision<T: DivisorNumber>: NumberOperation<T> {
    // The result for a divisor other than 0, before it is wrapped.
    ghost divided: { ℤ → ℤ → ℤ };

    /// Applies the operation to `x` and the divisor `rhs`, which isn't 0. `divisor` is `rhs` as a
    /// prepared divisor (with its reciprocal).
    fn by_divisor(x: T, rhs: T, divisor: &T::Divisor) -> T
        requires some { T.value rhs ≢ pos 0 }
        requires same { T.divisor divisor.now ≡ T.value rhs }
        ensures { Gives T.value T.low (bit_len T.width) Self.meaning x rhs result };

    /// Applies the operation to `x` and the divisor `rhs`, which is 1 or -1.
    fn by_unit(x: T, rhs: T) -> T
        requires some { T.value rhs ≢ pos 0 }
        requires unit { 2 ≤ unsigned_abs (T.value rhs) → ⊥ }
        ensures { Gives T.value T.low (bit_len T.width) Self.meaning x rhs result };

    // The operation `meaning` is `divided`, except that a divisor of 0 has no result.
    ghost division_law: { (a b : ℤ) → Self.NumberOperation.meaning a b
        ≡ unless_zero Self.divided a b };
}

/// Addition.
pub(crate) struct Sum;

/// Subtraction.
pub(crate) struct Difference;

/// Multiplication.
pub(crate) struct Product;

/// Division, rounding down.
pub(crate) struct FloorQuotient;

/// Division, rounding toward 0.
pub(crate) struct TruncatedQuotient;

/// The modulus: the remainder of the division that rounds down.
pub(crate) struct Modulus;

impl<T: PlNumArithmetic> NumberOperation<T> for Sum {
    ghost meaning = { sum_of };

    #[inline(always)]
    fn apply(x: T, y: T) -> T {
        PlNumArithmetic::wrapping_add(x, y)
    }
}

impl<T: PlNumArithmetic> NumberOperation<T> for Difference {
    ghost meaning = { difference_of };

    #[inline(always)]
    fn apply(x: T, y: T) -> T {
        PlNumArithmetic::wrapping_sub(x, y)
    }
}

impl<T: PlNumArithmetic> NumberOperation<T> for Product {
    ghost meaning = { product_of };

    #[inline(always)]
    fn apply(x: T, y: T) -> T {
        PlNumArithmetic::wrapping_mul(x, y)
    }
}

impl<T: PlNumArithmetic> NumberOperation<T> for FloorQuotient {
    ghost meaning = { floor_division };

    #[inline(always)]
    fn apply(x: T, y: T) -> T {
        PlNumArithmetic::wrapping_floor_div(x, y)
    }
}

impl<T: PlNumArithmetic> NumberDivision<T> for FloorQuotient {
    ghost divided = { floor_quotient };

    ghost division_law = { λ a b. refl };

    #[inline(always)]
    fn by_divisor(x: T, rhs: T, divisor: &T::Divisor) -> T {
        let quotient = x.floor_by(divisor);
        quotient.law_ends();
        quotient
    }

    #[inline(always)]
    fn by_unit(x: T, rhs: T) -> T {
        PlNumArithmetic::wrapping_mul(x, rhs)
    }
}

impl<T: PlNumArithmetic> NumberOperation<T> for TruncatedQuotient {
    ghost meaning = { truncated_division };

    #[inline(always)]
    fn apply(x: T, y: T) -> T {
        PlNumArithmetic::wrapping_trunc_div(x, y)
    }
}

impl<T: PlNumArithmetic> NumberDivision<T> for TruncatedQuotient {
    ghost divided = { truncated_quotient };

    ghost division_law = { λ a b. refl };

    #[inline(always)]
    fn by_divisor(x: T, rhs: T, divisor: &T::Divisor) -> T {
        let quotient = x.truncated_by(divisor);
        quotient.law_ends();
        quotient
    }

    #[inline(always)]
    fn by_unit(x: T, rhs: T) -> T {
        PlNumArithmetic::wrapping_mul(x, rhs)
    }
}

impl<T: PlNumArithmetic> NumberOperation<T> for Modulus {
    ghost meaning = { modulo };

    #[inline(always)]
    fn apply(x: T, y: T) -> T {
        PlNumArithmetic::wrapping_mod(x, y)
    }
}

impl<T: PlNumArithmetic> NumberDivision<T> for Modulus {
    ghost divided = { modulus };

    ghost division_law = { λ a b. refl };

    #[inline(always)]
    fn by_divisor(x: T, rhs: T, divisor: &T::Divisor) -> T {
        let product = PlNumArithmetic::wrapping_mul(rhs, x.floor_by(divisor));
        PlNumArithmetic::wrapping_sub(x, product)
    }

    #[inline(always)]
    fn by_unit(x: T, rhs: T) -> T {
        let nothing = T::zero();
        nothing.law_ends();
        nothing
    }
}
