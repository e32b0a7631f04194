//! Operations on two numbers. Each one is a type, so that the loops over columns are written once.

ghost use Rattle.std.specs.Prelude.{◌≡◌};
ghost use Rattle.num_traits.specs.Laws.{bit_len};
ghost use Rattle.polars_compute_arithmetic.specs.Operations.{Operation};
ghost use Rattle.polars_compute_arithmetic.specs.Results.{Gives};

use polars_arrays_numbers::native_type::NativeType;
use polars_compute_arithmetic::arithmetic::pl_num::PlNumArithmetic;

/// An operation on two numbers.
pub(crate) trait NumberOperation<T: NativeType> {
    // The operation on integers that `apply` computes in type `T`.
    ghost meaning: { Operation };

    /// Returns the result for `left` and `right`, wrapped to type `T`. Returns 0 if there is no
    /// result, as in a division by 0.
    fn apply(&self, left: T, right: T) -> T
        ensures { Gives T.value T.low (bit_len T.width) meaning left right result };
}

/// Addition.
#[derive(Drop)]
pub(crate) struct Sum;

/// Subtraction.
#[derive(Drop)]
pub(crate) struct Difference;

/// Multiplication.
#[derive(Drop)]
pub(crate) struct Product;

/// Division, rounding down.
#[derive(Drop)]
pub(crate) struct FloorQuotient;

/// Division, rounding toward 0.
#[derive(Drop)]
pub(crate) struct TruncatedQuotient;

/// The remainder of the division that rounds the quotient down.
#[derive(Drop)]
pub(crate) struct Modulus;

impl<T: PlNumArithmetic> NumberOperation<T> for Sum {
    ghost use Rattle.polars_compute_arithmetic.specs.Operations.{sum_of};

    ghost meaning = { sum_of };

    #[inline(always)]
    fn apply(&self, left: T, right: T) -> T {
        PlNumArithmetic::wrapping_add(left, right)
    }
}

impl<T: PlNumArithmetic> NumberOperation<T> for Difference {
    ghost use Rattle.polars_compute_arithmetic.specs.Operations.{difference_of};

    ghost meaning = { difference_of };

    #[inline(always)]
    fn apply(&self, left: T, right: T) -> T {
        PlNumArithmetic::wrapping_sub(left, right)
    }
}

impl<T: PlNumArithmetic> NumberOperation<T> for Product {
    ghost use Rattle.polars_compute_arithmetic.specs.Operations.{product_of};

    ghost meaning = { product_of };

    #[inline(always)]
    fn apply(&self, left: T, right: T) -> T {
        PlNumArithmetic::wrapping_mul(left, right)
    }
}

impl<T: PlNumArithmetic> NumberOperation<T> for FloorQuotient {
    ghost use Rattle.polars_compute_arithmetic.specs.Operations.{floor_division};

    ghost meaning = { floor_division };

    #[inline(always)]
    fn apply(&self, left: T, right: T) -> T {
        left.wrapping_floor_div(right)
    }
}

impl<T: PlNumArithmetic> NumberOperation<T> for TruncatedQuotient {
    ghost use Rattle.polars_compute_arithmetic.specs.Operations.{truncated_division};

    ghost meaning = { truncated_division };

    #[inline(always)]
    fn apply(&self, left: T, right: T) -> T {
        PlNumArithmetic::wrapping_trunc_div(left, right)
    }
}

impl<T: PlNumArithmetic> NumberOperation<T> for Modulus {
    ghost use Rattle.polars_compute_arithmetic.specs.Operations.{modulo};

    ghost meaning = { modulo };

    #[inline(always)]
    fn apply(&self, left: T, right: T) -> T {
        left.wrapping_mod(right)
    }
}
