//! Functions of one number. Each one is a type, so that generic loops can inline it.

ghost use Rattle.std.specs.Prelude.{◌≡◌};
ghost use Rattle.num_traits.specs.Laws.{bit_len};
ghost use Rattle.polars_arrays_numbers.specs.Wrapping.{wrapped};
ghost use Rattle.polars_compute_arithmetic.specs.Operations.{Function, or_zero};

use crate::operations::NumberOperation;
use polars_arrays_numbers::native_type::NativeType;
use polars_compute_arithmetic::arithmetic::pl_num::PlNumArithmetic;

/// A function of one number.
pub(crate) trait NumberFunction<T: NativeType> {
    // The function of integers that `apply` computes in type `T`.
    ghost meaning: { Self → Function };

    /// Returns the result wrapped to the type, or 0 if the function has no result for `number`.
    fn apply(&self, number: T) -> T
        ensures { T.value result
            ≡ wrapped T.low (bit_len T.width) (or_zero (meaning self.now (T.value number))) };
}

/// The function that negates a number.
#[derive(Drop)]
pub(crate) struct Negation;

/// The function that returns the absolute value of a number.
#[derive(Drop)]
pub(crate) struct Magnitude;

/// The function that applies `operation` to a given left number and the constant `right`.
#[derive(Drop)]
pub(crate) struct WithRight<T, O> {
    pub operation: O,
    pub right: T,
}

/// The function that applies `operation` to the constant `left` and a given right number.
#[derive(Drop)]
pub(crate) struct WithLeft<T, O> {
    pub operation: O,
    pub left: T,
}

impl<T: PlNumArithmetic> NumberFunction<T> for Negation {
    ghost use Rattle.polars_compute_arithmetic.specs.Operations.{negation_of};

    ghost meaning = { λ _. negation_of };

    #[inline(always)]
    fn apply(&self, number: T) -> T {
        PlNumArithmetic::wrapping_neg(number)
    }
}

impl<T: PlNumArithmetic> NumberFunction<T> for Magnitude {
    ghost use Rattle.polars_compute_arithmetic.specs.Operations.{magnitude_of};

    ghost meaning = { λ _. magnitude_of };

    #[inline(always)]
    fn apply(&self, number: T) -> T {
        PlNumArithmetic::wrapping_abs(number)
    }
}

impl<T: PlNumArithmetic, O: NumberOperation<T>> NumberFunction<T> for WithRight<T, O> {
    ghost meaning = { λ f a. O.meaning a (T.value f.right) };

    #[inline(always)]
    fn apply(&self, number: T) -> T {
        self.operation.apply(number, self.right)
    }
}

impl<T: PlNumArithmetic, O: NumberOperation<T>> NumberFunction<T> for WithLeft<T, O> {
    ghost meaning = { λ f a. O.meaning (T.value f.left) a };

    #[inline(always)]
    fn apply(&self, number: T) -> T {
        self.operation.apply(self.left, number)
    }
}
