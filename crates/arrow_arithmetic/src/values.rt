//! Loops that write results into the caller's memory.

ghost use Rattle.std.specs.Prelude.{◌≡◌, ℤ, List, length, map};
ghost use Rattle.std.specs.Simd.Lanes.{zip2};
ghost use Rattle.num_traits.specs.Laws.{bit_len};
ghost use Rattle.arrow_arithmetic.specs.Arithmetic.{function_of, operation_of, placed};
ghost use Rattle.polars_arrays_numbers.specs.Wrapping.{wrapped};
ghost use Rattle.polars_compute_arithmetic.specs.Operations.{or_zero};

use crate::calculating::{Arithmetic, Side, Sign};
use crate::functions::{Magnitude, Negation, NumberFunction, WithLeft, WithRight};
use crate::operations::{
    Difference, FloorQuotient, Modulus, NumberOperation, Product, Sum, TruncatedQuotient,
};
use arrow_columns::writing::{Computed, write};
use polars_arrays_numbers::native_type::NativeType;
use polars_compute_arithmetic::arithmetic::pl_num::PlNumArithmetic;

// The results of an operation on each pair of numbers of two slices.
#[derive(Drop)]
struct PairedValues<'a, T, O> {
    left: &'a [T],
    right: &'a [T],
    operation: O,
    ghost one_length: { length right.now ≡ length left.now },
}

// The results of a function of each number of a slice.
#[derive(Drop)]
struct Each<'a, T, F> {
    values: &'a [T],
    function: F,
}

impl<'a, T: NativeType, O: NumberOperation<T>> Computed<T> for PairedValues<'a, T, O> {
    ghost use Rattle.std.specs.Simd.Lanes.{zip2};
    ghost use Rattle.num_traits.specs.Laws.{bit_len};
    ghost use Rattle.polars_arrays_numbers.specs.Wrapping.{wrapped};
    ghost use Rattle.polars_compute_arithmetic.specs.Operations.{or_zero};

    ghost numbers = { λ pairs. zip2 (λ x y. wrapped T.low (bit_len T.width)
        (or_zero (O.meaning (T.value x) (T.value y)))) pairs.left.now pairs.right.now };

    #[inline(always)]
    fn count(&self) -> usize {
        self.left.len()
    }

    #[inline(always)]
    fn number(&self, i: usize) -> T {
        let left = self.left;
        let right = self.right;
        self.operation.apply(left[i], right[i])
    }
}

impl<'a, T: NativeType, F: NumberFunction<T>> Computed<T> for Each<'a, T, F> {
    ghost use Rattle.std.specs.Prelude.{map};
    ghost use Rattle.num_traits.specs.Laws.{bit_len};
    ghost use Rattle.polars_arrays_numbers.specs.Wrapping.{wrapped};
    ghost use Rattle.polars_compute_arithmetic.specs.Operations.{or_zero};

    ghost numbers = { λ each. map (λ x. wrapped T.low (bit_len T.width)
        (or_zero (F.meaning each.function (T.value x)))) each.values.now };

    #[inline(always)]
    fn count(&self) -> usize {
        self.values.len()
    }

    #[inline(always)]
    fn number(&self, i: usize) -> T {
        self.function.apply(self.values[i])
    }
}

// Applies an operation to each pair of numbers of two slices, and writes the results into `out`.
// All three slices have the same length. If there is no result, 0 is written.
fn write_operation<T: NativeType, O: NumberOperation<T> + Drop>(
    operation: O,
    left: &[T],
    right: &[T],
    out: &mut [T],
)
    requires same_length { length right.now ≡ length left.now }
    requires room { length out.old ≡ length left.now }
    ensures { map T.value out.new ≡ zip2 (λ x y. wrapped T.low (bit_len T.width)
        (or_zero (O.meaning (T.value x) (T.value y)))) left.now right.now }
{
    write(
        &PairedValues {
            left,
            right,
            operation,
        },
        out,
    );
}

// Applies a function to each of `values`, and writes the results into `out`, which has the same
// length. If there is no result, 0 is written.
fn write_function<T: NativeType, F: NumberFunction<T> + Drop>(
    function: F,
    values: &[T],
    out: &mut [T],
)
    requires { length out.old ≡ length values.now }
    ensures { map T.value out.new ≡ map (λ x. wrapped T.low (bit_len T.width)
        (or_zero (F.meaning function (T.value x)))) values.now }
{
    write(&Each { values, function }, out);
}

/// Applies the operation `arithmetic` to each pair of numbers of two slices, and writes the results
/// into `out`. All three slices have the same length. If there is no result, 0 is written.
pub(crate) fn write_pairs<T: PlNumArithmetic>(
    arithmetic: Arithmetic,
    left: &[T],
    right: &[T],
    out: &mut [T],
)
    requires same_length { length right.now ≡ length left.now }
    requires room { length out.old ≡ length left.now }
    ensures { map T.value out.new ≡ zip2 (λ x y. wrapped T.low (bit_len T.width)
        (or_zero (operation_of arithmetic (T.value x) (T.value y)))) left.now right.now }
{
    match arithmetic {
        Arithmetic::Add => write_operation(Sum, left, right, out),
        Arithmetic::Subtract => write_operation(Difference, left, right, out),
        Arithmetic::Multiply => write_operation(Product, left, right, out),
        Arithmetic::FloorDivide => write_operation(FloorQuotient, left, right, out),
        Arithmetic::TruncatingDivide => write_operation(TruncatedQuotient, left, right, out),
        Arithmetic::Modulo => write_operation(Modulus, left, right, out),
    }
}

// Applies the operation `operation` to each of `values` and the constant `number`, which is the
// operand on side `side`. Writes the results into `out`, which has the length of `values`. If there
// is no result, 0 is written.
fn write_placed<T: PlNumArithmetic, O: NumberOperation<T> + Drop>(
    operation: O,
    side: Side,
    number: T,
    values: &[T],
    out: &mut [T],
)
    requires { length out.old ≡ length values.now }
    ensures { map T.value out.new ≡ map (λ x. wrapped T.low (bit_len T.width)
        (or_zero (placed side O.meaning (T.value number) (T.value x)))) values.now }
{
    match side {
        Side::Left => {
            let left = number;
            write_function(WithLeft { operation, left }, values, out)
        }
        Side::Right => {
            let right = number;
            write_function(WithRight { operation, right }, values, out)
        }
    }
}

/// Applies the operation `arithmetic` to each of `values` and the constant `number`, which is the
/// operand on side `side`. Writes the results into `out`, which has the length of `values`. If
/// there is no result, 0 is written.
pub(crate) fn write_beside<T: PlNumArithmetic>(
    arithmetic: Arithmetic,
    side: Side,
    number: T,
    values: &[T],
    out: &mut [T],
)
    requires { length out.old ≡ length values.now }
    ensures { map T.value out.new ≡ map (λ x. wrapped T.low (bit_len T.width)
        (or_zero (placed side (operation_of arithmetic) (T.value number) (T.value x)))) values.now }
{
    match arithmetic {
        Arithmetic::Add => write_placed(Sum, side, number, values, out),
        Arithmetic::Subtract => write_placed(Difference, side, number, values, out),
        Arithmetic::Multiply => write_placed(Product, side, number, values, out),
        Arithmetic::FloorDivide => write_placed(FloorQuotient, side, number, values, out),
        Arithmetic::TruncatingDivide => write_placed(TruncatedQuotient, side, number, values, out),
        Arithmetic::Modulo => write_placed(Modulus, side, number, values, out),
    }
}

/// Applies the function `sign` to each of `values`, and writes the results into `out`, which has
/// the same length.
pub(crate) fn write_signs<T: PlNumArithmetic>(sign: Sign, values: &[T], out: &mut [T])
    requires { length out.old ≡ length values.now }
    ensures { map T.value out.new ≡ map (λ x. wrapped T.low (bit_len T.width)
        (or_zero (function_of sign (T.value x)))) values.now }
{
    match sign {
        Sign::Negate => write_function(Negation, values, out),
        Sign::Absolute => write_function(Magnitude, values, out),
    }
}
