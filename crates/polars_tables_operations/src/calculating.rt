//! Arithmetic on arrays of numbers, by the name of a calculation.

ghost use Rattle.std.specs.Prelude.{◌≡◌, MatchResult, length};
ghost use Rattle.polars_arrays_bits.specs.Errors.{IsMemory};
ghost use Rattle.polars_arrays_flat.specs.ArrayRows.{number_rows};
ghost use Rattle.polars_compute_arithmetic.specs.Operations.{answer_rows, result_rows};
ghost use Rattle.polars_tables_operations.specs.Calculating.{calculation_of, change_of, ordered_of};
ghost use Rattle.polars_tables_rows.specs.Types.{least_in, width_of};

use crate::line_number::LineNumber;
use crate::operation::{Calculation, Change, OrderedCalculation};
use polars_arrays_bits::error::ComputeError;
use polars_arrays_flat::primitive::PrimitiveArray;
use polars_compute_arithmetic::arithmetic::ArithmeticKernel;
use std::alloc::Global;

/// Applies the function `change` to each number of an array, and returns the results, wrapped to
/// the type. Null rows stay null. The only error is `Memory`.
pub fn change_rows<T: LineNumber>(
    alloc: Global,
    change: Change,
    rows: PrimitiveArray<T>,
) -> Result<PrimitiveArray<T>, ComputeError>
    ensures { MatchResult result
        (λ a. number_rows T.value a
        ≡ answer_rows (least_in T.kind) (width_of T.kind) (change_of change)
        (number_rows T.value rows)) IsMemory }
{
    match change {
        Change::Magnitude => rows.wrapping_abs(alloc),
        Change::Negation => rows.wrapping_neg(alloc),
    }
}

// Calculates with the numbers of two arrays of equal length, row by row. The order of the operands
// matters. The result is null where an operand is null or the divisor is 0. The only error is
// `Memory`.
fn calculate_in_order<T: LineNumber>(
    alloc: Global,
    calculation: OrderedCalculation,
    left: PrimitiveArray<T>,
    right: PrimitiveArray<T>,
) -> Result<PrimitiveArray<T>, ComputeError>
    requires { length left.values ≡ length right.values }
    ensures { MatchResult result
        (λ a. number_rows T.value a
        ≡ result_rows (least_in T.kind) (width_of T.kind) (ordered_of calculation)
        (number_rows T.value left) (number_rows T.value right)) IsMemory }
{
    match calculation {
        OrderedCalculation::Subtract => left.wrapping_sub(alloc, right),
        OrderedCalculation::FloorDivide => left.wrapping_floor_div(alloc, right),
        OrderedCalculation::TruncatedDivide => left.wrapping_trunc_div(alloc, right),
        OrderedCalculation::Modulo => left.wrapping_mod(alloc, right),
        OrderedCalculation::LegacyDivide => left.legacy_div(alloc, right),
    }
}

/// Calculates with the numbers of two arrays of equal length, row by row. The result is null where
/// an operand is null or the divisor is 0. The only error is `Memory`.
pub fn calculate_rows<T: LineNumber>(
    alloc: Global,
    calculation: Calculation,
    left: PrimitiveArray<T>,
    right: PrimitiveArray<T>,
) -> Result<PrimitiveArray<T>, ComputeError>
    requires { length left.values ≡ length right.values }
    ensures { MatchResult result
        (λ a. number_rows T.value a
        ≡ result_rows (least_in T.kind) (width_of T.kind) (calculation_of calculation)
        (number_rows T.value left) (number_rows T.value right)) IsMemory }
{
    match calculation {
        Calculation::Add => left.wrapping_add(alloc, right),
        Calculation::Multiply => left.wrapping_mul(alloc, right),
        Calculation::Ordered(ordered) => calculate_in_order(alloc, ordered, left, right),
    }
}

// Calculates with each number of an array as the left operand, and a scalar as the right one. The
// order of the operands matters. The result is null where the number is null or the divisor is 0.
// The only error is `Memory`.
fn calculate_scalar_in_order<T: LineNumber>(
    alloc: Global,
    calculation: OrderedCalculation,
    rows: PrimitiveArray<T>,
    scalar: T,
) -> Result<PrimitiveArray<T>, ComputeError>
    ensures { MatchResult result
        (λ a. number_rows T.value a
        ≡ answer_rows (least_in T.kind) (width_of T.kind)
        (λ n. ordered_of calculation n (T.value scalar)) (number_rows T.value rows)) IsMemory }
{
    match calculation {
        OrderedCalculation::Subtract => rows.wrapping_sub_scalar(alloc, scalar),
        OrderedCalculation::FloorDivide => rows.wrapping_floor_div_scalar(alloc, scalar),
        OrderedCalculation::TruncatedDivide => rows.wrapping_trunc_div_scalar(alloc, scalar),
        OrderedCalculation::Modulo => rows.wrapping_mod_scalar(alloc, scalar),
        OrderedCalculation::LegacyDivide => rows.legacy_div_scalar(alloc, scalar),
    }
}

/// Calculates with each number of an array on the left, and a scalar on the right. The result is
/// null where the number is null or the divisor is 0. The only error is `Memory`.
pub fn calculate_scalar<T: LineNumber>(
    alloc: Global,
    calculation: Calculation,
    rows: PrimitiveArray<T>,
    scalar: T,
) -> Result<PrimitiveArray<T>, ComputeError>
    ensures { MatchResult result
        (λ a. number_rows T.value a
        ≡ answer_rows (least_in T.kind) (width_of T.kind)
        (λ n. calculation_of calculation n (T.value scalar)) (number_rows T.value rows)) IsMemory }
{
    match calculation {
        Calculation::Add => rows.wrapping_add_scalar(alloc, scalar),
        Calculation::Multiply => rows.wrapping_mul_scalar(alloc, scalar),
        Calculation::Ordered(ordered) => calculate_scalar_in_order(alloc, ordered, rows, scalar),
    }
}

/// Calculates with a scalar on the left, and each number of an array on the right. The result is
/// null where the number is null or the divisor is 0. The only error is `Memory`.
pub fn calculate_from_scalar<T: LineNumber>(
    alloc: Global,
    calculation: OrderedCalculation,
    scalar: T,
    rows: PrimitiveArray<T>,
) -> Result<PrimitiveArray<T>, ComputeError>
    ensures { MatchResult result
        (λ a. number_rows T.value a
        ≡ answer_rows (least_in T.kind) (width_of T.kind) (ordered_of calculation (T.value scalar))
        (number_rows T.value rows)) IsMemory }
{
    match calculation {
        OrderedCalculation::Subtract => {
            PrimitiveArray::wrapping_sub_scalar_lhs(alloc, scalar, rows)
        }
        OrderedCalculation::FloorDivide => {
            PrimitiveArray::wrapping_floor_div_scalar_lhs(alloc, scalar, rows)
        }
        OrderedCalculation::TruncatedDivide => {
            PrimitiveArray::wrapping_trunc_div_scalar_lhs(alloc, scalar, rows)
        }
        OrderedCalculation::Modulo => PrimitiveArray::wrapping_mod_scalar_lhs(alloc, scalar, rows),
        OrderedCalculation::LegacyDivide => {
            PrimitiveArray::legacy_div_scalar_lhs(alloc, scalar, rows)
        }
    }
}
