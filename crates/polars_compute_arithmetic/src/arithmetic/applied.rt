//! Applies an operation on two numbers to the rows of arrays.

ghost use Rattle.std.specs.Prelude.{◌≡◌, ◌||◌, IfOk, IsOk, IsTrue, MatchResult, length};
ghost use Rattle.num_traits.specs.Laws.{bit_len};
ghost use Rattle.polars_arrays_bits.specs.Errors.{IsMemory};
ghost use Rattle.polars_compute_arithmetic.specs.Maps.{MapsEach, MapsPairs};
ghost use Rattle.polars_compute_arithmetic.specs.Results.{Gives, IsAnswer};
ghost use Rattle.polars_compute_arithmetic.specs.Zeros.{DividesEach, DividesPairs, is_nonzero};

use crate::arithmetic::divisor::DivisorNumber;
use crate::arithmetic::operations::{NumberDivision, NumberOperation};
use crate::arithmetic::zeros::{mask_all, mask_zeros};
use crate::arity::{prim_binary_in_place, prim_unary_in_place};
use num_traits::Zero;
use polars_arrays_bits::error::ComputeError;
use polars_arrays_flat::primitive::PrimitiveArray;
use polars_arrays_numbers::native_type::NativeType;
use std::alloc::Global;

// Applies the operation `O` to the two values at each index. A row of the result is null if it is
// null in either array. The error is `Memory`.
pub(crate) fn apply_pairs<T: NativeType, O: NumberOperation<T>>(
    alloc: Global,
    lhs: PrimitiveArray<T>,
    rhs: PrimitiveArray<T>,
) -> Result<PrimitiveArray<T>, ComputeError>
    requires { length lhs.values ≡ length rhs.values }
    ensures answers { MatchResult result
        (MapsPairs (Gives T.value T.low (bit_len T.width) O.meaning) lhs rhs) IsMemory }
    ensures owned { IfOk result (λ answer. IsTrue answer.owned) }
{
    prim_binary_in_place(alloc, lhs, rhs, |x, y| O::apply(x, y))
}

// Applies the operation `O` to each value of `lhs` and the number `rhs`. Null rows stay null. The
// error is `Memory`. If `lhs` owns its values, there is no error.
pub(crate) fn apply_right<T: NativeType, O: NumberOperation<T>>(
    alloc: Global,
    lhs: PrimitiveArray<T>,
    rhs: T,
) -> Result<PrimitiveArray<T>, ComputeError>
    ensures answers { MatchResult result
        (MapsEach (λ x z. Gives T.value T.low (bit_len T.width) O.meaning x rhs z) lhs) IsMemory }
    ensures owned { IfOk result (λ answer. IsTrue answer.owned) }
    ensures in_place { IsTrue lhs.owned → IsOk result }
{
    prim_unary_in_place(alloc, lhs, |x| O::apply(x, rhs))
}

// Applies the operation `O` to the number `lhs` and each value of `rhs`. Null rows stay null. The
// error is `Memory`. If `rhs` owns its values, there is no error.
pub(crate) fn apply_left<T: NativeType, O: NumberOperation<T>>(
    alloc: Global,
    lhs: T,
    rhs: PrimitiveArray<T>,
) -> Result<PrimitiveArray<T>, ComputeError>
    ensures answers { MatchResult result
        (MapsEach (λ y z. Gives T.value T.low (bit_len T.width) O.meaning lhs y z) rhs) IsMemory }
    ensures owned { IfOk result (λ answer. IsTrue answer.owned) }
    ensures in_place { IsTrue rhs.owned → IsOk result }
{
    prim_unary_in_place(alloc, rhs, |y| O::apply(lhs, y))
}

// Applies the division `O` to the two values at each index: a dividend of `lhs` and a divisor of
// `rhs`. A row of the result is null if it is null in either array or if its divisor is 0. The
// error is `Memory`.
pub(crate) fn divide_pairs<T: NativeType + Zero, O: NumberOperation<T>>(
    alloc: Global,
    lhs: PrimitiveArray<T>,
    rhs: PrimitiveArray<T>,
) -> Result<PrimitiveArray<T>, ComputeError>
    requires { length lhs.values ≡ length rhs.values }
    ensures answers { MatchResult result
        (DividesPairs T.value (Gives T.value T.low (bit_len T.width) O.meaning) lhs rhs) IsMemory }
    ensures owned { IfOk result (λ answer. IsTrue answer.owned) }
{
    match mask_zeros(alloc, rhs) {
        Ok(rhs) => apply_pairs::<T, O>(alloc, lhs, rhs),
        Err(error) => {
            drop(lhs);
            Err(error)
        }
    }
}

// Applies the division `O` to the number `lhs` and each value of `rhs` as divisor. A row of the
// result is null if its divisor is null or 0. The error is `Memory`.
pub(crate) fn divide_by_each<T: NativeType + Zero, O: NumberOperation<T>>(
    alloc: Global,
    lhs: T,
    rhs: PrimitiveArray<T>,
) -> Result<PrimitiveArray<T>, ComputeError>
    ensures answers { MatchResult result
        (DividesEach T.value (λ y z. Gives T.value T.low (bit_len T.width) O.meaning lhs y z) rhs)
        IsMemory }
    ensures owned { IfOk result (λ answer. IsTrue answer.owned) }
{
    let rhs = mask_zeros(alloc, rhs)?;
    apply_left::<T, O>(alloc, lhs, rhs)
}

// Applies the division `O` to each value of `lhs` and the divisor `rhs`. Null rows stay null. If
// `rhs` is 0, all rows of the result are null, and the stored values are unchanged. The error is
// `Memory`.
pub(crate) fn divide_by<T: DivisorNumber + Zero, O: NumberDivision<T>>(
    alloc: Global,
    lhs: PrimitiveArray<T>,
    rhs: T,
) -> Result<PrimitiveArray<T>, ComputeError>
    ensures answers { MatchResult result
        (IsAnswer T.value T.low (bit_len T.width) (λ a. O.meaning a (T.value rhs)) lhs) IsMemory }
    ensures owned { IfOk result (λ answer. answer.owned ≡ (lhs.owned || is_nonzero (T.value rhs))) }
{
    if rhs.is_zero() {
        return mask_all(alloc, lhs);
    }
    match rhs.to_divisor() {
        Some(divisor) => prim_unary_in_place(alloc, lhs, |x| O::by_divisor(x, rhs, &divisor)),
        None => prim_unary_in_place(alloc, lhs, |x| O::by_unit(x, rhs)),
    }
}
