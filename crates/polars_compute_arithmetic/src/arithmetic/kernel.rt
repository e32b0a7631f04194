//! The trait `PrimitiveArithmeticKernelImpl`: arithmetic on arrays of numbers, with one generic
//! function for each operation. Each function takes ownership of its arrays.

ghost use Rattle.std.specs.Prelude.{◌≡◌, ◌||◌, IfOk, IsOk, IsTrue, MatchResult, length};
ghost use Rattle.num_traits.specs.Laws.{bit_len};
ghost use Rattle.polars_arrays_bits.specs.Errors.{IsMemory};
ghost use Rattle.polars_compute_arithmetic.specs.Operations.{difference_of, floor_division};
ghost use Rattle.polars_compute_arithmetic.specs.Operations.{magnitude_of, modulo, negation_of};
ghost use Rattle.polars_compute_arithmetic.specs.Operations.{product_of, sum_of};
ghost use Rattle.polars_compute_arithmetic.specs.Operations.{truncated_division};
ghost use Rattle.polars_compute_arithmetic.specs.Results.{IsAnswer, IsResult};
ghost use Rattle.polars_compute_arithmetic.specs.Zeros.{is_nonzero};

use crate::arithmetic::applied::{
    apply_left, apply_pairs, apply_right, divide_by, divide_by_each, divide_pairs,
};
use crate::arithmetic::operations::{
    Difference, FloorQuotient, Modulus, Product, Sum, TruncatedQuotient,
};
use crate::arithmetic::pl_num::PlNumArithmetic;
use crate::arity::prim_unary_in_place;
use polars_arrays_bits::error::ComputeError;
use polars_arrays_flat::primitive::PrimitiveArray;
use std::alloc::Global;

/// Arithmetic on arrays of one number type, wrapped to the type. Two arrays must have equal
/// lengths. A row of the result is null if an operand is null or the divisor is 0. A number in
/// place of an array acts as an array that holds the number in each row.
///
/// The result overwrites the values of an array that owns them, those of the left one if both do.
/// If none does, new values are allocated. The error is `Memory`. The result owns its values, with
/// one exception: a division or modulus of an array by the number 0 returns the array with its
/// values unchanged, owned or shared, and all rows null.
pub trait PrimitiveArithmeticKernelImpl: PlNumArithmetic {
    /// Returns the absolute value of each row. The least number of a signed type has none in the
    /// type, and is unchanged.
    final fn prim_wrapping_abs(
        alloc: Global,
        lhs: PrimitiveArray<Self>,
    ) -> Result<PrimitiveArray<Self>, ComputeError>
        ensures answers { MatchResult result
            (IsAnswer Self.value Self.low (bit_len Self.width) magnitude_of lhs) IsMemory }
        ensures owned { IfOk result (λ answer. IsTrue answer.owned) }
        ensures in_place { IsTrue lhs.owned → IsOk result }
    {
        prim_unary_in_place(alloc, lhs, |x| PlNumArithmetic::wrapping_abs(x))
    }

    /// Returns each row negated.
    final fn prim_wrapping_neg(
        alloc: Global,
        lhs: PrimitiveArray<Self>,
    ) -> Result<PrimitiveArray<Self>, ComputeError>
        ensures answers { MatchResult result
            (IsAnswer Self.value Self.low (bit_len Self.width) negation_of lhs) IsMemory }
        ensures owned { IfOk result (λ answer. IsTrue answer.owned) }
        ensures in_place { IsTrue lhs.owned → IsOk result }
    {
        prim_unary_in_place(alloc, lhs, |x| PlNumArithmetic::wrapping_neg(x))
    }

    /// Returns the sum of the two rows at each index.
    final fn prim_wrapping_add(
        alloc: Global,
        lhs: PrimitiveArray<Self>,
        rhs: PrimitiveArray<Self>,
    ) -> Result<PrimitiveArray<Self>, ComputeError>
        requires { length lhs.values ≡ length rhs.values }
        ensures answers { MatchResult result
            (IsResult Self.value Self.low (bit_len Self.width) sum_of lhs rhs) IsMemory }
        ensures owned { IfOk result (λ answer. IsTrue answer.owned) }
    {
        apply_pairs::<Self, Sum>(alloc, lhs, rhs)
    }

    /// Returns the difference of the two rows at each index: the left row minus the right one.
    final fn prim_wrapping_sub(
        alloc: Global,
        lhs: PrimitiveArray<Self>,
        rhs: PrimitiveArray<Self>,
    ) -> Result<PrimitiveArray<Self>, ComputeError>
        requires { length lhs.values ≡ length rhs.values }
        ensures answers { MatchResult result
            (IsResult Self.value Self.low (bit_len Self.width) difference_of lhs rhs) IsMemory }
        ensures owned { IfOk result (λ answer. IsTrue answer.owned) }
    {
        apply_pairs::<Self, Difference>(alloc, lhs, rhs)
    }

    /// Returns the product of the two rows at each index.
    final fn prim_wrapping_mul(
        alloc: Global,
        lhs: PrimitiveArray<Self>,
        rhs: PrimitiveArray<Self>,
    ) -> Result<PrimitiveArray<Self>, ComputeError>
        requires { length lhs.values ≡ length rhs.values }
        ensures answers { MatchResult result
            (IsResult Self.value Self.low (bit_len Self.width) product_of lhs rhs) IsMemory }
        ensures owned { IfOk result (λ answer. IsTrue answer.owned) }
    {
        apply_pairs::<Self, Product>(alloc, lhs, rhs)
    }

    /// Divides the left row by the right one at each index, rounding down.
    final fn prim_wrapping_floor_div(
        alloc: Global,
        lhs: PrimitiveArray<Self>,
        rhs: PrimitiveArray<Self>,
    ) -> Result<PrimitiveArray<Self>, ComputeError>
        requires { length lhs.values ≡ length rhs.values }
        ensures answers { MatchResult result
            (IsResult Self.value Self.low (bit_len Self.width) floor_division lhs rhs) IsMemory }
        ensures owned { IfOk result (λ answer. IsTrue answer.owned) }
    {
        divide_pairs::<Self, FloorQuotient>(alloc, lhs, rhs)
    }

    /// Divides the left row by the right one at each index, rounding toward 0.
    final fn prim_wrapping_trunc_div(
        alloc: Global,
        lhs: PrimitiveArray<Self>,
        rhs: PrimitiveArray<Self>,
    ) -> Result<PrimitiveArray<Self>, ComputeError>
        requires { length lhs.values ≡ length rhs.values }
        ensures answers { MatchResult result
            (IsResult Self.value Self.low (bit_len Self.width) truncated_division lhs rhs)
            IsMemory }
        ensures owned { IfOk result (λ answer. IsTrue answer.owned) }
    {
        divide_pairs::<Self, TruncatedQuotient>(alloc, lhs, rhs)
    }

    /// Divides the left row by the right one at each index, rounding down, and returns the
    /// remainder (modulus).
    final fn prim_wrapping_mod(
        alloc: Global,
        lhs: PrimitiveArray<Self>,
        rhs: PrimitiveArray<Self>,
    ) -> Result<PrimitiveArray<Self>, ComputeError>
        requires { length lhs.values ≡ length rhs.values }
        ensures answers { MatchResult result
            (IsResult Self.value Self.low (bit_len Self.width) modulo lhs rhs) IsMemory }
        ensures owned { IfOk result (λ answer. IsTrue answer.owned) }
    {
        divide_pairs::<Self, Modulus>(alloc, lhs, rhs)
    }

    /// Adds the number `rhs` to each row.
    final fn prim_wrapping_add_scalar(
        alloc: Global,
        lhs: PrimitiveArray<Self>,
        rhs: Self,
    ) -> Result<PrimitiveArray<Self>, ComputeError>
        ensures answers { MatchResult result
            (IsAnswer Self.value Self.low (bit_len Self.width) (λ a. sum_of a (Self.value rhs)) lhs)
            IsMemory }
        ensures owned { IfOk result (λ answer. IsTrue answer.owned) }
        ensures in_place { IsTrue lhs.owned → IsOk result }
    {
        apply_right::<Self, Sum>(alloc, lhs, rhs)
    }

    /// Subtracts the number `rhs` from each row.
    final fn prim_wrapping_sub_scalar(
        alloc: Global,
        lhs: PrimitiveArray<Self>,
        rhs: Self,
    ) -> Result<PrimitiveArray<Self>, ComputeError>
        ensures answers { MatchResult result
            (IsAnswer Self.value Self.low (bit_len Self.width)
            (λ a. difference_of a (Self.value rhs)) lhs) IsMemory }
        ensures owned { IfOk result (λ answer. IsTrue answer.owned) }
        ensures in_place { IsTrue lhs.owned → IsOk result }
    {
        apply_right::<Self, Difference>(alloc, lhs, rhs)
    }

    /// Subtracts each row of `rhs` from the number `lhs`.
    final fn prim_wrapping_sub_scalar_lhs(
        alloc: Global,
        lhs: Self,
        rhs: PrimitiveArray<Self>,
    ) -> Result<PrimitiveArray<Self>, ComputeError>
        ensures answers { MatchResult result
            (IsAnswer Self.value Self.low (bit_len Self.width) (difference_of (Self.value lhs)) rhs)
            IsMemory }
        ensures owned { IfOk result (λ answer. IsTrue answer.owned) }
        ensures in_place { IsTrue rhs.owned → IsOk result }
    {
        apply_left::<Self, Difference>(alloc, lhs, rhs)
    }

    /// Multiplies each row by the number `rhs`.
    final fn prim_wrapping_mul_scalar(
        alloc: Global,
        lhs: PrimitiveArray<Self>,
        rhs: Self,
    ) -> Result<PrimitiveArray<Self>, ComputeError>
        ensures answers { MatchResult result
            (IsAnswer Self.value Self.low (bit_len Self.width)
            (λ a. product_of a (Self.value rhs)) lhs) IsMemory }
        ensures owned { IfOk result (λ answer. IsTrue answer.owned) }
        ensures in_place { IsTrue lhs.owned → IsOk result }
    {
        apply_right::<Self, Product>(alloc, lhs, rhs)
    }

    /// Divides each row by the number `rhs`, rounding down.
    final fn prim_wrapping_floor_div_scalar(
        alloc: Global,
        lhs: PrimitiveArray<Self>,
        rhs: Self,
    ) -> Result<PrimitiveArray<Self>, ComputeError>
        ensures answers { MatchResult result
            (IsAnswer Self.value Self.low (bit_len Self.width)
            (λ a. floor_division a (Self.value rhs)) lhs) IsMemory }
        ensures owned { IfOk result
            (λ answer. answer.owned ≡ (lhs.owned || is_nonzero (Self.value rhs))) }
    {
        divide_by::<Self, FloorQuotient>(alloc, lhs, rhs)
    }

    /// Divides the number `lhs` by each row of `rhs`, rounding down.
    final fn prim_wrapping_floor_div_scalar_lhs(
        alloc: Global,
        lhs: Self,
        rhs: PrimitiveArray<Self>,
    ) -> Result<PrimitiveArray<Self>, ComputeError>
        ensures answers { MatchResult result
            (IsAnswer Self.value Self.low (bit_len Self.width) (floor_division (Self.value lhs))
            rhs) IsMemory }
        ensures owned { IfOk result (λ answer. IsTrue answer.owned) }
    {
        divide_by_each::<Self, FloorQuotient>(alloc, lhs, rhs)
    }

    /// Divides each row by the number `rhs`, rounding toward 0.
    final fn prim_wrapping_trunc_div_scalar(
        alloc: Global,
        lhs: PrimitiveArray<Self>,
        rhs: Self,
    ) -> Result<PrimitiveArray<Self>, ComputeError>
        ensures answers { MatchResult result
            (IsAnswer Self.value Self.low (bit_len Self.width)
            (λ a. truncated_division a (Self.value rhs)) lhs) IsMemory }
        ensures owned { IfOk result
            (λ answer. answer.owned ≡ (lhs.owned || is_nonzero (Self.value rhs))) }
    {
        divide_by::<Self, TruncatedQuotient>(alloc, lhs, rhs)
    }

    /// Divides the number `lhs` by each row of `rhs`, rounding toward 0.
    final fn prim_wrapping_trunc_div_scalar_lhs(
        alloc: Global,
        lhs: Self,
        rhs: PrimitiveArray<Self>,
    ) -> Result<PrimitiveArray<Self>, ComputeError>
        ensures answers { MatchResult result
            (IsAnswer Self.value Self.low (bit_len Self.width) (truncated_division (Self.value lhs))
            rhs) IsMemory }
        ensures owned { IfOk result (λ answer. IsTrue answer.owned) }
    {
        divide_by_each::<Self, TruncatedQuotient>(alloc, lhs, rhs)
    }

    /// Divides each row by the number `rhs`, rounding down, and returns the remainder (modulus).
    final fn prim_wrapping_mod_scalar(
        alloc: Global,
        lhs: PrimitiveArray<Self>,
        rhs: Self,
    ) -> Result<PrimitiveArray<Self>, ComputeError>
        ensures answers { MatchResult result
            (IsAnswer Self.value Self.low (bit_len Self.width) (λ a. modulo a (Self.value rhs)) lhs)
            IsMemory }
        ensures owned { IfOk result
            (λ answer. answer.owned ≡ (lhs.owned || is_nonzero (Self.value rhs))) }
    {
        divide_by::<Self, Modulus>(alloc, lhs, rhs)
    }

    /// Divides the number `lhs` by each row of `rhs`, rounding down, and returns the remainder
    /// (modulus).
    final fn prim_wrapping_mod_scalar_lhs(
        alloc: Global,
        lhs: Self,
        rhs: PrimitiveArray<Self>,
    ) -> Result<PrimitiveArray<Self>, ComputeError>
        ensures answers { MatchResult result
            (IsAnswer Self.value Self.low (bit_len Self.width) (modulo (Self.value lhs)) rhs)
            IsMemory }
        ensures owned { IfOk result (λ answer. IsTrue answer.owned) }
    {
        divide_by_each::<Self, Modulus>(alloc, lhs, rhs)
    }
}

impl PrimitiveArithmeticKernelImpl for i8 {}

impl PrimitiveArithmeticKernelImpl for i16 {}

impl PrimitiveArithmeticKernelImpl for i32 {}

impl PrimitiveArithmeticKernelImpl for i64 {}

impl PrimitiveArithmeticKernelImpl for u8 {}

impl PrimitiveArithmeticKernelImpl for u16 {}

impl PrimitiveArithmeticKernelImpl for u32 {}

impl PrimitiveArithmeticKernelImpl for u64 {}
