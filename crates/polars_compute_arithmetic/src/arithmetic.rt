//! Arithmetic on arrays of numbers (`ArithmeticKernel`).

ghost use Rattle.std.specs.Prelude.{◌≡◌, ◌||◌, ℕ, ℤ, Bool, IfOk, IsOk, IsTrue, MatchResult, length};
ghost use Rattle.num_traits.specs.Laws.{bit_len};
ghost use Rattle.polars_arrays_bits.specs.Errors.{IsMemory};
ghost use Rattle.polars_arrays_flat.specs.StoredRows.{rows_under};
ghost use Rattle.polars_compute_arithmetic.specs.Operations.{answer_rows, difference_of};
ghost use Rattle.polars_compute_arithmetic.specs.Operations.{floor_division, magnitude_of, modulo};
ghost use Rattle.polars_compute_arithmetic.specs.Operations.{negation_of, product_of, result_rows};
ghost use Rattle.polars_compute_arithmetic.specs.Operations.{sum_of, truncated_division};
ghost use Rattle.polars_compute_arithmetic.specs.Zeros.{is_nonzero};

mod applied;
pub mod divisor;
pub mod kernel;
mod operations;
pub mod pl_num;
pub mod reciprocals;
pub mod signed_divisors;
mod zeros;

pub use crate::arithmetic::kernel::PrimitiveArithmeticKernelImpl;
use polars_arrays_bits::error::ComputeError;
use polars_arrays_flat::array::Array;
use polars_arrays_flat::primitive::PrimitiveArray;
use polars_arrays_numbers::native_type::NativeType;
use std::alloc::Global;

/// A number type whose arrays have arithmetic.
pub trait HasPrimitiveArithmeticKernel: NativeType + PrimitiveArithmeticKernelImpl {}

impl<T: NativeType + PrimitiveArithmeticKernelImpl> HasPrimitiveArithmeticKernel for T {}

/// Arithmetic on the rows of arrays of numbers, wrapped to their type. Two arrays must have equal
/// lengths. A row of the result is null if an operand is null or the divisor is 0. A number in
/// place of an array acts as an array that holds the number in each row.
///
/// Each call takes ownership of its arrays. The result overwrites the values of an array that owns
/// them, those of the left one if both do. If none does, new values are allocated. The error is
/// `Memory`. The result owns its values, with one exception: a division or modulus of an array by
/// the number 0 returns the array with its values unchanged, owned or shared, and all rows null.
pub trait ArithmeticKernel: Sized + Array {
    /// The type of a number in place of an array.
    type Scalar;

    // The least number of the type, and its width in bits.
    ghost least: { ℤ };

    ghost width: { ℕ };

    // The whole number that a scalar stands for.
    ghost number: { Self.Scalar → ℤ };

    // True if the array owns its stored values, so that they can be overwritten.
    ghost owns: { Self → Bool };

    /// Returns the absolute value of each row. The least number of a signed type has none in the
    /// type, and is unchanged.
    fn wrapping_abs(self, alloc: Global) -> Result<Self, ComputeError>
        ensures answers { MatchResult result
            (λ a. rows_under (Self.mask a) (Self.slots a)
            ≡ answer_rows least width magnitude_of (rows_under (Self.mask self) (Self.slots self)))
            IsMemory }
        ensures owned { IfOk result (λ a. IsTrue (owns a)) }
        ensures in_place { IsTrue (owns self) → IsOk result };

    /// Returns each row negated.
    fn wrapping_neg(self, alloc: Global) -> Result<Self, ComputeError>
        ensures answers { MatchResult result
            (λ a. rows_under (Self.mask a) (Self.slots a)
            ≡ answer_rows least width negation_of (rows_under (Self.mask self) (Self.slots self)))
            IsMemory }
        ensures owned { IfOk result (λ a. IsTrue (owns a)) }
        ensures in_place { IsTrue (owns self) → IsOk result };

    /// Returns the sum of the two rows at each index.
    fn wrapping_add(self, alloc: Global, rhs: Self) -> Result<Self, ComputeError>
        requires { length (Self.slots self) ≡ length (Self.slots rhs) }
        ensures answers { MatchResult result
            (λ a. rows_under (Self.mask a) (Self.slots a)
            ≡ result_rows least width sum_of (rows_under (Self.mask self) (Self.slots self))
            (rows_under (Self.mask rhs) (Self.slots rhs))) IsMemory }
        ensures owned { IfOk result (λ a. IsTrue (owns a)) };

    /// Returns the difference of the two rows at each index: the row of `self` minus that of `rhs`.
    fn wrapping_sub(self, alloc: Global, rhs: Self) -> Result<Self, ComputeError>
        requires { length (Self.slots self) ≡ length (Self.slots rhs) }
        ensures answers { MatchResult result
            (λ a. rows_under (Self.mask a) (Self.slots a)
            ≡ result_rows least width difference_of (rows_under (Self.mask self) (Self.slots self))
            (rows_under (Self.mask rhs) (Self.slots rhs))) IsMemory }
        ensures owned { IfOk result (λ a. IsTrue (owns a)) };

    /// Returns the product of the two rows at each index.
    fn wrapping_mul(self, alloc: Global, rhs: Self) -> Result<Self, ComputeError>
        requires { length (Self.slots self) ≡ length (Self.slots rhs) }
        ensures answers { MatchResult result
            (λ a. rows_under (Self.mask a) (Self.slots a)
            ≡ result_rows least width product_of (rows_under (Self.mask self) (Self.slots self))
            (rows_under (Self.mask rhs) (Self.slots rhs))) IsMemory }
        ensures owned { IfOk result (λ a. IsTrue (owns a)) };

    /// Divides the row of `self` by the row of `rhs` at each index, rounding down.
    fn wrapping_floor_div(self, alloc: Global, rhs: Self) -> Result<Self, ComputeError>
        requires { length (Self.slots self) ≡ length (Self.slots rhs) }
        ensures answers { MatchResult result
            (λ a. rows_under (Self.mask a) (Self.slots a)
            ≡ result_rows least width floor_division (rows_under (Self.mask self) (Self.slots self))
            (rows_under (Self.mask rhs) (Self.slots rhs))) IsMemory }
        ensures owned { IfOk result (λ a. IsTrue (owns a)) };

    /// Divides the row of `self` by the row of `rhs` at each index, rounding toward 0.
    fn wrapping_trunc_div(self, alloc: Global, rhs: Self) -> Result<Self, ComputeError>
        requires { length (Self.slots self) ≡ length (Self.slots rhs) }
        ensures answers { MatchResult result
            (λ a. rows_under (Self.mask a) (Self.slots a)
            ≡ result_rows least width truncated_division
            (rows_under (Self.mask self) (Self.slots self))
            (rows_under (Self.mask rhs) (Self.slots rhs))) IsMemory }
        ensures owned { IfOk result (λ a. IsTrue (owns a)) };

    /// Divides the row of `self` by the row of `rhs` at each index, rounding down, and returns the
    /// remainder (modulus). It is 0 or has the sign of the divisor.
    fn wrapping_mod(self, alloc: Global, rhs: Self) -> Result<Self, ComputeError>
        requires { length (Self.slots self) ≡ length (Self.slots rhs) }
        ensures answers { MatchResult result
            (λ a. rows_under (Self.mask a) (Self.slots a)
            ≡ result_rows least width modulo (rows_under (Self.mask self) (Self.slots self))
            (rows_under (Self.mask rhs) (Self.slots rhs))) IsMemory }
        ensures owned { IfOk result (λ a. IsTrue (owns a)) };

    /// Adds the number `rhs` to each row.
    fn wrapping_add_scalar(self, alloc: Global, rhs: Self::Scalar) -> Result<Self, ComputeError>
        ensures answers { MatchResult result
            (λ a. rows_under (Self.mask a) (Self.slots a)
            ≡ answer_rows least width
            (λ n. sum_of n (number rhs)) (rows_under (Self.mask self) (Self.slots self))) IsMemory }
        ensures owned { IfOk result (λ a. IsTrue (owns a)) }
        ensures in_place { IsTrue (owns self) → IsOk result };

    /// Subtracts the number `rhs` from each row.
    fn wrapping_sub_scalar(self, alloc: Global, rhs: Self::Scalar) -> Result<Self, ComputeError>
        ensures answers { MatchResult result
            (λ a. rows_under (Self.mask a) (Self.slots a)
            ≡ answer_rows least width
            (λ n. difference_of n (number rhs)) (rows_under (Self.mask self) (Self.slots self)))
            IsMemory }
        ensures owned { IfOk result (λ a. IsTrue (owns a)) }
        ensures in_place { IsTrue (owns self) → IsOk result };

    /// Subtracts each row of `rhs` from the number `lhs`.
    fn wrapping_sub_scalar_lhs(
        alloc: Global,
        lhs: Self::Scalar,
        rhs: Self,
    ) -> Result<Self, ComputeError>
        ensures answers { MatchResult result
            (λ a. rows_under (Self.mask a) (Self.slots a)
            ≡ answer_rows least width (difference_of (number lhs))
            (rows_under (Self.mask rhs) (Self.slots rhs))) IsMemory }
        ensures owned { IfOk result (λ a. IsTrue (owns a)) }
        ensures in_place { IsTrue (owns rhs) → IsOk result };

    /// Multiplies each row by the number `rhs`.
    fn wrapping_mul_scalar(self, alloc: Global, rhs: Self::Scalar) -> Result<Self, ComputeError>
        ensures answers { MatchResult result
            (λ a. rows_under (Self.mask a) (Self.slots a)
            ≡ answer_rows least width
            (λ n. product_of n (number rhs)) (rows_under (Self.mask self) (Self.slots self)))
            IsMemory }
        ensures owned { IfOk result (λ a. IsTrue (owns a)) }
        ensures in_place { IsTrue (owns self) → IsOk result };

    /// Divides each row by the number `rhs`, rounding down.
    fn wrapping_floor_div_scalar(
        self,
        alloc: Global,
        rhs: Self::Scalar,
    ) -> Result<Self, ComputeError>
        ensures answers { MatchResult result
            (λ a. rows_under (Self.mask a) (Self.slots a)
            ≡ answer_rows least width
            (λ n. floor_division n (number rhs)) (rows_under (Self.mask self) (Self.slots self)))
            IsMemory }
        ensures owned { IfOk result (λ a. owns a ≡ (owns self || is_nonzero (number rhs))) };

    /// Divides the number `lhs` by each row of `rhs`, rounding down.
    fn wrapping_floor_div_scalar_lhs(
        alloc: Global,
        lhs: Self::Scalar,
        rhs: Self,
    ) -> Result<Self, ComputeError>
        ensures answers { MatchResult result
            (λ a. rows_under (Self.mask a) (Self.slots a)
            ≡ answer_rows least width (floor_division (number lhs))
            (rows_under (Self.mask rhs) (Self.slots rhs))) IsMemory }
        ensures owned { IfOk result (λ a. IsTrue (owns a)) };

    /// Divides each row by the number `rhs`, rounding toward 0.
    fn wrapping_trunc_div_scalar(
        self,
        alloc: Global,
        rhs: Self::Scalar,
    ) -> Result<Self, ComputeError>
        ensures answers { MatchResult result
            (λ a. rows_under (Self.mask a) (Self.slots a)
            ≡ answer_rows least width
            (λ n. truncated_division n (number rhs))
            (rows_under (Self.mask self) (Self.slots self))) IsMemory }
        ensures owned { IfOk result (λ a. owns a ≡ (owns self || is_nonzero (number rhs))) };

    /// Divides the number `lhs` by each row of `rhs`, rounding toward 0.
    fn wrapping_trunc_div_scalar_lhs(
        alloc: Global,
        lhs: Self::Scalar,
        rhs: Self,
    ) -> Result<Self, ComputeError>
        ensures answers { MatchResult result
            (λ a. rows_under (Self.mask a) (Self.slots a)
            ≡ answer_rows least width (truncated_division (number lhs))
            (rows_under (Self.mask rhs) (Self.slots rhs))) IsMemory }
        ensures owned { IfOk result (λ a. IsTrue (owns a)) };

    /// Divides each row by the number `rhs`, rounding down, and returns the remainder (modulus).
    fn wrapping_mod_scalar(self, alloc: Global, rhs: Self::Scalar) -> Result<Self, ComputeError>
        ensures answers { MatchResult result
            (λ a. rows_under (Self.mask a) (Self.slots a)
            ≡ answer_rows least width
            (λ n. modulo n (number rhs)) (rows_under (Self.mask self) (Self.slots self))) IsMemory }
        ensures owned { IfOk result (λ a. owns a ≡ (owns self || is_nonzero (number rhs))) };

    /// Divides the number `lhs` by each row of `rhs`, rounding down, and returns the remainder
    /// (modulus).
    fn wrapping_mod_scalar_lhs(
        alloc: Global,
        lhs: Self::Scalar,
        rhs: Self,
    ) -> Result<Self, ComputeError>
        ensures answers { MatchResult result
            (λ a. rows_under (Self.mask a) (Self.slots a)
            ≡ answer_rows least width (modulo (number lhs))
            (rows_under (Self.mask rhs) (Self.slots rhs))) IsMemory }
        ensures owned { IfOk result (λ a. IsTrue (owns a)) };

    /// Divides the row of `self` by the row of `rhs` at each index, rounding down. Another name of
    /// `wrapping_floor_div`.
    final fn legacy_div(self, alloc: Global, rhs: Self) -> Result<Self, ComputeError>
        requires { length (Self.slots self) ≡ length (Self.slots rhs) }
        ensures answers { MatchResult result
            (λ a. rows_under (Self.mask a) (Self.slots a)
            ≡ result_rows least width floor_division (rows_under (Self.mask self) (Self.slots self))
            (rows_under (Self.mask rhs) (Self.slots rhs))) IsMemory }
        ensures owned { IfOk result (λ a. IsTrue (owns a)) }
    {
        self.wrapping_floor_div(alloc, rhs)
    }

    /// Divides each row by the number `rhs`, rounding down. Another name of
    /// `wrapping_floor_div_scalar`.
    final fn legacy_div_scalar(self, alloc: Global, rhs: Self::Scalar) -> Result<Self, ComputeError>
        ensures answers { MatchResult result
            (λ a. rows_under (Self.mask a) (Self.slots a)
            ≡ answer_rows least width
            (λ n. floor_division n (number rhs)) (rows_under (Self.mask self) (Self.slots self)))
            IsMemory }
        ensures owned { IfOk result (λ a. owns a ≡ (owns self || is_nonzero (number rhs))) }
    {
        self.wrapping_floor_div_scalar(alloc, rhs)
    }

    /// Divides the number `lhs` by each row of `rhs`, rounding down. Another name of
    /// `wrapping_floor_div_scalar_lhs`.
    final fn legacy_div_scalar_lhs(
        alloc: Global,
        lhs: Self::Scalar,
        rhs: Self,
    ) -> Result<Self, ComputeError>
        ensures answers { MatchResult result
            (λ a. rows_under (Self.mask a) (Self.slots a)
            ≡ answer_rows least width (floor_division (number lhs))
            (rows_under (Self.mask rhs) (Self.slots rhs))) IsMemory }
        ensures owned { IfOk result (λ a. IsTrue (owns a)) }
    {
        Self::wrapping_floor_div_scalar_lhs(alloc, lhs, rhs)
    }
}

impl<T: HasPrimitiveArithmeticKernel> ArithmeticKernel for PrimitiveArray<T> {
    type Scalar = T;

    ghost least = { T.low };

    ghost width = { bit_len T.width };

    ghost number = { λ s. T.value s };

    ghost owns = { λ a. a.owned };

    fn wrapping_abs(self, alloc: Global) -> Result<Self, ComputeError> {
        T::prim_wrapping_abs(alloc, self)
    }

    fn wrapping_neg(self, alloc: Global) -> Result<Self, ComputeError> {
        T::prim_wrapping_neg(alloc, self)
    }

    fn wrapping_add(self, alloc: Global, rhs: Self) -> Result<Self, ComputeError> {
        T::prim_wrapping_add(alloc, self, rhs)
    }

    fn wrapping_sub(self, alloc: Global, rhs: Self) -> Result<Self, ComputeError> {
        T::prim_wrapping_sub(alloc, self, rhs)
    }

    fn wrapping_mul(self, alloc: Global, rhs: Self) -> Result<Self, ComputeError> {
        T::prim_wrapping_mul(alloc, self, rhs)
    }

    fn wrapping_floor_div(self, alloc: Global, rhs: Self) -> Result<Self, ComputeError> {
        T::prim_wrapping_floor_div(alloc, self, rhs)
    }

    fn wrapping_trunc_div(self, alloc: Global, rhs: Self) -> Result<Self, ComputeError> {
        T::prim_wrapping_trunc_div(alloc, self, rhs)
    }

    fn wrapping_mod(self, alloc: Global, rhs: Self) -> Result<Self, ComputeError> {
        T::prim_wrapping_mod(alloc, self, rhs)
    }

    fn wrapping_add_scalar(self, alloc: Global, rhs: T) -> Result<Self, ComputeError> {
        T::prim_wrapping_add_scalar(alloc, self, rhs)
    }

    fn wrapping_sub_scalar(self, alloc: Global, rhs: T) -> Result<Self, ComputeError> {
        T::prim_wrapping_sub_scalar(alloc, self, rhs)
    }

    fn wrapping_sub_scalar_lhs(alloc: Global, lhs: T, rhs: Self) -> Result<Self, ComputeError> {
        T::prim_wrapping_sub_scalar_lhs(alloc, lhs, rhs)
    }

    fn wrapping_mul_scalar(self, alloc: Global, rhs: T) -> Result<Self, ComputeError> {
        T::prim_wrapping_mul_scalar(alloc, self, rhs)
    }

    fn wrapping_floor_div_scalar(self, alloc: Global, rhs: T) -> Result<Self, ComputeError> {
        T::prim_wrapping_floor_div_scalar(alloc, self, rhs)
    }

    fn wrapping_floor_div_scalar_lhs(
        alloc: Global,
        lhs: T,
        rhs: Self,
    ) -> Result<Self, ComputeError> {
        T::prim_wrapping_floor_div_scalar_lhs(alloc, lhs, rhs)
    }

    fn wrapping_trunc_div_scalar(self, alloc: Global, rhs: T) -> Result<Self, ComputeError> {
        T::prim_wrapping_trunc_div_scalar(alloc, self, rhs)
    }

    fn wrapping_trunc_div_scalar_lhs(
        alloc: Global,
        lhs: T,
        rhs: Self,
    ) -> Result<Self, ComputeError> {
        T::prim_wrapping_trunc_div_scalar_lhs(alloc, lhs, rhs)
    }

    fn wrapping_mod_scalar(self, alloc: Global, rhs: T) -> Result<Self, ComputeError> {
        T::prim_wrapping_mod_scalar(alloc, self, rhs)
    }

    fn wrapping_mod_scalar_lhs(alloc: Global, lhs: T, rhs: Self) -> Result<Self, ComputeError> {
        T::prim_wrapping_mod_scalar_lhs(alloc, lhs, rhs)
    }
}
