//! The trait `BitwiseKernel`: counts and reductions of the bits of arrays of numbers or truth
//! values.

ghost use Rattle.std.specs.Prelude.{◌≡◌, ℕ, [], ◌∷◌, List, Some, not, count_by, option_map};
ghost use Rattle.std.specs.Prelude.{MatchResult};
ghost use Rattle.std.specs.List.{list_all, list_any};
ghost use Rattle.polars_arrays_bits.specs.Errors.{IsMemory};
ghost use Rattle.polars_arrays_flat.specs.Row.{Row};
ghost use Rattle.polars_compute_reductions.specs.Bitwise.{AreCounts, is_odd, leading_run, reduced};
ghost use Rattle.polars_compute_reductions.specs.Bitwise.{row_bits, trailing_run};

use crate::bit_counts::{
    LeadingOnes, LeadingZeros, Ones, TrailingOnes, TrailingZeros, Zeros, count_bits_by_row,
};
use crate::bit_number::BitNumber;
use crate::bit_operators::{And, Or, Xor};
use crate::fold::reduce_rows;
use crate::operator::Operator;
use crate::truths::{count_truth_rows, present_rows, true_rows};
use polars_arrays_bits::error::ComputeError;
use polars_arrays_flat::boolean::BooleanArray;
use polars_arrays_flat::primitive::PrimitiveArray;
use std::alloc::Global;

/// Counts and reductions of the bits of an array's rows. A number has the bits of its type, and a
/// truth value has one bit. A count returns an array with a number for each row, in which null rows
/// stay null; its error is `Memory`. A reduction combines the present rows bit by bit, and returns
/// `None` if no row is present.
pub trait BitwiseKernel {
    /// The type of a present row.
    type Scalar;

    // The rows (`rows`), and the number of bits of each present row (`width`).
    ghost rows: { Self → List Row };

    ghost width: { ℕ };

    // The row that a scalar stands for.
    ghost scalar_row: { Self.Scalar → Row };

    /// Returns the number of ones of each row. Null rows stay null. The error is `Memory`.
    fn count_ones(&self, alloc: Global) -> Result<PrimitiveArray<u32>, ComputeError>
        ensures { MatchResult result (AreCounts (count_by (λ b. b)) width (rows self.now))
            IsMemory };

    /// Returns the number of zeros of each row. Null rows stay null. The error is `Memory`.
    fn count_zeros(&self, alloc: Global) -> Result<PrimitiveArray<u32>, ComputeError>
        ensures { MatchResult result (AreCounts (count_by not) width (rows self.now)) IsMemory };

    /// Returns the number of ones of each row from the highest bit down, up to the first 0. Null
    /// rows stay null. The error is `Memory`.
    fn leading_ones(&self, alloc: Global) -> Result<PrimitiveArray<u32>, ComputeError>
        ensures { MatchResult result (AreCounts (leading_run (λ b. b)) width (rows self.now))
            IsMemory };

    /// Returns the number of zeros of each row from the highest bit down, up to the first 1. Null
    /// rows stay null. The error is `Memory`.
    fn leading_zeros(&self, alloc: Global) -> Result<PrimitiveArray<u32>, ComputeError>
        ensures { MatchResult result (AreCounts (leading_run not) width (rows self.now)) IsMemory };

    /// Returns the number of ones of each row from the lowest bit up, up to the first 0. Null rows
    /// stay null. The error is `Memory`.
    fn trailing_ones(&self, alloc: Global) -> Result<PrimitiveArray<u32>, ComputeError>
        ensures { MatchResult result (AreCounts (trailing_run (λ b. b)) width (rows self.now))
            IsMemory };

    /// Returns the number of zeros of each row from the lowest bit up, up to the first 1. Null rows
    /// stay null. The error is `Memory`.
    fn trailing_zeros(&self, alloc: Global) -> Result<PrimitiveArray<u32>, ComputeError>
        ensures { MatchResult result (AreCounts (trailing_run not) width (rows self.now))
            IsMemory };

    /// Returns the AND of the present rows, or `None` if no row is present.
    fn reduce_and(&self) -> Option<Self::Scalar>
        ensures { option_map (λ x. row_bits width (scalar_row x)) result
            ≡ reduced (list_all (λ b. b)) width (rows self.now) };

    /// Returns the OR of the present rows, or `None` if no row is present.
    fn reduce_or(&self) -> Option<Self::Scalar>
        ensures { option_map (λ x. row_bits width (scalar_row x)) result
            ≡ reduced (list_any (λ b. b)) width (rows self.now) };

    /// Returns the exclusive OR of the present rows, or `None` if no row is present. A bit of the
    /// result is 1 if it is 1 in an odd number of present rows.
    fn reduce_xor(&self) -> Option<Self::Scalar>
        ensures { option_map (λ x. row_bits width (scalar_row x)) result
            ≡ reduced is_odd width (rows self.now) };

    /// Returns the AND of two scalars, bit by bit.
    fn bit_and(lhs: Self::Scalar, rhs: Self::Scalar) -> Self::Scalar
        ensures { Some (row_bits width (scalar_row result))
            ≡ reduced (list_all (λ b. b)) width (scalar_row lhs ∷ scalar_row rhs ∷ []) };

    /// Returns the OR of two scalars, bit by bit.
    fn bit_or(lhs: Self::Scalar, rhs: Self::Scalar) -> Self::Scalar
        ensures { Some (row_bits width (scalar_row result))
            ≡ reduced (list_any (λ b. b)) width (scalar_row lhs ∷ scalar_row rhs ∷ []) };

    /// Returns the exclusive OR of two scalars, bit by bit.
    fn bit_xor(lhs: Self::Scalar, rhs: Self::Scalar) -> Self::Scalar
        ensures { Some (row_bits width (scalar_row result))
            ≡ reduced is_odd width (scalar_row lhs ∷ scalar_row rhs ∷ []) };
}

impl<T: BitNumber> BitwiseKernel for PrimitiveArray<T> {
    ghost use Rattle.num_traits.specs.Laws.{bit_len};
    ghost use Rattle.polars_arrays_flat.specs.ArrayRows.{number_rows};
    ghost use Rattle.polars_arrays_flat.specs.Row.{Int};

    type Scalar = T;

    ghost rows = { λ a. number_rows T.value a };

    ghost width = { bit_len T.width };

    ghost scalar_row = { λ x. Int (T.value x) };

    fn count_ones(&self, alloc: Global) -> Result<PrimitiveArray<u32>, ComputeError> {
        count_bits_by_row(alloc, &Ones, self)
    }

    fn count_zeros(&self, alloc: Global) -> Result<PrimitiveArray<u32>, ComputeError> {
        count_bits_by_row(alloc, &Zeros, self)
    }

    fn leading_ones(&self, alloc: Global) -> Result<PrimitiveArray<u32>, ComputeError> {
        count_bits_by_row(alloc, &LeadingOnes, self)
    }

    fn leading_zeros(&self, alloc: Global) -> Result<PrimitiveArray<u32>, ComputeError> {
        count_bits_by_row(alloc, &LeadingZeros, self)
    }

    fn trailing_ones(&self, alloc: Global) -> Result<PrimitiveArray<u32>, ComputeError> {
        count_bits_by_row(alloc, &TrailingOnes, self)
    }

    fn trailing_zeros(&self, alloc: Global) -> Result<PrimitiveArray<u32>, ComputeError> {
        count_bits_by_row(alloc, &TrailingZeros, self)
    }

    fn reduce_and(&self) -> Option<T> {
        reduce_rows(&And, self)
    }

    fn reduce_or(&self) -> Option<T> {
        reduce_rows(&Or, self)
    }

    fn reduce_xor(&self) -> Option<T> {
        reduce_rows(&Xor, self)
    }

    fn bit_and(lhs: T, rhs: T) -> T {
        And.join(lhs, rhs)
    }

    fn bit_or(lhs: T, rhs: T) -> T {
        Or.join(lhs, rhs)
    }

    fn bit_xor(lhs: T, rhs: T) -> T {
        Xor.join(lhs, rhs)
    }
}

impl BitwiseKernel for BooleanArray {
    ghost use Rattle.polars_arrays_flat.specs.ArrayRows.{truth_rows};
    ghost use Rattle.polars_arrays_flat.specs.Row.{Truth};

    type Scalar = bool;

    ghost rows = { truth_rows };

    ghost width = { 1 };

    ghost scalar_row = { Truth };

    fn count_ones(&self, alloc: Global) -> Result<PrimitiveArray<u32>, ComputeError> {
        count_truth_rows(alloc, self, true)
    }

    fn count_zeros(&self, alloc: Global) -> Result<PrimitiveArray<u32>, ComputeError> {
        count_truth_rows(alloc, self, false)
    }

    fn leading_ones(&self, alloc: Global) -> Result<PrimitiveArray<u32>, ComputeError> {
        count_truth_rows(alloc, self, true)
    }

    fn leading_zeros(&self, alloc: Global) -> Result<PrimitiveArray<u32>, ComputeError> {
        count_truth_rows(alloc, self, false)
    }

    fn trailing_ones(&self, alloc: Global) -> Result<PrimitiveArray<u32>, ComputeError> {
        count_truth_rows(alloc, self, true)
    }

    fn trailing_zeros(&self, alloc: Global) -> Result<PrimitiveArray<u32>, ComputeError> {
        count_truth_rows(alloc, self, false)
    }

    fn reduce_and(&self) -> Option<bool> {
        let present = present_rows(self);
        if present == 0 {
            return None;
        }
        Some(true_rows(self) == present)
    }

    fn reduce_or(&self) -> Option<bool> {
        if present_rows(self) == 0 {
            return None;
        }
        Some(true_rows(self) > 0)
    }

    fn reduce_xor(&self) -> Option<bool> {
        if present_rows(self) == 0 {
            return None;
        }
        Some(true_rows(self) % 2 == 1)
    }

    fn bit_and(lhs: bool, rhs: bool) -> bool {
        lhs & rhs
    }

    fn bit_or(lhs: bool, rhs: bool) -> bool {
        lhs | rhs
    }

    fn bit_xor(lhs: bool, rhs: bool) -> bool {
        lhs ^ rhs
    }
}
