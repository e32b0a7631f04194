//! The trait `TotalOrdKernel`: order of the rows of arrays of one kind.

ghost use Rattle.std.specs.Prelude.{◌≡◌, None, length, replicate, MatchResult};
ghost use Rattle.polars_arrays_bits.specs.Errors.{IsMemory};
ghost use Rattle.polars_arrays_flat.specs.Row.{Row};
ghost use Rattle.polars_compare_leaves.specs.Order.{RawOrder, row_at_least, row_at_most};
ghost use Rattle.polars_compare_leaves.specs.Order.{row_greater, row_less};

use polars_arrays_bits::bitmap::Bitmap;
use polars_arrays_bits::error::ComputeError;
use polars_arrays_flat::array::Array;
use std::alloc::Global;

/// Order of the rows of two arrays of one kind and equal length, or of an array and a scalar (a
/// broadcast). Numbers are ordered by value, byte strings lexicographically, and texts
/// lexicographically by their bytes in UTF-8. `false` is less than `true`.
///
/// Each call returns a bitmap with a bit for each row. The validity is not read: if a row is null
/// on either side, its bit is arbitrary. The error is `Memory`.
pub trait TotalOrdKernel: Sized + Array {
    /// The type of the scalar that a broadcast compares each row with.
    type Scalar;

    // The row that a scalar stands for.
    ghost scalar_row: { Self.Scalar → Row };

    /// Returns a bit for each index `i`: 1 if row `i` of `self` is less than row `i` of `other`.
    fn tot_lt_kernel(&self, alloc: Global, other: &Self) -> Result<Bitmap, ComputeError>
        requires { length (Self.slots other.now) ≡ length (Self.slots self.now) }
        ensures { MatchResult result
            (RawOrder row_less (Self.mask self.now) (Self.mask other.now) (Self.slots self.now)
            (Self.slots other.now))
            IsMemory };

    /// Returns a bit for each index `i`: 1 if row `i` of `self` is less than or equal to row `i` of
    /// `other`.
    fn tot_le_kernel(&self, alloc: Global, other: &Self) -> Result<Bitmap, ComputeError>
        requires { length (Self.slots other.now) ≡ length (Self.slots self.now) }
        ensures { MatchResult result
            (RawOrder row_at_most (Self.mask self.now) (Self.mask other.now) (Self.slots self.now)
            (Self.slots other.now))
            IsMemory };

    /// Returns a bit for each index `i`: 1 if row `i` of `self` is greater than row `i` of `other`.
    final fn tot_gt_kernel(&self, alloc: Global, other: &Self) -> Result<Bitmap, ComputeError>
        requires { length (Self.slots other.now) ≡ length (Self.slots self.now) }
        ensures { MatchResult result
            (RawOrder row_greater (Self.mask self.now) (Self.mask other.now) (Self.slots self.now)
            (Self.slots other.now))
            IsMemory }
    {
        other.tot_lt_kernel(alloc, self)
    }

    /// Returns a bit for each index `i`: 1 if row `i` of `self` is greater than or equal to row `i`
    /// of `other`.
    final fn tot_ge_kernel(&self, alloc: Global, other: &Self) -> Result<Bitmap, ComputeError>
        requires { length (Self.slots other.now) ≡ length (Self.slots self.now) }
        ensures { MatchResult result
            (RawOrder row_at_least (Self.mask self.now) (Self.mask other.now) (Self.slots self.now)
            (Self.slots other.now))
            IsMemory }
    {
        other.tot_le_kernel(alloc, self)
    }

    /// Returns a bit for each row: 1 if the row is less than the scalar `other`.
    fn tot_lt_kernel_broadcast(
        &self,
        alloc: Global,
        other: &Self::Scalar,
    ) -> Result<Bitmap, ComputeError>
        ensures { MatchResult result
            (RawOrder row_less (Self.mask self.now) None (Self.slots self.now)
            (replicate (length (Self.slots self.now)) (scalar_row other.now)))
            IsMemory };

    /// Returns a bit for each row: 1 if the row is less than or equal to the scalar `other`.
    fn tot_le_kernel_broadcast(
        &self,
        alloc: Global,
        other: &Self::Scalar,
    ) -> Result<Bitmap, ComputeError>
        ensures { MatchResult result
            (RawOrder row_at_most (Self.mask self.now) None (Self.slots self.now)
            (replicate (length (Self.slots self.now)) (scalar_row other.now)))
            IsMemory };

    /// Returns a bit for each row: 1 if the row is greater than the scalar `other`.
    fn tot_gt_kernel_broadcast(
        &self,
        alloc: Global,
        other: &Self::Scalar,
    ) -> Result<Bitmap, ComputeError>
        ensures { MatchResult result
            (RawOrder row_greater (Self.mask self.now) None (Self.slots self.now)
            (replicate (length (Self.slots self.now)) (scalar_row other.now)))
            IsMemory };

    /// Returns a bit for each row: 1 if the row is greater than or equal to the scalar `other`.
    fn tot_ge_kernel_broadcast(
        &self,
        alloc: Global,
        other: &Self::Scalar,
    ) -> Result<Bitmap, ComputeError>
        ensures { MatchResult result
            (RawOrder row_at_least (Self.mask self.now) None (Self.slots self.now)
            (replicate (length (Self.slots self.now)) (scalar_row other.now)))
            IsMemory };
}
