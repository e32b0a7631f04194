//! The trait `TotalEqKernel`: equality of the rows of arrays of one kind.

ghost use Rattle.std.specs.Prelude.{◌≡◌, ◌≢◌, ◌↔◌, List, Bool, Option, None, true, false, length};
ghost use Rattle.std.specs.Prelude.{replicate, MatchResult, IsTrue, ⊤};
ghost use Rattle.polars_arrays_bits.specs.Errors.{IsMemory};
ghost use Rattle.polars_arrays_flat.specs.Row.{Row, Null};
ghost use Rattle.polars_arrays_flat.specs.StoredRows.{rows_under};
ghost use Rattle.polars_compare_leaves.specs.Equality.{RawEquality, MissingEquality};
ghost use Rattle.polars_compare_equality.specs.Answers.{Answers};

use crate::joining::{join_rows, join_scalar};
use polars_arrays_bits::bitmap::Bitmap;
use polars_arrays_bits::error::ComputeError;
use polars_arrays_flat::array::Array;
use polars_compare_leaves::joining::Relation;
use std::alloc::Global;

/// Equality of the rows of two arrays of one kind, or of an array and a scalar (a broadcast).
///
/// Each comparison returns a bitmap with a bit for each row. Methods without `missing` in their
/// name don't combine the result with the masks: if a row is null on either side, its bit is
/// arbitrary. In methods with `missing`, null is equal to null alone. A scalar is never null. For
/// example, if the rows are 1, null, 2 and 1, null, null, `tot_eq_missing_kernel` returns the bits
/// 1, 1, 0.
///
/// The comparisons allocate, and fail with `Memory` if memory runs out. The broadcasts of null,
/// struct and dictionary arrays always fail with `Unsupported`.
pub trait TotalEqKernel: Sized + Array {
    /// The type of the scalar that a broadcast compares each row with.
    type Scalar;

    // Condition under which two arrays can be compared.
    ghost comparable: { Self → Self → Type 0 };

    // True if the kind of array supports broadcasts.
    ghost broadcasts: { Bool };

    // Condition under which the array can be compared with a scalar.
    ghost fits: { Self → Self.Scalar → Type 0 };

    // Condition on a scalar: for lists, the scalar is a good array. Other kinds have no condition.
    ghost good_scalar: { Self.Scalar → Type 0 };

    // The row that a scalar stands for.
    ghost scalar_row: { Self.Scalar → Row };

    /// Returns whether `self` can be compared with `other`. Both need the same length. `ListArray`s
    /// and `DictionaryArray`s also need the same type, and `FixedSizeListArray`s items of the same
    /// type. Present rows of different types, such as structs with different fields, are never
    /// equal.
    fn can_compare(&self, other: &Self) -> bool
        requires good { Self.good self.now }
        requires good_other { Self.good other.now }
        ensures { IsTrue result ↔ comparable self.now other.now };

    /// Returns whether a broadcast may be called with the scalar `other`. For `ListArray` and
    /// `FixedSizeListArray`, `other` is one list, given as the array of its items, which must have
    /// the type of the items of `self`. For all other kinds the result is `true`, even if they
    /// don't support broadcasts.
    fn can_broadcast(&self, other: &Self::Scalar) -> bool
        requires good { Self.good self.now }
        requires good_other { good_scalar other.now }
        ensures { IsTrue result ↔ fits self.now other.now };

    /// Returns a bit for each index `i`: 1 if row `i` of `self` is equal to row `i` of `other`. If
    /// one of the rows is null, the bit is arbitrary.
    fn tot_eq_kernel(&self, alloc: Global, other: &Self) -> Result<Bitmap, ComputeError>
        requires good { Self.good self.now }
        requires good_other { Self.good other.now }
        requires comparable { comparable self.now other.now }
        ensures { MatchResult result
            (RawEquality true (Self.same_type self.now other.now) (Self.mask self.now)
            (Self.mask other.now) (Self.slots self.now) (Self.slots other.now))
            IsMemory };

    /// Returns a bit for each index `i`: 1 if row `i` of `self` differs from row `i` of `other`. If
    /// one of the rows is null, the bit is arbitrary.
    fn tot_ne_kernel(&self, alloc: Global, other: &Self) -> Result<Bitmap, ComputeError>
        requires good { Self.good self.now }
        requires good_other { Self.good other.now }
        requires comparable { comparable self.now other.now }
        ensures { MatchResult result
            (RawEquality false (Self.same_type self.now other.now) (Self.mask self.now)
            (Self.mask other.now) (Self.slots self.now) (Self.slots other.now))
            IsMemory };

    /// Returns a bit for each row: 1 if the row is equal to the scalar `other`. The bit of a null
    /// row is arbitrary.
    fn tot_eq_kernel_broadcast(
        &self,
        alloc: Global,
        other: &Self::Scalar,
    ) -> Result<Bitmap, ComputeError>
        requires good { Self.good self.now }
        requires good_other { good_scalar other.now }
        requires fits { fits self.now other.now }
        ensures { Answers broadcasts result
            (RawEquality true ⊤ (Self.mask self.now) None (Self.slots self.now)
            (replicate (length (Self.slots self.now)) (scalar_row other.now))) };

    /// Returns a bit for each row: 1 if the row differs from the scalar `other`. The bit of a null
    /// row is arbitrary.
    fn tot_ne_kernel_broadcast(
        &self,
        alloc: Global,
        other: &Self::Scalar,
    ) -> Result<Bitmap, ComputeError>
        requires good { Self.good self.now }
        requires good_other { good_scalar other.now }
        requires fits { fits self.now other.now }
        ensures { Answers broadcasts result
            (RawEquality false ⊤ (Self.mask self.now) None (Self.slots self.now)
            (replicate (length (Self.slots self.now)) (scalar_row other.now))) };

    /// Returns a bit for each index `i`: 1 if row `i` of `self` is equal to row `i` of `other`.
    /// Null is equal to null alone.
    fn tot_eq_missing_kernel(&self, alloc: Global, other: &Self) -> Result<Bitmap, ComputeError>
        requires good { Self.good self.now }
        requires good_other { Self.good other.now }
        requires comparable { comparable self.now other.now }
        ensures { MatchResult result
            (MissingEquality true (Self.same_type self.now other.now)
            (rows_under (Self.mask self.now) (Self.slots self.now))
            (rows_under (Self.mask other.now) (Self.slots other.now)))
            IsMemory }
    {
        let raw = self.tot_eq_kernel(alloc, other)?;
        join_rows(alloc, Relation::Equal, raw, self, other)
    }

    /// Returns a bit for each index `i`: 1 if row `i` of `self` differs from row `i` of `other`.
    /// Null differs from each row that is not null, but not from null.
    fn tot_ne_missing_kernel(&self, alloc: Global, other: &Self) -> Result<Bitmap, ComputeError>
        requires good { Self.good self.now }
        requires good_other { Self.good other.now }
        requires comparable { comparable self.now other.now }
        ensures { MatchResult result
            (MissingEquality false (Self.same_type self.now other.now)
            (rows_under (Self.mask self.now) (Self.slots self.now))
            (rows_under (Self.mask other.now) (Self.slots other.now)))
            IsMemory }
    {
        let raw = self.tot_ne_kernel(alloc, other)?;
        join_rows(alloc, Relation::Unequal, raw, self, other)
    }

    /// Returns a bit for each row: 1 if the row is equal to the scalar `other`. The bit of a null
    /// row is 0.
    final fn tot_eq_missing_kernel_broadcast(
        &self,
        alloc: Global,
        other: &Self::Scalar,
    ) -> Result<Bitmap, ComputeError>
        requires good { Self.good self.now }
        requires good_other { good_scalar other.now }
        requires fits { fits self.now other.now }
        ensures { Answers broadcasts result
            (MissingEquality true ⊤ (rows_under (Self.mask self.now) (Self.slots self.now))
            (replicate (length (Self.slots self.now)) (scalar_row other.now))) }
    {
        let raw = self.tot_eq_kernel_broadcast(alloc, other)?;
        join_scalar(alloc, Relation::Equal, raw, self)
    }

    /// Returns a bit for each row: 1 if the row differs from the scalar `other`. The bit of a null
    /// row is 1.
    final fn tot_ne_missing_kernel_broadcast(
        &self,
        alloc: Global,
        other: &Self::Scalar,
    ) -> Result<Bitmap, ComputeError>
        requires good { Self.good self.now }
        requires good_other { good_scalar other.now }
        requires fits { fits self.now other.now }
        ensures { Answers broadcasts result
            (MissingEquality false ⊤ (rows_under (Self.mask self.now) (Self.slots self.now))
            (replicate (length (Self.slots self.now)) (scalar_row other.now))) }
    {
        let raw = self.tot_ne_kernel_broadcast(alloc, other)?;
        join_scalar(alloc, Relation::Unequal, raw, self)
    }

    // Arrays that can be compared have equal lengths.
    ghost comparable_law: { (a b : Self) → comparable a b → length (Self.slots a)
        ≡ length (Self.slots b) };

    // No scalar is Null, if the kind has broadcasts.
    ghost scalar_law: { (s : Self.Scalar) → IsTrue broadcasts → scalar_row s ≢ Null };
}
