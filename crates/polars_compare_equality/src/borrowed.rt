//! Equality of the rows of an array with one borrowed byte string or text.

ghost use Rattle.std.specs.Prelude.{◌≡◌, None, true, false, length, replicate, MatchResult, ⊤};
ghost use Rattle.polars_arrays_bits.specs.Errors.{IsMemory};
ghost use Rattle.polars_arrays_flat.specs.Row.{Bytes};
ghost use Rattle.polars_arrays_flat.specs.StoredRows.{rows_under};
ghost use Rattle.polars_compare_leaves.specs.Equality.{RawEquality, MissingEquality};

use crate::joining::join_scalar;
use polars_arrays_bits::bitmap::Bitmap;
use polars_arrays_bits::error::ComputeError;
use polars_arrays_flat::byte_rows::ByteRows;
use polars_arrays_numbers::comparison::{Equal, Unequal};
use polars_compare_leaves::bytes::compare_bytes;
use polars_compare_leaves::joining::Relation;
use std::alloc::Global;

/// Equality of the rows of an array of byte strings with one borrowed byte string. Each method
/// returns a bitmap with a bit for each row. Methods without `missing` in their name don't read the
/// validity: the bit of a null row is arbitrary. In methods with `missing`, a null is never equal
/// to the byte string. The error is `Memory`.
///
/// Call these methods by path, as in
/// `BytesEqKernel::tot_eq_kernel_broadcast(&array, Global, b"x")`, since `TotalEqKernel` has
/// methods with the same names.
pub trait BytesEqKernel: ByteRows + Sized {
    /// Returns a bit for each row: 1 if the row is equal to the byte string `other`. The bit of a
    /// null row is arbitrary.
    fn tot_eq_kernel_broadcast(&self, alloc: Global, other: &[u8]) -> Result<Bitmap, ComputeError>
        ensures { MatchResult result
            (RawEquality true ⊤ (Self.mask self.now) None (Self.slots self.now)
            (replicate (length (Self.slots self.now)) (Bytes other.now)))
            IsMemory }
    {
        compare_bytes(alloc, &Equal, self, other)
    }

    /// Returns a bit for each row: 1 if the row differs from the byte string `other`. The bit of a
    /// null row is arbitrary.
    fn tot_ne_kernel_broadcast(&self, alloc: Global, other: &[u8]) -> Result<Bitmap, ComputeError>
        ensures { MatchResult result
            (RawEquality false ⊤ (Self.mask self.now) None (Self.slots self.now)
            (replicate (length (Self.slots self.now)) (Bytes other.now)))
            IsMemory }
    {
        compare_bytes(alloc, &Unequal, self, other)
    }

    /// Returns a bit for each row: 1 if the row is equal to the byte string `other`. The bit of a
    /// null row is 0.
    final fn tot_eq_missing_kernel_broadcast(
        &self,
        alloc: Global,
        other: &[u8],
    ) -> Result<Bitmap, ComputeError>
        requires good { Self.good self.now }
        ensures { MatchResult result
            (MissingEquality true ⊤ (rows_under (Self.mask self.now) (Self.slots self.now))
            (replicate (length (Self.slots self.now)) (Bytes other.now)))
            IsMemory }
    {
        let raw = self.tot_eq_kernel_broadcast(alloc, other)?;
        join_scalar(alloc, Relation::Equal, raw, self)
    }

    /// Returns a bit for each row: 1 if the row differs from the byte string `other`. The bit of a
    /// null row is 1.
    final fn tot_ne_missing_kernel_broadcast(
        &self,
        alloc: Global,
        other: &[u8],
    ) -> Result<Bitmap, ComputeError>
        requires good { Self.good self.now }
        ensures { MatchResult result
            (MissingEquality false ⊤ (rows_under (Self.mask self.now) (Self.slots self.now))
            (replicate (length (Self.slots self.now)) (Bytes other.now)))
            IsMemory }
    {
        let raw = self.tot_ne_kernel_broadcast(alloc, other)?;
        join_scalar(alloc, Relation::Unequal, raw, self)
    }
}

/// Equality of the rows of an array of texts with one borrowed text. Two texts are equal if they
/// have the same bytes in UTF-8. Each method returns a bitmap with a bit for each row. Methods
/// without `missing` in their name don't read the validity: the bit of a null row is arbitrary. In
/// methods with `missing`, a null is never equal to the text. The error is `Memory`.
///
/// Call these methods by path, as in `TextEqKernel::tot_eq_kernel_broadcast(&array, Global, "x")`,
/// since `TotalEqKernel` has methods with the same names.
pub trait TextEqKernel: ByteRows + Sized {
    /// Returns a bit for each row: 1 if the row is equal to the text `other`. The bit of a null row
    /// is arbitrary.
    fn tot_eq_kernel_broadcast(&self, alloc: Global, other: &str) -> Result<Bitmap, ComputeError>
        ensures { MatchResult result
            (RawEquality true ⊤ (Self.mask self.now) None (Self.slots self.now)
            (replicate (length (Self.slots self.now)) (Bytes other.now)))
            IsMemory }
    {
        compare_bytes(alloc, &Equal, self, other.as_bytes())
    }

    /// Returns a bit for each row: 1 if the row differs from the text `other`. The bit of a null
    /// row is arbitrary.
    fn tot_ne_kernel_broadcast(&self, alloc: Global, other: &str) -> Result<Bitmap, ComputeError>
        ensures { MatchResult result
            (RawEquality false ⊤ (Self.mask self.now) None (Self.slots self.now)
            (replicate (length (Self.slots self.now)) (Bytes other.now)))
            IsMemory }
    {
        compare_bytes(alloc, &Unequal, self, other.as_bytes())
    }

    /// Returns a bit for each row: 1 if the row is equal to the text `other`. The bit of a null row
    /// is 0.
    final fn tot_eq_missing_kernel_broadcast(
        &self,
        alloc: Global,
        other: &str,
    ) -> Result<Bitmap, ComputeError>
        requires good { Self.good self.now }
        ensures { MatchResult result
            (MissingEquality true ⊤ (rows_under (Self.mask self.now) (Self.slots self.now))
            (replicate (length (Self.slots self.now)) (Bytes other.now)))
            IsMemory }
    {
        let raw = self.tot_eq_kernel_broadcast(alloc, other)?;
        join_scalar(alloc, Relation::Equal, raw, self)
    }

    /// Returns a bit for each row: 1 if the row differs from the text `other`. The bit of a null
    /// row is 1.
    final fn tot_ne_missing_kernel_broadcast(
        &self,
        alloc: Global,
        other: &str,
    ) -> Result<Bitmap, ComputeError>
        requires good { Self.good self.now }
        ensures { MatchResult result
            (MissingEquality false ⊤ (rows_under (Self.mask self.now) (Self.slots self.now))
            (replicate (length (Self.slots self.now)) (Bytes other.now)))
            IsMemory }
    {
        let raw = self.tot_ne_kernel_broadcast(alloc, other)?;
        join_scalar(alloc, Relation::Unequal, raw, self)
    }
}
