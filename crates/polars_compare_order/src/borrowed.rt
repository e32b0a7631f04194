//! Order of the rows of an array and one borrowed byte string or text.

ghost use Rattle.std.specs.Prelude.{◌≡◌, None, length, replicate, MatchResult};
ghost use Rattle.polars_arrays_bits.specs.Errors.{IsMemory};
ghost use Rattle.polars_arrays_flat.specs.Row.{Bytes};
ghost use Rattle.polars_compare_leaves.specs.Order.{RawOrder, row_at_least, row_at_most};
ghost use Rattle.polars_compare_leaves.specs.Order.{row_greater, row_less};

use polars_arrays_bits::bitmap::Bitmap;
use polars_arrays_bits::error::ComputeError;
use polars_arrays_flat::byte_rows::ByteRows;
use polars_arrays_numbers::comparison::{Greater, GreaterOrEqual, Less, LessOrEqual};
use polars_compare_leaves::bytes::compare_bytes;
use std::alloc::Global;

/// Order of the rows of an array of byte strings and one borrowed byte string. Each method returns
/// a bitmap with a bit for each row. The validity is not read: the bit of a null row is arbitrary.
/// The error is `Memory`.
///
/// Call these methods by path, as in
/// `BytesOrdKernel::tot_lt_kernel_broadcast(&array, Global, b"x")`, since `TotalOrdKernel` has
/// methods with the same names.
pub trait BytesOrdKernel: ByteRows + Sized {
    /// Returns a bit for each row: 1 if the row is less than the byte string `other`.
    fn tot_lt_kernel_broadcast(&self, alloc: Global, other: &[u8]) -> Result<Bitmap, ComputeError>
        ensures { MatchResult result
            (RawOrder row_less (Self.mask self.now) None (Self.slots self.now)
            (replicate (length (Self.slots self.now)) (Bytes other.now)))
            IsMemory }
    {
        compare_bytes(alloc, &Less, self, other)
    }

    /// Returns a bit for each row: 1 if the row is less than or equal to the byte string `other`.
    fn tot_le_kernel_broadcast(&self, alloc: Global, other: &[u8]) -> Result<Bitmap, ComputeError>
        ensures { MatchResult result
            (RawOrder row_at_most (Self.mask self.now) None (Self.slots self.now)
            (replicate (length (Self.slots self.now)) (Bytes other.now)))
            IsMemory }
    {
        compare_bytes(alloc, &LessOrEqual, self, other)
    }

    /// Returns a bit for each row: 1 if the row is greater than the byte string `other`.
    fn tot_gt_kernel_broadcast(&self, alloc: Global, other: &[u8]) -> Result<Bitmap, ComputeError>
        ensures { MatchResult result
            (RawOrder row_greater (Self.mask self.now) None (Self.slots self.now)
            (replicate (length (Self.slots self.now)) (Bytes other.now)))
            IsMemory }
    {
        compare_bytes(alloc, &Greater, self, other)
    }

    /// Returns a bit for each row: 1 if the row is greater than or equal to the byte string
    /// `other`.
    fn tot_ge_kernel_broadcast(&self, alloc: Global, other: &[u8]) -> Result<Bitmap, ComputeError>
        ensures { MatchResult result
            (RawOrder row_at_least (Self.mask self.now) None (Self.slots self.now)
            (replicate (length (Self.slots self.now)) (Bytes other.now)))
            IsMemory }
    {
        compare_bytes(alloc, &GreaterOrEqual, self, other)
    }
}

/// Order of the rows of an array of texts and one borrowed text. Texts are ordered by their bytes
/// in UTF-8. Each method returns a bitmap with a bit for each row. The validity is not read: the
/// bit of a null row is arbitrary. The error is `Memory`.
///
/// Call these methods by path, as in `TextOrdKernel::tot_lt_kernel_broadcast(&array, Global, "x")`,
/// since `TotalOrdKernel` has methods with the same names.
pub trait TextOrdKernel: ByteRows + Sized {
    /// Returns a bit for each row: 1 if the row is less than the text `other`.
    fn tot_lt_kernel_broadcast(&self, alloc: Global, other: &str) -> Result<Bitmap, ComputeError>
        ensures { MatchResult result
            (RawOrder row_less (Self.mask self.now) None (Self.slots self.now)
            (replicate (length (Self.slots self.now)) (Bytes other.now)))
            IsMemory }
    {
        compare_bytes(alloc, &Less, self, other.as_bytes())
    }

    /// Returns a bit for each row: 1 if the row is less than or equal to the text `other`.
    fn tot_le_kernel_broadcast(&self, alloc: Global, other: &str) -> Result<Bitmap, ComputeError>
        ensures { MatchResult result
            (RawOrder row_at_most (Self.mask self.now) None (Self.slots self.now)
            (replicate (length (Self.slots self.now)) (Bytes other.now)))
            IsMemory }
    {
        compare_bytes(alloc, &LessOrEqual, self, other.as_bytes())
    }

    /// Returns a bit for each row: 1 if the row is greater than the text `other`.
    fn tot_gt_kernel_broadcast(&self, alloc: Global, other: &str) -> Result<Bitmap, ComputeError>
        ensures { MatchResult result
            (RawOrder row_greater (Self.mask self.now) None (Self.slots self.now)
            (replicate (length (Self.slots self.now)) (Bytes other.now)))
            IsMemory }
    {
        compare_bytes(alloc, &Greater, self, other.as_bytes())
    }

    /// Returns a bit for each row: 1 if the row is greater than or equal to the text `other`.
    fn tot_ge_kernel_broadcast(&self, alloc: Global, other: &str) -> Result<Bitmap, ComputeError>
        ensures { MatchResult result
            (RawOrder row_at_least (Self.mask self.now) None (Self.slots self.now)
            (replicate (length (Self.slots self.now)) (Bytes other.now)))
            IsMemory }
    {
        compare_bytes(alloc, &GreaterOrEqual, self, other.as_bytes())
    }
}
