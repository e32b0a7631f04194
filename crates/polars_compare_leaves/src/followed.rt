//! The trait `FollowedKernel`: comparisons of views that count the pairs of rows looked up in
//! buffers.

ghost use Rattle.std.specs.Prelude.{◌≡◌, ◌≤◌, ◌+◌, length, IfOk, MatchResult};
ghost use Rattle.polars_arrays_bits.specs.Errors.{IsMemory};
ghost use Rattle.polars_arrays_views.specs.Views.{followed_eq, followed_lt};
ghost use Rattle.polars_compare_leaves.specs.Order.{row_less};
ghost use Rattle.polars_compare_leaves.specs.Sameness.{same_row};
ghost use Rattle.polars_compare_leaves.specs.Followed.{followed};
ghost use Rattle.polars_compare_leaves.specs.Pairs.{ComparesPairs};

use crate::view_windows::compare_view_windows;
use polars_arrays_bits::bitmap::Bitmap;
use polars_arrays_bits::error::ComputeError;
use polars_arrays_flat::byte_rows::ByteRows;
use polars_arrays_numbers::comparison::{Equal, Less};
use polars_arrays_numbers::steps::Steps;
use polars_arrays_views::binary_view::BinaryViewArray;
use polars_arrays_views::text_view::Utf8ViewArray;
use std::alloc::Global;

/// Comparisons of arrays of views that add 1 to the counter `steps` for each pair of rows whose
/// bytes they look up in a buffer. Null rows are compared and counted by their stored bytes.
///
/// Equality looks up the bytes of two rows if their lengths are equal and above 12, and their first
/// four bytes are equal. Order looks up the bytes of two rows if their first four bytes, padded
/// with zeros, are equal, and at least one row is longer than 12 bytes. Validities are not read.
/// The error is `Memory`; the counter may have increased by then.
pub trait FollowedKernel: ByteRows + Sized {
    /// Returns a bit for each index `i`: 1 if the stored row `i` of `self` is equal to the stored
    /// row `i` of `other`. Both arrays have the same length.
    fn tot_eq_kernel_followed(
        &self,
        alloc: Global,
        other: &Self,
        steps: &mut Steps,
    ) -> Result<Bitmap, ComputeError>
        requires { length (Self.strings other.now) ≡ length (Self.strings self.now) }
        ensures told { MatchResult result
            (ComparesPairs same_row (Self.strings self.now) (Self.strings other.now) 0 0
            (length (Self.strings self.now))) IsMemory }
        ensures counted { IfOk result
            (λ _. steps.new
            ≡ steps.old + followed followed_eq (Self.strings self.now) (Self.strings other.now) 0 0
            (length (Self.strings self.now))) }
        ensures kept { steps.old ≤ steps.new };

    /// Returns a bit for each index `i`: 1 if the stored row `i` of `self` is less than the stored
    /// row `i` of `other`. Both arrays have the same length.
    fn tot_lt_kernel_followed(
        &self,
        alloc: Global,
        other: &Self,
        steps: &mut Steps,
    ) -> Result<Bitmap, ComputeError>
        requires { length (Self.strings other.now) ≡ length (Self.strings self.now) }
        ensures told { MatchResult result
            (ComparesPairs row_less (Self.strings self.now) (Self.strings other.now) 0 0
            (length (Self.strings self.now))) IsMemory }
        ensures counted { IfOk result
            (λ _. steps.new
            ≡ steps.old + followed followed_lt (Self.strings self.now) (Self.strings other.now) 0 0
            (length (Self.strings self.now))) }
        ensures kept { steps.old ≤ steps.new };
}

impl FollowedKernel for BinaryViewArray {
    fn tot_eq_kernel_followed(
        &self,
        alloc: Global,
        other: &Self,
        steps: &mut Steps,
    ) -> Result<Bitmap, ComputeError> {
        compare_view_windows(alloc, &Equal, self, 0, other, 0, self.count(), steps)
    }

    fn tot_lt_kernel_followed(
        &self,
        alloc: Global,
        other: &Self,
        steps: &mut Steps,
    ) -> Result<Bitmap, ComputeError> {
        compare_view_windows(alloc, &Less, self, 0, other, 0, self.count(), steps)
    }
}

impl FollowedKernel for Utf8ViewArray {
    fn tot_eq_kernel_followed(
        &self,
        alloc: Global,
        other: &Self,
        steps: &mut Steps,
    ) -> Result<Bitmap, ComputeError> {
        let (left, right) = (self.as_binview(), other.as_binview());
        left.tot_eq_kernel_followed(alloc, right, steps)
    }

    fn tot_lt_kernel_followed(
        &self,
        alloc: Global,
        other: &Self,
        steps: &mut Steps,
    ) -> Result<Bitmap, ComputeError> {
        let (left, right) = (self.as_binview(), other.as_binview());
        left.tot_lt_kernel_followed(alloc, right, steps)
    }
}
