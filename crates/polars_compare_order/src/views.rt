//! Order of arrays of views (`BinaryViewArray`, `Utf8ViewArray`).

ghost use Rattle.std.specs.Prelude.{string_bytes};
ghost use Rattle.polars_arrays_flat.specs.Row.{Bytes};

use crate::borrowed::{BytesOrdKernel, TextOrdKernel};
use crate::kernel::TotalOrdKernel;
use polars_arrays_bits::bitmap::Bitmap;
use polars_arrays_bits::error::ComputeError;
use polars_arrays_flat::byte_rows::ByteRows;
use polars_arrays_numbers::comparison::{Greater, GreaterOrEqual, Less, LessOrEqual};
use polars_arrays_numbers::steps::Steps;
use polars_arrays_views::binary_view::BinaryViewArray;
use polars_arrays_views::text_view::Utf8ViewArray;
use polars_compare_leaves::followed::FollowedKernel;
use polars_compare_leaves::view_windows::{compare_view_bytes, compare_view_windows};
use std::alloc::Global;

impl TotalOrdKernel for BinaryViewArray {
    type Scalar = Vec<u8>;

    ghost scalar_row = { λ s. Bytes s.items };

    fn tot_lt_kernel(&self, alloc: Global, other: &Self) -> Result<Bitmap, ComputeError> {
        self.tot_lt_kernel_followed(alloc, other, &mut Steps::new())
    }

    fn tot_le_kernel(&self, alloc: Global, other: &Self) -> Result<Bitmap, ComputeError> {
        compare_view_windows(
            alloc,
            &LessOrEqual,
            self,
            0,
            other,
            0,
            self.count(),
            &mut Steps::new(),
        )
    }

    fn tot_lt_kernel_broadcast(
        &self,
        alloc: Global,
        other: &Vec<u8>,
    ) -> Result<Bitmap, ComputeError> {
        BytesOrdKernel::tot_lt_kernel_broadcast(self, alloc, other.as_slice())
    }

    fn tot_le_kernel_broadcast(
        &self,
        alloc: Global,
        other: &Vec<u8>,
    ) -> Result<Bitmap, ComputeError> {
        BytesOrdKernel::tot_le_kernel_broadcast(self, alloc, other.as_slice())
    }

    fn tot_gt_kernel_broadcast(
        &self,
        alloc: Global,
        other: &Vec<u8>,
    ) -> Result<Bitmap, ComputeError> {
        BytesOrdKernel::tot_gt_kernel_broadcast(self, alloc, other.as_slice())
    }

    fn tot_ge_kernel_broadcast(
        &self,
        alloc: Global,
        other: &Vec<u8>,
    ) -> Result<Bitmap, ComputeError> {
        BytesOrdKernel::tot_ge_kernel_broadcast(self, alloc, other.as_slice())
    }
}

impl BytesOrdKernel for BinaryViewArray {
    fn tot_lt_kernel_broadcast(&self, alloc: Global, other: &[u8]) -> Result<Bitmap, ComputeError> {
        compare_view_bytes(alloc, &Less, self, other)
    }

    fn tot_le_kernel_broadcast(&self, alloc: Global, other: &[u8]) -> Result<Bitmap, ComputeError> {
        compare_view_bytes(alloc, &LessOrEqual, self, other)
    }

    fn tot_gt_kernel_broadcast(&self, alloc: Global, other: &[u8]) -> Result<Bitmap, ComputeError> {
        compare_view_bytes(alloc, &Greater, self, other)
    }

    fn tot_ge_kernel_broadcast(&self, alloc: Global, other: &[u8]) -> Result<Bitmap, ComputeError> {
        compare_view_bytes(alloc, &GreaterOrEqual, self, other)
    }
}

impl TotalOrdKernel for Utf8ViewArray {
    type Scalar = String;

    ghost scalar_row = { λ s. Bytes (string_bytes s) };

    fn tot_lt_kernel(&self, alloc: Global, other: &Self) -> Result<Bitmap, ComputeError> {
        self.tot_lt_kernel_followed(alloc, other, &mut Steps::new())
    }

    fn tot_le_kernel(&self, alloc: Global, other: &Self) -> Result<Bitmap, ComputeError> {
        self.as_binview().tot_le_kernel(alloc, other.as_binview())
    }

    fn tot_lt_kernel_broadcast(
        &self,
        alloc: Global,
        other: &String,
    ) -> Result<Bitmap, ComputeError> {
        TextOrdKernel::tot_lt_kernel_broadcast(self, alloc, other.as_str())
    }

    fn tot_le_kernel_broadcast(
        &self,
        alloc: Global,
        other: &String,
    ) -> Result<Bitmap, ComputeError> {
        TextOrdKernel::tot_le_kernel_broadcast(self, alloc, other.as_str())
    }

    fn tot_gt_kernel_broadcast(
        &self,
        alloc: Global,
        other: &String,
    ) -> Result<Bitmap, ComputeError> {
        TextOrdKernel::tot_gt_kernel_broadcast(self, alloc, other.as_str())
    }

    fn tot_ge_kernel_broadcast(
        &self,
        alloc: Global,
        other: &String,
    ) -> Result<Bitmap, ComputeError> {
        TextOrdKernel::tot_ge_kernel_broadcast(self, alloc, other.as_str())
    }
}

impl TextOrdKernel for Utf8ViewArray {
    fn tot_lt_kernel_broadcast(&self, alloc: Global, other: &str) -> Result<Bitmap, ComputeError> {
        compare_view_bytes(alloc, &Less, self.as_binview(), other.as_bytes())
    }

    fn tot_le_kernel_broadcast(&self, alloc: Global, other: &str) -> Result<Bitmap, ComputeError> {
        compare_view_bytes(alloc, &LessOrEqual, self.as_binview(), other.as_bytes())
    }

    fn tot_gt_kernel_broadcast(&self, alloc: Global, other: &str) -> Result<Bitmap, ComputeError> {
        compare_view_bytes(alloc, &Greater, self.as_binview(), other.as_bytes())
    }

    fn tot_ge_kernel_broadcast(&self, alloc: Global, other: &str) -> Result<Bitmap, ComputeError> {
        compare_view_bytes(alloc, &GreaterOrEqual, self.as_binview(), other.as_bytes())
    }
}
