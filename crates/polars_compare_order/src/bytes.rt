//! Order of `BinaryArray`s and of `Utf8Array`s.

ghost use Rattle.std.specs.Prelude.{string_bytes};
ghost use Rattle.polars_arrays_flat.specs.Row.{Bytes};

use crate::borrowed::{BytesOrdKernel, TextOrdKernel};
use crate::kernel::TotalOrdKernel;
use polars_arrays_bits::bitmap::Bitmap;
use polars_arrays_bits::error::ComputeError;
use polars_arrays_bytes::binary::BinaryArray;
use polars_arrays_bytes::text::Utf8Array;
use polars_arrays_flat::byte_rows::ByteRows;
use polars_arrays_numbers::comparison::{Greater, GreaterOrEqual, Less, LessOrEqual};
use polars_arrays_numbers::offset::Offset;
use polars_compare_leaves::bytes::{compare_byte_windows, compare_bytes};
use std::alloc::Global;

impl<O: Offset + 'static> TotalOrdKernel for BinaryArray<O> {
    type Scalar = Vec<u8>;

    ghost scalar_row = { λ s. Bytes s.items };

    fn tot_lt_kernel(&self, alloc: Global, other: &Self) -> Result<Bitmap, ComputeError> {
        compare_byte_windows(
            alloc,
            &Less,
            &self.lent(),
            0,
            &other.lent(),
            0,
            self.count(),
        )
    }

    fn tot_le_kernel(&self, alloc: Global, other: &Self) -> Result<Bitmap, ComputeError> {
        compare_byte_windows(
            alloc,
            &LessOrEqual,
            &self.lent(),
            0,
            &other.lent(),
            0,
            self.count(),
        )
    }

    fn tot_lt_kernel_broadcast(
        &self,
        alloc: Global,
        other: &Vec<u8>,
    ) -> Result<Bitmap, ComputeError> {
        BytesOrdKernel::tot_lt_kernel_broadcast(self, alloc, other.as_slice())
    }

    fn tot_le_kernel_broadcast(
        &self,
        alloc: Global,
        other: &Vec<u8>,
    ) -> Result<Bitmap, ComputeError> {
        BytesOrdKernel::tot_le_kernel_broadcast(self, alloc, other.as_slice())
    }

    fn tot_gt_kernel_broadcast(
        &self,
        alloc: Global,
        other: &Vec<u8>,
    ) -> Result<Bitmap, ComputeError> {
        BytesOrdKernel::tot_gt_kernel_broadcast(self, alloc, other.as_slice())
    }

    fn tot_ge_kernel_broadcast(
        &self,
        alloc: Global,
        other: &Vec<u8>,
    ) -> Result<Bitmap, ComputeError> {
        BytesOrdKernel::tot_ge_kernel_broadcast(self, alloc, other.as_slice())
    }
}

impl<O: Offset + 'static> BytesOrdKernel for BinaryArray<O> {
    fn tot_lt_kernel_broadcast(&self, alloc: Global, other: &[u8]) -> Result<Bitmap, ComputeError> {
        compare_bytes(alloc, &Less, &self.lent(), other)
    }

    fn tot_le_kernel_broadcast(&self, alloc: Global, other: &[u8]) -> Result<Bitmap, ComputeError> {
        compare_bytes(alloc, &LessOrEqual, &self.lent(), other)
    }

    fn tot_gt_kernel_broadcast(&self, alloc: Global, other: &[u8]) -> Result<Bitmap, ComputeError> {
        compare_bytes(alloc, &Greater, &self.lent(), other)
    }

    fn tot_ge_kernel_broadcast(&self, alloc: Global, other: &[u8]) -> Result<Bitmap, ComputeError> {
        compare_bytes(alloc, &GreaterOrEqual, &self.lent(), other)
    }
}

impl<O: Offset + 'static> TotalOrdKernel for Utf8Array<O> {
    type Scalar = String;

    ghost scalar_row = { λ s. Bytes (string_bytes s) };

    fn tot_lt_kernel(&self, alloc: Global, other: &Self) -> Result<Bitmap, ComputeError> {
        compare_byte_windows(
            alloc,
            &Less,
            &self.lent(),
            0,
            &other.lent(),
            0,
            self.count(),
        )
    }

    fn tot_le_kernel(&self, alloc: Global, other: &Self) -> Result<Bitmap, ComputeError> {
        compare_byte_windows(
            alloc,
            &LessOrEqual,
            &self.lent(),
            0,
            &other.lent(),
            0,
            self.count(),
        )
    }

    fn tot_lt_kernel_broadcast(
        &self,
        alloc: Global,
        other: &String,
    ) -> Result<Bitmap, ComputeError> {
        TextOrdKernel::tot_lt_kernel_broadcast(self, alloc, other.as_str())
    }

    fn tot_le_kernel_broadcast(
        &self,
        alloc: Global,
        other: &String,
    ) -> Result<Bitmap, ComputeError> {
        TextOrdKernel::tot_le_kernel_broadcast(self, alloc, other.as_str())
    }

    fn tot_gt_kernel_broadcast(
        &self,
        alloc: Global,
        other: &String,
    ) -> Result<Bitmap, ComputeError> {
        TextOrdKernel::tot_gt_kernel_broadcast(self, alloc, other.as_str())
    }

    fn tot_ge_kernel_broadcast(
        &self,
        alloc: Global,
        other: &String,
    ) -> Result<Bitmap, ComputeError> {
        TextOrdKernel::tot_ge_kernel_broadcast(self, alloc, other.as_str())
    }
}

impl<O: Offset + 'static> TextOrdKernel for Utf8Array<O> {
    fn tot_lt_kernel_broadcast(&self, alloc: Global, other: &str) -> Result<Bitmap, ComputeError> {
        compare_bytes(alloc, &Less, &self.lent(), other.as_bytes())
    }

    fn tot_le_kernel_broadcast(&self, alloc: Global, other: &str) -> Result<Bitmap, ComputeError> {
        compare_bytes(alloc, &LessOrEqual, &self.lent(), other.as_bytes())
    }

    fn tot_gt_kernel_broadcast(&self, alloc: Global, other: &str) -> Result<Bitmap, ComputeError> {
        compare_bytes(alloc, &Greater, &self.lent(), other.as_bytes())
    }

    fn tot_ge_kernel_broadcast(&self, alloc: Global, other: &str) -> Result<Bitmap, ComputeError> {
        compare_bytes(alloc, &GreaterOrEqual, &self.lent(), other.as_bytes())
    }
}
