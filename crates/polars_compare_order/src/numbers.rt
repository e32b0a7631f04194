//! Order of arrays of numbers.

ghost use Rattle.polars_arrays_flat.specs.Row.{Int};

use crate::kernel::TotalOrdKernel;
use polars_arrays_bits::bitmap::Bitmap;
use polars_arrays_bits::error::ComputeError;
use polars_arrays_flat::array::Array;
use polars_arrays_flat::primitive::PrimitiveArray;
use polars_arrays_numbers::comparison::{Greater, GreaterOrEqual, Less, LessOrEqual};
use polars_arrays_numbers::native_type::NativeType;
use polars_compare_leaves::numbers::{compare_number, compare_number_windows};
use std::alloc::Global;

impl<T: NativeType + 'static> TotalOrdKernel for PrimitiveArray<T> {
    type Scalar = T;

    ghost scalar_row = { λ s. Int (T.value s) };

    fn tot_lt_kernel(&self, alloc: Global, other: &Self) -> Result<Bitmap, ComputeError> {
        compare_number_windows(alloc, &Less, self, 0, other, 0, self.len())
    }

    fn tot_le_kernel(&self, alloc: Global, other: &Self) -> Result<Bitmap, ComputeError> {
        compare_number_windows(alloc, &LessOrEqual, self, 0, other, 0, self.len())
    }

    fn tot_lt_kernel_broadcast(&self, alloc: Global, other: &T) -> Result<Bitmap, ComputeError> {
        compare_number(alloc, &Less, self, *other)
    }

    fn tot_le_kernel_broadcast(&self, alloc: Global, other: &T) -> Result<Bitmap, ComputeError> {
        compare_number(alloc, &LessOrEqual, self, *other)
    }

    fn tot_gt_kernel_broadcast(&self, alloc: Global, other: &T) -> Result<Bitmap, ComputeError> {
        compare_number(alloc, &Greater, self, *other)
    }

    fn tot_ge_kernel_broadcast(&self, alloc: Global, other: &T) -> Result<Bitmap, ComputeError> {
        compare_number(alloc, &GreaterOrEqual, self, *other)
    }
}
