//! Order of arrays of truth values.

ghost use Rattle.polars_arrays_flat.specs.Row.{Truth};

use crate::kernel::TotalOrdKernel;
use polars_arrays_bits::bitmap::Bitmap;
use polars_arrays_bits::error::ComputeError;
use polars_arrays_flat::array::Array;
use polars_arrays_flat::boolean::BooleanArray;
use polars_arrays_numbers::comparison::{Greater, GreaterOrEqual, Less, LessOrEqual};
use polars_compare_leaves::booleans::{compare_truth, compare_truth_windows};
use std::alloc::Global;

impl TotalOrdKernel for BooleanArray {
    type Scalar = bool;

    ghost scalar_row = { λ s. Truth s };

    fn tot_lt_kernel(&self, alloc: Global, other: &Self) -> Result<Bitmap, ComputeError> {
        compare_truth_windows(alloc, &Less, self, 0, other, 0, self.len())
    }

    fn tot_le_kernel(&self, alloc: Global, other: &Self) -> Result<Bitmap, ComputeError> {
        compare_truth_windows(alloc, &LessOrEqual, self, 0, other, 0, self.len())
    }

    fn tot_lt_kernel_broadcast(&self, alloc: Global, other: &bool) -> Result<Bitmap, ComputeError> {
        compare_truth(alloc, &Less, self, *other)
    }

    fn tot_le_kernel_broadcast(&self, alloc: Global, other: &bool) -> Result<Bitmap, ComputeError> {
        compare_truth(alloc, &LessOrEqual, self, *other)
    }

    fn tot_gt_kernel_broadcast(&self, alloc: Global, other: &bool) -> Result<Bitmap, ComputeError> {
        compare_truth(alloc, &Greater, self, *other)
    }

    fn tot_ge_kernel_broadcast(&self, alloc: Global, other: &bool) -> Result<Bitmap, ComputeError> {
        compare_truth(alloc, &GreaterOrEqual, self, *other)
    }
}
