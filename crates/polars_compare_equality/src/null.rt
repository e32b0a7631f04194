//! Equality of arrays whose rows are all null (`NullArray`).

ghost use Rattle.std.specs.Prelude.{◌≡◌, false, ⊤};
ghost use Rattle.polars_compare_equality.specs.SlotsLaws.{null_slots-as_long};
ghost use Rattle.polars_compare_nested.specs.Broadcasts.{all_rows};

use crate::kernel::TotalEqKernel;
use polars_arrays_bits::bitmap::Bitmap;
use polars_arrays_bits::error::ComputeError;
use polars_arrays_flat::array::Array;
use polars_arrays_flat::null::NullArray;
use polars_arrays_nested::any_array::AnyArray;
use std::alloc::Global;

impl TotalEqKernel for NullArray {
    type Scalar = AnyArray;

    ghost comparable = { λ a b. a ≡ b };

    ghost broadcasts = { false };

    ghost fits = { λ a s. ⊤ };

    ghost good_scalar = { λ s. ⊤ };

    ghost scalar_row = { all_rows };

    fn can_compare(&self, other: &Self) -> bool {
        self.len() == other.len()
    }

    fn can_broadcast(&self, _other: &AnyArray) -> bool {
        true
    }

    fn tot_eq_kernel(&self, alloc: Global, _other: &Self) -> Result<Bitmap, ComputeError> {
        Bitmap::new_with_value(alloc, true, self.len())
    }

    fn tot_ne_kernel(&self, alloc: Global, _other: &Self) -> Result<Bitmap, ComputeError> {
        Bitmap::new_zeroed(alloc, self.len())
    }

    fn tot_eq_kernel_broadcast(
        &self,
        _alloc: Global,
        _other: &AnyArray,
    ) -> Result<Bitmap, ComputeError> {
        Err(ComputeError::Unsupported)
    }

    fn tot_ne_kernel_broadcast(
        &self,
        _alloc: Global,
        _other: &AnyArray,
    ) -> Result<Bitmap, ComputeError> {
        Err(ComputeError::Unsupported)
    }

    ghost comparable_law = { null_slots-as_long };

    ghost scalar_law = { λ s has e. cc };
}
