//! Equality of arrays of structs.

ghost use Rattle.std.specs.Prelude.{◌≡◌, false, ⊤};
ghost use Rattle.polars_arrays_nested.specs.Lengths.{len_of};
ghost use Rattle.polars_arrays_nested.specs.StoredRows.{stored_struct};
ghost use Rattle.polars_arrays_nested.specs.declared.any_array.AnyArray.{Struct};
ghost use Rattle.polars_compare_equality.specs.SlotsLaws.{listed-as_long};
ghost use Rattle.polars_compare_nested.specs.Broadcasts.{all_rows};

use crate::kernel::TotalEqKernel;
use polars_arrays_bits::bitmap::Bitmap;
use polars_arrays_bits::error::ComputeError;
use polars_arrays_flat::data_type::same_fields;
use polars_arrays_nested::any_array::AnyArray;
use polars_arrays_nested::struct_array::StructArray;
use polars_arrays_numbers::steps::Steps;
use polars_compare_nested::windows::eq_structs;
use std::alloc::Global;

impl TotalEqKernel for StructArray {
    type Scalar = AnyArray;

    ghost comparable = { λ a b. len_of (Struct a) ≡ len_of (Struct b) };

    ghost broadcasts = { false };

    ghost fits = { λ a s. ⊤ };

    ghost good_scalar = { λ s. ⊤ };

    ghost scalar_row = { all_rows };

    fn can_compare(&self, other: &Self) -> bool {
        self.len() == other.len()
    }

    fn can_broadcast(&self, _other: &AnyArray) -> bool {
        true
    }

    fn tot_eq_kernel(&self, alloc: Global, other: &Self) -> Result<Bitmap, ComputeError> {
        let rows = self.len();
        // Structs with different fields have different types, and rows of different types are never
        // equal.
        if !same_fields(self.fields(), other.fields()) {
            return Bitmap::new_zeroed(alloc, rows);
        }
        eq_structs(alloc, self, 0, other, 0, rows, &mut Steps::new())
    }

    fn tot_ne_kernel(&self, alloc: Global, other: &Self) -> Result<Bitmap, ComputeError> {
        let equal = self.tot_eq_kernel(alloc, other)?;
        equal.not(alloc)
    }

    fn tot_eq_kernel_broadcast(
        &self,
        _alloc: Global,
        _other: &AnyArray,
    ) -> Result<Bitmap, ComputeError> {
        Err(ComputeError::Unsupported)
    }

    fn tot_ne_kernel_broadcast(
        &self,
        _alloc: Global,
        _other: &AnyArray,
    ) -> Result<Bitmap, ComputeError> {
        Err(ComputeError::Unsupported)
    }

    ghost comparable_law = { λ a b e. listed-as_long (stored_struct a) (stored_struct b) _ _ e };

    ghost scalar_law = { λ s has e. cc };
}
