//! Equality of dictionary arrays.

ghost use Rattle.std.specs.Prelude.{◌≡◌, false, ⊤};
ghost use Rattle.polars_arrays_nested.specs.Lengths.{len_of};
ghost use Rattle.polars_arrays_nested.specs.StoredRows.{stored_entry};
ghost use Rattle.polars_arrays_nested.specs.Types.{type_of};
ghost use Rattle.polars_arrays_nested.specs.declared.any_array.AnyArray.{Dictionary};
ghost use Rattle.polars_compare_equality.specs.SlotsLaws.{listed-as_long};
ghost use Rattle.polars_compare_nested.specs.Broadcasts.{all_rows};

use crate::kernel::TotalEqKernel;
use polars_arrays_bits::bitmap::Bitmap;
use polars_arrays_bits::error::ComputeError;
use polars_arrays_flat::data_type::same_keys;
use polars_arrays_nested::any_array::AnyArray;
use polars_arrays_nested::dictionary::DictionaryArray;
use polars_arrays_numbers::steps::Steps;
use polars_compare_nested::windows::eq_dictionaries;
use std::alloc::Global;

impl TotalEqKernel for DictionaryArray {
    type Scalar = AnyArray;

    ghost comparable = { λ a b. (len_of (Dictionary a) ≡ len_of (Dictionary b))
        × (type_of (Dictionary a) ≡ type_of (Dictionary b)) };

    ghost broadcasts = { false };

    ghost fits = { λ a s. ⊤ };

    ghost good_scalar = { λ s. ⊤ };

    ghost scalar_row = { all_rows };

    fn can_compare(&self, other: &Self) -> bool {
        self.keys().len() == other.keys().len()
            && same_keys(self.keys().key_type(), other.keys().key_type())
            && self.values().same_type(other.values())
    }

    fn can_broadcast(&self, _other: &AnyArray) -> bool {
        true
    }

    fn tot_eq_kernel(&self, alloc: Global, other: &Self) -> Result<Bitmap, ComputeError> {
        let rows = self.keys().len();
        eq_dictionaries(alloc, self, 0, other, 0, rows, &mut Steps::new())
    }

    fn tot_ne_kernel(&self, alloc: Global, other: &Self) -> Result<Bitmap, ComputeError> {
        let equal = self.tot_eq_kernel(alloc, other)?;
        equal.not(alloc)
    }

    fn tot_eq_kernel_broadcast(
        &self,
        _alloc: Global,
        _other: &AnyArray,
    ) -> Result<Bitmap, ComputeError> {
        Err(ComputeError::Unsupported)
    }

    fn tot_ne_kernel_broadcast(
        &self,
        _alloc: Global,
        _other: &AnyArray,
    ) -> Result<Bitmap, ComputeError> {
        Err(ComputeError::Unsupported)
    }

    ghost comparable_law = { λ a b can. listed-as_long (stored_entry a) (stored_entry b) _ _
        can.0 };

    ghost scalar_law = { λ s has e. cc };
}
