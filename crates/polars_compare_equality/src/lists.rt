//! Equality of `ListArray`s.

ghost use Rattle.std.specs.Prelude.{◌≡◌, true};
ghost use Rattle.polars_arrays_nested.specs.GoodParts.{IsGood};
ghost use Rattle.polars_arrays_nested.specs.Lengths.{len_of};
ghost use Rattle.polars_arrays_nested.specs.Parts.{list_values};
ghost use Rattle.polars_arrays_nested.specs.StoredRows.{stored_list};
ghost use Rattle.polars_arrays_nested.specs.Types.{type_of};
ghost use Rattle.polars_arrays_nested.specs.declared.any_array.AnyArray.{List};
ghost use Rattle.polars_compare_equality.specs.SlotsLaws.{listed-as_long};
ghost use Rattle.polars_compare_nested.specs.Broadcasts.{all_rows};

use crate::kernel::TotalEqKernel;
use polars_arrays_bits::bitmap::Bitmap;
use polars_arrays_bits::error::ComputeError;
use polars_arrays_nested::any_array::AnyArray;
use polars_arrays_nested::list::ListArray;
use polars_arrays_numbers::steps::Steps;
use polars_compare_nested::broadcasts::list_broadcast;
use polars_compare_nested::windows::eq_lists;
use std::alloc::Global;

impl TotalEqKernel for ListArray {
    // The items of one list.
    type Scalar = AnyArray;

    ghost comparable = { λ a b. (len_of (List a) ≡ len_of (List b))
        × (type_of (List a) ≡ type_of (List b)) };

    ghost broadcasts = { true };

    ghost fits = { λ a s. type_of (list_values a) ≡ type_of s };

    ghost good_scalar = { IsGood };

    ghost scalar_row = { all_rows };

    fn can_compare(&self, other: &Self) -> bool {
        self.offsets().len() == other.offsets().len()
            && self.offsets().is_large() == other.offsets().is_large()
            && self.values().same_type(other.values())
    }

    fn can_broadcast(&self, other: &AnyArray) -> bool {
        self.values().same_type(other)
    }

    fn tot_eq_kernel(&self, alloc: Global, other: &Self) -> Result<Bitmap, ComputeError> {
        let rows = self.offsets().len();
        eq_lists(alloc, self, 0, other, 0, rows, &mut Steps::new())
    }

    fn tot_ne_kernel(&self, alloc: Global, other: &Self) -> Result<Bitmap, ComputeError> {
        let equal = self.tot_eq_kernel(alloc, other)?;
        equal.not(alloc)
    }

    fn tot_eq_kernel_broadcast(
        &self,
        alloc: Global,
        other: &AnyArray,
    ) -> Result<Bitmap, ComputeError> {
        list_broadcast(alloc, self, other)
    }

    fn tot_ne_kernel_broadcast(
        &self,
        alloc: Global,
        other: &AnyArray,
    ) -> Result<Bitmap, ComputeError> {
        let equal = self.tot_eq_kernel_broadcast(alloc, other)?;
        equal.not(alloc)
    }

    ghost comparable_law = { λ a b can. listed-as_long (stored_list a) (stored_list b) _ _ can.0 };

    ghost scalar_law = { λ s has e. cc };
}
