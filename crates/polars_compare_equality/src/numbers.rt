//! Equality of arrays of numbers.

ghost use Rattle.std.specs.Prelude.{◌≡◌, true, length, ⊤};
ghost use Rattle.polars_arrays_flat.specs.Row.{Int};
ghost use Rattle.polars_compare_equality.specs.SlotsLaws.{number_slots-as_long};

use crate::kernel::TotalEqKernel;
use polars_arrays_bits::bitmap::Bitmap;
use polars_arrays_bits::error::ComputeError;
use polars_arrays_flat::array::Array;
use polars_arrays_flat::primitive::PrimitiveArray;
use polars_arrays_numbers::comparison::{Equal, Unequal};
use polars_arrays_numbers::native_type::NativeType;
use polars_compare_leaves::joining::Relation;
use polars_compare_leaves::numbers::{compare_number, compare_number_windows, join_numbers};
use std::alloc::Global;

impl<T: NativeType + 'static> TotalEqKernel for PrimitiveArray<T> {
    type Scalar = T;

    ghost comparable = { λ a b. length a.values ≡ length b.values };

    ghost broadcasts = { true };

    ghost fits = { λ a s. ⊤ };

    ghost good_scalar = { λ s. ⊤ };

    ghost scalar_row = { λ s. Int (T.value s) };

    fn can_compare(&self, other: &Self) -> bool {
        self.len() == other.len()
    }

    fn can_broadcast(&self, _other: &T) -> bool {
        true
    }

    fn tot_eq_kernel(&self, alloc: Global, other: &Self) -> Result<Bitmap, ComputeError> {
        compare_number_windows(alloc, &Equal, self, 0, other, 0, self.len())
    }

    fn tot_ne_kernel(&self, alloc: Global, other: &Self) -> Result<Bitmap, ComputeError> {
        compare_number_windows(alloc, &Unequal, self, 0, other, 0, self.len())
    }

    // Overrides the default, which first stores a bitmap of the raw results. Here, if both arrays
    // have a mask, each word of 64 results is combined with the masks before it is stored.
    fn tot_eq_missing_kernel(&self, alloc: Global, other: &Self) -> Result<Bitmap, ComputeError> {
        let left_mask = self.missing_mask(alloc)?;
        let right_mask = other.missing_mask(alloc)?;
        join_numbers(
            alloc,
            Relation::Equal,
            &Equal,
            self,
            &left_mask,
            other,
            &right_mask,
        )
    }

    fn tot_ne_missing_kernel(&self, alloc: Global, other: &Self) -> Result<Bitmap, ComputeError> {
        let left_mask = self.missing_mask(alloc)?;
        let right_mask = other.missing_mask(alloc)?;
        join_numbers(
            alloc,
            Relation::Unequal,
            &Unequal,
            self,
            &left_mask,
            other,
            &right_mask,
        )
    }

    fn tot_eq_kernel_broadcast(&self, alloc: Global, other: &T) -> Result<Bitmap, ComputeError> {
        compare_number(alloc, &Equal, self, *other)
    }

    fn tot_ne_kernel_broadcast(&self, alloc: Global, other: &T) -> Result<Bitmap, ComputeError> {
        compare_number(alloc, &Unequal, self, *other)
    }

    ghost comparable_law = { λ a b e. number_slots-as_long T.value a.values b.values e };

    ghost scalar_law = { λ s has e. cc };
}
