//! Equality of arrays of truth values.

ghost use Rattle.std.specs.Prelude.{◌≡◌, true, length, ⊤};
ghost use Rattle.polars_arrays_flat.specs.Row.{Truth};
ghost use Rattle.polars_compare_equality.specs.SlotsLaws.{truth_slots-as_long};

use crate::kernel::TotalEqKernel;
use polars_arrays_bits::bitmap::Bitmap;
use polars_arrays_bits::error::ComputeError;
use polars_arrays_flat::array::Array;
use polars_arrays_flat::boolean::BooleanArray;
use polars_arrays_numbers::comparison::{Equal, Unequal};
use polars_compare_leaves::booleans::{compare_truth, compare_truth_windows};
use std::alloc::Global;

impl TotalEqKernel for BooleanArray {
    type Scalar = bool;

    ghost comparable = { λ a b. length a.values ≡ length b.values };

    ghost broadcasts = { true };

    ghost fits = { λ a s. ⊤ };

    ghost good_scalar = { λ s. ⊤ };

    ghost scalar_row = { λ s. Truth s };

    fn can_compare(&self, other: &Self) -> bool {
        self.len() == other.len()
    }

    fn can_broadcast(&self, _other: &bool) -> bool {
        true
    }

    fn tot_eq_kernel(&self, alloc: Global, other: &Self) -> Result<Bitmap, ComputeError> {
        compare_truth_windows(alloc, &Equal, self, 0, other, 0, self.len())
    }

    fn tot_ne_kernel(&self, alloc: Global, other: &Self) -> Result<Bitmap, ComputeError> {
        compare_truth_windows(alloc, &Unequal, self, 0, other, 0, self.len())
    }

    fn tot_eq_kernel_broadcast(&self, alloc: Global, other: &bool) -> Result<Bitmap, ComputeError> {
        compare_truth(alloc, &Equal, self, *other)
    }

    fn tot_ne_kernel_broadcast(&self, alloc: Global, other: &bool) -> Result<Bitmap, ComputeError> {
        compare_truth(alloc, &Unequal, self, *other)
    }

    ghost comparable_law = { λ a b e. truth_slots-as_long a.values b.values e };

    ghost scalar_law = { λ s has e. cc };
}
