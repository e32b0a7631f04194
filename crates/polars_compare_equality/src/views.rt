//! Equality of arrays of views (`BinaryViewArray` and `Utf8ViewArray`).

ghost use Rattle.std.specs.Prelude.{◌≡◌, true, length, string_bytes, ⊤};
ghost use Rattle.polars_arrays_flat.specs.Row.{Bytes};
ghost use Rattle.polars_arrays_views.specs.Parts.{view_strings};
ghost use Rattle.polars_compare_equality.specs.SlotsLaws.{byte_slots-as_long};

use crate::borrowed::{BytesEqKernel, TextEqKernel};
use crate::kernel::TotalEqKernel;
use polars_arrays_bits::bitmap::Bitmap;
use polars_arrays_bits::error::ComputeError;
use polars_arrays_flat::byte_rows::ByteRows;
use polars_arrays_numbers::comparison::{Equal, Unequal};
use polars_arrays_numbers::steps::Steps;
use polars_arrays_views::binary_view::BinaryViewArray;
use polars_arrays_views::text_view::Utf8ViewArray;
use polars_compare_leaves::followed::FollowedKernel;
use polars_compare_leaves::view_windows::{compare_view_bytes, compare_view_windows};
use std::alloc::Global;

impl TotalEqKernel for BinaryViewArray {
    type Scalar = Vec<u8>;

    ghost comparable = { λ a b. length (view_strings a) ≡ length (view_strings b) };

    ghost broadcasts = { true };

    ghost fits = { λ a s. ⊤ };

    ghost good_scalar = { λ s. ⊤ };

    ghost scalar_row = { λ s. Bytes s.items };

    fn can_compare(&self, other: &Self) -> bool {
        self.count() == other.count()
    }

    fn can_broadcast(&self, _other: &Vec<u8>) -> bool {
        true
    }

    fn tot_eq_kernel(&self, alloc: Global, other: &Self) -> Result<Bitmap, ComputeError> {
        self.tot_eq_kernel_followed(alloc, other, &mut Steps::new())
    }

    fn tot_ne_kernel(&self, alloc: Global, other: &Self) -> Result<Bitmap, ComputeError> {
        compare_view_windows(
            alloc,
            &Unequal,
            self,
            0,
            other,
            0,
            self.count(),
            &mut Steps::new(),
        )
    }

    fn tot_eq_kernel_broadcast(
        &self,
        alloc: Global,
        other: &Vec<u8>,
    ) -> Result<Bitmap, ComputeError> {
        BytesEqKernel::tot_eq_kernel_broadcast(self, alloc, other.as_slice())
    }

    fn tot_ne_kernel_broadcast(
        &self,
        alloc: Global,
        other: &Vec<u8>,
    ) -> Result<Bitmap, ComputeError> {
        BytesEqKernel::tot_ne_kernel_broadcast(self, alloc, other.as_slice())
    }

    ghost comparable_law = { λ a b e. byte_slots-as_long (view_strings a) (view_strings b) e };

    ghost scalar_law = { λ s has e. cc };
}

impl BytesEqKernel for BinaryViewArray {
    fn tot_eq_kernel_broadcast(&self, alloc: Global, other: &[u8]) -> Result<Bitmap, ComputeError> {
        compare_view_bytes(alloc, &Equal, self, other)
    }

    fn tot_ne_kernel_broadcast(&self, alloc: Global, other: &[u8]) -> Result<Bitmap, ComputeError> {
        compare_view_bytes(alloc, &Unequal, self, other)
    }
}

impl TotalEqKernel for Utf8ViewArray {
    type Scalar = String;

    ghost comparable = { λ a b. length (view_strings a) ≡ length (view_strings b) };

    ghost broadcasts = { true };

    ghost fits = { λ a s. ⊤ };

    ghost good_scalar = { λ s. ⊤ };

    ghost scalar_row = { λ s. Bytes (string_bytes s) };

    fn can_compare(&self, other: &Self) -> bool {
        self.count() == other.count()
    }

    fn can_broadcast(&self, _other: &String) -> bool {
        true
    }

    fn tot_eq_kernel(&self, alloc: Global, other: &Self) -> Result<Bitmap, ComputeError> {
        self.tot_eq_kernel_followed(alloc, other, &mut Steps::new())
    }

    fn tot_ne_kernel(&self, alloc: Global, other: &Self) -> Result<Bitmap, ComputeError> {
        self.as_binview().tot_ne_kernel(alloc, other.as_binview())
    }

    fn tot_eq_kernel_broadcast(
        &self,
        alloc: Global,
        other: &String,
    ) -> Result<Bitmap, ComputeError> {
        TextEqKernel::tot_eq_kernel_broadcast(self, alloc, other.as_str())
    }

    fn tot_ne_kernel_broadcast(
        &self,
        alloc: Global,
        other: &String,
    ) -> Result<Bitmap, ComputeError> {
        TextEqKernel::tot_ne_kernel_broadcast(self, alloc, other.as_str())
    }

    ghost comparable_law = { λ a b e. byte_slots-as_long (view_strings a) (view_strings b) e };

    ghost scalar_law = { λ s has e. cc };
}

impl TextEqKernel for Utf8ViewArray {
    fn tot_eq_kernel_broadcast(&self, alloc: Global, other: &str) -> Result<Bitmap, ComputeError> {
        compare_view_bytes(alloc, &Equal, self.as_binview(), other.as_bytes())
    }

    fn tot_ne_kernel_broadcast(&self, alloc: Global, other: &str) -> Result<Bitmap, ComputeError> {
        compare_view_bytes(alloc, &Unequal, self.as_binview(), other.as_bytes())
    }
}
