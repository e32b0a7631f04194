//! Equality of `Utf8Array`s.

ghost use Rattle.std.specs.Prelude.{◌≡◌, true, length, string_bytes, ⊤};
ghost use Rattle.polars_arrays_bytes.specs.OffsetStrings.{offset_strings};
ghost use Rattle.polars_arrays_flat.specs.Row.{Bytes};
ghost use Rattle.polars_compare_equality.specs.SlotsLaws.{byte_slots-as_long};

use crate::borrowed::TextEqKernel;
use crate::kernel::TotalEqKernel;
use polars_arrays_bits::bitmap::Bitmap;
use polars_arrays_bits::error::ComputeError;
use polars_arrays_bytes::text::Utf8Array;
use polars_arrays_flat::byte_rows::ByteRows;
use polars_arrays_numbers::comparison::{Equal, Unequal};
use polars_arrays_numbers::offset::Offset;
use polars_compare_leaves::bytes::{compare_byte_windows, compare_bytes};
use std::alloc::Global;

impl<O: Offset + 'static> TotalEqKernel for Utf8Array<O> {
    type Scalar = String;

    ghost comparable = { λ a b. length (offset_strings O.value a)
        ≡ length (offset_strings O.value b) };

    ghost broadcasts = { true };

    ghost fits = { λ a s. ⊤ };

    ghost good_scalar = { λ s. ⊤ };

    ghost scalar_row = { λ s. Bytes (string_bytes s) };

    fn can_compare(&self, other: &Self) -> bool {
        self.count() == other.count()
    }

    fn can_broadcast(&self, _other: &String) -> bool {
        true
    }

    fn tot_eq_kernel(&self, alloc: Global, other: &Self) -> Result<Bitmap, ComputeError> {
        compare_byte_windows(
            alloc,
            &Equal,
            &self.lent(),
            0,
            &other.lent(),
            0,
            self.count(),
        )
    }

    fn tot_ne_kernel(&self, alloc: Global, other: &Self) -> Result<Bitmap, ComputeError> {
        compare_byte_windows(
            alloc,
            &Unequal,
            &self.lent(),
            0,
            &other.lent(),
            0,
            self.count(),
        )
    }

    fn tot_eq_kernel_broadcast(
        &self,
        alloc: Global,
        other: &String,
    ) -> Result<Bitmap, ComputeError> {
        TextEqKernel::tot_eq_kernel_broadcast(self, alloc, other.as_str())
    }

    fn tot_ne_kernel_broadcast(
        &self,
        alloc: Global,
        other: &String,
    ) -> Result<Bitmap, ComputeError> {
        TextEqKernel::tot_ne_kernel_broadcast(self, alloc, other.as_str())
    }

    ghost comparable_law = { λ a b e. byte_slots-as_long (offset_strings O.value a)
        (offset_strings O.value b) e };

    ghost scalar_law = { λ s has e. cc };
}

impl<O: Offset + 'static> TextEqKernel for Utf8Array<O> {
    fn tot_eq_kernel_broadcast(&self, alloc: Global, other: &str) -> Result<Bitmap, ComputeError> {
        compare_bytes(alloc, &Equal, &self.lent(), other.as_bytes())
    }

    fn tot_ne_kernel_broadcast(&self, alloc: Global, other: &str) -> Result<Bitmap, ComputeError> {
        compare_bytes(alloc, &Unequal, &self.lent(), other.as_bytes())
    }
}
