//! Equality of `BinaryArray`s and of `FixedSizeBinaryArray`s.

ghost use Rattle.std.specs.Prelude.{◌≡◌, ◌*◌, true, length, ⊤};
ghost use Rattle.polars_arrays_bytes.specs.OffsetStrings.{offset_strings};
ghost use Rattle.polars_arrays_bytes.specs.SizedStrings.{sized_strings};
ghost use Rattle.polars_arrays_flat.specs.Row.{Bytes};
ghost use Rattle.polars_compare_equality.specs.SlotsLaws.{byte_slots-as_long};

use crate::borrowed::BytesEqKernel;
use crate::kernel::TotalEqKernel;
use polars_arrays_bits::bitmap::Bitmap;
use polars_arrays_bits::error::ComputeError;
use polars_arrays_bytes::binary::BinaryArray;
use polars_arrays_bytes::fixed_size::FixedSizeBinaryArray;
use polars_arrays_flat::byte_rows::ByteRows;
use polars_arrays_numbers::comparison::{Equal, Unequal};
use polars_arrays_numbers::offset::Offset;
use polars_compare_leaves::bytes::{compare_byte_windows, compare_bytes};
use polars_compare_leaves::sized::compare_sized_windows;
use std::alloc::Global;

impl<O: Offset + 'static> TotalEqKernel for BinaryArray<O> {
    type Scalar = Vec<u8>;

    ghost comparable = { λ a b. length (offset_strings O.value a)
        ≡ length (offset_strings O.value b) };

    ghost broadcasts = { true };

    ghost fits = { λ a s. ⊤ };

    ghost good_scalar = { λ s. ⊤ };

    ghost scalar_row = { λ s. Bytes s.items };

    fn can_compare(&self, other: &Self) -> bool {
        self.count() == other.count()
    }

    fn can_broadcast(&self, _other: &Vec<u8>) -> bool {
        true
    }

    fn tot_eq_kernel(&self, alloc: Global, other: &Self) -> Result<Bitmap, ComputeError> {
        compare_byte_windows(
            alloc,
            &Equal,
            &self.lent(),
            0,
            &other.lent(),
            0,
            self.count(),
        )
    }

    fn tot_ne_kernel(&self, alloc: Global, other: &Self) -> Result<Bitmap, ComputeError> {
        compare_byte_windows(
            alloc,
            &Unequal,
            &self.lent(),
            0,
            &other.lent(),
            0,
            self.count(),
        )
    }

    fn tot_eq_kernel_broadcast(
        &self,
        alloc: Global,
        other: &Vec<u8>,
    ) -> Result<Bitmap, ComputeError> {
        BytesEqKernel::tot_eq_kernel_broadcast(self, alloc, other.as_slice())
    }

    fn tot_ne_kernel_broadcast(
        &self,
        alloc: Global,
        other: &Vec<u8>,
    ) -> Result<Bitmap, ComputeError> {
        BytesEqKernel::tot_ne_kernel_broadcast(self, alloc, other.as_slice())
    }

    ghost comparable_law = { λ a b e. byte_slots-as_long (offset_strings O.value a)
        (offset_strings O.value b) e };

    ghost scalar_law = { λ s has e. cc };
}

impl<O: Offset + 'static> BytesEqKernel for BinaryArray<O> {
    fn tot_eq_kernel_broadcast(&self, alloc: Global, other: &[u8]) -> Result<Bitmap, ComputeError> {
        compare_bytes(alloc, &Equal, &self.lent(), other)
    }

    fn tot_ne_kernel_broadcast(&self, alloc: Global, other: &[u8]) -> Result<Bitmap, ComputeError> {
        compare_bytes(alloc, &Unequal, &self.lent(), other)
    }
}

impl TotalEqKernel for FixedSizeBinaryArray {
    type Scalar = Vec<u8>;

    ghost comparable = { λ a b. length (sized_strings a.size a.count a.values)
        ≡ length (sized_strings b.size b.count b.values) };

    ghost broadcasts = { true };

    ghost fits = { λ a s. ⊤ };

    ghost good_scalar = { λ s. ⊤ };

    ghost scalar_row = { λ s. Bytes s.items };

    fn can_compare(&self, other: &Self) -> bool {
        self.count() == other.count()
    }

    fn can_broadcast(&self, _other: &Vec<u8>) -> bool {
        true
    }

    fn tot_eq_kernel(&self, alloc: Global, other: &Self) -> Result<Bitmap, ComputeError> {
        read_sizes(self, other);
        compare_sized_windows(alloc, &Equal, self, 0, other, 0, self.count())
    }

    fn tot_ne_kernel(&self, alloc: Global, other: &Self) -> Result<Bitmap, ComputeError> {
        read_sizes(self, other);
        compare_sized_windows(alloc, &Unequal, self, 0, other, 0, self.count())
    }

    fn tot_eq_kernel_broadcast(
        &self,
        alloc: Global,
        other: &Vec<u8>,
    ) -> Result<Bitmap, ComputeError> {
        BytesEqKernel::tot_eq_kernel_broadcast(self, alloc, other.as_slice())
    }

    fn tot_ne_kernel_broadcast(
        &self,
        alloc: Global,
        other: &Vec<u8>,
    ) -> Result<Bitmap, ComputeError> {
        BytesEqKernel::tot_ne_kernel_broadcast(self, alloc, other.as_slice())
    }

    ghost comparable_law = { λ a b e. byte_slots-as_long (sized_strings a.size a.count a.values)
        (sized_strings b.size b.count b.values) e };

    ghost scalar_law = { λ s has e. cc };
}

impl BytesEqKernel for FixedSizeBinaryArray {}

// States that `left` and `right` each store `size * count` bytes. From this, the proof concludes
// that byte strings of different sizes are unequal. Does nothing at run time.
fn read_sizes(left: &FixedSizeBinaryArray, right: &FixedSizeBinaryArray)
    ensures left { length left.now.values ≡ left.now.size * left.now.count }
    ensures right { length right.now.values ≡ right.now.size * right.now.count }
{
    let (_left, _right) = (left.values(), right.values());
}
