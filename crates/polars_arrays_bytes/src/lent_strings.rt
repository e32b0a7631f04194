//! A borrowed array of byte strings, together with its offsets and bytes as slices.

ghost use Rattle.std.specs.Prelude.{◌≡◌, ⊤, refl};
ghost use Rattle.polars_arrays_bytes.specs.OffsetStrings.{offset_strings};
ghost use Rattle.polars_arrays_flat.specs.SlotLaws.{byte_slots-present};
ghost use Rattle.polars_arrays_flat.specs.StoredRows.{byte_slots};
ghost use Rattle.polars_arrays_flat.specs.Validity.{masked_count};

use crate::binary::BinaryArray;
use crate::offsets::{row_count, string_at, string_on};
use polars_arrays_bits::bitmap::Bitmap;
use polars_arrays_bits::error::ComputeError;
use polars_arrays_flat::array::Array;
use polars_arrays_flat::byte_rows::ByteRows;
use polars_arrays_flat::mask::Mask;
use polars_arrays_numbers::offset::Offset;
use std::alloc::Global;

/// A borrowed array of byte strings, together with its offsets and bytes as slices. A loop over the
/// strings reads these slices, and need not get them from the array's buffers for each string.
#[derive(Drop)]
pub struct LentStrings<'a, O: Offset> {
    /// The array.
    pub array: &'a BinaryArray<O>,
    offsets: &'a [O],
    values: &'a [u8],
    ghost offsets_are: { offsets.now ≡ array.now.offsets },
    ghost values_are: { values.now ≡ array.now.values },
}

impl<'a, O: Offset> LentStrings<'a, O> {
    /// Borrows an array and gets its slices.
    pub fn new(array: &'a BinaryArray<O>) -> LentStrings<'a, O>
        ensures { result.array.now ≡ array.now }
    {
        let offsets = array.offsets();
        let values = array.values();
        LentStrings {
            array,
            offsets,
            values,
        }
    }
}

impl<O: Offset> Array for LentStrings<'_, O> {
    ghost slots = { λ l. byte_slots (offset_strings O.value l.array.now) };

    ghost validity_bits = { λ l. l.array.now.validity };

    ghost mask = { λ l. l.array.now.validity };

    ghost nulls = { λ l. masked_count l.array.now.validity };

    ghost same_type = { λ a b. ⊤ };

    ghost good = { λ a. ⊤ };

    fn len(&self) -> usize {
        self.array.len()
    }

    fn validity(&self) -> Option<&Bitmap> {
        self.array.validity()
    }

    fn missing_mask(&self, _alloc: Global) -> Result<Mask<'_>, ComputeError> {
        Ok(Mask::lent(self.validity()))
    }

    fn null_count(&self) -> usize {
        self.array.null_count()
    }

    ghost null_law = { λ l q i within is_null. absurd
        (byte_slots-present (offset_strings O.value l.array.now) i within is_null) };
}

impl<O: Offset> ByteRows for LentStrings<'_, O> {
    ghost strings = { λ l. offset_strings O.value l.array.now };

    #[tactic(auto, using(crate::proofs::OffsetWindows::offset_rows))]
    fn count(&self) -> usize {
        row_count(self.offsets)
    }

    #[inline]
    #[tactic(auto, using(crate::proofs::OffsetWindows::offset_rows))]
    fn bytes(&self, i: usize) -> &[u8] {
        self.array.law_good();
        string_at(self.offsets, self.values, i)
    }

    #[inline(always)]
    #[tactic(auto, using(crate::proofs::OffsetWindows::offset_rows))]
    fn bytes_on(&self, i: usize) -> (&[u8], usize) {
        self.array.law_good();
        string_on(self.offsets, self.values, i)
    }

    ghost slots_law = { λ l. refl };
}
