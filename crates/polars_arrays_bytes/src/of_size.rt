//! Arrays of byte strings whose size is a constant.

ghost use Rattle.std.specs.Prelude.{◌≡◌, ⊤, refl};
ghost use Rattle.polars_arrays_bytes.specs.SizedStrings.{sized_strings};
ghost use Rattle.polars_arrays_flat.specs.SlotLaws.{byte_slots-present};
ghost use Rattle.polars_arrays_flat.specs.StoredRows.{byte_slots};
ghost use Rattle.polars_arrays_flat.specs.Validity.{masked_count};

use crate::fixed_size::{FixedSizeBinaryArray, string_at};
use polars_arrays_bits::bitmap::Bitmap;
use polars_arrays_bits::error::ComputeError;
use polars_arrays_flat::array::Array;
use polars_arrays_flat::byte_rows::ByteRows;
use polars_arrays_flat::mask::Mask;
use std::alloc::Global;

/// A borrowed array whose byte strings have `SIZE` bytes each. Loops over the strings are compiled
/// for this size.
#[derive(Drop)]
pub struct OfSize<'a, const SIZE: usize> {
    /// The array.
    pub array: &'a FixedSizeBinaryArray,
    ghost size: { array.now.size ≡ SIZE },
}

impl<'a, const SIZE: usize> OfSize<'a, SIZE> {
    /// Borrows an array whose byte strings have `SIZE` bytes each.
    pub fn new(array: &'a FixedSizeBinaryArray) -> OfSize<'a, SIZE>
        requires { array.now.size ≡ SIZE }
        ensures { result.array.now ≡ array.now }
    {
        OfSize { array }
    }
}

impl<const SIZE: usize> Array for OfSize<'_, SIZE> {
    ghost slots = { λ o. byte_slots
        (sized_strings o.array.now.size o.array.now.count o.array.now.values) };

    ghost validity_bits = { λ o. o.array.now.validity };

    ghost mask = { λ o. o.array.now.validity };

    ghost nulls = { λ o. masked_count o.array.now.validity };

    ghost same_type = { λ a b. ⊤ };

    ghost good = { λ a. ⊤ };

    fn len(&self) -> usize {
        self.array.len()
    }

    fn validity(&self) -> Option<&Bitmap> {
        self.array.validity()
    }

    fn missing_mask(&self, _alloc: Global) -> Result<Mask<'_>, ComputeError> {
        Ok(Mask::lent(self.validity()))
    }

    fn null_count(&self) -> usize {
        self.array.null_count()
    }

    ghost null_law = { λ o q i within is_null. absurd
        (byte_slots-present (sized_strings o.array.now.size o.array.now.count o.array.now.values) i
        within is_null) };
}

impl<const SIZE: usize> ByteRows for OfSize<'_, SIZE> {
    ghost strings = { λ o. sized_strings o.array.now.size o.array.now.count o.array.now.values };

    #[tactic(auto, using(crate::proofs::Windows::sized))]
    fn count(&self) -> usize {
        self.array.count()
    }

    #[inline]
    #[tactic(auto, using(crate::proofs::Windows::sized))]
    fn bytes(&self, i: usize) -> &[u8] {
        string_at(self.array.values(), SIZE, i)
    }

    ghost slots_law = { λ o. refl };
}
