//! Finds the bits that are not set.

ghost use Rattle.std.specs.Prelude.{length, MatchResult};
ghost use Rattle.polars_arrays_bits.specs.Errors.{IsMemory};
ghost use Rattle.diff_keys.specs.Rising.{ListsRising};
ghost use Rattle.diff_pairs.specs.Pairs.{IsUnset};

use polars_arrays_bits::bitmap::Bitmap;
use polars_arrays_bits::error::ComputeError;
use std::alloc::Global;

/// Returns the indices of the bits that are not set, in ascending order. The only error is
/// `Memory`.
pub(crate) fn unset_places(alloc: Global, bits: &Bitmap) -> Result<Vec<usize>, ComputeError>
    ensures { MatchResult result
        (λ places. ListsRising (IsUnset bits.now) (length bits.now) places.items) IsMemory }
{
    let mut places = Vec::new(alloc);
    for p in 0..bits.len() {
        if !bits.get_bit(p) {
            places.push(p)?;
        }
    }
    Ok(places)
}
