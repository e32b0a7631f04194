//! Text of the bits of a raw comparison of two arrays. Such a bit is defined only where both rows
//! are present.

use polars_arrays_bits::bitmap::Bitmap;
use polars_arrays_bits::error::ComputeError;
use polars_arrays_flat::mask::Mask;
use recorded_text::bits_text::write_unmasked;
use recorded_text::fault::Fault;
use std::alloc::Global;

/// Returns the text of `bits`, with `x` for each row that the mask `left` or `right` masks. If
/// `left` or `right` is an error, converts it to a `Fault`.
pub fn write_raw(
    alloc: Global,
    bits: &Bitmap,
    left: Result<Mask<'_>, ComputeError>,
    right: Result<Mask<'_>, ComputeError>,
) -> Result<String, Fault> {
    let left = left?;
    write_unmasked(alloc, bits, &left, &right?)
}
