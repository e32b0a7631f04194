//! Access to values under a validity.

use polars_arrays_bits::bitmap::Bitmap;

/// Returns `value`, which is the value of row `i`, or `None` if there is a validity and its bit `i`
/// is 0 or does not exist.
pub fn masked<T: Copy>(value: Option<T>, validity: Option<&Bitmap>, i: usize) -> Option<T> {
    match validity {
        Some(validity) if validity.get(i) != Some(true) => None,
        _ => value,
    }
}
