//! Counts of ones and of zeros in truth values, which have one bit each.

ghost use Rattle.std.specs.Prelude.{◌≡◌, map, pos, length, count_by, IfOk, MatchResult};
ghost use Rattle.polars_arrays_bits.specs.Errors.{IsMemory};
ghost use Rattle.polars_arrays_flat.specs.ArrayRows.{number_rows, truth_rows};
ghost use Rattle.polars_arrays_flat.specs.StoredRows.{number_slots, rows_under};
ghost use Rattle.polars_compute_reductions.specs.Bitwise.{place_bits, truth_count};

use crate::bit_counts::copied_validity;
use polars_arrays_bits::bitmap::Bitmap;
use polars_arrays_bits::error::ComputeError;
use polars_arrays_flat::array::Array;
use polars_arrays_flat::boolean::BooleanArray;
use polars_arrays_flat::primitive::PrimitiveArray;
use std::alloc::{AllocError, Global};

// Returns 1 if the bit is counted, and 0 otherwise. If `ones` is true, ones are counted, otherwise
// zeros.
#[inline(always)]
fn count_bit(ones: bool, bit: bool) -> u32
    ensures { result ≡ truth_count ones bit }
{
    match (ones, bit) {
        (true, true) | (false, false) => 1,
        _ => 0,
    }
}

// Returns a vector with 1 for each bit that is counted, and 0 for each other bit. If `ones` is
// true, ones are counted, otherwise zeros.
fn count_each_bit(alloc: Global, bits: &Bitmap, ones: bool) -> Result<Vec<u32>, AllocError>
    ensures { IfOk result (λ counts. counts.items ≡ map (truth_count ones) bits.now) }
{
    let mut counts = Vec::with_capacity(alloc, bits.len())?;
    for i in 0..bits.len() {
        counts.push_reserved(count_bit(ones, bits.get_bit(i)));
    }
    Ok(counts)
}

/// Returns an array with 1 for each row that is counted, and 0 for each other present row. If
/// `ones` is true, true rows are counted, otherwise false rows. Null rows stay null. The error is
/// `Memory`.
pub(crate) fn count_truth_rows(
    alloc: Global,
    array: &BooleanArray,
    ones: bool,
) -> Result<PrimitiveArray<u32>, ComputeError>
    ensures { MatchResult result
        (λ counts. number_rows (λ n. pos n) counts
        ≡ rows_under array.now.validity
        (number_slots (λ n. pos n) (map (truth_count ones) array.now.values))) IsMemory }
{
    let counts = count_each_bit(alloc, array.values(), ones)?;
    let validity = copied_validity(alloc, array.validity())?;
    Ok(PrimitiveArray::from_vec(counts).with_validity(validity))
}

/// Returns the number of present rows.
pub(crate) fn present_rows(array: &BooleanArray) -> usize
    ensures { result ≡ length (place_bits 1 0 (truth_rows array.now)) }
{
    match array.validity() {
        Some(validity) => validity.set_bits(),
        None => array.len(),
    }
}

/// Returns the number of present rows that are true.
pub(crate) fn true_rows(array: &BooleanArray) -> usize
    ensures { result ≡ count_by (λ b. b) (place_bits 1 0 (truth_rows array.now)) }
{
    match array.validity() {
        Some(validity) => array.values().num_intersections_with(validity),
        None => array.values().set_bits(),
    }
}
