//! Counts of the bits of numbers: of ones, of zeros, and of equal bits at one end.

ghost use Rattle.std.specs.Prelude.{◌≡◌, ℕ, List, Bool, map, IfOk, MatchResult};
ghost use Rattle.std.specs.Option.{option_copied};
ghost use Rattle.num_traits.specs.Laws.{bit_len};
ghost use Rattle.polars_arrays_bits.specs.Errors.{IsMemory};
ghost use Rattle.polars_arrays_flat.specs.ArrayRows.{number_rows};
ghost use Rattle.polars_compute_reductions.specs.Bitwise.{AreCounts, number_bits};

use crate::bit_number::BitNumber;
use polars_arrays_bits::bitmap::Bitmap;
use polars_arrays_bits::error::ComputeError;
use polars_arrays_flat::array::Array;
use polars_arrays_flat::primitive::PrimitiveArray;
use polars_arrays_numbers::native_type::NativeType;
use std::alloc::{AllocError, Global};

/// A way of counting bits of a number, such as counting its ones.
pub trait BitCount<T: NativeType> {
    // The count for a list of bits, the lowest bit first.
    ghost amount: { List Bool → ℕ };

    /// Returns the count for the number.
    fn count(&self, number: T) -> u32
        ensures { result ≡ amount (number_bits (bit_len T.width) (T.value number)) };
}

/// The count of bits that are 1.
#[derive(Drop)]
pub struct Ones;

/// The count of bits that are 0.
#[derive(Drop)]
pub struct Zeros;

/// The count of ones from the highest bit down, up to the first 0: 2 for the `u8` 0b1101_0000.
#[derive(Drop)]
pub struct LeadingOnes;

/// The count of zeros from the highest bit down, up to the first 1: 3 for the `u8` 0b0001_0110.
#[derive(Drop)]
pub struct LeadingZeros;

/// The count of ones from the lowest bit up, up to the first 0: 2 for the `u8` 0b0000_1011.
#[derive(Drop)]
pub struct TrailingOnes;

/// The count of zeros from the lowest bit up, up to the first 1: 3 for the `u8` 0b0110_1000.
#[derive(Drop)]
pub struct TrailingZeros;

impl<T: BitNumber> BitCount<T> for Ones {
    ghost use Rattle.std.specs.Prelude.{count_by};

    ghost amount = { count_by (λ b. b) };

    #[inline(always)]
    fn count(&self, number: T) -> u32 {
        // For the proof: the number lies within the bounds of `T`.
        number.law_fits();
        number.count_ones()
    }
}

impl<T: BitNumber> BitCount<T> for Zeros {
    ghost use Rattle.std.specs.Prelude.{count_by, not};

    ghost amount = { count_by not };

    #[inline(always)]
    fn count(&self, number: T) -> u32 {
        // For the proof: the number lies within the bounds of `T`.
        number.law_fits();
        number.count_zeros()
    }
}

impl<T: BitNumber> BitCount<T> for LeadingOnes {
    ghost use Rattle.polars_compute_reductions.specs.Bitwise.{leading_run};

    ghost amount = { leading_run (λ b. b) };

    #[inline(always)]
    fn count(&self, number: T) -> u32 {
        // For the proof: the number lies within the bounds of `T`.
        number.law_fits();
        number.leading_ones()
    }
}

impl<T: BitNumber> BitCount<T> for LeadingZeros {
    ghost use Rattle.std.specs.Prelude.{not};
    ghost use Rattle.polars_compute_reductions.specs.Bitwise.{leading_run};

    ghost amount = { leading_run not };

    #[inline(always)]
    fn count(&self, number: T) -> u32 {
        // For the proof: the number lies within the bounds of `T`.
        number.law_fits();
        number.leading_zeros()
    }
}

impl<T: BitNumber> BitCount<T> for TrailingOnes {
    ghost use Rattle.polars_compute_reductions.specs.Bitwise.{trailing_run};

    ghost amount = { trailing_run (λ b. b) };

    #[inline(always)]
    fn count(&self, number: T) -> u32 {
        // For the proof: the number lies within the bounds of `T`.
        number.law_fits();
        number.trailing_ones()
    }
}

impl<T: BitNumber> BitCount<T> for TrailingZeros {
    ghost use Rattle.std.specs.Prelude.{not};
    ghost use Rattle.polars_compute_reductions.specs.Bitwise.{trailing_run};

    ghost amount = { trailing_run not };

    #[inline(always)]
    fn count(&self, number: T) -> u32 {
        // For the proof: the number lies within the bounds of `T`.
        number.law_fits();
        number.trailing_zeros()
    }
}

// Returns a new vector with the result of `count` for each of `numbers`.
fn count_each<T: NativeType, C: BitCount<T>>(
    alloc: Global,
    count: &C,
    numbers: &[T],
) -> Result<Vec<u32>, AllocError>
    ensures { IfOk result
        (λ counts. counts.items
        ≡ map (λ x. C.amount (number_bits (bit_len T.width) (T.value x))) numbers.now) }
{
    let mut counts = Vec::with_capacity(alloc, numbers.len())?;
    for number in numbers {
        counts.push_reserved(count.count(*number));
    }
    Ok(counts)
}

// Clones a validity, if there is one. The error is `Memory`.
pub(crate) fn copied_validity(
    alloc: Global,
    validity: Option<&Bitmap>,
) -> Result<Option<Bitmap>, ComputeError>
    ensures { MatchResult result (λ copy. copy ≡ option_copied validity.entry) IsMemory }
{
    match validity {
        Some(bits) => {
            let copy = bits.clone_bitmap(alloc)?;
            Ok(Some(copy))
        }
        None => Ok(None),
    }
}

/// Returns an array with the count for each row, as `count` counts bits. Null rows stay null. The
/// error is `Memory`.
pub fn count_bits_by_row<T: NativeType, C: BitCount<T>>(
    alloc: Global,
    count: &C,
    array: &PrimitiveArray<T>,
) -> Result<PrimitiveArray<u32>, ComputeError>
    ensures { MatchResult result
        (AreCounts C.amount (bit_len T.width) (number_rows T.value array.now)) IsMemory }
{
    let counts = count_each(alloc, count, array.values())?;
    let validity = copied_validity(alloc, array.validity())?;
    Ok(PrimitiveArray::from_vec(counts).with_validity(validity))
}
