//! Masks divisors that are 0, so that a division by them is null.

ghost use Rattle.std.specs.Prelude.{◌≡◌, length, replicate, false, Some, MatchResult};
ghost use Rattle.polars_arrays_bits.specs.Errors.{IsMemory};
ghost use Rattle.polars_arrays_flat.specs.Validity.{HasBits};
ghost use Rattle.polars_compute_arithmetic.specs.Zeros.{MasksZeros};

use crate::arity::join_validities;
use num_traits::Zero;
use polars_arrays_bits::bitmap::Bitmap;
use polars_arrays_bits::error::ComputeError;
use polars_arrays_flat::array::Array;
use polars_arrays_flat::primitive::PrimitiveArray;
use polars_arrays_numbers::native_type::NativeType;
use polars_compare_equality::kernel::TotalEqKernel;
use std::alloc::Global;

// Masks each row of `divisors` that is 0. Null rows stay null. The stored values are unchanged. The
// error is `Memory`.
pub(crate) fn mask_zeros<T: NativeType + Zero>(
    alloc: Global,
    divisors: PrimitiveArray<T>,
) -> Result<PrimitiveArray<T>, ComputeError>
    ensures { MatchResult result (MasksZeros T.value divisors) IsMemory }
{
    let mut divisors = divisors;
    match nonzero_validity(alloc, &mut divisors) {
        Ok(validity) => Ok(divisors.with_validity(validity)),
        Err(error) => {
            drop(divisors);
            Err(error)
        }
    }
}

// Returns a validity that masks the null rows of `divisors` and each row that is 0. Takes the
// existing validity out of the array, and leaves its values unchanged. The error is `Memory`.
fn nonzero_validity<T: NativeType + Zero>(
    alloc: Global,
    divisors: &mut PrimitiveArray<T>,
) -> Result<Option<Bitmap>, ComputeError>
    ensures masked { MatchResult result
        (λ validity. MasksZeros T.value divisors.old (record divisors.old { validity = validity }))
        IsMemory }
    ensures left { divisors.new.values ≡ divisors.old.values }
{
    let nonzero = divisors.tot_ne_kernel_broadcast(alloc, &T::zero())?;
    let validity = join_validities(alloc, divisors.take_validity(), Some(nonzero))?;
    Ok(validity)
}

// Returns the array with all rows null. The stored values are unchanged. The error is `Memory`.
pub(crate) fn mask_all<T: NativeType>(
    alloc: Global,
    array: PrimitiveArray<T>,
) -> Result<PrimitiveArray<T>, ComputeError>
    ensures masked { MatchResult result
        (λ masked. masked
        ≡ record array { validity = Some (replicate (length array.values) false) }) IsMemory }
    ensures bits { HasBits (length array.values) array.validity }
{
    match Bitmap::new_zeroed(alloc, array.len()) {
        Ok(none) => Ok(array.with_validity(Some(none))),
        Err(error) => {
            drop(array);
            Err(error)
        }
    }
}
