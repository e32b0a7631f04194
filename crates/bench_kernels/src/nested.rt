//! Comparisons of nested arrays, in which two null rows are equal.

ghost use Rattle.polars_arrays_nested.specs.GoodParts.{IsGood};
ghost use Rattle.polars_arrays_nested.specs.Lengths.{len_of};
ghost use Rattle.polars_arrays_nested.specs.Types.{type_of};
ghost use Rattle.std.specs.Prelude.{◌≡◌};

use crate::bit_of;
use crate::nested_operands::{NestedType, Parts, boxed, nested_array};
use polars_arrays_bits::error::ComputeError;
use polars_arrays_nested::any_array::AnyArray;
use polars_compare_nested::kernels::array_tot_eq_missing_kernel;
use std::alloc::Global;

/// A kernel on two nested arrays.
#[derive(Clone, Copy)]
enum NestedKernel {
    TotEqMissing,
}

// Runs a kernel on two arrays, and returns bit `i` of its result as `bit_of` does.
#[inline(always)]
fn run_nested(
    alloc: Global,
    kernel: NestedKernel,
    left: &AnyArray,
    right: &AnyArray,
    i: usize,
) -> u64
    requires good_left { IsGood left.now }
    requires good_right { IsGood right.now }
    requires one_type { type_of left.now ≡ type_of right.now }
    requires one_length { len_of left.now ≡ len_of right.now }
{
    let made = match kernel {
        NestedKernel::TotEqMissing => array_tot_eq_missing_kernel(alloc, left, right),
    };
    bit_of(made, i)
}

// Runs a kernel `repeats` times, on two arrays and on clones of them in turn, and returns the
// checksum. The error is `Unsupported` if the types or the lengths of the arrays differ. Any other
// error is `Memory`.
#[inline(always)]
fn repeat_nested(
    alloc: Global,
    kernel: NestedKernel,
    left: &AnyArray,
    right: &AnyArray,
    repeats: usize,
) -> Result<u64, ComputeError>
    requires good_left { IsGood left.now }
    requires good_right { IsGood right.now }
{
    if !left.same_type(right) || left.len() != right.len() {
        return Err(ComputeError::Unsupported);
    }
    let left_clone = boxed(alloc, left.clone_array(alloc))?;
    let right_clone = boxed(alloc, right.clone_array(alloc))?;
    let mut checksum: u64 = 0;
    for round in 0..repeats {
        let number = if round % 2 == 0 {
            run_nested(alloc, kernel, left, right, round / 2)
        } else {
            run_nested(alloc, kernel, &left_clone, &right_clone, round / 2)
        };
        checksum = checksum.wrapping_mul(31).wrapping_add(number);
    }
    Ok(checksum)
}

// Creates arrays of type `nested_type` from `left` and `right`, runs the kernel with the number
// `kernel` on them `repeats` times, and returns the checksum. The error is `Unsupported` if there
// is no such kernel, or if the arrays cannot be created or compared. Any other error is `Memory`.
fn time_nested(
    alloc: Global,
    left: &Parts,
    right: &Parts,
    kernel: u32,
    nested_type: NestedType,
    repeats: usize,
) -> Result<u64, ComputeError> {
    let left = nested_array(alloc, nested_type, left)?;
    let right = nested_array(alloc, nested_type, right)?;
    by_number!(
        kernel,
        NestedKernel: TotEqMissing,
        |chosen| repeat_nested(alloc, chosen, &left, &right, repeats),
        Err(ComputeError::Unsupported)
    )
}

/// Runs a kernel on two nested arrays. `nested_type` is a number of `NestedType`, which describes
/// how an array is made of `size` and of its offsets, items, words of a validity (`present`) and
/// bytes.
#[unsafe(no_mangle)]
pub extern "C" fn polars_time_nested(
    alloc: Global,
    left_offsets: &[i32],
    right_offsets: &[i32],
    left_items: &[i32],
    right_items: &[i32],
    left_present: &[u64],
    right_present: &[u64],
    left_bytes: &[u8],
    right_bytes: &[u8],
    kernel: u32,
    nested_type: u32,
    size: usize,
    repeats: usize,
) -> u64 {
    let left = Parts {
        size,
        offsets: left_offsets,
        items: left_items,
        present: left_present,
        bytes: left_bytes,
    };
    let right = Parts {
        size,
        offsets: right_offsets,
        items: right_items,
        present: right_present,
        bytes: right_bytes,
    };
    let chosen = by_number!(
        nested_type,
        NestedType: Lists FixedLists Structs Dictionaries DeepLists TextLists,
        |it| Some(it),
        None
    );
    match chosen {
        Some(it) => time_nested(alloc, &left, &right, kernel, it, repeats).unwrap_or(0),
        None => 0,
    }
}
