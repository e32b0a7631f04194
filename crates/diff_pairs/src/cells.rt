//! Borrowed arrays of cells, and their conversion to Arrow arrays.

ghost use Rattle.std.specs.Prelude.{◌≡◌, ◌++◌, None, false, true, IfOk, MatchResult};
ghost use Rattle.polars_arrays_bits.specs.Errors.{IsMemory};
ghost use Rattle.polars_arrays_bytes.specs.OffsetStrings.{offset_strings};
ghost use Rattle.diff_pairs.specs.Cells.{AreWhole, are_far, strings_of};
ghost use Rattle.diff_pairs.specs.Held.{HoldsCells};

use polars_arrays_bits::buffer::Buffer;
use polars_arrays_bits::error::ComputeError;
use polars_arrays_bytes::binary::BinaryArray;
use polars_arrays_nested::any_array::AnyArray;
use std::alloc::{AllocError, Global};

/// Borrowed byte strings, the cells of a table. No string is null: the array must have no validity.
#[derive(Clone, Copy)]
pub enum LentCells<'a> {
    /// An array with 32-bit offsets, and the buffer of its bytes, which the array shares.
    Near(&'a BinaryArray<i32>, &'a Buffer<u8>),
    /// An array with 64-bit offsets.
    Far(&'a BinaryArray<i64>),
}

/// Returns the offsets `near`, widened to 64 bits, followed by `far`.
pub fn all_offsets(alloc: Global, near: &[i32], far: &[i64]) -> Result<Vec<i64>, AllocError>
    ensures { IfOk result (λ ends. ends.items ≡ near.now ++ far.now) }
{
    let mut ends = Vec::with_capacity(alloc, near.len().saturating_add(far.len()))?;
    for end in near {
        ends.push(i64::from(*end))?;
    }
    ends.extend_from_slice(far)?;
    Ok(ends)
}

/// Clones `array`, which must have no validity. Returns the clone as `AnyArray::Binary`. The only
/// error is `Memory`.
fn near_array(alloc: Global, array: &BinaryArray<i32>) -> Result<AnyArray, ComputeError>
    requires { array.now.validity ≡ None }
    ensures { MatchResult result (HoldsCells false (offset_strings (λ x. x) array.now)) IsMemory }
{
    let copy = array.clone_array(alloc)?;
    Ok(AnyArray::Binary(copy))
}

/// Clones `array`, which must have no validity. Returns the clone as `AnyArray::LargeBinary`. The
/// only error is `Memory`.
fn far_array(alloc: Global, array: &BinaryArray<i64>) -> Result<AnyArray, ComputeError>
    requires { array.now.validity ≡ None }
    ensures { MatchResult result (HoldsCells true (offset_strings (λ x. x) array.now)) IsMemory }
{
    let copy = array.clone_array(alloc)?;
    Ok(AnyArray::LargeBinary(copy))
}

/// Returns the strings of `array` as an array with 64-bit offsets. `bytes` is the buffer with the
/// bytes of `array`. If this buffer is shared, no bytes are copied. The only error is `Memory`.
fn widened(
    alloc: Global,
    array: &BinaryArray<i32>,
    bytes: &Buffer<u8>,
) -> Result<AnyArray, ComputeError>
    requires { bytes.now.items ≡ array.now.values }
    ensures { MatchResult result (HoldsCells true (offset_strings (λ x. x) array.now)) IsMemory }
{
    let ends = all_offsets(alloc, array.offsets(), &[])?;
    let offsets = Buffer::from_vec(ends);
    let values = bytes.clone_buffer(alloc)?;
    match BinaryArray::try_new(offsets, values, None) {
        Ok(wide) => Ok(AnyArray::LargeBinary(wide)),
        Err(_) => unreachable!(),
    }
}

/// Returns whether the offsets of `cells` have 64 bits.
pub(crate) fn are_far(cells: LentCells<'_>) -> bool
    ensures { result ≡ are_far cells.entry }
{
    match cells {
        LentCells::Near(_, _) => false,
        LentCells::Far(_) => true,
    }
}

/// Returns an array of the byte strings of `cells`, with 64-bit offsets if `wide` is true and else
/// with 32-bit offsets. `wide` must be true if `cells` has 64-bit offsets. Bytes in a shared buffer
/// are not copied. The only error is `Memory`.
pub(crate) fn cell_array(
    alloc: Global,
    cells: LentCells<'_>,
    wide: bool,
) -> Result<AnyArray, ComputeError>
    requires whole { AreWhole cells }
    requires wide { are_far cells ≡ true → wide ≡ true }
    ensures { MatchResult result (HoldsCells wide (strings_of cells.entry)) IsMemory }
{
    match cells {
        LentCells::Near(array, bytes) => {
            if wide {
                return widened(alloc, array, bytes);
            }
            near_array(alloc, array)
        }
        LentCells::Far(array) => far_array(alloc, array),
    }
}
