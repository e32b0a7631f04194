//! Buffers of one repeated element.

ghost use Rattle.std.specs.Prelude.{◌≡◌, length, replicate, true, IsOk, IsTrue, MatchResult};
ghost use Rattle.polars_arrays_bits.specs.Errors.{IsMemory};

use polars_arrays_bits::buffer::Buffer;
use polars_arrays_bits::error::ComputeError;
use std::alloc::Global;

// Creates a buffer of `len` elements that are all `value`. The error is `Memory`.
pub(crate) fn repeated<T: Copy>(
    alloc: Global,
    value: T,
    len: usize,
) -> Result<Buffer<T>, ComputeError>
    ensures { MatchResult result
        (λ buffer. buffer ≡ record { items = replicate len value; owned = true }) IsMemory }
{
    let mut elements = Vec::with_capacity(alloc, len)?;
    for _ in 0..len {
        elements.push_reserved(value);
    }
    Ok(Buffer::from_vec(elements))
}

// Replaces each element of a buffer by `value`. Overwrites the elements if the buffer owns its
// memory, and then always succeeds. Otherwise creates a buffer of the same length; the error is
// `Memory`.
pub(crate) fn filled<T: Copy>(
    alloc: Global,
    mut buffer: Buffer<T>,
    value: T,
) -> Result<Buffer<T>, ComputeError>
    ensures filled { MatchResult result
        (λ filled. filled ≡ record { items = replicate (length buffer.items) value; owned = true })
        IsMemory }
    ensures in_place { IsTrue buffer.owned → IsOk result }
{
    if !buffer.is_owned() {
        return repeated(alloc, value, buffer.len());
    }
    overwrite(buffer.as_mut_slice(), value);
    Ok(buffer)
}

// Sets each element to `value`.
fn overwrite<T: Copy>(elements: &mut [T], value: T)
    ensures { elements.new ≡ replicate (length elements.old) value }
{
    for element in elements.iter_mut() {
        *element = value;
    }
}
