//! Arrays of byte strings, texts and views as operands, created once for many runs.

ghost use Rattle.std.specs.Prelude.{◌≡◌, length};

use crate::operands::{or_unsupported, push, shared};
use polars_arrays_bits::bitmap::Bitmap;
use polars_arrays_bits::buffer::Buffer;
use polars_arrays_bits::error::ComputeError;
use polars_arrays_bytes::fixed_size::FixedSizeBinaryArray;
use polars_arrays_bytes::text::Utf8Array;
use polars_arrays_flat::byte_rows::ByteRows;
use polars_arrays_views::binary_view::BinaryViewArray;
use polars_arrays_views::view::View;
use std::alloc::Global;

/// The number of bytes of strings of one size.
const SIZE: usize = 16;

/// The parts of an array of strings. An array of views has `views`, which refer to `bytes`. One of
/// texts has `offsets` into `bytes`. One of strings of one size has only `bytes`.
#[derive(Drop)]
pub(crate) struct Parts<'a> {
    pub(crate) views: &'a [[u8; 16]],
    pub(crate) offsets: &'a [i32],
    pub(crate) bytes: &'a [u8],
}

/// Two arrays of equally many strings, and a string with which kernels compare the left array.
#[derive(Drop)]
pub(crate) struct Strings<A: ByteRows + Drop, S: Copy> {
    pub(crate) left: A,
    pub(crate) right: A,
    pub(crate) scalar: S,
    ghost comparable: { length (A.strings left) ≡ length (A.strings right) },
    ghost as_long: { length (A.slots right) ≡ length (A.slots left) },
}

// Returns operands with these two arrays and this scalar. The error is `Unsupported` if the arrays
// have different lengths.
fn comparable_strings<A: ByteRows + Drop, S: Copy>(
    left: A,
    right: A,
    scalar: S,
) -> Result<Strings<A, S>, ComputeError> {
    if left.count() != right.count() || right.len() != left.len() {
        return Err(ComputeError::Unsupported);
    }
    Ok(Strings {
        left,
        right,
        scalar,
    })
}

/// Creates operands with the arrays that `left` and `right` describe, and with `scalar`. The error
/// is `Unsupported` if these parts make no array, or if the arrays have different lengths. Any
/// other error is `Memory`.
pub(crate) fn strings_of<A: StringArray, S: Copy>(
    alloc: Global,
    left: &Parts,
    right: &Parts,
    scalar: S,
) -> Result<Strings<A, S>, ComputeError> {
    let left = A::of_parts(alloc, left)?;
    comparable_strings(left, A::of_parts(alloc, right)?, scalar)
}

/// Clones both arrays of `strings`, and returns the clones with the same scalar. The error is
/// `Memory`.
pub(crate) fn clones_of<A: StringArray, S: Copy>(
    alloc: Global,
    strings: &Strings<A, S>,
) -> Result<Strings<A, S>, ComputeError> {
    let left = strings.left.clone_strings(alloc)?;
    comparable_strings(left, strings.right.clone_strings(alloc)?, strings.scalar)
}

// Copies `views` into a shared buffer of views. The error is `Memory`.
fn shared_views(alloc: Global, views: &[[u8; 16]]) -> Result<Buffer<View>, ComputeError> {
    let mut rows = Vec::with_capacity(alloc, views.len())?;
    for view in views {
        rows.push(View::new(*view))?;
    }
    Buffer::from_vec(rows).share(alloc)
}

/// Creates an array of the texts between `offsets` in `bytes`. The error is `Unsupported` if the
/// offsets, the bytes and the validity make no array. Any other error is `Memory`.
pub(crate) fn texts(
    alloc: Global,
    offsets: &[i32],
    bytes: &[u8],
    validity: Option<Bitmap>,
) -> Result<Utf8Array<i32>, ComputeError> {
    let offsets = shared(alloc, offsets)?;
    let bytes = shared(alloc, bytes)?;
    or_unsupported(Utf8Array::try_new(offsets, bytes, validity))
}

/// A type of arrays of strings.
pub(crate) trait StringArray: ByteRows + Drop + Sized {
    /// Creates an array from copies of the parts that this type uses, without a validity. The error
    /// is `Unsupported` if they make no array. Any other error is `Memory`.
    fn of_parts(alloc: Global, parts: &Parts) -> Result<Self, ComputeError>;

    /// Clones the array. The error is `Memory`.
    fn clone_strings(&self, alloc: Global) -> Result<Self, ComputeError>;
}

// Views, with one buffer for their strings.
impl StringArray for BinaryViewArray {
    fn of_parts(alloc: Global, parts: &Parts) -> Result<BinaryViewArray, ComputeError> {
        let views = shared_views(alloc, parts.views)?;
        let mut buffers = Vec::new(alloc);
        push(&mut buffers, shared(alloc, parts.bytes))?;
        or_unsupported(BinaryViewArray::try_new(views, buffers, None))
    }

    fn clone_strings(&self, alloc: Global) -> Result<BinaryViewArray, ComputeError> {
        self.clone_array(alloc)
    }
}

// Texts between offsets.
impl StringArray for Utf8Array<i32> {
    fn of_parts(alloc: Global, parts: &Parts) -> Result<Utf8Array<i32>, ComputeError> {
        texts(alloc, parts.offsets, parts.bytes, None)
    }

    fn clone_strings(&self, alloc: Global) -> Result<Utf8Array<i32>, ComputeError> {
        self.clone_array(alloc)
    }
}

// Strings of `SIZE` bytes.
impl StringArray for FixedSizeBinaryArray {
    fn of_parts(alloc: Global, parts: &Parts) -> Result<FixedSizeBinaryArray, ComputeError> {
        let values = shared(alloc, parts.bytes)?;
        let rows = parts.bytes.len() / SIZE;
        or_unsupported(FixedSizeBinaryArray::try_new(SIZE, rows, values, None))
    }

    fn clone_strings(&self, alloc: Global) -> Result<FixedSizeBinaryArray, ComputeError> {
        self.clone_array(alloc)
    }
}
