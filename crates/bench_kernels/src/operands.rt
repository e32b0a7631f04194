//! Operands of the kernels, created once for many runs.

ghost use Rattle.std.specs.Prelude.{◌≡◌, ◌++◌, ◌∷◌, [], length, IfOk, IsOkAnd, Ok};
ghost use Rattle.polars_arrays_flat.specs.StoredRows.{number_slots, truth_slots};

use num_traits::AsPrimitive;
use polars_arrays_bits::bitmap::Bitmap;
use polars_arrays_bits::buffer::Buffer;
use polars_arrays_bits::error::{ArrayError, ComputeError};
use polars_arrays_flat::array::Array;
use polars_arrays_flat::boolean::BooleanArray;
use polars_arrays_flat::primitive::PrimitiveArray;
use polars_arrays_numbers::native_type::NativeType;
use polars_compare_equality::kernel::TotalEqKernel;
use std::alloc::{AllocError, Global};

/// The distance between the beginnings of the two windows of one operand, in bits.
const STRIDE: usize = 64;

/// A type of numbers. Entry points take its discriminant as a parameter.
pub(crate) enum NumberType {
    I8,
    I32,
    I64,
    I128,
    I16,
    U8,
    U16,
    U32,
    U64,
}

/// Two slices of numbers of equal length, and a number with which kernels compare the left slice.
#[derive(Drop)]
pub(crate) struct Slices<'a, T: NativeType> {
    pub(crate) left: &'a [T],
    pub(crate) right: &'a [T],
    pub(crate) scalar: &'a T,
    ghost one_length: { length right.now ≡ length left.now },
}

/// Three bitmaps of equal length.
#[derive(Drop)]
pub(crate) struct Bitmaps {
    pub(crate) first: Bitmap,
    pub(crate) second: Bitmap,
    pub(crate) third: Bitmap,
    ghost second_long: { length second ≡ length first },
    ghost third_long: { length third ≡ length first },
}

/// Two arrays of numbers of equal length, and a number with which kernels compare the left array.
#[derive(Drop)]
pub(crate) struct Numbers<'a, T: NativeType> {
    pub(crate) left: &'a PrimitiveArray<T>,
    pub(crate) right: &'a PrimitiveArray<T>,
    pub(crate) scalar: &'a T,
    ghost comparable: { length left.now.values ≡ length right.now.values },
    ghost as_long: { length (number_slots T.value right.now.values)
        ≡ length (number_slots T.value left.now.values) },
}

/// Two arrays of truth values of equal length.
#[derive(Drop)]
pub(crate) struct Truths {
    pub(crate) left: BooleanArray,
    pub(crate) right: BooleanArray,
    ghost comparable: { length left.values ≡ length right.values },
    ghost as_long: { length (truth_slots right.values) ≡ length (truth_slots left.values) },
}

/// Copies a slice into a shared buffer. The error is `Memory`.
pub(crate) fn shared<T: Copy>(alloc: Global, elements: &[T]) -> Result<Buffer<T>, ComputeError>
    ensures { IfOk result (λ buffer. buffer.items ≡ elements.now) }
{
    Buffer::from_vec(Vec::from_slice(alloc, elements)?).share(alloc)
}

/// Returns the array of `made`. If `made` is an error, the error is `Unsupported`.
pub(crate) fn or_unsupported<A: Drop>(made: Result<A, ArrayError>) -> Result<A, ComputeError>
    ensures { IfOk result (λ a. made ≡ Ok a) }
{
    match made {
        Ok(array) => Ok(array),
        Err(_) => Err(ComputeError::Unsupported),
    }
}

/// Returns both values. If `first` is an error, returns it, and else the error of `second`, if
/// there is one.
pub(crate) fn both<A: Drop, B: Drop>(
    first: Result<A, ComputeError>,
    second: Result<B, ComputeError>,
) -> Result<(A, B), ComputeError> {
    let first = first?;
    let second = second?;
    Ok((first, second))
}

/// Appends the value of `made` to `items`. If `made` is an error, returns it and appends nothing.
pub(crate) fn push<T: Drop>(
    items: &mut Vec<T>,
    made: Result<T, ComputeError>,
) -> Result<(), ComputeError>
    ensures { IfOk result (λ _. IsOkAnd made (λ x. items.new.items ≡ items.old.items ++ x ∷ [])) }
{
    items.push(made?)?;
    Ok(())
}

/// Creates two bitmaps of `len` bits from a copy of `words`. The first begins at bit `at`, and the
/// second 64 bits later. The error is `Unsupported` if `words` is too short for the second one. Any
/// other error is `Memory`.
pub(crate) fn windows(
    alloc: Global,
    words: &[u64],
    at: usize,
    len: usize,
) -> Result<(Bitmap, Bitmap), ComputeError>
    ensures { IfOk result (λ pair. (length pair.0 ≡ len) × (length pair.1 ≡ len)) }
{
    let end = at.saturating_add(len).saturating_add(STRIDE);
    if end == usize::MAX || words.len() < end.div_ceil(64) {
        return Err(ComputeError::Unsupported);
    }
    let words = shared(alloc, words)?;
    let same = words.clone_buffer(alloc)?;
    let early = Bitmap::from_words(words, at, len);
    let late = Bitmap::from_words(same, at + STRIDE, len);
    Ok((early, late))
}

/// Creates two triples of bitmaps of `len` bits. The bitmaps of the first triple begin at bit
/// `shift` of a copy of `first`, at bit `2 * shift` of a copy of `second`, and at bit `3 * shift`
/// of a copy of `third`. Those of the second triple begin 64 bits later. The error is `Unsupported`
/// if a slice is too short for its later bitmap. Any other error is `Memory`.
pub(crate) fn in_two_places(
    alloc: Global,
    first: &[u64],
    second: &[u64],
    third: &[u64],
    shift: usize,
    len: usize,
) -> Result<(Bitmaps, Bitmaps), ComputeError> {
    let (first, later_first) = windows(alloc, first, shift, len)?;
    let (second, later_second) = windows(alloc, second, shift.saturating_mul(2), len)?;
    let (third, later_third) = windows(alloc, third, shift.saturating_mul(3), len)?;
    Ok((
        Bitmaps {
            first,
            second,
            third,
        },
        Bitmaps {
            first: later_first,
            second: later_second,
            third: later_third,
        },
    ))
}

/// Converts `values` to the type `T`, by truncation or extension.
pub(crate) fn converted<C: AsPrimitive<T>, T: NativeType>(
    alloc: Global,
    values: &[C],
) -> Result<Vec<T>, AllocError> {
    let mut made = Vec::with_capacity(alloc, values.len())?;
    for value in values {
        made.push(value.as_())?;
    }
    Ok(made)
}

// Converts `values` to the type `T`, and returns them as a shared buffer.
fn shared_numbers<C: AsPrimitive<T>, T: NativeType>(
    alloc: Global,
    values: &[C],
) -> Result<Buffer<T>, ComputeError> {
    Buffer::from_vec(converted(alloc, values)?).share(alloc)
}

/// Creates an array of `values`, converted to the type `T`. Clones of the array share its values.
/// The error is `Unsupported` if `validity` has another length than `values`. Any other error is
/// `Memory`.
pub(crate) fn number_array<C: AsPrimitive<T>, T: NativeType>(
    alloc: Global,
    values: &[C],
    validity: Option<Bitmap>,
) -> Result<PrimitiveArray<T>, ComputeError> {
    let values = shared_numbers(alloc, values)?;
    or_unsupported(PrimitiveArray::try_new(values, validity))
}

/// Creates an array of `left` with the validity `early`, and one of `right` with the validity
/// `late`. The numbers are converted to the type `T`. The error is `Unsupported` if a validity has
/// another length than its slice. Any other error is `Memory`.
pub(crate) fn two_arrays<T: NativeType>(
    alloc: Global,
    left: &[i64],
    right: &[i64],
    (early, late): (Option<Bitmap>, Option<Bitmap>),
) -> Result<(PrimitiveArray<T>, PrimitiveArray<T>), ComputeError>
where
    i64: AsPrimitive<T>,
{
    let left = number_array(alloc, left, early);
    both(left, number_array(alloc, right, late))
}

/// Returns operands with these two arrays and this scalar. The error is `Unsupported` if the arrays
/// cannot be compared, or their lengths differ.
pub(crate) fn comparable_numbers<'a, T: NativeType>(
    left: &'a PrimitiveArray<T>,
    right: &'a PrimitiveArray<T>,
    scalar: &'a T,
) -> Result<Numbers<'a, T>, ComputeError> {
    if !left.can_compare(right) || right.len() != left.len() {
        return Err(ComputeError::Unsupported);
    }
    Ok(Numbers {
        left,
        right,
        scalar,
    })
}

// Creates operands: two arrays whose values are `left` and `right`, without validities. The error
// is `Unsupported` if the lengths differ.
fn comparable_truths(left: Bitmap, right: Bitmap) -> Result<Truths, ComputeError> {
    let left = or_unsupported(BooleanArray::try_new(left, None))?;
    let right = or_unsupported(BooleanArray::try_new(right, None))?;
    if !left.can_compare(&right) || right.len() != left.len() {
        return Err(ComputeError::Unsupported);
    }
    Ok(Truths { left, right })
}

// Creates two operands: one with the arrays `left` and `right`, and one with the arrays
// `later_left` and `later_right`. The error is `Unsupported` if the two lengths in a pair differ.
fn two_truths(
    (left, later_left): (Bitmap, Bitmap),
    (right, later_right): (Bitmap, Bitmap),
) -> Result<(Truths, Truths), ComputeError> {
    let later = comparable_truths(later_left, later_right)?;
    let early = comparable_truths(left, right)?;
    Ok((early, later))
}

/// Creates two pairs of arrays of `len` truth values. The values of the first pair begin at bit
/// `shift` of a copy of `left`, and at bit `2 * shift` of a copy of `right`. Those of the second
/// pair begin 64 bits later. The error is `Unsupported` if a slice is too short for its later
/// array. Any other error is `Memory`.
pub(crate) fn truths_in_two_places(
    alloc: Global,
    left: &[u64],
    right: &[u64],
    shift: usize,
    len: usize,
) -> Result<(Truths, Truths), ComputeError> {
    let left = windows(alloc, left, shift, len)?;
    let right = windows(alloc, right, shift.saturating_mul(2), len)?;
    two_truths(left, right)
}
