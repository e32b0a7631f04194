//! Functions applied to the stored values of arrays. They are called on the values of null rows,
//! too.

ghost use Rattle.std.specs.Prelude.{◌≡◌, All, IfOk, IsFalse, IsOk, IsTrue, MatchResult, length};
ghost use Rattle.std.specs.List.{AllZip};
ghost use Rattle.polars_arrays_bits.specs.Errors.{IsMemory};
ghost use Rattle.polars_compute_arithmetic.specs.Maps.{AllPairs, AsLong, MapsEach, MapsPairs};
ghost use Rattle.polars_compute_arithmetic.specs.Maps.{TakesPairs, joined_validity};

use polars_arrays_bits::bitmap::Bitmap;
use polars_arrays_bits::error::ComputeError;
use polars_arrays_flat::primitive::PrimitiveArray;
use polars_arrays_numbers::native_type::NativeType;
use std::alloc::{AllocError, Global};

// Returns a new vector of the results of `op` for the values, in order.
fn map_values<I: Copy, O: Copy, F: Fn(I) -> O>(
    alloc: Global,
    values: &[I],
    op: F,
) -> Result<Vec<O>, AllocError>
    requires { All (F.pre op) values.now }
    ensures { IfOk result (λ mapped. AllZip (F.post op) values.now mapped.items) }
{
    let mut mapped = Vec::with_capacity(alloc, values.len())?;
    for value in values {
        mapped.push_reserved(op(*value));
    }
    Ok(mapped)
}

// Replaces each value by the result of `op` for it.
fn map_in_place<T: Copy, F: Fn(T) -> T>(values: &mut [T], op: F)
    requires { All (F.pre op) values.old }
    ensures { AllZip (F.post op) values.old values.new }
{
    for value in values.iter_mut() {
        *value = op(*value);
    }
}

/// Returns a new array of the results of `op` for all stored values, also those of null rows. Null
/// rows stay null. The result owns its values. The error is `Memory`.
pub fn prim_unary_values<I: NativeType, O: NativeType, F: Fn(I) -> O>(
    alloc: Global,
    arr: PrimitiveArray<I>,
    op: F,
) -> Result<PrimitiveArray<O>, ComputeError>
    requires callable { All (F.pre op) arr.values }
    ensures mapped { MatchResult result (MapsEach (F.post op) arr) IsMemory }
    ensures owned { IfOk result (λ answer. IsTrue answer.owned) }
{
    let mut arr = arr;
    let answers = new_values(alloc, &mut arr, op);
    drop(arr);
    answers
}

// Returns a new array of the results of `op` for all stored values of `arr`. Moves the validity of
// `arr` to the new array. The error is `Memory`.
fn new_values<I: NativeType, O: NativeType, F: Fn(I) -> O>(
    alloc: Global,
    arr: &mut PrimitiveArray<I>,
    op: F,
) -> Result<PrimitiveArray<O>, ComputeError>
    requires callable { All (F.pre op) arr.old.values }
    ensures mapped { MatchResult result (MapsEach (F.post op) arr.old) IsMemory }
    ensures owned { IfOk result (λ answer. IsTrue answer.owned) }
{
    let values = map_values(alloc, arr.values(), op)?;
    Ok(PrimitiveArray::from_vec(values).with_validity(arr.take_validity()))
}

/// Applies `op` to each stored value, also those of null rows. If the array owns its values, the
/// results overwrite them, and the call neither allocates nor fails. If the array shares its
/// values, they stay unchanged and new ones are allocated; the error is then `Memory`. Null rows
/// stay null. The result owns its values.
pub fn prim_unary_in_place<T: NativeType, F: Fn(T) -> T>(
    alloc: Global,
    arr: PrimitiveArray<T>,
    op: F,
) -> Result<PrimitiveArray<T>, ComputeError>
    requires callable { All (F.pre op) arr.values }
    ensures mapped { MatchResult result (MapsEach (F.post op) arr) IsMemory }
    ensures owned { IfOk result (λ answer. IsTrue answer.owned) }
    ensures in_place { IsTrue arr.owned → IsOk result }
{
    let mut arr = arr;
    if !arr.is_owned() {
        return prim_unary_values(alloc, arr, op);
    }
    map_in_place(arr.as_mut_values(), op);
    Ok(arr)
}

// Returns a new vector of the results of `op` for the two values at each index. The slices have
// equal lengths.
fn map_pairs<L: Copy, R: Copy, O: Copy, F: Fn(L, R) -> O>(
    alloc: Global,
    left: &[L],
    right: &[R],
    op: F,
) -> Result<Vec<O>, AllocError>
    requires same_length { length left.now ≡ length right.now }
    requires callable { TakesPairs (F.pre op) left.now right.now }
    ensures { IfOk result (λ mapped. AllPairs (F.post op) left.now right.now mapped.items) }
{
    let mut mapped = Vec::with_capacity(alloc, left.len())?;
    for i in 0..left.len() {
        mapped.push_reserved(op(left[i], right[i]));
    }
    Ok(mapped)
}

// Replaces `left[i]` by `op(left[i], right[i])` at each index `i`. The slices have equal lengths.
fn map_over_left<T: Copy, R: Copy, F: Fn(T, R) -> T>(left: &mut [T], right: &[R], op: F)
    requires same_length { length left.old ≡ length right.now }
    requires callable { TakesPairs (F.pre op) left.old right.now }
    ensures { AllPairs (F.post op) left.old right.now left.new }
{
    for i in 0..left.len() {
        left[i] = op(left[i], right[i]);
    }
}

// Replaces `right[i]` by `op(left[i], right[i])` at each index `i`. The slices have equal lengths.
fn map_over_right<L: Copy, T: Copy, F: Fn(L, T) -> T>(left: &[L], right: &mut [T], op: F)
    requires same_length { length left.now ≡ length right.old }
    requires callable { TakesPairs (F.pre op) left.now right.old }
    ensures { AllPairs (F.post op) left.now right.old right.new }
{
    for i in 0..right.len() {
        right[i] = op(left[i], right[i]);
    }
}

/// Combines two validities: a row of the result is present if it is present in both. A validity of
/// `None` means that all rows are present. The error is `Memory`.
pub(crate) fn join_validities(
    alloc: Global,
    left: Option<Bitmap>,
    right: Option<Bitmap>,
) -> Result<Option<Bitmap>, ComputeError>
    requires { AsLong left right }
    ensures { MatchResult result (λ joined. joined ≡ joined_validity left right) IsMemory }
{
    match (left, right) {
        (Some(left), Some(right)) => {
            let joined = left.and(alloc, &right);
            drop(left);
            drop(right);
            Ok(Some(joined?))
        }
        (None, right) => Ok(right),
        (left, None) => Ok(left),
    }
}

/// Returns a new array of the results of `op` for the two stored values at each index, also those
/// of null rows. The arrays have equal lengths. A row of the result is null if it is null in either
/// array. The result owns its values. The error is `Memory`.
pub fn prim_binary_values<L: NativeType, R: NativeType, O: NativeType, F: Fn(L, R) -> O>(
    alloc: Global,
    lhs: PrimitiveArray<L>,
    rhs: PrimitiveArray<R>,
    op: F,
) -> Result<PrimitiveArray<O>, ComputeError>
    requires same_length { length lhs.values ≡ length rhs.values }
    requires callable { TakesPairs (F.pre op) lhs.values rhs.values }
    ensures mapped { MatchResult result (MapsPairs (F.post op) lhs rhs) IsMemory }
    ensures owned { IfOk result (λ answer. IsTrue answer.owned) }
{
    let (mut lhs, mut rhs) = (lhs, rhs);
    let answers = new_pairs(alloc, &mut lhs, &mut rhs, op);
    drop(lhs);
    drop(rhs);
    answers
}

// Returns a new array of the results of `op` for the two stored values at each index. Takes the
// validities out of both arrays, and combines them. The error is `Memory`.
fn new_pairs<L: NativeType, R: NativeType, O: NativeType, F: Fn(L, R) -> O>(
    alloc: Global,
    lhs: &mut PrimitiveArray<L>,
    rhs: &mut PrimitiveArray<R>,
    op: F,
) -> Result<PrimitiveArray<O>, ComputeError>
    requires same_length { length lhs.old.values ≡ length rhs.old.values }
    requires callable { TakesPairs (F.pre op) lhs.old.values rhs.old.values }
    ensures mapped { MatchResult result (MapsPairs (F.post op) lhs.old rhs.old) IsMemory }
    ensures owned { IfOk result (λ answer. IsTrue answer.owned) }
{
    let values = map_pairs(alloc, lhs.values(), rhs.values(), op)?;
    let validity = join_validities(alloc, lhs.take_validity(), rhs.take_validity())?;
    Ok(PrimitiveArray::from_vec(values).with_validity(validity))
}

/// Applies `op` to the two stored values at each index, also those of null rows. The arrays have
/// equal lengths. The results overwrite the values of `lhs` if it owns them, or else those of `rhs`
/// if it owns them. If both share their values, new ones are allocated. A row of the result is null
/// if it is null in either array. The result owns its values. The error is `Memory`.
pub fn prim_binary_in_place<T: NativeType, F: Fn(T, T) -> T>(
    alloc: Global,
    lhs: PrimitiveArray<T>,
    rhs: PrimitiveArray<T>,
    op: F,
) -> Result<PrimitiveArray<T>, ComputeError>
    requires same_length { length lhs.values ≡ length rhs.values }
    requires callable { TakesPairs (F.pre op) lhs.values rhs.values }
    ensures mapped { MatchResult result (MapsPairs (F.post op) lhs rhs) IsMemory }
    ensures owned { IfOk result (λ answer. IsTrue answer.owned) }
{
    let (mut lhs, mut rhs) = (lhs, rhs);
    if !lhs.is_owned() && !rhs.is_owned() {
        return prim_binary_values(alloc, lhs, rhs, op);
    }
    match join_validities(alloc, lhs.take_validity(), rhs.take_validity()) {
        Ok(validity) => Ok(written_pairs(lhs, rhs, op).with_validity(validity)),
        Err(error) => {
            drop(lhs);
            drop(rhs);
            Err(error)
        }
    }
}

// Applies `op` to the two stored values at each index. The results overwrite the values of `lhs` if
// it owns them, otherwise those of `rhs`, which must then own them. Returns the overwritten array.
fn written_pairs<T: NativeType, F: Fn(T, T) -> T>(
    lhs: PrimitiveArray<T>,
    rhs: PrimitiveArray<T>,
    op: F,
) -> PrimitiveArray<T>
    requires owned { IsFalse lhs.owned → IsTrue rhs.owned }
    requires same_length { length lhs.values ≡ length rhs.values }
    requires callable { TakesPairs (F.pre op) lhs.values rhs.values }
    ensures mapped { AllPairs (F.post op) lhs.values rhs.values result.values }
    ensures owned { IsTrue result.owned }
{
    let (mut lhs, mut rhs) = (lhs, rhs);
    if lhs.is_owned() {
        map_over_left(lhs.as_mut_values(), rhs.values(), op);
        drop(rhs);
        lhs
    } else {
        map_over_right(lhs.values(), rhs.as_mut_values(), op);
        drop(lhs);
        rhs
    }
}
