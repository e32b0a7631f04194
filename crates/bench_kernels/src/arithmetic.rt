//! Arithmetic on arrays of numbers, in place in an array that owns its values, or into new ones.

ghost use Rattle.std.specs.Prelude.{◌≡◌, length};
ghost use Rattle.polars_arrays_flat.specs.StoredRows.{number_slots};

use crate::operands::{NumberType, number_array, or_unsupported, two_arrays, windows};
use crate::reductions::validity_from;
use num_traits::AsPrimitive;
use polars_arrays_bits::bitmap::Bitmap;
use polars_arrays_bits::buffer::Buffer;
use polars_arrays_bits::error::ComputeError;
use polars_arrays_flat::array::Array;
use polars_arrays_flat::primitive::PrimitiveArray;
use polars_arrays_numbers::native_type::NativeType;
use polars_compute_arithmetic::arithmetic::{ArithmeticKernel, HasPrimitiveArithmeticKernel};
use std::alloc::Global;

/// The number that stands for a missing result: a null row, a row that does not exist, or a kernel
/// that failed or found nothing.
pub(crate) const NO_NUMBER: u64 = 0x5555_5555_5555_5555;

/// An operation on two arrays.
#[derive(Clone, Copy)]
pub(crate) enum PairOperation {
    Add,
    Sub,
    Mul,
    FloorDiv,
    TruncDiv,
    Mod,
}

/// An operation on one array, or on one array and a number for all rows.
#[derive(Clone, Copy)]
pub(crate) enum LoneOperation {
    Abs,
    Neg,
    Add,
    Sub,
    Mul,
    FloorDiv,
    TruncDiv,
    Mod,
}

/// The second operand of an operation. The operation consumes its first operand, an array.
trait Beside<T: NativeType> {
    /// The type of operations that have such a second operand.
    type Operation: Copy;

    /// Runs an operation once, on `array` and this operand, and returns the resulting array. The
    /// error is `Unsupported` if this operand is an array of another length. Any other error is
    /// that of the operation.
    fn run(
        &self,
        alloc: Global,
        operation: Self::Operation,
        array: PrimitiveArray<T>,
    ) -> Result<PrimitiveArray<T>, ComputeError>;
}

// An array as the second operand. Each run gets a clone of it, which shares its values.
impl<T: HasPrimitiveArithmeticKernel> Beside<T> for PrimitiveArray<T> {
    type Operation = PairOperation;

    #[inline(always)]
    fn run(
        &self,
        alloc: Global,
        operation: PairOperation,
        array: PrimitiveArray<T>,
    ) -> Result<PrimitiveArray<T>, ComputeError> {
        if array.len() != self.len() {
            drop(array);
            return Err(ComputeError::Unsupported);
        }
        match self.clone_array(alloc) {
            Ok(right) => run_pair(alloc, operation, array, right),
            Err(refused) => {
                drop(array);
                Err(refused)
            }
        }
    }
}

// Runs an operation on two arrays of equal length, and returns the resulting array. If the
// operation fails, returns its error.
#[inline(always)]
fn run_pair<T: HasPrimitiveArithmeticKernel>(
    alloc: Global,
    operation: PairOperation,
    left: PrimitiveArray<T>,
    right: PrimitiveArray<T>,
) -> Result<PrimitiveArray<T>, ComputeError>
    requires { length (number_slots T.value left.values)
        ≡ length (number_slots T.value right.values) }
{
    match operation {
        PairOperation::Add => left.wrapping_add(alloc, right),
        PairOperation::Sub => left.wrapping_sub(alloc, right),
        PairOperation::Mul => left.wrapping_mul(alloc, right),
        PairOperation::FloorDiv => left.wrapping_floor_div(alloc, right),
        PairOperation::TruncDiv => left.wrapping_trunc_div(alloc, right),
        PairOperation::Mod => left.wrapping_mod(alloc, right),
    }
}

/// A number for all rows, as the second operand. `Abs` and `Neg` do not use it.
#[derive(Drop)]
struct Scalar<T: NativeType> {
    number: T,
}

impl<T: HasPrimitiveArithmeticKernel> Beside<T> for Scalar<T> {
    type Operation = LoneOperation;

    #[inline(always)]
    fn run(
        &self,
        alloc: Global,
        operation: LoneOperation,
        array: PrimitiveArray<T>,
    ) -> Result<PrimitiveArray<T>, ComputeError> {
        let number = self.number;
        match operation {
            LoneOperation::Abs => array.wrapping_abs(alloc),
            LoneOperation::Neg => array.wrapping_neg(alloc),
            LoneOperation::Add => array.wrapping_add_scalar(alloc, number),
            LoneOperation::Sub => array.wrapping_sub_scalar(alloc, number),
            LoneOperation::Mul => array.wrapping_mul_scalar(alloc, number),
            LoneOperation::FloorDiv => array.wrapping_floor_div_scalar(alloc, number),
            LoneOperation::TruncDiv => array.wrapping_trunc_div_scalar(alloc, number),
            LoneOperation::Mod => array.wrapping_mod_scalar(alloc, number),
        }
    }
}

/// Returns the number in row `i` of `array`, converted to `u64`, or `NO_NUMBER` if the row is null
/// or does not exist.
#[inline(always)]
pub(crate) fn row_of<T: NativeType + AsPrimitive<u64>>(array: &PrimitiveArray<T>, i: usize) -> u64 {
    let present = match array.validity() {
        Some(bits) => bits.get(i).unwrap_or(false),
        None => true,
    };
    match array.values().get(i) {
        Some(value) if present => value.as_(),
        _ => NO_NUMBER,
    }
}

// Returns a copy of `array` that owns its values. The error is `Memory`.
fn owned_copy<T: NativeType>(
    alloc: Global,
    array: &PrimitiveArray<T>,
) -> Result<PrimitiveArray<T>, ComputeError> {
    let mut copy = array.clone_array(alloc)?;
    let validity = copy.take_validity();
    drop(copy);
    let values = Vec::from_slice(alloc, array.values())?;
    or_unsupported(PrimitiveArray::try_new(Buffer::from_vec(values), validity))
}

// Runs an operation `repeats` times, and returns the checksum. The first run gets a copy of `array`
// that owns its values, and each later run the result of the run before. If a run or the copying
// fails, returns the error.
#[inline(always)]
fn repeat_in_place<T: NativeType + AsPrimitive<u64>, B: Beside<T>>(
    alloc: Global,
    operation: B::Operation,
    array: &PrimitiveArray<T>,
    beside: &B,
    repeats: usize,
) -> Result<u64, ComputeError> {
    let mut array = owned_copy(alloc, array)?;
    let mut checksum: u64 = 0;
    for round in 0..repeats {
        array = beside.run(alloc, operation, array)?;
        checksum = checksum
            .wrapping_mul(31)
            .wrapping_add(row_of(&array, round));
    }
    drop(array);
    Ok(checksum)
}

// Runs an operation `repeats` times, and returns the checksum. Each run gets a new clone of
// `array`, which shares its values, so that no run can write its result into them. If a run or the
// cloning fails, returns the error.
#[inline(always)]
fn repeat_anew<T: NativeType + AsPrimitive<u64>, B: Beside<T>>(
    alloc: Global,
    operation: B::Operation,
    array: &PrimitiveArray<T>,
    beside: &B,
    repeats: usize,
) -> Result<u64, ComputeError> {
    let mut checksum: u64 = 0;
    for round in 0..repeats {
        let made = beside.run(alloc, operation, array.clone_array(alloc)?)?;
        checksum = checksum.wrapping_mul(31).wrapping_add(row_of(&made, round));
        drop(made);
    }
    Ok(checksum)
}

// Runs an operation `repeats` times on `array` and `beside`, and returns the checksum. If
// `in_place` is true, each run gets the result of the run before, and otherwise a clone of `array`.
// The checksum is 0 if a run fails.
#[inline(always)]
fn repeat<T: NativeType + AsPrimitive<u64>, B: Beside<T>>(
    alloc: Global,
    operation: B::Operation,
    (array, beside): (&PrimitiveArray<T>, &B),
    in_place: bool,
    repeats: usize,
) -> u64 {
    let checksum = if in_place {
        repeat_in_place(alloc, operation, array, beside, repeats)
    } else {
        repeat_anew(alloc, operation, array, beside, repeats)
    };
    checksum.unwrap_or(0)
}

// Creates two bitmaps of `len` bits from a copy of `words`. The first begins at bit 0, and the
// second 64 bits later. Returns `None` for both if `words` is empty. The error is `Unsupported` if
// `words` is too short for the second one. Any other error is `Memory`.
fn validities(
    alloc: Global,
    words: &[u64],
    len: usize,
) -> Result<(Option<Bitmap>, Option<Bitmap>), ComputeError> {
    if words.is_empty() {
        return Ok((None, None));
    }
    let (early, late) = windows(alloc, words, 0, len)?;
    Ok((Some(early), Some(late)))
}

// Creates two arrays of `left` and `right`, converted to `T`. The validity of the left array begins
// at bit 0 of `words`, and that of the right one 64 bits later. If `words` is empty, the arrays
// have no validity. The error is `Unsupported` if `words` is too short, or if it is not empty and
// the lengths differ. Any other error is `Memory`.
fn pair_of<T: NativeType>(
    alloc: Global,
    left: &[i64],
    right: &[i64],
    words: &[u64],
) -> Result<(PrimitiveArray<T>, PrimitiveArray<T>), ComputeError>
where
    i64: AsPrimitive<T>,
{
    two_arrays(alloc, left, right, validities(alloc, words, left.len())?)
}

// Creates an array of `values`, converted to `T`. The first bits of `words` are its validity. If
// `words` is empty, the array has no validity. The error is `Unsupported` if `words` is not empty
// and has fewer than 64 bits after those of the validity. Any other error is `Memory`.
fn array_of<T: NativeType>(
    alloc: Global,
    values: &[i64],
    words: &[u64],
) -> Result<PrimitiveArray<T>, ComputeError>
where
    i64: AsPrimitive<T>,
{
    number_array(alloc, values, validity_from(alloc, words, 0, values.len())?)
}

// Runs the `PairOperation` with the number `operation` on two arrays as `repeat` does, and returns
// the checksum, or 0 if there is no such operation.
fn choose_pairs<T: HasPrimitiveArithmeticKernel + AsPrimitive<u64>>(
    alloc: Global,
    operands: (&PrimitiveArray<T>, &PrimitiveArray<T>),
    operation: u32,
    in_place: bool,
    repeats: usize,
) -> u64 {
    by_number!(
        operation,
        PairOperation: Add Sub Mul FloorDiv TruncDiv Mod,
        |chosen| repeat(alloc, chosen, operands, in_place, repeats),
        0
    )
}

// Runs the `LoneOperation` with the number `operation` on an array and a scalar as `repeat` does,
// and returns the checksum, or 0 if there is no such operation.
fn choose_lone<T: HasPrimitiveArithmeticKernel + AsPrimitive<u64>>(
    alloc: Global,
    operands: (&PrimitiveArray<T>, &Scalar<T>),
    operation: u32,
    in_place: bool,
    repeats: usize,
) -> u64 {
    by_number!(
        operation,
        LoneOperation: Abs Neg Add Sub Mul FloorDiv TruncDiv Mod,
        |chosen| repeat(alloc, chosen, operands, in_place, repeats),
        0
    )
}

// Creates two arrays of type `T` as `pair_of` does, runs the operation with the number `operation`
// on them, and returns the checksum. If the arrays cannot be created, returns the error of
// `pair_of`.
fn time_pairs<T: HasPrimitiveArithmeticKernel + AsPrimitive<u64>>(
    alloc: Global,
    left: &[i64],
    right: &[i64],
    words: &[u64],
    operation: u32,
    in_place: bool,
    repeats: usize,
) -> Result<u64, ComputeError>
where
    i64: AsPrimitive<T>,
{
    let arrays = pair_of::<T>(alloc, left, right, words)?;
    let operands = (&arrays.0, &arrays.1);
    let checksum = choose_pairs(alloc, operands, operation, in_place, repeats);
    drop(arrays);
    Ok(checksum)
}

// Creates an array of type `T` as `array_of` does, runs the operation with the number `operation`
// on it and on `scalar`, and returns the checksum. If the array cannot be created, returns the
// error of `array_of`.
fn time_lone<T: HasPrimitiveArithmeticKernel + AsPrimitive<u64>>(
    alloc: Global,
    values: &[i64],
    words: &[u64],
    scalar: i64,
    operation: u32,
    in_place: bool,
    repeats: usize,
) -> Result<u64, ComputeError>
where
    i64: AsPrimitive<T>,
{
    let array = array_of::<T>(alloc, values, words)?;
    let number = scalar.as_();
    let operands = (&array, &Scalar { number });
    let checksum = choose_lone(alloc, operands, operation, in_place, repeats);
    drop(array);
    Ok(checksum)
}

/// Runs an operation on arrays of `left` and `right`, converted to the type with the number
/// `number_type` by truncation or extension. The validity of the left array begins at bit 0 of
/// `words`, and that of the right one 64 bits later. If `words` is empty, no row is null. If
/// `in_place` is true, the left array owns its values, and each later run gets the result of the
/// run before as its left array. The values of the right array are shared.
#[unsafe(no_mangle)]
pub extern "C" fn polars_time_pairs(
    alloc: Global,
    left: &[i64],
    right: &[i64],
    words: &[u64],
    operation: u32,
    number_type: u32,
    in_place: bool,
    repeats: usize,
) -> u64 {
    let checksum = at_integer_type!(
        number_type,
        time_pairs(alloc, left, right, words, operation, in_place, repeats)
    );
    checksum.unwrap_or(0)
}

/// Runs an operation on an array of `values`, and on `scalar` if the operation needs a number. Both
/// are converted to the type with the number `number_type` by truncation or extension. The validity
/// begins at bit 0 of `words`. If `words` is empty, no row is null. If `in_place` is true, the
/// array owns its values, and each later run gets the result of the run before as its array.
#[unsafe(no_mangle)]
pub extern "C" fn polars_time_lone(
    alloc: Global,
    values: &[i64],
    words: &[u64],
    scalar: i64,
    operation: u32,
    number_type: u32,
    in_place: bool,
    repeats: usize,
) -> u64 {
    let checksum = at_integer_type!(
        number_type,
        time_lone(alloc, values, words, scalar, operation, in_place, repeats)
    );
    checksum.unwrap_or(0)
}
