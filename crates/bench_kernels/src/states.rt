//! States of distinct values: appending a column in chunks to a new state, and merging two states
//! into a third.

ghost use Rattle.std.specs.Prelude.{◌+◌, ◌≤◌, All, IsTrue, length};
ghost use Rattle.polars_arrays_flat.specs.ArrayRows.{number_rows};
ghost use Rattle.polars_compute_slots.specs.State.{RangeFits, are_within, new_state};
ghost use Rattle.polars_compute_slots.specs.State.{numbers_between, range_of};

use crate::operands::{number_array, push};
use crate::reductions::validity_from;
use crate::{Timed, repeat};
use polars_arrays_bits::error::ComputeError;
use polars_arrays_flat::array::Array;
use polars_arrays_flat::primitive::PrimitiveArray;
use polars_compute_slots::number::UniqueNumber;
use polars_compute_unique::kernel::RangedUniqueKernel;
use polars_compute_unique::merge::append_all;
use polars_compute_unique::primitive::{PrimitiveRangedUniqueState, range_fits};
use std::alloc::Global;

/// The number that stands for the result of a run in which no state could be created.
const NO_STATE: u64 = 0x5555_5555_5555_5555;

/// The arrays of a column in chunks, and a range, from `least` to `greatest`, in which the numbers
/// of all present rows lie. A run appends the arrays to a new state of this range.
#[derive(Drop)]
struct Chunks<'a, T: UniqueNumber> {
    arrays: &'a [PrimitiveArray<T>],
    least: T,
    greatest: T,
    ghost fits: { RangeFits (T.value least) (T.value greatest) },
    ghost within: { All (λ array. IsTrue
        (are_within (range_of (new_state (numbers_between (T.value least) (T.value greatest))))
        (number_rows T.value array))) arrays.now },
}

impl<T: UniqueNumber> Timed for Chunks<'_, T> {
    type Kernel = ();

    // Returns the number of distinct rows that the new state has seen, or `NO_STATE` if it could
    // not be created. Ignores the kernel and `i`.
    #[inline(always)]
    fn run(&self, alloc: Global, _kernel: (), _i: usize) -> u64 {
        match PrimitiveRangedUniqueState::new(alloc, self.least, self.greatest) {
            Ok(mut state) => {
                append_all(&mut state, self.arrays);
                state.finalize_n_unique() as u64
            }
            Err(_) => NO_STATE,
        }
    }
}

// Returns whether each array of `arrays` can be appended to `state`.
fn all_accepted<T: UniqueNumber>(
    state: &PrimitiveRangedUniqueState<T>,
    arrays: &[PrimitiveArray<T>],
) -> bool
    ensures { IsTrue result
        → All (λ array. IsTrue (are_within (range_of state.now) (number_rows T.value array)))
        arrays.now }
{
    for i in 0..arrays.len() {
        if !state.accepts(&arrays[i]) {
            return false;
        }
    }
    true
}

// Returns operands with `arrays` and the range from `least` to `greatest`. The error is
// `Unsupported` if no state can have this range, or if a number in a present row lies outside it.
// Any other error is `Memory`.
fn chunks_between<'a, T: UniqueNumber>(
    alloc: Global,
    arrays: &'a [PrimitiveArray<T>],
    least: T,
    greatest: T,
) -> Result<Chunks<'a, T>, ComputeError> {
    if !range_fits(least, greatest) {
        return Err(ComputeError::Unsupported);
    }
    let state = PrimitiveRangedUniqueState::new(alloc, least, greatest)?;
    let accepted = all_accepted(&state, arrays);
    drop(state);
    if !accepted {
        return Err(ComputeError::Unsupported);
    }
    Ok(Chunks {
        arrays,
        least,
        greatest,
    })
}

// Returns a clone of `array`, sliced to the `n` rows from row `at` on. The error is `Memory`.
fn part_of<T: UniqueNumber>(
    alloc: Global,
    array: &PrimitiveArray<T>,
    at: usize,
    n: usize,
) -> Result<PrimitiveArray<T>, ComputeError>
    requires { at + n ≤ length array.now.values }
{
    let mut part = array.clone_array(alloc)?;
    part.slice(at, n);
    Ok(part)
}

// Cuts `array` into chunks of `chunk` rows, and a last chunk with the rows that are left, which may
// be none. Returns an array for each chunk. The error is `Unsupported` if `chunk` is 0. Any other
// error is `Memory`.
fn cut<T: UniqueNumber>(
    alloc: Global,
    array: &PrimitiveArray<T>,
    chunk: usize,
) -> Result<Vec<PrimitiveArray<T>>, ComputeError> {
    if chunk == 0 {
        return Err(ComputeError::Unsupported);
    }
    let mut chunks = Vec::new(alloc);
    let whole = array.len() / chunk;
    for k in 0..whole {
        push(&mut chunks, part_of(alloc, array, chunk * k, chunk))?;
    }
    let at = chunk * whole;
    push(&mut chunks, part_of(alloc, array, at, array.len() - at))?;
    Ok(chunks)
}

// Cuts `array` into chunks of `chunk` rows, appends all chunks to a new state of the numbers from 0
// to `greatest`, `repeats` times, and returns the checksum. The error is `Unsupported` if `chunk`
// is 0, or if the state cannot exist or does not accept a chunk. Any other error is `Memory`.
fn time_cut(
    alloc: Global,
    array: &PrimitiveArray<i32>,
    greatest: i32,
    chunk: usize,
    repeats: usize,
) -> Result<u64, ComputeError> {
    let arrays = cut(alloc, array, chunk)?;
    let chunks = chunks_between(alloc, &arrays, 0, greatest)?;
    Ok(repeat(alloc, (), (&chunks, &chunks), repeats))
}

// Creates an array of `values`, truncated to 32 bits, and returns the checksum of `time_cut` for
// it. The validity begins at bit `shift` of `validities`. If this slice is empty, the array has no
// validity. The error is that of `time_cut`, or `Unsupported` if `validities` is too short.
fn time_chunks(
    alloc: Global,
    values: &[i64],
    validities: &[u64],
    greatest: i32,
    chunk: usize,
    shift: usize,
    repeats: usize,
) -> Result<u64, ComputeError> {
    let validity = validity_from(alloc, validities, shift, values.len())?;
    let array = number_array(alloc, values, validity)?;
    time_cut(alloc, &array, greatest, chunk, repeats)
}

/// Appends a column in chunks of `chunk` rows to a new state of the numbers from 0 to `greatest`.
/// The column has the numbers `values`, truncated to 32 bits. Its validity begins at bit `shift` of
/// `validities`. If this slice is empty, the column has no validity.
#[unsafe(no_mangle)]
pub extern "C" fn polars_time_states(
    alloc: Global,
    values: &[i64],
    validities: &[u64],
    greatest: i32,
    chunk: usize,
    shift: usize,
    repeats: usize,
) -> u64 {
    time_chunks(alloc, values, validities, greatest, chunk, shift, repeats).unwrap_or(0)
}

/// Two states, and the range, from `least` to `greatest`, of the new state into which a run merges
/// them.
#[derive(Drop)]
struct Merges<'a, T: UniqueNumber> {
    left: &'a PrimitiveRangedUniqueState<T>,
    right: &'a PrimitiveRangedUniqueState<T>,
    least: T,
    greatest: T,
    ghost fits: { RangeFits (T.value least) (T.value greatest) },
}

// Merges `other` into `state`. Does nothing if their ranges differ.
#[inline(always)]
fn merge<T: UniqueNumber>(
    state: &mut PrimitiveRangedUniqueState<T>,
    other: &PrimitiveRangedUniqueState<T>,
) {
    if state.same_range(other) {
        state.append_state(other);
    }
}

impl<T: UniqueNumber> Timed for Merges<'_, T> {
    type Kernel = ();

    // Returns the number of distinct rows that the new state has seen, or `NO_STATE` if it could
    // not be created. Ignores the kernel and `i`.
    #[inline(always)]
    fn run(&self, alloc: Global, _kernel: (), _i: usize) -> u64 {
        match PrimitiveRangedUniqueState::new(alloc, self.least, self.greatest) {
            Ok(mut state) => {
                merge(&mut state, self.left);
                merge(&mut state, self.right);
                state.finalize_n_unique() as u64
            }
            Err(_) => NO_STATE,
        }
    }
}

// Creates a state of the numbers from 0 to `greatest`, and appends `array` if the numbers of all
// present rows lie in this range. The error is `Unsupported` if no state can have the range. Any
// other error is `Memory`.
fn state_of(
    alloc: Global,
    array: &PrimitiveArray<i32>,
    greatest: i32,
) -> Result<PrimitiveRangedUniqueState<i32>, ComputeError> {
    if !range_fits(0, greatest) {
        return Err(ComputeError::Unsupported);
    }
    let mut state = PrimitiveRangedUniqueState::new(alloc, 0, greatest)?;
    if state.accepts(array) {
        state.append(array);
    }
    Ok(state)
}

// Creates a state of the numbers from 0 to `greatest`, and appends `values`, truncated to 32 bits,
// if they all lie in this range. The error is `Unsupported` if no state can have the range. Any
// other error is `Memory`.
fn gathered(
    alloc: Global,
    values: &[i64],
    greatest: i32,
) -> Result<PrimitiveRangedUniqueState<i32>, ComputeError> {
    let array = number_array(alloc, values, None)?;
    state_of(alloc, &array, greatest)
}

// Merges `left` and `right` into a new state of the numbers from 0 to `greatest`, `repeats` times,
// and returns the checksum. The error is `Unsupported` if no state can have this range.
fn time_states(
    alloc: Global,
    left: &PrimitiveRangedUniqueState<i32>,
    right: &PrimitiveRangedUniqueState<i32>,
    greatest: i32,
    repeats: usize,
) -> Result<u64, ComputeError> {
    if !range_fits(0, greatest) {
        return Err(ComputeError::Unsupported);
    }
    let merges = Merges {
        left,
        right,
        least: 0,
        greatest,
    };
    Ok(repeat(alloc, (), (&merges, &merges), repeats))
}

// Creates a state from `left` and one from `right`, merges both into a new state of the numbers
// from 0 to `greatest`, `repeats` times, and returns the checksum. The error is `Unsupported` if no
// state can have this range. Any other error is `Memory`.
fn time_merged(
    alloc: Global,
    left: &[i64],
    right: &[i64],
    greatest: i32,
    repeats: usize,
) -> Result<u64, ComputeError> {
    let left = gathered(alloc, left, greatest)?;
    let right = gathered(alloc, right, greatest)?;
    time_states(alloc, &left, &right, greatest, repeats)
}

/// Merges two states into a new one, all three of the numbers from 0 to `greatest`. One state has
/// seen the numbers `left`, and the other one `right`, truncated to 32 bits. A state is empty if
/// one of its numbers lies outside the range.
#[unsafe(no_mangle)]
pub extern "C" fn polars_time_merges(
    alloc: Global,
    left: &[i64],
    right: &[i64],
    greatest: i32,
    repeats: usize,
) -> u64 {
    time_merged(alloc, left, right, greatest, repeats).unwrap_or(0)
}
