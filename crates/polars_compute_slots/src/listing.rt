//! Counts the values whose slots are set, and lists them in an array.

ghost use Rattle.std.specs.Prelude.{◌≡◌, ◌↔◌, ◌+◌, ◌++◌, ◌<◌, ◌≤ℤ◌, ◌<ℤ◌, ◌^◌, ℤ, pos, cond, []};
ghost use Rattle.std.specs.Prelude.{◌∷◌, true, false, length, map, replicate, vec_len};
ghost use Rattle.std.specs.Prelude.{vec_capacity, IfOk, IsTrue, MatchOption, MatchResult, All};
ghost use Rattle.polars_arrays_bits.specs.Errors.{IsMemory};
ghost use Rattle.polars_arrays_flat.specs.ArrayRows.{number_rows};
ghost use Rattle.polars_arrays_flat.specs.Row.{Int, Null, Row};
ghost use Rattle.polars_arrays_flat.specs.StoredRows.{number_slots};
ghost use Rattle.polars_compute_slots.specs.Slots.{AreNumbers, slot_state};
ghost use Rattle.polars_compute_slots.specs.State.{IsLeastFrom, all_seen, finalised, set_of};

use crate::number::UniqueNumber;
use crate::slots::Slots;
use crate::span::Span;
use polars_arrays_bits::bitmap::Bitmap;
use polars_arrays_bits::builder::BitmapBuilder;
use polars_arrays_bits::error::ComputeError;
use polars_arrays_flat::primitive::PrimitiveArray;
use std::alloc::{AllocError, Global};

/// Returns whether the slots of all `count` values and the slot of null are set.
pub fn all_set<S: Slots>(slots: &S, count: usize) -> bool
    requires { length (S.set_slots slots.now) ≡ count + 1 }
    ensures { (least : ℤ) → result ≡ all_seen (slot_state least count (S.set_slots slots.now)) }
{
    slots.count_values(count) == count && slots.is_set(count)
}

/// Returns the number of values whose slots are set, not counting null. There are `count` values.
pub fn count_set<S: Slots>(slots: &S, count: usize) -> usize
    requires { length (S.set_slots slots.now) ≡ count + 1 }
    ensures { (least : ℤ) → result
        ≡ length (set_of (slot_state least count (S.set_slots slots.now))) }
{
    slots.count_values(count)
}

/// Returns the number of slots that are set, including that of null. There are `count` values
/// besides null.
pub fn count_finalised<S: Slots>(slots: &S, count: usize) -> usize
    requires size { length (S.set_slots slots.now) ≡ count + 1 }
    requires few { count + 1 < 2 ^ 64 }
    ensures { (least : ℤ) (put : ℤ → Row) → result
        ≡ length (finalised put (slot_state least count (S.set_slots slots.now))) }
{
    slots.count_values(count) + usize::from(slots.is_set(count))
}

// Pushes `number` if `in_set` is true. The vector must have spare capacity, since it does not grow.
pub(crate) fn push_if<T: UniqueNumber>(numbers: &mut Vec<T>, in_set: bool, number: T)
    requires { vec_len numbers.old < vec_capacity numbers.old }
    ensures items { numbers.new.items ≡ numbers.old.items ++ cond in_set (number ∷ []) [] }
    ensures room { vec_capacity numbers.new ≡ vec_capacity numbers.old }
{
    if in_set {
        numbers.push_reserved(number);
    }
}

// Returns a vector of the numbers of the range whose slots are set, ascending. It has spare
// capacity for one more number.
fn list_numbers<T: UniqueNumber, S: Slots>(
    alloc: Global,
    slots: &S,
    span: &Span<T>,
) -> Result<Vec<T>, AllocError>
    requires size { length (S.set_slots slots.now) ≡ span.now.count + 1 }
    requires numbers { AreNumbers T.low T.high (T.value span.now.least) span.now.count }
    ensures numbers { IfOk result
        (λ numbers. number_slots T.value numbers.items
        ≡ map Int
        (set_of (slot_state (T.value span.now.least) span.now.count (S.set_slots slots.now)))) }
    ensures room { IfOk result (λ numbers. vec_len numbers < vec_capacity numbers) }
{
    let room = slots.count_values(span.count) + 1;
    let mut numbers = Vec::with_capacity(alloc, room)?;
    for i in 0..span.count {
        push_if(&mut numbers, slots.is_set(i), span.number(i));
    }
    Ok(numbers)
}

/// Creates a bitmap of `n` true bits and a last bit that is false. The error is `Memory`.
pub fn last_masked(alloc: Global, n: usize) -> Result<Bitmap, ComputeError>
    requires { n + 1 < 2 ^ 64 }
    ensures { MatchResult result (λ bits. bits ≡ replicate n true ++ false ∷ []) IsMemory }
{
    let mut bits = BitmapBuilder::with_capacity(alloc, n + 1)?;
    bits.extend_constant(n, true);
    bits.push_reserved(false);
    Ok(bits.freeze())
}

// Returns an array of `numbers` and of a last row that is null. The null row stores 0. `numbers`
// must have spare capacity. The error is `Memory`.
pub(crate) fn with_null<T: UniqueNumber>(
    alloc: Global,
    numbers: Vec<T>,
) -> Result<PrimitiveArray<T>, ComputeError>
    requires { vec_len numbers < vec_capacity numbers }
    ensures { MatchResult result
        (λ array. number_rows T.value array ≡ number_slots T.value numbers.items ++ Null ∷ [])
        IsMemory }
{
    let validity = last_masked(alloc, numbers.len())?;
    let mut numbers = numbers;
    numbers.push_reserved(T::zero());
    Ok(PrimitiveArray::from_vec(numbers).with_validity(Some(validity)))
}

/// Returns an array of the numbers of the range whose slots are set, ascending. A null is the last
/// row if the slot of null is set. The error is `Memory`.
pub fn list_seen<T: UniqueNumber, S: Slots>(
    alloc: Global,
    slots: &S,
    span: &Span<T>,
) -> Result<PrimitiveArray<T>, ComputeError>
    requires size { length (S.set_slots slots.now) ≡ span.now.count + 1 }
    requires numbers { AreNumbers T.low T.high (T.value span.now.least) span.now.count }
    ensures { MatchResult result
        (λ array. number_rows T.value array
        ≡ finalised Int
        (slot_state (T.value span.now.least) span.now.count (S.set_slots slots.now))) IsMemory }
{
    let numbers = list_numbers(alloc, slots, span)?;
    if slots.is_set(span.count) {
        let array = with_null(alloc, numbers)?;
        Ok(array)
    } else {
        Ok(PrimitiveArray::from_vec(numbers))
    }
}

// Returns whether `in_set` is true and `number` is at least `bound`.
fn is_from<T: UniqueNumber>(in_set: bool, number: T, bound: i128) -> bool
    ensures { IsTrue result ↔ (IsTrue in_set × (bound ≤ℤ T.value number)) }
{
    in_set && number.whole() >= bound
}

/// Returns the least number of the range that is at least `bound` and whose slot is set, or `None`
/// if there is no such number.
pub fn least_from<T: UniqueNumber, S: Slots>(slots: &S, span: &Span<T>, bound: i128) -> Option<T>
    requires size { length (S.set_slots slots.now) ≡ span.now.count + 1 }
    requires numbers { AreNumbers T.low T.high (T.value span.now.least) span.now.count }
    ensures { MatchOption result
        (All (λ v. v <ℤ bound)
        (set_of (slot_state (T.value span.now.least) span.now.count (S.set_slots slots.now))))
        (λ x. IsLeastFrom bound
        (set_of (slot_state (T.value span.now.least) span.now.count (S.set_slots slots.now)))
        (T.value x)) }
{
    for i in 0..span.count {
        let number = span.number(i);
        if is_from(slots.is_set(i), number, bound) {
            return Some(number);
        }
    }
    None
}
