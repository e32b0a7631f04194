//! Counts and lists the values whose slots are set, if some values of the range mean null. For
//! example, the values are keys of a dictionary, and the key of a null entry means null.

ghost use Rattle.std.specs.Prelude.{◌≡◌, ◌+◌, ◌<◌, ◌≤◌, ◌^◌, ◌&&◌, ◌||◌, ℤ, Bool, false, cond, not};
ghost use Rattle.std.specs.Prelude.{length, map, vec_len, vec_capacity, IfOk, MatchResult};
ghost use Rattle.polars_arrays_bits.specs.Errors.{IsMemory};
ghost use Rattle.polars_arrays_flat.specs.ArrayRows.{number_rows};
ghost use Rattle.polars_arrays_flat.specs.Row.{Int};
ghost use Rattle.polars_arrays_flat.specs.StoredRows.{number_slots};
ghost use Rattle.polars_compute_slots.specs.Slots.{AreNumbers, IsCounted, slot_state};
ghost use Rattle.polars_compute_slots.specs.State.{finalised, read_by, set_of};

use crate::listing::{list_seen, push_if, with_null};
use crate::number::UniqueNumber;
use crate::slots::Slots;
use crate::span::Span;
use polars_arrays_bits::error::ComputeError;
use polars_arrays_flat::primitive::PrimitiveArray;
use std::alloc::{AllocError, Global};

/// The values of a range that mean null.
pub trait NullValues {
    // Condition under which the methods may be called.
    ghost good: { Self → Type 0 };

    // True for the values that mean null.
    ghost is_null: { Self → ℤ → Bool };

    /// Returns whether some value may mean null. If the result is `false`, no value means null.
    fn may_be_null(&self) -> bool
        requires { good self.now }
        ensures { result ≡ false → (value : ℤ) → is_null self.now value ≡ false };

    /// Returns whether the value means null.
    fn stands_for_null(&self, value: i128) -> bool
        requires { good self.now }
        ensures { result ≡ is_null self.now value };
}

/// The counts of a state in which some values mean null. `values` is the number of values of the
/// range that don't mean null, and `seen` the number of these that were seen. `has_null` says that
/// a null was seen, or a value that means null.
#[derive(Clone, Copy, Drop)]
pub struct ReadCounts {
    pub values: usize,
    pub seen: usize,
    pub has_null: bool,
}

impl ReadCounts {
    // Counts one value of the range. `is_null` says that it means null, and `is_seen` that its slot
    // is set.
    fn add(&mut self, is_null: bool, is_seen: bool)
        requires values { self.old.values + 1 < 2 ^ 64 }
        requires seen { self.old.seen + 1 < 2 ^ 64 }
        ensures values { self.new.values ≡ self.old.values + cond (not is_null) 1 0 }
        ensures seen { self.new.seen ≡ self.old.seen + cond (is_seen && not is_null) 1 0 }
        ensures has_null { self.new.has_null ≡ (self.old.has_null || (is_seen && is_null)) }
    {
        self.values += usize::from(!is_null);
        self.seen += usize::from(is_seen & !is_null);
        self.has_null |= is_seen & is_null;
    }
}

// Returns the counts of a state in which no value means null. The range has `count` values, and the
// last slot is that of null.
fn whole_counts<S: Slots>(slots: &S, count: usize) -> ReadCounts
    requires { length (S.set_slots slots.now) ≡ count + 1 }
    ensures counted { (least : ℤ)
        → IsCounted (slot_state least count (S.set_slots slots.now)) result }
    ensures few { result.seen ≤ count }
{
    ReadCounts {
        values: count,
        seen: slots.count_values(count),
        has_null: slots.is_set(count),
    }
}

/// Returns how many values of the range don't mean null, how many of these were seen, and whether a
/// null was seen, or a value that means null. `nulls` says which values mean null.
pub fn read_counts<T: UniqueNumber, S: Slots, N: NullValues>(
    slots: &S,
    span: &Span<T>,
    nulls: &N,
) -> ReadCounts
    requires good { N.good nulls.now }
    requires size { length (S.set_slots slots.now) ≡ span.now.count + 1 }
    requires numbers { AreNumbers T.low T.high (T.value span.now.least) span.now.count }
    ensures counted { IsCounted
        (read_by (N.is_null nulls.now)
        (slot_state (T.value span.now.least) span.now.count (S.set_slots slots.now))) result }
    ensures few { result.seen + 1 < 2 ^ 64 }
{
    if !nulls.may_be_null() {
        return whole_counts(slots, span.count);
    }
    let mut counts = ReadCounts {
        values: 0,
        seen: 0,
        has_null: slots.is_set(span.count),
    };
    for i in 0..span.count {
        let is_null = nulls.stands_for_null(span.number(i).whole());
        let is_seen = slots.is_set(i);
        counts.add(is_null, is_seen);
    }
    counts
}

// Returns a vector of the values that were seen and don't mean null, ascending. It is allocated
// with capacity `room`, which must be greater than the number of these values.
fn list_values<T: UniqueNumber, S: Slots, N: NullValues>(
    alloc: Global,
    slots: &S,
    span: &Span<T>,
    nulls: &N,
    room: usize,
) -> Result<Vec<T>, AllocError>
    requires good { N.good nulls.now }
    requires size { length (S.set_slots slots.now) ≡ span.now.count + 1 }
    requires numbers { AreNumbers T.low T.high (T.value span.now.least) span.now.count }
    requires room { length (set_of
        (read_by (N.is_null nulls.now)
        (slot_state (T.value span.now.least) span.now.count (S.set_slots slots.now)))) < room }
    ensures numbers { IfOk result
        (λ numbers. number_slots T.value numbers.items
        ≡ map Int
        (set_of (read_by (N.is_null nulls.now)
        (slot_state (T.value span.now.least) span.now.count (S.set_slots slots.now))))) }
    ensures room { IfOk result (λ numbers. vec_len numbers < vec_capacity numbers) }
{
    let mut numbers = Vec::with_capacity(alloc, room)?;
    for i in 0..span.count {
        let number = span.number(i);
        let is_null = nulls.stands_for_null(number.whole());
        let is_seen = slots.is_set(i);
        push_if(&mut numbers, is_seen & !is_null, number);
    }
    Ok(numbers)
}

/// Returns an array of the values that were seen and don't mean null by `nulls`, ascending. A null
/// is the last row if a null was seen, or a value that means null. The error is `Memory`.
pub fn list_read<T: UniqueNumber, S: Slots, N: NullValues>(
    alloc: Global,
    slots: &S,
    span: &Span<T>,
    nulls: &N,
) -> Result<PrimitiveArray<T>, ComputeError>
    requires good { N.good nulls.now }
    requires size { length (S.set_slots slots.now) ≡ span.now.count + 1 }
    requires numbers { AreNumbers T.low T.high (T.value span.now.least) span.now.count }
    ensures { MatchResult result
        (λ array. number_rows T.value array
        ≡ finalised Int
        (read_by (N.is_null nulls.now)
        (slot_state (T.value span.now.least) span.now.count (S.set_slots slots.now)))) IsMemory }
{
    if !nulls.may_be_null() {
        return list_seen(alloc, slots, span);
    }
    let counts = read_counts(slots, span, nulls);
    let numbers = list_values(alloc, slots, span, nulls, counts.seen + 1)?;
    if counts.has_null {
        let array = with_null(alloc, numbers)?;
        Ok(array)
    } else {
        Ok(PrimitiveArray::from_vec(numbers))
    }
}
