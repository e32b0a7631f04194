//! Distinct values of arrays of numbers.

ghost use Rattle.std.specs.Prelude.{◌≡◌, ◌↔◌, ◌+◌, ◌<◌, ◌≤◌, ◌^◌, ◌||◌, ◌+ℤ◌, ◌-ℤ◌, ◌<ℤ◌, ◌≤ℤ◌, []};
ghost use Rattle.std.specs.Prelude.{pos, true, false, IsOk, IsTrue, nat_le, MatchOption};
ghost use Rattle.std.specs.Prelude.{MatchResult, All, None, length, replicate};
ghost use Rattle.std.specs.Simd.Lanes.{zip2};
ghost use Rattle.polars_arrays_bits.specs.Errors.{IsMemory};
ghost use Rattle.polars_arrays_flat.specs.ArrayRows.{number_rows};
ghost use Rattle.polars_arrays_flat.specs.Row.{Int};
ghost use Rattle.polars_compute_slots.specs.Slots.{IsCounted};
ghost use Rattle.polars_compute_slots.specs.State.{IsLeastFrom, RangeFits, appended, are_within};
ghost use Rattle.polars_compute_slots.specs.State.{finalised, new_state, numbers_between, range_of};
ghost use Rattle.polars_compute_slots.specs.State.{read_by, rows_read, set_of};
ghost use Rattle.polars_compute_unique.specs.Seen.{in_word, seen_slots};

use crate::kernel::RangedUniqueKernel;
use polars_arrays_bits::error::ComputeError;
use polars_arrays_bits::mutable_bitmap::MutableBitmap;
use polars_arrays_flat::primitive::PrimitiveArray;
use polars_arrays_numbers::steps::Steps;
use polars_compute_slots::accepting::accepts_rows;
use polars_compute_slots::listing::{all_set, count_finalised, count_set, least_from, list_seen};
use polars_compute_slots::marking::mark_rows;
use polars_compute_slots::number::UniqueNumber;
use polars_compute_slots::reading::{NullValues, ReadCounts, list_read, read_counts};
use polars_compute_slots::slots::{Slots, WORD_SLOTS, WordSlots};
use polars_compute_slots::span::{Span, span_fits};
use std::alloc::Global;
use std::marker::Model;

// The slots of a state: a flag for each number of the range, and a last one for null. Up to 128 are
// stored in one word (`Few`), and more in a bitmap (`Many`).
#[derive(Drop)]
pub(crate) enum Seen {
    Few(WordSlots),
    Many(MutableBitmap),
}

// Creates `len` slots, none of them set. The error is `Memory`, and is possible only for more than
// 128 slots.
fn none_set(alloc: Global, len: usize) -> Result<Seen, ComputeError>
    ensures slots { MatchResult result (λ seen. seen_slots seen ≡ replicate len false) IsMemory }
    ensures word { MatchResult result (λ seen. in_word seen ≡ nat_le len 128) IsMemory }
    ensures few { len ≤ 128 → IsOk result }
{
    if len <= WORD_SLOTS {
        return Ok(Seen::Few(WordSlots::none_set(len)));
    }
    let slots = MutableBitmap::from_len_zeroed(alloc, len)?;
    Ok(Seen::Many(slots))
}

// Sets the slots of `seen` that are set in `other`. Both must have the same number of slots and be
// of the same variant.
fn join_seen(seen: &mut Seen, other: &Seen)
    requires size { length (seen_slots other.now) ≡ length (seen_slots seen.old) }
    requires word { in_word other.now ≡ in_word seen.old }
    ensures slots { seen_slots seen.new ≡ zip2 ◌||◌ (seen_slots seen.old) (seen_slots other.now) }
    ensures word { in_word seen.new ≡ in_word seen.old }
{
    match (seen, other) {
        (Seen::Few(slots), Seen::Few(others)) => slots.join(others),
        (Seen::Many(slots), Seen::Many(others)) => slots.join(others),
        _ => unreachable!(),
    }
}

/// A state that collects the distinct numbers of arrays, and has a slot for each number of its
/// range.
#[derive(Drop)]
pub struct PrimitiveRangedUniqueState<T: UniqueNumber> {
    span: Span<T>,
    seen: Seen,
}

impl<T: UniqueNumber> Model for PrimitiveRangedUniqueState<T> {
    ghost use Rattle.polars_compute_slots.specs.State.{State};

    ghost Value = { State };

    ghost use Rattle.polars_compute_slots.specs.Slots.{slot_state};
    ghost use Rattle.polars_compute_unique.specs.Seen.{IsKept, seen_slots};

    ghost view = { λ s. slot_state (T.value s.span.least) s.span.count (seen_slots s.seen) };

    ghost invariant = { λ s. IsKept T.low T.high (T.value s.span.least) s.span.count s.seen };
}

/// Returns whether a state of the numbers from `min_value` to `max_value` can be created: whether
/// `min_value` is at most `max_value`, and `max_value - min_value + 2` is at most `usize::MAX`.
pub fn range_fits<T: UniqueNumber>(min_value: T, max_value: T) -> bool
    ensures { IsTrue result ↔ RangeFits (T.value min_value) (T.value max_value) }
{
    span_fits(min_value, max_value)
}

impl<T: UniqueNumber> PrimitiveRangedUniqueState<T> {
    /// Creates a state with the range from `min_value` to `max_value` that has seen no row. The
    /// range must fit (`range_fits`). The error is `Memory`, and is possible only for a range of
    /// more than 127 numbers.
    pub fn new(
        alloc: Global,
        min_value: T,
        max_value: T,
    ) -> Result<PrimitiveRangedUniqueState<T>, ComputeError>
        requires { RangeFits (T.value min_value) (T.value max_value) }
        ensures state { MatchResult result
            (λ state. state ≡ new_state (numbers_between (T.value min_value) (T.value max_value)))
            IsMemory }
        ensures few { (T.value max_value -ℤ T.value min_value +ℤ pos 2) ≤ℤ pos 128 → IsOk result }
    {
        let span = Span::between(min_value, max_value);
        let seen = none_set(alloc, span.count + 1)?;
        Ok(PrimitiveRangedUniqueState { span, seen })
    }

    /// Creates a state with an empty range. It accepts only arrays whose rows are all null.
    pub fn new_empty() -> PrimitiveRangedUniqueState<T>
        ensures { result ≡ new_state [] }
    {
        PrimitiveRangedUniqueState {
            span: Span::empty(),
            seen: Seen::Few(WordSlots::none_set(1)),
        }
    }

    /// Appends an array, and adds the number of rows read to `steps`. If a row is null, all rows
    /// are read. Otherwise blocks of 512 rows are read until all numbers of the range were seen.
    pub fn append_counted(&mut self, array: &PrimitiveArray<T>, steps: &mut Steps)
        requires { IsTrue (are_within (range_of self.old) (number_rows T.value array.now)) }
        ensures state { self.new ≡ appended (number_rows T.value array.now) self.old }
        ensures read { steps.new ≡ steps.old + rows_read self.old (number_rows T.value array.now) }
    {
        let span = self.span;
        match &mut self.seen {
            Seen::Few(slots) => {
                let mut copy = slots.copied();
                mark_rows(&mut copy, &span, array, steps);
                *slots = copy;
            }
            Seen::Many(slots) => mark_rows(slots, &span, array, steps),
        }
    }

    // Counts the values of the range that don't mean null, and those of them that were seen. Also
    // returns whether a null or a value that means null was seen. `nulls` says which values mean
    // null.
    pub(crate) fn read_counts<N: NullValues>(&self, nulls: &N) -> ReadCounts
        requires { N.good nulls.now }
        ensures counted { IsCounted (read_by (N.is_null nulls.now) self.now) result }
        ensures few { result.seen + 1 < 2 ^ 64 }
    {
        match &self.seen {
            Seen::Few(slots) => read_counts(slots, &self.span, nulls),
            Seen::Many(slots) => read_counts(slots, &self.span, nulls),
        }
    }

    // Returns an array of the numbers seen that don't mean null, ascending. A null is the last row
    // if a null was seen, or a number that means null. `nulls` says which numbers mean null. The
    // error is `Memory`.
    pub(crate) fn list_read<N: NullValues>(
        &self,
        alloc: Global,
        nulls: &N,
    ) -> Result<PrimitiveArray<T>, ComputeError>
        requires { N.good nulls.now }
        ensures { MatchResult result
            (λ array. number_rows T.value array
            ≡ finalised Int (read_by (N.is_null nulls.now) self.now)) IsMemory }
    {
        match &self.seen {
            Seen::Few(slots) => list_read(alloc, slots, &self.span, nulls),
            Seen::Many(slots) => list_read(alloc, slots, &self.span, nulls),
        }
    }

    // Returns the least number seen that is at least `bound`, or `None` if there is none.
    pub(crate) fn least_from(&self, bound: i128) -> Option<T>
        ensures { MatchOption result (All (λ v. v <ℤ bound) (set_of self.now))
            (λ x. IsLeastFrom bound (set_of self.now) (T.value x)) }
    {
        match &self.seen {
            Seen::Few(slots) => least_from(slots, &self.span, bound),
            Seen::Many(slots) => least_from(slots, &self.span, bound),
        }
    }
}

impl<T: UniqueNumber> RangedUniqueKernel for PrimitiveRangedUniqueState<T> {
    ghost use Rattle.std.specs.Prelude.{true, None};
    ghost use Rattle.polars_arrays_flat.specs.ArrayRows.{number_rows};
    ghost use Rattle.polars_arrays_flat.specs.Row.{Int};

    type Array = PrimitiveArray<T>;

    ghost state = { λ s. s };

    ghost read = { λ s. s };

    ghost dictionary = { λ s. None };

    ghost fed = { λ a. number_rows T.value a };

    ghost is_taken = { λ a. true };

    ghost array_dictionary = { λ a. None };

    ghost value_row = { λ v. Int v };

    fn has_seen_all(&self) -> bool {
        match &self.seen {
            Seen::Few(slots) => all_set(slots, self.span.count),
            Seen::Many(slots) => all_set(slots, self.span.count),
        }
    }

    fn accepts(&self, array: &PrimitiveArray<T>) -> bool {
        accepts_rows(&self.span, array)
    }

    fn same_range(&self, other: &PrimitiveRangedUniqueState<T>) -> bool {
        self.span.same(&other.span)
    }

    fn append(&mut self, array: &PrimitiveArray<T>) {
        let mut steps = Steps::new();
        self.append_counted(array, &mut steps);
    }

    fn append_state(&mut self, other: &PrimitiveRangedUniqueState<T>) {
        join_seen(&mut self.seen, &other.seen);
    }

    fn finalize_unique(self, alloc: Global) -> Result<PrimitiveArray<T>, ComputeError> {
        let PrimitiveRangedUniqueState { span, seen } = self;
        match seen {
            Seen::Few(slots) => list_seen(alloc, &slots, &span),
            Seen::Many(slots) => list_seen(alloc, &slots, &span),
        }
    }

    fn finalize_n_unique(&self) -> usize {
        match &self.seen {
            Seen::Few(slots) => count_finalised(slots, self.span.count),
            Seen::Many(slots) => count_finalised(slots, self.span.count),
        }
    }

    fn finalize_n_unique_non_null(&self) -> usize {
        match &self.seen {
            Seen::Few(slots) => count_set(slots, self.span.count),
            Seen::Many(slots) => count_set(slots, self.span.count),
        }
    }
}
