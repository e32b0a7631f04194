//! Distinct values of arrays of truth values.

ghost use Rattle.std.specs.Prelude.{◌≡◌, ◌+◌, ◌++◌, ◌<◌, ◌≤◌, cond, count_by, [], ◌∷◌, pos, true};
ghost use Rattle.std.specs.Prelude.{false, length, replicate, Some, None, if◌then◌else◌, IsTrue};
ghost use Rattle.std.specs.Prelude.{MatchResult};
ghost use Rattle.polars_arrays_bits.specs.Errors.{IsMemory};
ghost use Rattle.polars_arrays_flat.specs.ArrayRows.{truth_rows};
ghost use Rattle.polars_compute_slots.specs.State.{any_null, appended, holds, is_value, new_state};
ghost use Rattle.polars_compute_slots.specs.State.{truth_numbers};
ghost use Rattle.polars_compute_unique.specs.Truths.{seen_bits};

use crate::kernel::{GenericUniqueKernel, RangedUniqueKernel};
use polars_arrays_bits::bitmap::Bitmap;
use polars_arrays_bits::builder::BitmapBuilder;
use polars_arrays_bits::error::ComputeError;
use polars_arrays_flat::array::Array;
use polars_arrays_flat::boolean::BooleanArray;
use polars_compute_slots::listing::last_masked;
use std::alloc::Global;
use std::marker::Model;

/// A state that records whether `false`, `true` and null were seen in arrays of truth values.
#[derive(Drop)]
pub struct BooleanUniqueKernelState {
    seen_false: bool,
    seen_true: bool,
    seen_null: bool,
}

impl Model for BooleanUniqueKernelState {
    ghost use Rattle.std.specs.Prelude.{[], ◌∷◌, pos};
    ghost use Rattle.polars_compute_slots.specs.State.{State};

    ghost Value = { State };

    ghost view = { λ s. record
        { values = (pos 0, s.seen_false) ∷ (pos 1, s.seen_true) ∷ []; has_null = s.seen_null } };
}

// The distinct rows of an array: whether it has rows that are false, true and null.
#[derive(Drop)]
struct Held {
    falses: bool,
    trues: bool,
    nulls: bool,
}

// Returns the number of rows that are present and true. Counts 64 rows at a time.
fn true_rows(array: &BooleanArray) -> usize
    ensures { result ≡ count_by (is_value (pos 1)) (truth_rows array.now) }
{
    match array.validity() {
        Some(validity) => array.values().num_intersections_with(validity),
        None => array.values().set_bits(),
    }
}

// Returns whether an array has rows that are false, true and null.
fn held_by(array: &BooleanArray) -> Held
    ensures falses { result.falses ≡ holds (truth_rows array.now) (pos 0) }
    ensures trues { result.trues ≡ holds (truth_rows array.now) (pos 1) }
    ensures nulls { result.nulls ≡ any_null (truth_rows array.now) }
{
    // Has no effect at run time. The proof learns from it that the validity has a bit for each row.
    let _validity = array.validity();
    let nulls = array.null_count();
    let trues = true_rows(array);
    Held {
        falses: trues < array.len() - nulls,
        trues: 0 < trues,
        nulls: 0 < nulls,
    }
}

impl BooleanUniqueKernelState {
    /// Creates a state that has seen no row.
    pub fn new() -> BooleanUniqueKernelState
        ensures { result ≡ new_state truth_numbers }
    {
        BooleanUniqueKernelState {
            seen_false: false,
            seen_true: false,
            seen_null: false,
        }
    }
}

impl Default for BooleanUniqueKernelState {
    ghost use Rattle.std.specs.Prelude.{◌≡◌};
    ghost use Rattle.polars_compute_slots.specs.State.{new_state, truth_numbers};

    ghost is_default = { λ s. s ≡ new_state truth_numbers };

    fn default() -> BooleanUniqueKernelState {
        BooleanUniqueKernelState::new()
    }
}

// Pushes `value` if `seen` is true. The builder must have spare capacity.
fn push_seen(values: &mut BitmapBuilder, seen: bool, value: bool)
    requires { 0 < values.old.room }
    ensures bits { values.new.bits ≡ values.old.bits ++ cond seen (value ∷ []) [] }
    ensures room { values.old.room ≤ values.new.room + 1 }
{
    if seen {
        values.push_reserved(value);
    }
}

// Returns the values of the array that `finalize_unique` returns: the truth values that were seen,
// `false` before `true`, and then `false` in the slot of the null, if a null was seen. The error is
// `Memory`.
fn seen_values(alloc: Global, state: &BooleanUniqueKernelState) -> Result<Bitmap, ComputeError>
    ensures { MatchResult result (λ bits. bits ≡ seen_bits state.now) IsMemory }
{
    let mut values = BitmapBuilder::with_capacity(alloc, 3)?;
    push_seen(&mut values, state.seen_false, false);
    push_seen(&mut values, state.seen_true, true);
    push_seen(&mut values, state.seen_null, false);
    Ok(values.freeze())
}

// Returns the validity of `present` truth values and a last null, or `None` if no null was seen.
// The error is `Memory`.
fn seen_validity(
    alloc: Global,
    present: usize,
    seen_null: bool,
) -> Result<Option<Bitmap>, ComputeError>
    requires { present ≤ 2 }
    ensures { MatchResult result
        (λ validity. validity
        ≡ (if seen_null then Some (replicate present true ++ false ∷ []) else None)) IsMemory }
{
    if seen_null {
        let bits = last_masked(alloc, present)?;
        Ok(Some(bits))
    } else {
        Ok(None)
    }
}

impl RangedUniqueKernel for BooleanUniqueKernelState {
    ghost use Rattle.std.specs.Prelude.{true, None};
    ghost use Rattle.polars_arrays_flat.specs.ArrayRows.{truth_rows};
    ghost use Rattle.polars_compute_slots.specs.State.{truth_row};

    type Array = BooleanArray;

    ghost state = { λ s. s };

    ghost read = { λ s. s };

    ghost dictionary = { λ s. None };

    ghost fed = { truth_rows };

    ghost is_taken = { λ a. true };

    ghost array_dictionary = { λ a. None };

    ghost value_row = { truth_row };

    fn has_seen_all(&self) -> bool {
        self.seen_false && self.seen_true && self.seen_null
    }

    fn accepts(&self, _array: &BooleanArray) -> bool {
        // Has no effect at run time, here and in `same_range`. The proof learns from it the range
        // of the state.
        let _ = &self.seen_null;
        true
    }

    fn same_range(&self, other: &BooleanUniqueKernelState) -> bool {
        let _ = &self.seen_null;
        let _ = &other.seen_null;
        true
    }

    fn append(&mut self, array: &BooleanArray) {
        let held = held_by(array);
        self.seen_false |= held.falses;
        self.seen_true |= held.trues;
        self.seen_null |= held.nulls;
    }

    fn append_state(&mut self, other: &BooleanUniqueKernelState) {
        self.seen_false |= other.seen_false;
        self.seen_true |= other.seen_true;
        self.seen_null |= other.seen_null;
    }

    fn finalize_unique(self, alloc: Global) -> Result<BooleanArray, ComputeError> {
        let present = self.finalize_n_unique_non_null();
        let values = seen_values(alloc, &self)?;
        let validity = seen_validity(alloc, present, self.seen_null)?;
        let Ok(array) = BooleanArray::try_new(values, validity) else {
            unreachable!();
        };
        Ok(array)
    }

    fn finalize_n_unique(&self) -> usize {
        self.finalize_n_unique_non_null() + usize::from(self.seen_null)
    }

    fn finalize_n_unique_non_null(&self) -> usize {
        usize::from(self.seen_false) + usize::from(self.seen_true)
    }
}

// Returns a new state to which only this array was appended.
fn state_of(array: &BooleanArray) -> BooleanUniqueKernelState
    ensures { result ≡ appended (truth_rows array.now) (new_state truth_numbers) }
{
    let mut state = BooleanUniqueKernelState::new();
    state.append(array);
    state
}

impl GenericUniqueKernel for BooleanArray {
    ghost use Rattle.polars_arrays_flat.specs.ArrayRows.{truth_rows};
    ghost use Rattle.polars_compute_slots.specs.State.{truth_numbers, truth_row};

    ghost rows = { truth_rows };

    ghost range = { truth_numbers };

    ghost value_row = { truth_row };

    fn unique(&self, alloc: Global) -> Result<BooleanArray, ComputeError> {
        let unique = state_of(self).finalize_unique(alloc)?;
        Ok(unique)
    }

    fn n_unique(&self) -> usize {
        state_of(self).finalize_n_unique()
    }

    fn n_unique_non_null(&self) -> usize {
        state_of(self).finalize_n_unique_non_null()
    }
}
