//! The kinds of states, and the operations that each has for reading and writing arrays.

use crate::numbers::{RecordedNumber, rows_in};
use polars_arrays_bits::bitmap::Bitmap;
use polars_arrays_flat::array::Array;
use polars_arrays_flat::boolean::BooleanArray;
use polars_arrays_flat::primitive::PrimitiveArray;
use polars_arrays_nested::any_array::AnyArray;
use polars_arrays_nested::dict_keys::DictKeys;
use polars_arrays_nested::dictionary::DictionaryArray;
use polars_arrays_numbers::steps::Steps;
use polars_compute_unique::boolean::BooleanUniqueKernelState;
use polars_compute_unique::dictionary::DictionaryRangedUniqueState;
use polars_compute_unique::kernel::RangedUniqueKernel;
use polars_compute_unique::primitive::PrimitiveRangedUniqueState;
use recorded_text::bits_text::is_null;
use recorded_text::fault::Fault;
use std::alloc::Global;
use std::fmt::Display;

/// A state of distinct values, for use with arrays that lines name.
pub trait RecordedState: RangedUniqueKernel<Array: Drop> + Drop {
    /// Returns the array that `any` holds, if it is of the kind that the state accepts. The error
    /// is `Case` if it is of another kind.
    fn rows_in(any: &AnyArray) -> Result<&Self::Array, Fault>;

    /// Clones an array. The error is `Memory`.
    fn copy_rows(alloc: Global, rows: &Self::Array) -> Result<Self::Array, Fault>;

    /// Returns the number of rows of an array.
    fn count_rows(rows: &Self::Array) -> usize;

    /// Appends row `i` of `rows` to `text`, in the form `shown`. For a dictionary array, this is
    /// the key of the row. The error is `Case` if there is no row `i`, or if keys are not of type
    /// `u32`, or else `Memory`.
    fn push_row(text: &mut String, rows: &Self::Array, shown: Shown, i: usize) -> Result<(), Fault>;
}

/// The form of a row in a text.
#[derive(Clone, Copy)]
pub enum Shown {
    /// The row, which may be null.
    Row,
    /// The stored value, even if the row is null.
    Stored,
}

/// A state that can count the rows that it reads when an array is appended.
pub trait CountedState: RecordedState {
    /// Appends `array` to the state, and returns the number of its rows that were read: all rows if
    /// one is null, otherwise blocks of 512 rows until all values of the range were seen. The error
    /// is `Case` if the state does not accept the array, since it has a value outside the range of
    /// the state.
    fn append_and_count(&mut self, array: &Self::Array) -> Result<u64, Fault>;
}

impl<T: RecordedNumber> CountedState for PrimitiveRangedUniqueState<T> {
    fn append_and_count(&mut self, array: &PrimitiveArray<T>) -> Result<u64, Fault> {
        if !self.accepts(array) {
            return Err(Fault::Case);
        }
        let mut steps = Steps::new();
        self.append_counted(array, &mut steps);
        Ok(steps.seen())
    }
}

impl<T: RecordedNumber> RecordedState for PrimitiveRangedUniqueState<T> {
    fn rows_in(any: &AnyArray) -> Result<&PrimitiveArray<T>, Fault> {
        T::rows_in(any)
    }

    fn copy_rows(alloc: Global, rows: &PrimitiveArray<T>) -> Result<PrimitiveArray<T>, Fault> {
        rows.clone_array(alloc).map_err(Fault::from)
    }

    fn count_rows(rows: &PrimitiveArray<T>) -> usize {
        rows.values().len()
    }

    fn push_row(
        text: &mut String,
        rows: &PrimitiveArray<T>,
        shown: Shown,
        i: usize,
    ) -> Result<(), Fault> {
        push_number(text, rows, shown, i)
    }
}

impl RecordedState for BooleanUniqueKernelState {
    fn rows_in(any: &AnyArray) -> Result<&BooleanArray, Fault> {
        rows_in!(any, Boolean)
    }

    fn copy_rows(alloc: Global, rows: &BooleanArray) -> Result<BooleanArray, Fault> {
        rows.clone_array(alloc).map_err(Fault::from)
    }

    fn count_rows(rows: &BooleanArray) -> usize {
        rows.values().len()
    }

    fn push_row(
        text: &mut String,
        rows: &BooleanArray,
        shown: Shown,
        i: usize,
    ) -> Result<(), Fault> {
        let null = is_shown_null(shown, rows.validity(), i);
        push_value(text, null, rows.values().get(i))
    }
}

impl RecordedState for DictionaryRangedUniqueState {
    fn rows_in(any: &AnyArray) -> Result<&DictionaryArray, Fault> {
        rows_in!(any, Dictionary)
    }

    fn copy_rows(alloc: Global, rows: &DictionaryArray) -> Result<DictionaryArray, Fault> {
        rows.clone_array(alloc).map_err(Fault::from)
    }

    fn count_rows(rows: &DictionaryArray) -> usize {
        rows.keys().len()
    }

    // The keys of a state's array are of type `u32`.
    fn push_row(
        text: &mut String,
        rows: &DictionaryArray,
        shown: Shown,
        i: usize,
    ) -> Result<(), Fault> {
        match rows.keys() {
            DictKeys::UInt32(keys) => push_number(text, keys, shown, i),
            _ => Err(Fault::Case),
        }
    }
}

// Appends row `i` of an array of numbers to `text`, in the form `shown`. The error is `Case` if
// there is no row `i`, or else `Memory`.
fn push_number<T: RecordedNumber>(
    text: &mut String,
    rows: &PrimitiveArray<T>,
    shown: Shown,
    i: usize,
) -> Result<(), Fault> {
    let null = is_shown_null(shown, rows.validity(), i);
    push_value(text, null, rows.values().get(i).copied())
}

// Returns whether row `i` of an array with `validity` is written as null, in the form `shown`. A
// null row is written as null only in the form `Shown::Row`.
fn is_shown_null(shown: Shown, validity: Option<&Bitmap>, i: usize) -> bool {
    match shown {
        Shown::Row => is_null(validity, i),
        Shown::Stored => false,
    }
}

// Appends `value` to `text`, or `null` if `null` is true. The error is `Case` if `value` is `None`,
// or else `Memory`.
fn push_value<V: Copy + Display>(
    text: &mut String,
    null: bool,
    value: Option<V>,
) -> Result<(), Fault> {
    match value {
        Some(_) if null => text.push_str("null").map_err(Fault::from),
        Some(value) => write!(text, "{value}").map_err(Fault::from),
        None => Err(Fault::Case),
    }
}
