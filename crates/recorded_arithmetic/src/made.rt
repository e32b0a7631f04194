//! Arrays of numbers and single numbers as text.

use polars_arrays_bits::error::ComputeError;
use polars_arrays_flat::array::Array;
use polars_arrays_flat::primitive::PrimitiveArray;
use polars_arrays_numbers::native_type::NativeType;
use recorded_text::bits_text::is_null;
use recorded_text::fault::Fault;
use std::alloc::Global;
use std::fmt::Display;

/// Returns the rows of an array as text, separated by spaces, and drops the array. If `made` is an
/// error, returns it as a `Fault`.
pub fn write_made<T: NativeType + Display>(
    alloc: Global,
    made: Result<PrimitiveArray<T>, ComputeError>,
) -> Result<String, Fault> {
    let array = made?;
    let text = write_rows(alloc, &array);
    drop(array);
    text
}

/// Returns a number as text. The error is `Memory`.
pub fn write_number<T: Copy + Display>(alloc: Global, number: T) -> Result<String, Fault> {
    number.to_string(alloc).map_err(Fault::from)
}

// Returns the rows of an array as text, separated by spaces: `null` for a null row.
fn write_rows<T: NativeType + Display>(
    alloc: Global,
    array: &PrimitiveArray<T>,
) -> Result<String, Fault> {
    let mut text = String::new(alloc);
    for (i, value) in array.values().iter().enumerate() {
        if i > 0 {
            text.push(' ')?;
        }
        push_row(&mut text, value, is_null(array.validity(), i))?;
    }
    Ok(text)
}

// Appends `null` to `text` if `is_null` is true, otherwise `value`.
fn push_row<T: Display>(text: &mut String, value: &T, is_null: bool) -> Result<(), Fault> {
    if is_null {
        text.push_str("null").map_err(Fault::from)
    } else {
        write!(text, "{value}").map_err(Fault::from)
    }
}
