//! Checks whether each row of an array is null or lies in a range.

ghost use Rattle.std.specs.Option.{option_copied};
ghost use Rattle.std.specs.Prelude.{◌≡◌, ◌<◌, length};
ghost use Rattle.polars_arrays_flat.specs.ArrayRows.{number_rows};
ghost use Rattle.polars_arrays_flat.specs.Row.{Int};
ghost use Rattle.polars_arrays_flat.specs.StoredRows.{kept, number_slots, rows_under};
ghost use Rattle.polars_arrays_flat.specs.Validity.{HasBits};
ghost use Rattle.polars_compute_slots.specs.State.{are_within, is_within, numbers_from};

use crate::number::UniqueNumber;
use crate::span::Span;
use polars_arrays_bits::bitmap::Bitmap;
use polars_arrays_flat::array::Array;
use polars_arrays_flat::primitive::PrimitiveArray;
use polars_arrays_flat::validity::is_present;

// Returns whether a row is null (`present` is false) or its `number` lies in the range `span`.
fn accepts_row<T: UniqueNumber>(span: &Span<T>, present: bool, number: T) -> bool
    ensures { result
        ≡ is_within (numbers_from (T.value span.now.least) span.now.count)
        (kept present (Int (T.value number))) }
{
    if present { span.holds(number) } else { true }
}

// Returns whether each number is masked or lies in the range. `validity` has a bit for each number;
// without it no number is masked.
fn accepts_under<T: UniqueNumber>(span: &Span<T>, numbers: &[T], validity: Option<&Bitmap>) -> bool
    requires { HasBits (length numbers.now) (option_copied validity) }
    ensures { result
        ≡ are_within (numbers_from (T.value span.now.least) span.now.count)
        (rows_under (option_copied validity.entry) (number_slots T.value numbers.now)) }
{
    for i in 0..numbers.len() {
        if !accepts_row(span, is_present(validity, i), numbers[i]) {
            return false;
        }
    }
    true
}

/// Returns whether each row of the array is null or its number lies in the range.
pub fn accepts_rows<T: UniqueNumber>(span: &Span<T>, array: &PrimitiveArray<T>) -> bool
    ensures { result
        ≡ are_within (numbers_from (T.value span.now.least) span.now.count)
        (number_rows T.value array.now) }
{
    accepts_under(span, array.values(), array.validity())
}
