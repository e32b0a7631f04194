//! Rows of columns that are appended to states of distinct values.

ghost use Rattle.std.specs.Option.{option_copied};
ghost use Rattle.std.specs.Prelude.{◌≡◌, ◌↔◌, ◌<◌, ◌≤◌, ◌*◌, ◌≤ℤ◌, ℤ, false, length, IsTrue};
ghost use Rattle.arrow_unique.specs.Memory.{Holds, state_in};
ghost use Rattle.polars_arrays_flat.specs.ArrayRows.{number_rows};
ghost use Rattle.polars_arrays_flat.specs.Row.{Int};
ghost use Rattle.polars_arrays_flat.specs.StoredRows.{kept, number_slots, rows_under};
ghost use Rattle.polars_arrays_flat.specs.Validity.{HasBits};
ghost use Rattle.polars_compute_slots.specs.Slots.{HasSlot};
ghost use Rattle.polars_compute_slots.specs.State.{appended, are_within, is_within, numbers_from};

use crate::marking::mark_rows;
use arrow_columns::column::Column;
use polars_arrays_bits::bitmap::Bitmap;
use polars_arrays_flat::validity::is_present;
use polars_arrays_numbers::comparison::{Comparison, LessOrEqual};
use polars_arrays_numbers::native_type::greatest_value;
use polars_compute_slots::number::UniqueNumber;
use polars_compute_slots::span::Span;

// Returns whether a row is null or its number lies in the range `span`. The row has the stored
// number `number`, and is null if `present` is false. The two conditions are joined with `|`, so
// that no branch is needed.
#[inline(always)]
fn accepts_row<T: UniqueNumber>(span: &Span<T>, present: bool, number: T) -> bool
    ensures { result ≡ is_within (numbers_from (T.value span.now.least) span.now.count)
        (kept present (Int (T.value number))) }
{
    !present | span.holds(number)
}

// Returns whether `least <= number <= greatest`. The two comparisons are joined with `&`, so that
// no branch is needed.
#[inline(always)]
fn lies_between<T: UniqueNumber>(least: T, greatest: T, number: T) -> bool
    ensures between { IsTrue result
        ↔ (T.value least ≤ℤ T.value number) × (T.value number ≤ℤ T.value greatest) }
    ensures high { T.value number ≤ℤ T.high }
{
    // Has no effect at run time. The proof needs the fact that `number` lies in the range of `T`.
    let _whole = number.whole();
    LessOrEqual.compare(least, number) & LessOrEqual.compare(number, greatest)
}

// Returns the greatest number of the range `span` that type `T` can represent. The range is not
// empty.
fn last_number<T: UniqueNumber>(span: &Span<T>) -> T
    requires { 0 < span.now.count }
    ensures { (m : ℤ) → m ≤ℤ T.high → (HasSlot (T.value span.now.least) span.now.count (Int m)
        ↔ (T.value span.now.least ≤ℤ m) × (m ≤ℤ T.value result)) }
{
    let last = span.least.whole() + (span.count - 1) as i128;
    let greatest = greatest_value::<T>();
    if last < greatest.whole() {
        T::from_whole(last)
    } else {
        greatest
    }
}

// Returns whether every stored number, also of a null row, lies in the range `span`, which is not
// empty. This function is much faster than `accepts_rows`: the loop has no branch, doesn't read the
// validity, and compares numbers of type `T` instead of `i128`.
fn holds_all<T: UniqueNumber>(span: &Span<T>, numbers: &[T]) -> bool
    requires { 0 < span.now.count }
    ensures { result ≡ are_within (numbers_from (T.value span.now.least) span.now.count)
        (number_slots T.value numbers.now) }
{
    let least = span.least;
    let last = last_number(span);
    let mut all = true;
    for i in 0..numbers.len() {
        all &= lies_between(least, last, numbers[i]);
    }
    all
}

// Returns whether every row is null or its number lies in the range. Stops at the first row for
// which this is false.
fn accepts_rows<T: UniqueNumber>(span: &Span<T>, numbers: &[T], validity: Option<&Bitmap>) -> bool
    requires { HasBits (length numbers.now) (option_copied validity) }
    ensures { result ≡ are_within (numbers_from (T.value span.now.least) span.now.count)
        (rows_under (option_copied validity.entry) (number_slots T.value numbers.now)) }
{
    for i in 0..numbers.len() {
        if !accepts_row(span, is_present(validity, i), numbers[i]) {
            return false;
        }
    }
    true
}

// Returns whether every row is null or its number lies in the range. Calls the faster `holds_all`
// first, unless the range is empty. Calls `accepts_rows` if the range is empty, or if a stored
// number lies outside the range, such as that of a null row.
fn accepts<T: UniqueNumber>(span: &Span<T>, numbers: &[T], validity: Option<&Bitmap>) -> bool
    requires { HasBits (length numbers.now) (option_copied validity) }
    ensures { result ≡ are_within (numbers_from (T.value span.now.least) span.now.count)
        (rows_under (option_copied validity.entry) (number_slots T.value numbers.now)) }
{
    if span.count == 0 {
        return accepts_rows(span, numbers, validity);
    }
    holds_all(span, numbers) || accepts_rows(span, numbers, validity)
}

/// Appends the rows of a column to a state of distinct values. The state has a bit in `words` for
/// each number of the range `span`, and `flag`, which is not 0 if a null was seen. Sets the bits of
/// all present numbers, and sets the flag to 1 if a row is null.
///
/// Returns whether every row is null or its number lies in the range. If not, nothing is changed.
pub fn append<T: UniqueNumber>(
    column: &Column<'_, T>,
    span: &Span<T>,
    words: &mut [u64],
    flag: &mut u64,
) -> bool
    requires room { span.now.count ≤ 64 * length words.old }
    ensures within { result ≡ are_within (numbers_from (T.value span.now.least) span.now.count)
        (number_rows T.value column.now) }
    ensures appended { IsTrue result → Holds (T.value span.now.least) span.now.count
        words.old words.new flag.new (appended (number_rows T.value column.now)
        (state_in (T.value span.now.least) span.now.count words.old flag.old)) }
    ensures kept { result ≡ false → (words.new ≡ words.old) × (flag.new ≡ flag.old) }
{
    let validity = column.validity();
    if !accepts(span, column.values(), validity) {
        return false;
    }
    mark_rows(words, span, column.values(), validity);
    if column.null_count() > 0 {
        *flag = 1;
    }
    true
}
