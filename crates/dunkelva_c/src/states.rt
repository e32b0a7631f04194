//! States of distinct values in the caller's memory.
//!
//! A state has a range of integers, words with a bit for each integer of the range, the least
//! first, and a flag, which is not 0 if a null was seen. Functions get these as `least` and
//! `greatest`, both included in the range, `words` and `flag`.
//!
//! Each call fails with `NoRange` if `greatest` is less than `least` or the range has too many
//! numbers (see `count_between`), and with `Room` if `words` has fewer bits than the range has
//! numbers.

ghost use Rattle.std.specs.Prelude.{◌≡◌, ◌≢◌, ◌≤◌, ◌*◌, length, pos, IfErr, IfOk, IfSome, IsNone};
ghost use Rattle.std.specs.Prelude.{OnErr, OnOk};
ghost use Rattle.arrow_calls.specs.Columns.{rows_lent};
ghost use Rattle.dunkelva_c.specs.Columns.{number_rows_of};
ghost use Rattle.dunkelva_c.specs.States.{AreCounts, IsAppended, IsAppendedPart, IsListed};
ghost use Rattle.dunkelva_c.specs.States.{IsMerged, IsRange};
ghost use Rattle.dunkelva_c.specs.States.{IsTrueAppendFault, IsTrueListFault, IsTrueMergeFault};
ghost use Rattle.dunkelva_c.specs.States.{IsTrueNumbersFault, IsTruePartFault, IsTrueRangeFault};
ghost use Rattle.dunkelva_c.specs.States.{IsTrueStateStatus, IsWithin, state_status};

use crate::columns::at_number_kind;
use arrow_calls::columns::column;
use arrow_calls::fault::{Fault, status as fault_status};
use arrow_calls::number::{Number, narrow, whole_of};
use arrow_parts::part::{Part, PartKind};
use arrow_unique::appending::append;
use arrow_unique::listing::{count_finalised, count_seen, list};
use arrow_unique::merging::merge;
use arrow_unique::range::count_between;
use polars_compute_slots::number::UniqueNumber;
use polars_compute_slots::span::Span;
use std::alloc::Global;

/// A reason why a call on a state fails.
#[derive(Clone, Copy, Drop, Debug)]
pub(crate) enum StateFault {
    /// An error that calls on columns have too.
    Of(Fault),
    /// The least number of the range exceeds the greatest one, or the range has too many numbers.
    NoRange,
    /// The number of a row is outside of the range.
    Outside,
}

// Returns the status code of a failed call on a state, in C: that of the `Fault`, or 7 for
// `NoRange` and 8 for `Outside`.
fn status(fault: StateFault) -> i32
    ensures { result ≡ state_status fault }
{
    match fault {
        StateFault::Of(fault) => fault_status(fault),
        StateFault::NoRange => 7,
        StateFault::Outside => 8,
    }
}

// The range of a state: the integers from `least` to `greatest`, both included. `count` is how many
// there are.
#[derive(Clone, Copy, Drop)]
pub(crate) struct Range {
    least: i128,
    greatest: i128,
    count: usize,
}

// Returns the range from `least` to `greatest` of a state of `words` words. Fails with `NoRange` if
// `greatest` is less than `least` or the range has too many numbers (see `count_between`). Fails
// with `Room` if the words have fewer bits than the range has numbers.
fn range_of(least: &Number, greatest: &Number, words: usize) -> Result<Range, StateFault>
    ensures range { IfOk result (IsRange least.now greatest.now words) }
    ensures refused { IfErr result (IsTrueRangeFault least.now greatest.now words) }
{
    let least = whole_of(least.low, least.high);
    let greatest = whole_of(greatest.low, greatest.high);
    let Some(count) = count_between(least, greatest) else {
        return Err(StateFault::NoRange);
    };
    if words < count.div_ceil(64) {
        return Err(StateFault::Of(Fault::Room));
    }
    Ok(Range {
        least,
        greatest,
        count,
    })
}

// Returns the least number of a range as a number of type `T`, or `None` if the type can't
// represent both ends of the range.
fn least_in<T: UniqueNumber>(range: &Range) -> Option<T>
    ensures number { IfSome result (λ least. T.value least ≡ range.now.least) }
    ensures none { IsNone result → ¬ (IsWithin T.low T.high range.now.least
        × IsWithin T.low T.high range.now.greatest) }
{
    let Some(least) = narrow::<T>(range.least) else {
        return None;
    };
    let Some(_greatest) = narrow::<T>(range.greatest) else {
        return None;
    };
    Some(least)
}

// Appends `values`, the numbers of a part, to the state in `words` and `flag`. Returns whether each
// row is null or its number lies in `range`. If not, nothing is changed. Fails with `Types` if type
// `T` can't represent the range, with `Parts` if the part is not a valid column, and with `Memory`
// if an allocation fails; nothing is then changed.
fn append_numbers<T: UniqueNumber>(
    alloc: Global,
    part: &Part<'_>,
    range: &Range,
    words: &mut [u64],
    flag: &mut u64,
    values: &[T],
) -> Result<bool, Fault>
    requires room { range.now.count ≤ 64 * length words.old }
    ensures appended { IfOk result (IsAppended range.now.least range.now.count
        (rows_lent T.value part.now values.now) words.old words.new flag.old flag.new) }
    ensures kept { OnErr result ((words.new ≡ words.old) × (flag.new ≡ flag.old)) }
    ensures refused { IfErr result
        (IsTrueNumbersFault T.low T.high range.now.least range.now.greatest
        (length values.now) part.now) }
{
    let Some(least) = least_in::<T>(range) else {
        return Err(Fault::Types);
    };
    let column = column(alloc, part, values)?;
    let count = range.count;
    Ok(append(&column, &Span { least, count }, words, flag))
}

// Calls `append_numbers` with the numbers of a part, at the type that the part's kind stands for.
// Returns whether each row is null or its number lies in `range`. If not, nothing is changed. Fails
// with `NotServed` if the part has no numbers of 8 to 64 bits, and as `append_numbers` does;
// nothing is then changed.
fn append_part(
    alloc: Global,
    part: &Part<'_>,
    range: &Range,
    words: &mut [u64],
    flag: &mut u64,
) -> Result<bool, Fault>
    requires room { range.now.count ≤ 64 * length words.old }
    ensures appended { IfOk result (IsAppended range.now.least range.now.count
        (number_rows_of part.now) words.old words.new flag.old flag.new) }
    ensures kept { OnErr result ((words.new ≡ words.old) × (flag.new ≡ flag.old)) }
    ensures refused { IfErr result (IsTruePartFault range.now.least range.now.greatest
        part.now) }
{
    at_number_kind!(part, values => append_numbers(alloc, part, range, words, flag, values))
}

// Appends the rows of a part to the state of the range from `least` to `greatest`. Fails with
// `Outside` if the number of a row is not in the range, and as `range_of` and `append_part` do. The
// state is then unchanged.
fn append_state(
    alloc: Global,
    part: &Part<'_>,
    least: &Number,
    greatest: &Number,
    words: &mut [u64],
    flag: &mut u64,
) -> Result<(), StateFault>
    ensures appended { OnOk result (IsAppendedPart part.now least.now greatest.now
        words.old words.new flag.old flag.new) }
    ensures kept { OnErr result ((words.new ≡ words.old) × (flag.new ≡ flag.old)) }
    ensures refused { IfErr result (IsTrueAppendFault part.now least.now greatest.now
        (length words.old)) }
{
    let range = range_of(least, greatest, words.len())?;
    match append_part(alloc, part, &range, words, flag) {
        Ok(true) => Ok(()),
        Ok(false) => Err(StateFault::Outside),
        Err(fault) => Err(StateFault::Of(fault)),
    }
}

/// Appends the rows of a column of numbers to the state of the range from `least` to `greatest`.
/// Sets the bits of all present numbers, and sets `flag` to 1 if a row is null. Bits past the last
/// number of the range are unchanged.
///
/// Returns 0 on success. Otherwise returns the status of a `StateFault`, and the state is
/// unchanged. The status is 8 if the number of a row is outside of the range.
#[unsafe(no_mangle)]
pub extern "C" fn dunkelva_state_append(
    alloc: Global,
    part: &Part<'_>,
    least: &Number,
    greatest: &Number,
    words: &mut [u64],
    flag: &mut u64,
) -> i32
    ensures appended { result ≡ pos 0 → IsAppendedPart part.now least.now greatest.now
        words.old words.new flag.old flag.new }
    ensures kept { result ≢ pos 0 → (words.new ≡ words.old) × (flag.new ≡ flag.old) }
    ensures refused { IsTrueStateStatus (IsTrueAppendFault part.now least.now greatest.now
        (length words.old)) result }
{
    match append_state(alloc, part, least, greatest, words, flag) {
        Ok(()) => 0,
        Err(fault) => status(fault),
    }
}

// Merges the state in `others` and `other_flag` into the state in `words` and `flag`, which has the
// same range. Fails as `range_of` does, also if `others` has too few words; both states are then
// unchanged.
fn merge_state(
    least: &Number,
    greatest: &Number,
    words: &mut [u64],
    flag: &mut u64,
    others: &[u64],
    other_flag: u64,
) -> Result<(), StateFault>
    ensures merged { OnOk result (IsMerged least.now greatest.now words.old words.new
        flag.old flag.new others.now other_flag) }
    ensures kept { OnErr result ((words.new ≡ words.old) × (flag.new ≡ flag.old)) }
    ensures refused { IfErr result (IsTrueMergeFault least.now greatest.now
        (length words.old) (length others.now)) }
{
    range_of(least, greatest, others.len())?;
    let range = range_of(least, greatest, words.len())?;
    merge(range.count, words, flag, others, other_flag);
    Ok(())
}

/// Merges the state in `others` and `other_flag` into the state in `words` and `flag`, which has
/// the same range. Afterwards a bit is set if either state had seen its number. `flag` becomes 1 if
/// `other_flag` is not 0. Bits past the last number of the range are unchanged.
///
/// Returns 0 on success. Otherwise returns the status of a `StateFault`, and both states are
/// unchanged.
#[unsafe(no_mangle)]
pub extern "C" fn dunkelva_state_merge(
    least: &Number,
    greatest: &Number,
    words: &mut [u64],
    flag: &mut u64,
    others: &[u64],
    other_flag: u64,
) -> i32
    ensures merged { result ≡ pos 0 → IsMerged least.now greatest.now words.old words.new
        flag.old flag.new others.now other_flag }
    ensures kept { result ≢ pos 0 → (words.new ≡ words.old) × (flag.new ≡ flag.old) }
    ensures refused { IsTrueStateStatus (IsTrueMergeFault least.now greatest.now
        (length words.old) (length others.now)) result }
{
    match merge_state(least, greatest, words, flag, others, other_flag) {
        Ok(()) => 0,
        Err(fault) => status(fault),
    }
}

// Sets `values` to the number of distinct values that a state has seen. Sets `rows` to the number
// of distinct rows: one more than the values if a null was seen. Fails as `range_of` does; nothing
// is then written.
fn count_state(
    least: &Number,
    greatest: &Number,
    words: &[u64],
    flag: u64,
    values: &mut u64,
    rows: &mut u64,
) -> Result<(), StateFault>
    ensures counted { OnOk result (AreCounts least.now greatest.now words.now flag
        values.new rows.new) }
    ensures kept { OnErr result ((values.new ≡ values.old) × (rows.new ≡ rows.old)) }
    ensures refused { IfErr result (IsTrueRangeFault least.now greatest.now (length words.now)) }
{
    let range = range_of(least, greatest, words.len())?;
    *values = count_seen(range.count, words) as u64;
    *rows = count_finalised(range.count, words, flag) as u64;
    Ok(())
}

/// Counts what a state has seen: writes the number of distinct values into `values`, and the number
/// of distinct rows into `rows`. If the state has seen a null, it counts as one more row. Returns 0
/// on success. Otherwise returns the status of a `StateFault`, and nothing is written.
#[unsafe(no_mangle)]
pub extern "C" fn dunkelva_state_count(
    least: &Number,
    greatest: &Number,
    words: &[u64],
    flag: u64,
    values: &mut u64,
    rows: &mut u64,
) -> i32
    ensures counted { result ≡ pos 0 → AreCounts least.now greatest.now words.now flag
        values.new rows.new }
    ensures kept { result ≢ pos 0 → (values.new ≡ values.old) × (rows.new ≡ rows.old) }
    ensures refused { IsTrueStateStatus
        (IsTrueRangeFault least.now greatest.now (length words.now)) result }
{
    match count_state(least, greatest, words, flag, values, rows) {
        Ok(()) => 0,
        Err(fault) => status(fault),
    }
}

// Writes the distinct values that a state has seen into `out`. Sets `has_null` to 1 if a null was
// seen, and otherwise to 0. Fails as `range_of` does, and with `Room` if `out` is too short;
// nothing is then written.
fn list_state(
    least: &Number,
    greatest: &Number,
    words: &[u64],
    flag: u64,
    out: &mut [u64],
    has_null: &mut u64,
) -> Result<(), StateFault>
    ensures listed { OnOk result (IsListed least.now greatest.now words.now flag
        out.old out.new has_null.new) }
    ensures kept { OnErr result ((out.new ≡ out.old) × (has_null.new ≡ has_null.old)) }
    ensures refused { IfErr result (IsTrueListFault least.now greatest.now words.now
        (length out.old)) }
{
    let range = range_of(least, greatest, words.len())?;
    if out.len() < count_seen(range.count, words) {
        return Err(StateFault::Of(Fault::Room));
    }
    list(range.least, range.count, words, out);
    *has_null = u64::from(flag != 0);
    Ok(())
}

/// Writes the distinct values that a state has seen into `out`, in ascending order. Each value is
/// written as the lower 64 bits of its two's complement. The rest of `out` is unchanged. `has_null`
/// becomes 1 if a null was seen, and else 0.
///
/// Returns 0 on success. Otherwise returns the status of a `StateFault`, and nothing is written.
/// The status is 3 if `out` or `words` is too short.
#[unsafe(no_mangle)]
pub extern "C" fn dunkelva_state_list(
    least: &Number,
    greatest: &Number,
    words: &[u64],
    flag: u64,
    out: &mut [u64],
    has_null: &mut u64,
) -> i32
    ensures listed { result ≡ pos 0 → IsListed least.now greatest.now words.now flag
        out.old out.new has_null.new }
    ensures kept { result ≢ pos 0 → (out.new ≡ out.old) × (has_null.new ≡ has_null.old) }
    ensures refused { IsTrueStateStatus (IsTrueListFault least.now greatest.now words.now
        (length out.old)) result }
{
    match list_state(least, greatest, words, flag, out, has_null) {
        Ok(()) => 0,
        Err(fault) => status(fault),
    }
}
