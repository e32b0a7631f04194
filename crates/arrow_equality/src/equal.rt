//! Equality of the rows of two lent arrays.

ghost use Rattle.std.specs.Prelude.{◌≡◌, IfErr, IfOk, OnErr, OnOk};
ghost use Rattle.polars_arrays_nested.specs.GoodParts.{IsGood};
ghost use Rattle.arrow_arrays.specs.Columns.{rows_of_parts};
ghost use Rattle.arrow_arrays.specs.Good.{AreGoodParts};
ghost use Rattle.arrow_equality.specs.Compared.{AreCompared, IsRefusedPair};
ghost use Rattle.arrow_equality.specs.Equal.{AreEqualIn, IsComparison, IsCountIn};
ghost use Rattle.arrow_equality.specs.Equal.{IsRefusedComparison, IsTrueRefusal};

use crate::compared::{Compared, compare, write};
use crate::lists::compare_lists;
use crate::strings::compare_in_place;
use crate::structs::{ByField, LentComparison, Whole};
use arrow_arrays::build::build;
use arrow_parts::part::Part;
use arrow_parts::refused::Refused;
use polars_arrays_nested::any_array::AnyArray;
use std::alloc::Global;

/// Compares two arrays, row by row. Fails with `Types` if they differ in type or in length, and
/// with `Memory` if an allocation fails.
fn compare_arrays(alloc: Global, left: &AnyArray, right: &AnyArray) -> Result<Compared, Refused>
    requires left_good { IsGood left.now }
    requires right_good { IsGood right.now }
    ensures compared { IfOk result (AreCompared left.now right.now) }
    ensures refused { IfErr result (IsRefusedPair left.now right.now) }
{
    if !left.same_type(right) {
        return Err(Refused::Types);
    }
    if left.len() != right.len() {
        return Err(Refused::Types);
    }
    compare(alloc, left, right)
}

/// Builds two arrays from the parts `left` and `right`, and compares them row by row. Fails with
/// `Parts` if the parts make no array, with `Types` if the two arrays differ in type or in length,
/// and with `Memory` if an allocation fails.
fn compare_parts(alloc: Global, left: &[Part<'_>], right: &[Part<'_>]) -> Result<Compared, Refused>
    ensures compared { IfOk result
        (IsComparison (rows_of_parts left.now) (rows_of_parts right.now)) }
    ensures good { IfOk result (λ _. AreGoodParts left.now × AreGoodParts right.now) }
    ensures refused { IfErr result (IsRefusedComparison left.now right.now) }
{
    let left = build(alloc, left)?;
    let right = build(alloc, right)?;
    compare_arrays(alloc, &left, &right)
}

/// Compares two lent arrays, row by row, by `compare_lists` if it can compare them. Otherwise
/// builds both arrays first. Fails as `compare_parts` does.
fn compare_nested(alloc: Global, left: &[Part<'_>], right: &[Part<'_>]) -> Result<Compared, Refused>
    ensures compared { IfOk result
        (IsComparison (rows_of_parts left.now) (rows_of_parts right.now)) }
    ensures good { IfOk result (λ _. AreGoodParts left.now × AreGoodParts right.now) }
    ensures refused { IfErr result (IsRefusedComparison left.now right.now) }
{
    let found = compare_lists(alloc, left, right)?;
    match found {
        Some(compared) => Ok(compared),
        None => compare_parts(alloc, left, right),
    }
}

/// Compares two lent arrays, row by row. If `compare_in_place` or `compare_lists` can compare them,
/// nothing but the validities is copied. Otherwise builds both arrays first. Fails as
/// `compare_parts` does.
pub fn compare_whole(
    alloc: Global,
    left: &[Part<'_>],
    right: &[Part<'_>],
) -> Result<Compared, Refused>
    ensures compared { IfOk result
        (IsComparison (rows_of_parts left.now) (rows_of_parts right.now)) }
    ensures good { IfOk result (λ _. AreGoodParts left.now × AreGoodParts right.now) }
    ensures refused { IfErr result (IsRefusedComparison left.now right.now) }
{
    if left.len() != 1 || right.len() != 1 {
        return compare_nested(alloc, left, right);
    }
    let found = compare_in_place(alloc, &left[0], &right[0])?;
    match found {
        Some(compared) => Ok(compared),
        None => compare_parts(alloc, left, right),
    }
}

/// Compares two lent arrays, row by row: structs field by field, also structs inside of up to three
/// others, and all other arrays by `compare_whole`. Fails as `compare_parts` does.
fn compare_lent(alloc: Global, left: &[Part<'_>], right: &[Part<'_>]) -> Result<Compared, Refused>
    ensures compared { IfOk result
        (IsComparison (rows_of_parts left.now) (rows_of_parts right.now)) }
    ensures good { IfOk result (λ _. AreGoodParts left.now × AreGoodParts right.now) }
    ensures refused { IfErr result (IsRefusedComparison left.now right.now) }
{
    let inner = ByField {
        fields: ByField { fields: Whole },
    };
    let outer = ByField {
        fields: ByField { fields: inner },
    };
    outer.compare(alloc, left, right)
}

/// Compares two lent arrays, row by row. Sets bit `i` of `out` if the two rows `i` are equal as
/// trees, and sets all bits past the last row to 0. Null is equal to null alone. Sets
/// `comparisons[0]` to the number of leaves that were compared, or to `u64::MAX` if there were
/// more.
///
/// Fails with `Parts` if the parts on a side make no array, with `Types` if the arrays differ in
/// type or in length, with `Room` if `out` has fewer bits than rows or `comparisons` is empty, and
/// with `Memory` if an allocation fails. Both slices are then unchanged.
pub fn equal_rows(
    alloc: Global,
    left: &[Part<'_>],
    right: &[Part<'_>],
    out: &mut [u64],
    comparisons: &mut [u64],
) -> Result<(), Refused>
    ensures same { OnOk result (AreEqualIn left.now right.now out.new) }
    ensures count { OnOk result (IsCountIn left.now right.now comparisons.new) }
    ensures good { OnOk result (AreGoodParts left.now × AreGoodParts right.now) }
    ensures refused { IfErr result (IsTrueRefusal left.now right.now out.old comparisons.old) }
    ensures kept { OnErr result (out.new ≡ out.old) }
    ensures count_kept { OnErr result (comparisons.new ≡ comparisons.old) }
{
    let compared = compare_lent(alloc, left, right)?;
    write(&compared, out, comparisons)
}
