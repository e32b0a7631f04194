//! Comparison of two lent structs, field by field, so that no struct is built.
#![tactic(auto)]

ghost use Rattle.std.specs.Prelude.{◌≡◌, IsTrue, IfErr, IfOk, IfSome, drop, length};
ghost use Rattle.arrow_arrays.specs.Columns.{rows_of_parts};
ghost use Rattle.arrow_arrays.specs.Good.{AreGoodParts};
ghost use Rattle.arrow_parts.specs.Refusals.{IsMemoryFailure};
ghost use Rattle.arrow_equality.specs.Equal.{IsComparison, IsRefusedComparison};
ghost use Rattle.arrow_equality.specs.Structs.{AddsField, AreBoth, AreFieldsCompared};
ghost use Rattle.arrow_equality.specs.Structs.{AreFieldsJoined, AreStructs, HaveOneName};
ghost use Rattle.arrow_equality.specs.Structs.{IsFieldCompared};

use crate::compared::Compared;
use crate::equal::compare_whole;
use crate::part_strings::is_text;
use crate::strings::join_parts;
use arrow_parts::part::{Part, PartKind};
use arrow_parts::refused::Refused;
use polars_arrays_bits::bitmap::Bitmap;
use polars_compare_nested::laws::law_tally;
use std::alloc::Global;

/// The names of fields that are compared in place have fewer bytes.
const LONG_NAME: usize = 1 << 62;

/// A way to compare two lent arrays.
pub trait LentComparison {
    /// Compares two lent arrays, row by row. Fails with `Parts` if the parts on a side make no
    /// array, with `Types` if the arrays differ in type or in length, and with `Memory` if an
    /// allocation fails.
    fn compare(
        &self,
        alloc: Global,
        left: &[Part<'_>],
        right: &[Part<'_>],
    ) -> Result<Compared, Refused>
        ensures compared { IfOk result
            (IsComparison (rows_of_parts left.now) (rows_of_parts right.now)) }
        ensures good { IfOk result (λ _. AreGoodParts left.now × AreGoodParts right.now) }
        ensures refused { IfErr result (IsRefusedComparison left.now right.now) };
}

/// Compares arrays by `compare_whole`.
#[derive(Clone, Copy, Debug)]
pub struct Whole;

impl LentComparison for Whole {
    fn compare(
        &self,
        alloc: Global,
        left: &[Part<'_>],
        right: &[Part<'_>],
    ) -> Result<Compared, Refused> {
        compare_whole(alloc, left, right)
    }
}

/// Compares structs field by field (see `compare_structs`), and each field as `fields` does.
/// Compares all arrays for which `compare_structs` returns `None` by `compare_whole`.
#[derive(Clone, Copy, Debug)]
pub struct ByField<F> {
    pub fields: F,
}

impl<F: LentComparison> LentComparison for ByField<F> {
    fn compare(
        &self,
        alloc: Global,
        left: &[Part<'_>],
        right: &[Part<'_>],
    ) -> Result<Compared, Refused> {
        let found = compare_structs(alloc, &self.fields, left, right)?;
        match found {
            Some(compared) => Ok(compared),
            None => compare_whole(alloc, left, right),
        }
    }
}

/// Returns whether two slices have the same bytes.
fn same_bytes(left: &[u8], right: &[u8]) -> bool
    ensures { IsTrue result → (left.now ≡ right.now) }
{
    left == right
}

/// Returns whether the first parts of two lists have the same name, of fewer than `LONG_NAME`
/// bytes. Returns `false` if a list is empty.
fn have_one_name(left: &[Part<'_>], right: &[Part<'_>]) -> bool
    ensures { IsTrue result → HaveOneName left.now right.now }
{
    if left.is_empty() || right.is_empty() {
        return false;
    }
    left[0].name.len() < LONG_NAME && same_bytes(left[0].name, right[0].name)
}

/// Compares a field of two structs, row by row, as `by` does. Returns `None` if the names differ,
/// and if `by` fails, unless with `Memory`. The only error is `Memory`.
fn compare_field<F: LentComparison>(
    alloc: Global,
    by: &F,
    left: &[Part<'_>],
    right: &[Part<'_>],
) -> Result<Option<Compared>, Refused>
    ensures field { IfOk result (λ found. IfSome found (IsFieldCompared left.now right.now)) }
    ensures refused { IfErr result IsMemoryFailure }
{
    if !have_one_name(left, right) {
        return Ok(None);
    }
    match by.compare(alloc, left, right) {
        Ok(compared) => Ok(Some(compared)),
        Err(Refused::Memory) => Err(Refused::Memory),
        Err(_) => Ok(None),
    }
}

/// Combines two comparisons: a bit is set if it is in both, and the counts are added. Returns
/// `None` if they have different numbers of bits. The only error is `Memory`.
fn and_fields(alloc: Global, field: &Compared, rest: Compared) -> Result<Option<Compared>, Refused>
    ensures both { IfOk result (λ found. IfSome found (AreBoth field.now rest)) }
    ensures refused { IfErr result IsMemoryFailure }
{
    let Compared { bits, comparisons } = rest;
    if field.bits.len() != bits.len() {
        return Ok(None);
    }
    let mut bits = bits.into_mut(alloc)?;
    bits.and_assign(&field.bits);
    Ok(Some(Compared {
        bits: bits.freeze(),
        comparisons: field.comparisons.saturating_add(comparisons),
    }))
}

/// Compares a field of two structs, and combines the result with that of the fields after it, as
/// `and_fields` does. Returns `None` if `compare_field` does. The only error is `Memory`.
fn add_field<F: LentComparison>(
    alloc: Global,
    by: &F,
    left: &[Part<'_>],
    right: &[Part<'_>],
    rest: Compared,
) -> Result<Option<Compared>, Refused>
    ensures added { IfOk result (λ found. IfSome found (AddsField left.now right.now rest)) }
    ensures refused { IfErr result IsMemoryFailure }
{
    let found = compare_field(alloc, by, left, right)?;
    match found {
        Some(field) => and_fields(alloc, &field, rest),
        None => Ok(None),
    }
}

/// Compares the fields of two structs, which begin at the places `starts` of the parts, from the
/// last one to the first. Returns `None` if the fields do not follow one another from part 1 on, if
/// a field does not have `rows` rows, or if `compare_field` does. The only error is `Memory`.
fn compare_fields<F: LentComparison>(
    alloc: Global,
    by: &F,
    left: &[Part<'_>],
    right: &[Part<'_>],
    starts: &[usize],
    rows: usize,
) -> Result<Option<Compared>, Refused>
    requires { length left.now ≡ length right.now }
    ensures fields { IfOk result (λ found. IfSome found
        (AreFieldsCompared (length starts.now) (drop 1 left.now) (drop 1 right.now))) }
    ensures size { IfOk result (λ found. IfSome found (λ c. length c.bits ≡ rows)) }
    ensures refused { IfErr result IsMemoryFailure }
{
    let mut end = left.len();
    let bits = Bitmap::new_with_value(alloc, true, rows)?;
    let mut compared = Compared {
        bits,
        comparisons: 0,
    };
    for k in 0..starts.len() {
        let start = starts[starts.len() - 1 - k];
        if start > end {
            return Ok(None);
        }
        let added = add_field(alloc, by, &left[start..end], &right[start..end], compared)?;
        compared = match added {
            Some(more) => more,
            None => return Ok(None),
        };
        end = start;
    }
    if end != 1 {
        return Ok(None);
    }
    Ok(Some(compared))
}

/// Returns whether two parts are structs with equally many rows and fields, whose names are UTF-8.
fn are_structs(left: &Part<'_>, right: &Part<'_>) -> bool
    ensures { IsTrue result → AreStructs left.now right.now }
{
    if left.kind != right.kind || left.children != right.children || left.rows != right.rows {
        return false;
    }
    match PartKind::of(left.kind) {
        Some(PartKind::Struct) => is_text(left.name) && is_text(right.name),
        _ => false,
    }
}

/// Returns the places where the fields of the first part begin: part 1, and the first part after
/// each field. The only error is `Memory`.
fn field_starts(alloc: Global, parts: &[Part<'_>]) -> Result<Vec<usize>, Refused>
    ensures { IfErr result IsMemoryFailure }
{
    let mut starts = Vec::new(alloc);
    // the number of parts that begin an array of the field and were not visited yet
    let mut open: usize = 0;
    for i in 1..parts.len() {
        if open == 0 {
            starts.push(i)?;
        }
        open = open
            .max(1)
            .saturating_sub(1)
            .saturating_add(parts[i].children as usize);
    }
    Ok(starts)
}

/// Combines the comparison of the fields of two structs with the validities of the structs: null is
/// equal to null alone. Returns `None` if a part has fewer validity bits than rows. The only error
/// is `Memory`.
fn join_fields(
    alloc: Global,
    fields: Compared,
    left: &Part<'_>,
    right: &Part<'_>,
) -> Result<Option<Compared>, Refused>
    requires left { length fields.bits ≡ left.now.rows }
    requires right { length fields.bits ≡ right.now.rows }
    ensures joined { IfOk result (λ found. IfSome found
        (AreFieldsJoined left.now right.now fields)) }
    ensures refused { IfErr result IsMemoryFailure }
{
    let Compared { bits, comparisons } = fields;
    match join_parts(alloc, bits, left, right) {
        Ok(bits) => Ok(Some(Compared { bits, comparisons })),
        Err(Refused::Memory) => Err(Refused::Memory),
        Err(_) => Ok(None),
    }
}

/// Compares two lent structs, row by row, and each field as `by` does, so that no struct is built.
/// Returns `None` if the arrays are no structs, differ in type or length, or are not good. The only
/// error is `Memory`.
fn compare_structs<F: LentComparison>(
    alloc: Global,
    by: &F,
    left: &[Part<'_>],
    right: &[Part<'_>],
) -> Result<Option<Compared>, Refused>
    ensures compared { IfOk result (λ found. IfSome found
        (IsComparison (rows_of_parts left.now) (rows_of_parts right.now))) }
    ensures good { IfOk result (λ found. IfSome found
        (λ _. AreGoodParts left.now × AreGoodParts right.now)) }
    ensures refused { IfErr result IsMemoryFailure }
{
    if left.is_empty() || left.len() != right.len() {
        return Ok(None);
    }
    if !are_structs(&left[0], &right[0]) {
        return Ok(None);
    }
    let starts = field_starts(alloc, left)?;
    if starts.len() != left[0].children as usize {
        return Ok(None);
    }
    law_tally();
    let found = compare_fields(alloc, by, left, right, &starts, left[0].rows)?;
    match found {
        Some(fields) => join_fields(alloc, fields, &left[0], &right[0]),
        None => Ok(None),
    }
}
