//! Comparison of two lent lists with the same offsets, item by item, so that no list is built.
#![tactic(auto)]

ghost use Rattle.std.specs.Prelude.{◌≡◌, ◌-◌, ◌^◌, ◌<◌, ◌∷◌, [], ℕ, IfErr, IfOk, IfSome, IsTrue};
ghost use Rattle.std.specs.Prelude.{cond, length, min, true};
ghost use Rattle.polars_arrays_bytes.specs.OffsetStrings.{AreGood, row_count};
ghost use Rattle.polars_compare_leaves.specs.Joining.{Joined};
ghost use Rattle.polars_compare_nested.specs.Leaf.{is_leaf};
ghost use Rattle.polars_compare_nested.specs.Runs.{IsSpan};
ghost use Rattle.arrow_arrays.specs.Columns.{kind_in, placed, rows_of_parts};
ghost use Rattle.arrow_arrays.specs.Good.{AreGoodParts, HoldRows};
ghost use Rattle.arrow_parts.specs.Lent.{places_from, present_in};
ghost use Rattle.arrow_parts.specs.Refusals.{IsMemoryFailure};
ghost use Rattle.arrow_parts.specs.declared.part.Part.{Part};
ghost use Rattle.arrow_equality.specs.Equal.{IsComparison};
ghost use Rattle.arrow_equality.specs.Lists.{AreAlikeLists, AreListsCompared, AreSpans};
ghost use Rattle.arrow_equality.specs.Lists.{AreWithin, HoldsLeaves};
ghost use Rattle.arrow_equality.specs.Lists.{equal_lists, items_of_both, list_size};

use crate::compared::Compared;
use crate::part_strings::{are_good, is_text, place_of};
use crate::strings::{compare_in_place, join_parts};
use arrow_parts::bits::validity;
use arrow_parts::part::{Part, PartKind};
use arrow_parts::refused::Refused;
use polars_arrays_bits::bit_mask::BitMask;
use polars_arrays_bits::packing::TruthValues;
use polars_arrays_bytes::offsets::row_count;
use polars_arrays_flat::validity::is_present;
use polars_arrays_numbers::offset::Offset;
use polars_arrays_numbers::steps::Steps;
use polars_compare_nested::laws::law_tally;
use std::alloc::Global;

/// Returns whether two lists of offsets, each less its base, are the same. No branch depends on the
/// offsets.
fn are_same_places<O: Offset>(left: &[O], left_base: usize, right: &[O], right_base: usize) -> bool
    requires left { (n : ℕ) × AreGood n (places_from left_base O.value left.now) }
    requires right { (n : ℕ) × AreGood n (places_from right_base O.value right.now) }
    requires one_length { length left.now ≡ length right.now }
    ensures { IsTrue result
        → (places_from right_base O.value right.now ≡ places_from left_base O.value left.now) }
{
    let mut same = true;
    for i in 0..left.len() {
        same &= place_of(left[i], left_base) == place_of(right[i], right_base);
    }
    same
}

/// Returns whether two parts have equally many lists, between the offsets `left_offsets` and
/// `right_offsets`, and whether these offsets, less the bases of the parts, are the same and
/// delimit lists among `n` items.
fn are_alike<O: Offset>(
    left: &Part<'_>,
    left_offsets: &[O],
    right: &Part<'_>,
    right_offsets: &[O],
    n: usize,
) -> bool
    ensures { IsTrue result → AreAlikeLists left.now right.now
        (places_from left.now.base O.value left_offsets.now)
        (places_from right.now.base O.value right_offsets.now) n }
{
    if row_count(left_offsets) != left.rows || left.rows != right.rows {
        return false;
    }
    if left_offsets.len() != right_offsets.len() {
        return false;
    }
    if !are_good(left_offsets, left.base, n) || !are_good(right_offsets, right.base, n) {
        return false;
    }
    are_same_places(left_offsets, left.base, right_offsets, right.base)
}

/// Returns the index of the first item of list `i`, and its number of items.
#[inline(always)]
fn list_at<O: Offset>(offsets: &[O], base: usize, i: usize) -> (usize, usize)
    requires row { i < row_count offsets.now }
    requires good { IsSpan (places_from base O.value offsets.now) i }
    ensures start { result.0 ≡ placed (places_from base O.value offsets.now) i }
    ensures size { result.1 ≡ list_size (places_from base O.value offsets.now) i }
{
    let (from, to) = (place_of(offsets[i], base), place_of(offsets[i + 1], base));
    (from, to - from)
}

/// A truth value for each list between the offsets `offsets`, less `base`: whether the bits of all
/// its items are 1.
#[derive(Drop)]
struct EqualLists<'m, 'a, O: Offset> {
    items: &'m BitMask<'a>,
    offsets: &'m [O],
    base: usize,
    rows: usize,
    ghost count: { rows ≡ row_count offsets.now },
    ghost good: { AreSpans (places_from base O.value offsets.now) rows },
    ghost within: { AreWithin (length items.now) (places_from base O.value offsets.now) rows },
}

impl<O: Offset> TruthValues for EqualLists<'_, '_, O> {
    ghost values = { λ l. equal_lists l.items.now (places_from l.base O.value l.offsets.now)
        l.rows };

    #[inline(always)]
    fn len(&self) -> usize {
        self.rows
    }

    #[inline(always)]
    fn value(&self, i: usize) -> bool {
        let (from, n) = list_at(self.offsets, self.base, i);
        self.items.all_set(from, n)
    }

    #[inline(always)]
    fn packs_in_registers(&self) -> bool {
        true
    }
}

/// Returns `n` if `counts` is `true`, and 0 otherwise.
#[inline(always)]
fn counted(counts: bool, n: usize) -> usize
    ensures { result ≡ cond counts n 0 }
{
    if counts { n } else { 0 }
}

/// Returns the number of items of the lists that are present in both parts, or `u64::MAX` if there
/// are more. The lists lie between the offsets `offsets`, less the base of `left`. Fails with
/// `Parts` if a part has fewer validity bits than rows, and with `Memory` if an allocation fails.
fn count_items<O: Offset>(
    alloc: Global,
    left: &Part<'_>,
    right: &Part<'_>,
    offsets: &[O],
) -> Result<u64, Refused>
    requires good { (n : ℕ) × AreGood n (places_from left.now.base O.value offsets.now) }
    requires rows { row_count offsets.now ≡ left.now.rows }
    requires one_length { left.now.rows ≡ right.now.rows }
    ensures count { IfOk result (λ count. count
        ≡ min (items_of_both (present_in left.now) (present_in right.now)
        (places_from left.now.base O.value offsets.now) left.now.rows) (2 ^ 64 - 1)) }
{
    let left_bits = validity(alloc, left.present, left.first_bit, left.rows)?;
    let right_bits = validity(alloc, right.present, right.first_bit, right.rows)?;
    let mut steps = Steps::new();
    for i in 0..left.rows {
        let (_, n) = list_at(offsets, left.base, i);
        let both = is_present(left_bits.as_ref(), i) & is_present(right_bits.as_ref(), i);
        steps.add(counted(both, n));
    }
    Ok(steps.seen())
}

/// Compares the lists of two parts, for which `are_alike` returns `true`, given the comparison of
/// their items. Fails as `count_items` does.
fn join_lists<O: Offset>(
    alloc: Global,
    items: &Compared,
    left: &Part<'_>,
    right: &Part<'_>,
    offsets: &[O],
) -> Result<Compared, Refused>
    requires good { AreGood (length items.now.bits)
        (places_from left.now.base O.value offsets.now) }
    requires rows { row_count offsets.now ≡ left.now.rows }
    requires one_length { left.now.rows ≡ right.now.rows }
    ensures joined { IfOk result (λ c. Joined true (present_in left.now) (present_in right.now)
        (equal_lists items.now.bits (places_from left.now.base O.value offsets.now) left.now.rows)
        c.bits) }
    ensures count { IfOk result (λ c. c.comparisons
        ≡ min (items_of_both (present_in left.now) (present_in right.now)
        (places_from left.now.base O.value offsets.now) left.now.rows) (2 ^ 64 - 1)) }
    ensures held { IfOk result (λ _. HoldRows left.now × HoldRows right.now) }
{
    let items = &BitMask::from_bitmap(&items.bits);
    let lists = EqualLists {
        items,
        offsets,
        base: left.base,
        rows: left.rows,
    };
    let bits = join_parts(alloc, &lists, left, right)?;
    let comparisons = count_items(alloc, left, right, offsets)?;
    Ok(Compared { bits, comparisons })
}

/// Returns whether the rows of a part of the kind `kind` are leaves.
fn is_leaf(kind: PartKind) -> bool
    ensures { IsTrue result → (p : Part) → IsTrue (is_leaf (kind_in kind p [])) }
{
    match kind {
        PartKind::Int8 | PartKind::Int16 | PartKind::Int32 | PartKind::Int64 => true,
        PartKind::UInt8 | PartKind::UInt16 | PartKind::UInt32 | PartKind::UInt64 => true,
        PartKind::Binary | PartKind::LargeBinary | PartKind::Utf8 | PartKind::LargeUtf8 => true,
        PartKind::BinaryView | PartKind::Utf8View => true,
        _ => false,
    }
}

/// Returns whether a part of lists has a name in UTF-8 and holds one array, the part `items`, whose
/// rows are leaves.
fn holds_leaves(list: &Part<'_>, items: &Part<'_>) -> bool
    ensures { IsTrue result → HoldsLeaves list.now items.now }
{
    if list.children != 1 || !is_text(list.name) {
        return false;
    }
    match PartKind::of(items.kind) {
        Some(kind) => is_leaf(kind),
        None => false,
    }
}

/// Compares the lists of two parts, row by row, and their items in place. Returns `None` if
/// `holds_leaves` or `are_alike` refuses a part, or if `compare_in_place` returns `None`. Fails if
/// a part is not good, or if an allocation fails.
fn compare_between<O: Offset>(
    alloc: Global,
    left: &Part<'_>,
    left_items: &Part<'_>,
    left_offsets: &[O],
    right: &Part<'_>,
    right_items: &Part<'_>,
    right_offsets: &[O],
) -> Result<Option<Compared>, Refused>
    ensures { IfOk result (λ found. IfSome found (AreListsCompared
        left.now left_items.now right.now right_items.now
        (places_from left.now.base O.value left_offsets.now)
        (places_from right.now.base O.value right_offsets.now))) }
{
    if !holds_leaves(left, left_items) || !holds_leaves(right, right_items) {
        return Ok(None);
    }
    if !are_alike(left, left_offsets, right, right_offsets, left_items.rows) {
        return Ok(None);
    }
    let Some(items) = compare_in_place(alloc, left_items, right_items)? else {
        return Ok(None);
    };
    if items.bits.len() != left_items.rows {
        return Ok(None);
    }
    let compared = join_lists(alloc, &items, left, right, left_offsets)?;
    Ok(Some(compared))
}

/// Compares two parts of lists, row by row, and the parts of their items in place. Returns `None`
/// if the parts are no lists, differ in kind, or if `compare_between` does. Fails as
/// `compare_between` does.
fn compare_list_parts(
    alloc: Global,
    left: &Part<'_>,
    left_items: &Part<'_>,
    right: &Part<'_>,
    right_items: &Part<'_>,
) -> Result<Option<Compared>, Refused>
    ensures compared { IfOk result (λ found. IfSome found
        (IsComparison (rows_of_parts (left.now ∷ left_items.now ∷ []))
        (rows_of_parts (right.now ∷ right_items.now ∷ [])))) }
    ensures good { IfOk result (λ found. IfSome found
        (λ _. AreGoodParts (left.now ∷ left_items.now ∷ [])
        × AreGoodParts (right.now ∷ right_items.now ∷ []))) }
{
    if left.kind != right.kind {
        return Ok(None);
    }
    law_tally();
    match PartKind::of(left.kind) {
        Some(PartKind::List) => compare_between(
            alloc,
            left,
            left_items,
            left.i32s,
            right,
            right_items,
            right.i32s,
        ),
        Some(PartKind::LargeList) => compare_between(
            alloc,
            left,
            left_items,
            left.i64s,
            right,
            right_items,
            right.i64s,
        ),
        _ => Ok(None),
    }
}

/// Compares two lent lists, row by row, if both have the same offsets, and items that are numbers,
/// strings or views. Compares the items in place, so that no list is built. Returns `None` for all
/// other arrays, and for arrays that are not good. The only error is `Memory`.
pub fn compare_lists(
    alloc: Global,
    left: &[Part<'_>],
    right: &[Part<'_>],
) -> Result<Option<Compared>, Refused>
    ensures compared { IfOk result (λ found. IfSome found
        (IsComparison (rows_of_parts left.now) (rows_of_parts right.now))) }
    ensures good { IfOk result (λ found. IfSome found
        (λ _. AreGoodParts left.now × AreGoodParts right.now)) }
    ensures refused { IfErr result IsMemoryFailure }
{
    if left.len() != 2 || right.len() != 2 {
        return Ok(None);
    }
    match compare_list_parts(alloc, &left[0], &left[1], &right[0], &right[1]) {
        Ok(found) => Ok(found),
        Err(Refused::Memory) => Err(Refused::Memory),
        Err(_) => Ok(None),
    }
}
