//! Comparison of two parts of strings, in the memory of the parts.
#![tactic(auto)]

ghost use Rattle.std.specs.Prelude.{◌≡◌, ◌-◌, ◌^◌, ◌∷◌, [], true, length, min};
ghost use Rattle.std.specs.Prelude.{IfErr, IfOk, IfSome};
ghost use Rattle.polars_arrays_bytes.specs.OffsetStrings.{strings_between};
ghost use Rattle.polars_compare_leaves.specs.Joining.{Joined};
ghost use Rattle.arrow_arrays.specs.Columns.{rows_of_parts};
ghost use Rattle.arrow_arrays.specs.Good.{AreGoodParts, HoldRows};
ghost use Rattle.arrow_parts.specs.Lent.{places_from, present_in};
ghost use Rattle.arrow_parts.specs.Refusals.{IsHonest};
ghost use Rattle.arrow_equality.specs.Equal.{IsComparison, IsRefusedComparison};
ghost use Rattle.arrow_equality.specs.PartStrings.{ArePartStrings, same_strings};
ghost use Rattle.arrow_equality.specs.Strings.{AreComparedStrings};

use crate::compared::Compared;
use crate::numbers::compare_numbers_in_place;
use crate::part_strings::{PartStrings, StringPairs};
use crate::views::compare_views;
use arrow_parts::bits::validity;
use arrow_parts::part::{Part, PartKind};
use arrow_parts::refused::Refused;
use polars_arrays_bits::bitmap::Bitmap;
use polars_arrays_bits::packing::TruthValues;
use polars_arrays_flat::mask::Mask;
use polars_arrays_numbers::offset::Offset;
use polars_arrays_numbers::steps::Steps;
use polars_compare_leaves::joining::{RawValues, Relation, join_masks};
use std::alloc::Global;

/// Combines truth values, which say for each row of two parts whether the stored rows are equal,
/// with the validities of the parts. Returns the bits of missing equality: null is equal to null
/// alone. Fails with `Parts` if a part has fewer validity bits than rows, and with `Memory` if an
/// allocation fails.
pub fn join_parts<R: RawValues + Drop>(
    alloc: Global,
    equal: R,
    left: &Part<'_>,
    right: &Part<'_>,
) -> Result<Bitmap, Refused>
    requires left { length (R.values equal) ≡ left.now.rows }
    requires right { length (R.values equal) ≡ right.now.rows }
    ensures joined { IfOk result
        (Joined true (present_in left.now) (present_in right.now) (R.values equal)) }
    ensures held { IfOk result (λ _. HoldRows left.now × HoldRows right.now) }
    ensures refused { IfErr result (IsHonest (HoldRows left.now × HoldRows right.now)) }
{
    let left_bits = validity(alloc, left.present, left.first_bit, left.rows)?;
    let right_bits = validity(alloc, right.present, right.first_bit, right.rows)?;
    let left_mask = Mask::lent(left_bits.as_ref());
    let right_mask = Mask::lent(right_bits.as_ref());
    let bits = join_masks(
        alloc,
        Relation::Equal,
        equal,
        left_mask.bits(),
        right_mask.bits(),
    )?;
    Ok(bits)
}

/// Compares the rows of two parts, given truth values that say for each row whether the stored rows
/// are equal. Counts one comparison for each row. Fails as `join_parts` does.
pub fn compare_joined<V: TruthValues>(
    alloc: Global,
    equal: &V,
    left: &Part<'_>,
    right: &Part<'_>,
) -> Result<Compared, Refused>
    requires left { length (V.values equal.now) ≡ left.now.rows }
    requires right { length (V.values equal.now) ≡ right.now.rows }
    ensures joined { IfOk result (λ c.
        Joined true (present_in left.now) (present_in right.now) (V.values equal.now) c.bits) }
    ensures held { IfOk result (λ _. HoldRows left.now × HoldRows right.now) }
    ensures count { IfOk result (λ c. c.comparisons ≡ min left.now.rows (2 ^ 64 - 1)) }
    ensures refused { IfErr result (IsHonest (HoldRows left.now × HoldRows right.now)) }
{
    let bits = join_parts(alloc, equal, left, right)?;
    let mut steps = Steps::new();
    steps.add(left.rows);
    let comparisons = steps.seen();
    Ok(Compared { bits, comparisons })
}

/// Borrows the strings of two parts of equally many rows, which have the offsets `left_offsets` and
/// `right_offsets`. Returns `None` if the parts differ in length, or if `PartStrings::of_part`
/// refuses one.
#[tactic(auto, using(crate::proofs::StringColumns::pairs))]
fn pairs_of<'a, O: Offset>(
    left: &Part<'a>,
    left_offsets: &'a [O],
    right: &Part<'a>,
    right_offsets: &'a [O],
    texts: bool,
) -> Option<StringPairs<'a, O>>
    ensures left_good { IfSome result (λ _. ArePartStrings left.now
        (places_from left.now.base O.value left_offsets.now) texts) }
    ensures right_good { IfSome result (λ _. ArePartStrings right.now
        (places_from right.now.base O.value right_offsets.now) texts) }
    ensures one_length { IfSome result (λ _. left.now.rows ≡ right.now.rows) }
    ensures pairs { IfSome result (λ p. same_strings p.left p.right p.n
        ≡ same_strings
        (strings_between (places_from left.now.base O.value left_offsets.now) left.now.u8s.now)
        (strings_between (places_from right.now.base O.value right_offsets.now) right.now.u8s.now)
        left.now.rows) }
{
    if left.rows != right.rows {
        return None;
    }
    let left_strings = PartStrings::of_part(left, left_offsets, texts)?;
    let right_strings = PartStrings::of_part(right, right_offsets, texts)?;
    Some(StringPairs {
        left: left_strings,
        right: right_strings,
        n: left.rows,
    })
}

/// Compares the strings of two parts, which have the offsets `left_offsets` and `right_offsets`,
/// row by row, with one comparison for each row. If `texts` is true, the strings have to be UTF-8.
/// Returns `None` if `pairs_of` does. Fails with `Parts` if a part has fewer validity bits than
/// rows, and with `Memory` if an allocation fails.
fn compare_strings<O: Offset>(
    alloc: Global,
    left: &Part<'_>,
    left_offsets: &[O],
    right: &Part<'_>,
    right_offsets: &[O],
    texts: bool,
) -> Result<Option<Compared>, Refused>
    ensures compared { IfOk result (λ found. IfSome found
        (AreComparedStrings left.now right.now
        (places_from left.now.base O.value left_offsets.now)
        (places_from right.now.base O.value right_offsets.now) texts)) }
    ensures refused { IfErr result (IsHonest (HoldRows left.now × HoldRows right.now)) }
{
    let Some(pairs) = pairs_of(left, left_offsets, right, right_offsets, texts) else {
        return Ok(None);
    };
    let compared = compare_joined(alloc, &pairs, left, right)?;
    Ok(Some(compared))
}

/// Compares two parts of the same kind, row by row, if both store equally many strings between
/// offsets, views, or numbers of up to 64 bits, and are good parts by themselves. Copies only the
/// validities. Returns `None` if the parts are of another kind, differ in kind or length, or are
/// not good. Fails with `Parts` if a part has fewer validity bits than rows, and with `Memory` if
/// an allocation fails.
pub fn compare_in_place(
    alloc: Global,
    left: &Part<'_>,
    right: &Part<'_>,
) -> Result<Option<Compared>, Refused>
    ensures compared { IfOk result (λ found. IfSome found
        (IsComparison (rows_of_parts (left.now ∷ [])) (rows_of_parts (right.now ∷ [])))) }
    ensures good { IfOk result (λ found. IfSome found
        (λ _. AreGoodParts (left.now ∷ []) × AreGoodParts (right.now ∷ []))) }
    ensures refused { IfErr result (IsRefusedComparison (left.now ∷ []) (right.now ∷ [])) }
{
    if left.kind != right.kind {
        return Ok(None);
    }
    match PartKind::of(left.kind) {
        Some(PartKind::Binary) => {
            compare_strings(alloc, left, left.i32s, right, right.i32s, false)
        }
        Some(PartKind::LargeBinary) => {
            compare_strings(alloc, left, left.i64s, right, right.i64s, false)
        }
        Some(PartKind::Utf8) => compare_strings(alloc, left, left.i32s, right, right.i32s, true),
        Some(PartKind::LargeUtf8) => {
            compare_strings(alloc, left, left.i64s, right, right.i64s, true)
        }
        Some(PartKind::BinaryView) => compare_views(alloc, left, right, false),
        Some(PartKind::Utf8View) => compare_views(alloc, left, right, true),
        Some(kind) => compare_numbers_in_place(alloc, kind, left, right),
        None => Ok(None),
    }
}
