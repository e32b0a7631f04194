//! Comparison of two parts of numbers, in the memory of the parts.
#![tactic(auto)]

ghost use Rattle.std.specs.Prelude.{◌≡◌, ◌∷◌, [], Some, length, IfErr, IfOk, IfSome, IsTrue};
ghost use Rattle.arrow_arrays.specs.Columns.{rows_of_parts};
ghost use Rattle.arrow_arrays.specs.Good.{AreGoodParts, HoldRows};
ghost use Rattle.arrow_parts.specs.Kinds.{kind_number};
ghost use Rattle.arrow_parts.specs.Refusals.{IsHonest};
ghost use Rattle.arrow_equality.specs.Equal.{IsComparison, IsRefusedComparison};
ghost use Rattle.arrow_equality.specs.Numbers.{AreComparedNumbers, ArePartNumbers};

use crate::compared::Compared;
use crate::part_strings::is_text;
use crate::strings::compare_joined;
use arrow_parts::part::{Part, PartKind};
use arrow_parts::refused::Refused;
use polars_arrays_bits::slices::SlicePairs;
use polars_arrays_numbers::comparison::Equal;
use polars_arrays_numbers::native_type::NativeType;
use std::alloc::Global;

/// Returns whether a part without child arrays has `n` rows, and a name in UTF-8. The validity is
/// not checked.
fn are_part_numbers(part: &Part<'_>, n: usize) -> bool
    ensures { IsTrue result → ArePartNumbers part.now n }
{
    part.children == 0 && part.rows == n && is_text(part.name)
}

/// Compares the numbers of two parts, row by row, with one comparison for each row. Returns `None`
/// if `are_part_numbers` refuses a part, or if the parts differ in length. Fails with `Parts` if a
/// part has fewer validity bits than rows, and with `Memory` if an allocation fails.
fn compare_numbers<T: NativeType>(
    alloc: Global,
    left: &Part<'_>,
    left_values: &[T],
    right: &Part<'_>,
    right_values: &[T],
) -> Result<Option<Compared>, Refused>
    ensures compared { IfOk result (λ found. IfSome found
        (AreComparedNumbers T.value left.now right.now left_values.now right_values.now)) }
    ensures refused { IfErr result (IsHonest (HoldRows left.now × HoldRows right.now)) }
{
    if left_values.len() != right_values.len() {
        return Ok(None);
    }
    if !are_part_numbers(left, left_values.len()) || !are_part_numbers(right, right_values.len()) {
        return Ok(None);
    }
    let pairs = SlicePairs {
        comparison: &Equal,
        left: left_values,
        right: right_values,
    };
    let compared = compare_joined(alloc, &pairs, left, right)?;
    Ok(Some(compared))
}

/// Compares two parts of the kind `kind`, row by row, if they store numbers of up to 64 bits and
/// are good parts by themselves. Copies only the validities. Returns `None` if the kind is another,
/// or if `compare_numbers` does. Fails as `compare_numbers` does.
pub fn compare_numbers_in_place(
    alloc: Global,
    kind: PartKind,
    left: &Part<'_>,
    right: &Part<'_>,
) -> Result<Option<Compared>, Refused>
    requires left { kind_number left.now.kind ≡ Some kind }
    requires right { kind_number right.now.kind ≡ Some kind }
    ensures compared { IfOk result (λ found. IfSome found
        (IsComparison (rows_of_parts (left.now ∷ [])) (rows_of_parts (right.now ∷ [])))) }
    ensures good { IfOk result (λ found. IfSome found
        (λ _. AreGoodParts (left.now ∷ []) × AreGoodParts (right.now ∷ []))) }
    ensures refused { IfErr result (IsRefusedComparison (left.now ∷ []) (right.now ∷ [])) }
{
    match kind {
        PartKind::Int8 => compare_numbers(alloc, left, left.i8s, right, right.i8s),
        PartKind::Int16 => compare_numbers(alloc, left, left.i16s, right, right.i16s),
        PartKind::Int32 => compare_numbers(alloc, left, left.i32s, right, right.i32s),
        PartKind::Int64 => compare_numbers(alloc, left, left.i64s, right, right.i64s),
        PartKind::UInt8 => compare_numbers(alloc, left, left.u8s, right, right.u8s),
        PartKind::UInt16 => compare_numbers(alloc, left, left.u16s, right, right.u16s),
        PartKind::UInt32 => compare_numbers(alloc, left, left.u32s, right, right.u32s),
        PartKind::UInt64 => compare_numbers(alloc, left, left.u64s, right, right.u64s),
        _ => Ok(None),
    }
}
