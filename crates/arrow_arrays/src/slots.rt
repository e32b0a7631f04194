//! Conversion of a part's validity, numbers, truth values and byte strings to arrays. All data is
//! copied.
//!
//! A part is a lent array without its child arrays. Its field `base` is the offset at which the
//! lent bytes begin.
#![tactic(auto, using(crate::proofs::SlotLemmas::refusals))]

ghost use Rattle.std.specs.Prelude.{◌≡◌, length, IfOk, IfErr};
ghost use Rattle.polars_arrays_bytes.specs.OffsetStrings.{places, row_count};
ghost use Rattle.arrow_arrays.specs.Good.{AreNumbers, ArePlaced, AreSized, AreTextRows, AreTruths};
ghost use Rattle.arrow_arrays.specs.Good.{GoodStrings, HoldRows};
ghost use Rattle.arrow_arrays.specs.Stands.{IsNumbers, IsSizedStrings, IsStrings, IsTruths};
ghost use Rattle.arrow_parts.specs.Lent.{places_from, present_in};
ghost use Rattle.arrow_parts.specs.Refusals.{IsHonest, IsMemoryFailure};

use crate::ends::{LentOffset, ends_from};
use arrow_parts::bits::{bits_of, validity};
use arrow_parts::part::Part;
use arrow_parts::refused::Refused;
use polars_arrays_bits::bitmap::Bitmap;
use polars_arrays_bits::buffer::Buffer;
use polars_arrays_bytes::binary::BinaryArray;
use polars_arrays_bytes::fixed_size::FixedSizeBinaryArray;
use polars_arrays_bytes::text::Utf8Array;
use polars_arrays_flat::boolean::BooleanArray;
use polars_arrays_flat::primitive::PrimitiveArray;
use polars_arrays_numbers::native_type::NativeType;
use std::alloc::Global;

/// Copies the validity bits of a part into a bitmap with a bit for each row. Returns `None` if the
/// part has no validity bits: no row is then null. Fails with `Parts` if the part has validity
/// bits, but fewer than rows, and with `Memory` if an allocation fails.
pub fn present(alloc: Global, part: &Part<'_>) -> Result<Option<Bitmap>, Refused>
    ensures mask { IfOk result (λ bits. bits ≡ present_in part.now) }
    ensures held { IfOk result (λ _. HoldRows part.now) }
    ensures refused { IfErr result (IsHonest (HoldRows part.now)) }
{
    validity(alloc, part.present, part.first_bit, part.rows)
}

/// Copies a slice into a new buffer. The only error is `Memory`.
fn copied<T: Copy>(alloc: Global, elements: &[T]) -> Result<Buffer<T>, Refused>
    ensures copy { IfOk result (λ buffer. buffer.items ≡ elements.now) }
    ensures refused { IfErr result IsMemoryFailure }
{
    Ok(Buffer::from_vec(Vec::from_slice(alloc, elements)?))
}

/// Copies `values`, the numbers of a part, and the validity of the part into an array. Fails with
/// `Parts` if there isn't one number for each row, or if there are fewer validity bits than rows,
/// and with `Memory` if an allocation fails.
pub fn numbers<T: NativeType>(
    alloc: Global,
    part: &Part<'_>,
    values: &[T],
) -> Result<PrimitiveArray<T>, Refused>
    ensures made { IfOk result (IsNumbers part.now values.now) }
    ensures refused { IfErr result (IsHonest (AreNumbers part.now (length values.now))) }
{
    if values.len() != part.rows {
        return Err(Refused::Parts);
    }
    let validity = present(alloc, part)?;
    let values = copied(alloc, values)?;
    let array = PrimitiveArray::try_new(values, validity)?;
    Ok(array)
}

/// Copies the truth values and the validity of a part into a Boolean array. Fails with `Parts` if
/// there are fewer truth values or validity bits than rows, and with `Memory` if an allocation
/// fails.
pub fn truths(alloc: Global, part: &Part<'_>) -> Result<BooleanArray, Refused>
    ensures made { IfOk result (IsTruths part.now) }
    ensures refused { IfErr result (IsHonest (AreTruths part.now)) }
{
    let validity = present(alloc, part)?;
    let values = bits_of(alloc, part.u8s, part.first_bit, part.rows)?;
    let array = BooleanArray::try_new(values, validity)?;
    Ok(array)
}

/// Subtracts `part.base` from `offsets`, the offsets of the part's strings or lists, and returns
/// the results. Fails with `Parts` if there isn't one offset more than rows, or if an offset is
/// less than the base, and with `Memory` if an allocation fails. For a part without rows and
/// without offsets, returns an empty buffer.
pub fn ends<O: LentOffset>(
    alloc: Global,
    part: &Part<'_>,
    offsets: &[O],
) -> Result<Buffer<i64>, Refused>
    ensures count { IfOk result (λ ends. row_count ends.items ≡ part.now.rows) }
    ensures ends { IfOk result
        (λ ends. places (λ x. x) ends.items ≡ places_from part.now.base O.value offsets.now) }
    ensures refused { IfErr result
        (IsHonest (ArePlaced part.now.rows (places_from part.now.base O.value offsets.now))) }
{
    let ends = ends_from(alloc, part.base, offsets)?;
    if ends.len().saturating_sub(1) != part.rows {
        return Err(Refused::Parts);
    }
    Ok(ends)
}

/// Copies the byte strings of a part, which have the offsets `offsets`, and the part's validity
/// into an array. Fails with `Parts` if there isn't one offset more than rows, if an offset is less
/// than `part.base` or than the offset before it, if an offset lies past the bytes, or if there are
/// fewer validity bits than rows. Fails with `Memory` if an allocation fails.
pub fn strings<O: LentOffset>(
    alloc: Global,
    part: &Part<'_>,
    offsets: &[O],
) -> Result<BinaryArray<i64>, Refused>
    ensures made { IfOk result
        (IsStrings part.now (places_from part.now.base O.value offsets.now)) }
    ensures good { IfOk result
        (λ _. GoodStrings (places_from part.now.base O.value offsets.now) part.now) }
    ensures refused { IfErr result
        (IsHonest (GoodStrings (places_from part.now.base O.value offsets.now) part.now)) }
{
    let validity = present(alloc, part)?;
    let ends = ends(alloc, part, offsets)?;
    let bytes = copied(alloc, part.u8s)?;
    let array = BinaryArray::try_new(ends, bytes, validity)?;
    Ok(array)
}

/// Copies the texts of a part, which have the offsets `offsets`, and the part's validity into an
/// array. Fails as `strings` does, and with `Parts` if the text of a row is not UTF-8, even of a
/// null row.
pub fn texts<O: LentOffset>(
    alloc: Global,
    part: &Part<'_>,
    offsets: &[O],
) -> Result<Utf8Array<i64>, Refused>
    ensures made { IfOk result
        (IsStrings part.now (places_from part.now.base O.value offsets.now)) }
    ensures good { IfOk result
        (λ _. AreTextRows part.now (places_from part.now.base O.value offsets.now)) }
    ensures refused { IfErr result
        (IsHonest (AreTextRows part.now (places_from part.now.base O.value offsets.now))) }
{
    let validity = present(alloc, part)?;
    let ends = ends(alloc, part, offsets)?;
    let bytes = copied(alloc, part.u8s)?;
    let array = Utf8Array::try_new(ends, bytes, validity)?;
    Ok(array)
}

/// Copies the byte strings of a part, which have `part.width` bytes each, and the part's validity
/// into an array. Fails with `Parts` if there are not exactly `part.width` bytes for each row, or
/// if there are fewer validity bits than rows. Fails with `Memory` if an allocation fails.
pub fn sized_strings(alloc: Global, part: &Part<'_>) -> Result<FixedSizeBinaryArray, Refused>
    ensures made { IfOk result (IsSizedStrings part.now) }
    ensures refused { IfErr result (IsHonest (AreSized part.now (length part.now.u8s.now))) }
{
    let validity = present(alloc, part)?;
    let values = copied(alloc, part.u8s)?;
    let array = FixedSizeBinaryArray::try_new(part.width, part.rows, values, validity)?;
    Ok(array)
}
