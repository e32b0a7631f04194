//! Null rows of lent arrays.
#![tactic(auto, using(crate::proofs::NullRows::nulls))]

ghost use Rattle.std.specs.Prelude.{◌≡◌, length, IfErr, IfOk, MatchResult, OnErr, OnOk};
ghost use Rattle.polars_arrays_bits.specs.Errors.{IsMemory};
ghost use Rattle.polars_arrays_nested.specs.AnyRows.{row};
ghost use Rattle.polars_arrays_nested.specs.GoodParts.{IsGood};
ghost use Rattle.polars_arrays_nested.specs.Lengths.{len_of};
ghost use Rattle.arrow_arrays.specs.Columns.{rows_of_parts};
ghost use Rattle.arrow_arrays.specs.Good.{AreGoodParts};
ghost use Rattle.arrow_equality.specs.Nulls.{AreNullIn, IsTrueNullRefusal, null_bits};
ghost use Rattle.arrow_parts.specs.Refusals.{IsHonest};

use arrow_arrays::build::build;
use arrow_parts::part::Part;
use arrow_parts::refused::Refused;
use arrow_parts::written::write_bits;
use polars_arrays_bits::bitmap::Bitmap;
use polars_arrays_bits::builder::BitmapBuilder;
use polars_arrays_bits::error::ComputeError;
use polars_arrays_nested::any_array::AnyArray;
use std::alloc::Global;

/// Returns a bit for each row of an array, 1 if the row is null. The only error is `Memory`.
fn nulls_of(alloc: Global, array: &AnyArray) -> Result<Bitmap, ComputeError>
    requires { IsGood array.now }
    ensures { MatchResult result
        (λ bits. bits ≡ null_bits (row array.now) (len_of array.now)) IsMemory }
{
    let n = array.len();
    let mut bits = BitmapBuilder::with_capacity(alloc, n)?;
    for i in 0..n {
        bits.push_reserved(array.is_null_row(i));
    }
    Ok(bits.freeze())
}

/// Builds an array from `parts`, and returns a bit for each row, 1 if the row is null. Fails with
/// `Parts` if the parts make no array, and with `Memory` if an allocation fails.
fn part_nulls(alloc: Global, parts: &[Part<'_>]) -> Result<Bitmap, Refused>
    ensures bits { IfOk result (λ bits. bits
        ≡ null_bits (rows_of_parts parts.now).row (rows_of_parts parts.now).len) }
    ensures good { IfOk result (λ _. AreGoodParts parts.now) }
    ensures refused { IfErr result (IsHonest (AreGoodParts parts.now)) }
{
    let array = build(alloc, parts)?;
    let bits = nulls_of(alloc, &array)?;
    Ok(bits)
}

/// Sets bit `i` of `out` if row `i` of a lent array is null, and sets all bits past the last row to
/// 0. Sets `count` to the number of null rows.
///
/// Fails with `Parts` if the parts make no array, with `Room` if `out` has fewer bits than rows,
/// and with `Memory` if an allocation fails. `out` and `count` are then unchanged.
pub fn null_rows(
    alloc: Global,
    parts: &[Part<'_>],
    out: &mut [u64],
    count: &mut u64,
) -> Result<(), Refused>
    ensures written { OnOk result (AreNullIn parts.now out.new count.new) }
    ensures good { OnOk result (AreGoodParts parts.now) }
    ensures kept { OnErr result (out.new ≡ out.old) }
    ensures count_kept { OnErr result (count.new ≡ count.old) }
    ensures refused { IfErr result (IsTrueNullRefusal (length out.old) parts.now) }
{
    let bits = part_nulls(alloc, parts)?;
    write_bits(&bits, out)?;
    *count = bits.set_bits() as u64;
    Ok(())
}
