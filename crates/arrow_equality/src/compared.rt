//! The result of a comparison of two arrays: bits, and a count of comparisons.

ghost use Rattle.std.specs.Prelude.{◌≡◌, length, slice_index_or, OnErr, OnOk, IfErr, IfOk};
ghost use Rattle.polars_arrays_nested.specs.GoodParts.{IsGood};
ghost use Rattle.polars_arrays_nested.specs.Lengths.{len_of};
ghost use Rattle.polars_arrays_nested.specs.Types.{type_of};
ghost use Rattle.arrow_equality.specs.Compared.{AreCompared, IsCounted};
ghost use Rattle.arrow_equality.specs.Equal.{HaveRoom};
ghost use Rattle.arrow_parts.specs.Refusals.{IsMemoryFailure};
ghost use Rattle.arrow_parts.specs.Written.{AreWritten};
ghost use Rattle.arrow_parts.specs.declared.refused.Refused.TheVariants.{Room};

use arrow_parts::refused::Refused;
use arrow_parts::written::write_bits;
use polars_arrays_bits::bitmap::Bitmap;
use polars_arrays_nested::any_array::AnyArray;
use polars_arrays_numbers::steps::Steps;
use polars_compare_nested::kernels::array_tot_eq_missing_kernel_with_steps;
use std::alloc::Global;

/// The result of a comparison of two arrays. `bits` has a bit for each row, 1 if the two rows are
/// equal. `comparisons` is the number of comparisons of leaves, or `u64::MAX` if there were more.
#[derive(Drop)]
pub struct Compared {
    pub bits: Bitmap,
    pub comparisons: u64,
}

/// Compares two arrays of the same type and length, row by row, with at most one comparison for
/// each leaf slot of the left array. Null is equal to null alone. The only error is `Memory`.
pub fn compare(alloc: Global, left: &AnyArray, right: &AnyArray) -> Result<Compared, Refused>
    requires left_good { IsGood left.now }
    requires right_good { IsGood right.now }
    requires one_type { type_of left.now ≡ type_of right.now }
    requires one_length { len_of left.now ≡ len_of right.now }
    ensures compared { IfOk result (AreCompared left.now right.now) }
    ensures refused { IfErr result IsMemoryFailure }
{
    let mut steps = Steps::new();
    let bits = array_tot_eq_missing_kernel_with_steps(alloc, left, right, &mut steps)?;
    Ok(Compared {
        bits,
        comparisons: steps.seen(),
    })
}

/// Writes the bits of `compared` into `out`, the first one into the lowest bit of the first word,
/// and sets all later bits to 0. Sets `comparisons[0]` to the number of comparisons. Fails with
/// `Room` if `out` has fewer bits than rows or `comparisons` is empty. Both slices are then
/// unchanged.
pub fn write(compared: &Compared, out: &mut [u64], comparisons: &mut [u64]) -> Result<(), Refused>
    ensures bits { OnOk result (AreWritten compared.now.bits out.new) }
    ensures count { OnOk result (slice_index_or comparisons.new 0 0 ≡ compared.now.comparisons) }
    ensures refused { IfErr result (λ e. e ≡ Room) }
    ensures room { OnErr result (¬ (HaveRoom (length compared.now.bits) out.old comparisons.old)) }
    ensures kept { OnErr result (out.new ≡ out.old) }
    ensures count_kept { OnErr result (comparisons.new ≡ comparisons.old) }
{
    if comparisons.is_empty() {
        return Err(Refused::Room);
    }
    write_bits(&compared.bits, out)?;
    comparisons[0] = compared.comparisons;
    Ok(())
}
