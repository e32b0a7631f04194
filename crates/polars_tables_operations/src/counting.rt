//! Counts bits in each row of an array.

ghost use Rattle.std.specs.Prelude.{MatchResult};
ghost use Rattle.polars_arrays_bits.specs.Errors.{IsMemory};
ghost use Rattle.polars_arrays_flat.specs.StoredRows.{rows_under};
ghost use Rattle.polars_compute_reductions.specs.Bitwise.{AreCounts};
ghost use Rattle.polars_tables_operations.specs.Bits.{count_of};
ghost use Rattle.polars_tables_rows.specs.Types.{width_of};

use crate::kernel_array::KernelArray;
use crate::operation::BitCount;
use polars_arrays_bits::error::ComputeError;
use polars_arrays_flat::primitive::PrimitiveArray;
use std::alloc::Global;

/// Counts in each row the bits of the group `count`, such as the 1 bits, and returns the counts.
/// Null rows stay null. The only error is `Memory`.
pub fn count_bits<A: KernelArray>(
    alloc: Global,
    count: BitCount,
    array: &A,
) -> Result<PrimitiveArray<u32>, ComputeError>
    ensures { MatchResult result
        (AreCounts (count_of count) (width_of A.kind)
        (rows_under (A.mask array.now) (A.slots array.now))) IsMemory }
{
    match count {
        BitCount::Ones => array.count_ones(alloc),
        BitCount::Zeros => array.count_zeros(alloc),
        BitCount::LeadingOnes => array.leading_ones(alloc),
        BitCount::LeadingZeros => array.leading_zeros(alloc),
        BitCount::TrailingOnes => array.trailing_ones(alloc),
        BitCount::TrailingZeros => array.trailing_zeros(alloc),
    }
}
