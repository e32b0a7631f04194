//! Counts different byte strings.

ghost use Rattle.std.specs.Prelude.{◌≡◌, MatchResult};
ghost use Rattle.std.specs.Str.{bytes_eq};
ghost use Rattle.polars_arrays_bits.specs.Errors.{IsMemory};
ghost use Rattle.polars_arrays_bytes.specs.OffsetStrings.{offset_strings};
ghost use Rattle.schema_values.specs.Distinct.{distinct_total};

use polars_arrays_bits::error::ComputeError;
use polars_arrays_bytes::binary::BinaryArray;
use polars_arrays_flat::byte_rows::ByteRows;
use std::alloc::Global;
use std::collections::HashMap;

/// Returns the number of different byte strings in `cells`. The only error is `Memory`.
pub fn count_strings(alloc: Global, cells: &BinaryArray<i64>) -> Result<usize, ComputeError>
    ensures { MatchResult result
        (λ count. count ≡ distinct_total bytes_eq (offset_strings (λ x. x) cells.now)) IsMemory }
{
    let mut seen = HashMap::new(alloc);
    let mut count: usize = 0;
    let all = cells.count();
    for k in 0..all {
        let old = seen.insert(cells.bytes(all - 1 - k), k)?;
        count += usize::from(old.is_none());
    }
    Ok(count)
}
