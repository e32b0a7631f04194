//! Formats the results of kernels as text.

ghost use Rattle.std.specs.Prelude.{◌≡◌, [], ◌∷◌, pos, Err, IfErr, MatchResult};
ghost use Rattle.std.specs.String.{string_bytes};
ghost use Rattle.polars_arrays_bits.specs.Errors.{IsMemory};
ghost use Rattle.polars_arrays_flat.specs.Row.{Int};
ghost use Rattle.polars_arrays_flat.specs.StoredRows.{rows_under};
ghost use Rattle.polars_tables_operations.specs.Answers.{told};
ghost use Rattle.polars_tables_rows.specs.Faults.{Tells};
ghost use Rattle.polars_tables_rows.specs.declared.fault.LineError.TheVariants.{Memory};

use polars_arrays_bits::error::ComputeError;
use polars_tables_rows::fault::{LineError, or_memory};
use polars_tables_rows::row_array::RowArray;
use polars_tables_rows::written::write_rows;
use std::alloc::Global;

// Formats the rows of `made`, the result of a kernel, as text. The only error is `Memory`. `made`
// must not be another error.
pub(crate) fn write_made<A: RowArray>(
    alloc: Global,
    made: Result<A, ComputeError>,
) -> Result<String, LineError>
    requires { IfErr made IsMemory }
    ensures { MatchResult made
        (λ a. Tells string_bytes (told (rows_under (A.mask a) (A.slots a))) result)
        (λ e. result ≡ Err Memory) }
{
    let rows = or_memory(made)?;
    Ok(write_rows(alloc, &rows)?)
}

// Formats a count as text. The only error is `Memory`.
pub(crate) fn write_count(alloc: Global, count: usize) -> Result<String, LineError>
    ensures { Tells string_bytes (told (Int (pos count) ∷ [])) result }
{
    Ok(count.to_string(alloc)?)
}
