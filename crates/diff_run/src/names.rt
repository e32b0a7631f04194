//! Selects the names of the columns that are compared.

ghost use Rattle.std.specs.Prelude.{◌≡◌, ◌<◌, [], All, get_or, length, map, IfOk};
ghost use Rattle.polars_arrays_bytes.specs.OffsetStrings.{offset_strings};
ghost use Rattle.diff_tables.specs.Keys.{cells_at};

use diff_tables::strings::Strings;
use polars_arrays_bits::error::ComputeError;
use polars_arrays_bytes::binary::BinaryArray;
use polars_arrays_flat::byte_rows::ByteRows;
use std::alloc::Global;

/// Returns the names of `columns`, which are indices into `names`.
pub(crate) fn names_at(
    alloc: Global,
    names: &BinaryArray<i64>,
    columns: &[usize],
) -> Result<BinaryArray<i64>, ComputeError>
    requires { All (λ c. c < length (offset_strings (λ x. x) names.now)) columns.now }
    ensures { IfOk result
        (λ chosen. offset_strings (λ x. x) chosen
        ≡ cells_at columns.now (offset_strings (λ x. x) names.now)) }
{
    let mut chosen = Strings::new(alloc)?;
    for column in columns {
        chosen.push(names.bytes(*column))?;
    }
    let array = chosen.into_array(alloc)?;
    Ok(array)
}
