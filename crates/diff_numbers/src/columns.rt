//! Selects the columns whose numbers are compared by value.

ghost use Rattle.std.specs.Prelude.{◌≡◌, IfOk};
ghost use Rattle.diff_columns.specs.Names.{names_of};
ghost use Rattle.diff_numbers.specs.Columns.{is_named, number_columns};
ghost use Rattle.polars_arrays_bytes.specs.OffsetStrings.{offset_strings};

use polars_arrays_bytes::binary::BinaryArray;
use polars_arrays_flat::byte_rows::ByteRows;
use std::alloc::{AllocError, Global};

/// Returns whether `names` contains `name`.
fn is_named(names: &[&[u8]], name: &[u8]) -> bool
    ensures { result ≡ is_named (names_of names.now) name.now }
{
    names.contains(&name)
}

/// Returns for each column whether its numbers are compared by value: `true`, unless `texts`
/// contains the name of the column. `names` has the names of all columns.
pub fn number_columns(
    alloc: Global,
    names: &BinaryArray<i64>,
    texts: &[&[u8]],
) -> Result<Vec<bool>, AllocError>
    ensures { IfOk result
        (λ numeric. numeric.items
        ≡ number_columns (names_of texts.now) (offset_strings (λ x. x) names.now)) }
{
    let mut numeric = Vec::with_capacity(alloc, names.count())?;
    for column in 0..names.count() {
        numeric.push(!is_named(texts, names.bytes(column)))?;
    }
    Ok(numeric)
}
