//! Encodes the keys of a table's rows.

ghost use Rattle.std.specs.Prelude.{◌≡◌, ◌<◌, [], All, length, get_or, OnOk, MatchResult};
ghost use Rattle.polars_arrays_bits.specs.Errors.{IsMemory};
ghost use Rattle.polars_arrays_bytes.specs.OffsetStrings.{offset_strings};
ghost use Rattle.diff_tables.specs.Keys.{row_key, row_keys};

use crate::escaped::push_escaped;
use crate::strings::Strings;
use crate::table::Table;
use polars_arrays_bits::error::ComputeError;
use polars_arrays_bytes::binary::BinaryArray;
use std::alloc::{AllocError, Global};

/// Sets `key` to the encoded key of row `i` of `table`: the row's cells in `columns`, each with an
/// end mark (`push_escaped`). After an error, `key` may have only a part of the encoded key.
fn write_key(
    key: &mut Vec<u8>,
    table: &Table,
    i: usize,
    columns: &[usize],
) -> Result<(), AllocError>
    requires row { i < length table.now.rows }
    requires columns { All (λ c. c < table.now.width) columns.now }
    ensures { OnOk result (key.new.items ≡ row_key columns.now (get_or table.now.rows i [])) }
{
    key.clear();
    for column in columns {
        push_escaped(key, table.cell(i, *column))?;
    }
    Ok(())
}

/// Returns the encoded key of each row of a table. `columns` are the indices of the key columns:
/// two rows have the same key exactly if they have the same cells in these columns. The only error
/// is `Memory`.
pub fn keys_of(
    alloc: Global,
    table: &Table,
    columns: &[usize],
) -> Result<BinaryArray<i64>, ComputeError>
    requires { All (λ c. c < table.now.width) columns.now }
    ensures { MatchResult result
        (λ keys. offset_strings (λ x. x) keys ≡ row_keys columns.now table.now.rows) IsMemory }
{
    let mut keys = Strings::new(alloc)?;
    let mut key = Vec::new(alloc);
    for i in 0..table.count() {
        write_key(&mut key, table, i, columns)?;
        keys.push(&key)?;
    }
    let array = keys.into_array(alloc)?;
    Ok(array)
}
