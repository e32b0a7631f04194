//! Encodes the key of a row as a byte string.

ghost use Rattle.std.specs.Prelude.{◌≡◌, ◌++◌, OnOk};
ghost use Rattle.diff_merge.specs.Rows.{cells_of};
ghost use Rattle.diff_tables.specs.Keys.{escaped, marked, row_key};

use crate::row::Row;
use std::alloc::AllocError;

/// Appends a byte to `out`. A zero byte is written as the two bytes 0 and 1.
#[inline(always)]
fn push_byte(out: &mut Vec<u8>, byte: u8) -> Result<(), AllocError>
    ensures { OnOk result (out.new.items ≡ out.old.items ++ marked byte) }
{
    if byte == 0 {
        out.push(0)?;
        out.push(1)?;
        return Ok(());
    }
    out.push(byte)?;
    Ok(())
}

/// Appends a byte string to `out`, with each zero byte written as the two bytes 0 and 1, and then
/// the end mark, which is two zero bytes.
fn push_escaped(out: &mut Vec<u8>, string: &[u8]) -> Result<(), AllocError>
    ensures { OnOk result (out.new.items ≡ out.old.items ++ escaped string.now) }
{
    for byte in string {
        push_byte(out, *byte)?;
    }
    out.push(0)?;
    out.push(0)?;
    Ok(())
}

/// Sets `key` to the encoded key of `row`: the cells with the indices `columns`, each encoded by
/// `push_escaped`. The byte order of encoded keys is the order of rows by these cells: the first
/// column decides, and equal cells are decided by the next column.
pub(crate) fn write_key(
    key: &mut Vec<u8>,
    row: &Row<'_>,
    columns: &[usize],
) -> Result<(), AllocError>
    ensures { OnOk result (key.new.items ≡ row_key columns.now (cells_of row.now)) }
{
    key.clear();
    for column in columns {
        push_escaped(key, row.cell(*column))?;
    }
    Ok(())
}
