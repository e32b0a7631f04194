//! Converts cells to integers.

ghost use Rattle.std.specs.List.{All};
ghost use Rattle.std.specs.Prelude.{◌≡◌, map, IfOk};
ghost use Rattle.std.specs.Option.{SomeIff};
ghost use Rattle.polars_arrays_bytes.specs.OffsetStrings.{offset_strings};
ghost use Rattle.schema_columns.specs.Kinds.{IsWhole, whole_of};

use diff_numbers::cells::number_in;
use json_decimals::numbers::{is_negative, numeral_of};
use polars_arrays_bytes::binary::BinaryArray;
use polars_arrays_flat::byte_rows::ByteRows;
use std::alloc::{AllocError, Global};

/// Returns the integer in a cell. Returns `None` if the cell is not an integer as in `Kind::Whole`.
pub(crate) fn whole_in(cell: &[u8]) -> Option<i64>
    ensures { SomeIff result (IsWhole cell.now) (whole_of cell.now) }
{
    let text = number_in(cell)?;
    let bytes = text.as_bytes();
    numeral_of(bytes).to_i64(is_negative(bytes))
}

/// Returns the integer in each cell. Each cell must be an integer.
pub(crate) fn wholes_of(alloc: Global, cells: &BinaryArray<i64>) -> Result<Vec<i64>, AllocError>
    requires { All IsWhole (offset_strings (λ x. x) cells.now) }
    ensures { IfOk result
        (λ wholes. wholes.items ≡ map whole_of (offset_strings (λ x. x) cells.now)) }
{
    let mut wholes = Vec::with_capacity(alloc, cells.count())?;
    for i in 0..cells.count() {
        match whole_in(cells.bytes(i)) {
            Some(whole) => wholes.push(whole)?,
            None => unreachable!(),
        }
    }
    Ok(wholes)
}
