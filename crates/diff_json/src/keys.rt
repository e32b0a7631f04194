//! Writes the key of a row, as members of a JSON object.

ghost use Rattle.std.specs.Prelude.{◌≡◌, ◌<◌, ◌++◌, length, OnOk};
ghost use Rattle.diff_report.specs.Sides.{AreSides, IsSide, naming_of, row_of};
ghost use Rattle.diff_json.specs.Keys.{key_member, key_members};

use crate::strings::push_string;
use diff_report::sides::{Side, Sides};
use diff_words::lists::push_gap;
use polars_arrays_flat::byte_rows::ByteRows;
use std::alloc::AllocError;

/// Appends the member `"COLUMN":"CELL"` for a key column of row `i` of `side`.
fn push_key(
    out: &mut Vec<u8>,
    sides: &Sides,
    side: &Side,
    i: usize,
    column: usize,
) -> Result<(), AllocError>
    requires side { IsSide (naming_of sides.now) side.now }
    requires row { i < length side.now.table.rows }
    requires column { column < length (naming_of sides.now).names }
    ensures { OnOk result
        (out.new.items ≡ out.old.items
        ++ key_member (naming_of sides.now) (row_of side.now i) column) }
{
    push_string(out, sides.names.bytes(column))?;
    out.push(b':')?;
    push_string(out, side.table.cell(i, column))?;
    Ok(())
}

/// Appends the member `"COLUMN":"CELL"` for each key column of row `i` of `side`, with commas
/// between the members.
pub(crate) fn push_keys(
    out: &mut Vec<u8>,
    sides: &Sides,
    side: &Side,
    i: usize,
) -> Result<(), AllocError>
    requires sides { AreSides sides.now }
    requires side { IsSide (naming_of sides.now) side.now }
    requires row { i < length side.now.table.rows }
    ensures { OnOk result
        (out.new.items ≡ out.old.items ++ key_members (naming_of sides.now) (row_of side.now i)) }
{
    for k in 0..sides.keys.len() {
        push_gap(out, b",", k)?;
        push_key(out, sides, side, i, sides.keys[k])?;
    }
    Ok(())
}
