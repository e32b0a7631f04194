//! Writes the keys of rows.

ghost use Rattle.std.specs.Prelude.{◌≡◌, ◌<◌, ◌++◌, length, map, codes, OnOk};
ghost use Rattle.diff_words.specs.Lists.{listed};
ghost use Rattle.diff_report.specs.Rows.{key_text, row_text};
ghost use Rattle.diff_report.specs.Sides.{AreSides, IsSide, naming_of, row_of};

use crate::sides::{Side, Sides};
use diff_words::decimals::push_decimal;
use diff_words::lists::push_gap;
use diff_words::words::push_word;
use polars_arrays_flat::byte_rows::ByteRows;
use std::alloc::AllocError;

/// Appends `COLUMN=CELL` for a key column of row `i` of `side`.
fn push_key(
    out: &mut Vec<u8>,
    sides: &Sides,
    side: &Side,
    i: usize,
    column: usize,
) -> Result<(), AllocError>
    requires side { IsSide (naming_of sides.now) side.now }
    requires row { i < length side.now.table.rows }
    requires column { column < length (naming_of sides.now).names }
    ensures { OnOk result
        (out.new.items ≡ out.old.items
        ++ key_text (naming_of sides.now) (row_of side.now i) column) }
{
    push_word(out, sides.names.bytes(column))?;
    out.push(b'=')?;
    push_word(out, side.table.cell(i, column))?;
    Ok(())
}

/// Appends `COLUMN=CELL` for each key column of row `i` of `side`, with commas between the columns.
fn push_keys(out: &mut Vec<u8>, sides: &Sides, side: &Side, i: usize) -> Result<(), AllocError>
    requires sides { AreSides sides.now }
    requires side { IsSide (naming_of sides.now) side.now }
    requires row { i < length side.now.table.rows }
    ensures { OnOk result
        (out.new.items ≡ out.old.items
        ++ listed (codes ",")
        (map (key_text (naming_of sides.now) (row_of side.now i)) sides.now.keys.items)) }
{
    for k in 0..sides.keys.len() {
        push_gap(out, b",", k)?;
        push_key(out, sides, side, i, sides.keys[k])?;
    }
    Ok(())
}

/// Appends the key of row `i` of `side`: `COLUMN=CELL` for each key column. If there are no key
/// columns, appends `row N`, where N is `i + 1`.
#[tactic(auto, unfolding(crate::specs::Rows::row_text))]
pub(crate) fn push_row(
    out: &mut Vec<u8>,
    sides: &Sides,
    side: &Side,
    i: usize,
) -> Result<(), AllocError>
    requires sides { AreSides sides.now }
    requires side { IsSide (naming_of sides.now) side.now }
    requires row { i < length side.now.table.rows }
    ensures { OnOk result
        (out.new.items ≡ out.old.items ++ row_text (naming_of sides.now) i (row_of side.now i)) }
{
    if sides.keys.is_empty() {
        out.extend_from_slice(b"row ")?;
        push_decimal(out, i + 1)?;
        return Ok(());
    }
    push_keys(out, sides, side, i)?;
    Ok(())
}
