//! Writes JSON lines about columns that only one input has.

ghost use Rattle.std.specs.Prelude.{◌≡◌, ◌++◌, OnOk};
ghost use Rattle.diff_columns.specs.Errors.{word_of};
ghost use Rattle.diff_json.specs.Columns.{column_object};

use crate::strings::push_string;
use diff_columns::error::Side;
use std::alloc::AllocError;

/// Returns the name of a side in JSON: `left` or `right`.
fn word_of(side: Side) -> &'static [u8]
    ensures { result.now ≡ word_of side }
{
    match side {
        Side::Left => b"left",
        Side::Right => b"right",
    }
}

/// Appends the JSON line which says that only the input on side `side` has the column `name`.

pub fn push_json_column(out: &mut Vec<u8>, side: Side, name: &[u8]) -> Result<(), AllocError>
    ensures { OnOk result (out.new.items ≡ out.old.items ++ column_object side name.now) }
{
    out.extend_from_slice(br#"{"kind":"column","column":"#)?;
    push_string(out, name)?;
    out.extend_from_slice(br#","only_in":""#)?;
    out.extend_from_slice(word_of(side))?;
    out.extend_from_slice(b"\"}\n")?;
    Ok(())
}
