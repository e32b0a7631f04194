//! Writes cells of CSV as JSON values.

ghost use Rattle.std.specs.Option.{option_map};
ghost use Rattle.std.specs.Prelude.{◌≡◌, ◌++◌, OnOk};
ghost use Rattle.diff_json.specs.Cells.{json_cell};

use crate::strings::push_string;
use diff_words::cells::is_null;
use std::alloc::AllocError;

/// Appends the JSON value `null` if `cell` stands for no value, that is, if it equals the text in
/// the parameter `null`. Otherwise, also if the parameter is `None`, appends `cell` as a JSON
/// string.
#[tactic(auto, unfolding(crate::specs::Cells::json_cell))]
pub(crate) fn push_cell(
    out: &mut Vec<u8>,
    null: &Option<Vec<u8>>,
    cell: &[u8],
) -> Result<(), AllocError>
    ensures { OnOk result
        (out.new.items ≡ out.old.items ++ json_cell (option_map (λ v. v.items) null.now) cell.now) }
{
    if is_null(null, cell) {
        out.extend_from_slice(b"null")?;
        return Ok(());
    }
    push_string(out, cell)?;
    Ok(())
}
