//! Writes the JSON lines of changed, removed and added rows.

ghost use Rattle.std.specs.Prelude.{◌≡◌, ◌<◌, ◌++◌, length, OnOk};
ghost use Rattle.diff_report.specs.Sides.{AreSides, IsSide, naming_of};
ghost use Rattle.diff_json.specs.Lines.{object_of, side_object};

use crate::changes::push_changes;
use crate::keys::push_keys;
use crate::numbers::push_number;
use diff_report::sides::{Side, Sides};
use std::alloc::AllocError;

/// Appends the JSON line of a changed pair, left row `i` and right row `j`: key, row numbers from 1
/// on (`Side::number`), line numbers, and the cells that differ.
pub fn push_pair(out: &mut Vec<u8>, sides: &Sides, i: usize, j: usize) -> Result<(), AllocError>
    requires sides { AreSides sides.now }
    requires left { i < length sides.now.left.table.rows }
    requires right { j < length sides.now.right.table.rows }
    ensures { OnOk result (out.new.items ≡ out.old.items ++ object_of sides.now i j) }
{
    out.extend_from_slice(br#"{"kind":"changed","key":{"#)?;
    push_keys(out, sides, &sides.left, i)?;
    push_number(out, br#"},"left_row":"#, sides.left.number(i))?;
    push_number(out, br#","right_row":"#, sides.right.number(j))?;
    push_number(out, br#","left_line":"#, sides.left.lines[i])?;
    push_number(out, br#","right_line":"#, sides.right.lines[j])?;
    out.extend_from_slice(br#","changes":{"#)?;
    push_changes(out, sides, i, j)?;
    out.extend_from_slice(b"}}\n")?;
    Ok(())
}

/// Appends the JSON line of row `i` of `side`, which has no partner: key, row number from 1 on
/// (`Side::number`) and line number. `kind` is `removed` or `added`.
pub fn push_alone(
    out: &mut Vec<u8>,
    kind: &[u8],
    sides: &Sides,
    side: &Side,
    i: usize,
) -> Result<(), AllocError>
    requires sides { AreSides sides.now }
    requires side { IsSide (naming_of sides.now) side.now }
    requires row { i < length side.now.table.rows }
    ensures { OnOk result
        (out.new.items ≡ out.old.items ++ side_object kind.now (naming_of sides.now) side.now i) }
{
    out.extend_from_slice(br#"{"kind":""#)?;
    out.extend_from_slice(kind)?;
    out.extend_from_slice(br#"","key":{"#)?;
    push_keys(out, sides, side, i)?;
    push_number(out, br#"},"row":"#, side.number(i))?;
    push_number(out, br#","line":"#, side.lines[i])?;
    out.extend_from_slice(b"}\n")?;
    Ok(())
}
