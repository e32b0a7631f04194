//! Columns that only one table has.

ghost use Rattle.std.specs.Prelude.{◌<◌, ◌↔◌, length, IfOk, IsTrue};
ghost use Rattle.diff_keys.specs.Rising.{ListsRising};
ghost use Rattle.diff_columns.specs.Layout.{IsAlone};

use crate::choice::Choice;
use crate::names::has_column;
use polars_arrays_flat::byte_rows::ByteRows;
use std::alloc::{AllocError, Global};

/// Returns whether `choice` selects the column with index `column` and the other table has no
/// column with the same name. `names` has the names of this table's columns, and `others` those of
/// the other table's columns.
fn is_alone<N: ByteRows, O: ByteRows>(
    names: &N,
    others: &O,
    choice: &Choice<'_>,
    column: usize,
) -> bool
    requires { column < length (N.strings names.now) }
    ensures { IsTrue result
        ↔ IsAlone choice.now (N.strings names.now) (O.strings others.now) column }
{
    let name = names.bytes(column);
    choice.has(name) && !has_column(others, name)
}

/// Returns the indices of the columns that `choice` selects and that the other table does not have
/// under the same name, in ascending order. `names` has the names of this table's columns, and
/// `others` those of the other table's columns.
pub(crate) fn columns_alone<N: ByteRows, O: ByteRows>(
    alloc: Global,
    names: &N,
    others: &O,
    choice: &Choice<'_>,
) -> Result<Vec<usize>, AllocError>
    ensures { IfOk result
        (λ alone. ListsRising (IsAlone choice.now (N.strings names.now) (O.strings others.now))
        (length (N.strings names.now)) alone.items) }
{
    let mut alone = Vec::new(alloc);
    for i in 0..names.count() {
        if is_alone(names, others, choice, i) {
            alone.push(i)?;
        }
    }
    Ok(alone)
}
