//! Looks for given names among the columns of two tables.

ghost use Rattle.std.specs.Prelude.{◌↔◌, All, IsTrue, MatchOption};
ghost use Rattle.diff_columns.specs.Names.{IsKnown, IsUnknown, names_of};

use crate::names::has_column;
use polars_arrays_flat::byte_rows::ByteRows;

/// Returns whether at least one of two tables has a column with the name `name`. `left` and `right`
/// are arrays with the names of the columns.
fn is_known<L: ByteRows, R: ByteRows>(left: &L, right: &R, name: &[u8]) -> bool
    ensures { IsTrue result ↔ IsKnown (L.strings left.now) (R.strings right.now) name.now }
{
    has_column(left, name) || has_column(right, name)
}

/// Returns the index of the first of `names` that neither table has as the name of a column, or
/// `None` if each is the name of a column. `left` and `right` are arrays with the names of the
/// columns.
pub fn name_unknown<L: ByteRows, R: ByteRows>(left: &L, right: &R, names: &[&[u8]]) -> Option<usize>
    ensures { MatchOption result
        (All (IsKnown (L.strings left.now) (R.strings right.now)) (names_of names.now))
        (IsUnknown (L.strings left.now) (R.strings right.now) (names_of names.now)) }
{
    for k in 0..names.len() {
        if !is_known(left, right, names[k]) {
            return Some(k);
        }
    }
    None
}
