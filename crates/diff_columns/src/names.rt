//! Searches the names of a table's columns (`names`). A column is given as an index.

ghost use Rattle.std.specs.Prelude.{◌<◌, ◌↔◌, All, Contains, length, IsTrue, MatchOption};
ghost use Rattle.diff_columns.specs.Names.{AreDistinct, IsMissing, IsNamed, IsRepeated, names_of};

use polars_arrays_flat::byte_rows::ByteRows;

/// Returns the index of the first column with the name `name`, or `None` if no column has it.
pub(crate) fn column_named<N: ByteRows>(names: &N, name: &[u8]) -> Option<usize>
    ensures { MatchOption result (¬ (Contains (N.strings names.now) name.now))
        (IsNamed (N.strings names.now) name.now) }
{
    for c in 0..names.count() {
        if names.bytes(c) == name {
            return Some(c);
        }
    }
    None
}

/// Returns whether a column with this name exists.
pub(crate) fn has_column<N: ByteRows>(names: &N, name: &[u8]) -> bool
    ensures { IsTrue result ↔ Contains (N.strings names.now) name.now }
{
    column_named(names, name).is_some()
}

/// Returns whether an earlier column has the same name as the column with index `column`.
fn is_repeated<N: ByteRows>(names: &N, column: usize) -> bool
    requires { column < length (N.strings names.now) }
    ensures { IsTrue result ↔ IsRepeated (N.strings names.now) column }
{
    let name = names.bytes(column);
    for d in 0..column {
        if names.bytes(d) == name {
            return true;
        }
    }
    false
}

/// Returns the index of the first column with the same name as an earlier column, or `None` if all
/// names are different.
pub(crate) fn column_repeated<N: ByteRows>(names: &N) -> Option<usize>
    ensures { MatchOption result (AreDistinct (N.strings names.now))
        (IsRepeated (N.strings names.now)) }
{
    for column in 0..names.count() {
        if is_repeated(names, column) {
            return Some(column);
        }
    }
    None
}

/// Returns the index of the first of `keys` that is not the name of a column, or `None` if each is
/// the name of a column.
pub(crate) fn key_missing<N: ByteRows>(names: &N, keys: &[&[u8]]) -> Option<usize>
    ensures { MatchOption result (All (Contains (N.strings names.now)) (names_of keys.now))
        (IsMissing (N.strings names.now) (names_of keys.now)) }
{
    for k in 0..keys.len() {
        if !has_column(names, keys[k]) {
            return Some(k);
        }
    }
    None
}
